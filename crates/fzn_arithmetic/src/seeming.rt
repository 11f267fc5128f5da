// Whether nothing in intervals seems to meet a constraint, told divisor by divisor, where `is_excluded` tries each pair of numbers. The
// search for ends asks this over and over; what it finds is tested by `is_excluded` once.
ghost use Rattle.std.specs.Prelude.{◌≢◌, pos};
ghost use Rattle.fzn_terms.specs.Intervals.{IsLimitedInterval};

use crate::excluded::{STEPS, Shape, are_few, is_excluded};
use fzn_terms::Interval;

/// So many divisors are looked at before the ends of all are.
const LOOKS: usize = 4;

/// Whether no values in the intervals seem to meet the constraint.
pub fn seems_excluded(shape: Shape, left: Interval, right: Interval, of: Interval) -> bool {
    match shape {
        Shape::Quotient | Shape::Remainder => {
            left.is_limited()
                && right.is_limited()
                && of.is_limited()
                && is_given_by_no_divisor(shape, left, right, of)
        }
        _ => is_excluded(shape, left, right, of),
    }
}

/// Whether no number of the second interval, as a divisor of one of the first, gives one of the third, and `is_excluded` goes over all of
/// these pairs: they are few, and fewer numbers of the first interval than it takes steps. It goes over the divisors, and where the first
/// few give none it asks by the ends of all.
fn is_given_by_no_divisor(shape: Shape, left: Interval, right: Interval, of: Interval) -> bool
    requires left { IsLimitedInterval left }
    requires right { IsLimitedInterval right }
    requires of { IsLimitedInterval of }
{
    if !are_few(left, right) || STEPS as i64 <= left.high - left.low + 1 {
        return false;
    }
    for step in 0..STEPS {
        let divisor = right.low + step as i64;
        if right.high < divisor {
            return true;
        }
        if step == LOOKS && are_all_beyond(shape, left, right, of) {
            return true;
        }
        if divisor != 0 && is_given_by(shape, left, &divisor, of) {
            return false;
        }
    }
    false
}

/// Whether quotients or remainders of numbers of the intervals seem to lie on one side of the third, however many pairs there are.
pub fn seem_beyond(shape: Shape, left: Interval, right: Interval, of: Interval) -> bool {
    if !left.is_limited() || !right.is_limited() || !of.is_limited() {
        return false;
    }
    match shape {
        Shape::Quotient | Shape::Remainder => are_all_beyond(shape, left, right, of),
        _ => false,
    }
}

/// The same by the divisors below 0 and those above, whose ends alone are looked at.
fn are_all_beyond(shape: Shape, left: Interval, right: Interval, of: Interval) -> bool
    requires left { IsLimitedInterval left }
    requires right { IsLimitedInterval right }
    requires of { IsLimitedInterval of }
{
    !may_reach(shape, left, &right.low, &right.high.min(-1), of)
        && !may_reach(shape, left, &right.low.max(1), &right.high, of)
}

/// Whether divisors from one up to another, all of one sign, may give a number of the second interval, by their ends.
fn may_reach(shape: Shape, left: Interval, low: &i64, high: &i64, of: Interval) -> bool
    requires left { IsLimitedInterval left }
    requires of { IsLimitedInterval of }
{
    if *high < *low || *low == 0 || *high == 0 {
        return false;
    }
    match shape {
        Shape::Quotient => may_reach_quotient(left, low, high, of),
        _ => may_reach_remainder(left, low, high, of),
    }
}

/// The same of quotients, the least and the greatest of which are at ends of both.
fn may_reach_quotient(left: Interval, low: &i64, high: &i64, of: Interval) -> bool
    requires left { IsLimitedInterval left }
    requires low { low.now ≢ pos 0 }
    requires high { high.now ≢ pos 0 }
{
    let (a, b) = (left.low / *low, left.low / *high);
    let (c, d) = (left.high / *low, left.high / *high);
    a.min(b).min(c).min(d) <= of.high && of.low <= a.max(b).max(c).max(d)
}

/// The same of remainders: a dividend that is smaller than each divisor is its own, and others are smaller than a divisor.
fn may_reach_remainder(left: Interval, low: &i64, high: &i64, of: Interval) -> bool {
    let (one, other) = (low.unsigned_abs(), high.unsigned_abs());
    let (below, above) = (
        left.low.min(0).unsigned_abs(),
        left.high.max(0).unsigned_abs(),
    );
    if below.max(above) < one.min(other) {
        return left.low <= of.high && of.low <= left.high;
    }
    let most = one.max(other).saturating_sub(1);
    of.low.max(0).unsigned_abs() <= above.min(most)
        && of.high.min(0).unsigned_abs() <= below.min(most)
}

/// Whether the divisor and some number of the first interval give one of the second.
fn is_given_by(shape: Shape, left: Interval, divisor: &i64, of: Interval) -> bool
    requires left { IsLimitedInterval left }
    requires of { IsLimitedInterval of }
    requires divisor { divisor.now ≢ pos 0 }
{
    match shape {
        Shape::Quotient => is_quotient(left, divisor, of),
        _ => is_remainder(left, divisor, of),
    }
}

/// Whether some quotient lies in the interval: they rise or fall with the dividend, and pass over no number.
fn is_quotient(left: Interval, divisor: &i64, of: Interval) -> bool
    requires left { IsLimitedInterval left }
    requires divisor { divisor.now ≢ pos 0 }
{
    let one = left.low / *divisor;
    let other = left.high / *divisor;
    one.min(other) <= of.high && of.low <= one.max(other)
}

/// Whether some remainder lies in the interval: its sign is that of the dividend.
fn is_remainder(left: Interval, divisor: &i64, of: Interval) -> bool
    requires left { IsLimitedInterval left }
    requires of { IsLimitedInterval of }
    requires divisor { divisor.now ≢ pos 0 }
{
    let size = divisor.unsigned_abs();
    leaves(left.low.max(0), left.high, size, of.low, of.high)
        || leaves((-left.high).max(1), -left.low, size, -of.high, -of.low)
}

/// Whether some number from one up to another, none of them below 0, leaves a remainder from the least to the greatest.
fn leaves(low: i64, high: i64, size: u64, least: i64, greatest: i64) -> bool {
    if high < low || greatest < 0 || size == 0 {
        return false;
    }
    let (low, high) = (low.unsigned_abs(), high.unsigned_abs());
    let (least, greatest) = (least.max(0).unsigned_abs(), greatest.unsigned_abs());
    if size <= high.saturating_sub(low) {
        return least < size;
    }
    let (first, last) = (low % size, high % size);
    if first <= last {
        first <= greatest && least <= last
    } else {
        least <= last || first <= greatest && least < size
    }
}
