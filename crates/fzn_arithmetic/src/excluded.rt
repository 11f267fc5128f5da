// Intervals of a constraint's places in which nothing meets it.
ghost use Rattle.std.specs.Prelude.{◌≡◌, ◌*◌, ◌≤◌, ◌<ℤ◌, ◌*ℤ◌, ℤ, IsTrue, IsFalse, Some};
ghost use Rattle.fzn_domain.specs.Limits.{IsInLimits};
ghost use Rattle.fzn_domain.specs.IntSet.{width};
ghost use Rattle.fzn_meaning.specs.Arithmetic.{IsArithmetic};
ghost use Rattle.fzn_terms.specs.Intervals.{IsIn, IsLimitedInterval};
ghost use Rattle.fzn_arithmetic.specs.Excluded.{IsProductBeyond, IsAbsoluteBeyond, NoneGives, IsFew, AreFewPairs, IsShapeExcluded};
ghost use Rattle.fzn_fixed.specs.Image.{Admits};

use fzn_fixed::{Image, of_operation};
use fzn_meaning::Operation;
use fzn_terms::Interval;

/// How many numbers are gone over at most.
pub const STEPS: usize = 4_096;

/// What the third place is to the first two.
#[derive(Clone, Copy)]
pub enum Shape {
    Product,
    /// What is left of the quotient, which is rounded toward zero.
    Quotient,
    Remainder,
    /// The absolute value of the first; the second has no part in it.
    Absolute,
}

/// Whether it is sure that no values in the intervals meet the constraint.
#[inline(always)]
pub fn is_excluded(shape: Shape, left: Interval, right: Interval, of: Interval) -> bool
    ensures { IsTrue result → IsShapeExcluded shape left right of }
{
    if !left.is_limited() || !right.is_limited() || !of.is_limited() {
        return false;
    }
    match shape {
        Shape::Product => is_product_beyond(left, right, of),
        Shape::Quotient => is_none_given(Operation::Quotient, left, right, of),
        Shape::Remainder => is_none_given(Operation::Remainder, left, right, of),
        Shape::Absolute => is_absolute_beyond(left, of),
    }
}

// ---- products and absolute values

/// Whether each product is beyond the interval, all on one side.
fn is_product_beyond(left: Interval, right: Interval, of: Interval) -> bool
    requires left { IsLimitedInterval left }
    requires right { IsLimitedInterval right }
    ensures { IsTrue result → IsProductBeyond left right of }
{
    let a = product(&left.low, &right.low);
    let b = product(&left.low, &right.high);
    let c = product(&left.high, &right.low);
    let d = product(&left.high, &right.high);
    let low = of.low as i128;
    let high = of.high as i128;
    if high < a && high < b && high < c && high < d {
        return true;
    }
    if a < low && b < low && c < low && d < low {
        return true;
    }
    false
}

fn product(left: &i64, right: &i64) -> i128
    requires left { IsInLimits left.now }
    requires right { IsInLimits right.now }
    ensures { result ≡ left.now *ℤ right.now }
{
    *left as i128 * *right as i128
}

/// Whether each absolute value is above the interval, or each below.
fn is_absolute_beyond(of: Interval, absolute: Interval) -> bool
    requires of { IsLimitedInterval of }
    requires absolute { IsLimitedInterval absolute }
    ensures { IsTrue result → IsAbsoluteBeyond of absolute }
{
    if absolute.high < 0 || absolute.high < of.low || of.high < -absolute.high {
        return true;
    }
    -absolute.low < of.low && of.high < absolute.low
}

// ---- quotients and remainders

/// Whether there are few pairs of numbers, and none of them gives a number of the third interval.
fn is_none_given(operation: Operation, left: Interval, right: Interval, of: Interval) -> bool
    requires left { IsLimitedInterval left }
    requires right { IsLimitedInterval right }
    ensures { IsTrue result → IsFew left right × NoneGives operation left right of }
{
    if !are_few(left, right) {
        return false;
    }
    for step in 0..STEPS {
        let number = left.low + step as i64;
        if left.high < number {
            return true;
        }
        if !is_none_given_by(operation, &number, right, of) {
            return false;
        }
    }
    false
}

/// Whether there are at most 4,096 pairs.
pub fn are_few(left: Interval, right: Interval) -> bool
    requires left { IsLimitedInterval left }
    requires right { IsLimitedInterval right }
    ensures { IsTrue result → IsFew left right }
{
    let wide = left.high - left.low + 1;
    let high = right.high - right.low + 1;
    are_few_pairs(&wide, &high)
}

/// Whether so many numbers with so many others are at most 4,096 pairs, and some.
fn are_few_pairs(wide: &i64, high: &i64) -> bool
    ensures { IsTrue result → AreFewPairs wide.now high.now }
{
    if 1 <= *wide && *wide <= 4096 && 1 <= *high && *high <= 4096 && product(wide, high) <= 4096 {
        return true;
    }
    false
}

/// Whether this number with none of the interval gives one of the third.
fn is_none_given_by(operation: Operation, left: &i64, right: Interval, of: Interval) -> bool
    requires left { IsInLimits left.now }
    requires right { IsLimitedInterval right }
    ensures { IsTrue result → (y : ℤ) (r : ℤ) → IsIn right y → IsArithmetic operation left.now y r → IsIn of r → ⊥ }
{
    for step in 0..STEPS {
        let number = right.low + step as i64;
        if right.high < number {
            return true;
        }
        if admits_some(of_operation(operation, left, &number), of) {
            return false;
        }
    }
    false
}

/// Whether the image may admit a number of the interval.
fn admits_some(image: Image, of: Interval) -> bool
    ensures { IsFalse result → (r : ℤ) → Admits image (Some r) → IsIn of r → ⊥ }
{
    match image {
        Image::Only(value) => of.low <= value && value <= of.high,
        Image::AllBut(_) => true,
        _ => false,
    }
}
