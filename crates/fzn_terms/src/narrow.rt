// Which terms are narrow: those whose values are looked at one by one. An inference takes out one value, or all beyond a bound; so what
// wide terms may not be is told by their ends alone, and costs no more than the constraint does, however many values they have. Who asks
// has the ends of the term; values are counted only where that decides.
ghost use Rattle.std.specs.Prelude.{◌≡◌, ◌↔◌, ◌≤◌, ◌-ℤ◌, ◌*◌, ◌≤ℤ◌, pos, min, IsTrue, length, max};
ghost use Rattle.std.specs.List.{All};
ghost use Rattle.fzn_values.specs.Term.{IsTerm};
ghost use Rattle.fzn_terms.specs.Intervals.{IsLimitedInterval, ends_of};
ghost use Rattle.fzn_terms.specs.Narrow.{value_count, HasFewValues, IsShort, IsNarrow};

use crate::interval::Interval;
use fzn_trail::Trail;
use fzn_values::Term;

/// So many values are few, however far they lie apart.
pub const FEW_VALUES: usize = 64;

/// A span is short that is at most so many times the number of values that may stay,
pub const SPAN_OF_A_VALUE: usize = 4;

/// and at most this: the set of a longer one is no set of bits.
pub const LONGEST_SPAN: usize = 4_095;

/// How many values are looked at one by one at the most: as many as lie in the longest span.
pub const MOST_VALUES: i64 = 4_096;

/// Whether the term, which has these ends, has few values, or a short span beside so many that may stay.
pub fn is_narrow(trail: &Trail, term: Term, ends: Interval, count: usize) -> bool
    requires term { IsTerm (length trail.now.declared) term }
    requires ends { ends ≡ ends_of trail.now.sets term }
    requires limited { IsLimitedInterval ends }
    ensures { IsTrue result ↔ IsNarrow trail.now.sets term count }
{
    if is_short(ends, count) {
        return true;
    }
    has_few_values(trail, term)
}

/// Whether values are taken out of the term one by one where so many may stay, or few: it is narrow beside them. A variable that was
/// declared over a longer span has to have few values, since its set is kept as a list, which is copied for each value taken out.
pub fn is_thinned(trail: &Trail, term: Term, ends: Interval, count: usize) -> bool
    requires term { IsTerm (length trail.now.declared) term }
    requires ends { ends ≡ ends_of trail.now.sets term }
    requires limited { IsLimitedInterval ends }
    ensures { IsTrue result → IsNarrow trail.now.sets term (max count FEW_VALUES) }
{
    if is_close(trail, term, ends, count.max(FEW_VALUES)) {
        return true;
    }
    has_few_values(trail, term)
}

/// The same where what may stay are the values of these terms.
pub fn is_thinned_beside(trail: &Trail, term: Term, ends: Interval, others: &[Term]) -> bool
    requires term { IsTerm (length trail.now.declared) term }
    requires ends { ends ≡ ends_of trail.now.sets term }
    requires limited { IsLimitedInterval ends }
    requires others { All (IsTerm (length trail.now.declared)) others.now }
    ensures { IsTrue result → IsNarrow trail.now.sets term LONGEST_SPAN }
{
    if is_close(trail, term, ends, FEW_VALUES) {
        return true;
    }
    if is_close(trail, term, ends, LONGEST_SPAN) && is_short_beside(trail, ends, others) {
        return true;
    }
    has_few_values(trail, term)
}

/// Whether the span is short beside this many values, and values are taken out at little cost.
fn is_close(trail: &Trail, term: Term, ends: Interval, count: usize) -> bool
    requires term { IsTerm (length trail.now.declared) term }
    requires ends { ends ≡ ends_of trail.now.sets term }
    requires limited { IsLimitedInterval ends }
    ensures { IsTrue result → IsShort trail.now.sets term count }
{
    if !is_short(ends, count) {
        return false;
    }
    ends.high - ends.low < FEW_VALUES as i64 || is_declared_short(trail, term)
}

/// Whether the span is short beside the values of these terms.
fn is_short_beside(trail: &Trail, ends: Interval, others: &[Term]) -> bool
    requires limited { IsLimitedInterval ends }
    requires others { All (IsTerm (length trail.now.declared)) others.now }
{
    let mut count = 0usize;
    for other in others {
        count = count.saturating_add(value_count(trail, *other));
        if is_short(ends, count) {
            return true;
        }
    }
    false
}

/// How many values the term has.
fn value_count(trail: &Trail, term: Term) -> usize
    requires { IsTerm (length trail.now.declared) term }
    ensures { result ≡ value_count trail.now.sets term }
{
    match term {
        Term::Constant(_) => 1,
        Term::Variable(var) => trail.domain(var).len(),
    }
}

fn has_few_values(trail: &Trail, term: Term) -> bool
    requires { IsTerm (length trail.now.declared) term }
    ensures { IsTrue result ↔ HasFewValues trail.now.sets term }
{
    value_count(trail, term) <= FEW_VALUES
}

/// Whether the span from the one end to the other is short beside this many values.
fn is_short(ends: Interval, count: usize) -> bool
    requires { IsLimitedInterval ends }
    ensures { IsTrue result ↔ ((ends.high -ℤ ends.low) ≤ℤ pos (min (count * SPAN_OF_A_VALUE) LONGEST_SPAN)) }
{
    let longest = count.saturating_mul(SPAN_OF_A_VALUE).min(LONGEST_SPAN);
    ends.high - ends.low <= longest as i64
}

fn is_declared_short(trail: &Trail, term: Term) -> bool
    requires { IsTerm (length trail.now.declared) term }
{
    match term {
        Term::Constant(_) => true,
        Term::Variable(var) => {
            let declared = trail.declared(var);
            !declared.is_empty() && declared.max() - declared.min() <= LONGEST_SPAN as i64
        }
    }
}
