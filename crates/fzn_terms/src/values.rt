// The values of terms on a trail.
ghost use Rattle.std.specs.Prelude.{◌≡◌, ◌↔◌, ◌≤ℤ◌, ℤ, false, IsTrue, IfSome, IfNone, length};
ghost use Rattle.std.specs.List.{All};
ghost use Rattle.fzn_domain.specs.Limits.{IsInLimits};
ghost use Rattle.fzn_domain.specs.Narrow.{NoneEmpty};
ghost use Rattle.fzn_values.specs.Term.{IsTerm};
ghost use Rattle.fzn_sets.specs.Terms.{MayBe, least_value, greatest_value};
ghost use Rattle.fzn_terms.specs.Values.{IsNextValue, HasOther, IsOnly, IsFixed};

use fzn_trail::Trail;
use fzn_values::Term;

/// Whether the value is in the present set of the term.
pub fn may_be(trail: &Trail, term: Term, value: &i64) -> bool
    requires term { IsTerm (length trail.now.declared) term }
    ensures { IsTrue result ↔ MayBe trail.now.sets term value.now }
{
    fzn_sets::may_be(trail.sets(), term, value)
}

/// The least value of the term. Each present set has a value.
pub fn least_of(trail: &Trail, term: Term) -> i64
    requires term { IsTerm (length trail.now.declared) term }
    requires filled { NoneEmpty trail.now.sets }
    ensures value { result ≡ least_value trail.now.sets term }
    ensures member { MayBe trail.now.sets term result }
    ensures first { (v : ℤ) → MayBe trail.now.sets term v → result ≤ℤ v }
    ensures in_limits { IsInLimits result }
{
    fzn_sets::least_value(trail.sets(), term)
}

/// The greatest value of the term. Each present set has a value.
pub fn greatest_of(trail: &Trail, term: Term) -> i64
    requires term { IsTerm (length trail.now.declared) term }
    requires filled { NoneEmpty trail.now.sets }
    ensures value { result ≡ greatest_value trail.now.sets term }
    ensures member { MayBe trail.now.sets term result }
    ensures last { (v : ℤ) → MayBe trail.now.sets term v → v ≤ℤ result }
    ensures in_limits { IsInLimits result }
{
    fzn_sets::greatest_value(trail.sets(), term)
}

/// Whether the term has one value. Each present set has a value.
pub fn is_fixed(trail: &Trail, term: Term) -> bool
    requires term { IsTerm (length trail.now.declared) term }
    requires filled { NoneEmpty trail.now.sets }
    ensures { IsTrue result ↔ IsFixed trail.now.sets term }
{
    least_of(trail, term) == greatest_of(trail, term)
}

/// Whether each of the terms has one value. Each present set has a value.
pub fn are_fixed(trail: &Trail, terms: &[Term]) -> bool
    requires terms { All (IsTerm (length trail.now.declared)) terms.now }
    requires filled { NoneEmpty trail.now.sets }
    ensures { IsTrue result ↔ All (IsFixed trail.now.sets) terms.now }
{
    for term in terms {
        if !is_fixed(trail, *term) {
            return false;
        }
    }
    true
}

/// Whether the term has another value than this one. Each present set has a value.
pub fn has_other(trail: &Trail, term: Term, value: &i64) -> bool
    requires term { IsTerm (length trail.now.declared) term }
    requires filled { NoneEmpty trail.now.sets }
    ensures other { IsTrue result → HasOther trail.now.sets term value.now }
    ensures none { result ≡ false → IsOnly trail.now.sets term value.now }
{
    if least_of(trail, term) != *value {
        return true;
    }
    greatest_of(trail, term) != *value
}

/// The least value of the term above this one. `None` where there is none.
pub fn next_value(trail: &Trail, term: Term, value: &i64) -> Option<i64>
    requires term { IsTerm (length trail.now.declared) term }
    ensures found { IfSome result (IsNextValue trail.now.sets term value.now) }
    ensures none { IfNone result ((v : ℤ) → MayBe trail.now.sets term v → v ≤ℤ value.now) }
    ensures in_limits { IfSome result IsInLimits }
{
    match term {
        Term::Constant(k) if *value < k => Some(k),
        Term::Constant(_) => None,
        Term::Variable(var) => trail.domain(var).above(*value),
    }
}
