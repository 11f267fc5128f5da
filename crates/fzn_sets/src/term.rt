// Values, ends and indices of terms.
ghost use Rattle.std.specs.Prelude.{◌≡◌, ◌↔◌, IsTrue, false, length, ℕ};
ghost use Rattle.std.specs.List.{All};
ghost use Rattle.fzn_domain.specs.Limits.{IsInLimits};
ghost use Rattle.fzn_domain.specs.Narrow.{is_some_empty};
ghost use Rattle.fzn_values.specs.Entries.{IsIndex};
ghost use Rattle.fzn_values.specs.Term.{IsTerm};
ghost use Rattle.fzn_sets.specs.Terms.{MayBe, least_value, greatest_value, IsFixedTo, term_at};

use crate::sets::Sets;
use fzn_values::Term;

/// Whether the value is in the set of the term.
pub fn may_be(sets: &Sets, term: Term, value: &i64) -> bool
    requires { IsTerm (length sets.now.present) term }
    ensures { IsTrue result ↔ MayBe sets.now.present term value.now }
{
    match term {
        Term::Constant(k) => k == *value,
        Term::Variable(var) => sets.domain(var).contains(*value),
    }
}

/// The least value of the term. No set may be empty.
#[tactic(auto, using(crate::proofs::ValueLemmas::some_value))]
pub fn least_value(sets: &Sets, term: Term) -> i64
    requires term { IsTerm (length sets.now.present) term }
    requires nonempty { is_some_empty sets.now.present ≡ false }
    ensures value { result ≡ least_value sets.now.present term }
    ensures in_limits { IsInLimits result }
{
    match term {
        Term::Constant(value) => value,
        Term::Variable(var) => sets.domain(var).min(),
    }
}

/// The greatest value of the term. No set may be empty.
#[tactic(auto, using(crate::proofs::ValueLemmas::some_value))]
pub fn greatest_value(sets: &Sets, term: Term) -> i64
    requires term { IsTerm (length sets.now.present) term }
    requires nonempty { is_some_empty sets.now.present ≡ false }
    ensures value { result ≡ greatest_value sets.now.present term }
    ensures in_limits { IsInLimits result }
{
    match term {
        Term::Constant(value) => value,
        Term::Variable(var) => sets.domain(var).max(),
    }
}

/// Whether the value is the only one of the term. No set may be empty.
pub fn is_fixed_to(sets: &Sets, term: Term, value: i64) -> bool
    requires term { IsTerm (length sets.now.present) term }
    requires nonempty { is_some_empty sets.now.present ≡ false }
    ensures { IsTrue result ↔ IsFixedTo sets.now.present term value }
{
    least_value(sets, term) == value && greatest_value(sets, term) == value
}

/// Whether the number is an index of a list of this many entries, from 1.
pub fn is_index(count: usize, index: &i64) -> bool
    ensures { IsTrue result ↔ IsIndex count index.now }
{
    1 <= *index && *index as i128 <= count as i128
}

/// The term at an index, from 1.
pub fn term_at(terms: &[Term], index: &i64) -> Term
    requires { IsIndex (length terms.now) index.now }
    ensures value { result ≡ term_at terms.now index.now }
    ensures same { (count : ℕ) → All (IsTerm count) terms.now → IsTerm count result }
{
    terms[*index as usize - 1]
}
