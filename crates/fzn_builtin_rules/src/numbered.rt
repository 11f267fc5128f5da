// Choices by number: each term takes the member that its digit names.
ghost use Rattle.std.specs.Prelude.{◌≡◌, ◌<◌, false, length};
ghost use Rattle.fzn_domain.specs.IntSet.{size};
ghost use Rattle.fzn_domain.specs.Limits.{IsInLimits};
ghost use Rattle.fzn_domain.specs.Narrow.{is_some_empty};
ghost use Rattle.fzn_values.specs.Term.{IsTerm};
ghost use Rattle.fzn_builtin_rules.specs.Choices.{count_of};
ghost use Rattle.fzn_builtin_rules.specs.Numbered.{nth_member, value_in, rest_in};

use fzn_domain::Domain;
use fzn_sets::Sets;
use fzn_values::Term;

/// How many values the term may have.
#[tactic(auto, using(fzn_sets::proofs::CallerLemmas::some_value))]
pub(crate) fn count_of(sets: &Sets, term: Term) -> usize
    requires term { IsTerm (length sets.now.present) term }
    requires nonempty { is_some_empty sets.now.present ≡ false }
    ensures value { result ≡ count_of sets.now.present term }
    ensures some { 0 < result }
{
    match term {
        Term::Constant(_) => 1,
        Term::Variable(var) => sets.domain(var).len(),
    }
}

/// The member that so many members are below.
fn nth_member(set: &Domain, n: usize) -> i64
    requires { n < size set.now }
    ensures value { result ≡ nth_member set.now n }
    ensures in_limits { IsInLimits result }
{
    set.nth(n)
}

/// The value of the term in the choice with this number.
#[tactic(auto, using(fzn_sets::proofs::CallerLemmas::some_value), unfolding(crate::specs::Numbered::value_in))]
pub(crate) fn value_in(sets: &Sets, term: Term, number: usize) -> i64
    requires term { IsTerm (length sets.now.present) term }
    requires nonempty { is_some_empty sets.now.present ≡ false }
    ensures value { result ≡ value_in sets.now.present term number }
    ensures in_limits { IsInLimits result }
{
    match term {
        Term::Constant(k) => k,
        Term::Variable(var) => {
            let set = sets.domain(var);
            nth_member(set, number % set.len())
        }
    }
}

/// What of the choice's number is left for the terms behind.
#[tactic(auto, unfolding(crate::specs::Numbered::rest_in))]
pub(crate) fn rest_in(sets: &Sets, term: Term, number: usize) -> usize
    requires term { IsTerm (length sets.now.present) term }
    requires nonempty { is_some_empty sets.now.present ≡ false }
    ensures { result ≡ rest_in sets.now.present term number }
{
    number / count_of(sets, term)
}
