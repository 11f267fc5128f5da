// The rule `pair`: one list has a pair that the other cannot have.
ghost use Rattle.std.specs.Prelude.{◌≡◌, ◌↔◌, IsTrue, false, length};
ghost use Rattle.std.specs.List.{All};
ghost use Rattle.fzn_domain.specs.Narrow.{is_some_empty};
ghost use Rattle.fzn_values.specs.Entries.{IsIndex};
ghost use Rattle.fzn_values.specs.Term.{IsTerm};
ghost use Rattle.fzn_meaning.specs.Meaning.{IsWellFormedConstraint};
ghost use Rattle.fzn_rules.specs.Pair.{HasBrokenPair, IsBroken, IsPairMet};

use fzn_meaning::Constraint;
use fzn_sets::{Sets, is_fixed_to, is_index, may_be, term_at};
use fzn_values::Term;

/// Whether one list of an inverse has the second number at the first, both counted from 1, and the other cannot have the first at the
/// second, or the other way round. No set may be empty. `false` for any other constraint.
#[tactic(auto, unfolding(crate::specs::Pair::IsPairMet, fzn_meaning::specs::Meaning::IsWellFormedConstraint))]
pub fn is_pair_met(constraint: &Constraint, sets: &Sets, first: &i64, second: &i64) -> bool
    requires constraint { IsWellFormedConstraint (length sets.now.present) constraint.now }
    requires nonempty { is_some_empty sets.now.present ≡ false }
    ensures { IsTrue result ↔ IsPairMet constraint.now sets.now.present first.now second.now }
{
    match constraint {
        Constraint::Inverse { forward, backward } => {
            has_broken_pair(sets, first, second, forward.as_slice(), backward.as_slice())
        }
        _ => false,
    }
}

fn has_broken_pair(sets: &Sets, i: &i64, j: &i64, forward: &[Term], backward: &[Term]) -> bool
    requires forward { All (IsTerm (length sets.now.present)) forward.now }
    requires backward { All (IsTerm (length sets.now.present)) backward.now }
    requires nonempty { is_some_empty sets.now.present ≡ false }
    ensures { IsTrue result ↔ HasBrokenPair sets.now.present i.now j.now forward.now backward.now }
{
    if !is_index(forward.len(), i) || !is_index(backward.len(), j) {
        return false;
    }
    is_broken(sets, i, j, forward, backward) || is_broken(sets, j, i, backward, forward)
}

/// Whether one list has the value j at i, and the other cannot have i at j.
fn is_broken(sets: &Sets, i: &i64, j: &i64, there: &[Term], back: &[Term]) -> bool
    requires there { All (IsTerm (length sets.now.present)) there.now }
    requires back { All (IsTerm (length sets.now.present)) back.now }
    requires nonempty { is_some_empty sets.now.present ≡ false }
    requires first { IsIndex (length there.now) i.now }
    requires second { IsIndex (length back.now) j.now }
    ensures { IsTrue result ↔ IsBroken sets.now.present i.now j.now there.now back.now }
{
    is_fixed_to(sets, term_at(there, i), *j) && !may_be(sets, term_at(back, j), i)
}
