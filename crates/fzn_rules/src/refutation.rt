// Whether a rule is met.
ghost use Rattle.std.specs.Prelude.{◌≡◌, ◌↔◌, IsTrue, false, length, List, ℤ};
ghost use Rattle.fzn_domain.specs.Narrow.{is_some_empty, IsWithin};
ghost use Rattle.fzn_meaning.specs.Meaning.{IsWellFormedConstraint, HasBooleanValues, Meets};
ghost use Rattle.fzn_rules.specs.Rules.{IsMet};

use crate::cut::is_cut_met;
use crate::energy::is_energy_met;
use crate::global_rows::is_global_rows_met;
use crate::hall::is_hall_met;
use crate::load::is_load_met;
use crate::pair::is_pair_met;
use crate::rule::Rule;
use crate::separable::is_row_met;
use fzn_builtin_rules::{is_box_met, is_enum_met, is_fixed_met, is_lin_met, is_rows_met};
use fzn_meaning::Constraint;
use fzn_sets::Sets;

/// Whether the rule is met for the constraint on the present sets. A yes means that no choice of one value from each set meets the
/// constraint. No set may be empty. `false` for a constraint that the rule is not for.
pub fn refutes(constraint: &Constraint, sets: &Sets, rule: &Rule) -> bool
    requires constraint { IsWellFormedConstraint (length sets.now.present) constraint.now }
    requires nonempty { is_some_empty sets.now.present ≡ false }
    ensures met { IsTrue result ↔ IsMet constraint.now sets.now.present rule.now }
    ensures sound { IsTrue result → (values : List ℤ) → IsWithin sets.now.present values → HasBooleanValues values constraint.now → Meets constraint.now values → ⊥ }
{
    is_met(constraint, sets, rule)
}

#[tactic(auto, unfolding(crate::specs::Rules::IsMet))]
fn is_met(constraint: &Constraint, sets: &Sets, rule: &Rule) -> bool
    requires constraint { IsWellFormedConstraint (length sets.now.present) constraint.now }
    requires nonempty { is_some_empty sets.now.present ≡ false }
    ensures { IsTrue result ↔ IsMet constraint.now sets.now.present rule.now }
{
    match rule {
        Rule::Lin => is_lin_met(constraint, sets),
        Rule::Rows => { is_rows_met(constraint, sets) || is_global_rows_met(constraint, sets) }
        Rule::Box => is_box_met(constraint, sets),
        Rule::Fixed => is_fixed_met(constraint, sets),
        Rule::Enum => is_enum_met(constraint, sets),
        Rule::Hall(low, high) => is_hall_met(constraint, sets, low, high),
        Rule::Load(time) => is_load_met(constraint, sets, time),
        Rule::Energy(from, until) => is_energy_met(constraint, sets, from, until),
        Rule::Cut(places) => is_cut_met(constraint, sets, places.as_slice()),
        Rule::Pair(first, second) => is_pair_met(constraint, sets, first, second),
        Rule::Row => is_row_met(constraint, sets),
    }
}
