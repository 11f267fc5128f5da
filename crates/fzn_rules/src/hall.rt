// The rule `hall`: more places than values.
ghost use Rattle.std.specs.Prelude.{◌≡◌, ◌↔◌, IsTrue, false, length};
ghost use Rattle.std.specs.List.{All, count_by};
ghost use Rattle.fzn_domain.specs.Narrow.{is_some_empty};
ghost use Rattle.fzn_values.specs.Term.{IsTerm};
ghost use Rattle.fzn_meaning.specs.Meaning.{IsWellFormedConstraint};
ghost use Rattle.fzn_rules.specs.Hall.{lies_within, HasExcess, IsHallMet};

use fzn_meaning::Constraint;
use fzn_sets::{Sets, greatest_value, least_value};
use fzn_values::Term;

/// Whether more places than there are numbers from low to high have their sets within them: places of an all different, of a circuit, or of
/// one list of an inverse. It looks at each place once. No set may be empty. `false` for any other constraint.
#[tactic(auto, unfolding(crate::specs::Hall::IsHallMet, fzn_meaning::specs::Meaning::IsWellFormedConstraint))]
pub fn is_hall_met(constraint: &Constraint, sets: &Sets, low: &i64, high: &i64) -> bool
    requires constraint { IsWellFormedConstraint (length sets.now.present) constraint.now }
    requires nonempty { is_some_empty sets.now.present ≡ false }
    ensures { IsTrue result ↔ IsHallMet constraint.now sets.now.present low.now high.now }
{
    match constraint {
        Constraint::AllDifferent { places } => has_excess(sets, low, high, places.as_slice()),
        Constraint::Circuit { successors } => has_excess(sets, low, high, successors.as_slice()),
        Constraint::Inverse { forward, backward } => {
            has_excess(sets, low, high, forward.as_slice())
                || has_excess(sets, low, high, backward.as_slice())
        }
        _ => false,
    }
}

fn has_excess(sets: &Sets, low: &i64, high: &i64, places: &[Term]) -> bool
    requires places { All (IsTerm (length sets.now.present)) places.now }
    requires nonempty { is_some_empty sets.now.present ≡ false }
    ensures { IsTrue result ↔ HasExcess sets.now.present low.now high.now places.now }
{
    if *high < *low {
        return false;
    }
    let numbers = *high as i128 - *low as i128 + 1;
    numbers < count_within(sets, low, high, places) as i128
}

/// How many places lie within low to high.
fn count_within(sets: &Sets, low: &i64, high: &i64, places: &[Term]) -> usize
    requires places { All (IsTerm (length sets.now.present)) places.now }
    requires nonempty { is_some_empty sets.now.present ≡ false }
    ensures { result ≡ count_by (lies_within sets.now.present low.now high.now) places.now }
{
    let mut count = 0;
    for place in places {
        if lies_within(sets, low, high, *place) {
            count += 1;
        }
    }
    count
}

fn lies_within(sets: &Sets, low: &i64, high: &i64, place: Term) -> bool
    requires place { IsTerm (length sets.now.present) place }
    requires nonempty { is_some_empty sets.now.present ≡ false }
    ensures { result ≡ lies_within sets.now.present low.now high.now place }
{
    *low <= least_value(sets, place) && greatest_value(sets, place) <= *high
}
