// The rule `cut`: some places, but not all, that lead only to one another.
ghost use Rattle.std.specs.Prelude.{◌↔◌, ◌≤ℤ◌, IsTrue, length};
ghost use Rattle.std.specs.List.{All};
ghost use Rattle.fzn_domain.specs.Ascending.{IsAscending};
ghost use Rattle.fzn_domain.specs.Limits.{IsInLimits};
ghost use Rattle.fzn_values.specs.Entries.{IsIndex};
ghost use Rattle.fzn_values.specs.Term.{IsTerm};
ghost use Rattle.fzn_meaning.specs.Meaning.{IsWellFormedConstraint};
ghost use Rattle.fzn_rules.specs.Cut.{LeadsInto, IsClosed, IsCutMet};
ghost use Rattle.fzn_rules.specs.Runs.{HasAll, HasRun};
ghost use Rattle.fzn_sets.specs.Terms.{term_at};

use fzn_domain::{Domain, place_of};
use fzn_meaning::Constraint;
use fzn_sets::{Sets, is_index, term_at};
use fzn_values::Term;

/// Whether the places, in rising order, are some of a circuit's places, counted from 1, but not all, and lead only to one another. It looks
/// for each run of values of their successors once. `false` for any other constraint.
#[tactic(auto, unfolding(crate::specs::Cut::IsCutMet, fzn_meaning::specs::Meaning::IsWellFormedConstraint))]
pub fn is_cut_met(constraint: &Constraint, sets: &Sets, places: &[i64]) -> bool
    requires { IsWellFormedConstraint (length sets.now.present) constraint.now }
    ensures { IsTrue result ↔ IsCutMet constraint.now sets.now.present places.now }
{
    match constraint {
        Constraint::Circuit { successors } => is_closed(sets, successors.as_slice(), places),
        _ => false,
    }
}

fn is_closed(sets: &Sets, successors: &[Term], places: &[i64]) -> bool
    requires { All (IsTerm (length sets.now.present)) successors.now }
    ensures { IsTrue result ↔ IsClosed sets.now.present successors.now places.now }
{
    if places.is_empty() || successors.len() <= places.len() {
        return false;
    }
    if !is_rising(places) || !are_indices(successors.len(), places) {
        return false;
    }
    lead_into(sets, successors, places)
}

fn is_rising(places: &[i64]) -> bool
    ensures { IsTrue result ↔ IsAscending places.now }
{
    for k in 1..places.len() {
        if places[k] <= places[k - 1] {
            return false;
        }
    }
    true
}

fn are_indices(count: usize, places: &[i64]) -> bool
    ensures { IsTrue result ↔ All (IsIndex count) places.now }
{
    places.iter().all(|place| is_index(count, place))
}

/// Whether the successors of the places lead into the places.
fn lead_into(sets: &Sets, successors: &[Term], places: &[i64]) -> bool
    requires successors { All (IsTerm (length sets.now.present)) successors.now }
    requires rising { IsAscending places.now }
    requires indices { All (IsIndex (length successors.now)) places.now }
    ensures { IsTrue result ↔ All (λ place. LeadsInto sets.now.present places.now (term_at successors.now place)) places.now }
{
    for place in places {
        if !leads_into(sets, places, term_at(successors, place)) {
            return false;
        }
    }
    true
}

fn leads_into(sets: &Sets, places: &[i64], term: Term) -> bool
    requires term { IsTerm (length sets.now.present) term }
    requires rising { IsAscending places.now }
    ensures { IsTrue result ↔ LeadsInto sets.now.present places.now term }
{
    match term {
        Term::Constant(k) => has_run(places, k, k),
        Term::Variable(var) => has_all(places, sets.domain(var)),
    }
}

/// Whether each value of the set is one of the places. It looks for each run of values once.
fn has_all(places: &[i64], domain: &Domain) -> bool
    requires { IsAscending places.now }
    ensures { IsTrue result ↔ HasAll domain.now places.now }
{
    if domain.is_empty() {
        return true;
    }
    let mut low = domain.min();
    loop {
        let high = domain.run_end(low);
        if !has_run(places, low, high) {
            return false;
        }
        match domain.above(high) {
            Some(next) => low = next,
            None => return true,
        }
    }
}

/// Whether the places have each number from low to high.
fn has_run(places: &[i64], low: i64, high: i64) -> bool
    requires rising { IsAscending places.now }
    requires ordered { low ≤ℤ high }
    requires low_in_limits { IsInLimits low }
    requires high_in_limits { IsInLimits high }
    ensures { IsTrue result ↔ HasRun places.now low high }
{
    let first = place_of(places, low);
    let width = (high - low) as usize;
    if places.len() - first <= width {
        return false;
    }
    let last = places[first + width];
    last <= high // Never below it, since the places rise.
}
