// The clause of `fzn_circuit` that some places do not lead only to one another: by the rule `cut`.
ghost use Rattle.std.specs.Prelude.{◌≤ℤ◌, IsTrue, IfOk, length};
ghost use Rattle.std.specs.List.{Contains};
ghost use Rattle.fzn_domain.specs.Ascending.{IsAscending};
ghost use Rattle.fzn_domain.specs.Limits.{IsInLimits};
ghost use Rattle.fzn_domain.specs.Narrow.{IsVariable};
ghost use Rattle.fzn_values.specs.Term.{IsTerm};
ghost use Rattle.fzn_rules.specs.Cut.{LeadsInto};
ghost use Rattle.fzn_terms.specs.Denied.{IsGrown};
ghost use Rattle.fzn_propagator.specs.Clause.{IsFalseClause};
ghost use Rattle.fzn_circuit.specs.Closed.{IsPlaceIf, LeadsIntoBetween};
ghost use Rattle.fzn_circuit.specs.Passes.{AreFoundOfCircuit};

use crate::pass::Pass;
use crate::walk::closed_places;
use fzn_domain::{Domain, Lit, Memory, VarId, place_of};
use fzn_list::Items;
use fzn_propagator::Findings;
use fzn_rules::Rule;
use fzn_sets::{is_index, term_at};
use fzn_terms::{Claim, explain, greatest_of, least_of, may_be};
use fzn_values::Term;

/// A clause of more literals is no inference: its line may be too long.
const MOST_LITERALS: usize = 20_000;

fn is_among(places: &[i64], value: &i64) -> bool
    requires { IsAscending places.now }
    ensures { IsTrue result → Contains places.now value.now }
{
    let k = place_of(places, *value);
    k < places.len() && places[k] == *value
}

/// Down to where each declared value is among the places.
fn low_end(declared: &Domain, places: &[i64], least: &i64) -> i64
    requires rising { IsAscending places.now }
    requires limits { IsInLimits least.now }
    ensures limits { IsInLimits result }
    ensures order { result ≤ℤ least.now }
{
    let mut low = *least;
    for _ in 0..places.len() {
        match declared.below(low) {
            Some(value) if is_among(places, &value) => low = value,
            _ => return low,
        }
    }
    low
}

/// Up to where each declared value is among the places.
fn high_end(declared: &Domain, places: &[i64], greatest: &i64) -> i64
    requires rising { IsAscending places.now }
    requires limits { IsInLimits greatest.now }
    ensures limits { IsInLimits result }
    ensures order { greatest.now ≤ℤ result }
{
    let mut high = *greatest;
    for _ in 0..places.len() {
        match declared.above(high) {
            Some(value) if is_among(places, &value) => high = value,
            _ => return high,
        }
    }
    high
}

/// Adds to a false clause what it takes to say that the value, where the term has it, is one of the places. `false` where it is not.
fn explain_value(
    pass: &Pass,
    term: Term,
    places: &[i64],
    value: &i64,
    clause: &mut Items<Lit>,
) -> Result<bool, Memory>
    requires term { IsTerm (length pass.now.trail.now.declared) term }
    requires rising { IsAscending places.now }
    requires limits { IsInLimits value.now }
    requires still { IsFalseClause pass.now.trail.now clause.old }
    ensures { IfOk result (λ is_place. IsTrue is_place → IsGrown pass.now.trail.now (IsPlaceIf places.now term value.now) clause.old clause.new) }
{
    if is_among(places, value) {
        return Ok(true);
    }
    if may_be(pass.trail, term, value) || MOST_LITERALS <= clause.len() {
        return Ok(false);
    }
    explain(pass.trail, Claim::other_than(term, *value), clause)?;
    Ok(true)
}

/// Adds to a false clause what it takes to say that the values of the variable from low to high are among the places.
fn explain_between(
    pass: &Pass,
    var: VarId,
    places: &[i64],
    low: &i64,
    high: &i64,
    clause: &mut Items<Lit>,
) -> Result<bool, Memory>
    requires var { IsVariable (length pass.now.trail.now.declared) var }
    requires rising { IsAscending places.now }
    requires limits { IsInLimits low.now }
    requires still { IsFalseClause pass.now.trail.now clause.old }
    ensures { IfOk result (λ are_places. IsTrue are_places → IsGrown pass.now.trail.now (LeadsIntoBetween places.now var low.now high.now) clause.old clause.new) }
{
    let declared = pass.trail.declared(var);
    let mut value = *low;
    for _ in 0..declared.len() {
        if !explain_value(pass, Term::Variable(var), places, &value, clause)? {
            return Ok(false);
        }
        let Some(next) = declared.above(value) else {
            return Ok(true);
        };
        if *high < next {
            return Ok(true);
        }
        value = next;
    }
    Ok(false)
}

/// Adds to a false clause what it takes to say that each value of the term is one of the places. `false` where one is not.
fn explain_within(
    pass: &Pass,
    term: Term,
    places: &[i64],
    clause: &mut Items<Lit>,
) -> Result<bool, Memory>
    requires term { IsTerm (length pass.now.trail.now.declared) term }
    requires rising { IsAscending places.now }
    requires still { IsFalseClause pass.now.trail.now clause.old }
    ensures { IfOk result (λ leads. IsTrue leads → IsGrown pass.now.trail.now (λ sets. LeadsInto sets places.now term) clause.old clause.new) }
{
    let var = match term {
        Term::Constant(k) => return Ok(is_among(places, &k)),
        Term::Variable(var) => var,
    };
    let declared = pass.trail.declared(var);
    let low = low_end(declared, places, &least_of(pass.trail, term));
    let high = high_end(declared, places, &greatest_of(pass.trail, term));
    explain(pass.trail, Claim::at_least(term, low), clause)?;
    explain(pass.trail, Claim::at_most(term, high), clause)?;
    explain_between(pass, var, places, &low, &high, clause)
}

/// Finds that places which lead only to one another, where the walk finds any, do not.
pub(crate) fn find_closed(pass: &Pass, found: &mut Findings) -> Result<(), Memory>
    requires before { AreFoundOfCircuit pass.now found.old }
    ensures { AreFoundOfCircuit pass.now found.new }
{
    let Some(places) = closed_places(pass)? else {
        return Ok(());
    };
    let list = places.as_slice();
    if list.is_empty() || pass.successors.len() <= list.len() {
        return Ok(());
    }
    let mut clause = Items::new(pass.alloc);
    for place in list {
        if !is_index(pass.successors.len(), place) {
            return Ok(());
        }
        if !explain_within(pass, term_at(pass.successors, place), list, &mut clause)? {
            return Ok(());
        }
    }
    found.hand_over(pass.number, Rule::Cut(places), Some(clause))
}
