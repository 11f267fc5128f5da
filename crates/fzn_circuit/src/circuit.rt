// The clause of `fzn_circuit` that a way through fixed successors does not come back too soon: by the rule `cut`.
ghost use Rattle.std.specs.Prelude.{◌≡◌, ◌≤◌, ℤ, [], length, IfOk, IfSome, IfNone, OnOk};
ghost use Rattle.std.specs.List.{All, Contains};
ghost use Rattle.std.specs.List.Sorted.{IsSorted};
ghost use Rattle.std.specs.Ordering.{int_cmp};
ghost use Rattle.fzn_domain.specs.Ascending.{IsAscending};
ghost use Rattle.fzn_values.specs.Entries.{IsIndex};
ghost use Rattle.fzn_sets.specs.Terms.{IsFixedTo, term_at};
ghost use Rattle.fzn_propagator.specs.Clause.{IsFalseClause};
ghost use Rattle.fzn_circuit.specs.Circuits.{IsWay, IsAtEnd, HasNoShortWay};
ghost use Rattle.fzn_circuit.specs.Passes.{AreFoundOfCircuit};

use crate::pass::Pass;
use fzn_domain::{Lit, Memory};
use fzn_list::Items;
use fzn_propagator::Findings;
use fzn_rules::Rule;
use fzn_sets::{is_index, term_at};
use fzn_terms::{Claim, explain, force, greatest_of, least_of};
use std::alloc::Global;

/// The one place that the successor of a place can be, where the set holds no other number.
pub(crate) fn only_place(pass: &Pass, place: i64) -> Option<i64>
    requires place { IsIndex (length pass.now.successors.now) place }
    ensures place { IfSome result (IsIndex (length pass.now.successors.now)) }
    ensures fixed { IfSome result (IsFixedTo pass.now.trail.now.sets (term_at pass.now.successors.now place)) }
    ensures none { IfNone result ((next : ℤ) → IsIndex (length pass.now.successors.now) next → IsFixedTo pass.now.trail.now.sets (term_at pass.now.successors.now place) next → ⊥) }
{
    let term = term_at(pass.successors, &place);
    let next = least_of(pass.trail, term);
    if greatest_of(pass.trail, term) != next || !is_index(pass.successors.len(), &next) {
        return None;
    }
    Some(next)
}

/// Follows fixed successors from a place, as far as each is a place, until one leads back to the start or all places may have been seen.
/// Adds to a false clause that one of them leads elsewhere, and gives the last place.
fn follow(
    pass: &Pass,
    start: i64,
    places: &mut Vec<i64>,
    clause: &mut Items<Lit>,
) -> Result<i64, Memory>
    requires start { IsIndex (length pass.now.successors.now) start }
    requires fresh { places.old.items ≡ [] }
    requires still { IsFalseClause pass.now.trail.now clause.old }
    ensures way { IfOk result (λ last. IsWay pass.now.trail.now pass.now.successors.now start last places.new.items clause.new) }
    ensures end { OnOk result (IsAtEnd pass.now.trail.now.sets pass.now.successors.now start places.new.items) }
{
    places.push(start)?;
    let mut last = start;
    for count in 1..pass.successors.len() {
        let Some(next) = only_place(pass, last) else {
            return Ok(last);
        };
        if next == start {
            return Ok(last);
        }
        let leads = Claim::equal(term_at(pass.successors, &last), next);
        explain(pass.trail, leads, clause)?;
        places.push(next)?;
        last = next;
    }
    Ok(last)
}

/// The same numbers, each once.
pub(crate) fn rising(alloc: Global, values: &[i64]) -> Result<Items<i64>, Memory>
    requires { IsSorted int_cmp values.now }
    ensures ascending { IfOk result IsAscending }
    ensures same { IfOk result (λ items. All (Contains values.now) items) }
    ensures all { IfOk result (λ items. All (Contains items) values.now) }
    ensures few { IfOk result (λ items. length items ≤ length values.now) }
{
    let mut items = Items::new(alloc);
    for k in 0..values.len() {
        if k == 0 || values[k - 1] < values[k] {
            items.push(values[k])?;
        }
    }
    Ok(items)
}

/// Finds that the way from the start, counted from 1, through fixed successors does not come back before it has been at all places.
pub(crate) fn find_cut(pass: &Pass, start: i64, found: &mut Findings) -> Result<(), Memory>
    requires start { IsIndex (length pass.now.successors.now) start }
    requires before { AreFoundOfCircuit pass.now found.old }
    ensures found { AreFoundOfCircuit pass.now found.new }
    ensures none { OnOk result (found.new ≡ [] → HasNoShortWay pass.now.trail.now.sets pass.now.successors.now start) }
{
    let _entries = pass.trail.len(); // Each present set lies within its declared one.
    let mut clause = Items::new(pass.alloc);
    let mut way = Vec::new(pass.alloc);
    let last = follow(pass, start, &mut way, &mut clause)?;
    if way.len() >= pass.successors.len() {
        return Ok(());
    }
    way.sort_unstable();
    let places = rising(pass.alloc, &way)?;
    let back = Claim::equal(term_at(pass.successors, &last), start);
    if !force(pass.trail, back, &mut clause)? {
        return Ok(());
    }
    found.hand_over(pass.number, Rule::Cut(places), Some(clause))
}
