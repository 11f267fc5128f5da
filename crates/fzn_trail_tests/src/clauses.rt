// Propagation worked out by hand.
ghost use Rattle.std.specs.Prelude.{◌≡◌, length, IfOk, OnOk};
ghost use Rattle.fzn_domain.specs.Narrow.{IsVariable, IsClauseOver};
ghost use Rattle.fzn_trail.specs.Levels.{NoneEmpty};
ghost use Rattle.fzn_clauses.specs.Held.{AllHeld, IsHeld};
ghost use Rattle.fzn_clauses.specs.Watching.{held_by, IsWatching};

use crate::by_hand::{is_filled, lit};
use crate::two_variables::trail_of;
use fzn_clauses::Clauses;
use fzn_domain::{Lit, Memory, Op, VarId};
use fzn_trail::{ClauseId, Trail};
use std::alloc::Global;
use std::test::*;

fn hold(clauses: &mut Clauses, trail: &Trail, first: Lit, second: Lit) -> Result<ClauseId, Memory>
    requires over { AllHeld (IsClauseOver 2) (held_by clauses.old) }
    requires watching { IsWatching clauses.old trail.now }
    requires first_in_range { IsVariable 2 first.var }
    requires second_in_range { IsVariable 2 second.var }
    ensures over { OnOk result (AllHeld (IsClauseOver 2) (held_by clauses.new)) }
    ensures watching { IsWatching clauses.new trail.now }
    ensures held { IfOk result (IsHeld (held_by clauses.new)) }
{
    let _entries = trail.len();
    clauses.add(&[first, second])
}

/// Clauses of which the last forces a literal, and with it each forces one of the clause before it.
fn hold_chain(clauses: &mut Clauses, trail: &Trail) -> Result<(), Memory>
    requires over { AllHeld (IsClauseOver 2) (held_by clauses.old) }
    requires watching { IsWatching clauses.old trail.now }
    ensures over { OnOk result (AllHeld (IsClauseOver 2) (held_by clauses.new)) }
    ensures watching { IsWatching clauses.new trail.now }
{
    let (low, high) = (lit(2, Op::AtMost, 5), lit(2, Op::AtLeast, 6));
    hold(clauses, trail, low, lit(1, Op::Equal, 2))?;
    hold(clauses, trail, lit(1, Op::AtLeast, 4), high)?;
    hold(
        clauses,
        trail,
        lit(1, Op::AtMost, 3),
        lit(1, Op::AtLeast, 10),
    )?;
    Ok(())
}

fn run(clauses: &mut Clauses, trail: &mut Trail) -> Result<Option<ClauseId>, Memory>
    requires over { AllHeld (IsClauseOver 2) (held_by clauses.old) }
    requires watching { IsWatching clauses.old trail.old }
    requires count { length trail.old.declared ≡ 2 }
    requires not_empty { NoneEmpty trail.old.sets }
    ensures same { held_by clauses.new ≡ held_by clauses.old }
    ensures watching { OnOk result (IsWatching clauses.new trail.new) }
    ensures count { length trail.new.declared ≡ 2 }
    ensures not_empty { NoneEmpty trail.new.sets }
{
    clauses.propagate(trail)
}

/// Whether the clauses force three literals, after which x has one value and y four.
fn is_forced(clauses: &mut Clauses, trail: &mut Trail) -> Result<bool, Memory>
    requires over { AllHeld (IsClauseOver 2) (held_by clauses.old) }
    requires watching { IsWatching clauses.old trail.old }
    requires count { length trail.old.declared ≡ 2 }
    requires not_empty { NoneEmpty trail.old.sets }
    ensures same { held_by clauses.new ≡ held_by clauses.old }
    ensures watching { OnOk result (IsWatching clauses.new trail.new) }
    ensures count { length trail.new.declared ≡ 2 }
    ensures not_empty { NoneEmpty trail.new.sets }
{
    let none = run(clauses, trail)?.is_none();
    let (x, y) = (trail.domain(VarId(1)).len(), trail.domain(VarId(2)).len());
    Ok(none && trail.len() == 3 && x == 1 && y == 4)
}

/// Whether one more clause is false, and can be taken out.
fn is_conflict(clauses: &mut Clauses, trail: &mut Trail) -> Result<bool, Memory>
    requires over { AllHeld (IsClauseOver 2) (held_by clauses.old) }
    requires watching { IsWatching clauses.old trail.old }
    requires count { length trail.old.declared ≡ 2 }
    requires not_empty { NoneEmpty trail.old.sets }
{
    let id = hold(
        clauses,
        trail,
        lit(1, Op::NotEqual, 2),
        lit(2, Op::AtMost, 5),
    )?;
    let is_met = run(clauses, trail)? == Some(id) && clauses.looked() > 0;
    let is_there = clauses.len() == 4 && clauses.is_held(id) && clauses.clause(id).len() == 2;
    clauses.remove(id);
    Ok(is_met && is_there && !clauses.is_held(id))
}

fn is_chain(alloc: Global) -> Result<bool, Memory> {
    let mut trail = trail_of(alloc)?;
    let mut clauses = Clauses::new(alloc);
    hold_chain(&mut clauses, &trail)?;
    if !is_filled(&trail, 2) {
        return Ok(false);
    }
    let is_right = is_forced(&mut clauses, &mut trail)?;
    let is_met = is_conflict(&mut clauses, &mut trail)?;
    Ok(is_right && is_met)
}

#[test]
fn a_chain_and_a_conflict(rt: HostRuntime) -> Result<(), Fail> {
    assert!(rt; is_chain(rt.alloc())?);
    Ok(())
}

/// Whether the number of a clause that was taken out is that of another.
fn is_used_again(clauses: &mut Clauses) -> Result<bool, Memory> {
    let id = clauses.add(&[lit(1, Op::AtMost, 3), lit(2, Op::AtMost, 5)])?;
    clauses.remove(id);
    clauses.sweep();
    if (id.0 as usize) >= clauses.len() || clauses.is_held(id) {
        return Ok(false);
    }
    let other = [lit(1, Op::AtLeast, 4)];
    clauses.put(id, &other)?;
    Ok(clauses.len() == 1 && clauses.is_held(id) && clauses.clause(id) == other.as_slice())
}

#[test]
fn a_number_that_is_used_again(rt: HostRuntime) -> Result<(), Fail> {
    let mut clauses = Clauses::new(rt.alloc());
    assert!(rt; is_used_again(&mut clauses)?);
    Ok(())
}
