// What follows from a sum that is not to be a number: its last open place must not take the value that makes it so.
ghost use Rattle.std.specs.Prelude.{◌≡◌, ◌≢◌, ◌↔◌, ◌<◌, ◌≤◌, ◌*◌, ◌+ℤ◌, ◌-ℤ◌, ◌*ℤ◌, ◌≤ℤ◌, ℤ, pos, [], length, unsigned_abs, int_div, IsTrue, IfOk, IfSome, IfNone, slice_index_or};
ghost use Rattle.std.specs.List.{All, AllWithin};
ghost use Rattle.fzn_domain.specs.Limits.{IsInLimits};
ghost use Rattle.fzn_domain.specs.Narrow.{NoneEmpty};
ghost use Rattle.fzn_values.specs.declared.term.Place.{Place};
ghost use Rattle.fzn_values.specs.Term.{IsPlace};
ghost use Rattle.fzn_meaning.specs.declared.relation.Comparison.TheVariants.{NotEqual};
ghost use Rattle.fzn_builtin_rules.specs.Linear.{low_product, least_sum};
ghost use Rattle.fzn_propagator.specs.Barred.{GivesOne, AreSettledBut};
ghost use Rattle.fzn_sum.specs.Pinned.{IsOpenFrom, IsOnlyOpen, IsPin, IsPinned, ArePinned, IsBarring, NoneIsBarred};
ghost use Rattle.fzn_sum.specs.Refuted.{IsSumConflict, IsRefutation, LeavesSome, LeavesEach};

use crate::ends::{least_sum, low_product};
use fzn_domain::{Lit, Memory, Op};
use fzn_list::Items;
use fzn_terms::is_fixed;
use fzn_trail::Trail;
use fzn_values::{Place, Term};
use std::alloc::Global;

/// Whether the place gives one number, whichever value its term takes.
fn gives_one(trail: &Trail, place: Place) -> bool
    requires place { IsPlace (length trail.now.declared) place }
    requires filled { NoneEmpty trail.now.sets }
    ensures { IsTrue result ↔ GivesOne trail.now.sets place }
{
    if place.coefficient == 0 {
        return true;
    }
    is_fixed(trail, place.term)
}

/// The first place from an index on that may give several numbers.
fn next_open(trail: &Trail, places: &[Place], from: usize) -> Option<usize>
    requires places { All (IsPlace (length trail.now.declared)) places.now }
    requires filled { NoneEmpty trail.now.sets }
    ensures found { IfSome result (IsOpenFrom trail.now.sets places.now from) }
    ensures none { IfNone result (AllWithin (GivesOne trail.now.sets) places.now from (length places.now)) }
{
    for i in from..places.len() {
        if !gives_one(trail, places[i]) {
            return Some(i);
        }
    }
    None
}

/// The literal that the variable of a place has another value than its one, where its declared set has others.
fn pin(trail: &Trail, place: Place) -> Option<Lit>
    requires place { IsPlace (length trail.now.declared) place }
    requires filled { NoneEmpty trail.now.sets }
    requires one { GivesOne trail.now.sets place }
    ensures found { IfSome result (IsPin trail.now place) }
    ensures none { IfNone result (IsPinned trail.now [] place) }
{
    let Term::Variable(var) = place.term else {
        return None;
    };
    if place.coefficient == 0 {
        return None;
    }
    let value = trail.domain(var).min();
    let declared = trail.declared(var);
    if declared.min() == declared.max() {
        return None;
    }
    Some(Lit {
        var,
        op: Op::NotEqual,
        value,
    })
}

/// A clause that is false on the trail and says that some place but the one left out gives another number.
fn pins(alloc: Global, trail: &Trail, places: &[Place], except: usize) -> Result<Items<Lit>, Memory>
    requires places { All (IsPlace (length trail.now.declared)) places.now }
    requires filled { NoneEmpty trail.now.sets }
    requires settled { AreSettledBut trail.now.sets places.now except }
    ensures { IfOk result (ArePinned trail.now places.now (length places.now) except) }
{
    let mut clause = Items::new(alloc);
    for i in 0..places.len() {
        if i != except {
            if let Some(lit) = pin(trail, places[i]) {
                clause.push(lit)?;
            }
        }
    }
    Ok(clause)
}

/// Rounded toward zero.
fn quotient(number: i128, coefficient: i64) -> i128
    requires some { coefficient ≢ pos 0 }
    requires bounded { unsigned_abs number ≤ 200002 * 1000000000000000000 }
    ensures { result ≡ int_div number coefficient }
{
    number / i128::from(coefficient)
}

/// The value from low to high at which the coefficient gives the number.
fn value_giving(coefficient: i64, number: i128, low: i64, high: i64) -> Option<i64>
    requires some { coefficient ≢ pos 0 }
    requires small { unsigned_abs coefficient ≤ 1000000000 }
    requires bounded { unsigned_abs number ≤ 200002 * 1000000000000000000 }
    requires low { IsInLimits low }
    requires high { IsInLimits high }
    ensures found { IfSome result (λ value. coefficient *ℤ value ≡ number) }
    ensures within { IfSome result (λ value. (low ≤ℤ value) × (value ≤ℤ high)) }
    ensures none { IfNone result ((value : ℤ) → low ≤ℤ value → value ≤ℤ high → coefficient *ℤ value ≢ number) }
{
    let value = quotient(number, coefficient);
    if value < i128::from(low) {
        return None;
    }
    if i128::from(high) < value {
        return None;
    }
    if i128::from(coefficient) * value != number {
        return None;
    }
    Some(value as i64)
}

/// What the place is to give so that the sum is the number, where the others give their least.
fn missing(trail: &Trail, places: &[Place], place: Place, number: i64) -> i128
    requires places { All (IsPlace (length trail.now.declared)) places.now }
    requires short { length places.now ≤ 200000 }
    requires place { IsPlace (length trail.now.declared) place }
    requires filled { NoneEmpty trail.now.sets }
    requires bounded { unsigned_abs number ≤ 1000000001 }
    ensures value { result ≡ (number -ℤ least_sum trail.now.sets places.now) +ℤ low_product trail.now.sets place }
    ensures bounded { unsigned_abs result ≤ 200002 * 1000000000000000000 }
{
    i128::from(number) - least_sum(trail, places) + low_product(trail, place)
}

/// The literal that a place has not the value with which the sum is the number, where that is one of its values. The other places count
/// with their least.
fn barring(trail: &Trail, places: &[Place], place: Place, number: i64) -> Option<Lit>
    requires places { All (IsPlace (length trail.now.declared)) places.now }
    requires short { length places.now ≤ 200000 }
    requires place { IsPlace (length trail.now.declared) place }
    requires filled { NoneEmpty trail.now.sets }
    requires bounded { unsigned_abs number ≤ 1000000001 }
    requires several { ¬ (GivesOne trail.now.sets place) }
    ensures found { IfSome result (IsBarring trail.now places.now place number) }
    ensures none { IfNone result (NoneIsBarred trail.now.sets places.now place number) }
{
    let Term::Variable(var) = place.term else {
        return None;
    };
    let domain = trail.domain(var);
    let missing = missing(trail, places, place, number);
    let Some(value) = value_giving(place.coefficient, missing, domain.min(), domain.max()) else {
        return None;
    };
    if !domain.contains(value) {
        return None;
    }
    Some(Lit {
        var,
        op: Op::NotEqual,
        value,
    })
}

/// A clause that is false on the trail, where the sum of the at most 200,000 places is the number whichever values its terms take, and none
/// elsewhere. `Err` where memory runs out.
pub fn conflict_not_equal(
    alloc: Global,
    trail: &Trail,
    places: &[Place],
    number: i64,
) -> Result<Option<Items<Lit>>, Memory>
    requires places { All (IsPlace (length trail.now.declared)) places.now }
    requires short { length places.now ≤ 200000 }
    requires filled { NoneEmpty trail.now.sets }
    ensures found { IfOk result (λ found. IfSome found (IsSumConflict trail.now NotEqual places.now number)) }
    ensures none { IfOk result (λ found. IfNone found (LeavesSome trail.now.sets NotEqual places.now number)) }
{
    if let Some(_) = next_open(trail, places, 0) {
        return Ok(None);
    }
    if least_sum(trail, places) != i128::from(number) {
        return Ok(None);
    }
    let clause = pins(alloc, trail, places, places.len())?;
    Ok(Some(clause))
}

/// A clause that is false, or forces the only open place not to take the value at which the sum is the number: none where two places are
/// open, or that is no value of the place. The number lies within 1,000,000,001. `Err` where memory runs out.
pub fn refute_not_equal(
    alloc: Global,
    trail: &Trail,
    places: &[Place],
    number: i64,
) -> Result<Option<Items<Lit>>, Memory>
    requires places { All (IsPlace (length trail.now.declared)) places.now }
    requires short { length places.now ≤ 200000 }
    requires filled { NoneEmpty trail.now.sets }
    requires bounded { unsigned_abs number ≤ 1000000001 }
    ensures found { IfOk result (λ found. IfSome found (IsRefutation trail.now NotEqual places.now number)) }
    ensures none { IfOk result (λ found. IfNone found (LeavesEach trail.now.sets NotEqual places.now number)) }
{
    let _entries = trail.len(); // Each present set lies within its declared one.
    let Some(open) = next_open(trail, places, 0) else {
        return conflict_not_equal(alloc, trail, places, number);
    };
    if let Some(_) = next_open(trail, places, open + 1) {
        return Ok(None);
    }
    let Some(lit) = barring(trail, places, places[open], number) else {
        return Ok(None);
    };
    let mut clause = pins(alloc, trail, places, open)?;
    clause.push(lit)?;
    Ok(Some(clause))
}
