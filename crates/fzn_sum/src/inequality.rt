// A sum that is to be at most a bound.
ghost use Rattle.std.specs.Prelude.{◌≡◌, ◌≤◌, ◌≤ℤ◌, ◌+ℤ◌, ◌-ℤ◌, pos, length, unsigned_abs, IfOk, IfSome, IfNone};
ghost use Rattle.std.specs.List.{All};
ghost use Rattle.fzn_domain.specs.Narrow.{NoneEmpty};
ghost use Rattle.fzn_values.specs.Term.{IsPlace};
ghost use Rattle.fzn_meaning.specs.declared.relation.Comparison.TheVariants.{AtMost, Equal};
ghost use Rattle.fzn_builtin_rules.specs.Linear.{least_sum};
ghost use Rattle.fzn_propagator.specs.Inference.{IsTight};
ghost use Rattle.fzn_sum.specs.Ends.{AreEnds, AreEnds-prop, ArePlaces-prop};
ghost use Rattle.fzn_sum.specs.Opposite.{opposites, AreOpposite};
ghost use Rattle.fzn_sum.specs.Refuted.{IsSumConflict, IsRefutation, LeavesEach};

use crate::at_most::{explain, floors_of, next_forced};
use crate::ends::{ends_of, turned};
use fzn_builtin_rules::Ends;
use fzn_domain::{Lit, Memory};
use fzn_list::Items;
use fzn_trail::Trail;
use fzn_values::Place;
use std::alloc::Global;

/// A sum that is to be at most a bound, on a trail on which each present set has a value.
#[derive(Clone, Copy)]
pub struct Inequality<'a> {
    /// What the terms may be.
    pub trail: &'a Trail,
    /// The terms of the sum, each with its coefficient.
    pub places: &'a [Place],
    /// What the sum is to be at most: from -2^63 to 2^63.
    pub bound: i128,
    /// The ends of the sum.
    pub ends: Ends,
    ghost fit: { All (IsPlace (length trail.now.declared)) places.now } by { ArePlaces-prop _ _ },
    ghost filled: { NoneEmpty trail.now.sets },
    ghost are_ends: { AreEnds trail.now.sets places.now ends } by { AreEnds-prop _ _ _ },
    ghost bounded: { unsigned_abs bound ≤ 9223372036854775808 },
}

impl<'a> Inequality<'a> {
    /// That the sum of the at most 200,000 places is at most the bound.
    fn new(trail: &'a Trail, places: &'a [Place], bound: i64) -> Inequality<'a>
        requires places { All (IsPlace (length trail.now.declared)) places.now }
        requires short { length places.now ≤ 200000 }
        requires filled { NoneEmpty trail.now.sets }
        ensures trail { result.trail.now ≡ trail.now }
        ensures places { result.places.now ≡ places.now }
        ensures bound { result.bound ≡ bound }
    {
        Inequality {
            trail,
            places,
            bound: i128::from(bound),
            ends: ends_of(trail, places),
        }
    }

    /// That the opposite sum is at most the negative of the bound. The opposite places are those of the sum with their coefficients negated.
    pub fn turned(&self, opposite: &'a [Place]) -> Inequality<'a>
        requires fit { All (IsPlace (length self.now.trail.now.declared)) opposite.now }
        requires opposite { opposite.now ≡ opposites self.now.places.now }
        ensures trail { result.trail.now ≡ self.now.trail.now }
        ensures places { result.places.now ≡ opposite.now }
        ensures bound { result.bound ≡ pos 0 -ℤ self.now.bound }
    {
        Inequality {
            trail: self.trail,
            places: opposite,
            bound: -self.bound,
            ends: turned(self.ends),
        }
    }

    /// A clause that is false on the trail, where the least sum exceeds the bound, and none elsewhere. `Err` where memory runs out.
    pub fn conflict(&self, alloc: Global) -> Result<Option<Items<Lit>>, Memory>
        ensures found { IfOk result (λ found. IfSome found (IsSumConflict self.now.trail.now AtMost self.now.places.now self.now.bound)) }
        ensures none { IfOk result (λ found. IfNone found (least_sum self.now.trail.now.sets self.now.places.now ≤ℤ self.now.bound)) }
    {
        if self.ends.least <= self.bound {
            return Ok(None);
        }
        let floors = floors_of(alloc, self.trail, self.places)?;
        let clause = explain(alloc, floors.as_slice(), self.places.len())?;
        Ok(Some(clause))
    }

    /// How far the sum may rise from its least to the bound, where some place alone may rise further: none where the least sum exceeds the
    /// bound.
    pub fn slack(&self) -> Option<u128>
        ensures found { IfSome result (λ slack. (least_sum self.now.trail.now.sets self.now.places.now +ℤ pos slack) ≡ self.now.bound) }
        ensures none { IfNone result (least_sum self.now.trail.now.sets self.now.places.now ≤ℤ self.now.bound → IsTight self.now.trail.now.sets self.now.places.now self.now.bound) }
    {
        if self.bound < self.ends.least {
            return None;
        }
        let slack = self.bound - self.ends.least;
        if i128::from(self.ends.widest) <= slack {
            return None;
        }
        Some(slack as u128)
    }

    /// A clause that is false, or forces the first place that is forced.
    fn refute(&self, alloc: Global) -> Result<Option<Items<Lit>>, Memory>
        ensures found { IfOk result (λ found. IfSome found (IsRefutation self.now.trail.now AtMost self.now.places.now self.now.bound)) }
        ensures none { IfOk result (λ found. IfNone found (IsTight self.now.trail.now.sets self.now.places.now self.now.bound)) }
    {
        if let Some(clause) = self.conflict(alloc)? {
            return Ok(Some(clause));
        }
        let Some(slack) = self.slack() else {
            return Ok(None);
        };
        let Some(forced) = next_forced(self.trail, self.places, slack, 0) else {
            return Ok(None);
        };
        let floors = floors_of(alloc, self.trail, self.places)?;
        let mut clause = explain(alloc, floors.as_slice(), forced.place)?;
        clause.push(forced.lit)?;
        Ok(Some(clause))
    }
}

/// A clause that is false on the trail, where the least sum of the at most 200,000 places exceeds the bound, and none elsewhere. `Err` where
/// memory runs out.
pub fn conflict_at_most(
    alloc: Global,
    trail: &Trail,
    places: &[Place],
    bound: i64,
) -> Result<Option<Items<Lit>>, Memory>
    requires places { All (IsPlace (length trail.now.declared)) places.now }
    requires short { length places.now ≤ 200000 }
    requires filled { NoneEmpty trail.now.sets }
    ensures found { IfOk result (λ found. IfSome found (IsSumConflict trail.now AtMost places.now bound)) }
    ensures none { IfOk result (λ found. IfNone found (least_sum trail.now.sets places.now ≤ℤ bound)) }
{
    Inequality::new(trail, places, bound).conflict(alloc)
}

/// How far the sum may rise from its least to the bound, where some place alone may rise further: none where the least sum exceeds the
/// bound.
pub fn slack_within(trail: &Trail, places: &[Place], bound: i64) -> Option<u128>
    requires places { All (IsPlace (length trail.now.declared)) places.now }
    requires short { length places.now ≤ 200000 }
    requires filled { NoneEmpty trail.now.sets }
    ensures found { IfSome result (λ slack. (least_sum trail.now.sets places.now +ℤ pos slack) ≡ bound) }
    ensures none { IfNone result (least_sum trail.now.sets places.now ≤ℤ bound → IsTight trail.now.sets places.now bound) }
{
    Inequality::new(trail, places, bound).slack()
}

/// A clause that refutes that the sum is at most the bound, and is false or forces one literal on the trail: none where the sum stays within
/// the bound with any one place at its other end. `Err` where memory runs out.
pub fn refute_at_most(
    alloc: Global,
    trail: &Trail,
    places: &[Place],
    bound: i64,
) -> Result<Option<Items<Lit>>, Memory>
    requires places { All (IsPlace (length trail.now.declared)) places.now }
    requires short { length places.now ≤ 200000 }
    requires filled { NoneEmpty trail.now.sets }
    ensures found { IfOk result (λ found. IfSome found (IsRefutation trail.now AtMost places.now bound)) }
    ensures none { IfOk result (λ found. IfNone found (IsTight trail.now.sets places.now bound)) }
{
    Inequality::new(trail, places, bound).refute(alloc)
}

/// A clause that refutes that the sum is the number, and is false or forces one literal on the trail. The opposite places are the at most
/// 200,000 places with their coefficients negated. `Err` where memory runs out.
pub fn refute_equal(
    alloc: Global,
    trail: &Trail,
    places: &[Place],
    opposite: &[Place],
    number: i64,
) -> Result<Option<Items<Lit>>, Memory>
    requires places { AreOpposite (length trail.now.declared) places.now opposite.now }
    requires filled { NoneEmpty trail.now.sets }
    ensures found { IfOk result (λ found. IfSome found (IsRefutation trail.now Equal places.now number)) }
    ensures none { IfOk result (λ found. IfNone found (LeavesEach trail.now.sets Equal places.now number)) }
{
    let above = Inequality::new(trail, places, number);
    if let Some(clause) = above.refute(alloc)? {
        return Ok(Some(clause));
    }
    above.turned(opposite).refute(alloc)
}
