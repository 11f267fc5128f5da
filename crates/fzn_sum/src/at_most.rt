// What each place of a sum gave at least, and what it is forced to where the sum may rise so far above its least.
ghost use Rattle.std.specs.Prelude.{◌<◌, ◌≤ℤ◌, ◌+ℤ◌, pos, List, [], length, IfOk, IfSome, IfNone, slice_index_or};
ghost use Rattle.std.specs.List.{All, AllWithin};
ghost use Rattle.fzn_domain.specs.Narrow.{NoneEmpty};
ghost use Rattle.fzn_values.specs.declared.term.Place.{Place};
ghost use Rattle.fzn_values.specs.Term.{IsPlace};
ghost use Rattle.fzn_builtin_rules.specs.Linear.{least_sum};
ghost use Rattle.fzn_propagator.specs.Inference.{spread_of_place};
ghost use Rattle.fzn_trail.specs.Levels.{Levels};
ghost use Rattle.fzn_sum.specs.Explained.{IsPlaceExplained, IsFloor, IsForcedBySlack, IsForcedAt, ExplainsPlaces, AreFloors};
ghost use Rattle.fzn_sum.specs.Refuted.{IsRefutation};
ghost use Rattle.fzn_meaning.specs.declared.relation.Comparison.TheVariants as sum;

use fzn_domain::{Lit, Memory, Op};
use fzn_list::Items;
use fzn_trail::Trail;
use fzn_values::{Place, Term};
use std::alloc::Global;

/// How many literals there is room for, at most, where a clause or a list is begun. It grows from there.
const ROOM: usize = 32;

/// The literal that says that the place gave no less, where its declared set does not say so.
fn floor(trail: &Trail, place: Place) -> Option<Lit>
    requires place { IsPlace (length trail.now.declared) place }
    requires filled { NoneEmpty trail.now.sets }
    ensures found { IfSome result (IsFloor trail.now place) }
    ensures none { IfNone result (IsPlaceExplained trail.now [] place) }
{
    let Term::Variable(var) = place.term else {
        return None;
    };
    let domain = trail.domain(var);
    let declared = trail.declared(var);
    if place.coefficient < 0 {
        let high = domain.max();
        if declared.max() <= high {
            return None;
        }
        Some(Lit {
            var,
            op: Op::AtLeast,
            value: high + 1,
        })
    } else {
        let low = domain.min();
        if low <= declared.min() {
            return None;
        }
        Some(Lit {
            var,
            op: Op::AtMost,
            value: low - 1,
        })
    }
}

/// The literal that a place is forced to, where it may give more than its least by more than the slack.
fn force(trail: &Trail, place: Place, slack: u128) -> Option<Lit>
    requires place { IsPlace (length trail.now.declared) place }
    requires filled { NoneEmpty trail.now.sets }
    ensures found { IfSome result (IsForcedBySlack trail.now place slack) }
    ensures none { IfNone result (spread_of_place trail.now.sets place ≤ℤ pos slack) }
{
    let Term::Variable(var) = place.term else {
        return None;
    };
    let domain = trail.domain(var);
    let low = domain.min();
    let high = domain.max();
    let magnitude = u128::from(place.coefficient.unsigned_abs());
    let width = u128::from((high - low) as u64);
    if magnitude * width <= slack {
        return None;
    }
    let step = (slack / magnitude) as i64;
    if place.coefficient < 0 {
        Some(Lit {
            var,
            op: Op::AtLeast,
            value: high - step,
        })
    } else {
        Some(Lit {
            var,
            op: Op::AtMost,
            value: low + step,
        })
    }
}

/// The literal that the place at this index is forced to.
#[derive(Clone, Copy)]
pub struct Forced {
    /// The index of the place, counted from 0.
    pub place: usize,
    /// What it is forced to.
    pub lit: Lit,
}

/// The first place from an index on, both counted from 0, that is forced, where the sum may rise by this slack above its least. `None`
/// where none is forced. Each present set has a value.
pub fn next_forced(trail: &Trail, places: &[Place], slack: u128, from: usize) -> Option<Forced>
    requires places { All (IsPlace (length trail.now.declared)) places.now }
    requires filled { NoneEmpty trail.now.sets }
    ensures found { IfSome result (IsForcedAt trail.now places.now slack) }
    ensures before { IfSome result (λ forced. AllWithin (λ place. spread_of_place trail.now.sets place ≤ℤ pos slack) places.now from forced.place) }
    ensures none { IfNone result (AllWithin (λ place. spread_of_place trail.now.sets place ≤ℤ pos slack) places.now from (length places.now)) }
{
    for i in from..places.len() {
        if let Some(lit) = force(trail, places[i], slack) {
            return Some(Forced { place: i, lit });
        }
    }
    None
}

/// The literal that says that the place at this index gave no less.
#[derive(Clone, Copy)]
pub struct PlaceFloor {
    place: usize,
    lit: Lit,
}

/// That of each place, where its declared set does not say so. `Err` where memory runs out.
pub fn floors_of(
    alloc: Global,
    trail: &Trail,
    places: &[Place],
) -> Result<Items<PlaceFloor>, Memory>
    requires places { All (IsPlace (length trail.now.declared)) places.now }
    requires filled { NoneEmpty trail.now.sets }
    ensures { IfOk result (AreFloors trail.now places.now (length places.now)) }
{
    let mut floors = Items::with_capacity(alloc, places.len().min(ROOM))?;
    for i in 0..places.len() {
        if let Some(lit) = floor(trail, places[i]) {
            floors.push(PlaceFloor { place: i, lit })?;
        }
    }
    Ok(floors)
}

/// A clause that is false on the trail and says that all places but one gave no less.
pub(crate) fn explain(
    alloc: Global,
    floors: &[PlaceFloor],
    except: usize,
) -> Result<Items<Lit>, Memory>
    ensures { IfOk result (λ clause. (trail : Levels) (places : List Place) → All (IsPlace (length trail.declared)) places → AreFloors trail places (length places) floors.now → ExplainsPlaces trail places (length places) except clause) }
{
    let mut clause = Items::with_capacity(alloc, floors.len().saturating_add(1))?;
    for i in 0..floors.len() {
        if floors[i].place != except {
            clause.push(floors[i].lit)?;
        }
    }
    Ok(clause)
}

/// A clause that refutes that the sum is at most its least and this slack, where this place is forced, and none elsewhere. `Err` where memory
/// runs out.
pub fn refute_place(
    alloc: Global,
    trail: &Trail,
    places: &[Place],
    floors: &[PlaceFloor],
    slack: u128,
    place: usize,
) -> Result<Option<Items<Lit>>, Memory>
    requires places { All (IsPlace (length trail.now.declared)) places.now }
    requires floors { AreFloors trail.now places.now (length places.now) floors.now }
    requires place { place < length places.now }
    requires filled { NoneEmpty trail.now.sets }
    ensures found { IfOk result (λ found. IfSome found (IsRefutation trail.now sum.AtMost places.now (least_sum trail.now.sets places.now +ℤ pos slack))) }
    ensures none { IfOk result (λ found. IfNone found ((default : Place) → spread_of_place trail.now.sets (slice_index_or places.now place default) ≤ℤ pos slack)) }
{
    let Some(lit) = force(trail, places[place], slack) else {
        return Ok(None);
    };
    let mut clause = explain(alloc, floors, place)?;
    clause.push(lit)?;
    Ok(Some(clause))
}
