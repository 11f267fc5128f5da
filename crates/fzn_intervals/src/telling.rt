// An interval that says something of a place.
ghost use Rattle.std.specs.Prelude.{◌≡◌, IsTrue, IfOk, IfSome};
ghost use Rattle.std.specs.List.{count_by};
ghost use Rattle.fzn_intervals.specs.Full.{is_within, moved_in, IsFull};

use crate::ends::{Ends, Interval};
use crate::line::may_be_full;
use crate::links::full_interval;
use fzn_domain::Memory;
use std::alloc::Global;

/// How many places lie in the interval.
fn count_within(places: &[Ends], interval: &Interval) -> usize
    ensures { result ≡ count_by (is_within interval.now) places.now }
{
    places
        .iter()
        .filter(|ends| ends.is_within(interval))
        .count()
}

/// Whether at least as many places lie in the interval as it has numbers.
fn is_full(places: &[Ends], interval: &Interval) -> bool
    ensures { IsTrue result → IsFull places.now interval.now }
{
    let count = count_within(places, interval);
    (interval.high as i128) - (interval.low as i128) < count as i128
}

/// The places of which one end lies in the interval, and the other does not, in the order in which they are given. It answers `Err` where
/// memory runs out.
pub fn moved_by(alloc: Global, places: &[Ends], interval: &Interval) -> Result<Vec<usize>, Memory>
    ensures { IfOk result (λ moved. moved.items ≡ moved_in interval.now places.now) }
{
    places
        .iter()
        .filter(|ends| ends.is_moved(interval))
        .map(|ends| ends.place)
        .collect(alloc)
}

/// Whether an interval in which so many places lie says something: they are more than its numbers, or it moves a place.
fn is_telling(places: &[Ends], interval: &Interval, count: usize) -> bool {
    if (interval.high as i128) - (interval.low as i128) + 1 < count as i128 {
        return true;
    }
    places.iter().any(|ends| ends.is_moved(interval))
}

/// The same ends with each number negated, by the upper end.
fn turned(alloc: Global, places: &[Ends]) -> Result<Vec<Ends>, Memory> {
    let mut turned = Vec::with_capacity(alloc, places.len())?;
    for ends in places {
        turned.push(Ends {
            place: ends.place,
            low: ends.high.saturating_neg(),
            high: ends.low.saturating_neg(),
        })?;
    }
    turned.sort_by_key(|ends| ends.high)?;
    Ok(turned)
}

/// An interval that says something of the places' upper ends: one that says so of the lower ends where each number is negated.
fn interval_below(alloc: Global, places: &[Ends]) -> Result<Option<Interval>, Memory> {
    let turned = turned(alloc, places)?;
    let Some(interval) = full_interval(alloc, turned.as_slice())? else {
        return Ok(None);
    };
    Ok(Some(Interval {
        low: interval.high.saturating_neg(),
        high: interval.low.saturating_neg(),
    }))
}

/// Up to how many places each pair of ends is looked at: with fewer that costs less than to keep account of intervals.
const FEW: usize = 128;

/// The first interval that says something, by its lower end: about the square of the number of places with several values. One that ends
/// at the value of a place that has one is passed over: without that value it says as much.
fn first_interval(places: &[Ends]) -> Option<Interval> {
    for first in places {
        if first.is_open() {
            if let Some(interval) = interval_from(places, first.low) {
                return Some(interval);
            }
        }
    }
    None
}

/// The first interval from this number on that says something.
fn interval_from(places: &[Ends], low: i64) -> Option<Interval> {
    let mut count: usize = 0;
    for ends in places {
        if low <= ends.low {
            count = count.saturating_add(1);
            let interval = Interval {
                low,
                high: ends.high,
            };
            if ends.is_open()
                && ends.is_full_from(low, count)
                && is_telling(places, &interval, count)
            {
                return Some(interval);
            }
        }
    }
    None
}

/// An interval that says something, where there is one, of places by their upper ends.
fn some_interval(alloc: Global, places: &[Ends]) -> Result<Option<Interval>, Memory> {
    if places.len() <= FEW {
        return Ok(first_interval(places));
    }
    if let Some(interval) = full_interval(alloc, places)? {
        return Ok(Some(interval));
    }
    interval_below(alloc, places)
}

/// An interval in which at least as many of the places lie as it has numbers, and which says something of a place: more lie there, or one
/// end of another place does. The places are put in the order of their upper ends, if they are looked at one by one. `None` promises
/// nothing; where no interval is full, that is mostly told at once. It takes about n log n steps for n places, and the square of few. It
/// answers `Err` where memory runs out.
pub fn telling_interval(alloc: Global, places: &mut Vec<Ends>) -> Result<Option<Interval>, Memory>
    ensures { IfOk result (λ found. IfSome found (IsFull places.new.items)) }
{
    if !may_be_full(alloc, places)? {
        return Ok(None);
    }
    places.sort_by_key(|ends| ends.high)?;
    let Some(interval) = some_interval(alloc, places.as_slice())? else {
        return Ok(None);
    };
    if is_full(places.as_slice(), &interval) {
        Ok(Some(interval))
    } else {
        Ok(None)
    }
}
