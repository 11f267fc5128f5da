// Places that lead only to one another, by a walk along possible successors that looks at each once: R. Tarjan, Depth-first search and
// linear graph algorithms, 1972. No contract rests on which places these are.
ghost use Rattle.std.specs.Prelude.{IfOk, IfSome};
ghost use Rattle.fzn_domain.specs.Ascending.{IsAscending};

use crate::circuit::rising;
use crate::pass::Pass;
use fzn_domain::Memory;
use fzn_list::Items;
use fzn_sets::is_index;
use fzn_terms::{may_be, next_value};
use std::alloc::Global;

/// A place on the way from the first one. Places are counted from 0, and by the order in which they were seen from 1.
#[derive(Clone, Copy, Debug)]
struct Stop {
    place: usize,
    /// Its successors up to this one have been seen.
    upto: i64,
    /// The first seen of the places to which what was seen behind this one leads.
    back: usize,
}

/// A walk from the first place.
#[derive(Debug, Drop)]
struct Walk {
    seen: Vec<usize>,
    /// The number of each place among those seen; 0 where it was not.
    numbers: Vec<usize>,
    /// From each place that was seen on to one that was not; to itself where it was not.
    onward: Vec<usize>,
    way: Vec<Stop>,
}

fn at(list: &[usize], k: usize, default: usize) -> usize {
    list.get(k).copied().unwrap_or(default)
}

fn put(list: &mut [usize], k: usize, number: usize) {
    if k < list.len() {
        list[k] = number;
    }
}

/// The place that a successor is, counted from 0.
fn place_of(count: usize, value: i64) -> Option<usize> {
    if !is_index(count, &value) {
        return None;
    }
    Some(value as usize - 1)
}

impl Walk {
    fn new(alloc: Global, count: usize) -> Result<Walk, Memory> {
        let mut onward = Vec::with_capacity(alloc, count)?;
        for place in 0..count {
            onward.push(place)?;
        }
        Ok(Walk {
            seen: Vec::with_capacity(alloc, count)?,
            numbers: Vec::from_elem(alloc, 0, count)?,
            onward,
            way: Vec::with_capacity(alloc, count)?,
        })
    }

    fn enter(&mut self, place: usize) -> Result<(), Memory> {
        self.seen.push(place)?;
        let back = self.seen.len();
        put(&mut self.numbers, place, back);
        put(&mut self.onward, place, place.saturating_add(1));
        self.way.push(Stop {
            place,
            upto: 0,
            back,
        })?;
        Ok(())
    }

    /// The first place from this one on that was not seen.
    fn unseen_from(&mut self, from: usize) -> usize {
        let mut place = from;
        for _ in 0..self.onward.len() {
            let next = at(&self.onward, place, place);
            if next <= place {
                return place;
            }
            let after = at(&self.onward, next, next);
            put(&mut self.onward, place, after);
            place = after;
        }
        place
    }

    /// The next successor of the place that was not seen.
    fn next_of(&mut self, pass: &Pass, stop: &mut Stop) -> Option<usize> {
        let count = pass.successors.len();
        if stop.place >= count {
            return None;
        }
        let term = pass.successors[stop.place];
        for _ in 0..count {
            let value = next_value(pass.trail, term, &stop.upto)?;
            let place = place_of(count, value)?;
            let unseen = self.unseen_from(place).min(count);
            if unseen == place {
                stop.upto = value;
                return Some(place);
            }
            stop.upto = unseen as i64;
        }
        None
    }

    /// The first seen of the successors of a place, where all of them were seen, by its number; that of the place where none was seen
    /// before it. It looks at the places that were seen and at the successors by turns, until it has looked at all of either.
    fn back_from(&self, pass: &Pass, place: usize) -> usize {
        let mut back = at(&self.numbers, place, 0);
        let count = pass.successors.len();
        if place >= count {
            return back;
        }
        let term = pass.successors[place];
        let mut upto = 0;
        for k in 0..back.min(self.seen.len()) {
            let seen = self.seen[k].min(count) as i64 + 1;
            if may_be(pass.trail, term, &seen) {
                return back.min(k + 1);
            }
            let Some(value) = next_value(pass.trail, term, &upto) else {
                return back;
            };
            if let Some(next) = place_of(count, value) {
                back = back.min(at(&self.numbers, next, back));
            }
            upto = value;
        }
        back
    }

    /// Goes on to a place that was not seen, or back. Gives the number of a place where all that is reached from there was seen since.
    fn go_on(&mut self, pass: &Pass) -> Result<Option<usize>, Memory> {
        let Some(mut stop) = self.way.pop() else {
            return Ok(None);
        };
        if let Some(place) = self.next_of(pass, &mut stop) {
            self.way.push(stop)?;
            self.enter(place)?;
            return Ok(None);
        }
        let number = at(&self.numbers, stop.place, 0);
        let back = stop.back.min(self.back_from(pass, stop.place));
        if number <= back {
            return Ok(Some(number));
        }
        self.hand_back(back);
        Ok(None)
    }

    /// Notes at the last place of the way which one the place behind it leads back to.
    fn hand_back(&mut self, back: usize) {
        if let Some(stop) = self.way.last_mut() {
            stop.back = stop.back.min(back);
        }
    }

    /// The places seen from this number on, in rising order.
    fn places_from(&self, alloc: Global, number: usize) -> Result<Items<i64>, Memory>
        ensures { IfOk result IsAscending }
    {
        let mut places = Vec::new(alloc);
        for k in number.saturating_sub(1)..self.seen.len() {
            let place = i64::try_from(self.seen[k]).unwrap_or(0);
            places.push(place.saturating_add(1))?;
        }
        places.sort_unstable();
        rising(alloc, &places)
    }
}

/// Some places, but not all, that lead only to one another, in rising order, where the walk finds any.
pub(crate) fn closed_places(pass: &Pass) -> Result<Option<Items<i64>>, Memory>
    ensures { IfOk result (λ found. IfSome found IsAscending) }
{
    let pass = *pass; // Its fields stay in registers while the walk writes.
    let mut walk = Walk::new(pass.alloc, pass.successors.len())?;
    walk.enter(0)?;
    for _ in 0..pass.successors.len().saturating_mul(2) {
        if let Some(number) = walk.go_on(&pass)? {
            if number <= 1 && pass.successors.len() <= walk.seen.len() {
                return Ok(None);
            }
            let places = walk.places_from(pass.alloc, number)?;
            return Ok(Some(places));
        }
    }
    Ok(None)
}
