// Intervals of numbers in which too many places lie, by a search that looks at each place once: A. López-Ortiz, C.-G. Quimper, J. Tromp
// and P. van Beek, A fast and simple algorithm for bounds consistency of the alldifferent constraint, 2003. No contract rests on which
// these are.
use crate::ends::{Ends, Interval};
use fzn_domain::Memory;
use std::alloc::Global;

/// Numbers by places, and 0 at any other.
#[derive(Debug, Drop)]
struct Links {
    to: Vec<usize>,
}

impl Links {
    /// Each of so many places leads to the one before it.
    fn new(alloc: Global, count: usize) -> Result<Links, Memory> {
        let mut to = Vec::with_capacity(alloc, count)?;
        for i in 0..count {
            to.push(i.saturating_sub(1))?;
        }
        Ok(Links { to })
    }

    fn at(&self, i: usize) -> usize {
        self.to.get(i).copied().unwrap_or(0)
    }

    fn put(&mut self, i: usize, to: usize) {
        if i < self.to.len() {
            self.to[i] = to;
        }
    }

    /// Where the links from a place end that lead on.
    fn end_of(&self, from: usize) -> usize {
        let mut place = from;
        for _ in 0..self.to.len() {
            let next = self.at(place);
            if next <= place {
                return place;
            }
            place = next;
        }
        place
    }

    /// Lets each link on the way from one place to another lead to the end.
    fn shorten(&mut self, from: usize, until: usize, end: usize) {
        let mut place = from;
        for _ in 0..self.to.len() {
            if place == until {
                return;
            }
            let next = self.at(place);
            self.put(place, end);
            place = next;
        }
    }
}

/// The numbers where an interval begins, or behind which one ends, rising, and one below and one above all of them.
fn bounds_of(alloc: Global, ends: &[Ends]) -> Result<Vec<i64>, Memory> {
    let mut all = Vec::with_capacity(alloc, ends.len())?;
    for end in ends {
        all.push(end.low)?;
        all.push(end.high.saturating_add(1))?;
    }
    all.sort()?;
    let mut bounds = Vec::with_capacity(alloc, all.len())?;
    bounds.push(all.first().copied().unwrap_or(0).saturating_sub(2))?;
    for number in all.as_slice() {
        if bounds.last().copied() != Some(*number) {
            bounds.push(*number)?;
        }
    }
    bounds.push(all.last().copied().unwrap_or(0).saturating_add(2))?;
    Ok(bounds)
}

/// The place of a number among the bounds.
fn rank_of(bounds: &[i64], number: i64) -> usize {
    let mut low = 0;
    let mut high = bounds.len();
    for _ in 0..64 {
        if low >= high {
            return low;
        }
        let middle = low + (high - low) / 2;
        if middle < bounds.len() && bounds[middle] < number {
            low = middle + 1;
        } else {
            high = middle;
        }
    }
    low
}

/// From one bound to another.
fn between(bounds: &[i64], low: usize, high: usize) -> i64 {
    match (bounds.get(low), bounds.get(high)) {
        (Some(low), Some(high)) => high.saturating_sub(*low),
        _ => 0,
    }
}

/// What the search has seen so far.
#[derive(Debug, Drop)]
struct Search {
    bounds: Vec<i64>,
    /// How many numbers are free between each bound and the one that its link leads to.
    free: Vec<i64>,
    links: Links,
    /// From each bound within a full interval towards its end.
    full: Links,
}

/// What a place comes to.
#[derive(Clone, Copy, Debug)]
enum Seen {
    /// Nothing.
    Free,
    /// Too many places lie in an interval that ends where it ends.
    Crowded,
    /// Its lower end lies in a full interval that ends before the number.
    Moved(i64),
}

impl Search {
    /// Of places by their upper ends.
    fn new(alloc: Global, ends: &[Ends]) -> Result<Search, Memory> {
        let bounds = bounds_of(alloc, ends)?;
        let mut free = Vec::with_capacity(alloc, bounds.len())?;
        for i in 0..bounds.len() {
            free.push(between(bounds.as_slice(), i.saturating_sub(1), i))?;
        }
        Ok(Search {
            links: Links::new(alloc, bounds.len())?,
            full: Links::new(alloc, bounds.len())?,
            bounds,
            free,
        })
    }

    fn free_at(&self, i: usize) -> i64 {
        self.free.get(i).copied().unwrap_or(0)
    }

    /// Takes a number for the place: the least that is free from its lower end on, by where the links end.
    fn take_from(&mut self, low: usize) -> (usize, usize) {
        let mut last = self.links.end_of(low.saturating_add(1));
        let begin = self.links.at(last);
        if last < self.free.len() {
            self.free[last] = self.free[last].saturating_sub(1);
        }
        if self.free_at(last) == 0 {
            self.links.put(last, last.saturating_add(1));
            last = self.links.end_of(last.saturating_add(1));
            self.links.put(last, begin);
        }
        self.links.shorten(low.saturating_add(1), last, last);
        (last, begin)
    }

    /// Sees the next place.
    fn see(&mut self, end: &Ends) -> Seen {
        let low = rank_of(self.bounds.as_slice(), end.low);
        let high = rank_of(self.bounds.as_slice(), end.high.saturating_add(1));
        let (last, begin) = self.take_from(low);
        let rest = between(self.bounds.as_slice(), high, last);
        if self.free_at(last) < rest {
            return Seen::Crowded;
        }
        if self.full.at(low) > low {
            let until = self.full.end_of(self.full.at(low));
            return Seen::Moved(self.bounds.get(until).copied().unwrap_or(0));
        }
        if self.free_at(last) == rest {
            let before = begin.saturating_sub(1);
            self.full.shorten(self.full.at(high), before, high);
            self.full.put(high, before);
        }
        Seen::Free
    }
}

/// The interval that ends at high, begins at some place's lower end no greater than this, and in which as many places lie as numbers, or
/// so many more.
fn interval_until(
    alloc: Global,
    ends: &[Ends],
    high: i64,
    greatest: i64,
    more: i64,
) -> Result<Option<Interval>, Memory> {
    let mut lows = Vec::with_capacity(alloc, ends.len())?;
    for end in ends {
        if end.high <= high {
            lows.push(end.low)?;
        }
    }
    lows.sort()?;
    let mut count: i64 = more.saturating_neg();
    for k in 0..lows.len() {
        let low = lows[lows.len() - 1 - k];
        count = count.saturating_add(1);
        if low <= greatest && high.saturating_sub(low) < count {
            return Ok(Some(Interval { low, high }));
        }
    }
    Ok(None)
}

/// An interval in which more places lie than numbers, or just as many while another place's lower end lies there: about n log n.
pub fn full_interval(alloc: Global, ends: &[Ends]) -> Result<Option<Interval>, Memory> {
    let mut search = Search::new(alloc, ends)?;
    for end in ends {
        match search.see(end) {
            Seen::Free => {}
            Seen::Crowded => return interval_until(alloc, ends, end.high, end.low, 1),
            Seen::Moved(until) => {
                return interval_until(alloc, ends, until.saturating_sub(1), end.low, 0);
            }
        }
    }
    Ok(None)
}
