// Numbers with what they are chosen by, each of which is in or out.

use fzn_domain::Memory;
use std::alloc::Global;

/// A number, and what it is chosen by.
#[derive(Clone, Copy, Debug)]
pub struct Ranked {
    /// The number.
    pub number: usize,
    /// The greatest comes first.
    pub activity: f64,
    /// Of equal activities the one with the least tie comes first.
    pub tie: u64,
}

impl Ranked {
    /// Whether it comes before the other one.
    #[inline(always)]
    pub fn precedes(&self, other: &Ranked) -> bool {
        // Both are asked at once, without a jump.
        (self.activity > other.activity)
            | ((self.activity == other.activity) & (self.tie < other.tie))
    }
}

/// The numbers from 0 up to a count, each of which is in or out. Those that are in come first, in an order that the caller makes.
#[derive(Drop)]
pub struct Pool {
    order: Vec<Ranked>,
    /// Where each number stands in the order.
    places: Vec<usize>,
    /// How many are in.
    len: usize,
}

impl Pool {
    /// No number.
    pub fn new(alloc: Global) -> Pool {
        Pool {
            order: Vec::new(alloc),
            places: Vec::new(alloc),
            len: 0,
        }
    }

    /// One more number, which is out and has no activity. `Err` where memory runs out.
    pub fn grow(&mut self, tie: u64) -> Result<usize, Memory> {
        let number = self.order.len();
        self.places.push(number)?;
        self.order.push(Ranked {
            number,
            activity: 0.0,
            tie,
        })?;
        Ok(number)
    }

    /// How many are in.
    pub fn len(&self) -> usize {
        self.len
    }

    /// What is in at this place.
    #[inline(always)]
    pub fn at(&self, place: usize) -> Option<Ranked> {
        if place < self.len {
            self.order.get(place).copied()
        } else {
            None
        }
    }

    /// Where a number that is in stands.
    pub fn place_of(&self, number: usize) -> Option<usize> {
        match self.places.get(number) {
            Some(place) if *place < self.len => Some(*place),
            _ => None,
        }
    }

    /// What the activity of a number is, in or out, where there is such a number.
    #[inline(always)]
    pub fn activity_mut(&mut self, number: usize) -> Option<&mut f64> {
        let place = self.places.get(number).copied()?;
        match self.order.get_mut(place) {
            Some(ranked) => Some(&mut ranked.activity),
            None => None,
        }
    }

    /// Makes all activities smaller, by this factor.
    pub fn scale(&mut self, factor: f64) {
        for ranked in self.order.iter_mut() {
            ranked.activity *= factor;
        }
    }

    /// Lets a number in, and answers its place where it was out.
    pub fn put(&mut self, number: usize) -> Option<usize> {
        let end = self.len;
        if number >= self.places.len() || end >= self.order.len() || self.places[number] < end {
            return None;
        }
        let place = self.places[number];
        self.swap(place, end);
        self.len = end + 1;
        Some(end)
    }

    /// Lets the number at this place out. The last one comes to its place.
    pub fn take(&mut self, place: usize) {
        if place < self.len {
            let last = self.len - 1;
            self.swap(place, last);
            self.len = last;
        }
    }

    /// Lets two numbers change places.
    fn swap(&mut self, first: usize, second: usize) {
        if first < self.order.len() && second < self.order.len() {
            let (one, other) = (self.order[first], self.order[second]);
            self.stand(one, second);
            self.stand(other, first);
        }
    }

    /// The number stands at this place. One that stands nowhere else is to follow.
    #[inline(always)]
    pub fn stand(&mut self, ranked: Ranked, place: usize) {
        if ranked.number < self.places.len() && place < self.order.len() {
            self.places[ranked.number] = place;
            self.order[place] = ranked;
        }
    }
}
