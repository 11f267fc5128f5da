// Numbers by their activity, or by another measure.
ghost use Rattle.std.specs.Prelude.{◌≤◌};

use crate::pool::Pool;
use fzn_domain::Memory;
use std::alloc::Global;
use std::num::nearest_u64_to_f64;

/// Where all activities are made smaller, and by how much.
const MOST: f64 = 1e100;

const SMALLER: f64 = 1e-100;

/// Numbers from 0 up, each of which is in or out. Of those that are in the most active one is at hand, and of several the one with the
/// least tie.
#[derive(Drop)]
pub struct Heap {
    /// Of those that are in, each comes before the two at twice its place and one or two more.
    pool: Pool,
    /// What the present conflict counts.
    weight: f64,
}

impl Heap {
    /// No number.
    pub fn new(alloc: Global) -> Heap {
        Heap {
            pool: Pool::new(alloc),
            weight: 1.0,
        }
    }

    /// One more number, which is in and has no activity.
    pub fn grow(&mut self, tie: u64) -> Result<usize, Memory> {
        let number = self.pool.grow(tie)?;
        self.put(number);
        Ok(number)
    }

    /// How many are in.
    pub fn len(&self) -> usize {
        self.pool.len()
    }

    /// The most active of those that are in.
    pub fn top(&self) -> Option<usize> {
        Some(self.pool.at(0)?.number)
    }

    /// Lets a number in.
    pub fn put(&mut self, number: usize) {
        if let Some(place) = self.pool.put(number) {
            self.rise(place);
        }
    }

    /// Lets the most active one out.
    pub fn pop(&mut self) {
        self.pool.take(0);
        self.sink(0);
    }

    /// Lets a number in with this activity.
    pub fn set(&mut self, number: usize, activity: f64) {
        let Some(known) = self.pool.activity_mut(number) else {
            return;
        };
        *known = activity;
        self.put(number);
        if let Some(place) = self.pool.place_of(number) {
            self.settle(place);
        }
    }

    /// Lets a number out.
    pub fn remove(&mut self, number: usize) {
        if let Some(place) = self.pool.place_of(number) {
            self.pool.take(place);
            self.settle(place);
        }
    }

    /// The present conflict names the number.
    pub fn bump(&mut self, number: usize) {
        let Some(activity) = self.pool.activity_mut(number) else {
            return;
        };
        *activity += self.weight;
        if *activity > MOST {
            self.shrink();
        }
        if let Some(place) = self.pool.place_of(number) {
            self.rise(place);
        }
    }

    /// The present conflict is over, and counts so many thousandths of the one after it: 1 to 1,000, and what is out of this range counts
    /// as its nearer end.
    pub fn decay(&mut self, thousandths: u64) {
        self.weight /= nearest_u64_to_f64(thousandths.clamp(1, 1_000)) / 1000.0;
        if self.weight > MOST {
            self.shrink();
        }
    }

    fn shrink(&mut self) {
        self.weight *= SMALLER;
        self.pool.scale(SMALLER);
    }

    /// The number at this place alone may stand too low or too high.
    fn settle(&mut self, place: usize) {
        self.rise(place);
        self.sink(place);
    }

    /// Moves the number at this place up to where it belongs.
    #[inline(always)]
    fn rise(&mut self, place: usize) {
        let Some(rising) = self.pool.at(place) else {
            return;
        };
        let mut at = place;
        while at > 0 {
            let parent = (at - 1) / 2;
            match self.pool.at(parent) {
                Some(above) if rising.precedes(&above) => self.pool.stand(above, at),
                _ => break,
            }
            at = parent;
        }
        if at < place {
            self.pool.stand(rising, at);
        }
    }

    /// Moves the number at this place down to where it belongs.
    #[inline(always)]
    fn sink(&mut self, place: usize) {
        let Some(sinking) = self.pool.at(place) else {
            return;
        };
        let count = self.pool.len();
        let mut at = place;
        while at < count / 2 {
            let child = self.first_of(2 * at + 1);
            match self.pool.at(child) {
                Some(below) if below.precedes(&sinking) => self.pool.stand(below, at),
                _ => break,
            }
            at = child;
        }
        self.pool.stand(sinking, at);
    }

    /// The place of that child which comes before the other; the first of the two stands at this place.
    fn first_of(&self, left: usize) -> usize
        ensures { left ≤ result }
    {
        let right = left.saturating_add(1);
        match (self.pool.at(left), self.pool.at(right)) {
            (Some(one), Some(other)) if other.precedes(&one) => right,
            _ => left,
        }
    }
}
