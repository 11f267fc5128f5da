// Sums of two places that are to be at most their bounds, packed, so that bounds soon tell whether anything follows. All numbers are within
// the limits of a model, so that no sum of two products exceeds 64 bits.
use crate::known::Known;
use fzn_domain::Memory;
use fzn_propagator::{Bounds, Pair};
use fzn_values::{Place, Term};

/// A place of a pair.
#[derive(Clone, Copy, Debug)]
struct KnownPlace {
    /// Where its bounds stand among those that are known.
    index: u32,
    /// What they are multiplied with.
    coefficient: i32,
}

impl KnownPlace {
    fn of(place: Place, known: &mut Known) -> Result<Option<KnownPlace>, Memory> {
        let (Some(index), Ok(coefficient)) = (
            known.index_of(place.term)?,
            i32::try_from(place.coefficient),
        ) else {
            return Ok(None);
        };
        Ok(Some(KnownPlace { index, coefficient }))
    }

    /// What it gives at least and at most.
    fn ends(self, known: &Known) -> Option<Bounds> {
        let bounds = known.get(self.index)?;
        let coefficient = self.coefficient as i64;
        let one = coefficient.wrapping_mul(bounds.low);
        let other = coefficient.wrapping_mul(bounds.high);
        Some(Bounds {
            low: one.min(other),
            high: one.max(other),
        })
    }
}

/// A pair, of which all bounds are known.
#[derive(Clone, Copy, Debug)]
pub struct KnownPair {
    one: KnownPlace,
    other: KnownPlace,
    /// What the sum is to be at most, where the switch is 1.
    bound: i32,
    /// Where the bounds of its switch stand among those that are known: those of a constant 1 where it has none.
    switch: u32,
}

impl KnownPair {
    /// `None` where the numbers of the pair have no room here. `Err` where memory runs out.
    pub fn of(pair: &Pair, known: &mut Known) -> Result<Option<KnownPair>, Memory> {
        let switch = pair.switch.unwrap_or(Term::Constant(1));
        let (Some(one), Some(other), Some(switch), Ok(bound)) = (
            KnownPlace::of(pair.one, known)?,
            KnownPlace::of(pair.other, known)?,
            known.index_of(switch)?,
            i32::try_from(pair.bound),
        ) else {
            return Ok(None);
        };
        Ok(Some(KnownPair {
            one,
            other,
            bound,
            switch,
        }))
    }

    /// Whether nothing follows from it.
    #[inline(always)]
    pub fn is_idle(&self, known: &Known) -> bool {
        let (Some(one), Some(other), Some(switch)) = (
            self.one.ends(known),
            self.other.ends(known),
            known.get(self.switch),
        ) else {
            return false;
        };
        let bound = self.bound as i64;
        if switch.low != switch.high {
            return one.low.wrapping_add(other.low) <= bound
                && bound < one.high.wrapping_add(other.high);
        }
        let is_one_free = one.high.wrapping_add(other.low) <= bound;
        let is_other_free = one.low.wrapping_add(other.high) <= bound;
        if switch.low == 1 {
            is_one_free && is_other_free
        } else {
            !is_one_free && !is_other_free
        }
    }

    /// How it is seen from the variable of this number. `None` where that stands in several of its places, or is its switch.
    pub fn seen_from(self, variable: usize) -> Option<SeenPair> {
        let index = variable.wrapping_sub(1);
        if self.switch as usize == index {
            return None;
        }
        match (
            self.one.index as usize == index,
            self.other.index as usize == index,
        ) {
            (true, false) => Some(self.seen(self.one.coefficient, self.other)),
            (false, true) => Some(self.seen(self.other.coefficient, self.one)),
            _ => None,
        }
    }

    fn seen(self, coefficient: i32, other: KnownPlace) -> SeenPair {
        let rising = PairEnd {
            coefficient,
            other,
            bound: self.bound,
            switch: self.switch,
            on: 1,
        };
        if coefficient < 0 {
            SeenPair {
                low: rising.opposite(),
                high: rising,
            }
        } else {
            SeenPair {
                low: rising,
                high: rising.opposite(),
            }
        }
    }
}

/// A pair as it is seen from the variable of one of its places.
#[derive(Clone, Copy, Debug)]
pub struct SeenPair {
    /// The end of its sum that the least value moves.
    pub low: PairEnd,
    /// The end that the greatest value moves.
    pub high: PairEnd,
}

/// An end of a pair's sum, which a bound of one of its variables moves. Here it is always the least end that rises: as the greatest falls,
/// the least of the opposite sum rises, which is to be at most a bound of its own where the pair's sum exceeds its bound.
#[derive(Clone, Copy, Debug)]
pub struct PairEnd {
    /// What the bound of the variable is multiplied with.
    coefficient: i32,
    other: KnownPlace,
    /// What the sum is to be at most where the switch is `on`, and exceeds where it is not.
    bound: i32,
    /// As that of `KnownPair`.
    switch: u32,
    /// 1, and 0 of the opposite sum.
    on: i64,
}

impl PairEnd {
    /// All numbers negated.
    fn opposite(self) -> PairEnd {
        PairEnd {
            coefficient: self.coefficient.wrapping_neg(),
            other: KnownPlace {
                index: self.other.index,
                coefficient: self.other.coefficient.wrapping_neg(),
            },
            bound: self.bound.wrapping_neg().wrapping_sub(1),
            switch: self.switch,
            on: 1i64.wrapping_sub(self.on),
        }
    }

    /// Whether nothing follows from the pair once the bound of its variable has moved to this value, where nothing did before.
    #[inline(always)]
    pub fn is_idle(&self, value: i64, known: &Known) -> bool {
        let Some(switch) = known.get(self.switch) else {
            return false;
        };
        let is_open = switch.low != switch.high;
        if !is_open && switch.low != self.on {
            return true; // The sum is to exceed its bound, and does so the sooner.
        }
        let Some(other) = known.get(self.other.index) else {
            return false;
        };
        // An open switch is decided by the least of the sum. Where the sum is to be at most its bound, the most of the other place is cut off.
        let coefficient = self.other.coefficient as i64;
        let given = if (coefficient < 0) == is_open {
            other.high
        } else {
            other.low
        };
        let here = (self.coefficient as i64).wrapping_mul(value);
        here.wrapping_add(coefficient.wrapping_mul(given)) <= self.bound as i64
    }
}
