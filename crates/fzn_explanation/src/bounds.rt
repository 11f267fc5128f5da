// The bounds of the variable of each entry, and which entries moved them.

use crate::implications::Implications;
use fzn_domain::{Lit, Memory, Op};
use std::alloc::Global;

/// The ends of a variable's set just before an entry, and the entries that moved them there. The upper end is held with its number negated,
/// so that each end rises as it moves.
#[derive(Clone, Copy, Debug)]
struct Bounds {
    ends: [i64; 2],
    /// The place of the entry that moved each end, or `NONE`.
    moved_by: [u32; 2],
}

/// Those of a set that is not known, or empty: as if it had every number.
const OPEN: Bounds = Bounds {
    ends: [i64::MIN, i64::MIN],
    moved_by: [NONE, NONE],
};

/// No entry: the end is the declared one. So is the place of an entry behind all that fit in memory.
const NONE: u32 = u32::MAX;

/// An end of a variable's set, lower (0) or upper (1), at a number, which is negated of an upper one.
#[derive(Clone, Copy, Debug)]
pub struct End {
    side: usize,
    number: i64,
}

impl End {
    /// The end that a bound speaks of.
    #[inline(always)]
    pub fn of(bound: Lit) -> End {
        let is_upper = bound.op == Op::AtMost;
        End {
            side: is_upper as usize,
            number: if is_upper {
                bound.value.wrapping_neg()
            } else {
                bound.value
            },
        }
    }
}

/// Where a way back over the entries on a variable ended.
#[derive(Clone, Copy, Debug)]
pub enum Walk {
    /// At the earliest that is looked for, or at none, where none is.
    Found(Option<usize>),
    /// At one behind which the earliest may stand.
    Open(usize),
}

fn place_in(number: u32) -> Option<usize> {
    if number == NONE {
        None
    } else {
        Some(number as usize)
    }
}

fn number_of(place: usize) -> u32 {
    if place < NONE as usize {
        place as u32
    } else {
        NONE
    }
}

/// The bounds before each entry, by its place, as far as they were asked for.
#[derive(Drop)]
pub struct AllBounds {
    list: Vec<Bounds>,
}

impl AllBounds {
    /// None was asked for.
    pub fn new(alloc: Global) -> AllBounds {
        AllBounds {
            list: Vec::new(alloc),
        }
    }

    /// Only the first so many entries are sure to stand.
    pub fn rewind(&mut self, entries: usize) {
        self.list.truncate(entries);
    }

    /// Goes back over the entries that moved an end, from this one down in at most so many steps, to the one that moved it to the number.
    #[inline(always)]
    pub fn walk_to(&self, end: End, last: usize, most: usize) -> Walk {
        let side = end.side % 2;
        let mut at = last;
        for _ in 0..most {
            let Some(bounds) = self.list.get(at) else {
                return Walk::Open(at);
            };
            if bounds.ends[side] < end.number {
                return Walk::Found(Some(at));
            }
            match place_in(bounds.moved_by[side]) {
                Some(older) => at = older,
                None => return Walk::Found(None),
            }
        }
        Walk::Open(at)
    }

    /// Goes back over the entries that moved an end, from this one down in at most so many steps, to the first before which the number lies
    /// between the ends.
    #[inline(always)]
    pub fn walk_within(&self, number: i64, last: usize, most: usize) -> Walk {
        let mut at = last;
        for _ in 0..most {
            let Some(bounds) = self.list.get(at) else {
                return Walk::Open(at);
            };
            let moved_by = if number < bounds.ends[0] {
                bounds.moved_by[0]
            } else if number.wrapping_neg() < bounds.ends[1] {
                bounds.moved_by[1]
            } else {
                return Walk::Found(Some(at));
            };
            match place_in(moved_by) {
                Some(older) => at = older,
                None => return Walk::Found(None),
            }
        }
        Walk::Open(at)
    }

    /// Of how many entries, the first, they are known.
    pub fn len(&self) -> usize {
        self.list.len()
    }

    /// Takes in the next entry, which is at this place. It answers `Err` where memory runs out, and what is known stays fit for use.
    #[inline(always)]
    pub fn take_in(&mut self, graph: &Implications, place: usize) -> Result<(), Memory> {
        let bounds = self.bounds_at(graph, place);
        self.list.push(bounds)?;
        Ok(())
    }

    /// The bounds before an entry, by those before the last entry on its variable.
    #[inline(always)]
    fn bounds_at(&self, graph: &Implications, place: usize) -> Bounds {
        let mut bounds = OPEN;
        if let Some(domain) = graph.domain_before(place)
            && !domain.is_empty()
        {
            bounds.ends = [domain.min(), domain.max().wrapping_neg()];
        }
        let last = graph.before(place).unwrap_or(usize::MAX);
        let by = number_of(last);
        let known = self.list.get(last).unwrap_or(&OPEN);
        let [lower, upper] = known.moved_by;
        let is_raised = known.ends[0] < bounds.ends[0];
        let is_lowered = known.ends[1] < bounds.ends[1];
        bounds.moved_by = [
            if is_raised { by } else { lower },
            if is_lowered { by } else { upper },
        ];
        bounds
    }
}
