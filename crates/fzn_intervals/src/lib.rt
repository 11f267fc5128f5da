//! Intervals of numbers in which at least as many places lie as there are numbers: the search behind all different.
//!
//! In: places, each with the least and the greatest of its values. Out: an interval that is full and says something of a place, and the
//! places that it moves. Proved against `specs/Full.antt`: what is answered is full. How it is found is open: two searches of which
//! nothing is promised, each tested at the end.
#![tactic(auto)]

pub use ends::{Ends, Interval};
pub use telling::{moved_by, telling_interval};

mod ends;
mod line;
mod links;
mod telling;
