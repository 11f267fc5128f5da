//! Weighted sums over a trail: their ends, and the clauses that refute how they compare with a bound.
//!
//! In: places over the variables of a trail, and a bound. Out: the ends of the sum, and whether they force nothing; how far the sum may
//! rise from its least to the bound, and what places are forced to by that; a clause that is false or forces one literal on the trail, or
//! none. Proved against `specs/Refuted.antt`: whatever values the clause leaves, no sum compares so with the bound; and where none is
//! found, the ends leave one. `specs/Ends.antt`: what the ends of a sum are; `specs/Explained.antt`: which literals say what a place gives
//! at least, and what it is forced to.
#![tactic(auto)]

pub use at_most::{floors_of, next_forced, refute_place};
pub use ends::{ends_of, is_tight, turned};
pub use inequality::{Inequality, conflict_at_most, refute_at_most, refute_equal, slack_within};
pub use not_equal::{conflict_not_equal, refute_not_equal};

mod at_most;
mod ends;
mod inequality;
mod not_equal;
