//! What is learned from a conflict.
//!
//! In: the trail, the clauses that its reasons are, and one that is false. Out: a clause that follows from these by unit
//! propagation, which of them in order, and the level to go back to: that of the first unique implication point, where the test of
//! `fzn_learned` passes it, else the plain one. Proved against `specs/Learned.antt` of `fzn_learned`.
#![tactic(auto)]

pub use analysis::{analyse, unit_of, want_unit};
pub use marks::{Marks, Wanted};

mod analysis;
mod first_uip;
mod marks;
mod outcome;
mod places;
mod roots;
mod units;
