//! Constraints that are cited by their numbers where others are derived from them.
//!
//! In: constraints, a number. Out: the constraint with this number, if there is one; also the type of a constraint with its multiplier,
//! and that of what is wrong with a derivation. Proved against `specs/Cited`: numbers count from 1.
#![tactic(auto)]

pub use cited::constraint_at;
pub use fault::DeriveFault;
pub use multiple::Multiple;

mod cited;
mod fault;
mod multiple;
