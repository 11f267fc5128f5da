//! A file mended, where an integer without bounds, an empty array of sets or a constant goal is all that is wrong with it.
//!
//! In: the tokens of a file, and its parameters. Out: the tokens mended, the types that are mended with the names that they declare, and
//! the goal where it is a constant. Proved against `specs/Mending.antt`.
#![tactic(auto)]

pub use mending::{constant_goal, mended_tokens, mended_types};
pub use places::{Change, ConstantGoal, Part, Place};

mod mending;
mod places;
