//! Solutions that somebody else has found: the `s` lines of a file that may grow.
//!
//! In: a reader of bytes, which may have more of them later. Out: the values of its `s` lines, one line at a time, each once it is whole.
//! All other lines are passed over. Proved against
//! `specs/Spelled.antt`: some line spells the values. Whether they are a solution is not asked here: whoever takes them tests them.
#![tactic(auto)]

pub use hints::{Hints, MOST};

mod hints;
