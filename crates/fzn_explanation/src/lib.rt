//! What made a literal false.
//!
//! In: a trail, the clauses that its reasons are, and literals that are false on it. Out: the entries that made them false, each with
//! the literal that is needed of it. Proved against `specs/Implied.antt`: which literals of one variable say the same, more or the
//! opposite. That the entries suffice is no promise: what is learned from them is tested.
#![tactic(auto)]

pub use causes::{Cause, Causes};
pub use gaps::Gap;
pub use implications::Implications;
pub use implied::{canonical, implies, opposite};

mod bounds;
mod causes;
mod gaps;
mod holes;
mod implications;
mod implied;
mod orders;
