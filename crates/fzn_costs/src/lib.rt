//! What the values of variables cost: which of them serve the objective.
//!
//! In: a model; then a trail and a variable. Out: what its variables cost, worked out from the constraints that make up the objective;
//! the literal for the variable's cheapest value. Proved against `specs/Free.antt`: where no solution is better than another nothing
//! costs anything, and what costs nothing is never named; the literal is on that variable. What a value costs is not promised: it only
//! chooses.
#![tactic(auto)]

pub use costs::Costs;
pub use pricing::costs_of;

mod costs;
mod pricing;
