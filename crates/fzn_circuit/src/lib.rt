//! The propagator of a circuit.
//!
//! In: a circuit of a model, then a trail. Out: inferences, or none, by the law of the trait `Propagator`: that a successor is a place, by
//! the rule `rows`; that two are not the same, by `hall`; that a way through fixed successors does not come back too soon, and that places
//! do not lead only to one another, by `cut`. Proved against `specs/Circuits.antt` and `specs/Closed.antt`, and `Denied` of `fzn_terms`:
//! what holds of the sets on which a clause is denied.
#![tactic(auto)]

pub use propagator::{CircuitPropagator, propagator_of};

mod circuit;
mod closed;
mod pass;
mod propagator;
mod same;
mod walk;
mod ways;
