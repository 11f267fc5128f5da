//! The propagator of a table, with its rows as bits of words.
//!
//! In: a table of a model, then a trail. Out: an inference for each value of each narrow place that no row supports, and for each end of
//! each wide one, or none, by the law of the trait `Propagator`; where there is none, a row supports each of these. So a pass goes over
//! rows and places, and never over the values of a wide set. Which row supports a value at a place is looked up by bits or in a list, and no
//! contract rests on that: each row that is found so is looked at again. That no row supports it is explained row by row, along a chain of
//! those that have the value: that none is passed over is proved against `specs/Chains.antt`. All else is proved against
//! `specs/Supports.antt` and `specs/Passes.antt`, which says the same of a pass, and `first_common`, which finds a bit that two sets of rows
//! have in common, against `specs/Words.antt`.
#![tactic(auto)]

pub use constraint::propagator_of;
pub use propagator::TablePropagator;
pub use words::first_common;

mod chains;
mod constraint;
mod pass;
mod propagator;
mod said;
mod supports;
mod table;
mod words;
