//! The propagator of a row, which says that what its variables weigh at their values and its tables at their rows is at most a bound together.
//!
//! In: a row of a model, then a trail. Out: that the least weights of its parts exceed the bound, or that a part is barred; or else the values
//! that are barred and those that weigh more than the other parts leave, and of a part without a list the bound past which its values do; or
//! none, by the law of the trait `Propagator`. So a pass goes over the weights that are listed, lightest or heaviest first and no further than
//! it has to, and never over the values of a wide set. Of the places of a table no value is found: its own propagator does that. A clause
//! says of each other part that it weighs no less than a level (`fzn_levels`). All is proved against `specs/Passes.antt`, and against
//! `specs/Levels.antt` of `fzn_levels`.
#![tactic(auto)]

pub use constraint::propagator_of;
pub use propagator::RowPropagator;

mod constraint;
mod copy;
mod propagator;
mod search;
mod values;
mod waits;
