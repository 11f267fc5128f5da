//! Multipliers for a sum of linear rows that bounds the objective of a model or that nothing meets, looked for before a search.
//!
//! In: a model and its rows, which are its sums that are at most a bound or that are it. Out: a sum of rows, each times its multiplier,
//! where one is found. Proved against `specs/Derived` of `fzn_derive`: the sum that is found gives a constraint, which follows from those of
//! the model. How good it is, is not promised; within, the calls are safe and end.
#![tactic(auto)]

pub use bounds::{Bounds, declared_bounds};
pub use budget::{Budget, Rise};
pub use rows::{Entry, Row, Rows};
pub use subgradient::multipliers;
pub use work::Work;

mod bounds;
mod budget;
mod definitions;
mod lagrangian;
mod numbers;
mod objective;
mod rows;
mod subgradient;
mod tightening;
mod work;
