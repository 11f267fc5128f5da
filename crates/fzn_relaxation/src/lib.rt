//! The Lagrangian relaxation of a model: what its constraints give to a sum of which the multipliers and prices are sought.
//!
//! In: a model and its rows. Out: what is bounded; the rows whose multipliers are free and those that take variables out of the sum; the
//! constraints whose values have prices; the moves of `fzn_moves`; the tables whose rows are weighed, with the columns whose entries have
//! prices and the variables that go to the rows; the bounds of the variables, and lists of the values of those that are weighed value by
//! value. Nothing is proved of them but that the calls are safe and end: whoever derives a row by them asks whether it is
//! one.
#![tactic(auto)]

pub use apart::Apart;
pub use lists::List;
pub use problem::Problem;
pub use tables::{Column, Table};

mod apart;
mod choosing;
mod definitions;
mod lists;
mod problem;
mod size;
mod tables;
