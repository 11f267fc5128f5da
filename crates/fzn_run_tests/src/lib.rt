//! Tests of the calls of `run`, and what tests of the crates above take from them.
//!
//! In: a few files, one of them with each byte changed, options, readers that fail, writers that fail or record. Out: tests of `run` of
//! `fzn_solver`, of `check` of `fzn_checker` on what it wrote, and of `bound` of `fzn_bound`. For others: the options of a run, and the call.
//! What needs the two programs alone stands in `rows/`, the words of command lines too. Nothing is proved here beyond that the tests are
//! safe; what the programs promise stands on `run`, `check` and `bound`.
#![tactic(auto)]

pub use runs::{options_of, solve};

#[cfg(test)]
mod answers;
#[cfg(test)]
mod bounds;
#[cfg(test)]
mod choices;
#[cfg(test)]
mod faults;
#[cfg(test)]
mod files;
#[cfg(test)]
mod learning;
#[cfg(test)]
mod progress;
mod runs;
#[cfg(test)]
mod sweeps;
#[cfg(test)]
mod writes;
