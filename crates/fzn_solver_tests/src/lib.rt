//! Tests of the crates that search.
//!
//! In: models read from their text. Out: the calls of `fzn_search`, `fzn_linear`, `fzn_table`, `fzn_propagators` and `fzn_engine`, against
//! decisions and endings worked out by hand, and what is left of small sets against the values that meet each kind of constraint. Nothing
//! is proved here beyond that the tests are safe; they stand apart so that the crates below are not proved a second time with them.
#![tactic(auto)]

#[cfg(test)]
mod engine;
#[cfg(test)]
mod fixpoints;
#[cfg(test)]
mod inferences;
#[cfg(test)]
mod models;
#[cfg(test)]
mod restarts;
#[cfg(test)]
mod search;
#[cfg(test)]
mod wakes;
#[cfg(test)]
mod words;
