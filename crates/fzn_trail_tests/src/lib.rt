//! Tests of the trail, of the clauses on it and of sums, and what tests of the crates above take from them.
//!
//! In: trails and clauses made by hand. Out: the calls of `fzn_trail`, `fzn_clauses`, `fzn_terms` and `fzn_sum`, against what is worked out by
//! hand; the trail and the watched clauses also against their plainest bodies, on random clauses. Nothing is proved here beyond that the
//! tests are safe; they stand apart so that the crates below are not proved a second time with them.
#![tactic(auto)]

pub use by_hand::{is_filled, keep, lit, next_random};

mod by_hand;
#[cfg(test)]
mod clauses;
#[cfg(test)]
mod second_opinion;
#[cfg(test)]
mod sums;
#[cfg(test)]
mod trail;
#[cfg(test)]
mod two_variables;
