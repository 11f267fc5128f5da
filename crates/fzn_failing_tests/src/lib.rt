//! Tests of calls of which each read and each write fails in turn.
//!
//! In: a few files, options, readers and writers of which one call fails or moves less. Out: tests that `run` of `fzn_solver`, and on what it
//! wrote `check` of `fzn_checker`, `trim` of `fzn_trim`, `core` of `fzn_core`, `items` of `fzn_items` and `bound` of `fzn_bound`, tell each
//! failure, and have then written a beginning of what they write without it. Nothing is proved here beyond that the tests are safe; what the
//! programs promise stands on these calls.
#![tactic(auto)]

#[cfg(test)]
mod cases;
#[cfg(test)]
mod checked;
#[cfg(test)]
mod solved;
