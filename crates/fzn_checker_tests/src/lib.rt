//! Tests of the crates that print, and that write, read and check a certificate; and what tests of the crates above take from them.
//!
//! In: steps, bytes of certificates, and a small model. Out: the calls of `fzn_streams`, `fzn_fault`, `fzn_printer`, `fzn_cert`,
//! `fzn_cert_line`, `fzn_cert_reader` and `fzn_checker`, against lines, steps and verdicts worked out by hand, and on certificates that are
//! cut off and changed; what else the checker says of a certificate stands in `rows/`. For others: readers and writers of which one call
//! goes wrong. Nothing is proved here beyond that the tests are safe; they stand apart so that the crates below are not proved a second
//! time with them.
#![tactic(auto)]

pub use flawed::{Calls, Flaw, Sink, Source, put_at};

#[cfg(test)]
mod certificates;
#[cfg(test)]
mod checker;
#[cfg(test)]
mod derivations;
mod flawed;
#[cfg(test)]
mod printer;
#[cfg(test)]
mod reader;
#[cfg(test)]
mod rewrite;
#[cfg(test)]
mod stops;
#[cfg(test)]
mod streams;
#[cfg(test)]
mod writer;
