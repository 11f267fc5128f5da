//! Tests of the crates that read a file, from its bytes to its model.
//!
//! In: files. Out: the calls of `fzn_list`, `fzn_lexer`, `fzn_parser`, `fzn_registry`, `fzn_names`, `fzn_typing` and `fzn_reading`,
//! each by itself, and readers that give bytes in pieces or fail. What tokens, trees and models are made of which files, and
//! the faults of files with their positions, stand in `rows/`. Nothing is proved here beyond that the tests are safe; they stand apart so that
//! the crates below are not proved a second time with them.
#![tactic(auto)]

#[cfg(test)]
mod annotations;
#[cfg(test)]
mod lexer;
#[cfg(test)]
mod list;
#[cfg(test)]
mod names;
#[cfg(test)]
mod parser;
#[cfg(test)]
mod reading;
#[cfg(test)]
mod registry;
#[cfg(test)]
mod symbols;
