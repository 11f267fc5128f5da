//! One line of a certificate: the step or the derivation that it spells.
//!
//! In: the bytes of a line, without its line feed. Out: the step that the line spells in a version, or the derivation that it spells, or
//! that it spells none; its words, and the number that a word spells. Proved against `fzn_cert`'s `Spelling` (the one line of a step) and
//! `Derivations` (that of a derivation), both ways: what is read is spelled so, and what is spelled so is read; `Reading` and `Words` of
//! `fzn_cert` say word by word what is read, and within, `specs/Rows.antt` says it of an item of a row, up to the next one. Which line of a
//! certificate it is, and whether a step is accepted, is not asked here.
#![tactic(auto)]

pub use derivation::derivation_of_line;
pub use number::natural_of;
pub use parse::{is_deletion, read_line, step_after};
pub use words::words_of;

mod derivation;
mod literal;
mod number;
mod parse;
mod row;
mod rule;
mod words;
