//! What is asked of a search: the types that a file's reader, a command line and the search share.
//!
//! In: a choice of a value, and a domain; names and numbers. Out: the literal that the choice tries first, and the numbers that a search
//! goes by. The types say which annotations a file has, and which clause is learned from a conflict. Proved against `specs/Tried.antt`: the
//! values at which the literal is true; and against `specs/Standard.antt`: the numbers of a search of which nothing else is asked.
#![tactic(auto)]

pub use annotation::{Annotation, ValueChoice, VarChoice};
pub use learn::Learn;
pub use parameters::{Parameters, hundredths};

mod annotation;
mod learn;
mod parameters;
