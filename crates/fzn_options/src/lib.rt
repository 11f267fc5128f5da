//! The command lines of `fznsolve` and `fzncheck`.
//!
//! In: the words after the program's name. Out: the options that they give, or why there are none. Proved against `specs/Said.antt`, which
//! says what each option is by what the words say of it, and its default. What the words say is the matches that clap's own definition
//! gives for the command lines of `specs/CommandLines.antt`.
#![tactic(auto)]

pub use check::{CheckOptions, check_options_of};
pub use fault::OptionsFault;
pub use solve::{Options, options_of};

mod check;
mod fault;
mod learning;
mod number;
mod parts;
mod said;
mod solve;
mod tuning;
