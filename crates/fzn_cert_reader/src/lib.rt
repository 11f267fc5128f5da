//! The reader of a certificate: its bytes, line by line, to the steps that the lines spell.
//!
//! In: a reader of bytes. Out: one step at a time, what the first and the last lines say, or the first faulty line and its fault; in
//! version three what the lines of its head derive, one at a time, before the steps; from `StepLines` one line at a time, with its bytes.
//! `Script` holds steps as the text of their lines. What one line spells is read by `fzn_cert_line`. Proved against `specs/Reader.antt`
//! (what one call takes of the bytes, and what is told of them), `specs/Opening.antt` (the same of the first two lines of whichever version
//! and of a head), `specs/Script.antt`, `fzn_cert`'s `Spelling` (the one line of a step) and `Stream` (the fault of a line), and
//! `fzn_head`'s `Head` (the lines of a head). Whether a step is accepted is not asked here.
#![tactic(auto)]

pub use header::FirstLine;
pub use reader::StepLines;
pub use script::Script;
pub use stream::{StepReader, line_of};

mod ending;
mod header;
mod input;
mod lines;
mod opening;
mod reader;
mod script;
mod stream;
