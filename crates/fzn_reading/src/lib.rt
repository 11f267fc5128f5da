//! From a reader of bytes to the model that a FlatZinc file states.
//!
//! In: a reader. Out: the model, and the search annotations where they are asked for, or the first fault of the file with its number and
//! position. Proved against `specs/Reads.antt`: the model, or the fault of the lexer, else of the parser, else of the types, on the bytes
//! that the reader had left. Annotations of another form, and of names that are no variable or array of variables, are passed over.
//! Nothing that is promised of an answer speaks of them: contracts see that each variable is one of the model's.
#![tactic(auto)]

mod annotated;
mod fault;
mod file;
mod input;
mod law;
mod model;
mod taken;
mod written;

pub use annotated::read_annotated;
pub use fault::ModelFault;
pub use input::read_bytes;
pub use law::{one_model, small_tokens, small_within_limits, within_limits};
pub use model::read_model;
pub use taken::annotations_of;
