//! The constraints that a file may name, and what each is given.
//!
//! In: a name. Out: its signature, or none where no constraint has the name. Proved against
//! `specs/Registry.antt`: a table with a row for each of the 51 names.
#![tactic(auto)]

mod name;
mod registry;
mod signature;
mod spelling;

pub use name::Name;
pub use registry::{lookup, lookup_bytes};
pub use signature::{Argument, Lengths, Signature};
