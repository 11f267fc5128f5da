//! From the tree of a FlatZinc file to the model that it states.
//!
//! In: a tree. Out: its model, or its first fault. Proved against `specs/Faults.antt` (the faults of each item, in the order in which
//! they count) and `specs/Models.antt` (the model of a tree without faults).
#![tactic(auto)]

pub use law::one_model;
pub use tree::{Named, type_check};

mod argument;
mod constraint;
mod given;
mod goal;
mod law;
mod table;
mod tree;
mod written;
