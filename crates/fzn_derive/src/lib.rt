//! Constraints derived from constraints.
//!
//! In: the constraints of a model and those derived before, the declared sets, and how the next one is derived. Out: that constraint, or
//! why there is none; of several derivations those that give one. Proved against `specs/Derived`, which says what is derived; and against
//! the meaning of constraints: whatever values of the declared sets meet the constraints that are cited meet the derived one.
#![tactic(auto)]

pub use derivation::Derivation;
pub use deriver::Deriver;
pub use law::{derived_is_formed, derived_is_met, one_derived};
pub use trying::derivable;

mod adder;
mod adding;
mod apart;
mod derivation;
mod derive;
mod deriver;
mod law;
mod order;
mod parity;
mod stating;
mod trying;
