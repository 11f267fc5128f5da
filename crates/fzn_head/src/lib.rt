//! The head of a certificate of version three, and what it makes of a model.
//!
//! In: a model, and derivations one after the other. Out: the model with the constraints that they give behind its own, and the lines
//! that open a certificate with them. Proved against `specs/Extended.antt`, which says what is derived of what; and against the meaning of
//! a model: with derived constraints it has the same solutions. `specs/Outcome.antt` is the verdict on a certificate of any version.
#![tactic(auto)]

pub use extender::{Extender, TERM_LIMIT};
pub use head::Head;
pub use law::{one_outcome, outcome_is_true, same_solutions};
pub use opening::open_with;

mod extender;
mod head;
mod law;
mod opening;
