//! The propagators of a model: one for each constraint, and what they find, one inference after the other.
//!
//! In: a model, and then a trail of its declared sets. Out: what the passes of propagators find, each inference looked at again on the
//! trail as it stands then; or none. A constraint has the propagator of the crate that reasons for it (`kinds.rt`); all else here is
//! written for propagators of any type. The agenda of `fzn_agenda` says which propagator is asked next. It only chooses: where each
//! variable has one value, all are asked. Proved against `specs/Propagators.antt`: `AreFor` says which propagators stand for a model, and
//! the search's trait `Constraints` what they owe; `specs/Either.antt` says what holds of a propagator of one kind or of another.
#![tactic(auto)]

pub use either::Either;
pub use kinds::{AnyGlobal, AnyPropagator};
pub use propagators::{Complete, Propagators};

mod either;
mod forcing;
mod kinds;
mod propagators;
