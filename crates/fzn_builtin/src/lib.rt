//! Propagators of the constraints that are no weighted sum: members of sets, and by the crates below products, quotients, remainders,
//! absolute values, extrema, elements and exclusive or.
//!
//! In: the number of such a constraint of a model, then a trail. Out: inferences, by the law of the trait `Propagator`.
//! Proved against `specs/Members.antt`: what a membership asks for; and `specs/Image.antt` of `fzn_fixed`, for what is promised where no
//! value is left to choose.
#![tactic(auto)]

pub use kinds::{BuiltinPropagator, propagator_of};

mod kinds;
mod member;
mod narrow;
