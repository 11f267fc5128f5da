//! Propagators of the constraints that have a form: a weighted sum that compares with a bound, perhaps under a switch.
//!
//! In: the number of a constraint of a model, then a trail. Out: the inferences of one pass, of each of which a rule justifies the clause,
//! which is false or forces one literal on the trail; or none, by the law of the trait `Propagator`. Proved against `specs/Kinds.antt`: the
//! constraint that a propagator is for, by its form. One pass (`pass.rt`) asks what has to hold by the value of the switch (`side.rt`), and
//! of that each bound of the sum, at most or at least (`Inequality` of `fzn_sum`), unless the ends of the sum say that nothing follows:
//! `specs/Passes.antt`. Between two calls the ends of a sum are counted, so that it is not asked where it has room (`room.rt`): by what its
//! variables count says `specs/Counted.antt`.
#![tactic(auto)]

pub use fzn_propagator::Propagator;
pub use kinds::{ArithPropagator, propagator_of};

mod equality;
mod form;
mod kinds;
mod opposite;
mod pair;
mod pass;
mod room;
mod side;
mod sum;
mod wake;
mod weights;
