//! Which literal is assumed next.
//!
//! In: a model, search annotations and what is asked besides; the trail; which entries of it are about to be dropped; the literals that
//! a conflict rests on. Out: a literal that is neither true nor false on the trail, where some variable has more than one value, and
//! else the values; after a conflict whether to restart. Proved against `specs/Fixed.antt`, and against `fzn_activity`'s
//! `specs/Splits.antt`: what a decision has to be. The clause that a solution adds is `cut`.
//!
//! Contracts see the number of variables and of decisions alone. All else steers: the order of the annotations and that by weights, the
//! activity of comparisons and of variables, the values that variables had last and in the last solution, what values cost. None of it is
//! trusted; a decision is tested on the trail, so only its use is at stake. No decision passes over all variables: what may be open stands
//! in heaps and among ranks, which lose what is met fixed and get it back as it is undone.
#![tactic(auto)]

pub use choice::Choice;
pub use fzn_meaning::cut;
pub use restarts::next_interval;
pub use search::{Search, values_of};

mod choice;
mod group;
mod guide;
mod order;
mod probes;
mod ranks;
mod restarts;
mod search;
mod seating;
