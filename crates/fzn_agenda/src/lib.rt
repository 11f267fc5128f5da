//! Which propagator is asked next.
//!
//! In: the propagators of a model, and then a trail of its declared sets, as it grows and goes back. Out: the place of the one that is to
//! be asked; and whether each variable has one value. A propagator is queued once a variable that it waits for was narrowed, but for one
//! that says it is idle by what it counts as bounds move (its tally is kept here, moved by itself, and moved back with the trail), and for
//! an equality of two terms where the change of one says nothing new. Of those that are queued, those that cost little are asked first, up
//! and down an order in which each stands before those that it leads to (`fzn_queue`). Proved against `AllFixed` of `fzn_domain`: where some
//! variable is said to have no single value, that is so. All else only chooses, so that of it nothing but safety is promised.
#![tactic(auto)]

pub use agenda::Agenda;

mod agenda;
mod changes;
mod counters;
mod equals;
mod known;
mod order;
mod pairs;
mod waiting;
mod waking;
mod watchers;
