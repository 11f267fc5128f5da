//! Propagators that wait to be asked.
//!
//! In: the propagators of a model and an order of their places; then which of them is to be asked, which has nothing to say, and which has
//! found something. Out: the place of the next one. Those that cost little are asked first, up and down the order; where these go on for
//! long, the others have their turn too. Nothing is proved of it but that it is safe and ends: it only chooses.
#![tactic(auto)]

pub use queue::{Queue, Slot};

mod queue;
mod rank_set;
mod sweep;
