//! What is inferred: the law of all propagators, that of what reasons for a model, and the stack of the inferences that stand.
//!
//! In: a trail, which narrows the declared sets. Out: the inferences of one pass, of each of which a rule justifies the clause from the
//! constraint, and which is false or forces one literal on the trail; or none. The law of what reasons for one constraint stands at the trait
//! `Propagator`, in the words of `specs/Clause.antt`: what justifies a clause, and of `specs/Inference.antt`: what an inference promises, and
//! what it means that there is none. A propagator may count as bounds move, and says by that whether it need be asked (`counting.rt`): this
//! only chooses. What a search asks of all constraints of a model stands at the trait `Constraints`, in the words of
//! `specs/Constraints.antt`. `Inferences` holds those that stand, newest last, each with the number of its step once it is written:
//! `specs/Inferences.antt`.
#![tactic(auto)]

pub use bounds::{Bounds, Shift};
pub use constraints::Constraints;
pub use cost::Cost;
pub use counting::{Counting, Pair, Tally};
pub use event::{Change, Event};
pub use findings::Findings;
pub use forcing::is_forcing;
pub use fzn_cert::Inference;
pub use inferences::{Inferences, Inferred};
pub use propagator::Propagator;
pub use subscriptions::{Subscription, Subscriptions};

mod bounds;
mod constraints;
mod cost;
mod counting;
mod event;
mod findings;
mod forcing;
mod inferences;
mod propagator;
mod rule;
mod subscriptions;
