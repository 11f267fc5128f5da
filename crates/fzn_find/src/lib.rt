//! Constraints that follow from several constraints of a model together, looked for before a search.
//!
//! In: a model. Out: how constraints may be derived from its constraints: each by a sum whose places are put together, by all pairs of a
//! clique of variables that are told apart, by what several sums of Booleans say together, and by one separable row and one sum that
//! bound the objective or that nothing meets. Proved against `specs/Derived` of `fzn_derive`: each derivation that is found gives a
//! constraint, which follows from those of the model. What is found among all that could be, is not promised; within, the calls are safe
//! and end.
#![tactic(auto)]

pub use covering::cliques;
pub use elimination::eliminated;
pub use finding::found;
pub use merging::merged;

mod covering;
mod elimination;
mod finding;
mod graph;
mod matrix;
mod merging;
mod parities;
mod testing;
