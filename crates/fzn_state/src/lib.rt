//! The state of a search, and what is written and learned from it.
//!
//! In: a model, what is inferred and in conflict, and who takes the steps of the certificate. Out: the state (`Solver`) with the clause that
//! is learned from a conflict, the steps that give it and its antecedents, and between conflicts a state that is made small again. An
//! inference is written when a learned clause first rests on it, and not again while its step is not deleted. Short clauses of inferences
//! are held beside the learned ones; of both those of little use are forgotten, never a cut or what an entry of the trail rests on; at
//! level 0 the entries that the present sets do not need go too. Proved against `specs/State.antt`, which says what holds at each moment
//! of a search (each entry has its reason, each held clause its step, each solution its cut, and the steps are accepted), and
//! `specs/Changes.antt`, which says what each call changes. The loop that propagates, decides and jumps back is `fzn_engine`.
#![tactic(auto)]

pub use fault::Fault;
pub use learning::Lesson;
pub use sink::Sink;
pub use solver::Solver;

mod deleting;
mod dropping;
mod fault;
mod holding;
mod learning;
mod reducing;
mod settling;
mod sink;
mod solver;
mod writing;
