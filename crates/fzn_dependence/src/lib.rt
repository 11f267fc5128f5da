//! Which variable decides another one by a constraint, and what the one is at each value of the other.
//!
//! In: a variable and a constraint. Out: the variable that decides it, with what it is at each value of that one: the index of an element
//! of constants, the only variable of a sum with a switch, or the other variable of an equation; or that none does. Proved against
//! `specs/Decided`, and `specs/Dependence` for what is kept of a sum. That the variable has the value that is decided wherever the
//! constraint is met is a lemma (`proofs/DecidedSound`), by which `fzn_row` is proved against the meaning of constraints.
#![tactic(auto)]

pub use decided::{Decider, decider_of, is_place_of};
pub use dependence::Dependence;

mod decided;
mod dependence;
