//! Products, quotients, remainders and absolute values, by intervals of their places.
//!
//! In: the terms of such a constraint, and a trail. Out: clauses that follow from the constraint by the rules `box`, `enum` and `rows`, and
//! are false or force one literal each; finding none guarantees nothing. Intervals in which nothing seems to meet the constraint are
//! searched for by the ends of the places, and each is tested before it is used. Proved against `specs/Excluded.antt`: in which intervals
//! nothing meets it.
#![tactic(auto)]

pub use absolute::infer_absolute_value;
pub use operation::infer_operation;

mod absolute;
mod excluded;
mod exclusion;
mod operation;
mod pass;
mod quotient;
mod seeming;
