//! Terms over a trail: their values, and the clauses that claim how these stand to numbers.
//!
//! In: a trail and a term; claims that terms stand so to numbers. Out: the values that the term may take, the interval of them, and whether
//! they are looked at one by one; the clause of the claims, where it is false or forces one literal, and a false clause with one claim more.
//! Proved against `specs/Values.antt`: the values of a term; `specs/Denied.antt`: what holds of the sets on which a clause is denied, so
//! that whatever refutes a constraint there is accepted by its rule; `specs/Intervals.antt` and `specs/Narrow.antt`: which numbers lie in
//! an interval, and which terms are narrow.
#![tactic(auto)]

pub use claim::Claim;
pub use explanation::{
    explain, explain_claims, explanation_of, force, force_claims, force_possible, is_denied,
    is_never,
};
pub use interval::{Interval, interval_of};
pub use narrow::{MOST_VALUES, is_narrow, is_thinned, is_thinned_beside};
pub use values::{are_fixed, greatest_of, has_other, is_fixed, least_of, may_be, next_value};

mod claim;
mod explanation;
mod interval;
mod narrow;
mod values;
