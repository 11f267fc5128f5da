//! Terms that have to be equal: two that are compared, a value and the entry at an index, a result and the least or greatest entry.
//!
//! In: the terms of such a constraint, and a trail. Out: clauses that follow from the constraint by the rule `rows`, and are false or
//! force one literal each; finding none guarantees nothing. The ends are looked at first, and single values of narrow terms alone, so that
//! a look costs what the constraint is, however many values a term has. Proved against `specs/Shared.antt`: what follows where two terms
//! share no value; `specs/ElementPasses.antt` and `specs/ExtremumPasses.antt`: what a pass finds.
#![tactic(auto)]

pub use element::infer_element;
pub use equality::infer_equal;
pub use extremum::infer_extremum;

mod element;
mod equality;
mod extremum;
mod pair;
mod shared;
mod terms;
