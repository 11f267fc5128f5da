//! What may be learned: clauses that follow from those that the entries of a trail rest on.
//!
//! In: a trail, the clauses that its reasons are, and a clause with the antecedents that it is said to follow from. Out: whether it may be
//! learned; and of a clause that is false, the plain learned clause, which always may. The definitions are in `specs/Learned.antt`;
//! `specs/Reasoned.antt` says how the entries of the trail came to stand.
#![tactic(auto)]

pub use antecedent::{clause_of, is_known};
pub use learned::Learned;
pub use plain::plain_learned;
pub use trial::{is_derived, is_sound};

mod antecedent;
mod learned;
mod plain;
mod standing;
mod trial;
