//! The sets of all variables, narrowed literal by literal, with the way back, what they leave to terms, and chains of clauses.
//!
//! In: the declared sets, then literals or clauses. Out: the present sets, those before each literal, and the values, the ends and the fixed
//! values of terms on them; the sets without what makes a clause true, and link by link what a chain comes to. The trail of a search is built
//! on them; rules are asked of them, by the checker and by the search; the checker follows the chains of a certificate by this code, and the
//! solver tests by it what it has learned. Proved against `specs/Sets.antt` (narrowed by a literal, undone, which literals are possible),
//! `specs/Terms.antt` (the set of a term), and `specs/Link.antt`, by `denied` and `chain_outcome` of `fzn_domain`.
#![tactic(auto)]

pub use chain::{Link, deny, follow};
pub use sets::{Possible, Sets};
pub use term::{greatest_value, is_fixed_to, is_index, least_value, may_be, term_at};

mod chain;
mod sets;
mod term;
