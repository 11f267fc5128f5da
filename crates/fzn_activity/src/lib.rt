//! What conflicts told: comparisons and numbers by their activity, and what the trail says of a literal or of a variable that comes
//! from anywhere.
//!
//! In: literals and numbers that conflicts name, and a trail. Out: the most active comparison that is neither true nor false on it; the
//! most active number of those that are in; the values of a variable that has more than one, and the literal for its least or its
//! greatest value. Proved against `specs/Splits.antt`: what a decision has to be. Which comparison or number is the most active is not
//! promised: it only chooses.
#![tactic(auto)]

pub use comparisons::Comparisons;
pub use heap::Heap;
pub use open::{greatest_value, least_value, literal_on, open_domain, splits, value_of};
pub use pool::Pool;
pub use ties::Ties;

mod comparisons;
mod heap;
mod open;
mod pool;
mod ties;
