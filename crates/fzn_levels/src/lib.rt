//! Levels below which the parts of a row do not weigh, and clauses that say so.
//!
//! In: a row, a trail, and what each part weighs at least there and at its declared values. Out: levels, which lie at most so far below the least
//! weights together, and whether they come to more than the bound; a false clause, grown by what it takes to say that a part weighs no less
//! than a level, or that each but one does; what the values of a list weigh, and their order by weight, so that each of these costs by the
//! values of which it speaks and not by all that are listed. Proved against `specs/Levels.antt` and `specs/ByWeight.antt`. Which levels are
//! chosen is not promised: they are tested before they are used.
#![tactic(auto)]

pub use by_weight::{ByWeight, orders_of};
pub use choice::{Falls, are_enough, levels_of};
pub use explain::{explain_levels, explain_part, narrowed};
pub use listed::{least_at, suspects_at};
pub use pass::Pass;
pub use weights::{entry_weight, sum_of, value_at};

mod beyond;
mod by_weight;
mod choice;
mod explain;
mod explain_table;
mod listed;
mod pass;
mod told;
mod weights;
