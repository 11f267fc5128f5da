//! The numbers of rows that are derived: what is listed for values and for the rows of tables, and what goes to the bound.
//!
//! In: prices, what was listed before, what a variable weighs, a constraint and the declared sets. Out: the list that stands there
//! afterwards, or that it leaves the limits; what is added to the bound; and which prices, sets and multipliers are taken. Proved against
//! `specs/Limits`, `specs/Prices`, `specs/Weights`, `specs/Moves`, `specs/Inverses`, `specs/Tables`, `specs/Amount` and `specs/Multiples`. To
//! which part of a row a list belongs is not asked here.
#![tactic(auto)]

pub use inverses::{place_in, raised};
pub use limits::{LIMIT, are_within, sum_within};
pub use moves::{MOST_TARGETS, declared_set, is_narrow, moved, span};
pub use multiples::{is_usable, less_product, product};
pub use prices::{
    are_prices, entries_of, has_each_price, less_price, most_cost, price_at, priced_places,
};
pub use tables::{Amount, blank_table, lowered, weights_raised};

mod inverses;
mod limits;
mod moves;
mod multiples;
mod prices;
mod tables;
