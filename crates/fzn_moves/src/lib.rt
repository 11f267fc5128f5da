//! Which variables are decided by the value of another, so that what the one weighs can be weighed at the values of the other: it moves.
//!
//! In: a model, its rows, the bounds of its variables, and which of them are used. Out: moves in the order in which they are made, each with
//! what the one variable is at each value of the other: by equations of two variables, from Booleans to the variables that they compare
//! with a number, from the values of elements to their indices, from the columns of a table to one in which no number stands twice, and from
//! the second list of an inverse to the first. Nothing is proved of them but that the calls are safe and end: whoever cites a move in a
//! derivation asks whether that is made.
#![tactic(auto)]

pub use exchanges::Exchange;
pub use moves::{MOST_VALUES, Move, Moves};
pub use switches::Switch;
pub use tables::{NO_ENTRY, TableView};

mod comparisons;
mod elements;
mod equations;
mod exchanges;
mod inverses;
mod moves;
mod switches;
mod tables;
