//! Separable rows that are derived from constraints.
//!
//! In: constraints, the declared sets, and the items by which a row is derived: multiples, prices, moves and tables. Out: the row, or why there is
//! none. Proved against `specs/Derived`, which says what row items make; and against the meaning of rows: whatever values of the declared
//! sets meet the constraints that are cited meet the row.
#![tactic(auto)]

pub use item::RowItem;
pub use law::{derived_row_holds, derived_row_is_formed, one_derived_row};
pub use room::RowDeriver;

mod derive;
mod inverses;
mod item;
mod law;
mod moves;
mod multiples;
mod prices;
mod room;
mod tables;
