//! Terms, their values, and the global constraints as relations on lists of values.
//!
//! In: lists of terms, and a value for each variable. Out: the values of the terms, and whether they are all different, a row of a table, a
//! circuit, inverses, or tasks that keep a capacity. Proved against `specs/Term.antt` and the file of `specs/` that is named after each
//! relation.
#![tactic(auto)]

pub use all_different::is_all_different;
pub use circuit::is_circuit;
pub use cumulative::is_cumulative;
pub use entries::{Entries, is_index};
pub use inverse::is_inverse;
pub use table::{Rows, is_row, is_table};
pub use term::{Place, Term};

mod all_different;
mod circuit;
mod cumulative;
mod entries;
mod inverse;
mod load_profile;
mod table;
mod term;
