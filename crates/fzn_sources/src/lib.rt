//! The items of a FlatZinc file, and which of them states which constraint.
//!
//! In: a reader of a file, its bytes, or its tokens and its tree. Out: its items, the item that states each constraint of its model, and, of
//! `read_located` and `stated_in`, the model with these, or the first fault of the file; a reader's file comes with its bytes. Proved against
//! `specs/Items.antt`: an item goes from its first token to its `;`.
#![tactic(auto)]

pub use item::items_of;
pub use located::{read_located, stated_in};
pub use source::{behind, count_of, sources_of};

mod item;
mod located;
mod source;
