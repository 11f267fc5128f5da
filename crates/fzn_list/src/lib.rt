//! Lists and names as contracts see them.
//!
//! In: elements one by one, or the bytes of a name. Out: the same in order, as a slice. Proved against plain lists: two values are
//! equal exactly where they list the same elements, wherever these lie in memory.
#![tactic(auto)]

pub use items::Items;
pub use limits::LONGEST;
pub use shared::Shared;
pub use text::Text;

mod items;
mod limits;
mod shared;
mod text;
