//! Finite sets of whole numbers, kept as rising lists, as the bits of words or as those of one word.
//!
//! In: numbers, or the first and the last of those that a set shall have; then one number at a time that goes in or out. Out: whether a
//! number is a member, the members next to a number, how many lie between two; of a list also the numbers between two that it lacks, as
//! bits. Proved against `specs/IntSet.antt`: however it is kept, a set is its members. `specs/Ascending.antt` says what neighbours are in a
//! set and in a rising list, `specs/Bits.antt` which numbers bits stand for.
#![tactic(auto)]

pub use bit_set::WIDEST;
pub use shared_bits::SharedBits;
pub use shared_list::SharedList;
pub use value_list::place_of;
pub use word_set::{WIDTH, WordSet};

mod bit_set;
mod shared_bits;
mod shared_list;
mod value_list;
mod word;
mod word_set;
mod words;
