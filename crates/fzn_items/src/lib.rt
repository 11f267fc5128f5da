//! The items of a FlatZinc file: where each stands, and what each declares, states or asks for.
//!
//! In: the bytes of a file, and a writer. Out, of `items`: on the writer a line for each parameter, variable, array of variables, constraint
//! and search annotation, and one for the goal, each with the bytes of its item, and how many there are; or the first fault of the file.
//! Proved against `specs/Itemized.antt` and `specs/Listed.antt`, with the lines in `specs/Declarations.antt`, `specs/Statements.antt` and
//! `specs/Ending.antt`; what is mended of a file is said in `specs/Mending.antt` of `fzn_mending`, and what its items are in
//! `specs/Items.antt` of `fzn_sources`.
#![tactic(auto)]

pub use listing::{items, items_tracked};

mod counts;
mod declarations;
mod ending;
mod list;
mod listing;
mod marks;
mod pieces;
mod put;
mod read;
mod statements;
