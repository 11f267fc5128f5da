//! Files that are written: none that is read, and none before there is something to write.
//!
//! In: open files that are read, a path to be written, and what gives a writer. Out: whether the path leads to one of the files; and a
//! writer that is given by the first write, as a file that is made then, or one that is cut to nothing then. Proved against
//! `specs/Late.antt`, over writers that tell what stands on them; which file a path leads to the system says.
#![tactic(auto)]

pub use identity::{FileId, file_at, file_of, is_among};
pub use late::{LateWriter, Target};
pub use target::{CutFile, NewFile};

mod identity;
mod late;
mod target;
