//! Streams of bytes that remember whether a call on them failed.
//!
//! In: a reader or a writer of any kind, and bytes to be written. Out: the same bytes, and whether a read, a write or a flush failed; from
//! `put` the bytes stand on the writer, or a beginning of them where a write failed. Proved against `specs/Output.antt`, over writers that
//! tell what stands on them.
#![tactic(auto)]

pub use input::{ReadFailed, TrackedRead, TrackedReader};
pub use output::{TrackedWrite, TrackedWriter, WriteFailed, put};

mod input;
mod output;
