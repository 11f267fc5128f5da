//! What an accepted certificate can do without: steps, and lines of its head.
//!
//! In: the bytes of a file and of a certificate from any source, and a writer. Out: on the writer a certificate with all solutions of the
//! first one and those of its other steps that its first empty clause rests on, as `fzn_core` finds and tests them; or the fault that a check
//! finds. Each new step is made from the old ones where it is written. `shorter` leaves out of a head the lines that nothing needs: the model
//! is read once more from the bytes of the file, is given the constraints of the lines that are left, and the steps are taken for it. Proved
//! against `specs/Trimmed.antt`, in the words of `fzn_head`'s `Outcome`; within, against `specs/Behind.antt` and `specs/Written.antt`: what
//! stands in front of the steps.
#![tactic(auto)]

pub use trimming::{trim, trim_tracked};

mod shorter;
mod trimming;
mod write;
