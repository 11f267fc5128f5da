//! A run of the solver: from the bytes of a file to its answer, with a certificate.
//!
//! In: a reader of the file, the options, a writer each for the answer and the certificate, and one that is told how far the search has
//! come. Out: the answer and its certificate on the writers, and what a run tells. Proved against `specs/Run.antt`: the certificate's
//! verdict is accepted, the answer is that of the verdict and true of the file, and it is left open only where a limit was really
//! reached.
#![tactic(auto)]

pub use answer::{run, run_tracked};
pub use fault::RunFault;
pub use fzn_engine::Report;
pub use progress::{Observer, Progress, Unobserved};

mod answer;
mod choice;
mod fault;
mod ghost_list;
mod progress;
mod writers;
