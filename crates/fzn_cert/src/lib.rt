//! The certificate: its steps, when they are accepted, and the text that is written for them.
//!
//! In: the counts of a model, and steps one by one; derivations. Out: the bytes of their lines. Proved against `specs/Text.antt` and
//! `specs/Spelling.antt` (the one line of a step), and `specs/Derivations.antt` (that of a derivation). `specs/Accepted.antt` says
//! which steps are accepted after which, and `specs/Verdict.antt` what that makes of a whole certificate: solver and checker cite these.
#![tactic(auto)]

pub use derivations::push_derivation;
pub use fault::{CertFault, FaultKind};
pub use header::Header;
pub use law::{one_derivation, one_line, one_verdict};
pub use limits::{LAST_STEP, LINE_LIMIT};
pub use line::push_step;
pub use refusal::Refusal;
pub use step::{Inference, Step, Version};
pub use write_fault::WriteFault;
pub use writer::{NotBegun, Stage, StepWriter, header_of, put_end};

mod derivations;
mod fault;
mod header;
mod law;
mod limits;
mod line;
mod refusal;
mod step;
mod write_fault;
mod writer;
