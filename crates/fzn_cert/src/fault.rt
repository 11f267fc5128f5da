// Why a certificate is not read.
ghost use Rattle.std.specs.Prelude.{◌≡◌};
ghost use Rattle.fzn_cert.specs.declared.fault.FaultKind.TheVariants.{Memory};

use crate::refusal::Refusal;
use fzn_fault::Stop;
use std::alloc::{AllocError, AllocFailed};
use thiserror::Error;

/// What a reader answers in the place of a step.
#[derive(Clone, Copy, Debug, PartialEq, Eq, Error)]
pub enum FaultKind {
    /// No memory was left.
    #[error("{}", Stop::Memory)]
    Memory,
    /// The reader below failed.
    #[error("{}", Stop::Read)]
    Read,
    /// The first or the second line has another spelling.
    #[error("{}", Refusal::Header)]
    Header,
    /// The line spells no step and no end.
    #[error("{}", Refusal::Spelling)]
    Spelling,
    /// The input ends before the line does, or before the last line.
    #[error("{}", Refusal::Truncated)]
    Truncated,
    /// A byte stands after the last line.
    #[error("{}", Refusal::Trailing)]
    Trailing,
    /// The line is longer than a line may be.
    #[error("{}", Refusal::LineTooLong)]
    LineTooLong,
    /// A call after a fault.
    #[error("failed before")]
    Failed,
}

/// A fault of a reader, and the line where it stands, counted from 1.
#[derive(Clone, Copy, Debug, PartialEq, Eq)]
pub struct CertFault {
    /// What is wrong.
    pub kind: FaultKind,
    /// The line, which is 1 or 2 for a fault of the header.
    pub line: u64,
}

impl From<AllocError> for FaultKind {
    ghost from_gives = { λ _ e. e ≡ Memory };

    fn from(_e: AllocError) -> FaultKind {
        FaultKind::Memory
    }
}

impl<T: Drop> From<AllocFailed<T>> for FaultKind {
    ghost from_gives = { λ _ e. e ≡ Memory };

    fn from(_e: AllocFailed<T>) -> FaultKind {
        FaultKind::Memory
    }
}
