// Why a line of a certificate is not written.
ghost use Rattle.std.specs.Prelude.{◌≡◌};
ghost use Rattle.fzn_cert.specs.declared.write_fault.WriteFault.TheVariants.{Memory};

use fzn_fault::Stop;
use std::alloc::AllocError;
use thiserror::Error;

/// What a writer answers where it has not written a line.
#[derive(Clone, Copy, Debug, PartialEq, Eq, Error)]
pub enum WriteFault {
    /// No memory was left.
    #[error("{}", Stop::Memory)]
    Memory,
    /// The writer below failed.
    #[error("{}", Stop::WriteCert)]
    Write,
    /// The line of the step is longer than a line may be, or its number larger than that of the last step.
    #[error("{}", Stop::StepTooLong)]
    StepTooLong,
    /// A call after a fault, or after the last line was written.
    #[error("failed before")]
    Failed,
}

impl From<AllocError> for WriteFault {
    ghost from_gives = { λ _ fault. fault ≡ Memory };

    fn from(_error: AllocError) -> WriteFault {
        WriteFault::Memory
    }
}
