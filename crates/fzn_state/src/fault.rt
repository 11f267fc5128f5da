// What can stop a run before its end.
ghost use Rattle.std.specs.Prelude.{◌≡◌};
ghost use Rattle.fzn_state.specs.declared.fault.Fault.TheVariants.{Memory};

use std::alloc::{AllocError, AllocFailed};

/// Why a run stopped before its end.
#[derive(Clone, Copy, Debug, PartialEq, Eq)]
pub enum Fault {
    /// Memory was wanted and not there.
    Memory,
    /// The output could not be written.
    WriteOutput,
    /// The certificate could not be written.
    WriteCert,
    /// A step is too long for a line of the certificate.
    StepTooLong,
}

impl From<AllocError> for Fault {
    ghost from_gives = { λ _ e. e ≡ Memory };

    fn from(_e: AllocError) -> Fault {
        Fault::Memory
    }
}

impl<T: Drop> From<AllocFailed<T>> for Fault {
    ghost from_gives = { λ _ e. e ≡ Memory };

    fn from(_e: AllocFailed<T>) -> Fault {
        Fault::Memory
    }
}
