// Why there is no verdict.
ghost use Rattle.std.specs.Prelude.{◌≡◌};
ghost use Rattle.fzn_checker.specs.declared.fault.CheckFault.TheVariants.{Memory};
ghost use Rattle.fzn_checker.specs.FileFaults.{fault_from, check_status};

use fzn_cert::Refusal;
use fzn_fault::Stop;
use fzn_lexer::Fault;
use fzn_reading::ModelFault;
use std::alloc::AllocError;
use thiserror::Error;

/// Why a certificate has no answer.
#[derive(Clone, Copy, Debug, PartialEq, Eq, Error)]
pub enum CheckFault {
    /// The first fault of the file.
    #[error("{}", ModelFault::File(*.0))]
    File(Fault),
    /// The first faulty line of the certificate, and what is wrong with it.
    #[error("certificate line {line}: {refusal}")]
    Refused { line: u64, refusal: Refusal },
    /// The certificate that is to be written anew says version 2 in its first line.
    #[error("certificate line 1: fault 50 NotVersionOne")]
    NotVersionOne,
    /// Memory was wanted and not there.
    #[error("{}", Stop::Memory)]
    Memory,
    /// A read of the file or of the certificate failed.
    #[error("{}", Stop::Read)]
    Read,
    /// A write or a flush of the answer failed.
    #[error("{}", Stop::WriteOutput)]
    WriteOutput,
    /// A write or a flush of the certificate that is written anew failed.
    #[error("{}", Stop::WriteCert)]
    WriteCert,
}

impl CheckFault {
    /// The exit status of a program that answers it: 1 where a certificate is refused, 2 for a fault of the file, 4 for a failed read or
    /// write, 5 for want of memory.
    pub fn status(self) -> u8
        ensures { result ≡ check_status self }
    {
        match self {
            CheckFault::Refused { .. } | CheckFault::NotVersionOne => 1,
            CheckFault::File(_) => 2,
            CheckFault::Memory => Stop::Memory.status(),
            CheckFault::Read => Stop::Read.status(),
            CheckFault::WriteOutput => Stop::WriteOutput.status(),
            CheckFault::WriteCert => Stop::WriteCert.status(),
        }
    }
}

impl From<AllocError> for CheckFault {
    ghost from_gives = { λ _ fault. fault ≡ Memory };

    fn from(_error: AllocError) -> CheckFault {
        CheckFault::Memory
    }
}

impl From<ModelFault> for CheckFault {
    ghost from_gives = { λ of fault. fault ≡ fault_from of };

    fn from(fault: ModelFault) -> CheckFault {
        match fault {
            ModelFault::File(fault) => CheckFault::File(fault),
            ModelFault::Memory => CheckFault::Memory,
            ModelFault::Read => CheckFault::Read,
        }
    }
}
