// Why a run has no answer.
ghost use Rattle.std.specs.Prelude.{◌≡◌};
ghost use Rattle.fzn_solver.specs.declared.fault.RunFault.TheVariants.{Memory};
ghost use Rattle.fzn_solver.specs.FaultsFrom.{fault_of_model, fault_of_engine, status_of_run};

use fzn_fault::Stop;
use fzn_lexer::Fault;
use fzn_reading::ModelFault;
use fzn_state::Fault as EngineFault;
use std::alloc::AllocError;
use thiserror::Error;

/// Why a run has no answer. Its message is the line that the program prints.
#[derive(Clone, Copy, Debug, PartialEq, Eq, Error)]
pub enum RunFault {
    /// The first fault of the file.
    #[error("{}", ModelFault::File(*.0))]
    File(Fault),
    /// Memory was wanted and not there.
    #[error("{}", Stop::Memory)]
    Memory,
    /// A read of the file failed.
    #[error("{}", Stop::Read)]
    Read,
    /// A write or a flush of the answer failed.
    #[error("{}", Stop::WriteOutput)]
    WriteOutput,
    /// A write or a flush of the certificate failed.
    #[error("{}", Stop::WriteCert)]
    WriteCert,
    /// A step would take more bytes than a line of the certificate may have, or there are as many steps as there may be.
    #[error("{}", Stop::StepTooLong)]
    StepTooLong,
}

impl RunFault {
    /// The exit status of a program that answers it: 2 for a fault of the file, 4 for a failed read or write, 5 for want of memory and for
    /// a step that is too long.
    pub fn status(self) -> u8
        ensures { result ≡ status_of_run self }
    {
        match self {
            RunFault::File(_) => 2,
            RunFault::Memory => Stop::Memory.status(),
            RunFault::Read => Stop::Read.status(),
            RunFault::WriteOutput => Stop::WriteOutput.status(),
            RunFault::WriteCert => Stop::WriteCert.status(),
            RunFault::StepTooLong => Stop::StepTooLong.status(),
        }
    }
}

impl From<AllocError> for RunFault {
    ghost from_gives = { λ _ fault. fault ≡ Memory };

    fn from(_error: AllocError) -> RunFault {
        RunFault::Memory
    }
}

impl From<ModelFault> for RunFault {
    ghost from_gives = { λ of fault. fault ≡ fault_of_model of };

    fn from(fault: ModelFault) -> RunFault {
        match fault {
            ModelFault::File(fault) => RunFault::File(fault),
            ModelFault::Memory => RunFault::Memory,
            ModelFault::Read => RunFault::Read,
        }
    }
}

impl From<EngineFault> for RunFault {
    ghost from_gives = { λ of fault. fault ≡ fault_of_engine of };

    fn from(fault: EngineFault) -> RunFault {
        match fault {
            EngineFault::Memory => RunFault::Memory,
            EngineFault::WriteOutput => RunFault::WriteOutput,
            EngineFault::WriteCert => RunFault::WriteCert,
            EngineFault::StepTooLong => RunFault::StepTooLong,
        }
    }
}
