// Why a run ends with another status than 0.
use fzn_fault::Stop;
use fzn_solver::RunFault;
use thiserror::Error;

/// Why there is no answer. Its message is the line that is printed.
#[derive(Debug, Drop, Error)]
pub enum Fault {
    /// The path of the certificate leads to a file that is read, which is a fault of the command line.
    #[error("{}", Stop::CommandLine)]
    SameFile,
    /// The run was stopped.
    #[error("{0}")]
    Run(#[from] RunFault),
}

impl Fault {
    /// The exit status.
    pub fn status(&self) -> u8 {
        match self {
            Fault::SameFile => Stop::CommandLine.status(),
            Fault::Run(fault) => fault.status(),
        }
    }
}
