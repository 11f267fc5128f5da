// Why the program ends with another status than 0.
use fzn_checker::CheckFault;
use fzn_fault::Stop;
use thiserror::Error;

/// Why what is asked for is not done. Its message is the line that is printed.
#[derive(Debug, Drop, Error)]
pub enum Fault {
    /// The path of the new certificate leads to a file that is read, which is a fault of the command line.
    #[error("{}", Stop::CommandLine)]
    SameFile,
    /// The file or the certificate has a fault, or a call failed.
    #[error("{0}")]
    Check(#[from] CheckFault),
}

impl Fault {
    /// The exit status.
    pub fn status(&self) -> u8 {
        match self {
            Fault::SameFile => Stop::CommandLine.status(),
            Fault::Check(fault) => fault.status(),
        }
    }
}
