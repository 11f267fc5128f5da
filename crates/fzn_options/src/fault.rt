// Why words give no options.
ghost use Rattle.std.specs.Prelude.{◌≡◌, ◌≢◌};
ghost use Rattle.std.specs.IoError.{error_kind};
ghost use Rattle.std.specs.declared.io.ErrorKind.TheVariants.{OutOfMemory};
ghost use Rattle.clap.specs.Values.{kind_of};
ghost use Rattle.fzn_options.specs.Words.{options_status};
ghost use Rattle.fzn_options.specs.declared.fault.OptionsFault.TheVariants.{CommandLine, Memory};

use clap::Error as ClapError;
use clap::error::ErrorKind;
use fzn_fault::Stop;
use std::alloc::{AllocError, Global};
use std::io;
use thiserror::Error;

/// Why words give no options. Its message is the line that the program prints.
#[derive(Debug, Drop, Error)]
pub enum OptionsFault {
    /// The words are not those that the program takes.
    #[error("{}", Stop::CommandLine)]
    CommandLine,
    /// Help or the version was asked for: its text, which ends in a line feed.
    #[error("{0}")]
    Help(String),
    /// Memory was wanted and not there.
    #[error("{}", Stop::Memory)]
    Memory,
}

impl OptionsFault {
    /// The status that the program ends with: 3 for a wrong command line, 0 for help or the version, 5 for want of memory.
    pub fn status(&self) -> u8
        ensures { result ≡ options_status self.now }
    {
        match self {
            OptionsFault::CommandLine => Stop::CommandLine.status(),
            OptionsFault::Help(_) => 0,
            OptionsFault::Memory => Stop::Memory.status(),
        }
    }
}

impl From<AllocError> for OptionsFault {
    ghost from_gives = { λ _ e. e ≡ Memory };

    fn from(_e: AllocError) -> OptionsFault {
        OptionsFault::Memory
    }
}

/// The fault of words that the system did not hand over: one of them is not UTF-8, or memory is out.
impl From<io::Error> for OptionsFault {
    ghost from_gives = { λ error fault. (error_kind error ≡ OutOfMemory → fault ≡ Memory) × (error_kind error ≢ OutOfMemory → fault ≡ CommandLine) };

    fn from(error: io::Error) -> OptionsFault {
        match error.kind() {
            io::ErrorKind::OutOfMemory => OptionsFault::Memory,
            _ => OptionsFault::CommandLine,
        }
    }
}

/// The fault of a parse that gave no matches.
pub fn fault_of(alloc: Global, error: &ClapError) -> OptionsFault
    ensures memory { kind_of error.now ≡ ErrorKind.OutOfMemory → result ≡ Memory }
    ensures help { kind_of error.now ≡ ErrorKind.DisplayHelp → result ≢ CommandLine }
    ensures version { kind_of error.now ≡ ErrorKind.DisplayVersion → result ≢ CommandLine }
    ensures other { kind_of error.now ≢ ErrorKind.OutOfMemory → kind_of error.now ≢ ErrorKind.DisplayHelp
        → kind_of error.now ≢ ErrorKind.DisplayVersion → result ≡ CommandLine }
{
    match error.kind() {
        ErrorKind::OutOfMemory => OptionsFault::Memory,
        ErrorKind::DisplayHelp | ErrorKind::DisplayVersion => match error.to_string(alloc) {
            Ok(text) => OptionsFault::Help(text),
            Err(_) => OptionsFault::Memory,
        },
        _ => OptionsFault::CommandLine,
    }
}
