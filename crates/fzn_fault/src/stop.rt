// The faults 19 to 24.
ghost use Rattle.std.specs.Prelude.{◌≡◌};
ghost use Rattle.fzn_fault.specs.Stops.{number_of, name_of, status_of};

use std::error::Error;
use std::fmt;

/// Why a program stops that neither a file nor a certificate is to blame for. Its text is the line that is printed, without a line feed.
#[derive(Clone, Copy, Debug, PartialEq, Eq)]
pub enum Stop {
    /// Memory was wanted and not there.
    Memory,
    /// A file could not be opened or read.
    Read,
    /// A write or a flush of the answer failed.
    WriteOutput,
    /// A certificate's file could not be made, or a write or a flush of it failed.
    WriteCert,
    /// The words of the command line are not those that the program takes, or lead to one file where they may not.
    CommandLine,
    /// The line of a step is longer than a line may be, or its number larger than that of the last step.
    StepTooLong,
}

impl Stop {
    /// Its number, 19 to 24.
    pub fn number(self) -> u8
        ensures { result ≡ number_of self }
    {
        match self {
            Stop::Memory => 19,
            Stop::Read => 20,
            Stop::WriteOutput => 21,
            Stop::WriteCert => 22,
            Stop::CommandLine => 23,
            Stop::StepTooLong => 24,
        }
    }

    /// Its name, which stands behind the number.
    pub fn name(self) -> &'static str
        ensures { result.now ≡ name_of self }
    {
        match self {
            Stop::Memory => "Memory",
            Stop::Read => "Read",
            Stop::WriteOutput => "WriteOutput",
            Stop::WriteCert => "WriteCert",
            Stop::CommandLine => "CommandLine",
            Stop::StepTooLong => "StepTooLong",
        }
    }

    /// The exit status of a program that it stops: 3 for the command line, 4 for a file that can't be opened, read or written, 5 for want of
    /// memory and for a step that has no room.
    pub fn status(self) -> u8
        ensures { result ≡ status_of self }
    {
        match self {
            Stop::CommandLine => 3,
            Stop::Read | Stop::WriteOutput | Stop::WriteCert => 4,
            Stop::Memory | Stop::StepTooLong => 5,
        }
    }
}

impl fmt::Display for Stop {
    ghost use Rattle.std.specs.Prelude.{Some};
    ghost use Rattle.fzn_fault.specs.Stops.{line_of};

    ghost output = { λ stop. Some (line_of stop) };

    fn fmt<W: fmt::Write>(&self, f: &mut fmt::Formatter<W>) -> fmt::Result {
        let number = self.number();
        let name = self.name();
        write!(f, "fault {number} {name}")
    }
}

impl Error for Stop {}
