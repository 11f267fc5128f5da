//! Why no model was read.

ghost use Rattle.std.specs.Prelude.{◌≡◌};
ghost use Rattle.fzn_reading.specs.Numbers.{fault_number as number};

use fzn_fault::Stop;
use fzn_lexer::{Fault, FaultKind};
use thiserror::Error;

/// Why no model was read, printed as the programs print it.
#[derive(Debug, Drop, Error)]
pub enum ModelFault {
    /// Memory was wanted and not there.
    #[error("{}", Stop::Memory)]
    Memory,
    /// A read failed.
    #[error("{}", Stop::Read)]
    Read,
    /// The first fault of the file.
    #[error("line {line} column {column}: fault {number} {kind:?}", line = .0.position.line, column = .0.position.column, number = number_of(.0.kind), kind = .0.kind)]
    File(Fault),
}

/// The number of the fault.
fn number_of(kind: FaultKind) -> u64
    ensures { result ≡ number kind }
{
    match kind {
        FaultKind::BadByte => 1,
        FaultKind::BadToken => 2,
        FaultKind::Syntax => 3,
        FaultKind::TooDeep => 4,
        FaultKind::Float => 5,
        FaultKind::SetRefused => 6,
        FaultKind::UnboundedInt => 7,
        FaultKind::LiteralRange => 8,
        FaultKind::DuplicateName => 9,
        FaultKind::UnknownName => 10,
        FaultKind::UnknownConstraint => 11,
        FaultKind::Arity => 12,
        FaultKind::Type => 13,
        FaultKind::Length => 14,
        FaultKind::Argument => 15,
        FaultKind::TooMany => 16,
        FaultKind::OutputAnnotation => 17,
        FaultKind::FileTooLong => 18,
    }
}
