use crate::files::TWO_BOOLEANS;
use crate::runs::{options_of, solve};
use fzn_lexer::{Fault, FaultKind, Position};
use fzn_options::Options;
use fzn_solver::{RunFault, Unobserved};
use std::alloc::{AllocError, Global};
use std::io;
use std::io::Read;
use std::test::Fail;

/// Gives its bytes, and then fails.
#[derive(Drop)]
struct Torn<'a>(&'a [u8]);

impl Read for Torn<'_> {
    fn read(&mut self, buf: &mut [u8]) -> io::Result<usize> {
        if self.0.is_empty() {
            return Err(io::ErrorKind::Other.into());
        }
        let count = self.0.len().min(buf.len());
        buf[..count].copy_from_slice(&self.0[..count]);
        self.0 = &self.0[count..];
        Ok(count)
    }
}

/// Whether a run on a file that is torn fails to read it.
fn is_torn(
    alloc: Global,
    options: &Options,
    file: &str,
    out: &mut Vec<u8>,
    cert: &mut Vec<u8>,
) -> bool {
    let torn = Torn(file.as_bytes());
    matches!(
        solve(alloc, torn, options, out, cert, &mut Unobserved),
        Err(RunFault::Read)
    )
}

/// Whether such a run also leaves both writers as they were.
fn is_unread(alloc: Global, options: &Options, file: &str) -> Result<bool, AllocError> {
    let mut out = Vec::from_slice(alloc, b"before")?;
    let mut cert = Vec::from_slice(alloc, b"first")?;
    let is_torn = is_torn(alloc, options, file, &mut out, &mut cert);
    Ok(is_torn && out.as_slice() == b"before".as_slice() && cert.as_slice() == b"first".as_slice())
}

#[test]
fn failed_reads(rt: HostRuntime) -> Result<(), Fail> {
    let options = options_of(rt.alloc(), true, 9);
    for file in ["", "solve", TWO_BOOLEANS] {
        assert!(rt; is_unread(rt.alloc(), &options, file)?, "{file:?}");
    }
    Ok(())
}

/// Whether the fault has this line and this status.
fn is_told(alloc: Global, fault: RunFault, line: &str, status: u8) -> Result<bool, AllocError> {
    let text = format!(in alloc; "{fault}")?;
    Ok(text.as_str() == line && fault.status() == status)
}

fn are_told(alloc: Global, float: Fault) -> Result<bool, AllocError> {
    Ok(
        is_told(
            alloc,
            RunFault::File(float),
            "line 1 column 5: fault 5 Float",
            2,
        )? && is_told(alloc, RunFault::Memory, "fault 19 Memory", 5)?
            && is_told(alloc, RunFault::Read, "fault 20 Read", 4)?
            && is_told(alloc, RunFault::WriteOutput, "fault 21 WriteOutput", 4)?
            && is_told(alloc, RunFault::WriteCert, "fault 22 WriteCert", 4)?
            && is_told(alloc, RunFault::StepTooLong, "fault 24 StepTooLong", 5)?,
    )
}

#[test]
fn messages(rt: HostRuntime) -> Result<(), Fail> {
    let float = Fault {
        kind: FaultKind::Float,
        position: Position { line: 1, column: 5 },
    };
    assert!(rt; are_told(rt.alloc(), float)?);
    Ok(())
}
