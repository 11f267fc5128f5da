// Reading a file from a reader that gives its bytes in pieces or fails.
use fzn_lexer::{Fault, FaultKind, Position};
use fzn_reading::{ModelFault, one_model, read_bytes, read_model};
use fzn_streams::TrackedReader;
use std::alloc::{AllocError, Global};
use std::io;
use std::io::Read;
use std::string::String;
use std::test::*;

/// Gives `most` bytes a call, and at the end fails where it is to.
#[derive(Drop)]
struct Pieces<'a> {
    bytes: &'a [u8],
    most: usize,
    fails: Option<io::ErrorKind>,
}

impl Read for Pieces<'_> {
    fn read(&mut self, buf: &mut [u8]) -> io::Result<usize> {
        if let (true, Some(kind)) = (self.bytes.is_empty(), self.fails) {
            return Err(io::Error::from(kind));
        }
        let count = self.bytes.len().min(buf.len()).min(self.most);
        buf[..count].copy_from_slice(&self.bytes[..count]);
        self.bytes = &self.bytes[count..];
        Ok(count)
    }
}

/// The fault that is met, and none where a model is read.
fn fault_of(
    alloc: Global,
    file: &str,
    most: usize,
    fails: Option<io::ErrorKind>,
) -> Option<ModelFault> {
    let mut input = TrackedReader::new(Pieces {
        bytes: file.as_bytes(),
        most,
        fails,
    });
    read_model(alloc, &mut input).err()
}

/// Whether the float is the fault, which stands before one of the parser that is nearer.
fn has_float(alloc: Global, most: usize) -> bool {
    let float = Fault {
        kind: FaultKind::Float,
        position: Position { line: 2, column: 2 },
    };
    match fault_of(alloc, "satisfy solve\n 1e5", most, None) {
        Some(ModelFault::File(fault)) => fault == float,
        _ => false,
    }
}

fn is_model(alloc: Global, most: usize) -> bool {
    fault_of(alloc, "solve satisfy;", most, None).is_none()
}

/// Whether all three bytes of a file are read.
fn are_read(alloc: Global, most: usize) -> bool {
    let mut input = TrackedReader::new(Pieces {
        bytes: "x1;".as_bytes(),
        most,
        fails: None,
    });
    match read_bytes(alloc, &mut input) {
        Ok(bytes) => bytes.len() == 3,
        Err(_) => false,
    }
}

#[test]
fn however_the_bytes_are_cut(rt: HostRuntime) {
    for most in [1, 2, 7, 20_000] {
        assert!(rt; has_float(rt.alloc(), most), "by {most}");
        assert!(rt; is_model(rt.alloc(), most), "by {most}");
        assert!(rt; are_read(rt.alloc(), most), "by {most}");
    }
}

fn is_unread(alloc: Global, file: &str, most: usize, kind: io::ErrorKind) -> bool {
    matches!(
        fault_of(alloc, file, most, Some(kind)),
        Some(ModelFault::Read)
    )
}

#[test]
fn failed_reads(rt: HostRuntime) {
    let alloc = rt.alloc();
    assert!(rt; is_unread(alloc, "", 1, io::ErrorKind::Other));
    assert!(rt; is_unread(alloc, "solve satisfy;", 6, io::ErrorKind::Interrupted));
    assert!(rt; is_unread(alloc, "solve satisfy;", 20_000, io::ErrorKind::Interrupted));
    assert!(rt; is_unread(alloc, "\x01", 1, io::ErrorKind::BrokenPipe));
}

fn messages(alloc: Global) -> Result<String, AllocError> {
    format!(in alloc; "{}, {}", ModelFault::Memory, ModelFault::Read)
}

#[test]
fn messages_of_faults(rt: HostRuntime) -> Result<(), Fail> {
    let text = messages(rt.alloc())?;
    assert!(rt; text.as_str() == "fault 19 Memory, fault 20 Read");
    Ok(())
}

#[test]
fn one_model_of_a_file(rt: HostRuntime) {
    assert!(rt; (one_model(), fzn_typing::one_model()) == ((), ()));
}
