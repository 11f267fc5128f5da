use crate::reader::{Cut, cut_in};
use crate::writer::with_room;
use fzn_checker::{CheckFault, to2};
use std::alloc::{AllocError, Global};
use std::io;
use std::io::{Read, Write};
use std::test::*;

const OLD: &[u8] =
    b"fzc 1\nvars 2 cons 2\ni 2 lin ; 1<=0\ni 1 lin ; 1>=1 2>=1\ns 0 1\nr ; 1 2 3\ne closed\n";

const NEW: &[u8] =
    b"fzc 2\nvars 2 cons 2\ni 2 lin ; 1<=0\ni 1 lin ; 1>=1 2>=1\ns 0 1\nr ; 1 2 3\ne closed\n";

/// Certificates, where `|` stands for a line feed, what is wrong with them, and what stands then.
const FAULTS: &str = "
fzc 2|vars 1 cons|: certificate line 1: fault 50 NotVersionOne:
fzc 3|: certificate line 1: fault 50 NotVersionOne:
fzc 4|: certificate line 1: fault 30 Header:
fzc 1: certificate line 1: fault 32 Truncated:
fzc 1|vars 1 cons|: certificate line 2: fault 30 Header:fzc 2|
fzc 1|vars 1 cons 0|d 1|e open|: certificate line 3: fault 31 Spelling:fzc 2|vars 1 cons 0|
fzc 1|vars 1 cons 0|s 1|: certificate line 4: fault 32 Truncated:fzc 2|vars 1 cons 0|s 1|
fzc 1|vars 1 cons 0|e closed||: certificate line 4: fault 33 Trailing:fzc 2|vars 1 cons 0|
";

/// Takes all bytes, and fails to flush.
#[derive(Drop)]
struct Unflushed(Vec<u8>);

impl Write for Unflushed {
    fn write(&mut self, buf: &[u8]) -> io::Result<usize> {
        self.0.extend_from_slice(buf)?;
        Ok(buf.len())
    }

    fn flush(&mut self) -> io::Result<()> {
        Err(io::ErrorKind::Other.into())
    }
}

/// The fault of a certificate that is written anew.
fn fault_of<C: Read + Drop, W: Write>(alloc: Global, old: C, new: &mut W) -> Option<CheckFault> {
    to2(alloc, old, new).err()
}

fn is_rewritten(alloc: Global) -> bool {
    let mut new: Vec<u8> = Vec::new(alloc);
    to2(alloc, OLD, &mut new) == Ok(4) && new.as_slice() == NEW
}

#[test]
fn another_first_line(rt: HostRuntime) {
    assert!(rt; is_rewritten(rt.alloc()));
}

/// What is wrong with a certificate.
fn told(alloc: Global, old: &str, new: &mut Vec<u8>) -> Result<String, AllocError> {
    match fault_of(alloc, old.as_bytes(), new) {
        Some(fault) => format!(in alloc; "{fault}"),
        None => Ok(String::new(alloc)),
    }
}

/// Whether a certificate has this fault, and this stands then.
fn is_left(alloc: Global, old: &str, fault: &str, stands: &str) -> Result<bool, AllocError> {
    let mut new: Vec<u8> = Vec::new(alloc);
    let told = told(alloc, old, &mut new)?;
    Ok(told.as_str() == fault && new.as_slice() == stands.as_bytes())
}

/// Whether the row, with its line feeds, is right.
fn is_right(alloc: Global, row: &str) -> Result<bool, Fail> {
    let (old, told) = row.split_once(": ").ok_or("a row has three parts")?;
    let (fault, stands) = told.rsplit_once(":").ok_or("a row has three parts")?;
    Ok(is_left(alloc, old, fault, stands)?)
}

fn is_as_told(alloc: Global, row: &str) -> Result<bool, Fail> {
    let row = row.replace(alloc, '|', "\n")?;
    is_right(alloc, row.as_str())
}

#[test]
fn the_first_faulty_line(rt: HostRuntime) -> Result<(), Fail> {
    assert!(rt; FAULTS.trim().lines().count() == 8);
    for row in FAULTS.trim().lines() {
        assert!(rt; is_as_told(rt.alloc(), row)?, "{row}");
    }
    Ok(())
}

/// Whether a beginning of the new certificate stands.
fn is_begun(new: &[u8]) -> bool {
    NEW.starts_with(new)
}

/// Whether it is told that the read behind so many bytes failed.
fn is_unread(alloc: Global, count: usize) -> bool {
    let mut new: Vec<u8> = Vec::new(alloc);
    let torn: Cut<'static> = cut_in(&OLD[..count.min(OLD.len())], 7, true);
    fault_of(alloc, torn, &mut new) == Some(CheckFault::Read) && is_begun(&new)
}

/// Whether it is told that the write behind so many bytes failed.
fn is_unwritten(alloc: Global, room: usize, fails: bool) -> bool {
    let mut new = with_room(alloc, room, fails);
    let fault = fault_of(alloc, OLD, &mut new);
    fault == Some(CheckFault::WriteCert) && is_begun(&new.taken) && new.taken.len() == room
}

fn is_unflushed(alloc: Global) -> bool {
    let mut new = Unflushed(Vec::new(alloc));
    let fault = fault_of(alloc, OLD, &mut new);
    fault == Some(CheckFault::WriteCert) && new.0.as_slice() == NEW
}

#[test]
fn reads_and_writes_that_fail(rt: HostRuntime) {
    for count in 0..OLD.len() + 1 {
        assert!(rt; is_unread(rt.alloc(), count), "the first {count} bytes");
    }
    for room in 0..NEW.len() {
        assert!(rt; is_unwritten(rt.alloc(), room, false), "room {room}");
        assert!(rt; is_unwritten(rt.alloc(), room, true), "room {room}");
    }
    assert!(rt; is_unflushed(rt.alloc()));
}
