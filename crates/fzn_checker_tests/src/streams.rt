use crate::reader::cut_in;
use crate::writer::with_room;
use fzn_streams::{
    ReadFailed, TrackedRead, TrackedReader, TrackedWrite, TrackedWriter, WriteFailed, put,
};
use std::alloc::Global;
use std::cell::Cell;
use std::io;
use std::io::{Read, Write};
use std::test::*;

/// Whether all these bytes are put.
fn is_put<W: TrackedWrite>(out: &mut W) -> bool {
    put(out, b"one ").is_ok() && put(out, b"").is_ok() && put(out, b"two").is_ok()
}

fn are_put(alloc: Global) -> bool {
    let mut text: Vec<u8> = Vec::new(alloc);
    let mut out = TrackedWriter::new(&mut text);
    let is_put = is_put(&mut out) && out.flush_all().is_ok();
    let _ = out;
    is_put && text.as_slice() == b"one two".as_slice()
}

#[test]
fn puts_all_bytes(rt: HostRuntime) {
    assert!(rt; are_put(rt.alloc()));
}

/// Whether a writer with room for three bytes takes these, and the failure is told.
fn is_stopped(alloc: Global, fails: bool) -> bool {
    let mut narrow = with_room(alloc, 3, fails);
    let mut out = TrackedWriter::new(&mut narrow);
    let is_told = put(&mut out, b"four") == Err(WriteFailed);
    let _ = out;
    is_told && narrow.taken.as_slice() == b"fou".as_slice()
}

#[test]
fn stops_at_the_end_of_the_room(rt: HostRuntime) {
    assert!(rt; is_stopped(rt.alloc(), false));
    assert!(rt; is_stopped(rt.alloc(), true));
}

/// Whether a writer of any kind may be called as it was before, too.
fn is_written(alloc: Global) -> bool {
    let mut narrow = with_room(alloc, 5, false);
    let mut out = TrackedWriter::new(&mut narrow);
    let is_right = out.write(b"four").is_ok_and(|count| count == 3)
        && out.write_some(b"four") == Ok(2)
        && out.write_some(b"") == Ok(0)
        && out.flush().is_ok()
        && out.write_some(b"four") == Err(WriteFailed);
    let _ = out;
    is_right && narrow.taken.as_slice() == b"foufo".as_slice()
}

#[test]
fn a_write_that_takes_none_has_failed(rt: HostRuntime) {
    assert!(rt; is_written(rt.alloc()));
}

/// Whether five bytes are read, three at most at a time, and then the end or a failure comes.
fn is_read(fails: bool) -> bool {
    let mut input = TrackedReader::new(cut_in(b"bytes", 3, fails));
    let mut buffer = [0u8; 8];
    let is_front = input.read_some(&mut buffer) == Ok(3) && &buffer[..3] == b"byt".as_slice();
    let is_back = input.read(&mut buffer).is_ok_and(|count| count == 2)
        && &buffer[..2] == b"es".as_slice();
    let end = if fails { Err(ReadFailed) } else { Ok(0) };
    is_front && is_back && input.read_some(&mut buffer) == end
}

#[test]
fn reads_to_the_end(rt: HostRuntime) {
    assert!(rt; is_read(false));
    assert!(rt; is_read(true));
}

/// How many reads, writes and flushes there were. The call of one number fails, from 0 on over all of them.
#[derive(Drop)]
struct Counts {
    reads: Cell<u64>,
    writes: Cell<u64>,
    flushes: Cell<u64>,
    failing: u64,
}

impl Counts {
    fn failing_at(failing: u64) -> Counts {
        Counts {
            reads: Cell::new(0),
            writes: Cell::new(0),
            flushes: Cell::new(0),
            failing,
        }
    }

    /// Counts one more of these calls, which fails where it has the number.
    fn count(&self, calls: &Cell<u64>) -> io::Result<()> {
        let number = self
            .reads
            .get()
            .saturating_add(self.writes.get())
            .saturating_add(self.flushes.get());
        calls.set(calls.get().saturating_add(1));
        if number == self.failing {
            Err(io::ErrorKind::Other.into())
        } else {
            Ok(())
        }
    }

    fn are(&self, reads: u64, writes: u64, flushes: u64) -> bool {
        self.reads.get() == reads && self.writes.get() == writes && self.flushes.get() == flushes
    }
}

/// Gives and takes one byte a call.
#[derive(Drop)]
struct Below<'c> {
    counts: &'c Counts,
}

impl Read for Below<'_> {
    fn read(&mut self, buf: &mut [u8]) -> io::Result<usize> {
        self.counts.count(&self.counts.reads)?;
        Ok(buf.len().min(1))
    }
}

impl Write for Below<'_> {
    fn write(&mut self, buf: &[u8]) -> io::Result<usize> {
        self.counts.count(&self.counts.writes)?;
        Ok(buf.len().min(1))
    }

    fn flush(&mut self) -> io::Result<()> {
        self.counts.count(&self.counts.flushes)
    }
}

/// Whether each of four reads is one read below, and fails exactly where that one does.
fn are_read_below(failing: u64) -> bool {
    let counts = Counts::failing_at(failing);
    let mut input = TrackedReader::new(Below { counts: &counts });
    let mut buffer = [0u8; 2];
    let first = input.read_some(&mut buffer).is_err() == (failing == 0) && counts.are(1, 0, 0);
    let second = input.read(&mut buffer).is_err() == (failing == 1) && counts.are(2, 0, 0);
    let third = input.read_some(&mut buffer).is_err() == (failing == 2) && counts.are(3, 0, 0);
    let fourth = input.read(&mut buffer).is_err() == (failing == 3) && counts.are(4, 0, 0);
    first && second && third && fourth
}

#[test]
fn a_read_is_one_read_below(rt: HostRuntime) {
    for failing in 0..5 {
        assert!(rt; are_read_below(failing));
    }
}

/// Whether each of two writes is one write below and each of two flushes one flush, and fails exactly where that one does.
fn are_written_below(failing: u64) -> bool {
    let counts = Counts::failing_at(failing);
    let mut below = Below { counts: &counts };
    let mut out = TrackedWriter::new(&mut below);
    let first = out.write_some(b"two").is_err() == (failing == 0) && counts.are(0, 1, 0);
    let second = out.write(b"two").is_err() == (failing == 1) && counts.are(0, 2, 0);
    let third = out.flush_all().is_err() == (failing == 2) && counts.are(0, 2, 1);
    let fourth = out.flush().is_err() == (failing == 3) && counts.are(0, 2, 2);
    first && second && third && fourth
}

#[test]
fn a_write_or_a_flush_is_one_below(rt: HostRuntime) {
    for failing in 0..5 {
        assert!(rt; are_written_below(failing));
    }
}
