// Readers and writers of which one call goes wrong, and bytes with one changed.
use std::alloc::Global;
use std::cell::Cell;
use std::io;
use std::io::{Read, Write};

/// What goes wrong at a call.
#[derive(Clone, Copy, Debug, PartialEq, Eq)]
pub enum Flaw {
    /// It fails.
    Fails,
    /// A write takes none of its bytes.
    TakesNone,
    /// A read or a write of two bytes or more moves one less.
    OneLess,
}

/// Which call of a stream goes wrong, counted from 0, and how; and what came of it.
#[derive(Drop)]
pub struct Calls {
    flaw: Flaw,
    at: u64,
    count: Cell<u64>,
    has_failed: Cell<bool>,
    is_late: Cell<bool>,
}

impl Calls {
    /// The call of this number goes wrong so.
    pub fn with(flaw: Flaw, at: u64) -> Calls {
        Calls {
            flaw,
            at,
            count: Cell::new(0),
            has_failed: Cell::new(false),
            is_late: Cell::new(false),
        }
    }

    /// None goes wrong.
    pub fn sound() -> Calls {
        Calls::with(Flaw::Fails, u64::MAX)
    }

    /// How many calls there were.
    pub fn count(&self) -> u64 {
        self.count.get()
    }

    /// Whether a call failed.
    pub fn has_failed(&self) -> bool {
        self.has_failed.get()
    }

    /// Whether a call came after one that failed.
    pub fn is_late(&self) -> bool {
        self.is_late.get()
    }

    /// Whether there were more calls than come before the one that goes wrong.
    pub fn is_reached(&self) -> bool {
        self.count.get() > self.at
    }

    /// Counts a call, and says what goes wrong at it.
    fn next(&self) -> Option<Flaw> {
        let number = self.count.get();
        self.count.set(number.saturating_add(1));
        self.is_late
            .set(self.is_late.get() || self.has_failed.get());
        if number == self.at {
            Some(self.flaw)
        } else {
            None
        }
    }

    /// How many bytes a call of so many moves.
    fn moved(&self, wanted: usize) -> io::Result<usize> {
        let flaw = self.next();
        let fails = flaw == Some(Flaw::Fails) || flaw == Some(Flaw::TakesNone) && wanted > 0;
        self.has_failed.set(self.has_failed.get() || fails);
        match flaw {
            Some(Flaw::Fails) => Err(io::ErrorKind::Other.into()),
            Some(Flaw::TakesNone) => Ok(0),
            Some(Flaw::OneLess) if wanted > 1 => Ok(wanted.saturating_sub(1)),
            _ => Ok(wanted),
        }
    }
}

/// Keeps what it takes, at most so many bytes a call.
#[derive(Drop)]
pub struct Sink<'a> {
    /// The bytes that it took, in order.
    pub taken: Vec<u8>,
    most: usize,
    calls: &'a Calls,
}

impl<'a> Sink<'a> {
    /// Has taken nothing.
    pub fn new(alloc: Global, most: usize, calls: &'a Calls) -> Sink<'a> {
        Sink {
            taken: Vec::new(alloc),
            most,
            calls,
        }
    }
}

impl Write for Sink<'_> {
    fn write(&mut self, buf: &[u8]) -> io::Result<usize> {
        let count = self.calls.moved(buf.len().min(self.most))?.min(buf.len());
        self.taken.extend_from_slice(&buf[..count])?;
        Ok(count)
    }

    fn flush(&mut self) -> io::Result<()> {
        self.calls.moved(0)?;
        Ok(())
    }
}

/// Gives its bytes, at most so many a call.
#[derive(Drop)]
pub struct Source<'a> {
    bytes: &'a [u8],
    most: usize,
    calls: &'a Calls,
}

impl<'a> Source<'a> {
    /// Has given nothing.
    pub fn new(bytes: &'a [u8], most: usize, calls: &'a Calls) -> Source<'a> {
        Source { bytes, most, calls }
    }
}

impl Read for Source<'_> {
    fn read(&mut self, buf: &mut [u8]) -> io::Result<usize> {
        let wanted = self.bytes.len().min(buf.len()).min(self.most);
        let count = self.calls.moved(wanted)?.min(wanted);
        buf[..count].copy_from_slice(&self.bytes[..count]);
        self.bytes = &self.bytes[count..];
        Ok(count)
    }
}

/// Puts the byte at the place, where the bytes have it.
pub fn put_at(bytes: &mut [u8], at: usize, byte: u8) {
    if at < bytes.len() {
        bytes[at] = byte;
    }
}
