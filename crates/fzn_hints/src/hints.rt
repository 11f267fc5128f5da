// The solutions in the lines of a reader.
ghost use Rattle.std.specs.Prelude.{◌≤◌, IfOk, IfSome};
ghost use Rattle.fzn_hints.specs.Spelled.{HaveSolutionLine};

use fzn_cert::{LINE_LIMIT, Step, Version};
use fzn_cert_line::read_line;
use fzn_domain::Memory;
use fzn_list::Items;
use std::alloc::Global;
use std::io::Read;

/// How many bytes are read in all: a reader that gives bytes for ever does not stop a search.
pub const MOST: usize = 16_777_216;

/// The solutions in the lines of a reader, which may have more lines later.
#[derive(Drop)]
pub struct Hints<R> {
    input: R,
    chunk: [u8; 4_096],
    start: usize,
    end: usize,
    /// The line so far.
    line: Vec<u8>,
    /// Whether the line is longer than one of a certificate may be.
    is_long: bool,
    /// How many bytes may still be read.
    left: usize,
    /// How many lines were misspelled or too long.
    wrong: u64,
    ghost in_order: { start ≤ end },
    ghost in_chunk: { end ≤ 4096 },
}

impl<R: Read> Hints<R> {
    /// Nothing was read yet.
    pub fn new(alloc: Global, input: R) -> Hints<R> {
        Hints {
            input,
            chunk: [0; 4_096],
            start: 0,
            end: 0,
            line: Vec::new(alloc),
            is_long: false,
            left: MOST,
            wrong: 0,
        }
    }

    /// The values of the next `s` line that is whole, by the spelling of certificates. None where there is none for now, a read fails, or
    /// 16,777,216 bytes were read: a later call goes on from there. Lines of other kinds are passed over; those that begin with `s` and are
    /// misspelled are counted, and so are those of more than 4,194,304 bytes. It answers `Err` where memory runs out.
    pub fn next(&mut self, alloc: Global) -> Result<Option<Items<i64>>, Memory>
        ensures { IfOk result (λ found. IfSome found HaveSolutionLine) }
    {
        'bytes: for _ in 0..MOST {
            match self.next_byte() {
                None => return Ok(None),
                Some(b'\n') => {
                    if let Some(values) = self.end_line(alloc)? {
                        return Ok(Some(values));
                    }
                }
                Some(byte) => self.push(byte)?,
            }
        }
        Ok(None)
    }

    /// How many lines were misspelled or too long.
    pub fn wrong(&self) -> u64 {
        self.wrong
    }

    /// The next byte, if there is one now.
    fn next_byte(&mut self) -> Option<u8> {
        if self.start == self.end {
            self.refill();
        }
        if self.start == self.end || self.left == 0 {
            return None;
        }
        let byte = self.chunk[self.start];
        self.start += 1;
        self.left -= 1;
        Some(byte)
    }

    fn refill(&mut self) {
        match self.input.read(&mut self.chunk) {
            Ok(count) => {
                self.start = 0;
                self.end = count;
            }
            Err(_) => {}
        }
    }

    /// The line has one more byte.
    fn push(&mut self, byte: u8) -> Result<(), Memory> {
        if self.line.len() < LINE_LIMIT {
            self.line.push(byte)?;
        } else {
            self.is_long = true;
        }
        Ok(())
    }

    /// The line is whole: its values, if it is an `s` line. The next one begins.
    fn end_line(&mut self, alloc: Global) -> Result<Option<Items<i64>>, Memory>
        ensures { IfOk result (λ found. IfSome found HaveSolutionLine) }
    {
        let found = self.solution(alloc)?;
        if found.is_none() && (self.is_long || self.line.first() == Some(&b's')) {
            self.wrong = self.wrong.saturating_add(1);
        }
        self.line.clear();
        self.is_long = false;
        Ok(found)
    }

    /// The values of the line, if it is an `s` line.
    fn solution(&self, alloc: Global) -> Result<Option<Items<i64>>, Memory>
        ensures { IfOk result (λ found. IfSome found HaveSolutionLine) }
    {
        if self.is_long {
            return Ok(None);
        }
        match read_line(alloc, self.line.as_slice(), Version::Two)? {
            Some(Step::Solution(values)) => Ok(Some(values)),
            _ => Ok(None),
        }
    }
}
