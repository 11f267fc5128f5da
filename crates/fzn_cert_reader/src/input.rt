// Bytes from a reader, through a fixed chunk.
ghost use Rattle.std.specs.Prelude.{◌≡◌, ◌≤◌, ◌+◌, ◌++◌, ◌∷◌, [], true, length, IfOk, OnOk, OnErr, IfNone, option_to_list};
ghost use Rattle.std.specs.Io.KnownBytes.{Consumes, Keeps, IsAtEnd};

use fzn_streams::{ReadFailed, TrackedRead};

/// How many bytes one read asks for.
const CHUNK_LEN: usize = 4_096;

/// The bytes of a reader, one by one.
#[derive(Drop)]
pub struct Bytes<R> {
    /// The reader below.
    pub input: R,
    /// What the last read gave, from 0 up to `end`.
    pub chunk: [u8; 4_096],
    /// The place in the chunk of the next byte, counted from 0; at most `end`.
    pub start: usize,
    /// The place behind the last byte of the chunk, at most 4,096.
    pub end: usize,
    ghost in_order: { start ≤ end },
    ghost in_chunk: { end ≤ 4096 },
}

impl<R: TrackedRead + Drop> Bytes<R> {
    ghost use Rattle.fzn_cert_reader.specs.Input.{reader_in, left_in};

    pub fn new(input: R) -> Bytes<R>
        ensures input { reader_in result ≡ input }
        ensures empty { result.start ≡ result.end }
    {
        Bytes {
            input,
            chunk: [0; 4_096],
            start: 0,
            end: 0,
        }
    }

    /// The next byte, if there is one.
    pub fn next_byte(&mut self) -> Result<Option<u8>, ReadFailed>
        ensures taken { IfOk result (λ byte. Consumes (left_in R.remaining self.old) (left_in R.remaining self.new) (option_to_list byte)) }
        ensures end { IfOk result (λ byte. IfNone byte (IsAtEnd (left_in R.remaining self.new))) }
        ensures err { OnErr result (Keeps (left_in R.remaining self.old) (left_in R.remaining self.new)) }
        ensures due { OnErr result (R.has_failed (reader_in self.new) ≡ true) }
    {
        if self.start == self.end {
            self.refill()?;
        }
        Ok(self.take_byte())
    }

    /// The next byte of the chunk.
    fn take_byte(&mut self) -> Option<u8>
        ensures taken { Consumes (left_in R.remaining self.old) (left_in R.remaining self.new) (option_to_list result) }
        ensures none { IfNone result ((self.old.start ≡ self.old.end) × (self.new ≡ self.old)) }
    {
        if self.start == self.end {
            return None;
        }
        let byte = self.chunk[self.start];
        self.start += 1;
        Some(byte)
    }

    fn refill(&mut self) -> Result<(), ReadFailed>
        requires { self.old.start ≡ self.old.end }
        ensures kept { Keeps (left_in R.remaining self.old) (left_in R.remaining self.new) }
        ensures end { OnOk result (self.new.start ≡ self.new.end → IsAtEnd (left_in R.remaining self.new)) }
        ensures due { OnErr result (R.has_failed (reader_in self.new) ≡ true) }
    {
        let count = self.input.read_some(&mut self.chunk)?;
        self.start = 0;
        self.end = count;
        Ok(())
    }
}
