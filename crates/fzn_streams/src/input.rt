// Readers that remember a failed read.
ghost use Rattle.std.specs.Prelude.{◌≡◌, Bool, true, false, OnErr};
ghost use Rattle.std.specs.Io.{ReadsAtMost};
ghost use Rattle.std.specs.Io.KnownBytes.{ReadConsumes};

use std::io;
use std::io::Read;

/// A read failed.
#[derive(Clone, Copy, Debug, PartialEq, Eq)]
pub struct ReadFailed;

/// A reader that remembers whether a read failed. Each call that reads answers an error only where the read below fails.
pub trait TrackedRead: Read {
    /// Whether a read failed.
    ghost has_failed: { Self → Bool };

    /// Reads some bytes to the front of the buffer: how many, and none only at the end of the input or into no room. It answers `Err` only
    /// where the read below failed.
    fn read_some(&mut self, buffer: &mut [u8]) -> Result<usize, ReadFailed>
        ensures bound { ReadsAtMost result buffer.new }
        ensures bytes { ReadConsumes (Self.remaining self.old) (Self.remaining self.new) result buffer.new }
        ensures due { OnErr result (has_failed self.new ≡ true) };
}

/// A reader of any kind that remembers whether a read failed.
#[derive(Drop)]
pub struct TrackedReader<R> {
    input: R,
    failed: bool,
}

impl<R: Read> TrackedReader<R> {
    ghost use Rattle.fzn_streams.specs.Input.{input_of, read_failed};

    /// No read has failed.
    pub fn new(input: R) -> TrackedReader<R>
        ensures input { input_of result ≡ input }
        ensures fresh { read_failed result ≡ false }
    {
        TrackedReader {
            input,
            failed: false,
        }
    }
}

impl<R: Read> Read for TrackedReader<R> {
    ghost use Rattle.fzn_streams.specs.Input.{input_of};

    ghost remaining = { λ reader. R.remaining (input_of reader) };

    fn read(&mut self, buffer: &mut [u8]) -> io::Result<usize> {
        let result = self.input.read(buffer);
        self.failed |= result.is_err();
        result
    }
}

impl<R: Read> TrackedRead for TrackedReader<R> {
    ghost use Rattle.fzn_streams.specs.Input.{read_failed};

    ghost has_failed = { λ reader. read_failed reader };

    fn read_some(&mut self, buffer: &mut [u8]) -> Result<usize, ReadFailed> {
        let result = self.input.read(buffer);
        self.failed |= result.is_err();
        result.or(Err(ReadFailed))
    }
}
