// Writers that remember a failed call, and bytes to them, with a loop of its own over `write`.
ghost use Rattle.std.specs.Prelude.{◌≡◌, ◌≢◌, ℕ, Bool, true, false, [], ◌<◌, ◌≤◌, ◌^◌, take, length, IfOk};
ghost use Rattle.std.specs.Io.{WritesAtMost};
ghost use Rattle.std.specs.Io.KnownBytes.{Appends, Keeps, WriteAppends};
ghost use Rattle.fzn_streams.specs.Output.{Puts, IsStreamDue};

use std::io;
use std::io::Write;

/// A write or a flush failed, or a write took none of the bytes.
#[derive(Clone, Copy, Debug, PartialEq, Eq)]
pub struct WriteFailed;

/// A writer that remembers whether a write or a flush failed. Each call answers an error only where the writer below fails, or takes none
/// of some bytes.
pub trait TrackedWrite: Write {
    /// What tells one writer from another.
    ghost Stream: { Type 0 };

    /// Where the bytes go, which no call changes.
    ghost stream: { Self → Stream };

    /// Whether a call failed.
    ghost has_failed: { Self → Bool };

    /// Writes some of the bytes, from the first on: how many, and none only of no bytes. It answers `Err` only where the write below failed
    /// or took none of some bytes.
    fn write_some(&mut self, bytes: &[u8]) -> Result<usize, WriteFailed>
        ensures bound { WritesAtMost result bytes.now }
        ensures some { IfOk result (λ count. bytes.now ≢ [] → 0 < count) }
        ensures bytes { WriteAppends (Self.contents self.old) (Self.contents self.new) result bytes.now }
        ensures due { IsStreamDue stream has_failed self.old self.new result };

    /// Flushes the writer below. It answers `Err` only where the flush below failed.
    fn flush_all(&mut self) -> Result<(), WriteFailed>
        ensures kept { Keeps (Self.contents self.old) (Self.contents self.new) }
        ensures due { IsStreamDue stream has_failed self.old self.new result };
}

/// A writer of any kind that remembers whether a write or a flush failed. A write that takes none of some bytes counts as failed.
#[derive(Drop)]
pub struct TrackedWriter<'w, W: Write> {
    out: &'w mut W,
    failed: bool,
}

impl<'w, W: Write> TrackedWriter<'w, W> {
    ghost use Rattle.fzn_streams.specs.Output.{out_of, name_below, write_failed};

    /// No call has failed.
    pub fn new(out: &'w mut W) -> TrackedWriter<'w, W>
        ensures same { out_of result ≡ out.old }
        ensures same_writer { name_below result ≡ out.entry.ghost_name }
        ensures fresh { write_failed result ≡ false }
    {
        TrackedWriter { out, failed: false }
    }
}

impl<'w, W: Write> Write for TrackedWriter<'w, W> {
    ghost use Rattle.fzn_streams.specs.Output.{out_of};

    ghost contents = { λ writer. W.contents (out_of writer) };

    fn write(&mut self, bytes: &[u8]) -> io::Result<usize> {
        let result = self.out.write(bytes);
        match &result {
            Ok(count) => self.failed |= *count == 0 && !bytes.is_empty(),
            Err(_) => self.failed = true,
        }
        result
    }

    fn flush(&mut self) -> io::Result<()> {
        let result = self.out.flush();
        self.failed |= result.is_err();
        result
    }
}

impl<'w, W: Write> TrackedWrite for TrackedWriter<'w, W> {
    ghost use Rattle.std.specs.Borrow.{GName};
    ghost use Rattle.fzn_streams.specs.Output.{name_below, write_failed};

    ghost Stream = { GName };

    ghost stream = { λ writer. name_below writer };

    ghost has_failed = { λ writer. write_failed writer };

    fn write_some(&mut self, bytes: &[u8]) -> Result<usize, WriteFailed> {
        match self.out.write(bytes) {
            Ok(count) if count > 0 || bytes.is_empty() => Ok(count),
            _ => {
                self.failed = true;
                Err(WriteFailed)
            }
        }
    }

    fn flush_all(&mut self) -> Result<(), WriteFailed> {
        let result = self.out.flush();
        self.failed |= result.is_err();
        result.or(Err(WriteFailed))
    }
}

/// Writes all the bytes. It answers `Err` only where a write failed or took none of some bytes, and then a beginning of the bytes stands.
pub fn put<W: TrackedWrite>(out: &mut W, bytes: &[u8]) -> Result<(), WriteFailed>
    ensures text { Puts (W.contents out.old) (W.contents out.new) result bytes.now }
    ensures due { IsStreamDue W.stream W.has_failed out.old out.new result }
{
    let mut written = 0;
    while written < bytes.len() {
        written += out.write_some(&bytes[written..])?;
    }
    Ok(())
}
