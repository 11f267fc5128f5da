// Lines of a reader, one at a time.
ghost use Rattle.std.specs.Prelude.{◌≡◌, ◌≤◌, ◌+◌, ◌++◌, ◌∷◌, [], true, length, ◌⊎◌, IfOk, IfErr, OnOk, OnErr};
ghost use Rattle.std.specs.Io.KnownBytes.{Consumes};
ghost use Rattle.fzn_cert.specs.declared.fault.FaultKind.TheVariants.{Memory, Read};
ghost use Rattle.fzn_cert.specs.Stream.{HasNoLineFeed};
ghost use Rattle.fzn_cert_reader.specs.Input.{reader_in, left_in};
ghost use Rattle.fzn_cert_reader.specs.Lines.{bytes_taken, EndsLine};
ghost use Rattle.fzn_cert_reader.specs.Told.{TakesPart};

use crate::input::Bytes;
use fzn_cert::{FaultKind, LINE_LIMIT};
use fzn_streams::{ReadFailed, TrackedRead};

/// How a line ended.
#[derive(Clone, Copy, Debug, PartialEq, Eq)]
pub enum LineEnd {
    /// By its line feed.
    Whole,
    /// By the end of the input.
    Truncated,
    /// By the limit of its length.
    TooLong,
}

/// Reads the next line, without its line feed.
pub fn next_line<R: TrackedRead + Drop>(
    bytes: &mut Bytes<R>,
    line: &mut Vec<u8>,
) -> Result<LineEnd, FaultKind>
    ensures taken { IfOk result (λ end. Consumes (left_in R.remaining bytes.old) (left_in R.remaining bytes.new) (bytes_taken end line.new.items)) }
    ensures inside { OnOk result (HasNoLineFeed line.new.items) }
    ensures part { OnErr result (TakesPart (left_in R.remaining bytes.old) (left_in R.remaining bytes.new)) }
    ensures fault { IfErr result (λ fault. (fault ≡ Memory) ⊎ (fault ≡ Read)) }
    ensures end { IfOk result (λ end. EndsLine end (left_in R.remaining bytes.new) line.new.items) }
    ensures due { IfErr result (λ fault. fault ≡ Read → R.has_failed (reader_in bytes.new) ≡ true) }
{
    line.clear();
    for _ in 0..LINE_LIMIT + 1 {
        match bytes.next_byte() {
            Ok(Some(b'\n')) => return Ok(LineEnd::Whole),
            Ok(Some(byte)) => line.push(byte)?,
            Ok(None) => return Ok(LineEnd::Truncated),
            Err(ReadFailed) => return Err(FaultKind::Read),
        }
    }
    Ok(LineEnd::TooLong)
}
