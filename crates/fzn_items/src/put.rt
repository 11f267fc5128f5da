// A whole text to a writer.
ghost use Rattle.std.specs.Prelude.{◌≡◌};
ghost use Rattle.fzn_streams.specs.Output.{Puts, IsStreamDue};

use fzn_streams::{TrackedWrite, WriteFailed, put};

/// Writes the text, and flushes the writer. It answers `Err` only where a write or the flush failed, and then a beginning of the text stands.
pub fn put_all<W: TrackedWrite>(out: &mut W, text: &[u8]) -> Result<(), WriteFailed>
    ensures text { Puts (W.contents out.old) (W.contents out.new) result text.now }
    ensures due { IsStreamDue W.stream W.has_failed out.old out.new result }
{
    put(out, text)?;
    out.flush_all()
}
