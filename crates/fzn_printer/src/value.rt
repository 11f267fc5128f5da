// Numbers, values and names.
ghost use Rattle.std.specs.Prelude.{◌≡◌};
ghost use Rattle.std.specs.Fmt.{decimal, signed_decimal};
ghost use Rattle.fzn_streams.specs.Output.{Puts, IsStreamDue};
ghost use Rattle.fzn_printer.specs.Shown.{value_text, range_text};

use fzn_meaning::{IndexRange, Kind};
use fzn_streams::{TrackedWrite, WriteFailed, put};
use itoa::Buffer;

pub fn put_count<W: TrackedWrite>(out: &mut W, count: usize) -> Result<(), WriteFailed>
    ensures text { Puts (W.contents out.old) (W.contents out.new) result (decimal count) }
    ensures due { IsStreamDue W.stream W.has_failed out.old out.new result }
{
    put(out, Buffer::new().format(count).as_bytes())
}

pub fn put_integer<W: TrackedWrite>(out: &mut W, value: &i64) -> Result<(), WriteFailed>
    ensures text { Puts (W.contents out.old) (W.contents out.new) result (signed_decimal value.now) }
    ensures due { IsStreamDue W.stream W.has_failed out.old out.new result }
{
    put(out, Buffer::new().format(*value).as_bytes())
}

pub fn put_value<W: TrackedWrite>(out: &mut W, kind: Kind, value: &i64) -> Result<(), WriteFailed>
    ensures text { Puts (W.contents out.old) (W.contents out.new) result (value_text kind value.now) }
    ensures due { IsStreamDue W.stream W.has_failed out.old out.new result }
{
    match kind {
        Kind::Integer => put_integer(out, value),
        Kind::Boolean if *value == 0 => put(out, b"false"),
        Kind::Boolean => put(out, b"true"),
    }
}

#[tactic(auto, using(fzn_streams::proofs::CallerLemmas::puts))]
pub fn put_range<W: TrackedWrite>(out: &mut W, range: &IndexRange) -> Result<(), WriteFailed>
    ensures text { Puts (W.contents out.old) (W.contents out.new) result (range_text range.now) }
    ensures due { IsStreamDue W.stream W.has_failed out.old out.new result }
{
    put_integer(out, &range.low)?;
    put(out, b"..")?;
    put_integer(out, &range.high)
}
