// The list of a core as text.
ghost use Rattle.std.specs.Prelude.{◌≡◌, ◌-◌, ◌∷◌, [], ◌++◌, codes, length, slice_get, slice_range};
ghost use Rattle.std.specs.List.{flat_map};
ghost use Rattle.std.specs.Fmt.{decimal};
ghost use Rattle.fzn_streams.specs.Output.{Puts, IsStreamDue};
ghost use Rattle.fzn_core.specs.Listing.{core_text, share_text, share_ended, open_mark, item_line, labelled, listed_line, number_line, position_label};

use fzn_lexer::{Position, Span};
use fzn_streams::{TrackedWrite, WriteFailed, put};
use itoa::Buffer;

/// Prints a line for each of these constraints, with the item of the bytes that states it, and how many they are, and flushes the writer. It
/// answers `Err` only where a write or the flush failed, and then a beginning of the text stands.
#[tactic(auto, using(fzn_streams::proofs::CallerLemmas::puts))]
pub fn put_core<W: TrackedWrite>(
    out: &mut W,
    bytes: &[u8],
    sources: &[Span],
    numbers: &[u64],
    closed: bool,
) -> Result<(), WriteFailed>
    ensures text { Puts (W.contents out.old) (W.contents out.new) result (core_text bytes.now sources.now numbers.now closed) }
    ensures due { IsStreamDue W.stream W.has_failed out.old out.new result }
{
    put_lines(out, bytes, sources, numbers)?;
    put_count(out, numbers.len(), sources.len(), closed)
}

fn put_lines<W: TrackedWrite>(
    out: &mut W,
    bytes: &[u8],
    sources: &[Span],
    numbers: &[u64],
) -> Result<(), WriteFailed>
    ensures text { Puts (W.contents out.old) (W.contents out.new) result (flat_map (number_line bytes.now sources.now) numbers.now) }
    ensures due { IsStreamDue W.stream W.has_failed out.old out.new result }
{
    for number in numbers {
        put_number_line(out, bytes, sources, *number)?;
    }
    Ok(())
}

fn put_number_line<W: TrackedWrite>(
    out: &mut W,
    bytes: &[u8],
    sources: &[Span],
    number: u64,
) -> Result<(), WriteFailed>
    ensures text { Puts (W.contents out.old) (W.contents out.new) result (number_line bytes.now sources.now number) }
    ensures due { IsStreamDue W.stream W.has_failed out.old out.new result }
{
    match sources.get(number.saturating_sub(1) as usize) {
        None => Ok(()),
        Some(item) => put_line(out, bytes, number, *item),
    }
}

/// The number, the position and the item, and a line feed.
#[tactic(auto, using(fzn_streams::proofs::CallerLemmas::puts))]
fn put_line<W: TrackedWrite>(
    out: &mut W,
    bytes: &[u8],
    number: u64,
    item: Span,
) -> Result<(), WriteFailed>
    ensures text { Puts (W.contents out.old) (W.contents out.new) result (listed_line bytes.now number item) }
    ensures due { IsStreamDue W.stream W.has_failed out.old out.new result }
{
    put_number(out, number)?;
    put_position(out, item.position)?;
    put_item(out, bytes, item)
}

#[tactic(auto, using(fzn_streams::proofs::CallerLemmas::puts))]
fn put_position<W: TrackedWrite>(out: &mut W, position: Position) -> Result<(), WriteFailed>
    ensures text { Puts (W.contents out.old) (W.contents out.new) result (position_label position) }
    ensures due { IsStreamDue W.stream W.has_failed out.old out.new result }
{
    put_labelled(out, b" line ", position.line as u64)?;
    put_labelled(out, b" column ", position.column as u64)?;
    put(out, b": ")
}

#[tactic(auto, using(fzn_streams::proofs::CallerLemmas::puts))]
fn put_labelled<W: TrackedWrite>(out: &mut W, label: &[u8], number: u64) -> Result<(), WriteFailed>
    ensures text { Puts (W.contents out.old) (W.contents out.new) result (labelled label.now number) }
    ensures due { IsStreamDue W.stream W.has_failed out.old out.new result }
{
    put(out, label)?;
    put_number(out, number)
}

/// The bytes of the item, and a line feed.
fn put_item<W: TrackedWrite>(out: &mut W, bytes: &[u8], item: Span) -> Result<(), WriteFailed>
    ensures text { Puts (W.contents out.old) (W.contents out.new) result (item_line bytes.now item) }
    ensures due { IsStreamDue W.stream W.has_failed out.old out.new result }
{
    put_ended(out, text_of(bytes, item))
}

/// The text, and a line feed.
#[tactic(auto, using(fzn_streams::proofs::CallerLemmas::puts))]
fn put_ended<W: TrackedWrite>(out: &mut W, text: &[u8]) -> Result<(), WriteFailed>
    ensures text { Puts (W.contents out.old) (W.contents out.new) result (text.now ++ 10 ∷ []) }
    ensures due { IsStreamDue W.stream W.has_failed out.old out.new result }
{
    put(out, text)?;
    put(out, b"\n")
}

/// The bytes of the item. Where the file ends before the item does, those up to the end.
fn text_of(bytes: &[u8], item: Span) -> &[u8]
    ensures { result.now ≡ slice_range bytes.now item.start item.end }
{
    let end = bytes.len().min(item.end);
    let start = end.min(item.start);
    &bytes[start..end]
}

/// The last line, and a flush.
fn put_count<W: TrackedWrite>(
    out: &mut W,
    listed: usize,
    constraints: usize,
    closed: bool,
) -> Result<(), WriteFailed>
    ensures text { Puts (W.contents out.old) (W.contents out.new) result (share_text listed constraints closed) }
    ensures due { IsStreamDue W.stream W.has_failed out.old out.new result }
{
    put_counts(out, listed, constraints, ending(closed))
}

/// Both counts and the ending, and a flush.
#[tactic(auto, using(fzn_streams::proofs::CallerLemmas::puts))]
fn put_counts<W: TrackedWrite>(
    out: &mut W,
    listed: usize,
    constraints: usize,
    ending: &[u8],
) -> Result<(), WriteFailed>
    ensures text { Puts (W.contents out.old) (W.contents out.new) result (share_ended listed constraints ending.now) }
    ensures due { IsStreamDue W.stream W.has_failed out.old out.new result }
{
    put_number(out, listed as u64)?;
    put(out, b" of ")?;
    put_number(out, constraints as u64)?;
    put_last(out, ending)
}

/// Writes the bytes, and flushes the writer.
fn put_last<W: TrackedWrite>(out: &mut W, bytes: &[u8]) -> Result<(), WriteFailed>
    ensures text { Puts (W.contents out.old) (W.contents out.new) result bytes.now }
    ensures due { IsStreamDue W.stream W.has_failed out.old out.new result }
{
    put(out, bytes)?;
    out.flush_all()
}

fn ending(closed: bool) -> &'static [u8]
    ensures { result.now ≡ open_mark closed }
{
    if closed { b"\n" } else { b", open\n" }
}

fn put_number<W: TrackedWrite>(out: &mut W, number: u64) -> Result<(), WriteFailed>
    ensures text { Puts (W.contents out.old) (W.contents out.new) result (decimal number) }
    ensures due { IsStreamDue W.stream W.has_failed out.old out.new result }
{
    put(out, Buffer::new().format(number).as_bytes())
}
