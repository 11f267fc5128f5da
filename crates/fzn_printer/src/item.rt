// The line of a marked declaration.
ghost use Rattle.std.specs.Prelude.{◌≡◌, ◌∷◌, [], ◌++◌, codes, length};
ghost use Rattle.std.specs.List.{All, flat_map};
ghost use Rattle.std.specs.Fmt.{decimal};
ghost use Rattle.fzn_domain.specs.Narrow.{IsVariable, value_of};
ghost use Rattle.fzn_values.specs.Term.{IsTerm};
ghost use Rattle.fzn_meaning.specs.WellFormed.{IsOutputItem};
ghost use Rattle.fzn_streams.specs.Output.{Puts, IsStreamDue};
ghost use Rattle.fzn_meaning.specs.declared.model.OutputItem.TheVariants.{Single, Array};
ghost use Rattle.fzn_printer.specs.Shown.{value_text, range_text, entry_text, entries_text, list_text, item_text, shown};

use crate::value::{put_count, put_range, put_value};
use fzn_domain::VarId;
use fzn_list::Text;
use fzn_meaning::{IndexRange, Kind, Model, OutputItem};
use fzn_streams::{TrackedWrite, WriteFailed, put};
use fzn_values::Term;

/// The lines of the marked declarations, and ten dashes.
pub fn put_solution<W: TrackedWrite>(
    out: &mut W,
    model: &Model,
    values: &[i64],
) -> Result<(), WriteFailed>
    requires { All (IsOutputItem (length values.now)) model.now.shown }
    ensures text { Puts (W.contents out.old) (W.contents out.new) result (shown model.now values.now) }
    ensures due { IsStreamDue W.stream W.has_failed out.old out.new result }
{
    put_items(out, model.shown.as_slice(), values)?;
    put(out, b"----------\n")
}

/// The lines of these declarations.
#[tactic(auto, using(fzn_streams::proofs::CallerLemmas::puts))]
fn put_items<W: TrackedWrite>(
    out: &mut W,
    items: &[OutputItem],
    values: &[i64],
) -> Result<(), WriteFailed>
    requires { All (IsOutputItem (length values.now)) items.now }
    ensures text { Puts (W.contents out.old) (W.contents out.new) result (flat_map (item_text values.now) items.now) }
    ensures due { IsStreamDue W.stream W.has_failed out.old out.new result }
{
    for item in items {
        put_item(out, item, values)?;
    }
    Ok(())
}

#[tactic(auto, using(fzn_streams::proofs::CallerLemmas::puts))]
fn put_item<W: TrackedWrite>(
    out: &mut W,
    item: &OutputItem,
    values: &[i64],
) -> Result<(), WriteFailed>
    requires { IsOutputItem (length values.now) item.now }
    ensures text { Puts (W.contents out.old) (W.contents out.new) result (item_text values.now item.now) }
    ensures due { IsStreamDue W.stream W.has_failed out.old out.new result }
{
    match item {
        OutputItem::Single { name, kind, var } => put_single(out, name, *kind, &values[var.0 - 1]),
        OutputItem::Array {
            name,
            kind,
            ranges,
            entries,
        } => {
            put_head(out, name, ranges.as_slice())?;
            put_list(out, *kind, entries.as_slice(), values)?;
            put(out, b");\n")
        }
    }
}

#[tactic(auto, using(fzn_streams::proofs::CallerLemmas::puts))]
pub fn put_single<W: TrackedWrite>(
    out: &mut W,
    name: &Text,
    kind: Kind,
    value: &i64,
) -> Result<(), WriteFailed>
    ensures text { Puts (W.contents out.old) (W.contents out.new) result (name.now ++ codes " = " ++ value_text kind value.now ++ (codes ";" ++ 10 ∷ [])) }
    ensures due { IsStreamDue W.stream W.has_failed out.old out.new result }
{
    put(out, name.as_slice())?;
    put(out, b" = ")?;
    put_value(out, kind, value)?;
    put(out, b";\n")
}

/// The name of an array and its index ranges, each with a comma and a space.
#[tactic(auto, using(fzn_streams::proofs::CallerLemmas::puts))]
pub fn put_head<W: TrackedWrite>(
    out: &mut W,
    name: &Text,
    ranges: &[IndexRange],
) -> Result<(), WriteFailed>
    ensures text { Puts (W.contents out.old) (W.contents out.new) result (name.now ++ codes " = array" ++ decimal (length ranges.now) ++ codes "d(" ++ flat_map (λ range. range_text range ++ codes ", ") ranges.now) }
    ensures due { IsStreamDue W.stream W.has_failed out.old out.new result }
{
    put(out, name.as_slice())?;
    put(out, b" = array")?;
    put_count(out, ranges.len())?;
    put(out, b"d(")?;
    put_ranges(out, ranges)
}

fn put_ranges<W: TrackedWrite>(out: &mut W, ranges: &[IndexRange]) -> Result<(), WriteFailed>
    ensures text { Puts (W.contents out.old) (W.contents out.new) result (flat_map (λ range. range_text range ++ codes ", ") ranges.now) }
    ensures due { IsStreamDue W.stream W.has_failed out.old out.new result }
{
    for range in ranges {
        put_indices(out, range)?;
    }
    Ok(())
}

#[tactic(auto, using(fzn_streams::proofs::CallerLemmas::puts))]
fn put_indices<W: TrackedWrite>(out: &mut W, range: &IndexRange) -> Result<(), WriteFailed>
    ensures text { Puts (W.contents out.old) (W.contents out.new) result (range_text range.now ++ codes ", ") }
    ensures due { IsStreamDue W.stream W.has_failed out.old out.new result }
{
    put_range(out, range)?;
    put(out, b", ")
}

#[tactic(auto, using(fzn_streams::proofs::CallerLemmas::puts))]
pub fn put_list<W: TrackedWrite>(
    out: &mut W,
    kind: Kind,
    entries: &[Term],
    values: &[i64],
) -> Result<(), WriteFailed>
    requires { All (IsTerm (length values.now)) entries.now }
    ensures text { Puts (W.contents out.old) (W.contents out.new) result (list_text kind values.now entries.now) }
    ensures due { IsStreamDue W.stream W.has_failed out.old out.new result }
{
    put(out, b"[")?;
    put_entries(out, kind, entries, values)?;
    put(out, b"]")
}

fn put_entries<W: TrackedWrite>(
    out: &mut W,
    kind: Kind,
    entries: &[Term],
    values: &[i64],
) -> Result<(), WriteFailed>
    requires { All (IsTerm (length values.now)) entries.now }
    ensures text { Puts (W.contents out.old) (W.contents out.new) result (entries_text kind values.now entries.now) }
    ensures due { IsStreamDue W.stream W.has_failed out.old out.new result }
{
    match entries.split_first() {
        None => Ok(()),
        Some((first, further)) => put_all(out, kind, *first, further, values),
    }
}

/// The first entry, and each further one.
pub fn put_all<W: TrackedWrite>(
    out: &mut W,
    kind: Kind,
    first: Term,
    further: &[Term],
    values: &[i64],
) -> Result<(), WriteFailed>
    requires first { IsTerm (length values.now) first }
    requires further { All (IsTerm (length values.now)) further.now }
    ensures text { Puts (W.contents out.old) (W.contents out.new) result (entries_text kind values.now (first ∷ further.now)) }
    ensures due { IsStreamDue W.stream W.has_failed out.old out.new result }
{
    put_entry(out, kind, &first, values)?;
    put_further(out, kind, further, values)
}

/// Each entry after a comma and a space.
fn put_further<W: TrackedWrite>(
    out: &mut W,
    kind: Kind,
    entries: &[Term],
    values: &[i64],
) -> Result<(), WriteFailed>
    requires { All (IsTerm (length values.now)) entries.now }
    ensures text { Puts (W.contents out.old) (W.contents out.new) result (flat_map (λ entry. codes ", " ++ entry_text kind values.now entry) entries.now) }
    ensures due { IsStreamDue W.stream W.has_failed out.old out.new result }
{
    for entry in entries {
        put_after_comma(out, kind, entry, values)?;
    }
    Ok(())
}

#[tactic(auto, using(fzn_streams::proofs::CallerLemmas::puts))]
fn put_after_comma<W: TrackedWrite>(
    out: &mut W,
    kind: Kind,
    entry: &Term,
    values: &[i64],
) -> Result<(), WriteFailed>
    requires { IsTerm (length values.now) entry.now }
    ensures text { Puts (W.contents out.old) (W.contents out.new) result (codes ", " ++ entry_text kind values.now entry.now) }
    ensures due { IsStreamDue W.stream W.has_failed out.old out.new result }
{
    put(out, b", ")?;
    put_entry(out, kind, entry, values)
}

fn put_entry<W: TrackedWrite>(
    out: &mut W,
    kind: Kind,
    entry: &Term,
    values: &[i64],
) -> Result<(), WriteFailed>
    requires { IsTerm (length values.now) entry.now }
    ensures text { Puts (W.contents out.old) (W.contents out.new) result (entry_text kind values.now entry.now) }
    ensures due { IsStreamDue W.stream W.has_failed out.old out.new result }
{
    put_value(out, kind, &entry.value(values))
}
