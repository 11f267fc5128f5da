// A whole answer.
ghost use Rattle.std.specs.Prelude.{◌≡◌, length};
ghost use Rattle.std.specs.List.{All, flat_map};
ghost use Rattle.fzn_streams.specs.Output.{Puts, IsStreamDue};
ghost use Rattle.fzn_meaning.specs.Solutions.{IsAssignment};
ghost use Rattle.fzn_printer.specs.Showable.{CanBeShown};
ghost use Rattle.fzn_printer.specs.Shown.{shown};
ghost use Rattle.fzn_printer.specs.Answer.{answer_text, first_shown};

use crate::item::put_solution;
use crate::printer::ending_line;
use fzn_list::Items;
use fzn_meaning::{Goal, Model};
use fzn_streams::{TrackedWrite, WriteFailed, put};

/// Prints the solutions that are to be seen (MiniZinc Handbook, FlatZinc output), each a value for each variable, and how the answer ends,
/// and flushes the writer. In an optimisation the last solution alone is printed, but for a wish to see all. It answers `Err` only where a
/// write or the flush failed, and then a beginning of the answer stands.
#[tactic(auto, using(fzn_streams::proofs::CallerLemmas::puts))]
pub fn put_answer<W: TrackedWrite>(
    out: &mut W,
    model: &Model,
    found: &[Items<i64>],
    closed: bool,
    show_all: bool,
) -> Result<(), WriteFailed>
    requires model { CanBeShown model.now }
    requires found { All (IsAssignment model.now) found.now }
    ensures text { Puts (W.contents out.old) (W.contents out.new) result (answer_text model.now found.now closed show_all) }
    ensures due { IsStreamDue W.stream W.has_failed out.old out.new result }
{
    let first = first_shown(model.goal, show_all, found.len());
    put_solutions(out, model, &found[first..])?;
    put_last(out, ending_line(closed, !found.is_empty()))
}

/// Writes the bytes, and flushes the writer.
fn put_last<W: TrackedWrite>(out: &mut W, bytes: &[u8]) -> Result<(), WriteFailed>
    ensures text { Puts (W.contents out.old) (W.contents out.new) result bytes.now }
    ensures due { IsStreamDue W.stream W.has_failed out.old out.new result }
{
    put(out, bytes)?;
    out.flush_all()
}

fn put_solutions<W: TrackedWrite>(
    out: &mut W,
    model: &Model,
    found: &[Items<i64>],
) -> Result<(), WriteFailed>
    requires model { CanBeShown model.now }
    requires found { All (IsAssignment model.now) found.now }
    ensures text { Puts (W.contents out.old) (W.contents out.new) result (flat_map (shown model.now) found.now) }
    ensures due { IsStreamDue W.stream W.has_failed out.old out.new result }
{
    for values in found {
        put_assignment(out, model, values)?;
    }
    Ok(())
}

fn put_assignment<W: TrackedWrite>(
    out: &mut W,
    model: &Model,
    values: &Items<i64>,
) -> Result<(), WriteFailed>
    requires model { CanBeShown model.now }
    requires assignment { IsAssignment model.now values.now }
    ensures text { Puts (W.contents out.old) (W.contents out.new) result (shown model.now values.now) }
    ensures due { IsStreamDue W.stream W.has_failed out.old out.new result }
{
    put_solution(out, model, values.as_slice())
}

fn first_shown(goal: Goal, show_all: bool, count: usize) -> usize
    ensures { result ≡ first_shown goal show_all count }
{
    match goal {
        Goal::Minimize(_) | Goal::Maximize(_) if !show_all => count.saturating_sub(1),
        _ => 0,
    }
}
