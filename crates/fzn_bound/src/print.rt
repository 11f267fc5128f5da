// What is known of the objective, as text.
ghost use Rattle.std.specs.Prelude.{◌≡◌, ◌∷◌, [], ◌++◌, codes};
ghost use Rattle.std.specs.Fmt.{signed_decimal};
ghost use Rattle.std.specs.List.{All};
ghost use Rattle.fzn_meaning.specs.Solutions.{IsAssignment};
ghost use Rattle.fzn_meaning.specs.WellFormed.{IsWellFormed};
ghost use Rattle.fzn_printer.specs.Answer.{answer_text};
ghost use Rattle.fzn_streams.specs.Output.{Puts, IsStreamDue};
ghost use Rattle.fzn_bound.specs.Line.{best_text, bound_text, bound_line, objective_name, side_of};

use crate::known::Known;
use fzn_list::Items;
use fzn_meaning::{Goal, Model};
use fzn_printer::put_answer;
use fzn_streams::{TrackedWrite, WriteFailed, put};
use itoa::Buffer;

/// Prints the answer and what is known of the objective, and flushes the writer. It answers `Err` only where a write or a flush failed, and
/// then a beginning of the text stands.
#[tactic(auto, using(fzn_streams::proofs::CallerLemmas::puts))]
pub fn put_known_answer<W: TrackedWrite>(
    out: &mut W,
    model: &Model,
    found: &[Items<i64>],
    closed: bool,
    show_all: bool,
    known: &Known,
) -> Result<(), WriteFailed>
    requires model { IsWellFormed model.now }
    requires found { All (IsAssignment model.now) found.now }
    ensures text { Puts (W.contents out.old) (W.contents out.new) result (answer_text model.now found.now closed show_all ++ bound_line model.now known.now) }
    ensures due { IsStreamDue W.stream W.has_failed out.old out.new result }
{
    put_answer(out, model, found, closed, show_all)?;
    put_line(out, model, known)
}

/// The line, and a flush.
fn put_line<W: TrackedWrite>(out: &mut W, model: &Model, known: &Known) -> Result<(), WriteFailed>
    requires { IsWellFormed model.now }
    ensures text { Puts (W.contents out.old) (W.contents out.new) result (bound_line model.now known.now) }
    ensures due { IsStreamDue W.stream W.has_failed out.old out.new result }
{
    put_known(out, model, known)?;
    out.flush_all()
}

fn put_known<W: TrackedWrite>(out: &mut W, model: &Model, known: &Known) -> Result<(), WriteFailed>
    requires { IsWellFormed model.now }
    ensures text { Puts (W.contents out.old) (W.contents out.new) result (bound_line model.now known.now) }
    ensures due { IsStreamDue W.stream W.has_failed out.old out.new result }
{
    match known {
        Known::NoObjective => put(out, b"no objective\n"),
        Known::NoSolution => put(out, b"no solution\n"),
        Known::Unsolved { bound } => put_bound(out, model.goal, bound),
        Known::Open { best, bound } => put_open(out, model, best, bound),
        Known::Closed { best } => put_closed(out, model, best),
    }
}

#[tactic(auto, using(fzn_streams::proofs::CallerLemmas::puts))]
fn put_open<W: TrackedWrite>(
    out: &mut W,
    model: &Model,
    best: &i64,
    bound: &i64,
) -> Result<(), WriteFailed>
    requires { IsWellFormed model.now }
    ensures text { Puts (W.contents out.old) (W.contents out.new) result (best_text (objective_name model.now) best.now ++ bound_text model.now.goal bound.now) }
    ensures due { IsStreamDue W.stream W.has_failed out.old out.new result }
{
    put_best(out, name_of(model), best)?;
    put_bound(out, model.goal, bound)
}

#[tactic(auto, using(fzn_streams::proofs::CallerLemmas::puts))]
fn put_closed<W: TrackedWrite>(out: &mut W, model: &Model, best: &i64) -> Result<(), WriteFailed>
    requires { IsWellFormed model.now }
    ensures text { Puts (W.contents out.old) (W.contents out.new) result (best_text (objective_name model.now) best.now ++ (codes "the best" ++ 10 ∷ [])) }
    ensures due { IsStreamDue W.stream W.has_failed out.old out.new result }
{
    put_best(out, name_of(model), best)?;
    put(out, b"the best\n")
}

/// The name, the value, a comma and a space.
#[tactic(auto, using(fzn_streams::proofs::CallerLemmas::puts))]
fn put_best<W: TrackedWrite>(out: &mut W, name: &[u8], best: &i64) -> Result<(), WriteFailed>
    ensures text { Puts (W.contents out.old) (W.contents out.new) result (best_text name.now best.now) }
    ensures due { IsStreamDue W.stream W.has_failed out.old out.new result }
{
    put(out, name)?;
    put(out, b" = ")?;
    put_integer(out, best)?;
    put(out, b", ")
}

/// The side and the bound, and a line feed.
#[tactic(auto, using(fzn_streams::proofs::CallerLemmas::puts))]
fn put_bound<W: TrackedWrite>(out: &mut W, goal: Goal, bound: &i64) -> Result<(), WriteFailed>
    ensures text { Puts (W.contents out.old) (W.contents out.new) result (bound_text goal bound.now) }
    ensures due { IsStreamDue W.stream W.has_failed out.old out.new result }
{
    put(out, side_of(goal))?;
    put_integer(out, bound)?;
    put(out, b"\n")
}

fn put_integer<W: TrackedWrite>(out: &mut W, value: &i64) -> Result<(), WriteFailed>
    ensures text { Puts (W.contents out.old) (W.contents out.new) result (signed_decimal value.now) }
    ensures due { IsStreamDue W.stream W.has_failed out.old out.new result }
{
    put(out, Buffer::new().format(*value).as_bytes())
}

fn side_of(goal: Goal) -> &'static [u8]
    ensures { result.now ≡ side_of goal }
{
    match goal {
        Goal::Satisfy | Goal::Minimize(_) => b"at least ",
        Goal::Maximize(_) => b"at most ",
    }
}

/// The name of the objective, as the file spells it. A satisfaction has none.
fn name_of(model: &Model) -> &[u8]
    requires { IsWellFormed model.now }
    ensures { result.now ≡ objective_name model.now }
{
    match model.goal {
        Goal::Satisfy => b"",
        Goal::Minimize(var) | Goal::Maximize(var) => {
            model.vars.as_slice()[var.0 - 1].name.as_slice()
        }
    }
}
