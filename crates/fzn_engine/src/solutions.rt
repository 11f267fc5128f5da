// Solutions are written, and their cuts held.
ghost use Rattle.std.specs.Prelude.{◌≡◌, ◌+◌, ◌<◌, IfOk, MatchBool, Some};
ghost use Rattle.fzn_meaning.specs.declared.model.Model.{Model};
ghost use Rattle.fzn_meaning.specs.Solutions.{IsSolution, PassesCuts};
ghost use Rattle.fzn_cert.specs.declared.step.Step.{Step};
ghost use Rattle.fzn_cert.specs.Accepted.{past_after};
ghost use Rattle.fzn_engine.specs.Outcome.{IsReached};
ghost use Rattle.fzn_engine.specs.Loop.{HasWritten, IsRecorded, IsComplete};
ghost use Rattle.fzn_state.specs.Search.{IsSearchReady, IsLeftBySearch};

use fzn_cert::Step;
use fzn_list::Items;
use fzn_meaning::{Goal, Model};
use fzn_search::{cut, values_of};
use fzn_state::{Fault, Sink, Solver};
use fzn_trail::ClauseId;
use std::alloc::Global;

/// Writes a solution that passes the cuts of those before it, and holds its cut, whose number it answers.
pub(crate) fn write_solution<S: Sink>(
    solver: &mut Solver,
    alloc: Global,
    model: &Model,
    sink: &mut S,
    values: Items<i64>,
) -> Result<ClauseId, Fault>
    requires ready { IsSearchReady model.now solver.old (S.written sink.old) (S.keeps model.now sink.old) }
    requires solution { IsSolution model.now values }
    requires passes { PassesCuts model.now (past_after model.now (S.written sink.old)).solutions values }
    ensures written { IfOk result (HasWritten model.now values solver.old solver.new (S.written sink.new)) }
    ensures left { IsLeftBySearch model.now (S.written sink.new) (S.keeps model.now sink.new) (S.origin sink.new ≡ S.origin sink.old) }
{
    let clause = cut(alloc, model, values.as_slice())?;
    let id = solver.hold(clause.as_slice(), [].as_slice(), None)?;
    solver.cuts.add(id)?;
    let step = Step::Solution(values);
    sink.step(alloc, model, &step)?;
    solver.found += 1;
    Ok(id)
}

/// Records the solution that the fixed variables give, and answers the number of its cut, which is false.
pub(crate) fn record_solution<S: Sink>(
    solver: &mut Solver,
    alloc: Global,
    model: &Model,
    sink: &mut S,
) -> Result<ClauseId, Fault>
    requires ready { IsSearchReady model.now solver.old (S.written sink.old) (S.keeps model.now sink.old) }
    requires complete { IsComplete model.now solver.old }
    ensures recorded { IfOk result (IsRecorded model.now solver.old solver.new (S.written sink.new)) }
    ensures left { IsLeftBySearch model.now (S.written sink.new) (S.keeps model.now sink.new) (S.origin sink.new ≡ S.origin sink.old) }
{
    let values = values_of(alloc, &solver.trail, model.vars.len())?;
    write_solution(solver, alloc, model, sink, values)
}

/// Whether these are as many solutions as the limit.
pub(crate) fn is_reached(goal: Goal, limit: Option<u64>, count: u64) -> bool
    ensures { MatchBool result (IsReached goal limit count) (IsReached goal limit count → ⊥) }
{
    match goal {
        Goal::Satisfy => match limit {
            Some(most) => count == most,
            None => false,
        },
        Goal::Minimize(_) => false,
        Goal::Maximize(_) => false,
    }
}
