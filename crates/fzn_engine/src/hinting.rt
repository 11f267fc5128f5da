// Solutions that somebody else has found.
ghost use Rattle.std.specs.Prelude.{◌≡◌, length, IfOk, IsTrue, true};
ghost use Rattle.fzn_domain.specs.Narrow.{IsClauseOver, is_clause_true};
ghost use Rattle.fzn_meaning.specs.Solutions.{IsSolution};
ghost use Rattle.fzn_meaning.specs.WellFormed.{IsWellFormed};
ghost use Rattle.fzn_clauses.specs.Held.{IsHeld, AllHeld, clause_of};
ghost use Rattle.fzn_clauses.specs.Watching.{held_by};
ghost use Rattle.fzn_reduction.specs.Forgetting.{is_cut};
ghost use Rattle.fzn_engine.specs.Hinted.{TakesHints, AreCutsTrue};
ghost use Rattle.fzn_state.specs.Search.{IsSearchReady, IsLeftBySearch};
ghost use Rattle.fzn_engine.specs.Loop.{IsWithinLimits};

use crate::limits::Limits;
use crate::solutions::{is_reached, write_solution};
use fzn_clauses::Clauses;
use fzn_domain::Lit;
use fzn_meaning::{Model, is_solution};
use fzn_printer::Ending;
use fzn_reduction::Cuts;
use fzn_state::{Fault, Sink, Solver};
use fzn_trail::ClauseId;
use std::alloc::Global;

/// Takes the solutions that the sink proposes, at the start and after each restart, until it has no more for now. Answers how the search
/// ends where there are as many solutions then as the limit.
pub(crate) fn take_hints<S: Sink>(
    solver: &mut Solver,
    alloc: Global,
    model: &Model,
    limits: Limits,
    sink: &mut S,
) -> Result<Option<Ending>, Fault>
    requires ready { IsSearchReady model.now solver.old (S.written sink.old) (S.keeps model.now sink.old) }
    requires within { IsWithinLimits model.now limits solver.old }
    ensures takes { IfOk result (TakesHints model.now limits solver.old solver.new (S.written sink.new)) }
    ensures left { IsLeftBySearch model.now (S.written sink.new) (S.keeps model.now sink.new) (S.origin sink.new ≡ S.origin sink.old) }
{
    let most = solver.notes.parameters.hints_at_once as usize;
    'hints: for _ in 0..most {
        if !solver.notes.hints.is_hint_due() {
            return Ok(None);
        }
        let ending = take_next_hint(solver, alloc, model, limits, sink)?;
        if ending.is_some() {
            return Ok(ending);
        }
    }
    Ok(None)
}

/// Takes the next solution that the sink proposes. What is no solution, or does not pass the cuts of those that were found, is passed
/// over.
fn take_next_hint<S: Sink>(
    solver: &mut Solver,
    alloc: Global,
    model: &Model,
    limits: Limits,
    sink: &mut S,
) -> Result<Option<Ending>, Fault>
    requires ready { IsSearchReady model.now solver.old (S.written sink.old) (S.keeps model.now sink.old) }
    requires within { IsWithinLimits model.now limits solver.old }
    ensures takes { IfOk result (TakesHints model.now limits solver.old solver.new (S.written sink.new)) }
    ensures left { IsLeftBySearch model.now (S.written sink.new) (S.keeps model.now sink.new) (S.origin sink.new ≡ S.origin sink.old) }
{
    let Some(values) = sink.hint(alloc)? else {
        solver.notes.hints.heed_no_more();
        return Ok(None);
    };
    if !is_new(solver, model, values.as_slice()) {
        solver.notes.hints.pass_over();
        return Ok(None);
    }
    write_solution(solver, alloc, model, sink, values)?;
    solver.notes.hints.take_hint();
    if is_reached(model.goal, limits.solutions, solver.found) {
        return Ok(Some(Ending::SolutionLimit));
    }
    Ok(None)
}

/// Whether the values are a solution that makes each cut true that is held.
fn is_new(solver: &Solver, model: &Model, values: &[i64]) -> bool
    requires model { IsWellFormed model.now }
    requires over { AllHeld (IsClauseOver (length model.now.vars)) (held_by solver.now.clauses) }
    ensures solution { IsTrue result → IsSolution model.now values.now }
    ensures cuts { IsTrue result → AreCutsTrue (held_by solver.now.clauses) solver.now.cuts values.now }
{
    is_solution(model, values) && are_cuts_true(&solver.clauses, &solver.cuts, values)
}

/// Whether the values make each cut true that is held.
fn are_cuts_true(clauses: &Clauses, cuts: &Cuts, values: &[i64]) -> bool
    requires { AllHeld (IsClauseOver (length values.now)) (held_by clauses.now) }
    ensures { IsTrue result → AreCutsTrue (held_by clauses.now) cuts.now values.now }
{
    for number in 0..clauses.len() {
        if !is_cut_true(clauses, cuts, ClauseId(number as u64), values) {
            return false;
        }
    }
    true
}

/// Whether the values make the clause of this number true, if it is a cut and held.
fn is_cut_true(clauses: &Clauses, cuts: &Cuts, id: ClauseId, values: &[i64]) -> bool
    requires { AllHeld (IsClauseOver (length values.now)) (held_by clauses.now) }
    ensures { IsTrue result → is_cut cuts.now id ≡ true → IsHeld (held_by clauses.now) id → is_clause_true values.now (clause_of (held_by clauses.now) id) ≡ true }
{
    if !cuts.has(id) || !clauses.is_held(id) {
        return true;
    }
    is_true(clauses.clause(id), values)
}

/// Whether the values make the clause true.
fn is_true(clause: &[Lit], values: &[i64]) -> bool
    requires { IsClauseOver (length values.now) clause.now }
    ensures { result ≡ is_clause_true values.now clause.now }
{
    for lit in clause {
        if lit.is_true_at(values[lit.var.0 - 1]) {
            return true;
        }
    }
    false
}
