// Conflict-driven clause learning, as in the textbooks: the loop of a search.
//
// Each iteration propagates the held clauses. In a conflict it analyses, learns a clause, and jumps back or restarts. Where there is none it
// takes one inference of the constraints, else a solution where all variables are fixed, else it decides. Then the state is reduced, and
// hints are taken.
ghost use Rattle.std.specs.Prelude.{◌≡◌, ◌<◌, IfOk};
ghost use Rattle.fzn_learned.specs.Learned.{IsConflicting};
ghost use Rattle.fzn_propagator.specs.Constraints.{IsInference};
ghost use Rattle.fzn_state.specs.State.{known_in};
ghost use Rattle.fzn_engine.specs.Loop.{Goes, Continues, IsOver, closed_after, ending_of, IsWithinLimits, IsAtFixpoint, IsComplete};
ghost use Rattle.fzn_state.specs.Search.{stock_of, IsSearchReady, IsLeftBySearch};

use crate::hinting::take_hints;
use crate::limits::Limits;
use crate::moves::{backjump, decide, enqueue, is_fixed, is_restart_due, restart};
use crate::solutions::{is_reached, record_solution};
use fzn_cert::Inference;
use fzn_meaning::Model;
use fzn_printer::Ending;
use fzn_propagator::Constraints;
use fzn_state::{Fault, Sink, Solver};
use fzn_trail::Antecedent;
use std::alloc::Global;

/// Searches to the end by conflict-driven clause learning: propagates, learns from each conflict and jumps back or restarts, and decides
/// where nothing more follows.
pub(crate) fn search<S: Sink, C: Constraints>(
    solver: &mut Solver,
    alloc: Global,
    model: &Model,
    limits: Limits,
    constraints: &mut C,
    sink: &mut S,
) -> Result<Ending, Fault>
    requires ready { IsSearchReady model.now solver.old (S.written sink.old) (S.keeps model.now sink.old × C.is_for constraints.old model.now) }
    requires within { IsWithinLimits model.now limits solver.old }
    ensures over { IfOk result (IsOver model.now solver.old.learn limits solver.new (S.written sink.new)) }
    ensures told { IfOk result (λ _. S.told sink.new ≡ solver.new.search.nodes) }
    ensures left { IsLeftBySearch model.now (S.written sink.new) (S.keeps model.now sink.new) (S.origin sink.new ≡ S.origin sink.old) }
{
    'iterations: loop {
        let ending = iterate(solver, alloc, model, limits, constraints, sink)?;
        sink.tell(
            solver.search.nodes(),
            solver.notes.conflicts(),
            solver.inferences.pushed(),
        );
        if let Some(ending) = ending {
            return Ok(ending);
        }
        if solver.notes.settling.take_settled() {
            constraints.renew(model);
        } else {
            // The last entry may stand where one that was shown was dropped; those before it were not changed.
            constraints.rewind(model, solver.trail.len().saturating_sub(1));
        }
    }
}

/// One iteration: a round of learning, after which the state is reduced and hints are taken.
fn iterate<S: Sink, C: Constraints>(
    solver: &mut Solver,
    alloc: Global,
    model: &Model,
    limits: Limits,
    constraints: &mut C,
    sink: &mut S,
) -> Result<Option<Ending>, Fault>
    requires ready { IsSearchReady model.now solver.old (S.written sink.old) (S.keeps model.now sink.old × C.is_for constraints.old model.now) }
    requires within { IsWithinLimits model.now limits solver.old }
    ensures continues { IfOk result (Continues model.now limits solver.old solver.new (S.written sink.new)) }
    ensures left { IsLeftBySearch model.now (S.written sink.new) (S.keeps model.now sink.new × C.is_for constraints.new model.now) (S.origin sink.new ≡ S.origin sink.old) }
{
    match cdcl_round(solver, alloc, model, limits, constraints, sink)? {
        Some(ending) => Ok(Some(ending)),
        None => {
            solver.reduce(alloc, model, sink)?;
            take_hints(solver, alloc, model, limits, sink)
        }
    }
}

/// One round of conflict-driven clause learning: propagates, and then resolves the conflict, or infers or decides where there is none.
fn cdcl_round<S: Sink, C: Constraints>(
    solver: &mut Solver,
    alloc: Global,
    model: &Model,
    limits: Limits,
    constraints: &mut C,
    sink: &mut S,
) -> Result<Option<Ending>, Fault>
    requires ready { IsSearchReady model.now solver.old (S.written sink.old) (S.keeps model.now sink.old × C.is_for constraints.old model.now) }
    requires within { IsWithinLimits model.now limits solver.old }
    ensures continues { IfOk result (Continues model.now limits solver.old solver.new (S.written sink.new)) }
    ensures left { IsLeftBySearch model.now (S.written sink.new) (S.keeps model.now sink.new × C.is_for constraints.new model.now) (S.origin sink.new ≡ S.origin sink.old) }
{
    match solver.clauses.propagate(&mut solver.trail)? {
        Some(conflict) => {
            let goes_on = resolve_conflict(
                solver,
                alloc,
                model,
                sink,
                Antecedent::Clause(conflict),
            )?;
            Ok(ending_of(goes_on, solver.found))
        }
        None => infer_or_decide(solver, alloc, model, limits, constraints, sink),
    }
}

/// Resolves a conflict: analyses it, learns a clause, and jumps back to where that forces a literal, which is put on the trail there, or
/// restarts. Answers whether the search goes on: after an empty clause nothing is left.
fn resolve_conflict<S: Sink>(
    solver: &mut Solver,
    alloc: Global,
    model: &Model,
    sink: &mut S,
    conflict: Antecedent,
) -> Result<bool, Fault>
    requires ready { IsSearchReady model.now solver.old (S.written sink.old) (S.keeps model.now sink.old) }
    requires conflict { IsConflicting (known_in (stock_of solver.old)) solver.old.trail.sets conflict }
    ensures goes { IfOk result (Goes model.now solver.old solver.new (S.written sink.new)) }
    ensures left { IsLeftBySearch model.now (S.written sink.new) (S.keeps model.now sink.new) (S.origin sink.new ≡ S.origin sink.old) }
{
    let learned = solver.learn(alloc, model, sink, conflict)?;
    let Some(lesson) = learned else {
        return Ok(false);
    };
    if is_restart_due(solver) {
        restart(solver);
        return Ok(true);
    }
    backjump(solver, lesson.level);
    enqueue(solver, Antecedent::Clause(lesson.id))?;
    Ok(true)
}

/// Where no held clause is false or forces a literal: an inference of the constraints, a solution where all variables are fixed, or a
/// decision.
fn infer_or_decide<S: Sink, C: Constraints>(
    solver: &mut Solver,
    alloc: Global,
    model: &Model,
    limits: Limits,
    constraints: &mut C,
    sink: &mut S,
) -> Result<Option<Ending>, Fault>
    requires ready { IsSearchReady model.now solver.old (S.written sink.old) (S.keeps model.now sink.old × C.is_for constraints.old model.now) }
    requires within { IsWithinLimits model.now limits solver.old }
    requires propagated { IsAtFixpoint solver.old }
    ensures continues { IfOk result (Continues model.now limits solver.old solver.new (S.written sink.new)) }
    ensures left { IsLeftBySearch model.now (S.written sink.new) (S.keeps model.now sink.new × C.is_for constraints.new model.now) (S.origin sink.new ≡ S.origin sink.old) }
{
    if let Some(inference) = constraints.infer(alloc, model, &solver.trail)? {
        let goes_on = propagate_inference(solver, alloc, model, sink, inference)?;
        return Ok(ending_of(goes_on, solver.found));
    }
    if is_fixed(solver) {
        let ending = cut_off_solution(solver, alloc, model, limits, sink)?;
        return Ok(ending);
    }
    if solver.search.nodes() == limits.nodes {
        return Ok(Some(Ending::NodeLimit));
    }
    decide(solver)?;
    Ok(None)
}

/// Stacks an inference, and puts on the trail what it forces; where it forces nothing, its clause is in conflict.
fn propagate_inference<S: Sink>(
    solver: &mut Solver,
    alloc: Global,
    model: &Model,
    sink: &mut S,
    inference: Inference,
) -> Result<bool, Fault>
    requires ready { IsSearchReady model.now solver.old (S.written sink.old) (S.keeps model.now sink.old) }
    requires inferred { IsInference model.now solver.old.trail inference }
    ensures goes { IfOk result (Goes model.now solver.old solver.new (S.written sink.new)) }
    ensures left { IsLeftBySearch model.now (S.written sink.new) (S.keeps model.now sink.new) (S.origin sink.new ≡ S.origin sink.old) }
{
    let place = solver.inferences.push(inference)?;
    let antecedent = Antecedent::Inference(place);
    if enqueue(solver, antecedent)? {
        return Ok(true);
    }
    resolve_conflict(solver, alloc, model, sink, antecedent)
}

/// Records a solution and, where there is room for another, cuts it off: its cut is in conflict.
fn cut_off_solution<S: Sink>(
    solver: &mut Solver,
    alloc: Global,
    model: &Model,
    limits: Limits,
    sink: &mut S,
) -> Result<Option<Ending>, Fault>
    requires ready { IsSearchReady model.now solver.old (S.written sink.old) (S.keeps model.now sink.old) }
    requires within { IsWithinLimits model.now limits solver.old }
    requires complete { IsComplete model.now solver.old }
    ensures continues { IfOk result (Continues model.now limits solver.old solver.new (S.written sink.new)) }
    ensures left { IsLeftBySearch model.now (S.written sink.new) (S.keeps model.now sink.new) (S.origin sink.new ≡ S.origin sink.old) }
{
    let id = record_solution(solver, alloc, model, sink)?;
    if is_reached(model.goal, limits.solutions, solver.found) {
        return Ok(Some(Ending::SolutionLimit));
    }
    let goes_on = resolve_conflict(solver, alloc, model, sink, Antecedent::Clause(id))?;
    Ok(ending_of(goes_on, solver.found))
}

/// The search has ended where it does not go on, with so many solutions.
fn ending_of(goes_on: bool, found: u64) -> Option<Ending>
    ensures { result ≡ ending_of goes_on found }
{
    if goes_on {
        None
    } else {
        Some(closed_after(found))
    }
}

/// How a search ends that leaves nothing, with so many solutions.
fn closed_after(found: u64) -> Ending
    ensures { result ≡ closed_after found }
{
    if found == 0 {
        Ending::Unsatisfiable
    } else {
        Ending::Complete
    }
}
