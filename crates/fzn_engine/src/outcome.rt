// A whole run.
ghost use Rattle.std.specs.Prelude.{◌≡◌, [], ◌∷◌, true, IfOk, OnOk, IsTrue, IsFalse};
ghost use Rattle.fzn_domain.specs.Narrow.{NoneEmpty, is_some_empty};
ghost use Rattle.fzn_meaning.specs.Solutions.{declared_sets};
ghost use Rattle.fzn_meaning.specs.WellFormed.{IsWellFormed};
ghost use Rattle.fzn_cert.specs.declared.step.Step.TheVariants.{Resolve};
ghost use Rattle.fzn_cert.specs.Accepted.{AllAccepted};
ghost use Rattle.fzn_engine.specs.Outcome.{HasRoomForMore, IsOutcome};
ghost use Rattle.fzn_state.specs.Certified.{count};
ghost use Rattle.fzn_state.specs.Search.{IsLeftBySearch};

use crate::cdcl::search;
use crate::limits::Limits;
use crate::report::Report;
use fzn_cert::Step;
use fzn_list::Items;
use fzn_meaning::{Model, Var};
use fzn_printer::Ending;
use fzn_propagator::Constraints;
use fzn_search::Choice;
use fzn_state::{Fault, Sink, Solver};
use fzn_strategy::{Annotation, Learn};
use std::alloc::Global;

/// Searches for solutions of the model, and hands on each step of the argument. How decisions are made is up to the choice and the
/// annotations; where the choice asks for restarts, they come only where the first unique implication point is learned. It answers `Memory`
/// where memory runs out, and else the fault that the sink answered. The steps that the sink has taken are accepted then too. The sink is
/// told last of as many decisions as the report.
pub fn solve<S: Sink, C: Constraints>(
    alloc: Global,
    model: &Model,
    limits: Limits,
    learn: Learn,
    choice: Choice,
    annotations: &[Annotation],
    constraints: &mut C,
    sink: &mut S,
) -> Result<Report, Fault>
    requires model { IsWellFormed model.now }
    requires is_for { C.is_for constraints.old model.now }
    requires room { HasRoomForMore model.now.goal limits.solutions 0 }
    requires fresh { S.written sink.old ≡ [] }
    requires kept { S.keeps model.now sink.old }
    ensures outcome { IfOk result (λ report. IsOutcome model.now learn limits (S.written sink.new) report.nodes report.ending) }
    ensures solutions { IfOk result (λ report. report.solutions ≡ count model.now (S.written sink.new)) }
    ensures told { IfOk result (λ report. report.nodes ≡ S.told sink.new) }
    ensures accepted { AllAccepted model.now (S.written sink.new) }
    ensures kept { S.keeps model.now sink.new × (S.origin sink.new ≡ S.origin sink.old) }
{
    if has_empty(model.vars.as_slice()) {
        refute(alloc, model, sink)?;
        sink.tell(0, 0, 0);
        return Ok(Report {
            solutions: 0,
            nodes: 0,
            ending: Ending::Unsatisfiable,
            hints_taken: 0,
            hints_passed_over: 0,
        });
    }
    let mut solver = Solver::new(alloc, model, learn, choice, annotations)?;
    let ending = search(&mut solver, alloc, model, limits, constraints, sink)?;
    Ok(Report {
        solutions: solver.found,
        nodes: solver.search.nodes(),
        ending,
        hints_taken: solver.notes.hints.taken(),
        hints_passed_over: solver.notes.hints.passed_over(),
    })
}

/// Writes the empty clause, which needs no reason where a declared set is empty.
fn refute<S: Sink>(alloc: Global, model: &Model, sink: &mut S) -> Result<(), Fault>
    requires model { IsWellFormed model.now }
    requires empty { is_some_empty (declared_sets model.now.vars) ≡ true }
    requires fresh { S.written sink.old ≡ [] }
    requires kept { S.keeps model.now sink.old }
    ensures written { OnOk result (S.written sink.new ≡ Resolve [] [] ∷ []) }
    ensures left { IsLeftBySearch model.now (S.written sink.new) (S.keeps model.now sink.new) (S.origin sink.new ≡ S.origin sink.old) }
{
    let step = Step::Resolve {
        clause: Items::new(alloc),
        ids: Items::new(alloc),
    };
    sink.step(alloc, model, &step)?;
    Ok(())
}

/// Whether some declared set is empty.
fn has_empty(vars: &[Var]) -> bool
    ensures some { IsTrue result → is_some_empty (declared_sets vars.now) ≡ true }
    ensures none { IsFalse result → NoneEmpty (declared_sets vars.now) }
{
    for i in 0..vars.len() {
        if vars[i].domain.len() == 0 {
            return true;
        }
    }
    false
}
