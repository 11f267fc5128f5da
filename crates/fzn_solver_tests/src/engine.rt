// A variable with two values, searched by hand.
ghost use Rattle.std.specs.Prelude.{◌≡◌, IfOk, IsTrue};
ghost use Rattle.fzn_cert.specs.declared.step.Step.{Step};
ghost use Rattle.fzn_meaning.specs.WellFormed.{IsWellFormed};
ghost use Rattle.fzn_engine.specs.Outcome.{HasRoomForMore};

use crate::models::model_of;
use fzn_cert::Step;
use fzn_domain::Memory;
use fzn_engine::{Limits, Report, solve};
use fzn_list::Items;
use fzn_meaning::{Goal, Model};
use fzn_printer::Ending;
use fzn_propagators::Propagators;
use fzn_search::Choice;
use fzn_state::{Fault, Sink};
use fzn_strategy::{Learn, Parameters};
use std::alloc::Global;
use std::test::*;

/// Steps without inferences, kept, and how many decisions it was told of.
#[derive(Drop)]
struct Log {
    steps: Items<Step>,
    nodes: u64,
}

impl Sink for Log {
    ghost written = { λ log. log.steps };

    ghost Origin = { Unit {0} };

    ghost origin = { λ _. tt };

    ghost told = { λ log. log.nodes };

    ghost keeps = { λ _ _. Unit {0} };

    fn step(&mut self, alloc: Global, _model: &Model, step: &Step) -> Result<(), Fault> {
        if self.steps.len() >= 1000 {
            return Err(Fault::StepTooLong);
        }
        self.steps.push(copied(alloc, step)?)?;
        Ok(())
    }

    fn tell(&mut self, nodes: u64, _conflicts: u64, _inferences: u64) {
        self.nodes = nodes;
    }

    fn hint(&mut self, _alloc: Global) -> Result<Option<Items<i64>>, Memory> {
        Ok(None)
    }
}

fn copied(alloc: Global, step: &Step) -> Result<Step, Fault>
    ensures { IfOk result (λ copy. copy ≡ step.now) }
{
    match step {
        Step::Resolve { clause, ids } => Ok(Step::Resolve {
            clause: Items::from_slice(alloc, clause.as_slice())?,
            ids: Items::from_slice(alloc, ids.as_slice())?,
        }),
        Step::Solution(values) => Ok(Step::Solution(Items::from_slice(alloc, values.as_slice())?)),
        _ => Err(Fault::WriteCert),
    }
}

/// Whether more solutions than none may be found.
fn has_room(goal: Goal, solutions: Option<u64>) -> bool
    ensures { IsTrue result → HasRoomForMore goal solutions 0 }
{
    match (goal, solutions) {
        (Goal::Satisfy, Some(most)) => most > 0,
        _ => true,
    }
}

fn report_of(
    alloc: Global,
    model: &Model,
    limits: Limits,
    learn: Learn,
    restart_after: Option<u64>,
) -> Result<Report, Fault>
    requires model { IsWellFormed model.now }
    requires room { HasRoomForMore model.now.goal limits.solutions 0 }
{
    let mut propagators: Propagators = Propagators::new(alloc, model)?;
    let mut log = Log {
        steps: Items::new(alloc),
        nodes: 0,
    };
    let choice = Choice {
        free: false,
        seed: None,
        restart_after,
        keep: 0,
        parameters: Parameters::default(),
    };
    solve(
        alloc,
        model,
        limits,
        learn,
        choice,
        &[],
        &mut propagators,
        &mut log,
    )
}

/// Whether the search ends so within these limits.
fn ends_so(
    alloc: Global,
    model: &Model,
    limits: Limits,
    learn: Learn,
    restart_after: Option<u64>,
    wanted: (u64, u64, Ending),
) -> bool
    requires { IsWellFormed model.now }
{
    if !has_room(model.goal, limits.solutions) {
        return false;
    }
    let (solutions, nodes, ending) = wanted;
    let wanted = Report {
        solutions,
        nodes,
        ending,
        hints_taken: 0,
        hints_passed_over: 0,
    };
    report_of(alloc, model, limits, learn, restart_after) == Ok(wanted)
}

/// Whether both solutions are found, however it is learned and with restarts.
fn are_two_found(alloc: Global, model: &Model) -> bool
    requires { IsWellFormed model.now }
{
    let limits = Limits {
        nodes: 9,
        solutions: None,
    };
    let wanted = (2, 1, Ending::Complete);
    ends_so(alloc, model, limits, Learn::Plain, None, wanted)
        && ends_so(alloc, model, limits, Learn::Plain, Some(1), wanted)
        && ends_so(alloc, model, limits, Learn::First, None, wanted)
        && ends_so(alloc, model, limits, Learn::First, Some(1), wanted)
}

/// Whether one solution is the limit, and no node is.
fn are_limits_kept(alloc: Global, model: &Model) -> bool
    requires { IsWellFormed model.now }
{
    let one = Limits {
        nodes: 9,
        solutions: Some(1),
    };
    let none = Limits {
        nodes: 0,
        solutions: None,
    };
    ends_so(
        alloc,
        model,
        one,
        Learn::First,
        None,
        (1, 1, Ending::SolutionLimit),
    ) && ends_so(
        alloc,
        model,
        none,
        Learn::First,
        None,
        (0, 0, Ending::NodeLimit),
    )
}

#[test]
fn two_solutions(rt: HostRuntime) -> Result<(), Fail> {
    let model = model_of(rt.alloc(), "var 0..1: x :: output_var; solve satisfy;")?;
    assert!(rt; are_two_found(rt.alloc(), &model) && are_limits_kept(rt.alloc(), &model));
    Ok(())
}
