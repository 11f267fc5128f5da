// What is wrong with a step, if anything.
ghost use Rattle.std.specs.Prelude.{◌≡◌, ◌↔◌, IsTrue, IfOk};
ghost use Rattle.std.specs.List.{All};
ghost use Rattle.fzn_domain.specs.Narrow.{IsClauseOver, is_some_empty};
ghost use Rattle.fzn_meaning.specs.declared.model.Model.{Model};
ghost use Rattle.fzn_meaning.specs.Solutions.{declared_sets};
ghost use Rattle.fzn_meaning.specs.WellFormed.{IsWellFormed};
ghost use Rattle.fzn_sets.specs.Sets.{start};
ghost use Rattle.fzn_cert.specs.declared.step.Step.TheVariants.{Infer, Resolve, Solution, Delete};
ghost use Rattle.fzn_cert.specs.Past.{StepsPast};
ghost use Rattle.fzn_cert.specs.Accepted.{IsJudged};
ghost use Rattle.fzn_cert.specs.Sound.{IsSound};
ghost use Rattle.fzn_checker.specs.Given.{AreGiven};
ghost use Rattle.fzn_sets.specs.Link.{IsBound};
ghost use Rattle.fzn_checker.specs.Judged.{IsJudgedOn, HasLitsInRange};

use crate::chain::{are_held, follow};
use crate::given::Given;
use crate::history::History;
use crate::solution::passes_cuts;
use fzn_cert::{Inference, Refusal, Step};
use fzn_domain::{Lit, Memory};
use fzn_meaning::{Model, is_solution};
use fzn_rules::refutes;
use fzn_sets::{Sets, deny};
use std::alloc::Global;

/// What is wrong with a step after those before it, and none where it is accepted. The present sets are the declared ones before and after;
/// `has_empty` tells whether one of them is empty.
pub fn fault_of(
    alloc: Global,
    model: &Model,
    history: &History,
    given: &Given,
    sets: &mut Sets,
    has_empty: bool,
    step: &Step,
) -> Result<Option<Refusal>, Memory>
    requires ready { IsJudgedOn model.now history.now sets.old has_empty }
    requires given { AreGiven model.now history.now.solutions given.now }
    requires bounds { HasLitsInRange step.now }
    ensures judged { IfOk result (IsJudged model.now history.now step.now) }
    ensures same { sets.new ≡ sets.old }
{
    let judged = judge_on(alloc, model, history, given, sets, has_empty, step);
    sets.restore();
    judged
}

// Leaves the sets narrowed.
fn judge_on(
    alloc: Global,
    model: &Model,
    history: &History,
    given: &Given,
    sets: &mut Sets,
    has_empty: bool,
    step: &Step,
) -> Result<Option<Refusal>, Memory>
    requires ready { IsJudgedOn model.now history.now sets.old has_empty }
    requires given { AreGiven model.now history.now.solutions given.now }
    requires bounds { HasLitsInRange step.now }
    ensures judged { IfOk result (IsJudged model.now history.now step.now) }
    ensures declared { sets.new.declared ≡ sets.old.declared }
{
    match step {
        Step::Infer(inference) => judge_infer(model, sets, has_empty, inference),
        Step::Resolve { clause, ids } => judge_resolve(
            model,
            history,
            sets,
            has_empty,
            clause.as_slice(),
            ids.as_slice(),
        ),
        Step::Solution(values) => judge_solution(alloc, model, history, given, values.as_slice()),
        Step::Delete { ids } => Ok(judge_delete(history, ids.as_slice())),
    }
}

fn judge_infer(
    model: &Model,
    sets: &mut Sets,
    has_empty: bool,
    inference: &Inference,
) -> Result<Option<Refusal>, Memory>
    requires model { IsWellFormed model.now }
    requires sets { sets.old ≡ start (declared_sets model.now.vars) }
    requires empty { has_empty ≡ is_some_empty (declared_sets model.now.vars) }
    requires bounds { All IsBound inference.now.clause }
    ensures judged { IfOk result (λ fault. (past : StepsPast) → IsJudged model.now past (Infer inference.now) fault) }
    ensures declared { sets.new.declared ≡ sets.old.declared }
{
    let constraint = inference.constraint;
    let clause = inference.clause.as_slice();
    if !has_variables(model.vars.len(), clause) {
        return Ok(Some(Refusal::NoSuchVariable));
    }
    if constraint == 0 || constraint > model.constraints.len() as u64 {
        return Ok(Some(Refusal::NoSuchConstraint));
    }
    let emptied = deny(sets, clause)?;
    if has_empty || emptied {
        return Ok(None);
    }
    if refutes(
        &model.constraints.as_slice()[(constraint - 1) as usize],
        sets,
        &inference.rule,
    ) {
        Ok(None)
    } else {
        Ok(Some(Refusal::RuleFails))
    }
}

fn judge_resolve(
    model: &Model,
    history: &History,
    sets: &mut Sets,
    has_empty: bool,
    clause: &[Lit],
    ids: &[u64],
) -> Result<Option<Refusal>, Memory>
    requires history { IsSound model.now history.now }
    requires sets { sets.old ≡ start (declared_sets model.now.vars) }
    requires empty { has_empty ≡ is_some_empty (declared_sets model.now.vars) }
    requires bounds { All IsBound clause.now }
    ensures judged { IfOk result (IsJudged model.now history.now (Resolve clause.now ids.now)) }
    ensures declared { sets.new.declared ≡ sets.old.declared }
{
    if !has_variables(model.vars.len(), clause) {
        return Ok(Some(Refusal::NoSuchVariable));
    }
    if !are_held(history, ids) {
        return Ok(Some(Refusal::NoSuchClause));
    }
    let emptied = deny(sets, clause)?;
    if has_empty || emptied {
        return Ok(None);
    }
    follow(history, sets, ids)
}

fn judge_solution(
    alloc: Global,
    model: &Model,
    history: &History,
    given: &Given,
    values: &[i64],
) -> Result<Option<Refusal>, Memory>
    requires model { IsWellFormed model.now }
    requires history { IsSound model.now history.now }
    requires given { AreGiven model.now history.now.solutions given.now }
    ensures { IfOk result (IsJudged model.now history.now (Solution values.now)) }
{
    if !is_solution(model, values) {
        return Ok(Some(Refusal::NotASolution));
    }
    if !passes_cuts(alloc, model, history.solutions(), given, values)? {
        return Ok(Some(Refusal::CutByEarlier));
    }
    Ok(None)
}

fn judge_delete(history: &History, ids: &[u64]) -> Option<Refusal>
    ensures { (model : Model) → IsJudged model history.now (Delete ids.now) result }
{
    if are_held(history, ids) {
        None
    } else {
        Some(Refusal::NoSuchClause)
    }
}

fn has_variables(count: usize, clause: &[Lit]) -> bool
    ensures { IsTrue result ↔ IsClauseOver count clause.now }
{
    clause
        .iter()
        .all(|lit| 1 <= lit.var.0 && lit.var.0 <= count)
}
