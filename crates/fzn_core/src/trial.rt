// The test of a plan: the steps of its lines have to be accepted, with the same answer, and may be no more.
ghost use Rattle.std.specs.Prelude.{◌≡◌, ◌∷◌, ◌++◌, [], List, length, None, IfOk, IsTrue};
ghost use Rattle.std.specs.Bool.{OnTrue};
ghost use Rattle.std.specs.List.{All};
ghost use Rattle.fzn_meaning.specs.WellFormed.{IsWellFormed};
ghost use Rattle.fzn_cert.specs.declared.step.Step.{Step};
ghost use Rattle.fzn_cert.specs.declared.step.Version.TheVariants.{Two};
ghost use Rattle.fzn_cert.specs.Spelling.{step_text, IsNumber, HasLineRoom, HasLine};
ghost use Rattle.fzn_cert.specs.Verdict.{AllHaveLines, MayEnd};
ghost use Rattle.fzn_checker.specs.Held.{past_in, MayTake, HasTaken, Stands};
ghost use Rattle.fzn_core.specs.Kept.{kept_steps, IsTrimOf};
ghost use Rattle.fzn_core.specs.Planned.{planned, planned_step, CitesNumbers};

use crate::kept::Kept;
use crate::plan::{Line, Plan, planned_lines};
use fzn_cert::{LAST_STEP, LINE_LIMIT, Step, push_step};
use fzn_cert_line::is_deletion;
use fzn_cert_reader::Script;
use fzn_checker::{Held, Taken};
use fzn_domain::Memory;
use fzn_list::Items;
use fzn_meaning::Model;
use std::alloc::Global;

/// The steps of a trimmed certificate behind the head that is held: those of a plan where they stand the test, and else those that are held;
/// and the derivations that are held. It answers `Err` where memory runs out.
pub fn trimmed_steps(alloc: Global, model: &Model, held: Held) -> Result<Kept, Memory>
    requires model { IsWellFormed model.now }
    requires stands { Stands model.now held }
    requires lines { AllHaveLines Two 0 held.steps }
    ensures steps { IfOk result (λ kept. IsTrimOf model.now held (kept_steps kept)) }
    ensures derivations { IfOk result (λ kept. kept.derivations.items ≡ held.derivations.items) }
{
    let plan = planned_lines(alloc, model, &held)?;
    tested_steps(alloc, model, held, plan)
}

/// The steps of this plan where they stand the test, and else those that are held; and the derivations that are held. It answers `Err` where
/// memory runs out.
pub fn tested_steps(alloc: Global, model: &Model, held: Held, plan: Plan) -> Result<Kept, Memory>
    requires model { IsWellFormed model.now }
    requires stands { Stands model.now held }
    requires lines { AllHaveLines Two 0 held.steps }
    ensures steps { IfOk result (λ kept. IsTrimOf model.now held (kept_steps kept)) }
    ensures derivations { IfOk result (λ kept. kept.derivations.items ≡ held.derivations.items) }
    ensures front { IfOk result (λ kept. kept.front ≡ None) }
{
    if is_trim(alloc, model, &held, &plan)? {
        Ok(Kept {
            derivations: held.derivations,
            held: held.steps,
            front: None,
            plan: Some(plan),
        })
    } else {
        Ok(Kept {
            derivations: held.derivations,
            held: held.steps,
            front: None,
            plan: None,
        })
    }
}

/// Whether the steps of the plan are accepted for the model with the same answer, and are no more. It answers `Err` where memory runs out.
pub fn is_trim(alloc: Global, model: &Model, held: &Held, plan: &Plan) -> Result<bool, Memory>
    requires { IsWellFormed model.now }
    ensures { IfOk result (λ is_trim. OnTrue is_trim (IsTrimOf model.now held.now (planned plan.now held.now.steps))) }
{
    if plan.len() > held.steps.len() {
        return Ok(false);
    }
    let mut taken = Taken::new(alloc, model)?;
    for before in 0..plan.lines.len() {
        let line = plan.lines[before];
        if !takes(alloc, model, &held.steps, plan, line, before, &mut taken)? {
            return Ok(false);
        }
    }
    Ok(has_answer(&taken, held))
}

/// Takes the step of a line behind so many others, and says whether it is accepted and may be written.
fn takes(
    alloc: Global,
    model: &Model,
    held: &Script,
    plan: &Plan,
    line: Line,
    before: usize,
    taken: &mut Taken,
) -> Result<bool, Memory>
    requires { MayTake model.now taken.old }
    ensures ready { IfOk result (λ goes_on. OnTrue goes_on (MayTake model.now taken.new)) }
    ensures taken { IfOk result (λ goes_on. OnTrue goes_on ((steps : List Step) → HasTaken model.now steps taken.old
        → HasTaken model.now (steps ++ planned_step plan.now held.now line ∷ []) taken.new)) }
    ensures line { IfOk result (λ goes_on. OnTrue goes_on (HasLine Two before (planned_step plan.now held.now line))) }
{
    let step = plan.step(alloc, held, line)?;
    let len = line_len(alloc, held, plan, line, &step)?;
    if !may_stand(&step) || !has_room(len, before) {
        return Ok(false);
    }
    match taken.take(alloc, model, step)? {
        None => Ok(true),
        Some(_) => Ok(false),
    }
}

/// Whether the constraint and the clauses that a step cites have numbers, and those of a deletion are some and rise.
fn may_stand(step: &Step) -> bool
    ensures { IsTrue result → CitesNumbers step.now }
{
    match step {
        Step::Infer(inference) => is_number(inference.constraint),
        Step::Resolve { ids, .. } => are_numbers(ids.as_slice()),
        Step::Delete { ids } => are_numbers(ids.as_slice()) && is_deletion(ids.as_slice()),
        _ => true,
    }
}

fn are_numbers(ids: &[u64]) -> bool
    ensures { IsTrue result → All IsNumber ids.now }
{
    ids.iter().all(|id| is_number(*id))
}

/// From 1 on, of at most 18 digits.
fn is_number(number: u64) -> bool
    ensures { IsTrue result → IsNumber number }
{
    1 <= number && number <= LAST_STEP
}

/// How many bytes the line of the step has, without its line feed. It answers `Err` where memory runs out.
fn line_len(
    alloc: Global,
    held: &Script,
    plan: &Plan,
    line: Line,
    step: &Step,
) -> Result<usize, Memory>
    requires { step.now ≡ planned_step plan.now held.now line }
    ensures { IfOk result (λ len. len ≡ length (step_text step.now)) }
{
    match plan.unchanged(held, line) {
        Some(text) => Ok(text.len()),
        None => spelled_len(alloc, step),
    }
}

fn spelled_len(alloc: Global, step: &Step) -> Result<usize, Memory>
    ensures { IfOk result (λ len. len ≡ length (step_text step.now)) }
{
    let mut text = String::new(alloc);
    push_step(&mut text, step)?;
    Ok(text.len())
}

/// Whether a line of this length may stand behind so many others: it keeps the limit, and there are no more than `LAST_STEP` steps.
fn has_room(len: usize, before: usize) -> bool
    ensures { (step : Step) → len ≡ length (step_text step) → IsTrue result → HasLineRoom before step }
{
    len <= LINE_LIMIT && (before as u64) < LAST_STEP
}

/// Whether the steps have the solutions of those that are held, and may end as they do.
fn has_answer(taken: &Taken, held: &Held) -> bool
    ensures solutions { IsTrue result → (past_in taken.now).solutions ≡ held.now.solutions.items }
    ensures may_end { IsTrue result → MayEnd (past_in taken.now) held.now.closed }
{
    (taken.is_refuted() || !held.closed) && are_same(taken.solutions(), &held.solutions)
}

fn are_same(found: &[Items<i64>], wanted: &[Items<i64>]) -> bool
    ensures { IsTrue result → found.now ≡ wanted.now }
{
    if found.len() != wanted.len() {
        return false;
    }
    for i in 0..found.len() {
        if found[i].as_slice() != wanted[i].as_slice() {
            return false;
        }
    }
    true
}
