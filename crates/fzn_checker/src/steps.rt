// The steps of a certificate, taken one after another.
ghost use Rattle.std.specs.Prelude.{◌≡◌, None, IfOk, OnOk};
ghost use Rattle.fzn_meaning.specs.WellFormed.{IsWellFormed};
ghost use Rattle.fzn_cert.specs.Accepted.{IsAccepted, IsJudged, after_step};
ghost use Rattle.fzn_cert.specs.Sound.{IsSound};
ghost use Rattle.fzn_checker.specs.Given.{AreGiven};
ghost use Rattle.fzn_checker.specs.Judged.{IsJudgedOn, HasLitsInRange};

use crate::given::Given;
use crate::history::History;
use crate::judge::fault_of;
use crate::solution::note;
use fzn_cert::{Inference, Refusal, Step};
use fzn_domain::Memory;
use fzn_list::Items;
use fzn_meaning::{Model, cut};
use fzn_sets::Sets;
use std::alloc::Global;

/// Takes the next step: where it is accepted it goes into the history, and else what is wrong with it is answered.
pub fn take_step(
    alloc: Global,
    model: &Model,
    history: &mut History,
    given: &mut Given,
    sets: &mut Sets,
    has_empty: bool,
    step: Step,
) -> Result<Option<Refusal>, Memory>
    requires ready { IsJudgedOn model.now history.old sets.old has_empty }
    requires given { AreGiven model.now history.old.solutions given.old }
    requires bounds { HasLitsInRange step }
    ensures judged { IfOk result (IsJudged model.now history.old step) }
    ensures after { IfOk result (λ fault. fault ≡ None → history.new ≡ after_step model.now history.old step) }
    ensures sound { IfOk result (λ fault. fault ≡ None → IsSound model.now history.new) }
    ensures given { IfOk result (λ fault. fault ≡ None → AreGiven model.now history.new.solutions given.new) }
    ensures same { sets.new ≡ sets.old }
{
    if let Some(fault) = fault_of(alloc, model, history, given, sets, has_empty, &step)? {
        return Ok(Some(fault));
    }
    accept(alloc, model, history, given, step)?;
    Ok(None)
}

/// Adds an accepted step to the history. It answers `Err` where memory runs out, and nothing is known of the history then.
pub fn accept(
    alloc: Global,
    model: &Model,
    history: &mut History,
    given: &mut Given,
    step: Step,
) -> Result<(), Memory>
    requires model { IsWellFormed model.now }
    requires accepted { IsAccepted model.now history.old step }
    requires given { AreGiven model.now history.old.solutions given.old }
    ensures after { OnOk result (history.new ≡ after_step model.now history.old step) }
    ensures given { OnOk result (AreGiven model.now history.new.solutions given.new) }
{
    match step {
        Step::Infer(Inference { clause, .. }) => history.add_clause(clause),
        Step::Resolve { clause, .. } => history.add_clause(clause),
        Step::Solution(values) => {
            let clause = cut(alloc, model, values.as_slice())?;
            note(alloc, model, given, values.as_slice())?;
            let cut = Items::from_vec(clause.into_vec()?);
            history.add_solution(cut, values)
        }
        Step::Delete { ids } => history.delete(ids.as_slice()),
    }
}
