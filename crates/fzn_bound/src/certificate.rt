// A certificate checked from its bytes, with the bound that its steps give.
ghost use Rattle.std.specs.Prelude.{◌≡◌, IfOk, IfErr, OnOk, IsSome};
ghost use Rattle.std.specs.List.{All};
ghost use Rattle.fzn_meaning.specs.Solutions.{IsSolution};
ghost use Rattle.fzn_meaning.specs.WellFormed.{IsWellFormed};
ghost use Rattle.fzn_cert.specs.Past.{no_past};
ghost use Rattle.fzn_cert_reader.specs.Reader.{progress, reader_below};
ghost use Rattle.fzn_head.specs.Outcome.{IsOutcomeOn};
ghost use Rattle.fzn_checker.specs.Checked.{IsUnread, IsFaultWhere, IsReadDue, IsMidway, ComesTo};
ghost use Rattle.fzn_checker.specs.Held.{past_in};
ghost use Rattle.fzn_checker.specs.Opened.{HasNearLine};
ghost use Rattle.fzn_bound.specs.Bounded.{IsWalked, IsCertificateWalked};

use crate::said::{bound_after, declared_bound};
use fzn_cert_reader::StepReader;
use fzn_checker::{CheckFault, Taken, further, open_certificate};
use fzn_meaning::Model;
use fzn_streams::TrackedRead;
use std::alloc::Global;

/// What the steps of an accepted certificate left.
#[derive(Drop)]
pub struct Walked {
    /// What was taken of them.
    pub taken: Taken,
    /// Whether there are no other solutions to be found.
    pub closed: bool,
    /// The strongest bound that they and the declared set give the objective.
    pub bound: Option<i64>,
}

/// Checks a certificate of any version line by line, as `check_certificate` of `fzn_checker` does and with the same faults, and looks at each
/// step that is accepted. None of them is held. The constraints that its head derives stand behind the model's own afterwards.
pub fn walk_certificate<C: TrackedRead + Drop>(
    alloc: Global,
    model: &mut Model,
    cert: &mut StepReader<C>,
) -> Result<Walked, CheckFault>
    requires model { IsWellFormed model.old }
    requires unread { IsUnread (progress C.remaining cert.old) }
    ensures ok { IfOk result (IsCertificateWalked model.old model.new (progress C.remaining cert.old).left) }
    ensures formed { OnOk result (IsWellFormed model.new) }
    ensures found { IfOk result (λ walked. All (IsSolution model.new) (past_in walked.taken).solutions) }
    ensures err { IfErr result (IsFaultWhere (IsOutcomeOn model.old (progress C.remaining cert.old).left)) }
    ensures due { IfErr result (IsReadDue (C.has_failed (reader_below cert.new))) }
{
    let opening = open_certificate(alloc, model, cert, false)?;
    match walk_steps(alloc, model, cert) {
        Ok(walked) => Ok(walked),
        Err(fault) => Err(further(fault, opening.lines)),
    }
}

/// Checks the steps of a certificate of which no step was read, and the ending behind them. It answers as `walk_certificate` does, but that
/// the lines are counted as though two stood in front of the steps.
fn walk_steps<C: TrackedRead + Drop>(
    alloc: Global,
    model: &Model,
    cert: &mut StepReader<C>,
) -> Result<Walked, CheckFault>
    requires model { IsWellFormed model.now }
    requires midway { IsMidway model.now no_past (progress C.remaining cert.old) }
    requires begun { IsSome (progress C.remaining cert.old).header }
    requires no_steps { (progress C.remaining cert.old).steps ≡ 0 }
    ensures ok { IfOk result (IsWalked model.now (progress C.remaining cert.old)) }
    ensures found { IfOk result (λ walked. All (IsSolution model.now) (past_in walked.taken).solutions) }
    ensures err { IfErr result (IsFaultWhere (ComesTo model.now no_past (progress C.remaining cert.old))) }
    ensures near { IfErr result HasNearLine }
    ensures due { IfErr result (IsReadDue (C.has_failed (reader_below cert.new))) }
{
    let mut taken = Taken::new(alloc, model)?;
    let mut bound = declared_bound(model);
    let mut line = 3;
    while let Some(step) = taken.next_step(alloc, model, line, cert)? {
        let next_bound = bound_after(model.goal, bound, &step);
        if let Some(refusal) = taken.take(alloc, model, step)? {
            return Err(CheckFault::Refused { line, refusal });
        }
        bound = next_bound;
        line += 1;
    }
    Ok(Walked {
        taken,
        closed: cert.closed().unwrap_or(false),
        bound,
    })
}
