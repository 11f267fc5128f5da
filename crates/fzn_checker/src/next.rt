// The next line of a certificate.
ghost use Rattle.std.specs.Prelude.{◌≡◌, ◌↔◌, ◌+◌, ◌≤◌, IfOk, IfErr, IfSome, IfNone, OnOk, IsSome, IsTrue};
ghost use Rattle.fzn_cert_reader.specs.Reader.{progress, reader_below, GivesStep, Ends};
ghost use Rattle.fzn_cert.specs.Spelling.{IsHeader};
ghost use Rattle.fzn_checker.specs.Checked.{IsFaultWhere, HasCounts, ComesTo, IsMidway, Offers, Accepts, IsReadDue};
ghost use Rattle.fzn_checker.specs.Opened.{HasNearLine};
ghost use Rattle.fzn_checker.specs.Faults.{may_end, fault_after};

use crate::fault::CheckFault;
use crate::history::History;
use fzn_cert::{CertFault, FaultKind, Refusal, Step};
use fzn_cert_reader::StepReader;
use fzn_meaning::Model;
use fzn_streams::TrackedRead;
use std::alloc::Global;

/// The step of the next line, where the lines up to it are right; none after an ending that is right.
pub fn next_step<R: TrackedRead + Drop>(
    alloc: Global,
    model: &Model,
    history: &History,
    line: u64,
    reader: &mut StepReader<R>,
) -> Result<Option<Step>, CheckFault>
    requires midway { IsMidway model.now history.now (progress R.remaining reader.old) }
    requires line { line ≡ (progress R.remaining reader.old).steps + 3 }
    ensures step { IfOk result (λ found. IfSome found (Offers model.now history.now (progress R.remaining reader.old) (progress R.remaining reader.new))) }
    ensures end { IfOk result (λ found. IfNone found (Accepts model.now history.now (progress R.remaining reader.old) (progress R.remaining reader.new))) }
    // What the reader took for it.
    ensures gives { IfOk result (λ found. IfSome found (GivesStep (progress R.remaining reader.old) (progress R.remaining reader.new))) }
    ensures ends { IfOk result (λ found. IfNone found (Ends (progress R.remaining reader.old) (progress R.remaining reader.new))) }
    ensures counts { OnOk result (IfSome (progress R.remaining reader.new).header (HasCounts model.now)) }
    ensures same_header { IsSome (progress R.remaining reader.old).header → (progress R.remaining reader.new).header ≡ (progress R.remaining reader.old).header }
    ensures err { IfErr result (IsFaultWhere (ComesTo model.now history.now (progress R.remaining reader.old))) }
    ensures near { IfErr result HasNearLine }
    ensures due { IfErr result (IsReadDue (R.has_failed (reader_below reader.new))) }
{
    let next = reader.next(alloc);
    if !has_counts(model, reader) {
        return Err(CheckFault::Refused {
            line: 2,
            refusal: Refusal::Counts,
        });
    }
    match next {
        Err(fault) => Err(fault_after(fault, reader.closed(), history.is_refuted())),
        Ok(Some(step)) => Ok(Some(step)),
        Ok(None) => {
            if may_end(reader.closed(), history.is_refuted()) {
                Ok(None)
            } else {
                let _steps = reader.steps(); // A certificate has fewer than 10^18 steps.
                Err(CheckFault::Refused {
                    line,
                    refusal: Refusal::NotClosed,
                })
            }
        }
    }
}

/// Whether the certificate may end so.
fn may_end(closed: Option<bool>, is_refuted: bool) -> bool
    ensures { result ≡ may_end closed is_refuted }
{
    !closed.unwrap_or(false) || is_refuted
}

/// Whether the first two lines tell the model's counts, where they were read.
pub fn has_counts<R: TrackedRead + Drop>(model: &Model, reader: &StepReader<R>) -> bool
    ensures value { IsTrue result ↔ IfSome (progress R.remaining reader.now).header (HasCounts model.now) }
    ensures sized { IfSome (progress R.remaining reader.now).header IsHeader }
{
    match reader.header() {
        None => true,
        Some(header) => header.variables == model.vars.len() as u64
            && header.constraints == model.constraints.len() as u64,
    }
}

/// What a reader's fault says of the certificate. An ending that says closed without the empty clause is wrong by itself, before the byte
/// after it.
pub fn fault_after(fault: CertFault, closed: Option<bool>, is_refuted: bool) -> CheckFault
    requires line { 1 ≤ fault.line }
    ensures { result ≡ fault_after fault closed is_refuted }
{
    let line = fault.line;
    let refusal = match fault.kind {
        FaultKind::Memory => return CheckFault::Memory,
        FaultKind::Read => return CheckFault::Read,
        FaultKind::Header => Refusal::Header,
        FaultKind::Spelling => Refusal::Spelling,
        FaultKind::Truncated => Refusal::Truncated,
        FaultKind::LineTooLong => Refusal::LineTooLong,
        FaultKind::Trailing => {
            if !may_end(closed, is_refuted) {
                return CheckFault::Refused {
                    line: line - 1,
                    refusal: Refusal::NotClosed,
                };
            }
            Refusal::Trailing
        }
        // Not reached: a check ends at the first fault of its reader.
        FaultKind::Failed => return CheckFault::Memory,
    };
    CheckFault::Refused { line, refusal }
}
