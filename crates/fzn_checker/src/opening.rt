// The first lines of a certificate, up to its first step.
ghost use Rattle.std.specs.Prelude.{◌≡◌, ◌↔◌, ◌+◌, ◌≤◌, ◌++◌, ◌∷◌, [], true, length, IfOk, IfErr, IsTrue, OnOk, OnErr};
ghost use Rattle.std.specs.List.{All};
ghost use Rattle.fzn_meaning.specs.Meaning.{longest, IsWellFormedConstraint};
ghost use Rattle.fzn_meaning.specs.WellFormed.{IsWellFormed};
ghost use Rattle.fzn_cert_reader.specs.Reader.{progress, reader_below};
ghost use Rattle.fzn_cert_reader.specs.Opening.{IsInHead};
ghost use Rattle.fzn_head.specs.Extended.{IsExtended};
ghost use Rattle.fzn_head.specs.Extender.{IsReadyFor, most_terms};
ghost use Rattle.fzn_head.specs.Outcome.{IsOutcomeOn, FitsModel, HeadVerdict};
ghost use Rattle.fzn_checker.specs.Checked.{IsUnread, IsFaultWhere, IsReadDue};
ghost use Rattle.fzn_checker.specs.Opened.{HasNearLine, IsHeadOf, IsOpened, IsTurned, DerivesNext, IsRefusedAt, fault_of_line, fault_of_derivation, fault_further};

use crate::fault::CheckFault;
use crate::next::{fault_after, has_counts};
use fzn_cert::{FaultKind, Header, Refusal, Version};
use fzn_cert_reader::StepReader;
use fzn_cited::DeriveFault;
use fzn_derive::Derivation;
use fzn_domain::Memory;
use fzn_head::{Extender, Head};
use fzn_list::LONGEST;
use fzn_meaning::Model;
use fzn_streams::TrackedRead;
use std::alloc::Global;

/// What stands in front of the first step.
#[derive(Drop)]
pub struct Opening {
    /// How many lines derive a constraint each: at most 100,000, and none in versions one and two.
    pub lines: u64,
    /// How they derive them, in order, where this is held; else none.
    pub derivations: Vec<Derivation>,
}

/// Reads the lines in front of the first step, and puts the constraints that they derive behind the model's own. It answers how many these
/// are and, where it `holds` them, how each is derived. It answers `Refused` with the first faulty line, `Memory` where memory runs out, and
/// `Read` only after a failed read.
pub fn open_certificate<C: TrackedRead + Drop>(
    alloc: Global,
    model: &mut Model,
    cert: &mut StepReader<C>,
    holds: bool,
) -> Result<Opening, CheckFault>
    requires model { IsWellFormed model.old }
    requires unread { IsUnread (progress C.remaining cert.old) }
    ensures opened { IfOk result (λ opening. IsOpened model.old model.new (progress C.remaining cert.old).left (progress C.remaining cert.new) opening.lines) }
    ensures held { IfOk result (λ opening. holds ≡ true → IsHeadOf model.old model.new opening.derivations.items) }
    ensures err { IfErr result (IsFaultWhere (IsOutcomeOn model.old (progress C.remaining cert.old).left)) }
    ensures due { IfErr result (IsReadDue (C.has_failed (reader_below cert.new))) }
    ensures extended { IsExtended model.old model.new }
{
    match cert.begin() {
        Ok(None) => {
            if has_counts(model, cert) {
                Ok(Opening {
                    lines: 0,
                    derivations: Vec::new(alloc),
                })
            } else {
                Err(other_counts())
            }
        }
        Ok(Some(head)) => {
            if !fits(model, head) {
                return Err(other_counts());
            }
            let derivations = derive_all(alloc, model, cert, head, holds)?;
            Ok(Opening {
                lines: head.derived,
                derivations,
            })
        }
        Err(fault) => Err(fault_after(fault, None, false)),
    }
}

/// The second line tells other counts than the model's.
fn other_counts() -> CheckFault
    ensures { result ≡ CheckFault.Refused 2 Refusal.Counts }
{
    CheckFault::Refused {
        line: 2,
        refusal: Refusal::Counts,
    }
}

/// Whether the head tells the model's counts, and there is room for the constraints that are to be derived.
fn fits(model: &Model, head: Head) -> bool
    requires { length model.now.constraints ≤ longest }
    ensures { IsTrue result ↔ FitsModel model.now head }
{
    let constraints = model.constraints.len();
    head.variables == model.vars.len() as u64
        && head.constraints == constraints as u64
        && head.derived <= (LONGEST - constraints) as u64
}

/// Reads as many lines as the head tells, each of which derives a constraint, and turns to the steps behind them. It answers how each is
/// derived, where it `holds` this.
fn derive_all<C: TrackedRead + Drop>(
    alloc: Global,
    model: &mut Model,
    cert: &mut StepReader<C>,
    head: Head,
    holds: bool,
) -> Result<Vec<Derivation>, CheckFault>
    requires model { IsWellFormed model.old }
    requires fits { FitsModel model.old head }
    requires in_head { IsInHead (progress C.remaining cert.old) }
    ensures ok { OnOk result (IsTurned model.old model.new head (progress C.remaining cert.old) (progress C.remaining cert.new)) }
    ensures held { IfOk result (λ derivations. holds ≡ true → IsHeadOf model.old model.new derivations.items) }
    ensures err { IfErr result (IsFaultWhere (HeadVerdict model.old head.derived (progress C.remaining cert.old).left)) }
    ensures due { IfErr result (IsReadDue (C.has_failed (reader_below cert.new))) }
    ensures extended { IsExtended model.old model.new }
{
    let mut extender = Extender::new(alloc, model.vars.len())?;
    let mut derivations = Vec::new(alloc);
    for place in 0..head.derived {
        let derivation = derive_next(alloc, &mut extender, model, cert, place + 3)?;
        hold(&mut derivations, derivation, holds)?;
    }
    cert.turn_to_steps(Header {
        version: Version::Two,
        variables: head.variables,
        constraints: model.constraints.len() as u64,
    });
    Ok(derivations)
}

/// Puts it behind the others, where they are held.
fn hold(
    derivations: &mut Vec<Derivation>,
    derivation: Derivation,
    holds: bool,
) -> Result<(), Memory>
    ensures { OnOk result (holds ≡ true → derivations.new.items ≡ derivations.old.items ++ derivation ∷ []) }
{
    if holds {
        derivations.push(derivation)?;
    }
    Ok(())
}

/// Reads the next line, which has this number, and puts the constraint that it derives behind the model's. It answers how this is derived.
fn derive_next<C: TrackedRead + Drop>(
    alloc: Global,
    extender: &mut Extender,
    model: &mut Model,
    cert: &mut StepReader<C>,
    line: u64,
) -> Result<Derivation, CheckFault>
    requires ready { IsReadyFor (length model.old.vars) extender.old }
    requires model { All (IsWellFormedConstraint (length model.old.vars)) model.old.constraints }
    requires in_head { IsInHead (progress C.remaining cert.old) }
    ensures ready { IsReadyFor (length model.old.vars) extender.new }
    ensures same_most { most_terms extender.new model.new ≡ most_terms extender.old model.old }
    ensures ok { IfOk result (DerivesNext model.old model.new (progress C.remaining cert.old) (progress C.remaining cert.new)) }
    ensures err { IfErr result (IsFaultWhere (IsRefusedAt (most_terms extender.old model.old) model.old line (progress C.remaining cert.old).left)) }
    ensures same { OnErr result (model.new ≡ model.old) }
    ensures due { IfErr result (IsReadDue (C.has_failed (reader_below cert.new))) }
{
    let derivation = match cert.next_derivation(alloc, line) {
        Ok(derivation) => derivation,
        Err(kind) => return Err(line_fault(kind, line)),
    };
    match extender.extend(alloc, model, &derivation) {
        Ok(()) => Ok(derivation),
        Err(fault) => Err(derive_fault(fault, line)),
    }
}

/// What a reader's fault at a line of the head says of the certificate.
fn line_fault(kind: FaultKind, line: u64) -> CheckFault
    ensures { result ≡ fault_of_line kind line }
{
    let refusal = match kind {
        FaultKind::Read => return CheckFault::Read,
        FaultKind::Truncated => Refusal::Truncated,
        FaultKind::LineTooLong => Refusal::LineTooLong,
        FaultKind::Header => Refusal::Spelling,
        FaultKind::Spelling => Refusal::Spelling,
        // Not reached: a line of the head has none of these.
        FaultKind::Memory => return CheckFault::Memory,
        FaultKind::Trailing => return CheckFault::Memory,
        FaultKind::Failed => return CheckFault::Memory,
    };
    CheckFault::Refused { line, refusal }
}

/// What a derivation's fault says of the certificate.
fn derive_fault(fault: DeriveFault, line: u64) -> CheckFault
    ensures { result ≡ fault_of_derivation fault line }
{
    let refusal = match fault {
        DeriveFault::Memory => return CheckFault::Memory,
        DeriveFault::NoSuchVariable => Refusal::NoSuchVariable,
        DeriveFault::NoSuchConstraint => Refusal::NoSuchConstraint,
        DeriveFault::NotDerived => Refusal::NotDerived,
    };
    CheckFault::Refused { line, refusal }
}

/// The same fault, so many lines further on.
pub fn further(fault: CheckFault, lines: u64) -> CheckFault
    requires near { HasNearLine fault }
    requires lines { lines ≤ longest }
    ensures { result ≡ fault_further lines fault }
{
    match fault {
        CheckFault::Refused { line, refusal } => CheckFault::Refused {
            line: line + lines,
            refusal,
        },
        other => other,
    }
}
