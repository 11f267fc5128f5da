// A certificate checked from its bytes, with its steps held.
ghost use Rattle.std.specs.Prelude.{◌≡◌, ◌+◌, List, [], ◌∷◌, ◌++◌, None, IfOk, IfErr, IfSome, IfNone, OnOk, IsSome};
ghost use Rattle.fzn_meaning.specs.WellFormed.{IsWellFormed};
ghost use Rattle.fzn_cert.specs.declared.step.Step.{Step};
ghost use Rattle.fzn_cert.specs.declared.step.Version.TheVariants.{Two};
ghost use Rattle.fzn_cert.specs.Spelling.{IsSpelled};
ghost use Rattle.fzn_cert.specs.Accepted.{IsJudged, after_step};
ghost use Rattle.fzn_cert.specs.Past.{no_past};
ghost use Rattle.fzn_cert_reader.specs.Reader.{progress, reader_below, GivesStep, Ends};
ghost use Rattle.fzn_head.specs.Outcome.{IsOutcomeOn};
ghost use Rattle.fzn_checker.specs.Checked.{IsUnread, IsFaultWhere, IsReadDue, HasCounts, ComesTo, IsMidway, Offers, Accepts};
ghost use Rattle.fzn_checker.specs.Held.{past_in, MayTake, HasTaken, HoldsSteps, HoldsCertificate};
ghost use Rattle.fzn_checker.specs.Opened.{HasNearLine};

use crate::certificate::first_sets;
use crate::fault::CheckFault;
use crate::given::Given;
use crate::history::History;
use crate::judge::fault_of;
use crate::next::next_step;
use crate::opening::{further, open_certificate};
use crate::steps::accept;
use fzn_cert::{Refusal, Step};
use fzn_cert_reader::{Script, StepReader};
use fzn_derive::Derivation;
use fzn_domain::Memory;
use fzn_list::Items;
use fzn_meaning::Model;
use fzn_sets::Sets;
use fzn_streams::TrackedRead;
use std::alloc::Global;

/// The steps of an accepted certificate, and what it shows.
#[derive(Drop)]
pub struct Held {
    /// How the lines of its head derive constraints, in order; none in versions one and two.
    pub derivations: Vec<Derivation>,
    /// Its steps, in order.
    pub steps: Script,
    /// The values of its solutions, in order.
    pub solutions: Vec<Items<i64>>,
    /// Whether there are no others to be found.
    pub closed: bool,
}

/// What steps that were accepted one after the other leave for later ones. The steps themselves are not held.
#[derive(Drop)]
pub struct Taken {
    history: History,
    given: Given,
    sets: Sets,
    has_empty: bool,
}

impl Taken {
    /// Before the first step. It answers `Err` where memory runs out.
    pub fn new(alloc: Global, model: &Model) -> Result<Taken, Memory>
        requires { IsWellFormed model.now }
        ensures { IfOk result (HasTaken model.now []) }
    {
        let sets = first_sets(alloc, model)?;
        let has_empty = sets.has_empty();
        Ok(Taken {
            history: History::new(alloc),
            given: Given::new(alloc),
            sets,
            has_empty,
        })
    }

    /// The step of the next line of a certificate whose earlier steps were taken, where the lines up to it are right; none after an ending
    /// that is right. `line` is the number of that line. It answers `Refused` with the first faulty line, `Memory` where memory runs out,
    /// and `Read` only after a failed read.
    pub fn next_step<C: TrackedRead + Drop>(
        &self,
        alloc: Global,
        model: &Model,
        line: u64,
        cert: &mut StepReader<C>,
    ) -> Result<Option<Step>, CheckFault>
        requires midway { IsMidway model.now (past_in self.now) (progress C.remaining cert.old) }
        requires line { line ≡ (progress C.remaining cert.old).steps + 3 }
        ensures step { IfOk result (λ found. IfSome found (Offers model.now (past_in self.now) (progress C.remaining cert.old) (progress C.remaining cert.new))) }
        ensures end { IfOk result (λ found. IfNone found (Accepts model.now (past_in self.now) (progress C.remaining cert.old) (progress C.remaining cert.new))) }
        // What the reader took for it.
        ensures gives { IfOk result (λ found. IfSome found (GivesStep (progress C.remaining cert.old) (progress C.remaining cert.new))) }
        ensures ends { IfOk result (λ found. IfNone found (Ends (progress C.remaining cert.old) (progress C.remaining cert.new))) }
        ensures counts { OnOk result (IfSome (progress C.remaining cert.new).header (HasCounts model.now)) }
        ensures same_header { IsSome (progress C.remaining cert.old).header → (progress C.remaining cert.new).header ≡ (progress C.remaining cert.old).header }
        ensures err { IfErr result (IsFaultWhere (ComesTo model.now (past_in self.now) (progress C.remaining cert.old))) }
        ensures near { IfErr result HasNearLine }
        ensures due { IfErr result (IsReadDue (C.has_failed (reader_below cert.new))) }
    {
        next_step(alloc, model, &self.history, line, cert)
    }

    /// Takes the next step, one that version 2 spells, where it is accepted, and else answers what is wrong with it and takes none. It
    /// answers `Err` where memory runs out, and nothing is known of what was taken then.
    pub fn take(
        &mut self,
        alloc: Global,
        model: &Model,
        step: Step,
    ) -> Result<Option<Refusal>, Memory>
        requires ready { MayTake model.now self.old }
        requires spelled { IsSpelled Two step }
        ensures judged { IfOk result (IsJudged model.now (past_in self.old) step) }
        ensures ready { IfOk result (λ fault. fault ≡ None → MayTake model.now self.new) }
        ensures taken { IfOk result (λ fault. fault ≡ None → (steps : List Step) → HasTaken model.now steps self.old → HasTaken model.now (steps ++ step ∷ []) self.new) }
        ensures after { IfOk result (λ fault. fault ≡ None → past_in self.new ≡ after_step model.now (past_in self.old) step) }
    {
        let fault = fault_of(
            alloc,
            model,
            &self.history,
            &self.given,
            &mut self.sets,
            self.has_empty,
            &step,
        )?;
        if let Some(refusal) = fault {
            return Ok(Some(refusal));
        }
        accept(alloc, model, &mut self.history, &mut self.given, step)?;
        Ok(None)
    }

    /// The solutions among the steps.
    pub fn solutions(&self) -> &[Items<i64>]
        ensures { result.now ≡ (past_in self.now).solutions }
    {
        self.history.solutions()
    }

    /// Whether one of the steps gave the empty clause.
    pub fn is_refuted(&self) -> bool
        ensures { result ≡ (past_in self.now).refuted }
    {
        self.history.is_refuted()
    }
}

/// Checks a certificate of any version as `check_certificate` does, with the same faults, and answers its steps too, and how its head derives
/// constraints. All of them are held until the end, the steps as the text of their lines.
pub fn hold_certificate<C: TrackedRead + Drop>(
    alloc: Global,
    model: &mut Model,
    cert: &mut StepReader<C>,
) -> Result<Held, CheckFault>
    requires model { IsWellFormed model.old }
    requires unread { IsUnread (progress C.remaining cert.old) }
    ensures ok { IfOk result (HoldsCertificate model.old model.new (progress C.remaining cert.old).left) }
    ensures err { IfErr result (IsFaultWhere (IsOutcomeOn model.old (progress C.remaining cert.old).left)) }
    ensures due { IfErr result (IsReadDue (C.has_failed (reader_below cert.new))) }
    ensures formed { OnOk result (IsWellFormed model.new) }
{
    let opening = open_certificate(alloc, model, cert, true)?;
    match hold_steps(alloc, model, opening.derivations, cert) {
        Ok(held) => Ok(held),
        Err(fault) => Err(further(fault, opening.lines)),
    }
}

/// Checks the steps of a certificate of which no step was read, and the ending behind them, and holds them beside the derivations. It answers
/// as `hold_certificate` does, but that the lines are counted as though two stood in front of the steps.
fn hold_steps<C: TrackedRead + Drop>(
    alloc: Global,
    model: &Model,
    derivations: Vec<Derivation>,
    cert: &mut StepReader<C>,
) -> Result<Held, CheckFault>
    requires model { IsWellFormed model.now }
    requires midway { IsMidway model.now no_past (progress C.remaining cert.old) }
    requires begun { IsSome (progress C.remaining cert.old).header }
    requires no_steps { (progress C.remaining cert.old).steps ≡ 0 }
    ensures ok { IfOk result (HoldsSteps model.now (progress C.remaining cert.old)) }
    ensures derivations { IfOk result (λ held. held.derivations.items ≡ derivations.items) }
    ensures err { IfErr result (IsFaultWhere (ComesTo model.now no_past (progress C.remaining cert.old))) }
    ensures near { IfErr result HasNearLine }
    ensures due { IfErr result (IsReadDue (C.has_failed (reader_below cert.new))) }
{
    let mut taken = Taken::new(alloc, model)?;
    let mut steps = Script::new(alloc);
    let mut line = 3;
    while let Some(step) = next_step(alloc, model, &taken.history, line, cert)? {
        steps.push(alloc, &step)?;
        if let Some(refusal) = taken.take(alloc, model, step)? {
            return Err(CheckFault::Refused { line, refusal });
        }
        line += 1;
    }
    Ok(Held {
        derivations,
        steps,
        solutions: taken.history.into_solutions(),
        closed: cert.closed().unwrap_or(false),
    })
}
