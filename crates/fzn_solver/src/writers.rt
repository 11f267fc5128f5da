// The certificate and the output of a run.
ghost use Rattle.std.specs.Prelude.{⊤, ◌≡◌, ◌++◌, ◌∷◌, [], ◌<◌, ◌^◌, true, false, length, OnOk, OnErr, IfOk, IfSome, IfErr, None, Bool, ℕ, List, Option, option_map, string_bytes, unwrap_or};
ghost use Rattle.fzn_meaning.specs.Solutions.{IsAssignment};
ghost use Rattle.fzn_meaning.specs.WellFormed.{IsWellFormed};
ghost use Rattle.fzn_cert.specs.Accepted.{AllAccepted};
ghost use Rattle.fzn_cert.specs.Spelling.{IsSpelled};
ghost use Rattle.fzn_cert.specs.Writer.{contents_of as cert_contents, cert_name, stream_of as cert_stream, has_failed_in as cert_failed, version_of, stage_of, step_count, IsLineFault, Leaves};
ghost use Rattle.fzn_cert.specs.declared.write_fault.WriteFault.TheVariants.{Write};
ghost use Rattle.fzn_cert.specs.declared.step.Step.TheVariants.{Solution};
ghost use Rattle.fzn_cert.specs.declared.writer.Stage.TheVariants.{Fresh, Open, Shut};
ghost use Rattle.std.specs.Io.KnownBytes.{Appends, Keeps};
ghost use Rattle.std.specs.Borrow.{GName};
ghost use Rattle.fzn_cert.specs.declared.step.Version.TheVariants.{Two};
ghost use Rattle.fzn_printer.specs.Printer.{out_contents, out_name, out_stream, out_failed, is_open};
ghost use Rattle.std.specs.Option.{option_to_list};
ghost use Rattle.fzn_state.specs.declared.fault.Fault.TheVariants.{Memory as OutOfMemory, WriteOutput, WriteCert};
ghost use Rattle.fzn_printer.specs.Shown.{is_closed};
ghost use Rattle.fzn_solver.specs.Causes.{IsCause, IsLineCause, IsUnderWay, AreWritersOpen, AreSameStreams, AreStreamsAsAtFirst};
ghost use Rattle.fzn_solver.specs.FaultsFrom.{fault_of_certificate};
ghost use Rattle.fzn_solver.specs.Opening.{opening_of};
ghost use Rattle.fzn_solver.specs.Standing.{is_alone, shown_all};
ghost use Rattle.fzn_solver.specs.Writers.{taken, origin, IsUnwritten, IsKept, IsLineTaken, IsLineRefused, IsLogged, IsRestSame, IsAllSame, IsPrinted, IsLastShown, IsAnswerClosed, IsUnbegun, IsUnprinted, IsUnclosed, HasTold, IsUntold};

use crate::ghost_list::{GhostList, Initial};
use crate::progress::{Observer, Progress, with_solution};
use fzn_cert::{Step, StepWriter, Version, WriteFault};
use fzn_domain::Memory;
use fzn_list::Items;
use fzn_meaning::{Goal, Model};
use fzn_printer::{Ending, Printer};
use fzn_state::{Fault, Sink};
use fzn_streams::TrackedWrite;
use std::alloc::Global;

/// Writes each step on the certificate, and its solution on the output once its line was written and flushed. Where the last solution
/// alone is printed, it waits for the end. The observer is told how far the run has come.
#[derive(Drop)]
pub struct Writers<'o, 'c, 'l, 'p, W: TrackedWrite, C: TrackedWrite, P: Observer> {
    /// Writes the lines of the certificate.
    pub cert: StepWriter<'c, C>,
    /// Prints the solutions and the ending.
    pub out: Printer<'o, W>,
    /// Whether the last solution alone is printed, as in an optimisation without `-a`.
    pub alone: bool,
    /// The lines that derive constraints, in front of the steps, where there are such.
    pub opening: &'l Option<String>,
    /// The solution that waits to be printed, a value for each variable in order. There is none where each is printed at once.
    pub last: &'l mut Option<Items<i64>>,
    /// The fault that stopped it, after which it takes nothing more.
    pub stopped: Option<Fault>,
    /// The steps whose lines stand.
    pub taken: GhostList<Step>,
    /// The writer of the output as it was at first.
    pub first_out: Initial<W>,
    /// The writer of the certificate as it was at first.
    pub first_cert: Initial<C>,
    /// Is told how far the run has come, and may give hints.
    pub observer: &'p mut P,
    /// What the observer was told last.
    pub progress: Progress,
}

impl<W: TrackedWrite, C: TrackedWrite, P: Observer> Writers<'_, '_, '_, '_, W, C, P> {
    /// Writes the text in front of the steps, and tells that nothing was decided yet.
    pub fn begin(&mut self, alloc: Global, model: &Model) -> Result<(), Fault>
        requires model { IsWellFormed model.now }
        requires fresh { IsUnwritten W.contents C.contents self.old }
        ensures kept { OnOk result (IsKept W.contents C.contents model.now self.new) }
        ensures under_way { OnOk result (IsUnderWay W.has_failed C.has_failed model.now self.new) }
        ensures cause { IfErr result (IsCause W.has_failed C.has_failed model.now self.new) }
        ensures same_streams { AreSameStreams W.stream C.stream self.old self.new }
        ensures same_taken { taken self.new ≡ taken self.old }
        ensures none_taken { OnOk result (taken self.new ≡ []) }
        ensures err { OnErr result (IsUnbegun C.contents model.now self.old self.new) }
        ensures same { origin self.new ≡ origin self.old }
        ensures told { HasTold P.nodes self.new }
        ensures same_writers { (cert_name self.new.cert ≡ cert_name self.old.cert) × (out_name self.new.out ≡ out_name self.old.out) }
    {
        self.observer.tell(self.progress);
        match put_opening(alloc, &mut self.cert, model, self.opening) {
            Ok(()) => Ok(()),
            Err(fault) => Err(fault_of(fault)),
        }
    }

    /// Writes the line of a step.
    fn line(&mut self, alloc: Global, step: &Step) -> Result<(), Fault>
        requires spelled { IsSpelled Two step.now }
        requires version { version_of self.old.cert ≡ Two }
        requires open { stage_of self.old.cert ≡ Open }
        ensures ok { OnOk result (IsLineTaken C.contents step.now self.old self.new) }
        ensures err { OnErr result (IsLineRefused C.contents step.now self.old self.new) }
        ensures cause { IfErr result (IsLineCause C.has_failed step.now (step_count self.old.cert) self.new.cert) }
        ensures same_stream { cert_stream C.stream self.new.cert ≡ cert_stream C.stream self.old.cert }
        ensures same_stopped { self.new.stopped ≡ self.old.stopped }
        ensures untold { IsUntold self.old self.new }
    {
        match self.cert.write(alloc, step) {
            Ok(()) => {
                self.taken = self.taken.and(step);
                Ok(())
            }
            Err(fault) => Err(fault_of(fault)),
        }
    }
}

impl<W: TrackedWrite, C: TrackedWrite, P: Observer> Writers<'_, '_, '_, '_, W, C, P> {
    /// Writes the line of a solution, which waits for the end.
    fn hold_back(
        &mut self,
        alloc: Global,
        model: &Model,
        step: &Step,
        values: &Items<i64>,
    ) -> Result<(), Fault>
        requires spelled { IsSpelled Two step.now }
        requires accepted { AllAccepted model.now (taken self.old ++ step.now ∷ []) }
        requires kept { IsKept W.contents C.contents model.now self.old }
        requires open { AreWritersOpen self.old }
        requires is { (step.now ≡ Solution values.now) × (self.old.alone ≡ true) }
        ensures open { OnOk result (AreWritersOpen self.new) }
        ensures cause { IfErr result (IsCause W.has_failed C.has_failed model.now self.new) }
        ensures same_streams { AreSameStreams W.stream C.stream self.old self.new }
        ensures same_stopped { self.new.stopped ≡ self.old.stopped }
        ensures untold { IsUntold self.old self.new }
        ensures logged { IsLogged step.now self.old self.new }
        ensures ok { OnOk result (taken self.new ≡ taken self.old ++ step.now ∷ []) }
        ensures few { OnOk result (length (taken self.new) < 10 ^ 18) }
        ensures kept { IsKept W.contents C.contents model.now self.new }
        ensures same { origin self.new ≡ origin self.old }
    {
        let values = Items::from_slice(alloc, values.as_slice())?;
        self.line(alloc, step)?;
        *self.last = Some(values);
        self.flush_certificate()
    }

    /// Writes the line of a solution, and prints the solution once the line is flushed.
    fn print(
        &mut self,
        alloc: Global,
        model: &Model,
        step: &Step,
        values: &Items<i64>,
    ) -> Result<(), Fault>
        requires model { IsWellFormed model.now }
        requires spelled { IsSpelled Two step.now }
        requires accepted { AllAccepted model.now (taken self.old ++ step.now ∷ []) }
        requires kept { IsKept W.contents C.contents model.now self.old }
        requires open { AreWritersOpen self.old }
        requires is { (step.now ≡ Solution values.now) × (self.old.alone ≡ false) }
        ensures open { OnOk result (AreWritersOpen self.new) }
        ensures cause { IfErr result (IsCause W.has_failed C.has_failed model.now self.new) }
        ensures same_streams { AreSameStreams W.stream C.stream self.old self.new }
        ensures same_stopped { self.new.stopped ≡ self.old.stopped }
        ensures untold { IsUntold self.old self.new }
        ensures logged { IsLogged step.now self.old self.new }
        ensures ok { OnOk result (taken self.new ≡ taken self.old ++ step.now ∷ []) }
        ensures few { OnOk result (length (taken self.new) < 10 ^ 18) }
        ensures kept { IsKept W.contents C.contents model.now self.new }
        ensures same { origin self.new ≡ origin self.old }
    {
        self.line(alloc, step)?;
        self.flush_certificate()?;
        self.show(model, values)
    }

    /// Writes the line of a step, and prints the solution that it may be.
    fn take(&mut self, alloc: Global, model: &Model, step: &Step) -> Result<(), Fault>
        requires model { IsWellFormed model.now }
        requires spelled { IsSpelled Two step.now }
        requires accepted { AllAccepted model.now (taken self.old ++ step.now ∷ []) }
        requires kept { IsKept W.contents C.contents model.now self.old }
        requires open { AreWritersOpen self.old }
        ensures open { OnOk result (AreWritersOpen self.new) }
        ensures cause { IfErr result (IsCause W.has_failed C.has_failed model.now self.new) }
        ensures same_streams { AreSameStreams W.stream C.stream self.old self.new }
        ensures same_stopped { self.new.stopped ≡ self.old.stopped }
        ensures untold { IsUntold self.old self.new }
        ensures logged { IsLogged step.now self.old self.new }
        ensures ok { OnOk result (taken self.new ≡ taken self.old ++ step.now ∷ []) }
        ensures few { OnOk result (length (taken self.new) < 10 ^ 18) }
        ensures kept { IsKept W.contents C.contents model.now self.new }
        ensures same { origin self.new ≡ origin self.old }
    {
        match step {
            Step::Solution(values) => {
                if self.alone {
                    self.hold_back(alloc, model, step, values)
                } else {
                    self.print(alloc, model, step, values)
                }
            }
            _ => self.line(alloc, step),
        }
    }

    /// Prints a solution, and flushes the output.
    fn show(&mut self, model: &Model, values: &Items<i64>) -> Result<(), Fault>
        requires model { IsWellFormed model.now }
        requires assignment { IsAssignment model.now values.now }
        ensures printed { IsPrinted W.contents model.now values.now ⊤ self.old.out self.new.out }
        ensures ok { OnOk result (is_open self.new.out ≡ true) }
        ensures cause { is_open self.old.out ≡ true → IfErr result (λ fault. (fault ≡ WriteOutput) × (out_failed W.has_failed self.new.out ≡ true)) }
        ensures same_stream { out_stream W.stream self.new.out ≡ out_stream W.stream self.old.out }
        ensures same_stopped { self.new.stopped ≡ self.old.stopped }
        ensures untold { IsUntold self.old self.new }
        ensures same { (self.new.cert ≡ self.old.cert) × IsAllSame self.old self.new }
    {
        match self.out.solution(model, values.as_slice()) {
            Ok(()) => {}
            Err(_) => return Err(Fault::WriteOutput),
        }
        match self.out.flush() {
            Ok(()) => Ok(()),
            Err(_) => Err(Fault::WriteOutput),
        }
    }

    /// What stopped it; where nothing did, it is memory that ran out.
    pub fn fault(&self) -> Fault
        ensures { result ≡ unwrap_or self.now.stopped OutOfMemory }
    {
        self.stopped.unwrap_or(Fault::Memory)
    }

    /// Writes the end of the certificate, and then prints what is left of the answer. Nothing where a fault stopped it before.
    pub fn close(&mut self, model: &Model, ending: Ending) -> Result<(), Fault>
        requires model { IsWellFormed model.now }
        requires kept { IsKept W.contents C.contents model.now self.old }
        requires under_way { IsUnderWay W.has_failed C.has_failed model.now self.old }
        ensures cause { IfErr result (IsCause W.has_failed C.has_failed model.now self.new) }
        ensures same_streams { AreSameStreams W.stream C.stream self.old self.new }
        ensures same_taken { taken self.new ≡ taken self.old }
        ensures closed { OnOk result (IsAnswerClosed W.contents C.contents model.now (is_closed ending) self.old self.new) }
        ensures err { IfErr result (IsUnclosed W.contents C.contents model.now (is_closed ending) self.old self.new) }
        ensures same_writers { (cert_name self.new.cert ≡ cert_name self.old.cert) × (out_name self.new.out ≡ out_name self.old.out) }
        ensures untold { IsUntold self.old self.new }
    {
        if let Some(fault) = self.stopped {
            return Err(fault);
        }
        match self.cert.finish(ending.is_closed()) {
            Ok(()) => {}
            Err(fault) => return Err(fault_of(fault)),
        }
        self.show_last(model)?;
        match self.out.close(ending) {
            Ok(()) => Ok(()),
            Err(_) => Err(Fault::WriteOutput),
        }
    }

    /// Prints the solution that waits.
    fn show_last(&mut self, model: &Model) -> Result<(), Fault>
        requires model { IsWellFormed model.now }
        requires assignment { IfSome self.old.last.now (IsAssignment model.now) }
        ensures shown { OnOk result (IsLastShown W.contents model.now self.old.last.now self.old.out self.new.out) }
        ensures cause { is_open self.old.out ≡ true → OnErr result (out_failed W.has_failed self.new.out ≡ true) }
        ensures open { OnOk result (is_open self.new.out ≡ is_open self.old.out) }
        ensures same_stream { out_stream W.stream self.new.out ≡ out_stream W.stream self.old.out }
        ensures err { IfErr result (λ fault. (fault ≡ WriteOutput) × IsUnprinted W.contents (shown_all model.now (option_to_list self.old.last.now)) self.old.out self.new.out) }
        ensures same_writer { out_name self.new.out ≡ out_name self.old.out }
        ensures same { (self.new.cert ≡ self.old.cert) × IsAllSame self.old self.new }
        ensures untold { IsUntold self.old self.new }
    {
        if let Some(values) = &*self.last {
            if self.out.solution(model, values.as_slice()).is_err() {
                return Err(Fault::WriteOutput);
            }
        }
        Ok(())
    }

    fn flush_certificate(&mut self) -> Result<(), Fault>
        ensures kept { Keeps (cert_contents C.contents self.old.cert) (cert_contents C.contents self.new.cert) }
        ensures ok { OnOk result ((stage_of self.old.cert ≡ Open) × (stage_of self.new.cert ≡ Open) × (step_count self.new.cert ≡ step_count self.old.cert)) }
        ensures err { OnErr result (stage_of self.new.cert ≡ Shut) }
        ensures same_cert { (cert_name self.new.cert ≡ cert_name self.old.cert) × (version_of self.new.cert ≡ version_of self.old.cert) }
        ensures same_rest { IsRestSame self.old self.new × (self.new.taken ≡ self.old.taken) }
        ensures cause { stage_of self.old.cert ≡ Open → IfErr result (λ fault. (fault ≡ WriteCert) × (cert_failed C.has_failed self.new.cert ≡ true)) }
        ensures same_stream { cert_stream C.stream self.new.cert ≡ cert_stream C.stream self.old.cert }
        ensures same_stopped { self.new.stopped ≡ self.old.stopped }
        ensures untold { IsUntold self.old self.new }
    {
        match self.cert.flush() {
            Ok(()) => Ok(()),
            Err(fault) => Err(fault_of(fault)),
        }
    }
}

impl<W: TrackedWrite, C: TrackedWrite, P: Observer> Sink for Writers<'_, '_, '_, '_, W, C, P> {
    ghost written = { λ writers. taken writers };

    ghost Origin = { (W × C × Option (List ℕ)) × Bool × GName × GName × GName };

    ghost origin = { λ writers. origin writers };

    ghost told = { λ writers. writers.progress.nodes };

    ghost keeps = { λ model writers. IsKept W.contents C.contents model writers
        × IsUnderWay W.has_failed C.has_failed model writers
        × AreStreamsAsAtFirst W.stream C.stream writers
        × HasTold P.nodes writers };

    fn step(&mut self, alloc: Global, model: &Model, step: &Step) -> Result<(), Fault> {
        if let Some(fault) = self.stopped {
            return Err(fault);
        }
        match self.take(alloc, model, step) {
            Ok(()) => {}
            Err(fault) => {
                self.stopped = Some(fault);
                return Err(fault);
            }
        }
        if let Step::Solution(values) = step {
            self.progress = with_solution(self.progress, model.goal, values.as_slice());
            self.observer.tell(self.progress);
        }
        Ok(())
    }

    fn tell(&mut self, nodes: u64, conflicts: u64, inferences: u64) {
        let told = self.progress;
        if nodes == told.nodes && conflicts == told.conflicts {
            return;
        }
        self.progress = Progress {
            nodes,
            conflicts,
            inferences,
            ..told
        };
        self.observer.tell(self.progress);
    }

    fn hint(&mut self, alloc: Global) -> Result<Option<Items<i64>>, Memory> {
        self.observer.hint(alloc)
    }
}

/// Writes the text in front of the steps: these lines, or the first two of version two.
fn put_opening<C: TrackedWrite>(
    alloc: Global,
    cert: &mut StepWriter<'_, C>,
    model: &Model,
    opening: &Option<String>,
) -> Result<(), WriteFault>
    requires model { IsWellFormed model.now }
    ensures ok { OnOk result (Appends (cert_contents C.contents cert.old) (cert_contents C.contents cert.new) (opening_of model.now (option_map string_bytes opening.now))) }
    ensures begun { OnOk result ((stage_of cert.new ≡ Open) × (version_of cert.new ≡ Two) × (step_count cert.new ≡ 0)) }
    ensures same_stream { cert_stream C.stream cert.new ≡ cert_stream C.stream cert.old }
    ensures same_writer { cert_name cert.new ≡ cert_name cert.old }
    ensures err { IfErr result (Leaves (opening_of model.now (option_map string_bytes opening.now)) (cert_contents C.contents cert.old) (cert_contents C.contents cert.new)) }
    ensures fault { stage_of cert.old ≡ Fresh → IfErr result IsLineFault }
    ensures due { IfErr result (λ fault. fault ≡ Write → cert_failed C.has_failed cert.new ≡ true) }
{
    match opening {
        Some(lines) => cert.begin_with(Version::Two, lines.as_str()),
        None => {
            let variables = model.vars.len() as u64;
            let constraints = model.constraints.len() as u64;
            cert.begin(alloc, Version::Two, variables, constraints)
        }
    }
}

/// A fault of the certificate's writer as one of a run.
fn fault_of(fault: WriteFault) -> Fault
    ensures { result ≡ fault_of_certificate fault }
{
    match fault {
        WriteFault::Memory => Fault::Memory,
        WriteFault::Write | WriteFault::Failed => Fault::WriteCert,
        WriteFault::StepTooLong => Fault::StepTooLong,
    }
}

/// Whether the last solution alone is printed.
pub fn is_alone(goal: Goal, all: bool) -> bool
    ensures { result ≡ is_alone goal all }
{
    match goal {
        Goal::Satisfy => false,
        Goal::Minimize(_) | Goal::Maximize(_) => !all,
    }
}
