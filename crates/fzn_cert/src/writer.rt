// The writer of a certificate.
ghost use Rattle.std.specs.Prelude.{◌≡◌, ℕ, ◌+◌, ◌<◌, ◌^◌, Bool, true, string_bytes, OnOk, OnErr, IfOk, IfErr, Err};
ghost use Rattle.std.specs.Io.KnownBytes.{Appends, Keeps};
ghost use Rattle.fzn_streams.specs.Output.{Puts, AppendsFront, IsStreamDue};
ghost use Rattle.fzn_cert.specs.declared.step.Version.TheVariants.{One};
ghost use Rattle.fzn_cert.specs.declared.writer.Stage.TheVariants.{Fresh, Open, Shut};
ghost use Rattle.fzn_cert.specs.Spelling.{step_line, IsSpelled, HasLineRoom, version_text, header_text, end_line};
ghost use Rattle.fzn_cert.specs.Writer.{contents_of, stream_of, has_failed_in, cert_name, version_of, step_count, stage_of, Leaves, IsLineFault, IsStepFault};

use crate::limits::{LAST_STEP, LINE_LIMIT, USUAL_LINE};
use crate::line::push_step;
use crate::step::{Step, Version};
use crate::write_fault::WriteFault;
use fzn_domain::Memory;
use fzn_streams::{TrackedWrite, WriteFailed, put};
use std::alloc::Global;

/// Which lines a writer may write next.
#[derive(Clone, Copy, Debug, PartialEq, Eq)]
pub enum Stage {
    /// The first two.
    Fresh,
    /// Steps, and the last line.
    Open,
    /// None, after a fault and after the last line.
    Shut,
}

/// Writes the lines of a certificate, one after the other. After a fault, and after the last line, each call answers `Failed`.
#[derive(Drop)]
pub struct StepWriter<'w, W: TrackedWrite> {
    out: &'w mut W,
    version: Version,
    steps: u64,
    stage: Stage,
}

/// The first two lines were not written.
#[derive(Drop)]
pub struct NotBegun<'w, W: TrackedWrite> {
    /// Why: `Memory` or `Write`.
    pub fault: WriteFault,
    /// The writer, which is shut. Where it is let go of, the stream below is the caller's again, with what stands on it.
    pub writer: StepWriter<'w, W>,
}

impl<'w, W: TrackedWrite> StepWriter<'w, W> {
    ghost use Rattle.fzn_cert.specs.Begun.{IsBegun, IsNotBegun};

    /// Writes nothing: `begin` writes the first two lines.
    pub fn over(out: &'w mut W) -> StepWriter<'w, W>
        ensures same { contents_of W.contents result ≡ W.contents out.old }
        ensures same_stream { stream_of W.stream result ≡ W.stream out.old }
        ensures same_writer { cert_name result ≡ out.entry.ghost_name }
        ensures fresh { stage_of result ≡ Fresh }
    {
        StepWriter {
            out,
            version: Version::One,
            steps: 0,
            stage: Stage::Fresh,
        }
    }

    /// Writes the first two lines of version 1, with counts of at most 18 digits. Its faults are `Memory` and `Write`, each with the writer
    /// that is shut then: a beginning of the lines stands after a failed write, and nothing of them where memory ran out.
    pub fn new(
        alloc: Global,
        out: &'w mut W,
        variables: u64,
        constraints: u64,
    ) -> Result<StepWriter<'w, W>, NotBegun<'w, W>>
        requires variables { variables < 10 ^ 18 }
        requires constraints { constraints < 10 ^ 18 }
        ensures ok { IfOk result (IsBegun W.contents W.stream One variables constraints out.entry) }
        ensures err { IfErr result (IsNotBegun W.contents W.stream W.has_failed One variables constraints out.entry) }
    {
        StepWriter::with_version(alloc, out, Version::One, variables, constraints)
    }

    /// Writes the first two lines, with counts of at most 18 digits. It answers as `new` does.
    pub fn with_version(
        alloc: Global,
        out: &'w mut W,
        version: Version,
        variables: u64,
        constraints: u64,
    ) -> Result<StepWriter<'w, W>, NotBegun<'w, W>>
        requires variables { variables < 10 ^ 18 }
        requires constraints { constraints < 10 ^ 18 }
        ensures ok { IfOk result (IsBegun W.contents W.stream version variables constraints out.entry) }
        ensures err { IfErr result (IsNotBegun W.contents W.stream W.has_failed version variables constraints out.entry) }
    {
        let mut writer = StepWriter::over(out);
        match writer.begin(alloc, version, variables, constraints) {
            Ok(()) => Ok(writer),
            Err(fault) => Err(NotBegun { fault, writer }),
        }
    }

    /// Writes the first two lines, with counts of at most 18 digits. Its faults are `Memory` and `Write`, and `Failed` after an
    /// earlier call.
    pub fn begin(
        &mut self,
        alloc: Global,
        version: Version,
        variables: u64,
        constraints: u64,
    ) -> Result<(), WriteFault>
        requires variables { variables < 10 ^ 18 }
        requires constraints { constraints < 10 ^ 18 }
        ensures ok { OnOk result (Appends (contents_of W.contents self.old) (contents_of W.contents self.new) (header_text version variables constraints)) }
        ensures begun { OnOk result ((stage_of self.new ≡ Open) × (version_of self.new ≡ version) × (step_count self.new ≡ 0)) }
        ensures same_stream { stream_of W.stream self.new ≡ stream_of W.stream self.old }
        ensures same_writer { cert_name self.new ≡ cert_name self.old }
        ensures err { IfErr result (Leaves (header_text version variables constraints) (contents_of W.contents self.old) (contents_of W.contents self.new)) }
        ensures fault { stage_of self.old ≡ Fresh → IfErr result IsLineFault }
        ensures due { IfErr result (λ fault. fault ≡ WriteFault.Write → has_failed_in W.has_failed self.new ≡ true) }
        ensures failed { ¬ (stage_of self.old ≡ Fresh) → result ≡ Err WriteFault.Failed }
        ensures shut { OnErr result (stage_of self.new ≡ Shut) }
    {
        self.take_fresh()?;
        let text = header_of(alloc, version, variables, constraints)?;
        self.put_first(version, text.as_bytes())
    }

    /// Writes these lines as the first ones, behind which the steps of this version come. It answers `Write`, and `Failed` after an earlier
    /// call.
    pub fn begin_with(&mut self, version: Version, lines: &str) -> Result<(), WriteFault>
        ensures ok { OnOk result (Appends (contents_of W.contents self.old) (contents_of W.contents self.new) lines.now) }
        ensures begun { OnOk result ((stage_of self.new ≡ Open) × (version_of self.new ≡ version) × (step_count self.new ≡ 0)) }
        ensures same_stream { stream_of W.stream self.new ≡ stream_of W.stream self.old }
        ensures same_writer { cert_name self.new ≡ cert_name self.old }
        ensures err { IfErr result (Leaves lines.now (contents_of W.contents self.old) (contents_of W.contents self.new)) }
        ensures fault { stage_of self.old ≡ Fresh → IfErr result (λ fault. fault ≡ WriteFault.Write) }
        ensures due { IfErr result (λ fault. fault ≡ WriteFault.Write → has_failed_in W.has_failed self.new ≡ true) }
        ensures failed { ¬ (stage_of self.old ≡ Fresh) → result ≡ Err WriteFault.Failed }
        ensures shut { OnErr result (stage_of self.new ≡ Shut) }
    {
        self.take_fresh()?;
        self.put_first(version, lines.as_bytes())
    }

    // Shuts the writer, so that only a call that goes well opens it.
    fn take_fresh(&mut self) -> Result<(), WriteFault>
        ensures ok { OnOk result (stage_of self.old ≡ Fresh) }
        ensures err { IfErr result (λ fault. fault ≡ WriteFault.Failed × ¬ (stage_of self.old ≡ Fresh)) }
        ensures same { contents_of W.contents self.new ≡ contents_of W.contents self.old }
        ensures same_stream { stream_of W.stream self.new ≡ stream_of W.stream self.old }
        ensures same_writer { cert_name self.new ≡ cert_name self.old }
        ensures shut { stage_of self.new ≡ Shut }
    {
        let stage = self.stage;
        self.stage = Stage::Shut;
        match stage {
            Stage::Fresh => Ok(()),
            _ => Err(WriteFault::Failed),
        }
    }

    // Writes the first lines, and opens the writer that was shut for it.
    fn put_first(&mut self, version: Version, lines: &[u8]) -> Result<(), WriteFault>
        requires shut { stage_of self.old ≡ Shut }
        ensures ok { OnOk result (Appends (contents_of W.contents self.old) (contents_of W.contents self.new) lines.now) }
        ensures begun { OnOk result ((stage_of self.new ≡ Open) × (version_of self.new ≡ version) × (step_count self.new ≡ 0)) }
        ensures same_stream { stream_of W.stream self.new ≡ stream_of W.stream self.old }
        ensures same_writer { cert_name self.new ≡ cert_name self.old }
        ensures err { IfErr result (λ fault. (fault ≡ WriteFault.Write) × AppendsFront (contents_of W.contents self.old) (contents_of W.contents self.new) lines.now × (has_failed_in W.has_failed self.new ≡ true)) }
        ensures shut { OnErr result (stage_of self.new ≡ Shut) }
    {
        if put(self.out, lines).is_err() {
            return Err(WriteFault::Write);
        }
        self.version = version;
        self.steps = 0;
        self.stage = Stage::Open;
        Ok(())
    }

    /// Writes the line of a step. Its faults are `Memory` and `Write`, `StepTooLong` where the line has more than `LINE_LIMIT` bytes or
    /// `LAST_STEP` steps were written, and `Failed` before the first two lines and after a fault or the last line.
    pub fn write(&mut self, alloc: Global, step: &Step) -> Result<(), WriteFault>
        requires { IsSpelled (version_of self.old) step.now }
        ensures ok { OnOk result (Appends (contents_of W.contents self.old) (contents_of W.contents self.new) (step_line step.now)) }
        ensures counted { OnOk result ((stage_of self.new ≡ Open) × (step_count self.new ≡ step_count self.old + 1) × HasLineRoom (step_count self.old) step.now) }
        ensures same_stream { stream_of W.stream self.new ≡ stream_of W.stream self.old }
        ensures same_writer { (cert_name self.new ≡ cert_name self.old) × (version_of self.new ≡ version_of self.old) }
        ensures err { IfErr result (Leaves (step_line step.now) (contents_of W.contents self.old) (contents_of W.contents self.new)) }
        ensures fault { stage_of self.old ≡ Open → IfErr result (IsStepFault (step_count self.old) step.now) }
        ensures due { IfErr result (λ fault. fault ≡ WriteFault.Write → has_failed_in W.has_failed self.new ≡ true) }
        ensures failed { ¬ (stage_of self.old ≡ Open) → result ≡ Err WriteFault.Failed }
        ensures shut { OnErr result (stage_of self.new ≡ Shut) }
    {
        self.take_open()?;
        if self.steps >= LAST_STEP {
            return Err(WriteFault::StepTooLong);
        }
        let mut line = String::with_capacity(alloc, USUAL_LINE)?;
        push_step(&mut line, step)?;
        if line.len() > LINE_LIMIT {
            return Err(WriteFault::StepTooLong);
        }
        line.push_str("\n")?;
        if put(self.out, line.as_bytes()).is_err() {
            return Err(WriteFault::Write);
        }
        self.steps += 1;
        self.stage = Stage::Open;
        Ok(())
    }

    /// Flushes the writer below. It answers `Write` only where the flush failed, and `Failed` before the first two lines and after a fault
    /// or the last line.
    pub fn flush(&mut self) -> Result<(), WriteFault>
        ensures kept { Keeps (contents_of W.contents self.old) (contents_of W.contents self.new) }
        ensures ok { OnOk result ((stage_of self.new ≡ Open) × (step_count self.new ≡ step_count self.old)) }
        ensures same_stream { stream_of W.stream self.new ≡ stream_of W.stream self.old }
        ensures same_writer { (cert_name self.new ≡ cert_name self.old) × (version_of self.new ≡ version_of self.old) }
        ensures fault { stage_of self.old ≡ Open → IfErr result (λ fault. fault ≡ WriteFault.Write) }
        ensures due { IfErr result (λ fault. fault ≡ WriteFault.Write → has_failed_in W.has_failed self.new ≡ true) }
        ensures failed { ¬ (stage_of self.old ≡ Open) → result ≡ Err WriteFault.Failed }
        ensures shut { OnErr result (stage_of self.new ≡ Shut) }
    {
        self.take_open()?;
        match self.out.flush_all() {
            Ok(()) => {
                self.stage = Stage::Open;
                Ok(())
            }
            Err(_) => Err(WriteFault::Write),
        }
    }

    /// Writes the last line, and flushes the writer below. It answers `Write` only where a write or the flush failed, and `Failed` before
    /// the first two lines and after a fault or the last line.
    pub fn finish(&mut self, closed: bool) -> Result<(), WriteFault>
        ensures ok { OnOk result (Appends (contents_of W.contents self.old) (contents_of W.contents self.new) (end_line closed)) }
        ensures same_stream { stream_of W.stream self.new ≡ stream_of W.stream self.old }
        ensures same_writer { cert_name self.new ≡ cert_name self.old }
        ensures err { IfErr result (Leaves (end_line closed) (contents_of W.contents self.old) (contents_of W.contents self.new)) }
        ensures fault { stage_of self.old ≡ Open → IfErr result (λ fault. fault ≡ WriteFault.Write) }
        ensures due { IfErr result (λ fault. fault ≡ WriteFault.Write → has_failed_in W.has_failed self.new ≡ true) }
        ensures failed { ¬ (stage_of self.old ≡ Open) → result ≡ Err WriteFault.Failed }
        ensures shut { stage_of self.new ≡ Shut }
    {
        self.take_open()?;
        if put_end(self.out, closed).is_err() {
            return Err(WriteFault::Write);
        }
        Ok(())
    }

    // Shuts the writer, so that only a call that goes well opens it again.
    fn take_open(&mut self) -> Result<(), WriteFault>
        ensures ok { OnOk result (stage_of self.old ≡ Open) }
        ensures err { IfErr result (λ fault. fault ≡ WriteFault.Failed × ¬ (stage_of self.old ≡ Open)) }
        ensures same { contents_of W.contents self.new ≡ contents_of W.contents self.old }
        ensures same_stream { stream_of W.stream self.new ≡ stream_of W.stream self.old }
        ensures same_writer { (cert_name self.new ≡ cert_name self.old) × (version_of self.new ≡ version_of self.old) }
        ensures same_steps { step_count self.new ≡ step_count self.old }
        ensures shut { stage_of self.new ≡ Shut }
    {
        let stage = self.stage;
        self.stage = Stage::Shut;
        match stage {
            Stage::Open => Ok(()),
            _ => Err(WriteFault::Failed),
        }
    }
}

/// The first two lines. It answers `Err` where memory runs out.
pub fn header_of(
    alloc: Global,
    version: Version,
    variables: u64,
    constraints: u64,
) -> Result<String, Memory>
    ensures { IfOk result (λ text. string_bytes text ≡ header_text version variables constraints) }
{
    let first = version_text(version);
    Ok(format!(in alloc; "{first}\nvars {variables} cons {constraints}\n")?)
}

/// Writes the last line, and flushes the writer. It answers `Err` only where a write or the flush failed, and then a beginning of the line
/// stands.
#[tactic(auto, using(crate::proofs::WriteLaws::AppendsFront_whole))]
pub fn put_end<W: TrackedWrite>(out: &mut W, closed: bool) -> Result<(), WriteFailed>
    ensures text { Puts (W.contents out.old) (W.contents out.new) result (end_line closed) }
    ensures due { IsStreamDue W.stream W.has_failed out.old out.new result }
{
    put(out, end_line(closed))?;
    out.flush_all()
}

fn end_line(closed: bool) -> &'static [u8]
    ensures { result.now ≡ end_line closed }
{
    if closed { b"e closed\n" } else { b"e open\n" }
}

fn version_text(version: Version) -> &'static str
    ensures { result.now ≡ version_text version }
{
    match version {
        Version::One => "fzc 1",
        Version::Two => "fzc 2",
    }
}
