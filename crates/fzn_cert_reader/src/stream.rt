// The reader of a certificate.
ghost use Rattle.std.specs.Prelude.{◌≡◌, ◌+◌, ◌<◌, ◌≤◌, ◌^◌, true, Ok, Err, None, Some, IfErr, IfOk, IfSome, IfNone, OnOk, OnErr, IsSome};
ghost use Rattle.std.specs.Option.{option_map, ForSome};
ghost use Rattle.std.specs.Io.KnownBytes.{Consumes};
ghost use Rattle.fzn_cert.specs.Spelling.{IsHeader};
ghost use Rattle.fzn_cert_reader.specs.Input.{left_in};
ghost use Rattle.fzn_cert_reader.specs.Told.{TakesNoHeader};
ghost use Rattle.fzn_cert.specs.Stream.{IsHeaderFault, line_of_fault};

use crate::reader::StepLines;
use fzn_cert::{CertFault, FaultKind, Header, Step};
use fzn_streams::TrackedRead;
use std::alloc::Global;

/// Reads the steps of a certificate, one at a time. After a fault each call answers `Failed`, at the line of that fault.
#[derive(Drop)]
pub struct StepReader<R> {
    /// The lines of the certificate.
    pub(crate) lines: StepLines<R>,
    /// What the first two lines say, once they were read.
    pub(crate) header: Option<Header>,
    /// The line of the fault, after one.
    pub(crate) fault_line: Option<u64>,
    ghost sized: { ForSome header IsHeader },
}

impl<R: TrackedRead + Drop> StepReader<R> {
    ghost use Rattle.fzn_cert_reader.specs.Reader.{reader_below, progress, lines_read, IsAtStart, MayGoOn, HasEnded, GivesStep, Ends, IsNextFault, FindsFault, Tells};

    /// Reads nothing.
    pub fn new(alloc: Global, input: R) -> StepReader<R>
        ensures input { reader_below result ≡ input }
        ensures fresh { IsAtStart (R.remaining input) (progress R.remaining result) }
    {
        StepReader {
            lines: StepLines::new(alloc, input),
            header: None,
            fault_line: None,
        }
    }

    /// What the first two lines say, once they were read.
    pub fn header(&self) -> Option<Header>
        ensures value { result ≡ (progress R.remaining self.now).header }
        ensures sized { IfSome result IsHeader }
    {
        self.header
    }

    /// How many variables and constraints there are, once the first two lines were read.
    pub fn counts(&self) -> Option<(u64, u64)>
        ensures { result ≡ option_map (λ header. (header.variables, header.constraints)) (progress R.remaining self.now).header }
    {
        let header = self.header?;
        Some((header.variables, header.constraints))
    }

    /// How many steps were read, below 10^18.
    pub fn steps(&self) -> u64
        ensures value { result ≡ (progress R.remaining self.now).steps }
        ensures few { result < 10 ^ 18 }
    {
        self.lines.steps
    }

    /// Whether the last line says that the answer is closed, once it was read.
    pub fn closed(&self) -> Option<bool>
        ensures { result ≡ (progress R.remaining self.now).closing }
    {
        self.lines.closed
    }

    /// The next step, and none once the last line was read and nothing follows it. The first call reads the first two lines too.
    /// Its faults are `Memory`, `Read`, `Truncated` and `LineTooLong`, `Header` at the first two lines, `Spelling` at each later one,
    /// `Trailing` at a byte after the last line, and `Failed` after a fault. `Read` is answered only after a read that failed. After a fault
    /// `header`, `counts` and `closed` still tell of the lines that were read, and of no others.
    pub fn next(&mut self, alloc: Global) -> Result<Option<Step>, CertFault>
        ensures step { IfOk result (λ found. IfSome found (GivesStep (progress R.remaining self.old) (progress R.remaining self.new))) }
        ensures end { MayGoOn (progress R.remaining self.old) → IfOk result (λ found. IfNone found (Ends (progress R.remaining self.old) (progress R.remaining self.new))) }
        ensures err { MayGoOn (progress R.remaining self.old) → IfErr result (FindsFault (progress R.remaining self.old) (progress R.remaining self.new)) }
        ensures told { MayGoOn (progress R.remaining self.old) → Tells (progress R.remaining self.old) (progress R.remaining self.new) }
        ensures ended { HasEnded (progress R.remaining self.old) → (result ≡ Ok None) × (self.new ≡ self.old) }
        ensures failed { IfSome (progress R.remaining self.old).fault_line (λ line. (result ≡ Err (record { kind = FaultKind.Failed; line = line })) × (self.new ≡ self.old)) }
        ensures due { IfErr result (λ fault. fault.kind ≡ FaultKind.Read → R.has_failed (reader_below self.new) ≡ true) }
        ensures same { IsSome (progress R.remaining self.old).header → (progress R.remaining self.new).header ≡ (progress R.remaining self.old).header }
        ensures near { MayGoOn (progress R.remaining self.old) → IfErr result (λ fault. fault.line ≤ 10 ^ 18 + 4) }
    {
        if let Some(line) = self.fault_line {
            return Err(CertFault {
                kind: FaultKind::Failed,
                line,
            });
        }
        if self.lines.closed.is_some() {
            return Ok(None);
        }
        match self.read(alloc) {
            Ok(found) => Ok(found),
            Err(fault) => {
                self.fault_line = Some(fault.line);
                Err(fault)
            }
        }
    }

    // The next step, after the first two lines, which are read where they weren't.
    fn read(&mut self, alloc: Global) -> Result<Option<Step>, CertFault>
        requires { MayGoOn (progress R.remaining self.old) }
        ensures step { IfOk result (λ found. IfSome found (GivesStep (progress R.remaining self.old) (progress R.remaining self.new))) }
        ensures end { IfOk result (λ found. IfNone found (Ends (progress R.remaining self.old) (progress R.remaining self.new))) }
        ensures err { IfErr result (IsNextFault (progress R.remaining self.old) self.new.header self.new.lines.closed) }
        ensures told { Tells (progress R.remaining self.old) (progress R.remaining self.new) }
        ensures same { (self.new.fault_line ≡ self.old.fault_line) × (IsSome self.old.header → self.new.header ≡ self.old.header) }
        ensures same_steps { OnErr result (self.new.lines.steps ≡ self.old.lines.steps) }
        ensures near { IfErr result (λ fault. fault.line ≤ 10 ^ 18 + 4) }
        ensures due { IfErr result (λ fault. fault.kind ≡ FaultKind.Read → R.has_failed (reader_below self.new) ≡ true) }
    {
        let header = self.read_header()?;
        match self.lines.next_step(alloc, header.version) {
            Ok(found) => Ok(found),
            Err(kind) => Err(CertFault {
                kind,
                line: line_of(kind, self.lines.steps),
            }),
        }
    }

    // What the first two lines say, which are read where they weren't.
    #[tactic(auto, using(crate::proofs::ReadLaws::Consumes_header, crate::proofs::ReadLaws::Consumes_nothing))]
    fn read_header(&mut self) -> Result<Header, CertFault>
        ensures ok { IfOk result (λ header. self.new.header ≡ Some header) }
        ensures taken { OnOk result (Consumes (left_in R.remaining self.old.lines.bytes) (left_in R.remaining self.new.lines.bytes) (lines_read self.old.header self.new.header)) }
        ensures err { IfErr result (λ fault. (self.new.header ≡ None) × IsHeaderFault (left_in R.remaining self.old.lines.bytes) fault) }
        ensures untold { OnErr result (TakesNoHeader (left_in R.remaining self.old.lines.bytes) (left_in R.remaining self.new.lines.bytes)) }
        ensures same { (self.new.lines.steps ≡ self.old.lines.steps) × (self.new.lines.closed ≡ self.old.lines.closed) × (self.new.fault_line ≡ self.old.fault_line) }
        ensures same_header { IsSome self.old.header → self.new.header ≡ self.old.header }
        ensures near { IfErr result (λ fault. fault.line ≤ 2) }
        ensures due { IfErr result (λ fault. fault.kind ≡ FaultKind.Read → R.has_failed (reader_below self.new) ≡ true) }
    {
        if let Some(header) = self.header {
            return Ok(header);
        }
        let version = match self.lines.read_version() {
            Ok(version) => version,
            Err(kind) => return Err(CertFault { kind, line: 1 }),
        };
        match self.lines.read_counts() {
            Ok((variables, constraints)) => {
                let header = Header {
                    version,
                    variables,
                    constraints,
                };
                self.header = Some(header);
                Ok(header)
            }
            Err(kind) => Err(CertFault { kind, line: 2 }),
        }
    }
}

/// The line of a fault after so many steps, counted from 1 with the first two lines. It is one line further on for `Trailing`, which stands
/// behind the last line.
pub fn line_of(kind: FaultKind, steps: u64) -> u64
    requires { steps < 10 ^ 18 }
    ensures value { result ≡ line_of_fault kind steps }
    ensures near { result ≤ steps + 4 }
{
    match kind {
        FaultKind::Trailing => steps + 4,
        _ => steps + 3,
    }
}
