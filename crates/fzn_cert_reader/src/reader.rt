// The lines of a certificate from a reader, each with its fault.
ghost use Rattle.std.specs.Prelude.{◌≡◌, ◌≤◌, ◌+◌, ◌++◌, ◌∷◌, [], Bool, true, Some, None, IfOk, IfErr, IfSome, IfNone, OnOk, OnErr};
ghost use Rattle.std.specs.Io.KnownBytes.{Consumes, IsAtEnd};
ghost use Rattle.fzn_cert.specs.Spelling.{step_text, step_line, end_line, version_text, counts_text, HasLine, IsSized};
ghost use Rattle.fzn_head.specs.Head.{head_counts_line, derivation_line, HasDerivationLine, IsSizedHead, IsFirstText, IsHeadCountsText, IsDerivationText};
ghost use Rattle.fzn_cert_reader.specs.Input.{reader_in, left_in};
ghost use Rattle.fzn_cert_reader.specs.First.{first_text};
ghost use Rattle.fzn_cert_reader.specs.Told.{TakesNone, TakesEnd};
ghost use Rattle.fzn_cert.specs.declared.fault.FaultKind.TheVariants.{Read, Trailing};
ghost use Rattle.fzn_cert.specs.Stream.{IsFaultOf, IsTrailedBy, IsHeaderFaultOf, IsVersionText, IsCountsText};

use crate::ending::closed_of_line;
use crate::header::{FirstLine, counts_of_line, first_of_line, head_of_line, version_of_line};
use crate::input::Bytes;
use crate::lines::{LineEnd, next_line};
use fzn_cert::{FaultKind, Step, Version};
use fzn_cert_line::{derivation_of_line, step_after};
use fzn_derive::Derivation;
use fzn_head::Head;
use fzn_streams::{ReadFailed, TrackedRead};
use std::alloc::Global;

/// The lines of a certificate, read one at a time: the bytes, the line that was read last, and how far it came.
#[derive(Drop)]
pub struct StepLines<R> {
    /// What is left to read.
    pub bytes: Bytes<R>,
    /// The line that was read last, without its line feed.
    pub line: Vec<u8>,
    /// How many steps were read, at most `LAST_STEP`.
    pub steps: u64,
    /// What the last line says, once it was read.
    pub closed: Option<bool>,
    ghost few: { steps ≤ 999999999999999999 },
}

impl<R: TrackedRead + Drop> StepLines<R> {
    /// Reads nothing.
    pub fn new(alloc: Global, input: R) -> StepLines<R>
        ensures input { reader_in result.bytes ≡ input }
        ensures fresh { left_in R.remaining result.bytes ≡ R.remaining input }
        ensures none { (result.steps ≡ 0) × (result.closed ≡ None) }
    {
        StepLines {
            bytes: Bytes::new(input),
            line: Vec::new(alloc),
            steps: 0,
            closed: None,
        }
    }

    /// The line that was read last, without its line feed.
    pub fn line(&self) -> &[u8]
        ensures { result.now ≡ self.now.line.items }
    {
        &self.line
    }

    /// The step of the next line, and none once the last line was read and nothing follows it. It answers `Memory` where memory runs out,
    /// `Read` only after a read that failed, `Truncated` where the input ends before the line, `LineTooLong` past `LINE_LIMIT` bytes,
    /// `Spelling` where the line spells no step of the version and no end, and `Trailing` at a byte behind the last line. After an error no
    /// step is counted.
    pub fn next_step(&mut self, alloc: Global, version: Version) -> Result<Option<Step>, FaultKind>
        ensures line { IfOk result (λ found. IfSome found (HasLine version self.old.steps)) }
        ensures step { IfOk result (λ found. IfSome found (λ step. Consumes (left_in R.remaining self.old.bytes) (left_in R.remaining self.new.bytes) (step_line step)
            × (self.new.steps ≡ self.old.steps + 1) × (self.new.closed ≡ self.old.closed))) }
        ensures end { IfOk result (λ found. IfNone found ((closed : Bool) × (self.new.closed ≡ Some closed)
            × Consumes (left_in R.remaining self.old.bytes) (left_in R.remaining self.new.bytes) (end_line closed) × IsAtEnd (left_in R.remaining self.new.bytes)
            × (self.new.steps ≡ self.old.steps))) }
        ensures err { IfErr result (IsFaultOf version self.old.steps (left_in R.remaining self.old.bytes)) }
        ensures same_steps { OnErr result (self.new.steps ≡ self.old.steps) }
        ensures trailed { IfErr result (λ kind. kind ≡ Trailing → IsTrailedBy (left_in R.remaining self.old.bytes) self.new.closed) }
        ensures due { IfErr result (λ kind. kind ≡ Read → R.has_failed (reader_in self.new.bytes) ≡ true) }
        ensures told { self.old.closed ≡ None → TakesEnd (left_in R.remaining self.old.bytes) (left_in R.remaining self.new.bytes) self.new.closed }
        ensures held { IfOk result (λ found. IfSome found (λ step. self.new.line.items ≡ step_text step)) }
        ensures held_end { IfOk result (λ found. IfNone found (IfSome self.new.closed (λ closed. self.new.line.items ++ 10 ∷ [] ≡ end_line closed))) }
    {
        match next_line(&mut self.bytes, &mut self.line)? {
            LineEnd::Truncated => Err(FaultKind::Truncated),
            LineEnd::TooLong => Err(FaultKind::LineTooLong),
            LineEnd::Whole => match closed_of_line(&self.line) {
                Some(closed) => {
                    self.closed = Some(closed);
                    match self.bytes.next_byte() {
                        Ok(None) => Ok(None),
                        Ok(Some(_)) => Err(FaultKind::Trailing),
                        Err(ReadFailed) => Err(FaultKind::Read),
                    }
                }
                None => match step_after(alloc, &self.line, version, self.steps)? {
                    Some(step) => {
                        self.steps += 1;
                        Ok(Some(step))
                    }
                    None => Err(FaultKind::Spelling),
                },
            },
        }
    }

    /// Reads the first line. It answers `Memory`, `Read`, `Truncated` and `LineTooLong` as `next_step` does, and `Header` where the line
    /// spells no version.
    pub fn read_version(&mut self) -> Result<Version, FaultKind>
        ensures ok { IfOk result (λ version. Consumes (left_in R.remaining self.old.bytes) (left_in R.remaining self.new.bytes) (version_text version ++ 10 ∷ [])) }
        ensures err { IfErr result (IsHeaderFaultOf IsVersionText (left_in R.remaining self.old.bytes)) }
        ensures untold { OnErr result (TakesNone IsVersionText (left_in R.remaining self.old.bytes) (left_in R.remaining self.new.bytes)) }
        ensures due { IfErr result (λ kind. kind ≡ Read → R.has_failed (reader_in self.new.bytes) ≡ true) }
        ensures same { (self.new.steps ≡ self.old.steps) × (self.new.closed ≡ self.old.closed) }
    {
        match next_line(&mut self.bytes, &mut self.line)? {
            LineEnd::Truncated => Err(FaultKind::Truncated),
            LineEnd::TooLong => Err(FaultKind::LineTooLong),
            LineEnd::Whole => match version_of_line(&self.line) {
                Some(version) => Ok(version),
                None => Err(FaultKind::Header),
            },
        }
    }

    /// Reads the second line: how many variables and constraints there are, both below 10^18. It answers `Memory`, `Read`, `Truncated` and
    /// `LineTooLong` as `next_step` does, and `Header` where the line spells no two counts.
    pub fn read_counts(&mut self) -> Result<(u64, u64), FaultKind>
        ensures ok { IfOk result (λ counts. Consumes (left_in R.remaining self.old.bytes) (left_in R.remaining self.new.bytes) (counts_text counts.0 counts.1 ++ 10 ∷ [])) }
        ensures sized { IfOk result (λ counts. IsSized counts.0 × IsSized counts.1) }
        ensures held { IfOk result (λ counts. self.new.line.items ≡ counts_text counts.0 counts.1) }
        ensures err { IfErr result (IsHeaderFaultOf IsCountsText (left_in R.remaining self.old.bytes)) }
        ensures untold { OnErr result (TakesNone IsCountsText (left_in R.remaining self.old.bytes) (left_in R.remaining self.new.bytes)) }
        ensures due { IfErr result (λ kind. kind ≡ Read → R.has_failed (reader_in self.new.bytes) ≡ true) }
        ensures same { (self.new.steps ≡ self.old.steps) × (self.new.closed ≡ self.old.closed) }
    {
        match next_line(&mut self.bytes, &mut self.line)? {
            LineEnd::Truncated => Err(FaultKind::Truncated),
            LineEnd::TooLong => Err(FaultKind::LineTooLong),
            LineEnd::Whole => match counts_of_line(&self.line) {
                Some(counts) => Ok(counts),
                None => Err(FaultKind::Header),
            },
        }
    }

    /// Reads the first line, of whichever version. It answers `Memory`, `Read`, `Truncated` and `LineTooLong` as `next_step` does, and `Header`
    /// where the line spells no version.
    pub fn read_first(&mut self) -> Result<FirstLine, FaultKind>
        ensures ok { IfOk result (λ first. Consumes (left_in R.remaining self.old.bytes) (left_in R.remaining self.new.bytes) (first_text first ++ 10 ∷ [])) }
        ensures err { IfErr result (IsHeaderFaultOf IsFirstText (left_in R.remaining self.old.bytes)) }
        ensures due { IfErr result (λ kind. kind ≡ Read → R.has_failed (reader_in self.new.bytes) ≡ true) }
        ensures same { (self.new.steps ≡ self.old.steps) × (self.new.closed ≡ self.old.closed) }
    {
        match next_line(&mut self.bytes, &mut self.line)? {
            LineEnd::Truncated => Err(FaultKind::Truncated),
            LineEnd::TooLong => Err(FaultKind::LineTooLong),
            LineEnd::Whole => match first_of_line(&self.line) {
                Some(first) => Ok(first),
                None => Err(FaultKind::Header),
            },
        }
    }

    /// Reads the second line of version three, with the faults of `read_counts`.
    pub fn read_head(&mut self) -> Result<Head, FaultKind>
        ensures ok { IfOk result (λ head. Consumes (left_in R.remaining self.old.bytes) (left_in R.remaining self.new.bytes) (head_counts_line head)) }
        ensures sized { IfOk result IsSizedHead }
        ensures err { IfErr result (IsHeaderFaultOf IsHeadCountsText (left_in R.remaining self.old.bytes)) }
        ensures due { IfErr result (λ kind. kind ≡ Read → R.has_failed (reader_in self.new.bytes) ≡ true) }
        ensures same { (self.new.steps ≡ self.old.steps) × (self.new.closed ≡ self.old.closed) }
    {
        match next_line(&mut self.bytes, &mut self.line)? {
            LineEnd::Truncated => Err(FaultKind::Truncated),
            LineEnd::TooLong => Err(FaultKind::LineTooLong),
            LineEnd::Whole => match head_of_line(&self.line) {
                Some(head) => Ok(head),
                None => Err(FaultKind::Header),
            },
        }
    }

    /// Reads a line that derives a constraint. It answers `Memory` where memory runs out, `Read`, `Truncated` and `LineTooLong` as `next_step`
    /// does, and `Header` where the line spells no derivation.
    pub fn read_derivation(&mut self, alloc: Global) -> Result<Derivation, FaultKind>
        ensures ok { IfOk result (λ derivation. Consumes (left_in R.remaining self.old.bytes) (left_in R.remaining self.new.bytes) (derivation_line derivation)) }
        ensures line { IfOk result HasDerivationLine }
        ensures err { IfErr result (IsHeaderFaultOf IsDerivationText (left_in R.remaining self.old.bytes)) }
        ensures due { IfErr result (λ kind. kind ≡ Read → R.has_failed (reader_in self.new.bytes) ≡ true) }
        ensures same { (self.new.steps ≡ self.old.steps) × (self.new.closed ≡ self.old.closed) }
    {
        match next_line(&mut self.bytes, &mut self.line)? {
            LineEnd::Truncated => Err(FaultKind::Truncated),
            LineEnd::TooLong => Err(FaultKind::LineTooLong),
            LineEnd::Whole => match derivation_of_line(alloc, &self.line)? {
                Some(derivation) => Ok(derivation),
                None => Err(FaultKind::Header),
            },
        }
    }
}
