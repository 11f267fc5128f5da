// The first two lines of whichever version, and the lines of a head behind them.
ghost use Rattle.std.specs.Prelude.{◌≡◌, true, Some, None, IfErr, IfOk, IfSome, IfNone, OnErr};
ghost use Rattle.fzn_cert.specs.Spelling.{IsHeader};
ghost use Rattle.fzn_cert.specs.Stream.{IsHeaderFaultOf};
ghost use Rattle.fzn_head.specs.Head.{IsDerivationText};
ghost use Rattle.fzn_cert_reader.specs.Reader.{reader_below, progress};
ghost use Rattle.fzn_cert_reader.specs.Opening.{IsInHead, BeginsEarly, BeginsHead, IsOpeningFault, GivesDerivation, TurnsToSteps};

use crate::header::FirstLine;
use crate::stream::StepReader;
use fzn_cert::{CertFault, FaultKind, Header};
use fzn_derive::Derivation;
use fzn_head::Head;
use fzn_streams::TrackedRead;
use std::alloc::Global;

impl<R: TrackedRead + Drop> StepReader<R> {
    /// Reads the first two lines, of whichever version, where no line was read. It answers `None` where steps come next, as in versions one
    /// and two, and in version three how many constraints there are and are derived. Its faults are those of `next` at these lines; after one
    /// each call of `next` answers `Failed` at its line, and `header`, `counts` and `closed` tell nothing.
    pub fn begin(&mut self) -> Result<Option<Head>, CertFault>
        requires { IsInHead (progress R.remaining self.old) }
        ensures early { IfOk result (λ head. IfNone head (BeginsEarly (progress R.remaining self.old) (progress R.remaining self.new))) }
        ensures third { IfOk result (λ head. IfSome head (BeginsHead (progress R.remaining self.old) (progress R.remaining self.new))) }
        ensures err { IfErr result (IsOpeningFault (progress R.remaining self.old).left) }
        ensures failed { IfErr result (λ fault. (progress R.remaining self.new).fault_line ≡ Some fault.line) }
        ensures untold { OnErr result (((progress R.remaining self.new).header ≡ None) × ((progress R.remaining self.new).closing ≡ None)) }
        ensures due { IfErr result (λ fault. fault.kind ≡ FaultKind.Read → R.has_failed (reader_below self.new) ≡ true) }
    {
        match self.read_opening() {
            Ok(head) => Ok(head),
            Err(fault) => {
                self.fault_line = Some(fault.line);
                Err(fault)
            }
        }
    }

    // The same, but that no fault is kept.
    fn read_opening(&mut self) -> Result<Option<Head>, CertFault>
        requires { IsInHead (progress R.remaining self.old) }
        ensures early { IfOk result (λ head. IfNone head (BeginsEarly (progress R.remaining self.old) (progress R.remaining self.new))) }
        ensures third { IfOk result (λ head. IfSome head (BeginsHead (progress R.remaining self.old) (progress R.remaining self.new))) }
        ensures err { IfErr result (IsOpeningFault (progress R.remaining self.old).left) }
        ensures untold { OnErr result (((progress R.remaining self.new).header ≡ None) × ((progress R.remaining self.new).closing ≡ None)) }
        ensures due { IfErr result (λ fault. fault.kind ≡ FaultKind.Read → R.has_failed (reader_below self.new) ≡ true) }
    {
        let version = match self.lines.read_first() {
            Ok(FirstLine::Early(version)) => version,
            Ok(FirstLine::Third) => {
                return match self.lines.read_head() {
                    Ok(head) => Ok(Some(head)),
                    Err(kind) => Err(CertFault { kind, line: 2 }),
                };
            }
            Err(kind) => return Err(CertFault { kind, line: 1 }),
        };
        match self.lines.read_counts() {
            Ok((variables, constraints)) => {
                self.header = Some(Header {
                    version,
                    variables,
                    constraints,
                });
                Ok(None)
            }
            Err(kind) => Err(CertFault { kind, line: 2 }),
        }
    }

    /// Reads the next line of a head, which has this number, and answers what it derives. It answers `Memory` where memory runs out, `Read`
    /// only after a read that failed, `Truncated` and `LineTooLong` as `next` does, and `Header` where the line spells no derivation.
    /// After a fault `next`, `header`, `counts` and `closed` answer as after one of `begin`.
    pub fn next_derivation(&mut self, alloc: Global, line: u64) -> Result<Derivation, FaultKind>
        requires { IsInHead (progress R.remaining self.old) }
        ensures ok { IfOk result (GivesDerivation (progress R.remaining self.old) (progress R.remaining self.new)) }
        ensures err { IfErr result (IsHeaderFaultOf IsDerivationText (progress R.remaining self.old).left) }
        ensures failed { OnErr result ((progress R.remaining self.new).fault_line ≡ Some line) }
        ensures untold { OnErr result (((progress R.remaining self.new).header ≡ None) × ((progress R.remaining self.new).closing ≡ None)) }
        ensures due { IfErr result (λ kind. kind ≡ FaultKind.Read → R.has_failed (reader_below self.new) ≡ true) }
    {
        match self.lines.read_derivation(alloc) {
            Ok(derivation) => Ok(derivation),
            Err(kind) => {
                self.fault_line = Some(line);
                Err(kind)
            }
        }
    }

    /// Goes on with steps, as if these had been the first two lines.
    pub fn turn_to_steps(&mut self, header: Header)
        requires head { IsInHead (progress R.remaining self.old) }
        requires sized { IsHeader header }
        ensures { TurnsToSteps (progress R.remaining self.old) (progress R.remaining self.new) header }
    {
        self.header = Some(header);
    }
}
