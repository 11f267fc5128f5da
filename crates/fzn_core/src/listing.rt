// A certificate checked from its bytes, and the core of its answer printed.
ghost use Rattle.std.specs.Prelude.{◌≡◌, false, IfOk, IfErr};
ghost use Rattle.fzn_cert_reader.specs.Reader.{progress, reader_below};
ghost use Rattle.fzn_checker.specs.Answered.{IsCheckDue};
ghost use Rattle.fzn_checker.specs.Checked.{IsUnread};
ghost use Rattle.fzn_core.specs.Listing.{IsCoreListed, IsListFault};

use crate::cited::core_numbers;
use crate::print::put_core;
use fzn_cert_reader::StepReader;
use fzn_checker::{CheckFault, hold_certificate};
use fzn_sources::read_located;
use fzn_streams::{TrackedRead, TrackedReader, TrackedWrite, TrackedWriter, WriteFailed};
use std::alloc::Global;
use std::io::{Read, Write};

/// On how many of its constraints the answer of a model was found to rest.
#[derive(Clone, Copy, Debug, PartialEq, Eq)]
pub struct Listed {
    /// How many constraints are listed, none for an open answer.
    pub listed: usize,
    /// How many constraints the model has.
    pub constraints: usize,
    /// Whether the answer is closed.
    pub closed: bool,
}

/// Checks the certificate of a file, and prints the constraints that its closed answer was found to rest on, in order, each with its number
/// and with the item that states it, from its line and column to its `;`; and how many they are. Whatever the bytes of the certificate are,
/// what the answer says of the solutions follows from these constraints alone. Of an open answer none is listed.
///
/// Nothing is printed before the whole certificate is accepted, nor where it answers `File` with the first fault of the file, `Refused` with
/// the first faulty line of the certificate, `Memory` where memory runs out, or `Read` where a read of either fails. It answers
/// `WriteOutput` where a write or the flush of `out` fails, and a beginning of the list stands then. All steps are held at once, as the text
/// of their lines.
pub fn core<R: Read + Drop, C: Read + Drop, W: Write>(
    alloc: Global,
    file: R,
    cert: C,
    out: &mut W,
) -> Result<Listed, CheckFault>
    ensures ok { IfOk result (IsCoreListed (R.remaining file) (C.remaining cert) (W.contents out.old) (W.contents out.new)) }
    ensures err { IfErr result (IsListFault (R.remaining file) (C.remaining cert) (W.contents out.old) (W.contents out.new)) }
{
    let mut file = TrackedReader::new(file);
    let mut cert = StepReader::new(alloc, TrackedReader::new(cert));
    let mut out = TrackedWriter::new(out);
    core_tracked(alloc, &mut file, &mut cert, &mut out)
}

/// Lists as `core` does, on streams that remember whether a call on them failed. Of the certificate no line may have been read before, and
/// on none of the streams may a call have failed: where one had, a fault could be answered of it without another failed call. So `Read` is
/// answered only after a failed read of the file or of the certificate, and `WriteOutput` only after a failed write or flush of `out`. Its
/// faults are those of `core`.
pub fn core_tracked<R: TrackedRead, C: TrackedRead + Drop, W: TrackedWrite>(
    alloc: Global,
    file: &mut R,
    cert: &mut StepReader<C>,
    out: &mut W,
) -> Result<Listed, CheckFault>
    requires unread { IsUnread (progress C.remaining cert.old) }
    requires fresh { (R.has_failed file.old ≡ false) × (C.has_failed (reader_below cert.old) ≡ false) × (W.has_failed out.old ≡ false) }
    ensures ok { IfOk result (IsCoreListed (R.remaining file.old) (progress C.remaining cert.old).left (W.contents out.old) (W.contents out.new)) }
    ensures err { IfErr result (IsListFault (R.remaining file.old) (progress C.remaining cert.old).left (W.contents out.old) (W.contents out.new)) }
    ensures due { IfErr result (IsCheckDue (R.has_failed file.new) (C.has_failed (reader_below cert.new)) (W.has_failed out.new)) }
    ensures same_stream { W.stream out.new ≡ W.stream out.old }
{
    let mut located = read_located(alloc, file)?;
    let constraints = located.model.constraints.len();
    let held = hold_certificate(alloc, &mut located.model, cert)?;
    let closed = held.closed;
    let numbers = core_numbers(alloc, &located.model, held)?;
    match put_core(
        out,
        located.bytes.as_slice(),
        located.sources.as_slice(),
        numbers.as_slice(),
        closed,
    ) {
        Ok(()) => Ok(Listed {
            listed: numbers.len(),
            constraints,
            closed,
        }),
        Err(WriteFailed) => Err(CheckFault::WriteOutput),
    }
}
