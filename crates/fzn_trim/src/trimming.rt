// A certificate checked from its bytes, and a trimmed one written.
ghost use Rattle.std.specs.Prelude.{◌≡◌, false, IfOk, IfErr};
ghost use Rattle.fzn_cert_reader.specs.Reader.{progress, reader_below};
ghost use Rattle.fzn_checker.specs.Checked.{IsUnread};
ghost use Rattle.fzn_trim.specs.Trimmed.{IsTrimmed, IsTrimFault, IsTrimDue};

use crate::shorter::trimmed_certificate;
use crate::write::write_certificate;
use fzn_cert_reader::StepReader;
use fzn_checker::{CheckFault, hold_certificate};
use fzn_sources::read_located;
use fzn_streams::{TrackedRead, TrackedReader, TrackedWrite, TrackedWriter};
use std::alloc::Global;
use std::io::{Read, Write};

/// How many steps a certificate has, and how many are left of them.
#[derive(Clone, Copy, Debug, PartialEq, Eq)]
pub struct Trimmed {
    /// How many it has.
    pub steps: usize,
    /// How many the trimmed one has, which are no more.
    pub kept: usize,
}

/// Checks the certificate of a file, and writes to `new` one that shows the same: with all its solutions, those of its other steps that its
/// first empty clause rests on, and deletions. It has no more steps. Of an open answer the solutions alone are left. Its head derives no more
/// constraints: those that the steps need that are left, and those that these need. It is of version 3 where it derives any, and else of
/// version 2.
///
/// Nothing is written where it answers `File` with the first fault of the file, `Refused` with the first faulty line of the certificate, or
/// `Read` where a read of either fails. It answers `Memory` where memory runs out, and `WriteCert` where a write or the flush of `new`
/// fails; a beginning of the new certificate may stand then. All steps are held at once, as the text of their lines, and so is the file, which
/// is read a second time from there for a head with fewer lines.
pub fn trim<R: Read + Drop, C: Read + Drop, W: Write>(
    alloc: Global,
    file: R,
    cert: C,
    new: &mut W,
) -> Result<Trimmed, CheckFault>
    ensures ok { IfOk result (IsTrimmed (R.remaining file) (C.remaining cert) (W.contents new.old) (W.contents new.new)) }
    ensures err { IfErr result (IsTrimFault (R.remaining file) (C.remaining cert) (W.contents new.old) (W.contents new.new)) }
{
    let mut file = TrackedReader::new(file);
    let mut cert = StepReader::new(alloc, TrackedReader::new(cert));
    let mut new = TrackedWriter::new(new);
    trim_tracked(alloc, &mut file, &mut cert, &mut new)
}

/// Trims as `trim` does, on streams that remember whether a call on them failed. Of the certificate no line may have been read before, and
/// on none of the streams may a call have failed: where one had, a fault could be answered of it without another failed call. So `Read` is
/// answered only after a failed read of the file or of the certificate, and `WriteCert` only after a failed write or flush of `new`. Its
/// faults are those of `trim`.
pub fn trim_tracked<R: TrackedRead, C: TrackedRead + Drop, W: TrackedWrite>(
    alloc: Global,
    file: &mut R,
    cert: &mut StepReader<C>,
    new: &mut W,
) -> Result<Trimmed, CheckFault>
    requires unread { IsUnread (progress C.remaining cert.old) }
    requires fresh { (R.has_failed file.old ≡ false) × (C.has_failed (reader_below cert.old) ≡ false) × (W.has_failed new.old ≡ false) }
    ensures ok { IfOk result (IsTrimmed (R.remaining file.old) (progress C.remaining cert.old).left (W.contents new.old) (W.contents new.new)) }
    ensures err { IfErr result (IsTrimFault (R.remaining file.old) (progress C.remaining cert.old).left (W.contents new.old) (W.contents new.new)) }
    ensures due { IfErr result (IsTrimDue (R.has_failed file.new) (C.has_failed (reader_below cert.new)) (W.has_failed new.new)) }
    ensures same_stream { W.stream new.new ≡ W.stream new.old }
{
    let mut located = read_located(alloc, file)?;
    let held = hold_certificate(alloc, &mut located.model, cert)?;
    let steps = held.steps.len();
    let closed = held.closed;
    let kept = trimmed_certificate(alloc, located.bytes.as_slice(), &located.model, held)?;
    write_certificate(alloc, &located.model, &kept, closed, new)?;
    Ok(Trimmed {
        steps,
        kept: kept.len(),
    })
}
