// A file and its certificate checked from their bytes, and the answer printed.
ghost use Rattle.std.specs.Prelude.{◌≡◌, false, IfOk, IfErr};
ghost use Rattle.fzn_cert_reader.specs.Reader.{progress, reader_below};
ghost use Rattle.fzn_checker.specs.Checked.{IsUnread};
ghost use Rattle.fzn_checker.specs.Answered.{IsAnswered, IsCheckFault, IsCheckDue};

use crate::certificate::{Accepted, Verdict, check_certificate};
use crate::fault::CheckFault;
use fzn_cert_reader::StepReader;
use fzn_meaning::Model;
use fzn_printer::put_answer;
use fzn_reading::read_model;
use fzn_streams::{TrackedRead, TrackedReader, TrackedWrite, TrackedWriter, WriteFailed};
use std::alloc::Global;
use std::io::{Read, Write};

/// Checks the certificate of a file, and prints the answer that it shows. Whatever the bytes of the certificate are, the answer is true
/// of the file. Nothing is printed before the whole certificate is accepted. In an optimisation `show_all` prints every solution, and
/// the last alone without it. It prints nothing either where it answers `File` with the first fault of the file, `Refused` with the first
/// faulty line of the certificate, `Memory` where memory runs out, or `Read` where a read of either fails. It answers `WriteOutput` where a
/// write or the flush of `out` fails, and a beginning of the answer stands then.
pub fn check<R: Read + Drop, C: Read + Drop, W: Write>(
    alloc: Global,
    file: R,
    cert: C,
    show_all: bool,
    out: &mut W,
) -> Result<Verdict, CheckFault>
    ensures answered { IfOk result (IsAnswered (R.remaining file) (C.remaining cert) show_all (W.contents out.old) (W.contents out.new)) }
    ensures fault { IfErr result (IsCheckFault (R.remaining file) (C.remaining cert) show_all (W.contents out.old) (W.contents out.new)) }
{
    let mut file = TrackedReader::new(file);
    let mut cert = StepReader::new(alloc, TrackedReader::new(cert));
    let mut out = TrackedWriter::new(out);
    check_tracked(alloc, &mut file, &mut cert, show_all, &mut out)
}

/// Checks as `check` does, on streams that remember whether a call on them failed. Of the certificate no line may have been read before,
/// and on none of the streams may a call have failed: where one had, a fault could be answered of it without another failed call. So
/// `Read` is answered only after a failed read of the file or of the certificate, and `WriteOutput` only after a failed write or flush
/// of `out`.
pub fn check_tracked<R: TrackedRead, C: TrackedRead + Drop, W: TrackedWrite>(
    alloc: Global,
    file: &mut R,
    cert: &mut StepReader<C>,
    show_all: bool,
    out: &mut W,
) -> Result<Verdict, CheckFault>
    requires unread { IsUnread (progress C.remaining cert.old) }
    requires fresh { (R.has_failed file.old ≡ false) × (C.has_failed (reader_below cert.old) ≡ false) × (W.has_failed out.old ≡ false) }
    ensures answered { IfOk result (IsAnswered (R.remaining file.old) (progress C.remaining cert.old).left show_all (W.contents out.old) (W.contents out.new)) }
    ensures fault { IfErr result (IsCheckFault (R.remaining file.old) (progress C.remaining cert.old).left show_all (W.contents out.old) (W.contents out.new)) }
    ensures due { IfErr result (IsCheckDue (R.has_failed file.new) (C.has_failed (reader_below cert.new)) (W.has_failed out.new)) }
    ensures same_stream { W.stream out.new ≡ W.stream out.old }
{
    let mut model = read_model(alloc, file)?;
    let accepted = check_certificate(alloc, &mut model, cert)?;
    match put_answer(out, &model, &accepted.solutions, accepted.closed, show_all) {
        Ok(()) => Ok(accepted.verdict()),
        Err(WriteFailed) => Err(CheckFault::WriteOutput),
    }
}
