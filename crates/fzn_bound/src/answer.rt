// A file and its certificate checked from their bytes, and the answer printed with what is known of the objective.
ghost use Rattle.std.specs.Prelude.{◌≡◌, false, IfOk, IfErr};
ghost use Rattle.fzn_cert_reader.specs.Reader.{progress, reader_below};
ghost use Rattle.fzn_checker.specs.Answered.{IsCheckDue};
ghost use Rattle.fzn_checker.specs.Checked.{IsUnread};
ghost use Rattle.fzn_bound.specs.Bounded.{IsBoundTold, IsBoundFault};

use crate::certificate::walk_certificate;
use crate::known::{Known, known_of};
use crate::print::put_known_answer;
use fzn_cert_reader::StepReader;
use fzn_checker::CheckFault;
use fzn_reading::read_model;
use fzn_streams::{TrackedRead, TrackedReader, TrackedWrite, TrackedWriter, WriteFailed};
use std::alloc::Global;
use std::io::{Read, Write};

/// Checks the certificate of a file, and prints the answer that it shows, as `check` of `fzn_checker` does with the same `show_all`; and
/// behind it one line: of an optimisation the best value that was found, and the bound that no solution is better than. Whatever the bytes
/// of the certificate are, this is true of the file. The bound is the strongest that the declared set of the objective gives, or an accepted
/// step whose clause has one literal, on the objective; but never past the best value. The certificate is read once, line by line.
///
/// Nothing is printed before the whole certificate is accepted, nor where it answers `File` with the first fault of the file, `Refused` with
/// the first faulty line of the certificate, `Memory` where memory runs out, or `Read` where a read of either fails. It answers
/// `WriteOutput` where a write or a flush of `out` fails, and a beginning of the text stands then.
pub fn bound<R: Read + Drop, C: Read + Drop, W: Write>(
    alloc: Global,
    file: R,
    cert: C,
    show_all: bool,
    out: &mut W,
) -> Result<Known, CheckFault>
    ensures ok { IfOk result (IsBoundTold (R.remaining file) (C.remaining cert) show_all (W.contents out.old) (W.contents out.new)) }
    ensures err { IfErr result (IsBoundFault (R.remaining file) (C.remaining cert) show_all (W.contents out.old) (W.contents out.new)) }
{
    let mut file = TrackedReader::new(file);
    let mut cert = StepReader::new(alloc, TrackedReader::new(cert));
    let mut out = TrackedWriter::new(out);
    bound_tracked(alloc, &mut file, &mut cert, show_all, &mut out)
}

/// Does what `bound` does, on streams that remember whether a call on them failed, and on which none has: else that one failed would say
/// nothing of this call. Of the certificate no line may have been read before.
/// `Read` is answered only after a failed read of the file or of the certificate, and `WriteOutput` only after a failed write or flush of
/// `out`. Its faults are those of `bound`.
pub fn bound_tracked<R: TrackedRead, C: TrackedRead + Drop, W: TrackedWrite>(
    alloc: Global,
    file: &mut R,
    cert: &mut StepReader<C>,
    show_all: bool,
    out: &mut W,
) -> Result<Known, CheckFault>
    requires unread { IsUnread (progress C.remaining cert.old) }
    requires fresh { (R.has_failed file.old ≡ false) × (C.has_failed (reader_below cert.old) ≡ false) × (W.has_failed out.old ≡ false) }
    ensures ok { IfOk result (IsBoundTold (R.remaining file.old) (progress C.remaining cert.old).left show_all (W.contents out.old) (W.contents out.new)) }
    ensures err { IfErr result (IsBoundFault (R.remaining file.old) (progress C.remaining cert.old).left show_all (W.contents out.old) (W.contents out.new)) }
    ensures due { IfErr result (IsCheckDue (R.has_failed file.new) (C.has_failed (reader_below cert.new)) (W.has_failed out.new)) }
    ensures same_stream { W.stream out.new ≡ W.stream out.old }
{
    let mut model = read_model(alloc, file)?;
    let walked = walk_certificate(alloc, &mut model, cert)?;
    let found = walked.taken.solutions();
    let known = known_of(&model, found, walked.closed, walked.bound);
    match put_known_answer(out, &model, found, walked.closed, show_all, &known) {
        Ok(()) => Ok(known),
        Err(WriteFailed) => Err(CheckFault::WriteOutput),
    }
}
