// A certificate of version 1 written anew as one of version 2.
ghost use Rattle.std.specs.Prelude.{◌≡◌, ◌≤◌, ◌+◌, ◌++◌, ◌∷◌, [], OnOk, None, true, false, IfOk, IfErr};
ghost use Rattle.std.specs.Bool.{OnTrue, OnFalse};
ghost use Rattle.std.specs.Io.KnownBytes.{Consumes, Appends};
ghost use Rattle.fzn_streams.specs.Output.{AppendsFront, IsStreamDue};
ghost use Rattle.fzn_cert_reader.specs.Input.{left_in, reader_in};
ghost use Rattle.fzn_cert.specs.declared.step.Version.TheVariants.{One};
ghost use Rattle.fzn_checker.specs.Faults.{fault_of_kind};
ghost use Rattle.fzn_checker.specs.Checked.{IsReadDue};
ghost use Rattle.fzn_checker.specs.declared.fault.CheckFault.TheVariants.{WriteCert};
ghost use Rattle.fzn_checker.specs.Rewritten.{first_line, IsRewritten, IsRewriteFault, IsRewriteDue, IsFirstLineFault, CopiesCounts, CopiesStep, CopiesEnd, IsCountsCopyFault, IsLineCopyFault};

use crate::fault::CheckFault;
use crate::next::fault_after;
use fzn_cert::{CertFault, FaultKind, Version};
use fzn_cert_reader::{FirstLine, StepLines, line_of};
use fzn_streams::{TrackedRead, TrackedReader, TrackedWrite, TrackedWriter, WriteFailed, put};
use std::alloc::Global;
use std::io::{Read, Write};

/// Writes a certificate of version 1 anew as one of version 2, and tells how many steps it has: its first line is another, and its other
/// bytes are the same. For every model the two have the same verdict. One line is held at a time. Whether a step is accepted is not asked.
///
/// Its faults are those of reading the lines, `NotVersionOne`, `Memory`, `Read`, and `WriteCert` where `new` failed. After one a
/// beginning of the new bytes may stand.
pub fn to2<C: Read + Drop, W: Write>(alloc: Global, old: C, new: &mut W) -> Result<u64, CheckFault>
    ensures ok { IfOk result (IsRewritten (C.remaining old) (W.contents new.old) (W.contents new.new)) }
    ensures err { IfErr result (IsRewriteFault (C.remaining old) (W.contents new.old) (W.contents new.new)) }
{
    let mut lines = StepLines::new(alloc, TrackedReader::new(old));
    let mut new = TrackedWriter::new(new);
    to2_tracked(alloc, &mut lines, &mut new)
}

/// Writes as `to2` does, on streams that remember whether a call on them failed. Of the lines none may have been read before, and on
/// neither stream may a call have failed: where one had, a fault could be answered of it without another failed call. So `Read` is
/// answered only after a failed read, and `WriteCert` only after a failed write or flush of `new`. Its faults are those of `to2`.
pub fn to2_tracked<C: TrackedRead + Drop, W: TrackedWrite>(
    alloc: Global,
    lines: &mut StepLines<C>,
    new: &mut W,
) -> Result<u64, CheckFault>
    requires unread { lines.old.steps ≡ 0 }
    requires fresh { (C.has_failed (reader_in lines.old.bytes) ≡ false) × (W.has_failed new.old ≡ false) }
    ensures ok { IfOk result (IsRewritten (left_in C.remaining lines.old.bytes) (W.contents new.old) (W.contents new.new)) }
    ensures err { IfErr result (IsRewriteFault (left_in C.remaining lines.old.bytes) (W.contents new.old) (W.contents new.new)) }
    ensures due { IfErr result (IsRewriteDue (C.has_failed (reader_in lines.new.bytes)) (W.has_failed new.new)) }
    ensures same_stream { W.stream new.new ≡ W.stream new.old }
{
    take_version(lines)?;
    put_line(new, b"fzc 2")?;
    copy_counts(lines, new)?;
    while copy_line(alloc, lines, new)? {}
    match new.flush_all() {
        Ok(()) => Ok(lines.steps),
        Err(WriteFailed) => Err(CheckFault::WriteCert),
    }
}

/// Reads the first line, which has to say version 1.
fn take_version<R: TrackedRead + Drop>(lines: &mut StepLines<R>) -> Result<(), CheckFault>
    ensures ok { OnOk result (Consumes (left_in R.remaining lines.old.bytes) (left_in R.remaining lines.new.bytes) (first_line One)) }
    ensures err { IfErr result (IsFirstLineFault (left_in R.remaining lines.old.bytes)) }
    ensures due { IfErr result (IsReadDue (R.has_failed (reader_in lines.new.bytes))) }
    ensures same { lines.new.steps ≡ lines.old.steps }
{
    match lines.read_first() {
        Ok(FirstLine::Early(Version::One)) => Ok(()),
        Ok(FirstLine::Early(Version::Two)) => Err(CheckFault::NotVersionOne),
        Ok(FirstLine::Third) => Err(CheckFault::NotVersionOne),
        Err(kind) => Err(fault_at(kind, 1)),
    }
}

/// Copies the second line.
fn copy_counts<R: TrackedRead + Drop, W: TrackedWrite>(
    lines: &mut StepLines<R>,
    new: &mut W,
) -> Result<(), CheckFault>
    ensures ok { OnOk result (CopiesCounts (left_in R.remaining lines.old.bytes) (left_in R.remaining lines.new.bytes) (W.contents new.old) (W.contents new.new)) }
    ensures err { IfErr result (IsCountsCopyFault (left_in R.remaining lines.old.bytes) (W.contents new.old) (W.contents new.new)) }
    ensures due { IfErr result (IsRewriteDue (R.has_failed (reader_in lines.new.bytes)) (W.has_failed new.new)) }
    ensures same_stream { W.stream new.new ≡ W.stream new.old }
    ensures same { lines.new.steps ≡ lines.old.steps }
{
    match lines.read_counts() {
        Ok(_) => put_line(new, lines.line()),
        Err(kind) => Err(fault_at(kind, 2)),
    }
}

/// Copies the next line, and says whether it is that of a step. Nothing follows the last one.
fn copy_line<R: TrackedRead + Drop, W: TrackedWrite>(
    alloc: Global,
    lines: &mut StepLines<R>,
    new: &mut W,
) -> Result<bool, CheckFault>
    ensures step { IfOk result (λ more. OnTrue more (CopiesStep lines.old.steps (left_in R.remaining lines.old.bytes) (left_in R.remaining lines.new.bytes) (W.contents new.old) (W.contents new.new))) }
    ensures counted { IfOk result (λ more. OnTrue more (lines.new.steps ≡ lines.old.steps + 1)) }
    ensures end { IfOk result (λ more. OnFalse more (CopiesEnd (left_in R.remaining lines.old.bytes) (left_in R.remaining lines.new.bytes) (W.contents new.old) (W.contents new.new))) }
    ensures same { IfOk result (λ more. OnFalse more (lines.new.steps ≡ lines.old.steps)) }
    ensures err { IfErr result (IsLineCopyFault lines.old.steps (left_in R.remaining lines.old.bytes) (W.contents new.old) (W.contents new.new)) }
    ensures due { IfErr result (IsRewriteDue (R.has_failed (reader_in lines.new.bytes)) (W.has_failed new.new)) }
    ensures same_stream { W.stream new.new ≡ W.stream new.old }
{
    match lines.next_step(alloc, Version::One) {
        Ok(Some(_)) => {
            put_line(new, lines.line())?;
            Ok(true)
        }
        Ok(None) => {
            put_line(new, lines.line())?;
            Ok(false)
        }
        Err(kind) => Err(fault_at(kind, line_of(kind, lines.steps))),
    }
}

/// Puts a line and its line feed.
fn put_line<W: TrackedWrite>(out: &mut W, line: &[u8]) -> Result<(), CheckFault>
    ensures ok { OnOk result (Appends (W.contents out.old) (W.contents out.new) (line.now ++ 10 ∷ [])) }
    ensures err { IfErr result (λ fault. (fault ≡ WriteCert) × AppendsFront (W.contents out.old) (W.contents out.new) (line.now ++ 10 ∷ [])) }
    ensures due { IsStreamDue W.stream W.has_failed out.old out.new result }
{
    if put(out, line).is_err() {
        return Err(CheckFault::WriteCert);
    }
    if put(out, b"\n").is_err() {
        return Err(CheckFault::WriteCert);
    }
    Ok(())
}

/// The fault that a line has by itself.
fn fault_at(kind: FaultKind, line: u64) -> CheckFault
    requires line { 1 ≤ line }
    ensures { result ≡ fault_of_kind kind line None true }
{
    fault_after(CertFault { kind, line }, None, true)
}
