use crate::writer::LINES;
use fzn_cert::{CertFault, FaultKind, Header, Inference, Step, StepWriter, Version, WriteFault};
use fzn_cert_reader::StepReader;
use fzn_derive::Derivation;
use fzn_head::Head;
use fzn_list::Items;
use fzn_rules::Rule;
use fzn_streams::{TrackedReader, TrackedWriter};
use std::alloc::Global;
use std::io;
use std::io::Read;
use std::test::*;

const ROW: &[u8] =
    b"fzc 1\nvars 2 cons 2\ni 2 lin ; 1<=0\ni 1 lin ; 1>=1 2>=1\ns 0 1\nr ; 1 2 3\ne closed\n";

const TWO: &[u8] =
    b"fzc 2\nvars 2 cons 2\ni 2 lin ; 1<=0\ni 1 lin ; 1>=1 2>=1\nr 2>=1 ; 1 2\nd 2\ns 0 1\nr ; 1 3 5\ne open\n";

const THREE: &[u8] =
    b"fzc 3\nvars 2 cons 2 new 4\nc lin ; 2 1\nc xor ; 2 3\nc alldiff ; 1 2 ; 4\nc row ; l 1 2\ni 2 lin ; 1<=0\nd 1\ne open\n";

// Gives `most` bytes a call, and fails at the end where it is to.
#[derive(Drop)]
pub(crate) struct Cut<'a> {
    pub(crate) bytes: &'a [u8],
    pub(crate) most: usize,
    pub(crate) fails: bool,
}

impl Read for Cut<'_> {
    fn read(&mut self, buf: &mut [u8]) -> io::Result<usize> {
        if self.bytes.is_empty() && self.fails {
            return Err(io::ErrorKind::Other.into());
        }
        let count = self.bytes.len().min(buf.len()).min(self.most);
        buf[..count].copy_from_slice(&self.bytes[..count]);
        self.bytes = &self.bytes[count..];
        Ok(count)
    }
}

pub(crate) fn cut_in(bytes: &[u8], most: usize, fails: bool) -> Cut<'_> {
    Cut { bytes, most, fails }
}

/// The steps of bytes that come in pieces.
type Steps<'a> = StepReader<TrackedReader<Cut<'a>>>;

fn reader_of(alloc: Global, input: Cut<'_>) -> Steps<'_> {
    StepReader::new(alloc, TrackedReader::new(input))
}

/// Whether a step comes next.
fn has_step(alloc: Global, reader: &mut Steps<'_>) -> bool {
    matches!(reader.next(alloc), Ok(Some(_)))
}

fn has_steps(alloc: Global, reader: &mut Steps<'_>, count: u8) -> bool {
    for _ in 0..count {
        if !has_step(alloc, reader) {
            return false;
        }
    }
    true
}

fn has_ended(alloc: Global, reader: &mut Steps<'_>) -> bool {
    matches!(reader.next(alloc), Ok(None))
}

/// Whether so many steps come before the end, which says whether the answer is closed.
fn is_read(alloc: Global, bytes: &[u8], most: usize, steps: u8, closed: bool) -> bool {
    let mut reader = reader_of(alloc, cut_in(bytes, most, false));
    has_steps(alloc, &mut reader, steps)
        && has_ended(alloc, &mut reader)
        && reader.closed() == Some(closed)
}

#[test]
fn reads_however_the_bytes_are_cut(rt: HostRuntime) {
    for most in [1, 2, 3, 7, 4096] {
        assert!(rt; is_read(rt.alloc(), ROW, most, 4, true), "by {most}");
        assert!(rt; is_read(rt.alloc(), TWO, most, 6, false), "by {most}");
    }
}

#[test]
fn reads_a_step_of_each_kind(rt: HostRuntime) {
    assert!(rt; is_read(rt.alloc(), LINES, 4096, 5, true));
}

/// Whether a head comes first, then a derivation of each kind, and so many steps before the end, which says that the answer is open.
fn is_read_behind_a_head(alloc: Global, bytes: &[u8], most: usize, steps: u8) -> bool {
    let mut reader = StepReader::new(alloc, TrackedReader::new(cut_in(bytes, most, false)));
    let Ok(Some(head)) = reader.begin() else {
        return false;
    };
    let Ok(Derivation::Sum(_)) = reader.next_derivation(alloc, 3) else {
        return false;
    };
    let Ok(Derivation::Parity(_)) = reader.next_derivation(alloc, 4) else {
        return false;
    };
    let Ok(Derivation::AllDifferent { .. }) = reader.next_derivation(alloc, 5) else {
        return false;
    };
    let Ok(Derivation::Row(_)) = reader.next_derivation(alloc, 6) else {
        return false;
    };
    reader.turn_to_steps(Header {
        version: Version::Two,
        variables: 2,
        constraints: 6,
    });
    is_head_of_three(head)
        && has_lin(alloc, &mut reader)
        && has_steps(alloc, &mut reader, steps)
        && has_ended(alloc, &mut reader)
        && reader.closed() == Some(false)
}

/// Whether there are two variables and two constraints, and four are derived.
fn is_head_of_three(head: Head) -> bool {
    head == Head {
        variables: 2,
        constraints: 2,
        derived: 4,
    }
}

#[test]
fn reads_a_head(rt: HostRuntime) {
    for most in [1, 7, 4096] {
        assert!(rt;
            is_read_behind_a_head(rt.alloc(), THREE, most, 1),
            "by {most}"
        );
    }
}

/// Whether steps of version one or two come behind the first two lines.
fn begins_with_steps(alloc: Global, bytes: &[u8], steps: u8) -> bool {
    let mut reader = StepReader::new(alloc, TrackedReader::new(cut_in(bytes, 4096, false)));
    let Ok(None) = reader.begin() else {
        return false;
    };
    reader.counts() == Some((2, 2))
        && has_steps(alloc, &mut reader, steps)
        && has_ended(alloc, &mut reader)
}

/// The fault of the first two lines, if they have one.
fn opening_fault(alloc: Global, bytes: &[u8]) -> Option<CertFault> {
    let mut reader = StepReader::new(alloc, TrackedReader::new(cut_in(bytes, 4096, false)));
    reader.begin().err()
}

/// Whether the first two lines are at fault, at this line.
fn is_header_fault(alloc: Global, bytes: &[u8], line: u64) -> bool {
    let fault = CertFault {
        kind: FaultKind::Header,
        line,
    };
    opening_fault(alloc, bytes) == Some(fault)
}

#[test]
fn begins_by_the_first_line(rt: HostRuntime) {
    assert!(rt; begins_with_steps(rt.alloc(), ROW, 4));
    assert!(rt; begins_with_steps(rt.alloc(), TWO, 6));
    assert!(rt; is_header_fault(rt.alloc(), b"fzc 4\n", 1));
    assert!(rt; is_header_fault(rt.alloc(), b"fzc 3\nvars 2 cons 2\n", 2));
    assert!(rt; is_header_fault(rt.alloc(), b"fzc 3\nvars 2 cons 2 new 03\n", 2));
    assert!(rt; is_header_fault(rt.alloc(), b"fzc 2\nvars 2 cons 2 new 3\n", 2));
}

/// The fault that comes next, if one does.
fn fault_of(alloc: Global, reader: &mut Steps<'_>) -> Option<CertFault> {
    reader.next(alloc).err()
}

/// The first fault within nine steps.
fn first_fault(alloc: Global, reader: &mut Steps<'_>) -> Option<CertFault> {
    for _ in 0..9u8 {
        let fault = fault_of(alloc, reader);
        if fault.is_some() {
            return fault;
        }
    }
    None
}

/// Whether the bytes, behind which a read fails, have this fault, and each call after it fails at its line.
fn is_torn(alloc: Global, bytes: &[u8], kind: FaultKind, line: u64) -> bool {
    let mut reader = reader_of(alloc, cut_in(bytes, 1, true));
    let failed = CertFault {
        kind: FaultKind::Failed,
        line,
    };
    first_fault(alloc, &mut reader) == Some(CertFault { kind, line })
        && fault_of(alloc, &mut reader) == Some(failed)
}

#[test]
fn a_failed_read_comes_after_what_was_read(rt: HostRuntime) {
    assert!(rt; is_torn(rt.alloc(), b"fzc 9\n", FaultKind::Header, 1));
    assert!(rt; is_torn(rt.alloc(), b"fzc 1\nvars 2 cons 2\n", FaultKind::Read, 3));
    assert!(rt; is_torn(rt.alloc(), ROW, FaultKind::Read, 7));
}

/// Whether the reader tells nothing of the first two lines and of the last.
fn is_untold(reader: &Steps<'_>) -> bool {
    reader.header().is_none() && reader.counts().is_none() && reader.closed().is_none()
}

fn is_of_version(reader: &Steps<'_>, version: Version) -> bool {
    match reader.header() {
        Some(header) => header.version == version,
        None => false,
    }
}

/// Whether it tells the first two lines, and nothing of the last.
fn is_told(reader: &Steps<'_>) -> bool {
    is_of_version(reader, Version::One)
        && reader.counts() == Some((2, 2))
        && reader.closed().is_none()
}

/// Whether the next step is from constraint 2 by the rule `lin`.
fn has_lin(alloc: Global, reader: &mut Steps<'_>) -> bool {
    matches!(
        reader.next(alloc),
        Ok(Some(Step::Infer(Inference {
            constraint: 2,
            rule: Rule::Lin,
            ..
        })))
    )
}

#[test]
fn tells_what_the_lines_say(rt: HostRuntime) {
    let mut reader = reader_of(rt.alloc(), cut_in(ROW, 4096, false));
    assert!(rt; is_untold(&reader));
    assert!(rt; has_lin(rt.alloc(), &mut reader) && is_told(&reader));
}

/// Writes an inference, a solution and the end.
fn write_two(
    alloc: Global,
    writer: &mut StepWriter<'_, TrackedWriter<'_, Vec<u8>>>,
) -> Result<(), WriteFault> {
    let step = Step::Infer(Inference {
        constraint: 8,
        rule: Rule::Hall(2, -3),
        clause: Items::new(alloc),
    });
    writer.write(alloc, &step)?;
    writer.write(alloc, &Step::Solution(Items::new(alloc)))?;
    writer.finish(true)
}

/// Whether the next step is the inference.
fn has_hall(alloc: Global, reader: &mut Steps<'_>) -> bool {
    matches!(
        reader.next(alloc),
        Ok(Some(Step::Infer(Inference {
            constraint: 8,
            rule: Rule::Hall(2, -3),
            ..
        })))
    )
}

fn begins_with_hall(alloc: Global, bytes: &[u8]) -> bool {
    let mut reader = reader_of(alloc, cut_in(bytes, 4096, false));
    has_hall(alloc, &mut reader) && reader.counts() == Some((2, 8))
}

/// A certificate with these lines.
fn two_steps(alloc: Global) -> Result<Vec<u8>, WriteFault> {
    let mut text: Vec<u8> = Vec::new(alloc);
    let mut out = TrackedWriter::new(&mut text);
    let mut writer = match StepWriter::new(alloc, &mut out, 2, 8) {
        Ok(writer) => writer,
        Err(failed) => return Err(failed.fault),
    };
    write_two(alloc, &mut writer)?;
    let _ = writer;
    let _ = out;
    Ok(text)
}

#[test]
fn reads_what_was_written(rt: HostRuntime) -> Result<(), Fail> {
    let text = two_steps(rt.alloc())?;
    assert!(rt; is_read(rt.alloc(), &text, 4096, 2, true));
    assert!(rt; begins_with_hall(rt.alloc(), &text));
    Ok(())
}
