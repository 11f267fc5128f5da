ghost use Rattle.std.specs.Prelude.{◌≡◌, ◌∷◌, [], IfOk};
ghost use Rattle.std.specs.List.{AllByRecursion};
ghost use Rattle.fzn_cert.specs.declared.step.Version.TheVariants.{Two};
ghost use Rattle.fzn_cert.specs.Spelling.{IsNumber, IsSpelled};
ghost use Rattle.fzn_cert.specs.Writer.{version_of};

use fzn_cert::{
    FaultKind, Inference, Refusal, Step, StepWriter, Version, WriteFault, one_line, one_verdict,
};
use fzn_domain::{Lit, Memory, Op, VarId};
use fzn_list::Items;
use fzn_rules::Rule;
use fzn_streams::TrackedWriter;
use std::alloc::Global;
use std::io;
use std::io::Write;
use std::test::*;

// Takes three bytes a call up to `room`, and then fails or takes none.
#[derive(Drop)]
pub(crate) struct Narrow {
    pub(crate) taken: Vec<u8>,
    pub(crate) room: usize,
    pub(crate) fails: bool,
}

impl Write for Narrow {
    fn write(&mut self, buf: &[u8]) -> io::Result<usize> {
        let count = buf.len().min(3).min(self.room);
        if count == 0 && self.fails {
            return Err(io::ErrorKind::Other.into());
        }
        self.taken.extend_from_slice(&buf[..count])?;
        self.room = self.room.saturating_sub(count);
        Ok(count)
    }

    fn flush(&mut self) -> io::Result<()> {
        Ok(())
    }
}

pub(crate) fn with_room(alloc: Global, room: usize, fails: bool) -> Narrow {
    Narrow {
        taken: Vec::new(alloc),
        room,
        fails,
    }
}

fn is_told(alloc: Global) -> Result<bool, Memory> {
    let text = format!(in alloc;
        "{} / {} / {}",
        FaultKind::Spelling,
        Refusal::NoSuchVariable,
        WriteFault::Write
    )?;
    Ok(text.as_str() == "fault 31 Spelling / fault 49 NoSuchVariable / fault 22 WriteCert")
}

#[test]
fn tells_its_laws_and_faults(rt: HostRuntime) -> Result<(), Fail> {
    assert!(rt; (one_line(), one_verdict()) == ((), ()));
    assert!(rt; is_told(rt.alloc())?);
    Ok(())
}

fn items_of<T: Drop>(alloc: Global, first: T, second: T) -> Result<Items<T>, Memory>
    ensures { IfOk result (λ items. items ≡ first ∷ second ∷ []) }
{
    let mut items = Items::new(alloc);
    items.push(first)?;
    items.push(second)?;
    Ok(items)
}

#[tactic(auto, unfolding(fzn_cert::specs::Spelling::Rises))]
fn cut_step(alloc: Global) -> Result<Step, Memory>
    ensures { IfOk result (IsSpelled Two) }
{
    let lit = Lit {
        var: VarId(2),
        op: Op::NotEqual,
        value: -1_000_000_001,
    };
    let clause = items_of(alloc, lit, lit)?;
    let hints = items_of(alloc, -4_000_000_000i64, 1i64)?;
    Ok(Step::Infer(Inference {
        constraint: 7,
        rule: Rule::Cut(hints),
        clause,
    }))
}

#[tactic(auto, unfolding(fzn_cert::specs::Spelling::IdsRise))]
fn delete_step(alloc: Global) -> Result<Step, Memory>
    ensures { IfOk result (IsSpelled Two) }
{
    let ids = items_of(alloc, 1u64, 2u64)?;
    Ok(Step::Delete { ids })
}

fn hall_step(alloc: Global) -> Step
    ensures { IsSpelled Two result }
{
    Step::Infer(Inference {
        constraint: 8,
        rule: Rule::Hall(2, -3),
        clause: Items::new(alloc),
    })
}

fn solution_step(alloc: Global) -> Result<Step, Memory>
    ensures { IfOk result (IsSpelled Two) }
{
    Ok(Step::Solution(items_of(alloc, 0i64, 4i64)?))
}

fn resolve_step(alloc: Global) -> Result<Step, Memory>
    ensures { IfOk result (IsSpelled Two) }
{
    Ok(Step::Resolve {
        clause: Items::new(alloc),
        ids: items_of(alloc, 1u64, 1u64)?,
    })
}

/// What a certificate of version 2 with a step of each kind has.
pub(crate) const LINES: &[u8] =
    b"fzc 2\nvars 2 cons 1\ni 7 cut -4000000000 1 ; 2!=-1000000001 2!=-1000000001\ni 8 hall 2 -3 ;\ns 0 4\nr ; 1 1\nd 1 2\ne closed\n";

/// Writes the step, where there is memory for it.
fn put(
    alloc: Global,
    writer: &mut StepWriter<'_, TrackedWriter<'_, Narrow>>,
    step: Result<Step, Memory>,
) -> Result<(), WriteFault>
    requires version { version_of writer.old ≡ Two }
    requires step { IfOk step (IsSpelled Two) }
    ensures { version_of writer.new ≡ Two }
{
    writer.write(alloc, &step?)
}

fn write_steps(
    alloc: Global,
    writer: &mut StepWriter<'_, TrackedWriter<'_, Narrow>>,
) -> Result<(), WriteFault>
    requires { version_of writer.old ≡ Two }
{
    put(alloc, writer, cut_step(alloc))?;
    put(alloc, writer, Ok(hall_step(alloc)))?;
    put(alloc, writer, solution_step(alloc))?;
    writer.flush()?;
    put(alloc, writer, resolve_step(alloc))?;
    put(alloc, writer, delete_step(alloc))?;
    writer.finish(true)
}

// Writes one step of each kind.
fn write_all(alloc: Global, out: &mut Narrow) -> Result<(), WriteFault> {
    let mut out = TrackedWriter::new(out);
    let mut writer = StepWriter::over(&mut out);
    writer.begin(alloc, Version::Two, 2, 1)?;
    write_steps(alloc, &mut writer)
}

/// Whether the lines are written, or with less room a beginning of them.
fn is_written(alloc: Global, room: usize, fails: bool) -> bool {
    let mut out = with_room(alloc, room, fails);
    let is_right = match write_all(alloc, &mut out) {
        Ok(()) => room == LINES.len(),
        Err(fault) => room != LINES.len() && fault == WriteFault::Write,
    };
    is_right && out.taken.len() == room && LINES.starts_with(&out.taken)
}

#[test]
fn writes_the_lines_or_a_beginning(rt: HostRuntime) {
    for room in 0..LINES.len() + 1 {
        assert!(rt; is_written(rt.alloc(), room, false), "room {room}");
        assert!(rt; is_written(rt.alloc(), room, true), "room {room}");
    }
}

/// Whether of three solutions one is written, the next fails, and each call fails from then on.
fn is_shut(alloc: Global, writer: &mut StepWriter<'_, TrackedWriter<'_, Narrow>>) -> bool {
    let step = Step::Solution(Items::new(alloc));
    writer.write(alloc, &step) == Ok(())
        && writer.write(alloc, &step) == Err(WriteFault::Write)
        && writer.write(alloc, &step) == Err(WriteFault::Failed)
        && writer.flush() == Err(WriteFault::Failed)
        && writer.finish(true) == Err(WriteFault::Failed)
}

fn is_shut_by_a_fault(alloc: Global) -> Result<bool, WriteFault> {
    let mut narrow = with_room(alloc, 23, true);
    let mut out = TrackedWriter::new(&mut narrow);
    let mut writer = match StepWriter::with_version(alloc, &mut out, Version::One, 0, 0) {
        Ok(writer) => writer,
        Err(failed) => return Err(failed.fault),
    };
    let is_shut = is_shut(alloc, &mut writer);
    let _ = writer;
    let _ = out;
    Ok(is_shut && narrow.taken.as_slice() == b"fzc 1\nvars 0 cons 0\ns\ns".as_slice())
}

#[test]
fn writes_nothing_after_a_fault(rt: HostRuntime) -> Result<(), Fail> {
    assert!(rt; is_shut_by_a_fault(rt.alloc())?);
    Ok(())
}

/// Whether with room for seven bytes the first two lines are not written, and a call on the writer fails from then on.
fn is_not_begun(alloc: Global) -> bool {
    let mut narrow = with_room(alloc, 7, true);
    let mut out = TrackedWriter::new(&mut narrow);
    let is_shut = match StepWriter::new(alloc, &mut out, 0, 0) {
        Ok(_) => false,
        Err(mut failed) => failed.fault == WriteFault::Write
            && failed.writer.flush() == Err(WriteFault::Failed),
    };
    let _ = out;
    is_shut && narrow.taken.as_slice() == b"fzc 1\nv".as_slice()
}

#[test]
fn leaves_a_beginning_where_it_can_not_begin(rt: HostRuntime) {
    assert!(rt; is_not_begun(rt.alloc()));
}

fn ones(alloc: Global, count: u32) -> Result<Items<u64>, Memory>
    ensures { IfOk result (AllByRecursion IsNumber) }
{
    let mut ids = Items::new(alloc);
    for _ in 0..count {
        ids.push(1)?;
    }
    Ok(ids)
}

/// Writes a step with so many ids, and says how many bytes stand then where it is written or is too long.
fn written(alloc: Global, count: u32, is_short: bool) -> Result<usize, WriteFault> {
    let mut text: Vec<u8> = Vec::new(alloc);
    let mut out = TrackedWriter::new(&mut text);
    let mut writer = match StepWriter::new(alloc, &mut out, 1, 1) {
        Ok(writer) => writer,
        Err(failed) => return Err(failed.fault),
    };
    let step = Step::Resolve {
        clause: Items::new(alloc),
        ids: ones(alloc, count)?,
    };
    let written = writer.write(alloc, &step);
    let _ = writer;
    let _ = out;
    let want = if is_short {
        Ok(())
    } else {
        Err(WriteFault::StepTooLong)
    };
    if written == want {
        Ok(text.len())
    } else {
        Err(WriteFault::Failed)
    }
}

#[test]
fn the_longest_lines(rt: HostRuntime) -> Result<(), Fail> {
    assert!(rt; written(rt.alloc(), 2_097_150, true)? == 20 + 4_194_304);
    assert!(rt; written(rt.alloc(), 2_097_151, false)? == 20);
    Ok(())
}
