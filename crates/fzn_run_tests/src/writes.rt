use crate::files::{ANSWER, LEAST, SOLUTION, TWO_BOOLEANS, is_answered, text_of};
use crate::runs::{options_of, solve};
use fzn_options::Options;
use fzn_solver::{RunFault, Unobserved};
use std::alloc::Global;
use std::cell::RefCell;
use std::io;
use std::io::Write;
use std::test::Fail;

/// Takes three bytes a call up to `room`, and then fails or takes none; fails after so many flushes.
#[derive(Drop)]
struct Narrow {
    taken: Vec<u8>,
    room: usize,
    fails: bool,
    flushes: u8,
}

fn with_room(alloc: Global, room: usize, fails: bool, flushes: u8) -> Narrow {
    Narrow {
        taken: Vec::new(alloc),
        room,
        fails,
        flushes,
    }
}

impl Write for Narrow {
    fn write(&mut self, buf: &[u8]) -> io::Result<usize> {
        let count = buf.len().min(3).min(self.room);
        if count == 0 && self.fails {
            return Err(io::ErrorKind::Other.into());
        }
        self.taken.extend_from_slice(&buf[..count])?;
        self.room = self.room.saturating_sub(count);
        Ok(count)
    }

    fn flush(&mut self) -> io::Result<()> {
        if self.flushes == 0 {
            return Err(io::ErrorKind::Other.into());
        }
        self.flushes = self.flushes.saturating_sub(1);
        Ok(())
    }
}

/// The fault of a run on the file of two Booleans.
fn fault_of<W: Write, C: Write>(
    alloc: Global,
    options: &Options,
    out: &mut W,
    cert: &mut C,
) -> Option<RunFault> {
    solve(
        alloc,
        TWO_BOOLEANS.as_bytes(),
        options,
        out,
        cert,
        &mut Unobserved,
    )
    .err()
}

/// Whether the bytes are the first so many of the text.
fn is_front(bytes: &[u8], text: &[u8], count: usize) -> bool {
    bytes.len() == count && text.starts_with(bytes)
}

/// Whether a beginning of the certificate stands that has the solution, and all of it where it is to be whole.
fn has_solution(cert: &[u8], whole: &[u8], is_whole: bool) -> bool {
    let is_front = is_front(cert, whole, cert.len());
    is_front && text_of(cert).contains("\ns 0 1\n") && (cert.len() == whole.len()) == is_whole
}

/// Whether a run with so much room for its answer fails behind the line of the solution.
fn is_answer_cut(alloc: Global, options: &Options, whole: &[u8], room: usize, fails: bool) -> bool {
    let mut out = with_room(alloc, room, fails, 9);
    let mut cert: Vec<u8> = Vec::new(alloc);
    let fault = fault_of(alloc, options, &mut out, &mut cert);
    fault == Some(RunFault::WriteOutput)
        && is_front(&out.taken, ANSWER, room)
        && has_solution(&cert, whole, room >= SOLUTION.len())
}

/// Whether a run with so much room for its certificate fails, with an answer only behind the line of the solution.
fn is_certificate_cut(
    alloc: Global,
    options: &Options,
    whole: &[u8],
    room: usize,
    fails: bool,
) -> bool {
    let mut out: Vec<u8> = Vec::new(alloc);
    let mut cert = with_room(alloc, room, fails, 9);
    let fault = fault_of(alloc, options, &mut out, &mut cert);
    let shown = text_of(&cert.taken).contains("\ns 0 1\n");
    let want = if shown { SOLUTION } else { b"".as_slice() };
    fault == Some(RunFault::WriteCert)
        && is_front(&cert.taken, whole, room)
        && out.as_slice() == want
}

/// The whole certificate.
fn whole_of(alloc: Global, options: &Options) -> Result<Vec<u8>, Fail> {
    let mut cert: Vec<u8> = Vec::new(alloc);
    if is_answered(alloc, TWO_BOOLEANS, options, ANSWER, &mut cert) {
        Ok(cert)
    } else {
        Err("another answer")?
    }
}

#[test]
fn failed_writes_of_the_answer(rt: HostRuntime) -> Result<(), Fail> {
    let alloc = rt.alloc();
    let options = options_of(alloc, true, 9);
    let whole = whole_of(alloc, &options)?;
    for room in 0..ANSWER.len() {
        let is_right = is_answer_cut(alloc, &options, &whole, room, false)
            && is_answer_cut(alloc, &options, &whole, room, true);
        assert!(rt; is_right, "room {room}");
    }
    Ok(())
}

#[test]
fn failed_writes_of_the_certificate(rt: HostRuntime) -> Result<(), Fail> {
    let alloc = rt.alloc();
    let options = options_of(alloc, true, 9);
    let whole = whole_of(alloc, &options)?;
    for room in 0..whole.len() {
        let is_right = is_certificate_cut(alloc, &options, &whole, room, false)
            && is_certificate_cut(alloc, &options, &whole, room, true);
        assert!(rt; is_right, "room {room}");
    }
    Ok(())
}

/// Whether a run of which so many flushes of the answer and of the certificate succeed has this fault, and prints this.
fn is_unflushed(
    alloc: Global,
    options: &Options,
    answers: u8,
    certs: u8,
    fault: RunFault,
    want: &[u8],
) -> bool {
    let mut out = with_room(alloc, 1000, true, answers);
    let mut cert = with_room(alloc, 1000, true, certs);
    let found = fault_of(alloc, options, &mut out, &mut cert);
    found == Some(fault) && out.taken.as_slice() == want
}

#[test]
fn failed_flushes(rt: HostRuntime) -> Result<(), Fail> {
    let alloc = rt.alloc();
    let options = options_of(alloc, true, 9);
    assert!(rt; is_unflushed(alloc, &options, 9, 0, RunFault::WriteCert, b""));
    assert!(rt; is_unflushed(alloc, &options, 9, 1, RunFault::WriteCert, SOLUTION));
    assert!(rt; is_unflushed(alloc, &options, 0, 9, RunFault::WriteOutput, SOLUTION));
    assert!(rt; is_unflushed(alloc, &options, 1, 9, RunFault::WriteOutput, ANSWER));
    Ok(())
}

/// Writes into a list that it shares, and its name at each flush.
#[derive(Drop)]
struct Shared<'a> {
    all: &'a RefCell<Vec<u8>>,
    name: &'static str,
}

impl Shared<'_> {
    fn add(&self, bytes: &[u8]) -> io::Result<()> {
        match self.all.try_borrow_mut() {
            Ok(mut all) => Ok(all.extend_from_slice(bytes)?),
            Err(_) => Err(io::ErrorKind::Other.into()),
        }
    }
}

impl Write for Shared<'_> {
    fn write(&mut self, buf: &[u8]) -> io::Result<usize> {
        self.add(buf)?;
        Ok(buf.len())
    }

    fn flush(&mut self) -> io::Result<()> {
        self.add(self.name.as_bytes())
    }
}

/// Whether a run that writes all into this list ends well.
fn is_written(alloc: Global, options: &Options, file: &str, all: &RefCell<Vec<u8>>) -> bool {
    let mut out = Shared { all, name: "<out>" };
    let mut cert = Shared {
        all,
        name: "<cert>",
    };
    solve(
        alloc,
        file.as_bytes(),
        options,
        &mut out,
        &mut cert,
        &mut Unobserved,
    )
    .is_ok()
}

/// What a run writes and flushes, in order.
fn calls_of(alloc: Global, all: bool, file: &str) -> Result<Vec<u8>, Fail> {
    let options = options_of(alloc, all, 1_000);
    let calls: RefCell<Vec<u8>> = RefCell::new(Vec::new(alloc));
    if is_written(alloc, &options, file, &calls) {
        Ok(calls.into_inner())
    } else {
        Err("a fault")?
    }
}

/// Whether these calls are among those of a run, and these are the last.
fn is_in_order(
    alloc: Global,
    all: bool,
    file: &str,
    solution: &str,
    end: &str,
) -> Result<bool, Fail> {
    let calls = calls_of(alloc, all, file)?;
    Ok(text_of(&calls).contains(solution) && text_of(&calls).ends_with(end))
}

#[test]
fn certificate_before_answer(rt: HostRuntime) -> Result<(), Fail> {
    assert!(rt;
        is_in_order(
            rt.alloc(),
            true,
            TWO_BOOLEANS,
            "\ns 0 1\n<cert>a = false;\nb = true;\n----------\n<out>",
            "\ne closed\n<cert>==========\n<out>",
        )?
    );
    assert!(rt;
        is_in_order(
            rt.alloc(),
            true,
            LEAST,
            "\ns 4\n<cert>x = 4;\n----------\n<out>",
            "\ne closed\n<cert>==========\n<out>",
        )?
    );
    assert!(rt;
        is_in_order(
            rt.alloc(),
            false,
            LEAST,
            "\ns 4\n<cert>i ",
            "\ne closed\n<cert>x = 4;\n----------\n==========\n<out>",
        )?
    );
    Ok(())
}

/// Twelve solutions.
const TWELVE: &str =
    "var 0..3: x :: output_var; var 0..3: y :: output_var; constraint int_ne(x,y); solve satisfy;";

/// Whether a solution is shown right behind the flush of its line: `..s X Y<cert>x = X;y = Y;----------`, with line feeds.
fn is_behind_its_line(alloc: Global, calls: &str) -> Result<bool, Fail> {
    let (written, shown) = calls.rsplit_once("<cert>").ok_or("no flush")?;
    let (_, line) = written.rsplit_once("\ns ").ok_or("no solution")?;
    let (x, y) = line.trim().split_once(' ').ok_or("two values")?;
    let wanted = format!(in alloc; "x = {x};\ny = {y};\n----------\n")?;
    Ok(shown == wanted.as_str() && line.ends_with("\n"))
}

/// How many solutions are shown, each in a flush of its own; none where one is not behind its line.
fn count_behind_lines(alloc: Global, calls: &str) -> Result<usize, Fail> {
    let mut count = 0usize;
    for part in calls.split("<out>") {
        if part.contains("x = ") {
            if !is_behind_its_line(alloc, part)? {
                return Ok(0);
            }
            count = count.saturating_add(1);
        }
    }
    Ok(count)
}

#[test]
fn each_solution_behind_its_line(rt: HostRuntime) -> Result<(), Fail> {
    let calls = calls_of(rt.alloc(), true, TWELVE)?;
    assert!(rt; count_behind_lines(rt.alloc(), text_of(&calls))? == 12);
    assert!(rt; text_of(&calls).ends_with("\ne closed\n<cert>==========\n<out>"));
    Ok(())
}
