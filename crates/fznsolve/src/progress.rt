// Lines for people at a terminal: how far the search has come. And the hints that the search is given.
ghost use Rattle.std.specs.Prelude.{Some};

use fzn_domain::Memory;
use fzn_hints::{Hints, MOST};
use fzn_list::Items;
use fzn_paths::{FileId, file_of};
use fzn_solver::{Observer, Progress, Report};
use std::alloc::Global;
use std::cell::Cell;
use std::fs::{File, OpenFile};
use std::io;
use std::io::Write;
use std::time::{Duration, Instant};

/// How many milliseconds it is at least from one line to the next.
const PAUSE: u64 = 500;

/// Tells on standard error how far a run has come, where that is wanted. A fault of the clock or of a write is passed over.
#[derive(Drop)]
pub struct Teller<'r> {
    rt: &'r HostRuntime,
    is_wanted: bool,
    start: Option<Instant>,
    /// How long after the start the next line may come.
    next: Duration,
    last: Progress,
    /// How many bytes of certificate were written.
    bytes: &'r Cell<u64>,
    /// Whether a file of hints was named, and what is read of it, if it can be.
    has_hints: bool,
    hints: Option<Hints<File>>,
}

impl<'r> Teller<'r> {
    /// Nothing was told yet. The clock starts now, where the lines are wanted; `bytes` is read for each line.
    pub fn new(rt: &'r HostRuntime, is_wanted: bool, bytes: &'r Cell<u64>) -> Teller<'r> {
        Teller {
            rt,
            is_wanted,
            start: if is_wanted {
                Instant::now(rt).ok()
            } else {
                None
            },
            next: Duration::from_millis(PAUSE),
            last: Progress {
                nodes: 0,
                conflicts: 0,
                inferences: 0,
                solutions: 0,
                best: None,
            },
            bytes,
            has_hints: false,
            hints: None,
        }
    }

    /// From now on the solutions in the file of this path are hints, and it is told which file that is. A path that leads to no regular
    /// file, or to one of more than 16,777,216 bytes, is passed over, and counts as one hint that is.
    pub fn take_hints(&mut self, path: &str) -> Option<FileId> {
        self.has_hints = true;
        let Ok(file) = File::open(self.rt, path) else {
            return None;
        };
        let id = file_of(&file)?;
        let Ok(metadata) = file.metadata() else {
            return None;
        };
        if metadata.len() <= MOST as u64 {
            self.hints = Some(Hints::new(self.rt.alloc(), file));
        }
        Some(id)
    }

    /// How long it is since the start, where the clock tells.
    fn elapsed(&self) -> Option<Duration> {
        match &self.start {
            Some(start) => start.elapsed(self.rt).ok(),
            None => None,
        }
    }

    /// The last line: what was told last.
    pub fn tell_totals(&self) {
        if self.is_wanted {
            self.write_line("in all ", self.elapsed().unwrap_or(Duration::ZERO));
        }
    }

    /// How many hints the run took and how many it passed over, where there were to be any.
    pub fn tell_hints(&self, report: &Report) {
        if self.is_wanted && self.has_hints {
            let wrong = match &self.hints {
                None => 1,
                Some(hints) => hints.wrong(),
            };
            let taken = report.hints_taken;
            let passed_over = report.hints_passed_over.saturating_add(wrong);
            let _ = eprintln!(self.rt; "{taken} hints taken, {passed_over} passed over");
        }
    }

    fn write_line(&self, first: &str, elapsed: Duration) {
        let Progress {
            nodes,
            conflicts,
            inferences,
            solutions,
            best,
        } = self.last;
        let seconds = elapsed.as_secs();
        let tenths = elapsed.subsec_millis() / 100;
        let bytes = self.bytes.get();
        let _ = match best {
            Some(best) => eprintln!(self.rt;
                "{first}{seconds}.{tenths} s, {nodes} nodes, {conflicts} conflicts, {inferences} inferences, {solutions} solutions, best {best}, {bytes} bytes of certificate"
            ),
            None => eprintln!(self.rt;
                "{first}{seconds}.{tenths} s, {nodes} nodes, {conflicts} conflicts, {inferences} inferences, {solutions} solutions, {bytes} bytes of certificate"
            ),
        };
    }
}

impl Observer for Teller<'_> {
    ghost nodes = { λ teller. Some teller.last.nodes };

    fn tell(&mut self, progress: Progress) {
        self.last = progress;
        let Some(elapsed) = self.elapsed() else {
            return;
        };
        if elapsed >= self.next {
            self.next = elapsed.saturating_add(Duration::from_millis(PAUSE));
            self.write_line("", elapsed);
        }
    }

    fn hint(&mut self, alloc: Global) -> Result<Option<Items<i64>>, Memory> {
        match &mut self.hints {
            None => Ok(None),
            Some(hints) => hints.next(alloc),
        }
    }
}

/// Counts the bytes that the writer takes.
#[derive(Drop)]
pub struct Counted<'b, W: Write> {
    inner: W,
    bytes: &'b Cell<u64>,
}

impl<'b, W: Write> Counted<'b, W> {
    /// A writer over this one, whose bytes are added to the count.
    pub fn new(inner: W, bytes: &'b Cell<u64>) -> Counted<'b, W> {
        Counted { inner, bytes }
    }
}

impl<W: Write> Write for Counted<'_, W> {
    ghost contents = { λ counted. W.contents counted.inner };

    fn write(&mut self, buf: &[u8]) -> io::Result<usize> {
        let count = self.inner.write(buf)?;
        self.bytes
            .set(self.bytes.get().saturating_add(count as u64));
        Ok(count)
    }

    fn flush(&mut self) -> io::Result<()> {
        self.inner.flush()
    }
}
