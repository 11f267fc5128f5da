// Solutions and the end of an answer on a writer.
ghost use Rattle.std.specs.Prelude.{◌≡◌, ◌≢◌, true, false, length, IfErr, OnOk, OnErr, Err};
ghost use Rattle.std.specs.Io.KnownBytes.{Appends, Keeps};
ghost use Rattle.fzn_streams.specs.Output.{AppendsFront};
ghost use Rattle.fzn_meaning.specs.Solutions.{IsAssignment};
ghost use Rattle.fzn_printer.specs.Showable.{CanBeShown};
ghost use Rattle.fzn_printer.specs.Shown.{shown, ending_text, is_closed};
ghost use Rattle.fzn_printer.specs.Printer.{out_contents, out_stream, out_failed, out_name, is_open, has_printed};

use crate::item::put_solution;
use fzn_fault::Stop;
use fzn_meaning::Model;
use fzn_streams::{TrackedWrite, put};
use thiserror::Error;

/// Why an answer ends.
#[derive(Clone, Copy, Debug, PartialEq, Eq)]
pub enum Ending {
    /// Every solution that was asked for was found.
    Complete,
    /// There is no solution.
    Unsatisfiable,
    /// As many decisions were made as the node limit says.
    NodeLimit,
    /// As many solutions as were asked for were found.
    SolutionLimit,
}

impl Ending {
    /// Whether nothing is left to find.
    pub fn is_closed(self) -> bool
        ensures { result ≡ is_closed self }
    {
        match self {
            Ending::Complete | Ending::Unsatisfiable => true,
            Ending::NodeLimit | Ending::SolutionLimit => false,
        }
    }
}

/// Why nothing more is printed.
#[derive(Clone, Copy, Debug, PartialEq, Eq, Error)]
pub enum PrintFault {
    /// A write or a flush failed, or a write took no byte.
    #[error("{}", Stop::WriteOutput)]
    Write,
    /// A call after a fault, or after the end was printed.
    #[error("failed before")]
    Failed,
}

/// Prints an answer, solution by solution. It takes no memory.
#[derive(Drop)]
pub struct Printer<'w, W: TrackedWrite> {
    out: &'w mut W,
    printed: bool,
    open: bool,
}

impl<'w, W: TrackedWrite> Printer<'w, W> {
    /// Over this writer, with nothing printed.
    pub fn new(out: &'w mut W) -> Printer<'w, W>
        ensures same { out_contents W.contents result ≡ W.contents out.old }
        ensures same_stream { out_stream W.stream result ≡ W.stream out.old }
        ensures same_writer { out_name result ≡ out.entry.ghost_name }
        ensures fresh { (is_open result ≡ true) × (has_printed result ≡ false) }
    {
        Printer {
            out,
            printed: false,
            open: true,
        }
    }

    /// Prints the lines of the marked declarations, and ten dashes. It answers `Write` only where a write failed, so that a beginning of
    /// the lines stands, and `Failed` after a fault or `close`, where nothing is printed.
    pub fn solution(&mut self, model: &Model, values: &[i64]) -> Result<(), PrintFault>
        requires model { CanBeShown model.now }
        requires assignment { IsAssignment model.now values.now }
        ensures written { OnOk result (Appends (out_contents W.contents self.old) (out_contents W.contents self.new) (shown model.now values.now)) }
        ensures ok { OnOk result ((is_open self.new ≡ true) × (has_printed self.new ≡ true)) }

        // After a failed write a beginning of the text stands, and any later call answers `Failed`.
        ensures front { OnErr result (AppendsFront (out_contents W.contents self.old) (out_contents W.contents self.new) (shown model.now values.now)) }
        ensures err { OnErr result (is_open self.new ≡ false) }
        ensures same_stream { out_stream W.stream self.new ≡ out_stream W.stream self.old }
        ensures same_writer { out_name self.new ≡ out_name self.old }
        ensures due { is_open self.old ≡ true → OnErr result (out_failed W.has_failed self.new ≡ true) }
        ensures failed { is_open self.old ≡ false → (result ≡ Err PrintFault.Failed) × Keeps (out_contents W.contents self.old) (out_contents W.contents self.new) }
        ensures failed_only { is_open self.old ≡ true → result ≢ Err PrintFault.Failed }
    {
        if !self.open {
            return Err(PrintFault::Failed);
        }
        self.open = false;
        if put_solution(self.out, model, values).is_err() {
            return Err(PrintFault::Write);
        }
        self.printed = true;
        self.open = true;
        Ok(())
    }

    /// Flushes the writer below. It answers `Write` only where the flush failed, and `Failed` after a fault or `close`.
    pub fn flush(&mut self) -> Result<(), PrintFault>
        ensures kept { Keeps (out_contents W.contents self.old) (out_contents W.contents self.new) }
        ensures ok { OnOk result ((is_open self.new ≡ true) × (has_printed self.new ≡ has_printed self.old)) }
        ensures err { OnErr result (is_open self.new ≡ false) }
        ensures same_stream { out_stream W.stream self.new ≡ out_stream W.stream self.old }
        ensures same_writer { out_name self.new ≡ out_name self.old }
        ensures due { is_open self.old ≡ true → OnErr result (out_failed W.has_failed self.new ≡ true) }
        ensures failed { is_open self.old ≡ false → result ≡ Err PrintFault.Failed }
        ensures failed_only { is_open self.old ≡ true → result ≢ Err PrintFault.Failed }
    {
        if !self.open {
            return Err(PrintFault::Failed);
        }
        if self.out.flush_all().is_err() {
            self.open = false;
            return Err(PrintFault::Write);
        }
        Ok(())
    }

    /// Prints the line that ends the answer, if it has one, and flushes the writer below. It answers `Write` only where a write or the
    /// flush failed, and `Failed` after a fault or an earlier `close`. Any later call answers `Failed`.
    pub fn close(&mut self, ending: Ending) -> Result<(), PrintFault>
        ensures written { OnOk result (Appends (out_contents W.contents self.old) (out_contents W.contents self.new) (ending_text (is_closed ending) (has_printed self.old))) }
        ensures front { OnErr result (AppendsFront (out_contents W.contents self.old) (out_contents W.contents self.new) (ending_text (is_closed ending) (has_printed self.old))) }
        ensures shut { is_open self.new ≡ false }
        ensures same_stream { out_stream W.stream self.new ≡ out_stream W.stream self.old }
        ensures same_writer { out_name self.new ≡ out_name self.old }
        ensures due { is_open self.old ≡ true → OnErr result (out_failed W.has_failed self.new ≡ true) }
        ensures failed { is_open self.old ≡ false → (result ≡ Err PrintFault.Failed) × Keeps (out_contents W.contents self.old) (out_contents W.contents self.new) }
        ensures failed_only { is_open self.old ≡ true → result ≢ Err PrintFault.Failed }
    {
        if !self.open {
            return Err(PrintFault::Failed);
        }
        self.open = false;
        let line = ending_line(ending.is_closed(), self.printed);
        if put(self.out, line).is_err() {
            return Err(PrintFault::Write);
        }
        if self.out.flush_all().is_err() {
            return Err(PrintFault::Write);
        }
        Ok(())
    }
}

pub fn ending_line(closed: bool, printed: bool) -> &'static [u8]
    ensures { result.now ≡ ending_text closed printed }
{
    match (closed, printed) {
        (true, true) => b"==========\n",
        (true, false) => b"=====UNSATISFIABLE=====\n",
        (false, true) => b"",
        (false, false) => b"=====UNKNOWN=====\n",
    }
}
