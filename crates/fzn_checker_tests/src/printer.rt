ghost use Rattle.std.specs.Prelude.{IfOk, OnOk};
ghost use Rattle.fzn_meaning.specs.Solutions.{IsProper};
ghost use Rattle.fzn_meaning.specs.WellFormed.{IsWellFormed};
ghost use Rattle.fzn_printer.specs.Showable.{CanBeShown};

use crate::checker::least_bit;
use fzn_cert_reader::StepReader;
use fzn_checker::{CheckFault, Held, hold_certificate};
use fzn_meaning::{Model, is_solution};
use fzn_printer::{Ending, PrintFault, Printer, put_answer, well_formed_can_be_shown};
use fzn_streams::{TrackedReader, TrackedWriter};
use std::alloc::Global;
use std::test::Fail;

/// Whether an answer without a solution is this line.
fn is_ended(alloc: Global, ending: Ending, line: &[u8]) -> bool {
    let mut text: Vec<u8> = Vec::new(alloc);
    let mut out = TrackedWriter::new(&mut text);
    let is_closed = Printer::new(&mut out).close(ending).is_ok();
    let _ = out;
    is_closed && text.as_slice() == line
}

#[test]
fn endings_without_a_solution(rt: HostRuntime) {
    assert!(rt;
        is_ended(
            rt.alloc(),
            Ending::Unsatisfiable,
            b"=====UNSATISFIABLE=====\n"
        )
    );
    assert!(rt; is_ended(rt.alloc(), Ending::NodeLimit, b"=====UNKNOWN=====\n"));
}

/// Whether nothing is printed after the end.
fn is_shut(alloc: Global) -> bool {
    let mut text: Vec<u8> = Vec::new(alloc);
    let mut out = TrackedWriter::new(&mut text);
    let mut printer = Printer::new(&mut out);
    let is_closed = printer.flush().is_ok() && printer.close(Ending::NodeLimit).is_ok();
    is_closed && printer.close(Ending::Complete) == Err(PrintFault::Failed)
}

#[test]
fn nothing_after_the_end(rt: HostRuntime) {
    assert!(rt; is_shut(rt.alloc()));
}

#[test]
fn closed_endings(rt: HostRuntime) {
    assert!(rt; Ending::Complete.is_closed() && Ending::Unsatisfiable.is_closed());
    assert!(rt; !Ending::NodeLimit.is_closed() && !Ending::SolutionLimit.is_closed());
}

/// Prints the solution 1 and the end, and says whether all is printed.
fn prints_one(model: &Model, text: &mut Vec<u8>) -> bool
    requires { IsWellFormed model.now }
{
    if !is_solution(model, &[1]) {
        return false;
    }
    let mut out = TrackedWriter::new(text);
    let mut printer = Printer::new(&mut out);
    printer.solution(model, &[1]).is_ok() && printer.close(Ending::Complete).is_ok()
}

#[test]
fn one_solution(rt: HostRuntime) -> Result<(), Fail> {
    let model = least_bit(rt.alloc())?;
    let mut text: Vec<u8> = Vec::new(rt.alloc());
    assert!(rt; prints_one(&model, &mut text));
    assert!(rt; text.as_slice() == b"x = 1;\n----------\n==========\n".as_slice());
    Ok(())
}

/// The solution 1, and then 0.
fn both(alloc: Global, model: &mut Model) -> Result<Held, CheckFault>
    requires { IsWellFormed model.old }
    ensures formed { OnOk result (IsWellFormed model.new) }
    ensures proper { IfOk result (λ answer. IsProper model.new answer.solutions.items) }
{
    let certificate = b"fzc 1\nvars 1 cons 0\ns 1\ns 0\ne open\n".as_slice();
    let mut reader = StepReader::new(alloc, TrackedReader::new(certificate));
    hold_certificate(alloc, model, &mut reader)
}

/// Prints the last of the solutions, and then all of them and the end; says whether all is printed.
fn prints_both(model: &Model, answer: &Held, text: &mut Vec<u8>) -> bool
    requires model { CanBeShown model.now }
    requires answer { IsProper model.now answer.now.solutions.items }
{
    let mut out = TrackedWriter::new(text);
    put_answer(&mut out, model, answer.solutions.as_slice(), false, false).is_ok()
        && put_answer(&mut out, model, answer.solutions.as_slice(), true, true).is_ok()
}

#[test]
fn what_is_well_formed_can_be_shown(rt: HostRuntime) {
    assert!(rt; well_formed_can_be_shown() == ());
}

const BOTH: &[u8] = b"x = 0;\n----------\nx = 1;\n----------\nx = 0;\n----------\n==========\n";

#[test]
fn answers_of_two_solutions(rt: HostRuntime) -> Result<(), Fail> {
    let mut model = least_bit(rt.alloc())?;
    let answer = both(rt.alloc(), &mut model)?;
    let mut text: Vec<u8> = Vec::new(rt.alloc());
    assert!(rt; prints_both(&model, &answer, &mut text));
    assert!(rt; text.as_slice() == BOTH);
    Ok(())
}
