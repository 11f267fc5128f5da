// The calls of `check`, of `trim`, of `core`, of `items` and of `bound`.
use crate::cases::{CASES, Case, Trial, case_of, trial_of};
use fzn_bound::bound;
use fzn_checker::{CheckFault, check};
use fzn_checker_tests::{Calls, Flaw, Sink, Source};
use fzn_core::core;
use fzn_items::items;
use fzn_trim::trim;
use std::alloc::Global;
use std::io::{Read, Write};
use std::test::Fail;

/// What is asked of the file and the certificate of a case.
#[derive(Clone, Copy, Debug, PartialEq, Eq)]
enum Asked {
    /// The answer, with each solution or not.
    Check(bool),
    Trim,
    Core,
    Items,
    /// The answer and what is known of the objective, with each solution or not.
    Bound(bool),
}

/// What is asked of a case, and what is written where nothing fails.
#[derive(Drop)]
struct Question {
    case: Case,
    asked: Asked,
    wanted: Vec<u8>,
}

/// The questions of a case: the answer, the certificate trimmed, the core, the items of the file, and the answer with the bound.
const QUESTIONS: usize = 5;

fn asked_of(case: &Case, number: usize) -> Asked {
    match number {
        0 => Asked::Check(case.options.all),
        1 => Asked::Trim,
        2 => Asked::Core,
        3 => Asked::Items,
        _ => Asked::Bound(case.options.all),
    }
}

fn question_of(alloc: Global, case: usize, number: usize) -> Result<Question, Fail> {
    let case = case_of(alloc, case)?;
    let asked = asked_of(&case, number);
    let mut wanted: Vec<u8> = Vec::new(alloc);
    if fault_of(
        alloc,
        case.file.as_bytes(),
        case.cert.as_slice(),
        asked,
        &mut wanted,
    )
    .is_some()
    {
        return Err("a fault")?;
    }
    if number == 0 && wanted.as_slice() != case.out.as_slice() {
        return Err("another answer")?;
    }
    Ok(Question {
        case,
        asked,
        wanted,
    })
}

/// The fault of a call on the file and the certificate of a case, however they are read and its text is written.
fn fault_of<R: Read + Drop, C: Read + Drop, W: Write>(
    alloc: Global,
    file: R,
    cert: C,
    asked: Asked,
    out: &mut W,
) -> Option<CheckFault> {
    match asked {
        Asked::Check(all) => check(alloc, file, cert, all, out).err(),
        Asked::Trim => trim(alloc, file, cert, out).err(),
        Asked::Core => core(alloc, file, cert, out).err(),
        Asked::Items => items(alloc, file, out).err(),
        Asked::Bound(all) => bound(alloc, file, cert, all, out).err(),
    }
}

/// Streams of which one call goes wrong, and how many bytes a call moves at most.
#[derive(Clone, Copy)]
struct Streams<'a> {
    file: &'a Calls,
    cert: &'a Calls,
    out: &'a Calls,
    most: usize,
}

/// Asks over these streams; what is written goes behind what stands in `printed`.
fn fault_over(
    alloc: Global,
    question: &Question,
    streams: &Streams<'_>,
    printed: &mut Vec<u8>,
) -> Option<CheckFault> {
    let file = Source::new(question.case.file.as_bytes(), streams.most, streams.file);
    let cert = Source::new(&question.case.cert, streams.most, streams.cert);
    let mut out = Sink::new(alloc, streams.most, streams.out);
    let fault = fault_of(alloc, file, cert, question.asked, &mut out);
    match printed.extend_from_slice(&out.taken) {
        Ok(()) => fault,
        Err(_) => Some(CheckFault::Memory),
    }
}

/// Whether the text is whole, or a call of its writer failed, the fault is that, and a beginning of the text stands.
fn is_right_for_out(
    question: &Question,
    calls: &Calls,
    fault: Option<CheckFault>,
    printed: &[u8],
) -> bool {
    match fault {
        None => !calls.has_failed() && printed == question.wanted.as_slice(),
        Some(CheckFault::WriteOutput) => {
            question.asked != Asked::Trim
                && calls.has_failed()
                && question.wanted.starts_with(printed)
        }
        Some(CheckFault::WriteCert) => {
            question.asked == Asked::Trim
                && calls.has_failed()
                && question.wanted.starts_with(printed)
        }
        Some(_) => false,
    }
}

/// Whether the text is whole, or a read failed, the fault is that, and the writer was not called.
fn is_right_for_reads(
    question: &Question,
    calls: &Calls,
    fault: Option<CheckFault>,
    printed: &[u8],
    writes: u64,
) -> bool {
    match fault {
        None => !calls.has_failed() && printed == question.wanted.as_slice(),
        Some(CheckFault::Read) => calls.has_failed() && writes == 0,
        Some(_) => false,
    }
}

/// A call in which one call of the writer goes wrong.
fn with_out(alloc: Global, question: &Question, flaw: Flaw, at: u64) -> Trial {
    let (calls, sound) = (Calls::with(flaw, at), Calls::sound());
    let streams = Streams {
        file: &sound,
        cert: &sound,
        out: &calls,
        most: usize::MAX,
    };
    let mut printed: Vec<u8> = Vec::new(alloc);
    let fault = fault_over(alloc, question, &streams, &mut printed);
    let is_promised = !calls.is_late() && is_right_for_out(question, &calls, fault, &printed);
    trial_of(calls.is_reached(), is_promised)
}

/// A call in which one read of the file, or else of the certificate, goes wrong.
fn with_read(
    alloc: Global,
    question: &Question,
    most: usize,
    is_of_file: bool,
    flaw: Flaw,
    at: u64,
) -> Trial {
    let (calls, sound, writes) = (Calls::with(flaw, at), Calls::sound(), Calls::sound());
    let streams = Streams {
        file: if is_of_file { &calls } else { &sound },
        cert: if is_of_file { &sound } else { &calls },
        out: &writes,
        most,
    };
    let mut printed: Vec<u8> = Vec::new(alloc);
    let fault = fault_over(alloc, question, &streams, &mut printed);
    let is_right = is_right_for_reads(question, &calls, fault, &printed, writes.count());
    trial_of(calls.is_reached(), !calls.is_late() && is_right)
}

/// Whether all is as promised, whichever call of the writer goes wrong.
fn is_promised_for_out(alloc: Global, question: &Question, flaw: Flaw) -> bool {
    for at in 0..10_000 {
        match with_out(alloc, question, flaw, at) {
            Trial::AsPromised => {}
            Trial::Otherwise => return false,
            Trial::NoSuchCall => return at > 0,
        }
    }
    false
}

/// Whether all is as promised, whichever read goes wrong.
fn is_promised_for_reads(
    alloc: Global,
    question: &Question,
    most: usize,
    is_of_file: bool,
    flaw: Flaw,
) -> bool {
    for at in 0..10_000 {
        match with_read(alloc, question, most, is_of_file, flaw, at) {
            Trial::AsPromised => {}
            Trial::Otherwise => return false,
            Trial::NoSuchCall => return at > 0,
        }
    }
    false
}

/// Whether all is as promised, whichever call of the writer fails, takes no byte or one less.
fn are_writes_promised(alloc: Global, question: &Question) -> bool {
    is_promised_for_out(alloc, question, Flaw::Fails)
        && is_promised_for_out(alloc, question, Flaw::TakesNone)
        && is_promised_for_out(alloc, question, Flaw::OneLess)
}

#[test]
fn writes(rt: HostRuntime) -> Result<(), Fail> {
    for number in 0..CASES * QUESTIONS {
        let question = question_of(rt.alloc(), number / QUESTIONS, number % QUESTIONS)?;
        assert!(rt;
            are_writes_promised(rt.alloc(), &question),
            "question {number}"
        );
    }
    Ok(())
}

/// Whether all is as promised, whichever read of the file or of the certificate fails, or gives one byte less. For its items no certificate
/// is read.
fn are_reads_promised(alloc: Global, question: &Question, most: usize) -> bool {
    is_promised_for_reads(alloc, question, most, true, Flaw::Fails)
        && is_promised_for_reads(alloc, question, most, true, Flaw::OneLess)
        && (question.asked == Asked::Items
            || is_promised_for_reads(alloc, question, most, false, Flaw::Fails)
                && is_promised_for_reads(alloc, question, most, false, Flaw::OneLess))
}

/// The reads of one question of each case, so many bytes each at most.
fn are_all_reads_promised(alloc: Global, number: usize) -> Result<bool, Fail> {
    for case in 0..CASES {
        let question = question_of(alloc, case, number)?;
        if !are_reads_promised(alloc, &question, 7) || !are_reads_promised(alloc, &question, 4096) {
            return Ok(false);
        }
    }
    Ok(true)
}

#[test]
fn reads_for_the_answer(rt: HostRuntime) -> Result<(), Fail> {
    assert!(rt; are_all_reads_promised(rt.alloc(), 0)?);
    Ok(())
}

#[test]
fn reads_for_trimming(rt: HostRuntime) -> Result<(), Fail> {
    assert!(rt; are_all_reads_promised(rt.alloc(), 1)?);
    Ok(())
}

#[test]
fn reads_for_the_items(rt: HostRuntime) -> Result<(), Fail> {
    assert!(rt; are_all_reads_promised(rt.alloc(), 3)?);
    Ok(())
}

#[test]
fn reads_for_the_core(rt: HostRuntime) -> Result<(), Fail> {
    assert!(rt; are_all_reads_promised(rt.alloc(), 2)?);
    Ok(())
}

#[test]
fn reads_for_the_bound(rt: HostRuntime) -> Result<(), Fail> {
    assert!(rt; are_all_reads_promised(rt.alloc(), 4)?);
    Ok(())
}

/// Whether a call that reads and writes a byte a call writes the same.
fn is_same_by_bytes(alloc: Global, question: &Question) -> bool {
    let sound = Calls::sound();
    let streams = Streams {
        file: &sound,
        cert: &sound,
        out: &sound,
        most: 1,
    };
    let mut printed: Vec<u8> = Vec::new(alloc);
    let fault = fault_over(alloc, question, &streams, &mut printed);
    fault.is_none() && printed.as_slice() == question.wanted.as_slice()
}

#[test]
fn one_byte_a_call(rt: HostRuntime) -> Result<(), Fail> {
    for number in 0..CASES * QUESTIONS {
        let question = question_of(rt.alloc(), number / QUESTIONS, number % QUESTIONS)?;
        assert!(rt;
            is_same_by_bytes(rt.alloc(), &question),
            "question {number}"
        );
    }
    Ok(())
}
