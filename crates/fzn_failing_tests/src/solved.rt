// The calls of `run`.
use crate::cases::{CASES, Case, Trial, begun, case_of, fault_of, given, trial_of};
use fzn_checker_tests::{Calls, Flaw, Sink, Source};
use fzn_solver::RunFault;
use std::alloc::Global;
use std::test::Fail;

/// Whether these are the bytes of a run in which nothing failed.
fn is_whole(case: &Case, out: &[u8], cert: &[u8]) -> bool {
    out == case.out.as_slice() && cert == case.cert.as_slice()
}

/// Whether an optimisation prints its last solution alone.
fn prints_last(case: &Case) -> bool {
    !case.options.all && case.file.contains("minimize")
}

/// Whether so much of the answer may stand beside the certificate. The ending stands beside a finished one alone.
fn may_stand(case: &Case, out: &[u8], cert: &[u8], is_finished: bool) -> bool {
    let is_beginning = case.out.starts_with(out) && case.cert.starts_with(cert);
    let is_shown = !prints_last(case) && begun(out) <= given(cert);
    is_beginning && (out.is_empty() || is_finished || is_shown)
}

/// What came of a run, and what stands.
#[derive(Clone, Copy)]
struct Ran<'a> {
    fault: Option<RunFault>,
    out: &'a [u8],
    cert: &'a [u8],
}

/// Whether the run is whole, or a call of the writer of the answer failed and the run says so.
fn is_right_for_out(case: &Case, calls: &Calls, ran: &Ran<'_>) -> bool {
    let is_finished = ran.cert.len() == case.cert.len();
    match ran.fault {
        None => !calls.has_failed() && is_whole(case, ran.out, ran.cert),
        Some(RunFault::WriteOutput) => {
            calls.has_failed() && may_stand(case, ran.out, ran.cert, is_finished)
        }
        Some(_) => false,
    }
}

/// Whether the run is whole, or a call of the writer of the certificate failed and the run says so.
fn is_right_for_cert(case: &Case, calls: &Calls, ran: &Ran<'_>) -> bool {
    match ran.fault {
        None => !calls.has_failed() && is_whole(case, ran.out, ran.cert),
        Some(RunFault::WriteCert) => {
            calls.has_failed() && may_stand(case, ran.out, ran.cert, false)
        }
        Some(_) => false,
    }
}

/// Runs a case over two writers.
fn fault_over(
    alloc: Global,
    case: &Case,
    out: &mut Sink<'_>,
    cert: &mut Sink<'_>,
) -> Option<RunFault> {
    fault_of(alloc, case.file.as_bytes(), &case.options, out, cert)
}

/// A run in which one call of the writer of the answer goes wrong.
fn with_out(alloc: Global, case: &Case, flaw: Flaw, at: u64) -> Trial {
    let (calls, sound) = (Calls::with(flaw, at), Calls::sound());
    let mut out = Sink::new(alloc, usize::MAX, &calls);
    let mut cert = Sink::new(alloc, usize::MAX, &sound);
    let ran = Ran {
        fault: fault_over(alloc, case, &mut out, &mut cert),
        out: &out.taken,
        cert: &cert.taken,
    };
    let is_promised = !calls.is_late() && is_right_for_out(case, &calls, &ran);
    trial_of(calls.is_reached(), is_promised)
}

/// A run in which one call of the writer of the certificate goes wrong.
fn with_cert(alloc: Global, case: &Case, flaw: Flaw, at: u64) -> Trial {
    let (calls, sound) = (Calls::with(flaw, at), Calls::sound());
    let mut out = Sink::new(alloc, usize::MAX, &sound);
    let mut cert = Sink::new(alloc, usize::MAX, &calls);
    let ran = Ran {
        fault: fault_over(alloc, case, &mut out, &mut cert),
        out: &out.taken,
        cert: &cert.taken,
    };
    let is_promised = !calls.is_late() && is_right_for_cert(case, &calls, &ran);
    trial_of(calls.is_reached(), is_promised)
}

/// Whether all is as promised, whichever call of the writer of the answer goes wrong.
fn is_promised_for_out(alloc: Global, case: &Case, flaw: Flaw) -> bool {
    for at in 0..10_000 {
        match with_out(alloc, case, flaw, at) {
            Trial::AsPromised => {}
            Trial::Otherwise => return false,
            Trial::NoSuchCall => return at > 0,
        }
    }
    false
}

/// Whether all is as promised, whichever call of the writer of the certificate goes wrong.
fn is_promised_for_cert(alloc: Global, case: &Case, flaw: Flaw) -> bool {
    for at in 0..10_000 {
        match with_cert(alloc, case, flaw, at) {
            Trial::AsPromised => {}
            Trial::Otherwise => return false,
            Trial::NoSuchCall => return at > 0,
        }
    }
    false
}

const FLAWS: [Flaw; 3] = [Flaw::Fails, Flaw::TakesNone, Flaw::OneLess];

#[test]
fn writes_of_the_answer(rt: HostRuntime) -> Result<(), Fail> {
    for number in 0..CASES {
        let case = case_of(rt.alloc(), number)?;
        for flaw in FLAWS {
            assert!(rt;
                is_promised_for_out(rt.alloc(), &case, flaw),
                "case {number}, {flaw:?}"
            );
        }
    }
    Ok(())
}

#[test]
fn writes_of_the_certificate(rt: HostRuntime) -> Result<(), Fail> {
    for number in 0..CASES {
        let case = case_of(rt.alloc(), number)?;
        for flaw in FLAWS {
            assert!(rt;
                is_promised_for_cert(rt.alloc(), &case, flaw),
                "case {number}, {flaw:?}"
            );
        }
    }
    Ok(())
}

/// Whether the run is whole, or a read failed, the run says so and wrote nothing.
fn is_right_for_file(case: &Case, calls: &Calls, written: u64, ran: &Ran<'_>) -> bool {
    match ran.fault {
        None => !calls.has_failed() && is_whole(case, ran.out, ran.cert),
        Some(RunFault::Read) => calls.has_failed() && written == 0,
        Some(_) => false,
    }
}

/// A run in which one read of the file, each of so many bytes at most, goes wrong.
fn with_file(alloc: Global, case: &Case, most: usize, flaw: Flaw, at: u64) -> Trial {
    let (calls, sound) = (Calls::with(flaw, at), Calls::sound());
    let mut out = Sink::new(alloc, usize::MAX, &sound);
    let mut cert = Sink::new(alloc, usize::MAX, &sound);
    let file = Source::new(case.file.as_bytes(), most, &calls);
    let ran = Ran {
        fault: fault_of(alloc, file, &case.options, &mut out, &mut cert),
        out: &out.taken,
        cert: &cert.taken,
    };
    let is_promised = !calls.is_late() && is_right_for_file(case, &calls, sound.count(), &ran);
    trial_of(calls.is_reached(), is_promised)
}

/// Whether all is as promised, whichever read of the file goes wrong.
fn is_promised_for_file(alloc: Global, case: &Case, most: usize, flaw: Flaw) -> bool {
    for at in 0..10_000 {
        match with_file(alloc, case, most, flaw, at) {
            Trial::AsPromised => {}
            Trial::Otherwise => return false,
            Trial::NoSuchCall => return at > 0,
        }
    }
    false
}

#[test]
fn reads_of_the_file(rt: HostRuntime) -> Result<(), Fail> {
    for number in 0..CASES {
        let case = case_of(rt.alloc(), number)?;
        for most in [7, 4096] {
            for flaw in [Flaw::Fails, Flaw::OneLess] {
                assert!(rt;
                    is_promised_for_file(rt.alloc(), &case, most, flaw),
                    "case {number}, {most} bytes a read, {flaw:?}"
                );
            }
        }
    }
    Ok(())
}

/// Whether a run that reads and writes a byte a call is whole.
fn is_same_by_bytes(alloc: Global, case: &Case) -> bool {
    let sound = Calls::sound();
    let mut out = Sink::new(alloc, 1, &sound);
    let mut cert = Sink::new(alloc, 1, &sound);
    let file = Source::new(case.file.as_bytes(), 1, &sound);
    let fault = fault_of(alloc, file, &case.options, &mut out, &mut cert);
    fault.is_none() && is_whole(case, &out.taken, &cert.taken)
}

#[test]
fn one_byte_a_call(rt: HostRuntime) -> Result<(), Fail> {
    for number in 0..CASES {
        let case = case_of(rt.alloc(), number)?;
        assert!(rt; is_same_by_bytes(rt.alloc(), &case), "case {number}");
    }
    Ok(())
}
