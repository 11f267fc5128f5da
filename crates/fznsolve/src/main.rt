//! `fznsolve`: reads a FlatZinc file, prints its answer, and writes a certificate of it.
//!
//! In: the command line. Out: the answer on standard output and the certificate in its file, or one line on standard error, and the
//! status that goes with it; where it is asked for, also lines on standard error that tell how far the search has come. What is written
//! and when is proved on `run` of `fzn_solver`; here the paths are opened, that of the certificate only where it does not lead to a file
//! that is read.
#![tactic(auto)]

use crate::fault::Fault;
use crate::progress::{Counted, Teller};
use fzn_options::{Options, OptionsFault, options_of};
use fzn_paths::{CutFile, LateWriter, file_at, file_of, is_among};
use fzn_solver::{Report, RunFault, run};
use std::cell::Cell;
use std::env;
use std::fs::File;
use std::io::{BufWriter, Write, sink};
use std::process::ExitCode;

mod fault;
mod progress;

/// The certificate's file, which is cut to nothing by the first write.
type Certificate<'f> = LateWriter<&'f File, CutFile<'f>>;

fn main(rt: HostRuntime) -> ExitCode {
    let options = match options(&rt) {
        Ok(options) => options,
        Err(OptionsFault::Help(text)) => {
            let _ = print!(&rt; "{text}");
            return ExitCode::SUCCESS;
        }
        Err(fault) => {
            let _ = eprintln!(&rt; "{fault}");
            return ExitCode::from(fault.status());
        }
    };
    let bytes = Cell::new(0);
    let mut teller = Teller::new(&rt, options.progress, &bytes);
    let solved = solve_file(&rt, &options, &bytes, &mut teller);
    teller.tell_totals();
    match solved {
        Ok(report) => {
            teller.tell_hints(&report);
            ExitCode::SUCCESS
        }
        Err(fault) => {
            let _ = eprintln!(&rt; "{fault}");
            ExitCode::from(fault.status())
        }
    }
}

fn options(rt: &HostRuntime) -> Result<Options, OptionsFault> {
    let alloc = rt.alloc();
    let mut words: Vec<String> = Vec::new(alloc);
    for word in env::args(rt)?.skip(1) {
        if words.push(word).is_err() {
            return Err(OptionsFault::Memory);
        }
    }
    options_of(alloc, words.as_slice())
}

/// Opens the file, that of hints and that of the certificate, where these are wanted, and runs.
fn solve_file(
    rt: &HostRuntime,
    options: &Options,
    bytes: &Cell<u64>,
    teller: &mut Teller<'_>,
) -> Result<Report, Fault> {
    let Ok(model) = File::open(rt, options.model.as_str()) else {
        return Err(Fault::Run(RunFault::Read));
    };
    let hints = match &options.hints {
        None => None,
        Some(path) => teller.take_hints(path.as_str()),
    };
    let Some(path) = &options.cert else {
        return Ok(solve(rt, model, options, &mut sink(), teller)?);
    };
    if is_among(file_at(rt, path.as_str()), &[file_of(&model), hints]) {
        return Err(Fault::SameFile);
    }
    let Ok(file) = File::options()
        .write(true)
        .create(true)
        .open(rt, path.as_str())
    else {
        return Err(Fault::Run(RunFault::WriteCert));
    };
    let mut cert: Certificate<'_> = LateWriter::new(CutFile::new(&file));
    let solved = solve_certified(rt, model, options, &mut cert, bytes, teller);
    if let Err(fault) = &solved {
        settle(*fault, &mut cert);
    }
    Ok(solved?)
}

/// Runs with a certificate, whose bytes are counted.
fn solve_certified(
    rt: &HostRuntime,
    model: File,
    options: &Options,
    cert: &mut Certificate<'_>,
    bytes: &Cell<u64>,
    teller: &mut Teller<'_>,
) -> Result<Report, RunFault> {
    let Ok(cert) = BufWriter::new(rt.alloc(), cert) else {
        return Err(RunFault::Memory);
    };
    solve(rt, model, options, &mut Counted::new(cert, bytes), teller)
}

fn solve<C: Write>(
    rt: &HostRuntime,
    model: File,
    options: &Options,
    cert: &mut C,
    teller: &mut Teller<'_>,
) -> Result<Report, RunFault> {
    let alloc = rt.alloc();
    let Ok(mut out) = BufWriter::new(alloc, rt.stdout()) else {
        return Err(RunFault::Memory);
    };
    run(alloc, model, options, &mut out, cert, teller)
}

/// After a fault that is none of the file the certificate's file holds what the run has written, even where that is nothing. After the
/// others it is as it was.
fn settle(fault: RunFault, cert: &mut Certificate<'_>) {
    match fault {
        RunFault::File(_) | RunFault::Read => {}
        RunFault::Memory | RunFault::WriteOutput | RunFault::WriteCert | RunFault::StepTooLong => {
            let _ = cert.open();
        }
    }
}
