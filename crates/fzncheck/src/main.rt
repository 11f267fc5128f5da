//! `fzncheck`: reads a FlatZinc file and a certificate of its answer, and prints the answer that the certificate shows, or what is wrong.
//! It also prints the bound of an optimisation, the constraints that an answer rests on, or the items of a file, and writes certificates anew,
//! as version 2 or trimmed.
//!
//! In: the command line. Out: the answer on standard output, or one line on standard error, and the status that goes with it. What is
//! printed and when is proved on `check` and `to2` of `fzn_checker`, `bound` of `fzn_bound`, `trim` of `fzn_trim`, `core` of `fzn_core`, and
//! `items` of `fzn_items`; here the paths are opened. A new certificate is written to no file that is read, and its file is made by the first
//! write.
#![tactic(auto)]

use crate::fault::Fault;
use fzn_bound::bound;
use fzn_checker::{CheckFault, check, to2};
use fzn_core::core;
use fzn_items::items;
use fzn_options::{CheckOptions, OptionsFault, check_options_of};
use fzn_paths::{LateWriter, NewFile, file_at, file_of, is_among};
use fzn_trim::trim;
use std::env;
use std::fs::File;
use std::io::{BufWriter, Write};
use std::process::ExitCode;

mod fault;

/// The file of a new certificate, which is made by the first write.
type NewCertificate<'f> = LateWriter<File, NewFile<'f, HostRuntime>>;

fn main(rt: HostRuntime) -> ExitCode {
    let options = match options(&rt) {
        Ok(options) => options,
        Err(OptionsFault::Help(text)) => {
            let _ = print!(&rt; "{text}");
            return ExitCode::SUCCESS;
        }
        Err(fault) => {
            let _ = eprintln!(&rt; "{fault}");
            return ExitCode::from(fault.status());
        }
    };
    match act(&rt, &options) {
        Ok(_) => ExitCode::SUCCESS,
        Err(fault) => {
            let _ = eprintln!(&rt; "{fault}");
            ExitCode::from(fault.status())
        }
    }
}

fn options(rt: &HostRuntime) -> Result<CheckOptions, OptionsFault> {
    let alloc = rt.alloc();
    let mut words: Vec<String> = Vec::new(alloc);
    for word in env::args(rt)?.skip(1) {
        if words.push(word).is_err() {
            return Err(OptionsFault::Memory);
        }
    }
    check_options_of(alloc, words.as_slice())
}

fn act(rt: &HostRuntime, options: &CheckOptions) -> Result<(), Fault> {
    match options {
        CheckOptions::Check { all, model, cert } => {
            Ok(check_files(rt, *all, model.as_str(), cert.as_str())?)
        }
        CheckOptions::ToVersion2 { old, new } => convert_file(rt, old.as_str(), new.as_str()),
        CheckOptions::Trim { model, cert, new } => {
            trim_file(rt, model.as_str(), cert.as_str(), new.as_str())
        }
        CheckOptions::Core { model, cert } => Ok(list_core(rt, model.as_str(), cert.as_str())?),
        CheckOptions::Bound { all, model, cert } => {
            Ok(bound_files(rt, *all, model.as_str(), cert.as_str())?)
        }
        CheckOptions::Items { model } => Ok(list_items(rt, model.as_str())?),
    }
}

/// Opens the file and its certificate, in this order, and checks them.
fn check_files(rt: &HostRuntime, all: bool, model: &str, cert: &str) -> Result<(), CheckFault> {
    let alloc = rt.alloc();
    let Ok(model) = File::open(rt, model) else {
        return Err(CheckFault::Read);
    };
    let Ok(cert) = File::open(rt, cert) else {
        return Err(CheckFault::Read);
    };
    let Ok(mut out) = BufWriter::new(alloc, rt.stdout()) else {
        return Err(CheckFault::Memory);
    };
    check(alloc, model, cert, all, &mut out)?;
    Ok(())
}

/// Opens the file and its certificate, in this order, checks them and prints the answer with the bound of its objective.
fn bound_files(rt: &HostRuntime, all: bool, model: &str, cert: &str) -> Result<(), CheckFault> {
    let alloc = rt.alloc();
    let Ok(model) = File::open(rt, model) else {
        return Err(CheckFault::Read);
    };
    let Ok(cert) = File::open(rt, cert) else {
        return Err(CheckFault::Read);
    };
    let Ok(mut out) = BufWriter::new(alloc, rt.stdout()) else {
        return Err(CheckFault::Memory);
    };
    bound(alloc, model, cert, all, &mut out)?;
    Ok(())
}

/// Opens the certificate, and writes it anew.
fn convert_file(rt: &HostRuntime, old: &str, new: &str) -> Result<(), Fault> {
    let alloc = rt.alloc();
    let Ok(old) = File::open(rt, old) else {
        return Err(Fault::Check(CheckFault::Read));
    };
    if is_among(file_at(rt, new), &[file_of(&old)]) {
        return Err(Fault::SameFile);
    }
    let new: NewCertificate<'_> = LateWriter::new(NewFile::new(rt, new));
    let Ok(mut new) = BufWriter::new(alloc, new) else {
        return Err(Fault::Check(CheckFault::Memory));
    };
    to2(alloc, old, &mut new)?;
    Ok(())
}

/// Opens the file and its certificate, in this order, checks them and writes the trimmed one.
fn trim_file(rt: &HostRuntime, model: &str, cert: &str, new: &str) -> Result<(), Fault> {
    let alloc = rt.alloc();
    let Ok(model) = File::open(rt, model) else {
        return Err(Fault::Check(CheckFault::Read));
    };
    let Ok(cert) = File::open(rt, cert) else {
        return Err(Fault::Check(CheckFault::Read));
    };
    if is_among(file_at(rt, new), &[file_of(&model), file_of(&cert)]) {
        return Err(Fault::SameFile);
    }
    let new: NewCertificate<'_> = LateWriter::new(NewFile::new(rt, new));
    let Ok(mut new) = BufWriter::new(alloc, new) else {
        return Err(Fault::Check(CheckFault::Memory));
    };
    trim(alloc, model, cert, &mut new)?;
    Ok(())
}

/// Opens the file and its certificate, in this order, checks them and prints the core of the answer.
fn list_core(rt: &HostRuntime, model: &str, cert: &str) -> Result<(), CheckFault> {
    let alloc = rt.alloc();
    let Ok(model) = File::open(rt, model) else {
        return Err(CheckFault::Read);
    };
    let Ok(cert) = File::open(rt, cert) else {
        return Err(CheckFault::Read);
    };
    let Ok(mut out) = BufWriter::new(alloc, rt.stdout()) else {
        return Err(CheckFault::Memory);
    };
    core(alloc, model, cert, &mut out)?;
    Ok(())
}

/// Opens the file, and prints its items.
fn list_items(rt: &HostRuntime, model: &str) -> Result<(), CheckFault> {
    let alloc = rt.alloc();
    let Ok(model) = File::open(rt, model) else {
        return Err(CheckFault::Read);
    };
    let Ok(mut out) = BufWriter::new(alloc, rt.stdout()) else {
        return Err(CheckFault::Memory);
    };
    items(alloc, model, &mut out)?;
    Ok(())
}
