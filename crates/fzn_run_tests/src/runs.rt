// The options of a run, and the call.
use fzn_options::Options;
use fzn_solver::{Observer, Report, RunFault, run};
use fzn_strategy::{Learn, Parameters};
use std::alloc::Global;
use std::io::{Read, Write};

/// Options by which all solutions or one are wanted, and so many decisions may be made; what else there is as without words.
pub fn options_of(alloc: Global, all: bool, nodes: u64) -> Options {
    Options {
        all,
        limit: None,
        free: false,
        derive: false,
        seed: None,
        nodes,
        learn: Learn::First,
        restart_after: 100,
        keep: 2_000,
        parameters: Parameters::default(),
        progress: false,
        model: String::new(alloc),
        cert: None,
        hints: None,
    }
}

/// A run, whatever it reads and writes.
pub fn solve<R: Read + Drop, W: Write, C: Write, P: Observer>(
    alloc: Global,
    file: R,
    options: &Options,
    out: &mut W,
    cert: &mut C,
    observer: &mut P,
) -> Result<Report, RunFault> {
    run(alloc, file, options, out, cert, observer)
}
