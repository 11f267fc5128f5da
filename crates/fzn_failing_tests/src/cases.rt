// Each call on a stream fails in turn, or moves one byte less: `run`, `check`, `trim`, `core`, `items` and `bound` say so, and what was written
// is a beginning of what is written else. Where nothing fails nothing changes.
use fzn_options::Options;
use fzn_run_tests::{options_of, solve};
use fzn_solver::{RunFault, Unobserved};
use fzn_strategy::Learn;
use std::alloc::Global;
use std::io::{Read, Write};
use std::str::from_utf8;
use std::test::Fail;

const FILES: [&str; 5] = [
    "var bool: a :: output_var; var bool: b :: output_var; constraint bool_clause([a,b],[]); constraint bool_clause([],[a]); solve satisfy;",
    "var 0..10: x :: output_var; constraint int_lin_le([-2],[x],-7); solve minimize x;",
    "var 0..3: p; var 0..3: q; var 0..3: t; constraint fzn_cumulative([p,q,t],[2,2,2],[2,2,2],3); solve satisfy;",
    "var 0..4: p; var 0..4: q; var 0..4: t; var 0..20: end :: output_var; constraint fzn_cumulative([p,q,t],[2,2,2],[2,2,2],3); constraint int_lin_le([1,-1],[p,end],-2); constraint int_lin_le([1,-1],[q,end],-2); constraint int_lin_le([1,-1],[t,end],-2); solve minimize end;",
    "var 0..3: x :: output_var; var 0..3: y :: output_var; constraint int_ne(x,y); solve satisfy;",
];

/// Each file with and without all solutions, in both ways of learning.
pub(crate) const CASES: usize = 4 * FILES.len();

const DASHES: &str = "----------\n";

/// A file, options, and what a run writes where nothing fails.
#[derive(Drop)]
pub(crate) struct Case {
    pub(crate) file: &'static str,
    pub(crate) options: Options,
    pub(crate) out: Vec<u8>,
    pub(crate) cert: Vec<u8>,
}

/// The options of a case.
fn options_for(alloc: Global, number: usize) -> Options {
    let mut options = options_of(alloc, number % 2 == 0, 1_000);
    if number % 4 >= 2 {
        options.learn = Learn::Plain;
    }
    options
}

pub(crate) fn case_of(alloc: Global, number: usize) -> Result<Case, Fail> {
    let file = FILES[number / 4 % FILES.len()];
    let mut case = Case {
        file,
        options: options_for(alloc, number),
        out: Vec::new(alloc),
        cert: Vec::new(alloc),
    };
    match write_ample(alloc, &mut case) {
        None => Ok(case),
        Some(_) => Err("a fault")?,
    }
}

fn write_ample(alloc: Global, case: &mut Case) -> Option<RunFault> {
    let Case {
        file,
        options,
        out,
        cert,
    } = case;
    fault_of(alloc, file.as_bytes(), options, out, cert)
}

/// The fault of a run.
pub(crate) fn fault_of<R: Read + Drop, W: Write, C: Write>(
    alloc: Global,
    file: R,
    options: &Options,
    out: &mut W,
    cert: &mut C,
) -> Option<RunFault> {
    solve(alloc, file, options, out, cert, &mut Unobserved).err()
}

/// What came of a call that was to go wrong.
#[derive(Clone, Copy, Debug, PartialEq, Eq)]
pub(crate) enum Trial {
    AsPromised,
    Otherwise,
    /// There are no so many calls, and nothing went wrong.
    NoSuchCall,
}

pub(crate) fn trial_of(is_reached: bool, is_promised: bool) -> Trial {
    match (is_reached, is_promised) {
        (_, false) => Trial::Otherwise,
        (true, true) => Trial::AsPromised,
        (false, true) => Trial::NoSuchCall,
    }
}

/// How many of these bytes' lines are solutions of a certificate; the last line counts where it is whole.
pub(crate) fn given(cert: &[u8]) -> usize {
    let text = from_utf8(cert).unwrap_or("");
    let (lines, _) = text.rsplit_once("\n").unwrap_or(("", ""));
    lines.lines().filter(|line| line.starts_with("s")).count()
}

/// How many solutions and endings are begun in an answer.
pub(crate) fn begun(out: &[u8]) -> usize {
    let text = from_utf8(out).unwrap_or(DASHES);
    text.split(DASHES).filter(|part| !part.is_empty()).count()
}
