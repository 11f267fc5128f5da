// Two files with what is answered to them, and whether a run gives an answer.
use crate::runs::solve;
use fzn_options::Options;
use fzn_solver::Unobserved;
use std::alloc::Global;
use std::str::from_utf8;

/// One assignment is a solution.
pub(crate) const TWO_BOOLEANS: &str =
    "var bool: a :: output_var; var bool: b :: output_var; constraint bool_clause([a,b],[]); constraint bool_clause([],[a]); solve satisfy;";

/// What is answered to the two Booleans.
pub(crate) const ANSWER: &[u8] = b"a = false;\nb = true;\n----------\n==========\n";

/// The same without its ending.
pub(crate) const SOLUTION: &[u8] = b"a = false;\nb = true;\n----------\n";

/// The least x is 4.
pub(crate) const LEAST: &str =
    "var 0..10: x :: output_var; constraint int_lin_le([-2],[x],-7); solve minimize x;";

pub(crate) fn text_of(bytes: &[u8]) -> &str {
    from_utf8(bytes).unwrap_or("no text")
}

/// Whether a run gives this answer; its certificate goes behind what stands in `cert`.
pub(crate) fn is_answered(
    alloc: Global,
    file: &str,
    options: &Options,
    answer: &[u8],
    cert: &mut Vec<u8>,
) -> bool {
    let mut out: Vec<u8> = Vec::new(alloc);
    let report = solve(
        alloc,
        file.as_bytes(),
        options,
        &mut out,
        cert,
        &mut Unobserved,
    );
    report.is_ok() && out.as_slice() == answer
}
