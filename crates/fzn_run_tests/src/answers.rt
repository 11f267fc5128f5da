// What a run tells of itself.
use crate::runs::{options_of, solve};
use fzn_options::Options;
use fzn_solver::{Report, Unobserved};
use std::alloc::{AllocError, Global};
use std::io;
use std::test::Fail;

/// What is wanted, at how many solutions to stop, and how many decisions may be made; a file, and the number of solutions with the ending; then the most decisions: the number of assignments less one, or the limit.
const REPORTS: &str = "
all none 9 | var bool: a; var bool: b; constraint bool_clause([a,b],[]); constraint bool_clause([],[a]); solve satisfy; | 1 Complete | 3
one none 9 | var bool: a; var bool: b; constraint bool_clause([a,b],[]); constraint bool_clause([],[a]); solve satisfy; | 1 SolutionLimit | 3
all none 0 | solve satisfy; | 1 Complete | 0
one none 0 | var 5..3: x; solve satisfy; | 0 Unsatisfiable | 0
all none 0 | var bool: a :: output_var; solve satisfy; | 0 NodeLimit | 0
all none 3 | var bool: a :: output_var; var bool: b; solve satisfy; | 2 Complete | 3
one none 10 | var 0..10: x :: output_var; constraint int_lin_le([-2],[x],-7); solve minimize x; | 1 Complete | 10
one none 3 | var 0..3: x :: output_var; solve :: int_search([x],input_order,indomain_min) maximize x; | 4 Complete | 3
one none 1 | var 0..3: x :: output_var; solve :: int_search([x],input_order,indomain_min) maximize x; | 1 NodeLimit | 1
all 2 3 | var bool: a :: output_var; var bool: b :: output_var; solve satisfy; | 2 SolutionLimit | 3
one 4 3 | var bool: a :: output_var; var bool: b :: output_var; solve satisfy; | 4 SolutionLimit | 3
one 5 3 | var bool: a :: output_var; var bool: b :: output_var; solve satisfy; | 4 Complete | 3
one 1 3 | var 0..3: x :: output_var; solve :: int_search([x],input_order,indomain_min) maximize x; | 4 Complete | 3
";

fn options_in(alloc: Global, words: &str) -> Option<Options> {
    let (wanted, rest) = words.split_once(' ')?;
    let (limit, nodes) = rest.split_once(' ')?;
    let mut options = options_of(alloc, wanted == "all", nodes.parse::<u64>().ok()?);
    options.limit = limit.parse::<u64>().ok();
    Some(options)
}

fn report_of(alloc: Global, words: &str, file: &str) -> Option<Report> {
    let options = options_in(alloc, words)?;
    solve(
        alloc,
        file.as_bytes(),
        &options,
        &mut io::sink(),
        &mut io::sink(),
        &mut Unobserved,
    )
    .ok()
}

fn is_told(alloc: Global, report: Report, told: &str, most: &str) -> Result<bool, AllocError> {
    let text = format!(in alloc; "{} {:?}", report.solutions, report.ending)?;
    let within = most.parse::<u64>().is_ok_and(|most| report.nodes <= most);
    Ok(text.as_str() == told && within)
}

/// Whether the report of a row is as the row tells.
fn is_as_told(alloc: Global, row: &str) -> Result<bool, Fail> {
    let (words, rest) = row.split_once(" | ").ok_or("a row has four columns")?;
    let (file, rest) = rest.split_once(" | ").ok_or("a row has four columns")?;
    let (told, most) = rest.split_once(" | ").ok_or("a row has four columns")?;
    let report = report_of(alloc, words, file).ok_or("a file that is answered")?;
    Ok(is_told(alloc, report, told, most)?)
}

#[test]
fn reports(rt: HostRuntime) -> Result<(), Fail> {
    assert!(rt; REPORTS.trim().lines().count() == 13);
    for row in REPORTS.trim().lines() {
        assert!(rt; is_as_told(rt.alloc(), row)?, "{row}");
    }
    Ok(())
}
