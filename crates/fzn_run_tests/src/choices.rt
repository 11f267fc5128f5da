// Options that steer a search: each test fails where one of them is passed over.
use crate::files::{is_answered, text_of};
use crate::runs::options_of;
use std::alloc::Global;
use std::test::Fail;

/// A number that is minimised, of which the annotation tries the greatest value first.
const GREATEST: &str =
    "var 0..3: x :: output_var; solve :: int_search([x], input_order, indomain_max) minimize x;";

/// One of two is true: the one that is decided last.
const ONE_OF_TWO: &str =
    "var bool: a :: output_var; var bool: b; constraint bool_clause([a,b],[]); solve satisfy;";

/// Six different numbers of five: some 150 conflicts.
const DIFFERENT: &str =
    "var 1..5: a; var 1..5: b; var 1..5: c; var 1..5: d; var 1..5: e; var 1..5: f; constraint int_ne(a,b); constraint int_ne(a,c); constraint int_ne(a,d); constraint int_ne(a,e); constraint int_ne(a,f); constraint int_ne(b,c); constraint int_ne(b,d); constraint int_ne(b,e); constraint int_ne(b,f); constraint int_ne(c,d); constraint int_ne(c,e); constraint int_ne(c,f); constraint int_ne(d,e); constraint int_ne(d,f); constraint int_ne(e,f); solve satisfy;";

const NO_ANSWER: &[u8] = b"=====UNSATISFIABLE=====\n";

/// Whether a run of one decision that follows annotations, or is free of them, gives this answer.
fn is_greatest(alloc: Global, free: bool, answer: &[u8]) -> bool {
    let mut options = options_of(alloc, false, 1);
    options.free = free;
    let mut cert: Vec<u8> = Vec::new(alloc);
    is_answered(alloc, GREATEST, &options, answer, &mut cert)
}

#[test]
fn a_free_search_takes_the_cheapest_value(rt: HostRuntime) {
    assert!(rt; is_greatest(rt.alloc(), false, b"x = 3;\n----------\n".as_slice()));
    assert!(rt;
        is_greatest(
            rt.alloc(),
            true,
            b"x = 0;\n----------\n==========\n".as_slice()
        )
    );
}

/// With how many of ten seeds a run gives this answer.
fn count_seeds(alloc: Global, answer: &[u8]) -> u64 {
    let mut count = 0u64;
    for seed in 0..10 {
        let mut options = options_of(alloc, false, 100);
        options.seed = Some(seed);
        let mut cert: Vec<u8> = Vec::new(alloc);
        if is_answered(alloc, ONE_OF_TWO, &options, answer, &mut cert) {
            count = count.saturating_add(1);
        }
    }
    count
}

#[test]
fn a_seed_breaks_ties(rt: HostRuntime) {
    assert!(rt; count_seeds(rt.alloc(), b"a = false;\n----------\n".as_slice()) > 0);
    assert!(rt; count_seeds(rt.alloc(), b"a = true;\n----------\n".as_slice()) > 0);
}

/// How many steps of a certificate delete others.
fn count_deletions(certificate: &str) -> u64 {
    let mut count = 0u64;
    for line in certificate.lines() {
        if line.starts_with("d ") {
            count = count.saturating_add(1);
        }
    }
    count
}

/// How many steps delete others where the search first restarts after so many conflicts, and a restart keeps so many learned clauses.
fn deletions(alloc: Global, restart_after: u64, keep: u64) -> Result<u64, Fail> {
    let mut options = options_of(alloc, false, 10_000_000);
    options.restart_after = restart_after;
    options.keep = keep;
    let mut cert: Vec<u8> = Vec::new(alloc);
    if is_answered(alloc, DIFFERENT, &options, NO_ANSWER, &mut cert) {
        Ok(count_deletions(text_of(&cert)))
    } else {
        Err("another answer")?
    }
}

#[test]
fn a_restart_keeps_so_many_clauses(rt: HostRuntime) -> Result<(), Fail> {
    let none = deletions(rt.alloc(), 10, 0)?;
    let fifty = deletions(rt.alloc(), 10, 50)?;
    assert!(rt;
        none > fifty && fifty > 0,
        "{none} with none and {fifty} with fifty"
    );
    assert_eq!(rt; deletions(rt.alloc(), 10, 2_000)?, 0);
    Ok(())
}

#[test]
fn a_restart_comes_after_so_many_conflicts(rt: HostRuntime) -> Result<(), Fail> {
    let often = deletions(rt.alloc(), 10, 0)?;
    let seldom = deletions(rt.alloc(), 100, 0)?;
    assert!(rt;
        often > seldom && seldom > 0,
        "{often} after 10 and {seldom} after 100"
    );
    assert_eq!(rt; deletions(rt.alloc(), 1_000_000_000, 0)?, 0);
    Ok(())
}
