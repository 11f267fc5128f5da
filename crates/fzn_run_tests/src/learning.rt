// Runs that restart after each conflict, and keep no learned clause but the newest.
use crate::files::{is_answered, text_of};
use crate::runs::{options_of, solve};
use fzn_checker::check;
use fzn_options::Options;
use fzn_solver::Unobserved;
use fzn_strategy::Learn;
use std::alloc::Global;
use std::test::Fail;

/// x, or a and b however they are: not all of these.
const FOUR_CLAUSES: &str =
    "var bool: x; var bool: a; var bool: b; constraint bool_clause([x,a,b],[]); constraint bool_clause([x,a],[b]); constraint bool_clause([x,b],[a]); constraint bool_clause([x],[a,b]); solve :: bool_search([x,a,b], input_order, indomain_min) satisfy;";

/// a, with u before it.
const ONE_LITERAL: &str =
    "var bool: u; var bool: a; var bool: b; constraint bool_clause([a,b],[]); constraint bool_clause([a],[b]); solve :: bool_search([u,a,b], input_order, indomain_min) satisfy;";

/// Three pigeons in two holes.
const PIGEONS: &str =
    "var bool: a1; var bool: a2; var bool: b1; var bool: b2; var bool: c1; var bool: c2; constraint bool_clause([a1,a2],[]); constraint bool_clause([b1,b2],[]); constraint bool_clause([c1,c2],[]); constraint bool_clause([],[a1,b1]); constraint bool_clause([],[a1,c1]); constraint bool_clause([],[b1,c1]); constraint bool_clause([],[a2,b2]); constraint bool_clause([],[a2,c2]); constraint bool_clause([],[b2,c2]); solve satisfy;";

const ONE_ANSWER: &[u8] = b"----------\n";

const NO_ANSWER: &[u8] = b"=====UNSATISFIABLE=====\n";

fn forget(options: &mut Options, learn: Learn, seed: Option<u64>, keep: u64) {
    options.learn = learn;
    options.seed = seed;
    options.restart_after = 1;
    options.keep = keep;
}

/// Whether the checker gives this answer by the certificate.
fn is_accepted(alloc: Global, file: &str, answer: &[u8], cert: &[u8]) -> bool {
    let mut out: Vec<u8> = Vec::new(alloc);
    let verdict = check(alloc, file.as_bytes(), cert, false, &mut out);
    verdict.is_ok() && out.as_slice() == answer
}

/// The certificate of a run that gives this answer, as the checker does by it.
fn certificate_of(
    alloc: Global,
    learn: Learn,
    seed: Option<u64>,
    keep: u64,
    file: &str,
    answer: &[u8],
) -> Result<Vec<u8>, Fail> {
    let mut options = options_of(alloc, false, 10_000_000);
    forget(&mut options, learn, seed, keep);
    let mut cert: Vec<u8> = Vec::new(alloc);
    let is_right = is_answered(alloc, file, &options, answer, &mut cert)
        && is_accepted(alloc, file, answer, &cert);
    if is_right {
        Ok(cert)
    } else {
        Err("another answer")?
    }
}

/// Whether a run that is satisfied learns this clause.
fn learns(alloc: Global, learn: Learn, file: &str, clause: &str) -> Result<bool, Fail> {
    let cert = certificate_of(alloc, learn, None, 0, file, ONE_ANSWER)?;
    Ok(text_of(&cert).contains(clause))
}

#[test]
fn one_literal_is_learned(rt: HostRuntime) -> Result<(), Fail> {
    assert!(rt; learns(rt.alloc(), Learn::First, ONE_LITERAL, "\nr 2>=1 ; ")?);
    assert!(rt; learns(rt.alloc(), Learn::Plain, ONE_LITERAL, "\nr 1>=1 2>=1 ; ")?);
    Ok(())
}

#[test]
fn a_restart_deletes(rt: HostRuntime) -> Result<(), Fail> {
    assert!(rt; learns(rt.alloc(), Learn::First, FOUR_CLAUSES, "\nd ")?);
    Ok(())
}

#[test]
fn plain_learning_deletes_nothing(rt: HostRuntime) -> Result<(), Fail> {
    let cert = certificate_of(rt.alloc(), Learn::Plain, None, 0, PIGEONS, NO_ANSWER)?;
    assert!(rt; !text_of(&cert).contains("\nd "));
    Ok(())
}

/// The literals of a step `r`.
fn clause_of(line: &str) -> Option<&str> {
    let (clause, _) = line.strip_prefix("r ")?.split_once(';')?;
    Some(clause)
}

fn has_word(text: &str, wanted: &str) -> bool {
    for word in text.split_whitespace() {
        if word == wanted {
            return true;
        }
    }
    false
}

/// Whether each literal of the one is one of the other.
fn is_within(clause: &str, other: &str) -> bool {
    for word in clause.split_whitespace() {
        if !has_word(other, word) {
            return false;
        }
    }
    true
}

/// How many steps `r` have the same literals as this clause.
fn count_of(certificate: &str, clause: &str) -> u64 {
    let mut count = 0u64;
    for line in certificate.lines() {
        if let Some(other) = clause_of(line) {
            if is_within(clause, other) && is_within(other, clause) {
                count = count.saturating_add(1);
            }
        }
    }
    count
}

/// Whether there are steps `r`, no two of them with the same literals.
fn learns_each_once(certificate: &str) -> bool {
    let mut is_learned = false;
    for line in certificate.lines() {
        if let Some(clause) = clause_of(line) {
            is_learned = true;
            if count_of(certificate, clause) != 1 {
                return false;
            }
        }
    }
    is_learned
}

/// Whether runs on the pigeons that keep so many learned clauses learn each once, with any of ten seeds.
fn learns_pigeons_once(alloc: Global, keep: u64) -> Result<bool, Fail> {
    for seed in 0..10 {
        let cert = certificate_of(alloc, Learn::First, Some(seed), keep, PIGEONS, NO_ANSWER)?;
        if !learns_each_once(text_of(&cert)) {
            return Ok(false);
        }
    }
    Ok(true)
}

#[test]
fn each_clause_is_learned_once(rt: HostRuntime) -> Result<(), Fail> {
    assert!(rt; learns_pigeons_once(rt.alloc(), 0)?);
    assert!(rt; learns_pigeons_once(rt.alloc(), 2_000)?);
    Ok(())
}

/// The options of runs that restart after each conflict.
fn restarting(alloc: Global, learn: Learn, seed: u64, keep: u64) -> Options {
    let mut options = options_of(alloc, true, 10_000_000);
    forget(&mut options, learn, Some(seed), keep);
    options
}

/// Whether two runs with the same options write the same bytes to both writers.
fn is_repeated(alloc: Global, file: &str, options: &Options) -> bool {
    let mut first: Vec<u8> = Vec::new(alloc);
    let mut answer: Vec<u8> = Vec::new(alloc);
    let mut second: Vec<u8> = Vec::new(alloc);
    let is_ended = is_written(alloc, file, options, &mut answer, &mut first)
        && is_answered(alloc, file, options, &answer, &mut second);
    is_ended && !first.is_empty() && first == second
}

/// Whether a run ends without a fault.
fn is_written(
    alloc: Global,
    file: &str,
    options: &Options,
    out: &mut Vec<u8>,
    cert: &mut Vec<u8>,
) -> bool {
    solve(alloc, file.as_bytes(), options, out, cert, &mut Unobserved).is_ok()
}

/// Three different numbers, with a sum that is made the least.
const NUMBERS: &str =
    "var 0..6: x :: output_var; var 0..6: y :: output_var; var 0..6: z :: output_var; var 0..40: sum :: output_var; constraint fzn_all_different_int([x,y,z]); constraint int_lin_le([-1,-2,-3,1],[x,y,z,sum],0); constraint int_lin_le([1,2,3,-1],[x,y,z,sum],0); constraint int_lin_le([-1,-1,-1],[x,y,z],-8); solve minimize sum;";

/// Whether runs on these files are repeated, with any of ten seeds.
fn are_repeated(alloc: Global, learn: Learn, keep: u64) -> bool {
    for seed in 0..10 {
        let options = restarting(alloc, learn, seed, keep);
        for file in [PIGEONS, FOUR_CLAUSES, ONE_LITERAL, NUMBERS] {
            if !is_repeated(alloc, file, &options) {
                return false;
            }
        }
    }
    true
}

#[test]
fn a_seed_decides_all_bytes(rt: HostRuntime) {
    assert!(rt; are_repeated(rt.alloc(), Learn::First, 0));
    assert!(rt; are_repeated(rt.alloc(), Learn::First, 2_000));
    assert!(rt; are_repeated(rt.alloc(), Learn::Plain, 2_000));
}
