// A file with each form of items, with each byte changed: solver and checker give an answer, or the same fault.
use crate::runs::{options_of, solve};
use fzn_checker::{CheckFault, check};
use fzn_checker_tests::put_at;
use fzn_options::Options;
use fzn_solver::{RunFault, Unobserved};
use std::alloc::{AllocError, Global};
use std::test::Fail;

const FILE: &str = r#"% each form
predicate p(var int: x, array [1..2] of var bool: q, set of int: s);
bool: yes = true;
int: three = 0x3;
set of int: few = {1, 3};
array [1..2] of int: w = [2, -1];
var bool: b :: output_var;
var 0..0o5: x :: output_var = 3;
var {1, 2, 4}: y :: output_var :: told("text", [by(1..2), 3]);
array [1..2] of var int: q :: output_array([1..2]) = [x, y];
constraint int_lin_le(w, q, three) :: domain;
constraint int_le_reif(x, y, b);
constraint set_in(x, few);
constraint bool_clause([b, yes], []);
solve :: int_search(q, input_order, indomain_min, complete) minimize y;
"#;

/// Whether both refuse the file by the same fault at a place.
fn are_refused(solver: Option<RunFault>, checker: Option<CheckFault>) -> bool {
    match (solver, checker) {
        (Some(RunFault::File(first)), Some(CheckFault::File(second))) => first == second,
        _ => false,
    }
}

/// Whether the file is answered by both alike, or refused by both with nothing printed.
fn is_replied_to(alloc: Global, options: &Options, file: &[u8]) -> bool {
    let mut out: Vec<u8> = Vec::new(alloc);
    let mut cert: Vec<u8> = Vec::new(alloc);
    let mut printed: Vec<u8> = Vec::new(alloc);
    let solver = solve(alloc, file, options, &mut out, &mut cert, &mut Unobserved).err();
    let checker = check(alloc, file, cert.as_slice(), options.all, &mut printed).err();
    let is_answered = solver.is_none() && checker.is_none();
    let is_nothing = out.is_empty() && cert.is_empty();
    let is_same = out.as_slice() == printed.as_slice();
    is_same && (is_answered || is_nothing && are_refused(solver, checker))
}

/// Whether the file with another byte at the place is answered or refused, for each byte.
fn is_answered_or_refused(alloc: Global, options: &Options, at: usize) -> Result<bool, AllocError> {
    let mut file = Vec::from_slice(alloc, FILE.as_bytes())?;
    let mut is_right = true;
    for byte in 0..=255u8 {
        put_at(&mut file, at, byte);
        is_right = is_right && is_replied_to(alloc, options, &file);
    }
    Ok(is_right)
}

#[test]
fn each_byte_of_a_file_changed(rt: HostRuntime) -> Result<(), Fail> {
    let options = options_of(rt.alloc(), false, 100);
    for at in 0..FILE.len() {
        assert!(rt;
            is_answered_or_refused(rt.alloc(), &options, at)?,
            "with byte {at} changed"
        );
    }
    Ok(())
}
