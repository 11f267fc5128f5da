// What is found to be derived, on a small model for each way.
use crate::kinds::model_of;
use crate::rows::told;
use fzn_cited::Multiple;
use fzn_derive::Derivation;
use fzn_domain::Memory;
use fzn_find::{cliques, eliminated, found, merged};
use fzn_multipliers::{Rows, multipliers};
use fzn_prices::prices;
use std::alloc::Global;
use std::fmt::Write;
use std::test::*;

const REPEATED: &str =
    "var 0..5: x; var 0..5: y; constraint int_plus(x,y,x); constraint int_lin_le([2,3,-1],[x,y,x],4); solve satisfy;";

const APART: &str = "var 1..2: u; var 1..2: v; var 1..2: w;
    constraint int_ne(u,v); constraint int_lin_ne([3,-3],[u,w],0); constraint int_ne(w,v); solve satisfy;";

const ODD: &str = "var bool: a; var bool: b; var bool: c; var bool: d;
    constraint array_bool_xor([a,b,c]); constraint array_bool_xor([b,c,d]); solve satisfy;";

/// The three together.
const EACH: &str =
    "var 0..5: x; var 0..5: y; var 1..2: u; var 1..2: v; var 1..2: w; var bool: a; var bool: b; var bool: c; var bool: d;
    constraint int_plus(x,y,x); constraint int_lin_le([2,3,-1],[x,y,x],4);
    constraint int_ne(u,v); constraint int_lin_ne([3,-3],[u,w],0); constraint int_ne(w,v);
    constraint array_bool_xor([a,b,c]); constraint array_bool_xor([b,c,d]); solve satisfy;";

/// At most one of each two, and at least two of all three.
const CROWDED: &str =
    "var 0..1: x; var 0..1: y; var 0..1: z; constraint int_lin_le([1,1],[x,y],1); constraint int_lin_le([1,1],[y,z],1);
    constraint int_lin_le([1,1],[x,z],1); constraint int_lin_le([-1,-1,-1],[x,y,z],-2); solve satisfy;";

/// All different, at costs of which the least are 1, 2 and 3. Those of any three different values are 10 together or more.
const ASSIGNED: &str =
    "var 1..3: x; var 1..3: y; var 1..3: z; var 0..9: a; var 0..9: b; var 0..9: c; var 0..27: total;
    constraint fzn_all_different_int([x,y,z]); constraint array_int_element(x,[1,4,5],a); constraint array_int_element(y,[2,6,7],b);
    constraint array_int_element(z,[3,5,4],c); constraint int_lin_eq([1,1,1,-1],[a,b,c,total],0); solve minimize total;";

/// The same variables, less in total.
const CHEAPER: &str =
    "var 1..3: x; var 1..3: y; var 1..3: z; var 0..9: a; var 0..9: b; var 0..9: c; var 0..9: total; solve satisfy;";

/// Offers in two tables that have a place in common, one with what each costs, and no two of which are cheap together: 8 at the least.
const OFFERED: &str =
    "var 1..3: x; var 1..3: y; var 1..3: z; var 0..9: a; var 0..9: b; var 0..9: c; var 0..27: total;
    constraint fzn_table_int([x,a],[1,1,2,3,3,5]); constraint fzn_table_int([y,b],[1,2,2,3,3,6]); constraint fzn_table_int([z,c],[1,1,2,4,3,4]);
    constraint fzn_table_int([x,y],[1,3,2,2,3,1,3,2]); constraint fzn_table_int([y,z],[1,3,2,2,2,3,3,1]);
    constraint int_lin_eq([1,1,1,-1],[a,b,c,total],0); solve minimize total;";

/// The same variables, less in total.
const LOWER: &str =
    "var 1..3: x; var 1..3: y; var 1..3: z; var 0..9: a; var 0..9: b; var 0..9: c; var 0..7: total; solve satisfy;";

/// Multipliers with constraints, or variables with constraints, or constraints, or how many items.
fn write_one(text: &mut String, derivation: &Derivation) -> Result<(), Memory> {
    match derivation {
        Derivation::Sum(multiples) => {
            for multiple in multiples.as_slice() {
                write!(text, "{}*{} ", multiple.multiplier, multiple.constraint)?;
            }
        }
        Derivation::Parity(constraints) => {
            for constraint in constraints.as_slice() {
                write!(text, "{constraint} ")?;
            }
        }
        Derivation::AllDifferent {
            variables,
            constraints,
        } => {
            for variable in variables.as_slice() {
                write!(text, "x{} ", variable.0)?;
            }
            for constraint in constraints.as_slice() {
                write!(text, "{constraint} ")?;
            }
        }
        Derivation::Row(items) => write!(text, "{} items ", items.len())?,
    }
    text.push_str("; ")?;
    Ok(())
}

fn written(alloc: Global, derivations: &[Derivation]) -> Result<String, Memory> {
    let mut text = String::new(alloc);
    for derivation in derivations {
        write_one(&mut text, derivation)?;
    }
    Ok(text)
}

#[test]
fn sums_of_which_a_variable_stands_twice(rt: HostRuntime) -> Result<(), Fail> {
    let model = model_of(rt.alloc(), REPEATED)?;
    let derivations = merged(rt.alloc(), &model)?;
    let text = written(rt.alloc(), derivations.as_slice())?;
    assert!(rt; text.as_str() == "1*1 ; -1*1 ; 1*2 ; ");
    Ok(())
}

#[test]
fn variables_apart_two_by_two(rt: HostRuntime) -> Result<(), Fail> {
    let model = model_of(rt.alloc(), APART)?;
    let derivations = cliques(rt.alloc(), &model)?;
    let text = written(rt.alloc(), derivations.as_slice())?;
    assert!(rt; text.as_str() == "x1 x2 x3 1 2 3 ; ");
    Ok(())
}

#[test]
fn odd_sums_together(rt: HostRuntime) -> Result<(), Fail> {
    let model = model_of(rt.alloc(), ODD)?;
    let derivations = eliminated(rt.alloc(), &model)?;
    let text = written(rt.alloc(), derivations.as_slice())?;
    assert!(rt; text.as_str() == "1 2 ; ");
    Ok(())
}

#[test]
fn all_that_is_found(rt: HostRuntime) -> Result<(), Fail> {
    let model = model_of(rt.alloc(), EACH)?;
    let derivations = found(rt.alloc(), &model)?;
    let text = written(rt.alloc(), derivations.as_slice())?;
    assert!(rt; text.as_str() == "1*1 ; -1*1 ; 1*2 ; x3 x4 x5 3 4 5 ; 6 7 ; ");
    Ok(())
}

/// Whether nothing meets this sum of the four constraints of three Booleans.
fn is_refuting(multiples: &[Multiple]) -> bool {
    let [xy, yz, xz, all] = multiples else {
        return false;
    };
    let pairs = xy
        .multiplier
        .saturating_add(yz.multiplier)
        .saturating_add(xz.multiplier);
    let bound = pairs.saturating_sub(all.multiplier.saturating_mul(2));
    let mut least = 0i64;
    for pair in [xy, yz, xz] {
        let others = pairs.saturating_sub(pair.multiplier); // Those of the variable that is not in the pair.
        least = least.saturating_add(others.saturating_sub(all.multiplier).min(0));
    }
    bound < least
}

#[test]
fn a_sum_that_nothing_meets(rt: HostRuntime) -> Result<(), Fail> {
    let model = model_of(rt.alloc(), CROWDED)?;
    let rows = Rows::of(rt.alloc(), &model)?;
    let sum = multipliers(rt.alloc(), &model, rows)?;
    let is_refuted = match &sum {
        Some(Derivation::Sum(multiples)) => is_refuting(multiples.as_slice()),
        _ => false,
    };
    assert!(rt; is_refuted);
    Ok(())
}

#[test]
fn a_row_that_bounds_what_is_assigned(rt: HostRuntime) -> Result<(), Fail> {
    let alloc = rt.alloc();
    let model = model_of(alloc, ASSIGNED)?;
    let rows = Rows::of(alloc, &model)?;
    let found = prices(alloc, &model, &rows)?;
    let items = match &found {
        Some(items) => items.as_slice(),
        None => &[],
    };
    assert!(rt; told(alloc, ASSIGNED, items, 100, CHEAPER)? == "refuted");
    assert!(rt; told(alloc, ASSIGNED, items, 100, ASSIGNED)? == "open");
    Ok(())
}

#[test]
fn a_row_that_bounds_what_tables_offer(rt: HostRuntime) -> Result<(), Fail> {
    let alloc = rt.alloc();
    let model = model_of(alloc, OFFERED)?;
    let rows = Rows::of(alloc, &model)?;
    let found = prices(alloc, &model, &rows)?;
    let items = match &found {
        Some(items) => items.as_slice(),
        None => &[],
    };
    assert!(rt; told(alloc, OFFERED, items, 100, LOWER)? == "refuted");
    assert!(rt; told(alloc, OFFERED, items, 100, OFFERED)? == "open");
    Ok(())
}

#[test]
fn the_row_among_all_that_is_found(rt: HostRuntime) -> Result<(), Fail> {
    let model = model_of(rt.alloc(), ASSIGNED)?;
    let derivations = found(rt.alloc(), &model)?;
    let text = written(rt.alloc(), derivations.as_slice())?;
    assert!(rt; text.as_str() == "5 items ; ");
    Ok(())
}
