// A constraint of each of the 51 names, some of several forms, and all values of its small sets.
ghost use Rattle.std.specs.Prelude.{IfOk};
ghost use Rattle.fzn_meaning.specs.WellFormed.{IsWellFormed};

use fzn_meaning::{Model, holds};
use fzn_reading::read_model;
use fzn_streams::TrackedReader;
use std::alloc::{AllocError, Global};
use std::test::*;

/// Declarations with a constraint.
pub(crate) static ROWS: &str = "
var 0..2: a; var 0..2: b; constraint int_eq(a,b);
var 0..2: a; var 0..2: b; constraint int_ne(a,b);
var 0..2: a; var 0..2: b; constraint int_le(a,b);
var 0..2: a; var 0..2: b; constraint int_lt(a,b);
var 0..1: a; var 0..1: b; var bool: r; constraint int_eq_reif(a,b,r);
var 0..1: a; var 0..1: b; var bool: r; constraint int_ne_reif(a,b,r);
var 0..1: a; var 0..1: b; var bool: r; constraint int_le_reif(a,b,r);
var 0..1: a; var 0..1: b; var bool: r; constraint int_lt_reif(a,b,r);
var 0..2: a; var 0..2: b; constraint int_lin_eq([2,-1],[a,b],1);
var 0..2: a; var 0..2: b; constraint int_lin_le([2,-1],[a,b],1);
var 0..2: a; var 0..2: b; constraint int_lin_ne([2,-1],[a,b],1);
var 0..1: a; var 0..1: b; var bool: r; constraint int_lin_eq_reif([2,-1],[a,b],1,r);
var 0..1: a; var 0..1: b; var bool: r; constraint int_lin_le_reif([2,-1],[a,b],1,r);
var 0..1: a; var 0..1: b; var bool: r; constraint int_lin_ne_reif([2,-1],[a,b],1,r);
var 0..1: a; var 0..1: b; var 0..2: c; constraint int_plus(a,b,c);
var -1..1: a; var 2..3: b; var -3..3: c; constraint int_times(a,b,c);
var {-7,7}: a; var {-2,0,2}: b; var -4..4: c; constraint int_div(a,b,c);
var {-7,7}: a; var {-2,0,2}: b; var -2..2: c; constraint int_mod(a,b,c);
var 0..1: a; var 0..1: b; var 0..1: c; constraint int_min(a,b,c);
var 0..1: a; var 0..1: b; var 0..1: c; constraint int_max(a,b,c);
var -2..2: a; var -2..2: b; constraint int_abs(a,b);
var 0..1: m; var 0..1: a; var 0..1: b; constraint array_int_maximum(m,[a,b]);
var 0..1: m; var 0..1: a; var 0..1: b; constraint array_int_minimum(m,[a,b]);
var 0..3: i; var 5..7: c; constraint array_int_element(i,[5,6],c);
var 0..3: i; var 3..4: x; var 3..4: c; constraint array_var_int_element(i,[x,4],c);
var 0..3: i; var bool: c; constraint array_bool_element(i,[false,true],c);
var 0..3: i; var bool: x; var bool: c; constraint array_var_bool_element(i,[x,true],c);
var 0..4: x; constraint set_in(x,{3,1});
var 0..4: x; constraint set_in(x,1..2);
var 0..3: x; var bool: r; constraint set_in_reif(x,{1,3},r);
var bool: a; var bool: b; constraint bool_eq(a,b);
var bool: a; var bool: b; constraint bool_le(a,b);
var bool: a; var bool: b; constraint bool_lt(a,b);
var bool: a; var bool: b; var bool: r; constraint bool_eq_reif(a,b,r);
var bool: a; var bool: b; var bool: r; constraint bool_le_reif(a,b,r);
var bool: a; var bool: b; var bool: r; constraint bool_lt_reif(a,b,r);
var bool: a; var bool: b; constraint bool_not(a,b);
var bool: a; var bool: b; var bool: r; constraint bool_and(a,b,r);
var bool: a; var bool: b; var bool: r; constraint bool_or(a,b,r);
var bool: a; var bool: b; var bool: r; constraint bool_xor(a,b,r);
var bool: a; var bool: b; var bool: r; constraint array_bool_and([a,b],r);
var bool: r; constraint array_bool_and([],r);
var bool: a; var bool: b; var bool: r; constraint array_bool_or([a,b],r);
var bool: r; constraint array_bool_or([],r);
var bool: a; var bool: b; var bool: c; constraint array_bool_xor([a,b,c]);
var bool: a; constraint array_bool_xor([]);
var bool: a; var bool: b; constraint bool_clause([a],[b]);
var bool: a; var bool: b; constraint bool_clause([],[b,a]);
var bool: a; var 0..2: b; constraint bool2int(a,b);
var bool: a; var bool: b; var 0..5: c; constraint bool_lin_eq([2,3],[a,b],c);
var bool: a; var bool: b; constraint bool_lin_le([2,3],[a,b],3);
var 0..2: a; var 0..2: b; constraint fzn_all_different_int([a,b]);
var 0..1: a; var 0..1: b; var 0..1: c; constraint fzn_all_different_int([a,b,c]);
var 0..2: a; var 0..2: b; constraint fzn_table_int([a,b],[0,1,1,0]);
var 0..2: a; var 0..2: b; constraint fzn_table_int([a,b],[]);
var 0..2: a; var 0..2: b; constraint fzn_cumulative([a,b],[1,2],[1,1],1);
var -1..1: d; var -1..1: u; var -1..1: c; constraint fzn_cumulative([0],[d],[u],c);
var 0..4: a; var 0..4: b; var 0..4: c; constraint fzn_circuit([a,b,c]);
var 0..2: a; constraint fzn_circuit([a]);
var 0..3: a; var 0..3: b; var 0..3: c; var 0..3: d; constraint fzn_inverse([a,b],[c,d]);
";

/// The model of a file.
pub(crate) fn model_of(alloc: Global, file: &str) -> Result<Model, Fail>
    ensures { IfOk result IsWellFormed }
{
    Ok(read_model(alloc, &mut TrackedReader::new(file.as_bytes()))?)
}

/// The least value of each variable.
pub(crate) fn first_values(alloc: Global, model: &Model) -> Result<Vec<i64>, AllocError> {
    let mut values = Vec::new(alloc);
    for var in model.vars.as_slice() {
        values.push(var.domain.above(i64::MIN).unwrap_or(0))?;
    }
    Ok(values)
}

/// Goes on to the next values, the last variable's first, and says whether there are any.
pub(crate) fn advance(model: &Model, values: &mut [i64]) -> bool {
    for (var, value) in model.vars.as_slice().iter().zip(values).rev() {
        if let Some(next) = var.domain.above(*value) {
            *value = next;
            return true;
        }
        *value = var.domain.above(i64::MIN).unwrap_or(0);
    }
    false
}

/// Whether each constraint of the model says so.
pub(crate) fn all_hold(model: &Model, values: &[i64]) -> bool
    requires { IsWellFormed model.now }
{
    if values.len() != model.vars.len() {
        return false;
    }
    for constraint in model.constraints.as_slice() {
        if !holds(constraint, values) {
            return false;
        }
    }
    true
}
