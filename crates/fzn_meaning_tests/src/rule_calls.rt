// Each rule by its own call, where it is met and where a value more leaves a way to meet the constraint.
ghost use Rattle.std.specs.Prelude.{◌≡◌, false, length};
ghost use Rattle.fzn_domain.specs.Narrow.{is_some_empty};
ghost use Rattle.fzn_meaning.specs.Meaning.{IsWellFormedConstraint};
ghost use Rattle.fzn_meaning.specs.WellFormed.{IsWellFormed};

use crate::kinds::model_of;
use crate::rules::declared;
use fzn_builtin_rules::{is_box_met, is_enum_met, is_fixed_met, is_lin_met, is_rows_met};
use fzn_meaning::{Constraint, Model};
use fzn_rules::{
    is_cut_met, is_energy_met, is_global_rows_met, is_hall_met, is_load_met, is_pair_met,
};
use fzn_sets::Sets;
use std::alloc::{AllocError, Global};
use std::string::String;
use std::test::*;

/// Declarations with a constraint, and 1 for each rule that is met: of builtins `lin`, `rows`, `box`, `fixed`, `enum`; of globals `rows`,
/// `hall` from 1 to 2, `load` at 1, `energy` from 0 to 2, `cut` of 1 and 2, `pair` of 1 and 2.
const ROWS: &str = "
var 0..2: x; var 3..4: y; constraint int_eq(x,y); => 11001 000000
var {0,2}: x; constraint int_eq(x,1); => 01001 000000
var 100..200: x; var 0..99: y; constraint int_lt(x,y); => 10000 000000
var 100..200: x; var 0..101: y; constraint int_lt(x,y); => 00000 000000
var 2..3: x; var 2..3: y; var 0..3: z; constraint int_times(x,y,z); => 00101 000000
var 2..3: x; var 2..3: y; var 0..4: z; constraint int_times(x,y,z); => 00000 000000
var {5,7}: z; constraint int_times(2,3,z); => 00011 000000
var 5..7: z; constraint int_times(2,3,z); => 00000 000000
var 0..1: a; var 0..1: b; constraint fzn_table_int([a,b],[0,2,2,0]); => 00000 100000
var 0..1: a; var 0..1: b; constraint fzn_table_int([a,b],[0,2,1,1]); => 00000 000000
var 1..2: a; var 1..2: b; var 1..2: c; constraint fzn_all_different_int([a,b,c]); => 00000 010000
var 1..2: a; var 1..2: b; var 2..3: c; constraint fzn_all_different_int([a,b,c]); => 00000 000000
var 0..1: s; constraint fzn_cumulative([s,1],[2,1],[1,1],1); => 00000 001000
var 0..1: s; constraint fzn_cumulative([s,1],[2,1],[1,1],2); => 00000 000000
var 0..1: a; var 0..1: b; var 0..1: c; constraint fzn_cumulative([a,b,c],[1,1,1],[1,1,1],1); => 00000 000100
var 2..2: a; var 1..2: b; var 1..3: c; constraint fzn_circuit([a,b,c]); => 00000 000010
var 2..2: a; var 1..3: b; var 1..3: c; constraint fzn_circuit([a,b,c]); => 00000 000000
var 2..2: a; var 1..2: b; var 1..2: c; var 2..2: d; constraint fzn_inverse([a,b],[c,d]); => 00000 000001
var 2..2: a; var 1..2: b; var 1..2: c; var 1..2: d; constraint fzn_inverse([a,b],[c,d]); => 00000 000000
";

/// A digit for each rule.
fn digits(alloc: Global, constraint: &Constraint, sets: &Sets) -> Result<String, AllocError>
    requires constraint { IsWellFormedConstraint (length sets.now.present) constraint.now }
    requires nonempty { is_some_empty sets.now.present ≡ false }
{
    format!(in alloc;
        "{}{}{}{}{} {}{}{}{}{}{}",
        is_lin_met(constraint, sets) as u8,
        is_rows_met(constraint, sets) as u8,
        is_box_met(constraint, sets) as u8,
        is_fixed_met(constraint, sets) as u8,
        is_enum_met(constraint, sets) as u8,
        is_global_rows_met(constraint, sets) as u8,
        is_hall_met(constraint, sets, &1, &2) as u8,
        is_load_met(constraint, sets, &1) as u8,
        is_energy_met(constraint, sets, &0, &2) as u8,
        is_cut_met(constraint, sets, &[1, 2]) as u8,
        is_pair_met(constraint, sets, &1, &2) as u8
    )
}

/// The digits of the model's constraint on the declared sets, and nothing where a set is empty.
fn met_by(alloc: Global, model: &Model) -> Result<String, AllocError>
    requires { IsWellFormed model.now }
{
    let sets = declared(alloc, model)?;
    let Some(constraint) = model.constraints.as_slice().first() else {
        return Ok(String::new(alloc));
    };
    if sets.len() != model.vars.len() || sets.has_empty() {
        return Ok(String::new(alloc));
    }
    digits(alloc, constraint, &sets)
}

/// Whether the rules that a row tells are met.
fn is_as_told(alloc: Global, row: &str) -> Result<bool, Fail> {
    let (items, want) = row.split_once(" => ").ok_or("a line has two parts")?;
    let file = format!(in alloc; "{items} solve satisfy;")?;
    let model = model_of(alloc, file.as_str())?;
    Ok(met_by(alloc, &model)?.as_str() == want)
}

#[test]
fn each_rule_by_its_call(rt: HostRuntime) -> Result<(), Fail> {
    assert!(rt; ROWS.trim().lines().count() == 19);
    for row in ROWS.trim().lines() {
        assert!(rt; is_as_told(rt.alloc(), row)?, "{row}");
    }
    Ok(())
}
