// Solutions, which is better, and cuts, on one small model for each goal.
ghost use Rattle.std.specs.Prelude.{IfOk};
ghost use Rattle.fzn_meaning.specs.WellFormed.{IsWellFormed};

use crate::kinds::model_of;
use fzn_domain::{Lit, Op, VarId};
use fzn_meaning::{Model, better, cut, is_solution, plus_product};
use std::alloc::Global;
use std::test::*;

const ITEMS: &str =
    "var 0..1: x :: output_var; var 2..7: y :: output_var; constraint int_lin_le([2,3],[x,y],13); constraint int_le(1,x);";

/// x in 0..1, y in 2..7, 2 x + 3 y <= 13 and 1 <= x, where both are output.
fn small_model(alloc: Global, goal: &str) -> Result<Model, Fail>
    ensures { IfOk result IsWellFormed }
{
    let file = format!(in alloc; "{ITEMS} solve {goal};")?;
    model_of(alloc, file.as_str())
}

/// Whether values without, by one of them, by a constraint and by their number, are solutions.
fn are_told(model: &Model) -> bool
    requires { IsWellFormed model.now }
{
    is_solution(model, &[1, 2])
        && is_solution(model, &[1, 3])
        && !is_solution(model, &[1, 1])
        && !is_solution(model, &[2, 2])
        && !is_solution(model, &[1, 4])
        && !is_solution(model, &[0, 2])
        && !is_solution(model, &[1])
        && !is_solution(model, &[1, 2, 3])
}

#[test]
fn solutions(rt: HostRuntime) -> Result<(), Fail> {
    let model = small_model(rt.alloc(), "satisfy")?;
    assert!(rt; are_told(&model));
    Ok(())
}

/// Whether the values with the first y are better than those with the second, and the other way.
fn betters(model: &Model, first: i64, second: i64) -> (bool, bool)
    requires { IsWellFormed model.now }
{
    if model.vars.len() != 2 {
        return (false, false);
    }
    (
        better(model, &[1, first], &[0, second]),
        better(model, &[0, second], &[1, first]),
    )
}

/// Whether 3 and 4 of y are better so, and neither of 3 and 3 is; and the cut of y = 3 is this clause.
fn is_goal(
    alloc: Global,
    goal: &str,
    three_and_four: (bool, bool),
    clause: &[Lit],
) -> Result<bool, Fail> {
    let model = small_model(alloc, goal)?;
    if model.vars.len() != 2 {
        return Ok(false);
    }
    let found = cut(alloc, &model, &[1, 3])?;
    Ok(
        betters(&model, 3, 4) == three_and_four
            && betters(&model, 3, 3) == (false, false)
            && found.as_slice() == clause,
    )
}

fn lit(number: usize, op: Op, value: i64) -> Lit {
    Lit {
        var: VarId(number),
        op,
        value,
    }
}

#[test]
fn goals(rt: HostRuntime) -> Result<(), Fail> {
    let differs = [lit(1, Op::NotEqual, 1), lit(2, Op::NotEqual, 3)];
    assert!(rt; is_goal(rt.alloc(), "satisfy", (false, false), &differs)?);
    let below = [lit(2, Op::AtMost, 2)];
    assert!(rt; is_goal(rt.alloc(), "minimize y", (true, false), &below)?);
    let above = [lit(2, Op::AtLeast, 4)];
    assert!(rt; is_goal(rt.alloc(), "maximize y", (false, true), &above)?);
    Ok(())
}

#[test]
fn products_add_up(rt: HostRuntime) {
    let sum = plus_product(-1, 1_000_000_000, i64::MIN);
    assert!(rt; sum == -9_223_372_036_854_775_808_000_000_001);
}
