// Sets narrowed for a while, on two variables x and y.
ghost use Rattle.std.specs.Prelude.{◌≡◌};

use fzn_domain::{Domain, Lit, Memory, Op, VarId};
use fzn_sets::{Possible, Sets};
use std::alloc::Global;
use std::test::*;

/// The numbers from 0 to 9 for x and y.
fn two_sets(alloc: Global) -> Result<Sets, Memory> {
    let mut domains = Vec::new(alloc);
    domains.push(Domain::range(alloc, 0, 9)?)?;
    domains.push(Domain::range(alloc, 0, 9)?)?;
    Sets::new(alloc, domains)
}

fn lit(number: usize, op: Op, value: i64) -> Lit
    ensures { result.var.0 ≡ number }
{
    Lit {
        var: VarId(number),
        op,
        value,
    }
}

/// How many values x and y have.
fn values_of(sets: &Sets) -> (usize, usize) {
    if sets.len() != 2 {
        return (0, 0);
    }
    (sets.domain(VarId(1)).len(), sets.domain(VarId(2)).len())
}

/// Whether so many values are left where the literal is true.
fn is_left(
    sets: &mut Sets,
    number: usize,
    op: Op,
    value: i64,
    left: (usize, usize),
) -> Result<bool, Memory> {
    let lit = lit(number, op, value);
    if lit.var.0 == 0 || lit.var.0 > sets.len() {
        return Ok(false);
    }
    let some = sets.narrow(lit)?;
    Ok(values_of(sets) == left && some == (left.0 > 0) && sets.has_empty() == (left.0 == 0))
}

fn is_narrowed(sets: &mut Sets) -> Result<bool, Memory> {
    Ok(
        is_left(sets, 1, Op::AtLeast, 3, (7, 10))?
            && is_left(sets, 2, Op::NotEqual, 4, (7, 9))?
            && is_left(sets, 1, Op::AtMost, 5, (3, 9))?
            && is_left(sets, 1, Op::Equal, 5, (1, 9))?
            && is_left(sets, 1, Op::Equal, 4, (0, 9))?,
    )
}

fn is_put_back(sets: &mut Sets) -> bool {
    sets.restore();
    let is_whole = values_of(sets) == (10, 10);
    sets.restore();
    is_whole && values_of(sets) == (10, 10)
}

#[test]
fn narrowed_for_a_while(rt: HostRuntime) -> Result<(), Fail> {
    let mut sets = two_sets(rt.alloc())?;
    assert!(rt; is_narrowed(&mut sets)?);
    assert!(rt; is_put_back(&mut sets));
    Ok(())
}

/// Whether the second of two narrowings is undone, after which x has 7 values as before it.
fn is_undone(alloc: Global) -> Result<bool, Memory> {
    let mut sets = two_sets(alloc)?;
    if sets.len() != 2 {
        return Ok(false);
    }
    sets.narrow(lit(1, Op::AtLeast, 3))?;
    if sets.len() != 2 {
        return Ok(false);
    }
    sets.narrow(lit(1, Op::AtMost, 5))?;
    let (first, second) = (sets.before(0).len(), sets.before(1).len());
    sets.undo();
    let is_declared = sets.len() == 2 && sets.declared(VarId(1)).len() == 10;
    Ok(is_declared && (first, second) == (10, 7) && values_of(&sets) == (7, 10))
}

#[test]
fn the_last_narrowing_undone(rt: HostRuntime) -> Result<(), Fail> {
    assert!(rt; is_undone(rt.alloc())?);
    Ok(())
}

/// Which literals are possible, and nothing where one is on another variable.
fn which_possible(sets: &Sets, clause: &[Lit; 2]) -> Option<Possible> {
    for lit in clause {
        if lit.var.0 == 0 || lit.var.0 > sets.len() {
            return None;
        }
    }
    Some(sets.possible(clause))
}

/// Whether these literals of the clause are possible.
fn is_possible(sets: &Sets, first: Lit, second: Lit, want: Possible) -> bool {
    which_possible(sets, &[first, second]) == Some(want)
}

fn are_possible(alloc: Global) -> Result<bool, Memory> {
    let sets = two_sets(alloc)?;
    let (first, last) = (lit(1, Op::AtLeast, 9), lit(2, Op::Equal, 0));
    let (no, never) = (lit(1, Op::AtLeast, 10), lit(2, Op::Equal, -1));
    Ok(
        is_possible(&sets, first, last, Possible::Several)
            && is_possible(&sets, first, never, Possible::One(first))
            && is_possible(&sets, no, last, Possible::One(last))
            && is_possible(&sets, no, never, Possible::Nothing)
            && is_possible(&sets, last, last, Possible::Several),
    )
}

#[test]
fn possible_literals(rt: HostRuntime) -> Result<(), Fail> {
    assert!(rt; are_possible(rt.alloc())?);
    Ok(())
}
