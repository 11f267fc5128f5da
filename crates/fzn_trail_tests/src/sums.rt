// What follows from 2 x + 3 y where x is 2 and y goes from 0 to 5, both declared from 0 to 9.
ghost use Rattle.std.specs.Prelude.{◌≡◌, length};
ghost use Rattle.fzn_trail.specs.Levels.{NoneEmpty};

use crate::by_hand::{is_filled, keep, lit};
use crate::two_variables::trail_of;
use fzn_domain::{Lit, Memory, Op, VarId};
use fzn_list::Items;
use fzn_sum::{
    conflict_at_most, conflict_not_equal, ends_of, floors_of, next_forced, refute_at_most,
    refute_equal, refute_not_equal, refute_place, slack_within,
};
use fzn_terms::{greatest_of, least_of};
use fzn_trail::Trail;
use fzn_values::{Place, Term};
use std::alloc::Global;
use std::test::*;

const X: Term = Term::Variable(VarId(1));

const Y: Term = Term::Variable(VarId(2));

fn place(coefficient: i64, term: Term) -> Place
    ensures { result ≡ record { coefficient = coefficient; term = term } }
{
    Place { coefficient, term }
}

/// Whether this clause was found.
fn is_found(found: Result<Option<Items<Lit>>, Memory>, clause: &[Lit]) -> bool {
    match found {
        Ok(Some(found)) => found.as_slice() == clause,
        _ => false,
    }
}

/// Whether there is no clause.
fn is_none(found: Result<Option<Items<Lit>>, Memory>) -> bool {
    matches!(found, Ok(None))
}

fn are_at_most(alloc: Global, trail: &Trail) -> bool
    requires two { length trail.now.declared ≡ 2 }
    requires filled { NoneEmpty trail.now.sets }
{
    let sum = [place(2, X), place(3, Y)];
    let low = lit(1, Op::AtMost, 1);
    let clause = [low, lit(2, Op::AtMost, 1)];
    is_found(conflict_at_most(alloc, trail, &sum, 3), &[low])
        && is_none(conflict_at_most(alloc, trail, &sum, 4))
        && is_found(refute_at_most(alloc, trail, &sum, 8), &clause)
        && is_none(refute_at_most(alloc, trail, &sum, 19))
}

fn are_different(alloc: Global, trail: &Trail) -> bool
    requires two { length trail.now.declared ≡ 2 }
    requires filled { NoneEmpty trail.now.sets }
{
    let alone = [place(2, X)];
    let sum = [place(2, X), place(3, Y)];
    let other = lit(1, Op::NotEqual, 2);
    let clause = [other, lit(2, Op::NotEqual, 3)];
    is_found(conflict_not_equal(alloc, trail, &alone, 4), &[other])
        && is_none(conflict_not_equal(alloc, trail, &alone, 5))
        && is_found(refute_not_equal(alloc, trail, &sum, 13), &clause)
        && is_none(refute_not_equal(alloc, trail, &sum, 14))
}

fn are_equal(alloc: Global, trail: &Trail) -> bool
    requires two { length trail.now.declared ≡ 2 }
    requires filled { NoneEmpty trail.now.sets }
{
    let sum = [place(2, X), place(3, Y)];
    let opposite = [place(-2, X), place(-3, Y)];
    let clause = [lit(1, Op::AtMost, 1), lit(2, Op::AtMost, 1)];
    is_found(refute_equal(alloc, trail, &sum, &opposite, 7), &clause)
}

fn are_ends(trail: &Trail) -> bool
    requires two { length trail.now.declared ≡ 2 }
    requires filled { NoneEmpty trail.now.sets }
{
    let seven = Term::Constant(7);
    let ends = ends_of(trail, &[place(2, X), place(3, Y)]);
    least_of(trail, Y) == 0
        && greatest_of(trail, Y) == 5
        && least_of(trail, seven) == 7
        && greatest_of(trail, seven) == 7
        && ends.least == 4
        && ends.greatest == 19
        && ends.widest == 15
}

fn are_forced(alloc: Global, trail: &Trail) -> bool
    requires two { length trail.now.declared ≡ 2 }
    requires filled { NoneEmpty trail.now.sets }
{
    let sum = [place(2, X), place(3, Y)];
    let clause = [lit(1, Op::AtMost, 1), lit(2, Op::AtMost, 1)];
    let Ok(floors) = floors_of(alloc, trail, &sum) else {
        return false;
    };
    let found = refute_place(alloc, trail, &sum, floors.as_slice(), 4, 1);
    let is_second = match next_forced(trail, &sum, 4, 0) {
        Some(forced) => forced.place == 1 && forced.lit == clause[1],
        None => false,
    };
    slack_within(trail, &sum, 8) == Some(4)
        && slack_within(trail, &sum, 3).is_none()
        && is_second
        && next_forced(trail, &sum, 4, 2).is_none()
        && is_found(found, &clause)
}

fn are_all(alloc: Global, trail: &Trail) -> bool
    requires two { length trail.now.declared ≡ 2 }
    requires filled { NoneEmpty trail.now.sets }
{
    are_at_most(alloc, trail)
        && are_different(alloc, trail)
        && are_equal(alloc, trail)
        && are_ends(trail)
        && are_forced(alloc, trail)
}

fn are_told(alloc: Global) -> Result<bool, Memory> {
    let mut trail = trail_of(alloc)?;
    keep(&mut trail, VarId(1), Op::Equal, 2)?;
    keep(&mut trail, VarId(2), Op::AtMost, 5)?;
    Ok(is_filled(&trail, 2) && are_all(alloc, &trail))
}

#[test]
fn sums_on_a_trail(rt: HostRuntime) -> Result<(), Fail> {
    assert!(rt; are_told(rt.alloc())?);
    Ok(())
}
