// Levels of x and y, which go from 0 to 9, by hand.
ghost use Rattle.std.specs.Prelude.{◌≡◌, length};

use crate::by_hand::lit;
use crate::two_variables::trail_of;
use fzn_domain::{Memory, Op, VarId};
use fzn_trail::{Antecedent, ClauseId, Entry, Reason, Trail};
use std::alloc::Global;
use std::test::*;

/// Whether so many levels and entries stand, with the mark, and so many values of x and of y are left of ten.
fn stands(trail: &Trail, levels: usize, entries: usize, mark: usize, values: (usize, usize)) -> bool
    requires { length trail.now.declared ≡ 2 }
{
    trail.level() == levels
        && trail.len() == entries
        && trail.seen() == mark
        && trail.domain(VarId(1)).len() == values.0
        && trail.domain(VarId(2)).len() == values.1
        && trail.declared(VarId(2)).len() == 10
}

/// Asserts one literal at level 0 and one at each of two further ones.
fn push_levels(trail: &mut Trail) -> Result<(), Memory>
    requires { length trail.old.declared ≡ 2 }
    ensures two { length trail.new.declared ≡ 2 }
{
    trail.assert(
        lit(1, Op::AtMost, 7),
        Reason::Implied(Antecedent::Clause(ClauseId(4))),
    )?;
    trail.push_level()?;
    trail.assert(lit(2, Op::AtLeast, 5), Reason::Decision)?;
    trail.push_level()?;
    trail.assert(lit(1, Op::AtMost, 3), Reason::Decision)?;
    Ok(())
}

/// Whether the second of three entries is as it was asserted, and the mark moves behind all.
fn is_seen(trail: &mut Trail) -> bool
    requires { length trail.old.declared ≡ 2 }
    ensures { length trail.new.declared ≡ 2 }
{
    if trail.len() != 3 {
        return false;
    }
    trail.see(3);
    let second = Entry {
        lit: lit(2, Op::AtLeast, 5),
        reason: Reason::Decision,
        level: 1,
    };
    trail.entry(1) == second && stands(trail, 2, 3, 3, (4, 5))
}

/// Whether one level is dropped.
fn is_back(trail: &mut Trail) -> bool
    requires { length trail.old.declared ≡ 2 }
{
    if trail.level() < 1 {
        return false;
    }
    trail.back_to(1);
    stands(trail, 1, 2, 2, (8, 5))
}

fn is_back_by_one_level(alloc: Global) -> Result<bool, Memory> {
    let mut trail = trail_of(alloc)?;
    push_levels(&mut trail)?;
    Ok(is_seen(&mut trail) && is_back(&mut trail))
}

#[test]
fn back_by_one_level(rt: HostRuntime) -> Result<(), Fail> {
    assert!(rt; is_back_by_one_level(rt.alloc())?);
    Ok(())
}
