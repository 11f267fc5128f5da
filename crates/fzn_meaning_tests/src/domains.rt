// Domains and literals worked out by hand.
ghost use Rattle.std.specs.Prelude.{◌≡◌, ◌≤ℤ◌, pos};

use fzn_domain::{Domain, GREATEST_VALUE, LEAST_VALUE, Lit, Memory, Op, VarId, place_of};
use std::alloc::Global;
use std::test::Fail;

fn lit(op: Op, value: i64) -> Lit
    ensures { result.value ≡ value }
{
    Lit {
        var: VarId(1),
        op,
        value,
    }
}

/// Keeps the values at which the literal is true, and says whether any is left.
fn keep(domain: &mut Domain, op: Op, value: i64) -> Result<bool, Memory> {
    domain.restrict(lit(op, value))
}

fn is_range(alloc: Global) -> Result<bool, Memory> {
    let domain = Domain::range(alloc, 3, 7)?;
    let none = Domain::range(alloc, 5, 3)?;
    Ok(
        domain.len() == 5
            && !domain.is_empty()
            && domain.min() == 3
            && domain.max() == 7
            && domain.contains(3)
            && !domain.contains(8)
            && domain.above(4) == Some(5)
            && domain.below(3).is_none()
            && none.is_empty(),
    )
}

fn is_listed(alloc: Global) -> Result<bool, Memory> {
    let domain = Domain::listed(alloc, &[5, 1, 3, 3])?;
    Ok(
        domain.len() == 3
            && domain.above(1) == Some(3)
            && domain.is_false(lit(Op::Equal, 2))
            && domain.is_false(lit(Op::AtLeast, 6))
            && domain.is_false(lit(Op::AtMost, 0))
            && !domain.is_false(lit(Op::NotEqual, 3)),
    )
}

/// Whether holes move the ends, and a copy stays as it was.
fn is_narrowed(alloc: Global) -> Result<bool, Memory> {
    let mut domain = Domain::range(alloc, 1, 5)?;
    let is_left = keep(&mut domain, Op::NotEqual, 4)?;
    let kept = domain.copy()?;
    let is_narrow = keep(&mut domain, Op::NotEqual, 5)? && domain.above(2) == Some(3);
    let is_none = !keep(&mut domain, Op::AtLeast, 4)?;
    Ok(is_left && is_narrow && is_none && domain.is_empty() && kept.len() == 4)
}

/// Whether a range of all values is narrowed to one.
fn is_wide(alloc: Global) -> Result<bool, Memory> {
    let mut domain = Domain::range(alloc, LEAST_VALUE, GREATEST_VALUE)?;
    let is_whole = domain.len() == 2_000_000_001;
    let has_hole = keep(&mut domain, Op::NotEqual, 0)? && domain.above(-1) == Some(1);
    let is_one = keep(&mut domain, Op::Equal, 5)? && domain.len() == 1;
    Ok(is_whole && has_hole && is_one)
}

#[test]
fn sets(rt: HostRuntime) -> Result<(), Fail> {
    assert!(rt; is_range(rt.alloc())?);
    assert!(rt; is_listed(rt.alloc())?);
    assert!(rt; is_narrowed(rt.alloc())?);
    assert!(rt; is_wide(rt.alloc())?);
    Ok(())
}

/// The value that so many are below.
fn nth(domain: &Domain, place: usize) -> Option<i64> {
    if place < domain.len() {
        Some(domain.nth(place))
    } else {
        None
    }
}

/// The end of the run that the value is in.
fn run_end(domain: &Domain, value: i64) -> Option<i64> {
    if domain.contains(value) {
        Some(domain.run_end(value))
    } else {
        None
    }
}

fn has_places_and_runs(alloc: Global) -> Result<bool, Memory> {
    let domain = Domain::listed(alloc, &[5, 1, 3, 4])?;
    Ok(
        nth(&domain, 0) == Some(1)
            && nth(&domain, 3) == Some(5)
            && nth(&domain, 4).is_none()
            && run_end(&domain, 1) == Some(1)
            && run_end(&domain, 3) == Some(5)
            && run_end(&domain, 2).is_none(),
    )
}

/// Whether four listed values are asked for and narrowed alike, however far apart they are.
fn is_spread(alloc: Global, step: i64) -> Result<bool, Memory>
    requires some { pos 2 ≤ℤ step }
    requires few { step ≤ℤ pos 100000 }
{
    let mut domain = Domain::listed(alloc, &[3 * step, 0, step, 2 * step])?;
    let whole = domain.copy()?;
    let is_left = keep(&mut domain, Op::NotEqual, step)?;
    Ok(
        is_left
            && domain.len() == 3
            && whole.len() == 4
            && !domain.contains(step)
            && whole.contains(step)
            && domain.above(0) == Some(2 * step)
            && domain.below(2 * step) == Some(0)
            && run_end(&domain, 2 * step) == Some(2 * step),
    )
}

/// Whether a range is asked for and narrowed alike, however wide it is. A hole leaves so many of its values.
fn is_wide_to(alloc: Global, high: i64, left: usize) -> Result<bool, Memory>
    requires some { pos 20 ≤ℤ high }
    requires few { high ≤ℤ pos 1000000 }
{
    let mut domain = Domain::range(alloc, 1, high)?;
    let whole = domain.copy()?;
    let is_left = keep(&mut domain, Op::NotEqual, 10)?;
    Ok(
        is_left
            && domain.len() == left
            && whole.len() > left
            && !domain.contains(10)
            && whole.contains(10)
            && domain.above(9) == Some(11)
            && domain.below(11) == Some(9)
            && run_end(&domain, 2) == Some(9)
            && run_end(&domain, 11) == Some(high),
    )
}

/// Whether a wide range is asked for and copied alike, however many of its values were taken out: those from 2 to 299.
fn is_thinned(alloc: Global) -> Result<bool, Memory> {
    let mut domain = Domain::range(alloc, 1, 10_000)?;
    for value in 2..151 {
        keep(&mut domain, Op::NotEqual, value)?;
    }
    let few_holes = domain.copy()?;
    for value in 151..300 {
        keep(&mut domain, Op::NotEqual, value)?;
    }
    Ok(
        few_holes.len() == 9_851
            && few_holes.contains(151)
            && domain.len() == 9_702
            && !domain.contains(151)
            && domain.above(1) == Some(300)
            && domain.below(300) == Some(1)
            && nth(&domain, 1) == Some(300)
            && run_end(&domain, 300) == Some(10_000),
    )
}

/// One word, several words, and a list, also of holes that become several words.
#[test]
fn sets_however_kept(rt: HostRuntime) -> Result<(), Fail> {
    assert!(rt; is_spread(rt.alloc(), 2)?);
    assert!(rt; is_spread(rt.alloc(), 100)?);
    assert!(rt; is_spread(rt.alloc(), 10_000)?);
    assert!(rt; is_wide_to(rt.alloc(), 20, 19)?);
    assert!(rt; is_wide_to(rt.alloc(), 200, 199)?);
    assert!(rt; is_wide_to(rt.alloc(), 20_000, 19_999)?);
    assert!(rt; is_thinned(rt.alloc())?);
    Ok(())
}

#[test]
fn places_and_runs(rt: HostRuntime) -> Result<(), Fail> {
    assert!(rt; has_places_and_runs(rt.alloc())?);
    assert!(rt; place_of(&[], 3) == 0 && place_of(&[3], 3) == 0 && place_of(&[2], 3) == 1);
    Ok(())
}

#[test]
fn literals(rt: HostRuntime) {
    let above = lit(Op::AtMost, 3).negated();
    assert!(rt; !above.is_true_at(3) && above.is_true_at(4));
}
