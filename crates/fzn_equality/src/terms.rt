// Numbers that terms are compared with, and the values that the terms of a list leave to another.
ghost use Rattle.std.specs.Prelude.{◌≡◌, ◌<◌, ◌≤◌, length, IfSome};
ghost use Rattle.std.specs.List.{All};
ghost use Rattle.fzn_values.specs.Term.{IsTerm};
ghost use Rattle.fzn_terms.specs.Intervals.{IsLimitedInterval, ends_of};

use fzn_domain::{Domain, Lit, Memory, Op, VarId};
use fzn_list::Items;
use fzn_terms::{Claim, Interval, MOST_VALUES, is_thinned_beside, may_be};
use fzn_trail::Trail;
use fzn_values::Term;
use std::alloc::Global;

/// A number that a term is compared with.
pub(crate) type Bound = (Op, i64);

/// That the value of the term stands so to the number.
pub(crate) fn claim_of(term: Term, bound: Bound) -> Claim
    ensures { result.term ≡ term }
{
    Claim {
        term,
        op: bound.0,
        number: bound.1,
    }
}

/// Whether the index, where there is one, may lead to place k, counted from 0.
pub(crate) fn may_lead(trail: &Trail, index: Option<Term>, k: usize) -> bool
    requires index { IfSome index (IsTerm (length trail.now.declared)) }
    requires place { IfSome index (λ _. k < 100000) }
{
    match index {
        Some(index) => may_be(trail, index, &(k as i64 + 1)),
        None => true,
    }
}

/// That a term, which has these ends, is another than each of its values, where it is narrow, that none of the entries has to which the
/// index, where there is one, may lead.
pub(crate) fn values_of_none(
    alloc: Global,
    trail: &Trail,
    term: Term,
    ends: Interval,
    entries: &[Term],
    index: Option<Term>,
) -> Result<Items<Bound>, Memory>
    requires term { IsTerm (length trail.now.declared) term }
    requires ends { ends ≡ ends_of trail.now.sets term }
    requires limited { IsLimitedInterval ends }
    requires entries { All (IsTerm (length trail.now.declared)) entries.now }
    requires index { IfSome index (IsTerm (length trail.now.declared)) }
    requires short { IfSome index (λ _. length entries.now ≤ 100000) }
{
    let Term::Variable(var) = term else {
        return Ok(Items::new(alloc));
    };
    if !is_thinned_beside(trail, term, ends, entries) {
        return Ok(Items::new(alloc));
    }
    let mut left = trail.domain(var).copy()?;
    for k in 0..entries.len() {
        if may_lead(trail, index, k) {
            take_out(trail, entries[k], var, &mut left)?;
            if left.is_empty() {
                return Ok(Items::new(alloc));
            }
        }
    }
    other_than_each(alloc, &left)
}

/// That a term is another than each of these values, if they are few.
fn other_than_each(alloc: Global, values: &Domain) -> Result<Items<Bound>, Memory> {
    let mut bounds = Items::with_capacity(alloc, values.len().min(MOST_VALUES as usize))?;
    let mut passed = i64::MIN;
    for _ in 0..MOST_VALUES {
        let Some(value) = values.above(passed) else {
            return Ok(bounds);
        };
        bounds.push((Op::NotEqual, value))?;
        passed = value;
    }
    Ok(bounds)
}

/// Takes the term's values out of the set, of whose members it looks at few.
fn take_out(trail: &Trail, term: Term, var: VarId, left: &mut Domain) -> Result<(), Memory>
    requires term { IsTerm (length trail.now.declared) term }
{
    match term {
        Term::Constant(value) => {
            take_out_value(var, value, left)?;
            Ok(())
        }
        Term::Variable(other) => {
            let values = trail.domain(other);
            take_out_first(values, var, left)?;
            take_out_each(values, var, left)
        }
    }
}

/// Takes the runs of these values out of the set with which it begins.
fn take_out_first(values: &Domain, var: VarId, left: &mut Domain) -> Result<(), Memory> {
    for _ in 0..MOST_VALUES {
        let Some(first) = left.above(i64::MIN) else {
            return Ok(());
        };
        if !values.contains(first) {
            return Ok(());
        }
        left.restrict(Lit {
            var,
            op: Op::AtLeast,
            value: values.run_end(first) + 1,
        })?;
    }
    Ok(())
}

/// Takes these values out of the set one by one.
fn take_out_each(values: &Domain, var: VarId, left: &mut Domain) -> Result<(), Memory> {
    if values.is_empty() {
        return Ok(());
    }
    let mut passed = values.min() - 1;
    for _ in 0..MOST_VALUES {
        let Some(value) = left.above(passed) else {
            return Ok(());
        };
        if values.max() < value {
            return Ok(());
        }
        if values.contains(value) {
            take_out_value(var, value, left)?;
        }
        passed = value;
    }
    Ok(())
}

fn take_out_value(var: VarId, value: i64, left: &mut Domain) -> Result<(), Memory> {
    left.restrict(Lit {
        var,
        op: Op::NotEqual,
        value,
    })?;
    Ok(())
}
