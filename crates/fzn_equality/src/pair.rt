// Two terms that are to be equal: what keeps them apart, and what each of them has to be, since the other is.
ghost use Rattle.std.specs.Prelude.{◌≡◌, true, length};
ghost use Rattle.std.proofs.Props.{props};
ghost use Rattle.fzn_domain.specs.IntSet.{contains};
ghost use Rattle.fzn_domain.specs.Limits.{IsInLimits, IsNearLimits};
ghost use Rattle.fzn_values.specs.Term.{IsTerm};
ghost use Rattle.fzn_terms.specs.Intervals.{IsLimitedInterval, ends_of};
ghost use Rattle.fzn_terms.specs.Values.{IsTerm-prop};

use crate::terms::Bound;
use fzn_domain::{Domain, Memory, Op};
use fzn_list::Items;
use fzn_terms::{Claim, Interval, MOST_VALUES, is_never, is_thinned_beside, may_be, next_value};
use fzn_trail::Trail;
use fzn_values::Term;
use std::alloc::Global;

/// Two terms that are to be equal, as they stand on a trail.
#[derive(Clone, Copy)]
pub(crate) struct Pair<'a> {
    pub trail: &'a Trail,
    pub one: Term,
    pub other: Term,
    /// From the least to the greatest value of the first.
    pub ends: Interval,
    /// The same of the second.
    pub other_ends: Interval,
    ghost one_fits: { IsTerm (length trail.now.declared) one } by { IsTerm-prop _ _ },
    ghost other_fits: { IsTerm (length trail.now.declared) other } by { IsTerm-prop _ _ },
    ghost are_ends: { ends ≡ ends_of trail.now.sets one } by { Prim.hlevel props },
    ghost are_other_ends: { other_ends ≡ ends_of trail.now.sets other } by { Prim.hlevel props },
    ghost limited: { IsLimitedInterval ends },
    ghost other_limited: { IsLimitedInterval other_ends },
}

impl<'a> Pair<'a> {
    /// Where they have no common value by their ends, or by the one value of one of them: what keeps them apart. It is false of the first,
    /// and its opposite of the second.
    pub(crate) fn apart(&self) -> Option<Bound> {
        let (ends, other_ends) = (self.ends, self.other_ends);
        if ends.high < other_ends.low {
            let number = parting(self.trail, self.other, ends.high, other_ends.low);
            return Some((Op::AtLeast, number));
        }
        if other_ends.high < ends.low {
            let number = parting(self.trail, self.one, other_ends.high, ends.low);
            return Some((Op::AtMost, number - 1));
        }
        if ends.is_single() && !may_be(self.trail, self.other, &ends.low) {
            return Some((Op::NotEqual, ends.low));
        }
        if other_ends.is_single() && !may_be(self.trail, self.one, &other_ends.low) {
            return Some((Op::Equal, other_ends.low));
        }
        None
    }

    /// What the first has to be, since the second is, or the opposite of what the second has to be.
    pub(crate) fn narrowing(&self) -> Option<Bound> {
        if self.have_same_ends() {
            return self.least_difference();
        }
        for bound in &self.narrowed_ends() {
            if bound.is_some() {
                return *bound;
            }
        }
        None
    }

    /// All of the same that the ends show; where they show nothing, all that the numbers do of what is narrow.
    pub(crate) fn narrowings(&self, alloc: Global) -> Result<Items<Bound>, Memory> {
        let mut bounds = Items::new(alloc);
        if self.have_same_ends() {
            self.add_differences(&mut bounds)?;
            return Ok(bounds);
        }
        for bound in &self.narrowed_ends() {
            if let Some(bound) = bound {
                bounds.push(*bound)?;
            }
        }
        Ok(bounds)
    }

    fn have_same_ends(&self) -> bool {
        self.ends.low == self.other_ends.low && self.ends.high == self.other_ends.high
    }

    /// The same by each end: the second's greatest and least value, and the first's. Nothing where the ends are the same.
    fn narrowed_ends(&self) -> [Option<Bound>; 4] {
        let (ends, other_ends) = (self.ends, self.other_ends);
        [
            bound_where(other_ends.high < ends.high, Op::AtMost, other_ends.high),
            bound_where(ends.low < other_ends.low, Op::AtLeast, other_ends.low),
            bound_where(ends.high < other_ends.high, Op::AtLeast, ends.high + 1),
            bound_where(other_ends.low < ends.low, Op::AtMost, ends.low - 1),
        ]
    }

    /// What the least number shows that one of the two may be and the other may not, where they have the same ends. Of the two only what is
    /// narrow is looked at.
    fn least_difference(&self) -> Option<Bound> {
        if self.ends.is_single() {
            return None;
        }
        match self.are_narrow() {
            (true, true) => {
                let value = self.difference()?;
                Some(self.difference_at(value))
            }
            (true, false) => {
                let lack = next_lack(self.trail, self.one, self.other, i64::MIN)?;
                Some((Op::NotEqual, lack))
            }
            (false, true) => {
                let lack = next_lack(self.trail, self.other, self.one, i64::MIN)?;
                Some((Op::Equal, lack))
            }
            (false, false) => None,
        }
    }

    /// Adds what each number shows that one of the two may be and the other may not, where they have the same ends. Of the two only what is
    /// narrow is looked at.
    fn add_differences(&self, bounds: &mut Items<Bound>) -> Result<(), Memory> {
        if self.ends.is_single() {
            return Ok(());
        }
        match self.are_narrow() {
            (true, true) => self.add_all_differences(bounds),
            (true, false) => add_lacks(self.trail, self.one, self.other, Op::NotEqual, bounds),
            (false, true) => add_lacks(self.trail, self.other, self.one, Op::Equal, bounds),
            (false, false) => Ok(()),
        }
    }

    /// Whether each of them is narrow: what may stay of it is no more than the other has.
    fn are_narrow(&self) -> (bool, bool) {
        (
            is_thinned_beside(self.trail, self.one, self.ends, &[self.other]),
            is_thinned_beside(self.trail, self.other, self.other_ends, &[self.one]),
        )
    }

    /// The same of two that both are narrow: from the least such number up, as far as few.
    fn add_all_differences(&self, bounds: &mut Items<Bound>) -> Result<(), Memory> {
        let Some(first) = self.difference() else {
            return Ok(());
        };
        let last = self.ends.high.min(first.saturating_add(MOST_VALUES));
        for value in first..last + 1 {
            if may_be(self.trail, self.one, &value) != may_be(self.trail, self.other, &value) {
                bounds.push(self.difference_at(value))?;
            }
        }
        Ok(())
    }

    /// What a number shows that the first may be and the second may not, or the other way round.
    fn difference_at(&self, value: i64) -> Bound {
        if may_be(self.trail, self.one, &value) {
            (Op::NotEqual, value)
        } else {
            (Op::Equal, value)
        }
    }

    /// The least number that one of the two may be and the other may not, where they have the same ends.
    fn difference(&self) -> Option<i64> {
        let (Term::Variable(one), Term::Variable(other)) = (self.one, self.other) else {
            return None; // Where one is a constant, so is the other by its ends.
        };
        let (set, other_set) = (self.trail.domain(one), self.trail.domain(other));
        if set.contains(self.ends.low) && other_set.contains(self.ends.low) {
            first_difference(set, other_set, self.ends.low)
        } else {
            None
        }
    }
}

/// A number above the one and not above the other, which is the least value of the term: that one, if it is the least declared value.
fn parting(trail: &Trail, upper: Term, high: i64, low: i64) -> i64
    requires upper { IsTerm (length trail.now.declared) upper }
    requires high { IsInLimits high }
    requires low { IsInLimits low }
    ensures { IsNearLimits result }
{
    if is_never(trail, Claim::below(upper, low)) {
        low
    } else {
        high + 1
    }
}

fn bound_where(holds: bool, op: Op, number: i64) -> Option<Bound> {
    if holds { Some((op, number)) } else { None }
}

/// The least value of the term above this number that the other may not be. It looks at few of them.
fn next_lack(trail: &Trail, term: Term, other: Term, passed: i64) -> Option<i64>
    requires term { IsTerm (length trail.now.declared) term }
    requires other { IsTerm (length trail.now.declared) other }
{
    let mut value = passed;
    for _ in 0..MOST_VALUES {
        value = next_value(trail, term, &value)?;
        if !may_be(trail, other, &value) {
            return Some(value);
        }
    }
    None
}

/// Adds that the first of two equal terms stands so to each value of the term that the other may not be, as far as few.
fn add_lacks(
    trail: &Trail,
    term: Term,
    other: Term,
    op: Op,
    bounds: &mut Items<Bound>,
) -> Result<(), Memory>
    requires term { IsTerm (length trail.now.declared) term }
    requires other { IsTerm (length trail.now.declared) other }
{
    let mut passed = i64::MIN;
    for _ in 0..MOST_VALUES {
        let Some(value) = next_lack(trail, term, other, passed) else {
            return Ok(());
        };
        bounds.push((op, value))?;
        passed = value;
    }
    Ok(())
}

/// The least number above the common member that is in one of the sets only. It looks at runs of members, at most so many as are few.
fn first_difference(set: &Domain, other: &Domain, common: i64) -> Option<i64>
    requires one { contains set.now common ≡ true }
    requires other { contains other.now common ≡ true }
{
    let mut value = common;
    for _ in 0..MOST_VALUES {
        let (end, other_end) = (set.run_end(value), other.run_end(value));
        if end != other_end {
            return Some(end.min(other_end) + 1);
        }
        match (set.above(end), other.above(end)) {
            (Some(next), Some(other_next)) => {
                if next != other_next {
                    return Some(next.min(other_next));
                }
                value = next;
            }
            (Some(next), None) => return Some(next),
            (None, next) => return next,
        }
    }
    None
}
