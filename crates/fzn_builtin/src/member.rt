// Members of sets: by the rule `rows`.
ghost use Rattle.std.specs.Prelude.{◌≡◌, ◌≤ℤ◌, pos, negsuc, List, length, IfOk, IfSome, IfNone};
ghost use Rattle.std.proofs.Props.{props};
ghost use Rattle.fzn_domain.specs.IntSet.{IntSet};
ghost use Rattle.fzn_domain.specs.Limits.{IsInLimits};
ghost use Rattle.fzn_domain.specs.Narrow.{NoneEmpty};
ghost use Rattle.fzn_meaning.specs.Meaning.{IsSwitch};
ghost use Rattle.fzn_values.specs.Term.{IsTerm};
ghost use Rattle.fzn_terms.specs.Denied.{IsDenied};
ghost use Rattle.fzn_terms.specs.Intervals.{IsLimitedInterval, ends_of};
ghost use Rattle.fzn_terms.specs.Values.{IsTerm-prop};
ghost use Rattle.fzn_builtin.specs.Members.{IsNextAsked, NoneAsked, IsSwitchedTo};

use fzn_domain::{Domain, GREATEST_VALUE, LEAST_VALUE, Lit, Memory};
use fzn_list::Items;
use fzn_propagator::Findings;
use fzn_rules::Rule;
use fzn_terms::{
    Claim, Interval, MOST_VALUES, explanation_of, interval_of, is_fixed, is_thinned, least_of,
    next_value,
};
use fzn_trail::Trail;
use fzn_values::Term;
use std::alloc::Global;

/// One pass over a membership, on a trail on which each present set has a value.
#[derive(Clone, Copy)]
pub(crate) struct Pass<'a> {
    pub alloc: Global,
    /// The number of the constraint, counted from 1.
    pub number: u64,
    pub trail: &'a Trail,
    pub term: Term,
    /// What the term is to be a member of, where the switch is 1 or there is none.
    pub set: &'a Domain,
    pub switch: Option<Term>,
    ghost fits: { IsTerm (length trail.now.declared) term } by { IsTerm-prop _ _ },
    ghost switch_fits: { IsSwitch (length trail.now.declared) switch } by { Prim.hlevel (props, IsTerm-prop) },
    ghost filled: { NoneEmpty trail.now.sets },
}

impl<'a> Pass<'a> {
    ghost use Rattle.fzn_builtin.specs.Passes.{IsJustifiedByMembership, AreFoundOfMembership, AreAsked};

    /// Finds what the values of the term or the switch show.
    pub(crate) fn find(&self, found: &mut Findings) -> Result<(), Memory>
        requires { AreFoundOfMembership self.now found.old }
        ensures { AreFoundOfMembership self.now found.new }
    {
        match self.asked() {
            Some(within) => self.part_misfits(within, found),
            None => {
                let clause = self.explain_switch()?;
                found.hand_over(self.number, Rule::Rows, clause)
            }
        }
    }

    // ---- what is found

    /// Whether the term is to be a member or none, where that is known.
    fn asked(&self) -> Option<bool> {
        match self.switch {
            None => Some(true),
            Some(term) if is_fixed(self.trail, term) => Some(least_of(self.trail, term) == 1),
            _ => None,
        }
    }

    /// Whether all values of the term are members, or none is: told by the first few numbers between them that are otherwise.
    fn are_all(&self, within: bool) -> bool {
        let ends = interval_of(self.trail, self.term);
        let mut from = ends.low;
        for _ in 0..MOST_VALUES {
            let Some(other) = self.next_asked(!within, from) else {
                return true;
            };
            if ends.high < other {
                return true;
            }
            match next_value(self.trail, self.term, &other.saturating_sub(1)) {
                None => return true,
                Some(value) if value == other => return false,
                Some(value) => from = value,
            }
        }
        false
    }

    /// The intervals around each end of the term's values, and around each between them where the term is narrow, in which the set has not
    /// what is asked for.
    fn misfits(&self, within: bool) -> Result<Items<Interval>, Memory> {
        let mut all = Items::new(self.alloc);
        let ends = interval_of(self.trail, self.term);
        let (low, high) = (ends.low, ends.high);
        let mut from = low.saturating_add(1);
        let mut until = high.saturating_sub(1);
        if self.set.contains(low) != within {
            let interval = self.stretch(within, low);
            all.push(interval)?;
            from = interval.high.saturating_add(1);
        }
        if from <= high && self.set.contains(high) != within {
            let interval = self.stretch(within, high);
            all.push(interval)?;
            until = interval.low.saturating_sub(1);
        }
        if from <= until && self.are_looked_at(within, ends) {
            self.add_misfits(within, from, until, &mut all)?;
        }
        Ok(all)
    }

    /// Whether the values of the term are looked at one by one: those that may stay are counted only where that decides.
    fn are_looked_at(&self, within: bool, ends: Interval) -> bool
        requires ends { ends ≡ ends_of self.now.trail.now.sets self.now.term }
        requires limited { IsLimitedInterval ends }
    {
        if !within {
            return is_thinned(self.trail, self.term, ends, usize::MAX);
        }
        is_thinned(self.trail, self.term, ends, 0)
            || is_thinned(self.trail, self.term, ends, self.set.len())
    }

    /// Adds each of the term's values from one number up to another at which the set has not what is asked for.
    fn add_misfits(
        &self,
        within: bool,
        from: i64,
        until: i64,
        all: &mut Items<Interval>,
    ) -> Result<(), Memory> {
        let mut passed = from.saturating_sub(1);
        for _ in 0..MOST_VALUES {
            let Some(value) = next_value(self.trail, self.term, &passed) else {
                return Ok(());
            };
            if until < value {
                return Ok(());
            }
            if self.set.contains(value) != within {
                all.push(Interval::only(value))?;
            }
            passed = value;
        }
        Ok(())
    }

    /// The numbers around a misfit that are misfits too: those up to the next members, or its run of members.
    fn stretch(&self, within: bool, value: i64) -> Interval
        requires { IsInLimits value }
    {
        if within {
            return Interval {
                low: match self.set.below(value) {
                    Some(member) => member + 1,
                    None => LEAST_VALUE,
                },
                high: match self.set.above(value) {
                    Some(member) => member - 1,
                    None => GREATEST_VALUE,
                },
            };
        }
        let high = if self.set.contains(value) {
            self.set.run_end(value)
        } else {
            value
        };
        Interval {
            low: self.run_start(value),
            high,
        }
    }

    /// The first of the members that follow one another up to this one, of which it looks at few.
    fn run_start(&self, value: i64) -> i64
        requires { IsInLimits value }
    {
        for step in 1..MOST_VALUES {
            let before = value.saturating_sub(step);
            if !self.set.contains(before) {
                return before.saturating_add(1);
            }
        }
        value
    }

    // ---- what refutes

    /// Finds for each interval of misfits that the switch says otherwise, or the term has a value elsewhere.
    fn part_misfits(&self, within: bool, found: &mut Findings) -> Result<(), Memory>
        requires { AreFoundOfMembership self.now found.old }
        ensures { AreFoundOfMembership self.now found.new }
    {
        let all = self.misfits(within)?;
        for interval in all.as_slice() {
            let clause = self.elsewhere(within, *interval)?;
            found.hand_over(self.number, Rule::Rows, clause)?;
        }
        Ok(())
    }

    /// The clause that the switch says whether the term is a member, where all of its values are, or none is.
    fn explain_switch(&self) -> Result<Option<Items<Lit>>, Memory>
        ensures { IfOk result (λ found. IfSome found (IsJustifiedByMembership self.now)) }
    {
        let all = interval_of(self.trail, self.term);
        if self.are_all(false) {
            self.elsewhere(true, all)
        } else if self.are_all(true) {
            self.elsewhere(false, all)
        } else {
            Ok(None)
        }
    }

    /// The clause that the switch says otherwise, or the term has a value outside of the interval or one of the few in it asked for.
    fn elsewhere(&self, within: bool, interval: Interval) -> Result<Option<Items<Lit>>, Memory>
        ensures { IfOk result (λ found. IfSome found (IsJustifiedByMembership self.now)) }
    {
        let Some(otherwise) = self.otherwise(within) else {
            return Ok(None);
        };
        if !interval.is_limited() {
            return Ok(None);
        }
        let Some(mut claims) = self.asked_values(within, interval)? else {
            return Ok(None);
        };
        claims.push(otherwise)?;
        explanation_of(self.alloc, self.trail, claims.as_slice())
    }

    /// The claims that the term has a value outside of the interval, or one of those in it that are asked for, where these are few.
    fn asked_values(&self, within: bool, interval: Interval) -> Result<Option<Items<Claim>>, Memory>
        requires limited { IsLimitedInterval interval }
        ensures { IfOk result (λ found. IfSome found (AreAsked self.now within)) }
    {
        let (below, above) = interval.outside(self.term);
        let mut claims = Items::new(self.alloc);
        claims.push(below)?;
        claims.push(above)?;
        let mut from = interval.low;
        for _ in 0..MOST_VALUES {
            let Some(next) = self.next_asked(within, from) else {
                return Ok(Some(claims));
            };
            if interval.high < next {
                return Ok(Some(claims));
            }
            claims.push(Claim::equal(self.term, next))?;
            from = next + 1;
        }
        Ok(None)
    }

    /// The claim that the switch is not what asks for members, or for others. Nothing where, with no switch, members are asked for.
    fn otherwise(&self, within: bool) -> Option<Claim>
        ensures term { IfSome result (λ claim. IsTerm (length self.now.trail.now.declared) claim.term) }
        ensures denied { IfSome result (λ claim. (sets : List IntSet) → IsDenied sets claim → IsSwitchedTo sets self.now.switch within) }
    {
        match self.switch {
            None if within => Some(Claim::never()),
            None => None,
            Some(term) if within => Some(Claim::other_than(term, 1)),
            Some(term) => Some(Claim::other_than(term, 0)),
        }
    }

    /// The first number from this one up that is a member, or that is none.
    fn next_asked(&self, within: bool, from: i64) -> Option<i64>
        requires least { negsuc 999999999 ≤ℤ from }
        requires greatest { from ≤ℤ pos 1000000001 }
        ensures found { IfSome result (IsNextAsked self.now.set.now within from) }
        ensures none { IfNone result (NoneAsked self.now.set.now within from) }
    {
        if within {
            return self.set.above(from - 1);
        }
        if self.set.contains(from) {
            Some(self.set.run_end(from) + 1)
        } else {
            Some(from)
        }
    }
}
