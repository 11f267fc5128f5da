// Clauses that two terms share a value, or a claim is true.
ghost use Rattle.std.specs.Prelude.{◌≤ℤ◌, ℤ, List, length, IfOk, IfSome};
ghost use Rattle.fzn_domain.specs.IntSet.{IntSet};
ghost use Rattle.fzn_domain.specs.Limits.{IsInLimits};
ghost use Rattle.fzn_meaning.specs.declared.constraint.Constraint.{Constraint};
ghost use Rattle.fzn_values.specs.Term.{IsTerm};
ghost use Rattle.fzn_rules.specs.declared.rule.Rule.TheVariants as rule;
ghost use Rattle.fzn_sets.specs.Terms.{MayBe};
ghost use Rattle.fzn_propagator.specs.Clause.{IsJustified};
ghost use Rattle.fzn_terms.specs.Denied.{IsDenied};
ghost use Rattle.fzn_terms.specs.Intervals.{IsLimitedInterval};
ghost use Rattle.fzn_equality.specs.Shared.{IsMetApart};

use crate::pair::Pair;
use crate::terms::{Bound, claim_of};
use fzn_domain::{Domain, Lit, Memory};
use fzn_list::Items;
use fzn_terms::{Claim, Interval, MOST_VALUES, explanation_of, may_be};
use fzn_trail::Trail;
use fzn_values::Term;
use std::alloc::Global;

/// The clause that the claim is true, or the one term stands so to the number, or the other term does not.
pub(crate) fn explain_apart(
    alloc: Global,
    trail: &Trail,
    besides: Claim,
    one: Term,
    bound: Bound,
    other: Term,
) -> Result<Option<Items<Lit>>, Memory>
    requires besides { IsTerm (length trail.now.declared) besides.term }
    requires one { IsTerm (length trail.now.declared) one }
    requires other { IsTerm (length trail.now.declared) other }
    ensures { (constraint : Constraint) → IsMetApart (length trail.now.declared) besides one other constraint → IfOk result (λ found. IfSome found (IsJustified trail.now constraint rule.Rows)) }
{
    let claim = claim_of(one, bound);
    let Some(opposite) = claim.opposite(other) else {
        return Ok(None);
    };
    explanation_of(alloc, trail, &[besides, claim, opposite])
}

impl<'a> Pair<'a> {
    /// Whether the two, if they are variables, share no value, as far as a few looks show. Those of which `explain_shared` would have too
    /// many claims share some.
    pub(crate) fn share_none(&self) -> bool {
        if self.ends.low == self.other_ends.low || self.ends.high == self.other_ends.high {
            return false;
        }
        let common = self.common_ends();
        if common.high - common.low >= MOST_VALUES {
            return false;
        }
        match (self.one, self.other) {
            (Term::Variable(one), Term::Variable(other)) => are_apart(
                self.trail.domain(one),
                self.trail.domain(other),
                common.low,
            ),
            _ => false,
        }
    }

    /// The clause that the claim is true, or the two share a value: that one of them is beyond the ends of the other, or is a number which
    /// it can't be now. Nothing where these are many.
    pub(crate) fn explain_shared(
        &self,
        alloc: Global,
        besides: Claim,
    ) -> Result<Option<Items<Lit>>, Memory>
        requires { IsTerm (length self.now.trail.now.declared) besides.term }
        ensures { (constraint : Constraint) → IsMetApart (length self.now.trail.now.declared) besides self.now.one self.now.other constraint → IfOk result (λ found. IfSome found (IsJustified self.now.trail.now constraint rule.Rows)) }
    {
        let common = self.common_ends();
        let mut claims = Items::new(alloc);
        claims.push(self.one_below(common.low))?;
        claims.push(self.one_above(common.high))?;
        let mut value = common.low;
        for _ in 0..MOST_VALUES {
            if common.high < value {
                claims.push(besides)?;
                return explanation_of(alloc, self.trail, claims.as_slice());
            }
            claims.push(self.one_is(value))?;
            value += 1;
        }
        Ok(None)
    }

    /// From the greater one of their least values to the less one of their greatest.
    fn common_ends(&self) -> Interval
        ensures { IsLimitedInterval result }
    {
        let (ends, other) = (self.ends, self.other_ends);
        Interval {
            low: if ends.low < other.low {
                other.low
            } else {
                ends.low
            },
            high: if ends.high < other.high {
                ends.high
            } else {
                other.high
            },
        }
    }

    /// The claim that one of them, the first if the number is its least value, is below the number.
    fn one_below(&self, number: i64) -> Claim
        requires { IsInLimits number }
        ensures term { IsTerm (length self.now.trail.now.declared) result.term }
        ensures denied { (sets : List IntSet) (v : ℤ) → IsDenied sets result → MayBe sets self.now.one v → MayBe sets self.now.other v → number ≤ℤ v }
    {
        if number == self.ends.low {
            Claim::below(self.one, number)
        } else {
            Claim::below(self.other, number)
        }
    }

    /// The claim that one of them, the first if the number is its greatest value, is above the number.
    fn one_above(&self, number: i64) -> Claim
        requires { IsInLimits number }
        ensures term { IsTerm (length self.now.trail.now.declared) result.term }
        ensures denied { (sets : List IntSet) (v : ℤ) → IsDenied sets result → MayBe sets self.now.one v → MayBe sets self.now.other v → v ≤ℤ number }
    {
        if number == self.ends.high {
            Claim::above(self.one, number)
        } else {
            Claim::above(self.other, number)
        }
    }

    /// The claim that one of them is the number which can't be it now, if there is one.
    fn one_is(&self, number: i64) -> Claim
        ensures term { IsTerm (length self.now.trail.now.declared) result.term }
        ensures denied { (sets : List IntSet) → IsDenied sets result → MayBe sets self.now.one number → MayBe sets self.now.other number → ⊥ }
    {
        if may_be(self.trail, self.one, &number) {
            Claim::equal(self.other, number)
        } else {
            Claim::equal(self.one, number)
        }
    }
}

/// Whether two sets, of which none has a value below this number that is the other's, share none: from a value of the one to the next of the
/// other.
fn are_apart(set: &Domain, other: &Domain, low: i64) -> bool {
    let mut passed = low.saturating_sub(1);
    for _ in 0..MOST_VALUES {
        let Some(value) = set.above(passed) else {
            return true;
        };
        if other.contains(value) {
            return false;
        }
        let Some(next) = other.above(value) else {
            return true;
        };
        passed = next - 1;
    }
    false
}
