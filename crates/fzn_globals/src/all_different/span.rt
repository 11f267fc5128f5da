// An interval of numbers, and terms that lie within it.
ghost use Rattle.std.specs.Prelude.{◌≡◌, ◌≤ℤ◌, ℤ, pos, IsTrue, IfOk, OnOk, length};
ghost use Rattle.fzn_domain.specs.Limits.{IsInLimits};
ghost use Rattle.fzn_values.specs.Term.{IsTerm};
ghost use Rattle.fzn_sets.specs.Terms.{MayBe};
ghost use Rattle.fzn_rules.specs.Hall.{lies_within};
ghost use Rattle.fzn_propagator.specs.Clause.{IsFalseClause};
ghost use Rattle.fzn_terms.specs.Denied.{IsGrown};
ghost use Rattle.fzn_globals.specs.Apart.{numbers, LiesWithin, IsForcedWithin};

use crate::all_different::pass::Pass;
use fzn_domain::{GREATEST_VALUE, LEAST_VALUE, Lit, Memory};
use fzn_intervals::Interval;
use fzn_list::Items;
use fzn_terms::{Claim, explain, force, greatest_of, least_of};
use fzn_values::Term;

/// The numbers from one up to another, within the limits.
#[derive(Clone, Copy, Debug)]
pub(crate) struct Span {
    pub low: i64,
    pub high: i64,
    ghost begins: { IsInLimits low },
    ghost ends: { IsInLimits high },
    ghost ordered: { low ≤ℤ high },
}

impl Span {
    /// The interval, where it has numbers and they are within the limits.
    pub(crate) fn of(interval: &Interval) -> Option<Span> {
        let (low, high) = (interval.low, interval.high);
        if low < LEAST_VALUE {
            return None;
        }
        if GREATEST_VALUE < high {
            return None;
        }
        if low <= high {
            Some(Span { low, high })
        } else {
            None
        }
    }

    /// How many numbers it has.
    pub(crate) fn numbers(&self) -> usize
        ensures { pos result ≡ numbers self.now.low self.now.high }
    {
        (self.high - self.low) as usize + 1
    }
}

pub(crate) fn lies_within(pass: &Pass, term: Term, span: &Span) -> bool
    requires term { IsTerm (length pass.now.trail.now.declared) term }
    ensures value { result ≡ lies_within pass.now.trail.now.sets span.now.low span.now.high term }
    ensures within { IsTrue result → (v : ℤ) → MayBe pass.now.trail.now.sets term v → (span.now.low ≤ℤ v) × (v ≤ℤ span.now.high) }
{
    span.low <= least_of(pass.trail, term) && greatest_of(pass.trail, term) <= span.high
}

/// Adds to a false clause what it takes to say that the term, which lies within the interval, does so.
pub(crate) fn explain_within(
    pass: &Pass,
    term: Term,
    span: &Span,
    clause: &mut Items<Lit>,
) -> Result<(), Memory>
    requires term { IsTerm (length pass.now.trail.now.declared) term }
    requires within { (v : ℤ) → MayBe pass.now.trail.now.sets term v → (span.now.low ≤ℤ v) × (v ≤ℤ span.now.high) }
    requires still { IsFalseClause pass.now.trail.now clause.old }
    ensures { OnOk result (IsGrown pass.now.trail.now (LiesWithin span.now.low span.now.high term) clause.old clause.new) }
{
    explain(pass.trail, Claim::at_least(term, span.low), clause)?;
    explain(pass.trail, Claim::at_most(term, span.high), clause)?;
    Ok(())
}

/// Adds to a false clause what it takes to say that a term, of which one end lies within the interval and the other does not, lies there:
/// the last literal may be true.
pub(crate) fn force_within(
    pass: &Pass,
    term: Term,
    span: &Span,
    clause: &mut Items<Lit>,
) -> Result<bool, Memory>
    requires term { IsTerm (length pass.now.trail.now.declared) term }
    requires still { IsFalseClause pass.now.trail.now clause.old }
    ensures { IfOk result (λ forces. IsTrue forces → IsForcedWithin pass.now.trail.now span.now.low span.now.high term clause.old clause.new) }
{
    if lies_within(pass, term, span) {
        return Ok(false);
    }
    if span.low <= least_of(pass.trail, term) {
        explain(pass.trail, Claim::at_least(term, span.low), clause)?;
        return force(pass.trail, Claim::at_most(term, span.high), clause);
    }
    if greatest_of(pass.trail, term) <= span.high {
        explain(pass.trail, Claim::at_most(term, span.high), clause)?;
        return force(pass.trail, Claim::at_least(term, span.low), clause);
    }
    Ok(false)
}
