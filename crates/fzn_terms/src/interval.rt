// Intervals of terms.
ghost use Rattle.std.specs.Prelude.{◌≡◌, ◌↔◌, ℕ, List, length, IsTrue};
ghost use Rattle.fzn_domain.specs.IntSet.{IntSet};
ghost use Rattle.fzn_domain.specs.Limits.{IsInLimits};
ghost use Rattle.fzn_domain.specs.Narrow.{NoneEmpty};
ghost use Rattle.fzn_values.specs.Term.{IsTerm};
ghost use Rattle.fzn_sets.specs.Terms.{MayBe};
ghost use Rattle.fzn_terms.specs.Denied.{IsDenied};
ghost use Rattle.fzn_terms.specs.Intervals.{LiesIn, IsLimitedInterval, ends_of};

use crate::claim::Claim;
use crate::values::{greatest_of, least_of};
use fzn_domain::{GREATEST_VALUE, LEAST_VALUE};
use fzn_trail::Trail;
use fzn_values::Term;

/// The numbers from one up to another.
#[derive(Clone, Copy)]
pub struct Interval {
    /// The least number.
    pub low: i64,
    /// The greatest number; where it is below `low` no number is in the interval.
    pub high: i64,
}

impl Interval {
    /// This number alone.
    pub fn only(number: i64) -> Interval
        ensures { result ≡ record { low = number; high = number } }
    {
        Interval {
            low: number,
            high: number,
        }
    }

    /// What a value outside of it fulfils: it is below, or above; or another than the one number of the interval.
    pub fn outside(self, term: Term) -> (Claim, Claim)
        requires limited { IsLimitedInterval self }
        ensures terms { (count : ℕ) → IsTerm count term → IsTerm count result.0.term × IsTerm count result.1.term }
        ensures inside { (sets : List IntSet) → IsDenied sets result.0 → IsDenied sets result.1 → LiesIn sets term self }
    {
        if self.low == self.high {
            return (Claim::other_than(term, self.low), Claim::never());
        }
        (Claim::below(term, self.low), Claim::above(term, self.high))
    }

    /// Whether it has one number.
    pub fn is_single(self) -> bool
        ensures { IsTrue result ↔ (self.low ≡ self.high) }
    {
        self.low == self.high
    }

    /// Whether its ends are numbers of a domain.
    pub fn is_limited(self) -> bool
        ensures { IsTrue result ↔ IsLimitedInterval self }
    {
        LEAST_VALUE <= self.low
            && self.low <= GREATEST_VALUE
            && LEAST_VALUE <= self.high
            && self.high <= GREATEST_VALUE
    }
}

/// From the least to the greatest value that the trail leaves.
pub fn interval_of(trail: &Trail, term: Term) -> Interval
    requires term { IsTerm (length trail.now.declared) term }
    requires filled { NoneEmpty trail.now.sets }
    ensures ends { result ≡ ends_of trail.now.sets term }
    ensures members { MayBe trail.now.sets term result.low × MayBe trail.now.sets term result.high }
    ensures inside { LiesIn trail.now.sets term result }
    ensures limited { IsLimitedInterval result }
{
    Interval {
        low: least_of(trail, term),
        high: greatest_of(trail, term),
    }
}
