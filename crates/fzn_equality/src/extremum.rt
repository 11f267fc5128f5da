// Least and greatest entries: by the rule `rows`.
ghost use Rattle.std.specs.Prelude.{◌<◌, ◌<ℤ◌, length, List, IfOk, IfSome};
ghost use Rattle.std.specs.List.{All};
ghost use Rattle.fzn_domain.specs.IntSet.{IntSet};
ghost use Rattle.fzn_domain.specs.Limits.{IsInLimits, IsNearLimits};
ghost use Rattle.fzn_domain.specs.Narrow.{NoneEmpty};
ghost use Rattle.fzn_meaning.specs.declared.constraint.Constraint.TheVariants as constraint;
ghost use Rattle.fzn_values.specs.Term.{IsTerm};
ghost use Rattle.fzn_sets.specs.Terms.{least_value, greatest_value};
ghost use Rattle.fzn_builtin_rules.specs.Rows.{IsBeyond};
ghost use Rattle.fzn_propagator.specs.Inference.{AreFoundOf};
ghost use Rattle.fzn_equality.specs.ExtremumPasses.{IsJustifiedByExtremum, AreFoundOfExtremum};

use crate::extremum::pass::ExtremumPass;
use crate::terms::{Bound, claim_of, values_of_none};
use fzn_domain::{Lit, Memory, Op};
use fzn_list::Items;
use fzn_meaning::Extreme;
use fzn_propagator::Findings;
use fzn_rules::Rule;
use fzn_terms::{Claim, explanation_of, greatest_of, interval_of, least_of};
use fzn_trail::Trail;
use fzn_values::Term;
use std::alloc::Global;

pub(crate) mod pass;

/// Appends to `found` clauses that are false or force a literal each, where the ends and small sets of the places show some.
/// The values of the result are looked at only where the ends show nothing. It answers `Err` where memory runs out; what was found up to
/// then are inferences all the same.
pub fn infer_extremum(
    alloc: Global,
    trail: &Trail,
    number: u64,
    extreme: Extreme,
    entries: &[Term],
    of: Term,
    found: &mut Findings,
) -> Result<(), Memory>
    requires entries { All (IsTerm (length trail.now.declared)) entries.now }
    requires of { IsTerm (length trail.now.declared) of }
    requires filled { NoneEmpty trail.now.sets }
    requires before { AreFoundOf number (constraint.Extremum extreme entries.now of) trail.now found.old }
    ensures { AreFoundOf number (constraint.Extremum extreme entries.now of) trail.now found.new }
{
    let pass = ExtremumPass {
        alloc,
        number,
        trail,
        extreme,
        entries,
        of,
    };
    pass.find(found)
}

impl<'a> ExtremumPass<'a> {
    /// Appends what the pass finds, by the ends, and where they show nothing, by the values of the result.
    fn find(&self, found: &mut Findings) -> Result<(), Memory>
        requires { AreFoundOfExtremum self.now found.old }
        ensures { AreFoundOfExtremum self.now found.new }
    {
        let before = found.len();
        self.hold_extremum(found)?;
        let (ends, is_passed) = self.ends_of_all()?;
        if is_passed {
            self.hold_entries(found)?;
        }
        self.bound_extremum(ends.as_slice(), found)?;
        if before < found.len() {
            return Ok(());
        }
        let span = interval_of(self.trail, self.of);
        let others = values_of_none(self.alloc, self.trail, self.of, span, self.entries, None)?;
        self.bound_extremum(others.as_slice(), found)
    }

    // ---- on the way to the extreme, which goes up to the greatest entry, and down to the least

    /// The first value of the term.
    fn first(&self, term: Term) -> i64
        requires { IsTerm (length self.now.trail.now.declared) term }
        ensures { IsInLimits result }
    {
        match self.extreme {
            Extreme::Greatest => least_of(self.trail, term),
            Extreme::Least => greatest_of(self.trail, term),
        }
    }

    /// The last value of the term.
    fn last(&self, term: Term) -> i64
        requires { IsTerm (length self.now.trail.now.declared) term }
        ensures { IsInLimits result }
    {
        match self.extreme {
            Extreme::Greatest => greatest_of(self.trail, term),
            Extreme::Least => least_of(self.trail, term),
        }
    }

    /// Whether the number comes before the other.
    fn is_before(&self, number: i64, other: i64) -> bool {
        match self.extreme {
            Extreme::Greatest => number < other,
            Extreme::Least => other < number,
        }
    }

    /// The least number on the upper side of where the value is come to, or of where it is passed.
    fn parting(&self, value: i64, is_passed: bool) -> i64
        requires { IsInLimits value }
        ensures { IsNearLimits result }
    {
        match (self.extreme, is_passed) {
            (Extreme::Greatest, false) | (Extreme::Least, true) => value,
            _ => value + 1,
        }
    }

    // ---- what is found

    /// The place of the entry that the result has to reach, whose first value is the last one, and the number that parts the two there.
    fn foremost(&self) -> Option<(usize, i64)>
        ensures place { IfSome result (λ found. found.0 < length self.now.entries.now) }
        ensures number { IfSome result (λ found. IsNearLimits found.1) }
    {
        let mut found = None;
        let mut passed = self.first(self.of);
        for k in 0..self.entries.len() {
            let first = self.first(self.entries[k]);
            if self.is_before(passed, first) {
                passed = first;
                found = Some((k, self.parting(first, false)));
            }
        }
        found
    }

    /// What the result does not pass by all entries, and by the one that alone may be it; and whether an entry may pass its last value.
    fn ends_of_all(&self) -> Result<(Items<Bound>, bool), Memory> {
        let (first, last) = (self.first(self.of), self.last(self.of));
        let (op, mut all, short) = match self.extreme {
            Extreme::Greatest => (Op::AtMost, i64::MIN, first - 1),
            Extreme::Least => (Op::AtLeast, i64::MAX, first + 1),
        };
        let mut several = false;
        let mut alone = None;
        for entry in self.entries {
            let end = self.last(*entry);
            if self.is_before(all, end) {
                all = end;
            }
            if !self.is_before(end, first) {
                several = several || alone.is_some();
                alone = Some(self.first(*entry));
            }
        }
        let mut ends = Items::new(self.alloc);
        if self.is_before(all, last) {
            ends.push((op, all))?;
        }
        if let Some(begin) = alone
            && !several
            && self.is_before(begin, first)
        {
            ends.push((op, short))?;
        }
        Ok((ends, self.is_before(last, all)))
    }

    // ---- what is handed over

    /// The clause that the result reaches the entry from which each other one follows, where it may be short of it.
    fn hold_extremum(&self, found: &mut Findings) -> Result<(), Memory>
        requires { AreFoundOfExtremum self.now found.old }
        ensures { AreFoundOfExtremum self.now found.new }
    {
        let Some((place, number)) = self.foremost() else {
            return Ok(());
        };
        let clause = self.entry_or_extremum(place, number)?;
        found.hand_over(self.number, Rule::Rows, clause)
    }

    /// The clauses that each entry is within the result's last value, where it may be beyond.
    fn hold_entries(&self, found: &mut Findings) -> Result<(), Memory>
        requires { AreFoundOfExtremum self.now found.old }
        ensures { AreFoundOfExtremum self.now found.new }
    {
        let last = self.last(self.of);
        let number = self.parting(last, true);
        for k in 0..self.entries.len() {
            if self.is_before(last, self.last(self.entries[k])) {
                let clause = self.entry_or_extremum(k, number)?;
                found.hand_over(self.number, Rule::Rows, clause)?;
            }
        }
        Ok(())
    }

    /// For each of these: the clause that the result stands so to the number, or an entry does not.
    fn bound_extremum(&self, bounds: &[Bound], found: &mut Findings) -> Result<(), Memory>
        requires { AreFoundOfExtremum self.now found.old }
        ensures { AreFoundOfExtremum self.now found.new }
    {
        for k in 0..bounds.len() {
            let clause = self.extremum_or_entries(bounds[k])?;
            found.hand_over(self.number, Rule::Rows, clause)?;
        }
        Ok(())
    }

    // ---- what refutes

    /// The clause that the entry and the result do not lie on the wrong sides of the number.
    fn entry_or_extremum(&self, place: usize, number: i64) -> Result<Option<Items<Lit>>, Memory>
        requires place { place < length self.now.entries.now }
        requires number { IsNearLimits number }
        ensures { IfOk result (λ found. IfSome found (IsJustifiedByExtremum self.now)) }
    {
        let (lower, upper) = self.in_order(self.entries[place]);
        let claims = [Claim::above(lower, number - 1), Claim::below(upper, number)];
        explanation_of(self.alloc, self.trail, &claims)
    }

    /// The result and an entry, the one first that is never to be less than the other.
    fn in_order(&self, entry: Term) -> (Term, Term)
        requires { IsTerm (length self.now.trail.now.declared) entry }
        ensures lower { IsTerm (length self.now.trail.now.declared) result.0 }
        ensures upper { IsTerm (length self.now.trail.now.declared) result.1 }
        ensures passes { (sets : List IntSet) → greatest_value sets result.0 <ℤ least_value sets result.1 → IsBeyond sets self.now.extreme self.now.of entry }
    {
        match self.extreme {
            Extreme::Greatest => (self.of, entry),
            Extreme::Least => (entry, self.of),
        }
    }

    /// The clause that the result stands so to the number, or an entry does not.
    fn extremum_or_entries(&self, bound: Bound) -> Result<Option<Items<Lit>>, Memory>
        ensures { IfOk result (λ found. IfSome found (IsJustifiedByExtremum self.now)) }
    {
        let claim = claim_of(self.of, bound);
        let mut claims = Items::with_capacity(self.alloc, self.entries.len().saturating_add(1))?;
        claims.push(claim)?;
        for k in 0..self.entries.len() {
            let Some(entry) = claim.opposite(self.entries[k]) else {
                return Ok(None);
            };
            claims.push(entry)?;
        }
        explanation_of(self.alloc, self.trail, claims.as_slice())
    }
}
