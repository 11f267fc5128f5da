// Elements: by the rule `rows`.
ghost use Rattle.std.specs.Prelude.{◌≡◌, ◌<◌, ◌≤◌, length, List, IfOk, IfSome};
ghost use Rattle.std.specs.List.{All};
ghost use Rattle.fzn_domain.specs.IntSet.{IntSet};
ghost use Rattle.fzn_domain.specs.Narrow.{NoneEmpty};
ghost use Rattle.fzn_meaning.specs.declared.constraint.Constraint.TheVariants as constraint;
ghost use Rattle.fzn_values.specs.Term.{IsTerm};
ghost use Rattle.fzn_terms.specs.Denied.{IsDenied};
ghost use Rattle.fzn_propagator.specs.Inference.{AreFoundOf};
ghost use Rattle.fzn_equality.specs.ElementPasses.{IsJustifiedByElement, AreFoundOfElement, LeavesNoIndex, IsRuledOut};

use crate::element::pass::ElementPass;
use crate::pair::Pair;
use crate::shared::explain_apart;
use crate::terms::{Bound, claim_of, may_lead, values_of_none};
use fzn_domain::{Lit, Memory, Op};
use fzn_list::Items;
use fzn_propagator::Findings;
use fzn_rules::Rule;
use fzn_terms::{Claim, explanation_of, greatest_of, interval_of, is_never, least_of, may_be};
use fzn_trail::Trail;
use fzn_values::Term;
use std::alloc::Global;

pub(crate) mod pass;

/// For how many claims a list has room at first.
const ROOM: usize = 32;

/// Appends to `found` clauses that are false or force a literal each, where the ends and small sets of the places show some.
/// What shows one ends the pass: that the index may lie outside of the list, an entry and the result that have no value in common, an end
/// of the result, or a value of it. Where the index leads to one place, all that is left to show is that the entry there is the result.
/// There are at most 100,000 entries. It answers `Err` where memory runs out; what was found up to then are inferences all the same.
pub fn infer_element(
    alloc: Global,
    trail: &Trail,
    number: u64,
    index: Term,
    entries: &[Term],
    value: Term,
    found: &mut Findings,
) -> Result<(), Memory>
    requires index { IsTerm (length trail.now.declared) index }
    requires entries { All (IsTerm (length trail.now.declared)) entries.now }
    requires short { length entries.now ≤ 100000 }
    requires value { IsTerm (length trail.now.declared) value }
    requires filled { NoneEmpty trail.now.sets }
    requires before { AreFoundOf number (constraint.Element index entries.now value) trail.now found.old }
    ensures { AreFoundOf number (constraint.Element index entries.now value) trail.now found.new }
{
    let pass = ElementPass {
        alloc,
        number,
        trail,
        index,
        leads: interval_of(trail, index),
        entries,
        value,
        ends: interval_of(trail, value),
    };
    pass.find(found)
}

impl<'a> ElementPass<'a> {
    /// Appends what the pass finds, up to what first shows something.
    fn find(&self, found: &mut Findings) -> Result<(), Memory>
        requires { AreFoundOfElement self.now found.old }
        ensures { AreFoundOfElement self.now found.new }
    {
        let before = found.len();
        self.hold_index(true, found)?;
        self.hold_index(false, found)?;
        if before < found.len() {
            return Ok(());
        }
        if self.leads.is_single() {
            return self.equate_entry(found);
        }
        self.part_entries(found)?;
        if before < found.len() {
            return Ok(());
        }
        let ends = self.ends_of_all()?;
        self.bound_value(ends.as_slice(), found)?;
        if before < found.len() {
            return Ok(());
        }
        let others = values_of_none(
            self.alloc,
            self.trail,
            self.value,
            self.ends,
            self.entries,
            Some(self.index),
        )?;
        self.bound_value(others.as_slice(), found)
    }

    // ---- what is found

    /// Whether the index may lead to place k, counted from 0.
    fn may_lead(&self, k: usize) -> bool
        requires { k < length self.now.entries.now }
    {
        may_lead(self.trail, Some(self.index), k)
    }

    /// The greatest and the least value of the entries to which the index may lead, where the result may be beyond it.
    fn ends_of_all(&self) -> Result<Items<Bound>, Memory> {
        let mut least = i64::MAX;
        let mut greatest = i64::MIN;
        for k in 0..self.entries.len() {
            if self.may_lead(k) {
                least = least.min(least_of(self.trail, self.entries[k]));
                greatest = greatest.max(greatest_of(self.trail, self.entries[k]));
            }
        }
        let mut ends = Items::new(self.alloc);
        if greatest < self.ends.high {
            ends.push((Op::AtMost, greatest))?;
        }
        if self.ends.low < least {
            ends.push((Op::AtLeast, least))?;
        }
        Ok(ends)
    }

    /// The result and the entry at this place, counted from 0.
    fn pair_at(&self, place: usize) -> Pair<'a>
        requires { place < length self.now.entries.now }
    {
        Pair {
            trail: self.trail,
            one: self.value,
            other: self.entries[place],
            ends: self.ends,
            other_ends: interval_of(self.trail, self.entries[place]),
        }
    }

    // ---- what is handed over

    /// The clause that the index lies within the list, at its beginning or at its end, where it may lie outside.
    fn hold_index(&self, at_start: bool, found: &mut Findings) -> Result<(), Memory>
        requires { AreFoundOfElement self.now found.old }
        ensures { AreFoundOfElement self.now found.new }
    {
        let is_outside = if at_start {
            self.leads.low < 1
        } else {
            self.leads.high > self.entries.len() as i64
        };
        if is_outside {
            let within = self.index_within(at_start)?;
            found.hand_over(self.number, Rule::Rows, within)?;
        }
        Ok(())
    }

    /// Where the index leads to one place: what the entry there and the result have to be, since the other is.
    fn equate_entry(&self, found: &mut Findings) -> Result<(), Memory>
        requires { AreFoundOfElement self.now found.old }
        ensures { AreFoundOfElement self.now found.new }
    {
        if self.leads.low < 1 || self.leads.low > self.entries.len() as i64 {
            return Ok(());
        }
        let place = self.leads.low as usize - 1;
        let bounds = self.pair_at(place).narrowings(self.alloc)?;
        for k in 0..bounds.len() {
            let clause = self.index_or_shared(place, Some(bounds.as_slice()[k]))?;
            found.hand_over(self.number, Rule::Rows, clause)?;
        }
        Ok(())
    }

    /// For each place to which the index may lead and whose entry has no value in common with the result: the clause that it leads
    /// elsewhere, or they share one.
    fn part_entries(&self, found: &mut Findings) -> Result<(), Memory>
        requires { AreFoundOfElement self.now found.old }
        ensures { AreFoundOfElement self.now found.new }
    {
        for k in 0..self.entries.len() {
            if self.may_lead(k) {
                self.part_entry(k, found)?;
            }
        }
        Ok(())
    }

    /// The same of one place, by the ends or the one value of one of the two, else by all that both may be.
    fn part_entry(&self, place: usize, found: &mut Findings) -> Result<(), Memory>
        requires place { place < length self.now.entries.now }
        requires before { AreFoundOfElement self.now found.old }
        ensures { AreFoundOfElement self.now found.new }
    {
        let pair = self.pair_at(place);
        let bound = pair.apart();
        if bound.is_some() || pair.share_none() {
            let clause = self.index_or_shared(place, bound)?;
            found.hand_over(self.number, Rule::Rows, clause)?;
        }
        Ok(())
    }

    /// For each of these: the clause that the result stands so to the number, or the index leads to an entry that does not.
    fn bound_value(&self, bounds: &[Bound], found: &mut Findings) -> Result<(), Memory>
        requires { AreFoundOfElement self.now found.old }
        ensures { AreFoundOfElement self.now found.new }
    {
        for k in 0..bounds.len() {
            let clause = self.value_or_entries(bounds[k])?;
            found.hand_over(self.number, Rule::Rows, clause)?;
        }
        Ok(())
    }

    // ---- what refutes

    /// The clause that the index lies within the list, at its beginning or at its end.
    fn index_within(&self, at_start: bool) -> Result<Option<Items<Lit>>, Memory>
        ensures { IfOk result (λ found. IfSome found (IsJustifiedByElement self.now)) }
    {
        explanation_of(self.alloc, self.trail, &[self.within(at_start)])
    }

    /// That the index is no less than 1, or no more than the number of entries.
    fn within(&self, at_start: bool) -> Claim
        ensures term { result.term ≡ self.now.index }
        ensures within { (sets : List IntSet) → IsDenied sets result → LeavesNoIndex self.now sets }
    {
        let (op, number) = if at_start {
            (Op::AtLeast, 1)
        } else {
            (Op::AtMost, self.entries.len() as i64)
        };
        Claim {
            term: self.index,
            op,
            number,
        }
    }

    /// The clause that the index is not this place, counted from 0, or the result stands so to the number, or the entry does not; without a
    /// number, that the entry and the result share a value.
    fn index_or_shared(
        &self,
        place: usize,
        bound: Option<Bound>,
    ) -> Result<Option<Items<Lit>>, Memory>
        requires { place < length self.now.entries.now }
        ensures { IfOk result (λ found. IfSome found (IsJustifiedByElement self.now)) }
    {
        let elsewhere = Claim::other_than(self.index, place as i64 + 1);
        let entry = self.entries[place];
        if let Some(bound) = bound {
            return explain_apart(self.alloc, self.trail, elsewhere, self.value, bound, entry);
        }
        let pair = Pair {
            trail: self.trail,
            one: entry,
            other: self.value,
            ends: interval_of(self.trail, entry),
            other_ends: self.ends,
        };
        pair.explain_shared(self.alloc, elsewhere)
    }

    /// The clause that the result stands so to the number, or the index leads to an entry that does not.
    fn value_or_entries(&self, bound: Bound) -> Result<Option<Items<Lit>>, Memory>
        ensures { IfOk result (λ found. IfSome found (IsJustifiedByElement self.now)) }
    {
        let claim = claim_of(self.value, bound);
        let room = self.entries.len().saturating_add(3).min(ROOM);
        let mut claims = Items::with_capacity(self.alloc, room)?;
        claims.push(claim)?;
        claims.push(Claim::below(self.index, self.leads.low))?;
        claims.push(Claim::above(self.index, self.leads.high))?;
        for k in 0..self.entries.len() {
            let place = k as i64 + 1;
            if self.leads.low <= place && place <= self.leads.high {
                let Some(entry) = claim.opposite(self.entries[k]) else {
                    return Ok(None);
                };
                claims.push(other_place_or(self.trail, self.index, k, entry))?;
            }
        }
        explanation_of(self.alloc, self.trail, claims.as_slice())
    }
}

/// That the index leads to place k, counted from 0, where the trail says that it does not; else the claim of the entry there.
fn other_place_or(trail: &Trail, index: Term, k: usize, entry: Claim) -> Claim
    requires index { IsTerm (length trail.now.declared) index }
    requires entry { IsTerm (length trail.now.declared) entry.term }
    requires short { k ≤ 100000 }
    ensures term { IsTerm (length trail.now.declared) result.term }
    ensures denied { (sets : List IntSet) → IsDenied sets result → IsRuledOut sets index k entry }
{
    let place = k as i64 + 1;
    if may_be(trail, index, &place) || is_never(trail, entry) {
        entry
    } else {
        Claim::equal(index, place)
    }
}
