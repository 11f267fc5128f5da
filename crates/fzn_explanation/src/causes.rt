// Which entries of a trail made literals false.

use crate::gaps::{Gap, Gaps};
use crate::holes::Row;
use crate::implications::Implications;
use crate::implied::{canonical, implies, opposite};
use crate::orders::{NEAR, Orders};
use fzn_domain::{Domain, Lit, Memory, Op};
use fzn_trail::ClauseId;
use std::alloc::Global;

/// How many values that were taken out are looked for by halves, each by itself.
const FEW: usize = 16;

/// An entry, by its place, and the literal that is needed of it: its own, or one that is true since. A bound that is needed may say more
/// than the entry's own literal, where it moved over values that were out before.
#[derive(Clone, Copy, Debug)]
pub struct Cause {
    /// The place of the entry, counted from 0.
    pub place: usize,
    /// What is needed of it.
    pub need: Lit,
}

/// The values between two numbers, over which a bound moved as they were out before.
#[derive(Clone, Copy, Debug)]
struct Crossing {
    from: i64,
    until: i64,
}

/// What made literals false. What stands behind a bound that moved over values that were out before, the entries that took these out, is
/// given where it is asked for, and of level 0 at once; within one analysis it is given once.
#[derive(Drop)]
pub struct Causes {
    found: Vec<Cause>,
    /// By place: the crossing of the entry whose causes are marked.
    crossings: Vec<Option<Crossing>>,
    /// The places that have one.
    places: Vec<usize>,
    /// How many entries stood at level 0 when the analysis began.
    roots: usize,
    /// The crossings whose causes were found and are not marked yet.
    fresh: Vec<(usize, Crossing)>,
    /// What is known of the entries on each variable.
    orders: Orders,
    /// What is known of gaps of level 0.
    pub gaps: Gaps,
    /// Entries that took out values, by places, each with its value.
    taken_out: Vec<(usize, i64)>,
    /// The clauses of gaps that bounds moved over, with the place of the entry; those of what was found and is not marked yet.
    passed: Vec<(usize, ClauseId)>,
    /// Those of what is marked.
    cited: Vec<(usize, ClauseId)>,
}

impl Causes {
    /// None is found.
    pub fn new(alloc: Global) -> Causes {
        Causes {
            found: Vec::new(alloc),
            crossings: Vec::new(alloc),
            places: Vec::new(alloc),
            roots: 0,
            fresh: Vec::new(alloc),
            orders: Orders::new(alloc),
            gaps: Gaps::new(alloc),
            taken_out: Vec::new(alloc),
            passed: Vec::new(alloc),
            cited: Vec::new(alloc),
        }
    }

    /// Begins an analysis: nothing is found, and nothing is marked. It answers `Err` where memory runs out, and may be asked all the same.
    pub fn begin(&mut self, graph: &Implications) -> Result<(), Memory> {
        for place in &self.places {
            if *place < self.crossings.len() {
                self.crossings[*place] = None;
            }
        }
        self.places.clear();
        self.cited.clear();
        self.clear();
        self.roots = graph.root_count();
        self.orders.take_in(graph)
    }

    /// Of the trail's entries only the first so many are sure to stand.
    pub fn rewind(&mut self, entries: usize) {
        self.orders.rewind(entries);
    }

    /// Another trail is to come: nothing is known of its entries, and of the gaps what was known before.
    pub fn leave(&mut self) {
        self.orders.clear();
    }

    /// None is found.
    pub fn clear(&mut self) {
        self.found.clear();
        self.fresh.clear();
        self.passed.clear();
    }

    /// The clauses of gaps that the marked entries moved over, each with the place of its entry, in the order in which an entry met them.
    pub fn cited(&self) -> &[(usize, ClauseId)] {
        self.cited.as_slice()
    }

    /// What was found is marked, or not wanted; the crossings stay as they are.
    #[inline(always)]
    pub fn take_found(&mut self) {
        self.found.clear();
    }

    /// How many were found.
    pub fn len(&self) -> usize {
        self.found.len()
    }

    /// The cause that was found after so many others.
    pub fn get(&self, i: usize) -> Option<Cause> {
        self.found.get(i).copied()
    }

    /// Notes that all that were found are marked. It answers `Err` where memory runs out, and nothing is said then of what is marked.
    #[inline(always)]
    pub fn note_marked(&mut self) -> Result<(), Memory> {
        if self.fresh.is_empty() && self.passed.is_empty() {
            return Ok(());
        }
        self.note_crossed()
    }

    fn note_crossed(&mut self) -> Result<(), Memory> {
        for (place, crossing) in &self.fresh {
            for _ in self.crossings.len()..place.saturating_add(1) {
                self.crossings.push(None)?;
            }
            if *place < self.crossings.len() {
                self.crossings[*place] = Some(*crossing);
                self.places.push(*place)?;
            }
        }
        self.fresh.clear();
        self.cited.extend_from_slice(self.passed.as_slice())?;
        self.passed.clear();
        Ok(())
    }

    /// The entry that made a literal false, with the literal that is needed of it, where it is one entry, and found on a short way. What
    /// stands behind an entry of level 0 is not told.
    #[inline(always)]
    pub fn sole(&self, graph: &Implications, lit: Lit) -> Option<Cause> {
        let row = self.orders.row(lit.var);
        let need = truth_against(lit, &row)?;
        if !row.has(graph, need) {
            return None;
        }
        let place = self.orders.soon_true(graph, need)?;
        Some(Cause { place, need })
    }

    /// Adds the entries that made the literal false. None is added where it is false on the declared set. It answers `Err` where memory
    /// runs out, and some may be added then.
    pub fn add(&mut self, graph: &Implications, lit: Lit) -> Result<(), Memory> {
        let Some(declared) = graph.declared(lit.var) else {
            return Ok(());
        };
        let truth = canonical(opposite(lit), declared);
        let last = graph.last_of(truth.var);
        if truth.op == Op::Equal {
            return self.add_equation(graph, declared, truth, last);
        }
        if truth.op == Op::NotEqual && !declared.contains(truth.value) {
            return Ok(());
        }
        let place = self.orders.first_true(graph, truth, last)?;
        self.add_from(graph, declared, truth, place)
    }

    /// Adds the entry that made an equation true, or those that moved both bounds to its number.
    fn add_equation(
        &mut self,
        graph: &Implications,
        declared: &Domain,
        truth: Lit,
        last: Option<usize>,
    ) -> Result<(), Memory> {
        let least = Lit {
            op: Op::AtLeast,
            ..truth
        };
        let greatest = Lit {
            op: Op::AtMost,
            ..truth
        };
        let lower = self.orders.first_true(graph, least, last)?;
        let upper = self.orders.first_true(graph, greatest, last)?;
        if let Some(place) = lower
            && lower == upper
            && graph.is_at(place, truth)
        {
            self.found.push(Cause { place, need: truth })?;
            return Ok(());
        }
        self.add_from(graph, declared, least, lower)?;
        self.add_from(graph, declared, greatest, upper)
    }

    /// Adds the entry after which a literal that is no equation is true, where there is one; at level 0 also what stands behind it.
    #[inline(always)]
    fn add_from(
        &mut self,
        graph: &Implications,
        declared: &Domain,
        truth: Lit,
        first: Option<usize>,
    ) -> Result<(), Memory> {
        let Some(place) = first else {
            return Ok(());
        };
        self.found.push(Cause { place, need: truth })?;
        if place < self.roots {
            self.add_behind_root(graph, declared, truth, place)
        } else {
            Ok(())
        }
    }

    /// Adds what stands behind an entry of level 0 after which the literal is true.
    fn add_behind_root(
        &mut self,
        graph: &Implications,
        declared: &Domain,
        truth: Lit,
        place: usize,
    ) -> Result<(), Memory> {
        let mut truth = truth;
        let mut place = place;
        for _ in 0..graph.trail.len() {
            let Some(entry) = graph.entry(place) else {
                return Ok(());
            };
            let lit = canonical(entry.lit, declared);
            if implies(lit, truth) {
                return Ok(());
            }
            let Some(older) = self.add_crossed(graph, declared, place, lit, truth)? else {
                return Ok(());
            };
            truth = older;
            let before = graph.before(place);
            let Some(first) = self.orders.first_true(graph, truth, before)? else {
                return Ok(());
            };
            place = first;
            self.found.push(Cause { place, need: truth })?;
        }
        Ok(())
    }

    /// Adds what stands behind an entry above level 0 of which a bound is needed that says more than its literal: the entries that took
    /// out the values that the bound moved over, and behind an inequality the bound before it. It answers `Err` where memory runs out, and
    /// some may be added then.
    pub fn add_behind(&mut self, graph: &Implications, cause: Cause) -> Result<(), Memory> {
        let Cause { place, need } = cause;
        let Some(entry) = graph.entry(place) else {
            return Ok(());
        };
        if entry.level == 0 || entry.lit == need {
            return Ok(());
        }
        let Some(declared) = graph.declared(entry.lit.var) else {
            return Ok(());
        };
        let lit = canonical(entry.lit, declared);
        if implies(lit, need) {
            return Ok(());
        }
        let Some(older) = self.add_crossed(graph, declared, place, lit, need)? else {
            return Ok(());
        };
        let first = self.orders.first_true(graph, older, graph.before(place))?;
        self.add_from(graph, declared, older, first)
    }

    /// Adds the entries before this one that took out the values that a bound moved over, and gives the bound before it where that
    /// is needed too.
    #[inline(always)]
    fn add_crossed(
        &mut self,
        graph: &Implications,
        declared: &Domain,
        place: usize,
        lit: Lit,
        truth: Lit,
    ) -> Result<Option<Lit>, Memory> {
        let is_bound = lit.op == truth.op;
        // The number that a bound names was crossed, that of an inequality was taken out by it.
        let own = if is_bound { 1 } else { 0 };
        let (from, until) = match truth.op {
            Op::AtLeast => (lit.value.saturating_sub(own), truth.value),
            _ => (truth.value, lit.value.saturating_add(own)),
        };
        let crossing = Crossing { from, until };
        if !self.is_marked(place, crossing) {
            if !self.pass_gaps(graph, declared, place, crossing, truth.op)? {
                self.add_taken_out(graph, declared, place, crossing, None)?;
            }
            self.fresh.push((place, crossing))?;
        }
        if is_bound {
            return Ok(None);
        }
        Ok(Some(Lit {
            value: lit.value,
            ..truth
        }))
    }

    /// Whether what took out the values that the entry's bound moved over is marked.
    fn is_marked(&self, place: usize, crossing: Crossing) -> bool {
        match self.crossings.get(place).copied().flatten() {
            Some(known) => known.from <= crossing.from && crossing.until <= known.until,
            None => false,
        }
    }

    /// Passes over the gaps of level 0 by the clauses that stand for them, and adds the entries before this one that took out the other
    /// values that were crossed. Answers false, and adds nothing, where there is no gap, or one has no clause: then one is wanted.
    fn pass_gaps(
        &mut self,
        graph: &Implications,
        declared: &Domain,
        place: usize,
        crossing: Crossing,
        op: Op,
    ) -> Result<bool, Memory> {
        let Some(root) = self.orders.root_domain(graph, place)? else {
            return Ok(false);
        };
        let Some(entry) = graph.entry(place) else {
            return Ok(false);
        };
        let var = entry.lit.var.0;
        let count = self.passed.len();
        let mut value = crossing.from;
        let mut are_known = true;
        for _ in 0..graph.trail.len() {
            match declared.above(value) {
                Some(next) if next < crossing.until => {
                    value = next;
                    if !root.contains(next)
                        && let Some(below) = root.below(next)
                        && let Some(above) = root.above(next)
                    {
                        let gap = Gap { var, below, above };
                        value = above.saturating_sub(1);
                        match self.gaps.clause(gap) {
                            Some(id) => self.passed.push((place, id))?,
                            None => {
                                are_known = false;
                                self.gaps.want(gap)?;
                            }
                        }
                    }
                }
                _ => break,
            }
        }
        if !are_known || self.passed.len() == count {
            self.passed.truncate(count);
            return Ok(false);
        }
        if op == Op::AtMost && count < self.passed.len() {
            self.passed[count..].reverse();
        }
        self.add_taken_out(graph, declared, place, crossing, Some(root))?;
        Ok(true)
    }

    /// Adds the entries before this one that took out the members of the declared set that were crossed; where a set is given, its
    /// members alone. The newest stand first.
    fn add_taken_out(
        &mut self,
        graph: &Implications,
        declared: &Domain,
        place: usize,
        crossing: Crossing,
        root: Option<&Domain>,
    ) -> Result<(), Memory> {
        let members = match root {
            Some(root) => root,
            None => declared,
        };
        if let Some(entry) = graph.entry(place)
            && self.orders.row(entry.lit.var).is_noted()
        {
            return self.find_taken_out(graph, members, place, crossing);
        }
        let missing = count_between(members, crossing.from, crossing.until, graph.trail.len());
        let count = self.found.len();
        if self.walk_taken_out(graph, members, place, crossing, missing, NEAR)? {
            return Ok(());
        }
        self.found.truncate(count);
        if missing > FEW {
            self.walk_taken_out(graph, members, place, crossing, missing, graph.trail.len())?;
            return Ok(());
        }
        self.find_taken_out(graph, members, place, crossing)
    }

    /// Goes back over so many entries before this one and adds those that took out a member that was crossed. Answers whether all that
    /// are missing were found, or no entry is left.
    fn walk_taken_out(
        &mut self,
        graph: &Implications,
        members: &Domain,
        place: usize,
        crossing: Crossing,
        missing: usize,
        most: usize,
    ) -> Result<bool, Memory> {
        let mut missing = missing;
        let mut at = place;
        for _ in 0..most {
            if missing == 0 {
                return Ok(true);
            }
            let Some(older) = graph.before(at) else {
                return Ok(true);
            };
            at = older;
            if let Some(entry) = graph.entry(at)
                && takes_out(entry.lit, members, crossing)
            {
                self.found.push(Cause {
                    place: at,
                    need: entry.lit,
                })?;
                missing = missing.saturating_sub(1);
            }
        }
        Ok(missing == 0)
    }

    /// Adds the entries before this one that took out a member that was crossed, each found by itself.
    fn find_taken_out(
        &mut self,
        graph: &Implications,
        members: &Domain,
        place: usize,
        crossing: Crossing,
    ) -> Result<(), Memory> {
        let (Some(entry), Some(last)) = (graph.entry(place), graph.before(place)) else {
            return Ok(());
        };
        self.taken_out.clear();
        let mut value = crossing.from;
        for _ in 0..graph.trail.len() {
            match members.above(value) {
                Some(next) if next < crossing.until => value = next,
                _ => break,
            }
            let need = Lit {
                var: entry.lit.var,
                op: Op::NotEqual,
                value,
            };
            if let Some(found) = self.orders.taken_out_by(graph, need, last)?
                && found <= last
            {
                self.taken_out.push((found, value))?;
            }
        }
        self.taken_out.sort_unstable();
        self.taken_out.reverse();
        for (place, value) in &self.taken_out {
            let need = Lit {
                var: entry.lit.var,
                op: Op::NotEqual,
                value: *value,
            };
            self.found.push(Cause {
                place: *place,
                need,
            })?;
        }
        Ok(())
    }
}

/// The literal that is true where the other one is false, which names its number or one next to it, where it is no equation: at an end of the
/// declared set a bound.
#[inline(always)]
fn truth_against(lit: Lit, row: &Row) -> Option<Lit> {
    let value = lit.value;
    let (op, value) = match lit.op {
        Op::AtMost => (Op::AtLeast, value.saturating_add(1)),
        Op::AtLeast => (Op::AtMost, value.saturating_sub(1)),
        Op::Equal if value <= row.low => (Op::AtLeast, value.saturating_add(1)),
        Op::Equal if row.high <= value => (Op::AtMost, value.saturating_sub(1)),
        Op::Equal => (Op::NotEqual, value),
        Op::NotEqual if value <= row.low => (Op::AtMost, value),
        Op::NotEqual if row.high <= value => (Op::AtLeast, value),
        Op::NotEqual => return None,
    };
    Some(Lit { op, value, ..lit })
}

/// Whether the literal takes out a member that was crossed.
fn takes_out(lit: Lit, members: &Domain, crossing: Crossing) -> bool {
    lit.op == Op::NotEqual
        && crossing.from < lit.value
        && lit.value < crossing.until
        && members.contains(lit.value)
}

/// How many members lie between the numbers, at most so many.
fn count_between(declared: &Domain, from: i64, until: i64, most: usize) -> usize {
    let mut value = from;
    for count in 0..most {
        match declared.above(value) {
            Some(next) if next < until => value = next,
            _ => return count,
        }
    }
    most
}
