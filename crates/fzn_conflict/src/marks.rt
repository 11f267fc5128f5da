// Which entries of a trail a conflict rests on.
use crate::outcome::Outcome;
use crate::places::Places;
use crate::roots::Roots;
use fzn_domain::{Lit, Memory, Op, VarId};
use fzn_explanation::{Cause, Causes, Gap, Implications, canonical, implies, opposite};
use fzn_list::Items;
use fzn_trail::{Antecedent, ClauseId, Entry, Reason};
use std::alloc::Global;

/// What a clause is wanted for.
#[derive(Clone, Copy, Debug, PartialEq, Eq)]
pub enum Wanted {
    /// The entry of level 0 at this place.
    Entry(usize),
    /// The gap of this number.
    Gap(usize),
}

/// What an analysis notes of the entries of a trail, by their places from 0. It is kept from one analysis to the next, so that each costs
/// what it touches, and no list is made anew. Each call that answers `Err` does so where memory runs out, and nothing is said then of what
/// is marked until `begin`.
#[derive(Drop)]
pub struct Marks {
    /// The literal that is needed of each marked entry, and no literal of the others.
    needs: Vec<Lit>,
    /// The marked entries above level 0, in the order in which they were marked.
    pub(crate) marked: Vec<usize>,
    /// Those of them that stand below the conflict's level.
    pub(crate) lower: Vec<usize>,
    /// Those that stand at that level and are not replaced.
    pub(crate) open: Places,
    /// The marked entries of level 0, in that order.
    pub(crate) rooted: Vec<usize>,
    /// The equations that the clauses of the analysis need, once for each clause.
    pub(crate) equations: Vec<Lit>,
    /// What is made of the marked entries.
    pub(crate) outcome: Outcome,
    causes: Causes,
    /// What is known of the entries of level 0.
    roots: Roots,
    /// How many entries stand at level 0.
    root_count: usize,
    /// How many stand below the highest level of an entry that the conflict rests on, once it is known.
    start: usize,
}

/// What is needed of an entry that is not marked.
const NO_LITERAL: Lit = Lit {
    var: VarId(0),
    op: Op::AtMost,
    value: 0,
};

impl Marks {
    /// Nothing is marked.
    pub fn new(alloc: Global) -> Marks {
        Marks {
            needs: Vec::new(alloc),
            marked: Vec::new(alloc),
            lower: Vec::new(alloc),
            open: Places::new(alloc),
            rooted: Vec::new(alloc),
            equations: Vec::new(alloc),
            outcome: Outcome::new(alloc),
            causes: Causes::new(alloc),
            roots: Roots::new(alloc),
            root_count: 0,
            start: usize::MAX,
        }
    }

    /// Takes all marks away, which costs least while they are at hand.
    pub fn clear(&mut self) {
        clear_at(&mut self.needs, &self.marked);
        clear_at(&mut self.needs, &self.rooted);
        self.marked.clear();
        self.rooted.clear();
    }

    /// Takes all marks away, and makes room for the entries.
    pub fn begin(&mut self, graph: &Implications) -> Result<(), Memory> {
        self.clear();
        self.lower.clear();
        self.equations.clear();
        self.open.begin(graph.trail.len())?;
        self.outcome.begin(graph)?;
        self.causes.begin(graph)?;
        self.root_count = graph.root_count();
        self.start = usize::MAX;
        for _ in self.needs.len()..graph.trail.len() {
            self.needs.push(NO_LITERAL)?;
        }
        Ok(())
    }

    /// Of the trail's entries only the first so many are sure to stand.
    pub fn rewind(&mut self, entries: usize) {
        self.causes.rewind(entries);
    }

    /// The literal that is needed of a marked entry.
    pub fn need(&self, place: usize) -> Option<Lit> {
        match self.needs.get(place) {
            Some(need) if need.var.0 > 0 => Some(*need),
            _ => None,
        }
    }

    /// Finds the highest level of a marked entry, and which of them stand there.
    pub fn find_level(&mut self, graph: &Implications) -> Result<usize, Memory> {
        let mut newest = 0;
        for place in &self.marked {
            newest = newest.max(*place);
        }
        let Some(entry) = graph.entry(newest) else {
            return Ok(0);
        };
        if self.marked.is_empty() {
            return Ok(0);
        }
        self.start = graph.first_at(entry.level);
        self.lower.clear();
        for place in &self.marked {
            if *place < self.start {
                self.lower.push(*place)?;
            } else {
                self.open.insert(*place);
            }
        }
        Ok(entry.level)
    }

    /// Marks an entry. Of one that is marked already the stronger of both literals is needed, or its own.
    #[inline(always)]
    pub fn mark(&mut self, graph: &Implications, cause: Cause) -> Result<(), Memory> {
        let Cause { place, need } = cause;
        if place >= self.needs.len() {
            return Ok(());
        }
        let known = self.needs[place];
        if known.var.0 == 0 {
            self.needs[place] = need;
            return self.note(place);
        }
        if known != need {
            self.needs[place] = stronger(graph, place, known, need);
        }
        Ok(())
    }

    /// Notes an entry that was not marked before.
    #[inline(always)]
    fn note(&mut self, place: usize) -> Result<(), Memory> {
        if place < self.root_count {
            self.rooted.push(place)?;
            return Ok(());
        }
        self.marked.push(place)?;
        if place < self.start {
            self.lower.push(place)?;
        } else {
            self.open.insert(place);
        }
        Ok(())
    }

    /// Marks what made the literals of the conflict's clause false.
    pub fn explain(&mut self, graph: &Implications, conflict: Antecedent) -> Result<(), Memory> {
        self.visit(graph, graph.clause(conflict), NO_LITERAL)?;
        self.causes.note_marked()
    }

    /// Marks what an entry rests on.
    pub fn replace(
        &mut self,
        graph: &Implications,
        place: usize,
        entry: Entry,
    ) -> Result<(), Memory> {
        self.visit(graph, graph.clause_behind(entry), entry.lit)?;
        self.add_behind(graph, place, entry.lit)?;
        self.mark_found(graph)?;
        self.causes.note_marked()
    }

    /// Marks what made the literals of the clause false, but for the one that it forced, and notes the equations among them.
    #[inline(always)]
    fn visit(&mut self, graph: &Implications, clause: &[Lit], forced: Lit) -> Result<(), Memory> {
        for lit in clause {
            if *lit != forced {
                if lit.op == Op::NotEqual {
                    self.equations.push(opposite(*lit))?;
                }
                self.mark_causes(graph, *lit)?;
            }
        }
        Ok(())
    }

    /// Marks what made the literal false.
    #[inline(always)]
    fn mark_causes(&mut self, graph: &Implications, lit: Lit) -> Result<(), Memory> {
        match self.causes.sole(graph, lit) {
            Some(cause) if self.is_whole(graph, cause) => self.mark(graph, cause),
            _ => {
                self.causes.add(graph, lit)?;
                self.mark_found(graph)
            }
        }
    }

    /// Whether nothing stands behind a cause that has to be told with it, or all of it is told: at level 0 what stands behind a literal is
    /// marked with it.
    #[inline(always)]
    fn is_whole(&self, graph: &Implications, cause: Cause) -> bool {
        self.root_count <= cause.place
            || self.needs.get(cause.place) == Some(&cause.need)
            || graph.is_at(cause.place, cause.need)
    }

    /// Marks all causes that were found.
    fn mark_found(&mut self, graph: &Implications) -> Result<(), Memory> {
        for i in 0..self.causes.len() {
            if let Some(cause) = self.causes.get(i) {
                self.mark(graph, cause)?;
            }
        }
        self.causes.take_found();
        Ok(())
    }

    /// Adds what stands behind a marked entry to the causes, where more than its own literal is needed.
    #[inline(always)]
    fn add_behind(&mut self, graph: &Implications, place: usize, own: Lit) -> Result<(), Memory> {
        match self.needs.get(place) {
            Some(need) if *need != own && !implies(own, *need) => {
                let need = *need;
                self.causes.add_behind(graph, Cause { place, need })
            }
            _ => Ok(()),
        }
    }

    /// The clause that stands for a marked entry of level 0, where there is one. Else marks what it rests on, and notes that a clause
    /// is wanted for it, unless its reason says as much.
    pub fn replace_root(
        &mut self,
        graph: &Implications,
        place: usize,
        entry: Entry,
    ) -> Result<Option<ClauseId>, Memory> {
        if let Some(id) = self.roots.unit(place) {
            return Ok(Some(id));
        }
        graph.find_causes(&mut self.causes, entry)?;
        let is_reason_alone = self.causes.len() == 0;
        self.mark_found(graph)?;
        self.causes.note_marked()?;
        if !is_reason_alone {
            self.roots.want(place)?;
        }
        Ok(None)
    }

    /// Whether what is needed of an entry follows from what is needed of other marked entries, and from entries of level 0, which are
    /// marked then.
    pub fn is_redundant(
        &mut self,
        graph: &Implications,
        place: usize,
        entry: Entry,
    ) -> Result<bool, Memory> {
        self.causes.clear();
        for lit in graph.clause_behind(entry) {
            if *lit != entry.lit && !self.are_kept_for(graph, *lit)? {
                return Ok(false);
            }
        }
        let count = self.causes.len();
        self.add_behind(graph, place, entry.lit)?;
        if !self.are_kept_from(count) {
            return Ok(false);
        }
        self.mark_found(graph)?;
        self.causes.note_marked()?;
        Ok(true)
    }

    /// Whether all that made the literal false is kept. What may have to be marked is added to the causes.
    #[inline(always)]
    fn are_kept_for(&mut self, graph: &Implications, lit: Lit) -> Result<bool, Memory> {
        if let Some(cause) = self.causes.sole(graph, lit)
            && self.root_count <= cause.place
        {
            return Ok(self.is_kept(cause));
        }
        let count = self.causes.len();
        self.causes.add(graph, lit)?;
        Ok(self.are_kept_from(count))
    }

    /// Whether the causes after the first so many are kept.
    fn are_kept_from(&self, count: usize) -> bool {
        for i in count..self.causes.len() {
            if let Some(cause) = self.causes.get(i)
                && !self.is_kept(cause)
            {
                return false;
            }
        }
        true
    }

    /// Whether it stands at level 0, or follows from what is needed of its entry.
    #[inline(always)]
    fn is_kept(&self, cause: Cause) -> bool {
        if cause.place < self.root_count {
            return true;
        }
        match self.needs.get(cause.place) {
            Some(need) if need.var.0 > 0 => *need == cause.need || implies(*need, cause.need),
            _ => false,
        }
    }

    /// Puts in order what is kept and what is replaced.
    pub fn settle(&mut self) -> Result<(), Memory> {
        self.outcome.deny_kept(self.needs.as_slice())?;
        self.outcome.put_in_order(self.causes.cited())
    }

    /// The clause that stands for the entry of level 0 at this place, where there is one.
    pub fn unit(&self, place: usize) -> Option<ClauseId> {
        self.roots.unit(place)
    }

    /// Notes that a clause is wanted for the entry of level 0 at this place, if it is the first time.
    pub fn want(&mut self, place: usize) -> Result<(), Memory> {
        self.roots.want(place)
    }

    /// Another trail is to come: nothing is known of its entries. Adds the clauses that stand for entries of the one so far to the others.
    pub fn leave(&mut self, units: &mut Vec<ClauseId>) -> Result<(), Memory> {
        self.causes.leave();
        self.roots.leave(units)
    }

    /// Whether a clause is wanted for anything.
    pub fn is_wanting(&self) -> bool {
        self.roots.is_wanting() || self.causes.gaps.is_wanting()
    }

    /// What a clause is wanted for, which is no longer noted: an entry of level 0, those first on which others rest, and then a gap.
    pub fn next_wanted(&mut self) -> Option<Wanted> {
        match self.roots.next_wanted() {
            Some(place) => Some(Wanted::Entry(place)),
            None => {
                let number = self.causes.gaps.next_wanted()?;
                Some(Wanted::Gap(number))
            }
        }
    }

    /// The clause stands for what it was wanted for.
    pub fn stand_for(&mut self, wanted: Wanted, id: ClauseId) {
        match wanted {
            Wanted::Entry(place) => self.roots.stand_for(place, id),
            Wanted::Gap(number) => self.causes.gaps.stand_for(number, id),
        }
    }

    /// The gap of this number.
    pub fn gap(&self, number: usize) -> Option<Gap> {
        self.causes.gaps.gap(number)
    }

    /// What the values of a gap were taken out by: what stands for these entries.
    pub fn gap_antecedents(
        &self,
        alloc: Global,
        graph: &Implications,
        gap: Gap,
    ) -> Result<Items<Antecedent>, Memory> {
        let mut places = Vec::new(alloc);
        let mut last = graph.last_of(VarId(gap.var));
        for _ in 0..graph.trail.len() {
            let Some(place) = last else {
                break;
            };
            let Some(entry) = graph.entry(place) else {
                break;
            };
            if entry.level == 0
                && entry.lit.op == Op::NotEqual
                && gap.below < entry.lit.value
                && entry.lit.value < gap.above
            {
                places.push(place)?;
            }
            last = graph.before(place);
        }
        self.all_cited(alloc, graph, places)
    }

    /// What the literal of an entry of level 0 follows from: what stands for those that it rests on, then its reason.
    pub fn root_antecedents(
        &mut self,
        alloc: Global,
        graph: &Implications,
        entry: Entry,
    ) -> Result<Items<Antecedent>, Memory> {
        self.causes.begin(graph)?;
        graph.find_causes(&mut self.causes, entry)?;
        let mut places = Vec::with_capacity(alloc, self.causes.len())?;
        for i in 0..self.causes.len() {
            if let Some(cause) = self.causes.get(i) {
                places.push(cause.place)?;
            }
        }
        let mut antecedents = self.all_cited(alloc, graph, places)?;
        if let Reason::Implied(antecedent) = entry.reason {
            antecedents.push(antecedent)?;
        }
        Ok(antecedents)
    }

    /// What stands for these entries of level 0, in the order of the trail.
    fn all_cited(
        &self,
        alloc: Global,
        graph: &Implications,
        mut places: Vec<usize>,
    ) -> Result<Items<Antecedent>, Memory> {
        places.sort_unstable();
        let mut antecedents = Items::with_capacity(alloc, places.len().saturating_add(1))?;
        for place in &places {
            if let Some(cited) = self.cited(graph, *place) {
                antecedents.push(cited)?;
            }
        }
        Ok(antecedents)
    }

    /// What stands for an entry of level 0, or its reason.
    fn cited(&self, graph: &Implications, place: usize) -> Option<Antecedent> {
        if let Some(id) = self.roots.unit(place) {
            return Some(Antecedent::Clause(id));
        }
        match graph.entry(place)?.reason {
            Reason::Decision => None,
            Reason::Implied(antecedent) => Some(antecedent),
        }
    }
}

/// Takes the marks away at these places.
fn clear_at(needs: &mut Vec<Lit>, places: &[usize]) {
    for place in places {
        if *place < needs.len() {
            needs[*place] = NO_LITERAL;
        }
    }
}

/// The stronger of two literals that are needed of an entry, or its own where neither says all.
fn stronger(graph: &Implications, place: usize, known: Lit, need: Lit) -> Lit {
    if implies(known, need) {
        return known;
    }
    if implies(need, known) {
        return need;
    }
    match (graph.entry(place), graph.declared(known.var)) {
        (Some(entry), Some(declared)) => canonical(entry.lit, declared),
        _ => known,
    }
}
