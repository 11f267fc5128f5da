// What a search notes for its own speed, by subjects. Nothing is promised of it: what comes of it is tested.
use crate::cited::Cited;
use crate::deleting::Deleting;
use crate::hints::Hints;
use crate::settling::Settling;
use crate::stock::Stock;
use fzn_conflict::Marks;
use fzn_domain::Memory;
use fzn_strategy::{Learn, Parameters};
use fzn_trail::ClauseId;
use std::alloc::Global;

/// What serves the next conflicts. Each call that answers `Err` does so where memory runs out, and nothing is said then of what is noted.
#[derive(Drop)]
pub struct Notes {
    /// What the analysis of conflicts notes of the entries.
    pub marks: Marks,
    /// Which held clauses may be forgotten.
    pub stock: Stock,
    /// When steps are deleted.
    pub deleting: Deleting,
    /// When the entries of level 0 are settled, and what stands for them.
    pub settling: Settling,
    /// On which written clauses what was learned rests.
    pub cited: Cited,
    /// What became of hints.
    pub hints: Hints,
    /// The numbers that the search goes by.
    pub parameters: Parameters,
    /// How many inferences are stacked when it is next looked which of them entries rest on.
    pub next_cut: usize,
    /// How many conflicts there were, at most 2^64 - 1.
    conflicts: u64,
    /// Whether a clause is to be wanted for the objective's bound.
    is_bound_due: bool,
}

impl Notes {
    /// Nothing is noted yet. A restart keeps so many learned clauses, the newest, or the share of them that the parameters name; between
    /// restarts those of the greatest literal block distance are forgotten too, from a number of the parameters on. With `Plain` no learned
    /// clause is ever forgotten, and no step deleted.
    pub fn new(alloc: Global, keep: u64, learn: Learn, parameters: Parameters) -> Notes {
        Notes {
            marks: Marks::new(alloc),
            stock: Stock::new(alloc, keep, learn, &parameters),
            deleting: Deleting::new(learn, &parameters),
            settling: Settling::new(alloc, &parameters),
            cited: Cited::new(alloc),
            hints: Hints::new(),
            parameters,
            next_cut: 0,
            conflicts: 0,
            is_bound_due: false,
        }
    }

    /// A clause of this literal block distance was learned from a conflict.
    pub fn learn(&mut self, id: ClauseId, block_distance: usize) -> Result<(), Memory> {
        self.conflicts = self.conflicts.saturating_add(1);
        self.stock.learn(id, block_distance)
    }

    /// How many conflicts there were.
    pub fn conflicts(&self) -> u64 {
        self.conflicts
    }

    /// How many literals a clause has at least that is forgotten where there are many: one of a single literal may stand for an entry of
    /// level 0.
    pub(crate) fn least_forgotten(&self) -> usize {
        self.parameters.forgotten_length.max(2) as usize
    }

    /// The search restarts.
    pub fn restart(&mut self) {
        self.stock.restart();
        self.hints.restart();
        self.is_bound_due = true;
    }

    /// Whether the search restarted since this was last asked.
    pub fn take_bound_due(&mut self) -> bool {
        let is_due = self.is_bound_due;
        self.is_bound_due = false;
        is_due
    }

    /// The clauses that are to be forgotten, where some are.
    pub(crate) fn take_worst(
        &mut self,
        alloc: Global,
        are_reasons: &[bool],
    ) -> Result<Vec<ClauseId>, Memory> {
        let is_restart = self.stock.has_restarted();
        let worst = self.stock.take_worst(alloc, are_reasons)?;
        self.forget(worst.as_slice(), is_restart)?;
        Ok(worst)
    }

    /// The clauses that stood for entries of level 0 before these were settled and stand for none now, which may be forgotten: so many
    /// entries stand on another trail.
    pub(crate) fn settle(
        &mut self,
        alloc: Global,
        entries: usize,
        are_reasons: &[bool],
    ) -> Result<Vec<ClauseId>, Memory> {
        let idle = self
            .settling
            .settle(alloc, &mut self.marks, entries, are_reasons)?;
        self.forget(idle.as_slice(), false)?;
        Ok(idle)
    }

    /// The clauses of these numbers are forgotten, where they may be.
    fn forget(&mut self, ids: &[ClauseId], is_restart: bool) -> Result<(), Memory> {
        self.deleting.forget(!ids.is_empty(), is_restart);
        self.stock.forget(ids)
    }
}
