// When the entries of level 0 are settled, and which clauses stand for them.
use fzn_conflict::Marks;
use fzn_domain::Memory;
use fzn_strategy::Parameters;
use fzn_trail::ClauseId;
use std::alloc::Global;

/// When the entries of level 0 are settled, which makes the trail anew with one entry for each bound that is left.
#[derive(Debug, Drop)]
pub struct Settling {
    /// The clauses that stand for entries of level 0 since these were settled.
    units: Vec<ClauseId>,
    /// How many entries of level 0 stand when they are settled next.
    next: usize,
    /// Whether they were since it was asked.
    is_settled: bool,
    /// How many entries of level 0 stand at least when they are settled: so many, and so many for each variable.
    entries: usize,
    entries_each: usize,
}

impl Settling {
    pub(crate) fn new(alloc: Global, parameters: &Parameters) -> Settling {
        Settling {
            units: Vec::new(alloc),
            next: 0,
            is_settled: false,
            entries: parameters.settled_entries as usize,
            entries_each: parameters.settled_entries_each as usize,
        }
    }

    /// Whether so many entries of level 0 are many beside so many variables, and beside those that the last settling left.
    pub fn has_many_entries(&self, entries: usize, variables: usize) -> bool {
        let most = variables
            .saturating_mul(self.entries_each)
            .saturating_add(self.entries);
        entries >= most.max(self.next)
    }

    /// Where settling leaves so many entries, the next one comes with twice as many.
    pub fn expect_entries(&mut self, left: usize) {
        self.next = left.saturating_mul(2);
    }

    /// The entries were settled: so many stand on another trail, and these clauses are their reasons. Gives the clauses that stood for entries
    /// before and for none now.
    pub(crate) fn settle(
        &mut self,
        alloc: Global,
        marks: &mut Marks,
        entries: usize,
        are_reasons: &[bool],
    ) -> Result<Vec<ClauseId>, Memory> {
        self.is_settled = true;
        self.expect_entries(entries);
        marks.leave(&mut self.units)?;
        let mut kept = Vec::new(alloc);
        let mut idle = Vec::new(alloc);
        for id in &self.units {
            if are_reasons.get(id.0 as usize).copied() == Some(true) {
                kept.push(*id)?;
            } else {
                idle.push(*id)?;
            }
        }
        self.units = kept;
        Ok(idle)
    }

    /// Whether the entries were settled since this was last asked.
    pub fn take_settled(&mut self) -> bool {
        let is_settled = self.is_settled;
        self.is_settled = false;
        is_settled
    }
}
