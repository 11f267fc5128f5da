// Which clauses of inferences are forgotten first. Nothing is promised of it: whoever forgets a clause asks whether it may be forgotten.
use fzn_domain::Memory;
use fzn_strategy::{Parameters, hundredths};
use fzn_trail::ClauseId;
use std::alloc::Global;

/// Clauses that may be forgotten, by their numbers, in the order in which they were held.
#[derive(Drop)]
pub struct Recent {
    ids: Vec<ClauseId>,
    /// With more than so many some are forgotten.
    most: usize,
    /// How many more are kept each time, in hundredths.
    growth: u64,
    /// How many are kept at most, however often some were forgotten.
    last_most: usize,
}

impl Recent {
    /// No clause.
    pub fn new(alloc: Global, parameters: &Parameters) -> Recent {
        Recent {
            ids: Vec::new(alloc),
            most: parameters.inferred_first as usize,
            growth: parameters.inferred_growth,
            last_most: parameters.inferred_last as usize,
        }
    }

    /// One more clause, the newest.
    pub fn push(&mut self, id: ClauseId) -> Result<(), Memory> {
        self.ids.push(id)?;
        Ok(())
    }

    /// Whether some are to be forgotten.
    pub fn has_many(&self) -> bool {
        self.ids.len() > self.most
    }

    /// Adds the older half of the clauses to the others, without reasons, where there are many. More are kept from now on.
    pub fn take_older(
        &mut self,
        alloc: Global,
        are_reasons: &[bool],
        older: &mut Vec<ClauseId>,
    ) -> Result<(), Memory> {
        if !self.has_many() {
            return Ok(());
        }
        let more = hundredths(self.most as u64, self.growth) as usize;
        self.most = self.most.saturating_add(more).min(self.last_most);
        let half = self.ids.len() / 2;
        let mut kept = Vec::new(alloc);
        for i in 0..self.ids.len() {
            let id = self.ids[i];
            if i >= half || are_reasons.get(id.0 as usize).copied() == Some(true) {
                kept.push(id)?;
            } else {
                older.push(id)?;
            }
        }
        self.ids = kept;
        Ok(())
    }
}
