// Which held clauses may be forgotten, and when some are. Nothing is promised of it: whoever forgets a clause asks whether it may be.
ghost use Rattle.std.specs.Prelude.{◌<◌, length, IfSome};
ghost use Rattle.fzn_clauses.specs.Held.{IsHeld};
ghost use Rattle.fzn_clauses.specs.Watching.{held_by};

use crate::numbers::Numbers;
use crate::ranks::Ranks;
use crate::recent::Recent;
use fzn_clauses::Clauses;
use fzn_domain::Memory;
use fzn_strategy::{Learn, Parameters, hundredths};
use fzn_trail::ClauseId;
use std::alloc::Global;

/// The clauses that may be forgotten, and how many are held and were. Each call that answers `Err` does so where memory runs out.
#[derive(Drop)]
pub struct Stock {
    /// The learned clauses that may be forgotten.
    learned: Ranks,
    /// The clauses of inferences that are held.
    inferred: Recent,
    /// Numbers under which clauses were forgotten.
    free: Vec<ClauseId>,
    /// How many clauses that may be forgotten are held.
    held: usize,
    /// How many were forgotten since the lists of watchers were swept.
    forgotten: usize,
    /// How many learned clauses a restart keeps.
    keep: usize,
    /// Whether the search restarted since clauses were forgotten last.
    has_restarted: bool,
}

impl Stock {
    /// No clause. A restart keeps so many learned ones, the newest, or the share of them that the parameters name; with `Plain` none is ever
    /// forgotten.
    pub(crate) fn new(alloc: Global, keep: u64, learn: Learn, parameters: &Parameters) -> Stock {
        let most = match learn {
            Learn::Plain => usize::MAX,
            Learn::First => parameters.learned_first as usize,
        };
        Stock {
            learned: Ranks::new(alloc, most, parameters),
            inferred: Recent::new(alloc, parameters),
            free: Vec::new(alloc),
            held: 0,
            forgotten: 0,
            keep: hundredths(keep, parameters.kept_at_restart) as usize,
            has_restarted: false,
        }
    }

    /// A clause of this literal block distance was learned.
    pub(crate) fn learn(&mut self, id: ClauseId, block_distance: usize) -> Result<(), Memory> {
        self.held = self.held.saturating_add(1);
        self.learned.push(id, block_distance)
    }

    /// The clause of an inference is held.
    pub fn infer(&mut self, id: ClauseId) -> Result<(), Memory> {
        self.held = self.held.saturating_add(1);
        self.inferred.push(id)
    }

    /// The clauses of these numbers are forgotten, where they may be.
    pub(crate) fn forget(&mut self, ids: &[ClauseId]) -> Result<(), Memory> {
        self.held = self.held.saturating_sub(ids.len());
        self.forgotten = self.forgotten.saturating_add(ids.len());
        self.free.extend_from_slice(ids)?;
        Ok(())
    }

    /// Whether the lists of watchers, of so many variables, are to be swept: they hold no more than some times what was forgotten.
    pub(crate) fn is_sweep_due(&mut self, variables: usize) -> bool {
        if self.forgotten < (self.held / 2).saturating_add(variables) {
            return false;
        }
        self.forgotten = 0;
        true
    }

    /// A number under which a clause was held and none is now, if there is one at hand.
    pub fn next_free(&mut self, clauses: &Clauses, numbers: &Numbers) -> Option<ClauseId>
        ensures in_range { IfSome result (λ id. id.0 < length (held_by clauses.now)) }
        ensures numbered { IfSome result (λ id. id.0 < length numbers.now) }
        ensures free { IfSome result (λ id. IsHeld (held_by clauses.now) id → ⊥) }
    {
        let id = self.free.pop()?;
        let k = id.0 as usize;
        if clauses.is_held(id) || k >= clauses.len() || k >= numbers.as_slice().len() {
            return None;
        }
        Some(id)
    }

    /// The search restarts.
    pub(crate) fn restart(&mut self) {
        self.has_restarted = true;
    }

    /// Whether it did since clauses were forgotten last.
    pub(crate) fn has_restarted(&self) -> bool {
        self.has_restarted
    }

    /// Whether some clauses are to be forgotten.
    pub(crate) fn has_many(&self) -> bool {
        self.has_restarted || self.learned.has_many() || self.inferred.has_many()
    }

    /// The clauses to be forgotten: at a restart also the oldest learned ones beyond those that it keeps.
    pub(crate) fn take_worst(
        &mut self,
        alloc: Global,
        are_reasons: &[bool],
    ) -> Result<Vec<ClauseId>, Memory> {
        let mut worst = Vec::new(alloc);
        self.learned.take_worst(alloc, are_reasons, &mut worst)?;
        self.inferred.take_older(alloc, are_reasons, &mut worst)?;
        if self.has_restarted {
            self.has_restarted = false;
            self.learned
                .take_oldest(alloc, self.keep, are_reasons, &mut worst)?;
        }
        Ok(worst)
    }
}
