// Which clauses are forgotten first. Nothing is promised of it: whoever forgets a clause asks whether it may be forgotten.
use fzn_domain::Memory;
use fzn_strategy::{Parameters, hundredths};
use fzn_trail::ClauseId;
use std::alloc::Global;

/// Clauses that may be forgotten, each with a rank and how far its number is from the end: the least of these pairs are kept longest.
/// The newest clause stands last.
#[derive(Drop)]
pub struct Ranks {
    ranks: Vec<(usize, u64)>,
    /// With how many of them some are forgotten.
    most: usize,
    /// How many more are kept each time, in hundredths.
    growth: u64,
    /// How many are kept at most, however often some were forgotten.
    last_most: usize,
}

impl Ranks {
    /// No clause; some are forgotten with more than so many.
    pub fn new(alloc: Global, most: usize, parameters: &Parameters) -> Ranks {
        Ranks {
            ranks: Vec::new(alloc),
            most,
            growth: parameters.learned_growth,
            last_most: parameters.learned_last as usize,
        }
    }

    /// One more clause, the newest. It answers `Err` where memory runs out, and nothing is added.
    pub fn push(&mut self, id: ClauseId, rank: usize) -> Result<(), Memory> {
        self.ranks.push((rank, u64::MAX - id.0))?;
        Ok(())
    }

    /// Whether some are to be forgotten.
    pub fn has_many(&self) -> bool {
        self.ranks.len() > self.most
    }

    /// Adds the worse half of the clauses to the others, without reasons and the newest clause, where there are many. Some more are kept
    /// from now on, up to a limit. It answers `Err` where memory runs out, and nothing is said then of the clauses that are kept.
    pub fn take_worst(
        &mut self,
        alloc: Global,
        are_reasons: &[bool],
        worst: &mut Vec<ClauseId>,
    ) -> Result<(), Memory> {
        if !self.has_many() {
            return Ok(());
        }
        let more = hundredths(self.most as u64, self.growth) as usize;
        self.most = self.most.saturating_add(more).min(self.last_most);
        let newest = self.ranks.pop();
        self.ranks.sort_unstable();
        let half = self.ranks.len() / 2;
        self.take_behind(alloc, half, are_reasons, worst)?;
        if let Some(last) = newest {
            self.ranks.push(last)?;
        }
        Ok(())
    }

    /// Adds the oldest clauses beyond so many to the others, without reasons and the newest clause. One at least is kept. It answers `Err`
    /// where memory runs out, and nothing is said then of the clauses that are kept.
    pub fn take_oldest(
        &mut self,
        alloc: Global,
        keep: usize,
        are_reasons: &[bool],
        oldest: &mut Vec<ClauseId>,
    ) -> Result<(), Memory> {
        self.ranks.sort_unstable_by_key(|rank| rank.1);
        self.take_behind(alloc, keep.max(1), are_reasons, oldest)?;
        self.ranks.reverse();
        Ok(())
    }

    /// Adds those from this place on to the others, without reasons.
    fn take_behind(
        &mut self,
        alloc: Global,
        place: usize,
        are_reasons: &[bool],
        others: &mut Vec<ClauseId>,
    ) -> Result<(), Memory> {
        let mut kept = Vec::new(alloc);
        for i in 0..self.ranks.len() {
            let (rank, from_end) = self.ranks[i];
            let id = u64::MAX - from_end;
            if i < place || are_reasons.get(id as usize).copied() == Some(true) {
                kept.push((rank, from_end))?;
            } else {
                others.push(ClauseId(id))?;
            }
        }
        self.ranks = kept;
        Ok(())
    }
}
