// What an analysis makes of the marked entries.
use crate::places::Places;
use fzn_domain::{Lit, Memory, VarId};
use fzn_explanation::{Implications, implies};
use fzn_trail::{Antecedent, ClauseId};
use std::alloc::Global;

/// Which entries are denied by the learned clause, and which reasons it follows from. It is kept from one analysis to the next, so that no
/// list is made anew.
#[derive(Drop)]
pub struct Outcome {
    /// The entries that are not replaced.
    pub kept: Places,
    /// The entries that are replaced by what they rest on.
    pub replaced: Places,
    /// What stands for entries of level 0.
    pub units: Vec<Antecedent>,
    /// The entries that the clause denies, newest first.
    pub denied: Vec<usize>,
    /// What is needed of them.
    needs: Vec<Lit>,
    /// By variable: how many stood among these when the newest on it had been put there; 0 of those that have none.
    heads: Vec<u32>,
    /// Of each, the same number before it.
    older: Vec<u32>,
    /// The replaced entries, newest first.
    places: Vec<usize>,
    /// Clauses of gaps in the order of the trail, each with its place there and among those of one entry.
    gaps: Vec<(usize, usize, u64)>,
}

impl Outcome {
    /// Nothing is kept, and nothing replaced.
    pub fn new(alloc: Global) -> Outcome {
        Outcome {
            kept: Places::new(alloc),
            replaced: Places::new(alloc),
            units: Vec::new(alloc),
            denied: Vec::new(alloc),
            needs: Vec::new(alloc),
            heads: Vec::new(alloc),
            older: Vec::new(alloc),
            places: Vec::new(alloc),
            gaps: Vec::new(alloc),
        }
    }

    /// Begins an analysis. It answers `Err` where memory runs out.
    pub fn begin(&mut self, graph: &Implications) -> Result<(), Memory> {
        self.kept.begin(graph.trail.len())?;
        self.replaced.begin(graph.trail.len())?;
        self.units.clear();
        self.denied.clear();
        self.needs.clear();
        self.older.clear();
        for _ in self.heads.len()..graph.vars.saturating_add(1) {
            self.heads.push(0)?;
        }
        Ok(())
    }

    /// Denies the kept entries, but for those on whose variable a newer one says more, by what is needed of them.
    pub fn deny_kept(&mut self, needs: &[Lit]) -> Result<(), Memory> {
        for _ in 0..self.kept.len() {
            if let Some(place) = self.kept.take_last()
                && let Some(need) = needs.get(place)
                && !self.says_less(*need)
            {
                let older = self.head(need.var);
                self.older.push(older)?;
                self.denied.push(place)?;
                self.needs.push(*need)?;
                let count = self.needs.len();
                self.set_head(need.var, count);
            }
        }
        for i in 0..self.needs.len() {
            if let Some(need) = self.needs.get(i).copied() {
                self.set_head(need.var, 0);
            }
        }
        Ok(())
    }

    fn head(&self, var: VarId) -> u32 {
        self.heads.get(var.0).copied().unwrap_or(0)
    }

    fn set_head(&mut self, var: VarId, count: usize) {
        if var.0 < self.heads.len() && count <= u32::MAX as usize {
            self.heads[var.0] = count as u32;
        }
    }

    /// Whether the literal follows from one that is needed of a newer entry on its variable.
    #[inline(always)]
    fn says_less(&self, need: Lit) -> bool {
        let mut count = self.head(need.var);
        for _ in 0..self.needs.len() {
            let Some(i) = count.checked_sub(1) else {
                return false;
            };
            if let Some(newer) = self.needs.get(i as usize)
                && implies(*newer, need)
            {
                return true;
            }
            count = self.older.get(i as usize).copied().unwrap_or(0);
        }
        false
    }

    /// Puts the replaced entries into a list, newest first, and the clauses of gaps in the order of the trail.
    pub fn put_in_order(&mut self, gaps: &[(usize, ClauseId)]) -> Result<(), Memory> {
        self.replaced.move_to(&mut self.places)?;
        self.gaps.clear();
        for i in 0..gaps.len() {
            let (place, id) = gaps[i];
            self.gaps.push((place, i, id.0))?;
        }
        self.gaps.sort_unstable();
        Ok(())
    }

    /// The replaced entries, newest first.
    pub fn places(&self) -> &[usize] {
        self.places.as_slice()
    }

    /// The clauses of gaps in the order of the trail, each with its place there and among those of one entry.
    pub fn gaps(&self) -> &[(usize, usize, u64)] {
        self.gaps.as_slice()
    }
}
