// Which propagators of one cost are to be asked, up and down their ranks in turn.
use crate::rank_set::{RankSet, first_in, last_in};
use fzn_domain::Memory;
use std::alloc::Global;

/// Propagators by their ranks. A sweep goes up the ranks, and where no more stand above it goes down again: each propagator that is woken
/// ahead of the sweep is asked in it, each behind it in the next one. So a chain of bounds is gone through once in each direction.
#[derive(Debug, Drop)]
pub struct Sweep {
    waiting: RankSet,
    /// The rank at which the sweep is.
    at: usize,
    is_downward: bool,
}

impl Sweep {
    /// None of so many propagators is to be asked.
    pub fn new(alloc: Global, ranks: usize) -> Result<Sweep, Memory> {
        Ok(Sweep {
            waiting: RankSet::new(alloc, ranks)?,
            at: 0,
            is_downward: false,
        })
    }

    /// How many are to be asked.
    pub fn len(&self) -> usize {
        self.waiting.len()
    }

    /// The one of this rank is to be asked.
    #[inline(always)]
    pub fn push(&mut self, rank: usize) {
        self.waiting.insert(rank);
    }

    /// The rank of the one that is to be asked next, where the sweep is then: it turns where none is ahead.
    #[inline(always)]
    pub fn first(&mut self) -> Option<usize> {
        let word = self.waiting.word(self.at)?;
        let rank = if self.is_downward {
            self.below_or_turn(word)?
        } else {
            self.above_or_turn(word)?
        };
        self.at = rank;
        Some(rank)
    }

    /// The next on the way up, or the first on the way back. The word is that of the rank at which the sweep is.
    #[inline(always)]
    fn above_or_turn(&mut self, word: u64) -> Option<usize> {
        if let Some(rank) = first_in(word, self.at) {
            return Some(rank);
        }
        if !self.waiting.is_in_last_word(self.at)
            && let Some(rank) = self.waiting.behind(self.at)
        {
            return Some(rank);
        }
        self.is_downward = true;
        match last_in(word, self.at) {
            Some(rank) => Some(rank),
            None => self.waiting.ahead_of(self.at),
        }
    }

    /// The next on the way down, or the first on the way back. The word is that of the rank at which the sweep is.
    #[inline(always)]
    fn below_or_turn(&mut self, word: u64) -> Option<usize> {
        if let Some(rank) = last_in(word, self.at) {
            return Some(rank);
        }
        if !self.waiting.is_in_first_word(self.at)
            && let Some(rank) = self.waiting.ahead_of(self.at)
        {
            return Some(rank);
        }
        self.is_downward = false;
        match first_in(word, self.at) {
            Some(rank) => Some(rank),
            None => self.waiting.behind(self.at),
        }
    }

    /// The one at which the sweep is waits for the next sweep.
    pub fn put_off(&mut self) {
        if !self.is_downward {
            self.at = self.at.saturating_add(1);
        } else if self.at > 0 {
            self.at -= 1;
        } else {
            self.is_downward = false;
            self.at = 1;
        }
    }

    /// Takes out the one at which the sweep is.
    #[inline(always)]
    pub fn pop(&mut self) {
        self.waiting.remove(self.at);
    }
}
