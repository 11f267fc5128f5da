// Which of so many ranks are in.
use fzn_domain::Memory;
use std::alloc::Global;

const WORD: usize = 64;

/// A set of ranks, each below a number that is given first. The next of them in either direction is found in a few steps, however many
/// there are.
#[derive(Debug, Drop)]
pub struct RankSet {
    /// A bit for each rank.
    words: Vec<u64>,
    /// A bit for each word, set if that is not 0. It is cleared only once a search finds the word to be 0.
    blocks: Vec<u64>,
    count: usize,
}

impl RankSet {
    /// None of so many ranks is in.
    pub fn new(alloc: Global, ranks: usize) -> Result<RankSet, Memory> {
        let words = ranks / WORD + 1;
        Ok(RankSet {
            words: vec![in alloc; 0; words]?,
            blocks: vec![in alloc; 0; words / WORD + 1]?,
            count: 0,
        })
    }

    /// How many are in.
    pub fn len(&self) -> usize {
        self.count
    }

    /// This rank is in, where it is below the number of all.
    #[inline(always)]
    pub fn insert(&mut self, rank: usize) {
        let at = rank / WORD;
        if at >= self.words.len() {
            return;
        }
        let word = self.words[at];
        let more = word | 1 << (rank % WORD);
        if more != word {
            self.words[at] = more;
            self.count = self.count.wrapping_add(1);
            if word == 0 && at / WORD < self.blocks.len() {
                self.blocks[at / WORD] |= 1 << (at % WORD);
            }
        }
    }

    /// This rank is not in.
    #[inline(always)]
    pub fn remove(&mut self, rank: usize) {
        let at = rank / WORD;
        if at >= self.words.len() {
            return;
        }
        let word = self.words[at];
        let less = word & !(1 << (rank % WORD));
        if less != word {
            self.words[at] = less;
            self.count = self.count.wrapping_sub(1);
        }
    }

    /// The bits of this rank and of those that share a word with it, where it is below the number of all.
    #[inline(always)]
    pub fn word(&self, rank: usize) -> Option<u64> {
        self.words.get(rank / WORD).copied()
    }

    /// Whether no word is behind that of this rank.
    pub fn is_in_last_word(&self, rank: usize) -> bool {
        self.words.len() <= (rank / WORD).saturating_add(1)
    }

    /// The first that is in behind the word of this rank.
    #[inline(always)]
    pub fn behind(&mut self, rank: usize) -> Option<usize> {
        let mut next = (rank / WORD).saturating_add(1);
        for _ in next..self.words.len() {
            next = first_bit(&self.blocks, next)?;
            let word = self.words.get(next).copied()?;
            if word != 0 {
                let start = next.saturating_mul(WORD);
                return Some(start.saturating_add(word.trailing_zeros() as usize));
            }
            clear_bit(&mut self.blocks, next);
        }
        None
    }

    /// Whether no word is ahead of that of this rank.
    pub fn is_in_first_word(&self, rank: usize) -> bool {
        rank < WORD
    }

    /// The last that is in ahead of the word of this rank.
    #[inline(always)]
    pub fn ahead_of(&mut self, rank: usize) -> Option<usize> {
        let at = rank / WORD;
        for _ in 0..at {
            let last = last_bit(&self.blocks, at)?;
            let word = self.words.get(last).copied()?;
            if word != 0 {
                let end = last.saturating_mul(WORD).saturating_add(WORD - 1);
                return Some(end.saturating_sub(word.leading_zeros() as usize));
            }
            clear_bit(&mut self.blocks, last);
        }
        None
    }
}

/// The first that is in from this rank on, among those of its word.
pub fn first_in(word: u64, rank: usize) -> Option<usize> {
    let rest = word >> (rank % WORD);
    if rest == 0 {
        return None;
    }
    Some(rank.wrapping_add(rest.trailing_zeros() as usize))
}

/// The last that is in up to this rank, among those of its word.
pub fn last_in(word: u64, rank: usize) -> Option<usize> {
    let rest = word << (WORD - 1 - rank % WORD);
    if rest == 0 {
        return None;
    }
    Some(rank.wrapping_sub(rest.leading_zeros() as usize))
}

fn clear_bit(words: &mut Vec<u64>, rank: usize) {
    let at = rank / WORD;
    if at < words.len() {
        words[at] &= !(1 << (rank % WORD));
    }
}

/// The first bit set from this rank on.
fn first_bit(words: &Vec<u64>, rank: usize) -> Option<usize> {
    let start = rank / WORD;
    let mut rest = words.get(start).copied()? & (u64::MAX << (rank % WORD));
    for at in start..words.len() {
        if at > start {
            rest = words[at];
        }
        if rest != 0 {
            return Some(
                at.saturating_mul(WORD)
                    .saturating_add(rest.trailing_zeros() as usize),
            );
        }
    }
    None
}

/// The last bit set before this rank.
fn last_bit(words: &Vec<u64>, rank: usize) -> Option<usize> {
    let last = rank.checked_sub(1)?;
    let start = last / WORD;
    let mut rest = words.get(start).copied()? & (u64::MAX >> (WORD - 1 - last % WORD));
    for back in 0..start.saturating_add(1) {
        let at = start.saturating_sub(back);
        if back > 0 {
            rest = words.get(at).copied()?;
        }
        if rest != 0 {
            let end = at.saturating_mul(WORD).saturating_add(WORD - 1);
            return Some(end.saturating_sub(rest.leading_zeros() as usize));
        }
    }
    None
}
