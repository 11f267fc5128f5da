// Places of a trail, which come out newest first.
use fzn_domain::Memory;
use std::alloc::Global;

const WORD: usize = 64;

/// A set of places, counted from 0. The greatest is found in a few steps, however many there are.
#[derive(Debug, Drop)]
pub struct Places {
    /// A bit for each place.
    words: Vec<u64>,
    /// A bit for each word, set if that is not 0. It is cleared only once a search finds the word to be 0.
    blocks: Vec<u64>,
    /// No word behind this one has a bit.
    top: usize,
    count: usize,
}

impl Places {
    /// No place.
    pub fn new(alloc: Global) -> Places {
        Places {
            words: Vec::new(alloc),
            blocks: Vec::new(alloc),
            top: 0,
            count: 0,
        }
    }

    /// Takes all places out, and makes room for this many. It answers `Err` where memory runs out.
    pub fn begin(&mut self, places: usize) -> Result<(), Memory> {
        for _ in 0..self.count {
            self.take_last();
        }
        let words = places / WORD + 1;
        for _ in self.words.len()..words {
            self.words.push(0)?;
        }
        for _ in self.blocks.len()..words / WORD + 1 {
            self.blocks.push(0)?;
        }
        Ok(())
    }

    /// How many there are.
    pub fn len(&self) -> usize {
        self.count
    }

    /// Whether there is none.
    pub fn is_empty(&self) -> bool {
        self.count == 0
    }

    /// Puts a place in, where there is room for it.
    #[inline(always)]
    pub fn insert(&mut self, place: usize) {
        let at = place / WORD;
        if at >= self.words.len() {
            return;
        }
        let word = self.words[at];
        let more = word | 1 << (place % WORD);
        if more != word {
            self.words[at] = more;
            self.count = self.count.wrapping_add(1);
            self.top = if self.count == 1 {
                at
            } else {
                self.top.max(at)
            };
            if word == 0 && at / WORD < self.blocks.len() {
                self.blocks[at / WORD] |= 1 << (at % WORD);
            }
        }
    }

    /// The greatest place, which is taken out.
    #[inline(always)]
    pub fn take_last(&mut self) -> Option<usize> {
        if self.count == 0 {
            return None;
        }
        if self.words.get(self.top).copied()? == 0 {
            self.top = self.word_ahead(self.top)?;
        }
        let at = self.top;
        if at >= self.words.len() {
            return None;
        }
        let word = self.words[at];
        let place = last_in(at, word);
        self.words[at] = word & !(1 << (place % WORD));
        self.count = self.count.wrapping_sub(1);
        Some(place)
    }

    /// The last word ahead of this one that has a bit.
    fn word_ahead(&mut self, word: usize) -> Option<usize> {
        let mut at = word;
        for _ in 0..word {
            at = last_bit(&self.blocks, at)?;
            if self.words.get(at).copied()? != 0 {
                return Some(at);
            }
            let block = at / WORD;
            if block < self.blocks.len() {
                self.blocks[block] &= !(1 << (at % WORD));
            }
        }
        None
    }

    /// Takes all places out, and puts them into the list, the greatest first.
    pub fn move_to(&mut self, list: &mut Vec<usize>) -> Result<(), Memory> {
        list.clear();
        for _ in 0..self.count {
            if let Some(place) = self.take_last() {
                list.push(place)?;
            }
        }
        Ok(())
    }
}

/// The place of the last bit of a word that is not 0, of which so many words stand ahead.
#[inline(always)]
fn last_in(at: usize, word: u64) -> usize {
    let end = at.wrapping_mul(WORD).wrapping_add(WORD - 1);
    end.wrapping_sub(word.leading_zeros() as usize)
}

/// The last bit set before this place.
fn last_bit(words: &Vec<u64>, place: usize) -> Option<usize> {
    let last = place.checked_sub(1)?;
    let start = last / WORD;
    let mut rest = words.get(start).copied()? & (u64::MAX >> (WORD - 1 - last % WORD));
    for back in 0..start.saturating_add(1) {
        let at = start.saturating_sub(back);
        if back > 0 {
            rest = words.get(at).copied()?;
        }
        if rest != 0 {
            return Some(last_in(at, rest));
        }
    }
    None
}
