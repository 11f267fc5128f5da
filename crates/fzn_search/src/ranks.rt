// Numbers by the rank that each of them keeps.
use fzn_domain::Memory;
use std::alloc::Global;

const WORD: usize = 64;

/// The numbers from 0 up to a count, each with a rank of its own and in or out. Of those that are in the one with the least rank is
/// found in a few steps, however many there are.
#[derive(Drop)]
pub struct Ranks {
    /// By number.
    ranks: Vec<usize>,
    /// By rank: its number, or 0 of a rank that none has.
    numbers: Vec<usize>,
    /// A bit for each rank whose number is in.
    words: Vec<u64>,
    /// A bit for each word that is not 0.
    blocks: Vec<u64>,
}

impl Ranks {
    /// A number for each of these ranks, which are below the end. All are in.
    pub fn new(alloc: Global, ranks: Vec<usize>, end: usize) -> Result<Ranks, Memory> {
        let words = end / WORD + 1;
        let count = ranks.len();
        let mut all = Ranks {
            numbers: vec![in alloc; 0; end]?,
            words: vec![in alloc; 0; words]?,
            blocks: vec![in alloc; 0; words / WORD + 1]?,
            ranks,
        };
        for number in 0..count {
            let rank = all.rank(number);
            if rank < all.numbers.len() {
                all.numbers[rank] = number;
            }
            all.insert(number);
        }
        Ok(all)
    }

    /// How early the number comes.
    pub fn rank(&self, number: usize) -> usize {
        self.ranks.get(number).copied().unwrap_or(0)
    }

    /// How many numbers there are.
    pub fn len(&self) -> usize {
        self.ranks.len()
    }

    /// The number that is in and has the least rank.
    pub fn first(&self) -> Option<usize> {
        for at in 0..self.blocks.len() {
            let block = self.blocks[at];
            if block != 0 {
                let word = first_in(at, block);
                let rank = first_in(word, self.words.get(word).copied()?);
                return self.numbers.get(rank).copied();
            }
        }
        None
    }

    /// The number is in.
    #[inline(always)]
    pub fn insert(&mut self, number: usize) {
        if let Some(rank) = self.ranks.get(number).copied() {
            let word = rank / WORD;
            if word < self.words.len() && word / WORD < self.blocks.len() {
                self.words[word] |= 1 << (rank % WORD);
                self.blocks[word / WORD] |= 1 << (word % WORD);
            }
        }
    }

    /// The number is out.
    pub fn remove(&mut self, number: usize) {
        if let Some(rank) = self.ranks.get(number).copied() {
            let word = rank / WORD;
            if word < self.words.len() && word / WORD < self.blocks.len() {
                self.words[word] &= !(1 << (rank % WORD));
                if self.words[word] == 0 {
                    self.blocks[word / WORD] &= !(1 << (word % WORD));
                }
            }
        }
    }
}

/// The place of the first bit of a word that is not 0, of which so many words stand ahead.
fn first_in(at: usize, word: u64) -> usize {
    at.wrapping_mul(WORD)
        .wrapping_add(word.trailing_zeros() as usize)
}
