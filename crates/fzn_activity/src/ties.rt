// What breaks ties.

use rand_core::utils::NextWord;
use rand_pcg::Pcg32;

/// Numbers by which the first of equals is taken, or with a seed one by random words.
#[derive(Drop)]
pub struct Ties {
    random: Option<Pcg32>,
}

impl Ties {
    /// Random words by this seed, where there is one.
    pub fn new(seed: Option<u64>) -> Ties {
        Ties {
            random: seed.map(|seed| Pcg32::new(seed, 0)),
        }
    }

    /// A random word where there is a seed, and else the number itself: of equals the one with the least comes first.
    pub fn tie(&mut self, number: u64) -> u64 {
        match &mut self.random {
            Some(random) => {
                let word: u32 = random.next_word();
                word as u64
            }
            None => number,
        }
    }
}
