// On which written clauses what was learned rests.
use fzn_domain::Memory;
use std::alloc::Global;

/// The places, among the written clauses, of those that the last learned clause was the first to rest on.
#[derive(Debug, Drop)]
pub struct Cited {
    places: Vec<usize>,
}

impl Cited {
    pub(crate) fn new(alloc: Global) -> Cited {
        Cited {
            places: Vec::new(alloc),
        }
    }

    /// A clause rests on the written one at this place. It answers `Err` where memory runs out.
    pub fn cite(&mut self, place: usize) -> Result<(), Memory> {
        self.places.push(place)?;
        Ok(())
    }

    /// How many were cited.
    pub fn len(&self) -> usize {
        self.places.len()
    }

    /// The place of one that was cited, which is no longer noted.
    pub fn next_cited(&mut self) -> Option<usize> {
        self.places.pop()
    }

    /// None is noted any longer.
    pub fn clear(&mut self) {
        self.places.clear();
    }
}
