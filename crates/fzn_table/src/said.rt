// Of which place each literal of a clause speaks. No contract rests on that: each literal is looked at again.

/// Of so many literals it is known.
pub(crate) const MOST_SAID: usize = 32;

/// The places of the first literals of a clause.
#[derive(Clone, Copy, Debug)]
pub(crate) struct Said {
    places: [usize; MOST_SAID],
    /// The literal that said last that a row is out.
    pub last: usize,
}

impl Said {
    /// Nothing is known of any literal.
    pub(crate) fn new() -> Said {
        Said {
            places: [0; MOST_SAID],
            last: 0,
        }
    }

    /// Notes that the literal of this index speaks of the place.
    pub(crate) fn note(&mut self, i: usize, k: usize) {
        if i < MOST_SAID {
            self.places[i] = k;
            self.last = i;
        }
    }

    /// The place of the literal of this index, as far as it is known.
    pub(crate) fn place_of(&self, i: usize) -> usize {
        if i < MOST_SAID { self.places[i] } else { 0 }
    }
}
