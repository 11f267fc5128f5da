// Clauses of one literal that stand for entries of level 0, which no search drops.

use fzn_domain::Memory;
use fzn_trail::ClauseId;
use std::alloc::Global;

/// How an entry of level 0 is cited.
#[derive(Clone, Copy, Debug, PartialEq, Eq)]
enum Root {
    /// By its reason and what that rests on; no conflict rested on it.
    Unused,
    /// In the same way; a clause is wanted, or was and could not be had.
    Wanted,
    /// By this clause.
    Unit(ClauseId),
}

/// What is known of the entries of level 0, by their places.
#[derive(Drop)]
pub struct Roots {
    roots: Vec<Root>,
    /// Those for which a clause is wanted.
    wanted: Vec<usize>,
    /// Whether they stand last to first.
    sorted: bool,
}

impl Roots {
    /// Nothing is known.
    pub fn new(alloc: Global) -> Roots {
        Roots {
            roots: Vec::new(alloc),
            wanted: Vec::new(alloc),
            sorted: true,
        }
    }

    /// The clause that stands for the entry.
    pub fn unit(&self, place: usize) -> Option<ClauseId> {
        match self.roots.get(place) {
            Some(Root::Unit(id)) => Some(*id),
            _ => None,
        }
    }

    /// Notes that a clause is wanted for the entry, if it is the first time.
    pub fn want(&mut self, place: usize) -> Result<(), Memory> {
        for _ in self.roots.len()..place.saturating_add(1) {
            self.roots.push(Root::Unused)?;
        }
        if place < self.roots.len() && self.roots[place] == Root::Unused {
            self.roots[place] = Root::Wanted;
            self.wanted.push(place)?;
            self.sorted = false;
        }
        Ok(())
    }

    /// Whether a clause is wanted for some entry.
    pub fn is_wanting(&self) -> bool {
        !self.wanted.is_empty()
    }

    /// The first of the entries for which a clause is wanted, which is no longer noted.
    pub fn next_wanted(&mut self) -> Option<usize> {
        if !self.sorted {
            self.wanted.sort_unstable();
            self.wanted.reverse();
            self.sorted = true;
        }
        self.wanted.pop()
    }

    /// Adds the clauses that stand for entries to the others. Nothing is known of the entries any more.
    pub fn leave(&mut self, units: &mut Vec<ClauseId>) -> Result<(), Memory> {
        for root in &self.roots {
            if let Root::Unit(id) = *root {
                units.push(id)?;
            }
        }
        self.roots.clear();
        self.wanted.clear();
        Ok(())
    }

    /// The clause stands for the entry.
    pub fn stand_for(&mut self, place: usize, id: ClauseId) {
        if place < self.roots.len() {
            self.roots[place] = Root::Unit(id);
        }
    }
}
