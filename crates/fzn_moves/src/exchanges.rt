// The inverses, by which what a place of the second list weighs moves to the places of the first.
use fzn_domain::Memory;
use fzn_values::Term;
use std::alloc::Global;

/// What a place of the second list of an inverse weighs at a number moves to the place of the first list that has the number: to its value
/// that is the number of the other place.
#[derive(Clone, Copy, Debug)]
pub struct Exchange {
    /// The number of the inverse, counted from 1.
    pub constraint: u64,
    /// The number of the variable at the place of the second list, less one.
    pub variable: usize,
    /// The number of the place.
    pub number: i64,
    /// The place of the first variable of the first list.
    start: usize,
    /// The place behind its last one.
    end: usize,
}

/// Those of a model.
#[derive(Debug, Drop)]
pub struct Exchanges {
    /// In the order in which they are made. No variable moves twice, and none moves to one that moves.
    pub all: Vec<Exchange>,
    /// The variables of the first lists, by their numbers less one.
    places: Vec<usize>,
    /// By the numbers of the variables, less one: the place of its move.
    moved: Vec<Option<usize>>,
}

impl Exchanges {
    /// Those of a model with so many variables, before one is added.
    pub(crate) fn new(alloc: Global, vars: usize) -> Result<Exchanges, Memory> {
        Ok(Exchanges {
            all: Vec::new(alloc),
            places: Vec::new(alloc),
            moved: vec![in alloc; None; vars]?,
        })
    }

    /// Adds the variables of a first list: the place of its first one.
    pub(crate) fn add_list(&mut self, terms: &[Term]) -> Result<usize, Memory> {
        let start = self.places.len();
        for term in terms {
            if let Term::Variable(var) = *term {
                self.places.push(var.0.saturating_sub(1))?;
            }
        }
        Ok(start)
    }

    /// Adds the move of a variable to the list that was added last, which begins at this place.
    pub(crate) fn add(
        &mut self,
        constraint: u64,
        variable: usize,
        number: i64,
        start: usize,
    ) -> Result<(), Memory> {
        if let Some(moved) = self.moved.get_mut(variable) {
            *moved = Some(self.all.len());
        }
        self.all.push(Exchange {
            constraint,
            variable,
            number,
            start,
            end: self.places.len(),
        })?;
        Ok(())
    }

    /// The move of the variable.
    pub fn of(&self, variable: usize) -> Option<Exchange> {
        let place = self.moved.get(variable).copied().flatten()?;
        self.all.get(place).copied()
    }

    /// The variables of the first list.
    pub fn places_of(&self, one: Exchange) -> &[usize] {
        if one.start <= one.end && one.end <= self.places.len() {
            &self.places[one.start..one.end]
        } else {
            &[]
        }
    }
}
