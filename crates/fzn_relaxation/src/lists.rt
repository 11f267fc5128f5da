// The variables whose values are weighed one by one.
use crate::apart::{Apart, Aparts, Kind};
use crate::tables::Tables;
use fzn_domain::Memory;
use fzn_meaning::Model;
use fzn_moves::{Exchange, MOST_VALUES, Move, Moves};
use fzn_multipliers::Bounds;
use fzn_values::Term;
use std::alloc::Global;

/// The values of a variable from its least to its greatest.
#[derive(Clone, Copy, Debug)]
pub struct List {
    /// The number of the variable, less one.
    pub variable: usize,
    /// Its least value.
    pub low: i64,
    /// The place of that.
    pub start: usize,
    /// The place behind its greatest value.
    pub end: usize,
}

impl List {
    /// The place of a value.
    pub fn place_of(self, value: i64) -> Option<usize> {
        let distance = usize::try_from(value.checked_sub(self.low)?).ok()?;
        let place = self.start.checked_add(distance)?;
        if place < self.end { Some(place) } else { None }
    }

    /// The value at a place.
    pub fn value_at(self, place: usize) -> i64 {
        let distance = place.saturating_sub(self.start);
        self.low
            .saturating_add(i64::try_from(distance).unwrap_or(0))
    }
}

/// The lists of those that constraints tell apart, of those to which others move, and of those that are paid by tables.
#[derive(Debug, Drop)]
pub struct Lists {
    /// Those of the constraints that tell apart, then those of the moves, and then those of the tables.
    pub all: Vec<List>,
    /// By the numbers of the variables, less one: the place of the list.
    places: Vec<Option<usize>>,
    /// By the places of the values: whether a value can be.
    allowed: Vec<bool>,
}

impl Lists {
    pub fn of(
        alloc: Global,
        model: &Model,
        bounds: &[Bounds],
        aparts: &Aparts,
        moves: &Moves,
        tables: &Tables,
    ) -> Result<Lists, Memory> {
        let mut lists = Lists {
            all: Vec::new(alloc),
            places: vec![in alloc; None; bounds.len()]?,
            allowed: Vec::new(alloc),
        };
        lists.add_all(model, bounds, aparts, moves, tables)?;
        for apart in aparts.all.iter() {
            lists.bar_outside(aparts, *apart);
        }
        for one in moves.all.iter() {
            lists.bar_without(model, moves, *one);
        }
        for one in moves.exchanges.all.iter() {
            lists.bar_exchanged(model, moves, *one);
        }
        Ok(lists)
    }

    fn add_all(
        &mut self,
        model: &Model,
        bounds: &[Bounds],
        aparts: &Aparts,
        moves: &Moves,
        tables: &Tables,
    ) -> Result<(), Memory> {
        for apart in aparts.all.iter() {
            for term in aparts.terms_of(*apart) {
                if let Term::Variable(var) = *term {
                    self.add(model, bounds, var.0.saturating_sub(1))?;
                }
            }
        }
        for one in moves.all.iter() {
            self.add(model, bounds, one.index)?;
        }
        for table in tables.all.iter() {
            for column in tables.columns_of(*table) {
                self.add(model, bounds, column.variable)?;
            }
        }
        Ok(())
    }

    /// Lists the values of a variable, where it has no list.
    fn add(&mut self, model: &Model, bounds: &[Bounds], variable: usize) -> Result<(), Memory> {
        let start = self.allowed.len();
        let (Some(place), Some(bounds), Some(var)) = (
            self.places.get_mut(variable),
            bounds.get(variable),
            model.vars.as_slice().get(variable),
        ) else {
            return Ok(());
        };
        let width = usize::try_from(bounds.width().saturating_add(1)).unwrap_or(0);
        if place.is_some() || MOST_VALUES < width {
            return Ok(());
        }
        *place = Some(self.all.len());
        let mut value = bounds.low;
        for _ in 0..width {
            self.allowed.push(var.domain.contains(value))?;
            value = value.saturating_add(1);
        }
        self.all.push(List {
            variable,
            low: bounds.low,
            start,
            end: self.allowed.len(),
        })?;
        Ok(())
    }

    /// The list of the variable.
    pub fn list_of(&self, variable: usize) -> Option<List> {
        let place = self.places.get(variable).copied().flatten()?;
        self.all.get(place).copied()
    }

    /// Whether the value at this place can be.
    pub fn is_allowed(&self, place: usize) -> bool {
        self.allowed.get(place).copied() == Some(true)
    }

    /// How many values are listed.
    pub fn len(&self) -> usize {
        self.allowed.len()
    }

    fn bar(&mut self, place: usize) {
        if let Some(allowed) = self.allowed.get_mut(place) {
            *allowed = false;
        }
    }

    /// Bars what a place of a circuit or of an inverse can't be.
    fn bar_outside(&mut self, aparts: &Aparts, apart: Apart) {
        let mut own = 0i64;
        for term in aparts.terms_of(apart) {
            own = own.saturating_add(1);
            if let Term::Variable(var) = *term
                && let Some(list) = self.list_of(var.0.saturating_sub(1))
            {
                for place in list.start..list.end {
                    let value = list.value_at(place);
                    let is_own = apart.kind == Kind::Circuit && 1 < apart.count && value == own;
                    if is_own || apart.place_of(value).is_none() {
                        self.bar(place);
                    }
                }
            }
        }
    }

    /// Bars the indices at which there is no entry, or one that the value can't be.
    fn bar_without(&mut self, model: &Model, moves: &Moves, one: Move) {
        let Some(list) = self.list_of(one.index) else {
            return;
        };
        for place in list.start..list.end {
            let can_be = match moves.entry_at(one, list.value_at(place)) {
                Some(entry) => self.can_be(model, one.value, entry),
                None => false,
            };
            if !can_be {
                self.bar(place);
            }
        }
    }

    /// Bars the number of the place where the place can't be the number of the other.
    fn bar_exchanged(&mut self, model: &Model, moves: &Moves, one: Exchange) {
        let mut number = 0i64;
        for variable in moves.exchanges.places_of(one) {
            number = number.saturating_add(1);
            if !self.can_be(model, one.variable, number)
                && let Some(list) = self.list_of(*variable)
                && let Some(place) = list.place_of(one.number)
            {
                self.bar(place);
            }
        }
    }

    /// Whether the variable can be the value.
    fn can_be(&self, model: &Model, variable: usize, value: i64) -> bool {
        let Some(list) = self.list_of(variable) else {
            return match model.vars.as_slice().get(variable) {
                Some(var) => var.domain.contains(value),
                None => false,
            };
        };
        match list.place_of(value) {
            Some(place) => self.is_allowed(place),
            None => false,
        }
    }

    /// Whether each variable has a value that can be.
    pub fn can_all_be(&self) -> bool {
        for list in self.all.iter() {
            if !self.has_some(*list) {
                return false;
            }
        }
        true
    }

    fn has_some(&self, list: List) -> bool {
        for place in list.start..list.end {
            if self.is_allowed(place) {
                return true;
            }
        }
        false
    }
}
