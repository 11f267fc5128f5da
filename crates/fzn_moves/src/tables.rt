// Moves by tables: from other columns to one in which no number stands twice.
use crate::moves::{MOST_VALUES, Move, Moves, Role, use_one, width_of};
use fzn_domain::Memory;
use fzn_meaning::{Constraint, Model};
use fzn_multipliers::{Bounds, Work};
use fzn_values::Term;
use std::alloc::Global;

/// A table of more numbers is left out: a row costs what all its tables have in each round.
const LARGEST_TABLE: usize = 20_000;

/// So many numbers of tables are looked at, at the most.
const MOST_LOOKS: u64 = 400_000;

/// What stands among the entries of moves where there is none: no variable can be it.
pub const NO_ENTRY: i64 = i64::MIN;

/// The places of a table, and its rows one after another.
#[derive(Clone, Copy, Debug)]
pub struct TableView<'a> {
    /// The places, of which each row has an entry.
    pub places: &'a [Term],
    numbers: &'a [Term],
}

impl TableView<'_> {
    /// That of a constraint, where it is a table that is not too large.
    pub fn of(constraint: &Constraint) -> Option<TableView<'_>> {
        let Constraint::Table { places, rows } = constraint else {
            return None;
        };
        let numbers = rows.constants();
        if LARGEST_TABLE < numbers.len() {
            return None;
        }
        Some(TableView {
            places: places.as_slice(),
            numbers,
        })
    }

    /// How many numbers all rows have together.
    pub fn len(self) -> usize {
        self.numbers.len()
    }

    /// How many rows there are.
    pub fn rows(self) -> usize {
        match self.places.len() {
            0 => 0,
            width => self.numbers.len() / width,
        }
    }

    /// What the row has at the place.
    pub fn entry(self, row: usize, place: usize) -> i64 {
        let at = row.saturating_mul(self.places.len()).saturating_add(place);
        match self.numbers.get(at) {
            Some(term) => term.number(),
            None => 0,
        }
    }

    /// Whether each entry of the row may be its place's value.
    pub fn is_declared(self, model: &Model, row: usize) -> bool {
        let mut place = 0usize;
        for term in self.places {
            let entry = self.entry(row, place);
            let may_be = match *term {
                Term::Constant(number) => number == entry,
                Term::Variable(var) => can_be(model, var.0.saturating_sub(1), entry),
            };
            if !may_be {
                return false;
            }
            place = place.saturating_add(1);
        }
        true
    }
}

/// Whether the number lies in the declared set of the variable of this number, less one.
fn can_be(model: &Model, variable: usize, number: i64) -> bool {
    match model.vars.as_slice().get(variable) {
        Some(var) => var.domain.contains(number),
        None => false,
    }
}

/// A column in which no number stands twice, in the rows that can be.
#[derive(Debug, Drop)]
struct Key {
    /// The number of its variable, less one.
    variable: usize,
    /// Its number, counted from 1.
    column: u64,
    /// The least value of its variable.
    low: i64,
    /// By the values from that on: the row that has it.
    rows: Vec<Option<usize>>,
}

impl Moves {
    /// Lets what variables weigh that are used move to the first column of a table in which no number stands twice, which is used then.
    pub(crate) fn add_tables(
        &mut self,
        alloc: Global,
        model: &Model,
        bounds: &[Bounds],
        used: &mut Vec<bool>,
        room: &mut Work,
    ) -> Result<(), Memory> {
        let mut work = Work::new(MOST_LOOKS);
        let mut number = 0u64;
        for constraint in model.constraints.as_slice() {
            number = number.saturating_add(1);
            if let Some(table) = TableView::of(constraint)
                && let Some(key) = self.key_of(alloc, model, table, bounds, used, &mut work)?
            {
                self.move_to_key(number, table, &key, bounds, used, room)?;
            }
        }
        Ok(())
    }

    /// The first variable of the table that may move, and the last other one; the first twice, where there is no other.
    fn movable(
        &self,
        table: TableView<'_>,
        bounds: &[Bounds],
        used: &[bool],
    ) -> Option<(usize, usize)> {
        let mut found = None;
        for term in table.places {
            if let Term::Variable(var) = *term
                && self.is_movable(var.0.saturating_sub(1), bounds, used)
            {
                let variable = var.0.saturating_sub(1);
                found = match found {
                    None => Some((variable, variable)),
                    Some((first, _)) if first != variable => Some((first, variable)),
                    Some(_) => found,
                };
            }
        }
        found
    }

    fn is_movable(&self, variable: usize, bounds: &[Bounds], used: &[bool]) -> bool {
        used.get(variable).copied() == Some(true)
            && self.roles.get(variable).copied() == Some(Role::Open)
            && width_of(bounds, variable).is_some_and(|width| 1 < width)
    }

    /// The first column in which no number stands twice and to which something may move, as long as so much may be looked at.
    fn key_of(
        &self,
        alloc: Global,
        model: &Model,
        table: TableView<'_>,
        bounds: &[Bounds],
        used: &[bool],
        work: &mut Work,
    ) -> Result<Option<Key>, Memory> {
        let Some((one, other)) = self.movable(table, bounds, used) else {
            return Ok(None);
        };
        let mut place = 0usize;
        for term in table.places {
            if let Term::Variable(var) = *term
                && let Some(width) = width_of(bounds, var.0.saturating_sub(1))
                && 1 < width
                && width <= MOST_VALUES
                && (one != var.0.saturating_sub(1) || other != var.0.saturating_sub(1))
                && work.take(width.saturating_add(table.len()))
                && let Some(key) = key_at(alloc, model, table, bounds, place)?
            {
                return Ok(Some(key));
            }
            place = place.saturating_add(1);
        }
        Ok(None)
    }

    /// Lets the other columns move to this one, where they can.
    fn move_to_key(
        &mut self,
        constraint: u64,
        table: TableView<'_>,
        key: &Key,
        bounds: &[Bounds],
        used: &mut Vec<bool>,
        room: &mut Work,
    ) -> Result<(), Memory> {
        let mut place = 0usize;
        for term in table.places {
            if let Term::Variable(var) = *term {
                let value = var.0.saturating_sub(1);
                if self.is_movable(value, bounds, used)
                    && room.take(
                        key.rows
                            .len()
                            .saturating_add(table.rows().saturating_mul(2)),
                    )
                    && self.cast(value, key.variable)
                {
                    self.put_column(constraint, table, key, value, place)?;
                    use_one(key.variable, used);
                }
            }
            place = place.saturating_add(1);
        }
        Ok(())
    }

    /// Puts the move of the variable at this place at the end.
    fn put_column(
        &mut self,
        constraint: u64,
        table: TableView<'_>,
        key: &Key,
        value: usize,
        place: usize,
    ) -> Result<(), Memory> {
        let start = self.entries.len();
        for row in key.rows.iter() {
            self.entries.push(match *row {
                Some(row) => table.entry(row, place),
                None => NO_ENTRY,
            })?;
        }
        self.tables = self.tables.saturating_add(1);
        self.all.push(Move {
            constraint,
            index: key.variable,
            value,
            column: Some(key.column),
            low: key.low,
            start,
            end: self.entries.len(),
        })?;
        Ok(())
    }
}

/// The column at this place, where no number stands there twice.
fn key_at(
    alloc: Global,
    model: &Model,
    table: TableView<'_>,
    bounds: &[Bounds],
    place: usize,
) -> Result<Option<Key>, Memory> {
    let Some(Term::Variable(var)) = table.places.get(place).copied() else {
        return Ok(None);
    };
    let variable = var.0.saturating_sub(1);
    let (Some(width), Some(ends)) = (width_of(bounds, variable), bounds.get(variable)) else {
        return Ok(None);
    };
    let mut rows = vec![in alloc; None; width]?;
    for row in 0..table.rows() {
        if table.is_declared(model, row)
            && !is_put(&mut rows, ends.low, table.entry(row, place), row)
        {
            return Ok(None);
        }
    }
    Ok(Some(Key {
        variable,
        column: (place as u64).saturating_add(1),
        low: ends.low,
        rows,
    }))
}

/// Notes the row of the number. Whether the number had none.
fn is_put(rows: &mut Vec<Option<usize>>, low: i64, number: i64, row: usize) -> bool {
    let distance = usize::try_from(number.saturating_sub(low)).unwrap_or(usize::MAX);
    match rows.get_mut(distance) {
        Some(place) if place.is_none() => {
            *place = Some(row);
            true
        }
        _ => false,
    }
}
