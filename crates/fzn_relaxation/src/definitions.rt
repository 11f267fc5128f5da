// The rows that are used to take variables out of the sum.
use crate::lists::Lists;
use crate::tables::Tables;
use fzn_domain::Memory;
use fzn_moves::Moves;
use fzn_multipliers::{Bounds, Row, Rows, Work};
use std::alloc::Global;

/// A variable that is at least so wide is taken out, where it stands in what defines the objective.
const WIDE: i64 = 400;

/// So many entries of rows are looked at, at the most.
const MOST_LOOKS: u64 = 2_000_000;

/// A row that says what a variable is by others, or at least or at most.
#[derive(Clone, Copy, Debug)]
pub struct Definition {
    /// The number of the variable, less one.
    pub variable: usize,
    /// Its coefficient: 1 or -1.
    pub sign: i64,
    /// An equation, or the one row that has the variable besides those that define others.
    pub row: Row,
}

/// Which rows define which variables.
#[derive(Debug, Drop)]
pub struct Definitions {
    /// Each variable stands in no row behind its own.
    pub all: Vec<Definition>,
    /// By the places of the rows: whether one defines a variable.
    taken: Vec<bool>,
    /// By the numbers of the variables, less one: whether a row behind may not have it.
    seen: Vec<bool>,
    /// By the same: how many rows have it that define no variable.
    counts: Vec<usize>,
    work: Work,
}

impl Definitions {
    /// The objective by a row, the wide variables of that by others, and so on, but for those that are listed or moved or that go to the
    /// rows of tables.
    pub fn of(
        alloc: Global,
        rows: &Rows,
        bounds: &[Bounds],
        objective: Option<usize>,
        lists: &Lists,
        moves: &Moves,
        tables: &Tables,
    ) -> Result<Definitions, Memory> {
        let mut definitions = Definitions {
            all: Vec::new(alloc),
            taken: vec![in alloc; false; rows.rows.len()]?,
            seen: vec![in alloc; false; bounds.len()]?,
            counts: counts_of(alloc, rows, bounds.len())?,
            work: Work::new(MOST_LOOKS),
        };
        let mut waiting = Vec::new(alloc);
        if let Some(objective) = objective
            && lists.list_of(objective).is_none()
        {
            definitions.define(rows, objective, &mut waiting)?;
        }
        for _ in 0..rows.len() {
            let Some(variable) = waiting.pop() else {
                return Ok(definitions);
            };
            if is_wide(bounds, variable)
                && lists.list_of(variable).is_none()
                && !moves.is_moved(variable)
                && !tables.is_giver(variable)
            {
                definitions.define(rows, variable, &mut waiting)?;
            }
        }
        Ok(definitions)
    }

    /// Whether the row at this place defines a variable.
    pub fn is_taken(&self, row: usize) -> bool {
        self.taken.get(row).copied() == Some(true)
    }

    /// Defines the variable by the first row that can be. The others of the row wait.
    fn define(
        &mut self,
        rows: &Rows,
        variable: usize,
        waiting: &mut Vec<usize>,
    ) -> Result<(), Memory> {
        if self.is_seen(variable) || !self.work.take(rows.rows.len()) {
            return Ok(());
        }
        self.see(variable);
        for place in 0..rows.rows.len() {
            if let Some(row) = rows.rows.get(place).copied()
                && !self.is_taken(place)
                && (row.is_equal || self.is_alone(variable))
                && self.work.take(rows.entries_of(row).len())
                && let Some(sign) = self.sign_in(rows, row, variable)
            {
                return self.take(
                    rows,
                    place,
                    Definition {
                        variable,
                        sign,
                        row,
                    },
                    waiting,
                );
            }
        }
        Ok(())
    }

    /// Whether one row has the variable, besides those that define others.
    fn is_alone(&self, variable: usize) -> bool {
        self.counts.get(variable).copied() == Some(1)
    }

    fn is_seen(&self, variable: usize) -> bool {
        self.seen.get(variable).copied() != Some(false)
    }

    fn see(&mut self, variable: usize) {
        if let Some(seen) = self.seen.get_mut(variable) {
            *seen = true;
        }
    }

    /// The coefficient of the variable, where it is 1 or -1 and no other variable of the row was seen.
    fn sign_in(&self, rows: &Rows, row: Row, variable: usize) -> Option<i64> {
        let mut sign = None;
        for entry in rows.entries_of(row) {
            if entry.variable == variable {
                if entry.coefficient != 1 && entry.coefficient != -1 {
                    return None;
                }
                sign = Some(entry.coefficient);
            } else if self.is_seen(entry.variable) {
                return None;
            }
        }
        sign
    }

    fn take(
        &mut self,
        rows: &Rows,
        place: usize,
        definition: Definition,
        waiting: &mut Vec<usize>,
    ) -> Result<(), Memory> {
        if let Some(taken) = self.taken.get_mut(place) {
            *taken = true;
        }
        for entry in rows.entries_of(definition.row) {
            if let Some(count) = self.counts.get_mut(entry.variable) {
                *count = count.saturating_sub(1);
            }
            if entry.variable != definition.variable {
                waiting.push(entry.variable)?;
            }
        }
        self.all.push(definition)?;
        Ok(())
    }
}

/// By the numbers of the variables, less one: how many rows have it.
fn counts_of(alloc: Global, rows: &Rows, vars: usize) -> Result<Vec<usize>, Memory> {
    let mut counts = vec![in alloc; 0usize; vars]?;
    for row in rows.rows.iter() {
        for entry in rows.entries_of(*row) {
            if let Some(count) = counts.get_mut(entry.variable) {
                *count = count.saturating_add(1);
            }
        }
    }
    Ok(counts)
}

fn is_wide(bounds: &[Bounds], variable: usize) -> bool {
    match bounds.get(variable) {
        Some(bounds) => WIDE <= bounds.width(),
        None => false,
    }
}
