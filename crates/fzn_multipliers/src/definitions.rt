// The equations that are used to take variables out of a sum.
use crate::bounds::Bounds;
use crate::rows::{Entry, Row, Rows};
use fzn_domain::Memory;
use std::alloc::Global;

/// A variable that is at least so wide is taken out, where it stands in what defines the objective.
const WIDE: i64 = 400;

/// An equation that says what a variable is by others.
#[derive(Clone, Copy, Debug)]
pub struct Definition {
    /// The number of the variable, less one.
    pub variable: usize,
    /// Its coefficient: 1 or -1.
    pub sign: i64,
    /// The equation.
    pub row: Row,
}

/// A variable might be defined by a row.
#[derive(Clone, Copy, Debug)]
struct Candidate {
    sign: i64,
    /// The place of the row.
    row: usize,
    /// The next candidate with this variable.
    next: Option<usize>,
}

/// Which rows define which variables.
#[derive(Debug, Drop)]
pub struct Definitions {
    /// Each variable stands in no row behind its own.
    pub all: Vec<Definition>,
    /// By the places of the rows: whether one defines a variable.
    taken: Vec<bool>,
    /// By the numbers of the variables, less one: whether a row behind may not have it.
    seen: Vec<bool>,
    candidates: Vec<Candidate>,
    /// By the numbers of the variables, less one: the first candidate.
    heads: Vec<Option<usize>>,
}

impl Definitions {
    /// The objective by an equation, the wide variables of that by others, and so on; then a Boolean by one other, its equal or its opposite.
    pub fn of(
        alloc: Global,
        rows: &Rows,
        bounds: &[Bounds],
        objective: Option<usize>,
    ) -> Result<Definitions, Memory> {
        let mut definitions = Definitions {
            all: Vec::new(alloc),
            taken: vec![in alloc; false; rows.rows.len()]?,
            seen: vec![in alloc; false; bounds.len()]?,
            candidates: Vec::new(alloc),
            heads: vec![in alloc; None; bounds.len()]?,
        };
        if let Some(objective) = objective {
            definitions.gather(rows, bounds, objective)?;
            definitions.follow(alloc, rows, bounds, objective)?;
        }
        definitions.pair(alloc, rows, bounds, objective)?;
        Ok(definitions)
    }

    /// Whether the row at this place defines a variable.
    pub fn is_taken(&self, row: usize) -> bool {
        self.taken.get(row).copied() == Some(true)
    }

    /// The candidates: those of the last rows first, so that each comes before those of later rows.
    fn gather(&mut self, rows: &Rows, bounds: &[Bounds], objective: usize) -> Result<(), Memory> {
        let count = rows.rows.len();
        for i in 0..count {
            let place = count.wrapping_sub(1).wrapping_sub(i);
            if let Some(row) = rows.rows.get(place)
                && row.is_equal
            {
                for entry in rows.entries_of(*row) {
                    if is_sign(entry.coefficient)
                        && (entry.variable == objective || is_wide(bounds, entry.variable))
                    {
                        self.add_candidate(*entry, place)?;
                    }
                }
            }
        }
        Ok(())
    }

    fn add_candidate(&mut self, entry: Entry, row: usize) -> Result<(), Memory> {
        if let Some(head) = self.heads.get_mut(entry.variable) {
            let next = *head;
            *head = Some(self.candidates.len());
            self.candidates.push(Candidate {
                sign: entry.coefficient,
                row,
                next,
            })?;
        }
        Ok(())
    }

    /// Defines the objective, and then what its definition has.
    fn follow(
        &mut self,
        alloc: Global,
        rows: &Rows,
        bounds: &[Bounds],
        objective: usize,
    ) -> Result<(), Memory> {
        let mut waiting = Vec::new(alloc);
        waiting.push(objective)?;
        for _ in 0..rows.len().saturating_add(1) {
            let Some(variable) = waiting.pop() else {
                return Ok(());
            };
            if self.see(variable)
                && (variable == objective || is_wide(bounds, variable))
                && let Some(row) = self.define(rows, variable)?
            {
                for entry in rows.entries_of(row) {
                    if entry.variable != variable {
                        waiting.push(entry.variable)?;
                    }
                }
            }
        }
        Ok(())
    }

    /// No row behind may have the variable. Whether one might until now.
    fn see(&mut self, variable: usize) -> bool {
        match self.seen.get_mut(variable) {
            Some(seen) if !*seen => {
                *seen = true;
                true
            }
            _ => false,
        }
    }

    /// Defines the variable by the first row that can be.
    fn define(&mut self, rows: &Rows, variable: usize) -> Result<Option<Row>, Memory> {
        let mut at = self.heads.get(variable).copied().flatten();
        for _ in 0..self.candidates.len() {
            let Some(candidate) = candidate_at(&self.candidates, at) else {
                return Ok(None);
            };
            if let Some(row) = rows.rows.get(candidate.row).copied()
                && !self.is_taken(candidate.row)
                && self.is_new(rows.entries_of(row), variable)
            {
                self.take(candidate.row, row, variable, candidate.sign)?;
                return Ok(Some(row));
            }
            at = candidate.next;
        }
        Ok(None)
    }

    /// Whether no other variable of the entries was seen.
    fn is_new(&self, entries: &[Entry], variable: usize) -> bool {
        for entry in entries {
            if entry.variable != variable && self.seen.get(entry.variable).copied() != Some(false) {
                return false;
            }
        }
        true
    }

    fn take(&mut self, place: usize, row: Row, variable: usize, sign: i64) -> Result<(), Memory> {
        if let Some(taken) = self.taken.get_mut(place) {
            *taken = true;
        }
        self.all.push(Definition {
            variable,
            sign,
            row,
        })?;
        Ok(())
    }

    /// Defines Booleans by others.
    fn pair(
        &mut self,
        alloc: Global,
        rows: &Rows,
        bounds: &[Bounds],
        objective: Option<usize>,
    ) -> Result<(), Memory> {
        let mut roles = vec![in alloc; Role::Open; bounds.len()]?;
        for place in 0..rows.rows.len() {
            if let Some(row) = rows.rows.get(place).copied()
                && row.is_equal
                && !self.is_taken(place)
                && let Some((one, other)) = pair_in(rows.entries_of(row), bounds, objective)
            {
                if cast(&mut roles, other.variable, one.variable) {
                    self.take(place, row, other.variable, other.coefficient)?;
                } else if cast(&mut roles, one.variable, other.variable) {
                    self.take(place, row, one.variable, one.coefficient)?;
                }
            }
        }
        Ok(())
    }
}

/// What becomes of a Boolean.
#[derive(Clone, Copy, Debug, PartialEq, Eq)]
enum Role {
    /// Nothing yet.
    Open,
    /// Others are defined by it.
    Kept,
    /// It is defined by another.
    Defined,
}

/// Lets the first variable be defined by the second, by their numbers less one, where it can be.
fn cast(roles: &mut Vec<Role>, defined: usize, kept: usize) -> bool {
    let can_be = roles.get(defined).copied() == Some(Role::Open)
        && matches!(roles.get(kept).copied(), Some(Role::Open | Role::Kept));
    if can_be {
        if let Some(role) = roles.get_mut(defined) {
            *role = Role::Defined;
        }
        if let Some(role) = roles.get_mut(kept) {
            *role = Role::Kept;
        }
    }
    can_be
}

/// The entries, where they are two Booleans, none of them the objective, with coefficients 1 or -1.
fn pair_in(
    entries: &[Entry],
    bounds: &[Bounds],
    objective: Option<usize>,
) -> Option<(Entry, Entry)> {
    match entries {
        [one, other]
            if is_switch(*one, bounds, objective) && is_switch(*other, bounds, objective) => {
            Some((*one, *other))
        }
        _ => None,
    }
}

fn is_switch(entry: Entry, bounds: &[Bounds], objective: Option<usize>) -> bool {
    objective != Some(entry.variable)
        && is_sign(entry.coefficient)
        && match bounds.get(entry.variable) {
            Some(bounds) => bounds.low == 0 && bounds.high == 1,
            None => false,
        }
}

fn is_sign(coefficient: i64) -> bool {
    coefficient == 1 || coefficient == -1
}

fn is_wide(bounds: &[Bounds], variable: usize) -> bool {
    match bounds.get(variable) {
        Some(bounds) => WIDE <= bounds.width(),
        None => false,
    }
}

fn candidate_at(candidates: &[Candidate], place: Option<usize>) -> Option<Candidate> {
    candidates.get(place?).copied()
}
