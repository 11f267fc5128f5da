// What moves from one variable to others: by equations of two, comparisons with numbers, elements of constants, tables, and inverses.
use crate::exchanges::Exchanges;
use fzn_domain::Memory;
use fzn_meaning::Model;
use fzn_multipliers::{Bounds, Rows, Work};
use fzn_values::Term;
use std::alloc::Global;
use std::mem;

/// So many values are listed of a variable at the most.
pub const MOST_VALUES: usize = 65_536;

/// What one variable weighs moves to another, whose value decides its own.
#[derive(Clone, Copy, Debug)]
pub struct Move {
    /// The number of the constraint, counted from 1.
    pub constraint: u64,
    /// The number of the variable that decides, less one: of an element the index.
    pub index: usize,
    /// The number of the other one, less one: of an element the value.
    pub value: usize,
    /// Where the constraint is a table: the column of the one that decides, counted from 1.
    pub column: Option<u64>,
    /// The value of the first one that has the first entry.
    pub(crate) low: i64,
    /// The place of its first entry.
    pub start: usize,
    /// The place behind its last one.
    pub(crate) end: usize,
}

/// What becomes of a variable.
#[derive(Clone, Copy, Debug, PartialEq, Eq)]
pub(crate) enum Role {
    /// Nothing yet.
    Open,
    /// Others move to it by equations or by comparisons.
    Kept,
    /// It is the index of an element or the key of a table, whose values move to it.
    Index,
    /// It never moves.
    Fixed,
    /// It moves to another by an equation or by a comparison.
    Moved,
    /// It moves to the index of an element or to the key of a table, after all others that do not move by an inverse.
    Late,
}

/// The moves of a model.
#[derive(Debug, Drop)]
pub struct Moves {
    /// Those by equations, by comparisons, by elements and by tables, in this order. No variable moves twice, and none to one that has moved
    /// before. Those by one table stand side by side.
    pub all: Vec<Move>,
    /// How many of them are by comparisons.
    pub switches: usize,
    /// How many of them are by tables.
    pub tables: usize,
    /// Those by inverses, which come behind: what has moved to an index moves on.
    pub exchanges: Exchanges,
    /// The entries of those in `all`, where those of one move stand side by side.
    pub(crate) entries: Vec<i64>,
    /// By the numbers of the variables, less one: what becomes of them.
    pub(crate) roles: Vec<Role>,
}

impl Moves {
    /// Those of the values that are used, but for the one that is bounded, as long as there is room for what is listed. Their indices are
    /// used then.
    pub fn of(
        alloc: Global,
        model: &Model,
        rows: &Rows,
        bounds: &[Bounds],
        objective: Option<usize>,
        used: &mut Vec<bool>,
        room: &mut Work,
    ) -> Result<Moves, Memory> {
        let mut moves = Moves {
            all: Vec::new(alloc),
            switches: 0,
            tables: 0,
            exchanges: Exchanges::new(alloc, bounds.len())?,
            entries: Vec::new(alloc),
            roles: vec![in alloc; Role::Open; bounds.len()]?,
        };
        if let Some(objective) = objective
            && let Some(role) = moves.roles.get_mut(objective)
        {
            *role = Role::Fixed;
        }
        moves.add_elements(model, bounds, used, room)?;
        moves.add_tables(alloc, model, bounds, used, room)?;
        let elements = mem::replace(&mut moves.all, Vec::new(alloc));
        moves.add_equations(alloc, model, rows, bounds, used, room)?;
        moves.add_switches(model, bounds, used, room)?;
        for one in elements.iter() {
            moves.all.push(*one)?;
        }
        moves.add_inverses(model, bounds, used, room)?;
        Ok(moves)
    }

    /// Whether others may move to the variable by equations and comparisons.
    pub(crate) fn can_keep(&self, variable: usize) -> bool {
        matches!(
            self.roles.get(variable).copied(),
            Some(Role::Open | Role::Kept | Role::Index | Role::Fixed | Role::Late)
        )
    }

    /// Puts the move from one variable to another, whose entries begin at this place, at the end.
    pub(crate) fn put(
        &mut self,
        constraint: u64,
        index: usize,
        value: usize,
        low: i64,
        start: usize,
    ) -> Result<(), Memory> {
        self.set_role(value, Role::Moved);
        if self.roles.get(index).copied() == Some(Role::Open) {
            self.set_role(index, Role::Kept);
        }
        self.all.push(Move {
            constraint,
            index,
            value,
            column: None,
            low,
            start,
            end: self.entries.len(),
        })?;
        Ok(())
    }

    /// Notes what becomes of the variable.
    pub(crate) fn set_role(&mut self, variable: usize, new: Role) {
        if let Some(role) = self.roles.get_mut(variable) {
            *role = new;
        }
    }

    /// Whether the variable moves.
    pub fn is_moved(&self, variable: usize) -> bool {
        matches!(
            self.roles.get(variable).copied(),
            Some(Role::Moved | Role::Late)
        )
    }

    /// How many entries all of them have together.
    pub fn len(&self) -> usize {
        self.entries.len()
    }

    /// What the one variable is for each value of the other from `first` on: the entries of an element. `NO_ENTRY` stands where there is none.
    pub fn entries_of(&self, one: Move) -> &[i64] {
        if one.start <= one.end && one.end <= self.entries.len() {
            &self.entries[one.start..one.end]
        } else {
            &[]
        }
    }

    /// The entry at the value.
    pub fn entry_at(&self, one: Move, value: i64) -> Option<i64> {
        let place = usize::try_from(value.checked_sub(one.low)?).ok()?;
        self.entries_of(one).get(place).copied()
    }
}

impl Move {
    /// The value of the one that decides that has the first entry.
    pub fn first(self) -> i64 {
        self.low
    }
}

/// The variables among the terms are used.
pub(crate) fn use_all(terms: &[Term], used: &mut Vec<bool>) {
    for term in terms {
        if let Term::Variable(var) = *term {
            use_one(var.0.saturating_sub(1), used);
        }
    }
}

/// The variable of this number, less one, is used.
pub(crate) fn use_one(variable: usize, used: &mut Vec<bool>) {
    if let Some(used) = used.get_mut(variable) {
        *used = true;
    }
}

/// How many values the variable has from its least to its greatest.
pub(crate) fn width_of(bounds: &[Bounds], variable: usize) -> Option<usize> {
    let width = bounds.get(variable)?.width().checked_add(1)?;
    usize::try_from(width).ok()
}
