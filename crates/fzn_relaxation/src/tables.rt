// The tables whose rows are weighed.
use crate::apart::Aparts;
use crate::choosing::{Chosen, table_at};
use fzn_domain::Memory;
use fzn_meaning::Model;
use fzn_moves::{Moves, TableView};
use fzn_multipliers::{Bounds, Work};
use fzn_values::Term;
use std::alloc::Global;

/// A column has prices whose variable has at most so many values: each is looked at in each round.
const MOST_PRICED: i64 = 1_000;

/// So many times it is looked for tables of which too little is left, at the most.
const PASSES: usize = 8;

/// A column whose entries have prices, which its variable is paid.
#[derive(Clone, Copy, Debug)]
pub struct Column {
    /// Its number, counted from 1.
    pub number: u64,
    /// The number of its variable, less one.
    pub variable: usize,
    /// The number that has the first price.
    pub low: i64,
    /// The place of that among the prices of all columns.
    pub start: usize,
    /// The place behind the last one.
    pub end: usize,
}

impl Column {
    /// The place of the price of a number.
    pub fn place_of(self, number: i64) -> Option<usize> {
        let distance = usize::try_from(number.checked_sub(self.low)?).ok()?;
        let place = self.start.checked_add(distance)?;
        if place < self.end { Some(place) } else { None }
    }
}

/// A table whose rows are weighed.
#[derive(Clone, Copy, Debug)]
pub struct Table {
    /// The number of the constraint, counted from 1.
    pub constraint: u64,
    /// How many of its rows can be.
    pub rows: usize,
    /// The place of its first column that has prices.
    columns: usize,
    /// The place behind the last one.
    columns_end: usize,
    /// The place of the first variable whose part goes to its rows.
    givers: usize,
    /// The place behind the last one.
    givers_end: usize,
    /// Where the places of the prices of its first row begin.
    places: usize,
    /// Where the entries of its first row that the givers have begin.
    entries: usize,
}

/// Those of a model.
#[derive(Debug, Drop)]
pub struct Tables {
    /// In the order of the constraints.
    pub all: Vec<Table>,
    /// How many prices all columns have together.
    pub prices: usize,
    columns: Vec<Column>,
    /// Variables by their numbers less one. Each stands at one column of all tables, and its part goes to the rows.
    givers: Vec<usize>,
    /// Row by row: the places of the prices of its entries.
    places: Vec<usize>,
    /// Row by row: what the givers are.
    entries: Vec<i64>,
    /// By the numbers of the variables, less one: whether its part goes to the rows of a table.
    gives: Vec<bool>,
}

/// What becomes of the variables of tables.
#[derive(Debug, Drop)]
struct Uses {
    /// By the numbers of the variables, less one: at how many columns it stands.
    counts: Vec<usize>,
    /// By the same: whether it weighs something without tables.
    weighs: Vec<bool>,
    /// By the same: whether it weighs only by rows, and does not move.
    is_plain: Vec<bool>,
}

/// What becomes of a column.
#[derive(Clone, Copy, Debug, PartialEq, Eq)]
enum Role {
    /// Nothing.
    Silent,
    /// Its entries have prices.
    Priced,
    /// Its variable's part goes to the rows.
    Giving,
}

impl Tables {
    /// The chosen ones of which two columns weigh something, as long as there is room for what is listed.
    pub fn of(
        alloc: Global,
        model: &Model,
        bounds: &[Bounds],
        chosen: &Chosen,
        aparts: &Aparts,
        moves: &Moves,
        objective: Option<usize>,
        room: &mut Work,
    ) -> Result<Tables, Memory> {
        let mut tables = Tables {
            all: Vec::new(alloc),
            prices: 0,
            columns: Vec::new(alloc),
            givers: Vec::new(alloc),
            places: Vec::new(alloc),
            entries: Vec::new(alloc),
            gives: vec![in alloc; false; bounds.len()]?,
        };
        let mut uses = Uses::of(alloc, bounds.len(), chosen, aparts, moves, objective)?;
        let kept = uses.kept_of(alloc, model, bounds, chosen)?;
        for number in kept.iter() {
            if let Some(table) = table_at(model, *number) {
                tables.add(alloc, model, bounds, chosen, &uses, *number, table, room)?;
            }
        }
        Ok(tables)
    }

    /// Adds the table of this number.
    fn add(
        &mut self,
        alloc: Global,
        model: &Model,
        bounds: &[Bounds],
        chosen: &Chosen,
        uses: &Uses,
        constraint: u64,
        table: TableView<'_>,
        room: &mut Work,
    ) -> Result<(), Memory> {
        if !room.take(listed(table, bounds)) {
            return Ok(());
        }
        let columns = self.columns.len();
        let givers = self.givers.len();
        let places = self.places.len();
        let entries = self.entries.len();
        let mut giving = Vec::new(alloc);
        let mut priced = Vec::new(alloc);
        let mut place = 0usize;
        for term in table.places {
            if let Some(variable) = chosen.live(constraint, *term, bounds) {
                match uses.role_of(variable, bounds) {
                    Role::Silent => {}
                    Role::Giving => {
                        giving.push(place)?;
                        self.give(variable)?;
                    }
                    Role::Priced => {
                        priced.push(place)?;
                        self.price(place, variable, bounds)?;
                    }
                }
            }
            place = place.saturating_add(1);
        }
        let rows = self.add_rows(model, table, columns, &priced, &giving)?;
        if rows == 0 {
            return Ok(());
        }
        self.all.push(Table {
            constraint,
            rows,
            columns,
            columns_end: self.columns.len(),
            givers,
            givers_end: self.givers.len(),
            places,
            entries,
        })?;
        Ok(())
    }

    fn give(&mut self, variable: usize) -> Result<(), Memory> {
        if let Some(gives) = self.gives.get_mut(variable) {
            *gives = true;
        }
        self.givers.push(variable)?;
        Ok(())
    }

    /// Adds the prices of the column at this place.
    fn price(&mut self, place: usize, variable: usize, bounds: &[Bounds]) -> Result<(), Memory> {
        let Some(ends) = bounds.get(variable) else {
            return Ok(());
        };
        let width = usize::try_from(ends.width().saturating_add(1)).unwrap_or(0);
        let start = self.prices;
        self.prices = start.saturating_add(width);
        self.columns.push(Column {
            number: (place as u64).saturating_add(1),
            variable,
            low: ends.low,
            start,
            end: self.prices,
        })?;
        Ok(())
    }

    /// Adds the rows that can be, by the columns that begin at this place: how many there are.
    fn add_rows(
        &mut self,
        model: &Model,
        table: TableView<'_>,
        columns: usize,
        priced: &[usize],
        giving: &[usize],
    ) -> Result<usize, Memory> {
        let mut count = 0usize;
        for row in 0..table.rows() {
            if table.is_declared(model, row) {
                self.add_row(table, row, columns, priced, giving)?;
                count = count.saturating_add(1);
            }
        }
        Ok(count)
    }

    fn add_row(
        &mut self,
        table: TableView<'_>,
        row: usize,
        columns: usize,
        priced: &[usize],
        giving: &[usize],
    ) -> Result<(), Memory> {
        let mut at = columns;
        for place in priced {
            let price = match self.columns.get(at) {
                Some(column) => column.place_of(table.entry(row, *place)),
                None => None,
            };
            self.places.push(price.unwrap_or(usize::MAX))?;
            at = at.saturating_add(1);
        }
        for place in giving {
            self.entries.push(table.entry(row, *place))?;
        }
        Ok(())
    }

    /// The columns of the table that have prices.
    pub fn columns_of(&self, table: Table) -> &[Column] {
        if table.columns <= table.columns_end && table.columns_end <= self.columns.len() {
            &self.columns[table.columns..table.columns_end]
        } else {
            &[]
        }
    }

    /// The variables whose parts go to the rows of the table, by their numbers less one.
    pub fn givers_of(&self, table: Table) -> &[usize] {
        if table.givers <= table.givers_end && table.givers_end <= self.givers.len() {
            &self.givers[table.givers..table.givers_end]
        } else {
            &[]
        }
    }

    /// The places of the prices of the entries of a row.
    pub fn places_of(&self, table: Table, row: usize) -> &[usize] {
        let width = table.columns_end.saturating_sub(table.columns);
        let start = table.places.saturating_add(width.saturating_mul(row));
        let end = start.saturating_add(width);
        if start <= end && end <= self.places.len() {
            &self.places[start..end]
        } else {
            &[]
        }
    }

    /// What the givers are in a row.
    pub fn entries_of(&self, table: Table, row: usize) -> &[i64] {
        let width = table.givers_end.saturating_sub(table.givers);
        let start = table.entries.saturating_add(width.saturating_mul(row));
        let end = start.saturating_add(width);
        if start <= end && end <= self.entries.len() {
            &self.entries[start..end]
        } else {
            &[]
        }
    }

    /// Whether the part of the variable of this number, less one, goes to the rows of a table.
    pub fn is_giver(&self, variable: usize) -> bool {
        self.gives.get(variable).copied() == Some(true)
    }

    /// How many givers there are.
    pub fn givers(&self) -> usize {
        self.givers.len()
    }

    /// How many numbers are looked at for one bound.
    pub fn cost(&self) -> usize {
        let looks = self.places.len().saturating_add(self.entries.len());
        looks.saturating_add(self.prices.saturating_mul(4))
    }
}

impl Uses {
    fn of(
        alloc: Global,
        vars: usize,
        chosen: &Chosen,
        aparts: &Aparts,
        moves: &Moves,
        objective: Option<usize>,
    ) -> Result<Uses, Memory> {
        let mut uses = Uses {
            counts: vec![in alloc; 0; vars]?,
            weighs: vec![in alloc; false; vars]?,
            is_plain: vec![in alloc; true; vars]?,
        };
        for variable in 0..vars {
            let is_target = objective == Some(variable);
            uses.note(variable, is_target || chosen.weighs(variable), !is_target);
        }
        for one in moves.all.iter() {
            uses.note(one.index, true, false);
            uses.note(one.value, true, false);
        }
        for one in moves.exchanges.all.iter() {
            uses.note(one.variable, true, false);
            for variable in moves.exchanges.places_of(*one) {
                uses.note(*variable, true, false);
            }
        }
        for apart in aparts.all.iter() {
            for term in aparts.terms_of(*apart) {
                if let Term::Variable(var) = *term {
                    uses.note(var.0.saturating_sub(1), true, false);
                }
            }
        }
        Ok(uses)
    }

    /// Notes whether the variable weighs something, and whether only by rows.
    fn note(&mut self, variable: usize, weighs: bool, is_plain: bool) {
        if let Some(before) = self.weighs.get_mut(variable)
            && weighs
        {
            *before = true;
        }
        if let Some(before) = self.is_plain.get_mut(variable)
            && !is_plain
        {
            *before = false;
        }
    }

    /// The numbers of the chosen tables without those of which fewer than two columns weigh something.
    fn kept_of(
        &mut self,
        alloc: Global,
        model: &Model,
        bounds: &[Bounds],
        chosen: &Chosen,
    ) -> Result<Vec<u64>, Memory> {
        let mut kept = Vec::new(alloc);
        for number in chosen.numbers.iter() {
            kept.push(*number)?;
            self.count(model, bounds, chosen, *number, true);
        }
        for _ in 0..PASSES {
            let mut left = Vec::new(alloc);
            for number in kept.iter() {
                if self.has_two(model, bounds, chosen, *number) {
                    left.push(*number)?;
                } else {
                    self.count(model, bounds, chosen, *number, false);
                }
            }
            let is_same = left.len() == kept.len();
            kept = left;
            if is_same {
                break;
            }
        }
        Ok(kept)
    }

    /// Counts the columns of a table, or does so no more.
    fn count(
        &mut self,
        model: &Model,
        bounds: &[Bounds],
        chosen: &Chosen,
        number: u64,
        is_in: bool,
    ) {
        let Some(table) = table_at(model, number) else {
            return;
        };
        for term in table.places {
            if let Some(variable) = chosen.live(number, *term, bounds)
                && let Some(count) = self.counts.get_mut(variable)
            {
                *count = if is_in {
                    count.saturating_add(1)
                } else {
                    count.saturating_sub(1)
                };
            }
        }
    }

    /// Whether at least two columns of the table weigh something.
    fn has_two(&self, model: &Model, bounds: &[Bounds], chosen: &Chosen, number: u64) -> bool {
        let Some(table) = table_at(model, number) else {
            return false;
        };
        let mut count = 0usize;
        for term in table.places {
            if let Some(variable) = chosen.live(number, *term, bounds)
                && self.role_of(variable, bounds) != Role::Silent
            {
                count = count.saturating_add(1);
            }
        }
        1 < count
    }

    /// What becomes of a column with this variable.
    fn role_of(&self, variable: usize, bounds: &[Bounds]) -> Role {
        let weighs = self.weighs.get(variable).copied() == Some(true);
        let is_alone = self.counts.get(variable).copied() == Some(1);
        if is_alone && self.is_plain.get(variable).copied() == Some(true) {
            return if weighs { Role::Giving } else { Role::Silent };
        }
        match bounds.get(variable) {
            Some(bounds) if bounds.width() < MOST_PRICED => Role::Priced,
            _ => Role::Silent,
        }
    }
}

/// How many weights the items of the table list at the most: each lists its rows.
fn listed(table: TableView<'_>, bounds: &[Bounds]) -> usize {
    let mut listed = table.len();
    for term in table.places {
        if let Term::Variable(var) = *term
            && let Some(bounds) = bounds.get(var.0.saturating_sub(1))
            && bounds.width() < MOST_PRICED
        {
            let width = usize::try_from(bounds.width().saturating_add(1)).unwrap_or(0);
            listed = listed.saturating_add(width);
        }
    }
    listed
}
