// Which tables may be weighed.
use fzn_domain::Memory;
use fzn_meaning::Model;
use fzn_moves::{Moves, TableView};
use fzn_multipliers::{Bounds, Work};
use fzn_values::Term;
use std::alloc::Global;

/// So many numbers all of them have together, at the most: each is looked at in each round.
const MOST_NUMBERS: u64 = 200_000;

/// So many times it is looked for tables that have something in common with those that are chosen, at the most.
const PASSES: usize = 8;

/// The tables that have something in common with what weighs something.
#[derive(Debug, Drop)]
pub struct Chosen {
    /// Their numbers, counted from 1.
    pub numbers: Vec<u64>,
    /// By the numbers of the variables, less one: whether it weighs something without tables.
    weighs: Vec<bool>,
    /// By the same: the table by which it moves, or 0.
    movers: Vec<u64>,
}

impl Chosen {
    /// Those of which some variable is used. The others of their variables are used then.
    pub fn of(
        alloc: Global,
        model: &Model,
        bounds: &[Bounds],
        moves: &Moves,
        used: &mut Vec<bool>,
    ) -> Result<Chosen, Memory> {
        let mut chosen = Chosen {
            numbers: Vec::new(alloc),
            weighs: Vec::new(alloc),
            movers: vec![in alloc; 0; bounds.len()]?,
        };
        for is_used in used.iter() {
            chosen.weighs.push(*is_used)?;
        }
        for one in moves.all.iter() {
            if let Some(mover) = chosen.movers.get_mut(one.value)
                && one.column.is_some()
            {
                *mover = one.constraint;
            }
        }
        let mut waiting = chosen.waiting(alloc, model, bounds)?;
        let mut work = Work::new(MOST_NUMBERS);
        for _ in 0..PASSES {
            let count = waiting.len();
            waiting = chosen.choose(alloc, model, bounds, &waiting, used, &mut work)?;
            if waiting.len() == count {
                break;
            }
        }
        chosen.numbers.sort_unstable();
        Ok(chosen)
    }

    /// All tables of at least two columns that may weigh something.
    fn waiting(&self, alloc: Global, model: &Model, bounds: &[Bounds]) -> Result<Vec<u64>, Memory> {
        let mut waiting = Vec::new(alloc);
        let mut number = 0u64;
        for constraint in model.constraints.as_slice() {
            number = number.saturating_add(1);
            if let Some(table) = TableView::of(constraint)
                && self.has_two(number, table, bounds)
            {
                waiting.push(number)?;
            }
        }
        Ok(waiting)
    }

    fn has_two(&self, number: u64, table: TableView<'_>, bounds: &[Bounds]) -> bool {
        let mut count = 0usize;
        for term in table.places {
            if self.live(number, *term, bounds).is_some() {
                count = count.saturating_add(1);
            }
        }
        1 < count
    }

    /// Chooses those of which some variable is used: the others.
    fn choose(
        &mut self,
        alloc: Global,
        model: &Model,
        bounds: &[Bounds],
        waiting: &[u64],
        used: &mut Vec<bool>,
        work: &mut Work,
    ) -> Result<Vec<u64>, Memory> {
        let mut left = Vec::new(alloc);
        for number in waiting {
            if let Some(table) = table_at(model, *number)
                && self.has_used(*number, table, bounds, used)
                && work.take(table.len())
            {
                self.numbers.push(*number)?;
                self.use_all(*number, table, bounds, used);
            } else {
                left.push(*number)?;
            }
        }
        Ok(left)
    }

    fn has_used(
        &self,
        number: u64,
        table: TableView<'_>,
        bounds: &[Bounds],
        used: &[bool],
    ) -> bool {
        for term in table.places {
            if let Some(variable) = self.live(number, *term, bounds)
                && used.get(variable).copied() == Some(true)
            {
                return true;
            }
        }
        false
    }

    fn use_all(&self, number: u64, table: TableView<'_>, bounds: &[Bounds], used: &mut Vec<bool>) {
        for term in table.places {
            if let Some(variable) = self.live(number, *term, bounds)
                && let Some(used) = used.get_mut(variable)
            {
                *used = true;
            }
        }
    }

    /// The number, less one, of the variable of a place of this table, unless it has one value or moves by the table.
    pub fn live(&self, number: u64, term: Term, bounds: &[Bounds]) -> Option<usize> {
        let Term::Variable(var) = term else {
            return None;
        };
        let variable = var.0.saturating_sub(1);
        let bounds = bounds.get(variable)?;
        if bounds.width() < 1 || self.movers.get(variable).copied() == Some(number) {
            return None;
        }
        Some(variable)
    }

    /// Whether the variable of this number, less one, weighs something without tables.
    pub fn weighs(&self, variable: usize) -> bool {
        self.weighs.get(variable).copied() == Some(true)
    }
}

/// The table of this number.
pub fn table_at<'a>(model: &'a Model, number: u64) -> Option<TableView<'a>> {
    let place = usize::try_from(number).ok()?.checked_sub(1)?;
    TableView::of(model.constraints.as_slice().get(place)?)
}
