// What is bounded, and by which constraints.
use crate::apart::Aparts;
use crate::choosing::Chosen;
use crate::definitions::{Definition, Definitions};
use crate::lists::Lists;
use crate::size::{MOST_REFUTED, is_worth_a_look};
use crate::tables::Tables;
use fzn_domain::Memory;
use fzn_meaning::{Constraint, Goal, Model};
use fzn_moves::{Moves, Switch};
use fzn_multipliers::{Bounds, Row, Rows, Work, declared_bounds};
use std::alloc::Global;

/// So many weights are listed at the most.
const MOST_LISTED: u64 = 1_000_000;

/// The variable that is minimised or maximised.
#[derive(Clone, Copy, Debug)]
pub struct Objective {
    /// Its number, less one.
    pub variable: usize,
    /// 1 where it is minimised, and -1 where it is maximised.
    pub sign: i64,
}

/// The parts of a model from which a row is made.
#[derive(Debug, Drop)]
pub struct Problem {
    /// What is bounded; where there is nothing, a refutation is sought.
    pub objective: Option<Objective>,
    /// The rows whose multipliers are free.
    pub free: Vec<Row>,
    /// The rows that take variables out of the sum, in this order.
    pub definitions: Vec<Definition>,
    /// The constraints whose values have prices.
    pub aparts: Aparts,
    /// What moves to other variables, once variables are taken out.
    pub moves: Moves,
    /// The tables whose rows are weighed.
    pub tables: Tables,
    /// The variables that have a weight for each value.
    pub lists: Lists,
    /// By the numbers of the variables, less one.
    pub bounds: Vec<Bounds>,
    /// The variables of rows that have no list, by their numbers less one.
    pub plain: Vec<usize>,
}

impl Problem {
    /// That of a model, where something moves, and something has prices or is moved by a comparison or a table, or where rows of tables are
    /// weighed, and where the objective is among what is weighed. Of a model without objective, where that is small.
    pub fn of(alloc: Global, model: &Model, rows: &Rows) -> Result<Option<Problem>, Memory> {
        if !has_mover(model) || !is_worth_a_look(model, rows) {
            return Ok(None);
        }
        let objective = objective_of(model);
        let target = objective.map(|objective| objective.variable);
        let bounds = declared_bounds(alloc, model)?;
        let mut room = Work::new(MOST_LISTED);
        let mut used = used_in(alloc, rows, bounds.len())?;
        let moves = Moves::of(alloc, model, rows, &bounds, target, &mut used, &mut room)?;
        let chosen = Chosen::of(alloc, model, &bounds, &moves, &mut used)?;
        let aparts = Aparts::of(alloc, model, &bounds, &used, &mut room)?;
        let tables = Tables::of(
            alloc, model, &bounds, &chosen, &aparts, &moves, target, &mut room,
        )?;
        let lists = Lists::of(alloc, model, &bounds, &aparts, &moves, &tables)?;
        if tables.all.is_empty() && !is_enough(&moves, &aparts)
            || !is_weighed(target, &used, &lists)
            || !lists.can_all_be()
        {
            return Ok(None);
        }
        let definitions = Definitions::of(alloc, rows, &bounds, target, &lists, &moves, &tables)?;
        let free = free_rows(alloc, rows, &definitions)?;
        let plain = plain_in(alloc, &used, &lists)?;
        let problem = Problem {
            objective,
            free,
            definitions: definitions.all,
            aparts,
            moves,
            tables,
            lists,
            bounds,
            plain,
        };
        if objective.is_none() && MOST_REFUTED < problem.cost(rows) {
            return Ok(None);
        }
        Ok(Some(problem))
    }

    /// How many numbers are looked at for one bound.
    pub fn cost(&self, rows: &Rows) -> usize {
        let mut cost = rows.cost();
        cost = cost.saturating_add(self.plain.len().saturating_mul(2));
        cost = cost.saturating_add(self.lists.len().saturating_mul(2));
        cost = cost.saturating_add(self.tables.cost());
        for one in self.moves.all.iter() {
            cost = cost.saturating_add(self.moves.entries_of(*one).len());
        }
        for one in self.moves.exchanges.all.iter() {
            let places = self.moves.exchanges.places_of(*one).len();
            cost = cost.saturating_add(places.saturating_mul(4));
        }
        for apart in self.aparts.all.iter() {
            let places = self.aparts.terms_of(*apart).len().saturating_add(4);
            cost = cost.saturating_add(places.saturating_mul(apart.count));
        }
        cost
    }

    /// What is declared of the objective, times this number.
    pub fn declared(&self, scale: i64) -> i128 {
        let Some(objective) = self.objective else {
            return 0;
        };
        match self.bounds.get(objective.variable) {
            Some(bounds) => bounds
                .least_product(objective.sign)
                .wrapping_mul(scale as i128),
            None => 0,
        }
    }
}

/// Whether something moves, and something has prices or is moved by a comparison or a table.
fn is_enough(moves: &Moves, aparts: &Aparts) -> bool {
    !moves.all.is_empty() && (!aparts.all.is_empty() || moves.switches != 0 || moves.tables != 0)
}

/// Whether the model has a table, a comparison with a number that a Boolean switches, or an element and something of which no two places
/// have one value.
fn has_mover(model: &Model) -> bool {
    let mut has_element = false;
    let mut has_apart = false;
    for constraint in model.constraints.as_slice() {
        match constraint {
            Constraint::Table { .. } => return true,
            Constraint::Element { .. } => has_element = true,
            Constraint::Compare { .. } | Constraint::Linear { .. }
                if Switch::of(constraint).is_some() => {
                return true;
            }
            Constraint::AllDifferent { .. }
            | Constraint::Circuit { .. }
            | Constraint::Inverse { .. } => has_apart = true,
            _ => {}
        }
    }
    has_element && has_apart
}

/// Whether there is no objective, or it is a variable of what is weighed: else nothing bounds it.
fn is_weighed(objective: Option<usize>, used: &[bool], lists: &Lists) -> bool {
    match objective {
        None => true,
        Some(objective) => {
            used.get(objective).copied() == Some(true) || lists.list_of(objective).is_some()
        }
    }
}

fn objective_of(model: &Model) -> Option<Objective> {
    let (var, sign) = match model.goal {
        Goal::Satisfy => return None,
        Goal::Minimize(var) => (var, 1),
        Goal::Maximize(var) => (var, -1),
    };
    Some(Objective {
        variable: var.0.saturating_sub(1),
        sign,
    })
}

/// By the numbers of the variables, less one: whether a row has it.
fn used_in(alloc: Global, rows: &Rows, vars: usize) -> Result<Vec<bool>, Memory> {
    let mut used = vec![in alloc; false; vars]?;
    for row in rows.rows.iter() {
        for entry in rows.entries_of(*row) {
            if let Some(used) = used.get_mut(entry.variable) {
                *used = true;
            }
        }
    }
    Ok(used)
}

/// The rows that define no variable.
fn free_rows(alloc: Global, rows: &Rows, definitions: &Definitions) -> Result<Vec<Row>, Memory> {
    let mut free = Vec::new(alloc);
    for place in 0..rows.rows.len() {
        if let Some(row) = rows.rows.get(place).copied()
            && !definitions.is_taken(place)
        {
            free.push(row)?;
        }
    }
    Ok(free)
}

/// The variables that are used and have no list.
fn plain_in(alloc: Global, used: &[bool], lists: &Lists) -> Result<Vec<usize>, Memory> {
    let mut plain = Vec::new(alloc);
    let mut variable = 0usize;
    for is_used in used {
        if *is_used && lists.list_of(variable).is_none() {
            plain.push(variable)?;
        }
        variable = variable.saturating_add(1);
    }
    Ok(plain)
}
