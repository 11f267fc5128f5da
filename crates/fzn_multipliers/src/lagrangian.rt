// The objective and a sum of rows, each times its multiplier, where each variable is free within its bounds.
use crate::bounds::{Bounds, declared_bounds};
use crate::definitions::Definitions;
use crate::objective::Objective;
use crate::rows::{Entry, Row, Rows};
use crate::tightening::tighten;
use fzn_domain::Memory;
use fzn_meaning::Model;
use std::alloc::Global;

/// A row whose sum may be larger is not used.
const LARGEST: i64 = 1 << 48;

/// The rows of a model, and what of them is bounded.
#[derive(Debug, Drop)]
pub struct Problem {
    /// Whether no single row was seen that nothing meets.
    pub can_be_met: bool,
    /// What is bounded; where there is nothing, a refutation is sought.
    pub objective: Option<Objective>,
    /// The rows whose multipliers are free.
    pub free: Vec<Row>,
    /// The variables of the rows, by their numbers less one.
    pub used: Vec<usize>,
    rows: Rows,
    definitions: Definitions,
    /// By the numbers of the variables, less one: what single rows leave of the declared bounds.
    bounds: Vec<Bounds>,
}

impl Problem {
    pub fn of(alloc: Global, model: &Model, rows: Rows) -> Result<Problem, Memory> {
        let objective = Objective::of(model);
        let mut bounds = declared_bounds(alloc, model)?;
        let can_be_met = tighten(&rows, &mut bounds);
        let target = objective.map(|objective| objective.variable);
        let definitions = Definitions::of(alloc, &rows, &bounds, target)?;
        let free = free_rows(alloc, &rows, &bounds, &definitions)?;
        let used = used_in(alloc, &rows, bounds.len())?;
        Ok(Problem {
            can_be_met,
            objective,
            free,
            used,
            rows,
            definitions,
            bounds,
        })
    }

    /// The entries of a row.
    pub fn entries_of(&self, row: Row) -> &[Entry] {
        self.rows.entries_of(row)
    }

    /// How many numbers are looked at for one bound.
    pub fn cost(&self) -> usize {
        let used = self.used.len().saturating_mul(2);
        self.rows.cost().saturating_add(used)
    }

    /// What single rows say of the objective, times this number.
    pub fn known(&self, scale: i64) -> i128 {
        let Some(objective) = self.objective else {
            return 0;
        };
        match self.bounds.get(objective.variable) {
            Some(bounds) => bounds
                .least_product(objective.sign)
                .wrapping_mul(scale as i128),
            None => 0,
        }
    }
}

/// The rows that define no variable and whose sums stay small.
fn free_rows(
    alloc: Global,
    rows: &Rows,
    bounds: &[Bounds],
    definitions: &Definitions,
) -> Result<Vec<Row>, Memory> {
    let mut free = Vec::new(alloc);
    for place in 0..rows.rows.len() {
        if let Some(row) = rows.rows.get(place).copied()
            && !definitions.is_taken(place)
            && is_small(rows.entries_of(row), bounds, row.bound)
        {
            free.push(row)?;
        }
    }
    Ok(free)
}

/// Whether neither a sum nor its bound is large.
fn is_small(entries: &[Entry], bounds: &[Bounds], bound: i64) -> bool {
    let mut largest = bound.saturating_abs();
    for entry in entries {
        if let Some(bounds) = bounds.get(entry.variable) {
            let product = entry
                .coefficient
                .saturating_abs()
                .saturating_mul(bounds.magnitude());
            largest = largest.saturating_add(product);
        }
    }
    largest <= LARGEST
}

fn used_in(alloc: Global, rows: &Rows, vars: usize) -> Result<Vec<usize>, Memory> {
    let mut is_used = vec![in alloc; false; vars]?;
    let mut used = Vec::new(alloc);
    for row in rows.rows.iter() {
        for entry in rows.entries_of(*row) {
            if let Some(mark) = is_used.get_mut(entry.variable)
                && !*mark
            {
                *mark = true;
                used.push(entry.variable)?;
            }
        }
    }
    Ok(used)
}

/// The sum that some multipliers make, and where it is least.
#[derive(Debug, Drop)]
pub struct Lagrangian {
    /// By the numbers of the variables, less one: what each is multiplied with.
    pub slopes: Vec<i64>,
    /// What is added besides.
    pub constant: i128,
    /// By the places of the definitions: their multipliers.
    pub defining: Vec<i64>,
    /// By the numbers of the variables, less one: their values where the sum is least.
    values: Vec<i64>,
}

impl Lagrangian {
    /// That of no row.
    pub fn new(alloc: Global, problem: &Problem) -> Result<Lagrangian, Memory> {
        let vars = problem.bounds.len();
        Ok(Lagrangian {
            slopes: vec![in alloc; 0; vars]?,
            constant: 0,
            defining: vec![in alloc; 0; problem.definitions.all.len()]?,
            values: vec![in alloc; 0; vars]?,
        })
    }

    /// The objective alone, times this number.
    pub fn begin(&mut self, problem: &Problem, scale: i64) {
        for variable in problem.used.iter() {
            if let Some(slope) = self.slopes.get_mut(*variable) {
                *slope = 0;
            }
        }
        self.constant = 0;
        if let Some(objective) = problem.objective
            && let Some(slope) = self.slopes.get_mut(objective.variable)
        {
            *slope = objective.sign.wrapping_mul(scale);
        }
    }

    /// Adds a row, so many times.
    pub fn add(&mut self, problem: &Problem, row: Row, multiplier: i64) {
        if multiplier == 0 {
            return;
        }
        for entry in problem.entries_of(row) {
            if let Some(slope) = self.slopes.get_mut(entry.variable) {
                let more = multiplier.wrapping_mul(entry.coefficient);
                *slope = slope.wrapping_add(more);
            }
        }
        let less = (multiplier as i128).wrapping_mul(row.bound as i128);
        self.constant = self.constant.wrapping_sub(less);
    }

    /// Takes the defined variables out: the least that is left then.
    pub fn end(&mut self, problem: &Problem) -> i128 {
        for place in 0..problem.definitions.all.len() {
            if let Some(definition) = problem.definitions.all.get(place) {
                let slope = self.slopes.get(definition.variable).copied().unwrap_or(0);
                let multiplier = slope.wrapping_mul(definition.sign).wrapping_neg();
                self.add(problem, definition.row, multiplier);
                if let Some(last) = self.defining.get_mut(place) {
                    *last = multiplier;
                }
            }
        }
        let mut least = self.constant;
        for variable in problem.used.iter() {
            if let Some(slope) = self.slopes.get(*variable)
                && let Some(bounds) = problem.bounds.get(*variable)
            {
                least = least.wrapping_add(bounds.least_product(*slope));
            }
        }
        least
    }

    /// Finds the values of the variables where the sum is least.
    pub fn settle(&mut self, problem: &Problem) {
        for variable in problem.used.iter() {
            if let Some(slope) = self.slopes.get(*variable)
                && let Some(bounds) = problem.bounds.get(*variable)
                && let Some(value) = self.values.get_mut(*variable)
            {
                *value = if *slope < 0 { bounds.high } else { bounds.low };
            }
        }
        for definition in problem.definitions.all.iter().rev() {
            self.set(definition.variable, 0);
            let lacking = self.excess(problem, definition.row).wrapping_neg();
            self.set(definition.variable, lacking.wrapping_mul(definition.sign));
        }
    }

    fn set(&mut self, variable: usize, value: i64) {
        if let Some(place) = self.values.get_mut(variable) {
            *place = value;
        }
    }

    /// How far the sum of the row lies above its bound there.
    pub fn excess(&self, problem: &Problem, row: Row) -> i64 {
        let mut sum = 0i64;
        for entry in problem.entries_of(row) {
            if let Some(value) = self.values.get(entry.variable) {
                sum = sum.wrapping_add(entry.coefficient.wrapping_mul(*value));
            }
        }
        sum.wrapping_sub(row.bound)
    }

    /// The constraints of the definitions, with their multipliers.
    pub fn push_defining(
        &self,
        problem: &Problem,
        multiples: &mut Vec<(u64, i64)>,
    ) -> Result<(), Memory> {
        for (definition, multiplier) in problem.definitions.all.iter().zip(self.defining.iter()) {
            if *multiplier != 0 {
                multiples.push((definition.row.constraint, *multiplier))?;
            }
        }
        Ok(())
    }
}
