// The search for multipliers and prices.
use crate::lagrangian::Lagrangian;
use crate::multiplier::{Multiplier, ONE, PACE, narrowed};
use fzn_domain::Memory;
use fzn_multipliers::{Budget, Rise, Row, Rows};
use fzn_relaxation::{Apart, Problem};
use std::alloc::Global;

const MOST_ROUNDS: usize = 1_500;

/// So many rounds are made whatever they cost: a bound that rises has mostly begun to by then.
const LEAST_ROUNDS: u64 = 4;

/// After so many rounds without a better bound the step is made shorter.
const PATIENCE: usize = 20;

/// The share of a step that is taken at first, and the least, where the search ends.
const WHOLE_STEP: i64 = 1024;

const LEAST_STEP: i64 = 3;

/// The least share of a step while the bound is not better than what is known without it.
const LEAST_WAITING_STEP: i64 = 300;

/// A bound has to rise by one part of so many, else it is not worth a row.
const WORTH: i128 = 200;

/// Rounding may lose one part of so many of what the bound has risen.
const PARTS: i128 = 16;

/// No multiplier, no price and no coefficient of what is found is larger.
const MOST: i64 = 1_000_000_000_000;

/// Multipliers and prices, which are bettered round by round.
#[derive(Debug, Drop)]
pub struct Ascent {
    /// Those of the free rows.
    pub weights: Vec<Multiplier>,
    /// The prices of the values, constraint by constraint.
    pub prices: Vec<Multiplier>,
    /// The prices of the entries of tables, column by column.
    pub columns: Vec<Multiplier>,
    /// The sum that they make.
    pub lagrangian: Lagrangian,
    is_refutation: bool,
    /// What is known of the objective without rows and prices.
    first: i128,
    best: i128,
    step: i64,
    /// How many rounds have not bettered the bound.
    stalled: usize,
    budget: Budget,
}

impl Ascent {
    pub fn new(alloc: Global, problem: &Problem, rows: &Rows) -> Result<Ascent, Memory> {
        let mut ascent = Ascent {
            weights: weights_of(alloc, problem, rows)?,
            prices: prices_of(alloc, problem)?,
            columns: vec![in alloc; Multiplier::price(true); problem.tables.prices]?,
            lagrangian: Lagrangian::new(alloc, problem)?,
            is_refutation: problem.objective.is_none(),
            first: 0,
            best: 0,
            step: WHOLE_STEP,
            stalled: 0,
            budget: Budget::new(problem.cost(rows), LEAST_ROUNDS),
        };
        ascent.best = ascent.bound(problem, rows, ONE);
        ascent.first = ascent.best.max(problem.declared(ONE));
        Ok(ascent)
    }

    /// What the multipliers give, times this number.
    fn bound(&mut self, problem: &Problem, rows: &Rows, scale: i64) -> i128 {
        self.lagrangian.begin(problem, scale);
        for (row, weight) in problem.free.iter().zip(self.weights.iter()) {
            self.lagrangian.add(rows, *row, weight.number);
        }
        let mut start = 0usize;
        for apart in problem.aparts.all.iter() {
            let end = start.saturating_add(apart.count);
            let prices = part(&self.prices, start, end);
            self.lagrangian.charge(problem, *apart, prices);
            start = end;
        }
        self.lagrangian.pay(problem, &self.columns);
        self.lagrangian.end(problem, rows, &self.columns)
    }

    /// Betters the bound while it can.
    pub fn rise(&mut self, problem: &Problem, rows: &Rows) {
        for _ in 0..MOST_ROUNDS {
            if !self.can_work() || !self.goes_on(problem, rows) {
                return;
            }
        }
    }

    /// Whether there is work for one more round.
    fn can_work(&mut self) -> bool {
        if self.budget.take() {
            return true;
        }
        let rise = self.risen();
        self.budget.extend(rise)
    }

    /// How far the bound has come.
    fn risen(&self) -> Rise {
        if self.is_worth(self.best, ONE) {
            Rise::Worthy
        } else if self.first < self.best {
            Rise::Rising
        } else {
            Rise::Waiting
        }
    }

    /// One round. Whether another may find a better bound.
    fn goes_on(&mut self, problem: &Problem, rows: &Rows) -> bool {
        let bound = self.bound(problem, rows, ONE);
        if self.best < bound {
            self.keep(bound);
        } else {
            self.stalled = self.stalled.saturating_add(1);
            if PATIENCE < self.stalled {
                return self.retreat();
            }
        }
        if self.is_refutation && 0 < self.best.wrapping_mul(2).wrapping_sub(ONE as i128) {
            return false;
        }
        self.measure(problem, rows) && self.advance(self.target().wrapping_sub(bound))
    }

    fn keep(&mut self, bound: i128) {
        self.best = bound;
        self.stalled = 0;
        for multiplier in self.weights.iter_mut() {
            multiplier.keep();
        }
        for multiplier in self.prices.iter_mut() {
            multiplier.keep();
        }
        for multiplier in self.columns.iter_mut() {
            multiplier.keep();
        }
    }

    /// Goes back to the best bound, for shorter steps. Whether they are not too short.
    fn retreat(&mut self) -> bool {
        self.stalled = 0;
        self.step = self.step.saturating_mul(7) / 10;
        for multiplier in self.weights.iter_mut() {
            multiplier.retreat();
        }
        for multiplier in self.prices.iter_mut() {
            multiplier.retreat();
        }
        for multiplier in self.columns.iter_mut() {
            multiplier.retreat();
        }
        let least = if self.first < self.best {
            LEAST_STEP
        } else {
            LEAST_WAITING_STEP
        };
        least <= self.step
    }

    /// A bound that is hoped for.
    fn target(&self) -> i128 {
        let two = ONE as i128 * 2;
        if self.is_refutation {
            return self.best.max(0).wrapping_add(ONE as i128);
        }
        let share = narrowed(self.best).saturating_abs() / 100;
        self.best.wrapping_add(two).wrapping_add(share as i128 * 3)
    }

    /// Where the sum is least: whether a constraint is violated there, or may count less.
    fn measure(&mut self, problem: &Problem, rows: &Rows) -> bool {
        self.lagrangian.settle(problem, rows);
        for (row, weight) in problem.free.iter().zip(self.weights.iter_mut()) {
            weight.excess = self.lagrangian.excess(rows, *row);
        }
        let mut start = 0usize;
        for apart in problem.aparts.all.iter() {
            let end = start.saturating_add(apart.count);
            count(
                &self.lagrangian,
                problem,
                *apart,
                &mut self.prices,
                start,
                end,
            );
            start = end;
        }
        self.lagrangian.compare(problem, &mut self.columns);
        let is_one_open = measure_each(&mut self.weights);
        let is_other_open = measure_each(&mut self.prices);
        measure_each(&mut self.columns) || is_one_open || is_other_open
    }

    /// The multipliers move, so far that a bound which is linear rises by the gap.
    fn advance(&mut self, gap: i128) -> bool {
        let square = turned(&mut self.weights)
            .saturating_add(turned(&mut self.prices))
            .saturating_add(turned(&mut self.columns));
        let wanted = (narrowed(gap) as i128).wrapping_mul(self.step as i128);
        let pace = paced(wanted, square);
        for multiplier in self.weights.iter_mut() {
            multiplier.go(pace);
        }
        for multiplier in self.prices.iter_mut() {
            multiplier.go(pace);
        }
        for multiplier in self.columns.iter_mut() {
            multiplier.go(pace);
        }
        true
    }

    /// Whether the bound, times this number, is worth a row.
    pub fn is_worth(&self, bound: i128, scale: i64) -> bool {
        if self.is_refutation {
            return 0 < bound;
        }
        let one = ONE as i128;
        let first = narrowed(self.first) as i128;
        let bound = rescaled(bound, scale);
        let rise = bound.wrapping_sub(first);
        let least = one.wrapping_add(first.wrapping_abs()) / WORTH;
        least < rise && ceiling(first) < ceiling(bound)
    }
}

impl Ascent {
    /// Whether the bound, times this number, lies below the best by at most one part of so many of what that has risen.
    fn is_near(&self, bound: i128, scale: i64) -> bool {
        let lost = self.best.wrapping_sub(rescaled(bound, scale));
        lost.wrapping_mul(PARTS) <= self.best.wrapping_sub(self.first)
    }

    /// Whether the best bound is worth a row.
    pub fn is_found(&self) -> bool {
        self.is_worth(self.best, ONE)
    }

    /// Rounds the best multipliers to a grid, those to 0 that count for less than one part of so many of what the bound has risen, but for
    /// prices of entries, of which there are so many that small ones count together. Whether they are nearly as good there, and none is too
    /// large.
    pub fn round(&mut self, problem: &Problem, rows: &Rows, grid: i64, share: i128) -> bool {
        let least = narrowed(self.best.wrapping_sub(self.first) / share.max(1));
        for multiplier in self.weights.iter_mut() {
            multiplier.round(grid, least);
        }
        for multiplier in self.prices.iter_mut() {
            multiplier.round(grid, least);
        }
        for multiplier in self.columns.iter_mut() {
            multiplier.round(grid, 0);
        }
        let bound = self.bound(problem, rows, grid);
        self.is_worth(bound, grid) && self.is_near(bound, grid) && self.is_small()
    }

    fn is_small(&self) -> bool {
        for multipliers in [&self.weights, &self.prices, &self.columns] {
            if !are_small(multipliers) {
                return false;
            }
        }
        if MOST < self.lagrangian.steepest {
            return false;
        }
        for multiplier in self.lagrangian.defining.iter() {
            if MOST < multiplier.saturating_abs() {
                return false;
            }
        }
        true
    }
}

fn weights_of(alloc: Global, problem: &Problem, rows: &Rows) -> Result<Vec<Multiplier>, Memory> {
    let mut weights = Vec::new(alloc);
    for row in problem.free.iter() {
        weights.push(weight_of(rows, *row))?;
    }
    Ok(weights)
}

fn weight_of(rows: &Rows, row: Row) -> Multiplier {
    let mut square = 0i64;
    let mut largest = 1i64;
    for entry in rows.entries_of(row) {
        let size = entry.coefficient.saturating_abs();
        square = square.saturating_add(size.saturating_mul(size));
        largest = largest.max(size);
    }
    Multiplier::weight(row.is_equal, largest, square)
}

fn prices_of(alloc: Global, problem: &Problem) -> Result<Vec<Multiplier>, Memory> {
    let mut prices = Vec::new(alloc);
    for apart in problem.aparts.all.iter() {
        for _ in 0..apart.count {
            prices.push(Multiplier::price(apart.is_exact()))?;
        }
    }
    Ok(prices)
}

/// Those from one place to another.
pub fn part(all: &[Multiplier], start: usize, end: usize) -> &[Multiplier] {
    if start <= end && end <= all.len() {
        &all[start..end]
    } else {
        &[]
    }
}

fn count(
    lagrangian: &Lagrangian,
    problem: &Problem,
    apart: Apart,
    prices: &mut Vec<Multiplier>,
    start: usize,
    end: usize,
) {
    if start <= end && end <= prices.len() {
        lagrangian.count(problem, apart, &mut prices[start..end]);
    }
}

fn are_small(multipliers: &[Multiplier]) -> bool {
    for multiplier in multipliers {
        if MOST < multiplier.number.saturating_abs() {
            return false;
        }
    }
    true
}

fn measure_each(multipliers: &mut Vec<Multiplier>) -> bool {
    let mut is_open = false;
    for multiplier in multipliers.iter_mut() {
        if multiplier.measure() {
            is_open = true;
        }
    }
    is_open
}

/// All directions turn: the square of how far they go together.
fn turned(multipliers: &mut Vec<Multiplier>) -> i128 {
    let mut square = 0i128;
    for multiplier in multipliers.iter_mut() {
        square = square.saturating_add(multiplier.turn());
    }
    square
}

/// How fast the multipliers move in their directions, of which this is the square, so that the bound rises by what is wanted.
fn paced(wanted: i128, square: i128) -> i128 {
    wanted.wrapping_mul(PACE) / square.max(1)
}

/// A bound that was taken times one number, times `ONE` instead.
fn rescaled(bound: i128, scale: i64) -> i128 {
    (narrowed(bound) as i128).wrapping_mul(ONE as i128) / (scale.max(1) as i128)
}

/// The least whole number that is at least so much.
fn ceiling(number: i128) -> i128 {
    number.wrapping_add(ONE as i128 - 1).div_euclid(ONE as i128)
}
