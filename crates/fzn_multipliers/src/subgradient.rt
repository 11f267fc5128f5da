// The multipliers of one sum of rows that bounds the objective well, or that nothing meets.
ghost use Rattle.std.specs.Prelude.{IfOk, IfSome};
ghost use Rattle.fzn_meaning.specs.WellFormed.{IsWellFormed};
ghost use Rattle.fzn_meaning.specs.Solutions.{declared_sets};
ghost use Rattle.fzn_derive.specs.Derived.{IsDerivable};

use crate::budget::{Budget, Rise};
use crate::lagrangian::{Lagrangian, Problem};
use crate::numbers::{divided, narrowed};
use crate::objective::Objective;
use crate::rows::{Row, Rows};
use fzn_cited::Multiple;
use fzn_derive::{Derivation, Deriver};
use fzn_domain::Memory;
use fzn_list::Items;
use fzn_meaning::Model;
use std::alloc::Global;

/// A multiplier of 1, while multipliers are sought.
const ONE: i64 = 1 << 32;

/// What is 1 among the multipliers that are found: the first that serves. A finer one is tried where rows have large coefficients and the
/// objective small ones, a coarser one where coefficients become too large.
const GRIDS: [i64; 5] = [1024, 1 << 20, 64, 8, 1];

/// Rounding may lose one part of so many of what the bound has risen; if every grid loses more, then all of it but what makes it worth a
/// sum.
const PARTS: [i128; 2] = [16, 1];

/// No multiplier makes a coefficient larger while multipliers are sought.
const LARGEST: i64 = 1 << 56;

/// No coefficient and no bound of what is found is larger.
const MOST: i128 = 1_000_000_000;

const MOST_ROUNDS: usize = 1_500;

/// So many rounds are made whatever they cost: rows that nothing meets have shown it then, if they are alike.
const LEAST_ROUNDS: u64 = 8;

/// After so many rounds without a better bound the step is made shorter.
const PATIENCE: usize = 20;

/// The share of a step that is taken at first, and the least, where the search ends.
const WHOLE_STEP: i64 = 1024;

const LEAST_STEP: i64 = 3;

/// The least share of a step while the bound is not better than what is known without it.
const LEAST_WAITING_STEP: i64 = 300;

/// A bound has to rise by one part of so many, else it is not worth a sum.
const WORTH: i128 = 200;

/// What a violation of 1 counts, of a row of norm 1.
const UNIT: i64 = 1024;

/// One sum of the rows of a model, each times a number: it bounds the objective better than single constraints do, or, where there is no
/// objective, nothing meets it. `None` where none is found. The multipliers are sought by the subgradient method, which moves them towards
/// the rows that are violated where the sum is least. It answers `Err` where memory runs out.
pub fn multipliers(alloc: Global, model: &Model, rows: Rows) -> Result<Option<Derivation>, Memory>
    requires { IsWellFormed model.now }
    ensures { IfOk result (λ found. IfSome found (IsDerivable model.now.constraints (declared_sets model.now.vars))) }
{
    if !is_reached(model, &rows) {
        return Ok(None);
    }
    let problem = Problem::of(alloc, model, rows)?;
    let Some(multiples) = sought(alloc, &problem)? else {
        return Ok(None);
    };
    let sum = Derivation::Sum(multiples);
    let given = model.constraints.as_slice();
    let mut room = Deriver::new(alloc, model.vars.len())?;
    if room.gives(alloc, given, model.vars.as_slice(), &sum)? {
        Ok(Some(sum))
    } else {
        Ok(None)
    }
}

/// Whether there is no objective, or a row has it: else no sum bounds it.
fn is_reached(model: &Model, rows: &Rows) -> bool {
    match Objective::of(model) {
        None => true,
        Some(objective) => rows.have(objective.variable),
    }
}

/// The rows of the problem with their multipliers, where there are some whose sum is worth it.
fn sought(alloc: Global, problem: &Problem) -> Result<Option<Items<Multiple>>, Memory> {
    if !problem.can_be_met || problem.free.is_empty() {
        return Ok(None);
    }
    let mut ascent = Ascent::new(alloc, problem)?;
    ascent.rise(problem);
    if !ascent.is_worth(ascent.best, ONE) {
        return Ok(None);
    }
    for parts in PARTS {
        for grid in GRIDS {
            if let Some(multiples) = ascent.rounded(alloc, problem, grid, parts)? {
                return Ok(Some(multiples));
            }
        }
    }
    Ok(None)
}

/// A row with its multiplier.
#[derive(Clone, Copy, Debug)]
struct Weight {
    row: Row,
    multiplier: i64,
    /// That of the best bound.
    best: i64,
    /// No multiplier is larger.
    most: i64,
    /// The root of the sum of the squares of its coefficients.
    norm: i64,
    /// How far the sum lies above its bound where the Lagrangian is least, in units, by the norm.
    excess: i64,
    /// The direction in which the multiplier moves.
    momentum: i64,
}

impl Weight {
    fn of(problem: &Problem, row: Row) -> Weight {
        let mut square = 0i64;
        let mut largest = 1i64;
        for entry in problem.entries_of(row) {
            let size = entry.coefficient.saturating_abs();
            square = square.saturating_add(size.saturating_mul(size));
            largest = largest.max(size);
        }
        Weight {
            row,
            multiplier: 0,
            best: 0,
            most: divided(LARGEST, largest),
            norm: square.max(1).isqrt().max(1),
            excess: 0,
            momentum: 0,
        }
    }

    /// Whether the row is violated so, or may count less.
    fn measure(&mut self, excess: i64) -> bool {
        self.excess = if !self.row.is_equal && self.multiplier <= 0 && excess < 0 {
            0
        } else {
            divided(excess.saturating_mul(UNIT), self.norm)
        };
        self.excess != 0
    }

    /// The direction turns: the square of how far it goes.
    fn turn(&mut self) -> i128 {
        let before = self.momentum.saturating_mul(85) / 100;
        self.momentum = before.saturating_add(self.excess);
        (self.momentum as i128).wrapping_mul(self.momentum as i128)
    }

    /// The multiplier moves in the direction.
    fn go(&mut self, pace: i128) {
        let step = pace.wrapping_mul(self.momentum as i128) / PACE;
        let step = divided(narrowed(step), self.norm);
        self.multiplier = self
            .multiplier
            .saturating_add(step)
            .min(self.most)
            .max(self.most.wrapping_neg());
        if !self.row.is_equal && self.multiplier < 0 {
            self.multiplier = 0;
            self.momentum = 0;
        }
    }

    /// Back to the best bound.
    fn retreat(&mut self) {
        self.multiplier = self.best;
        self.momentum = 0;
    }
}

/// A pace of 1.
const PACE: i128 = 1 << 48;

/// The search for multipliers.
#[derive(Debug, Drop)]
struct Ascent {
    weights: Vec<Weight>,
    lagrangian: Lagrangian,
    is_refutation: bool,
    /// What is known of the objective without a sum.
    first: i128,
    best: i128,
    step: i64,
    /// How many rounds have not bettered the bound.
    stalled: usize,
    budget: Budget,
}

impl Ascent {
    fn new(alloc: Global, problem: &Problem) -> Result<Ascent, Memory> {
        let mut weights = Vec::new(alloc);
        for row in problem.free.iter() {
            weights.push(Weight::of(problem, *row))?;
        }
        let mut ascent = Ascent {
            weights,
            lagrangian: Lagrangian::new(alloc, problem)?,
            is_refutation: problem.objective.is_none(),
            first: 0,
            best: 0,
            step: WHOLE_STEP,
            stalled: 0,
            budget: Budget::new(problem.cost(), LEAST_ROUNDS),
        };
        ascent.best = ascent.bound(problem, ONE);
        ascent.first = ascent.best.max(problem.known(ONE));
        Ok(ascent)
    }

    /// What the multipliers give, times this number.
    fn bound(&mut self, problem: &Problem, scale: i64) -> i128 {
        self.lagrangian.begin(problem, scale);
        for weight in self.weights.iter() {
            self.lagrangian.add(problem, weight.row, weight.multiplier);
        }
        self.lagrangian.end(problem)
    }

    /// Betters the bound while it can.
    fn rise(&mut self, problem: &Problem) {
        for _ in 0..MOST_ROUNDS {
            if !self.can_work() || !self.goes_on(problem) {
                return;
            }
        }
    }

    /// Whether there is work for one more round.
    fn can_work(&mut self) -> bool {
        if self.budget.take() {
            return true;
        }
        let rise = self.risen();
        self.budget.extend(rise)
    }

    /// How far the bound has come.
    fn risen(&self) -> Rise {
        if self.is_worth(self.best, ONE) {
            Rise::Worthy
        } else if self.first < self.best {
            Rise::Rising
        } else {
            Rise::Waiting
        }
    }

    /// One round. Whether another may find a better bound.
    fn goes_on(&mut self, problem: &Problem) -> bool {
        let bound = self.bound(problem, ONE);
        if self.best < bound {
            self.keep(bound);
        } else {
            self.stalled = self.stalled.saturating_add(1);
            if PATIENCE < self.stalled {
                return self.retreat();
            }
        }
        if self.is_refutation && 0 < self.best.wrapping_mul(2).wrapping_sub(ONE as i128) {
            return false;
        }
        self.measure(problem) && self.advance(self.target().wrapping_sub(bound))
    }

    fn keep(&mut self, bound: i128) {
        self.best = bound;
        self.stalled = 0;
        for weight in self.weights.iter_mut() {
            weight.best = weight.multiplier;
        }
    }

    /// Goes back to the best bound, for shorter steps. Whether they are not too short.
    fn retreat(&mut self) -> bool {
        self.stalled = 0;
        self.step = self.step.saturating_mul(7) / 10;
        for weight in self.weights.iter_mut() {
            weight.retreat();
        }
        let least = if self.first < self.best {
            LEAST_STEP
        } else {
            LEAST_WAITING_STEP
        };
        least <= self.step
    }

    /// A bound that is hoped for.
    fn target(&self) -> i128 {
        let two = ONE as i128 * 2;
        if self.is_refutation {
            return self.best.max(0).wrapping_add(ONE as i128);
        }
        let share = narrowed(self.best).saturating_abs() / 100;
        self.best.wrapping_add(two).wrapping_add(share as i128 * 3)
    }

    /// Where the sum is least: whether a row is violated there, or may count less.
    fn measure(&mut self, problem: &Problem) -> bool {
        self.lagrangian.settle(problem);
        let mut is_open = false;
        for weight in self.weights.iter_mut() {
            let excess = self.lagrangian.excess(problem, weight.row);
            if weight.measure(excess) {
                is_open = true;
            }
        }
        is_open
    }

    /// The multipliers move, so far that a bound which is linear rises by the gap.
    fn advance(&mut self, gap: i128) -> bool {
        let mut square = 0i128;
        for weight in self.weights.iter_mut() {
            square = square.saturating_add(weight.turn());
        }
        let wanted = (narrowed(gap) as i128).wrapping_mul(self.step as i128);
        let pace = wanted.wrapping_mul(PACE) / square.max(1);
        for weight in self.weights.iter_mut() {
            weight.go(pace);
        }
        true
    }

    /// Whether the bound, times this number, is worth a sum.
    fn is_worth(&self, bound: i128, scale: i64) -> bool {
        if self.is_refutation {
            return 0 < bound;
        }
        let one = ONE as i128;
        let first = narrowed(self.first) as i128;
        let bound = rescaled(bound, scale);
        let rise = bound.wrapping_sub(first);
        let least = one.wrapping_add(first.wrapping_abs()) / WORTH;
        least < rise && ceiling(first) < ceiling(bound)
    }

    /// Whether the bound, times this number, lies below the best by at most one part of so many of what that has risen.
    fn is_near(&self, bound: i128, scale: i64, parts: i128) -> bool {
        let lost = self.best.wrapping_sub(rescaled(bound, scale));
        lost.wrapping_mul(parts) <= self.best.wrapping_sub(self.first)
    }

    /// The best multipliers on a grid, where they are nearly as good and make no coefficient too large.
    fn rounded(
        &mut self,
        alloc: Global,
        problem: &Problem,
        grid: i64,
        parts: i128,
    ) -> Result<Option<Items<Multiple>>, Memory> {
        for weight in self.weights.iter_mut() {
            weight.multiplier = rounded(weight.best, grid);
        }
        let bound = self.bound(problem, grid);
        if !self.is_worth(bound, grid) || !self.is_near(bound, grid, parts) {
            return Ok(None);
        }
        let mut all = Vec::new(alloc);
        for weight in self.weights.iter() {
            if weight.multiplier != 0 {
                all.push((weight.row.constraint, weight.multiplier))?;
            }
        }
        self.lagrangian.push_defining(problem, &mut all)?;
        all.sort_unstable();
        let divisor = divisor_of(&all);
        if !self.is_small(problem, grid, divisor) {
            return Ok(None);
        }
        let mut multiples = Items::new(alloc);
        for (constraint, multiplier) in all.iter() {
            multiples.push(Multiple {
                multiplier: divided(*multiplier, divisor),
                constraint: *constraint,
            })?;
        }
        Ok(Some(multiples))
    }

    /// Whether the sum can be stated once it is divided.
    fn is_small(&self, problem: &Problem, grid: i64, divisor: i64) -> bool {
        let most = MOST.wrapping_mul(divisor as i128);
        if most < self.lagrangian.constant.wrapping_abs() {
            return false;
        }
        for variable in problem.used.iter() {
            if let Some(slope) = self.lagrangian.slopes.get(*variable)
                && most < (*slope as i128).wrapping_abs().wrapping_add(grid as i128)
            {
                return false;
            }
        }
        true
    }
}

/// A bound that was taken times one number, times `ONE` instead.
fn rescaled(bound: i128, scale: i64) -> i128 {
    (narrowed(bound) as i128).wrapping_mul(ONE as i128) / (scale.max(1) as i128)
}

/// A multiplier on a grid.
fn rounded(multiplier: i64, grid: i64) -> i64 {
    let half = if multiplier < 0 { -(ONE / 2) } else { ONE / 2 };
    let whole = (multiplier as i128).wrapping_mul(grid as i128);
    narrowed(whole.wrapping_add(half as i128) / ONE as i128)
}

/// The greatest number that divides all multipliers, and 1 where there are none.
fn divisor_of(multiples: &[(u64, i64)]) -> i64 {
    let mut divisor = 0;
    for (_, multiplier) in multiples {
        divisor = common_divisor(divisor, multiplier.saturating_abs());
    }
    divisor.max(1)
}

/// The greatest common divisor of two numbers that are not below 0.
fn common_divisor(one: i64, other: i64) -> i64 {
    let (mut one, mut other) = (one, other);
    for _ in 0..100 {
        if other < 1 {
            return one;
        }
        (one, other) = (other, one % other);
    }
    1
}

/// The least whole number that is at least so much.
fn ceiling(number: i128) -> i128 {
    number.wrapping_add(ONE as i128 - 1).div_euclid(ONE as i128)
}
