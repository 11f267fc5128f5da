// The objective with a sum of rows, each times its multiplier, and with prices, where each variable is free within its declared set.
use crate::multiplier::Multiplier;
use fzn_domain::Memory;
use fzn_moves::{Exchange, Move, NO_ENTRY};
use fzn_multipliers::{Row, Rows};
use fzn_relaxation::{Apart, List, Problem};
use fzn_values::Term;
use std::alloc::Global;

/// The sum that some multipliers and prices make, and where it is least.
#[derive(Debug, Drop)]
pub struct Lagrangian {
    /// By the numbers of the variables, less one: what each is multiplied with.
    slopes: Vec<i64>,
    /// By the places of the values that are listed: what each weighs besides.
    pub(crate) weights: Vec<i64>,
    /// What is added besides.
    constant: i128,
    /// The greatest number that a variable is multiplied with or that moves by a table, without its sign.
    pub steepest: i64,
    /// By the places of the definitions: their multipliers.
    pub defining: Vec<i64>,
    /// By the places of the moves to one variable: whether there was something that moved.
    pub moving: Vec<bool>,
    /// By the places of the entries of those: what moved there by a table.
    moved: Vec<i64>,
    /// By the places of the moves by inverses: whether there was something that moved.
    pub exchanging: Vec<bool>,
    /// By the tables: the row that weighs least, counted from 0.
    pub(crate) rows: Vec<usize>,
    /// By the variables that go to rows of tables: whether there was something that went.
    pub giving: Vec<bool>,
    /// By the numbers of the variables, less one: their values where the sum is least.
    values: Vec<i64>,
}

impl Lagrangian {
    /// That of no row.
    pub fn new(alloc: Global, problem: &Problem) -> Result<Lagrangian, Memory> {
        let vars = problem.bounds.len();
        Ok(Lagrangian {
            slopes: vec![in alloc; 0; vars]?,
            weights: vec![in alloc; 0; problem.lists.len()]?,
            constant: 0,
            steepest: 0,
            defining: vec![in alloc; 0; problem.definitions.len()]?,
            moving: vec![in alloc; false; problem.moves.all.len()]?,
            moved: vec![in alloc; 0; problem.moves.len()]?,
            exchanging: vec![in alloc; false; problem.moves.exchanges.all.len()]?,
            rows: vec![in alloc; 0usize; problem.tables.all.len()]?,
            giving: vec![in alloc; false; problem.tables.givers()]?,
            values: vec![in alloc; 0; vars]?,
        })
    }

    /// The objective alone, times this number.
    pub fn begin(&mut self, problem: &Problem, scale: i64) {
        for variable in problem.plain.iter() {
            self.flatten(*variable);
        }
        for list in problem.lists.all.iter() {
            self.flatten(list.variable);
        }
        for weight in self.weights.iter_mut() {
            *weight = 0;
        }
        self.constant = 0;
        self.steepest = 0;
        if let Some(objective) = problem.objective
            && let Some(slope) = self.slopes.get_mut(objective.variable)
        {
            *slope = objective.sign.saturating_mul(scale);
        }
    }

    pub(crate) fn flatten(&mut self, variable: usize) {
        if let Some(slope) = self.slopes.get_mut(variable) {
            *slope = 0;
        }
    }

    /// Adds a row, so many times.
    pub fn add(&mut self, rows: &Rows, row: Row, multiplier: i64) {
        if multiplier == 0 {
            return;
        }
        for entry in rows.entries_of(row) {
            if let Some(slope) = self.slopes.get_mut(entry.variable) {
                let more = multiplier.saturating_mul(entry.coefficient);
                *slope = slope.saturating_add(more);
            }
        }
        let less = (multiplier as i128).wrapping_mul(row.bound as i128);
        self.constant = self.constant.wrapping_sub(less);
    }

    /// Adds the prices of the places of a constraint, of which each value has one at the most.
    pub fn charge(&mut self, problem: &Problem, apart: Apart, prices: &[Multiplier]) {
        for term in problem.aparts.terms_of(apart) {
            match *term {
                Term::Constant(value) => {
                    if let Some(place) = apart.place_of(value)
                        && let Some(price) = prices.get(place)
                    {
                        self.constant = self.constant.wrapping_add(price.number as i128);
                    }
                }
                Term::Variable(var) => {
                    if let Some(list) = problem.lists.list_of(var.0.saturating_sub(1)) {
                        self.charge_list(list, apart, prices);
                    }
                }
            }
        }
        for price in prices {
            self.constant = self.constant.wrapping_sub(price.number as i128);
        }
    }

    fn charge_list(&mut self, list: List, apart: Apart, prices: &[Multiplier]) {
        let mut value = apart.low;
        for price in prices {
            if let Some(place) = list.place_of(value)
                && let Some(weight) = self.weights.get_mut(place)
            {
                *weight = weight.saturating_add(price.number);
            }
            value = value.saturating_add(1);
        }
    }

    /// Takes out what is defined, what moves, and what goes to rows of tables, with these prices of their entries: the least that is left
    /// then.
    pub fn end(&mut self, problem: &Problem, rows: &Rows, prices: &[Multiplier]) -> i128 {
        self.define(problem, rows);
        self.move_all(problem);
        self.exchange_all(problem);
        let tables = self.weigh(problem, prices);
        self.minimise(problem).wrapping_add(tables)
    }

    /// Takes the defined variables out.
    fn define(&mut self, problem: &Problem, rows: &Rows) {
        for place in 0..problem.definitions.len() {
            if let Some(definition) = problem.definitions.get(place) {
                let slope = self.slope_of(definition.variable);
                let wanted = slope.saturating_mul(definition.sign.wrapping_neg());
                let multiplier = if definition.row.is_equal {
                    wanted
                } else {
                    wanted.max(0)
                };
                self.add(rows, definition.row, multiplier);
                if let Some(last) = self.defining.get_mut(place) {
                    *last = multiplier;
                }
            }
        }
    }

    pub(crate) fn slope_of(&self, variable: usize) -> i64 {
        self.slopes.get(variable).copied().unwrap_or(0)
    }

    /// What a variable is multiplied with at last.
    pub(crate) fn last_slope_of(&mut self, variable: usize) -> i64 {
        let slope = self.slope_of(variable);
        self.steepest = self.steepest.max(slope.saturating_abs());
        slope
    }

    fn move_all(&mut self, problem: &Problem) {
        for place in 0..problem.moves.all.len() {
            if let Some(one) = problem.moves.all.get(place).copied() {
                let is_moving = self.move_one(problem, one);
                if let Some(moving) = self.moving.get_mut(place) {
                    *moving = is_moving;
                }
            }
        }
    }

    /// What the value weighs moves to the index. Whether it weighs something.
    fn move_one(&mut self, problem: &Problem, one: Move) -> bool {
        let Some(index) = problem.lists.list_of(one.index) else {
            return false;
        };
        let from = problem.lists.list_of(one.value);
        let slope = self.last_slope_of(one.value);
        if slope == 0 && !self.weighs(from) {
            return false;
        }
        let mut value = one.first();
        let mut at = one.start;
        for entry in problem.moves.entries_of(one) {
            if *entry != NO_ENTRY {
                let mut more = slope.saturating_mul(*entry);
                if let Some(from) = from {
                    more = more.saturating_add(self.weight_at(from, *entry));
                }
                if let Some(place) = index.place_of(value)
                    && let Some(weight) = self.weights.get_mut(place)
                {
                    *weight = weight.saturating_add(more);
                }
                if one.column.is_some() {
                    self.note_moved(at, more);
                }
            }
            value = value.saturating_add(1);
            at = at.saturating_add(1);
        }
        self.flatten(one.value);
        if let Some(from) = from {
            self.clear(from);
        }
        true
    }

    /// Notes what moves by a table at the entry at this place.
    fn note_moved(&mut self, place: usize, weight: i64) {
        self.steepest = self.steepest.max(weight.saturating_abs());
        if let Some(moved) = self.moved.get_mut(place) {
            *moved = weight;
        }
    }

    /// What moved by a table at the entry at this place.
    pub fn moved_at(&self, place: usize) -> i64 {
        self.moved.get(place).copied().unwrap_or(0)
    }

    fn exchange_all(&mut self, problem: &Problem) {
        for place in 0..problem.moves.exchanges.all.len() {
            if let Some(one) = problem.moves.exchanges.all.get(place).copied() {
                let is_moving = self.exchange(problem, one);
                if let Some(moving) = self.exchanging.get_mut(place) {
                    *moving = is_moving;
                }
            }
        }
    }

    /// What the place of the second list weighs moves to the first list. Whether it weighs something.
    fn exchange(&mut self, problem: &Problem, one: Exchange) -> bool {
        let from = problem.lists.list_of(one.variable);
        let slope = self.last_slope_of(one.variable);
        if slope == 0 && !self.weighs(from) {
            return false;
        }
        let mut number = 0i64;
        for variable in problem.moves.exchanges.places_of(one) {
            number = number.saturating_add(1);
            let mut more = slope.saturating_mul(number);
            if let Some(from) = from {
                more = more.saturating_add(self.weight_at(from, number));
            }
            if let Some(list) = problem.lists.list_of(*variable)
                && let Some(place) = list.place_of(one.number)
                && let Some(weight) = self.weights.get_mut(place)
            {
                *weight = weight.saturating_add(more);
            }
        }
        self.flatten(one.variable);
        if let Some(from) = from {
            self.clear(from);
        }
        true
    }

    /// Whether something is listed that is not 0.
    fn weighs(&self, list: Option<List>) -> bool {
        let Some(list) = list else {
            return false;
        };
        for place in list.start..list.end {
            if self.weights.get(place).copied().unwrap_or(0) != 0 {
                return true;
            }
        }
        false
    }

    fn weight_at(&self, list: List, value: i64) -> i64 {
        match list.place_of(value) {
            Some(place) => self.weights.get(place).copied().unwrap_or(0),
            None => 0,
        }
    }

    fn clear(&mut self, list: List) {
        for place in list.start..list.end {
            if let Some(weight) = self.weights.get_mut(place) {
                *weight = 0;
            }
        }
    }

    /// Finds the values of the variables where the sum is least: what it is there.
    fn minimise(&mut self, problem: &Problem) -> i128 {
        let mut least = self.constant;
        for variable in problem.plain.iter() {
            let slope = self.last_slope_of(*variable);
            if let Some(bounds) = problem.bounds.get(*variable) {
                self.set(*variable, if slope < 0 { bounds.high } else { bounds.low });
                least = least.wrapping_add(bounds.least_product(slope));
            }
        }
        for list in problem.lists.all.iter() {
            let slope = self.last_slope_of(list.variable);
            if let Some((weight, value)) = self.least_in(problem, *list, slope) {
                self.set(list.variable, value);
                least = least.wrapping_add(weight as i128);
            }
        }
        least
    }

    /// The least weight of the values that can be, and where it is.
    fn least_in(&self, problem: &Problem, list: List, slope: i64) -> Option<(i64, i64)> {
        let mut least = None;
        let mut value = list.low;
        for place in list.start..list.end {
            if problem.lists.is_allowed(place)
                && let Some(weight) = self.weights.get(place)
            {
                let weight = weight.saturating_add(slope.saturating_mul(value));
                least = lesser(least, weight, value);
            }
            value = value.saturating_add(1);
        }
        least
    }

    pub(crate) fn set(&mut self, variable: usize, value: i64) {
        if let Some(place) = self.values.get_mut(variable) {
            *place = value;
        }
    }

    pub(crate) fn value_of(&self, variable: usize) -> i64 {
        self.values.get(variable).copied().unwrap_or(0)
    }

    /// Finds the values there of the variables that were taken out.
    pub fn settle(&mut self, problem: &Problem, rows: &Rows) {
        self.settle_givers(problem);
        for one in problem.moves.exchanges.all.iter() {
            let sum = self.exchanged(problem, *one, None);
            self.set(one.variable, sum);
        }
        for one in problem.moves.all.iter().rev() {
            if let Some(exchange) = problem.moves.exchanges.of(one.index) {
                let sum = self.exchanged(problem, exchange, Some(*one));
                self.set(one.value, sum);
            } else if let Some(entry) = problem.moves.entry_at(*one, self.value_of(one.index)) {
                self.set(one.value, entry);
            }
        }
        for definition in problem.definitions.iter().rev() {
            self.set(definition.variable, 0);
            let lacking = self.excess(rows, definition.row).saturating_neg();
            self.set(definition.variable, lacking.saturating_mul(definition.sign));
        }
    }

    /// The numbers of all places of the first list that have the number of the place, added up, or the entries at them.
    fn exchanged(&self, problem: &Problem, one: Exchange, by: Option<Move>) -> i64 {
        let mut sum = 0i64;
        let mut number = 0i64;
        for variable in problem.moves.exchanges.places_of(one) {
            number = number.saturating_add(1);
            if self.value_of(*variable) == one.number {
                let more = match by {
                    None => number,
                    Some(by) => problem.moves.entry_at(by, number).unwrap_or(0),
                };
                sum = sum.saturating_add(more);
            }
        }
        sum
    }

    /// How far the sum of the row lies above its bound there.
    pub fn excess(&self, rows: &Rows, row: Row) -> i64 {
        let mut sum = 0i64;
        for entry in rows.entries_of(row) {
            let product = entry
                .coefficient
                .saturating_mul(self.value_of(entry.variable));
            sum = sum.saturating_add(product);
        }
        sum.saturating_sub(row.bound)
    }

    /// How many places more than one have each value of the constraint.
    pub fn count(&self, problem: &Problem, apart: Apart, prices: &mut [Multiplier]) {
        for price in prices.iter_mut() {
            price.excess = -1;
        }
        for term in problem.aparts.terms_of(apart) {
            match *term {
                Term::Constant(value) => more(apart, value, prices),
                Term::Variable(var) => {
                    let variable = var.0.saturating_sub(1);
                    match problem.moves.exchanges.of(variable) {
                        None => more(apart, self.value_of(variable), prices),
                        Some(one) => self.count_exchanged(problem, one, apart, prices),
                    }
                }
            }
        }
    }

    /// Counts each place of the first list that has the number of the place.
    fn count_exchanged(
        &self,
        problem: &Problem,
        one: Exchange,
        apart: Apart,
        prices: &mut [Multiplier],
    ) {
        let mut number = 0i64;
        for variable in problem.moves.exchanges.places_of(one) {
            number = number.saturating_add(1);
            if self.value_of(*variable) == one.number {
                more(apart, number, prices);
            }
        }
    }
}

/// One more place has the value.
fn more(apart: Apart, value: i64, prices: &mut [Multiplier]) {
    if let Some(place) = apart.place_of(value)
        && let Some(price) = prices.get_mut(place)
    {
        price.excess = price.excess.saturating_add(1);
    }
}

fn lesser(least: Option<(i64, i64)>, weight: i64, value: i64) -> Option<(i64, i64)> {
    match least {
        Some((before, _)) if before <= weight => least,
        _ => Some((weight, value)),
    }
}
