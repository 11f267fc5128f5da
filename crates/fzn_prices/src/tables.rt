// The rows of tables: what they weigh by the prices of their entries and by what goes to them.
use crate::ascent::part;
use crate::lagrangian::Lagrangian;
use crate::multiplier::Multiplier;
use fzn_relaxation::{Column, Problem, Table};

impl Lagrangian {
    /// Takes the prices of the columns from what their variables weigh.
    pub fn pay(&mut self, problem: &Problem, prices: &[Multiplier]) {
        for table in problem.tables.all.iter() {
            for column in problem.tables.columns_of(*table) {
                self.pay_one(problem, *column, prices);
            }
        }
    }

    fn pay_one(&mut self, problem: &Problem, column: Column, prices: &[Multiplier]) {
        let Some(list) = problem.lists.list_of(column.variable) else {
            return;
        };
        let mut number = column.low;
        for price in part(prices, column.start, column.end) {
            if let Some(place) = list.place_of(number)
                && let Some(weight) = self.weights.get_mut(place)
            {
                *weight = weight.saturating_sub(price.number);
            }
            number = number.saturating_add(1);
        }
    }

    /// Finds the row of each table that weighs least, and takes out the variables that go to rows: what these rows weigh together.
    pub(crate) fn weigh(&mut self, problem: &Problem, prices: &[Multiplier]) -> i128 {
        let mut sum = 0i128;
        for place in 0..problem.tables.all.len() {
            if let Some(table) = problem.tables.all.get(place).copied()
                && let Some((weight, row)) = self.least_row(problem, table, prices)
            {
                if let Some(last) = self.rows.get_mut(place) {
                    *last = row;
                }
                sum = sum.wrapping_add(weight as i128);
            }
        }
        self.take_givers(problem);
        sum
    }

    /// What the row weighs that weighs least, and its number, counted from 0.
    fn least_row(
        &self,
        problem: &Problem,
        table: Table,
        prices: &[Multiplier],
    ) -> Option<(i64, usize)> {
        let mut least = None;
        for row in 0..table.rows {
            let weight = self.row_weight(problem, table, row, prices);
            least = match least {
                Some((before, _)) if before <= weight => least,
                _ => Some((weight, row)),
            };
        }
        least
    }

    fn row_weight(
        &self,
        problem: &Problem,
        table: Table,
        row: usize,
        prices: &[Multiplier],
    ) -> i64 {
        let mut weight = 0i64;
        for place in problem.tables.places_of(table, row) {
            if let Some(price) = prices.get(*place) {
                weight = weight.saturating_add(price.number);
            }
        }
        let entries = problem.tables.entries_of(table, row);
        for (variable, entry) in problem.tables.givers_of(table).iter().zip(entries.iter()) {
            let more = self.slope_of(*variable).saturating_mul(*entry);
            weight = weight.saturating_add(more);
        }
        weight
    }

    /// Notes which variables go to rows, and takes them out.
    fn take_givers(&mut self, problem: &Problem) {
        let mut place = 0usize;
        for table in problem.tables.all.iter() {
            for variable in problem.tables.givers_of(*table) {
                let slope = self.last_slope_of(*variable);
                if let Some(giving) = self.giving.get_mut(place) {
                    *giving = slope != 0;
                }
                self.flatten(*variable);
                place = place.saturating_add(1);
            }
        }
    }

    /// Finds the values of the variables that went to rows.
    pub(crate) fn settle_givers(&mut self, problem: &Problem) {
        for place in 0..problem.tables.all.len() {
            if let (Some(table), Some(row)) = (
                problem.tables.all.get(place).copied(),
                self.rows.get(place).copied(),
            ) {
                let entries = problem.tables.entries_of(table, row);
                for (variable, entry) in problem
                    .tables
                    .givers_of(table)
                    .iter()
                    .zip(entries.iter())
                {
                    self.set(*variable, *entry);
                }
            }
        }
    }

    /// How often each number stands in the row that weighs least, less how often the variable of the column has it.
    pub fn compare(&self, problem: &Problem, prices: &mut Vec<Multiplier>) {
        for price in prices.iter_mut() {
            price.excess = 0;
        }
        for (table, row) in problem.tables.all.iter().zip(self.rows.iter()) {
            for place in problem.tables.places_of(*table, *row) {
                change(prices, Some(*place), 1);
            }
            for column in problem.tables.columns_of(*table) {
                self.compare_one(problem, *column, prices);
            }
        }
    }

    fn compare_one(&self, problem: &Problem, column: Column, prices: &mut Vec<Multiplier>) {
        let Some(one) = problem.moves.exchanges.of(column.variable) else {
            change(prices, column.place_of(self.value_of(column.variable)), -1);
            return;
        };
        let mut number = 0i64;
        for variable in problem.moves.exchanges.places_of(one) {
            number = number.saturating_add(1);
            if self.value_of(*variable) == one.number {
                change(prices, column.place_of(number), -1);
            }
        }
    }
}

/// Adds to how often the number at the place stands in the row.
fn change(prices: &mut Vec<Multiplier>, place: Option<usize>, by: i64) {
    if let Some(place) = place
        && let Some(price) = prices.get_mut(place)
    {
        price.excess = price.excess.saturating_add(by);
    }
}
