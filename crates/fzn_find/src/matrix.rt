// Sums of Booleans as rows of bits, and their elimination.
use crate::parities::{Parities, Parity};
use fzn_domain::Memory;
use fzn_list::Items;
use fzn_multipliers::Work;
use std::alloc::Global;

/// So many words the rows take at the most.
const MOST_WORDS: usize = 1 << 18;

/// So many words are added up at the most.
const MOST_ADDED: u64 = 16_000_000;

const WORD: usize = 64;

/// A row for each sum: a bit for each variable that it has, from the least number on; then a bit where it is odd; then a bit for each
/// sum of the beginning that it rests on.
#[derive(Debug, Drop)]
pub struct Matrix {
    words: Vec<u64>,
    /// How many rows there are.
    pub rows: usize,
    /// How many words a row takes.
    width: usize,
    /// How many variables there are.
    columns: usize,
    /// The row that is added to others.
    pivot: Vec<u64>,
}

impl Matrix {
    /// That of the sums, where it is not too large.
    pub fn of(alloc: Global, parities: &Parities, vars: usize) -> Result<Option<Matrix>, Memory> {
        let columns = columns_of(alloc, parities, vars)?;
        let rows = parities.all.len();
        let bits = columns.count.saturating_add(1).saturating_add(rows);
        let width = bits / WORD + 1;
        let size = rows.saturating_mul(width);
        if MOST_WORDS < size {
            return Ok(None);
        }
        let mut matrix = Matrix {
            words: vec![in alloc; 0; size]?,
            rows,
            width,
            columns: columns.count,
            pivot: vec![in alloc; 0; width]?,
        };
        let mut row = 0usize;
        for parity in parities.all.iter() {
            matrix.write(row, parities, *parity, &columns);
            row = row.saturating_add(1);
        }
        Ok(Some(matrix))
    }

    fn write(&mut self, row: usize, parities: &Parities, parity: Parity, columns: &Columns) {
        for variable in parities.variables_of(parity) {
            if let Some(Some(column)) = columns.places.get(*variable).copied() {
                self.flip(row, column);
            }
        }
        if parity.is_odd {
            self.flip(row, self.columns);
        }
        self.flip(row, self.columns.saturating_add(1).saturating_add(row));
    }

    fn place(&self, row: usize, bit: usize) -> usize {
        row.saturating_mul(self.width).saturating_add(bit / WORD)
    }

    fn flip(&mut self, row: usize, bit: usize) {
        let place = self.place(row, bit);
        if let Some(word) = self.words.get_mut(place) {
            *word ^= 1u64.wrapping_shl((bit % WORD) as u32);
        }
    }

    /// Whether the row has the bit.
    fn has(&self, row: usize, bit: usize) -> bool {
        match self.words.get(self.place(row, bit)) {
            Some(word) => word.wrapping_shr((bit % WORD) as u32) & 1 == 1,
            None => false,
        }
    }

    /// Each row is solved for its last variable, which no other row has then. Whether it came to an end.
    pub fn solve(&mut self) -> bool {
        let mut work = Work::new(MOST_ADDED);
        for row in 0..self.rows {
            let _ = work.take(self.width);
            if let Some(column) = self.last_variable(row) {
                self.lift(row);
                for other in 0..self.rows {
                    if other != row && self.has(other, column) {
                        if !work.take(self.width) {
                            return false;
                        }
                        self.add(other);
                    }
                }
            }
        }
        true
    }

    /// The greatest column of the row.
    fn last_variable(&self, row: usize) -> Option<usize> {
        for i in 0..self.columns {
            let column = self.columns.wrapping_sub(1).wrapping_sub(i);
            if self.has(row, column) {
                return Some(column);
            }
        }
        None
    }

    /// The row is the one that is added to others.
    fn lift(&mut self, row: usize) {
        for i in 0..self.width {
            let word = self
                .words
                .get(row.saturating_mul(self.width).saturating_add(i))
                .copied();
            if let (Some(word), Some(place)) = (word, self.pivot.get_mut(i)) {
                *place = word;
            }
        }
    }

    /// Adds that row to this one.
    fn add(&mut self, row: usize) {
        let start = row.saturating_mul(self.width);
        let mut place = start;
        for more in self.pivot.iter() {
            if let Some(word) = self.words.get_mut(place) {
                *word ^= *more;
            }
            place = place.saturating_add(1);
        }
    }

    /// How many variables the row has.
    pub fn len(&self, row: usize) -> usize {
        let mut count = 0usize;
        for column in 0..self.columns {
            if self.has(row, column) {
                count = count.saturating_add(1);
            }
        }
        count
    }

    /// Whether the sum of the row is odd.
    pub fn is_odd(&self, row: usize) -> bool {
        self.has(row, self.columns)
    }

    /// The constraints on which the row rests.
    pub fn constraints(
        &self,
        alloc: Global,
        parities: &Parities,
        row: usize,
    ) -> Result<Items<u64>, Memory> {
        let mut constraints = Items::new(alloc);
        let mut bit = self.columns;
        for parity in parities.all.iter() {
            bit = bit.saturating_add(1);
            if self.has(row, bit) {
                constraints.push(parity.constraint)?;
            }
        }
        Ok(constraints)
    }
}

/// The columns of variables.
#[derive(Debug, Drop)]
struct Columns {
    /// By the numbers of the variables, less one.
    places: Vec<Option<usize>>,
    count: usize,
}

/// A column for each variable that stands in a sum, in the order of their numbers.
fn columns_of(alloc: Global, parities: &Parities, vars: usize) -> Result<Columns, Memory> {
    let mut columns = Columns {
        places: vec![in alloc; None; vars]?,
        count: 0,
    };
    for parity in parities.all.iter() {
        for variable in parities.variables_of(*parity) {
            if let Some(place) = columns.places.get_mut(*variable) {
                *place = Some(0);
            }
        }
    }
    for place in columns.places.iter_mut() {
        if place.is_some() {
            *place = Some(columns.count);
            columns.count = columns.count.saturating_add(1);
        }
    }
    Ok(columns)
}
