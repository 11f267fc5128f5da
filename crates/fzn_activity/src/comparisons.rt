// The comparisons that conflicts named, by their activity.
ghost use Rattle.std.specs.Prelude.{◌≡◌, length, IfSome};
ghost use Rattle.fzn_activity.specs.Splits.{Splits};

use crate::heap::Heap;
use crate::open::splits;
use crate::ties::Ties;
use fzn_domain::{Lit, Memory, Op};
use fzn_trail::Trail;
use std::alloc::Global;
use std::collections::HashMap;

/// The most values of a variable, from its least to its greatest, whose comparisons stand in the list.
const WIDEST: usize = 1_024;

/// The most values of all these variables together.
const MOST: usize = 1_048_576;

/// What tells a comparison from the others.
#[derive(Clone, Copy, Debug, PartialEq, Eq, Hash, Drop)]
struct Key {
    var: usize,
    is_equal: bool,
    value: i64,
}

/// Where the comparisons of a variable stand in the list.
#[derive(Clone, Copy, Debug)]
struct Row {
    /// The least declared value.
    least: i64,
    /// How many values there are from the least to the greatest; 0 where the comparisons do not stand in the list.
    width: usize,
    /// How many values of variables before this one the list has.
    first: usize,
}

/// Comparisons `x <= k` and `x == k`, each numbered as it came. One that is taken out for being decided waits beside its variable
/// until that is set free.
#[derive(Drop)]
pub struct Comparisons {
    lits: Vec<Lit>,
    /// By variable.
    rows: Vec<Row>,
    /// By value, first the comparison `x <= k` and then `x == k`: its number and one more, or 0 where it has none.
    listed: Vec<u32>,
    /// The numbers of all others.
    numbers: HashMap<Key, usize>,
    heap: Heap,
    /// By variable: the first comparison that waits.
    first_waiting: Vec<Option<usize>>,
    /// By comparison: the one that waits after it.
    next_waiting: Vec<Option<usize>>,
}

impl Comparisons {
    /// No comparison, over variables with these least and greatest values.
    pub fn new(alloc: Global, bounds: &[(i64, i64)]) -> Result<Comparisons, Memory> {
        let mut rows = Vec::new(alloc);
        let mut count = 0;
        for (least, greatest) in bounds {
            let row = row_of(*least, *greatest, count);
            rows.push(row)?;
            count = count.wrapping_add(row.width);
        }
        Ok(Comparisons {
            lits: Vec::new(alloc),
            rows,
            listed: vec![in alloc; 0; count.wrapping_mul(2)]?,
            numbers: HashMap::new(alloc),
            heap: Heap::new(alloc),
            first_waiting: vec![in alloc; None; bounds.len()]?,
            next_waiting: Vec::new(alloc),
        })
    }

    /// The present conflict names the comparison.
    pub fn bump(&mut self, lit: Lit, ties: &mut Ties) -> Result<(), Memory> {
        let number = match self.slot(lit) {
            Some(slot) => self.listed_number(slot, lit, ties)?,
            None => self.hashed_number(lit, ties)?,
        };
        self.heap.bump(number);
        Ok(())
    }

    /// Where the comparison stands in the list.
    #[inline(always)]
    fn slot(&self, lit: Lit) -> Option<usize> {
        let row = self.rows.get(lit.var.0.saturating_sub(1))?;
        let offset = lit.value.wrapping_sub(row.least);
        if offset < 0 || row.width as u64 <= offset.unsigned_abs() {
            return None;
        }
        let value = row.first.wrapping_add(offset.unsigned_abs() as usize);
        Some(
            value
                .wrapping_mul(2)
                .wrapping_add((lit.op == Op::Equal) as usize),
        )
    }

    /// The number of the comparison at this place of the list.
    #[inline(always)]
    fn listed_number(&mut self, slot: usize, lit: Lit, ties: &mut Ties) -> Result<usize, Memory> {
        let known = self.listed.get(slot).copied().unwrap_or(0);
        if known > 0 {
            return Ok((known - 1) as usize);
        }
        let number = self.add(lit, ties)?;
        if slot < self.listed.len() && number < u32::MAX as usize {
            self.listed[slot] = number as u32 + 1;
        }
        Ok(number)
    }

    /// The number of a comparison that stands in no list.
    fn hashed_number(&mut self, lit: Lit, ties: &mut Ties) -> Result<usize, Memory> {
        let key = Key {
            var: lit.var.0,
            is_equal: lit.op == Op::Equal,
            value: lit.value,
        };
        if let Some(number) = self.numbers.get(&key).copied() {
            return Ok(number);
        }
        let number = self.add(lit, ties)?;
        self.numbers.insert(key, number)?;
        Ok(number)
    }

    fn add(&mut self, lit: Lit, ties: &mut Ties) -> Result<usize, Memory> {
        let tie = ties.tie(self.lits.len() as u64);
        self.lits.push(lit)?;
        self.next_waiting.push(None)?;
        self.heap.grow(tie)
    }

    /// The present conflict is over, and counts so many thousandths of the one after it, 1 to 1,000.
    pub fn decay(&mut self, thousandths: u64) {
        self.heap.decay(thousandths);
    }

    /// The most active comparison that is neither true nor false.
    pub fn most_active(&mut self, trail: &Trail, vars: usize) -> Option<Lit>
        requires { vars ≡ length trail.now.declared }
        ensures { IfSome result (Splits trail.now.sets) }
    {
        for _ in 0..self.heap.len() {
            let number = self.heap.top()?;
            let lit = *self.lits.get(number)?;
            if splits(trail, vars, lit) {
                return Some(lit);
            }
            self.heap.pop();
            self.wait(number, lit);
        }
        None
    }

    /// The comparison waits until its variable is set free.
    fn wait(&mut self, number: usize, lit: Lit) {
        let var = lit.var.0.saturating_sub(1);
        if var < self.first_waiting.len() && number < self.next_waiting.len() {
            self.next_waiting[number] = self.first_waiting[var];
            self.first_waiting[var] = Some(number);
        }
    }

    /// Takes back the comparisons that wait for the variable of this number, counted from 0.
    pub fn set_free(&mut self, var: usize) {
        if var >= self.first_waiting.len() {
            return;
        }
        let mut waiting = self.first_waiting[var];
        self.first_waiting[var] = None;
        for _ in 0..self.lits.len() {
            let Some(number) = waiting else {
                return;
            };
            self.heap.put(number);
            waiting = self.next_waiting.get(number).copied().flatten();
        }
    }
}

/// The row of a variable with this least and this greatest value, where so many values of others are listed.
fn row_of(least: i64, greatest: i64, count: usize) -> Row {
    let width = greatest
        .wrapping_sub(least)
        .unsigned_abs()
        .saturating_add(1) as usize;
    let is_listed = least <= greatest && width <= WIDEST && width.wrapping_add(count) <= MOST;
    Row {
        least,
        width: if is_listed { width } else { 0 },
        first: count,
    }
}
