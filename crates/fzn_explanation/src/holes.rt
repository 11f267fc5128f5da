// The declared set of each variable at hand, and which entry took each value out, for variables of some thousand values at most.

use crate::implications::Implications;
use fzn_domain::{Domain, Lit, Memory, Op, VarId};
use std::alloc::Global;

/// The most values of a variable, from its least to its greatest, of which it is noted what took them out.
const WIDEST: usize = 1_024;

/// The most values of all these variables together.
const MOST: usize = 1_048_576;

/// No entry. So is the place of an entry behind all that fit in memory.
const NONE: u32 = u32::MAX;

/// The declared set of a variable.
#[derive(Clone, Copy, Debug)]
pub struct Row {
    /// Its least value.
    pub low: i64,
    /// Its greatest value.
    pub high: i64,
    /// Whether all numbers between these are values.
    is_whole: bool,
    /// The number of its least value, where entries on the variable are noted.
    first: Option<u32>,
}

/// That of a variable without a value.
const NO_ROW: Row = Row {
    low: 1,
    high: 0,
    is_whole: false,
    first: None,
};

impl Row {
    /// Whether entries on the variable are noted.
    pub fn is_noted(&self) -> bool {
        self.first.is_some()
    }

    /// Whether the number of this literal on the variable is a value of it.
    #[inline(always)]
    pub fn has(&self, graph: &Implications, lit: Lit) -> bool {
        if self.is_whole {
            return self.low <= lit.value && lit.value <= self.high;
        }
        match graph.declared(lit.var) {
            Some(declared) => declared.contains(lit.value),
            None => false,
        }
    }

    /// The number of a value, where entries on the variable are noted.
    #[inline(always)]
    fn number(&self, value: i64) -> Option<usize> {
        if value < self.low || self.high < value {
            return None;
        }
        let offset = value.wrapping_sub(self.low).unsigned_abs() as usize;
        Some((self.first? as usize).wrapping_add(offset))
    }
}

/// By the numbers of values: the last entry that took the value out, as far as they were looked at. It may be gone since.
#[derive(Drop)]
pub struct Holes {
    /// By the number of the variable.
    rows: Vec<Row>,
    taken_out_at: Vec<u32>,
}

impl Holes {
    /// No entry was looked at.
    pub fn new(alloc: Global) -> Holes {
        Holes {
            rows: Vec::new(alloc),
            taken_out_at: Vec::new(alloc),
        }
    }

    /// Another trail is to come.
    pub fn clear(&mut self) {
        self.rows.clear();
        self.taken_out_at.clear();
    }

    /// The declared set of a variable.
    #[inline(always)]
    pub fn row(&self, var: VarId) -> Row {
        self.rows.get(var.0).copied().unwrap_or(NO_ROW)
    }

    /// The entry that asserts this inequality, if one stands, where the entries on its variable are noted.
    #[inline(always)]
    pub fn taken_out_by(&self, graph: &Implications, row: Row, inequality: Lit) -> Option<usize> {
        let number = row.number(inequality.value)?;
        let place = self.taken_out_at.get(number).copied()? as usize;
        if graph.is_at(place, inequality) {
            Some(place)
        } else {
            None
        }
    }

    /// Looks at the entry at this place.
    #[inline(always)]
    pub fn note(&mut self, graph: &Implications, place: usize) {
        if let Some(entry) = graph.entry(place)
            && entry.lit.op == Op::NotEqual
            && let Some(number) = self.row(entry.lit.var).number(entry.lit.value)
            && number < self.taken_out_at.len()
            && place < NONE as usize
        {
            self.taken_out_at[number] = place as u32;
        }
    }

    /// Numbers the values of the declared sets, if that is not done. It answers `Err` where memory runs out, and some are numbered then.
    pub fn number_all(&mut self, graph: &Implications) -> Result<(), Memory> {
        for var in self.rows.len()..graph.vars.saturating_add(1) {
            let row = match graph.declared(VarId(var)) {
                Some(declared) => row_of(declared, self.taken_out_at.len()),
                None => NO_ROW,
            };
            if row.is_noted() {
                for _ in row.low..row.high.saturating_add(1) {
                    self.taken_out_at.push(NONE)?;
                }
            }
            self.rows.push(row)?;
        }
        Ok(())
    }
}

/// The row of a declared set, where so many values of others are numbered.
fn row_of(declared: &Domain, count: usize) -> Row {
    if declared.is_empty() {
        return NO_ROW;
    }
    let (low, high) = (declared.min(), declared.max());
    let width = (high.wrapping_sub(low).unsigned_abs() as usize).saturating_add(1);
    Row {
        low,
        high,
        is_whole: declared.len() == width,
        first: if width <= WIDEST && width.saturating_add(count) <= MOST {
            Some(count as u32)
        } else {
            None
        },
    }
}
