// What single rows leave of the bounds of variables.
use crate::bounds::Bounds;
use crate::numbers::narrowed;
use crate::rows::{Entry, Rows};
use crate::work::Work;

/// So many times each row is looked at, at the most.
const ROUNDS: usize = 30;

/// So many entries are looked at, at the most.
const MOST_ENTRIES: u64 = 1_000_000;

/// Closes the bounds in, row by row, while they move. Whether no row was seen that nothing within them meets.
pub fn tighten(rows: &Rows, bounds: &mut Vec<Bounds>) -> bool {
    let mut work = Work::new(MOST_ENTRIES);
    for _ in 0..ROUNDS {
        match tighten_once(rows, bounds, &mut work) {
            Some(true) => {}
            Some(false) => return true,
            None => return false,
        }
    }
    true
}

/// Looks at each row once: whether another look may find more, and `None` where nothing meets a row.
fn tighten_once(rows: &Rows, bounds: &mut Vec<Bounds>, work: &mut Work) -> Option<bool> {
    let mut is_moved = false;
    for row in rows.rows.iter() {
        let entries = rows.entries_of(*row);
        if !work.take(entries.len()) {
            return Some(false);
        }
        if cut_row(entries, 1, row.bound, bounds)? {
            is_moved = true;
        }
        if row.is_equal && cut_row(entries, -1, row.bound, bounds)? {
            is_moved = true;
        }
    }
    Some(is_moved)
}

/// The sum of the entries, times this sign, is at most the bound, times this sign: whether that closes bounds in, and `None` where nothing
/// meets it.
fn cut_row(entries: &[Entry], sign: i64, bound: i64, bounds: &mut Vec<Bounds>) -> Option<bool> {
    let mut room = (bound as i128).wrapping_mul(sign as i128);
    for entry in entries {
        if let Some(bounds) = bounds.get(entry.variable) {
            let least = bounds.least_product(sign.wrapping_mul(entry.coefficient));
            room = room.wrapping_sub(least);
        }
    }
    if room < 0 {
        return None;
    }
    let mut is_moved = false;
    for entry in entries {
        if let Some(bounds) = bounds.get_mut(entry.variable)
            && bounds.cut(sign.wrapping_mul(entry.coefficient), narrowed(room))
        {
            is_moved = true;
        }
    }
    Some(is_moved)
}
