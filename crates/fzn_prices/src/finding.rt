// The items of one separable row that bounds the objective well, or that nothing meets.
use crate::ascent::Ascent;
use crate::items::items_of;
use fzn_domain::Memory;
use fzn_list::Items;
use fzn_meaning::Model;
use fzn_multipliers::Rows;
use fzn_relaxation::Problem;
use fzn_row::RowItem;
use std::alloc::Global;

/// What is 1 among the multipliers that are found: the first that serves. A finer one is tried where rows have large coefficients and the
/// objective small ones, a coarser one where multipliers become too large.
const GRIDS: [i64; 5] = [1024, 1 << 20, 64, 8, 1];

/// A multiplier is left out that counts for less than one part of so many of what the bound has risen: of the first number with which
/// enough is left.
const SHARES: [i128; 2] = [1 << 10, 1 << 40];

/// The items of one separable row of the model with these rows, where it has Booleans that compare a variable with a number, or tables, or
/// elements of constants, and all different, circuits or inverses: the row bounds the objective better than single constraints do, or,
/// where there is no objective, nothing meets it. `None` where none is found. Multipliers of rows and prices of values and of entries are
/// sought together by the subgradient method, which moves them towards the constraints that are violated where the sum is least. It
/// answers `Err` where memory runs out.
pub fn prices(alloc: Global, model: &Model, rows: &Rows) -> Result<Option<Items<RowItem>>, Memory> {
    match Problem::of(alloc, model, rows)? {
        Some(problem) => sought(alloc, &problem, rows),
        None => Ok(None),
    }
}

fn sought(alloc: Global, problem: &Problem, rows: &Rows) -> Result<Option<Items<RowItem>>, Memory> {
    let mut ascent = Ascent::new(alloc, problem, rows)?;
    ascent.rise(problem, rows);
    if !ascent.is_found() {
        return Ok(None);
    }
    for grid in GRIDS {
        if rounds(&mut ascent, problem, rows, grid) {
            return Ok(Some(items_of(alloc, problem, &ascent)?));
        }
    }
    Ok(None)
}

/// Rounds the multipliers to the grid. Whether they are good enough there.
fn rounds(ascent: &mut Ascent, problem: &Problem, rows: &Rows, grid: i64) -> bool {
    for share in SHARES {
        if ascent.round(problem, rows, grid, share) {
            return true;
        }
    }
    false
}
