// Rows for another owner.
ghost use Rattle.std.specs.Prelude.{◌≡◌, IfOk};

use fzn_list::Items;
use fzn_meaning::{Listed, Part, Row, TablePart, VariablePart};
use std::alloc::{AllocError, Global};

/// The same row. It answers `Err` where memory runs out.
pub(crate) fn copied_row(alloc: Global, row: &Row) -> Result<Row, AllocError>
    ensures { IfOk result (λ copy. copy ≡ row.now) }
{
    let mut parts = Items::with_capacity(alloc, row.parts.len())?;
    for part in row.parts.as_slice() {
        parts.push(copied_part(alloc, part)?)?;
    }
    Ok(Row {
        parts,
        bound: row.bound,
    })
}

fn copied_part(alloc: Global, part: &Part) -> Result<Part, AllocError>
    ensures { IfOk result (λ copy. copy ≡ part.now) }
{
    match part {
        Part::Variable(part) => Ok(Part::Variable(copied_variable(alloc, part)?)),
        Part::Table(table) => Ok(Part::Table(copied_table(alloc, table)?)),
    }
}

fn copied_variable(alloc: Global, part: &VariablePart) -> Result<VariablePart, AllocError>
    ensures { IfOk result (λ copy. copy ≡ part.now) }
{
    match &part.listed {
        None => Ok(VariablePart {
            var: part.var,
            coefficient: part.coefficient,
            listed: None,
        }),
        Some(listed) => Ok(VariablePart {
            var: part.var,
            coefficient: part.coefficient,
            listed: Some(copied_listed(alloc, listed)?),
        }),
    }
}

/// The places and the rows are shared.
fn copied_table(alloc: Global, table: &TablePart) -> Result<TablePart, AllocError>
    ensures { IfOk result (λ copy. copy ≡ table.now) }
{
    Ok(TablePart {
        places: table.places.share()?,
        rows: table.rows.share()?,
        weights: Items::from_slice(alloc, table.weights.as_slice())?,
    })
}

fn copied_listed(alloc: Global, listed: &Listed) -> Result<Listed, AllocError>
    ensures { IfOk result (λ copy. copy ≡ listed.now) }
{
    Ok(Listed {
        low: listed.low,
        weights: Items::from_slice(alloc, listed.weights.as_slice())?,
    })
}
