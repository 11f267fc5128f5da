// Sums whose places are put together.
ghost use Rattle.std.specs.Prelude.{IfOk};
ghost use Rattle.std.specs.List.{All};
ghost use Rattle.fzn_meaning.specs.WellFormed.{IsWellFormed};
ghost use Rattle.fzn_meaning.specs.Solutions.{declared_sets};
ghost use Rattle.fzn_derive.specs.Derived.{IsDerivable};

use crate::testing::tested;
use fzn_cited::Multiple;
use fzn_derive::Derivation;
use fzn_domain::Memory;
use fzn_list::Items;
use fzn_meaning::Model;
use fzn_multipliers::{Row, Rows};
use std::alloc::Global;

/// No coefficient and no bound of what is found is larger.
const MOST: i64 = 1_000_000_000;

/// For each constraint with a form without a switch, a sum that is at most its bound or that is it, in which a variable stands at several
/// places: the sum of this constraint alone, in which each variable stands once. Of an equation it says one direction, and a second
/// sum, by -1, the other. A sum that says nothing, or that is too large to be stated, is left out. It answers `Err` where memory runs
/// out.
pub fn merged(alloc: Global, model: &Model) -> Result<Items<Derivation>, Memory>
    requires { IsWellFormed model.now }
    ensures { IfOk result (All (IsDerivable model.now.constraints (declared_sets model.now.vars))) }
{
    let rows = Rows::of(alloc, model)?;
    let mut found = Vec::new(alloc);
    push_merged(alloc, &rows, &mut found)?;
    tested(alloc, model, found)
}

/// Puts those of these rows at the end of the list.
pub fn push_merged(alloc: Global, rows: &Rows, found: &mut Vec<Derivation>) -> Result<(), Memory> {
    for row in rows.rows.iter() {
        if is_worth(rows, *row) {
            found.push(alone(alloc, row.constraint, 1)?)?;
            if row.is_equal {
                found.push(alone(alloc, row.constraint, -1)?)?;
            }
        }
    }
    Ok(())
}

/// Whether a variable stands at several places, and the sum says something that can be stated.
fn is_worth(rows: &Rows, row: Row) -> bool {
    row.is_merged
        && !is_idle(rows, row)
        && row.bound.saturating_abs() <= MOST
        && is_small(rows, row)
}

/// Whether everything meets the sum, since it has no variable.
fn is_idle(rows: &Rows, row: Row) -> bool {
    rows.entries_of(row).is_empty() && (row.bound == 0 || (0 < row.bound && !row.is_equal))
}

fn is_small(rows: &Rows, row: Row) -> bool {
    for entry in rows.entries_of(row) {
        if MOST < entry.coefficient.saturating_abs() {
            return false;
        }
    }
    true
}

/// The sum of one constraint.
fn alone(alloc: Global, constraint: u64, multiplier: i64) -> Result<Derivation, Memory> {
    let mut multiples = Items::new(alloc);
    multiples.push(Multiple {
        multiplier,
        constraint,
    })?;
    Ok(Derivation::Sum(multiples))
}
