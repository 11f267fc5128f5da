// All that is looked for.
ghost use Rattle.std.specs.Prelude.{IfOk};
ghost use Rattle.std.specs.List.{All};
ghost use Rattle.fzn_meaning.specs.WellFormed.{IsWellFormed};
ghost use Rattle.fzn_meaning.specs.Solutions.{declared_sets};
ghost use Rattle.fzn_derive.specs.Derived.{IsDerivable};

use crate::covering::push_cliques;
use crate::elimination::push_eliminated;
use crate::merging::push_merged;
use crate::testing::tested;
use fzn_derive::Derivation;
use fzn_domain::Memory;
use fzn_list::Items;
use fzn_meaning::Model;
use fzn_multipliers::{Rows, multipliers};
use fzn_prices::prices;
use std::alloc::Global;

/// What `merged`, `cliques`, `eliminated`, `prices` and `multipliers` find, in this order. It answers `Err` where memory runs out.
pub fn found(alloc: Global, model: &Model) -> Result<Items<Derivation>, Memory>
    requires { IsWellFormed model.now }
    ensures { IfOk result (All (IsDerivable model.now.constraints (declared_sets model.now.vars))) }
{
    let rows = Rows::of(alloc, model)?;
    let mut candidates = Vec::new(alloc);
    push_merged(alloc, &rows, &mut candidates)?;
    push_cliques(alloc, model, &mut candidates)?;
    push_eliminated(alloc, model, &mut candidates)?;
    push_row(alloc, model, &rows, &mut candidates)?;
    let mut found = tested(alloc, model, candidates)?;
    match multipliers(alloc, model, rows)? {
        None => Ok(found),
        Some(sum) => {
            found.push(sum)?;
            Ok(found)
        }
    }
}

/// Puts the row of the prices at the end of the list.
fn push_row(
    alloc: Global,
    model: &Model,
    rows: &Rows,
    found: &mut Vec<Derivation>,
) -> Result<(), Memory> {
    if let Some(items) = prices(alloc, model, rows)? {
        found.push(Derivation::Row(items))?;
    }
    Ok(())
}
