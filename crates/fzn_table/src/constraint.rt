// Which constraint gets the propagator.
ghost use Rattle.std.specs.Prelude.{◌≡◌, ◌-◌, ◌≤◌, ℤ, List, length, IfOk, IfSome, IfNone, slice_index_or};
ghost use Rattle.fzn_meaning.specs.declared.constraint.Constraint.{Constraint};
ghost use Rattle.fzn_meaning.specs.declared.constraint.Constraint.TheVariants as constraint;
ghost use Rattle.fzn_values.specs.declared.term.Term.{Term};
ghost use Rattle.fzn_meaning.specs.Solutions.{declared_sets};
ghost use Rattle.fzn_meaning.specs.WellFormed.{IsWellFormed};
ghost use Rattle.fzn_table.specs.Propagator.{table_number, TableIsFor, TableFits};

use crate::propagator::TablePropagator;
use fzn_domain::Memory;
use fzn_meaning::{Constraint, Model};
use std::alloc::Global;

/// The propagator of the constraint of this number, counted from 1, where it is a table. It takes memory by the numbers of the table, and
/// answers `Err` where memory runs out.
pub fn propagator_of(
    alloc: Global,
    model: &Model,
    c: usize,
) -> Result<Option<TablePropagator>, Memory>
    requires model { IsWellFormed model.now }
    requires number { (1 ≤ c) × (c ≤ length model.now.constraints) }
    ensures number { IfOk result (λ found. IfSome found (λ propagator. table_number propagator ≡ c)) }
    ensures is_for { IfOk result (λ found. IfSome found (λ propagator. (default : Constraint) → TableIsFor propagator (slice_index_or model.now.constraints (c - 1) default))) }
    ensures fits { IfOk result (λ found. IfSome found (λ propagator. TableFits propagator (declared_sets model.now.vars))) }
    ensures none { IfOk result (λ found. IfNone found ((default : Constraint) (places : List Term) (rows : List ℤ) → slice_index_or model.now.constraints (c - 1) default ≡ constraint.Table places rows → ⊥)) }
{
    propagator_for(alloc, c as u64, &model.constraints.as_slice()[c - 1])
}

/// The propagator of a constraint, with this number.
fn propagator_for(
    alloc: Global,
    number: u64,
    given: &Constraint,
) -> Result<Option<TablePropagator>, Memory>
    ensures number { IfOk result (λ found. IfSome found (λ propagator. table_number propagator ≡ number)) }
    ensures is_for { IfOk result (λ found. IfSome found (λ propagator. TableIsFor propagator given.now)) }
    ensures none { IfOk result (λ found. IfNone found ((places : List Term) (rows : List ℤ) → given.now ≡ constraint.Table places rows → ⊥)) }
{
    let Constraint::Table { places, rows } = given else {
        return Ok(None);
    };
    Ok(Some(TablePropagator::new(alloc, number, places, rows)?))
}
