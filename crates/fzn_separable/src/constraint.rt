// Which constraint gets the propagator.
ghost use Rattle.std.specs.Prelude.{◌≡◌, ℕ, ◌-◌, ◌≤◌, length, IfOk, IfSome, IfNone, slice_index_or};
ghost use Rattle.fzn_meaning.specs.declared.constraint.Constraint.{Constraint};
ghost use Rattle.fzn_meaning.specs.declared.constraint.Constraint.TheVariants as constraint;
ghost use Rattle.fzn_meaning.specs.declared.row.Row.{Row};
ghost use Rattle.fzn_meaning.specs.Meaning.{IsWellFormedConstraint};
ghost use Rattle.fzn_meaning.specs.Solutions.{declared_sets};
ghost use Rattle.fzn_meaning.specs.WellFormed.{IsWellFormed};
ghost use Rattle.fzn_separable.specs.Propagator.{row_number, RowIsFor, RowFits};

use crate::propagator::RowPropagator;
use fzn_domain::Memory;
use fzn_meaning::{Constraint, Model, Var};
use std::alloc::Global;

/// The propagator of the constraint of this number, counted from 1, where it is a row. It takes memory by what is listed in the row, and
/// answers `Err` where memory runs out.
pub fn propagator_of(
    alloc: Global,
    model: &Model,
    c: usize,
) -> Result<Option<RowPropagator>, Memory>
    requires model { IsWellFormed model.now }
    requires number { (1 ≤ c) × (c ≤ length model.now.constraints) }
    ensures number { IfOk result (λ found. IfSome found (λ propagator. row_number propagator ≡ c)) }
    ensures is_for { IfOk result (λ found. IfSome found (λ propagator. (default : Constraint) → RowIsFor propagator (slice_index_or model.now.constraints (c - 1) default))) }
    ensures fits { IfOk result (λ found. IfSome found (λ propagator. RowFits propagator (declared_sets model.now.vars))) }
    ensures none { IfOk result (λ found. IfNone found ((default : Constraint) (row : Row) → slice_index_or model.now.constraints (c - 1) default ≡ constraint.Row row → ⊥)) }
{
    propagator_for(
        alloc,
        c as u64,
        model.vars.as_slice(),
        &model.constraints.as_slice()[c - 1],
    )
}

/// The propagator of a constraint, with this number.
fn propagator_for(
    alloc: Global,
    number: u64,
    vars: &[Var],
    given: &Constraint,
) -> Result<Option<RowPropagator>, Memory>
    requires formed { (count : ℕ) × IsWellFormedConstraint count given.now }
    ensures number { IfOk result (λ found. IfSome found (λ propagator. row_number propagator ≡ number)) }
    ensures is_for { IfOk result (λ found. IfSome found (λ propagator. RowIsFor propagator given.now)) }
    ensures none { IfOk result (λ found. IfNone found ((row : Row) → given.now ≡ constraint.Row row → ⊥)) }
{
    let Constraint::Row(row) = given else {
        return Ok(None);
    };
    Ok(Some(RowPropagator::new(alloc, number, vars, row)?))
}
