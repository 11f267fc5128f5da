// The propagators of all crates as one type, and which constraint gets which.
ghost use Rattle.std.specs.Prelude.{◌≡◌, ◌≢◌, ◌-◌, ◌≤◌, length, slice_index_or, IfOk, None};
ghost use Rattle.fzn_meaning.specs.declared.constraint.Constraint.{Constraint};
ghost use Rattle.fzn_builtin_rules.specs.Choices.{inputs_of};
ghost use Rattle.fzn_meaning.specs.Solutions.{declared_sets};
ghost use Rattle.fzn_meaning.specs.WellFormed.{IsWellFormed};

use crate::either::Either;
use crate::propagators::Complete;
use fzn_builtin::BuiltinPropagator;
use fzn_circuit::CircuitPropagator;
use fzn_cumulative::CumulativePropagator;
use fzn_domain::Memory;
use fzn_globals::GlobalPropagator;
use fzn_linear::ArithPropagator;
use fzn_meaning::{Constraint, Model};
use fzn_propagator::Propagator;
use fzn_separable::RowPropagator;
use fzn_table::TablePropagator;
use std::alloc::Global;

/// What reasons for one constraint of any kind: for a sum, for another builtin, or for a global.
pub type AnyPropagator = Either<ArithPropagator, Either<BuiltinPropagator, AnyGlobal>>;

/// What reasons for one global, or for a row.
pub type AnyGlobal = Either<
    GlobalPropagator,
    Either<TablePropagator, Either<CircuitPropagator, Either<CumulativePropagator, RowPropagator>>>,
>;

impl Complete for AnyPropagator {
    fn propagator_of(alloc: Global, model: &Model, c: usize) -> Result<AnyPropagator, Memory> {
        propagator_for(alloc, model, c, &model.constraints.as_slice()[c - 1])
    }
}

/// The propagator of the given constraint, which has this number. `Err` where memory runs out.
#[tactic(auto, unfolding(fzn_builtin_rules::specs::Choices::inputs_of))]
fn propagator_for(
    alloc: Global,
    model: &Model,
    c: usize,
    given: &Constraint,
) -> Result<AnyPropagator, Memory>
    requires model { IsWellFormed model.now }
    requires number { (1 ≤ c) × (c ≤ length model.now.constraints) }
    requires given { given.now ≡ slice_index_or model.now.constraints (c - 1) given.now }
    ensures number { IfOk result (λ propagator. ⟦<AnyPropagator as Propagator>⟧.number propagator ≡ c) }
    ensures is_for { IfOk result (λ propagator. (default : Constraint) → ⟦<AnyPropagator as Propagator>⟧.is_for propagator (slice_index_or model.now.constraints (c - 1) default)) }
    ensures fits { IfOk result (λ propagator. ⟦<AnyPropagator as Propagator>⟧.fits propagator (declared_sets model.now.vars)) }
{
    match given {
        Constraint::AllDifferent { .. } => match fzn_globals::propagator_of(model, c)? {
            Some(propagator) => Ok(Either::Other(Either::Other(Either::This(propagator)))),
            None => unreachable!(),
        },
        Constraint::Inverse { .. } => match fzn_globals::propagator_of(model, c)? {
            Some(propagator) => Ok(Either::Other(Either::Other(Either::This(propagator)))),
            None => unreachable!(),
        },
        Constraint::Table { .. } => match fzn_table::propagator_of(alloc, model, c)? {
            Some(propagator) => Ok(Either::Other(Either::Other(Either::Other(Either::This(
                propagator,
            ))))),
            None => unreachable!(),
        },
        Constraint::Circuit { .. } => match fzn_circuit::propagator_of(model, c)? {
            Some(propagator) => Ok(Either::Other(Either::Other(Either::Other(Either::Other(
                Either::This(propagator),
            ))))),
            None => unreachable!(),
        },
        Constraint::Cumulative { .. } => match fzn_cumulative::propagator_of(model, c)? {
            Some(propagator) => Ok(Either::Other(Either::Other(Either::Other(Either::Other(
                Either::Other(Either::This(propagator)),
            ))))),
            None => unreachable!(),
        },
        Constraint::Row(_) => match fzn_separable::propagator_of(alloc, model, c)? {
            Some(propagator) => Ok(Either::Other(Either::Other(Either::Other(Either::Other(
                Either::Other(Either::Other(propagator)),
            ))))),
            None => unreachable!(),
        },
        Constraint::Compare { .. } => plain_of(alloc, model, c, given),
        Constraint::BoolNot { .. } => plain_of(alloc, model, c, given),
        Constraint::BoolToInt { .. } => plain_of(alloc, model, c, given),
        Constraint::Linear { .. } => plain_of(alloc, model, c, given),
        Constraint::BoolLinEq { .. } => plain_of(alloc, model, c, given),
        Constraint::Arithmetic { .. } => plain_of(alloc, model, c, given),
        Constraint::IntAbs { .. } => plain_of(alloc, model, c, given),
        Constraint::Extremum { .. } => plain_of(alloc, model, c, given),
        Constraint::Element { .. } => plain_of(alloc, model, c, given),
        Constraint::SetIn { .. } => plain_of(alloc, model, c, given),
        Constraint::Gated { .. } => plain_of(alloc, model, c, given),
        Constraint::BoolXor { .. } => plain_of(alloc, model, c, given),
        Constraint::ArrayBoolXor { .. } => plain_of(alloc, model, c, given),
        Constraint::BoolClause { .. } => plain_of(alloc, model, c, given),
    }
}

/// The propagator of the given constraint, which is a sum or another builtin and has this number. `Err` where memory runs out.
fn plain_of(
    alloc: Global,
    model: &Model,
    c: usize,
    given: &Constraint,
) -> Result<AnyPropagator, Memory>
    requires model { IsWellFormed model.now }
    requires number { (1 ≤ c) × (c ≤ length model.now.constraints) }
    requires given { given.now ≡ slice_index_or model.now.constraints (c - 1) given.now }
    requires plain { inputs_of given.now ≢ None }
    ensures number { IfOk result (λ propagator. ⟦<AnyPropagator as Propagator>⟧.number propagator ≡ c) }
    ensures is_for { IfOk result (λ propagator. (default : Constraint) → ⟦<AnyPropagator as Propagator>⟧.is_for propagator (slice_index_or model.now.constraints (c - 1) default)) }
    ensures fits { IfOk result (λ propagator. ⟦<AnyPropagator as Propagator>⟧.fits propagator (declared_sets model.now.vars)) }
{
    if let Some(propagator) = fzn_linear::propagator_of(alloc, model, c)? {
        return Ok(Either::This(propagator));
    }
    match fzn_builtin::propagator_of(alloc, model, c)? {
        Some(propagator) => Ok(Either::Other(Either::This(propagator))),
        None => unreachable!(), // A builtin that is no sum has inputs.
    }
}
