// What derivations give, and what is wrong with those that give nothing, on a small model.
ghost use Rattle.fzn_meaning.specs.WellFormed.{IsWellFormed};

use crate::kinds::model_of;
use fzn_cited::{DeriveFault, Multiple};
use fzn_derive::{Derivation, Deriver, derivable, derived_is_formed, derived_is_met, one_derived};
use fzn_domain::{Memory, VarId};
use fzn_list::Items;
use fzn_meaning::{Comparison, Constraint, Model};
use fzn_row::RowItem;
use std::alloc::Global;
use std::test::*;

/// Twice the first two numbers less the third one, and so on: together they say that the first is at most -2.
const SUMS: &str =
    "var 0..9: x; var 0..9: y; var 0..9: z; constraint int_lin_le([2,1],[x,y],9); constraint int_lin_le([-1,1],[x,z],0);
    constraint int_lin_le([-1,-1],[y,z],-11); constraint int_ne(x,y); constraint int_ne(y,z); constraint int_ne(x,z); solve satisfy;";

/// The first constraints, each times its number.
fn sum_of(alloc: Global, numbers: &[i64]) -> Result<Derivation, Memory> {
    let mut multiples = Items::new(alloc);
    for (place, multiplier) in numbers.iter().enumerate() {
        multiples.push(Multiple {
            multiplier: *multiplier,
            constraint: (place as u64).saturating_add(1),
        })?;
    }
    Ok(Derivation::Sum(multiples))
}

/// These two variables, which the constraint of this number tells apart.
fn apart(alloc: Global, first: usize, second: usize, id: u64) -> Result<Derivation, Memory> {
    let mut variables = Items::new(alloc);
    variables.push(VarId(first))?;
    variables.push(VarId(second))?;
    let mut constraints = Items::new(alloc);
    constraints.push(id)?;
    Ok(Derivation::AllDifferent {
        variables,
        constraints,
    })
}

/// The row of these items.
fn row_of(alloc: Global, first: RowItem, second: RowItem) -> Result<Derivation, Memory> {
    let mut row = Items::new(alloc);
    row.push(first)?;
    row.push(second)?;
    Ok(Derivation::Row(row))
}

/// The constraint of this number, as it is.
fn once(alloc: Global, constraint: u64) -> Result<RowItem, Memory> {
    let mut multiples = Items::new(alloc);
    multiples.push(Multiple {
        multiplier: 1,
        constraint,
    })?;
    Ok(RowItem::Multiples(multiples))
}

/// The constraint that is derived so from those of the model.
fn derived(alloc: Global, model: &Model, derivation: Derivation) -> Result<Constraint, DeriveFault>
    requires { IsWellFormed model.now }
{
    let mut room = Deriver::new(alloc, model.vars.len())?;
    room.derive(
        alloc,
        model.constraints.as_slice(),
        model.vars.as_slice(),
        &derivation,
    )
}

/// Whether it is that a variable is at most the bound.
fn is_at_most(constraint: &Constraint, least: i64) -> bool {
    match constraint {
        Constraint::Linear {
            sum,
            comparison: Comparison::AtMost,
            bound,
            switch: None,
        } => *bound == least && sum.len() == 1 && sum.place(0).coefficient == 1,
        _ => false,
    }
}

/// Whether it is that so many places are all different.
fn are_different(constraint: &Constraint, count: usize) -> bool {
    match constraint {
        Constraint::AllDifferent { places } => places.len() == count,
        _ => false,
    }
}

#[test]
fn a_sum_of_constraints(rt: HostRuntime) -> Result<(), Fail> {
    assert!(rt; (derived_is_met(), derived_is_formed(), one_derived()) == ((), (), ()));
    let model = model_of(rt.alloc(), SUMS)?;
    let sum = sum_of(rt.alloc(), [1, 1, 1].as_slice())?;
    let is_right = match derived(rt.alloc(), &model, sum) {
        Ok(constraint) => is_at_most(&constraint, -2),
        Err(_) => false,
    };
    assert!(rt; is_right);
    Ok(())
}

#[test]
fn variables_told_apart(rt: HostRuntime) -> Result<(), Fail> {
    let model = model_of(rt.alloc(), SUMS)?;
    let pair = apart(rt.alloc(), 2, 1, 4)?;
    let is_right = match derived(rt.alloc(), &model, pair) {
        Ok(constraint) => are_different(&constraint, 2),
        Err(_) => false,
    };
    assert!(rt; is_right);
    Ok(())
}

/// Whether it is a row with so many parts and this bound.
fn is_row(constraint: &Constraint, parts: usize, bound: i64) -> bool {
    match constraint {
        Constraint::Row(row) => row.parts.len() == parts && row.bound == bound,
        _ => false,
    }
}

#[test]
fn a_row_of_items(rt: HostRuntime) -> Result<(), Fail> {
    let model = model_of(rt.alloc(), SUMS)?;
    let row = row_of(rt.alloc(), once(rt.alloc(), 2)?, once(rt.alloc(), 3)?)?;
    let is_right = match derived(rt.alloc(), &model, row) {
        Ok(constraint) => is_row(&constraint, 3, -11),
        Err(_) => false,
    };
    assert!(rt; is_right);
    let beyond = row_of(rt.alloc(), once(rt.alloc(), 2)?, once(rt.alloc(), 7)?)?;
    assert!(rt;
        fault_of(derived(rt.alloc(), &model, beyond)) == Some(DeriveFault::NoSuchConstraint)
    );
    Ok(())
}

/// A sum and two variables apart that follow from `SUMS`, and between them a sum that does not.
fn candidates(alloc: Global) -> Result<Vec<Derivation>, Memory> {
    let mut candidates = Vec::new(alloc);
    candidates.push(sum_of(alloc, [1, 1, 1].as_slice())?)?;
    candidates.push(sum_of(alloc, [1, -1].as_slice())?)?;
    candidates.push(apart(alloc, 2, 1, 4)?)?;
    Ok(candidates)
}

#[test]
fn derivations_that_give_a_constraint(rt: HostRuntime) -> Result<(), Fail> {
    let model = model_of(rt.alloc(), SUMS)?;
    let found = derivable(
        rt.alloc(),
        model.constraints.as_slice(),
        model.vars.as_slice(),
        candidates(rt.alloc())?,
    )?;
    let are_right = match found.as_slice() {
        [Derivation::Sum(multiples), Derivation::AllDifferent { .. }] => multiples.len() == 3,
        _ => false,
    };
    assert!(rt; are_right);
    Ok(())
}

/// The fault of a derivation that gives nothing.
fn fault_of(outcome: Result<Constraint, DeriveFault>) -> Option<DeriveFault> {
    match outcome {
        Ok(_) => None,
        Err(fault) => Some(fault),
    }
}

#[test]
fn faults_of_derivations(rt: HostRuntime) -> Result<(), Fail> {
    let model = model_of(rt.alloc(), SUMS)?;
    let turned = sum_of(rt.alloc(), [1, -1].as_slice())?;
    let switched = sum_of(rt.alloc(), [1, 1, 1, 1].as_slice())?;
    let beyond = apart(rt.alloc(), 1, 2, 7)?;
    let other = apart(rt.alloc(), 1, 2, 5)?;
    let unknown = apart(rt.alloc(), 1, 4, 4)?;
    let not_derived = Some(DeriveFault::NotDerived);
    assert!(rt; fault_of(derived(rt.alloc(), &model, turned)) == not_derived);
    assert!(rt; fault_of(derived(rt.alloc(), &model, switched)) == not_derived);
    assert!(rt; fault_of(derived(rt.alloc(), &model, other)) == not_derived);
    assert!(rt;
        fault_of(derived(rt.alloc(), &model, beyond)) == Some(DeriveFault::NoSuchConstraint)
    );
    assert!(rt;
        fault_of(derived(rt.alloc(), &model, unknown)) == Some(DeriveFault::NoSuchVariable)
    );
    Ok(())
}
