// Sums of Booleans that are odd or even, solved for as many variables as can be.
ghost use Rattle.std.specs.Prelude.{IfOk};
ghost use Rattle.std.specs.List.{All};
ghost use Rattle.fzn_meaning.specs.WellFormed.{IsWellFormed};
ghost use Rattle.fzn_meaning.specs.Solutions.{declared_sets};
ghost use Rattle.fzn_derive.specs.Derived.{IsDerivable};

use crate::matrix::Matrix;
use crate::parities::Parities;
use crate::testing::tested;
use fzn_derive::Derivation;
use fzn_domain::Memory;
use fzn_list::Items;
use fzn_meaning::Model;
use fzn_multipliers::Work;
use std::alloc::Global;

/// A solved sum of more variables says too little to be found.
const LONGEST: usize = 30;

/// So many constraints are named at the most, each as often as it is named.
const MOST_NAMED: u64 = 1_000_000;

/// The constraints of the model that say whether a sum of Booleans is odd or even (`array_bool_xor`, `bool_xor`, `bool_not`, `bool2int` and
/// equalities of Booleans), solved for as many variables as can be, where one of them is of three or more: each solved sum that rests on
/// several constraints and has at most 30 variables. Where they contradict each other, just the contradiction; where they are too
/// many, none. It answers `Err` where memory runs out.
pub fn eliminated(alloc: Global, model: &Model) -> Result<Items<Derivation>, Memory>
    requires { IsWellFormed model.now }
    ensures { IfOk result (All (IsDerivable model.now.constraints (declared_sets model.now.vars))) }
{
    let mut found = Vec::new(alloc);
    push_eliminated(alloc, model, &mut found)?;
    tested(alloc, model, found)
}

/// Puts them at the end of the list.
pub fn push_eliminated(
    alloc: Global,
    model: &Model,
    found: &mut Vec<Derivation>,
) -> Result<(), Memory> {
    let parities = Parities::of(alloc, model)?;
    if let Some(mut matrix) = Matrix::of(alloc, &parities, model.vars.len())?
        && matrix.solve()
    {
        push_solved(alloc, &parities, &matrix, found)?;
    }
    Ok(())
}

fn push_solved(
    alloc: Global,
    parities: &Parities,
    matrix: &Matrix,
    found: &mut Vec<Derivation>,
) -> Result<(), Memory> {
    for row in 0..matrix.rows {
        if matrix.is_odd(row) && matrix.len(row) == 0 {
            found.push(Derivation::Parity(matrix.constraints(alloc, parities, row)?))?;
            return Ok(());
        }
    }
    let mut named = Work::new(MOST_NAMED);
    for row in 0..matrix.rows {
        let len = matrix.len(row);
        if 0 < len && len <= LONGEST {
            let constraints = matrix.constraints(alloc, parities, row)?;
            if 1 < constraints.len() && named.take(constraints.len()) {
                found.push(Derivation::Parity(constraints))?;
            }
        }
    }
    Ok(())
}
