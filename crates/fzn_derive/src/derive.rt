// Constraints derived from constraints.
ghost use Rattle.std.specs.Prelude.{◌≡◌, ◌⊎◌, length, IfOk, IfErr};
ghost use Rattle.std.specs.List.{All};
ghost use Rattle.fzn_meaning.specs.Meaning.{IsWellFormedConstraint};
ghost use Rattle.fzn_cited.specs.declared.fault.DeriveFault.TheVariants.{Memory};
ghost use Rattle.fzn_meaning.specs.Solutions.{declared_sets};
ghost use Rattle.fzn_row.specs.Derived.{IsRowFault};
ghost use Rattle.fzn_row.specs.Room.{room_size};
ghost use Rattle.fzn_derive.specs.Derived.{most_row_weights, IsRowConstraint, IsDerivedBy, IsDeriveFault};
ghost use Rattle.fzn_derive.specs.Room.{IsClear};

use crate::apart::derive_apart;
use crate::derivation::Derivation;
use crate::deriver::Deriver;
use crate::parity::derive_parity;
use fzn_cited::DeriveFault;
use fzn_meaning::{Constraint, Var};
use fzn_row::{RowDeriver, RowItem};
use std::alloc::Global;

/// How many weights are listed for a row at the most.
const MOST_ROW_WEIGHTS: usize = 1_000_000;

impl Deriver {
    /// The constraint that is derived so from the given ones, in a clear room for these variables. Where none is, it answers the first
    /// thing that is wrong: `NoSuchVariable`, `NoSuchConstraint`, `NotDerived` for all else, or at any time `Memory`. The room is clear
    /// again afterwards.
    pub fn derive(
        &mut self,
        alloc: Global,
        given: &[Constraint],
        vars: &[Var],
        derivation: &Derivation,
    ) -> Result<Constraint, DeriveFault>
        requires clear { IsClear (length vars.now) self.old }
        requires given { All (IsWellFormedConstraint (length vars.now)) given.now }
        ensures clear { IsClear (length vars.now) self.new }
        ensures derived { IfOk result (IsDerivedBy given.now (declared_sets vars.now) derivation.now) }
        ensures fault { IfErr result (λ fault. (fault ≡ Memory) ⊎ IsDeriveFault given.now (declared_sets vars.now) derivation.now fault) }
    {
        match derivation {
            Derivation::Sum(multiples) => self.sums.derive_sum(alloc, given, multiples.as_slice()),
            Derivation::Parity(ids) => derive_parity(alloc, given, vars, ids.as_slice()),
            Derivation::AllDifferent {
                variables,
                constraints,
            } => derive_apart(
                alloc,
                given,
                vars.len(),
                variables.as_slice(),
                constraints.as_slice(),
            ),
            Derivation::Row(items) => {
                derive_row(&mut self.rows, alloc, given, vars, items.as_slice())
            }
        }
    }
}

/// The row that the items make.
fn derive_row(
    room: &mut RowDeriver,
    alloc: Global,
    given: &[Constraint],
    vars: &[Var],
    items: &[RowItem],
) -> Result<Constraint, DeriveFault>
    requires room { room_size room.old ≡ length vars.now }
    requires given { All (IsWellFormedConstraint (length vars.now)) given.now }
    ensures room { room_size room.new ≡ length vars.now }
    ensures derived { IfOk result (IsRowConstraint given.now (declared_sets vars.now) items.now) }
    ensures fault { IfErr result (λ fault. (fault ≡ Memory) ⊎ IsRowFault given.now (declared_sets vars.now) most_row_weights items.now fault) }
{
    let row = room.derive(alloc, given, vars, items, MOST_ROW_WEIGHTS)?;
    Ok(Constraint::Row(row))
}
