// Derivations that are tried before they are used.
ghost use Rattle.std.specs.Prelude.{◌≢◌, ◌↔◌, length, IsTrue, IsOk, IfOk, IfErr, OnOk};
ghost use Rattle.std.specs.List.{All, Contains};
ghost use Rattle.fzn_meaning.specs.Meaning.{IsWellFormedConstraint};
ghost use Rattle.fzn_meaning.specs.Solutions.{declared_sets};
ghost use Rattle.fzn_cited.specs.declared.fault.DeriveFault.TheVariants.{Memory};
ghost use Rattle.fzn_derive.specs.Derived.{IsDerivable};
ghost use Rattle.fzn_derive.specs.Room.{IsClear};

use crate::derivation::Derivation;
use crate::deriver::Deriver;
use fzn_cited::DeriveFault;
use fzn_list::Items;
use fzn_meaning::{Constraint, Var};
use std::alloc::{AllocError, Global};

impl Deriver {
    /// Whether the derivation gives a constraint from the given ones, in a clear room for these variables. It answers `Err` where memory
    /// runs out. The room is clear again afterwards.
    pub fn gives(
        &mut self,
        alloc: Global,
        given: &[Constraint],
        vars: &[Var],
        derivation: &Derivation,
    ) -> Result<bool, AllocError>
        requires clear { IsClear (length vars.now) self.old }
        requires given { All (IsWellFormedConstraint (length vars.now)) given.now }
        ensures clear { IsClear (length vars.now) self.new }
        ensures gives { IfOk result (λ gives. IsTrue gives ↔ IsDerivable given.now (declared_sets vars.now) derivation.now) }
    {
        let outcome = self.derive(alloc, given, vars, derivation);
        is_made(&outcome)
    }
}

/// Whether there is a constraint. It answers `Err` where memory ran out.
fn is_made(outcome: &Result<Constraint, DeriveFault>) -> Result<bool, AllocError>
    ensures made { IfOk result (λ made. IsTrue made ↔ IsOk outcome.now) }
    ensures known { OnOk result (IfErr outcome.now (λ fault. fault ≢ Memory)) }
{
    match outcome {
        Ok(_) => Ok(true),
        Err(DeriveFault::Memory) => Err(AllocError),
        Err(_) => Ok(false),
    }
}

/// Those of the candidates that give a constraint from the given ones, which are of a model with these variables. It answers `Err` where
/// memory runs out.
pub fn derivable(
    alloc: Global,
    given: &[Constraint],
    vars: &[Var],
    candidates: Vec<Derivation>,
) -> Result<Items<Derivation>, AllocError>
    requires { All (IsWellFormedConstraint (length vars.now)) given.now }
    ensures derivable { IfOk result (All (IsDerivable given.now (declared_sets vars.now))) }
    ensures candidates { IfOk result (All (Contains candidates.items)) }
    ensures each { IfOk result (λ found. All (λ candidate. IsDerivable given.now (declared_sets vars.now) candidate → Contains found candidate) candidates.items) }
{
    let mut room = Deriver::new(alloc, vars.len())?;
    let mut found = Items::new(alloc);
    for candidate in candidates {
        if room.gives(alloc, given, vars, &candidate)? {
            found.push(candidate)?;
        }
    }
    Ok(found)
}
