// What is found is tested before it is handed out.
ghost use Rattle.std.specs.Prelude.{IfOk};
ghost use Rattle.std.specs.List.{All};
ghost use Rattle.fzn_meaning.specs.WellFormed.{IsWellFormed};
ghost use Rattle.fzn_meaning.specs.Solutions.{declared_sets};
ghost use Rattle.fzn_derive.specs.Derived.{IsDerivable};

use fzn_derive::{Derivation, derivable};
use fzn_domain::Memory;
use fzn_list::Items;
use fzn_meaning::Model;
use std::alloc::Global;

/// Those of the candidates that give a constraint from those of the model.
pub fn tested(
    alloc: Global,
    model: &Model,
    candidates: Vec<Derivation>,
) -> Result<Items<Derivation>, Memory>
    requires { IsWellFormed model.now }
    ensures { IfOk result (All (IsDerivable model.now.constraints (declared_sets model.now.vars))) }
{
    let given = model.constraints.as_slice();
    derivable(alloc, given, model.vars.as_slice(), candidates)
}
