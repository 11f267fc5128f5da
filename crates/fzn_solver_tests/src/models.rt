// Models that are read from their text, and trails of their sets.
ghost use Rattle.std.specs.Prelude.{◌≡◌, IfOk};
ghost use Rattle.fzn_meaning.specs.Solutions.{declared_sets};
ghost use Rattle.fzn_meaning.specs.WellFormed.{IsWellFormed};
ghost use Rattle.fzn_trail.specs.Levels.{fresh};

use fzn_domain::{Domain, Memory};
use fzn_meaning::{Model, Var};
use fzn_reading::read_model;
use fzn_streams::TrackedReader;
use fzn_trail::Trail;
use std::alloc::Global;
use std::test::*;

pub(crate) fn model_of(alloc: Global, file: &str) -> Result<Model, Fail>
    ensures { IfOk result IsWellFormed }
{
    Ok(read_model(alloc, &mut TrackedReader::new(file.as_bytes()))?)
}

/// The declared sets.
fn declared(alloc: Global, vars: &[Var]) -> Result<Vec<Domain>, Memory>
    ensures { IfOk result (λ declared. declared.items ≡ declared_sets vars.now) }
{
    let mut declared = Vec::new(alloc);
    for var in vars {
        declared.push(var.domain.copy()?)?;
    }
    Ok(declared)
}

/// The sets that the model declares.
pub(crate) fn trail_of(alloc: Global, model: &Model) -> Result<Trail, Memory>
    ensures { IfOk result (λ trail. trail ≡ fresh (declared_sets model.now.vars)) }
{
    let trail = Trail::new(alloc, declared(alloc, model.vars.as_slice())?)?;
    Ok(trail)
}
