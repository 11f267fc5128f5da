// From a tree to its model.
ghost use Rattle.std.specs.Prelude.{◌≡◌, IfOk};
ghost use Rattle.fzn_meaning.specs.WellFormed.{IsWellFormed};
ghost use Rattle.fzn_names.specs.Known.{known};
ghost use Rattle.fzn_typing.specs.Faults.{tree_names};
ghost use Rattle.fzn_typing.specs.Limits.{IsTreeWithin};
ghost use Rattle.fzn_typing.specs.Typed.{IsTyped, model_in};

use crate::constraint::constraints_of;
use crate::goal::goal_of;
use crate::written::with_written;
use fzn_lexer::{Fault, Halt};
use fzn_meaning::Model;
use fzn_names::{Names, names_of, outputs_of, shown_of, vars_of};
use fzn_tree::Tree;
use std::alloc::Global;

/// A model, and what the names of its file stand for.
#[derive(Drop)]
pub struct Named {
    /// What the file asks.
    pub model: Model,
    /// The names, each with what it stands for.
    pub names: Names,
}

/// The model of the tree with its names, or its first fault: that of a declaration first, as `DuplicateName` or `OutputAnnotation`, then
/// that of a constraint, as `UnknownConstraint` or `Arity`, and then that of the goal. It answers `Halt::Memory` where memory runs out.
pub fn type_check(alloc: Global, tree: &Tree) -> Result<Named, Halt<Fault>>
    requires { IsTreeWithin tree.now }
    ensures right { IsTyped tree.now (model_in result) }
    ensures names { IfOk result (λ named. known named.names ≡ tree_names tree.now) }
    ensures well_formed { IfOk result (λ named. IsWellFormed named.model) }
{
    let declared = tree.vars.as_slice();
    let names = names_of(alloc, tree.params.as_slice(), declared, tree.cons.len())?;
    let stated = constraints_of(alloc, &names, tree.cons.as_slice())?;
    let goal = goal_of(&names, &tree.solve.goal)?;
    let vars = vars_of(alloc, declared)?;
    let shown = shown_of(alloc, &names, declared)?;
    let outputs = outputs_of(alloc, vars.len(), shown.as_slice())?;
    Ok(Named {
        model: Model {
            vars,
            constraints: with_written(alloc, &names, declared, stated)?,
            goal,
            outputs,
            shown,
        },
        names,
    })
}
