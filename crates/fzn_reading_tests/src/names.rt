// The names of a file, what is printed of its solutions, and its model, each from the tree.
ghost use Rattle.std.specs.Prelude.{IfOk, IsTrue};
ghost use Rattle.fzn_meaning.specs.WellFormed.{IsOutputItem};
ghost use Rattle.fzn_typing.specs.Limits.{IsTreeWithin};

use fzn_domain::VarId;
use fzn_lexer::{Fault, Halt, tokens};
use fzn_list::Items;
use fzn_meaning::{Goal, Kind, OutputItem};
use fzn_names::{Declared, Names, names_of, outputs_of, shown_of, vars_of};
use fzn_parser::parse;
use fzn_reading::within_limits;
use fzn_tree::{Tree, Var};
use fzn_typing::type_check;
use fzn_values::Term;
use std::alloc::{AllocError, Global};
use std::test::*;

const FILE: &str =
    "int: k = -4; var 2..5: x = k; var bool: c :: output_var; array [1..2] of var int: q = [x, k]; constraint bool_not(c, c); solve minimize x;";

pub(crate) fn tree_of(alloc: Global, file: &str) -> Result<Tree, Fail>
    ensures { IfOk result IsTreeWithin }
{
    within_limits();
    let list = tokens(alloc, file.as_bytes())?;
    let tree = parse(alloc, &list)?;
    Ok(tree)
}

fn is_list(declared: Option<&Declared>) -> bool {
    match declared {
        Some(Declared::Array(Kind::Integer, list)) => {
            list.as_slice() == [Term::Variable(VarId(1)), Term::Constant(-4)].as_slice()
        }
        _ => false,
    }
}

/// Whether the names stand for a constant, two variables and a list.
fn are_names(names: &Names, tree: &Tree) -> bool {
    let ([k], [Var::Single(x), Var::Single(c), Var::Array(q)]) = (
        tree.params.as_slice(),
        tree.vars.as_slice(),
    ) else {
        return false;
    };
    matches!(
        names.meaning(&k.name.text),
        Some(Declared::Constant(Kind::Integer, -4))
    ) && matches!(
        names.meaning(&x.name.text),
        Some(Declared::Variable(Kind::Integer, VarId(1)))
    ) && matches!(
        names.meaning(&c.name.text),
        Some(Declared::Variable(Kind::Boolean, VarId(2)))
    ) && is_list(names.meaning(&q.name.text))
}

/// Whether c is printed, the second of two variables.
fn is_printed(item: &OutputItem) -> bool
    ensures { IsTrue result → IsOutputItem 2 item.now }
{
    match item {
        OutputItem::Single { name, kind, var } => {
            name.as_slice() == b"c".as_slice() && *kind == Kind::Boolean && var.0 == 2
        }
        OutputItem::Array { .. } => false,
    }
}

fn are_shown(alloc: Global, names: &Names, tree: &Tree) -> Result<bool, AllocError>
    requires { IsTreeWithin tree.now }
{
    let items = shown_of(alloc, names, tree.vars.as_slice())?;
    are_outputs(alloc, items.as_slice())
}

fn are_outputs(alloc: Global, shown: &[OutputItem]) -> Result<bool, AllocError> {
    match shown {
        [c] if is_printed(c) => {
            let outputs: Items<VarId> = outputs_of(alloc, 2, shown)?;
            Ok(outputs.as_slice() == [VarId(2)].as_slice())
        }
        _ => Ok(false),
    }
}

/// Whether the variables are x from 2 to 5 and c.
fn are_vars(alloc: Global, tree: &Tree) -> Result<bool, AllocError>
    requires { IsTreeWithin tree.now }
{
    let found = vars_of(alloc, tree.vars.as_slice())?;
    let [x, c] = found.as_slice() else {
        return Ok(false);
    };
    Ok(
        x.name.as_slice() == b"x".as_slice()
            && x.kind == Kind::Integer
            && x.domain.len() == 4
            && x.domain.contains(2)
            && c.kind == Kind::Boolean
            && c.domain.len() == 2,
    )
}

fn are_declared(alloc: Global, tree: &Tree) -> Result<bool, Halt<Fault>>
    requires { IsTreeWithin tree.now }
{
    let names = names_of(alloc, tree.params.as_slice(), tree.vars.as_slice(), 1)?;
    Ok(are_names(&names, tree) && are_shown(alloc, &names, tree)?)
}

/// Whether the model has the variables, the constraints of the items and of the value, and the goal.
fn is_model(alloc: Global, tree: &Tree) -> Result<bool, Halt<Fault>>
    requires { IsTreeWithin tree.now }
{
    let model = type_check(alloc, tree)?.model;
    Ok(
        matches!(model.goal, Goal::Minimize(VarId(1)))
            && model.outputs.as_slice() == [VarId(2)].as_slice()
            && model.vars.len() == 2
            && model.constraints.len() == 2,
    )
}

#[test]
fn a_tree_with_names(rt: HostRuntime) -> Result<(), Fail> {
    let tree = tree_of(rt.alloc(), FILE)?;
    assert!(rt; are_declared(rt.alloc(), &tree)?);
    assert!(rt; are_vars(rt.alloc(), &tree)?);
    assert!(rt; is_model(rt.alloc(), &tree)?);
    Ok(())
}
