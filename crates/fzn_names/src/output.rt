// What is printed of a solution.
ghost use Rattle.std.specs.Prelude.{◌≡◌, ◌≤◌, ◌<◌, ◌+◌, ◌++◌, length, map, filter, IfOk, OnOk};
ghost use Rattle.std.specs.List.{All};
ghost use Rattle.fzn_domain.specs.declared.literal.VarId.{VarId};
ghost use Rattle.fzn_meaning.specs.Meaning.{longest};
ghost use Rattle.fzn_names.specs.Annotations.{is_array_mark};
ghost use Rattle.fzn_names.specs.Outputs.{single_item, array_item, output_items, shown_from};
ghost use Rattle.fzn_names.specs.Known.{known};
ghost use Rattle.fzn_names.specs.Limits.{IsVarWithin};
ghost use Rattle.fzn_names.specs.Variables.{vars_of};

use crate::annotation::{is_array_mark, is_marked, ranges_of};
use crate::declaration::number_after;
use crate::domain::kind_of;
use crate::names::Names;
use crate::value::terms_of;
use fzn_domain::VarId;
use fzn_list::Items;
use fzn_meaning::OutputItem;
use fzn_tree::{Ann, ArrayVar, SingleVar, Var};
use std::alloc::{AllocError, Global};

fn single_item(alloc: Global, number: usize, var: &SingleVar) -> Result<OutputItem, AllocError>
    ensures { IfOk result (λ item. item ≡ single_item number var.now) }
{
    Ok(OutputItem::Single {
        name: var.name.text.copy(alloc)?,
        kind: kind_of(&var.base),
        var: VarId(number),
    })
}

fn array_item(
    alloc: Global,
    names: &Names,
    var: &ArrayVar,
    ann: &Ann,
) -> Result<OutputItem, AllocError>
    ensures { IfOk result (λ item. item ≡ array_item (known names.now) var.now ann.now) }
{
    Ok(OutputItem::Array {
        name: var.name.text.copy(alloc)?,
        kind: kind_of(&var.base),
        ranges: ranges_of(alloc, ann)?,
        entries: terms_of(alloc, names, var.array.entries.as_slice())?,
    })
}

/// Puts what the marks of an array ask for at the end.
fn show_array(
    alloc: Global,
    names: &Names,
    var: &ArrayVar,
    shown: &mut Items<OutputItem>,
) -> Result<(), AllocError>
    requires { length var.now.array.entries ≤ longest }
    ensures { OnOk result (shown.new ≡ shown.old ++ map (array_item (known names.now) var.now) (filter (is_array_mark (length var.now.array.entries)) var.now.anns)) }
{
    let mut anns = var.anns.as_slice();
    while let [ann, rest @ ..] = anns {
        if is_array_mark(var.array.entries.len(), ann) {
            shown.push(array_item(alloc, names, var, ann)?)?;
        }
        anns = rest;
    }
    Ok(())
}

/// Puts what the marks of a declaration ask for at the end.
fn show(
    alloc: Global,
    names: &Names,
    number: usize,
    var: &Var,
    shown: &mut Items<OutputItem>,
) -> Result<(), AllocError>
    requires { IsVarWithin var.now }
    ensures { OnOk result (shown.new ≡ shown.old ++ output_items (known names.now) number var.now) }
{
    match var {
        Var::Single(single) => {
            if is_marked(single.anns.as_slice()) {
                shown.push(single_item(alloc, number, single)?)?;
            }
            Ok(())
        }
        Var::Array(array) => show_array(alloc, names, array, shown),
    }
}

/// What is printed of a solution, in order of declaration. It answers `Err` where memory runs out.
pub fn shown_of(
    alloc: Global,
    names: &Names,
    mut vars: &[Var],
) -> Result<Items<OutputItem>, AllocError>
    requires within { All IsVarWithin vars.now }
    requires few { length (vars_of vars.now) ≤ longest }
    ensures { IfOk result (λ shown. shown ≡ shown_from (known names.now) 1 vars.now) }
{
    let mut shown = Items::new(alloc);
    let mut number = 1;
    while let [var, rest @ ..] = vars {
        show(alloc, names, number, var, &mut shown)?;
        number = number_after(number, var);
        vars = rest;
    }
    Ok(shown)
}
