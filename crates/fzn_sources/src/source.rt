// Which item states which constraint.
ghost use Rattle.std.specs.Prelude.{◌≡◌, ◌++◌, take, drop, map, length, replicate, IfOk, OnOk};
ghost use Rattle.std.specs.List.{All};
ghost use Rattle.fzn_names.specs.Values.{NameList};
ghost use Rattle.fzn_typing.specs.Models.{written};
ghost use Rattle.fzn_sources.specs.Items.{IsNamed, item_in, sourced, stated_by};

use fzn_lexer::Span;
use fzn_tree::{Base, Tree, Var};
use std::alloc::{AllocError, Global};

/// For each constraint of the tree's model the item that states it: those of the constraint items, and then those of the declarations.
/// It answers `Err` where memory runs out.
pub fn sources_of(alloc: Global, tree: &Tree, items: &[Span]) -> Result<Vec<Span>, AllocError>
    requires { All IsNamed tree.now.cons }
    ensures { IfOk result (λ sources. sources.items ≡ map item_in (sourced tree.now items.now)) }
{
    let behind_predicates = behind(items, tree.predicates.len());
    let declarations = behind(behind_predicates, tree.params.len());
    let stated = front(behind(declarations, tree.vars.len()), tree.cons.len());
    let mut sources = Vec::from_slice(alloc, stated)?;
    push_written(tree.vars.as_slice(), declarations, &mut sources)?;
    Ok(sources)
}

/// The first so many items, or all.
fn front(items: &[Span], count: usize) -> &[Span]
    ensures { result.now ≡ take count items.now }
{
    &items[..items.len().min(count)]
}

/// The items behind the first so many.
pub fn behind(items: &[Span], count: usize) -> &[Span]
    ensures { result.now ≡ drop count items.now }
{
    &items[items.len().min(count)..]
}

/// Puts the item of each declaration at the end, once for each constraint that it adds.
fn push_written(
    mut vars: &[Var],
    mut items: &[Span],
    sources: &mut Vec<Span>,
) -> Result<(), AllocError>
    ensures { (names : NameList) → OnOk result (sources.new.items ≡ sources.old.items ++ map item_in (stated_by (written names) vars.now items.now)) }
{
    while let [var, later @ ..] = vars {
        let [item, further @ ..] = items else {
            return Ok(());
        };
        push_times(*item, count_of(var), sources)?;
        vars = later;
        items = further;
    }
    Ok(())
}

/// How many constraints a declaration adds.
pub fn count_of(var: &Var) -> usize
    ensures { (names : NameList) → result ≡ length (written names var.now) }
{
    match var {
        Var::Single(single) => match &single.value {
            None => 0,
            Some(_) => 1,
        },
        Var::Array(array) => match &array.base {
            Base::Values(_) => array.array.entries.len(),
            _ => 0,
        },
    }
}

fn push_times(item: Span, count: usize, sources: &mut Vec<Span>) -> Result<(), AllocError>
    ensures { OnOk result (sources.new.items ≡ sources.old.items ++ replicate count item) }
{
    for _ in 0..count {
        sources.push(item)?;
    }
    Ok(())
}
