// The variables that are printed.
ghost use Rattle.std.specs.Prelude.{◌≡◌, ◌↔◌, ◌≤◌, ◌<◌, false, length, IfOk, Contains};
ghost use Rattle.std.specs.List.{All, AllPairs};
ghost use Rattle.fzn_domain.specs.declared.literal.VarId.{VarId};
ghost use Rattle.fzn_domain.specs.Narrow.{IsVariable};
ghost use Rattle.fzn_meaning.specs.Meaning.{longest};
ghost use Rattle.fzn_values.specs.Term.{IsTerm};
ghost use Rattle.fzn_meaning.specs.WellFormed.{IsOutputItem};
ghost use Rattle.fzn_names.specs.Flags.{with_terms, with_item, with_items, flagged};
ghost use Rattle.fzn_names.specs.Outputs.{IsShown};

use fzn_domain::VarId;
use fzn_list::Items;
use fzn_meaning::OutputItem;
use fzn_values::Term;
use std::alloc::{AllocError, Global};

fn flag_terms(flags: &mut [bool], mut terms: &[Term])
    requires { All (IsTerm (length flags.old)) terms.now }
    ensures { flags.new ≡ with_terms flags.old terms.now }
{
    while let [term, rest @ ..] = terms {
        if let Term::Variable(var) = term {
            flags[var.0 - 1] = true;
        }
        terms = rest;
    }
}

fn flag_item(flags: &mut [bool], item: &OutputItem)
    requires { IsOutputItem (length flags.old) item.now }
    ensures { flags.new ≡ with_item flags.old item.now }
{
    match item {
        OutputItem::Single { var, .. } => flags[var.0 - 1] = true,
        OutputItem::Array { entries, .. } => flag_terms(flags, entries.as_slice()),
    }
}

fn flag_items(flags: &mut [bool], mut items: &[OutputItem])
    requires { All (IsOutputItem (length flags.old)) items.now }
    ensures { flags.new ≡ with_items flags.old items.now }
{
    while let [item, rest @ ..] = items {
        flag_item(flags, item);
        items = rest;
    }
}

fn flagged(alloc: Global, mut flags: &[bool]) -> Result<Items<VarId>, AllocError>
    requires { length flags.now ≤ longest }
    ensures { IfOk result (λ vars. vars ≡ flagged 1 flags.now) }
{
    let mut vars = Items::new(alloc);
    let mut number = 1;
    while let [flag, rest @ ..] = flags {
        if *flag {
            vars.push(VarId(number))?;
        }
        number += 1;
        flags = rest;
    }
    Ok(vars)
}

/// The variables among this many that the items show, each once, in rising order. It answers `Err` where memory runs out.
pub fn outputs_of(
    alloc: Global,
    count: usize,
    shown: &[OutputItem],
) -> Result<Items<VarId>, AllocError>
    requires few { count ≤ longest }
    requires shown { All (IsOutputItem count) shown.now }
    ensures shown { IfOk result (λ vars. (var : VarId) → Contains vars var ↔ IsShown shown.now var) }
    ensures rising { IfOk result (AllPairs (λ (a b : VarId). a.0 < b.0)) }
    ensures within { IfOk result (All (IsVariable count)) }
{
    let mut flags = vec![in alloc; false; count]?;
    flag_items(flags.as_mut_slice(), shown);
    flagged(alloc, flags.as_slice())
}
