// Annotations that say which constraint defines which variable.
ghost use Rattle.std.specs.Prelude.{◌≡◌};
ghost use Rattle.fzn_names.specs.Annotations.{has_no_args};
ghost use Rattle.fzn_names.specs.Known.{known};
ghost use Rattle.fzn_items.specs.Marks.{is_defined_mark, is_defined, variable_named, sole_variable, defined_in, defined_by};

use fzn_domain::VarId;
use fzn_list::Items;
use fzn_names::{Declared, Names};
use fzn_tree::{Ann, AnnArg, AnnTerm};

fn has_no_args(args: &Option<Items<AnnArg<Ann>>>) -> bool
    ensures { result ≡ has_no_args args.now }
{
    match args {
        None => true,
        Some(args) => args.as_slice().is_empty(),
    }
}

fn is_defined_mark(ann: &Ann) -> bool
    ensures { result ≡ is_defined_mark ann.now }
{
    ann.name.text.as_slice() == b"is_defined_var".as_slice() && has_no_args(&ann.args)
}

/// Whether a constraint defines the variable with these annotations.
pub fn is_defined(mut anns: &[Ann]) -> bool
    ensures { result ≡ is_defined anns.now }
{
    while let [ann, rest @ ..] = anns {
        if is_defined_mark(ann) {
            return true;
        }
        anns = rest;
    }
    false
}

fn variable_named(names: &Names, ann: &Ann) -> Option<VarId>
    ensures { result ≡ variable_named (known names.now) ann.now }
{
    if !has_no_args(&ann.args) {
        return None;
    }
    match names.meaning(&ann.name.text) {
        Some(Declared::Variable(_, var)) => Some(*var),
        _ => None,
    }
}

fn sole_variable(names: &Names, args: &Option<Items<AnnArg<Ann>>>) -> Option<VarId>
    ensures { result ≡ sole_variable (known names.now) args.now }
{
    match args {
        None => None,
        Some(args) => match args.as_slice() {
            [AnnArg::One(AnnTerm::Ann(ann))] => variable_named(names, ann),
            _ => None,
        },
    }
}

fn defined_in(names: &Names, ann: &Ann) -> Option<VarId>
    ensures { result ≡ defined_in (known names.now) ann.now }
{
    if ann.name.text.as_slice() == b"defines_var".as_slice() {
        sole_variable(names, &ann.args)
    } else {
        None
    }
}

/// The first variable that the annotations of a constraint say to be defined.
pub fn defined_by(names: &Names, mut anns: &[Ann]) -> Option<VarId>
    ensures { result ≡ defined_by (known names.now) anns.now }
{
    while let [ann, rest @ ..] = anns {
        if let Some(var) = defined_in(names, ann) {
            return Some(var);
        }
        anns = rest;
    }
    None
}
