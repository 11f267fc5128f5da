// The declarations of a file in turn.
ghost use Rattle.std.specs.Prelude.{◌≡◌, ◌+◌, ◌≤◌, length, IfOk};
ghost use Rattle.std.specs.List.{All};
ghost use Rattle.fzn_meaning.specs.Meaning.{longest};
ghost use Rattle.fzn_names.specs.Declarations.{declared_name, var_value, number_after, vars_faults, names_from, names_of, declaration_faults};
ghost use Rattle.fzn_names.specs.Given.{Gives};
ghost use Rattle.fzn_names.specs.Known.{known};
ghost use Rattle.fzn_names.specs.Limits.{IsVarWithin, AreDeclarationsWithin};
ghost use Rattle.fzn_names.specs.Variables.{vars_of};

use crate::domain::kind_of;
use crate::fault::{added_by, var_fault};
use crate::named_list::NamedList;
use crate::names::{Declared, Names};
use crate::param::param_names;
use crate::value::terms_of;
use fzn_domain::VarId;
use fzn_lexer::{Fault, Halt};
use fzn_list::Text;
use fzn_tree::{Param, Var};
use std::alloc::{AllocError, Global};

/// The number of the next variable.
pub fn number_after(number: usize, var: &Var) -> usize
    requires { number ≤ longest + 1 }
    ensures { result ≡ number_after number var.now }
{
    match var {
        Var::Single(_) => number + 1,
        Var::Array(_) => number,
    }
}

fn name_of(var: &Var) -> &Text
    ensures { result.now ≡ declared_name var.now }
{
    match var {
        Var::Single(single) => &single.name.text,
        Var::Array(array) => &array.name.text,
    }
}

fn var_value(
    alloc: Global,
    earlier: &Names,
    number: usize,
    var: &Var,
) -> Result<Declared, AllocError>
    ensures { IfOk result (λ value. value ≡ var_value (known earlier.now) number var.now) }
{
    match var {
        Var::Single(single) => Ok(Declared::Variable(kind_of(&single.base), VarId(number))),
        Var::Array(array) => {
            let terms = terms_of(alloc, earlier, array.array.entries.as_slice())?;
            Ok(Declared::Array(kind_of(&array.base), NamedList::new(alloc, terms)?))
        }
    }
}

/// The earlier names with those of the variables and arrays, or the first fault of their declarations beside this many constraints.
#[tactic(auto, using(crate::proofs::CallerLemmas::firsts))]
fn var_names(
    alloc: Global,
    earlier: Names,
    mut before: usize,
    mut vars: &[Var],
) -> Result<Names, Halt<Fault>>
    requires before { before ≤ longest }
    requires within { All IsVarWithin vars.now }
    requires few { length (vars_of vars.now) ≤ longest }
    ensures { Gives (vars_faults (known earlier) 1 before vars.now) (λ names. known names ≡ names_from (known earlier) 1 vars.now) result }
{
    let mut names = earlier;
    let mut number = 1;
    while let [var, rest @ ..] = vars {
        if let Some(fault) = var_fault(&names, before, var) {
            return Err(Halt::Fault(fault));
        }
        let value = var_value(alloc, &names, number, var)?;
        names.insert(alloc, name_of(var), value)?;
        before += added_by(var);
        number = number_after(number, var);
        vars = rest;
    }
    Ok(names)
}

/// The names of the declarations, beside this many constraints of items, or their first fault: `SetRefused`, `UnboundedInt`,
/// `DuplicateName`, `UnknownName`, `Type`, `Length`, `TooMany` or `OutputAnnotation`. It answers `Halt::Memory` where memory runs out.
pub fn names_of(
    alloc: Global,
    params: &[Param],
    vars: &[Var],
    stated: usize,
) -> Result<Names, Halt<Fault>>
    requires within { AreDeclarationsWithin params.now vars.now }
    requires stated { stated ≤ longest }
    ensures { Gives (declaration_faults params.now vars.now stated) (λ names. known names ≡ names_of params.now vars.now) result }
{
    let earlier = param_names(alloc, params)?;
    var_names(alloc, earlier, stated, vars)
}
