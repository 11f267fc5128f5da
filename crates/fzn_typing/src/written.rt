// The constraints that declarations add.
ghost use Rattle.std.specs.Prelude.{◌≡◌, ◌∷◌, ◌++◌, [], map, flat_map, None, Some, IfOk, OnOk};
ghost use Rattle.std.specs.List.{All};
ghost use Rattle.fzn_meaning.specs.declared.constraint.Constraint.TheVariants.{SetIn};
ghost use Rattle.fzn_names.specs.Known.{known};
ghost use Rattle.fzn_names.specs.Limits.{IsVarWithin};
ghost use Rattle.fzn_names.specs.Values.{term_of};
ghost use Rattle.fzn_typing.specs.Models.{equalities, written};

use fzn_domain::Domain;
use fzn_list::Items;
use fzn_meaning::{Constraint, Relation};
use fzn_names::{Names, term_of, values_in, variable_of};
use fzn_tree::{Base, Basic, SingleVar, Values, Var};
use fzn_values::Term;
use std::alloc::{AllocError, Global};

/// That the variable has the written value.
#[tactic(auto, using(crate::proofs::EqualityLemmas::equalities_made))]
fn equality(names: &Names, var: &SingleVar, value: &Basic) -> Constraint
    ensures { equalities (known names.now) var.now (Some value.now) ≡ result ∷ [] }
{
    Constraint::Compare {
        relation: Relation::Equal,
        left: variable_of(names, &var.name),
        right: term_of(names, value),
        switch: None,
    }
}

fn element_domain(names: &Names, set: &Domain, entry: &Basic) -> Result<Constraint, AllocError>
    ensures { IfOk result (λ found. found ≡ SetIn (term_of (known names.now) entry.now) set.now None) }
{
    Ok(Constraint::SetIn {
        term: term_of(names, entry),
        set: set.copy()?,
        switch: None,
    })
}

/// Puts a constraint for each entry at the end.
fn write_domains(
    names: &Names,
    set: &Domain,
    mut entries: &[Basic],
    constraints: &mut Items<Constraint>,
) -> Result<(), AllocError>
    ensures { OnOk result (constraints.new ≡ constraints.old ++ map (λ entry. SetIn (term_of (known names.now) entry) set.now None) entries.now) }
{
    while let [entry, rest @ ..] = entries {
        constraints.push(element_domain(names, set, entry)?)?;
        entries = rest;
    }
    Ok(())
}

/// Puts the constraints of a declaration at the end.
fn write(
    alloc: Global,
    names: &Names,
    var: &Var,
    constraints: &mut Items<Constraint>,
) -> Result<(), AllocError>
    requires { IsVarWithin var.now }
    ensures { OnOk result (constraints.new ≡ constraints.old ++ written (known names.now) var.now) }
{
    match var {
        Var::Single(single) => {
            if let Some(value) = &single.value {
                constraints.push(equality(names, single, value))?;
            }
            Ok(())
        }
        Var::Array(array) => match &array.base {
            Base::Values(values) => {
                let set = values_in(alloc, values)?;
                write_domains(names, &set, array.array.entries.as_slice(), constraints)
            }
            _ => Ok(()),
        },
    }
}

/// These constraints, and behind them those of the declarations in order.
pub fn with_written(
    alloc: Global,
    names: &Names,
    mut vars: &[Var],
    stated: Items<Constraint>,
) -> Result<Items<Constraint>, AllocError>
    requires { All IsVarWithin vars.now }
    ensures { IfOk result (λ found. found ≡ stated ++ flat_map (written (known names.now)) vars.now) }
{
    let mut constraints = stated;
    while let [var, rest @ ..] = vars {
        write(alloc, names, var, &mut constraints)?;
        vars = rest;
    }
    Ok(constraints)
}
