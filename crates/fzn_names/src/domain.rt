// The variables, and the values that they may have.
ghost use Rattle.std.specs.Prelude.{◌≡◌, IfOk};
ghost use Rattle.std.specs.List.{All};
ghost use Rattle.fzn_domain.specs.IntSet.{no_values};
ghost use Rattle.fzn_names.specs.Known.{known};
ghost use Rattle.fzn_names.specs.Limits.{IsLiteralWithin, IsBasicWithin, AreValuesWithin, IsBaseWithin, IsVarWithin};
ghost use Rattle.fzn_names.specs.Values.{literal_value, basic_meaning, value_set, set_in};
ghost use Rattle.fzn_names.specs.Variables.{kind_of, values_in, base_values, var_of, vars_of};

use crate::names::{Declared, Names};
use fzn_domain::Domain;
use fzn_list::Items;
use fzn_meaning::Kind;
use fzn_tree::{Base, Basic, Literal, SingleVar, Values, Var};
use std::alloc::{AllocError, Global};

/// The values as a domain. It answers `Err` where memory runs out.
pub fn values_in(alloc: Global, values: &Values) -> Result<Domain, AllocError>
    requires { AreValuesWithin values.now }
    ensures { IfOk result (λ domain. domain ≡ values_in values.now) }
{
    match values {
        Values::Range(range) => Domain::range(alloc, range.low.value, range.high),
        Values::Listed(listed) => Domain::listed(alloc, listed.as_slice()),
    }
}

/// No value at all. It answers `Err` where memory runs out.
pub fn no_values(alloc: Global) -> Result<Domain, AllocError>
    ensures { IfOk result (λ domain. domain ≡ no_values) }
{
    Domain::range(alloc, 1, 0)
}

fn literal_set(alloc: Global, literal: &Literal) -> Result<Domain, AllocError>
    requires { IsLiteralWithin literal.now }
    ensures { IfOk result (λ domain. domain ≡ value_set (literal_value literal.now)) }
{
    match literal {
        Literal::Range(range) => Domain::range(alloc, range.low.value, range.high),
        Literal::Set(_, values) => Domain::listed(alloc, values.as_slice()),
        _ => no_values(alloc),
    }
}

/// The set that the value is, else none. It answers `Err` where memory runs out.
pub fn set_of(alloc: Global, names: &Names, basic: &Basic) -> Result<Domain, AllocError>
    requires { IsBasicWithin basic.now }
    ensures { IfOk result (λ domain. domain ≡ set_in (basic_meaning (known names.now) basic.now)) }
{
    match basic {
        Basic::Literal(literal) => literal_set(alloc, literal),
        Basic::Name(name) => match names.meaning(&name.text) {
            Some(Declared::Set(domain)) => domain.copy(),
            _ => no_values(alloc),
        },
    }
}

/// The values of a type that a variable may have, else none.
fn values_of(alloc: Global, base: &Base) -> Result<Domain, AllocError>
    requires { IsBaseWithin base.now }
    ensures { IfOk result (λ domain. domain ≡ base_values base.now) }
{
    match base {
        Base::Bool => Domain::range(alloc, 0, 1),
        Base::Values(values) => values_in(alloc, values),
        _ => no_values(alloc),
    }
}

/// How the values of a type are printed.
pub fn kind_of(base: &Base) -> Kind
    ensures { result ≡ kind_of base.now }
{
    match base {
        Base::Bool => Kind::Boolean,
        _ => Kind::Integer,
    }
}

fn var_of(alloc: Global, var: &SingleVar) -> Result<fzn_meaning::Var, AllocError>
    requires { IsBaseWithin var.now.base }
    ensures { IfOk result (λ found. found ≡ var_of var.now) }
{
    Ok(fzn_meaning::Var {
        name: var.name.text.copy(alloc)?,
        domain: values_of(alloc, &var.base)?,
        kind: kind_of(&var.base),
    })
}

/// The variables in order of declaration, without the arrays. It answers `Err` where memory runs out.
pub fn vars_of(alloc: Global, vars: &[Var]) -> Result<Items<fzn_meaning::Var>, AllocError>
    requires { All IsVarWithin vars.now }
    ensures { IfOk result (λ found. found ≡ vars_of vars.now) }
{
    let mut found = Items::new(alloc);
    for var in vars {
        let Var::Single(single) = var else {
            continue;
        };
        found.push(var_of(alloc, single)?)?;
    }
    Ok(found)
}
