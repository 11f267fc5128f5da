// The parameters of a file.
ghost use Rattle.std.specs.Prelude.{◌≡◌, [], ◌++◌, flat_map, IfOk};
ghost use Rattle.std.specs.List.{All};
ghost use Rattle.fzn_names.specs.Given.{Gives};
ghost use Rattle.fzn_names.specs.Params.{set_elements, set_values, wanted_by, wrong_values, wrong_lengths, param_faults, kind_by, declared_value, params_faults, param_names};
ghost use Rattle.fzn_names.specs.Known.{known};
ghost use Rattle.fzn_names.specs.Limits.{IsLiteralWithin, IsParamWithin};
ghost use Rattle.fzn_names.specs.Positions.{first};
ghost use Rattle.fzn_names.specs.Types.{set_literals, wrong_literals};
ghost use Rattle.fzn_names.specs.Values.{literal_value};

use crate::named_list::NamedList;
use crate::names::{Declared, Names};
use crate::value::{literal_terms, position_of_literal, set_literal, wrong_literal};
use fzn_domain::Domain;
use fzn_lexer::{Fault, FaultKind, Halt, Position};
use fzn_meaning::Kind;
use fzn_registry::Argument;
use fzn_tree::{Literal, Param, ParamBase, ParamValue, Size};
use std::alloc::{AllocError, Global};

// ---- faults

fn set_element(size: &Option<Size>, base: ParamBase) -> Option<Position>
    ensures { result ≡ first (set_elements size.now base) }
{
    match (size, base) {
        (Some(_), ParamBase::Set(position)) => Some(position),
        _ => None,
    }
}

#[tactic(auto, using(crate::proofs::CallerLemmas::firsts))]
fn first_set_literal(mut literals: &[Literal]) -> Option<Position>
    ensures { result ≡ first (flat_map set_literals literals.now) }
{
    while let [literal, rest @ ..] = literals {
        if let Some(position) = set_literal(literal) {
            return Some(position);
        }
        literals = rest;
    }
    None
}

fn set_value(value: &ParamValue) -> Option<Position>
    ensures { result ≡ first (set_values value.now) }
{
    match value {
        ParamValue::Literal(_) => None,
        ParamValue::Array(_, entries) => first_set_literal(entries.as_slice()),
    }
}

#[tactic(auto, using(crate::proofs::CallerLemmas::firsts))]
fn refused_set(param: &Param) -> Option<Position>
    ensures { result ≡ first (set_elements param.now.size param.now.base ++ set_values param.now.value) }
{
    match set_element(&param.size, param.base) {
        Some(position) => Some(position),
        None => set_value(&param.value),
    }
}

fn wanted_by(base: ParamBase) -> Argument
    ensures { result ≡ wanted_by base }
{
    match base {
        ParamBase::Bool(_) => Argument::BooleanConstant,
        ParamBase::Int(_) => Argument::IntegerConstant,
        ParamBase::Set(_) => Argument::Set,
    }
}

#[tactic(auto, using(crate::proofs::CallerLemmas::firsts))]
fn first_wrong_literal(wanted: Argument, mut literals: &[Literal]) -> Option<Position>
    ensures { result ≡ first (flat_map (wrong_literals wanted) literals.now) }
{
    while let [literal, rest @ ..] = literals {
        if let Some(position) = wrong_literal(wanted, literal) {
            return Some(position);
        }
        literals = rest;
    }
    None
}

fn wrong_value(size: &Option<Size>, wanted: Argument, value: &ParamValue) -> Option<Position>
    ensures { result ≡ first (wrong_values size.now wanted value.now) }
{
    match (size, value) {
        (None, ParamValue::Literal(literal)) => wrong_literal(wanted, literal),
        (None, ParamValue::Array(position, _)) => Some(*position),
        (Some(_), ParamValue::Literal(literal)) => Some(position_of_literal(literal)),
        (Some(_), ParamValue::Array(_, entries)) => first_wrong_literal(wanted, entries.as_slice()),
    }
}

fn wrong_length(size: &Option<Size>, value: &ParamValue) -> Option<Position>
    ensures { result ≡ first (wrong_lengths size.now value.now) }
{
    match (size, value) {
        (Some(size), ParamValue::Array(position, entries)) if entries.len() != size.count => {
            Some(*position)
        }
        _ => None,
    }
}

/// The first fault of a parameter behind these names.
#[tactic(auto, using(crate::proofs::CallerLemmas::firsts), unfolding(crate::specs::Params::param_faults))]
fn param_fault(earlier: &Names, param: &Param) -> Option<Fault>
    ensures { result ≡ first (param_faults (known earlier.now) param.now) }
{
    if let Some(position) = refused_set(param) {
        return Some(Fault {
            kind: FaultKind::SetRefused,
            position,
        });
    }
    if earlier.meaning(&param.name.text).is_some() {
        return Some(Fault {
            kind: FaultKind::DuplicateName,
            position: param.name.position,
        });
    }
    if let Some(position) = wrong_value(&param.size, wanted_by(param.base), &param.value) {
        return Some(Fault {
            kind: FaultKind::Type,
            position,
        });
    }
    match wrong_length(&param.size, &param.value) {
        Some(position) => Some(Fault {
            kind: FaultKind::Length,
            position,
        }),
        None => None,
    }
}

// ---- values

fn literal_value(alloc: Global, literal: &Literal) -> Result<Declared, AllocError>
    requires { IsLiteralWithin literal.now }
    ensures { IfOk result (λ value. value ≡ literal_value literal.now) }
{
    match literal {
        Literal::Bool(true, _) => Ok(Declared::Constant(Kind::Boolean, 1)),
        Literal::Bool(false, _) => Ok(Declared::Constant(Kind::Boolean, 0)),
        Literal::Int(number) => Ok(Declared::Constant(Kind::Integer, number.value)),
        Literal::Range(range) => {
            let set = Domain::range(alloc, range.low.value, range.high)?;
            Ok(Declared::Set(set))
        }
        Literal::Set(_, values) => {
            let set = Domain::listed(alloc, values.as_slice())?;
            Ok(Declared::Set(set))
        }
    }
}

fn kind_by(base: ParamBase) -> Kind
    ensures { result ≡ kind_by base }
{
    match base {
        ParamBase::Bool(_) => Kind::Boolean,
        _ => Kind::Integer,
    }
}

fn param_value(alloc: Global, param: &Param) -> Result<Declared, AllocError>
    requires { IsParamWithin param.now }
    ensures { IfOk result (λ value. value ≡ declared_value param.now.base param.now.value) }
{
    match &param.value {
        ParamValue::Literal(literal) => literal_value(alloc, literal),
        ParamValue::Array(_, entries) => {
            let terms = literal_terms(alloc, entries.as_slice())?;
            Ok(Declared::Constants(kind_by(param.base), NamedList::new(alloc, terms)?))
        }
    }
}

/// The names of the parameters, or their first fault.
#[tactic(auto, using(crate::proofs::CallerLemmas::firsts))]
pub fn param_names(alloc: Global, mut params: &[Param]) -> Result<Names, Halt<Fault>>
    requires { All IsParamWithin params.now }
    ensures { Gives (params_faults [] params.now) (λ names. known names ≡ param_names params.now) result }
{
    let mut names = Names::new(alloc);
    while let [param, rest @ ..] = params {
        if let Some(fault) = param_fault(&names, param) {
            return Err(Halt::Fault(fault));
        }
        let value = param_value(alloc, param)?;
        names.insert(alloc, &param.name.text, value)?;
        params = rest;
    }
    Ok(names)
}
