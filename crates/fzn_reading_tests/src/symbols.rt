// What names and values stand for, and where they are faulty.
use crate::names::tree_of;
use fzn_domain::{Domain, VarId};
use fzn_lexer::Position;
use fzn_list::{Items, Text};
use fzn_meaning::Kind;
use fzn_names::{
    Declared, NamedList, Names, array_of, first_set_in, first_unknown_in, first_wrong_in,
    has_negative_entry, is_negative, kind_of, list_of, literal_terms, no_values, position_of,
    position_of_literal, set_literal, set_of, term_of, terms_of, unknown_in, values_in,
    variable_of, wrong_in, wrong_literal,
};
use fzn_registry::Argument;
use fzn_tree::{Arg, Base, Basic, Int, Literal, ParamValue, Range, Tree, Values};
use fzn_values::Term;
use std::alloc::{AllocError, Global};
use std::test::*;

const X: Term = Term::Variable(VarId(2));

const LIST: [Term; 2] = [Term::Constant(1), Term::Constant(-2)];

fn at(line: u32, column: u32) -> Option<Position> {
    Some(Position { line, column })
}

fn list(alloc: Global) -> Result<NamedList, AllocError> {
    NamedList::new(alloc, Items::from_slice(alloc, LIST.as_slice())?)
}

/// Declares the name, where it is new.
fn put(alloc: Global, names: &mut Names, name: &str, declared: Declared) -> Result<(), AllocError> {
    let name = Text::from_slice(alloc, name.as_bytes())?;
    match names.meaning(&name) {
        None => names.insert(alloc, &name, declared),
        Some(_) => Ok(()),
    }
}

/// Declares a list as c, 2..5 as s, and the second variable as x.
fn put_all(alloc: Global, names: &mut Names) -> Result<(), AllocError> {
    let c = Declared::Constants(Kind::Integer, list(alloc)?);
    put(alloc, names, "c", c)?;
    let s = Declared::Set(Domain::range(alloc, 2, 5)?);
    put(alloc, names, "s", s)?;
    let x = Declared::Variable(Kind::Integer, VarId(2));
    put(alloc, names, "x", x)
}

/// The entries of the array that is the one argument of the one constraint.
fn entries(tree: &Tree) -> Option<&[Basic]> {
    match tree.cons.as_slice().first()?.args.as_slice().first()? {
        Arg::Array(array) => Some(array.entries.as_slice()),
        Arg::Basic(_) => None,
    }
}

const VALUES: &str = "constraint p(\n[7, x, c,\n s, {4}, zzz]);\nsolve satisfy;";

/// Whether the value is right as an integer, and this term.
fn is_integer(names: &Names, value: &Basic, position: Option<Position>, term: Term) -> bool {
    Some(position_of(value)) == position
        && unknown_in(names, value).is_none()
        && wrong_in(names, Argument::Integer, value).is_none()
        && term_of(names, value) == term
        && array_of(names, value).is_empty()
        && !has_negative_entry(names, value)
}

/// Whether the value is the list of a name.
fn is_list(alloc: Global, names: &Names, value: &Basic) -> Result<bool, AllocError> {
    let list = list_of(alloc, names, value)?;
    Ok(
        list.as_slice() == LIST.as_slice()
            && array_of(names, value) == LIST.as_slice()
            && has_negative_entry(names, value)
            && wrong_in(names, Argument::Integer, value) == at(2, 8),
    )
}

/// Whether the value is the set of a name.
fn is_set(alloc: Global, names: &Names, value: &Basic) -> Result<bool, AllocError> {
    let Basic::Name(_) = value else {
        return Ok(false);
    };
    let domain = set_of(alloc, names, value)?;
    Ok(domain.len() == 4 && domain.contains(2))
}

/// Whether the first set, the first name that is not declared and the first value that is no integer constant are found.
fn are_positions_told(names: &Names, values: &[Basic]) -> bool {
    first_set_in(names, values) == at(3, 2)
        && first_unknown_in(names, values) == at(3, 10)
        && first_wrong_in(names, Argument::IntegerConstant, values) == at(2, 5)
}

fn are_terms(alloc: Global, names: &Names, values: &[Basic]) -> Result<bool, AllocError> {
    let terms = terms_of(alloc, names, values)?;
    let zero = Term::Constant(0);
    Ok(terms.as_slice() == [Term::Constant(7), X, zero, zero, zero, zero].as_slice())
}

fn is_variable(names: &Names, value: &Basic) -> bool {
    match value {
        Basic::Name(name) => variable_of(names, name) == X,
        Basic::Literal(_) => false,
    }
}

/// Whether each of the values, and all of them, are told as they are.
fn are_told(alloc: Global, names: &Names, values: &[Basic]) -> Result<bool, AllocError> {
    let [seven, x, c, s, _, unknown] = values else {
        return Ok(false);
    };
    Ok(
        is_integer(names, seven, at(2, 2), Term::Constant(7))
            && is_integer(names, x, at(2, 5), X)
            && is_variable(names, x)
            && unknown_in(names, unknown) == at(3, 10)
            && is_list(alloc, names, c)?
            && is_set(alloc, names, s)?
            && are_positions_told(names, values)
            && are_terms(alloc, names, values)?,
    )
}

fn are_values_told(alloc: Global) -> Result<bool, Fail> {
    let mut names = Names::new(alloc);
    put_all(alloc, &mut names)?;
    let tree = tree_of(alloc, VALUES)?;
    Ok(are_told(alloc, &names, entries(&tree).unwrap_or_default())?)
}

#[test]
fn values(rt: HostRuntime) -> Result<(), Fail> {
    assert!(rt; are_values_told(rt.alloc())?);
    Ok(())
}

const LITERALS: &str = "array [1..3] of int: a = [\n7, true, {4}];\nsolve satisfy;";

/// The entries of the one parameter.
fn literals_of(tree: &Tree) -> Option<&[Literal]> {
    match &tree.params.as_slice().first()?.value {
        ParamValue::Array(_, entries) => Some(entries.as_slice()),
        ParamValue::Literal(_) => None,
    }
}

/// Whether they are a number, a Boolean and a set.
fn are_literals(alloc: Global, literals: &[Literal]) -> Result<bool, AllocError> {
    let [seven, truth, set] = literals else {
        return Ok(false);
    };
    let terms = literal_terms(alloc, literals)?;
    let want = [Term::Constant(7), Term::Constant(1), Term::Constant(0)];
    Ok(
        Some(position_of_literal(seven)) == at(2, 1)
            && wrong_literal(Argument::Boolean, seven) == at(2, 1)
            && wrong_literal(Argument::Boolean, truth).is_none()
            && set_literal(truth).is_none()
            && set_literal(set) == at(2, 10)
            && terms.as_slice() == want.as_slice(),
    )
}

fn are_literals_told(alloc: Global) -> Result<bool, Fail> {
    let tree = tree_of(alloc, LITERALS)?;
    Ok(are_literals(alloc, literals_of(&tree).unwrap_or_default())?)
}

#[test]
fn literals(rt: HostRuntime) -> Result<(), Fail> {
    assert!(rt; are_literals_told(rt.alloc())?);
    Ok(())
}

fn is_shared(alloc: Global) -> Result<bool, AllocError> {
    let terms = list(alloc)?;
    let same = terms.share()?;
    Ok(
        terms.has_negative()
            && terms.as_slice() == LIST.as_slice()
            && same.as_slice() == LIST.as_slice(),
    )
}

#[test]
fn a_named_list(rt: HostRuntime) -> Result<(), Fail> {
    assert!(rt; is_shared(rt.alloc())?);
    assert!(rt; is_negative(Term::Constant(-1)) && !is_negative(Term::Constant(0)));
    Ok(())
}

/// Whether 2..5 are the values of a range, and no others are.
fn is_range(alloc: Global) -> Result<bool, AllocError> {
    let low = Int {
        value: 2,
        position: Position::START,
    };
    let range = values_in(alloc, &Values::Range(Range { low, high: 5 }))?;
    let none = no_values(alloc)?;
    Ok(range.len() == 4 && range.contains(2) && range.contains(5) && none.is_empty())
}

fn is_listed(alloc: Global) -> Result<bool, AllocError> {
    let mut numbers = Items::new(alloc);
    numbers.push(9)?;
    numbers.push(7)?;
    let listed = values_in(alloc, &Values::Listed(numbers))?;
    Ok(listed.len() == 2 && listed.contains(7) && listed.contains(9))
}

#[test]
fn values_of_types(rt: HostRuntime) -> Result<(), Fail> {
    assert!(rt; is_range(rt.alloc())?);
    assert!(rt; is_listed(rt.alloc())?);
    let integer = Base::Int(Position::START);
    assert!(rt; kind_of(&Base::Bool) == Kind::Boolean && kind_of(&integer) == Kind::Integer);
    Ok(())
}
