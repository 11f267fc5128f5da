// What the values in a file stand for, and where they are faulty.
ghost use Rattle.std.specs.Prelude.{◌≡◌, map, Some, IfOk};
ghost use Rattle.std.specs.List.{list_any};
ghost use Rattle.fzn_names.specs.Known.{known};
ghost use Rattle.fzn_names.specs.Positions.{first, position_of_literal, position_of};
ghost use Rattle.fzn_names.specs.Signs.{is_negative};
ghost use Rattle.fzn_names.specs.Types.{fits, is_wanted, is_set, set_literals, sets_in, unknown_in, wrong_literals, wrong_in};
ghost use Rattle.fzn_names.specs.Values.{literal_value, basic_meaning, value_term, term_of, entry_terms, term_in, terms_meant, meaning_of};

use crate::names::{Declared, Names};
use fzn_lexer::Position;
use fzn_list::{Items, Shared};
use fzn_meaning::Kind;
use fzn_registry::Argument;
use fzn_tree::{Basic, Literal, Name};
use fzn_values::Term;
use std::alloc::{AllocError, Global};

/// Where the literal begins.
pub fn position_of_literal(literal: &Literal) -> Position
    ensures { result ≡ position_of_literal literal.now }
{
    match literal {
        Literal::Bool(_, position) => *position,
        Literal::Int(number) => number.position,
        Literal::Range(range) => range.low.position,
        Literal::Set(position, _) => *position,
    }
}

/// Where the value begins.
pub fn position_of(basic: &Basic) -> Position
    ensures { result ≡ position_of basic.now }
{
    match basic {
        Basic::Literal(literal) => position_of_literal(literal),
        Basic::Name(name) => name.position,
    }
}

// ---- types

/// Whether the literal is of the type that is wanted.
fn literal_fits(wanted: Argument, literal: &Literal) -> bool
    ensures { result ≡ fits wanted (literal_value literal.now) }
{
    match wanted {
        Argument::Integer | Argument::IntegerConstant => match literal {
            Literal::Int(_) => true,
            _ => false,
        },
        Argument::Boolean | Argument::BooleanConstant => match literal {
            Literal::Bool(..) => true,
            _ => false,
        },
        Argument::Set => match literal {
            Literal::Range(_) | Literal::Set(..) => true,
            _ => false,
        },
        _ => false,
    }
}

/// Whether the value is of the type that is wanted.
fn fits(wanted: Argument, value: &Declared) -> bool
    ensures { result ≡ fits wanted value.now }
{
    match wanted {
        Argument::Integer => match value {
            Declared::Constant(Kind::Integer, _) | Declared::Variable(Kind::Integer, _) => true,
            _ => false,
        },
        Argument::Boolean => match value {
            Declared::Constant(Kind::Boolean, _) | Declared::Variable(Kind::Boolean, _) => true,
            _ => false,
        },
        Argument::IntegerConstant => match value {
            Declared::Constant(Kind::Integer, _) => true,
            _ => false,
        },
        Argument::BooleanConstant => match value {
            Declared::Constant(Kind::Boolean, _) => true,
            _ => false,
        },
        Argument::IntegerList => match value {
            Declared::Constants(Kind::Integer, _) | Declared::Array(Kind::Integer, _) => true,
            _ => false,
        },
        Argument::BooleanList => match value {
            Declared::Constants(Kind::Boolean, _) | Declared::Array(Kind::Boolean, _) => true,
            _ => false,
        },
        Argument::IntegerConstantList => match value {
            Declared::Constants(Kind::Integer, _) => true,
            _ => false,
        },
        Argument::BooleanConstantList => match value {
            Declared::Constants(Kind::Boolean, _) => true,
            _ => false,
        },
        Argument::Set => match value {
            Declared::Set(_) => true,
            _ => false,
        },
    }
}

/// Whether the value is of the type that is wanted.
pub fn is_wanted(names: &Names, wanted: Argument, basic: &Basic) -> bool
    ensures { result ≡ is_wanted wanted (basic_meaning (known names.now) basic.now) }
{
    match basic {
        Basic::Literal(literal) => literal_fits(wanted, literal),
        Basic::Name(name) => match names.meaning(&name.text) {
            None => false,
            Some(value) => fits(wanted, value),
        },
    }
}

fn is_set_literal(literal: &Literal) -> bool
    ensures { result ≡ is_set (Some (literal_value literal.now)) }
{
    match literal {
        Literal::Range(_) | Literal::Set(..) => true,
        _ => false,
    }
}

fn is_set(names: &Names, basic: &Basic) -> bool
    ensures { result ≡ is_set (basic_meaning (known names.now) basic.now) }
{
    match basic {
        Basic::Literal(literal) => is_set_literal(literal),
        Basic::Name(name) => match names.meaning(&name.text) {
            Some(Declared::Set(_)) => true,
            _ => false,
        },
    }
}

// ---- faults

/// The position of a literal that is a set, and none of another.
pub fn set_literal(literal: &Literal) -> Option<Position>
    ensures { result ≡ first (set_literals literal.now) }
{
    if is_set_literal(literal) {
        Some(position_of_literal(literal))
    } else {
        None
    }
}

/// The position of a value that is a set.
pub fn set_in(names: &Names, basic: &Basic) -> Option<Position>
    ensures { result ≡ first (sets_in (known names.now) basic.now) }
{
    if is_set(names, basic) {
        Some(position_of(basic))
    } else {
        None
    }
}

/// The position of a name that is not declared, and none of another value.
pub fn unknown_in(names: &Names, basic: &Basic) -> Option<Position>
    ensures { result ≡ first (unknown_in (known names.now) basic.now) }
{
    match basic {
        Basic::Literal(_) => None,
        Basic::Name(name) => match names.meaning(&name.text) {
            None => Some(name.position),
            Some(_) => None,
        },
    }
}

/// The position of a literal of another type than is wanted, and none of one that fits.
pub fn wrong_literal(wanted: Argument, literal: &Literal) -> Option<Position>
    ensures { result ≡ first (wrong_literals wanted literal.now) }
{
    if literal_fits(wanted, literal) {
        None
    } else {
        Some(position_of_literal(literal))
    }
}

/// The position of a value of another type than is wanted, and none of one that fits.
pub fn wrong_in(names: &Names, wanted: Argument, basic: &Basic) -> Option<Position>
    ensures { result ≡ first (wrong_in (known names.now) wanted basic.now) }
{
    if is_wanted(names, wanted, basic) {
        None
    } else {
        Some(position_of(basic))
    }
}

// ---- terms

fn literal_term(literal: &Literal) -> Term
    ensures { result ≡ value_term (literal_value literal.now) }
{
    match literal {
        Literal::Bool(true, _) => Term::Constant(1),
        Literal::Bool(false, _) => Term::Constant(0),
        Literal::Int(number) => Term::Constant(number.value),
        Literal::Range(_) => Term::Constant(0),
        Literal::Set(..) => Term::Constant(0),
    }
}

fn value_term(value: &Declared) -> Term
    ensures { result ≡ value_term value.now }
{
    match value {
        Declared::Constant(_, number) => Term::Constant(*number),
        Declared::Variable(_, var) => Term::Variable(*var),
        _ => Term::Constant(0),
    }
}

/// The constant or variable that is named, else the constant 0.
pub fn variable_of(names: &Names, name: &Name) -> Term
    ensures { result ≡ term_in (meaning_of (known names.now) name.now.text) }
{
    match names.meaning(&name.text) {
        None => Term::Constant(0),
        Some(value) => value_term(value),
    }
}

/// The constant or variable that the value is, else the constant 0.
pub fn term_of(names: &Names, basic: &Basic) -> Term
    ensures { result ≡ term_of (known names.now) basic.now }
{
    match basic {
        Basic::Literal(literal) => literal_term(literal),
        Basic::Name(name) => variable_of(names, name),
    }
}

/// The entries of the array that is named, else none.
pub fn array_of<'a>(names: &'a Names, basic: &Basic) -> &'a [Term]
    ensures { result.now ≡ terms_meant (basic_meaning (known names.now) basic.now) }
{
    match basic {
        Basic::Literal(_) => &[],
        Basic::Name(name) => match names.meaning(&name.text) {
            Some(Declared::Constants(_, entries)) => entries.as_slice(),
            Some(Declared::Array(_, entries)) => entries.as_slice(),
            _ => &[],
        },
    }
}

/// The list of the array that is named, for one more owner, else an empty list. It answers `Err` where memory runs out or no further owner
/// can be counted.
pub fn list_of(alloc: Global, names: &Names, basic: &Basic) -> Result<Shared<Term>, AllocError>
    ensures { IfOk result (λ list. list ≡ terms_meant (basic_meaning (known names.now) basic.now)) }
{
    match basic {
        Basic::Literal(_) => Shared::new(alloc, Items::new(alloc)),
        Basic::Name(name) => match names.meaning(&name.text) {
            Some(Declared::Constants(_, entries)) => entries.share(),
            Some(Declared::Array(_, entries)) => entries.share(),
            _ => Shared::new(alloc, Items::new(alloc)),
        },
    }
}

/// Whether a constant below 0 is among the entries of the array that is named.
pub fn has_negative_entry(names: &Names, basic: &Basic) -> bool
    ensures { result ≡ list_any is_negative (terms_meant (basic_meaning (known names.now) basic.now)) }
{
    match basic {
        Basic::Literal(_) => false,
        Basic::Name(name) => match names.meaning(&name.text) {
            Some(Declared::Constants(_, entries)) => entries.has_negative(),
            Some(Declared::Array(_, entries)) => entries.has_negative(),
            _ => false,
        },
    }
}

/// The terms of the values in order: 0 for one that is neither a constant nor a variable. It answers `Err` where memory runs out.
pub fn terms_of(
    alloc: Global,
    names: &Names,
    mut entries: &[Basic],
) -> Result<Items<Term>, AllocError>
    ensures { IfOk result (λ terms. terms ≡ entry_terms (known names.now) entries.now) }
{
    let mut terms = Items::new(alloc);
    while let [basic, rest @ ..] = entries {
        terms.push(term_of(names, basic))?;
        entries = rest;
    }
    Ok(terms)
}

/// The terms of the literals in order: 0 for a set. It answers `Err` where memory runs out.
pub fn literal_terms(alloc: Global, mut literals: &[Literal]) -> Result<Items<Term>, AllocError>
    ensures { IfOk result (λ terms. terms ≡ map (λ literal. value_term (literal_value literal)) literals.now) }
{
    let mut terms = Items::new(alloc);
    while let [literal, rest @ ..] = literals {
        terms.push(literal_term(literal))?;
        literals = rest;
    }
    Ok(terms)
}
