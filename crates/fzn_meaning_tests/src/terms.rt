// Terms by their values, on sets and in lists.
ghost use Rattle.std.specs.Prelude.{◌≡◌};

use crate::kinds::model_of;
use crate::rules::declared;
use fzn_builtin_rules::{
    Ends, Places, form_is_meant, form_of, outcome_of, products_of, relation_is_meant,
};
use fzn_domain::{Memory, VarId};
use fzn_list::{Items, Shared};
use fzn_meaning::{Model, Operation};
use fzn_sets::{Sets, greatest_value, is_fixed_to, is_index, least_value, may_be, term_at};
use fzn_values::{Place, Rows, Term};
use std::alloc::Global;
use std::test::*;

/// Whether the first variable may be 5 and 6, and 4 may be 4 and 5.
fn may_be_so(sets: &Sets) -> Option<[bool; 4]> {
    if sets.len() != 2 {
        return None;
    }
    let x = Term::Variable(VarId(1));
    let four = Term::Constant(4);
    Some([
        may_be(sets, x, &5),
        may_be(sets, x, &6),
        may_be(sets, four, &4),
        may_be(sets, four, &5),
    ])
}

/// The least and the greatest value of the first variable and of 4.
fn ends(sets: &Sets) -> Option<[i64; 4]> {
    if sets.len() != 2 || sets.has_empty() {
        return None;
    }
    let x = Term::Variable(VarId(1));
    let four = Term::Constant(4);
    Some([
        least_value(sets, x),
        greatest_value(sets, x),
        least_value(sets, four),
        greatest_value(sets, four),
    ])
}

/// Whether the second variable is fixed to 7 and to 6, and the first to 2.
fn are_fixed(sets: &Sets) -> Option<[bool; 3]> {
    if sets.len() != 2 || sets.has_empty() {
        return None;
    }
    let y = Term::Variable(VarId(2));
    Some([
        is_fixed_to(sets, y, 7),
        is_fixed_to(sets, y, 6),
        is_fixed_to(sets, Term::Variable(VarId(1)), 2),
    ])
}

/// What three times the first variable less the second gives at least and at most, and the widest of these two.
fn ends_of_sum(sets: &Sets) -> Option<(i128, i128, i64)> {
    if sets.len() != 2 || sets.has_empty() {
        return None;
    }
    let first = products_of(sets, place(3, Term::Variable(VarId(1))));
    let second = products_of(sets, place(-1, Term::Variable(VarId(2))));
    let ends = Ends::of_none().plus(first).plus(second);
    Some((ends.least, ends.greatest, ends.widest))
}

/// Whether terms are told of the sets of x, which is 2, 5 or 9, and of y, which is 7.
fn are_told(sets: &Sets) -> bool {
    may_be_so(sets) == Some([true, false, true, false])
        && ends(sets) == Some([2, 9, 4, 4])
        && are_fixed(sets) == Some([true, false, false])
        && ends_of_sum(sets) == Some((-1, 20, 21))
}

fn are_terms_told(alloc: Global) -> Result<bool, Fail> {
    let model = model_of(alloc, "var {2,5,9}: x; var 7..7: y; solve satisfy;")?;
    let sets = declared(alloc, &model)?;
    Ok(are_told(&sets))
}

#[test]
fn terms_on_sets(rt: HostRuntime) -> Result<(), Fail> {
    assert!(rt; are_terms_told(rt.alloc())?);
    Ok(())
}

#[test]
fn terms_in_lists(rt: HostRuntime) {
    let y = Term::Variable(VarId(2));
    let five = Term::Constant(5);
    let terms = [five, y, five];
    assert!(rt; term_at(&terms, &1) == five && term_at(&terms, &2) == y);
    assert!(rt; is_index(3, &1) && is_index(3, &3) && !is_index(3, &0) && !is_index(3, &4));
    assert!(rt; y.value(&[8, 9]) == 9 && five.value(&[8, 9]) == 5);
    assert!(rt; y.number() == 0 && five.number() == 5);
}

/// Whether a row of two constants has them.
fn is_row(alloc: Global) -> Result<bool, Memory> {
    let constants = [Term::Constant(4), Term::Constant(-2)];
    let terms = Items::from_slice(alloc, constants.as_slice())?;
    let rows = Rows::new(Shared::new(alloc, terms)?);
    Ok(rows.constants() == constants.as_slice())
}

#[test]
fn rows_are_their_constants(rt: HostRuntime) -> Result<(), Fail> {
    assert!(rt; is_row(rt.alloc())?);
    Ok(())
}

fn place(coefficient: i64, term: Term) -> Place
    ensures { result ≡ record { coefficient = coefficient; term = term } }
{
    Place { coefficient, term }
}

#[test]
fn places_of_a_form(rt: HostRuntime) {
    let x = Term::Variable(VarId(1));
    let five = Term::Constant(5);
    let places = Places::Difference(x, five);
    assert!(rt; places.len() == 2);
    assert!(rt; places.place(0) == place(1, x) && places.place(1) == place(-1, five));
}

/// The bound of each constraint's form.
fn bounds_of_forms(alloc: Global, model: &Model) -> Result<String, Memory> {
    let mut text = String::new(alloc);
    for constraint in model.constraints.as_slice() {
        match form_of(constraint) {
            Some(form) => write!(text, "{} ", form.bound)?,
            None => text.push_str("none ")?,
        }
    }
    Ok(text)
}

const FORMS: &str =
    "var bool: a; var bool: b; var 0..5: x; constraint bool_clause([a,b],[a,b,b]); constraint int_lin_le([2],[x],7); constraint bool_not(a,b); constraint int_abs(x,x); solve satisfy;";

#[test]
fn forms_of_constraints(rt: HostRuntime) -> Result<(), Fail> {
    let model = model_of(rt.alloc(), FORMS)?;
    assert!(rt; bounds_of_forms(rt.alloc(), &model)?.as_str() == "2 7 1 none ");
    Ok(())
}

#[test]
fn rules_know_what_is_meant(rt: HostRuntime) {
    assert!(rt; (form_is_meant(), relation_is_meant()) == ((), ()));
}

#[test]
fn quotients_round_towards_0(rt: HostRuntime) {
    assert!(rt; outcome_of(Operation::Quotient, &-7, &2) == Some(-3));
    assert!(rt; outcome_of(Operation::Remainder, &-7, &2) == Some(-1));
    assert!(rt; outcome_of(Operation::Quotient, &-7, &0).is_none());
}
