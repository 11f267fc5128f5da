// The variable that decides another one by a constraint.
ghost use Rattle.std.specs.Prelude.{◌≡◌, ◌*◌, ◌≤◌, ℤ, length, IfSome};
ghost use Rattle.std.specs.List.{list_all};
ghost use Rattle.std.specs.Option.{option_map};
ghost use Rattle.fzn_list.specs.Limits.{longest};
ghost use Rattle.fzn_builtin_rules.specs.Borrowed.{places_in, form_in};
ghost use Rattle.fzn_builtin_rules.specs.Form.{form_of};
ghost use Rattle.fzn_dependence.specs.Decided.{another_in, another_of, form_decider, form_value, is_constant, decider_in, decided_in, AreBounded, is_place_of};
ghost use Rattle.fzn_dependence.specs.Dependence.{dependent_at};

use crate::dependence::{Affine, Dependence};
use fzn_builtin_rules::{Form, Places, form_of};
use fzn_domain::VarId;
use fzn_meaning::{Comparison, Constraint};
use fzn_values::Term;

/// A variable that decides another one.
#[derive(Clone, Copy)]
pub struct Decider<'a> {
    /// The variable.
    pub by: VarId,
    /// What the other one is at each value of it.
    pub dependence: Dependence<'a>,
}

/// The variable that decides this one by the constraint: the index of an element of constants, whose value it is; or the only other
/// variable of a form, whose switch it is, or which is a sum that is its bound.
pub fn decider_of<'a>(var: VarId, constraint: &'a Constraint) -> Option<Decider<'a>>
    requires form { IfSome (form_of constraint.now) AreBounded }
    ensures by { option_map (λ found. found.by) result ≡ decider_in var constraint.now }
    ensures value { IfSome result (λ found. (value : ℤ) → dependent_at found.dependence value ≡ decided_in found.by value constraint.now) }
{
    match constraint {
        Constraint::Element {
            index: Term::Variable(index),
            entries,
            value: Term::Variable(value),
        } => if value.0 == var.0 && are_constants(entries.as_slice()) {
            Some(Decider {
                by: *index,
                dependence: Dependence::Entry(entries.as_slice()),
            })
        } else {
            None
        },
        _ => form_decider(var, &form_of(constraint)?),
    }
}

fn are_constants(entries: &[Term]) -> bool
    ensures { result ≡ list_all is_constant entries.now }
{
    entries
        .iter()
        .all(|entry| matches!(entry, Term::Constant(_)))
}

fn form_decider<'a>(var: VarId, form: &Form<'_>) -> Option<Decider<'a>>
    requires form { AreBounded (form_in form.now) }
    ensures by { option_map (λ found. found.by) result ≡ form_decider var (form_in form.now) }
    ensures value { IfSome result (λ found. (value : ℤ) → dependent_at found.dependence value ≡ form_value found.by value (form_in form.now)) }
{
    let by = another_of(var, var, &form.places)?;
    let sum = Affine::of(by, &form.places);
    match form.switch {
        Some(switch) => {
            if is_place_of(switch, var) && another_of(by, by, &form.places).is_none() {
                let dependence = Dependence::Switch(sum, form.comparison, form.bound);
                Some(Decider { by, dependence })
            } else {
                None
            }
        }
        None => {
            if matches!(form.comparison, Comparison::Equal)
                && another_of(by, var, &form.places).is_none()
                && sum.besides != 0
            {
                let dependence = Dependence::Equation(sum, form.bound);
                Some(Decider { by, dependence })
            } else {
                None
            }
        }
    }
}

/// The first variable of the places that is neither of these two.
fn another_of(one: VarId, two: VarId, places: &Places<'_>) -> Option<VarId>
    requires few { length (places_in places.now) ≤ 2 * longest }
    ensures { result ≡ another_of one two (places_in places.now) }
{
    for i in 0..places.len() {
        if let Some(var) = another_in(one, two, places.place(i).term) {
            return Some(var);
        }
    }
    None
}

/// The variable of the term, unless it is one of these two.
fn another_in(one: VarId, two: VarId, term: Term) -> Option<VarId>
    ensures { result ≡ another_in one two term }
{
    match term {
        Term::Constant(_) => None,
        Term::Variable(var) => if var.0 == one.0 || var.0 == two.0 {
            None
        } else {
            Some(var)
        },
    }
}

/// Whether the term is this variable.
pub fn is_place_of(place: Term, var: VarId) -> bool
    ensures { result ≡ is_place_of var place }
{
    match place {
        Term::Constant(_) => false,
        Term::Variable(other) => other.0 == var.0,
    }
}
