// The rule `lin`: the ends of the sum of a constraint's form leave no way to meet it.
ghost use Rattle.std.specs.Prelude.{◌≡◌, ◌↔◌, IsTrue, false, length};
ghost use Rattle.fzn_domain.specs.Narrow.{is_some_empty};
ghost use Rattle.fzn_meaning.specs.Meaning.{IsWellFormedConstraint};
ghost use Rattle.fzn_builtin_rules.specs.Linear.{NoneCompares, AllCompare};
ghost use Rattle.fzn_builtin_rules.specs.Form.{IsFormMet, IsLinMet, Fits};
ghost use Rattle.fzn_builtin_rules.specs.Borrowed.{form_in};

use crate::ends::{Ends, ends_of};
use crate::form::{Form, form_of};
use fzn_meaning::{Comparison, Constraint};
use fzn_sets::{Sets, is_fixed_to};

/// Whether the ends of the sum of the constraint's form leave no way to meet it. No set may be empty. `false` for a constraint without a
/// form.
pub fn is_lin_met(constraint: &Constraint, sets: &Sets) -> bool
    requires constraint { IsWellFormedConstraint (length sets.now.present) constraint.now }
    requires nonempty { is_some_empty sets.now.present ≡ false }
    ensures { IsTrue result ↔ IsLinMet constraint.now sets.now.present }
{
    match form_of(constraint) {
        None => false,
        Some(form) => is_form_met(&form, sets),
    }
}

/// Whether the ends of the form's sum leave no way for it to hold.
fn is_form_met(form: &Form<'_>, sets: &Sets) -> bool
    requires form { Fits (length sets.now.present) (form_in form.now) }
    requires nonempty { is_some_empty sets.now.present ≡ false }
    ensures { IsTrue result ↔ IsFormMet (form_in form.now) sets.now.present }
{
    let ends = ends_of(sets, &form.places);
    match form.switch {
        None => none_compares(form.comparison, ends, form.bound),
        Some(switch) if is_fixed_to(sets, switch, 1) => {
            none_compares(form.comparison, ends, form.bound)
        }
        Some(switch) => {
            is_fixed_to(sets, switch, 0) && all_compare(form.comparison, ends, form.bound)
        }
    }
}

/// Whether no sum between the ends compares so with the bound.
fn none_compares(comparison: Comparison, ends: Ends, bound: i64) -> bool
    ensures { IsTrue result ↔ NoneCompares comparison ends.least ends.greatest bound }
{
    let bound = bound as i128;
    match comparison {
        Comparison::AtMost => bound < ends.least,
        Comparison::Equal => bound < ends.least || ends.greatest < bound,
        Comparison::NotEqual => ends.least == bound && ends.greatest == bound,
    }
}

/// Whether every sum between the ends compares so with the bound.
fn all_compare(comparison: Comparison, ends: Ends, bound: i64) -> bool
    ensures { IsTrue result ↔ AllCompare comparison ends.least ends.greatest bound }
{
    let bound = bound as i128;
    match comparison {
        Comparison::AtMost => ends.greatest <= bound,
        Comparison::Equal => ends.least == bound && ends.greatest == bound,
        Comparison::NotEqual => bound < ends.least || ends.greatest < bound,
    }
}
