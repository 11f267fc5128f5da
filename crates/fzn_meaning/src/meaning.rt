// Whether values meet a constraint, family by family.
#![tactic(auto, unfolding(crate::specs::Meaning::Meets, crate::specs::Meaning::IsWellFormedConstraint))]

ghost use Rattle.std.specs.Prelude.{◌≡◌, ◌↔◌, IsTrue, length};
ghost use Rattle.fzn_meaning.specs.Meaning.{Meets, IsWellFormedConstraint};
ghost use Rattle.fzn_meaning.specs.Families.{family_of, compared, computed, boolean, global};

use crate::arithmetic::{is_arithmetic, is_int_abs};
use crate::boolean::{is_array_bool_xor, is_bool_clause, is_bool_xor, is_gated};
use crate::comparison::{is_comparison, switch_value};
use crate::constraint::Constraint;
use crate::element::is_element;
use crate::extremum::is_extremum;
use crate::linear::{is_linear, is_switched_linear};
use crate::relation::Comparison;
use crate::row::meets_row;
use crate::set::is_in_set;
use crate::sum::sum_at;
use fzn_values::{Entries, is_all_different, is_circuit, is_cumulative, is_inverse, is_table};

/// Whether the values, one for each variable in order, meet the constraint.
pub fn holds(constraint: &Constraint, values: &[i64]) -> bool
    requires { IsWellFormedConstraint (length values.now) constraint.now }
    ensures { IsTrue result ↔ Meets constraint.now values.now }
{
    match constraint {
        Constraint::Compare { .. }
        | Constraint::Linear { .. }
        | Constraint::BoolLinEq { .. }
        | Constraint::SetIn { .. } => holds_compared(constraint, values),
        Constraint::Arithmetic { .. }
        | Constraint::IntAbs { .. }
        | Constraint::Extremum { .. }
        | Constraint::Element { .. } => holds_computed(constraint, values),
        Constraint::BoolNot { .. }
        | Constraint::BoolToInt { .. }
        | Constraint::Gated { .. }
        | Constraint::BoolXor { .. }
        | Constraint::ArrayBoolXor { .. }
        | Constraint::BoolClause { .. } => holds_boolean(constraint, values),
        Constraint::AllDifferent { .. }
        | Constraint::Table { .. }
        | Constraint::Cumulative { .. }
        | Constraint::Circuit { .. }
        | Constraint::Inverse { .. } => holds_global(constraint, values),
        Constraint::Row(row) => meets_row(row, values),
    }
}

fn holds_compared(constraint: &Constraint, values: &[i64]) -> bool
    requires well_formed { IsWellFormedConstraint (length values.now) constraint.now }
    requires family { family_of constraint.now ≡ compared }
    ensures { IsTrue result ↔ Meets constraint.now values.now }
{
    match constraint {
        Constraint::Compare {
            relation,
            left,
            right,
            switch,
        } => is_comparison(
            *relation,
            left.value(values),
            right.value(values),
            switch_value(*switch, values),
        ),
        Constraint::Linear {
            sum,
            comparison,
            bound,
            switch,
        } => is_switched_linear(
            *comparison,
            sum_at(sum, values),
            *bound,
            switch_value(*switch, values),
        ),
        Constraint::BoolLinEq { sum, total } => is_linear(
            Comparison::Equal,
            sum_at(sum, values),
            total.value(values),
        ),
        Constraint::SetIn { term, set, switch } => is_in_set(
            term.value(values),
            set,
            switch_value(*switch, values),
        ),
        _ => false, // no constraint of this family
    }
}

fn holds_computed(constraint: &Constraint, values: &[i64]) -> bool
    requires well_formed { IsWellFormedConstraint (length values.now) constraint.now }
    requires family { family_of constraint.now ≡ computed }
    ensures { IsTrue result ↔ Meets constraint.now values.now }
{
    match constraint {
        Constraint::Arithmetic {
            operation,
            left,
            right,
            result,
        } => is_arithmetic(
            *operation,
            left.value(values),
            right.value(values),
            result.value(values),
        ),
        Constraint::IntAbs { of, result } => is_int_abs(of.value(values), result.value(values)),
        Constraint::Extremum {
            extreme,
            entries,
            result,
        } => is_extremum(
            *extreme,
            &Entries::new(entries, values),
            result.value(values),
        ),
        Constraint::Element {
            index,
            entries,
            value,
        } => is_element(
            index.value(values),
            &Entries::new(entries, values),
            value.value(values),
        ),
        _ => false, // no constraint of this family
    }
}

fn holds_boolean(constraint: &Constraint, values: &[i64]) -> bool
    requires well_formed { IsWellFormedConstraint (length values.now) constraint.now }
    requires family { family_of constraint.now ≡ boolean }
    ensures { IsTrue result ↔ Meets constraint.now values.now }
{
    match constraint {
        Constraint::BoolNot { left, right } => left.value(values) != right.value(values),
        Constraint::BoolToInt { boolean, integer } => boolean.value(values)
            == integer.value(values),
        Constraint::Gated {
            gate,
            inputs,
            result,
        } => is_gated(*gate, &Entries::new(inputs, values), result.value(values)),
        Constraint::BoolXor {
            left,
            right,
            result,
        } => is_bool_xor(
            left.value(values),
            right.value(values),
            result.value(values),
        ),
        Constraint::ArrayBoolXor { inputs } => is_array_bool_xor(&Entries::new(inputs, values)),
        Constraint::BoolClause { positive, negative } => is_bool_clause(
            &Entries::new(positive, values),
            &Entries::new(negative, values),
        ),
        _ => false, // no constraint of this family
    }
}

fn holds_global(constraint: &Constraint, values: &[i64]) -> bool
    requires well_formed { IsWellFormedConstraint (length values.now) constraint.now }
    requires family { family_of constraint.now ≡ global }
    ensures { IsTrue result ↔ Meets constraint.now values.now }
{
    match constraint {
        Constraint::AllDifferent { places } => is_all_different(&Entries::new(places, values)),
        Constraint::Table { places, rows } => is_table(
            &Entries::new(places, values),
            rows.constants(),
        ),
        Constraint::Cumulative {
            starts,
            durations,
            uses,
            capacity,
        } => is_cumulative(
            &Entries::new(starts, values),
            &Entries::new(durations, values),
            &Entries::new(uses, values),
            capacity.value(values),
        ),
        Constraint::Circuit { successors } => is_circuit(&Entries::new(successors, values)),
        Constraint::Inverse { forward, backward } => is_inverse(
            &Entries::new(forward, values),
            &Entries::new(backward, values),
        ),
        _ => false, // no constraint of this family
    }
}
