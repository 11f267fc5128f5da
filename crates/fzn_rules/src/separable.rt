// The rule `row`: what the variables and the tables weigh at least leaves no way to meet a separable row.
ghost use Rattle.std.specs.Prelude.{◌≡◌, ◌↔◌, ◌*◌, ◌+◌, ◌^◌, ◌<◌, ◌≤◌, IsTrue, Some, false, length, unsigned_abs, IfSome};
ghost use Rattle.fzn_domain.specs.IntSet.{size};
ghost use Rattle.fzn_domain.specs.Narrow.{is_some_empty};
ghost use Rattle.fzn_meaning.specs.Meaning.{IsWellFormedConstraint};
ghost use Rattle.fzn_meaning.specs.Separable.{IsCoefficient, IsWeightList, IsTablePart, IsPart, IsSeparableRow};
ghost use Rattle.fzn_rules.specs.Separable.{IsLeastOf, IsVariableWeightIn, IsTableWeightIn, IsLeastWeight, IsSeparableMet, IsRowMet};
ghost use Rattle.fzn_rules.specs.Least.{lesser, IsListedWeightIn, IsProductIn, IsRowWeight};

use crate::global_rows::is_row_out;
use crate::light::{is_light, row_weight};
use fzn_domain::Domain;
use fzn_meaning::{Constraint, Listed, Part, Row, TablePart, VariablePart, product, weighed};
use fzn_sets::Sets;

/// Whether some part of the row has no value, or no row of its table, that is present and not barred, or else what the parts weigh at least
/// at these is above the bound together. `false` for a constraint that is no row. It looks at each weight once, and at each number of a
/// table once at most. No set may be empty.
#[tactic(auto, unfolding(fzn_meaning::specs::Meaning::IsWellFormedConstraint))]
pub fn is_row_met(constraint: &Constraint, sets: &Sets) -> bool
    requires constraint { IsWellFormedConstraint (length sets.now.present) constraint.now }
    requires nonempty { is_some_empty sets.now.present ≡ false }
    ensures { IsTrue result ↔ IsRowMet constraint.now sets.now.present }
{
    match constraint {
        Constraint::Row(row) => is_separable_met(row, sets),
        _ => false,
    }
}

fn is_separable_met(row: &Row, sets: &Sets) -> bool
    requires row { IsSeparableRow (length sets.now.present) row.now }
    requires nonempty { is_some_empty sets.now.present ≡ false }
    ensures { IsTrue result ↔ IsSeparableMet row.now sets.now.present }
{
    let mut sum: i128 = 0;
    for part in row.parts.as_slice() {
        match least_weight(part, sets) {
            None => return true,
            Some(least) => sum += least,
        }
    }
    (row.bound as i128) < sum
}

/// What the part weighs at least at the values or rows that are present and not barred; `None` where there is none. It lies at most
/// 10^12 * 2^63 + 10^18 from 0. There is a set for each variable of the part, and none is empty.
pub fn least_weight(part: &Part, sets: &Sets) -> Option<i128>
    requires part { IsPart (length sets.now.present) part.now }
    requires nonempty { is_some_empty sets.now.present ≡ false }
    ensures least { IsLeastWeight sets.now.present part.now result }
    ensures bounded { IfSome result (λ least. unsigned_abs least ≤ 1000000000000 * 2 ^ 63 + 1000000000000000000) }
{
    match part {
        Part::Variable(part) => least_at_values(part, sets.domain(part.var)),
        Part::Table(table) => least_at_rows(table, sets),
    }
}

/// What the variable of the part weighs at least at the values of the set that are not barred; `None` where there is none. The set has a
/// value.
pub fn least_at_values(part: &VariablePart, set: &Domain) -> Option<i128>
    requires coefficient { IsCoefficient part.now.coefficient }
    requires listed { IfSome part.now.listed IsWeightList }
    requires some { 0 < size set.now }
    ensures least { IsLeastOf (IsVariableWeightIn set.now part.now) result }
    ensures bounded { IfSome result (λ least. unsigned_abs least ≤ 1000000000000 * 2 ^ 63 + 1000000000000000000) }
{
    match &part.listed {
        None => Some(least_product(part.coefficient, set)),
        Some(listed) => least_listed(part.coefficient, listed, set),
    }
}

/// The least product of the coefficient and a value of the set.
fn least_product(coefficient: i64, set: &Domain) -> i128
    requires coefficient { IsCoefficient coefficient }
    requires some { 0 < size set.now }
    ensures least { IsLeastOf (IsProductIn set.now coefficient) (Some result) }
    ensures bounded { unsigned_abs result ≤ 1000000000000 * 2 ^ 63 }
{
    if coefficient < 0 {
        product(coefficient, set.max())
    } else {
        product(coefficient, set.min())
    }
}

/// The least weight of the values of the set that are listed.
fn least_listed(coefficient: i64, listed: &Listed, set: &Domain) -> Option<i128>
    requires coefficient { IsCoefficient coefficient }
    requires listed { IsWeightList listed.now }
    ensures least { IsLeastOf (IsListedWeightIn set.now coefficient listed.now) result }
    ensures bounded { IfSome result (λ least. unsigned_abs least ≤ 1000000000000 * 2 ^ 63 + 1000000000000000000) }
{
    let mut least = None;
    for i in 0..listed.weights.len() {
        let value = listed.low + i as i64;
        if set.contains(value) {
            let weight = weighed(coefficient, value, listed.weights.as_slice()[i]);
            least = lesser(least, weight);
        }
    }
    least
}

/// The least weight of the rows that are not barred, and whose values are all present. A row is looked at only where it would be lighter.
fn least_at_rows(table: &TablePart, sets: &Sets) -> Option<i128>
    requires { IsTablePart (length sets.now.present) table.now }
    ensures least { IsLeastOf (IsTableWeightIn sets.now.present table.now) result }
    ensures bounded { IfSome result (λ least. unsigned_abs least ≤ 1000000000000 * 2 ^ 63 + 1000000000000000000) }
{
    let mut least = None;
    for r in 0..table.weights.len() {
        let weight = row_weight(table, r);
        if is_light(weight, least) {
            least = lesser(least, weight_at_row(table, sets, r));
        }
    }
    least
}

/// What row r weighs, counted from 0; `None` where it is barred, or a value of it is not present.
fn weight_at_row(table: &TablePart, sets: &Sets, r: usize) -> Option<i128>
    requires table { IsTablePart (length sets.now.present) table.now }
    requires row { r < length table.now.weights }
    ensures weight { IsLeastOf (IsRowWeight sets.now.present table.now r) result }
    ensures bounded { IfSome result (λ weight. unsigned_abs weight ≤ 1000000000000 * 2 ^ 63 + 1000000000000000000) }
{
    match table.weights.as_slice()[r] {
        None => None,
        Some(weight) => {
            if is_row_out(sets, table.places.as_slice(), table.rows.constants(), r) {
                None
            } else {
                Some(weight as i128)
            }
        }
    }
}

/// The lesser of two numbers that may be there.
fn lesser(first: Option<i128>, second: Option<i128>) -> Option<i128>
    ensures { result ≡ lesser first second }
{
    match (first, second) {
        (Some(a), Some(b)) => Some(if b < a { b } else { a }),
        (None, other) => other,
        (one, None) => one,
    }
}
