// Separable rows: a sum of what each variable weighs at its value, and each table at its row, which is at most a bound.
ghost use Rattle.std.specs.Prelude.{◌≡◌, ◌↔◌, ◌+◌, ◌*◌, ◌^◌, ◌≤◌, ◌-ℤ◌, ◌*ℤ◌, IsTrue, IfSome, length, unsigned_abs};
ghost use Rattle.fzn_meaning.specs.Separable.{entry_in, listed_at, weighed, weight_at, row_weight, weight_of, RowHolds, IsWithinLimit, IsCoefficient, IsWeightList, IsTablePart, IsPart, IsSeparableRow};
ghost use Rattle.fzn_values.specs.Term.{values_of};

use fzn_domain::VarId;
use fzn_list::{Items, Shared};
use fzn_values::{Entries, Rows, Term, is_row};

/// A number for each of the numbers that follow one another from the first one, or none for one that is barred.
#[derive(Debug, Drop)]
pub struct Listed {
    /// The first number, within the limits of a value.
    pub low: i64,
    /// What is listed for it and for those behind it, at most 65,536 in all; each from -10^18 to 10^18.
    pub weights: Items<Option<i64>>,
}

/// What a variable weighs at each value: its coefficient times the value, and what is listed for the value. Where a list stands, a value
/// that it does not cover is barred. So a part takes the room of what was listed for it, however many values its variable has.
#[derive(Debug, Drop)]
pub struct VariablePart {
    /// The variable.
    pub var: VarId,
    /// From -10^12 to 10^12.
    pub coefficient: i64,
    /// What is listed, if anything is.
    pub listed: Option<Listed>,
}

/// What a table weighs at the row that equals its places: what is listed for the row. Rows that are equal weigh the same.
#[derive(Drop)]
pub struct TablePart {
    /// The places, of which there is one.
    pub places: Shared<Term>,
    /// The rows, one after another, each as long as the places.
    pub rows: Rows,
    /// A number for each row, from -10^18 to 10^18, or none for one that is barred; the same for rows that are equal.
    pub weights: Items<Option<i64>>,
}

/// A part of a row.
#[derive(Drop)]
pub enum Part {
    /// Of a variable.
    Variable(VariablePart),
    /// Of a table.
    Table(TablePart),
}

/// No variable has a barred value, each table has a row that equals its places and is not barred, and what all weigh is at most the bound
/// together. A variable without a part weighs 0.
#[derive(Drop)]
pub struct Row {
    /// At most 100,000 parts, no two of one variable.
    pub parts: Items<Part>,
    /// From -10^18 to 10^18.
    pub bound: i64,
}

/// Whether the values meet the row.
pub(crate) fn meets_row(row: &Row, values: &[i64]) -> bool
    requires { IsSeparableRow (length values.now) row.now }
    ensures { IsTrue result ↔ RowHolds row.now values.now }
{
    let mut total: i128 = 0;
    for part in row.parts.as_slice() {
        match weight_of(part, values) {
            None => return false,
            Some(weight) => total += weight,
        }
    }
    total <= row.bound as i128
}

/// What the part weighs at these values; `None` where it is barred there.
fn weight_of(part: &Part, values: &[i64]) -> Option<i128>
    requires part { IsPart (length values.now) part.now }
    ensures value { result ≡ weight_of values.now part.now }
    ensures bounded { IfSome result (λ weight. unsigned_abs weight ≤ 1000000000000 * 2 ^ 63 + 1000000000000000000) }
{
    match part {
        Part::Variable(part) => weight_at(part, &values[part.var.0 - 1]),
        Part::Table(table) => row_weight(table, values),
    }
}

/// What is listed for the first row that equals the values of the places; `None` where no row does, or where it is barred.
fn row_weight(table: &TablePart, values: &[i64]) -> Option<i128>
    requires part { IsTablePart (length values.now) table.now }
    ensures value { result ≡ row_weight (values_of values.now table.now.places) table.now.rows table.now.weights }
    ensures bounded { IfSome result (λ weight. unsigned_abs weight ≤ 1000000000000 * 2 ^ 63 + 1000000000000000000) }
{
    let places = Entries::new(&table.places, values);
    for r in 0..table.weights.len() {
        if is_row(&places, table.rows.constants(), r) {
            return entry_number(table.weights.as_slice()[r]);
        }
    }
    None
}

fn entry_number(entry: Option<i64>) -> Option<i128>
    ensures { result ≡ entry }
{
    match entry {
        None => None,
        Some(weight) => Some(weight as i128),
    }
}

/// What the variable of the part weighs at a value, which is its coefficient times the value and what is listed for it; `None` where the
/// value is barred.
pub fn weight_at(part: &VariablePart, value: &i64) -> Option<i128>
    requires coefficient { IsCoefficient part.now.coefficient }
    requires listed { IfSome part.now.listed IsWeightList }
    ensures value { result ≡ weight_at part.now value.now }
    ensures bounded { IfSome result (λ weight. unsigned_abs weight ≤ 1000000000000 * 2 ^ 63 + 1000000000000000000) }
{
    weighed(part.coefficient, *value, listed_at(&part.listed, value))
}

/// The coefficient times the value, and what is listed for it.
pub fn weighed(coefficient: i64, value: i64, entry: Option<i64>) -> Option<i128>
    requires coefficient { IsCoefficient coefficient }
    requires entry { IfSome entry IsWithinLimit }
    ensures value { result ≡ weighed coefficient value entry }
    ensures bounded { IfSome result (λ weight. unsigned_abs weight ≤ 1000000000000 * 2 ^ 63 + 1000000000000000000) }
{
    match entry {
        None => None,
        Some(weight) => Some(product(coefficient, value) + weight as i128),
    }
}

/// The coefficient times the value.
pub fn product(coefficient: i64, value: i64) -> i128
    requires { IsCoefficient coefficient }
    ensures value { result ≡ coefficient *ℤ value }
    ensures bounded { unsigned_abs result ≤ 1000000000000 * 2 ^ 63 }
{
    coefficient as i128 * value as i128
}

/// What is listed for a value; 0 for each where there is no list.
pub fn listed_at(listed: &Option<Listed>, value: &i64) -> Option<i64>
    requires { IfSome listed.now IsWeightList }
    ensures value { result ≡ listed_at listed.now value.now }
    ensures within { IfSome result IsWithinLimit }
{
    match listed {
        None => Some(0),
        Some(listed) => entry_at(listed, value),
    }
}

fn entry_at(listed: &Listed, value: &i64) -> Option<i64>
    requires { IsWeightList listed.now }
    ensures value { result ≡ entry_in listed.now.weights (value.now -ℤ listed.now.low) }
    ensures within { IfSome result IsWithinLimit }
{
    if *value < listed.low {
        return None;
    }
    let distance = *value as i128 - listed.low as i128;
    if distance >= listed.weights.len() as i128 {
        return None;
    }
    listed.weights.as_slice()[distance as usize]
}
