// What the rows of a table weigh, by their entries.
ghost use Rattle.std.specs.Prelude.{◌≡◌, ◌⊎◌, ◌+◌, ◌*◌, ◌<◌, ◌≤◌, ◌-ℤ◌, true, false, pos, drop, length, if◌then◌else◌, slice_index_or, unsigned_abs, IfOk, IfErr, IfSome, Some, None};
ghost use Rattle.std.specs.List.{All, list_all};
ghost use Rattle.fzn_list.specs.Limits.{longest};
ghost use Rattle.fzn_domain.specs.Limits.{IsInLimits};
ghost use Rattle.fzn_values.specs.Term.{numbers_in, IsTerm};
ghost use Rattle.fzn_meaning.specs.Meaning.{AreTerms};
ghost use Rattle.fzn_meaning.specs.Separable.{IsWeightList};
ghost use Rattle.fzn_meaning.specs.Solutions.{declared_sets};
ghost use Rattle.fzn_cited.specs.declared.fault.DeriveFault.TheVariants.{Memory, NotDerived};
ghost use Rattle.fzn_weights.specs.Prices.{price_at, are_prices};
ghost use Rattle.fzn_weights.specs.Limits.{is_entry_within};
ghost use Rattle.fzn_weights.specs.Moves.{moved_from};
ghost use Rattle.fzn_weights.specs.Tables.{may_be, is_declared_row, blank_weights, blank_table, weights_raised};
ghost use Rattle.fzn_weights.specs.Amount.{amount_at, IsLimitedAmount};

use crate::limits::plus;
use crate::moves::declared_set;
use crate::prices::{less_price, price_at};
use fzn_cited::DeriveFault;
use fzn_list::{Items, Shared};
use fzn_meaning::{Listed, TablePart, Var, VariablePart, listed_at, weight_at};
use fzn_values::{Rows, Term};
use std::alloc::{AllocError, Global};

/// What is added to the weight of a row by its entry at a column.
#[derive(Clone, Copy)]
pub enum Amount<'a> {
    /// The price of the entry.
    Price(&'a i64, &'a [i64]),
    /// What a variable weighs at the entry.
    Weight(&'a VariablePart),
}

impl<'a> Amount<'a> {
    /// What is added where the entry is this one; `None` where it is barred.
    fn at(&self, entry: &i64) -> Option<i128>
        requires amount { IsLimitedAmount self.now }
        requires entry { unsigned_abs entry.now ≤ 10000000000 }
        ensures value { result ≡ amount_at self.now entry.now }
        ensures bounded { IfSome result (λ weight. unsigned_abs weight ≤ 10000000000000000000000000000000) }
    {
        match self {
            Amount::Price(low, prices) => Some(price_at(low, prices, entry)),
            Amount::Weight(part) => weight_at(part, entry),
        }
    }
}

/// What was listed for each of so many values from the first one on, less its price, unless one of these leaves the limits.
pub fn lowered(
    alloc: Global,
    old: &Option<Listed>,
    first: &i64,
    count: usize,
    low: &i64,
    prices: &[i64],
) -> Result<Items<Option<i64>>, DeriveFault>
    requires old { IfSome old.now IsWeightList }
    requires first { unsigned_abs first.now ≤ 1000000000 }
    requires few { count ≤ 65536 }
    requires prices { are_prices low.now prices.now ≡ true }
    ensures ok { IfOk result (λ entries. entries ≡ moved_from (λ value. Some (pos 0 -ℤ price_at low.now prices.now value)) first.now count old.now) }
    ensures within { IfOk result (λ entries. list_all is_entry_within entries ≡ true) }
    ensures err { IfErr result (λ fault. (fault ≡ Memory) ⊎ ((fault ≡ NotDerived) × (list_all is_entry_within (moved_from (λ value. Some (pos 0 -ℤ price_at low.now prices.now value)) first.now count old.now) ≡ false))) }
{
    let mut entries = Items::new(alloc);
    for i in 0..count {
        let value = *first + i as i64;
        let less = less_price(low, prices, &value);
        let entry = plus(listed_at(old, &value), Some(less))?;
        entries.push(entry)?;
    }
    Ok(entries)
}

/// What was listed for each row, and what more it weighs by its entry at the column, unless one of these leaves the limits.
pub fn weights_raised(
    alloc: Global,
    part: &TablePart,
    column: usize,
    more: &Amount<'_>,
) -> Result<Items<Option<i64>>, DeriveFault>
    requires numbers { All IsInLimits part.now.rows }
    requires few { length part.now.weights * length part.now.places ≤ longest }
    requires column { column ≤ longest }
    requires more { IsLimitedAmount more.now }
    ensures ok { IfOk result (λ weights. weights ≡ weights_raised (amount_at more.now) column (length part.now.places) part.now.rows part.now.weights) }
    ensures within { IfOk result (λ weights. list_all is_entry_within weights ≡ true) }
    ensures err { IfErr result (λ fault. (fault ≡ Memory) ⊎ ((fault ≡ NotDerived) × (list_all is_entry_within (weights_raised (amount_at more.now) column (length part.now.places) part.now.rows part.now.weights) ≡ false))) }
{
    let rows = part.rows.constants();
    let mut weights = Items::new(alloc);
    for r in 0..part.weights.len() {
        let entry = number_at(rows, r * part.places.len() + column);
        let weight = plus(part.weights.as_slice()[r], more.at(&entry))?;
        weights.push(weight)?;
    }
    Ok(weights)
}

/// The number of the term there, and 0 where there is none.
fn number_at(terms: &[Term], place: usize) -> i64
    ensures { result ≡ slice_index_or (numbers_in terms.now) place (pos 0) }
{
    match terms.get(place) {
        None => 0,
        Some(term) => term.number(),
    }
}

/// The part of a table, in which each row weighs 0, and one that has an entry that its place may not have is barred.
pub fn blank_table(
    alloc: Global,
    vars: &[Var],
    places: &Shared<Term>,
    rows: &Rows,
) -> Result<TablePart, AllocError>
    requires places { AreTerms (length vars.now) places.now }
    requires some { 0 < length places.now }
    ensures { IfOk result (λ part. part ≡ blank_table (declared_sets vars.now) places.now rows.now) }
{
    let count = rows.constants().len() / places.len();
    let weights = blank_weights(alloc, vars, places.as_slice(), rows.constants(), count)?;
    Ok(TablePart {
        places: places.share()?,
        rows: rows.share()?,
        weights,
    })
}

/// 0 for each of so many rows, and none for one that has an entry that its place may not have.
fn blank_weights(
    alloc: Global,
    vars: &[Var],
    places: &[Term],
    rows: &[Term],
    count: usize,
) -> Result<Items<Option<i64>>, AllocError>
    requires places { All (IsTerm (length vars.now)) places.now }
    requires few { count * length places.now ≤ length rows.now }
    ensures { IfOk result (λ weights. weights ≡ blank_weights (declared_sets vars.now) places.now (numbers_in rows.now) count) }
{
    let mut weights = Items::new(alloc);
    for r in 0..count {
        weights.push(blank_weight(vars, places, rows, r * places.len()))?;
    }
    Ok(weights)
}

/// 0 for the row that begins there, and none where it has an entry that its place may not have.
fn blank_weight(vars: &[Var], places: &[Term], rows: &[Term], start: usize) -> Option<i64>
    requires places { All (IsTerm (length vars.now)) places.now }
    requires inside { start + length places.now ≤ length rows.now }
    ensures { result ≡ if is_declared_row (declared_sets vars.now) places.now (drop start (numbers_in rows.now)) then Some (pos 0) else None }
{
    if is_declared_row(vars, places, rows, start) {
        Some(0)
    } else {
        None
    }
}

/// Whether each entry of the row that begins there may be the value of its place.
fn is_declared_row(vars: &[Var], places: &[Term], rows: &[Term], start: usize) -> bool
    requires places { All (IsTerm (length vars.now)) places.now }
    requires inside { start + length places.now ≤ length rows.now }
    ensures { result ≡ is_declared_row (declared_sets vars.now) places.now (drop start (numbers_in rows.now)) }
{
    for i in 0..places.len() {
        if !may_be(vars, &places[i], rows[start + i].number()) {
            return false;
        }
    }
    true
}

/// Whether the entry may be the value of the place.
fn may_be(vars: &[Var], place: &Term, entry: i64) -> bool
    requires place { IsTerm (length vars.now) place.now }
    ensures { result ≡ may_be (declared_sets vars.now) place.now entry }
{
    match place {
        Term::Constant(k) => *k == entry,
        Term::Variable(var) => declared_set(vars, *var).contains(entry),
    }
}
