// The entries of lists by what they weigh.
ghost use Rattle.std.specs.Prelude.{◌≡◌, ℕ, ◌<◌, ◌≤◌, ℤ, pos, ◌+ℤ◌, ◌≤ℤ◌, length, slice_index, IsTrue, IfOk, IfSome, Some};
ghost use Rattle.std.specs.List.{All};
ghost use Rattle.fzn_meaning.specs.Separable.{weight_at, IsCoefficient, IsWeightList, IsPart, IsSeparableRow};
ghost use Rattle.fzn_rules.specs.Separable.{IsLeastOf, IsVariableWeightIn};
ghost use Rattle.fzn_levels.specs.Levels.{IsWeight};
ghost use Rattle.fzn_levels.specs.ByWeight.{AreRising, HavePlaces, IsByWeight, IsOrderOf, AreOrdersOf, HaveLighter};

use crate::weights::{entry_weight, value_at};
use fzn_domain::{Domain, Memory};
use fzn_meaning::{Listed, Part, Row, Var, VariablePart};
use std::alloc::Global;

/// The entries of a part's list by what they weigh. So those that weigh less than a level are found without the others.
#[derive(Drop)]
pub struct ByWeight {
    /// The indices of the entries that are not barred, by rising weight.
    pub(crate) order: Vec<usize>,
    /// For the index of each of these entries its place among them, counted from 0.
    pub(crate) places: Vec<usize>,
    /// The indices of the entries that are barred though their values are declared.
    pub(crate) barred: Vec<usize>,
}

/// An entry that is not barred.
#[derive(Clone, Copy)]
struct Entry {
    /// What the part weighs at its value.
    weight: i128,
    /// Its index in the list.
    index: usize,
}

/// For each part of a row of variables like these, in their order, the entries of its list by weight. `None` where a part has no list. `Err`
/// where memory runs out.
pub fn orders_of(alloc: Global, vars: &[Var], row: &Row) -> Result<Vec<Option<ByWeight>>, Memory>
    requires { (count : ℕ) × IsSeparableRow count row.now }
    ensures { IfOk result (λ orders. AreOrdersOf row.now.parts orders.items) }
{
    let mut orders = Vec::new(alloc);
    for part in row.parts.as_slice() {
        orders.push(order_of(alloc, vars, part)?)?;
    }
    Ok(orders)
}

/// That of a part.
fn order_of(alloc: Global, vars: &[Var], part: &Part) -> Result<Option<ByWeight>, Memory>
    requires { (count : ℕ) × IsPart count part.now }
    ensures { IfOk result (λ found. IfSome found (IsOrderOf part.now)) }
{
    let Part::Variable(own) = part else {
        return Ok(None);
    };
    let Some(listed) = &own.listed else {
        return Ok(None);
    };
    by_weight(alloc, own, listed, declared_of(vars, own))
}

/// The declared values of its variable, as far as they are told.
fn declared_of<'a>(vars: &'a [Var], part: &VariablePart) -> Option<&'a Domain> {
    match vars.get(part.var.0.wrapping_sub(1)) {
        Some(var) => Some(&var.domain),
        None => None,
    }
}

/// That of a part with this list, whose variable has these declared values. It is sorted freely, and `None` where the test fails that the
/// order is right.
fn by_weight(
    alloc: Global,
    part: &VariablePart,
    listed: &Listed,
    declared: Option<&Domain>,
) -> Result<Option<ByWeight>, Memory>
    requires coefficient { IsCoefficient part.now.coefficient }
    requires of { part.now.listed ≡ Some listed.now }
    requires listed { IsWeightList listed.now }
    ensures { IfOk result (λ found. IfSome found (IsByWeight part.now listed.now)) }
{
    let order = sorted(alloc, part, listed)?;
    let places = places_of(alloc, order.as_slice(), listed.weights.len())?;
    let barred = barred_of(alloc, listed, declared)?;
    if !are_rising(part, listed, order.as_slice()) {
        return Ok(None);
    }
    if !have_places(part, listed, order.as_slice(), places.as_slice()) {
        return Ok(None);
    }
    Ok(Some(ByWeight {
        order,
        places,
        barred,
    }))
}

/// The indices of the entries that are not barred, by rising weight.
fn sorted(alloc: Global, part: &VariablePart, listed: &Listed) -> Result<Vec<usize>, Memory>
    requires coefficient { IsCoefficient part.now.coefficient }
    requires of { part.now.listed ≡ Some listed.now }
    requires listed { IsWeightList listed.now }
{
    let mut entries = Vec::new(alloc);
    for index in 0..listed.weights.len() {
        if let Some(weight) = entry_weight(part, listed, index) {
            entries.push(Entry { weight, index })?;
        }
    }
    entries.sort_by_key(|entry| (entry.weight, entry.index))?;
    let mut order = Vec::new(alloc);
    for entry in entries.iter() {
        order.push(entry.index)?;
    }
    Ok(order)
}

/// For each index below a count its place among these, and a place past all for one that is not among them.
fn places_of(alloc: Global, order: &[usize], count: usize) -> Result<Vec<usize>, Memory> {
    let mut places = Vec::new(alloc);
    for _ in 0..count {
        places.push(order.len())?;
    }
    for (place, i) in order.iter().enumerate() {
        if let Some(at) = places.get_mut(*i) {
            *at = place;
        }
    }
    Ok(places)
}

/// The indices of the entries that are barred, but for those of values that are not declared.
fn barred_of(
    alloc: Global,
    listed: &Listed,
    declared: Option<&Domain>,
) -> Result<Vec<usize>, Memory>
    requires { IsWeightList listed.now }
{
    let mut barred = Vec::new(alloc);
    for i in 0..listed.weights.len() {
        if listed.weights.as_slice()[i].is_none() && is_among(declared, value_at(listed, i)) {
            barred.push(i)?;
        }
    }
    Ok(barred)
}

/// Whether the value is one of these, where these are told.
fn is_among(values: Option<&Domain>, value: i64) -> bool {
    match values {
        Some(values) => values.contains(value),
        None => true,
    }
}

/// Whether these are indices of entries that are not barred and weigh no less one after the other.
fn are_rising(part: &VariablePart, listed: &Listed, order: &[usize]) -> bool
    requires coefficient { IsCoefficient part.now.coefficient }
    requires of { part.now.listed ≡ Some listed.now }
    requires listed { IsWeightList listed.now }
    ensures rising { IsTrue result → AreRising part.now listed.now order.now }
    ensures inside { IsTrue result → All (λ i. i < length listed.now.weights) order.now }
{
    let mut last = i128::MIN;
    for i in order {
        if listed.weights.len() <= *i {
            return false;
        }
        let Some(weight) = entry_weight(part, listed, *i) else {
            return false;
        };
        if weight < last {
            return false;
        }
        last = weight;
    }
    true
}

/// Whether each entry that is not barred stands in the order at its place.
fn have_places(part: &VariablePart, listed: &Listed, order: &[usize], places: &[usize]) -> bool
    requires coefficient { IsCoefficient part.now.coefficient }
    requires of { part.now.listed ≡ Some listed.now }
    requires listed { IsWeightList listed.now }
    ensures { IsTrue result → HavePlaces part.now listed.now order.now places.now }
{
    for i in 0..listed.weights.len() {
        if entry_weight(part, listed, i).is_some() && !has_place(order, places, i) {
            return false;
        }
    }
    true
}

/// Whether the index stands in the order at its place.
fn has_place(order: &[usize], places: &[usize], i: usize) -> bool
    ensures { IsTrue result → (slice_index places.now i < length order.now) × (slice_index order.now (slice_index places.now i) ≡ i) }
{
    if places.len() <= i {
        return false;
    }
    let place = places[i];
    if order.len() <= place {
        return false;
    }
    order[place] == i
}

impl ByWeight {
    /// The place in the order from which on no entry weighs less than the level. The order has to be one of this list.
    fn first_reaching(&self, part: &VariablePart, listed: &Listed, level: i128) -> usize
        requires coefficient { IsCoefficient part.now.coefficient }
        requires of { part.now.listed ≡ Some listed.now }
        requires listed { IsWeightList listed.now }
        ensures within { result ≤ length self.now.order.items }
        ensures heavy { IsByWeight part.now listed.now self.now → (k : ℕ) (w : ℤ) → result ≤ k → k < length self.now.order.items → weight_at part.now (listed.now.low +ℤ pos (slice_index self.now.order.items k)) ≡ Some w → level ≤ℤ w }
    {
        let order = self.order.as_slice();
        let mut low = 0;
        let mut high = order.len();
        while low < high {
            let middle = low + (high - low) / 2;
            if reaches(part, listed, order[middle], level) {
                high = middle;
            } else {
                low = middle + 1;
            }
        }
        high
    }

    /// The indices of the entries that weigh less than the level, by rising weight.
    pub(crate) fn lighter(&self, part: &VariablePart, listed: &Listed, level: i128) -> &[usize]
        requires coefficient { IsCoefficient part.now.coefficient }
        requires of { part.now.listed ≡ Some listed.now }
        requires listed { IsWeightList listed.now }
        requires order { IsByWeight part.now listed.now self.now }
        ensures { HaveLighter part.now listed.now (Some level) result.now }
    {
        let end = self.first_reaching(part, listed, level);
        &self.order.as_slice()[..end]
    }

    /// The indices of the entries that weigh no less than the level, by rising weight. No contract says that these are all.
    pub(crate) fn from(&self, part: &VariablePart, listed: &Listed, level: i128) -> &[usize]
        requires coefficient { IsCoefficient part.now.coefficient }
        requires of { part.now.listed ≡ Some listed.now }
        requires listed { IsWeightList listed.now }
    {
        let start = self.first_reaching(part, listed, level);
        &self.order.as_slice()[start..]
    }

    /// What the variable of the part weighs at least at the values of the set that are not barred; `None` where there is none. It lies at
    /// most 10^12 * 2^63 + 10^18 from 0.
    pub(crate) fn least(&self, part: &VariablePart, listed: &Listed, set: &Domain) -> Option<i128>
        requires coefficient { IsCoefficient part.now.coefficient }
        requires of { part.now.listed ≡ Some listed.now }
        requires listed { IsWeightList listed.now }
        requires order { IsByWeight part.now listed.now self.now }
        ensures least { IsLeastOf (IsVariableWeightIn set.now part.now) result }
        ensures bounded { IfSome result IsWeight }
    {
        for i in self.order.as_slice() {
            if set.contains(value_at(listed, *i))
                && let Some(weight) = entry_weight(part, listed, *i)
            {
                return Some(weight);
            }
        }
        None
    }
}

/// Whether there is an entry at the index that is not barred and weighs no less than the level.
fn reaches(part: &VariablePart, listed: &Listed, i: usize, level: i128) -> bool
    requires coefficient { IsCoefficient part.now.coefficient }
    requires of { part.now.listed ≡ Some listed.now }
    requires listed { IsWeightList listed.now }
    ensures { IsTrue result → (w : ℤ) × (weight_at part.now (listed.now.low +ℤ pos i) ≡ Some w) × (level ≤ℤ w) }
{
    if listed.weights.len() <= i {
        return false;
    }
    match entry_weight(part, listed, i) {
        Some(weight) => level <= weight,
        None => false,
    }
}
