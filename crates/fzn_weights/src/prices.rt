// Prices of values that are all different.
ghost use Rattle.std.specs.Prelude.{◌≡◌, ◌*◌, ◌≤◌, true, nat_le, pos, ◌+ℤ◌, ◌-ℤ◌, length, unsigned_abs, option_copied, IfOk, IfSome};
ghost use Rattle.std.specs.List.{All, list_all};
ghost use Rattle.std.specs.Option.{option_map};
ghost use Rattle.fzn_list.specs.Limits.{longest};
ghost use Rattle.fzn_values.specs.Term.{IsTerm};
ghost use Rattle.fzn_meaning.specs.Meaning.{IsWellFormedConstraint};
ghost use Rattle.fzn_meaning.specs.Solutions.{declared_sets};
ghost use Rattle.fzn_meaning.specs.Separable.{IsWeightList, IsWithinLimit};
ghost use Rattle.fzn_weights.specs.Prices.{price_at, entries_from, total_price, least_price, most_cost, priced_places, is_set_within, is_term_within, has_each_price, is_price, are_prices};

use fzn_domain::Domain;
use fzn_list::Items;
use fzn_meaning::{Constraint, Listed, Var, listed_at};
use fzn_values::Term;
use std::alloc::{AllocError, Global};

/// How many prices an item has at the most.
const MOST_PRICES: usize = 65_536;

/// How far from 0 a price lies at the most: 10^12.
const GREATEST_PRICE: i64 = 1_000_000_000_000;

/// How far from 0 the number of the first price lies at the most: 10^9.
const GREATEST_VALUE: i64 = 1_000_000_000;

/// What a place that is this constant takes from the bound: its price, turned, the first price being that of the number low; 0 where it has
/// none.
pub fn less_price(low: &i64, prices: &[i64], value: &i64) -> i128
    requires prices { are_prices low.now prices.now ≡ true }
    requires value { unsigned_abs value.now ≤ 10000000000 }
    ensures value { result ≡ pos 0 -ℤ price_at low.now prices.now value.now }
    ensures bounded { unsigned_abs result ≤ 1000000000000000000000000000000 }
{
    let distance = *value - *low;
    if distance < 0 || distance >= prices.len() as i64 {
        return 0;
    }
    let price = prices[distance as usize];
    -(price as i128)
}

/// The price of a value, the first price being that of the number low; 0 where it has none.
pub fn price_at(low: &i64, prices: &[i64], value: &i64) -> i128
    requires prices { are_prices low.now prices.now ≡ true }
    requires value { unsigned_abs value.now ≤ 10000000000 }
    ensures value { result ≡ price_at low.now prices.now value.now }
    ensures bounded { unsigned_abs result ≤ 1000000000000000000000000000000 }
{
    -less_price(low, prices, value)
}

/// What was listed for each value that has a price, from the number low on, and the price; none for a value that is barred.
pub fn entries_of(
    alloc: Global,
    old: &Option<Listed>,
    low: &i64,
    prices: &[i64],
) -> Result<Items<Option<i64>>, AllocError>
    requires prices { are_prices low.now prices.now ≡ true }
    requires old { IfSome old.now IsWeightList }
    ensures { IfOk result (λ entries. entries ≡ entries_from low.now prices.now old.now) }
{
    let mut entries = Items::new(alloc);
    for i in 0..prices.len() {
        let value = *low + i as i64;
        entries.push(plus_price(listed_at(old, &value), &prices[i]))?;
    }
    Ok(entries)
}

fn plus_price(entry: Option<i64>, price: &i64) -> Option<i64>
    requires entry { IfSome entry IsWithinLimit }
    requires price { unsigned_abs price.now ≤ 1000000000000 }
    ensures { result ≡ option_map (λ w. w +ℤ price.now) entry }
{
    match entry {
        None => None,
        Some(weight) => Some(weight + *price),
    }
}

/// What so many places that are all different cost at the most: all prices together, less the least one for each value that no place has.
pub fn most_cost(places: usize, prices: &[i64]) -> i128
    requires places { places ≤ longest }
    requires prices { list_all is_price prices.now ≡ true }
    requires few { length prices.now ≤ 65536 }
    ensures value { result ≡ most_cost places prices.now }
    ensures bounded { unsigned_abs result ≤ 1000000000000000000000000000000 }
{
    let spare = prices.len() as i128 - places as i128;
    total_price(prices) - spare * least_price(prices) as i128
}

fn total_price(prices: &[i64]) -> i128
    requires prices { list_all is_price prices.now ≡ true }
    requires few { length prices.now ≤ 65536 }
    ensures value { result ≡ total_price prices.now }
    ensures bounded { unsigned_abs result ≤ 65536 * 1000000000000 }
{
    let mut total: i128 = 0;
    for price in prices {
        total += *price as i128;
    }
    total
}

fn least_price(prices: &[i64]) -> i64
    requires prices { list_all is_price prices.now ≡ true }
    ensures value { result ≡ least_price prices.now }
    ensures bounded { unsigned_abs result ≤ 1000000000000 }
{
    let mut least = 0;
    for price in prices {
        if *price < least {
            least = *price;
        }
    }
    least
}

/// At most 65,536 prices from -10^12 to 10^12, the first for a number from -10^9 to 10^9.
pub fn are_prices(low: &i64, prices: &[i64]) -> bool
    ensures { result ≡ are_prices low.now prices.now }
{
    is_value(low) && prices.len() <= MOST_PRICES && are_small(prices)
}

fn is_value(number: &i64) -> bool
    ensures { result ≡ nat_le (unsigned_abs number.now) 1000000000 }
{
    -GREATEST_VALUE <= *number && *number <= GREATEST_VALUE
}

fn are_small(prices: &[i64]) -> bool
    ensures { result ≡ list_all is_price prices.now }
{
    prices.iter().all(|price| is_price(price))
}

fn is_price(price: &i64) -> bool
    ensures { result ≡ is_price price.now }
{
    -GREATEST_PRICE <= *price && *price <= GREATEST_PRICE
}

/// The places of the constraint of which no two have one value: of an all different or a circuit, or of the first list of an inverse.
pub fn priced_places(constraint: &Constraint) -> Option<&[Term]>
    ensures { option_copied result ≡ priced_places constraint.now }
{
    match constraint {
        Constraint::AllDifferent { places } => Some(places.as_slice()),
        Constraint::Circuit { successors } => Some(successors.as_slice()),
        Constraint::Inverse { forward, .. } => Some(forward.as_slice()),
        _ => None,
    }
}

/// Whether each value that a place may have where the constraint is met has a price, from the number low on.
#[tactic(auto, unfolding(fzn_meaning::specs::Meaning::IsWellFormedConstraint))]
pub fn has_each_price(vars: &[Var], low: &i64, prices: &[i64], constraint: &Constraint) -> bool
    requires constraint { IsWellFormedConstraint (length vars.now) constraint.now }
    requires prices { are_prices low.now prices.now ≡ true }
    ensures { result ≡ has_each_price (declared_sets vars.now) low.now prices.now constraint.now }
{
    match constraint {
        Constraint::AllDifferent { places } => {
            let high = *low + prices.len() as i64 - 1;
            are_terms_within(vars, low, &high, places.as_slice())
        }
        Constraint::Circuit { successors } => *low == 1 && prices.len() == successors.len(),
        Constraint::Inverse { forward, .. } => *low == 1 && prices.len() == forward.len(),
        _ => false,
    }
}

fn are_terms_within(vars: &[Var], low: &i64, high: &i64, places: &[Term]) -> bool
    requires places { All (IsTerm (length vars.now)) places.now }
    ensures { result ≡ list_all (is_term_within (declared_sets vars.now) low.now high.now) places.now }
{
    places
        .iter()
        .all(|place| is_term_within(vars, low, high, place))
}

fn is_term_within(vars: &[Var], low: &i64, high: &i64, term: &Term) -> bool
    requires term { IsTerm (length vars.now) term.now }
    ensures { result ≡ is_term_within (declared_sets vars.now) low.now high.now term.now }
{
    match term {
        Term::Constant(k) => *low <= *k && *k <= *high,
        Term::Variable(var) => is_set_within(low, high, &vars[var.0 - 1].domain),
    }
}

fn is_set_within(low: &i64, high: &i64, set: &Domain) -> bool
    ensures { result ≡ is_set_within low.now high.now set.now }
{
    set.is_empty() || *low <= set.min() && set.max() <= *high
}
