// What the values of a variable cost.
ghost use Rattle.std.specs.Prelude.{◌≡◌, ◌+◌, ◌<◌, length, IfSome, None};
ghost use Rattle.fzn_costs.specs.Free.{CostsNothing};

use fzn_activity::{greatest_value, least_value, literal_on, open_domain};
use fzn_domain::{Domain, Lit, Memory, Op};
use fzn_trail::Trail;
use std::alloc::Global;

/// What a value of a variable costs.
#[derive(Clone, Copy, Debug)]
pub struct Price {
    /// The variable, counted from 0.
    pub number: usize,
    /// One of its values.
    pub value: i64,
    /// How much the objective gets worse by that value, beside others of the variable; below 0 where it gets better.
    pub cost: i64,
}

/// Which values of each variable serve the objective.
#[derive(Drop)]
pub struct Costs {
    /// By variable: above 0 where small values are cheap, below 0 where great ones are, 0 where nothing is known.
    weights: Vec<i64>,
    /// The values that have a price, by variable, the cheapest first.
    values: Vec<i64>,
    /// By variable: the place of its first value that has a price, and the place behind its last one.
    ranges: Vec<(usize, usize)>,
}

impl Costs {
    /// Nothing costs anything.
    pub fn none(alloc: Global) -> Costs
        ensures { CostsNothing result }
    {
        Costs {
            weights: Vec::new(alloc),
            values: Vec::new(alloc),
            ranges: Vec::new(alloc),
        }
    }

    /// These weights, by variable, and these prices, several of which may be of one value.
    pub fn new(alloc: Global, weights: Vec<i64>, prices: Vec<Price>) -> Result<Costs, Memory> {
        let prices = by_cost(alloc, prices)?;
        let mut ranges = vec![in alloc; (0, 0); weights.len()]?;
        let mut values = Vec::new(alloc);
        for (place, price) in prices.iter().enumerate() {
            if price.number < ranges.len() {
                let (first, end) = ranges[price.number];
                let first = if first < end { first } else { place };
                ranges[price.number] = (first, place.saturating_add(1));
            }
            values.push(price.value)?;
        }
        Ok(Costs {
            weights,
            values,
            ranges,
        })
    }

    /// The variable of this number, counted from 0, takes its cheapest value, where it has more than one value and is known to cost
    /// something.
    pub fn cheapest(&self, trail: &Trail, vars: usize, number: usize) -> Option<Lit>
        requires { vars ≡ length trail.now.declared }
        ensures variable { IfSome result (λ lit. lit.var.0 ≡ number + 1) }
        ensures none { CostsNothing self.now → result ≡ None }
    {
        if let Some(lit) = self.cheapest_priced(trail, vars, number) {
            return Some(lit);
        }
        let weight = self.weights.get(number).copied()?;
        if weight > 0 {
            least_value(trail, vars, number)
        } else if weight < 0 {
            greatest_value(trail, vars, number)
        } else {
            None
        }
    }

    /// The same of those values that have a price.
    fn cheapest_priced(&self, trail: &Trail, vars: usize, number: usize) -> Option<Lit>
        requires { vars ≡ length trail.now.declared }
        ensures variable { IfSome result (λ lit. lit.var.0 ≡ number + 1) }
        ensures none { CostsNothing self.now → result ≡ None }
    {
        let (first, end) = self.ranges.get(number).copied()?;
        let domain = open_domain(trail, vars, number)?;
        for place in first..end {
            let value = self.values.get(place).copied()?;
            if domain.contains(value) {
                return Some(only(domain, number, value));
            }
        }
        None
    }
}

/// The literal that leaves this value alone of the variable of this number, counted from 0: a bound where it is at an end.
fn only(domain: &Domain, number: usize, value: i64) -> Lit
    requires { number + 1 < 18446744073709551616 }
    ensures { result.var.0 ≡ number + 1 }
{
    let op = if domain.is_empty() {
        Op::Equal
    } else if value == domain.min() {
        Op::AtMost
    } else if value == domain.max() {
        Op::AtLeast
    } else {
        Op::Equal
    };
    literal_on(number, op, value)
}

/// One price for each value, by variable, the cheapest first, and of equals the least value.
fn by_cost(alloc: Global, mut prices: Vec<Price>) -> Result<Vec<Price>, Memory> {
    prices.sort_by_key(|price| (price.number, price.value))?;
    let mut totals: Vec<Price> = Vec::new(alloc);
    for price in prices.iter() {
        let count = totals.len();
        if count > 0 && is_of_same(&totals[count - 1], price) {
            totals[count - 1].cost = totals[count - 1].cost.saturating_add(price.cost);
        } else {
            totals.push(*price)?;
        }
    }
    totals.sort_by_key(|price| (price.number, price.cost, price.value))?;
    Ok(totals)
}

fn is_of_same(one: &Price, other: &Price) -> bool {
    one.number == other.number && one.value == other.value
}
