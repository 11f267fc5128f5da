// What variables cost: from the objective down through the constraints that make it up.
ghost use Rattle.std.specs.Prelude.{◌≡◌, IfOk};
ghost use Rattle.fzn_meaning.specs.declared.model.Goal.TheVariants.{Satisfy};
ghost use Rattle.fzn_costs.specs.Free.{CostsNothing};

use crate::costs::{Costs, Price};
use fzn_domain::Memory;
use fzn_meaning::{Comparison, Constraint, Goal, Model, Relation, Sum};
use fzn_values::{Place, Term};
use std::alloc::Global;
use std::slice;

/// What the variables of a model cost. So many terms are looked at, at most: a list that many constraints name counts for each of them. The
/// constraints are gone over so many times, at most: what makes up a variable may stand before what it is used for. It answers `Err` where
/// memory runs out.
pub fn costs_of(alloc: Global, model: &Model, terms: usize, passes: usize) -> Result<Costs, Memory>
    ensures { model.now.goal ≡ Satisfy → IfOk result CostsNothing }
{
    let (objective, weight) = match model.goal {
        Goal::Satisfy => return Ok(Costs::none(alloc)),
        Goal::Minimize(var) => (Term::Variable(var), 1),
        Goal::Maximize(var) => (Term::Variable(var), -1),
    };
    let mut pricing = Pricing {
        objective,
        weights: vec![in alloc; 0; model.vars.len()]?,
        prices: Vec::new(alloc),
        is_done: vec![in alloc; false; model.constraints.len()]?,
        left: terms,
    };
    pricing.add(objective, weight);
    for _ in 0..passes {
        if !pricing.pass(alloc, model)? {
            break;
        }
    }
    Costs::new(alloc, pricing.weights, pricing.prices)
}

/// What is known of costs so far.
#[derive(Drop)]
struct Pricing {
    objective: Term,
    /// By variable: by how much the objective gets worse where it grows by 1.
    weights: Vec<i64>,
    prices: Vec<Price>,
    /// By constraint, counted from 0: whether it has said what its terms cost.
    is_done: Vec<bool>,
    /// How many terms more may be looked at.
    left: usize,
}

impl Pricing {
    /// Goes over all constraints. Answers whether one said something.
    fn pass(&mut self, alloc: Global, model: &Model) -> Result<bool, Memory> {
        let mut is_any = false;
        for (place, constraint) in model.constraints.as_slice().iter().enumerate() {
            if self.is_done.get(place).copied() == Some(false) && self.look(alloc, constraint)? {
                if let Some(is_done) = self.is_done.get_mut(place) {
                    *is_done = true;
                }
                is_any = true;
            }
        }
        Ok(is_any)
    }

    /// Where a term of the constraint costs something, so do those that make it up. Answers whether it is so.
    fn look(&mut self, alloc: Global, constraint: &Constraint) -> Result<bool, Memory> {
        match constraint {
            Constraint::Linear {
                sum,
                comparison,
                switch: None,
                ..
            } => Ok(self.look_at_sum(sum, *comparison)),
            Constraint::BoolToInt { boolean, integer } => {
                Ok(self.spread(*integer, slice::from_ref(boolean)))
            }
            Constraint::Extremum {
                entries,
                result,
                ..
            } => Ok(self.spread(*result, entries.as_slice())),
            Constraint::Gated { inputs, result, .. } => {
                Ok(self.spread(*result, inputs.as_slice()))
            }
            Constraint::Element {
                index,
                entries,
                value,
            } => self.price_entries(*index, entries.as_slice(), *value),
            Constraint::Compare {
                relation,
                left,
                right,
                switch: Some(switch),
            } => self.price_compared(*relation, *left, *right, *switch),
            Constraint::Table { places, rows } => {
                self.price_rows(alloc, places.as_slice(), rows.constants())
            }
            _ => Ok(false),
        }
    }

    fn weight(&self, term: Term) -> i64 {
        match term {
            Term::Constant(_) => 0,
            Term::Variable(var) => {
                let number = var.0.saturating_sub(1);
                self.weights.get(number).copied().unwrap_or(0)
            }
        }
    }

    /// The term costs so much more for each 1.
    fn add(&mut self, term: Term, weight: i64) {
        if let Term::Variable(var) = term {
            let number = var.0.saturating_sub(1);
            if number < self.weights.len() {
                self.weights[number] = self.weights[number].saturating_add(weight);
            }
        }
    }

    /// The term costs so much more where it has this value.
    fn price(&mut self, term: Term, value: i64, cost: i64) -> Result<(), Memory> {
        if let Some(price) = price_of(term, value, cost) {
            self.prices.push(price)?;
        }
        Ok(())
    }

    /// Whether so many terms more may be looked at, which count then.
    fn may_look_at(&mut self, terms: usize) -> bool {
        if self.left < terms {
            return false;
        }
        self.left -= terms;
        true
    }

    /// What a term costs that grows with the terms of a list, these cost too.
    fn spread(&mut self, costly: Term, terms: &[Term]) -> bool {
        let weight = self.weight(costly);
        if weight == 0 || !self.may_look_at(terms.len()) {
            return false;
        }
        for term in terms {
            self.add(*term, weight);
        }
        true
    }

    /// The entry at an index is the price of the index, where the value costs something.
    fn price_entries(
        &mut self,
        index: Term,
        entries: &[Term],
        value: Term,
    ) -> Result<bool, Memory> {
        let weight = self.weight(value);
        if weight == 0 || !self.may_look_at(entries.len()) {
            return Ok(false);
        }
        let mut place = 0i64;
        for entry in entries {
            place = place.saturating_add(1);
            match entry {
                Term::Constant(number) => {
                    self.price(index, place, weight.saturating_mul(*number))?
                }
                Term::Variable(_) => self.add(*entry, weight),
            }
        }
        Ok(true)
    }

    /// A row of a table costs what its places do that cost something; of a value of another place the cheapest row counts.
    fn price_rows(
        &mut self,
        alloc: Global,
        places: &[Term],
        numbers: &[Term],
    ) -> Result<bool, Memory> {
        if !self.may_look_at(places.len())
            || !self.is_any_costly(places)
            || !self.may_look_at(numbers.len())
        {
            return Ok(false);
        }
        let mut prices = Vec::new(alloc);
        if !places.is_empty() {
            for row in numbers.chunks(places.len()) {
                self.price_row(places, row, &mut prices)?;
            }
        }
        prices.sort_by_key(|price| (price.number, price.value, price.cost))?;
        prices.dedup_by_key(|price| (price.number, price.value));
        for price in prices.iter() {
            self.prices.push(*price)?;
        }
        Ok(true)
    }

    fn is_any_costly(&self, places: &[Term]) -> bool {
        for place in places {
            if self.weight(*place) != 0 {
                return true;
            }
        }
        false
    }

    fn price_row(
        &self,
        places: &[Term],
        row: &[Term],
        prices: &mut Vec<Price>,
    ) -> Result<(), Memory> {
        let mut cost = 0i64;
        for (place, entry) in places.iter().zip(row.iter()) {
            cost = cost.saturating_add(self.weight(*place).saturating_mul(entry.number()));
        }
        for (place, entry) in places.iter().zip(row.iter()) {
            if self.weight(*place) == 0
                && let Some(price) = price_of(*place, entry.number(), cost)
            {
                prices.push(price)?;
            }
        }
        Ok(())
    }

    /// A term that is better equal to a constant, or better not, has a price there.
    fn price_compared(
        &mut self,
        relation: Relation,
        left: Term,
        right: Term,
        switch: Term,
    ) -> Result<bool, Memory> {
        let cost = match relation {
            Relation::Equal => self.weight(switch),
            Relation::NotEqual => self.weight(switch).saturating_neg(),
            Relation::AtMost | Relation::Below => 0,
        };
        if cost == 0 {
            return Ok(false);
        }
        if cost < 0 {
            if let Term::Constant(value) = right {
                self.price(left, value, cost)?;
            } else if let Term::Constant(value) = left {
                self.price(right, value, cost)?;
            }
        }
        Ok(true)
    }

    /// Where the other terms of a sum make up one that costs something, they cost by their coefficients.
    fn look_at_sum(&mut self, sum: &Sum, comparison: Comparison) -> bool {
        if !self.may_look_at(sum.len()) {
            return false;
        }
        let Some(made_up) = self.made_up(sum, comparison) else {
            return false;
        };
        let pull = self.pull(made_up, comparison);
        if pull == 0 {
            return false;
        }
        for i in 0..sum.len() {
            let place = sum.place(i);
            if place.term != made_up.term {
                self.add(place.term, pull.saturating_mul(place.coefficient));
            }
        }
        true
    }

    /// The place that the others make up: that of the objective, or the only one that costs something, in an equation.
    fn made_up(&self, sum: &Sum, comparison: Comparison) -> Option<Place> {
        let mut costly = None;
        let mut count = 0usize;
        for i in 0..sum.len() {
            let place = sum.place(i);
            if place.term == self.objective {
                return Some(place);
            }
            if self.weight(place.term) != 0 {
                count = count.saturating_add(1);
                costly = Some(place);
            }
        }
        if count == 1 && comparison == Comparison::Equal {
            costly
        } else {
            None
        }
    }

    /// What the others cost for each 1 of their part in the sum; 0 where they don't press on the place from its bad side.
    fn pull(&self, made_up: Place, comparison: Comparison) -> i64 {
        let weight = self.weight(made_up.term);
        let pull = if made_up.coefficient < 0 {
            weight
        } else {
            weight.saturating_neg()
        };
        match comparison {
            Comparison::Equal => pull,
            Comparison::AtMost => pull.max(0),
            Comparison::NotEqual => 0,
        }
    }
}

/// The price of a value of a term that is a variable.
fn price_of(term: Term, value: i64, cost: i64) -> Option<Price> {
    match term {
        Term::Constant(_) => None,
        Term::Variable(var) => Some(Price {
            number: var.0.saturating_sub(1),
            value,
            cost,
        }),
    }
}
