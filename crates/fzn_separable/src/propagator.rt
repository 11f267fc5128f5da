// The propagator of a row.
ghost use Rattle.std.specs.Prelude.{◌≡◌, ℕ, List, [], IfOk, OnOk};
ghost use Rattle.fzn_domain.specs.IntSet.{IntSet};
ghost use Rattle.fzn_domain.specs.Narrow.{NoneEmpty};
ghost use Rattle.fzn_meaning.specs.declared.constraint.Constraint.{Constraint};
ghost use Rattle.fzn_meaning.specs.Separable.{IsVariablePart, IsPart, IsSeparableRow};
ghost use Rattle.fzn_propagator.specs.declared.cost.Cost.TheVariants as cost;
ghost use Rattle.fzn_propagator.specs.Inference.{AreInferencesOf, AreExhausted};
ghost use Rattle.fzn_propagator.specs.Subscriptions.{terms_of, AreHeard};
ghost use Rattle.fzn_levels.specs.ByWeight.{AreOrdersOf, AreOrdersOf-prop};

use crate::copy::copied_row;
use crate::search::find_all;
use crate::waits::event_of;
use fzn_domain::Memory;
use fzn_levels::{ByWeight, Pass, orders_of};
use fzn_meaning::{Part, Row, TablePart, Var, VariablePart};
use fzn_propagator::{Cost, Event, Findings, Propagator, Subscriptions};
use fzn_rules::least_at_values;
use fzn_trail::Trail;
use fzn_values::Term;
use std::alloc::{AllocError, Global};

/// What reasons for one row.
#[derive(Drop)]
pub struct RowPropagator {
    /// The number of the constraint, counted from 1.
    pub number: u64,
    /// What its variables and tables weigh, and its bound.
    pub row: Row,
    /// What each part weighs at least at its declared values.
    pub(crate) floors: Vec<i128>,
    /// The entries of each part's list by weight, in the order of the parts.
    pub(crate) orders: Vec<Option<ByWeight>>,
    ghost ordered: { AreOrdersOf row.parts orders.items } by { AreOrdersOf-prop _ _ },
}

impl RowPropagator {
    /// The propagator of this row of variables like these, which has this number. `Err` where memory runs out.
    pub(crate) fn new(
        alloc: Global,
        number: u64,
        vars: &[Var],
        row: &Row,
    ) -> Result<RowPropagator, Memory>
        requires row { (count : ℕ) × IsSeparableRow count row.now }
        ensures number { IfOk result (λ propagator. propagator.number ≡ number) }
        ensures row { IfOk result (λ propagator. propagator.row ≡ row.now) }
    {
        Ok(RowPropagator {
            number,
            row: copied_row(alloc, row)?,
            floors: floors_of(alloc, vars, row)?,
            orders: orders_of(alloc, vars, row)?,
        })
    }
}

impl Propagator for RowPropagator {
    ghost use Rattle.fzn_separable.specs.Propagator.{row_number, RowIsFor, RowFits, waits_for};

    ghost number = { row_number };

    ghost is_for = { RowIsFor };

    ghost fits = { RowFits };

    ghost costs = { λ _. cost.Great };

    /// Each change of a variable whose values are listed, of another each move of the end at which it weighs least, and each change of a
    /// place of a table.
    fn subscriptions(&self, alloc: Global) -> Result<Subscriptions, Memory>
        requires fits { (declared : List IntSet) × RowFits self.now declared }
        ensures value { IfOk result (λ subscriptions. subscriptions ≡ waits_for self.now.row.parts) }
        ensures heard { IfOk result (λ subscriptions. (constraint : Constraint) → RowIsFor self.now constraint → AreHeard subscriptions (terms_of constraint)) }
    {
        let mut subscriptions = Subscriptions::new(alloc);
        for part in self.row.parts.as_slice() {
            match part {
                Part::Variable(part) => {
                    subscriptions.add(Term::Variable(part.var), event_of(part))?;
                }
                Part::Table(table) => {
                    subscriptions.add_each(table.places.as_slice(), Event::Any)?;
                }
            }
        }
        Ok(subscriptions)
    }

    fn cost(&self) -> Cost
        ensures { result ≡ cost.Great }
    {
        Cost::Great
    }

    fn propagate(&self, alloc: Global, trail: &Trail, found: &mut Findings) -> Result<(), Memory> {
        let pass = Pass {
            alloc,
            number: self.number,
            trail,
            row: &self.row,
            floors: self.floors.as_slice(),
            orders: self.orders.as_slice(),
        };
        find_all(&pass, found)
    }
}

/// What each part weighs at least at its declared values, as far as that is told.
fn floors_of(alloc: Global, vars: &[Var], row: &Row) -> Result<Vec<i128>, AllocError>
    requires { (count : ℕ) × IsSeparableRow count row.now }
{
    let mut floors = Vec::with_capacity(alloc, row.parts.len())?;
    for part in row.parts.as_slice() {
        floors.push(floor_of(vars, part))?;
    }
    Ok(floors)
}

/// That of a part; 0 where it has no weight that is not barred.
fn floor_of(vars: &[Var], part: &Part) -> i128
    requires { (count : ℕ) × IsPart count part.now }
{
    match part {
        Part::Variable(part) => value_floor(vars, part),
        Part::Table(table) => row_floor(table),
    }
}

fn value_floor(vars: &[Var], part: &VariablePart) -> i128
    requires { (count : ℕ) × IsVariablePart count part.now }
{
    match vars.get(part.var.0.wrapping_sub(1)) {
        Some(var) if !var.domain.is_empty() => { least_at_values(part, &var.domain).unwrap_or(0) }
        _ => 0,
    }
}

/// The least weight of a row. One with an entry that is not declared is barred from the start.
fn row_floor(table: &TablePart) -> i128 {
    let mut floor = None;
    for entry in table.weights.as_slice() {
        if let Some(weight) = entry {
            floor = Some(floor.unwrap_or(*weight).min(*weight));
        }
    }
    floor.unwrap_or(0) as i128
}
