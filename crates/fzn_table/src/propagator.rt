// The propagator of a table.
ghost use Rattle.std.specs.Prelude.{◌≡◌, IfOk};
ghost use Rattle.fzn_table.specs.Chains.{AreAllChained};

use crate::pass::Pass;
use crate::supports::Supports;
use crate::table::bar_unsupported;
use fzn_domain::Memory;
use fzn_list::Shared;
use fzn_propagator::{Cost, Event, Findings, Propagator, Subscriptions};
use fzn_trail::Trail;
use fzn_values::{Rows, Term};
use std::alloc::Global;

/// What reasons for one table.
#[derive(Drop)]
pub struct TablePropagator {
    /// The number of the constraint, counted from 1.
    pub number: u64,
    /// The terms whose values are those of a row.
    pub places: Shared<Term>,
    /// The numbers of the rows, one row after another.
    pub rows: Rows,
    /// The rows that have each value at each place.
    pub(crate) supports: Supports,
    ghost chained: { AreAllChained places rows supports.chains.items },
}

impl TablePropagator {
    /// The propagator of the table of these places and rows, which has this number. `Err` where memory runs out.
    pub(crate) fn new(
        alloc: Global,
        number: u64,
        places: &Shared<Term>,
        rows: &Rows,
    ) -> Result<TablePropagator, Memory>
        ensures number { IfOk result (λ propagator. propagator.number ≡ number) }
        ensures places { IfOk result (λ propagator. propagator.places ≡ places.now) }
        ensures rows { IfOk result (λ propagator. propagator.rows ≡ rows.now) }
    {
        Ok(TablePropagator {
            number,
            places: places.share()?,
            rows: rows.share()?,
            supports: Supports::new(alloc, places.as_slice(), rows.constants())?,
        })
    }
}

impl Propagator for TablePropagator {
    ghost use Rattle.std.specs.Prelude.{[], List, length, OnOk};
    ghost use Rattle.fzn_domain.specs.IntSet.{IntSet};
    ghost use Rattle.fzn_domain.specs.Narrow.{NoneEmpty};
    ghost use Rattle.fzn_meaning.specs.declared.constraint.Constraint.{Constraint};
    ghost use Rattle.fzn_propagator.specs.declared.cost.Cost.TheVariants as cost;
    ghost use Rattle.fzn_propagator.specs.declared.event.Event.TheVariants as event;
    ghost use Rattle.fzn_propagator.specs.Inference.{AreInferencesOf, AreExhausted};
    ghost use Rattle.fzn_propagator.specs.Subscriptions.{terms_of, waits_each, AreHeard};
    ghost use Rattle.fzn_table.specs.Propagator.{table_number, TableIsFor, TableFits};
    ghost use Rattle.fzn_table.specs.Supports.{AreSupported};

    ghost number = { table_number };

    ghost is_for = { TableIsFor };

    ghost fits = { TableFits };

    ghost costs = { λ _. cost.Middling };

    /// Each change of a place.
    fn subscriptions(&self, alloc: Global) -> Result<Subscriptions, Memory>
        requires fits { (declared : List IntSet) × TableFits self.now declared }
        ensures value { IfOk result (λ subscriptions. subscriptions ≡ waits_each event.Any self.now.places) }
        ensures heard { IfOk result (λ subscriptions. (constraint : Constraint) → TableIsFor self.now constraint → AreHeard subscriptions (terms_of constraint)) }
    {
        let mut subscriptions = Subscriptions::new(alloc);
        subscriptions.add_each(self.places.as_slice(), Event::Any)?;
        Ok(subscriptions)
    }

    fn cost(&self) -> Cost
        ensures { result ≡ cost.Middling }
    {
        Cost::Middling
    }

    /// One pass, by the law of the trait. Where it finds nothing, the least and the greatest value of each place stand there in a row whose
    /// values are all in their places' sets, and so does each value of a place that is declared over at most 4,096 numbers, counted from the
    /// least to the greatest. Of a wider place each does where it has at most 64, or where its greatest value less its least is at most four
    /// times the number of rows and at most 4,095.
    #[tactic(auto, unfolding(fzn_meaning::specs::Meaning::IsWellFormedConstraint))]
    fn propagate(&self, alloc: Global, trail: &Trail, found: &mut Findings) -> Result<(), Memory>
        requires fits { TableFits self.now trail.now.declared }
        requires filled { NoneEmpty trail.now.sets }
        requires before { AreInferencesOf (table_number self.now) (TableIsFor self.now) trail.now found.old }
        ensures found { AreInferencesOf (table_number self.now) (TableIsFor self.now) trail.now found.new }
        ensures none { OnOk result (found.new ≡ [] → AreExhausted (TableIsFor self.now) trail.now) }
        ensures supported { OnOk result (found.new ≡ [] → AreSupported trail.now self.now.places self.now.rows (length self.now.places)) }
    {
        let places = self.places.as_slice();
        let rows = self.rows.constants();
        let possible = self.supports.possible(alloc, trail, places, rows)?;
        let pass = Pass {
            alloc,
            number: self.number,
            trail,
            places,
            rows,
            count: rows.len() / places.len(),
            supports: &self.supports,
            possible: possible.as_slice(),
        };
        bar_unsupported(&pass, found)
    }
}
