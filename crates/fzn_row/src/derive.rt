// Rows derived from constraints.
ghost use Rattle.std.specs.Prelude.{◌≡◌, ◌⊎◌, ◌++◌, length, map, IfOk, IfErr, OnOk, Ok, Err};
ghost use Rattle.std.specs.List.{All};
ghost use Rattle.fzn_meaning.specs.Meaning.{IsWellFormedConstraint};
ghost use Rattle.fzn_meaning.specs.Solutions.{declared_sets};
ghost use Rattle.fzn_cited.specs.declared.fault.DeriveFault.TheVariants.{Memory};
ghost use Rattle.fzn_meaning.specs.declared.row.Part.TheVariants.{Variable, Table};
ghost use Rattle.fzn_meaning.specs.Separable.{IsSeparableRow};
ghost use Rattle.fzn_row.specs.Draft.{empty, row_stated, in_turn};
ghost use Rattle.fzn_row.specs.Derived.{item_added, IsDerivedRow, IsRowFault};
ghost use Rattle.fzn_row.specs.Room.{draft_of, room_size, IsRoom};

use crate::item::RowItem;
use crate::room::{BegunTable, RowDeriver};
use fzn_cited::DeriveFault;
use fzn_list::{Items, LONGEST};
use fzn_meaning::{Constraint, Part, Row, Var, VariablePart};
use std::alloc::{AllocError, Global};
use std::mem;

impl RowDeriver {
    /// The row that the items make of the given constraints of a model with these variables, one after another from a row without parts
    /// and with the bound 0; at most so many weights are listed for it. Where there is none, it answers the first thing that is wrong:
    /// `NoSuchConstraint`, `NotDerived` for all else, or at any time `Memory`. The room serves for the next row either way.
    pub fn derive(
        &mut self,
        alloc: Global,
        given: &[Constraint],
        vars: &[Var],
        items: &[RowItem],
        most: usize,
    ) -> Result<Row, DeriveFault>
        requires room { room_size self.old ≡ length vars.now }
        requires given { All (IsWellFormedConstraint (length vars.now)) given.now }
        ensures room { room_size self.new ≡ length vars.now }
        ensures derived { IfOk result (IsDerivedRow given.now (declared_sets vars.now) most items.now) }
        ensures formed { IfOk result (IsSeparableRow (length vars.now)) }
        ensures fault { IfErr result (λ fault. (fault ≡ Memory) ⊎ IsRowFault given.now (declared_sets vars.now) most items.now fault) }
    {
        self.begin(most);
        self.add_items(alloc, given, vars, items)?;
        self.take_row(alloc)
    }

    /// Begins a row.
    fn begin(&mut self, most: usize)
        ensures variables { room_size self.new ≡ room_size self.old }
        ensures room { IsRoom self.new }
        ensures draft { draft_of self.new ≡ empty most }
    {
        self.parts.clear();
        self.tables.clear();
        self.bound = 0;
        self.left = most;
    }

    /// Adds the items one after another.
    fn add_items(
        &mut self,
        alloc: Global,
        given: &[Constraint],
        vars: &[Var],
        items: &[RowItem],
    ) -> Result<(), DeriveFault>
        requires room { IsRoom self.old }
        requires vars { length vars.now ≡ room_size self.old }
        requires given { All (IsWellFormedConstraint (room_size self.old)) given.now }
        ensures variables { room_size self.new ≡ room_size self.old }
        ensures room { IsRoom self.new }
        ensures ok { OnOk result (in_turn (item_added given.now (declared_sets vars.now)) (draft_of self.old) items.now ≡ Ok (draft_of self.new)) }
        ensures err { IfErr result (λ fault. (fault ≡ Memory) ⊎ (in_turn (item_added given.now (declared_sets vars.now)) (draft_of self.old) items.now ≡ Err fault)) }
    {
        for item in items {
            self.add_item(alloc, given, vars, item)?;
        }
        Ok(())
    }

    fn add_item(
        &mut self,
        alloc: Global,
        given: &[Constraint],
        vars: &[Var],
        item: &RowItem,
    ) -> Result<(), DeriveFault>
        requires room { IsRoom self.old }
        requires vars { length vars.now ≡ room_size self.old }
        requires given { All (IsWellFormedConstraint (room_size self.old)) given.now }
        ensures variables { room_size self.new ≡ room_size self.old }
        ensures room { IsRoom self.new }
        ensures ok { OnOk result (item_added given.now (declared_sets vars.now) (draft_of self.old) item.now ≡ Ok (draft_of self.new)) }
        ensures err { IfErr result (λ fault. (fault ≡ Memory) ⊎ (item_added given.now (declared_sets vars.now) (draft_of self.old) item.now ≡ Err fault)) }
    {
        match item {
            RowItem::Multiples(multiples) => self.add_multiples(given, multiples.as_slice()),
            RowItem::Prices {
                constraint,
                low,
                prices,
            } => self.add_prices(alloc, given, vars, *constraint, low, prices.as_slice()),
            RowItem::Move {
                constraint,
                variable,
            } => self.add_move(alloc, given, vars, *constraint, *variable),
            RowItem::Columns {
                constraint,
                column,
                low,
                prices,
            } => self.add_columns(
                alloc,
                given,
                vars,
                *constraint,
                *column,
                low,
                prices.as_slice(),
            ),
            RowItem::Rows {
                constraint,
                variable,
            } => self.add_rows(alloc, given, vars, *constraint, *variable),
        }
    }

    /// Takes the row out, unless it has more parts than a row may have.
    fn take_row(&mut self, alloc: Global) -> Result<Row, DeriveFault>
        requires room { IsRoom self.old }
        ensures variables { room_size self.new ≡ room_size self.old }
        ensures ok { IfOk result (λ row. row_stated (draft_of self.old) ≡ Ok row) }
        ensures err { IfErr result (λ fault. (fault ≡ Memory) ⊎ (row_stated (draft_of self.old) ≡ Err fault)) }
    {
        if self.parts.len() + self.tables.len() > LONGEST {
            return Err(DeriveFault::NotDerived);
        }
        let parts = mem::replace(&mut self.parts, Vec::new(alloc));
        let tables = mem::replace(&mut self.tables, Vec::new(alloc));
        Ok(Row {
            parts: both_parts(alloc, parts, tables)?,
            bound: self.bound,
        })
    }
}

/// The parts of variables, and behind them those of tables.
fn both_parts(
    alloc: Global,
    parts: Vec<VariablePart>,
    tables: Vec<BegunTable>,
) -> Result<Items<Part>, AllocError>
    ensures { IfOk result (λ all. all ≡ map Variable parts.items ++ map (λ begun. Table begun.part) tables.items) }
{
    let mut all = Items::new(alloc);
    for part in parts {
        all.push(Part::Variable(part))?;
    }
    for begun in tables {
        all.push(Part::Table(begun.part))?;
    }
    Ok(all)
}
