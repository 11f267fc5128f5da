// Tables in a row: prices of a column, and parts of variables that go to the rows.
ghost use Rattle.std.specs.Prelude.{◌≡◌, ◌≢◌, ◌⊎◌, ℕ, ◌%◌, ◌<◌, ◌≤◌, ◌-ℤ◌, ◌++◌, ◌∷◌, [], true, pos, length, slice_index_or, IfErr, MatchOption, OnOk, Some, None, Ok, Err};
ghost use Rattle.std.specs.List.{All};
ghost use Rattle.fzn_list.specs.Limits.{longest};
ghost use Rattle.fzn_domain.specs.IntSet.{least};
ghost use Rattle.fzn_domain.specs.Limits.{IsInLimits};
ghost use Rattle.fzn_domain.specs.Narrow.{IsVariable};
ghost use Rattle.fzn_values.specs.Term.{IsTerm};
ghost use Rattle.fzn_meaning.specs.Meaning.{IsWellFormedConstraint, AreTerms};
ghost use Rattle.fzn_meaning.specs.Solutions.{declared_sets};
ghost use Rattle.fzn_cited.specs.declared.fault.DeriveFault.TheVariants.{Memory};
ghost use Rattle.fzn_weights.specs.Prices.{price_at, are_prices};
ghost use Rattle.fzn_weights.specs.Moves.{moved_from, span, is_narrow};
ghost use Rattle.fzn_weights.specs.Amount.{amount_at, IsLimitedAmount};
ghost use Rattle.fzn_row.specs.Draft.{part_for};
ghost use Rattle.fzn_row.specs.Prices.{with_list};
ghost use Rattle.fzn_row.specs.Tables.{table_of, table_begun, weights_spent, table_raised, term_lowered, column_priced, columns_priced, columns_added, part_to_rows, moved_to_rows, rows_added};
ghost use Rattle.fzn_row.specs.Room.{draft_of, room_size, IsTableKept, IsRoom, IsPlaceOfTable};

use crate::room::{BegunTable, RowDeriver};
use fzn_cited::{DeriveFault, constraint_at};
use fzn_domain::{Domain, VarId};
use fzn_list::Shared;
use fzn_meaning::{Constraint, Listed, TablePart, Var};
use fzn_values::{Rows, Term};
use fzn_weights::{
    Amount, are_prices, blank_table, declared_set, is_narrow, lowered, place_in, price_at, span,
    weights_raised,
};
use std::alloc::{AllocError, Global};

impl RowDeriver {
    /// Adds prices of the entries of a column of a table.
    pub(crate) fn add_columns(
        &mut self,
        alloc: Global,
        given: &[Constraint],
        vars: &[Var],
        id: u64,
        column: u64,
        low: &i64,
        prices: &[i64],
    ) -> Result<(), DeriveFault>
        requires room { IsRoom self.old }
        requires vars { length vars.now ≡ room_size self.old }
        requires given { All (IsWellFormedConstraint (room_size self.old)) given.now }
        ensures variables { room_size self.new ≡ room_size self.old }
        ensures room { IsRoom self.new }
        ensures ok { OnOk result (columns_added given.now (declared_sets vars.now) (draft_of self.old) id column low.now prices.now ≡ Ok (draft_of self.new)) }
        ensures err { IfErr result (λ fault. (fault ≡ Memory) ⊎ (columns_added given.now (declared_sets vars.now) (draft_of self.old) id column low.now prices.now ≡ Err fault)) }
    {
        let Some(constraint) = constraint_at(given, id) else {
            return Err(DeriveFault::NoSuchConstraint);
        };
        self.price_columns(alloc, vars, id, column, low, prices, constraint)
    }

    fn price_columns(
        &mut self,
        alloc: Global,
        vars: &[Var],
        id: u64,
        column: u64,
        low: &i64,
        prices: &[i64],
        constraint: &Constraint,
    ) -> Result<(), DeriveFault>
        requires room { IsRoom self.old }
        requires vars { length vars.now ≡ room_size self.old }
        requires constraint { IsWellFormedConstraint (room_size self.old) constraint.now }
        ensures variables { room_size self.new ≡ room_size self.old }
        ensures room { IsRoom self.new }
        ensures ok { OnOk result (columns_priced (declared_sets vars.now) id column low.now prices.now (draft_of self.old) constraint.now ≡ Ok (draft_of self.new)) }
        ensures err { IfErr result (λ fault. (fault ≡ Memory) ⊎ (columns_priced (declared_sets vars.now) id column low.now prices.now (draft_of self.old) constraint.now ≡ Err fault)) }
    {
        let Constraint::Table { places, rows } = constraint else {
            return Err(DeriveFault::NotDerived);
        };
        if !are_prices(low, prices) {
            return Err(DeriveFault::NotDerived);
        }
        if column < 1 || column > places.len() as u64 {
            return Err(DeriveFault::NotDerived);
        }
        let column = (column - 1) as usize;
        self.price_column(alloc, vars, id, places, rows, column, low, prices)
    }

    /// Adds prices of the entries of this column, counted from 0.
    fn price_column(
        &mut self,
        alloc: Global,
        vars: &[Var],
        id: u64,
        places: &Shared<Term>,
        rows: &Rows,
        column: usize,
        low: &i64,
        prices: &[i64],
    ) -> Result<(), DeriveFault>
        requires room { IsRoom self.old }
        requires vars { length vars.now ≡ room_size self.old }
        requires places { AreTerms (room_size self.old) places.now }
        requires column { column < length places.now }
        requires numbers { All IsInLimits rows.now }
        requires few { length rows.now ≤ longest }
        requires whole { length rows.now % length places.now ≡ 0 }
        requires prices { are_prices low.now prices.now ≡ true }
        ensures variables { room_size self.new ≡ room_size self.old }
        ensures room { IsRoom self.new }
        ensures ok { OnOk result (column_priced (declared_sets vars.now) id places.now rows.now column low.now prices.now (draft_of self.old) ≡ Ok (draft_of self.new)) }
        ensures err { IfErr result (λ fault. (fault ≡ Memory) ⊎ (column_priced (declared_sets vars.now) id places.now rows.now column low.now prices.now (draft_of self.old) ≡ Err fault)) }
    {
        self.spend_weights(rows.constants().len() / places.len())?;
        self.begin_table(alloc, vars, id, places, rows)?;
        self.raise_table(alloc, id, column, &Amount::Price(low, prices))?;
        self.lower_term(alloc, vars, low, prices, &places.as_slice()[column])
    }

    /// Moves what the variable weighs to the rows of a table.
    pub(crate) fn add_rows(
        &mut self,
        alloc: Global,
        given: &[Constraint],
        vars: &[Var],
        id: u64,
        var: VarId,
    ) -> Result<(), DeriveFault>
        requires room { IsRoom self.old }
        requires vars { length vars.now ≡ room_size self.old }
        requires given { All (IsWellFormedConstraint (room_size self.old)) given.now }
        ensures variables { room_size self.new ≡ room_size self.old }
        ensures room { IsRoom self.new }
        ensures ok { OnOk result (rows_added given.now (declared_sets vars.now) (draft_of self.old) id var ≡ Ok (draft_of self.new)) }
        ensures err { IfErr result (λ fault. (fault ≡ Memory) ⊎ (rows_added given.now (declared_sets vars.now) (draft_of self.old) id var ≡ Err fault)) }
    {
        let Some(constraint) = constraint_at(given, id) else {
            return Err(DeriveFault::NoSuchConstraint);
        };
        self.move_to_table(alloc, vars, id, var, constraint)
    }

    fn move_to_table(
        &mut self,
        alloc: Global,
        vars: &[Var],
        id: u64,
        var: VarId,
        constraint: &Constraint,
    ) -> Result<(), DeriveFault>
        requires room { IsRoom self.old }
        requires vars { length vars.now ≡ room_size self.old }
        requires constraint { IsWellFormedConstraint (room_size self.old) constraint.now }
        ensures variables { room_size self.new ≡ room_size self.old }
        ensures room { IsRoom self.new }
        ensures ok { OnOk result (moved_to_rows (declared_sets vars.now) id var (draft_of self.old) constraint.now ≡ Ok (draft_of self.new)) }
        ensures err { IfErr result (λ fault. (fault ≡ Memory) ⊎ (moved_to_rows (declared_sets vars.now) id var (draft_of self.old) constraint.now ≡ Err fault)) }
    {
        let Constraint::Table { places, rows } = constraint else {
            return Err(DeriveFault::NotDerived);
        };
        let Some(column) = place_in(places.as_slice(), var) else {
            return Err(DeriveFault::NotDerived);
        };
        self.move_to_rows(alloc, vars, id, places, rows, column, var)
    }

    /// Moves what the variable weighs to the rows, by their entries at this column, counted from 0.
    fn move_to_rows(
        &mut self,
        alloc: Global,
        vars: &[Var],
        id: u64,
        places: &Shared<Term>,
        rows: &Rows,
        column: usize,
        var: VarId,
    ) -> Result<(), DeriveFault>
        requires room { IsRoom self.old }
        requires vars { length vars.now ≡ room_size self.old }
        requires places { AreTerms (room_size self.old) places.now }
        requires column { column < length places.now }
        requires numbers { All IsInLimits rows.now }
        requires few { length rows.now ≤ longest }
        requires whole { length rows.now % length places.now ≡ 0 }
        requires var { IsVariable (room_size self.old) var }
        ensures variables { room_size self.new ≡ room_size self.old }
        ensures room { IsRoom self.new }
        ensures ok { OnOk result (part_to_rows (declared_sets vars.now) id places.now rows.now column var (draft_of self.old) ≡ Ok (draft_of self.new)) }
        ensures err { IfErr result (λ fault. (fault ≡ Memory) ⊎ (part_to_rows (declared_sets vars.now) id places.now rows.now column var (draft_of self.old) ≡ Err fault)) }
    {
        self.spend_weights(rows.constants().len() / places.len())?;
        self.begin_table(alloc, vars, id, places, rows)?;
        let part = self.take_part(var)?;
        self.raise_table(alloc, id, column, &Amount::Weight(&part))
    }

    /// Takes so many of the weights that may be listed, unless that is more than may be.
    fn spend_weights(&mut self, wanted: usize) -> Result<(), DeriveFault>
        requires room { IsRoom self.old }
        ensures variables { room_size self.new ≡ room_size self.old }
        ensures room { IsRoom self.new }
        ensures ok { OnOk result (weights_spent wanted (draft_of self.old) ≡ Ok (draft_of self.new)) }
        ensures err { IfErr result (λ fault. weights_spent wanted (draft_of self.old) ≡ Err fault) }
    {
        if self.left < wanted {
            return Err(DeriveFault::NotDerived);
        }
        self.left -= wanted;
        Ok(())
    }

    /// Begins a part of the table, which is 0 at each row, unless it has one.
    fn begin_table(
        &mut self,
        alloc: Global,
        vars: &[Var],
        id: u64,
        places: &Shared<Term>,
        rows: &Rows,
    ) -> Result<(), AllocError>
        requires room { IsRoom self.old }
        requires vars { length vars.now ≡ room_size self.old }
        requires places { AreTerms (room_size self.old) places.now }
        requires some { 0 < length places.now }
        requires numbers { All IsInLimits rows.now }
        requires few { length rows.now ≤ longest }
        requires whole { length rows.now % length places.now ≡ 0 }
        ensures variables { room_size self.new ≡ room_size self.old }
        ensures room { IsRoom self.new }
        ensures ok { OnOk result (draft_of self.new ≡ table_begun (declared_sets vars.now) id places.now rows.now (draft_of self.old)) }
    {
        if self.table_place(id).is_some() {
            return Ok(());
        }
        let part = blank_table(alloc, vars, places, rows)?;
        self.put_table(id, part)
    }

    /// The place of the table's part, if it has one.
    fn table_place(&self, id: u64) -> Option<usize>
        requires room { IsRoom self.now }
        ensures { MatchOption result (table_of id self.now.tables.items ≡ None) (IsPlaceOfTable id self.now.tables.items) }
    {
        let slot = slot_at(&self.table_slots, id as usize);
        if slot >= self.tables.len() {
            return None;
        }
        if self.tables[slot].constraint != id {
            return None;
        }
        Some(slot)
    }

    /// Puts the part of a table that has none behind the others.
    fn put_table(&mut self, id: u64, part: TablePart) -> Result<(), AllocError>
        requires room { IsRoom self.old }
        requires none { table_of id self.old.tables.items ≡ None }
        requires part { IsTableKept part }
        ensures variables { room_size self.new ≡ room_size self.old }
        ensures room { IsRoom self.new }
        ensures tables { OnOk result (self.new.tables.items ≡ self.old.tables.items ++ record { constraint = id; part = part } ∷ []) }
        ensures parts { self.new.parts.items ≡ self.old.parts.items }
        ensures bound { self.new.bound ≡ self.old.bound }
        ensures left { self.new.left ≡ self.old.left }
    {
        let place = self.tables.len();
        put_slot(&mut self.table_slots, id as usize, place)?;
        self.tables.push(BegunTable {
            constraint: id,
            part,
        })?;
        Ok(())
    }

    /// Each row of the table weighs so much more, by its entry at this column, counted from 0.
    fn raise_table(
        &mut self,
        alloc: Global,
        id: u64,
        column: usize,
        more: &Amount<'_>,
    ) -> Result<(), DeriveFault>
        requires room { IsRoom self.old }
        requires more { IsLimitedAmount more.now }
        requires column { column ≤ longest }
        ensures variables { room_size self.new ≡ room_size self.old }
        ensures room { IsRoom self.new }
        ensures ok { OnOk result (table_raised id (amount_at more.now) column (draft_of self.old) ≡ Ok (draft_of self.new)) }
        ensures err { IfErr result (λ fault. (fault ≡ Memory) ⊎ (table_raised id (amount_at more.now) column (draft_of self.old) ≡ Err fault)) }
    {
        let Some(place) = self.table_place(id) else {
            return Err(DeriveFault::NotDerived);
        };
        let weights = weights_raised(alloc, &self.tables[place].part, column, more)?;
        self.tables[place].part.weights = weights;
        Ok(())
    }

    /// Each value of the place weighs its price less.
    fn lower_term(
        &mut self,
        alloc: Global,
        vars: &[Var],
        low: &i64,
        prices: &[i64],
        place: &Term,
    ) -> Result<(), DeriveFault>
        requires room { IsRoom self.old }
        requires vars { length vars.now ≡ room_size self.old }
        requires prices { are_prices low.now prices.now ≡ true }
        requires fits { IsTerm (room_size self.old) place.now }
        ensures variables { room_size self.new ≡ room_size self.old }
        ensures room { IsRoom self.new }
        ensures ok { OnOk result (term_lowered (declared_sets vars.now) low.now prices.now (draft_of self.old) place.now ≡ Ok (draft_of self.new)) }
        ensures err { IfErr result (λ fault. (fault ≡ Memory) ⊎ (term_lowered (declared_sets vars.now) low.now prices.now (draft_of self.old) place.now ≡ Err fault)) }
    {
        match place {
            Term::Constant(k) => self.raise(price_at(low, prices, k)),
            Term::Variable(var) => {
                let set = declared_set(vars, *var);
                if is_narrow(set) {
                    self.list_lowered(alloc, *var, set, low, prices)
                } else {
                    Err(DeriveFault::NotDerived)
                }
            }
        }
    }

    /// Lists for the variable, which has this set, that each value weighs its price less.
    fn list_lowered(
        &mut self,
        alloc: Global,
        var: VarId,
        set: &Domain,
        low: &i64,
        prices: &[i64],
    ) -> Result<(), DeriveFault>
        requires room { IsRoom self.old }
        requires var { IsVariable (room_size self.old) var }
        requires narrow { is_narrow set.now ≡ true }
        requires prices { are_prices low.now prices.now ≡ true }
        ensures variables { room_size self.new ≡ room_size self.old }
        ensures room { IsRoom self.new }
        ensures ok { OnOk result (with_list var (draft_of self.old) (least set.now) (moved_from (λ value. Some (pos 0 -ℤ price_at low.now prices.now value)) (least set.now) (span set.now) (part_for var self.old.parts.items).listed) ≡ Ok (draft_of self.new)) }
        ensures err { IfErr result (λ fault. (fault ≡ Memory) ⊎ (with_list var (draft_of self.old) (least set.now) (moved_from (λ value. Some (pos 0 -ℤ price_at low.now prices.now value)) (least set.now) (span set.now) (part_for var self.old.parts.items).listed) ≡ Err fault)) }
    {
        let first = set.min();
        let count = span(set);
        if self.left < count {
            return Err(DeriveFault::NotDerived);
        }
        let place = self.place_of(var)?;
        let old = &self.parts[place].listed;
        let weights = lowered(alloc, old, &first, count, low, prices)?;
        self.left -= count;
        self.parts[place].listed = Some(Listed {
            low: first,
            weights,
        });
        Ok(())
    }
}

/// The slot of this number, and 0 where there is none.
fn slot_at(slots: &Vec<usize>, number: usize) -> usize
    ensures { result ≡ slice_index_or slots.now.items number 0 }
{
    match slots.get(number) {
        None => 0,
        Some(slot) => *slot,
    }
}

/// Sets the slot of this number, after as many of 0 as are lacking before it.
fn put_slot(slots: &mut Vec<usize>, number: usize, place: usize) -> Result<(), AllocError>
    ensures others { (k : ℕ) → k ≢ number → slice_index_or slots.new.items k 0 ≡ slice_index_or slots.old.items k 0 }
    ensures here { OnOk result (slice_index_or slots.new.items number 0 ≡ place) }
{
    while slots.len() <= number {
        slots.push(0)?;
    }
    slots[number] = place;
    Ok(())
}
