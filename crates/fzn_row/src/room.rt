// The room in which a row is made.
ghost use Rattle.std.specs.Prelude.{◌≡◌, ◌⊎◌, ◌≤◌, ◌+ℤ◌, unsigned_abs, IfOk, IfErr, OnOk, Ok, Err};
ghost use Rattle.fzn_domain.specs.Narrow.{IsVariable};
ghost use Rattle.fzn_cited.specs.declared.fault.DeriveFault.TheVariants.{Memory};
ghost use Rattle.fzn_row.specs.Draft.{part_for, with_bound, with_coefficient};
ghost use Rattle.fzn_row.specs.Room.{draft_of, room_size, IsRoom, IsPlaceOfPart, IsAbsent};

use fzn_cited::DeriveFault;
use fzn_domain::VarId;
use fzn_meaning::{TablePart, VariablePart};
use fzn_weights::{LIMIT, sum_within};
use std::alloc::{AllocError, Global};

/// How far from 0 a coefficient lies at the most: 10^12.
const GREATEST_COEFFICIENT: u64 = 1_000_000_000_000;

/// The part of a table.
#[derive(Drop)]
pub(crate) struct BegunTable {
    /// The number of the constraint.
    pub constraint: u64,
    /// What its rows weigh so far.
    pub part: TablePart,
}

/// The room in which rows are made, kept from one to the next, so that each costs what its items add: 8 bytes for each variable, and 8
/// for each constraint up to the last one whose table has had a part.
///
/// The place of a variable's part is found by a slot that is never cleared: it counts only where the part at that place is the variable's
/// (Preston Briggs and Linda Torczon, An Efficient Representation for Sparse Sets, 1993). So it is with the place of a table's part.
#[derive(Drop)]
pub struct RowDeriver {
    /// One for each variable: where its part stands, if it has one.
    pub(crate) slots: Vec<usize>,
    /// The parts so far.
    pub(crate) parts: Vec<VariablePart>,
    /// One for each number of a constraint, from 0 on: where the part of its table stands, if it has one.
    pub(crate) table_slots: Vec<usize>,
    /// The parts of tables so far.
    pub(crate) tables: Vec<BegunTable>,
    /// The bound so far.
    pub(crate) bound: i64,
    /// How many weights may still be listed.
    pub(crate) left: usize,
}

impl RowDeriver {
    /// Room for a model of so many variables. It answers `Err` where memory runs out.
    pub fn new(alloc: Global, variables: usize) -> Result<RowDeriver, AllocError>
        ensures { IfOk result (λ room. room_size room ≡ variables) }
    {
        let slots = Vec::from_elem(alloc, 0, variables)?;
        Ok(RowDeriver {
            slots,
            parts: Vec::new(alloc),
            table_slots: Vec::new(alloc),
            tables: Vec::new(alloc),
            bound: 0,
            left: 0,
        })
    }

    /// The place of the variable's part. Where it has none, a blank one is put at the end.
    pub(crate) fn place_of(&mut self, var: VarId) -> Result<usize, AllocError>
        requires var { IsVariable (room_size self.old) var }
        requires room { IsRoom self.old }
        ensures room { IsRoom self.new }
        ensures variables { room_size self.new ≡ room_size self.old }
        ensures place { IfOk result (IsPlaceOfPart var self.old.parts.items self.new.parts.items) }
        ensures tables { self.new.tables.items ≡ self.old.tables.items }
        ensures bound { self.new.bound ≡ self.old.bound }
        ensures left { self.new.left ≡ self.old.left }
    {
        let slot = self.slots[var.0 - 1];
        if slot < self.parts.len() && self.parts[slot].var == var {
            return Ok(slot);
        }
        self.put_blank(var)
    }

    /// Puts a blank part of the variable at the end, and answers its place.
    fn put_blank(&mut self, var: VarId) -> Result<usize, AllocError>
        requires var { IsVariable (room_size self.old) var }
        requires room { IsRoom self.old }
        requires none { IsAbsent var self.old.parts.items }
        ensures room { IsRoom self.new }
        ensures variables { room_size self.new ≡ room_size self.old }
        ensures place { IfOk result (IsPlaceOfPart var self.old.parts.items self.new.parts.items) }
        ensures tables { self.new.tables.items ≡ self.old.tables.items }
        ensures bound { self.new.bound ≡ self.old.bound }
        ensures left { self.new.left ≡ self.old.left }
    {
        let place = self.parts.len();
        self.slots[var.0 - 1] = place;
        self.parts.push(VariablePart {
            var,
            coefficient: 0,
            listed: None,
        })?;
        Ok(place)
    }

    /// Adds to the coefficient of a variable.
    pub(crate) fn add(&mut self, var: VarId, amount: i128) -> Result<(), DeriveFault>
        requires var { IsVariable (room_size self.old) var }
        requires room { IsRoom self.old }
        requires amount { unsigned_abs amount ≤ 1000000000000000000000000000000 }
        ensures variables { room_size self.new ≡ room_size self.old }
        ensures room { IsRoom self.new }
        ensures ok { OnOk result (with_coefficient var ((part_for var self.old.parts.items).coefficient +ℤ amount) (draft_of self.old) ≡ Ok (draft_of self.new)) }
        ensures err { IfErr result (λ fault. (fault ≡ Memory) ⊎ (with_coefficient var ((part_for var self.old.parts.items).coefficient +ℤ amount) (draft_of self.old) ≡ Err fault)) }
    {
        let place = self.place_of(var)?;
        let coefficient = sum_within(self.parts[place].coefficient, amount, GREATEST_COEFFICIENT)?;
        self.parts[place].coefficient = coefficient;
        Ok(())
    }

    /// Adds to the bound.
    pub(crate) fn raise(&mut self, amount: i128) -> Result<(), DeriveFault>
        requires room { IsRoom self.old }
        requires amount { unsigned_abs amount ≤ 10000000000000000000000000000000 }
        ensures variables { room_size self.new ≡ room_size self.old }
        ensures room { IsRoom self.new }
        ensures ok { OnOk result (with_bound (self.old.bound +ℤ amount) (draft_of self.old) ≡ Ok (draft_of self.new)) }
        ensures err { IfErr result (λ fault. (fault ≡ Memory) ⊎ (with_bound (self.old.bound +ℤ amount) (draft_of self.old) ≡ Err fault)) }
    {
        self.bound = sum_within(self.bound, amount, LIMIT)?;
        Ok(())
    }
}
