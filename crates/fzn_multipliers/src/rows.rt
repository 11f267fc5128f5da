// The sums of a model that are at most a bound, or that are it.
ghost use Rattle.std.specs.Prelude.{◌*◌, ◌≤◌, length, IfSome};
ghost use Rattle.std.specs.List.{All};
ghost use Rattle.fzn_list.specs.Limits.{longest};
ghost use Rattle.fzn_meaning.specs.WellFormed.{IsWellFormed};
ghost use Rattle.fzn_builtin_rules.specs.Form.{form_of};
ghost use Rattle.fzn_builtin_rules.specs.Borrowed.{places_in};

use crate::work::Work;
use fzn_builtin_rules::{Places, form_of};
use fzn_domain::Memory;
use fzn_meaning::{Comparison, Constraint, Model};
use fzn_values::{Place, Term};
use std::alloc::Global;

/// So many places of sums are read at the most.
const MOST_PLACES: u64 = 2_000_000;

/// A variable of a row.
#[derive(Clone, Copy, Debug)]
pub struct Entry {
    /// The number of the variable, less one.
    pub variable: usize,
    /// What it is multiplied with: not 0.
    pub coefficient: i64,
}

/// The sum of some entries, each variable once, is at most the bound, or it is the bound.
#[derive(Clone, Copy, Debug)]
pub struct Row {
    /// The number of the constraint that says so, counted from 1.
    pub constraint: u64,
    /// The place of the first entry.
    pub start: usize,
    /// The place behind the last one.
    pub end: usize,
    /// What the sum is at most.
    pub bound: i64,
    /// Whether it is the bound.
    pub is_equal: bool,
    /// Whether a variable stands at several places of the constraint.
    pub is_merged: bool,
}

/// The rows of a model.
#[derive(Debug, Drop)]
pub struct Rows {
    /// In the order of the constraints.
    pub rows: Vec<Row>,
    entries: Vec<Entry>,
}

impl Rows {
    /// Those of the constraints without a switch. Where the model has very many places, those of the first constraints.
    pub fn of(alloc: Global, model: &Model) -> Result<Rows, Memory>
        requires { IsWellFormed model.now }
    {
        let mut rows = Rows {
            rows: Vec::new(alloc),
            entries: Vec::new(alloc),
        };
        let mut merger = Merger::new(alloc, model.vars.len())?;
        rows.read_all(model.constraints.as_slice(), &mut merger)?;
        Ok(rows)
    }

    fn read_all(&mut self, constraints: &[Constraint], merger: &mut Merger) -> Result<(), Memory>
        requires { All (λ constraint. IfSome (form_of constraint) (λ form. length form.places ≤ 2 * longest)) constraints.now }
    {
        let mut work = Work::new(MOST_PLACES);
        let mut number = 0u64;
        for constraint in constraints {
            number = number.saturating_add(1);
            self.read(number, constraint, merger, &mut work)?;
            if work.is_done() {
                break;
            }
        }
        Ok(())
    }

    /// Reads the constraint of this number, where it has such a sum.
    fn read(
        &mut self,
        number: u64,
        constraint: &Constraint,
        merger: &mut Merger,
        work: &mut Work,
    ) -> Result<(), Memory>
        requires { IfSome (form_of constraint.now) (λ form. length form.places ≤ 2 * longest) }
    {
        let Some(form) = form_of(constraint) else {
            return Ok(());
        };
        let is_equal = match (form.switch, form.comparison) {
            (None, Comparison::AtMost) => false,
            (None, Comparison::Equal) => true,
            _ => return Ok(()),
        };
        if !work.take(form.places.len()) {
            return Ok(());
        }
        merger.merge(number, &form.places)?;
        let Some(bound) = form.bound.checked_sub(merger.constant) else {
            return Ok(());
        };
        let start = self.entries.len();
        merger.write(&mut self.entries)?;
        self.rows.push(Row {
            constraint: number,
            start,
            end: self.entries.len(),
            bound,
            is_equal,
            is_merged: merger.is_merged,
        })?;
        Ok(())
    }

    /// Whether one of them has the variable of this number, less one.
    pub fn have(&self, variable: usize) -> bool {
        for entry in self.entries.iter() {
            if entry.variable == variable {
                return true;
            }
        }
        false
    }

    /// How many numbers are looked at where each is added once, and where it is asked of each whether it is met.
    pub fn cost(&self) -> usize {
        let rows = self.rows.len().saturating_mul(8);
        rows.saturating_add(self.len().saturating_mul(2))
    }

    /// How many entries they have together.
    pub fn len(&self) -> usize {
        self.entries.len()
    }

    /// The entries of a row.
    pub fn entries_of(&self, row: Row) -> &[Entry] {
        if row.start <= row.end && row.end <= self.entries.len() {
            &self.entries[row.start..row.end]
        } else {
            &[]
        }
    }
}

/// Puts the places of a sum together, one for each variable.
#[derive(Debug, Drop)]
struct Merger {
    /// By the numbers of the variables, less one: the last constraint that had it.
    marks: Vec<u64>,
    /// By the same: its coefficients in that constraint, added up.
    coefficients: Vec<i64>,
    /// The variables of the last sum.
    touched: Vec<usize>,
    /// What its constants give.
    constant: i64,
    is_merged: bool,
}

impl Merger {
    fn new(alloc: Global, vars: usize) -> Result<Merger, Memory> {
        Ok(Merger {
            marks: vec![in alloc; 0; vars]?,
            coefficients: vec![in alloc; 0; vars]?,
            touched: Vec::new(alloc),
            constant: 0,
            is_merged: false,
        })
    }

    /// The places of the constraint of this number.
    fn merge(&mut self, number: u64, places: &Places<'_>) -> Result<(), Memory>
        requires { length (places_in places.now) ≤ 2 * longest }
    {
        self.touched.clear();
        self.constant = 0;
        self.is_merged = false;
        for i in 0..places.len() {
            self.add(number, places.place(i))?;
        }
        Ok(())
    }

    fn add(&mut self, number: u64, place: Place) -> Result<(), Memory> {
        let variable = match place.term {
            Term::Constant(value) => {
                let given = place.coefficient.saturating_mul(value);
                self.constant = self.constant.saturating_add(given);
                return Ok(());
            }
            Term::Variable(var) => var.0.saturating_sub(1),
        };
        let (Some(mark), Some(coefficient)) = (
            self.marks.get_mut(variable),
            self.coefficients.get_mut(variable),
        ) else {
            return Ok(());
        };
        if *mark == number {
            *coefficient = coefficient.saturating_add(place.coefficient);
            self.is_merged = true;
            return Ok(());
        }
        *mark = number;
        *coefficient = place.coefficient;
        self.touched.push(variable)?;
        Ok(())
    }

    /// Puts the entries of the last sum at the end of a list.
    fn write(&self, entries: &mut Vec<Entry>) -> Result<(), Memory> {
        for variable in self.touched.iter() {
            match self.coefficients.get(*variable) {
                Some(coefficient) if *coefficient != 0 => entries.push(Entry {
                    variable: *variable,
                    coefficient: *coefficient,
                })?,
                _ => {}
            }
        }
        Ok(())
    }
}
