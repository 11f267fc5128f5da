// The room in which constraints are added up.
ghost use Rattle.std.specs.Prelude.{◌≡◌, ◌↔◌, ◌⊎◌, ◌+◌, ◌*◌, ◌^◌, ◌<◌, ◌≤◌, ℕ, pos, ◌+ℤ◌, ◌-ℤ◌, ◌*ℤ◌, [], ◌∷◌, if◌then◌else◌, nat_eq, length, unsigned_abs, IsTrue, IfOk, IfErr, OnOk};
ghost use Rattle.std.specs.List.{All, Contains};
ghost use Rattle.fzn_list.specs.Limits.{longest};
ghost use Rattle.fzn_domain.specs.Limits.{IsInLimits};
ghost use Rattle.fzn_values.specs.Term.{IsTerm, IsPlace};
ghost use Rattle.fzn_builtin_rules.specs.Borrowed.{places_in, form_in};
ghost use Rattle.fzn_builtin_rules.specs.Form.{Fits};
ghost use Rattle.fzn_cited.specs.declared.fault.DeriveFault.TheVariants.{Memory, NotDerived};
ghost use Rattle.fzn_derive.specs.Merged.{own_constant, constant_of};
ghost use Rattle.fzn_derive.specs.Summed.{times};
ghost use Rattle.fzn_derive.specs.Room.{variables_in, cell_of, HoldsNothing, ListsTouched, IsAdded, IsWithinLimit, AreWithinLimit, IsTermWithin, IsFormAdded, IsPastLimit};

use fzn_builtin_rules::{Form, Places};
use fzn_cited::DeriveFault;
use fzn_meaning::plus_product;
use fzn_values::{Place, Term};
use std::alloc::{AllocError, Global};

/// What coefficients, and the right side, lie between while constraints are added up: 10^18.
const LIMIT: i128 = 1_000_000_000_000_000_000;

/// What is held of a variable.
#[derive(Clone, Copy, Debug, PartialEq, Eq)]
pub(crate) struct Cell {
    /// Its coefficients so far, added up.
    pub(crate) sum: i128,
    /// Whether it is listed.
    pub(crate) touched: bool,
}

/// The room in which constraints are added up, kept from one sum to the next so that each costs what it cites: 32 bytes and up to 8 more
/// for each variable.
#[derive(Drop)]
pub(crate) struct Adder {
    /// One for each variable, in order.
    pub(crate) cells: Vec<Cell>,
    /// The places, from 0, of the variables of which something is held.
    pub(crate) touched: Vec<usize>,
}

impl Adder {
    /// Room for a model of so many variables, which holds nothing. It answers `Err` where memory runs out.
    pub(crate) fn new(alloc: Global, variables: usize) -> Result<Adder, AllocError>
        ensures { IfOk result (HoldsNothing variables) }
    {
        let blank = Cell {
            sum: 0,
            touched: false,
        };
        let cells = Vec::from_elem(alloc, blank, variables)?;
        Ok(Adder {
            cells,
            touched: Vec::new(alloc),
        })
    }

    /// Holds nothing any more.
    pub(crate) fn clear(&mut self)
        requires { ListsTouched self.old }
        ensures { HoldsNothing (variables_in self.old) self.new }
    {
        for i in 0..self.touched.len() {
            let place = self.touched[i];
            self.cells[place] = Cell {
                sum: 0,
                touched: false,
            };
        }
        self.touched.clear();
    }

    /// Lists a variable, where it is not listed yet.
    fn list(&mut self, place: usize) -> Result<(), AllocError>
        requires inside { place < variables_in self.old }
        requires listed { ListsTouched self.old }
        ensures cells { self.new.cells.items ≡ self.old.cells.items }
        ensures listed { ListsTouched self.new }
        ensures contains { OnOk result (Contains self.new.touched.items place) }
    {
        if self.cells[place].touched {
            Ok(())
        } else {
            self.touched.push(place)?;
            Ok(())
        }
    }

    /// Adds to what a variable counts.
    fn add(&mut self, place: usize, amount: i128) -> Result<(), AllocError>
        requires inside { place < variables_in self.old }
        requires listed { ListsTouched self.old }
        requires sum { unsigned_abs (cell_of self.old place).sum ≤ 2 ^ 125 }
        requires amount { unsigned_abs amount ≤ 2 ^ 125 }
        ensures listed { ListsTouched self.new }
        ensures len { variables_in self.new ≡ variables_in self.old }
        ensures added { OnOk result ((k : ℕ) → (cell_of self.new k).sum ≡ (cell_of self.old k).sum +ℤ (if nat_eq k place then amount else pos 0)) }
    {
        self.list(place)?;
        let sum = self.cells[place].sum + amount;
        self.cells[place] = Cell { sum, touched: true };
        Ok(())
    }

    /// Adds a place, times a multiplier, and answers what is left of the right side.
    fn add_place(&mut self, multiplier: i64, place: Place, bound: i128) -> Result<i128, AllocError>
        requires multiplier { unsigned_abs multiplier ≤ 1000000000000 }
        requires fits { IsPlace (variables_in self.old) place }
        requires listed { ListsTouched self.old }
        requires sums { (k : ℕ) → unsigned_abs (cell_of self.old k).sum ≤ 2 ^ 124 }
        requires bound { unsigned_abs bound ≤ 2 ^ 125 }
        ensures listed { ListsTouched self.new }
        ensures len { variables_in self.new ≡ variables_in self.old }
        ensures added { OnOk result (IsAdded self.old self.new (times multiplier (place ∷ []))) }
        ensures left { IfOk result (λ left. left ≡ bound -ℤ constant_of (times multiplier (place ∷ []))) }
    {
        let coefficient = plus_product(0, place.coefficient, multiplier);
        match place.term {
            Term::Constant(k) => Ok(less_product(bound, coefficient, k)),
            Term::Variable(var) => {
                self.add(var.0 - 1, coefficient)?;
                Ok(bound)
            }
        }
    }

    /// Adds places, each times a multiplier, and answers what is left of the right side.
    fn add_places(
        &mut self,
        multiplier: i64,
        places: &Places<'_>,
        bound: i128,
    ) -> Result<i128, AllocError>
        requires multiplier { unsigned_abs multiplier ≤ 1000000000000 }
        requires fit { All (IsPlace (variables_in self.old)) (places_in places.now) }
        requires few { length (places_in places.now) ≤ 2 * longest }
        requires listed { ListsTouched self.old }
        requires sums { AreWithinLimit self.old }
        requires bound { unsigned_abs bound ≤ 2 ^ 72 }
        ensures listed { ListsTouched self.new }
        ensures len { variables_in self.new ≡ variables_in self.old }
        ensures added { OnOk result (IsAdded self.old self.new (times multiplier (places_in places.now))) }
        ensures left { IfOk result (λ left. left ≡ bound -ℤ constant_of (times multiplier (places_in places.now))) }
    {
        let mut left = bound;
        for i in 0..places.len() {
            left = self.add_place(multiplier, places.place(i), left)?;
        }
        Ok(left)
    }

    /// Whether what a variable counts is within the limit.
    fn is_term_within(&self, term: Term) -> bool
        requires { IsTerm (variables_in self.now) term }
        ensures { IsTrue result ↔ IsTermWithin self.now term }
    {
        match term {
            Term::Constant(_) => true,
            Term::Variable(var) => is_within_limit(self.cells[var.0 - 1].sum),
        }
    }

    /// Whether what each variable of the places counts is within the limit.
    fn are_within(&self, places: &Places<'_>) -> bool
        requires fit { All (IsPlace (variables_in self.now)) (places_in places.now) }
        requires few { length (places_in places.now) ≤ 2 * longest }
        ensures { IsTrue result ↔ All (λ place. IsTermWithin self.now place.term) (places_in places.now) }
    {
        for i in 0..places.len() {
            if !self.is_term_within(places.place(i).term) {
                return false;
            }
        }
        true
    }

    /// Adds a form times a multiplier, and answers the right side so far.
    pub(crate) fn add_form(
        &mut self,
        multiplier: i64,
        form: &Form<'_>,
        bound: i128,
    ) -> Result<i128, DeriveFault>
        requires multiplier { unsigned_abs multiplier ≤ 1000000000000 }
        requires form { Fits (variables_in self.old) (form_in form.now) }
        requires listed { ListsTouched self.old }
        requires sums { AreWithinLimit self.old }
        requires bound { IsWithinLimit bound }
        ensures listed { ListsTouched self.new }
        ensures len { variables_in self.new ≡ variables_in self.old }
        ensures added { IfOk result (IsFormAdded self.old self.new bound multiplier (form_in form.now)) }
        ensures fault { IfErr result (λ fault. (fault ≡ Memory) ⊎ ((fault ≡ NotDerived) × IsPastLimit self.old bound multiplier (form_in form.now))) }
    {
        let bound = plus_product(bound, form.bound, multiplier);
        let left = self.add_places(multiplier, &form.places, bound)?;
        if self.are_within(&form.places) && is_within_limit(left) {
            Ok(left)
        } else {
            Err(DeriveFault::NotDerived)
        }
    }
}

/// What is left of a number when a product is taken from it.
fn less_product(number: i128, coefficient: i128, value: i64) -> i128
    requires number { unsigned_abs number ≤ 2 ^ 125 }
    requires coefficient { unsigned_abs coefficient ≤ 1000000000 * 2 ^ 63 }
    requires value { IsInLimits value }
    ensures { result ≡ number -ℤ coefficient *ℤ value }
{
    number - coefficient * value as i128
}

pub(crate) fn is_within_limit(sum: i128) -> bool
    ensures { IsTrue result ↔ IsWithinLimit sum }
{
    -LIMIT <= sum && sum <= LIMIT
}
