// The constraint that a sum is.
ghost use Rattle.std.specs.Prelude.{◌≡◌, ◌↔◌, ◌⊎◌, ◌<◌, ◌++◌, [], ◌∷◌, if◌then◌else◌, map, length, None, IsTrue, IfOk, IfErr, OnOk};
ghost use Rattle.std.specs.List.{All, filter};
ghost use Rattle.fzn_domain.specs.Limits.{IsSmall};
ghost use Rattle.fzn_values.specs.Term.{weighted};
ghost use Rattle.fzn_meaning.specs.declared.constraint.Constraint.TheVariants.{Linear};
ghost use Rattle.fzn_meaning.specs.declared.relation.Comparison.TheVariants.{AtMost};
ghost use Rattle.fzn_cited.specs.declared.fault.DeriveFault.TheVariants.{Memory, NotDerived};
ghost use Rattle.fzn_derive.specs.Merged.{has_weight};
ghost use Rattle.fzn_derive.specs.Summed.{IsStatable};
ghost use Rattle.fzn_derive.specs.Room.{variables_in, cell_of, ListsTouched, sum_place, held};

use crate::adder::Adder;
use crate::order::in_order;
use fzn_cited::DeriveFault;
use fzn_domain::VarId;
use fzn_list::{Items, LONGEST, Shared};
use fzn_meaning::{Comparison, Constraint, Sum};
use fzn_values::Term;
use std::alloc::{AllocError, Global};

/// How far from 0 a coefficient and a bound of a constraint lie at the most: 10^9.
const GREATEST: i128 = 1_000_000_000;

impl Adder {
    /// The sum that is held is at most the bound.
    pub(crate) fn state(&self, alloc: Global, bound: i128) -> Result<Constraint, DeriveFault>
        requires { ListsTouched self.now }
        ensures stated { IfOk result (λ constraint. constraint ≡ Linear (held self.now) AtMost bound None) }
        ensures statable { OnOk result (IsStatable (held self.now) bound) }
        ensures fault { IfErr result (λ fault. (fault ≡ Memory) ⊎ ((fault ≡ NotDerived) × (IsStatable (held self.now) bound → ⊥))) }
    {
        if !self.are_small() {
            return Err(DeriveFault::NotDerived);
        }
        if !is_small(bound) {
            return Err(DeriveFault::NotDerived);
        }
        let order = in_order(alloc, self.touched.as_slice())?;
        let sum = self.sum_over(alloc, order.as_slice())?;
        if LONGEST < sum.len() {
            return Err(DeriveFault::NotDerived);
        }
        Ok(Constraint::Linear {
            sum,
            comparison: Comparison::AtMost,
            bound: bound as i64,
            switch: None,
        })
    }

    /// Whether what is held of each listed variable is a coefficient of a constraint.
    fn are_small(&self) -> bool
        requires { ListsTouched self.now }
        ensures { IsTrue result ↔ All (λ place. IsSmall (cell_of self.now place).sum) self.now.touched.items }
    {
        for i in 0..self.touched.len() {
            let place = self.touched[i];
            if !is_small(self.cells[place].sum) {
                return false;
            }
        }
        true
    }

    /// What is held of the variables at these places, in their order, but for those of which it is 0.
    fn sum_over(&self, alloc: Global, order: &[usize]) -> Result<Sum, AllocError>
        requires inside { All (λ place. place < variables_in self.now) order.now }
        requires small { All (λ place. IsSmall (cell_of self.now place).sum) order.now }
        ensures { IfOk result (λ sum. sum ≡ filter has_weight (map (sum_place self.now) order.now)) }
    {
        let mut numbers = Items::new(alloc);
        let mut terms = Items::new(alloc);
        for place in order {
            self.push_held(*place, &mut numbers, &mut terms)?;
        }
        let numbers = Shared::new(alloc, numbers)?;
        let terms = Shared::new(alloc, terms)?;
        Ok(Sum::new(numbers, terms))
    }

    /// Puts what is held of the variable at the end, unless it is 0.
    fn push_held(
        &self,
        place: usize,
        numbers: &mut Items<Term>,
        terms: &mut Items<Term>,
    ) -> Result<(), AllocError>
        requires inside { place < variables_in self.now }
        requires small { IsSmall (cell_of self.now place).sum }
        requires even { length numbers.old ≡ length terms.old }
        ensures even { OnOk result (length numbers.new ≡ length terms.new) }
        ensures pushed { OnOk result (weighted numbers.new terms.new ≡ weighted numbers.old terms.old ++ filter has_weight (sum_place self.now place ∷ [])) }
    {
        let sum = self.cells[place].sum;
        if sum == 0 {
            return Ok(());
        }
        numbers.push(Term::Constant(sum as i64))?;
        terms.push(Term::Variable(VarId(place + 1)))?;
        Ok(())
    }
}

fn is_small(number: i128) -> bool
    ensures { IsTrue result ↔ IsSmall number }
{
    -GREATEST <= number && number <= GREATEST
}
