// The constraints that say whether a sum of Booleans is odd or even.
use fzn_domain::Memory;
use fzn_meaning::{Constraint, Model, Relation};
use fzn_multipliers::{Bounds, declared_bounds};
use fzn_values::Term;
use std::alloc::Global;

/// Equalities of Booleans that say nothing of others are left out so many times, each of which may bare others.
const ROUNDS: usize = 8;

/// The sum of some variables is odd, or it is even.
#[derive(Clone, Copy, Debug)]
pub struct Parity {
    /// The number of the constraint that says so, counted from 1.
    pub constraint: u64,
    /// Whether it is odd.
    pub is_odd: bool,
    /// The place of its first variable.
    start: usize,
    /// The place behind its last one.
    end: usize,
}

/// Those of a model.
#[derive(Debug, Drop)]
pub struct Parities {
    /// In the order of the constraints.
    pub all: Vec<Parity>,
    /// Their variables, by their numbers less one.
    variables: Vec<usize>,
}

impl Parities {
    /// Those that say something of each other: an equality of a variable that stands in no other is left out. None where no sum is of three
    /// variables or more.
    pub fn of(alloc: Global, model: &Model) -> Result<Parities, Memory> {
        let mut parities = Parities {
            all: Vec::new(alloc),
            variables: Vec::new(alloc),
        };
        let bounds = declared_bounds(alloc, model)?;
        let mut number = 0u64;
        for constraint in model.constraints.as_slice() {
            number = number.saturating_add(1);
            parities.read(&bounds, number, constraint)?;
        }
        if parities.has_long() {
            for _ in 0..ROUNDS {
                parities.leave_out(alloc, bounds.len())?;
            }
        } else {
            parities.all.clear();
        }
        Ok(parities)
    }

    fn read(
        &mut self,
        bounds: &[Bounds],
        number: u64,
        constraint: &Constraint,
    ) -> Result<(), Memory> {
        match constraint {
            Constraint::ArrayBoolXor { inputs } => {
                self.add(bounds, number, inputs.as_slice(), true)
            }
            Constraint::BoolXor {
                left,
                right,
                result,
            } => self.add(bounds, number, &[*left, *right, *result], false),
            Constraint::BoolNot { left, right } => {
                self.add(bounds, number, &[*left, *right], true)
            }
            Constraint::Compare {
                relation: Relation::Equal,
                left,
                right,
                switch: None,
            } => self.add(bounds, number, &[*left, *right], false),
            Constraint::BoolToInt { boolean, integer } => {
                self.add(bounds, number, &[*boolean, *integer], false)
            }
            _ => Ok(()),
        }
    }

    /// The sum of these terms, where each of them is Boolean.
    fn add(
        &mut self,
        bounds: &[Bounds],
        constraint: u64,
        terms: &[Term],
        is_odd: bool,
    ) -> Result<(), Memory> {
        let start = self.variables.len();
        let mut is_odd = is_odd;
        for term in terms {
            match *term {
                Term::Constant(0) => {}
                Term::Constant(1) => is_odd = !is_odd,
                Term::Variable(var) if is_boolean(bounds, var.0.saturating_sub(1)) => {
                    self.variables.push(var.0.saturating_sub(1))?;
                }
                _ => return Ok(()),
            }
        }
        self.all.push(Parity {
            constraint,
            is_odd,
            start,
            end: self.variables.len(),
        })?;
        Ok(())
    }

    /// The variables of a sum. One that stands twice counts as none.
    pub fn variables_of(&self, parity: Parity) -> &[usize] {
        if parity.start <= parity.end && parity.end <= self.variables.len() {
            &self.variables[parity.start..parity.end]
        } else {
            &[]
        }
    }

    /// Whether a sum is of three variables or more.
    fn has_long(&self) -> bool {
        for parity in self.all.iter() {
            if 2 < self.variables_of(*parity).len() {
                return true;
            }
        }
        false
    }

    /// Leaves out the sums of two variables of which one stands in no other sum.
    fn leave_out(&mut self, alloc: Global, vars: usize) -> Result<(), Memory> {
        let mut counts = vec![in alloc; 0usize; vars]?;
        for parity in self.all.iter() {
            for variable in self.variables_of(*parity) {
                if let Some(count) = counts.get_mut(*variable) {
                    *count = count.saturating_add(1);
                }
            }
        }
        let mut left = Vec::new(alloc);
        for parity in self.all.iter() {
            if !is_bare(self.variables_of(*parity), &counts) {
                left.push(*parity)?;
            }
        }
        self.all = left;
        Ok(())
    }
}

/// Whether there are two variables, of which one is counted once.
fn is_bare(variables: &[usize], counts: &[usize]) -> bool {
    match variables {
        [one, other] => {
            counts.get(*one).copied() == Some(1) || counts.get(*other).copied() == Some(1)
        }
        _ => false,
    }
}

fn is_boolean(bounds: &[Bounds], variable: usize) -> bool {
    match bounds.get(variable) {
        Some(bounds) => bounds.is_boolean(),
        None => false,
    }
}
