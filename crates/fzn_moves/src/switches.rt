// Comparisons of one variable with a number, switched by a Boolean.
use fzn_meaning::{Comparison, Constraint, Relation, Sum};
use fzn_values::Term;

/// The switch is 1 exactly where the variable, times the coefficient, compares so with the bound.
#[derive(Clone, Copy, Debug)]
pub struct Switch {
    /// The number of the Boolean, less one.
    pub boolean: usize,
    /// The number of the variable, less one.
    pub variable: usize,
    coefficient: i64,
    comparison: Comparison,
    bound: i64,
}

impl Switch {
    /// That of a constraint, where it is one.
    pub fn of(constraint: &Constraint) -> Option<Switch> {
        match constraint {
            Constraint::Compare {
                relation,
                left,
                right,
                switch: Some(Term::Variable(boolean)),
            } => {
                let (variable, coefficient, number) = match (*left, *right) {
                    (Term::Variable(var), Term::Constant(k)) => (var, 1, k),
                    (Term::Constant(k), Term::Variable(var)) => (var, -1, k.saturating_neg()),
                    _ => return None,
                };
                let (comparison, bound) = compared(*relation, number);
                Some(Switch {
                    boolean: boolean.0.saturating_sub(1),
                    variable: variable.0.saturating_sub(1),
                    coefficient,
                    comparison,
                    bound,
                })
            }
            Constraint::Linear {
                sum,
                comparison,
                bound,
                switch: Some(Term::Variable(boolean)),
            } => {
                let (variable, coefficient) = only_place(sum)?;
                Some(Switch {
                    boolean: boolean.0.saturating_sub(1),
                    variable,
                    coefficient,
                    comparison: *comparison,
                    bound: *bound,
                })
            }
            _ => None,
        }
    }

    /// What the Boolean is where the variable has this value.
    pub fn at(self, value: i64) -> i64 {
        let product = self.coefficient.saturating_mul(value);
        let holds = match self.comparison {
            Comparison::AtMost => product <= self.bound,
            Comparison::Equal => product == self.bound,
            Comparison::NotEqual => product != self.bound,
        };
        if holds { 1 } else { 0 }
    }
}

/// How a variable compares with a number, of which it stands on the left, or both without their signs.
fn compared(relation: Relation, number: i64) -> (Comparison, i64) {
    match relation {
        Relation::Equal => (Comparison::Equal, number),
        Relation::NotEqual => (Comparison::NotEqual, number),
        Relation::AtMost => (Comparison::AtMost, number),
        Relation::Below => (Comparison::AtMost, number.saturating_sub(1)),
    }
}

/// The number, less one, of the variable of a sum of one place, and its coefficient.
fn only_place(sum: &Sum) -> Option<(usize, i64)> {
    if sum.len() != 1 {
        return None;
    }
    let place = sum.place(0);
    match place.term {
        Term::Constant(_) => None,
        Term::Variable(var) => Some((var.0.saturating_sub(1), place.coefficient)),
    }
}
