// Terms, and terms with a coefficient.
ghost use Rattle.std.specs.Prelude.{◌≡◌, length};
ghost use Rattle.fzn_values.specs.Term.{number_in, term_value, IsTerm};

use fzn_domain::VarId;

/// A constant or a variable.
#[derive(Clone, Copy, Debug, PartialEq, Eq)]
pub enum Term {
    /// This number, within the limits of a value.
    Constant(i64),
    /// The variable with this number.
    Variable(VarId),
}

impl Term {
    /// The value of the term where the variables have these values.
    pub fn value(self, values: &[i64]) -> i64
        requires { IsTerm (length values.now) self }
        ensures { result ≡ term_value values.now self }
    {
        match self {
            Term::Constant(k) => k,
            Term::Variable(var) => values[var.0 - 1],
        }
    }

    /// The number that a constant is, else 0.
    pub fn number(self) -> i64
        ensures { result ≡ number_in self }
    {
        match self {
            Term::Constant(number) => number,
            Term::Variable(_) => 0,
        }
    }
}

/// A term with the number that it is multiplied with.
#[derive(Clone, Copy, Debug, PartialEq, Eq)]
pub struct Place {
    /// What the term is multiplied with, from -10^9 to 10^9.
    pub coefficient: i64,
    /// The constant or variable.
    pub term: Term,
}
