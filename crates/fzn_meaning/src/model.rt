// Models, their solutions, and which of two is better.
ghost use Rattle.std.specs.Prelude.{◌≡◌, ◌↔◌, IsTrue, length, List};
ghost use Rattle.std.specs.List.{All};
ghost use Rattle.fzn_domain.specs.Narrow.{IsWithin};
ghost use Rattle.fzn_meaning.specs.Meaning.{Meets, IsWellFormedConstraint};
ghost use Rattle.fzn_meaning.specs.Solutions.{IsSolution, IsBetter, declared_sets};
ghost use Rattle.fzn_meaning.specs.WellFormed.{IsGoal};

use crate::constraint::Constraint;
use crate::meaning::holds;
use fzn_domain::{Domain, VarId};
use fzn_list::{Items, Text};
use fzn_values::Term;

/// How the values of a variable are printed. `false` is 0 and `true` is 1.
#[derive(Clone, Copy, Debug, PartialEq, Eq)]
pub enum Kind {
    /// As numbers.
    Integer,
    /// As `false` and `true`.
    Boolean,
}

/// A declared variable.
#[derive(Drop)]
pub struct Var {
    /// As the file spells it.
    pub name: Text,
    /// The values that it may have, 0 and 1 of a Boolean.
    pub domain: Domain,
    /// How its values are printed.
    pub kind: Kind,
}

/// What is wanted of a solution.
#[derive(Clone, Copy, Debug, PartialEq, Eq)]
pub enum Goal {
    /// Any solution.
    Satisfy,
    /// A solution with the least value of this variable.
    Minimize(VarId),
    /// A solution with the greatest value of this variable.
    Maximize(VarId),
}

/// The indices of one dimension of a printed array, as they were given.
#[derive(Clone, Copy, Debug, PartialEq, Eq)]
pub struct IndexRange {
    /// The first index.
    pub low: i64,
    /// The last index; there is none where it is below the first.
    pub high: i64,
}

/// A marked declaration, one line of a printed solution.
#[derive(Debug, Drop)]
pub enum OutputItem {
    /// A variable, printed with its value.
    Single {
        name: Text,
        kind: Kind,
        var: VarId,
    },
    /// An array, printed with its index ranges and the values of its entries.
    Array {
        name: Text,
        kind: Kind,
        ranges: Items<IndexRange>,
        entries: Items<Term>,
    },
}

/// What a file asks. Variables and constraints are numbered from 1 in the order of these lists, each of which has at most 100,000.
#[derive(Drop)]
pub struct Model {
    /// The variables in order of declaration.
    pub vars: Items<Var>,
    /// Those of the constraint items, and then those that declarations add.
    pub constraints: Items<Constraint>,
    /// What is wanted.
    pub goal: Goal,
    /// The variables that the output items name, each once, in rising order.
    pub outputs: Items<VarId>,
    /// What is printed of a solution, in order of declaration.
    pub shown: Items<OutputItem>,
}

/// Whether the values, one for each variable in order, are a solution. A list of another length than that of the variables is none.
pub fn is_solution(model: &Model, values: &[i64]) -> bool
    requires { All (IsWellFormedConstraint (length model.now.vars)) model.now.constraints }
    ensures { IsTrue result ↔ IsSolution model.now values.now }
{
    is_assignment(model.vars.as_slice(), values) && meets_all(model.constraints.as_slice(), values)
}

fn is_assignment(vars: &[Var], values: &[i64]) -> bool
    ensures within { IsTrue result ↔ IsWithin (declared_sets vars.now) values.now }
    ensures same_length { IsTrue result → length values.now ≡ length vars.now }
{
    if vars.len() != values.len() {
        return false;
    }
    for i in 0..vars.len() {
        if !vars[i].domain.contains(values[i]) {
            return false;
        }
    }
    true
}

fn meets_all(constraints: &[Constraint], values: &[i64]) -> bool
    requires { All (IsWellFormedConstraint (length values.now)) constraints.now }
    ensures { IsTrue result ↔ All (λ constraint. Meets constraint values.now) constraints.now }
{
    for constraint in constraints {
        if !holds(constraint, values) {
            return false;
        }
    }
    true
}

/// Whether the first values, one for each variable in order, are better than the second by the model's goal. It is false for `satisfy`.
pub fn better(model: &Model, first: &[i64], second: &[i64]) -> bool
    requires first { IsGoal (length first.now) model.now.goal }
    requires second { IsGoal (length second.now) model.now.goal }
    ensures { IsTrue result ↔ IsBetter model.now first.now second.now }
{
    match model.goal {
        Goal::Satisfy => false,
        Goal::Minimize(var) => first[var.0 - 1] < second[var.0 - 1],
        Goal::Maximize(var) => first[var.0 - 1] > second[var.0 - 1],
    }
}
