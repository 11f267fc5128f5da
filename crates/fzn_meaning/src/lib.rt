//! Models, and what they mean.
//!
//! In: a model and lists of values, one for each variable. Out: whether the values meet a constraint, are a solution, are better than
//! others, and the clause that a solution adds. Proved against `specs/Meaning.antt` (the meaning of each constraint, on the values of
//! its terms by the files that it names, here and in `fzn_values`) and `specs/Solutions.antt` (assignment, solution, better, proper,
//! exhausted, cut).
#![tactic(auto)]

pub use arithmetic::Operation;
pub use boolean::Gate;
pub use constraint::Constraint;
pub use extremum::Extreme;
pub use meaning::holds;
pub use model::{Goal, IndexRange, Kind, Model, OutputItem, Var, better, is_solution};
pub use relation::{Comparison, Relation};
pub use row::{Listed, Part, Row, TablePart, VariablePart, listed_at, product, weighed, weight_at};
pub use solution_cut::cut;
pub use sum::{Sum, plus_product};

mod arithmetic;
mod boolean;
mod comparison;
mod constraint;
mod element;
mod extremum;
mod linear;
mod meaning;
mod model;
mod relation;
mod row;
mod set;
mod solution_cut;
mod sum;
