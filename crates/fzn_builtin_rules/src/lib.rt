//! The certificate's rules for the builtins: `lin`, `rows`, `box`, `fixed` and `enum`.
//!
//! In: a constraint and the present sets. Out: whether the rule is met. Proved against a file of `specs/` for each rule (`Form`, `Rows`,
//! `Product`, `Choices`), and against the meaning of constraints: where a rule is met, no choice of one value from each set meets the
//! constraint.
#![tactic(auto)]

pub use choices::{is_enum_met, is_fixed_met};
pub use ends::{Ends, Products, products_of};
pub use form::{Form, Places, form_of};
pub use law::{form_is_meant, relation_is_meant};
pub use linear::is_lin_met;
pub use outcome::outcome_of;
pub use product::is_box_met;
pub use rows::is_rows_met;

mod choices;
mod chosen;
mod ends;
mod form;
mod law;
mod linear;
mod numbered;
mod outcome;
mod overlap;
mod product;
mod rows;
