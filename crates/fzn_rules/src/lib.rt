//! The rules of a certificate: each shows that no choice of one value from each set meets a constraint.
//!
//! In: a constraint, a set for each variable and a rule with its hints. Out: whether the rule is met; what a part of a row weighs at least.
//! Proved against `specs/Rules.antt` (when a rule is met), with a file of `specs/` for each rule of the five globals (all different, table,
//! cumulative, circuit and inverse) and for that of rows, and against the meaning of constraints: where a rule is met, no choice of values
//! meets the constraint. The rules of builtins stand in `fzn_builtin_rules`.
#![tactic(auto)]

pub use cut::is_cut_met;
pub use energy::is_energy_met;
pub use global_rows::is_global_rows_met;
pub use hall::is_hall_met;
pub use light::{is_light, row_weight};
pub use load::is_load_met;
pub use pair::is_pair_met;
pub use refutation::refutes;
pub use rule::{GREATEST_HINT, LEAST_HINT, Rule};
pub use separable::{is_row_met, least_at_values, least_weight};

mod cut;
mod energy;
mod global_rows;
mod hall;
mod light;
mod load;
mod pair;
mod refutation;
mod rule;
mod separable;
mod task;
