//! What the names, values and types in a FlatZinc file stand for, and the names that its declarations declare.
//!
//! In: the names that are declared so far, each with what it stands for, and the values, types and variables of a tree; then its
//! parameters and variables. Out: the terms, sets and model variables that they are, or the position of a value that is faulty; then what
//! each name stands for, the variables, and what is printed, or the first fault. Proved against `specs/Values.antt` (what each stands
//! for), `specs/Types.antt` (which values are of the wanted type), `specs/Variables.antt`, `specs/Declarations.antt` (the faults of each
//! declaration, in the order in which they count, and the names) and `specs/Outputs.antt`.
#![tactic(auto)]

pub use annotation::{is_array_mark, is_marked, ranges_of};
pub use declaration::names_of;
pub use domain::{kind_of, no_values, set_of, values_in, vars_of};
pub use entry::{first_set_in, first_unknown_in, first_wrong_in};
pub use flag::outputs_of;
pub use named_list::{NamedList, is_negative};
pub use names::{Declared, Names};
pub use output::shown_of;
pub use value::{
    array_of, has_negative_entry, list_of, literal_terms, position_of, position_of_literal,
    set_literal, term_of, terms_of, unknown_in, variable_of, wrong_in, wrong_literal,
};

mod annotation;
mod declaration;
mod domain;
mod entry;
mod fault;
mod flag;
mod named_list;
mod names;
mod output;
mod param;
mod value;
