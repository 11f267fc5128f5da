// The constraints of a model.

use crate::arithmetic::Operation;
use crate::boolean::Gate;
use crate::extremum::Extreme;
use crate::relation::{Comparison, Relation};
use crate::row::Row;
use crate::sum::Sum;
use fzn_domain::Domain;
use fzn_list::Shared;
use fzn_values::{Rows, Term};

/// A numbered constraint (MiniZinc Handbook, FlatZinc builtins; Global Constraint Catalog). Each constant in it lies within the limits of a
/// value, each coefficient and bound from -10^9 to 10^9, and a list has at most 100,000 entries. A switch is a Boolean term that is 1
/// exactly when the constraint without it holds.
#[derive(Drop)]
pub enum Constraint {
    /// `int_eq`, `int_ne`, `int_le`, `int_lt`, `bool_eq`, `bool_le`, `bool_lt`, and with a switch their `_reif` forms.
    Compare {
        relation: Relation,
        left: Term,
        right: Term,
        switch: Option<Term>,
    },
    /// `bool_not`: the two differ.
    BoolNot {
        left: Term,
        right: Term,
    },
    /// `bool2int`
    BoolToInt {
        boolean: Term,
        integer: Term,
    },
    /// `int_lin_eq`, `int_lin_le`, `int_lin_ne`, `bool_lin_le`, and with a switch the `_reif` forms of the first three.
    Linear {
        sum: Sum,
        comparison: Comparison,
        bound: i64,
        switch: Option<Term>,
    },
    /// `bool_lin_eq`: the sum is the value of a term.
    BoolLinEq {
        sum: Sum,
        total: Term,
    },
    /// `int_plus`, `int_times`, `int_div`, `int_mod`
    Arithmetic {
        operation: Operation,
        left: Term,
        right: Term,
        result: Term,
    },
    /// `int_abs`: the result is the absolute value of the other term.
    IntAbs {
        of: Term,
        result: Term,
    },
    /// `int_min`, `int_max` with two entries, `array_int_minimum`, `array_int_maximum`
    Extremum {
        extreme: Extreme,
        entries: Shared<Term>,
        result: Term,
    },
    /// The four element constraints: the value is the entry at the index, counted from 1.
    Element {
        index: Term,
        entries: Shared<Term>,
        value: Term,
    },
    /// `set_in`, and with a switch `set_in_reif`.
    SetIn {
        term: Term,
        set: Domain,
        switch: Option<Term>,
    },
    /// `bool_and`, `bool_or` with two inputs, `array_bool_and`, `array_bool_or`
    Gated {
        gate: Gate,
        inputs: Shared<Term>,
        result: Term,
    },
    /// `bool_xor`: the result is 1 exactly when one of the two is.
    BoolXor {
        left: Term,
        right: Term,
        result: Term,
    },
    /// `array_bool_xor`: an odd number of inputs are 1.
    ArrayBoolXor {
        inputs: Shared<Term>,
    },
    /// `bool_clause`: some positive term is 1, or some negative one is 0.
    BoolClause {
        positive: Shared<Term>,
        negative: Shared<Term>,
    },
    /// `fzn_all_different_int`: no two places have one value.
    AllDifferent {
        places: Shared<Term>,
    },
    /// `fzn_table_int`: some row equals the places, of which there is one. The rows stand one after another, each as long as the places.
    Table {
        places: Shared<Term>,
        rows: Rows,
    },
    /// `fzn_cumulative`: no duration, use or capacity is below 0, and the tasks that run at one time use no more than the capacity
    /// together. The three lists have one length.
    Cumulative {
        starts: Shared<Term>,
        durations: Shared<Term>,
        uses: Shared<Term>,
        capacity: Term,
    },
    /// `fzn_circuit`: from each place, counted from 1, to its successor is one cycle through all places.
    Circuit {
        successors: Shared<Term>,
    },
    /// `fzn_inverse`: each list leads back from the places that the other names, counted from 1. The two have one length.
    Inverse {
        forward: Shared<Term>,
        backward: Shared<Term>,
    },
    /// What the variables weigh at their values is at most a bound together. No file states one: a certificate of version three derives it.
    Row(Row),
}
