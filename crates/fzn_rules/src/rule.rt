// The rules with their hints.
use fzn_list::Items;

/// The least number that a hint may be.
pub const LEAST_HINT: i64 = -4_000_000_000;

/// The greatest number that a hint may be.
pub const GREATEST_HINT: i64 = 4_000_000_000;

/// A test that refutes a constraint on sets of values, with its hints.
#[derive(Debug, Drop)]
pub enum Rule {
    /// The least and the greatest sum leave no way to meet the constraint.
    Lin,
    /// The sets leave no row, entry or value that the constraint asks for.
    Rows,
    /// The bounds of a product exclude each value of the result.
    Box,
    /// The one choice for the inputs leaves no value for the result.
    Fixed,
    /// No choice for the inputs leaves a value for the result.
    Enum,
    /// `hall`: more places than values from the first number to the second.
    Hall(i64, i64),
    /// `load`: the tasks that run at this time use more than the capacity.
    Load(i64),
    /// `energy`: the tasks use more than the capacity from the first time up to the second.
    Energy(i64, i64),
    /// `cut`: these places, counted from 1 and in rising order, lead only to one another.
    Cut(Items<i64>),
    /// `pair`: one of the two, counted from 1, says that they belong together, and the other that they do not.
    Pair(i64, i64),
    /// What the parts of a row weigh at least is more than its bound, or all values of a variable or all rows of a table are barred.
    Row,
}
