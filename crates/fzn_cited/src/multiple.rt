// Constraints with the numbers that they are multiplied with.

/// A constraint with the number that its form is multiplied with.
#[derive(Clone, Copy, Debug, PartialEq, Eq)]
pub struct Multiple {
    /// From -10^12 to 10^12, where it is to be taken.
    pub multiplier: i64,
    /// The number of the constraint, counted from 1.
    pub constraint: u64,
}
