// How long a list is.

/// How many variables, and how many constraints, a model has at the most, and how many entries each of its lists.
pub const LONGEST: usize = 100_000;
