// What a search learns from a conflict.

/// Which clause is learned.
#[derive(Clone, Copy, Debug, PartialEq, Eq)]
pub enum Learn {
    /// That of the decisions that led to the conflict: one of them is wrong.
    Plain,
    /// That of the first unique implication point (Zhang, Madigan, Moskewicz, Malik, Efficient Conflict Driven Learning, 2001), and where
    /// it does not serve the plain one.
    First,
}
