// How two numbers stand to one another.

/// How one term stands to another.
#[derive(Clone, Copy, Debug, PartialEq, Eq)]
pub enum Relation {
    /// The two have one value.
    Equal,
    /// They have different values.
    NotEqual,
    /// The first is not greater.
    AtMost,
    /// The first is less.
    Below,
}

/// How a sum stands to a bound.
#[derive(Clone, Copy, Debug, PartialEq, Eq)]
pub enum Comparison {
    /// The sum is not greater than the bound.
    AtMost,
    /// It is the bound.
    Equal,
    /// It is another number.
    NotEqual,
}
