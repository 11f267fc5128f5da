// What is mended in a file.

/// The bytes of a file from `start` up to `end`, both counted from 0.
#[derive(Clone, Copy)]
pub struct Part {
    /// The place of the first byte, counted from 0.
    pub start: usize,
    /// The place behind the last byte, which is not below `start`.
    pub end: usize,
}

/// How a type is mended.
#[derive(Clone, Copy)]
pub enum Change {
    /// An integer without bounds gets the least and the greatest number of a file.
    Unbounded,
    /// The sets of an empty array become integers.
    Sets,
}

/// A type that is mended, with the name that is declared of it.
#[derive(Clone, Copy)]
pub struct Place {
    /// How the type is mended.
    pub change: Change,
    /// Where the name stands that is declared of the type.
    pub name: Part,
    /// Where the type itself stands.
    pub at: Part,
}

/// A goal that is a constant.
#[derive(Clone, Copy)]
pub struct ConstantGoal {
    /// Whether the least value is wanted, or else the greatest.
    pub is_least: bool,
    /// The constant, which is a number of the file or that of a named parameter.
    pub value: i64,
    /// Where the number stands in the goal, or the name.
    pub at: Part,
}
