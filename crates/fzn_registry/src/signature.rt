//! What a constraint is given.

use crate::name::Name;

/// What may stand at the place of an argument.
#[derive(Clone, Copy, Debug, PartialEq, Eq)]
pub enum Argument {
    /// An integer constant or variable.
    Integer,
    /// A Boolean constant or variable.
    Boolean,
    /// An integer constant.
    IntegerConstant,
    /// A Boolean constant.
    BooleanConstant,
    /// Integer constants and variables.
    IntegerList,
    /// Boolean constants and variables.
    BooleanList,
    /// Integer constants.
    IntegerConstantList,
    /// Boolean constants.
    BooleanConstantList,
    /// A constant set.
    Set,
}

/// What is asked of the lengths of the lists among the arguments, which are named by their places, from 0.
#[derive(Clone, Copy, Debug, PartialEq, Eq)]
pub enum Lengths {
    /// Nothing is asked of them.
    Free,
    /// Both lists have one length.
    SameLength(usize, usize),
    /// The list has an entry.
    NotEmpty(usize),
    /// `row` has an entry, and the length of `table` is a multiple of its length.
    Table { row: usize, table: usize },
    /// All three lists have one length.
    Tasks(usize, usize, usize),
}

/// A row of the table: what a constraint is given.
#[derive(Clone, Copy, Debug)]
pub struct Signature {
    /// The constraint's name.
    pub name: Name,
    /// The kinds of its arguments, in order.
    pub arguments: &'static [Argument],
    /// What is asked of the lengths of its lists.
    pub lengths: Lengths,
    /// The places of the arguments whose constants must not be below 0, counted from 0.
    pub non_negative: &'static [usize],
}
