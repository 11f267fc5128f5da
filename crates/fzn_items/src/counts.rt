// How many of each a file has.

/// How many of each a file has.
#[derive(Clone, Copy, Debug, PartialEq, Eq)]
pub struct Counts {
    /// The parameters, single ones and arrays.
    pub parameters: usize,
    /// The variables.
    pub variables: usize,
    /// The arrays of variables.
    pub arrays: usize,
    /// The constraints, those of declarations among them.
    pub constraints: usize,
    /// The places that are mended.
    pub mended: usize,
}
