// The first two lines.
use crate::step::Version;

/// What the first two lines say: the version, and how many variables and constraints the model has.
#[derive(Clone, Copy, Debug, PartialEq, Eq)]
pub struct Header {
    /// Which steps may follow.
    pub version: Version,
    /// How many variables there are, below 10^18.
    pub variables: u64,
    /// How many constraints there are, below 10^18.
    pub constraints: u64,
}
