// What the first two lines of a certificate of version three say.

/// How many variables and constraints the model has, and how many lines derive a constraint each.
#[derive(Clone, Copy, Debug, PartialEq, Eq)]
pub struct Head {
    /// How many variables there are, below 10^18.
    pub variables: u64,
    /// How many constraints the model has, below 10^18.
    pub constraints: u64,
    /// How many lines derive a constraint, below 10^18.
    pub derived: u64,
}
