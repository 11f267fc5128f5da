// How a constraint is derived.
use fzn_cited::Multiple;
use fzn_domain::VarId;
use fzn_list::Items;
use fzn_row::RowItem;

/// How a constraint is derived from others, each of which is named by its number, counted from 1.
#[derive(Debug, Drop)]
pub enum Derivation {
    /// The sum of their forms, each times its multiplier.
    Sum(Items<Multiple>),
    /// Each says whether the sum of some Booleans is odd or even, and so does what they say together.
    Parity(Items<u64>),
    /// Variables of which no two have one value: for each two places, in the order 1 2, 1 3, .., 2 3, .., a constraint that tells them
    /// apart.
    AllDifferent {
        /// The variables, in the order of the places.
        variables: Items<VarId>,
        /// One constraint for each two places.
        constraints: Items<u64>,
    },
    /// The row that the items make one after another, for which at most 1,000,000 weights are listed.
    Row(Items<RowItem>),
}
