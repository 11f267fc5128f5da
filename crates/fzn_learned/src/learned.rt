// What is learned.

use fzn_domain::{Clause, Lit};
use fzn_list::Items;
use fzn_trail::Antecedent;

/// A clause that follows by unit propagation from the clauses of these antecedents, in this order.
#[derive(Debug, Drop)]
pub struct Learned {
    /// What is learned. It forces a literal at `level`, or is empty.
    pub clause: Clause,
    /// What it follows from, in the order of the propagation.
    pub antecedents: Items<Antecedent>,
    /// The level, counted from 0, where the search goes back to: below the present one.
    pub level: usize,
    /// Its literal block distance: how many levels its literals stand on (Audemard and Simon, 2009).
    pub block_distance: usize,
    /// What was needed of the entries that the analysis looked at, once for each; none for the plain clause.
    pub marked: Items<Lit>,
}
