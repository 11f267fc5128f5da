// The steps of a certificate.
use fzn_domain::Lit;
use fzn_list::Items;
use fzn_rules::Rule;

/// A clause that the rule justifies from the constraint of this number.
#[derive(Debug, Drop)]
pub struct Inference {
    /// The number of the constraint, counted from 1.
    pub constraint: u64,
    /// The test that the constraint meets, with its hints.
    pub rule: Rule,
    /// What is inferred.
    pub clause: Items<Lit>,
}

/// One line of a certificate. Each kind but `Delete` gives a clause, which later steps may cite by the number of its step.
#[derive(Debug, Drop)]
pub enum Step {
    /// A clause that follows from a constraint by a rule.
    Infer(Inference),
    /// The clause follows from the clauses of the steps cited, by unit propagation in the order of the citations.
    Resolve { clause: Items<Lit>, ids: Items<u64> },
    /// A solution, a value for each variable, which gives its cut.
    Solution(Items<i64>),
    /// The clauses of these steps are cited no more.
    Delete { ids: Items<u64> },
}

/// Which steps a certificate may have: version one has no `Delete`.
#[derive(Clone, Copy, Debug, PartialEq, Eq)]
pub enum Version {
    /// No `Delete`.
    One,
    /// Each kind of step.
    Two,
}
