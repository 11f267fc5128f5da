// Why a certificate is refused.
use thiserror::Error;

/// What is wrong with the first faulty line of a certificate.
#[derive(Clone, Copy, Debug, PartialEq, Eq, Error)]
pub enum Refusal {
    /// The first or the second line has another spelling.
    #[error("fault 30 Header")]
    Header,
    /// The line spells no step and no end.
    #[error("fault 31 Spelling")]
    Spelling,
    /// The input ends before the line does, or before the last line.
    #[error("fault 32 Truncated")]
    Truncated,
    /// A byte stands after the last line.
    #[error("fault 33 Trailing")]
    Trailing,
    /// The line is longer than a line may be.
    #[error("fault 34 LineTooLong")]
    LineTooLong,
    /// The second line tells other numbers of variables and constraints than the model has.
    #[error("fault 40 Counts")]
    Counts,
    /// The model has no constraint of this number.
    #[error("fault 41 NoSuchConstraint")]
    NoSuchConstraint,
    /// The rule is not met.
    #[error("fault 42 RuleFails")]
    RuleFails,
    /// No clause of this number is held.
    #[error("fault 43 NoSuchClause")]
    NoSuchClause,
    /// A clause of the chain has two possible literals or more.
    #[error("fault 44 NotUnit")]
    NotUnit,
    /// The chain ends without a clause that has no possible literal.
    #[error("fault 45 NoConflict")]
    NoConflict,
    /// The values are no solution.
    #[error("fault 46 NotASolution")]
    NotASolution,
    /// The cut of an earlier solution is false at the values.
    #[error("fault 47 CutByEarlier")]
    CutByEarlier,
    /// The end says closed, and no step gave the empty clause.
    #[error("fault 48 NotClosed")]
    NotClosed,
    /// The model has no variable of this number.
    #[error("fault 49 NoSuchVariable")]
    NoSuchVariable,
    /// The constraints that the line cites do not give a constraint so.
    #[error("fault 51 NotDerived")]
    NotDerived,
}
