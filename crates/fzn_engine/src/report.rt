// What a run tells.
use fzn_printer::Ending;

/// What a run tells.
#[derive(Clone, Copy, Debug, PartialEq, Eq)]
pub struct Report {
    /// How many solutions were found.
    pub solutions: u64,
    /// How many decisions were made.
    pub nodes: u64,
    /// Why it ended.
    pub ending: Ending,
    /// How many hints were taken as solutions.
    pub hints_taken: u64,
    /// How many hints were passed over: no solutions, or none that is better or new.
    pub hints_passed_over: u64,
}
