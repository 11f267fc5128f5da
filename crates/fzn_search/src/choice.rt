// How decisions are made.

use fzn_strategy::Parameters;

/// What is asked of the search besides the annotations.
#[derive(Clone, Copy, Debug, PartialEq, Eq)]
pub struct Choice {
    /// Activity decides every variable, and annotations only help to find the first solution. Otherwise each decision is what the annotations
    /// want as long as a variable of theirs is not fixed, after each restart too; activity decides the variables that stand in none.
    pub free: bool,
    /// Of equals the first is taken, and with a seed one by random words.
    pub seed: Option<u64>,
    /// After how many conflicts the first restart comes, at least 1; none where the search never restarts.
    pub restart_after: Option<u64>,
    /// How many learned clauses are kept at a restart, the newest: one at least. Beside that a search that restarts forgets learned
    /// clauses below this number too, those whose literals stand on the most levels, once there are more than the parameters say. One that
    /// never restarts forgets none.
    pub keep: u64,
    /// The numbers that the search goes by; two of them are shares of the two numbers above.
    pub parameters: Parameters,
}
