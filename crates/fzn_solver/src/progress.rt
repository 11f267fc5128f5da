// How far a run has come, and who is told.
ghost use Rattle.std.specs.Prelude.{◌≡◌, ℕ, Option, None};
ghost use Rattle.fzn_solver.specs.Told.{IsTold};

use fzn_domain::{Memory, VarId};
use fzn_list::Items;
use fzn_meaning::Goal;
use std::alloc::Global;

/// How far a run has come.
#[derive(Clone, Copy, Debug, Default, PartialEq, Eq)]
pub struct Progress {
    /// How many decisions were made.
    pub nodes: u64,
    /// How many conflicts there were.
    pub conflicts: u64,
    /// How often a constraint's propagator forced a literal, or refuted.
    pub inferences: u64,
    /// How many solutions were found.
    pub solutions: u64,
    /// The objective's value in the last solution; none in satisfaction, and before the first solution.
    pub best: Option<i64>,
}

/// Is told how far a run has come, at first and after decisions, conflicts and solutions, and may give hints. What a run promises holds
/// whatever these are.
pub trait Observer {
    /// How many decisions it was last told of, where it tells.
    ghost nodes: { Self → Option ℕ };

    /// Is told how far the run has come.
    fn tell(&mut self, progress: Progress)
        ensures { IsTold (nodes self.new) progress.nodes };

    /// The next hint, if there is one now: values that may be a solution, one for each variable in order. It is asked at the start of a
    /// search and at each restart, until there is none. It answers `Err` where memory runs out.
    fn hint(&mut self, _alloc: Global) -> Result<Option<Items<i64>>, Memory>
        ensures { nodes self.new ≡ nodes self.old }
    {
        Ok(None)
    }
}

/// Is told, and does nothing.
#[derive(Clone, Copy, Debug)]
pub struct Unobserved;

impl Observer for Unobserved {
    ghost nodes = { λ _. None };

    fn tell(&mut self, _progress: Progress) {}
}

/// How far a run has come with one more solution.
pub fn with_solution(progress: Progress, goal: Goal, values: &[i64]) -> Progress {
    let best = match goal {
        Goal::Satisfy => None,
        Goal::Minimize(var) | Goal::Maximize(var) => value_of(values, var),
    };
    Progress {
        solutions: progress.solutions.saturating_add(1),
        best,
        ..progress
    }
}

/// The variable's value in a solution.
fn value_of(values: &[i64], var: VarId) -> Option<i64> {
    let place = var.0.checked_sub(1)?;
    values.get(place).copied()
}
