// What is known of the objective.
ghost use Rattle.std.specs.Prelude.{◌≡◌, unwrap_or};
ghost use Rattle.std.specs.List.{All};
ghost use Rattle.fzn_meaning.specs.Solutions.{IsAssignment};
ghost use Rattle.fzn_meaning.specs.WellFormed.{IsWellFormed};
ghost use Rattle.fzn_bound.specs.Said.{known_after, solved, unsolved, weaker};

use fzn_list::Items;
use fzn_meaning::{Goal, Model};

/// What an accepted certificate proves of the objective.
#[derive(Clone, Copy, Debug, PartialEq, Eq)]
pub enum Known {
    /// A satisfaction has none.
    NoObjective,
    /// No solution exists.
    NoSolution,
    /// No solution was found so far, and none is better than the bound.
    Unsolved {
        /// The bound.
        bound: i64,
    },
    /// The search was not ended, and no solution is better than the bound.
    Open {
        /// The best value that was found.
        best: i64,
        /// The bound, which may be that value and is never worse.
        bound: i64,
    },
    /// No solution is better than the best that was found.
    Closed {
        /// Its value.
        best: i64,
    },
}

/// What is known where these solutions were found, in order, the certificate is closed or open, and no solution that is better than all of
/// them is better than the bound. Without a bound there is none.
pub fn known_of(model: &Model, found: &[Items<i64>], closed: bool, bound: Option<i64>) -> Known
    requires model { IsWellFormed model.now }
    requires found { All (IsAssignment model.now) found.now }
    ensures { result ≡ known_after model.now.goal found.now closed bound }
{
    match model.goal {
        Goal::Satisfy => Known::NoObjective,
        Goal::Minimize(var) | Goal::Maximize(var) => match found.last() {
            None => unsolved(closed, bound),
            Some(values) => solved(model.goal, closed, bound, values.as_slice()[var.0 - 1]),
        },
    }
}

fn unsolved(closed: bool, bound: Option<i64>) -> Known
    ensures { result ≡ unsolved closed bound }
{
    match bound {
        Some(bound) if !closed => Known::Unsolved { bound },
        _ => Known::NoSolution,
    }
}

fn solved(goal: Goal, closed: bool, bound: Option<i64>, best: i64) -> Known
    ensures { result ≡ solved goal closed bound best }
{
    if closed {
        Known::Closed { best }
    } else {
        Known::Open {
            best,
            bound: weaker(goal, best, bound.unwrap_or(best)),
        }
    }
}

/// The bound that says less.
fn weaker(goal: Goal, first: i64, second: i64) -> i64
    ensures { result ≡ weaker goal first second }
{
    match goal {
        Goal::Satisfy => first,
        Goal::Minimize(_) => first.min(second),
        Goal::Maximize(_) => first.max(second),
    }
}
