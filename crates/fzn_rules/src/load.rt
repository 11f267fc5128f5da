// The rule `load`: the tasks that surely run at a time use more than the capacity.
ghost use Rattle.std.specs.Prelude.{◌≡◌, ◌↔◌, ◌≤◌, ◌≤ℤ◌, ◌+ℤ◌, IsTrue, false, pos, length};
ghost use Rattle.std.specs.List.{All};
ghost use Rattle.fzn_domain.specs.Narrow.{is_some_empty};
ghost use Rattle.fzn_list.specs.Limits.{longest};
ghost use Rattle.fzn_domain.specs.declared.domain.TheConstants.{GREATEST_VALUE};
ghost use Rattle.fzn_values.specs.Term.{IsTerm};
ghost use Rattle.fzn_meaning.specs.Meaning.{IsWellFormedConstraint};
ghost use Rattle.fzn_sets.specs.Terms.{least_value};
ghost use Rattle.fzn_rules.specs.Tasks.{task_terms, sum_over, IsTask};
ghost use Rattle.fzn_rules.specs.Load.{surely_runs, least_use_at, IsLoadMet};

use crate::task::{TaskTerms, least_use};
use fzn_meaning::Constraint;
use fzn_sets::{Sets, greatest_value, least_value};
use fzn_values::Term;

/// Whether the tasks of a cumulative that run at the time, wherever they start, use more than the capacity. It looks at each task once. No
/// set may be empty. `false` for any other constraint.
#[tactic(auto, unfolding(crate::specs::Load::IsLoadMet, fzn_meaning::specs::Meaning::IsWellFormedConstraint))]
pub fn is_load_met(constraint: &Constraint, sets: &Sets, time: &i64) -> bool
    requires constraint { IsWellFormedConstraint (length sets.now.present) constraint.now }
    requires nonempty { is_some_empty sets.now.present ≡ false }
    ensures { IsTrue result ↔ IsLoadMet constraint.now sets.now.present time.now }
{
    match constraint {
        Constraint::Cumulative {
            starts,
            durations,
            uses,
            capacity,
        } => {
            let load = least_load(
                sets,
                time,
                starts.as_slice(),
                durations.as_slice(),
                uses.as_slice(),
            );
            (greatest_value(sets, *capacity) as i128) < load
        }
        _ => false,
    }
}

fn least_load(sets: &Sets, time: &i64, starts: &[Term], durations: &[Term], uses: &[Term]) -> i128
    requires starts { All (IsTerm (length sets.now.present)) starts.now }
    requires durations { All (IsTerm (length sets.now.present)) durations.now }
    requires uses { All (IsTerm (length sets.now.present)) uses.now }
    requires short { length starts.now ≤ longest }
    requires as_many_durations { length durations.now ≡ length starts.now }
    requires as_many_uses { length uses.now ≡ length starts.now }
    requires nonempty { is_some_empty sets.now.present ≡ false }
    ensures { result ≡ sum_over (least_use_at sets.now.present time.now) (task_terms starts.now durations.now uses.now) }
{
    let mut load: i128 = 0;
    for k in 0..starts.len() {
        let task = TaskTerms {
            start: starts[k],
            duration: durations[k],
            uses: uses[k],
        };
        load += least_use_at(sets, time, task) as i128;
    }
    load
}

fn least_use_at(sets: &Sets, time: &i64, task: TaskTerms) -> i64
    requires task { IsTask (length sets.now.present) task }
    requires nonempty { is_some_empty sets.now.present ≡ false }
    ensures value { result ≡ least_use_at sets.now.present time.now task }
    ensures not_negative { pos 0 ≤ℤ result }
    ensures bounded { result ≤ℤ GREATEST_VALUE }
{
    if surely_runs(sets, time, task) {
        least_use(sets, task)
    } else {
        0
    }
}

fn surely_runs(sets: &Sets, time: &i64, task: TaskTerms) -> bool
    requires task { IsTask (length sets.now.present) task }
    requires nonempty { is_some_empty sets.now.present ≡ false }
    ensures { result ≡ surely_runs sets.now.present time.now task }
{
    greatest_value(sets, task.start) <= *time && *time < least_end(sets, task)
}

/// The least end of the task.
fn least_end(sets: &Sets, task: TaskTerms) -> i64
    requires task { IsTask (length sets.now.present) task }
    requires nonempty { is_some_empty sets.now.present ≡ false }
    ensures { result ≡ least_value sets.now.present task.start +ℤ least_value sets.now.present task.duration }
{
    least_value(sets, task.start) + least_value(sets, task.duration)
}
