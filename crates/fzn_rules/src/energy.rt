// The rule `energy`: what the tasks use between two times is more than there is.
ghost use Rattle.std.specs.Prelude.{◌≡◌, ◌↔◌, ◌*◌, ◌+◌, ◌^◌, ◌≤◌, ◌≤ℤ◌, ◌-ℤ◌, ◌*ℤ◌, ◌<ℤ◌, IsTrue, false, pos, length, unsigned_abs};
ghost use Rattle.std.specs.List.{All};
ghost use Rattle.fzn_domain.specs.Limits.{IsInLimits, IsSmall};
ghost use Rattle.fzn_domain.specs.Narrow.{is_some_empty};
ghost use Rattle.fzn_list.specs.Limits.{longest};
ghost use Rattle.fzn_values.specs.Term.{IsTerm};
ghost use Rattle.fzn_meaning.specs.Meaning.{IsWellFormedConstraint};
ghost use Rattle.fzn_sets.specs.Terms.{greatest_value};
ghost use Rattle.fzn_rules.specs.Tasks.{task_terms, sum_over, IsTask};
ghost use Rattle.fzn_rules.specs.Energy.{overlap, least_overlap, least_energy, HasOverload, IsEnergyMet};

use crate::task::{TaskTerms, least_use};
use fzn_meaning::Constraint;
use fzn_sets::{Sets, greatest_value, least_value};
use fzn_values::Term;

/// Whether the first time is before the second, and the tasks of a cumulative, wherever they start, use more between the two than the
/// capacity gives. It looks at each task once. No set may be empty. `false` for any other constraint.
#[tactic(auto, unfolding(crate::specs::Energy::IsEnergyMet, fzn_meaning::specs::Meaning::IsWellFormedConstraint))]
pub fn is_energy_met(constraint: &Constraint, sets: &Sets, from: &i64, until: &i64) -> bool
    requires constraint { IsWellFormedConstraint (length sets.now.present) constraint.now }
    requires nonempty { is_some_empty sets.now.present ≡ false }
    ensures { IsTrue result ↔ IsEnergyMet constraint.now sets.now.present from.now until.now }
{
    match constraint {
        Constraint::Cumulative {
            starts,
            durations,
            uses,
            capacity,
        } => {
            if *until <= *from {
                return false;
            }
            let energy = energy_of(
                sets,
                from,
                until,
                starts.as_slice(),
                durations.as_slice(),
                uses.as_slice(),
            );
            capacity_between(sets, from, until, *capacity) < energy
        }
        _ => false,
    }
}

/// What the capacity gives at most between the two times.
fn capacity_between(sets: &Sets, from: &i64, until: &i64, capacity: Term) -> i128
    requires capacity { IsTerm (length sets.now.present) capacity }
    requires nonempty { is_some_empty sets.now.present ≡ false }
    ensures { result ≡ greatest_value sets.now.present capacity *ℤ (until.now -ℤ from.now) }
{
    product(
        greatest_value(sets, capacity),
        *until as i128 - *from as i128,
    )
}

fn product(amount: i64, time: i128) -> i128
    requires amount { IsInLimits amount }
    requires time { unsigned_abs time ≤ 2 ^ 64 }
    ensures value { result ≡ amount *ℤ time }
    ensures bounded { unsigned_abs result ≤ 1000000000 * unsigned_abs time }
{
    amount as i128 * time
}

/// The sum of the tasks' least energies.
fn energy_of(
    sets: &Sets,
    from: &i64,
    until: &i64,
    starts: &[Term],
    durations: &[Term],
    uses: &[Term],
) -> i128
    requires starts { All (IsTerm (length sets.now.present)) starts.now }
    requires durations { All (IsTerm (length sets.now.present)) durations.now }
    requires uses { All (IsTerm (length sets.now.present)) uses.now }
    requires short { length starts.now ≤ longest }
    requires as_many_durations { length durations.now ≡ length starts.now }
    requires as_many_uses { length uses.now ≡ length starts.now }
    requires nonempty { is_some_empty sets.now.present ≡ false }
    ensures { result ≡ sum_over (least_energy sets.now.present from.now until.now) (task_terms starts.now durations.now uses.now) }
{
    let mut energy: i128 = 0;
    for k in 0..starts.len() {
        let task = TaskTerms {
            start: starts[k],
            duration: durations[k],
            uses: uses[k],
        };
        energy += least_energy(sets, from, until, task);
    }
    energy
}

#[tactic(auto, unfolding(crate::specs::Energy::least_energy))]
fn least_energy(sets: &Sets, from: &i64, until: &i64, task: TaskTerms) -> i128
    requires task { IsTask (length sets.now.present) task }
    requires nonempty { is_some_empty sets.now.present ≡ false }
    ensures value { result ≡ least_energy sets.now.present from.now until.now task }
    ensures bounded { unsigned_abs result ≤ 1000000000000000000 }
{
    product(
        least_use(sets, task),
        least_overlap(sets, from, until, task),
    )
}

/// The lesser of the overlaps at both ends of the starts.
fn least_overlap(sets: &Sets, from: &i64, until: &i64, task: TaskTerms) -> i128
    requires task { IsTask (length sets.now.present) task }
    requires nonempty { is_some_empty sets.now.present ≡ false }
    ensures value { result ≡ least_overlap sets.now.present from.now until.now task }
    ensures bounded { IsSmall result }
{
    let duration = least_value(sets, task.duration);
    let early = overlap(from, until, &least_value(sets, task.start), &duration);
    let late = overlap(from, until, &greatest_value(sets, task.start), &duration);
    early.min(late)
}

/// How much of the time between the two a task with this start and duration covers.
fn overlap(from: &i64, until: &i64, start: &i64, duration: &i64) -> i128
    requires start { IsInLimits start.now }
    requires duration { IsInLimits duration.now }
    ensures value { result ≡ overlap from.now until.now start.now duration.now }
    ensures bounded { IsSmall result }
{
    let end = (*start + *duration).min(*until) as i128;
    let begin = (*start).max(*from) as i128;
    (end - begin).max(0)
}
