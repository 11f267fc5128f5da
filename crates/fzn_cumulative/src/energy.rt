// The conflict of `fzn_cumulative` between two times, by the rule `energy`.
ghost use Rattle.std.specs.Prelude.{◌≡◌, ◌*◌, ◌<◌, pos, length, ◌≤ℤ◌, ◌<ℤ◌, ◌*ℤ◌, IfOk, OnOk, MatchBool};
ghost use Rattle.fzn_domain.specs.Limits.{IsInLimits};
ghost use Rattle.fzn_rules.specs.Energy.{overlap};
ghost use Rattle.fzn_rules.specs.declared.rule.Rule.TheVariants as rule;
ghost use Rattle.fzn_propagator.specs.Clause.{IsFalseClause};
ghost use Rattle.fzn_cumulative.specs.Loads.{IsTime, start_at, duration_at, uses_at};
ghost use Rattle.fzn_cumulative.specs.Energies.{least_cover, energy_of, energies_of, IsEnergyExplained, AreEnergiesExplained, IsKeptBetween};
ghost use Rattle.fzn_cumulative.specs.Passes.{tasks_of, IsJustifiedByCumulative};

use crate::claims::task_claims;
use crate::load::{explain_capacity, least_use};
use crate::pass::Pass;
use fzn_domain::{Lit, Memory};
use fzn_list::Items;
use fzn_terms::{explain_claims, greatest_of, least_of};

/// From one time until before another.
#[derive(Debug, Clone, Copy)]
pub(crate) struct Span {
    pub from: i64,
    pub until: i64,
    ghost begins: { IsTime from },
    ghost ends: { IsTime until },
}

/// How much of it a task with this start and duration covers.
fn overlap(start: &i64, duration: &i64, span: &Span) -> i64
    requires start { IsInLimits start.now }
    requires duration { IsInLimits duration.now }
    ensures value { result ≡ overlap span.now.from span.now.until start.now duration.now }
    ensures low { pos 0 ≤ℤ result }
    ensures high { result ≤ℤ pos 1000000000 }
{
    let end = (*start + *duration).min(span.until);
    let begin = (*start).max(span.from);
    (end - begin).max(0)
}

/// How much of it the task at place k, counted from 0, covers wherever it starts and however long it takes.
fn least_cover(pass: &Pass, k: usize, span: &Span) -> i64
    requires { k < length pass.now.starts.now }
    ensures value { result ≡ least_cover pass.now.trail.now.sets span.now.from span.now.until (start_at (tasks_of pass.now) k) (duration_at (tasks_of pass.now) k) }
    ensures low { pos 0 ≤ℤ result }
    ensures high { result ≤ℤ pos 1000000000 }
{
    let shortest = least_of(pass.trail, pass.duration(k));
    let early = overlap(&least_of(pass.trail, pass.start(k)), &shortest, span);
    let late = overlap(&greatest_of(pass.trail, pass.start(k)), &shortest, span);
    early.min(late)
}

fn product(amount: &i64, time: &i64) -> i128
    requires { IsInLimits amount.now }
    ensures { result ≡ amount.now *ℤ time.now }
{
    *amount as i128 * *time as i128
}

/// What it uses at least between the two times.
fn energy_of(pass: &Pass, k: usize, span: &Span) -> i128
    requires { k < length pass.now.starts.now }
    ensures value { result ≡ energy_of pass.now.trail.now.sets span.now.from span.now.until (start_at (tasks_of pass.now) k) (duration_at (tasks_of pass.now) k) (uses_at (tasks_of pass.now) k) }
    ensures low { pos 0 ≤ℤ result }
    ensures high { result ≤ℤ pos 1000000000000000000 }
    ensures covers { pos 0 <ℤ result → pos 0 <ℤ least_cover pass.now.trail.now.sets span.now.from span.now.until (start_at (tasks_of pass.now) k) (duration_at (tasks_of pass.now) k) }
{
    product(&least_use(pass, k), &least_cover(pass, k, span))
}

/// What the tasks use at least between the two times.
fn energies_of(pass: &Pass, span: &Span) -> i128
    ensures value { result ≡ energies_of pass.now.trail.now.sets span.now.from span.now.until pass.now.starts.now pass.now.durations.now pass.now.uses.now }
    ensures low { pos 0 ≤ℤ result }
    ensures high { result ≤ℤ pos (100000 * 1000000000000000000) }
{
    let mut energy: i128 = 0;
    for k in 0..pass.starts.len() {
        energy += energy_of(pass, k, span);
    }
    energy
}

/// Adds to a false clause what it takes to say that the task at place k, which covers some of the time between the two, uses no less then
/// than on the trail.
fn explain_cover(pass: &Pass, k: usize, span: &Span, clause: &mut Items<Lit>) -> Result<(), Memory>
    requires place { k < length pass.now.starts.now }
    requires covers { pos 0 <ℤ least_cover pass.now.trail.now.sets span.now.from span.now.until (start_at (tasks_of pass.now) k) (duration_at (tasks_of pass.now) k) }
    requires still { IsFalseClause pass.now.trail.now clause.old }
    ensures { OnOk result (IsEnergyExplained pass.now.trail.now span.now.from span.now.until (start_at (tasks_of pass.now) k) (duration_at (tasks_of pass.now) k) (uses_at (tasks_of pass.now) k) clause.old clause.new) }
{
    let covered = least_cover(pass, k, span);
    let shortest = least_of(pass.trail, pass.duration(k));
    let least = least_of(pass.trail, pass.uses(k));
    let (latest, earliest) = (span.until - covered, span.from + covered - shortest);
    let claims = task_claims(pass, k, latest, earliest, shortest, least);
    explain_claims(pass.trail, &claims, claims.len(), clause)
}

/// Adds to a false clause what it takes to say that the tasks use between the two times no less than on the trail, but for so much. It
/// leaves out tasks as far as these use no more than that.
fn explain_energies(
    pass: &Pass,
    span: &Span,
    spare: &i128,
    clause: &mut Items<Lit>,
) -> Result<(), Memory>
    requires spare { pos 0 ≤ℤ spare.now }
    requires still { IsFalseClause pass.now.trail.now clause.old }
    ensures { OnOk result (AreEnergiesExplained pass.now.trail.now span.now.from span.now.until spare.now pass.now.starts.now pass.now.durations.now pass.now.uses.now clause.old clause.new) }
{
    let mut left = *spare;
    for k in 0..pass.starts.len() {
        let amount = energy_of(pass, k, span);
        if amount <= left {
            left -= amount;
        } else {
            explain_cover(pass, k, span, clause)?;
        }
    }
    Ok(())
}

/// `true`: the clause, emptied first, is an inference by `energy` that the tasks do not use more between the two times than there is.
/// `false`: they do not on the trail, or the second time is not after the first.
pub fn explain_energy(pass: &Pass, span: &Span, clause: &mut Items<Lit>) -> Result<bool, Memory>
    ensures { IfOk result (λ found. MatchBool found (IsJustifiedByCumulative pass.now (rule.Energy span.now.from span.now.until) clause.new) (IsKeptBetween pass.now.trail.now.sets (tasks_of pass.now) span.now.from span.now.until)) }
{
    if span.until <= span.from {
        return Ok(false);
    }
    let capacity = greatest_of(pass.trail, pass.capacity);
    let given = product(&capacity, &(span.until - span.from));
    let energy = energies_of(pass, span);
    if energy <= given {
        return Ok(false);
    }
    explain_capacity(pass, clause)?;
    explain_energies(pass, span, &(energy - given - 1), clause)?;
    Ok(true)
}
