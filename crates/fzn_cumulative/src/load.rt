// The clauses of `fzn_cumulative` at one time, by the rule `load`.
ghost use Rattle.std.specs.Prelude.{◌≡◌, ◌*◌, ◌<◌, pos, true, ◌≤ℤ◌, ◌<ℤ◌, ◌+ℤ◌, length, IfOk, OnOk, MatchBool};
ghost use Rattle.fzn_sets.specs.Terms.{least_value};
ghost use Rattle.fzn_rules.specs.declared.rule.Rule.TheVariants as rule;
ghost use Rattle.fzn_propagator.specs.Clause.{IsFalseClause};
ghost use Rattle.fzn_cumulative.specs.Loads.{IsTime, least_use_of, runs_surely, total_of, IsUseExplained, AreExplained, IsKeptAt, HasNoMore, start_at, duration_at, uses_at, least_amount};
ghost use Rattle.fzn_cumulative.specs.Passes.{tasks_of, IsJustifiedByCumulative};

use crate::claims::task_claims;
use crate::pass::Pass;
use fzn_domain::{Lit, Memory};
use fzn_list::Items;
use fzn_terms::{Claim, explain, explain_claims, greatest_of, least_of};

/// What the task at place k, counted from 0, uses at least while it runs, and no less than 0.
pub fn least_use(pass: &Pass, k: usize) -> i64
    requires { k < length pass.now.starts.now }
    ensures value { result ≡ least_amount pass.now.trail.now.sets (uses_at (tasks_of pass.now) k) }
    ensures not_negative { pos 0 ≤ℤ result }
    ensures bounded { result ≤ℤ pos 1000000000 }
{
    least_of(pass.trail, pass.uses(k)).max(0)
}

/// Its least end: its least start and its least duration together.
pub fn least_end(pass: &Pass, k: usize) -> i64
    requires { k < length pass.now.starts.now }
    ensures { result ≡ least_value pass.now.trail.now.sets (start_at (tasks_of pass.now) k) +ℤ least_value pass.now.trail.now.sets (duration_at (tasks_of pass.now) k) }
{
    least_of(pass.trail, pass.start(k)) + least_of(pass.trail, pass.duration(k))
}

/// Whether it runs at the time wherever it starts and however long it takes.
pub fn surely_runs(pass: &Pass, k: usize, time: &i64) -> bool
    requires { k < length pass.now.starts.now }
    ensures { result ≡ runs_surely pass.now.trail.now.sets time.now (start_at (tasks_of pass.now) k) (duration_at (tasks_of pass.now) k) }
{
    greatest_of(pass.trail, pass.start(k)) <= *time && *time < least_end(pass, k)
}

/// What it uses at least at the time, where it surely runs then, else 0.
pub fn use_at(pass: &Pass, k: usize, time: &i64) -> i64
    requires { k < length pass.now.starts.now }
    ensures value { result ≡ least_use_of pass.now.trail.now.sets time.now (start_at (tasks_of pass.now) k) (duration_at (tasks_of pass.now) k) (uses_at (tasks_of pass.now) k) }
    ensures not_negative { pos 0 ≤ℤ result }
    ensures bounded { result ≤ℤ pos 1000000000 }
    ensures runs { pos 0 <ℤ result → runs_surely pass.now.trail.now.sets time.now (start_at (tasks_of pass.now) k) (duration_at (tasks_of pass.now) k) ≡ true }
{
    if surely_runs(pass, k, time) {
        least_use(pass, k)
    } else {
        0
    }
}

/// What the tasks use at least at the time.
pub fn load_at(pass: &Pass, time: &i64) -> i64
    ensures value { result ≡ total_of pass.now.trail.now.sets time.now pass.now.starts.now pass.now.durations.now pass.now.uses.now }
    ensures not_negative { pos 0 ≤ℤ result }
    ensures bounded { result ≤ℤ pos (100000 * 1000000000) }
{
    let mut load: i64 = 0;
    for k in 0..pass.starts.len() {
        load += use_at(pass, k, time);
    }
    load
}

/// Adds to a false clause what it takes to say that the task at place k, which surely runs at the time, does so, and uses no less than on
/// the trail.
fn explain_use(pass: &Pass, k: usize, time: &i64, clause: &mut Items<Lit>) -> Result<(), Memory>
    requires place { k < length pass.now.starts.now }
    requires time { IsTime time.now }
    requires runs { runs_surely pass.now.trail.now.sets time.now (start_at (tasks_of pass.now) k) (duration_at (tasks_of pass.now) k) ≡ true }
    requires still { IsFalseClause pass.now.trail.now clause.old }
    ensures { OnOk result (IsUseExplained pass.now.trail.now time.now (start_at (tasks_of pass.now) k) (duration_at (tasks_of pass.now) k) (uses_at (tasks_of pass.now) k) clause.old clause.new) }
{
    let shortest = least_of(pass.trail, pass.duration(k));
    let least = least_of(pass.trail, pass.uses(k));
    let claims = task_claims(pass, k, *time, *time - shortest + 1, shortest, least);
    explain_claims(pass.trail, &claims, claims.len(), clause)
}

/// Empties the clause, and adds what it takes to say that the capacity is no more than it may be on the trail.
pub fn explain_capacity(pass: &Pass, clause: &mut Items<Lit>) -> Result<(), Memory>
    ensures { OnOk result (HasNoMore pass.now.trail.now (tasks_of pass.now) clause.new) }
{
    let capacity = greatest_of(pass.trail, pass.capacity);
    clause.clear();
    explain(pass.trail, Claim::at_most(pass.capacity, capacity), clause)
}

/// Adds to a false clause what it takes to say that the tasks, but for the one at an index, use at the time no less than on the trail,
/// but for so much. It leaves out tasks as far as these use no more than that.
pub fn explain_uses(
    pass: &Pass,
    time: &i64,
    except: usize,
    spare: i64,
    clause: &mut Items<Lit>,
) -> Result<(), Memory>
    requires time { IsTime time.now }
    requires spare { pos 0 ≤ℤ spare }
    requires still { IsFalseClause pass.now.trail.now clause.old }
    ensures { OnOk result (AreExplained pass.now.trail.now time.now except spare pass.now.starts.now pass.now.durations.now pass.now.uses.now clause.old clause.new) }
{
    let mut left = spare;
    for k in 0..pass.starts.len() {
        if k != except {
            let amount = use_at(pass, k, time);
            if amount <= left {
                left -= amount;
            } else {
                explain_use(pass, k, time, clause)?;
            }
        }
    }
    Ok(())
}

/// `true`: the clause, emptied first, is an inference by `load` that the tasks do not use more at the time than the capacity. `false`: they
/// do not on the trail.
pub fn explain_load(pass: &Pass, time: &i64, clause: &mut Items<Lit>) -> Result<bool, Memory>
    requires { IsTime time.now }
    ensures { IfOk result (λ found. MatchBool found (IsJustifiedByCumulative pass.now (rule.Load time.now) clause.new) (IsKeptAt pass.now.trail.now.sets (tasks_of pass.now) time.now)) }
{
    let load = load_at(pass, time);
    let capacity = greatest_of(pass.trail, pass.capacity);
    if load <= capacity {
        return Ok(false);
    }
    explain_capacity(pass, clause)?;
    explain_uses(pass, time, pass.starts.len(), load - capacity - 1, clause)?;
    Ok(true)
}
