// The clauses of `fzn_cumulative` that take values out, at one time, by the rule `load`.
ghost use Rattle.std.specs.Prelude.{◌≡◌, ◌*◌, ◌<◌, ⊤, pos, length, ◌≤ℤ◌, IfOk, MatchBool};
ghost use Rattle.fzn_rules.specs.declared.rule.Rule.TheVariants as rule;
ghost use Rattle.fzn_terms.specs.Denied.{AreEntailedBut};
ghost use Rattle.fzn_cumulative.specs.Loads.{IsTime, IsLoadOfOthers, IsFreeAfter, IsFreeBefore, IsFreeForLong, IsFreeToUse, IsFreeAt};
ghost use Rattle.fzn_cumulative.specs.Claims.{use_claims, IsLeast, IsNotPushed};
ghost use Rattle.fzn_cumulative.specs.Passes.{tasks_of, IsJustifiedByCumulative};

use crate::claims::{EARLIEST, LATEST, LEAST, SHORTEST, task_claims};
use crate::load::{explain_capacity, explain_uses, least_end, load_at, surely_runs, use_at};
use crate::pass::Pass;
use fzn_domain::{GREATEST_VALUE, Lit, Memory};
use fzn_list::Items;
use fzn_terms::{Claim, force, force_claims, greatest_of, least_of};

/// What a clause takes values out of.
#[derive(Debug, Clone, Copy)]
pub(crate) enum Way {
    /// A start, which has to be later.
    After,
    /// A start, which has to be earlier.
    Before,
    /// A duration.
    Shorter,
    /// A use.
    Less,
}

/// `true`: the clause, emptied first, is an inference by `load` that takes values so out of the task at place k, counted from 0.
pub(crate) fn push(
    pass: &Pass,
    k: usize,
    way: Way,
    time: &i64,
    clause: &mut Items<Lit>,
) -> Result<bool, Memory>
    requires place { k < length pass.now.starts.now }
    requires time { IsTime time.now }
    ensures { IfOk result (λ found. MatchBool found (IsJustifiedByCumulative pass.now (rule.Load time.now) clause.new) ⊤) }
{
    match way {
        Way::After => push_after(pass, k, time, clause),
        Way::Before => push_before(pass, k, time, clause),
        Way::Shorter => push_shorter(pass, k, time, clause),
        Way::Less => push_less(pass, k, time, clause),
    }
}

/// `true`: the clause, emptied first, is an inference by `load` that the task starts after the time. `false`: it may end by the time, there
/// is room for it, or it starts later anyway.
fn push_after(pass: &Pass, k: usize, time: &i64, clause: &mut Items<Lit>) -> Result<bool, Memory>
    requires place { k < length pass.now.starts.now }
    requires time { IsTime time.now }
    ensures { IfOk result (λ found. MatchBool found (IsJustifiedByCumulative pass.now (rule.Load time.now) clause.new) (IsFreeAfter pass.now.trail.now.sets time.now k (tasks_of pass.now))) }
{
    if least_end(pass, k) <= *time {
        return Ok(false);
    }
    let others = others_at(pass, k, time);
    let shortest = least_of(pass.trail, pass.duration(k));
    let least = least_of(pass.trail, pass.uses(k));
    push_out(pass, k, time, others, shortest, least, LATEST, clause)
}

/// `true`: the clause, emptied first, is an inference by `load` that the task ends by the time. `false`: it may start after the time, there
/// is room for it, or it ends by then anyway.
fn push_before(pass: &Pass, k: usize, time: &i64, clause: &mut Items<Lit>) -> Result<bool, Memory>
    requires place { k < length pass.now.starts.now }
    requires time { IsTime time.now }
    ensures { IfOk result (λ found. MatchBool found (IsJustifiedByCumulative pass.now (rule.Load time.now) clause.new) (IsFreeBefore pass.now.trail.now.sets time.now k (tasks_of pass.now))) }
{
    if *time < greatest_of(pass.trail, pass.start(k)) {
        return Ok(false);
    }
    let others = others_at(pass, k, time);
    let shortest = least_of(pass.trail, pass.duration(k));
    let least = least_of(pass.trail, pass.uses(k));
    push_out(pass, k, time, others, shortest, least, EARLIEST, clause)
}

/// `true`: the clause, emptied first, is an inference by `load` that the task is short enough to end by the time from its earliest start.
/// `false`: it may start after the time, there is room for it, or it is short enough anyway.
fn push_shorter(pass: &Pass, k: usize, time: &i64, clause: &mut Items<Lit>) -> Result<bool, Memory>
    requires place { k < length pass.now.starts.now }
    requires time { IsTime time.now }
    ensures { IfOk result (λ found. MatchBool found (IsJustifiedByCumulative pass.now (rule.Load time.now) clause.new) (IsFreeForLong pass.now.trail.now.sets time.now k (tasks_of pass.now))) }
{
    let start = pass.start(k);
    if *time < greatest_of(pass.trail, start) {
        return Ok(false);
    }
    let others = others_at(pass, k, time);
    let shortest = *time - least_of(pass.trail, start) + 1;
    let least = least_of(pass.trail, pass.uses(k));
    push_out(pass, k, time, others, shortest, least, SHORTEST, clause)
}

/// `true`: the clause, emptied first, is an inference by `load` that the task uses no more than is left at the time. `false`: it may not
/// run then, or nothing is to be forced of its use.
fn push_less(pass: &Pass, k: usize, time: &i64, clause: &mut Items<Lit>) -> Result<bool, Memory>
    requires place { k < length pass.now.starts.now }
    requires time { IsTime time.now }
    ensures { IfOk result (λ found. MatchBool found (IsJustifiedByCumulative pass.now (rule.Load time.now) clause.new) (IsFreeToUse pass.now.trail.now.sets time.now k (tasks_of pass.now))) }
{
    if !surely_runs(pass, k, time) {
        return Ok(false);
    }
    let others = others_at(pass, k, time);
    let amount = greatest_of(pass.trail, pass.capacity) - others + 1;
    if amount < 0 {
        return Ok(false);
    }
    let shortest = least_of(pass.trail, pass.duration(k));
    push_out(pass, k, time, others, shortest, amount, LEAST, clause)
}

/// What the tasks but for the one at place k use at least at the time.
fn others_at(pass: &Pass, k: usize, time: &i64) -> i64
    requires { k < length pass.now.starts.now }
    ensures { IsLoadOfOthers pass.now.trail.now.sets time.now k (tasks_of pass.now) result }
{
    load_at(pass, time) - use_at(pass, k, time)
}

/// `true`: the clause, emptied first, is an inference by `load` that not all claims hold by which the task uses so much at the time beside
/// the others, with a literal for the one at an index. `false`: there is room for so much, or that one is true of no value.
fn push_out(
    pass: &Pass,
    k: usize,
    time: &i64,
    others: i64,
    shortest: i64,
    least: i64,
    forced: usize,
    clause: &mut Items<Lit>,
) -> Result<bool, Memory>
    requires place { k < length pass.now.starts.now }
    requires time { IsTime time.now }
    requires others { IsLoadOfOthers pass.now.trail.now.sets time.now k (tasks_of pass.now) others }
    requires shortest { IsLeast shortest }
    requires least { IsLeast least }
    requires forced { forced < 4 }
    requires present { AreEntailedBut forced (use_claims (tasks_of pass.now) k time.now shortest least) pass.now.trail.now.sets }
    ensures { IfOk result (λ found. MatchBool found (IsJustifiedByCumulative pass.now (rule.Load time.now) clause.new) (IsNotPushed pass.now.trail.now.sets time.now k shortest least forced (tasks_of pass.now))) }
{
    let excess = others + least.max(0) - greatest_of(pass.trail, pass.capacity);
    if excess <= 0 {
        return Ok(false);
    }
    explain_capacity(pass, clause)?;
    explain_uses(pass, time, k, excess - 1, clause)?;
    let claims = task_claims(pass, k, *time, *time - shortest + 1, shortest, least);
    force_claims(pass.trail, &claims, forced, clause)
}

/// `true`: the clause, emptied first, is an inference by `load` that the capacity is no less than what the tasks use at the time. `false`:
/// it is no less anyway, or they use more than any capacity.
pub fn push_capacity(pass: &Pass, time: &i64, clause: &mut Items<Lit>) -> Result<bool, Memory>
    requires { IsTime time.now }
    ensures { IfOk result (λ found. MatchBool found (IsJustifiedByCumulative pass.now (rule.Load time.now) clause.new) (IsFreeAt pass.now.trail.now.sets time.now (tasks_of pass.now))) }
{
    let load = load_at(pass, time);
    if GREATEST_VALUE < load {
        return Ok(false);
    }
    clause.clear();
    explain_uses(pass, time, pass.starts.len(), 0, clause)?;
    force(pass.trail, Claim::at_most(pass.capacity, load - 1), clause)
}
