// The clauses of `fzn_cumulative` by the rule `load`: all at times that the profile picks, and the first where all tasks are fixed at their
// starts.
ghost use Rattle.std.specs.Prelude.{◌≡◌, ◌≢◌, ◌↔◌, ◌<◌, [], IsTrue, length, IfOk, OnOk, MatchBool};
ghost use Rattle.fzn_cumulative.specs.Loads.{IsTime, IsKeptAt};
ghost use Rattle.fzn_cumulative.specs.Kept.{HasNoneBelow, AreKept, MeetsWhereFixed};
ghost use Rattle.fzn_cumulative.specs.Passes.{tasks_of, AreFoundOfCumulative};

use crate::fixed_tasks::is_kept_at_least;
use crate::load::{explain_load, least_use};
use crate::pass::Pass;
use crate::profile::{
    Profile, Stretch, profile_of, time_after, time_before, time_less, time_shorter,
};
use crate::push::{Way, push, push_capacity};
use fzn_domain::{GREATEST_VALUE, LEAST_VALUE, Memory};
use fzn_list::Items;
use fzn_propagator::Findings;
use fzn_rules::Rule;
use fzn_terms::{are_fixed, greatest_of, least_of};

/// Finds what follows at times that the profile picks: that the tasks use too much at its peak, or else for each task that it starts later,
/// ends earlier or uses less, and for the capacity that it is greater.
pub(crate) fn find_by_profile(pass: &Pass, found: &mut Findings) -> Result<(), Memory>
    requires { AreFoundOfCumulative pass.now found.old }
    ensures { AreFoundOfCumulative pass.now found.new }
{
    let profile = profile_of(pass)?;
    let peak = profile.peak;
    if is_time(&peak.from) && profile.capacity < peak.load {
        if find_overload(pass, &peak.from, found)? {
            return Ok(());
        }
    }
    find_capacity(pass, &peak, found)?;
    if profile.capacity.saturating_sub(most_used(pass)) < peak.load {
        for way in [Way::After, Way::Before, Way::Shorter] {
            find_pushes(pass, way, &profile, found)?;
        }
    }
    if are_fixed(pass.trail, pass.uses) {
        return Ok(());
    }
    find_pushes(pass, Way::Less, &profile, found)
}

/// The most that one of the tasks uses at least.
fn most_used(pass: &Pass) -> i64 {
    let mut most: i64 = 0;
    for k in 0..pass.starts.len() {
        most = most.max(least_use(pass, k));
    }
    most
}

/// Finds that the tasks do not use more at the time than the capacity. `true` where they do.
fn find_overload(pass: &Pass, time: &i64, found: &mut Findings) -> Result<bool, Memory>
    requires time { IsTime time.now }
    requires before { AreFoundOfCumulative pass.now found.old }
    ensures found { AreFoundOfCumulative pass.now found.new }
    ensures told { IfOk result (λ over. MatchBool over (found.new ≢ []) ((found.new ≡ found.old) × IsKeptAt pass.now.trail.now.sets (tasks_of pass.now) time.now)) }
{
    let mut clause = Items::new(pass.alloc);
    if !explain_load(pass, time, &mut clause)? {
        return Ok(false);
    }
    found.hand_over(pass.number, Rule::Load(*time), Some(clause))?;
    Ok(true)
}

/// Finds that the capacity is no less than what the tasks use at the peak.
fn find_capacity(pass: &Pass, peak: &Stretch, found: &mut Findings) -> Result<(), Memory>
    requires { AreFoundOfCumulative pass.now found.old }
    ensures { AreFoundOfCumulative pass.now found.new }
{
    let time = peak.from;
    if !is_time(&time) || peak.load <= least_of(pass.trail, pass.capacity) {
        return Ok(());
    }
    let mut clause = Items::new(pass.alloc);
    if push_capacity(pass, &time, &mut clause)? {
        found.hand_over(pass.number, Rule::Load(time), Some(clause))?;
    }
    Ok(())
}

/// Finds for each task that values are to be taken out of it so.
fn find_pushes(pass: &Pass, way: Way, profile: &Profile, found: &mut Findings) -> Result<(), Memory>
    requires { AreFoundOfCumulative pass.now found.old }
    ensures { AreFoundOfCumulative pass.now found.new }
{
    for k in 0..pass.starts.len() {
        if let Some(time) = time_for(pass, k, way, profile) {
            find_push(pass, k, way, &time, found)?;
        }
    }
    Ok(())
}

/// Finds that values are to be taken so out of the task at place k, counted from 0, at the time.
fn find_push(
    pass: &Pass,
    k: usize,
    way: Way,
    time: &i64,
    found: &mut Findings,
) -> Result<(), Memory>
    requires place { k < length pass.now.starts.now }
    requires before { AreFoundOfCumulative pass.now found.old }
    ensures { AreFoundOfCumulative pass.now found.new }
{
    if !is_time(time) {
        return Ok(());
    }
    let mut clause = Items::new(pass.alloc);
    if push(pass, k, way, time, &mut clause)? {
        found.hand_over(pass.number, Rule::Load(*time), Some(clause))?;
    }
    Ok(())
}

/// A time at which to take values out of the task at place k, counted from 0.
fn time_for(pass: &Pass, k: usize, way: Way, profile: &Profile) -> Option<i64>
    requires { k < length pass.now.starts.now }
{
    let stretches = profile.stretches.as_slice();
    if let Way::Less = way {
        return time_less(pass, k, profile.capacity, stretches);
    }
    let room = profile.capacity.saturating_sub(least_use(pass, k));
    if profile.peak.load <= room {
        return None;
    }
    match way {
        Way::Before => time_before(pass, k, room, stretches),
        Way::Shorter => time_shorter(pass, k, room, stretches),
        _ => time_after(pass, k, room, stretches),
    }
}

/// Whether some task may run at the time.
pub(crate) fn is_time(time: &i64) -> bool
    ensures { IsTrue result ↔ IsTime time.now }
{
    LEAST_VALUE <= *time && *time <= 2 * GREATEST_VALUE
}

/// Finds where all tasks are fixed that they do not use more than the capacity where one of them starts.
pub(crate) fn find_of_fixed(pass: &Pass, found: &mut Findings) -> Result<(), Memory>
    requires none_below { HasNoneBelow pass.now.trail.now.sets (tasks_of pass.now) }
    requires before { AreFoundOfCumulative pass.now found.old }
    ensures found { AreFoundOfCumulative pass.now found.new }
    ensures none { OnOk result (found.new ≡ [] → MeetsWhereFixed pass.now.trail.now.sets (tasks_of pass.now)) }
{
    let _entries = pass.trail.len(); // Each present set lies within its declared one.
    if !are_fixed(pass.trail, pass.starts)
        || !are_fixed(pass.trail, pass.durations)
        || !are_fixed(pass.trail, pass.uses)
    {
        return Ok(());
    }
    if is_kept_at_least(pass)? {
        return Ok(());
    }
    find_at_starts(pass, found)
}

/// Finds that the tasks do not use more than the capacity where one of them starts at the latest: at the first such time where they do.
fn find_at_starts(pass: &Pass, found: &mut Findings) -> Result<(), Memory>
    requires before { AreFoundOfCumulative pass.now found.old }
    ensures found { AreFoundOfCumulative pass.now found.new }
    ensures none { OnOk result (found.new ≡ [] → AreKept pass.now.trail.now.sets (tasks_of pass.now)) }
{
    for k in 0..pass.starts.len() {
        let time = greatest_of(pass.trail, pass.start(k));
        if find_overload(pass, &time, found)? {
            return Ok(());
        }
    }
    Ok(())
}
