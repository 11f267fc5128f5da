// The load of tasks at the times of a block, by how it changes from one time to the next.
ghost use Rattle.std.specs.Prelude.{◌↔◌, ◌≡◌, ◌+◌, ◌<◌, ◌≤◌, ◌^◌, ◌≤ℤ◌, ℕ, pos, IsTrue, length, replicate, unsigned_abs};
ghost use Rattle.std.specs.List.{All};
ghost use Rattle.std.specs.List.Sorted.{IsPermutation};
ghost use Rattle.fzn_domain.specs.Ascending.{IsPlaceOf};
ghost use Rattle.fzn_values.specs.Cumulative.{tasks, load_at};
ghost use Rattle.fzn_values.specs.LoadProfile.{AreTasks, AreInOrder, load_after, IsProfile, IsChangedFrom, IsUsedBy, AreWithin, GrowBy};

use crate::entries::Entries;

/// How many starts are put in order at once.
pub(crate) const BLOCK: usize = 8192;

/// Whether the tasks use at most the capacity at each of these times.
pub(crate) fn is_kept_by_profile(
    block: &Entries,
    starts: &Entries,
    durations: &Entries,
    uses: &Entries,
    capacity: i64,
) -> bool
    requires block { length block.now ≤ 8192 }
    requires tasks { AreTasks starts.now durations.now uses.now }
    ensures { IsTrue result ↔ All (λ t. load_at t (tasks starts.now durations.now uses.now) ≤ℤ capacity) block.now }
{
    // Room is made at each call, so for no more than serve.
    if block.len() <= 128 {
        is_kept_in_room::<128>(block, starts, durations, uses, capacity)
    } else if block.len() <= 1024 {
        is_kept_in_room::<1024>(block, starts, durations, uses, capacity)
    } else {
        is_kept_in_room::<BLOCK>(block, starts, durations, uses, capacity)
    }
}

// The same with room for N times. A constant N unrolls the searches, and as a function of its own only this call has that much on the stack.
#[inline(never)]
fn is_kept_in_room<const N: usize>(
    block: &Entries,
    starts: &Entries,
    durations: &Entries,
    uses: &Entries,
    capacity: i64,
) -> bool
    requires room { N ≤ 8192 }
    requires block { length block.now ≤ N }
    requires tasks { AreTasks starts.now durations.now uses.now }
    ensures { IsTrue result ↔ All (λ t. load_at t (tasks starts.now durations.now uses.now) ≤ℤ capacity) block.now }
{
    // Where a place is left stands the last of all times, so that all are in order.
    let mut times = [i64::MAX; N];
    put_in_order(&mut times[..block.len()], block);
    let mut changes = [0i128; N];
    add_tasks(&mut changes, &times, starts, durations, uses);
    stays_within(&changes, block.len(), capacity)
}

// The times become the starts of the block, in order.
fn put_in_order(times: &mut [i64], block: &Entries)
    requires length { length times.old ≡ length block.now }
    ensures order { AreInOrder times.new }
    ensures same { IsPermutation block.now times.new }
{
    for place in 0..block.len() {
        times[place] = block.get(place);
    }
    times.sort_unstable();
}

// The changes become those of the load from each time to the next.
fn add_tasks<const N: usize>(
    changes: &mut [i128],
    times: &[i64; N],
    starts: &Entries,
    durations: &Entries,
    uses: &Entries,
)
    requires none { changes.old ≡ replicate N (pos 0) }
    requires order { AreInOrder times.now }
    requires tasks { AreTasks starts.now durations.now uses.now }
    ensures profile { IsProfile times.now (tasks starts.now durations.now uses.now) changes.new }
    ensures bound { AreWithin (2 ^ 100) changes.new }
{
    for task in 0..starts.len() {
        add_task(
            changes,
            times,
            starts.get(task),
            durations.get(task),
            uses.get(task),
        );
    }
}

// The use is added at the start and taken off at the end, which no time reaches if it is beyond 64 bits.
fn add_task<const N: usize>(
    changes: &mut [i128],
    times: &[i64; N],
    start: i64,
    duration: i64,
    uses: i64,
)
    requires length { length changes.old ≡ N }
    requires order { AreInOrder times.now }
    requires room { AreWithin (2 ^ 100) changes.old }
    requires not_negative { pos 0 ≤ℤ duration }
    ensures used { IsUsedBy (record { start = start; duration = duration; uses = uses }) times.now changes.old changes.new }
    ensures bound { GrowBy (2 ^ 64) changes.old changes.new }
{
    add_change(changes, times, start, uses as i128);
    if let Some(end) = start.checked_add(duration) {
        add_change(changes, times, end, -(uses as i128));
    }
}

// A change after the last time is none at any of them.
fn add_change<const N: usize>(changes: &mut [i128], times: &[i64; N], time: i64, change: i128)
    requires length { length changes.old ≡ N }
    requires order { AreInOrder times.now }
    requires room { AreWithin (2 ^ 101) changes.old }
    requires small { unsigned_abs change ≤ 2 ^ 63 }
    ensures changed { IsChangedFrom time change times.now changes.old changes.new }
    ensures bound { GrowBy (2 ^ 63) changes.old changes.new }
{
    let place = place_of(times, time);
    if place < N {
        changes[place] += change;
    }
}

// The place of the first time that is not before this one; the number of times where there is none.
fn place_of<const N: usize>(times: &[i64; N], time: i64) -> usize
    requires { AreInOrder times.now }
    ensures { IsPlaceOf times.now time result }
{
    times.partition_point(|other| *other < time)
}

// Whether the load is within the capacity after each of so many changes.
fn stays_within(changes: &[i128], count: usize, capacity: i64) -> bool
    requires count { count ≤ length changes.now }
    requires short { length changes.now ≤ 8192 }
    requires room { AreWithin (2 ^ 100) changes.now }
    ensures { IsTrue result ↔ ((k : ℕ) → k < count → load_after (k + 1) changes.now ≤ℤ capacity) }
{
    let mut load: i128 = 0;
    for place in 0..count {
        load += changes[place];
        if (capacity as i128) < load {
            return false;
        }
    }
    true
}
