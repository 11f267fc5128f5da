// Tasks that share a capacity.
ghost use Rattle.std.specs.Prelude.{◌↔◌, ◌≡◌, ◌≤◌, ◌≤ℤ◌, IsTrue, length, take};
ghost use Rattle.std.specs.List.{All};
ghost use Rattle.fzn_list.specs.Limits.{longest};
ghost use Rattle.fzn_values.specs.Cumulative.{IsCumulative, NoneNegative, tasks, load_at};

use crate::entries::Entries;
use crate::load_profile::{BLOCK, is_kept_by_profile};

/// Whether the capacity is kept at every time. It is enough to look at the starts. Each block of 8,192 of them takes one pass over all
/// tasks, in which a task's start and end are found among those of the block by binary search.
pub fn is_cumulative(starts: &Entries, durations: &Entries, uses: &Entries, capacity: i64) -> bool
    requires durations { length durations.now ≡ length starts.now }
    requires uses { length uses.now ≡ length starts.now }
    requires short { length starts.now ≤ longest }
    ensures { IsTrue result ↔ IsCumulative starts.now durations.now uses.now capacity }
{
    if capacity < 0 || !are_not_negative(durations) || !are_not_negative(uses) {
        return false;
    }
    is_kept_at_starts(starts, durations, uses, capacity)
}

fn are_not_negative(values: &Entries) -> bool
    ensures { IsTrue result ↔ NoneNegative values.now }
{
    for place in 0..values.len() {
        if values.get(place) < 0 {
            return false;
        }
    }
    true
}

fn is_kept_at_starts(starts: &Entries, durations: &Entries, uses: &Entries, capacity: i64) -> bool
    requires durations { length durations.now ≡ length starts.now }
    requires uses { length uses.now ≡ length starts.now }
    requires short { length starts.now ≤ longest }
    requires not_negative { NoneNegative durations.now }
    ensures { IsTrue result ↔ All (λ t. load_at t (tasks starts.now durations.now uses.now) ≤ℤ capacity) starts.now }
{
    for block in 0..starts.len().div_ceil(BLOCK) {
        let times = first_block(&starts.from(block * BLOCK));
        if !is_kept_by_profile(&times, starts, durations, uses, capacity) {
            return false;
        }
    }
    true
}

fn first_block<'a>(rest: &Entries<'a>) -> Entries<'a>
    ensures { result ≡ take 8192 rest.now }
{
    rest.before(rest.len().min(BLOCK))
}
