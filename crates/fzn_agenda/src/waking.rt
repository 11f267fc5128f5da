// Who is queued once a variable has changed.
ghost use Rattle.std.specs.Prelude.{◌≡◌, length};

use crate::changes::Changes;
use crate::counters::Counters;
use crate::equals::Change;
use crate::known::Known;
use crate::waiting::{Asked, AskedEnd, AskedEquality, AskedPair, Counted};
use fzn_propagator::{Propagator, Shift};
use fzn_queue::Queue;
use fzn_trail::Trail;

/// Queues those of the list that wait for one of these changes.
#[inline(always)]
pub fn wake(queue: &mut Queue, list: &[Asked], changes: Changes) {
    for asked in list {
        if asked.changes.meet(changes) {
            queue.push(asked.slot);
        }
    }
}

/// The same of those that count, whose variable moves so, but for those that have nothing to say.
#[inline(always)]
pub fn wake_counted<P: Propagator>(
    queue: &mut Queue,
    counters: &mut Counters,
    propagators: &[P],
    list: &[Counted],
    changes: Changes,
    shift: Shift,
) {
    for counted in list {
        if counted.changes.meet(changes) && !counters.is_idle(propagators, counted, shift) {
            queue.push(counted.slot);
        }
    }
}

/// Queues the pairs of which anything follows at this end, once the bound of the variable has moved to this value.
#[inline(always)]
pub fn wake_ends(queue: &mut Queue, known: &Known, list: &[AskedEnd], value: i64) {
    for asked in list {
        if !asked.end.is_idle(value, known) {
            queue.push(asked.slot);
        }
    }
}

/// Queues the pairs that wait for one of these changes, where anything follows.
#[inline(always)]
pub fn wake_pairs(queue: &mut Queue, known: &Known, list: &[AskedPair], changes: Changes) {
    for asked in list {
        if asked.changes.meet(changes) && !asked.pair.is_idle(known) {
            queue.push(asked.slot);
        }
    }
}

/// Queues the equalities of which the change of the variable says anything new.
#[inline(always)]
pub fn wake_equalities(
    queue: &mut Queue,
    known: &Known,
    list: &[AskedEquality],
    change: &Change,
    trail: &Trail,
    variables: usize,
)
    requires { variables ≡ length trail.now.declared }
{
    for asked in list {
        if !asked.equality.is_idle(change, known, trail, variables) {
            queue.push(asked.slot);
        }
    }
}
