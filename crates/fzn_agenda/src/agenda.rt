// Which propagators are to be asked next: those that watch what was narrowed.
ghost use Rattle.std.specs.Prelude.{◌≡◌, ◌≢◌, ◌<◌, ◌≤◌, List, length, IfOk, IfSome, IsFalse};
ghost use Rattle.std.specs.List.{All};
ghost use Rattle.fzn_domain.specs.IntSet.{IntSet, size};
ghost use Rattle.fzn_domain.specs.Narrow.{AllFixed};

use crate::changes::Changes;
use crate::counters::Counters;
use crate::equals::Change;
use crate::order::leading_order;
use crate::waiting::Waiting;
use crate::waking::{wake, wake_counted, wake_ends, wake_equalities, wake_pairs};
use crate::watchers::Watchers;
use fzn_domain::{Domain, Memory, VarId};
use fzn_meaning::Model;
use fzn_propagator::{Bounds, Propagator};
use fzn_queue::Queue;
use fzn_trail::Trail;
use std::alloc::Global;

/// What is to be asked. It only chooses: what a propagator answers rests on the trail alone.
#[derive(Debug, Drop)]
pub struct Agenda {
    waiting: Waiting,
    counters: Counters,
    queue: Queue,
    /// How many entries of the trail were looked at.
    seen: usize,
    /// How many entries stood when a variable had several values, and all before it one, with its number less one. Newest last, as
    /// the trail grows and goes back.
    opens: Vec<(usize, usize)>,
}

impl Agenda {
    /// All of these propagators of the model are to be asked. `Err` where memory runs out.
    pub fn new<P: Propagator>(
        alloc: Global,
        model: &Model,
        propagators: &[P],
    ) -> Result<Agenda, Memory>
        requires { All (λ propagator. (declared : List IntSet) × P.fits propagator declared) propagators.now }
    {
        let variables = model.vars.len();
        let mut countings = Vec::new(alloc);
        for propagator in propagators {
            countings.push(propagator.counting(alloc)?)?;
        }
        let watchers = Watchers::new(alloc, variables, propagators, &countings)?;
        let mut counters = Counters::new(alloc, model, &countings, &watchers)?;
        let order = leading_order(alloc, variables, propagators, &watchers)?;
        let queue = Queue::new(alloc, propagators, order.as_slice())?;
        let known = counters.known_mut();
        let waiting = Waiting::new(alloc, model, &watchers, &countings, &queue, known)?;
        Ok(Agenda {
            waiting,
            counters,
            queue,
            seen: 0,
            opens: Vec::new(alloc),
        })
    }

    /// Queues which of these propagators watch the variables of the entries that were not looked at yet, but for those that have nothing to
    /// say by what they count. `Err` where memory runs out.
    pub fn look<P: Propagator>(
        &mut self,
        propagators: &[P],
        trail: &Trail,
        variables: usize,
    ) -> Result<(), Memory>
        requires { variables ≡ length trail.now.declared }
    {
        let len = trail.len();
        for place in self.seen..len {
            self.wake(propagators, trail, variables, place)?;
        }
        self.seen = len;
        Ok(())
    }

    /// Queues what watches the variable of the entry at this place.
    fn wake<P: Propagator>(
        &mut self,
        propagators: &[P],
        trail: &Trail,
        variables: usize,
        place: usize,
    ) -> Result<(), Memory>
        requires variables { variables ≡ length trail.now.declared }
        requires place { place < length trail.now.entries }
    {
        let lit = trail.entry(place).lit;
        let var = lit.var;
        if var.0 == 0 || variables < var.0 {
            return Ok(());
        }
        let before = Bounds::of(trail.domain_before(place));
        let now = Bounds::of(trail.domain(var));
        let changes = Changes::between(before, now);
        let Some(span) = self.waiting.span(var.0) else {
            return Ok(());
        };
        if let Some(list) = self.waiting.asked(span) {
            wake(&mut self.queue, list, changes);
        }
        if span.wants_bounds() {
            self.counters.keep(var.0, place, before, now)?;
            self.wake_by_bounds(propagators, var.0, changes, now);
        }
        if let Some(span) = self.waiting.span(var.0)
            && let Some(list) = self.waiting.equalities(span)
        {
            let (queue, known) = (&mut self.queue, self.counters.known());
            let change = Change {
                lit,
                domain: trail.domain(var),
                bounds: now,
            };
            wake_equalities(queue, known, list, &change, trail, variables);
        }
        Ok(())
    }

    /// Queues who counts the variable of this number and the pairs that have it, but for those that are idle. It changed so, and its bounds
    /// are now these.
    #[inline(always)]
    fn wake_by_bounds<P: Propagator>(
        &mut self,
        propagators: &[P],
        variable: usize,
        changes: Changes,
        now: Bounds,
    ) {
        let Some(span) = self.waiting.span(variable) else {
            return;
        };
        let queue = &mut self.queue;
        if let Some(list) = self.waiting.counted(span) {
            let shift = self.counters.shift(variable, now);
            wake_counted(queue, &mut self.counters, propagators, list, changes, shift);
        }
        self.counters.set_known(variable, now);
        let known = self.counters.known();
        if changes.has_low()
            && let Some(list) = self.waiting.low_ends(span)
        {
            wake_ends(queue, known, list, now.low);
        }
        if changes.has_high()
            && let Some(list) = self.waiting.high_ends(span)
        {
            wake_ends(queue, known, list, now.high);
        }
        if let Some(list) = self.waiting.pairs(span) {
            wake_pairs(queue, known, list, changes);
        }
    }

    /// How many propagators are queued.
    pub fn len(&self) -> usize {
        self.queue.len()
    }

    /// The place of the propagator that is to be asked.
    pub fn first(&mut self) -> Option<usize> {
        self.queue.first()
    }

    /// It has nothing to say.
    pub fn leave(&mut self) {
        self.queue.pop();
    }

    /// It has found something, and is asked once more: in the next sweep, if it costs little.
    pub fn put_off(&mut self) {
        self.queue.put_off();
    }

    /// Only so many entries, the first, are sure to be those that were looked at for these propagators. Whether there were more: then what is
    /// queued is dropped, since before each decision all that was queued had been asked.
    pub fn rewind<P: Propagator>(&mut self, propagators: &[P], entries: usize) -> bool {
        self.rewind_opens(entries);
        if self.seen <= entries {
            return false;
        }
        self.seen = entries;
        self.counters.rewind(propagators, entries, &self.waiting);
        self.queue.clear();
        true
    }

    /// The trail was made anew, with the same sets: all its entries are to be looked at. What is queued stays so.
    pub fn renew(&mut self) {
        self.opens.clear();
        self.counters.renew();
        self.seen = 0;
    }

    fn rewind_opens(&mut self, entries: usize) {
        for _ in 0..self.opens.len() {
            match self.opens.last() {
                Some((stood, _)) if entries < *stood => {}
                _ => return,
            }
            let _ = self.opens.pop();
        }
    }

    /// Whether each variable has one value; `Err` where memory runs out. It begins at the variable that was the first with several when the trail was last as it is,
    /// or a part of that.
    pub fn is_all_fixed(&mut self, trail: &Trail, variables: usize) -> Result<bool, Memory>
        requires { variables ≡ length trail.now.declared }
        ensures { IfOk result (λ all. IsFalse all → ¬ (AllFixed trail.now.sets)) }
    {
        let from = match self.opens.last() {
            Some((_, index)) => *index,
            None => 0,
        };
        match first_open(trail, from, variables) {
            Some(index) => {
                if self.opens.is_empty() || from < index {
                    self.opens.push((trail.len(), index))?;
                }
                Ok(false)
            }
            None => Ok(true),
        }
    }
}

/// The first variable from one index up to another, counted from 0, that has not one value.
fn first_open(trail: &Trail, from: usize, upto: usize) -> Option<usize>
    requires { upto ≤ length trail.now.declared }
    ensures { IfSome result (λ _. ¬ (AllFixed trail.now.sets)) }
{
    let _entries = trail.len(); // A trail has a set for each variable.
    for index in from..upto {
        if !has_one_value(trail.domain(VarId(index + 1))) {
            return Some(index);
        }
    }
    None
}

/// Whether the set has one value. Then its ends are the same.
fn has_one_value(set: &Domain) -> bool
    ensures { IsFalse result → size set.now ≢ 1 }
{
    !set.is_empty() && set.min() == set.max()
}
