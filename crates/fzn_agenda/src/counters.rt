// What propagators count, moved as bounds move, and moved back as the trail goes back. It only chooses: nothing is promised of what is
// counted.
use crate::changes::Changes;
use crate::known::Known;
use crate::waiting::{Counted, Waiting};
use crate::watchers::Watchers;
use fzn_domain::Memory;
use fzn_meaning::Model;
use fzn_propagator::{Bounds, Counting, Propagator, Shift, Tally};
use std::alloc::Global;

/// What the bounds of a variable were before an entry of the trail.
#[derive(Clone, Copy, Debug)]
struct Move {
    /// The place of the entry.
    entry: usize,
    /// The number of the variable.
    variable: usize,
    before: Bounds,
}

/// What is counted, and the bounds by which it was. Where several entries of one variable are looked at together, the first of
/// them counts for all, and going back takes back each by itself.
#[derive(Debug, Drop)]
pub struct Counters {
    /// By the places of the propagators: of no matter where one counts nothing.
    tallies: Vec<Tally>,
    /// The bounds by which was counted.
    known: Known,
    /// The same for those that count, by the numbers of the variables, less one: `None` where none waits for the variable.
    shown: Vec<Option<Bounds>>,
    /// Newest last, as the trail grows and goes back.
    moves: Vec<Move>,
}

impl Counters {
    /// What propagators of the model begin to count with, who wait so for its variables. The bounds are known of each variable for which one
    /// waits that counts.
    pub fn new(
        alloc: Global,
        model: &Model,
        countings: &[Option<Counting>],
        watchers: &Watchers,
    ) -> Result<Counters, Memory> {
        let mut tallies = Vec::new(alloc);
        for counting in countings {
            tallies.push(match counting {
                Some(counting) => counting.tally,
                None => Tally { low: 0, high: 0 },
            })?;
        }
        let mut known = Vec::new(alloc);
        let mut shown = Vec::new(alloc);
        for (i, var) in model.vars.as_slice().iter().enumerate() {
            known.push(Bounds::of(&var.domain))?;
            if is_counted_by_any(watchers, i.wrapping_add(1)) {
                shown.push(Some(Bounds::of(&var.domain)))?;
            } else {
                shown.push(None)?;
            }
        }
        Ok(Counters {
            tallies,
            known: Known::new(known),
            shown,
            moves: Vec::new(alloc),
        })
    }

    /// The bounds by which was counted, and those of constants.
    #[inline(always)]
    pub fn known(&self) -> &Known {
        &self.known
    }

    /// The same, for further constants.
    pub fn known_mut(&mut self) -> &mut Known {
        &mut self.known
    }

    /// Keeps what the bounds of the variable of this number were before the entry at this place, if they are others now.
    #[inline(always)]
    pub fn keep(
        &mut self,
        variable: usize,
        entry: usize,
        before: Bounds,
        now: Bounds,
    ) -> Result<(), Memory> {
        if !before.shift_to(now).is_none() {
            self.moves.push(Move {
                entry,
                variable,
                before,
            })?;
        }
        Ok(())
    }

    /// How far the bounds of the variable of this number move from those by which was counted to these, which those that count are shown.
    #[inline(always)]
    pub fn shift(&mut self, variable: usize, now: Bounds) -> Shift {
        if let Some(shown) = self.shown.get_mut(variable.wrapping_sub(1)) {
            *shown = Some(now);
        }
        match self.known.of(variable) {
            Some(counted) => counted.shift_to(now),
            None => Shift::none(),
        }
    }

    /// By these bounds of the variable of this number was counted.
    #[inline(always)]
    pub fn set_known(&mut self, variable: usize, now: Bounds) {
        self.known.set(variable, now);
    }

    /// The bounds of the variable that is counted move so: whether the propagator, one of these, has nothing to say then.
    #[inline(always)]
    pub fn is_idle<P: Propagator>(
        &mut self,
        propagators: &[P],
        counted: &Counted,
        shift: Shift,
    ) -> bool {
        let place = counted.propagator as usize;
        let (Some(propagator), Some(tally)) = (propagators.get(place), self.tallies.get_mut(place))
        else {
            return false;
        };
        *tally = propagator.count(*tally, counted.weight, shift);
        propagator.is_idle(*tally, &self.shown)
    }

    /// Only so many entries, the first, are sure to be those that were counted: what these propagators counted since is taken back.
    pub fn rewind<P: Propagator>(&mut self, propagators: &[P], entries: usize, waiting: &Waiting) {
        for _ in 0..self.moves.len() {
            match self.moves.last().copied() {
                Some(last) if entries <= last.entry => {
                    self.take_back(propagators, last, waiting);
                }
                _ => return,
            }
            let _ = self.moves.pop();
        }
    }

    fn take_back<P: Propagator>(&mut self, propagators: &[P], last: Move, waiting: &Waiting) {
        if let Some(span) = waiting.span(last.variable)
            && let Some(list) = waiting.counted(span)
        {
            let shift = self.shift(last.variable, last.before);
            let changes = Changes::of_shift(shift);
            for counted in list {
                if counted.changes.meet(changes) {
                    self.count_back(propagators, counted, shift);
                }
            }
        }
        self.set_known(last.variable, last.before);
    }

    fn count_back<P: Propagator>(&mut self, propagators: &[P], counted: &Counted, shift: Shift) {
        let place = counted.propagator as usize;
        if let Some(propagator) = propagators.get(place)
            && let Some(tally) = self.tallies.get_mut(place)
        {
            *tally = propagator.count(*tally, counted.weight, shift);
        }
    }

    /// The trail was made anew, with the same sets.
    pub fn renew(&mut self) {
        self.moves.clear();
    }
}

/// Whether a propagator that counts waits for the variable of this number.
fn is_counted_by_any(watchers: &Watchers, variable: usize) -> bool {
    let (start, end) = watchers.span(variable);
    for i in start..end {
        if let Some(watch) = watchers.get(i)
            && watch.weight.is_some()
        {
            return true;
        }
    }
    false
}
