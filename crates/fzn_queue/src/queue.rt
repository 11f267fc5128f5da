// The propagators that are to be asked, those that cost little first.
use crate::sweep::Sweep;
use fzn_domain::Memory;
use fzn_propagator::{Cost, Propagator};
use std::alloc::Global;

/// So often, and so often for each propagator, those that cost little are asked in a row while others wait.
const PATIENCE: usize = 4_096;

const PATIENCE_EACH: usize = 16;

/// Where a propagator is queued.
#[derive(Clone, Copy, Debug)]
pub struct Slot {
    rank: u32,
    cost: Cost,
}

/// The propagators that are queued, for each cost by their ranks. Where those that cost little find one thing after the other, as a sum may
/// that moves its bounds by one at a time, the others have their turn too.
#[derive(Debug, Drop)]
pub struct Queue {
    /// By place.
    slots: Vec<Slot>,
    /// By rank.
    places: Vec<usize>,
    small: Sweep,
    middling: Sweep,
    great: Sweep,
    /// How much the one costs that was the next.
    turn: Cost,
    /// How often the next one was asked for since one had its turn that does not cost little.
    asked: usize,
    /// How often that may be while such a one waits.
    patience: usize,
}

impl Queue {
    /// All of these propagators. Their ranks rise in this order of their places, in which each of them stands once.
    pub fn new<P: Propagator>(
        alloc: Global,
        propagators: &[P],
        order: &[usize],
    ) -> Result<Queue, Memory> {
        let count = propagators.len();
        let mut queue = Queue {
            slots: slots_in(alloc, propagators, order)?,
            places: Vec::from_slice(alloc, order)?,
            small: Sweep::new(alloc, count)?,
            middling: Sweep::new(alloc, count)?,
            great: Sweep::new(alloc, count)?,
            turn: Cost::Small,
            asked: 0,
            patience: count.saturating_mul(PATIENCE_EACH).saturating_add(PATIENCE),
        };
        for place in 0..count {
            if let Some(slot) = queue.slot(place) {
                queue.push(slot);
            }
        }
        Ok(queue)
    }

    /// Where the propagator at this place is queued.
    pub fn slot(&self, place: usize) -> Option<Slot> {
        self.slots.get(place).copied()
    }

    /// How many are queued.
    pub fn len(&self) -> usize {
        let few = self.small.len().wrapping_add(self.middling.len());
        few.wrapping_add(self.great.len())
    }

    /// Queues the propagator of this slot, where it is not.
    #[inline(always)]
    pub fn push(&mut self, slot: Slot) {
        self.sweep_of(slot.cost).push(slot.rank as usize);
    }

    #[inline(always)]
    fn sweep_of(&mut self, cost: Cost) -> &mut Sweep {
        match cost {
            Cost::Small => &mut self.small,
            Cost::Middling => &mut self.middling,
            Cost::Great => &mut self.great,
        }
    }

    /// The place of the next one, which stays queued: of those that cost least of all that are queued, or where these went on for long of
    /// the others.
    #[inline(always)]
    pub fn first(&mut self) -> Option<usize> {
        self.asked = self.asked.wrapping_add(1);
        self.turn = if self.small.len() > 0 && !self.is_turn_of_others() {
            Cost::Small
        } else if self.middling.len() > 0 {
            Cost::Middling
        } else {
            Cost::Great
        };
        let rank = self.sweep_of(self.turn).first()?;
        self.places.get(rank).copied()
    }

    /// Whether those that do not cost little have waited long.
    fn is_turn_of_others(&self) -> bool {
        self.patience < self.asked && (self.middling.len() > 0 || self.great.len() > 0)
    }

    /// Takes out the one that was the next.
    pub fn pop(&mut self) {
        self.sweep_of(self.turn).pop();
        if self.small.len() == 0 || !matches!(&self.turn, Cost::Small) {
            self.asked = 0;
        }
    }

    /// The one that was the next waits for the next sweep, if it costs little: what costs more is asked again at once, while what it found
    /// is new.
    pub fn put_off(&mut self) {
        if matches!(&self.turn, Cost::Small) {
            self.small.put_off();
        }
    }

    /// Takes all out.
    pub fn clear(&mut self) {
        for _ in 0..self.len() {
            let _ = self.first();
            self.pop();
        }
        self.asked = 0;
    }
}

/// Where each of these propagators is queued, by its place, in this order of their ranks.
fn slots_in<P: Propagator>(
    alloc: Global,
    propagators: &[P],
    order: &[usize],
) -> Result<Vec<Slot>, Memory> {
    let mut slots = Vec::new(alloc);
    for propagator in propagators {
        slots.push(Slot {
            rank: 0,
            cost: propagator.cost(),
        })?;
    }
    for rank in 0..order.len() {
        let place = order[rank];
        if place < slots.len() {
            slots[place].rank = u32::try_from(rank).unwrap_or(u32::MAX);
        }
    }
    Ok(slots)
}
