// Changes of a variable, as they are compared with those that wake a propagator.
use fzn_propagator::{Bounds, Event, Shift};

/// Some value goes, as at each change.
const GONE: u8 = 1;

/// The least value rises, or goes back.
const LOW: u8 = 2;

/// The greatest value falls, or goes back.
const HIGH: u8 = 4;

/// One value is left.
const FIXED: u8 = 8;

/// A set of changes, a bit for each.
#[derive(Clone, Copy, Debug)]
pub struct Changes(u8);

impl Changes {
    /// Those for each of which the event stands.
    pub fn of_event(event: Event) -> Changes {
        match event {
            Event::Any => Changes(GONE),
            Event::Bound => Changes(LOW | HIGH),
            Event::Low => Changes(LOW),
            Event::High => Changes(HIGH),
            Event::Fixed => Changes(FIXED),
        }
    }

    /// Those of a set that lost values, where its bounds were these and are those now.
    #[inline(always)]
    pub fn between(before: Bounds, now: Bounds) -> Changes {
        let fixed = if now.low == now.high { FIXED } else { 0 };
        Changes(Changes::of_shift(before.shift_to(now)).0 | fixed)
    }

    /// The same where it is not asked whether one value is left.
    #[inline(always)]
    pub fn of_shift(shift: Shift) -> Changes {
        let low = if shift.low != 0 { LOW } else { 0 };
        let high = if shift.high != 0 { HIGH } else { 0 };
        Changes(GONE | low | high)
    }

    /// Whether some change is in both sets.
    #[inline(always)]
    pub fn meet(self, others: Changes) -> bool {
        self.0 & others.0 != 0
    }

    /// Whether the least value moves.
    #[inline(always)]
    pub fn has_low(self) -> bool {
        self.0 & LOW != 0
    }

    /// Whether the greatest value moves.
    #[inline(always)]
    pub fn has_high(self) -> bool {
        self.0 & HIGH != 0
    }
}
