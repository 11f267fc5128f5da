// The values of a list that lie beyond the ends of a set.
ghost use Rattle.std.specs.Prelude.{◌≡◌, length, Some};
ghost use Rattle.fzn_meaning.specs.Separable.{IsVariablePart};

use crate::pass::Pass;
use crate::weights::{entry_weight, value_at};
use fzn_domain::{GREATEST_VALUE, LEAST_VALUE};
use fzn_meaning::{Listed, VariablePart};
use fzn_rules::is_light;

/// The declared values of a list that lie beyond the ends of a set, as far as they are noted. No contract rests on it.
#[derive(Clone, Copy, Debug)]
pub(crate) struct Beyond {
    low: i64,
    high: i64,
    /// How many of them lie below the low end.
    pub(crate) below: u32,
    /// The greatest of these, or the least value that a variable may have.
    pub(crate) last_below: i64,
    /// How many lie above the high end.
    pub(crate) above: u32,
    /// The least of these, or the greatest value that a variable may have.
    pub(crate) first_above: i64,
}

impl Beyond {
    /// None is noted yet that lies beyond these ends.
    pub(crate) fn new(low: i64, high: i64) -> Beyond {
        Beyond {
            low,
            high,
            below: 0,
            last_below: LEAST_VALUE,
            above: 0,
            first_above: GREATEST_VALUE,
        }
    }

    /// Notes each value that weighs less than the level.
    pub(crate) fn note_light(
        &mut self,
        pass: &Pass,
        part: &VariablePart,
        listed: &Listed,
        level: Option<i128>,
    )
        requires part { IsVariablePart (length pass.now.trail.now.declared) part.now }
        requires of { part.now.listed ≡ Some listed.now }
    {
        for i in 0..listed.weights.len() {
            if is_light(entry_weight(part, listed, i), level) {
                self.note(pass, part, value_at(listed, i));
            }
        }
    }

    /// Notes the value of each entry at these indices.
    pub(crate) fn note_each(
        &mut self,
        pass: &Pass,
        part: &VariablePart,
        listed: &Listed,
        indices: &[usize],
    )
        requires part { IsVariablePart (length pass.now.trail.now.declared) part.now }
        requires of { part.now.listed ≡ Some listed.now }
    {
        for i in indices {
            if *i < listed.weights.len() {
                self.note(pass, part, value_at(listed, *i));
            }
        }
    }

    /// Notes the value if it is declared and lies beyond an end.
    fn note(&mut self, pass: &Pass, part: &VariablePart, value: i64)
        requires { IsVariablePart (length pass.now.trail.now.declared) part.now }
    {
        if self.low <= value && value <= self.high {
            return;
        }
        if !pass.trail.declared(part.var).contains(value) {
            return;
        }
        if value < self.low {
            self.below = self.below.saturating_add(1);
            self.last_below = self.last_below.max(value);
        } else {
            self.above = self.above.saturating_add(1);
            self.first_above = self.first_above.min(value);
        }
    }
}
