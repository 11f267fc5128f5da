// Moves by comparisons with numbers: from the Booleans that switch them to the variables.
use crate::moves::{MOST_VALUES, Moves, Role, use_one, width_of};
use crate::switches::Switch;
use fzn_domain::Memory;
use fzn_meaning::Model;
use fzn_multipliers::{Bounds, Work};

impl Moves {
    /// Lets what Booleans weigh that are used move to the variables that they compare with numbers.
    pub(crate) fn add_switches(
        &mut self,
        model: &Model,
        bounds: &[Bounds],
        used: &mut Vec<bool>,
        room: &mut Work,
    ) -> Result<(), Memory> {
        let mut number = 0u64;
        for constraint in model.constraints.as_slice() {
            number = number.saturating_add(1);
            if let Some(switch) = Switch::of(constraint)
                && used.get(switch.boolean).copied() == Some(true)
                && self.switch(number, switch, bounds, room)?
            {
                self.switches = self.switches.saturating_add(1);
                use_one(switch.variable, used);
            }
        }
        Ok(())
    }

    /// Lets what the Boolean weighs move to the variable, where it can.
    fn switch(
        &mut self,
        constraint: u64,
        switch: Switch,
        bounds: &[Bounds],
        room: &mut Work,
    ) -> Result<bool, Memory> {
        let (Some(width), Some(ends)) = (
            width_of(bounds, switch.variable),
            bounds.get(switch.variable),
        ) else {
            return Ok(false);
        };
        if MOST_VALUES < width
            || switch.boolean == switch.variable
            || !matches!(
                self.roles.get(switch.boolean).copied(),
                Some(Role::Open | Role::Kept)
            )
            || !self.can_keep(switch.variable)
            || !room.take(width)
        {
            return Ok(false);
        }
        let start = self.entries.len();
        let mut value = ends.low;
        for _ in 0..width {
            self.entries.push(switch.at(value))?;
            value = value.saturating_add(1);
        }
        self.put(constraint, switch.variable, switch.boolean, ends.low, start)?;
        Ok(true)
    }
}
