// Moves by equations of two variables: from one to the other.
use crate::moves::{MOST_VALUES, Moves, Role, use_all, use_one, width_of};
use fzn_domain::Memory;
use fzn_meaning::{Constraint, Model};
use fzn_multipliers::{Bounds, Entry, Rows, Work};
use std::alloc::Global;

impl Moves {
    /// Lets what a variable weighs move to the only other one of an equation: of two Booleans, the second one of which is used, and from a
    /// place of an all different.
    pub(crate) fn add_equations(
        &mut self,
        alloc: Global,
        model: &Model,
        rows: &Rows,
        bounds: &[Bounds],
        used: &mut Vec<bool>,
        room: &mut Work,
    ) -> Result<(), Memory> {
        let apart = apart_in(alloc, model, bounds.len())?;
        for row in rows.rows.iter() {
            if let [one, other] = rows.entries_of(*row)
                && row.is_equal
            {
                let are_bits = is_bit(bounds, one.variable) && is_bit(bounds, other.variable);
                for (from, to) in [(other, one), (one, other)] {
                    let is_wanted = are_bits || apart.get(from.variable).copied() == Some(true);
                    if is_wanted
                        && self.equate(row.constraint, *from, *to, row.bound, bounds, room)?
                    {
                        use_one(to.variable, used);
                        break;
                    }
                }
            }
        }
        Ok(())
    }

    /// Lets what the first variable weighs move to the second by the equation, where it can.
    fn equate(
        &mut self,
        constraint: u64,
        from: Entry,
        to: Entry,
        bound: i64,
        bounds: &[Bounds],
        room: &mut Work,
    ) -> Result<bool, Memory> {
        let (Some(width), Some(ends)) = (width_of(bounds, to.variable), bounds.get(to.variable))
        else {
            return Ok(false);
        };
        if MOST_VALUES < width
            || !has_one(from.coefficient)
            || from.variable == to.variable
            || self.roles.get(from.variable).copied() != Some(Role::Open)
            || !self.can_keep(to.variable)
            || !room.take(width)
        {
            return Ok(false);
        }
        let start = self.entries.len();
        let mut value = ends.low;
        for _ in 0..width {
            let rest = bound.saturating_sub(to.coefficient.saturating_mul(value));
            self.entries.push(rest.saturating_mul(from.coefficient))?;
            value = value.saturating_add(1);
        }
        self.put(constraint, to.variable, from.variable, ends.low, start)?;
        Ok(true)
    }
}

/// By the numbers of the variables, less one: whether it is a place of an all different, of a circuit, or of the first list of an inverse.
fn apart_in(alloc: Global, model: &Model, vars: usize) -> Result<Vec<bool>, Memory> {
    let mut apart = vec![in alloc; false; vars]?;
    for constraint in model.constraints.as_slice() {
        match constraint {
            Constraint::AllDifferent { places } => use_all(places.as_slice(), &mut apart),
            Constraint::Circuit { successors } => use_all(successors.as_slice(), &mut apart),
            Constraint::Inverse { forward, .. } => use_all(forward.as_slice(), &mut apart),
            _ => {}
        }
    }
    Ok(apart)
}

/// Whether the variable is 0 or 1.
fn is_bit(bounds: &[Bounds], variable: usize) -> bool {
    match bounds.get(variable) {
        Some(bounds) => 0 <= bounds.low && bounds.high <= 1,
        None => false,
    }
}

fn has_one(coefficient: i64) -> bool {
    coefficient == 1 || coefficient == -1
}
