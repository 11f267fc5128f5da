// Moves by inverses: from the second lists to the first.
use crate::moves::{MOST_VALUES, Moves, Role, use_all, width_of};
use fzn_domain::Memory;
use fzn_meaning::{Constraint, Model};
use fzn_multipliers::{Bounds, Work};
use fzn_values::Term;

impl Moves {
    /// Lets what the second lists of inverses weigh move to the first, whose places are used then.
    pub(crate) fn add_inverses(
        &mut self,
        model: &Model,
        bounds: &[Bounds],
        used: &mut Vec<bool>,
        room: &mut Work,
    ) -> Result<(), Memory> {
        let mut number = 0u64;
        for constraint in model.constraints.as_slice() {
            number = number.saturating_add(1);
            if let Constraint::Inverse { forward, backward } = constraint
                && self.add_inverse(
                    number,
                    forward.as_slice(),
                    backward.as_slice(),
                    bounds,
                    used,
                    room,
                )?
            {
                use_all(forward.as_slice(), used);
            }
        }
        Ok(())
    }

    /// Lets what the second list weighs move to the first. Whether something moves.
    fn add_inverse(
        &mut self,
        constraint: u64,
        forward: &[Term],
        backward: &[Term],
        bounds: &[Bounds],
        used: &[bool],
        room: &mut Work,
    ) -> Result<bool, Memory> {
        if !room.take(forward.len())
            || !has_used(backward, used)
            || !self.keep_all(forward, bounds)
        {
            return Ok(false);
        }
        let start = self.exchanges.add_list(forward)?;
        let mut number = 0i64;
        let mut moves = false;
        for term in backward {
            number = number.saturating_add(1);
            if let Term::Variable(var) = *term {
                let variable = var.0.saturating_sub(1);
                if used.get(variable).copied() == Some(true)
                    && width_of(bounds, variable).is_some_and(|width| width <= MOST_VALUES)
                    && room.take(forward.len().saturating_mul(forward.len()))
                    && self.cast_away(variable)
                {
                    self.exchanges.add(constraint, variable, number, start)?;
                    moves = true;
                }
            }
        }
        Ok(moves)
    }

    /// Whether all terms are variables to which others may move: they do not move then.
    fn keep_all(&mut self, terms: &[Term], bounds: &[Bounds]) -> bool {
        for term in terms {
            let Term::Variable(var) = *term else {
                return false;
            };
            let variable = var.0.saturating_sub(1);
            if self.is_moved(variable)
                || !width_of(bounds, variable).is_some_and(|width| width <= MOST_VALUES)
            {
                return false;
            }
        }
        for term in terms {
            if let Term::Variable(var) = *term
                && let Some(role) = self.roles.get_mut(var.0.saturating_sub(1))
            {
                *role = Role::Fixed;
            }
        }
        true
    }

    /// Lets the variable move on, where it can.
    fn cast_away(&mut self, variable: usize) -> bool {
        match self.roles.get_mut(variable) {
            Some(role) if matches!(*role, Role::Open | Role::Kept | Role::Index) => {
                *role = Role::Moved;
                true
            }
            _ => false,
        }
    }
}

/// Whether one of the terms is a variable that is used.
fn has_used(terms: &[Term], used: &[bool]) -> bool {
    for term in terms {
        if let Term::Variable(var) = *term
            && used.get(var.0.saturating_sub(1)).copied() == Some(true)
        {
            return true;
        }
    }
    false
}
