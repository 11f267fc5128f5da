// Moves by elements of constants: from the values to the indices.
use crate::moves::{MOST_VALUES, Move, Moves, Role, use_one, width_of};
use fzn_domain::Memory;
use fzn_meaning::{Constraint, Model};
use fzn_multipliers::{Bounds, Work};
use fzn_values::Term;

impl Moves {
    /// Lets what the values of elements weigh move to the indices, which are used then.
    pub(crate) fn add_elements(
        &mut self,
        model: &Model,
        bounds: &[Bounds],
        used: &mut Vec<bool>,
        room: &mut Work,
    ) -> Result<(), Memory> {
        let mut number = 0u64;
        for constraint in model.constraints.as_slice() {
            number = number.saturating_add(1);
            if let Some((index, value, entries)) = element_in(constraint)
                && used.get(value).copied() == Some(true)
                && self.add(number, index, value, entries, bounds, room)?
            {
                use_one(index, used);
            }
        }
        Ok(())
    }

    /// Adds the move, where it can be.
    fn add(
        &mut self,
        constraint: u64,
        index: usize,
        value: usize,
        terms: &[Term],
        bounds: &[Bounds],
        room: &mut Work,
    ) -> Result<bool, Memory> {
        let Some(width) = width_of(bounds, index) else {
            return Ok(false);
        };
        if MOST_VALUES < width.max(terms.len())
            || !begins_with_constant(terms)
            || !room.take(width.saturating_add(terms.len()))
            || !are_constants(terms)
            || !self.cast(value, index)
        {
            return Ok(false);
        }
        let start = self.entries.len();
        for term in terms {
            self.entries.push(term.number())?;
        }
        self.all.push(Move {
            constraint,
            index,
            value,
            column: None,
            low: 1,
            start,
            end: self.entries.len(),
        })?;
        Ok(true)
    }

    /// Lets the first variable move to the second, by their numbers less one, where it can.
    pub(crate) fn cast(&mut self, moved: usize, kept: usize) -> bool {
        let can_be = moved != kept
            && self.roles.get(moved).copied() == Some(Role::Open)
            && matches!(
                self.roles.get(kept).copied(),
                Some(Role::Open | Role::Index | Role::Fixed)
            );
        if can_be {
            self.set_role(moved, Role::Late);
            if self.roles.get(kept).copied() == Some(Role::Open) {
                self.set_role(kept, Role::Index);
            }
        }
        can_be
    }
}

/// The index, the value and the entries of an element, where the first two are variables.
fn element_in(constraint: &Constraint) -> Option<(usize, usize, &[Term])> {
    match constraint {
        Constraint::Element {
            index: Term::Variable(index),
            entries,
            value: Term::Variable(value),
        } => Some((
            index.0.saturating_sub(1),
            value.0.saturating_sub(1),
            entries.as_slice(),
        )),
        _ => None,
    }
}

/// Whether the first term is a constant, so that it is worth to look at the others.
fn begins_with_constant(terms: &[Term]) -> bool {
    matches!(terms.first(), Some(Term::Constant(_)))
}

fn are_constants(terms: &[Term]) -> bool {
    for term in terms {
        if let Term::Variable(_) = *term {
            return false;
        }
    }
    true
}
