// Where the variables of groups stand.
use crate::group::Group;
use fzn_activity::Ties;
use fzn_domain::{Memory, VarId};
use fzn_strategy::{Annotation, ValueChoice};
use std::alloc::Global;

/// Where a variable stands: in which group, and at which place of its variables.
#[derive(Clone, Copy)]
pub struct Seat {
    /// The index of the group.
    pub group: usize,
    /// The place among its variables.
    pub place: usize,
}

/// The variables of the groups as they are added, each where it comes first.
#[derive(Drop)]
pub struct Seating {
    /// By variable.
    pub seats: Vec<Option<Seat>>,
    /// By variable: how many were added before it.
    pub ranks: Vec<Option<usize>>,
    /// How many were added.
    pub count: usize,
    /// The variable that stands in no group, if there is one.
    left_out: Option<VarId>,
}

impl Seating {
    /// So many variables, none of which is added, and this one is never.
    pub fn new(alloc: Global, vars: usize, left_out: Option<VarId>) -> Result<Seating, Memory> {
        Ok(Seating {
            seats: vec![in alloc; None; vars]?,
            ranks: vec![in alloc; None; vars]?,
            count: 0,
            left_out,
        })
    }

    /// Adds those of the annotation's variables that stand in no group yet to the group of this index.
    pub fn add_annotated(
        &mut self,
        group: &mut Group,
        index: usize,
        annotation: &Annotation,
        ties: &mut Ties,
    ) -> Result<(), Memory> {
        let vars = annotation.vars.as_slice();
        self.add_all(group, index, vars, annotation.value_choice, ties)
    }

    /// Adds those of the variables that stand in no group yet to the group of this index.
    pub fn add_all(
        &mut self,
        group: &mut Group,
        index: usize,
        vars: &[VarId],
        value_choice: ValueChoice,
        ties: &mut Ties,
    ) -> Result<(), Memory> {
        for var in vars {
            let number = var.0.saturating_sub(1);
            if number < self.seats.len()
                && number < self.ranks.len()
                && self.seats[number].is_none()
                && self.left_out != Some(*var)
            {
                let place = group.add(number, value_choice, ties)?;
                self.seats[number] = Some(Seat {
                    group: index,
                    place,
                });
                self.ranks[number] = Some(self.count);
                self.count = self.count.saturating_add(1);
            }
        }
        Ok(())
    }
}
