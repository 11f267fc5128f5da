// Parts that go from one variable to another.
ghost use Rattle.std.specs.Prelude.{◌≡◌, ◌⊎◌, true, length, IfOk, IfErr, IfSome, OnOk, Ok, Err};
ghost use Rattle.std.specs.List.{All};
ghost use Rattle.fzn_domain.specs.Narrow.{IsVariable, set_of};
ghost use Rattle.fzn_meaning.specs.Meaning.{IsWellFormedConstraint};
ghost use Rattle.fzn_meaning.specs.Solutions.{declared_sets};
ghost use Rattle.fzn_cited.specs.declared.fault.DeriveFault.TheVariants.{Memory};
ghost use Rattle.fzn_meaning.specs.Separable.{IsWeightList, IsCoefficient};
ghost use Rattle.fzn_dependence.specs.Dependence.{dependent_at};
ghost use Rattle.fzn_weights.specs.Moves.{is_narrow};
ghost use Rattle.fzn_row.specs.Draft.{blank_part, part_for, with_part};
ghost use Rattle.fzn_row.specs.Moves.{part_moved_so, decided_moved, part_moved_by, move_added};
ghost use Rattle.fzn_row.specs.Room.{draft_of, room_size, IsRoom};

use crate::room::RowDeriver;
use fzn_cited::{DeriveFault, constraint_at};
use fzn_dependence::{Dependence, decider_of};
use fzn_domain::VarId;
use fzn_meaning::{Constraint, Listed, Var, VariablePart};
use fzn_weights::{declared_set, is_narrow, moved, span};
use std::alloc::{AllocError, Global};
use std::mem;

impl RowDeriver {
    /// Moves what the variable weighs by the constraint: to the one that decides it, and of a place of an inverse to the places of the
    /// other list.
    pub(crate) fn add_move(
        &mut self,
        alloc: Global,
        given: &[Constraint],
        vars: &[Var],
        id: u64,
        var: VarId,
    ) -> Result<(), DeriveFault>
        requires room { IsRoom self.old }
        requires vars { length vars.now ≡ room_size self.old }
        requires given { All (IsWellFormedConstraint (room_size self.old)) given.now }
        ensures variables { room_size self.new ≡ room_size self.old }
        ensures room { IsRoom self.new }
        ensures ok { OnOk result (move_added given.now (declared_sets vars.now) (draft_of self.old) id var ≡ Ok (draft_of self.new)) }
        ensures err { IfErr result (λ fault. (fault ≡ Memory) ⊎ (move_added given.now (declared_sets vars.now) (draft_of self.old) id var ≡ Err fault)) }
    {
        let Some(constraint) = constraint_at(given, id) else {
            return Err(DeriveFault::NoSuchConstraint);
        };
        self.move_by(alloc, vars, var, constraint)
    }

    fn move_by(
        &mut self,
        alloc: Global,
        vars: &[Var],
        var: VarId,
        constraint: &Constraint,
    ) -> Result<(), DeriveFault>
        requires room { IsRoom self.old }
        requires vars { length vars.now ≡ room_size self.old }
        requires constraint { IsWellFormedConstraint (room_size self.old) constraint.now }
        ensures variables { room_size self.new ≡ room_size self.old }
        ensures room { IsRoom self.new }
        ensures ok { OnOk result (part_moved_by (declared_sets vars.now) var (draft_of self.old) constraint.now ≡ Ok (draft_of self.new)) }
        ensures err { IfErr result (λ fault. (fault ≡ Memory) ⊎ (part_moved_by (declared_sets vars.now) var (draft_of self.old) constraint.now ≡ Err fault)) }
    {
        match constraint {
            Constraint::Inverse { forward, backward } => {
                self.move_place(alloc, var, forward.as_slice(), backward.as_slice())
            }
            _ => self.move_decided(alloc, vars, var, constraint),
        }
    }

    /// Moves what the variable weighs to the one that decides it.
    fn move_decided(
        &mut self,
        alloc: Global,
        vars: &[Var],
        source: VarId,
        constraint: &Constraint,
    ) -> Result<(), DeriveFault>
        requires room { IsRoom self.old }
        requires vars { length vars.now ≡ room_size self.old }
        requires constraint { IsWellFormedConstraint (room_size self.old) constraint.now }
        ensures variables { room_size self.new ≡ room_size self.old }
        ensures room { IsRoom self.new }
        ensures ok { OnOk result (decided_moved (declared_sets vars.now) source (draft_of self.old) constraint.now ≡ Ok (draft_of self.new)) }
        ensures err { IfErr result (λ fault. (fault ≡ Memory) ⊎ (decided_moved (declared_sets vars.now) source (draft_of self.old) constraint.now ≡ Err fault)) }
    {
        let Some(decider) = decider_of(source, constraint) else {
            return Err(DeriveFault::NotDerived);
        };
        if !is_narrow(declared_set(vars, decider.by)) {
            return Err(DeriveFault::NotDerived);
        }
        self.move_part(alloc, vars, &decider.dependence, source, decider.by)
    }

    /// Moves what one variable weighs to the one that decides it.
    fn move_part(
        &mut self,
        alloc: Global,
        vars: &[Var],
        dependence: &Dependence<'_>,
        source: VarId,
        by: VarId,
    ) -> Result<(), DeriveFault>
        requires room { IsRoom self.old }
        requires vars { length vars.now ≡ room_size self.old }
        requires source { IsVariable (room_size self.old) source }
        requires by { IsVariable (room_size self.old) by }
        requires narrow { is_narrow (set_of (declared_sets vars.now) by) ≡ true }
        ensures variables { room_size self.new ≡ room_size self.old }
        ensures room { IsRoom self.new }
        ensures ok { OnOk result (part_moved_so (declared_sets vars.now) (dependent_at dependence.now) source by (draft_of self.old) ≡ Ok (draft_of self.new)) }
        ensures err { IfErr result (λ fault. (fault ≡ Memory) ⊎ (part_moved_so (declared_sets vars.now) (dependent_at dependence.now) source by (draft_of self.old) ≡ Err fault)) }
    {
        let values = declared_set(vars, by);
        let low = values.min();
        let count = span(values);
        if self.left < count {
            return Err(DeriveFault::NotDerived);
        }
        let set = declared_set(vars, source);
        let part = self.take_part(source)?;
        let place = self.place_of(by)?;
        let old = &self.parts[place].listed;
        let weights = moved(alloc, old, &low, count, set, &part, dependence)?;
        self.left -= count;
        self.parts[place].listed = Some(Listed { low, weights });
        Ok(())
    }

    /// Takes the part of a variable out. It weighs nothing any more.
    pub(crate) fn take_part(&mut self, var: VarId) -> Result<VariablePart, AllocError>
        requires var { IsVariable (room_size self.old) var }
        requires room { IsRoom self.old }
        ensures room { IsRoom self.new }
        ensures variables { room_size self.new ≡ room_size self.old }
        ensures parts { OnOk result (self.new.parts.items ≡ with_part (blank_part var) self.old.parts.items) }
        ensures part { IfOk result (λ part. part ≡ part_for var self.old.parts.items) }
        ensures formed { IfOk result (λ part. IfSome part.listed IsWeightList × IsCoefficient part.coefficient) }
        ensures tables { self.new.tables.items ≡ self.old.tables.items }
        ensures bound { self.new.bound ≡ self.old.bound }
        ensures left { self.new.left ≡ self.old.left }
    {
        let place = self.place_of(var)?;
        let blank_part = VariablePart {
            var,
            coefficient: 0,
            listed: None,
        };
        Ok(mem::replace(&mut self.parts[place], blank_part))
    }
}
