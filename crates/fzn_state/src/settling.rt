// The entries of level 0 are settled: those that the present sets need stand on clauses of one literal, and the others are gone.
ghost use Rattle.std.specs.Prelude.{◌≡◌, ◌≤◌, List, length, IfOk, IfSome, OnOk, IsTrue};
ghost use Rattle.fzn_domain.specs.Narrow.{IsClauseOver, NoneEmpty};
ghost use Rattle.fzn_meaning.specs.declared.model.Model.{Model};
ghost use Rattle.fzn_meaning.specs.Solutions.{declared_sets};
ghost use Rattle.fzn_cert.specs.declared.step.Step.{Step};
ghost use Rattle.fzn_clauses.specs.Held.{IsHeld, AllHeld};
ghost use Rattle.fzn_clauses.specs.Propagation.{IsPropagated};
ghost use Rattle.fzn_clauses.specs.Watching.{held_by, IsWatching};
ghost use Rattle.fzn_strategy.specs.declared.learn.Learn.TheVariants.{First};
ghost use Rattle.fzn_trail.specs.Levels.{fresh, level_of};
ghost use Rattle.fzn_state.specs.Volume.{slack};
ghost use Rattle.fzn_state.specs.Changes.{IsStateKept};
ghost use Rattle.fzn_state.specs.Search.{IsAfter, IsSearchReady, IsLeftBySearch};

use crate::fault::Fault;
use crate::sink::Sink;
use crate::solver::{Solver, declared};
use fzn_clauses::Clauses;
use fzn_conflict::Marks;
use fzn_domain::{Memory, Op, VarId};
use fzn_meaning::{Model, Var};
use fzn_reduction::forget_units;
use fzn_strategy::Learn;
use fzn_trail::{Antecedent, ClauseId, Reason, Trail};
use std::alloc::Global;

impl Solver {
    /// Where the entries of level 0 are many, and most of them are bounds, and the first unique implication point is learned: a clause of
    /// one literal is learned for each of them, and the trail is made anew of those that the present sets need.
    pub(crate) fn settle<S: Sink>(
        &mut self,
        alloc: Global,
        model: &Model,
        sink: &mut S,
    ) -> Result<(), Fault>
        requires ready { IsSearchReady model.now self.old (S.written sink.old) (S.keeps model.now sink.old) }
        ensures kept { OnOk result (IsStateKept model.now (S.written sink.new) self.old self.new) }
        ensures left { IsLeftBySearch model.now (S.written sink.new) (S.keeps model.now sink.new) (S.origin sink.new ≡ S.origin sink.old) }
    {
        if !self.is_settling_due(model.vars.len()) {
            return Ok(());
        }
        if !are_moves(&self.trail) {
            self.notes.settling.expect_entries(self.trail.len());
            return Ok(());
        }
        want_units(&self.trail, &self.clauses, &mut self.notes.marks)?;
        self.prove_wanted(alloc, model, sink)?;
        self.renew(alloc, model)?;
        Ok(())
    }

    /// Whether the entries of level 0 are to be settled. In plain learning they never are.
    fn is_settling_due(&self, variables: usize) -> bool
        ensures first { IsTrue result → self.now.learn ≡ First }
        ensures level { IsTrue result → level_of self.now.trail ≡ 0 }
    {
        match self.learn {
            Learn::Plain => false,
            Learn::First => {
                self.trail.level() == 0
                    && self
                        .notes
                        .settling
                        .has_many_entries(self.trail.len(), variables)
            }
        }
    }

    /// Makes the trail anew, where no set is wider then, and forgets the clauses that stood for entries and are reasons of none.
    fn renew(&mut self, alloc: Global, model: &Model) -> Result<(), Memory>
        requires first { self.old.learn ≡ First }
        requires level { level_of self.old.trail ≡ 0 }
        requires state { (steps : List Step) × IsAfter model.now self.old steps }
        ensures kept { OnOk result ((steps : List Step) → IsAfter model.now self.old steps → IsStateKept model.now steps self.old self.new) }
    {
        self.notes.settling.expect_entries(self.trail.len());
        self.clauses.look_at_all()?;
        let trail = settled(
            alloc,
            model.vars.as_slice(),
            &self.trail,
            &self.clauses,
            &self.notes.marks,
        )?;
        if !has_no_more_values(&trail, &self.trail, model.vars.len()) {
            return Ok(());
        }
        self.search.undo(&self.trail, 0);
        self.trail = trail;
        self.drop_inferences();
        forget_units(
            alloc,
            &self.trail,
            &mut self.clauses,
            &self.cuts,
            &mut self.notes,
        )?;
        Ok(())
    }
}

/// Whether most of the entries are bounds, or values that a variable takes: of the others, each of which takes out one value, few go.
fn are_moves(trail: &Trail) -> bool {
    let mut count: usize = 0;
    for place in 0..trail.len() {
        if trail.entry(place).lit.op != Op::NotEqual {
            count = count.saturating_add(1);
        }
    }
    count >= trail.len() / 2
}

/// Notes that a clause is wanted for each entry for which none stands.
fn want_units(trail: &Trail, clauses: &Clauses, marks: &mut Marks) -> Result<(), Memory> {
    for place in 0..trail.len() {
        if unit_at(trail, clauses, marks, place).is_none() {
            marks.want(place)?;
        }
    }
    Ok(())
}

/// The held clause of one literal that is the reason of the entry at this place or stands for it, where there is one.
fn unit_at(trail: &Trail, clauses: &Clauses, marks: &Marks, place: usize) -> Option<ClauseId>
    ensures { IfSome result (IsHeld (held_by clauses.now)) }
{
    if place >= trail.len() {
        return None;
    }
    if let Reason::Implied(Antecedent::Clause(id)) = trail.entry(place).reason
        && is_unit(clauses, id)
    {
        return Some(id);
    }
    let id = marks.unit(place)?;
    if is_unit(clauses, id) {
        return Some(id);
    }
    None
}

/// Whether the clause of this number is held, and has one literal.
fn is_unit(clauses: &Clauses, id: ClauseId) -> bool
    ensures { IsTrue result → IsHeld (held_by clauses.now) id }
{
    clauses.is_held(id) && clauses.clause(id).len() == 1
}

/// A new trail over the declared sets, on which what stands for the entries of another one is asserted, newest first, but for what is true
/// there already.
fn settled(
    alloc: Global,
    vars: &[Var],
    trail: &Trail,
    clauses: &Clauses,
    marks: &Marks,
) -> Result<Trail, Memory>
    requires filled { NoneEmpty (declared_sets vars.now) }
    requires over { AllHeld (IsClauseOver (length (declared_sets vars.now))) (held_by clauses.now) }
    requires watching { IsWatching clauses.now (fresh (declared_sets vars.now)) }
    ensures propagated { IfOk result (IsPropagated (held_by clauses.now) (fresh (declared_sets vars.now))) }
    ensures watching { IfOk result (IsWatching clauses.now) }
{
    let mut settled = Trail::new(alloc, declared(alloc, vars)?)?;
    let mut place = trail.len();
    while place > 0 {
        place -= 1;
        if let Some(id) = unit_at(trail, clauses, marks, place) {
            clauses.apply(id, &mut settled)?;
        }
    }
    Ok(settled)
}

/// Whether none of so many variables has more values on one trail than on another.
fn has_no_more_values(one: &Trail, other: &Trail, variables: usize) -> bool
    requires one { variables ≡ length one.now.declared }
    requires other { variables ≡ length other.now.declared }
    ensures { IsTrue result → slack one.now.sets ≤ slack other.now.sets }
{
    let _entries = (one.len(), other.len()); // A trail has a set for each variable.
    for i in 0..variables {
        let var = VarId(i + 1);
        if other.domain(var).len() < one.domain(var).len() {
            return false;
        }
    }
    true
}
