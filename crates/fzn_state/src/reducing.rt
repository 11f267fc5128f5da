// Between two conflicts: what is held for the next ones, and what is forgotten.
ghost use Rattle.std.specs.Prelude.{◌≡◌, ◌<◌, ◌^◌, [], List, length, IfOk, IfSome, OnOk, Some};
ghost use Rattle.fzn_meaning.specs.declared.model.Model.{Model};
ghost use Rattle.fzn_cert.specs.declared.step.Step.{Step};
ghost use Rattle.fzn_strategy.specs.declared.learn.Learn.TheVariants.{First};
ghost use Rattle.fzn_sets.specs.Sets.{start};
ghost use Rattle.fzn_state.specs.Changes.{HoldsNext, IsStateKept, IsReduced, IsNoted};
ghost use Rattle.fzn_state.specs.Search.{IsSearchReady, IsLeftBySearch};
ghost use Rattle.fzn_state.specs.Antecedents.{AreInferencesWritten, Derives};

use crate::fault::Fault;
use crate::learning::step_of;
use crate::sink::Sink;
use crate::solver::Solver;
use fzn_cert::Step;
use fzn_conflict::{Wanted, unit_of, want_unit};
use fzn_domain::{Lit, Memory, Op};
use fzn_learned::Learned;
use fzn_list::Items;
use fzn_meaning::{Goal, Model};
use fzn_reduction::forget;
use fzn_strategy::Learn;
use fzn_trail::{ClauseId, Trail};
use std::alloc::Global;

impl Solver {
    /// Serves the next conflicts: short clauses of inferences that were written for one are held, clauses stand for entries of level 0 on
    /// which conflicts rested, what is of little use is forgotten, and where the first unique implication point is learned the entries of
    /// level 0 are settled and the steps on which nothing rests deleted.
    pub fn reduce<S: Sink>(
        &mut self,
        alloc: Global,
        model: &Model,
        sink: &mut S,
    ) -> Result<(), Fault>
        requires ready { IsSearchReady model.now self.old (S.written sink.old) (S.keeps model.now sink.old) }
        ensures kept { OnOk result (IsStateKept model.now (S.written sink.new) self.old self.new) }
        ensures left { IsLeftBySearch model.now (S.written sink.new) (S.keeps model.now sink.new) (S.origin sink.new ≡ S.origin sink.old) }
    {
        self.hold_cited()?;
        self.prove_units(alloc, model, sink)?;
        forget(
            alloc,
            &self.trail,
            &mut self.clauses,
            &self.cuts,
            &mut self.notes,
            model.vars.len(),
        )?;
        self.settle(alloc, model, sink)?;
        self.delete(alloc, model, sink)?;
        Ok(())
    }

    /// Learns the literals of the entries of level 0 for which clauses are wanted.
    fn prove_units<S: Sink>(
        &mut self,
        alloc: Global,
        model: &Model,
        sink: &mut S,
    ) -> Result<(), Fault>
        requires ready { IsSearchReady model.now self.old (S.written sink.old) (S.keeps model.now sink.old) }
        ensures reduced { OnOk result (IsReduced model.now self.old self.new (S.written sink.new)) }
        ensures left { IsLeftBySearch model.now (S.written sink.new) (S.keeps model.now sink.new) (S.origin sink.new ≡ S.origin sink.old) }
    {
        match self.learn {
            Learn::Plain => Ok(()),
            Learn::First => {
                self.want_bound(alloc, model.goal)?;
                if self.notes.marks.is_wanting() {
                    self.prove_wanted(alloc, model, sink)?;
                }
                Ok(())
            }
        }
    }

    /// With the first decision after a restart a clause is wanted for the best value that level 0 leaves the objective: the certificate then
    /// tells how good a solution can be at most.
    fn want_bound(&mut self, alloc: Global, goal: Goal) -> Result<(), Memory>
        requires fresh { self.old.scratch ≡ start self.old.trail.declared }
        ensures noted { OnOk result (IsNoted self.old self.new) }
    {
        if self.trail.level() == 0 || !self.notes.take_bound_due() {
            return Ok(());
        }
        let Some(place) = bound_place(&self.trail, goal) else {
            return Ok(());
        };
        if self.notes.marks.unit(place).is_some() {
            return Ok(());
        }
        want_unit(
            alloc,
            &self.trail,
            &self.clauses,
            &self.inferences,
            &self.scratch,
            &mut self.notes.marks,
            place,
        )
    }

    /// Learns them where learning is by the first unique implication point.
    pub(crate) fn prove_wanted<S: Sink>(
        &mut self,
        alloc: Global,
        model: &Model,
        sink: &mut S,
    ) -> Result<(), Fault>
        requires ready { IsSearchReady model.now self.old (S.written sink.old) (S.keeps model.now sink.old) }
        requires first { self.old.learn ≡ First }
        ensures reduced { OnOk result (IsReduced model.now self.old self.new (S.written sink.new)) }
        ensures left { IsLeftBySearch model.now (S.written sink.new) (S.keeps model.now sink.new) (S.origin sink.new ≡ S.origin sink.old) }
    {
        'wanted: for _ in 0..self.trail.len() {
            let Some(next) = self.notes.marks.next_wanted() else {
                return Ok(());
            };
            self.prove_unit(alloc, model, sink, next)?;
        }
        Ok(())
    }

    /// The clause that is wanted, where it follows as it should, with the numbers of the steps of its antecedents, which are written.
    fn derive_unit<S: Sink>(
        &mut self,
        alloc: Global,
        model: &Model,
        sink: &mut S,
        wanted: Wanted,
    ) -> Result<Option<(Learned, Items<u64>)>, Fault>
        requires ready { IsSearchReady model.now self.old (S.written sink.old) (S.keeps model.now sink.old) }
        ensures written { IfOk result (λ _. AreInferencesWritten model.now (S.written sink.old) self.old self.new (S.written sink.new)) }
        ensures derives { IfOk result (λ found. IfSome found (λ derived. Derives model.now self.new (S.written sink.new) derived.0 derived.1)) }
        ensures left { IsLeftBySearch model.now (S.written sink.new) (S.keeps model.now sink.new) (S.origin sink.new ≡ S.origin sink.old) }
    {
        let found = unit_of(
            alloc,
            &self.trail,
            &self.clauses,
            &self.inferences,
            &mut self.scratch,
            &mut self.notes.marks,
            wanted,
        )?;
        let Some(unit) = found else {
            return Ok(None);
        };
        let ids = self.write_antecedents(alloc, model, sink, unit.antecedents.as_slice())?;
        Ok(Some((unit, ids)))
    }

    /// Holds the clause of the next step, under a number that is free where there is one at hand, and gives its number.
    fn hold_unit(&mut self, clause: &[Lit]) -> Result<ClauseId, Memory>
        requires room { self.old.steps < 10 ^ 18 }
        ensures reduced { OnOk result ((model : Model) (steps : List Step) → HoldsNext model clause.now steps self.old self.new) }
    {
        let Some(free) = self.notes.stock.next_free(&self.clauses, &self.numbers) else {
            let id = self.hold(clause, [].as_slice(), None)?;
            return Ok(id);
        };
        self.clauses.put(free, clause)?;
        self.steps += 1;
        self.numbers.set(free.0 as usize, self.steps);
        self.alive.push(self.steps)?;
        Ok(free)
    }

    /// Learns it: the clause is held, its step is written, and it stands for the entry from now on.
    fn prove_unit<S: Sink>(
        &mut self,
        alloc: Global,
        model: &Model,
        sink: &mut S,
        wanted: Wanted,
    ) -> Result<(), Fault>
        requires ready { IsSearchReady model.now self.old (S.written sink.old) (S.keeps model.now sink.old) }
        requires first { self.old.learn ≡ First }
        ensures reduced { OnOk result (IsReduced model.now self.old self.new (S.written sink.new)) }
        ensures left { IsLeftBySearch model.now (S.written sink.new) (S.keeps model.now sink.new) (S.origin sink.new ≡ S.origin sink.old) }
    {
        let found = self.derive_unit(alloc, model, sink, wanted)?;
        let Some(derived) = found else {
            return Ok(());
        };
        let (unit, ids) = derived;
        let clause = unit.clause;
        let id = self.hold_unit(clause.as_slice())?;
        let resolved = step_of(clause, ids)?;
        sink.step(alloc, model, &resolved)?;
        self.notes.marks.stand_for(wanted, id);
        Ok(())
    }
}

/// The place of the entry of level 0 that bounds the objective on the side of better values, where it does not stand on a clause of its own.
fn bound_place(trail: &Trail, goal: Goal) -> Option<usize>
    ensures { IfSome result (λ place. place < length trail.now.entries) }
{
    let (var, op) = match goal {
        Goal::Satisfy => return None,
        Goal::Minimize(var) => (var, Op::AtLeast),
        Goal::Maximize(var) => (var, Op::AtMost),
    };
    let count = trail.count_at(0);
    for i in 0..count {
        let place = count - i - 1;
        let entry = trail.entry(place);
        if entry.lit.var == var && (entry.lit.op == op || entry.lit.op == Op::Equal) {
            return Some(place);
        }
    }
    None
}
