// Which clauses are held.
ghost use Rattle.std.specs.Prelude.{◌≡◌, ◌+◌, ◌<◌, ◌^◌, List, length, IfOk, OnOk, Some};
ghost use Rattle.fzn_domain.specs.declared.literal.Lit.{Lit};
ghost use Rattle.fzn_meaning.specs.declared.model.Model.{Model};
ghost use Rattle.fzn_cert.specs.declared.step.Step.{Step};
ghost use Rattle.fzn_clauses.specs.Watching.{held_by};
ghost use Rattle.fzn_state.specs.Changes.{IsReduced, Holds};
ghost use Rattle.fzn_state.specs.Search.{IsAfter};

use crate::solver::Solver;
use fzn_cert::Step;
use fzn_domain::{Lit, Memory};
use fzn_meaning::Model;
use fzn_trail::ClauseId;

impl Solver {
    /// Holds the clause of the next step, and tells the search which literals its conflict rests on. One with a literal block distance may
    /// be forgotten.
    pub fn hold(
        &mut self,
        clause: &[Lit],
        marked: &[Lit],
        block_distance: Option<usize>,
    ) -> Result<ClauseId, Memory>
        requires room { self.old.steps < 10 ^ 18 }
        ensures held { OnOk result (Holds clause.now self.old self.new) }
        ensures id { IfOk result (λ id. id.0 ≡ length (held_by self.old.clauses)) }
    {
        self.search.bump(marked)?;
        let id = self.clauses.add(clause)?;
        if let Some(block_distance) = block_distance {
            self.notes.learn(id, block_distance)?;
        }
        self.steps += 1;
        self.numbers.push(self.steps)?;
        self.alive.push(self.steps)?;
        Ok(id)
    }

    /// Holds the clauses of inferences that a learned clause was the first to rest on, where they are short: they are not inferred again.
    pub(crate) fn hold_cited(&mut self) -> Result<(), Memory>
        ensures reduced { OnOk result ((model : Model) (steps : List Step) → IsAfter model self.old steps → IsReduced model self.old self.new steps) }
    {
        'cited: for _ in 0..self.notes.cited.len() {
            if let Some(place) = self.notes.cited.next_cited() {
                self.hold_written(place)?;
            }
        }
        Ok(())
    }

    /// Holds the written clause at this place, if it is short.
    fn hold_written(&mut self, place: usize) -> Result<(), Memory>
        ensures reduced { OnOk result ((model : Model) (steps : List Step) → IsAfter model self.old steps → IsReduced model self.old self.new steps) }
    {
        if place >= self.written.len() {
            return Ok(());
        }
        let given = self.written.get(place);
        let clause = given.clause.as_slice();
        let number = given.number;
        if clause.len() < 2 || self.notes.parameters.held_length < clause.len() as u64 {
            return Ok(());
        }
        let Some(free) = self.notes.stock.next_free(&self.clauses, &self.numbers) else {
            let id = self.clauses.add(clause)?;
            self.numbers.push(number)?;
            self.notes.stock.infer(id)?;
            return Ok(());
        };
        self.clauses.put(free, clause)?;
        self.numbers.set(free.0 as usize, number);
        self.notes.stock.infer(free)?;
        Ok(())
    }
}
