// What is learned from a conflict.
ghost use Rattle.std.specs.Prelude.{◌≡◌, ◌<◌, IfOk, Some};
ghost use Rattle.fzn_meaning.specs.declared.model.Model.{Model};
ghost use Rattle.fzn_cert.specs.declared.step.Step.{Step};
ghost use Rattle.fzn_cert.specs.declared.step.Step.TheVariants.{Resolve};
ghost use Rattle.fzn_learned.specs.Learned.{IsConflicting};
ghost use Rattle.fzn_state.specs.State.{known_in};
ghost use Rattle.fzn_state.specs.Changes.{Teaches};
ghost use Rattle.fzn_state.specs.Search.{stock_of, IsSearchReady, IsLeftBySearch};
ghost use Rattle.fzn_state.specs.Antecedents.{AreInferencesWritten, Learns};

use crate::fault::Fault;
use crate::sink::Sink;
use crate::solver::Solver;
use fzn_cert::Step;
use fzn_conflict::analyse;
use fzn_domain::{Clause, Memory};
use fzn_learned::Learned;
use fzn_list::Items;
use fzn_meaning::Model;
use fzn_trail::{Antecedent, ClauseId};
use std::alloc::Global;

/// A clause that was learned from a conflict.
#[derive(Clone, Copy)]
pub struct Lesson {
    /// The number under which it is held.
    pub id: ClauseId,
    /// The level at which it forces a literal, which is the one to jump back to.
    pub level: usize,
}

impl Solver {
    /// Analyses a conflict: what is learned from the false clause, with the numbers of the steps of its antecedents, which are written.
    fn analyse<S: Sink>(
        &mut self,
        alloc: Global,
        model: &Model,
        sink: &mut S,
        conflict: Antecedent,
    ) -> Result<(Learned, Items<u64>), Fault>
        requires ready { IsSearchReady model.now self.old (S.written sink.old) (S.keeps model.now sink.old) }
        requires conflict { IsConflicting (known_in (stock_of self.old)) self.old.trail.sets conflict }
        ensures written { IfOk result (λ _. AreInferencesWritten model.now (S.written sink.old) self.old self.new (S.written sink.new)) }
        ensures learns { IfOk result (λ derived. Learns model.now self.new (S.written sink.new) conflict derived.0 derived.1) }
        ensures left { IsLeftBySearch model.now (S.written sink.new) (S.keeps model.now sink.new) (S.origin sink.new ≡ S.origin sink.old) }
    {
        let learned = analyse(
            alloc,
            &self.trail,
            &self.clauses,
            &self.inferences,
            &mut self.scratch,
            &mut self.notes.marks,
            conflict,
            self.learn,
        )?;
        let ids = self.write_antecedents(alloc, model, sink, learned.antecedents.as_slice())?;
        Ok((learned, ids))
    }

    /// Learns from a conflict: the clause is held, and its step written. `None`: it is empty, and nothing is left.
    pub fn learn<S: Sink>(
        &mut self,
        alloc: Global,
        model: &Model,
        sink: &mut S,
        conflict: Antecedent,
    ) -> Result<Option<Lesson>, Fault>
        requires ready { IsSearchReady model.now self.old (S.written sink.old) (S.keeps model.now sink.old) }
        requires conflict { IsConflicting (known_in (stock_of self.old)) self.old.trail.sets conflict }
        ensures learned { IfOk result (Teaches model.now (S.written sink.old) self.old self.new (S.written sink.new) conflict) }
        ensures left { IsLeftBySearch model.now (S.written sink.new) (S.keeps model.now sink.new) (S.origin sink.new ≡ S.origin sink.old) }
    {
        let (learned, ids) = self.analyse(alloc, model, sink, conflict)?;
        let Learned {
            clause,
            antecedents: _,
            level,
            block_distance,
            marked,
        } = learned;
        let id = self.hold(clause.as_slice(), marked.as_slice(), Some(block_distance))?;
        let is_empty = clause.len() == 0;
        let resolved = step_of(clause, ids)?;
        sink.step(alloc, model, &resolved)?;
        if is_empty {
            return Ok(None);
        }
        Ok(Some(Lesson { id, level }))
    }
}

/// The step of a clause that follows from those of the steps of these numbers.
pub(crate) fn step_of(clause: Clause, ids: Items<u64>) -> Result<Step, Memory>
    ensures { IfOk result (λ step. step ≡ Resolve clause ids) }
{
    let clause = Items::from_vec(clause.into_vec()?);
    Ok(Step::Resolve { clause, ids })
}
