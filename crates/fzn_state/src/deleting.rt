// Steps that nothing rests on are deleted, so that whoever reads the certificate holds no more than the search does.
ghost use Rattle.std.specs.Prelude.{◌≡◌, OnOk};
ghost use Rattle.fzn_meaning.specs.declared.model.Model.{Model};
ghost use Rattle.fzn_state.specs.Changes.{IsReduced};
ghost use Rattle.fzn_state.specs.Search.{IsSearchReady, IsLeftBySearch};

use crate::fault::Fault;
use crate::sink::Sink;
use crate::solver::Solver;
use fzn_cert::Step;
use fzn_meaning::Model;
use fzn_reduction::next_deletion;
use std::alloc::Global;

impl Solver {
    /// Deletes the steps that are of no held clause and of no inference that stands, where they are many, or where the search restarted and
    /// clauses were forgotten.
    pub(crate) fn delete<S: Sink>(
        &mut self,
        alloc: Global,
        model: &Model,
        sink: &mut S,
    ) -> Result<(), Fault>
        requires ready { IsSearchReady model.now self.old (S.written sink.old) (S.keeps model.now sink.old) }
        ensures reduced { OnOk result (IsReduced model.now self.old self.new (S.written sink.new)) }
        ensures left { IsLeftBySearch model.now (S.written sink.new) (S.keeps model.now sink.new) (S.origin sink.new ≡ S.origin sink.old) }
    {
        self.notes.cited.clear(); // The places of written clauses change.
        let found = next_deletion(
            alloc,
            &self.clauses,
            &self.numbers,
            &self.inferences,
            &self.alive,
            &mut self.written,
            &mut self.notes,
        )?;
        let Some(deletion) = found else {
            return Ok(());
        };
        self.alive = deletion.left;
        self.steps += 1;
        let step = Step::Delete { ids: deletion.ids };
        sink.step(alloc, model, &step)?;
        Ok(())
    }
}
