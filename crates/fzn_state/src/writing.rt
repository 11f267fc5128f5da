// Inferences are written where a clause that is written rests on them, each once while its step is not deleted.
ghost use Rattle.std.specs.Prelude.{◌≡◌, ◌+◌, ◌<◌, List, IfOk, Some};
ghost use Rattle.std.specs.List.{All};
ghost use Rattle.fzn_meaning.specs.declared.model.Model.{Model};
ghost use Rattle.fzn_cert.specs.declared.step.Step.{Step};
ghost use Rattle.fzn_cert.specs.Accepted.{past_after};
ghost use Rattle.fzn_cert.specs.Past.{clause_held};
ghost use Rattle.fzn_propagator.specs.Inferences.{IsStacked, inferred_clause};
ghost use Rattle.fzn_learned.specs.Reasoned.{IsKnown, antecedent_clause};
ghost use Rattle.fzn_state.specs.State.{known_in};
ghost use Rattle.fzn_reduction.specs.Written.{IsGivenAt};
ghost use Rattle.fzn_state.specs.Search.{stock_of, IsAfter, IsSearchReady, IsLeftBySearch};
ghost use Rattle.fzn_state.specs.Antecedents.{GiveAntecedents, AreInferencesWritten};

use crate::fault::Fault;
use crate::sink::Sink;
use crate::solver::Solver;
use fzn_cert::Step;
use fzn_domain::Memory;
use fzn_learned::clause_of;
use fzn_list::Items;
use fzn_meaning::Model;
use fzn_trail::Antecedent;
use std::alloc::Global;

impl Solver {
    /// Writes the inferences among the antecedents that are not written, and gives the numbers of all the antecedents' steps.
    pub(crate) fn write_antecedents<S: Sink>(
        &mut self,
        alloc: Global,
        model: &Model,
        sink: &mut S,
        antecedents: &[Antecedent],
    ) -> Result<Items<u64>, Fault>
        requires ready { IsSearchReady model.now self.old (S.written sink.old) (S.keeps model.now sink.old) }
        requires known { All (IsKnown (known_in (stock_of self.old))) antecedents.now }
        ensures written { IfOk result (λ _. AreInferencesWritten model.now (S.written sink.old) self.old self.new (S.written sink.new)) }
        ensures numbers { IfOk result (λ numbers. GiveAntecedents (past_after model.now (S.written sink.new)) (known_in (stock_of self.old)) numbers antecedents.now) }
        ensures left { IsLeftBySearch model.now (S.written sink.new) (S.keeps model.now sink.new) (S.origin sink.new ≡ S.origin sink.old) }
    {
        let mut numbers = Items::with_capacity(alloc, antecedents.len())?;
        for antecedent in antecedents {
            let number = self.write_antecedent(alloc, model, sink, *antecedent)?;
            numbers.push(number)?;
        }
        Ok(numbers)
    }

    /// The number of the step that gives the antecedent's clause, which is written where it was not.
    fn write_antecedent<S: Sink>(
        &mut self,
        alloc: Global,
        model: &Model,
        sink: &mut S,
        antecedent: Antecedent,
    ) -> Result<u64, Fault>
        requires ready { IsSearchReady model.now self.old (S.written sink.old) (S.keeps model.now sink.old) }
        requires known { IsKnown (known_in (stock_of self.old)) antecedent }
        ensures written { IfOk result (λ _. AreInferencesWritten model.now (S.written sink.old) self.old self.new (S.written sink.new)) }
        ensures number { IfOk result (λ number. clause_held (past_after model.now (S.written sink.new)) number ≡ Some (antecedent_clause (known_in (stock_of self.old)) antecedent)) }
        ensures left { IsLeftBySearch model.now (S.written sink.new) (S.keeps model.now sink.new) (S.origin sink.new ≡ S.origin sink.old) }
    {
        match antecedent {
            Antecedent::Clause(id) => Ok(self.numbers.as_slice()[id.0 as usize]),
            Antecedent::Inference(place) => match self.inferences.get(place).number {
                Some(number) => Ok(number),
                None => self.give_inference(alloc, model, sink, place),
            },
        }
    }

    /// The number of a step that gives the clause of the inference at this place, which is written where no step does.
    fn give_inference<S: Sink>(
        &mut self,
        alloc: Global,
        model: &Model,
        sink: &mut S,
        place: usize,
    ) -> Result<u64, Fault>
        requires ready { IsSearchReady model.now self.old (S.written sink.old) (S.keeps model.now sink.old) }
        requires stacked { IsStacked self.old.inferences place }
        ensures written { IfOk result (λ _. AreInferencesWritten model.now (S.written sink.old) self.old self.new (S.written sink.new)) }
        ensures number { IfOk result (λ number. clause_held (past_after model.now (S.written sink.new)) number ≡ Some (inferred_clause self.old.inferences place)) }
        ensures left { IsLeftBySearch model.now (S.written sink.new) (S.keeps model.now sink.new) (S.origin sink.new ≡ S.origin sink.old) }
    {
        match self
            .written
            .find(self.inferences.get(place).inference.clause.as_slice())
        {
            Some(known) => Ok(self.give_again(place, known)?),
            None => self.write_inference(alloc, model, sink, place),
        }
    }

    /// The number of the step that gives the written clause at the one place, which is that of the inference at the other.
    fn give_again(&mut self, place: usize, known: usize) -> Result<u64, Memory>
        requires stacked { IsStacked self.old.inferences place }
        requires given { IsGivenAt self.old.written known (inferred_clause self.old.inferences place) }
        ensures written { IfOk result (λ _. (model : Model) (steps : List Step) → IsAfter model self.old steps → AreInferencesWritten model steps self.old self.new steps) }
        ensures number { IfOk result (λ number. (model : Model) (steps : List Step) → IsAfter model self.old steps → clause_held (past_after model steps) number ≡ Some (inferred_clause self.old.inferences place)) }
    {
        let given = self.written.get(known).number;
        self.inferences.set_number(place, given);
        self.notes.cited.cite(known)?;
        Ok(given)
    }

    /// Writes the inference at this place, and gives the number of its step.
    fn write_inference<S: Sink>(
        &mut self,
        alloc: Global,
        model: &Model,
        sink: &mut S,
        place: usize,
    ) -> Result<u64, Fault>
        requires ready { IsSearchReady model.now self.old (S.written sink.old) (S.keeps model.now sink.old) }
        requires stacked { IsStacked self.old.inferences place }
        ensures written { IfOk result (λ _. AreInferencesWritten model.now (S.written sink.old) self.old self.new (S.written sink.new)) }
        ensures number { IfOk result (λ number. clause_held (past_after model.now (S.written sink.new)) number ≡ Some (inferred_clause self.old.inferences place)) }
        ensures left { IsLeftBySearch model.now (S.written sink.new) (S.keeps model.now sink.new) (S.origin sink.new ≡ S.origin sink.old) }
    {
        let inference = self.inferences.copy(place)?;
        let number = self.steps + 1;
        let clause = Items::from_slice(alloc, inference.clause.as_slice())?;
        let known = self.written.push(clause, number)?;
        self.notes.cited.cite(known)?;
        self.alive.push(number)?;
        sink.step(alloc, model, &Step::Infer(inference))?;
        self.inferences.set_number(place, number);
        self.steps = number;
        Ok(number)
    }
}
