// The state of a search, and what it begins with.
ghost use Rattle.std.specs.Prelude.{◌≡◌, ◌<◌, [], IfOk};
ghost use Rattle.fzn_domain.specs.Narrow.{NoneEmpty};
ghost use Rattle.fzn_meaning.specs.declared.model.Model.{Model};
ghost use Rattle.fzn_meaning.specs.Solutions.{declared_sets};
ghost use Rattle.fzn_state.specs.Search.{IsAfter};

use fzn_clauses::Clauses;
use fzn_domain::{Domain, Memory};
use fzn_list::Items;
use fzn_meaning::{Model, Var};
use fzn_propagator::Inferences;
use fzn_reduction::{Cuts, Notes, Numbers, Written};
use fzn_search::{Choice, Search};
use fzn_sets::Sets;
use fzn_strategy::{Annotation, Learn};
use fzn_trail::Trail;
use std::alloc::Global;

/// The state of a search. What holds of its parts together, after the steps that were written, is `IsAfter` (`specs/Search.antt`).
#[derive(Drop)]
pub struct Solver {
    /// The literals that are true now, each with its level and its reason, and the set of values that they leave each variable.
    pub trail: Trail,
    /// The clauses that are held and watched on the trail: learned ones, the cuts of solutions, and short ones of inferences.
    pub clauses: Clauses,
    /// For each number of a clause, the number of the step, from 1, that gives what is held under it.
    pub numbers: Numbers,
    /// Which of the held clauses are cuts of solutions; these are never forgotten.
    pub cuts: Cuts,
    /// The stack of the constraints' inferences, on which entries of the trail rest by their places, from 0.
    pub inferences: Inferences,
    /// The clauses of the inferences that were written and whose steps are not deleted, with the numbers of these, so that none is written
    /// twice.
    pub written: Written,
    /// The numbers of the steps that give a clause and are not deleted; those that nothing rests on are deleted first.
    pub alive: Items<u64>,
    /// What decides: the next literal to assume and whether a restart is due. It counts the decisions.
    pub search: Search,
    /// The declared sets, on which learned clauses are tested; each test leaves them as they were.
    pub scratch: Sets,
    /// Which clause is learned from a conflict; it does not change.
    pub learn: Learn,
    /// What serves the next conflicts, and of which nothing is promised: marks of entries, ranks of clauses, and when to forget, settle,
    /// delete and take hints.
    pub notes: Notes,
    /// How many solutions were found, from 0 on; at most as many as steps.
    pub found: u64,
    /// How many steps were written, from 0 up to 10^18 - 1; the next one has the number after it.
    pub steps: u64,
}

impl Solver {
    /// A search that has done nothing.
    pub fn new(
        alloc: Global,
        model: &Model,
        learn: Learn,
        choice: Choice,
        annotations: &[Annotation],
    ) -> Result<Solver, Memory>
        requires { NoneEmpty (declared_sets model.now.vars) }
        ensures fresh { IfOk result (λ solver. IsAfter model.now solver []) }
        ensures nodes { IfOk result (λ solver. solver.search.nodes ≡ 0) }
        ensures found { IfOk result (λ solver. solver.found ≡ 0) }
        ensures learn { IfOk result (λ solver. solver.learn ≡ learn) }
    {
        let trail = Trail::new(alloc, declared(alloc, model.vars.as_slice())?)?;
        let scratch = Sets::new(alloc, declared(alloc, model.vars.as_slice())?)?;
        let search = Search::new(alloc, model, annotations, choice)?;
        Ok(Solver {
            trail,
            clauses: Clauses::new(alloc),
            numbers: Numbers::new(alloc),
            cuts: Cuts::new(alloc),
            inferences: Inferences::new(alloc),
            written: Written::new(alloc),
            alive: Items::new(alloc),
            search,
            scratch,
            learn,
            notes: Notes::new(alloc, choice.keep, learn, choice.parameters),
            found: 0,
            steps: 0,
        })
    }
}

/// The declared sets.
pub(crate) fn declared(alloc: Global, vars: &[Var]) -> Result<Vec<Domain>, Memory>
    ensures { IfOk result (λ declared. declared.items ≡ declared_sets vars.now) }
{
    let mut declared = Vec::new(alloc);
    for var in vars {
        declared.push(var.domain.copy()?)?;
    }
    Ok(declared)
}
