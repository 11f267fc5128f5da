// The moves on the trail: a literal is put on it or assumed, and a jump goes back.
ghost use Rattle.std.specs.Prelude.{◌≡◌, ◌+◌, ◌<◌, ◌≤◌, [], ◌∷◌, List, length, IfOk, OnOk, MatchOption, IsTrue, IsFalse};
ghost use Rattle.fzn_domain.specs.declared.literal.Lit.{Lit};
ghost use Rattle.fzn_domain.specs.Narrow.{IsClauseOver, NoneEmpty, possible_in};
ghost use Rattle.fzn_strategy.specs.declared.learn.Learn.TheVariants.{First};
ghost use Rattle.fzn_learned.specs.Reasoned.{IsKnown, IsReasoned, antecedent_clause};
ghost use Rattle.fzn_search.specs.Fixed.{AllFixed, HasMany};
ghost use Rattle.fzn_trail.specs.Levels.{level_of};
ghost use Rattle.fzn_state.specs.State.{known_in};
ghost use Rattle.fzn_engine.specs.Moves.{IsBackAt, IsForcedBy, IsDecided};
ghost use Rattle.fzn_state.specs.Search.{stock_of};

use fzn_domain::{Lit, Memory};
use fzn_learned::clause_of;
use fzn_state::Solver;
use fzn_strategy::Learn;
use fzn_trail::{Antecedent, Reason, Trail};

/// Puts the literal that the clause of an antecedent forces on the trail, and answers whether the clause has a possible literal: else it is
/// in conflict.
pub(crate) fn enqueue(solver: &mut Solver, antecedent: Antecedent) -> Result<bool, Memory>
    requires known { IsKnown (known_in (stock_of solver.old)) antecedent }
    requires over { IsClauseOver (length solver.old.trail.declared) (antecedent_clause (known_in (stock_of solver.old)) antecedent) }
    ensures { IfOk result (IsForcedBy solver.old antecedent solver.new) }
{
    match first_possible(
        clause_of(&solver.clauses, &solver.inferences, antecedent),
        &solver.trail,
    ) {
        Some(lit) => {
            solver.trail.assert(lit, Reason::Implied(antecedent))?;
            Ok(true)
        }
        None => Ok(false),
    }
}

/// Assumes the next literal, on a new level.
pub(crate) fn decide(solver: &mut Solver) -> Result<(), Memory>
    requires vars { solver.old.search.vars ≡ length solver.old.trail.declared }
    requires filled { NoneEmpty solver.old.trail.sets }
    requires one_each { length solver.old.trail.sets ≡ length solver.old.trail.declared }
    requires countable { solver.old.search.nodes + 1 < 18446744073709551616 }
    requires not_fixed { ¬ (AllFixed solver.old.trail.sets) }
    ensures { OnOk result (IsDecided solver.old solver.new) }
{
    if let Some(lit) = solver.search.decide(&solver.trail) {
        solver.trail.push_level()?;
        solver.trail.assert(lit, Reason::Decision)?;
    }
    Ok(())
}

/// Jumps back to the level, with the inferences that its entries rest on.
pub(crate) fn backjump(solver: &mut Solver, level: usize)
    requires level { level ≤ level_of solver.old.trail }
    requires reasoned { IsReasoned (known_in (stock_of solver.old)) solver.old.trail }
    ensures { IsBackAt level solver.old solver.new }
{
    let entries = solver.trail.count_at(level);
    solver.search.undo(&solver.trail, entries);
    solver.notes.marks.rewind(entries);
    solver.trail.back_to(level);
    solver.drop_inferences();
}

/// Jumps back to level 0, and notes it.
pub(crate) fn restart(solver: &mut Solver)
    requires { IsReasoned (known_in (stock_of solver.old)) solver.old.trail }
    ensures { IsBackAt 0 solver.old solver.new }
{
    backjump(solver, 0);
    solver.notes.restart();
}

/// Counts the conflict, and answers whether the search is to restart. In plain learning it never does.
pub(crate) fn is_restart_due(solver: &mut Solver) -> bool
    ensures first { IsTrue result → solver.old.learn ≡ First }
    ensures same { solver.new ≡ solver.old }
{
    let is_due = solver.search.conflict();
    match solver.learn {
        Learn::Plain => false,
        Learn::First => is_due,
    }
}

/// Whether each variable has one value.
pub(crate) fn is_fixed(solver: &mut Solver) -> bool
    requires vars { solver.old.search.vars ≡ length solver.old.trail.declared }
    requires filled { NoneEmpty solver.old.trail.sets }
    ensures fixed { IsTrue result → AllFixed solver.new.trail.sets }
    ensures many { IsFalse result → HasMany solver.new.trail.sets }
    ensures same { solver.new ≡ solver.old }
{
    solver.search.is_fixed(&solver.trail)
}

/// The first literal of the clause that some value makes true.
fn first_possible(clause: &[Lit], trail: &Trail) -> Option<Lit>
    requires { IsClauseOver (length trail.now.declared) clause.now }
    ensures { MatchOption result (possible_in trail.now.sets clause.now ≡ []) (λ lit. (rest : List Lit) × (possible_in trail.now.sets clause.now ≡ lit ∷ rest)) }
{
    for lit in clause {
        if !trail.domain(lit.var).is_false(*lit) {
            return Some(*lit);
        }
    }
    None
}
