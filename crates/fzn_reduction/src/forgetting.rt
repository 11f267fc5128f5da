// Which held clauses are forgotten.
ghost use Rattle.std.specs.Prelude.{◌≡◌, ◌<◌, length, IsTrue, false, slice_index_or};
ghost use Rattle.fzn_trail.specs.Levels.{Levels};
ghost use Rattle.fzn_clauses.specs.Held.{IsHeld};
ghost use Rattle.fzn_clauses.specs.Watching.{held_by};
ghost use Rattle.fzn_reduction.specs.Forgetting.{AreFlagged, HasForgotten, is_cut};

use crate::cuts::Cuts;
use crate::notes::Notes;
use crate::reasons::reasons_on;
use fzn_clauses::Clauses;
use fzn_domain::Memory;
use fzn_trail::{ClauseId, Trail};
use std::alloc::Global;

/// Forgets held clauses that are of little use, where there are many: none on which an entry of the trail rests, no cut, and none of one
/// literal. What is left of them in the lists of watchers, of so many variables, goes too where it may be much.
pub fn forget(
    alloc: Global,
    trail: &Trail,
    clauses: &mut Clauses,
    cuts: &Cuts,
    notes: &mut Notes,
    variables: usize,
) -> Result<(), Memory>
    ensures { HasForgotten trail.now cuts.now clauses.old clauses.new }
{
    if !notes.stock.has_many() {
        return Ok(());
    }
    let flags = reasons_on(alloc, trail, clauses.len())?;
    let are_reasons = flags.as_slice();
    let worst = notes.take_worst(alloc, are_reasons)?;
    let least = notes.least_forgotten();
    drop_idle(worst.as_slice(), least, are_reasons, cuts, clauses);
    if notes.stock.is_sweep_due(variables) {
        clauses.sweep();
    }
    Ok(())
}

/// Forgets the clauses that stood for entries of level 0 before these were settled and stand for none now: none on which an entry of the
/// trail rests, and no cut.
pub fn forget_units(
    alloc: Global,
    trail: &Trail,
    clauses: &mut Clauses,
    cuts: &Cuts,
    notes: &mut Notes,
) -> Result<(), Memory>
    ensures { HasForgotten trail.now cuts.now clauses.old clauses.new }
{
    let flags = reasons_on(alloc, trail, clauses.len())?;
    let are_reasons = flags.as_slice();
    let units = notes.settle(alloc, trail.len(), are_reasons)?;
    drop_idle(units.as_slice(), 0, are_reasons, cuts, clauses);
    Ok(())
}

/// Forgets those of the clauses that may be forgotten and have so many literals at least.
fn drop_idle(
    ids: &[ClauseId],
    least: usize,
    are_reasons: &[bool],
    cuts: &Cuts,
    clauses: &mut Clauses,
)
    ensures { (trail : Levels) → AreFlagged are_reasons.now trail → HasForgotten trail cuts.now clauses.old clauses.new }
{
    for id in ids {
        drop_clause(*id, least, are_reasons, cuts, clauses);
    }
}

/// Forgets the clause, if it may be forgotten and has so many literals at least.
fn drop_clause(id: ClauseId, least: usize, are_reasons: &[bool], cuts: &Cuts, clauses: &mut Clauses)
    ensures { (trail : Levels) → AreFlagged are_reasons.now trail → HasForgotten trail cuts.now clauses.old clauses.new }
{
    if is_idle(id, are_reasons, cuts, clauses) && clauses.clause(id).len() >= least {
        clauses.remove(id);
    }
}

/// Whether the clause is held, no reason, and not the cut of a solution.
fn is_idle(id: ClauseId, are_reasons: &[bool], cuts: &Cuts, clauses: &Clauses) -> bool
    ensures held { IsTrue result → IsHeld (held_by clauses.now) id }
    ensures unflagged { IsTrue result → (id.0 < length are_reasons.now) × (slice_index_or are_reasons.now id.0 false ≡ false) }
    ensures no_cut { IsTrue result → is_cut cuts.now id ≡ false }
{
    if !clauses.is_held(id) {
        return false;
    }
    let k = id.0 as usize;
    if k >= are_reasons.len() || are_reasons[k] {
        return false;
    }
    !cuts.has(id)
}
