// The clause that the decisions are wrong together.
ghost use Rattle.std.specs.Prelude.{◌≡◌, ◌++◌, ◌∷◌, [], IfOk};
ghost use Rattle.std.specs.List.{All};
ghost use Rattle.fzn_domain.specs.Limits.{IsLimited};
ghost use Rattle.fzn_learned.specs.Learned.{antecedents_of, IsConflicting, IsLearned, IsPlain};
ghost use Rattle.fzn_learned.specs.Reasoned.{known_of, IsReasoned, negated_decisions};

use crate::learned::Learned;
use fzn_clauses::Clauses;
use fzn_domain::{Clause, Memory};
use fzn_list::Items;
use fzn_propagator::Inferences;
use fzn_trail::{Antecedent, Reason, Trail};
use std::alloc::Global;

/// The clause that one of the decisions is wrong, learned from a known clause that is false on the trail. It answers `Err` where memory
/// runs out.
pub fn plain_learned(
    alloc: Global,
    trail: &Trail,
    clauses: &Clauses,
    inferences: &Inferences,
    conflict: Antecedent,
) -> Result<Learned, Memory>
    requires reasoned { IsReasoned (known_of clauses.now inferences.now) trail.now }
    requires limited { All IsLimited trail.now.declared }
    requires conflict { IsConflicting (known_of clauses.now inferences.now) trail.now.sets conflict }
    ensures learned { IfOk result (IsLearned (known_of clauses.now inferences.now) trail.now) }
    ensures plain { IfOk result (IsPlain trail.now conflict) }
{
    Ok(Learned {
        clause: plain_clause(alloc, trail, clauses, inferences)?,
        antecedents: plain_antecedents(alloc, trail, conflict)?,
        level: trail.level().saturating_sub(1),
        block_distance: trail.level(),
        marked: Items::new(alloc),
    })
}

/// The negated decisions.
fn plain_clause(
    alloc: Global,
    trail: &Trail,
    clauses: &Clauses,
    inferences: &Inferences,
) -> Result<Clause, Memory>
    requires reasoned { IsReasoned (known_of clauses.now inferences.now) trail.now }
    requires limited { All IsLimited trail.now.declared }
    ensures { IfOk result (λ it. it ≡ negated_decisions trail.now.declared trail.now.entries) }
{
    let mut clause = Clause::with_capacity(alloc, trail.level())?;
    for i in 0..trail.len() {
        let entry = trail.entry(i);
        match entry.reason {
            Reason::Decision => clause.push(entry.lit.negated())?,
            Reason::Implied(_) => {}
        }
    }
    Ok(clause)
}

/// What all other entries follow from, and then the conflict.
fn plain_antecedents(
    alloc: Global,
    trail: &Trail,
    conflict: Antecedent,
) -> Result<Items<Antecedent>, Memory>
    ensures { IfOk result (λ it. it ≡ antecedents_of trail.now.entries ++ conflict ∷ []) }
{
    let mut antecedents = Items::with_capacity(alloc, trail.len())?;
    for place in 0..trail.len() {
        let reason = trail.entry(place).reason;
        match reason {
            Reason::Decision => {}
            Reason::Implied(antecedent) => antecedents.push(antecedent)?,
        }
    }
    antecedents.push(conflict)?;
    Ok(antecedents)
}
