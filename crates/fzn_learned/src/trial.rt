// Whether a clause that was found keeps what every learned clause promises.
ghost use Rattle.std.specs.Prelude.{◌≡◌, ◌<◌, true, [], map, length, IfOk, OnOk, IsTrue};
ghost use Rattle.std.specs.List.{All};
ghost use Rattle.fzn_sets.specs.Link.{IsBound};
ghost use Rattle.fzn_domain.specs.declared.literal.Lit.{Lit};
ghost use Rattle.fzn_domain.specs.Limits.{IsInLimits};
ghost use Rattle.fzn_domain.specs.Narrow.{IsVariable, IsClauseOver, IsAcceptedFrom, accepted, chain_outcome};
ghost use Rattle.fzn_sets.specs.Sets.{start};
ghost use Rattle.fzn_trail.specs.Levels.{level_of};
ghost use Rattle.fzn_learned.specs.Learned.{IsDerived, IsLearned};
ghost use Rattle.fzn_learned.specs.Reasoned.{known_of, AreOver, IsKnown, IsReasoned, antecedent_clause};

use crate::antecedent::{clause_of, is_known};
use crate::learned::Learned;
use crate::standing::forces_at;
use fzn_clauses::Clauses;
use fzn_domain::{GREATEST_VALUE, LEAST_VALUE, Lit, Memory};
use fzn_propagator::Inferences;
use fzn_sets::{Link, Sets, deny, follow};
use fzn_trail::{Antecedent, Trail};

/// Whether the clause may be learned. The sets are used and restored. It answers `Err` where memory runs out, and the sets may be narrowed
/// then.
pub fn is_sound(
    trail: &Trail,
    clauses: &Clauses,
    inferences: &Inferences,
    sets: &mut Sets,
    learned: &Learned,
) -> Result<bool, Memory>
    requires reasoned { IsReasoned (known_of clauses.now inferences.now) trail.now }
    requires over { AreOver (length trail.now.declared) (known_of clauses.now inferences.now) }
    requires fresh { sets.old ≡ start trail.now.declared }
    ensures learned { IfOk result (λ yes. IsTrue yes → IsLearned (known_of clauses.now inferences.now) trail.now learned.now) }
    ensures fresh { OnOk result (sets.new ≡ start trail.now.declared) }
{
    if !goes_back(trail, learned) {
        return Ok(false);
    }
    if !is_derived(trail, clauses, inferences, sets, learned)? {
        return Ok(false);
    }
    if trail.level() == 0 || learned.clause.len() == 0 {
        return Ok(true);
    }
    Ok(forces_at(
        trail,
        trail.count_at(learned.level),
        learned.clause.as_slice(),
    ))
}

/// Whether the clause follows from its antecedents. The sets are used and restored. It answers `Err` where memory runs out, and the sets may be
/// narrowed then.
pub fn is_derived(
    trail: &Trail,
    clauses: &Clauses,
    inferences: &Inferences,
    sets: &mut Sets,
    learned: &Learned,
) -> Result<bool, Memory>
    requires over { AreOver (length trail.now.declared) (known_of clauses.now inferences.now) }
    requires fresh { sets.old ≡ start trail.now.declared }
    ensures derived { IfOk result (λ yes. IsTrue yes → IsDerived (known_of clauses.now inferences.now) trail.now.declared learned.now) }
    ensures fresh { OnOk result (sets.new ≡ start trail.now.declared) }
{
    let clause = learned.clause.as_slice();
    let antecedents = learned.antecedents.as_slice();
    if !is_in_range(clause, sets.len()) || !are_known(clauses, inferences, antecedents) {
        return Ok(false);
    }
    let refuted = is_refuted(clauses, inferences, sets, clause, antecedents)?;
    sets.restore();
    Ok(refuted)
}

/// Whether the clause is over so many variables, with numbers within the limits.
fn is_in_range(clause: &[Lit], vars: usize) -> bool
    ensures over { IsTrue result → IsClauseOver vars clause.now }
    ensures in_limits { IsTrue result → All (λ (lit : Lit). IsInLimits lit.value) clause.now }
{
    for lit in clause {
        if !is_allowed(*lit, vars) {
            return false;
        }
    }
    true
}

/// Whether the literal is of one of so many variables, with a number within the limits.
fn is_allowed(lit: Lit, vars: usize) -> bool
    ensures over { IsTrue result → IsVariable vars lit.var }
    ensures in_limits { IsTrue result → IsInLimits lit.value }
{
    1 <= lit.var.0 && lit.var.0 <= vars && LEAST_VALUE <= lit.value && lit.value <= GREATEST_VALUE
}

/// Whether there is a clause of each of the antecedents.
fn are_known(clauses: &Clauses, inferences: &Inferences, antecedents: &[Antecedent]) -> bool
    ensures { IsTrue result → All (IsKnown (known_of clauses.now inferences.now)) antecedents.now }
{
    for antecedent in antecedents {
        if !is_known(clauses, inferences, *antecedent) {
            return false;
        }
    }
    true
}

/// Whether the clause is empty at level 0, and goes back above it.
fn goes_back(trail: &Trail, learned: &Learned) -> bool
    ensures at_level_0 { IsTrue result → level_of trail.now ≡ 0 → learned.now.clause ≡ [] }
    ensures below { IsTrue result → 0 < level_of trail.now → learned.now.level < level_of trail.now }
{
    if trail.level() == 0 {
        learned.clause.len() == 0
    } else {
        learned.level < trail.level()
    }
}

/// Whether unit propagation along the antecedents refutes the clause's denial.
fn is_refuted(
    clauses: &Clauses,
    inferences: &Inferences,
    sets: &mut Sets,
    clause: &[Lit],
    antecedents: &[Antecedent],
) -> Result<bool, Memory>
    requires over { IsClauseOver (length sets.old.present) clause.now }
    requires bounds { All IsBound clause.now }
    requires known { All (IsKnown (known_of clauses.now inferences.now)) antecedents.now }
    requires all_over { AreOver (length sets.old.present) (known_of clauses.now inferences.now) }
    ensures accepted { IfOk result (λ yes. IsTrue yes → IsAcceptedFrom sets.old.present clause.now (map (antecedent_clause (known_of clauses.now inferences.now)) antecedents.now)) }
    ensures declared { sets.new.declared ≡ sets.old.declared }
{
    if deny(sets, clause)? {
        return Ok(true);
    }
    ends_well(clauses, inferences, sets, antecedents)
}

/// Whether the chain of the antecedents' clauses ends well.
fn ends_well(
    clauses: &Clauses,
    inferences: &Inferences,
    sets: &mut Sets,
    antecedents: &[Antecedent],
) -> Result<bool, Memory>
    requires known { All (IsKnown (known_of clauses.now inferences.now)) antecedents.now }
    requires over { AreOver (length sets.old.present) (known_of clauses.now inferences.now) }
    ensures accepted { IfOk result (λ yes. IsTrue yes → chain_outcome sets.old.present (map (antecedent_clause (known_of clauses.now inferences.now)) antecedents.now) ≡ accepted) }
    ensures declared { sets.new.declared ≡ sets.old.declared }
{
    for antecedent in antecedents {
        match follow(sets, clause_of(clauses, inferences, *antecedent))? {
            Link::Refuted => return Ok(true),
            Link::Narrowed => {}
            Link::Open => return Ok(false),
        }
    }
    Ok(false)
}
