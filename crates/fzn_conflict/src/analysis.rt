// What is learned, in both ways.
ghost use Rattle.std.specs.Prelude.{◌≡◌, IfOk, IfSome, OnOk, length};
ghost use Rattle.std.specs.List.{All};
ghost use Rattle.fzn_domain.specs.Limits.{IsLimited};
ghost use Rattle.fzn_sets.specs.Sets.{start};
ghost use Rattle.fzn_strategy.specs.declared.learn.Learn.TheVariants.{Plain};
ghost use Rattle.fzn_learned.specs.Learned.{IsConflicting, IsDerived, IsLearned, IsPlain};
ghost use Rattle.fzn_learned.specs.Reasoned.{known_of, AreOver, IsReasoned};

use crate::first_uip::first_uip;
use crate::marks::{Marks, Wanted};
use crate::units::{want_root, wanted_clause};
use fzn_clauses::Clauses;
use fzn_domain::Memory;
use fzn_explanation::Implications;
use fzn_learned::{Learned, is_derived, is_sound, plain_learned};
use fzn_propagator::Inferences;
use fzn_sets::Sets;
use fzn_strategy::Learn;
use fzn_trail::{Antecedent, Trail};
use std::alloc::Global;

/// What is learned from a known clause that is false on the trail. The sets are the declared ones, and are restored. It answers `Err` where
/// memory runs out, and the sets may be narrowed then.
pub fn analyse(
    alloc: Global,
    trail: &Trail,
    clauses: &Clauses,
    inferences: &Inferences,
    sets: &mut Sets,
    marks: &mut Marks,
    conflict: Antecedent,
    learn: Learn,
) -> Result<Learned, Memory>
    requires reasoned { IsReasoned (known_of clauses.now inferences.now) trail.now }
    requires limited { All IsLimited trail.now.declared }
    requires over { AreOver (length trail.now.declared) (known_of clauses.now inferences.now) }
    requires conflict { IsConflicting (known_of clauses.now inferences.now) trail.now.sets conflict }
    requires fresh { sets.old ≡ start trail.now.declared }
    ensures learned { IfOk result (IsLearned (known_of clauses.now inferences.now) trail.now) }
    ensures plain { learn ≡ Plain → IfOk result (IsPlain trail.now conflict) }
    ensures fresh { OnOk result (sets.new ≡ start trail.now.declared) }
{
    match learn {
        Learn::Plain => plain_learned(alloc, trail, clauses, inferences, conflict),
        Learn::First => first_or_plain(alloc, trail, clauses, inferences, sets, marks, conflict),
    }
}

/// The clause of the first unique implication point where it may be learned, else the plain one.
fn first_or_plain(
    alloc: Global,
    trail: &Trail,
    clauses: &Clauses,
    inferences: &Inferences,
    sets: &mut Sets,
    marks: &mut Marks,
    conflict: Antecedent,
) -> Result<Learned, Memory>
    requires reasoned { IsReasoned (known_of clauses.now inferences.now) trail.now }
    requires limited { All IsLimited trail.now.declared }
    requires over { AreOver (length trail.now.declared) (known_of clauses.now inferences.now) }
    requires conflict { IsConflicting (known_of clauses.now inferences.now) trail.now.sets conflict }
    requires fresh { sets.old ≡ start trail.now.declared }
    ensures learned { IfOk result (IsLearned (known_of clauses.now inferences.now) trail.now) }
    ensures fresh { OnOk result (sets.new ≡ start trail.now.declared) }
{
    let graph = Implications {
        trail,
        clauses,
        inferences,
        vars: sets.len(),
    };
    let found = first_uip(alloc, &graph, marks, conflict)?;
    if is_sound(trail, clauses, inferences, sets, &found)? {
        return Ok(found);
    }
    plain_learned(alloc, trail, clauses, inferences, conflict)
}

/// The clause for what it is wanted for, where it follows: the literal of an entry of level 0 as a clause of its own, from what stands for
/// the entries that it rests on and its reason; of a gap, from what stands for the entries that took its values out. The sets are the
/// declared ones, and are restored. It answers `Err` where memory runs out, and the sets may be narrowed then.
pub fn unit_of(
    alloc: Global,
    trail: &Trail,
    clauses: &Clauses,
    inferences: &Inferences,
    sets: &mut Sets,
    marks: &mut Marks,
    wanted: Wanted,
) -> Result<Option<Learned>, Memory>
    requires over { AreOver (length trail.now.declared) (known_of clauses.now inferences.now) }
    requires fresh { sets.old ≡ start trail.now.declared }
    ensures derived { IfOk result (λ found. IfSome found (IsDerived (known_of clauses.now inferences.now) trail.now.declared)) }
    ensures fresh { OnOk result (sets.new ≡ start trail.now.declared) }
{
    let graph = Implications {
        trail,
        clauses,
        inferences,
        vars: sets.len(),
    };
    let Some(unit) = wanted_clause(alloc, &graph, marks, wanted)? else {
        return Ok(None);
    };
    if is_derived(trail, clauses, inferences, sets, &unit)? {
        return Ok(Some(unit));
    }
    Ok(None)
}

/// Notes that a clause of one literal is wanted for the entry of level 0 at this place, and for those that it rests on, where there is none.
/// It answers `Err` where memory runs out.
pub fn want_unit(
    alloc: Global,
    trail: &Trail,
    clauses: &Clauses,
    inferences: &Inferences,
    sets: &Sets,
    marks: &mut Marks,
    place: usize,
) -> Result<(), Memory>
    requires fresh { sets.now ≡ start trail.now.declared }
{
    let graph = Implications {
        trail,
        clauses,
        inferences,
        vars: sets.len(),
    };
    want_root(&graph, marks, place)
}
