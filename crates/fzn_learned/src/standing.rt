// A clause on the sets that stood when there were so many assertions.
ghost use Rattle.std.specs.Prelude.{◌≡◌, ◌<◌, ◌≤◌, ◌≢◌, ℕ, [], ◌∷◌, IsTrue, IfSome, length, take};
ghost use Rattle.std.specs.List.{All};
ghost use Rattle.fzn_domain.specs.declared.literal.Lit.{Lit};
ghost use Rattle.fzn_domain.specs.Limits.{IsInLimits};
ghost use Rattle.fzn_domain.specs.Narrow.{IsVariable, IsClauseOver, set_of, possible_in};
ghost use Rattle.fzn_trail.specs.Replay.{replayed, variable_at};
ghost use Rattle.fzn_learned.specs.Reasoned.{IsLoneLiteral};

use fzn_domain::{Domain, Lit, VarId};
use fzn_trail::Trail;

/// Whether the clause has one possible literal, which is not yet true. It looks at the later assertions on the clause's variables.
pub fn forces_at(trail: &Trail, count: usize, clause: &[Lit]) -> bool
    requires fits { count ≤ length trail.now.entries }
    requires variables { All (λ entry. IsVariable (length trail.now.declared) entry.lit.var) trail.now.entries }
    requires over { IsClauseOver (length trail.now.declared) clause.now }
    requires in_limits { All (λ (lit : Lit). IsInLimits lit.value) clause.now }
    ensures { IsTrue result → (lit : Lit) × IsLoneLiteral (replayed trail.now.declared (take count trail.now.entries)) clause.now lit }
{
    match only_possible_at(trail, count, clause) {
        Some(lit) => !set_at(trail, count, lit.var).is_false(lit.negated()),
        None => false,
    }
}

/// The literal of the clause that was possible, where there was one alone.
fn only_possible_at(trail: &Trail, count: usize, clause: &[Lit]) -> Option<Lit>
    requires fits { count ≤ length trail.now.entries }
    requires variables { All (λ entry. IsVariable (length trail.now.declared) entry.lit.var) trail.now.entries }
    requires over { IsClauseOver (length trail.now.declared) clause.now }
    ensures { IfSome result (λ lit. possible_in (replayed trail.now.declared (take count trail.now.entries)) clause.now ≡ lit ∷ []) }
{
    let mut found = None;
    for lit in clause {
        if !set_at(trail, count, lit.var).is_false(*lit) {
            match found {
                None => found = Some(*lit),
                Some(_) => return None,
            }
        }
    }
    found
}

/// The set of a variable. It looks at the later assertions on the variable.
fn set_at(trail: &Trail, count: usize, var: VarId) -> &Domain
    requires fits { count ≤ length trail.now.entries }
    requires variables { All (λ entry. IsVariable (length trail.now.declared) entry.lit.var) trail.now.entries }
    requires variable { IsVariable (length trail.now.declared) var }
    ensures { result.now ≡ set_of (replayed trail.now.declared (take count trail.now.entries)) var }
{
    match trail.last_of(var) {
        Some(place) if place >= count => trail.domain_before(first_from(trail, count, place)),
        _ => trail.domain(var),
    }
}

/// The first assertion on the variable of this one from so many on.
fn first_from(trail: &Trail, count: usize, place: usize) -> usize
    requires fits { place < length trail.now.entries }
    requires from { count ≤ place }
    ensures in_list { result < length trail.now.entries }
    ensures from { count ≤ result }
    ensures same { variable_at trail.now.entries result ≡ variable_at trail.now.entries place }
    ensures first { (k : ℕ) → count ≤ k → k < result → variable_at trail.now.entries k ≢ variable_at trail.now.entries place }
{
    let mut at = place;
    while let Some(older) = trail.before(at) {
        if older < count {
            return at;
        }
        at = older;
    }
    at
}
