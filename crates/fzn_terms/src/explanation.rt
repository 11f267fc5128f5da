// Clauses of claims: of any claims, tested on the trail; or a clause that is known to be false, grown by what says that a claim is entailed.
ghost use Rattle.std.specs.Prelude.{◌≡◌, ◌↔◌, ◌<◌, ◌≤ℤ◌, pos, negsuc, length, IfOk, OnOk, IfSome, IsTrue, MatchBool, slice_index_or};
ghost use Rattle.std.specs.List.{All};
ghost use Rattle.fzn_domain.specs.Narrow.{IsClauseOver, NoneEmpty};
ghost use Rattle.fzn_values.specs.Term.{IsTerm};
ghost use Rattle.fzn_propagator.specs.Clause.{IsFalseClause, IsWritable, IsForcing};
ghost use Rattle.fzn_terms.specs.declared.claim.Claim.{Claim};
ghost use Rattle.fzn_terms.specs.Denied.{IsEntailed, AreEntailedBut, IsDenied, IsSayable, IsSaid, ExplainsClaims, IsGrown, IsGrownToForce, IsClaimExplained, IsClaimForced};

use crate::claim::Claim;
use fzn_domain::{GREATEST_BOUND, LEAST_BOUND, Lit, Memory};
use fzn_list::Items;
use fzn_propagator::is_forcing;
use fzn_trail::Trail;
use fzn_values::Term;
use std::alloc::Global;

/// A clause of these claims, without the literals that are false of all declared values, which is false or forces one literal. Nothing
/// where there is none. It answers `Err` where memory runs out.
pub fn explanation_of(
    alloc: Global,
    trail: &Trail,
    claims: &[Claim],
) -> Result<Option<Items<Lit>>, Memory>
    requires { All (λ claim. IsTerm (length trail.now.declared) claim.term) claims.now }
    ensures { IfOk result (λ found. IfSome found (ExplainsClaims trail.now claims.now)) }
{
    let mut clause = Items::with_capacity(alloc, claims.len())?;
    for claim in claims {
        if !say(trail, *claim, &mut clause)? {
            return Ok(None);
        }
    }
    if is_usable(trail, clause.as_slice()) {
        Ok(Some(clause))
    } else {
        Ok(None)
    }
}

/// Adds to a false clause what it takes to say the claim, which is true of each value of its term on the trail. Its number lies from
/// -4 * 10^9 to 4 * 10^9. It answers `Err` where memory runs out, and nothing is said of the clause then.
pub fn explain(trail: &Trail, claim: Claim, clause: &mut Items<Lit>) -> Result<(), Memory>
    requires term { IsTerm (length trail.now.declared) claim.term }
    requires filled { NoneEmpty trail.now.sets }
    requires above { negsuc 3999999999 ≤ℤ claim.number }
    requires below { claim.number ≤ℤ pos 4000000000 }
    requires present { IsEntailed trail.now.sets claim }
    requires still { IsFalseClause trail.now clause.old }
    ensures { OnOk result (IsClaimExplained trail.now claim clause.old clause.new) }
{
    let Term::Variable(var) = claim.term else {
        return Ok(());
    };
    let _domain = trail.domain(var); // Its values are declared ones.
    let declared = trail.declared(var);
    let _none = declared.is_empty(); // Its values lie within the limits.
    let lit = Lit {
        var,
        op: claim.op,
        value: claim.number,
    }
    .negated();
    if !declared.is_false(lit) {
        clause.push(lit)?;
    }
    Ok(())
}

/// Adds to a false clause the literal without which the claim is true of each value of its term. `false` where it is true of none on the
/// trail, so that the literal is true. Its number lies from -4 * 10^9 to 4 * 10^9. It answers `Err` where memory runs out, and nothing is
/// said of the clause then.
pub fn force(trail: &Trail, claim: Claim, clause: &mut Items<Lit>) -> Result<bool, Memory>
    requires term { IsTerm (length trail.now.declared) claim.term }
    requires filled { NoneEmpty trail.now.sets }
    requires above { negsuc 3999999999 ≤ℤ claim.number }
    requires below { claim.number ≤ℤ pos 4000000000 }
    requires still { IsFalseClause trail.now clause.old }
    ensures { IfOk result (λ forces. MatchBool forces (IsClaimForced trail.now claim clause.old clause.new) (IsDenied trail.now.sets claim)) }
{
    if is_denied(trail, claim) {
        return Ok(false);
    }
    force_possible(trail, claim, clause)?;
    Ok(true)
}

/// Adds to a false clause the literal without which the claim is true of each value of its term. It has to be true of one on the trail,
/// at which the literal is false. Its number lies from -4 * 10^9 to 4 * 10^9. It answers `Err` where memory runs out, and nothing is said
/// of the clause then.
pub fn force_possible(trail: &Trail, claim: Claim, clause: &mut Items<Lit>) -> Result<(), Memory>
    requires term { IsTerm (length trail.now.declared) claim.term }
    requires filled { NoneEmpty trail.now.sets }
    requires above { negsuc 3999999999 ≤ℤ claim.number }
    requires below { claim.number ≤ℤ pos 4000000000 }
    requires possible { IsDenied trail.now.sets claim → ⊥ }
    requires still { IsFalseClause trail.now clause.old }
    ensures { OnOk result (IsClaimForced trail.now claim clause.old clause.new) }
{
    let Term::Variable(var) = claim.term else {
        return Ok(());
    };
    let possible = Lit {
        var,
        op: claim.op,
        value: claim.number,
    };
    let _domain = trail.domain(var); // Its values are declared ones.
    let declared = trail.declared(var);
    let _none = declared.is_empty(); // Its values lie within the limits.
    let lit = possible.negated();
    if !declared.is_false(lit) {
        clause.push(lit)?;
    }
    Ok(())
}

/// Adds to a false clause what it takes to say the claims but for the one at an index, each of which is true of each value of its term on
/// the trail. It answers `Err` where memory runs out.
pub fn explain_claims(
    trail: &Trail,
    claims: &[Claim],
    except: usize,
    clause: &mut Items<Lit>,
) -> Result<(), Memory>
    requires claims { All (IsSayable (length trail.now.declared)) claims.now }
    requires filled { NoneEmpty trail.now.sets }
    requires present { AreEntailedBut except claims.now trail.now.sets }
    requires still { IsFalseClause trail.now clause.old }
    ensures { OnOk result (IsGrown trail.now (AreEntailedBut except claims.now) clause.old clause.new) }
{
    for k in 0..claims.len() {
        if k != except {
            explain(trail, claims[k], clause)?;
        }
    }
    Ok(())
}

/// Adds to a false clause what it takes to say the claims: the one at an index by a literal without which it is true. `false` where that
/// one is true of no value on the trail.
pub fn force_claims(
    trail: &Trail,
    claims: &[Claim],
    forced: usize,
    clause: &mut Items<Lit>,
) -> Result<bool, Memory>
    requires claims { All (IsSayable (length trail.now.declared)) claims.now }
    requires filled { NoneEmpty trail.now.sets }
    requires forced { forced < length claims.now }
    requires present { AreEntailedBut forced claims.now trail.now.sets }
    requires still { IsFalseClause trail.now clause.old }
    ensures { IfOk result (λ forces. MatchBool forces (IsGrownToForce trail.now (λ sets. All (IsEntailed sets) claims.now) clause.old clause.new) ((default : Claim) → IsDenied trail.now.sets (slice_index_or claims.now forced default))) }
{
    explain_claims(trail, claims, forced, clause)?;
    force(trail, claims[forced], clause)
}

/// Adds the claim to the clause, where it may be true of a declared value. `false` where it is true of a constant.
fn say(trail: &Trail, claim: Claim, clause: &mut Items<Lit>) -> Result<bool, Memory>
    requires term { IsTerm (length trail.now.declared) claim.term }
    requires over { IsClauseOver (length trail.now.declared) clause.old }
    ensures { IfOk result (λ said. IsTrue said → IsSaid trail.now.declared claim clause.old clause.new) }
{
    if is_never(trail, claim) {
        return Ok(true);
    }
    let Term::Variable(var) = claim.term else {
        return Ok(false);
    };
    clause.push(Lit {
        var,
        op: claim.op,
        value: claim.number,
    })?;
    Ok(true)
}

/// Whether the claim is true of no declared value of its term.
pub fn is_never(trail: &Trail, claim: Claim) -> bool
    requires { IsTerm (length trail.now.declared) claim.term }
    ensures { IsTrue result ↔ IsDenied trail.now.declared claim }
{
    match claim.term {
        Term::Constant(k) => !claim.op.compares(k, claim.number),
        Term::Variable(var) => trail.declared(var).is_false(Lit {
            var,
            op: claim.op,
            value: claim.number,
        }),
    }
}

/// Whether the claim is true of no value of its term on the trail.
pub fn is_denied(trail: &Trail, claim: Claim) -> bool
    requires { IsTerm (length trail.now.declared) claim.term }
    ensures { IsTrue result ↔ IsDenied trail.now.sets claim }
{
    match claim.term {
        Term::Constant(value) => !claim.op.compares(value, claim.number),
        Term::Variable(var) => trail.domain(var).is_false(Lit {
            var,
            op: claim.op,
            value: claim.number,
        }),
    }
}

/// Whether the clause is false or forces one literal, and a certificate may have its numbers.
fn is_usable(trail: &Trail, clause: &[Lit]) -> bool
    requires { IsClauseOver (length trail.now.declared) clause.now }
    ensures { IsTrue result → IsForcing trail.now clause.now }
{
    if !are_writable(clause) {
        return false;
    }
    is_forcing(trail, clause)
}

/// Whether a certificate may have the numbers of these literals.
fn are_writable(clause: &[Lit]) -> bool
    ensures { IsTrue result → All IsWritable clause.now }
{
    for lit in clause {
        if !is_writable(*lit) {
            return false;
        }
    }
    true
}

/// Whether a certificate may have the literal's number.
fn is_writable(lit: Lit) -> bool
    ensures { IsTrue result → IsWritable lit }
{
    LEAST_BOUND <= lit.value && lit.value <= GREATEST_BOUND
}
