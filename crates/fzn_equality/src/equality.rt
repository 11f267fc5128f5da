// Terms that are to be equal: by the rule `rows`.
ghost use Rattle.std.specs.Prelude.{◌≡◌, ℕ, List, length, IfOk, IfSome};
ghost use Rattle.fzn_domain.specs.IntSet.{IntSet};
ghost use Rattle.fzn_domain.specs.Narrow.{NoneEmpty};
ghost use Rattle.fzn_meaning.specs.declared.constraint.Constraint.TheVariants as constraint;
ghost use Rattle.fzn_meaning.specs.Meaning.{IsSwitch};
ghost use Rattle.fzn_values.specs.Term.{IsTerm};
ghost use Rattle.fzn_rules.specs.declared.rule.Rule.TheVariants as rule;
ghost use Rattle.fzn_terms.specs.Denied.{IsDenied};
ghost use Rattle.fzn_propagator.specs.Clause.{IsJustified};
ghost use Rattle.fzn_equality.specs.Equality.{IsAskedEqual};

use crate::pair::Pair;
use crate::shared::explain_apart;
use crate::terms::Bound;
use fzn_domain::{Lit, Memory};
use fzn_list::Items;
use fzn_meaning::Relation;
use fzn_terms::{Claim, interval_of, is_fixed, may_be};
use fzn_trail::Trail;
use fzn_values::Term;
use std::alloc::Global;

/// A clause that is false or forces a literal: that the switch does not ask for equality, where the two terms have no common value, and
/// where it does, that one of them has not a value which the other has not. None where it finds no such clause. It answers `Err` where
/// memory runs out.
pub fn infer_equal(
    alloc: Global,
    trail: &Trail,
    relation: Relation,
    left: Term,
    right: Term,
    switch: Option<Term>,
) -> Result<Option<Items<Lit>>, Memory>
    requires left { IsTerm (length trail.now.declared) left }
    requires right { IsTerm (length trail.now.declared) right }
    requires switch { IsSwitch (length trail.now.declared) switch }
    requires filled { NoneEmpty trail.now.sets }
    ensures { IfOk result (λ found. IfSome found (IsJustified trail.now (constraint.Compare relation left right switch) rule.Rows)) }
{
    let is_asked = match switch {
        Some(term) if !is_fixed(trail, term) => false,
        Some(term) if !may_be(trail, term, &asking_value(relation)) => return Ok(None),
        _ => true,
    };
    let Some(unasked) = unasked(relation, switch) else {
        return Ok(None);
    };
    let pair = Pair {
        trail,
        one: left,
        other: right,
        ends: interval_of(trail, left),
        other_ends: interval_of(trail, right),
    };
    match bound_of(&pair, is_asked) {
        Some(bound) => explain_apart(alloc, trail, unasked, left, bound, right),
        None if !is_asked && pair.share_none() => pair.explain_shared(alloc, unasked),
        None => Ok(None),
    }
}

/// What the first of the two has to be, since the second is, if they have to be equal; else what keeps them apart.
fn bound_of(pair: &Pair, is_asked: bool) -> Option<Bound> {
    if is_asked {
        pair.narrowing()
    } else {
        pair.apart()
    }
}

/// The switch's value where the terms have to be equal.
fn asking_value(relation: Relation) -> i64 {
    match relation {
        Relation::Equal => 1,
        _ => 0,
    }
}

/// The claim that equality is not asked for. Nothing where it never is.
fn unasked(relation: Relation, switch: Option<Term>) -> Option<Claim>
    ensures term { IfSome result (λ claim. (count : ℕ) → IsSwitch count switch → IsTerm count claim.term) }
    ensures denied { IfSome result (λ claim. (sets : List IntSet) → IsDenied sets claim → IsAskedEqual sets relation switch) }
{
    match (relation, switch) {
        (Relation::Equal, None) => Some(Claim::never()),
        (Relation::Equal, Some(term)) => Some(Claim::other_than(term, 1)),
        (Relation::NotEqual, Some(term)) => Some(Claim::other_than(term, 0)),
        _ => None,
    }
}
