// The rules `fixed` and `enum`: no choice of values for the inputs leaves a value for the result.
ghost use Rattle.std.specs.Prelude.{◌≡◌, ◌↔◌, ◌*◌, ◌++◌, ◌<◌, ◌≤◌, IsTrue, false, length, map, IfNone, IfSome, IsSomeAnd};
ghost use Rattle.std.specs.List.{All};
ghost use Rattle.fzn_domain.specs.Narrow.{is_some_empty};
ghost use Rattle.fzn_values.specs.Term.{IsTerm, IsPlace};
ghost use Rattle.fzn_meaning.specs.Meaning.{IsWellFormedConstraint};
ghost use Rattle.fzn_builtin_rules.specs.Choices.{inputs_of, count_of, choices, NoChoiceFits, IsFixedMet, IsEnumMet};

use crate::numbered::count_of;
use crate::outcome::fails_at;
use fzn_meaning::{Constraint, Sum};
use fzn_sets::Sets;
use fzn_values::Term;

/// The most choices that `enum` goes over.
const MOST_CHOICES: usize = 4096;

/// Whether there is one choice for the inputs, and it leaves no value for the result. No set may be empty. `false` for the five globals.
pub fn is_fixed_met(constraint: &Constraint, sets: &Sets) -> bool
    requires constraint { IsWellFormedConstraint (length sets.now.present) constraint.now }
    requires nonempty { is_some_empty sets.now.present ≡ false }
    ensures { IsTrue result ↔ IsFixedMet constraint.now sets.now.present }
{
    match count_choices(constraint, sets) {
        Some(1) => no_choice_fits(constraint, sets, 1),
        _ => false,
    }
}

/// Whether there are at most 4,096 choices for the inputs, and none leaves a value for the result. It goes over the inputs once for
/// each choice. No set may be empty. `false` for the five globals.
pub fn is_enum_met(constraint: &Constraint, sets: &Sets) -> bool
    requires constraint { IsWellFormedConstraint (length sets.now.present) constraint.now }
    requires nonempty { is_some_empty sets.now.present ≡ false }
    ensures { IsTrue result ↔ IsEnumMet constraint.now sets.now.present }
{
    match count_choices(constraint, sets) {
        Some(count) => no_choice_fits(constraint, sets, count),
        None => false,
    }
}

fn no_choice_fits(constraint: &Constraint, sets: &Sets, count: usize) -> bool
    requires constraint { IsWellFormedConstraint (length sets.now.present) constraint.now }
    requires nonempty { is_some_empty sets.now.present ≡ false }
    requires count { IsSomeAnd (inputs_of constraint.now) (λ inputs. count ≡ choices sets.now.present inputs) }
    ensures { IsTrue result ↔ IsSomeAnd (inputs_of constraint.now) (NoChoiceFits constraint.now sets.now.present) }
{
    for number in 0..count {
        if !fails_at(constraint, sets, number) {
            return false;
        }
    }
    true
}

/// How many choices there are for the inputs, and nothing where they are too many or the constraint has no inputs.
#[tactic(auto, unfolding(crate::specs::Choices::inputs_of, fzn_meaning::specs::Meaning::IsWellFormedConstraint))]
fn count_choices(constraint: &Constraint, sets: &Sets) -> Option<usize>
    requires constraint { IsWellFormedConstraint (length sets.now.present) constraint.now }
    requires nonempty { is_some_empty sets.now.present ≡ false }
    ensures some { IfSome result (λ count. IsSomeAnd (inputs_of constraint.now) (λ inputs. (count ≡ choices sets.now.present inputs) × (count ≤ 4096))) }
    ensures none { IfNone result (IfSome (inputs_of constraint.now) (λ inputs. 4096 < choices sets.now.present inputs)) }
{
    match constraint {
        Constraint::Compare { left, right, .. }
        | Constraint::BoolNot { left, right }
        | Constraint::Arithmetic { left, right, .. }
        | Constraint::BoolXor { left, right, .. } => times_each(sets, 1, &[*left, *right]),
        Constraint::BoolToInt { boolean: term, .. }
        | Constraint::IntAbs { of: term, .. }
        | Constraint::SetIn { term, .. } => times_each(sets, 1, &[*term]),
        Constraint::Linear { sum, .. } | Constraint::BoolLinEq { sum, .. } => {
            times_places(sets, sum)
        }
        Constraint::Extremum { entries: terms, .. }
        | Constraint::Gated { inputs: terms, .. }
        | Constraint::ArrayBoolXor { inputs: terms } => times_each(sets, 1, terms.as_slice()),
        Constraint::Element { index, entries, .. } => {
            times_both(sets, &[*index], entries.as_slice())
        }
        Constraint::BoolClause { positive, negative } => {
            times_both(sets, positive.as_slice(), negative.as_slice())
        }
        _ => None,
    }
}

/// The number times that of the term's values, and nothing where that is too many.
fn times(sets: &Sets, count: usize, term: Term) -> Option<usize>
    requires some { 0 < count }
    requires few { count ≤ 4096 }
    requires term { IsTerm (length sets.now.present) term }
    requires nonempty { is_some_empty sets.now.present ≡ false }
    ensures value { IfSome result (λ product. product ≡ count * count_of sets.now.present term) }
    ensures few { IfSome result (λ product. product ≤ 4096) }
    ensures some { IfSome result (λ product. 0 < product) }
    ensures none { IfNone result (4096 < count * count_of sets.now.present term) }
{
    let factor = count_of(sets, term);
    if factor > MOST_CHOICES || count * factor > MOST_CHOICES {
        return None;
    }
    Some(count * factor)
}

/// The number times those of all terms.
fn times_each(sets: &Sets, count: usize, terms: &[Term]) -> Option<usize>
    requires some { 0 < count }
    requires few { count ≤ 4096 }
    requires terms { All (IsTerm (length sets.now.present)) terms.now }
    requires nonempty { is_some_empty sets.now.present ≡ false }
    ensures value { IfSome result (λ product. product ≡ count * choices sets.now.present terms.now) }
    ensures few { IfSome result (λ product. product ≤ 4096) }
    ensures some { IfSome result (λ product. 0 < product) }
    ensures none { IfNone result (4096 < count * choices sets.now.present terms.now) }
{
    let mut product = count;
    for term in terms {
        product = times(sets, product, *term)?;
    }
    Some(product)
}

/// How many choices there are for the terms of two lists.
fn times_both(sets: &Sets, front: &[Term], back: &[Term]) -> Option<usize>
    requires front { All (IsTerm (length sets.now.present)) front.now }
    requires back { All (IsTerm (length sets.now.present)) back.now }
    requires nonempty { is_some_empty sets.now.present ≡ false }
    ensures value { IfSome result (λ product. product ≡ choices sets.now.present (front.now ++ back.now)) }
    ensures few { IfSome result (λ product. product ≤ 4096) }
    ensures none { IfNone result (4096 < choices sets.now.present (front.now ++ back.now)) }
{
    let count = times_each(sets, 1, front)?;
    times_each(sets, count, back)
}

/// How many choices there are for the terms of the places.
fn times_places(sets: &Sets, places: &Sum) -> Option<usize>
    requires places { All (IsPlace (length sets.now.present)) places.now }
    requires nonempty { is_some_empty sets.now.present ≡ false }
    ensures value { IfSome result (λ product. product ≡ choices sets.now.present (map (λ place. place.term) places.now)) }
    ensures few { IfSome result (λ product. product ≤ 4096) }
    ensures none { IfNone result (4096 < choices sets.now.present (map (λ place. place.term) places.now)) }
{
    let mut product = 1;
    for i in 0..places.len() {
        product = times(sets, product, places.place(i).term)?;
    }
    Some(product)
}
