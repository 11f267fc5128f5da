// Variables that are told apart two by two.
#![tactic(auto, unfolding(crate::specs::Apart::TellsApart))]

ghost use Rattle.std.specs.Prelude.{◌≡◌, ◌≢◌, ◌↔◌, ◌⊎◌, ◌+ℤ◌, pos, Some, IsTrue, IfOk, IfErr, IfSome, IfNone, OnOk, length, map, slice_get};
ghost use Rattle.std.specs.List.{All, Contains, zip};
ghost use Rattle.fzn_domain.specs.Narrow.{IsVariable};
ghost use Rattle.fzn_values.specs.declared.term.Term.TheVariants.{Variable};
ghost use Rattle.fzn_cited.specs.declared.fault.DeriveFault.TheVariants.{Memory};
ghost use Rattle.fzn_derive.specs.Apart.{StandApart, CancelOut, TellsApart, two_by_two, pairs_cited, IsPairTold, IsPairWrong, IsPairsFault, HasOneForEachTwo, AreToldApart, IsApartFault};

use fzn_cited::{DeriveFault, constraint_at};
use fzn_domain::VarId;
use fzn_list::{Items, LONGEST, Shared};
use fzn_meaning::{Comparison, Constraint, Relation, Sum};
use fzn_values::Term;
use std::alloc::{AllocError, Global};

/// That no two of the variables, of a model with this many, have one value: for each two places, in the order 1 2, 1 3, .., 2 3, .., the
/// number of a constraint is given that tells them apart. The faults are looked for in this order: `NoSuchVariable`; `NotDerived` where
/// there is not one number for each two places, or more variables than a list may have; then number by number `NoSuchConstraint`, and
/// `NotDerived` where the constraint does not tell the two apart. `Memory` may come at any time.
pub(crate) fn derive_apart(
    alloc: Global,
    given: &[Constraint],
    count: usize,
    variables: &[VarId],
    ids: &[u64],
) -> Result<Constraint, DeriveFault>
    ensures derived { IfOk result (λ constraint. AreToldApart given.now count variables.now ids.now constraint) }
    ensures fault { IfErr result (λ fault. (fault ≡ Memory) ⊎ IsApartFault given.now count variables.now ids.now fault) }
{
    if !are_variables(count, variables) {
        return Err(DeriveFault::NoSuchVariable);
    }
    if !has_one_for_each_two(variables, ids) {
        return Err(DeriveFault::NotDerived);
    }
    tell_apart(given, variables, ids)?;
    Ok(Constraint::AllDifferent {
        places: terms_of(alloc, variables)?,
    })
}

fn are_variables(count: usize, variables: &[VarId]) -> bool
    ensures { IsTrue result ↔ All (IsVariable count) variables.now }
{
    variables.iter().all(|var| 1 <= var.0 && var.0 <= count)
}

/// Whether there is one number for each two variables, of which there are not too many.
#[tactic(auto, using(crate::proofs::PairLemmas::pairs_counted))]
fn has_one_for_each_two(variables: &[VarId], ids: &[u64]) -> bool
    ensures { IsTrue result ↔ HasOneForEachTwo variables.now ids.now }
{
    let count = variables.len();
    count <= LONGEST && 2 * ids.len() as u128 + count as u128 == count as u128 * count as u128
}

fn terms_of(alloc: Global, variables: &[VarId]) -> Result<Shared<Term>, AllocError>
    ensures { IfOk result (λ terms. terms ≡ map Variable variables.now) }
{
    let mut terms = Items::with_capacity(alloc, variables.len())?;
    for var in variables {
        terms.push(Term::Variable(*var))?;
    }
    Shared::new(alloc, terms)
}

/// Looks at the two places in their order, up to the first that no constraint tells apart. Its faults are `NoSuchConstraint` and
/// `NotDerived`.
fn tell_apart(given: &[Constraint], variables: &[VarId], ids: &[u64]) -> Result<(), DeriveFault>
    requires { length ids.now ≡ length (two_by_two variables.now) }
    ensures told { OnOk result (All (IsPairTold given.now) (pairs_cited variables.now ids.now)) }
    ensures fault { IfErr result (IsPairsFault given.now (pairs_cited variables.now ids.now)) }
{
    let mut rest = variables;
    let mut left = ids;
    while let Some((first, others)) = rest.split_first() {
        tell_from_others(given, *first, others, &left[..others.len()])?;
        left = &left[others.len()..];
        rest = others;
    }
    Ok(())
}

/// The same of one variable and some others.
fn tell_from_others(
    given: &[Constraint],
    first: VarId,
    others: &[VarId],
    ids: &[u64],
) -> Result<(), DeriveFault>
    requires { length ids.now ≡ length others.now }
    ensures told { OnOk result (All (IsPairTold given.now) (zip (map (λ other. (first, other)) others.now) ids.now)) }
    ensures fault { IfErr result (IsPairsFault given.now (zip (map (λ other. (first, other)) others.now) ids.now)) }
{
    for i in 0..others.len() {
        tell_pair(given, first, others[i], ids[i])?;
    }
    Ok(())
}

fn tell_pair(given: &[Constraint], x: VarId, y: VarId, id: u64) -> Result<(), DeriveFault>
    ensures told { OnOk result (IsPairTold given.now ((x, y), id)) }
    ensures fault { IfErr result (λ fault. IsPairWrong given.now fault ((x, y), id)) }
{
    match constraint_at(given, id) {
        None => Err(DeriveFault::NoSuchConstraint),
        Some(constraint) => if tells_apart(constraint, x, y) {
            Ok(())
        } else {
            Err(DeriveFault::NotDerived)
        },
    }
}

fn tells_apart(constraint: &Constraint, x: VarId, y: VarId) -> bool
    ensures { IsTrue result ↔ TellsApart constraint.now x y }
{
    match constraint {
        Constraint::Compare {
            relation: Relation::NotEqual,
            left,
            right,
            switch: None,
        } => stand_apart(&[*left, *right], x, y),
        Constraint::Linear {
            sum,
            comparison: Comparison::NotEqual,
            bound,
            switch: None,
        } => *bound == 0 && are_opposite_at(sum, x, y),
        Constraint::AllDifferent { places } => stand_apart(places.as_slice(), x, y),
        Constraint::Circuit { successors } => stand_apart(successors.as_slice(), x, y),
        Constraint::Inverse { forward, backward } => {
            stand_apart(forward.as_slice(), x, y) || stand_apart(backward.as_slice(), x, y)
        }
        _ => false,
    }
}

/// Whether the sum has two places, of these two variables, with opposite coefficients.
#[tactic(auto, using(crate::proofs::PairLemmas::opposite_two))]
fn are_opposite_at(sum: &Sum, x: VarId, y: VarId) -> bool
    ensures { IsTrue result ↔ CancelOut sum.now × StandApart (map (λ place. place.term) sum.now) x y }
{
    are_opposite(sum) && stand_apart(&[sum.place(0).term, sum.place(1).term], x, y)
}

fn are_opposite(sum: &Sum) -> bool
    ensures { IsTrue result ↔ CancelOut sum.now }
{
    if sum.len() != 2 {
        return false;
    }
    cancel(sum.place(0).coefficient, sum.place(1).coefficient)
}

/// Whether the two are opposite numbers, and not 0.
fn cancel(first: i64, second: i64) -> bool
    ensures { IsTrue result ↔ (first +ℤ second ≡ pos 0) × (first ≢ pos 0) }
{
    first != 0 && first as i128 + second as i128 == 0
}

/// Whether the two variables stand at two places.
fn stand_apart(terms: &[Term], x: VarId, y: VarId) -> bool
    ensures { IsTrue result ↔ StandApart terms.now x y }
{
    match place_of(terms, x) {
        None => false,
        Some(place) => has_variable(&terms[..place], y) || has_variable(&terms[place + 1..], y),
    }
}

fn place_of(terms: &[Term], var: VarId) -> Option<usize>
    ensures found { IfSome result (λ place. slice_get terms.now place ≡ Some (Variable var)) }
    ensures none { IfNone result (¬ Contains terms.now (Variable var)) }
{
    terms.iter().position(|term| is_variable(*term, var))
}

fn has_variable(terms: &[Term], var: VarId) -> bool
    ensures { IsTrue result ↔ Contains terms.now (Variable var) }
{
    terms.iter().any(|term| is_variable(*term, var))
}

fn is_variable(term: Term, var: VarId) -> bool
    ensures { IsTrue result ↔ (term ≡ Variable var) }
{
    match term {
        Term::Constant(_) => false,
        Term::Variable(other) => other.0 == var.0,
    }
}
