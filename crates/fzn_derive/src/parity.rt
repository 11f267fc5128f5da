// What constraints say together of sums of Booleans that are odd or even.
#![tactic(auto, unfolding(crate::specs::Parity::parity_of, fzn_meaning::specs::Meaning::IsWellFormedConstraint))]

ghost use Rattle.std.specs.Prelude.{◌≡◌, ◌↔◌, ◌⊎◌, ◌+◌, ◌%◌, ℤ, pos, true, [], ◌∷◌, ◌++◌, if◌then◌else◌, length, map, IsTrue, IsSome, IfOk, IfErr, OnOk, MatchOption};
ghost use Rattle.std.specs.Ordering.{int_eq};
ghost use Rattle.std.specs.List.{All};
ghost use Rattle.std.specs.List.Sorted.{IsNonDecreasing};
ghost use Rattle.fzn_domain.specs.IntSet.{contains};
ghost use Rattle.fzn_values.specs.declared.term.Term.TheVariants.{Constant};
ghost use Rattle.fzn_values.specs.Term.{IsTerm};
ghost use Rattle.fzn_meaning.specs.Meaning.{IsWellFormedConstraint, IsBit, IsBoolean};
ghost use Rattle.fzn_meaning.specs.Solutions.{declared_sets};
ghost use Rattle.fzn_derive.specs.Parity.{SaysParity, IsSumAdded, IsConstraintAdded, AreAllAdded, IsSumsFault, AreOddIn, EndsWith, is_one, variable_with, variable_numbers, remainder_of, IsParity, IsParityFault};
ghost use Rattle.fzn_cited.specs.Cited.{IsCitedAs, IsCitedWrong};
ghost use Rattle.fzn_cited.specs.declared.fault.DeriveFault.TheVariants.{Memory};

use fzn_cited::{DeriveFault, constraint_at};
use fzn_domain::{Domain, VarId};
use fzn_list::{Items, LONGEST, Shared};
use fzn_meaning::{Constraint, Relation, Var};
use fzn_values::Term;
use std::alloc::{AllocError, Global};

/// That an odd number of some Booleans are 1, which the constraints with these numbers say together: each says whether the sum of its
/// terms is odd or even, and they are 0 or 1. The faults are looked for number by number, `NoSuchConstraint` before `NotDerived`, which
/// says that the constraint says no such thing; and then `NotDerived` where the variables are too many for one constraint. `Memory` may
/// come at any time.
pub(crate) fn derive_parity(
    alloc: Global,
    given: &[Constraint],
    vars: &[Var],
    ids: &[u64],
) -> Result<Constraint, DeriveFault>
    requires { All (IsWellFormedConstraint (length vars.now)) given.now }
    ensures derived { IfOk result (λ constraint. IsParity given.now (declared_sets vars.now) ids.now constraint) }
    ensures fault { IfErr result (λ fault. (fault ≡ Memory) ⊎ IsParityFault given.now (declared_sets vars.now) ids.now fault) }
{
    let mut numbers = Vec::new(alloc);
    let is_odd = add_all(&mut numbers, given, vars, ids)?;
    let odd = odd_among(alloc, numbers)?;
    if odd.len() >= LONGEST {
        return Err(DeriveFault::NotDerived);
    }
    Ok(Constraint::ArrayBoolXor {
        inputs: inputs_from(alloc, &odd, !is_odd)?,
    })
}

/// Adds the numbers of the variables in all these constraints, and says whether the odd ones among them and the constants 1 are together
/// an odd number.
fn add_all(
    numbers: &mut Vec<usize>,
    given: &[Constraint],
    vars: &[Var],
    ids: &[u64],
) -> Result<bool, DeriveFault>
    requires given { All (IsWellFormedConstraint (length vars.now)) given.now }
    requires none { numbers.old.items ≡ [] }
    ensures added { IfOk result (AreAllAdded given.now (declared_sets vars.now) ids.now numbers.new.items) }
    ensures fault { IfErr result (λ fault. (fault ≡ Memory) ⊎ IsSumsFault given.now (declared_sets vars.now) ids.now fault) }
{
    let mut is_odd = false;
    for i in 0..ids.len() {
        let more = add_cited(numbers, given, vars, ids[i])?;
        is_odd = is_sum_odd(is_odd, more);
    }
    Ok(is_odd)
}

fn add_cited(
    numbers: &mut Vec<usize>,
    given: &[Constraint],
    vars: &[Var],
    id: u64,
) -> Result<bool, DeriveFault>
    requires { All (IsWellFormedConstraint (length vars.now)) given.now }
    ensures added { IfOk result (λ odd. IsCitedAs (λ constraint. IsConstraintAdded (declared_sets vars.now) numbers.old.items numbers.new.items constraint odd) given.now id) }
    ensures fault { IfErr result (λ fault. (fault ≡ Memory) ⊎ IsCitedWrong (SaysParity (declared_sets vars.now)) given.now id fault) }
{
    match constraint_at(given, id) {
        None => Err(DeriveFault::NoSuchConstraint),
        Some(constraint) => match add_constraint(numbers, vars, constraint)? {
            None => Err(DeriveFault::NotDerived),
            Some(odd) => Ok(odd),
        },
    }
}

/// Adds the numbers of the variables of a constraint's sum, and says whether the constants 1 and the sum itself, where it is odd, are
/// together an odd number. `None` where the constraint says of no sum that it is odd or even, or some term may be another number than
/// 0 and 1.
fn add_constraint(
    numbers: &mut Vec<usize>,
    vars: &[Var],
    constraint: &Constraint,
) -> Result<Option<bool>, AllocError>
    requires { IsWellFormedConstraint (length vars.now) constraint.now }
    ensures { IfOk result (λ odd. MatchOption odd (¬ SaysParity (declared_sets vars.now) constraint.now) (IsConstraintAdded (declared_sets vars.now) numbers.old.items numbers.new.items constraint.now)) }
{
    match constraint {
        Constraint::ArrayBoolXor { inputs } => add_sum(numbers, vars, inputs.as_slice(), true),
        Constraint::BoolNot { left, right } => add_sum(numbers, vars, &[*left, *right], true),
        Constraint::BoolXor {
            left,
            right,
            result,
        } => add_sum(numbers, vars, &[*left, *right, *result], false),
        Constraint::Compare {
            relation: Relation::Equal,
            left,
            right,
            switch: None,
        } => add_sum(numbers, vars, &[*left, *right], false),
        Constraint::BoolToInt { boolean, integer } => {
            add_sum(numbers, vars, &[*boolean, *integer], false)
        }
        _ => Ok(None),
    }
}

/// The same of a sum that is odd, or even.
fn add_sum(
    numbers: &mut Vec<usize>,
    vars: &[Var],
    terms: &[Term],
    odd: bool,
) -> Result<Option<bool>, AllocError>
    requires { All (IsTerm (length vars.now)) terms.now }
    ensures { IfOk result (λ more. MatchOption more (¬ All (IsBoolean (declared_sets vars.now)) terms.now) (IsSumAdded (declared_sets vars.now) numbers.old.items numbers.new.items (record { terms = terms.now; odd = odd }))) }
{
    let mut is_odd = odd;
    for term in terms {
        match add_term(numbers, vars, *term)? {
            None => return Ok(None),
            Some(is_one) => is_odd = is_sum_odd(is_odd, is_one),
        }
    }
    Ok(Some(is_odd))
}

/// Adds the number of a variable, and says whether the term is the constant 1. `None` where it may be another number than 0 and 1.
fn add_term(numbers: &mut Vec<usize>, vars: &[Var], term: Term) -> Result<Option<bool>, AllocError>
    requires { IsTerm (length vars.now) term }
    ensures boolean { IfOk result (λ one. MatchOption one (¬ IsBoolean (declared_sets vars.now) term) (λ one. IsBoolean (declared_sets vars.now) term × (one ≡ is_one term))) }
    ensures numbers { IfOk result (λ one. IsSome one → numbers.new.items ≡ numbers.old.items ++ variable_numbers (term ∷ [])) }
{
    match term {
        Term::Constant(k) => Ok(bit_of(k)),
        Term::Variable(var) => {
            if !is_boolean(&vars[var.0 - 1].domain) {
                return Ok(None);
            }
            numbers.push(var.0)?;
            Ok(Some(false))
        }
    }
}

/// Whether the number is 1, where it is 0 or 1.
fn bit_of(number: i64) -> Option<bool>
    ensures { MatchOption result (¬ IsBit number) (λ one. IsBit number × (one ≡ int_eq number (pos 1))) }
{
    match number {
        0 => Some(false),
        1 => Some(true),
        _ => None,
    }
}

/// Whether the set has no members but 0 and 1.
fn is_boolean(domain: &Domain) -> bool
    ensures { IsTrue result ↔ ((x : ℤ) → contains domain.now x ≡ true → IsBit x) }
{
    domain.is_empty() || domain.min() >= 0 && domain.max() <= 1
}

fn is_sum_odd(first: bool, second: bool) -> bool
    ensures { remainder_of result ≡ (remainder_of first + remainder_of second) % 2 }
{
    first != second
}

/// The numbers that stand an odd number of times in the list, in rising order.
fn odd_among(alloc: Global, mut numbers: Vec<usize>) -> Result<Vec<usize>, AllocError>
    ensures { IfOk result (λ odd. AreOddIn numbers.items odd.items) }
{
    numbers.sort_unstable();
    odd_among_sorted(alloc, &numbers)
}

fn odd_among_sorted(alloc: Global, sorted: &[usize]) -> Result<Vec<usize>, AllocError>
    requires { IsNonDecreasing sorted.now }
    ensures { IfOk result (λ odd. AreOddIn sorted.now odd.items) }
{
    let mut odd = Vec::new(alloc);
    for number in sorted {
        toggle_last(&mut odd, *number)?;
    }
    Ok(odd)
}

/// Takes the last number away where it is this one, and else puts this one behind it.
fn toggle_last(odd: &mut Vec<usize>, number: usize) -> Result<(), AllocError>
    ensures { OnOk result ((odd.old.items ≡ odd.new.items ++ number ∷ []) ⊎ ((odd.new.items ≡ odd.old.items ++ number ∷ []) × ¬ EndsWith odd.old.items number)) }
{
    if odd.last() == Some(&number) {
        odd.pop();
    } else {
        odd.push(number)?;
    }
    Ok(())
}

/// The variables with these numbers, and at the end the constant 1 where it is wanted.
fn inputs_from(
    alloc: Global,
    odd: &[usize],
    is_one_wanted: bool,
) -> Result<Shared<Term>, AllocError>
    ensures { IfOk result (λ inputs. inputs ≡ map variable_with odd.now ++ (if is_one_wanted then Constant (pos 1) ∷ [] else [])) }
{
    let mut inputs = Items::with_capacity(alloc, odd.len())?;
    for number in odd {
        inputs.push(Term::Variable(VarId(*number)))?;
    }
    if is_one_wanted {
        inputs.push(Term::Constant(1))?;
    }
    Shared::new(alloc, inputs)
}
