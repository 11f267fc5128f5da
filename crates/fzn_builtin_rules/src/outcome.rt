// Whether one choice of values for the inputs leaves a value for the result.
ghost use Rattle.std.specs.Prelude.{◌≡◌, ◌≢◌, ◌↔◌, ◌+◌, ◌≤ℤ◌, ◌*◌, ◌<◌, ◌≤◌, ℤ, pos, IsTrue, false, length, Some, MatchOption, take, drop, ◌++◌};
ghost use Rattle.std.specs.List.{All, Any};
ghost use Rattle.fzn_domain.specs.IntSet.{contains};
ghost use Rattle.fzn_domain.specs.Limits.{IsInLimits};
ghost use Rattle.fzn_domain.specs.Narrow.{is_some_empty};
ghost use Rattle.fzn_values.specs.Term.{IsTerm};
ghost use Rattle.fzn_meaning.specs.Comparisons.{IsRelated, IsSwitched};
ghost use Rattle.fzn_meaning.specs.Linear.{IsLinear};
ghost use Rattle.fzn_meaning.specs.Arithmetic.{IsArithmetic};
ghost use Rattle.fzn_meaning.specs.Extrema.{IsExtremum};
ghost use Rattle.fzn_meaning.specs.Elements.{IsElement};
ghost use Rattle.fzn_meaning.specs.Booleans.{Passes, IsBoolClause};
ghost use Rattle.fzn_meaning.specs.Meaning.{IsWellFormedConstraint, IsSwitch};
ghost use Rattle.fzn_sets.specs.Terms.{MayBe};
ghost use Rattle.fzn_builtin_rules.specs.Choices.{NoneOf};
ghost use Rattle.fzn_builtin_rules.specs.Numbered.{value_in, rest_in, choice_at, IsOneOfTwo, FailsAt};

use crate::chosen::{count_value, entry_in, extreme_in, rest_after, weighted_sum};
use crate::numbered::{rest_in, value_in};
use fzn_meaning::{Comparison, Constraint, Extreme, Gate, Operation, Relation};
use fzn_sets::{Sets, greatest_value, is_fixed_to, is_index, least_value, may_be};
use fzn_values::Term;

/// Whether the choice with this number fits no value of the result.
#[tactic(auto, unfolding(crate::specs::Choices::inputs_of, crate::specs::Choices::result_of, crate::specs::Choices::Relates, fzn_meaning::specs::Meaning::IsWellFormedConstraint))]
pub(crate) fn fails_at(constraint: &Constraint, sets: &Sets, number: usize) -> bool
    requires constraint { IsWellFormedConstraint (length sets.now.present) constraint.now }
    requires nonempty { is_some_empty sets.now.present ≡ false }
    ensures { IsTrue result ↔ FailsAt constraint.now sets.now.present number }
{
    match constraint {
        Constraint::Compare {
            relation,
            left,
            right,
            switch,
        } => { compare_fails(sets, *relation, *left, *right, *switch, number) }
        Constraint::BoolNot { left, right } => !differ(sets, *left, *right, number),
        Constraint::BoolToInt { boolean, integer } => {
            !may_be(sets, *integer, &value_in(sets, *boolean, number))
        }
        Constraint::Arithmetic {
            operation,
            left,
            right,
            result,
        } => { arithmetic_fails(sets, *operation, *left, *right, *result, number) }
        Constraint::IntAbs { of, result } => {
            !may_be(sets, *result, &value_in(sets, *of, number).abs())
        }
        Constraint::SetIn { term, set, switch } => {
            switch_fails(sets, *switch, set.contains(value_in(sets, *term, number)))
        }
        Constraint::Linear {
            sum,
            comparison,
            bound,
            switch,
        } => {
            let value = weighted_sum(sets, sum, number);
            switch_fails(sets, *switch, compares(*comparison, &value, bound))
        }
        Constraint::BoolLinEq { sum, total } => {
            !may_be_wide(sets, *total, &weighted_sum(sets, sum, number))
        }
        Constraint::Extremum {
            extreme,
            entries,
            result,
        } => { extremum_fails(sets, *extreme, entries.as_slice(), *result, number) }
        Constraint::Element {
            index,
            entries,
            value,
        } => { element_fails(sets, *index, entries.as_slice(), *value, number) }
        Constraint::Gated {
            gate,
            inputs,
            result,
        } => { gate_fails(sets, *gate, inputs.as_slice(), *result, number) }
        Constraint::BoolXor {
            left,
            right,
            result,
        } => { result_fails(sets, *result, is_one_of_two(sets, *left, *right, number)) }
        Constraint::ArrayBoolXor { inputs } => {
            count_value(sets, inputs.as_slice(), number, &1) % 2 != 1
        }
        Constraint::BoolClause { positive, negative } => {
            clause_fails(sets, positive.as_slice(), negative.as_slice(), number)
        }
        _ => true,
    }
}

/// Whether no value of the switch goes with the constraint without it, which holds or does not. Without a switch it has to hold.
fn switch_fails(sets: &Sets, switch: Option<Term>, holds: bool) -> bool
    requires switch { IsSwitch (length sets.now.present) switch }
    requires nonempty { is_some_empty sets.now.present ≡ false }
    ensures { IsTrue result ↔ NoneOf sets.now.present switch (λ value. IsSwitched value (IsTrue holds)) }
{
    match switch {
        None => !holds,
        Some(term) => result_fails(sets, term, holds),
    }
}

/// Whether no value of the term is 1 exactly where it has to be.
fn result_fails(sets: &Sets, term: Term, holds: bool) -> bool
    requires term { IsTerm (length sets.now.present) term }
    requires nonempty { is_some_empty sets.now.present ≡ false }
    ensures { IsTrue result ↔ NoneOf sets.now.present (Some term) (λ value. IsSwitched value (IsTrue holds)) }
{
    if holds {
        !may_be(sets, term, &1)
    } else {
        is_fixed_to(sets, term, 1)
    }
}

fn compare_fails(
    sets: &Sets,
    relation: Relation,
    left: Term,
    right: Term,
    switch: Option<Term>,
    number: usize,
) -> bool
    requires left { IsTerm (length sets.now.present) left }
    requires right { IsTerm (length sets.now.present) right }
    requires switch { IsSwitch (length sets.now.present) switch }
    requires nonempty { is_some_empty sets.now.present ≡ false }
    ensures { IsTrue result ↔ NoneOf sets.now.present switch (λ value. IsSwitched value (IsRelated relation (value_in sets.now.present left number) (value_in sets.now.present right (rest_in sets.now.present left number)))) }
{
    let first = value_in(sets, left, number);
    let second = value_in(sets, right, rest_in(sets, left, number));
    switch_fails(sets, switch, is_related(relation, &first, &second))
}

fn is_related(relation: Relation, left: &i64, right: &i64) -> bool
    ensures { IsTrue result ↔ IsRelated relation left.now right.now }
{
    match relation {
        Relation::Equal => *left == *right,
        Relation::NotEqual => *left != *right,
        Relation::AtMost => *left <= *right,
        Relation::Below => *left < *right,
    }
}

/// Whether the values of the two terms differ.
fn differ(sets: &Sets, left: Term, right: Term, number: usize) -> bool
    requires left { IsTerm (length sets.now.present) left }
    requires right { IsTerm (length sets.now.present) right }
    requires nonempty { is_some_empty sets.now.present ≡ false }
    ensures { IsTrue result ↔ (value_in sets.now.present left number ≢ value_in sets.now.present right (rest_in sets.now.present left number)) }
{
    let first = value_in(sets, left, number);
    let second = value_in(sets, right, rest_in(sets, left, number));
    first != second
}

fn arithmetic_fails(
    sets: &Sets,
    operation: Operation,
    left: Term,
    right: Term,
    of: Term,
    number: usize,
) -> bool
    requires left { IsTerm (length sets.now.present) left }
    requires right { IsTerm (length sets.now.present) right }
    requires of { IsTerm (length sets.now.present) of }
    requires nonempty { is_some_empty sets.now.present ≡ false }
    ensures { IsTrue result ↔ ((value : ℤ) → MayBe sets.now.present of value → IsArithmetic operation (value_in sets.now.present left number) (value_in sets.now.present right (rest_in sets.now.present left number)) value → ⊥) }
{
    let first = value_in(sets, left, number);
    let second = value_in(sets, right, rest_in(sets, left, number));
    match outcome_of(operation, &first, &second) {
        Some(value) => !may_be(sets, of, &value),
        None => true,
    }
}

/// The result of the operation on two numbers within the limits of a value, rounded towards 0, and nothing where the second is 0 and
/// divides.
pub fn outcome_of(operation: Operation, left: &i64, right: &i64) -> Option<i64>
    requires left { IsInLimits left.now }
    requires right { IsInLimits right.now }
    ensures { MatchOption result ((value : ℤ) → IsArithmetic operation left.now right.now value → ⊥) (λ found. (value : ℤ) → IsArithmetic operation left.now right.now value ↔ (found ≡ value)) }
{
    match operation {
        Operation::Plus => Some(*left + *right),
        Operation::Times => Some(*left * *right),
        Operation::Quotient if *right != 0 => Some(*left / *right),
        Operation::Remainder if *right != 0 => Some(*left % *right),
        _ => None,
    }
}

fn compares(comparison: Comparison, sum: &i128, bound: &i64) -> bool
    ensures { IsTrue result ↔ IsLinear comparison sum.now bound.now }
{
    let bound = *bound as i128;
    match comparison {
        Comparison::AtMost => *sum <= bound,
        Comparison::Equal => *sum == bound,
        Comparison::NotEqual => *sum != bound,
    }
}

/// Whether the number, however large, is in the set of the term.
fn may_be_wide(sets: &Sets, term: Term, value: &i128) -> bool
    requires term { IsTerm (length sets.now.present) term }
    requires nonempty { is_some_empty sets.now.present ≡ false }
    ensures { IsTrue result ↔ MayBe sets.now.present term value.now }
{
    if *value < least_value(sets, term) as i128 {
        return false;
    }
    if *value > greatest_value(sets, term) as i128 {
        return false;
    }
    may_be(sets, term, &narrow(value))
}

fn narrow(value: &i128) -> i64
    requires { IsInLimits value.now }
    ensures { result ≡ value.now }
{
    *value as i64
}

fn element_fails(sets: &Sets, index: Term, entries: &[Term], of: Term, number: usize) -> bool
    requires index { IsTerm (length sets.now.present) index }
    requires entries { All (IsTerm (length sets.now.present)) entries.now }
    requires of { IsTerm (length sets.now.present) of }
    requires nonempty { is_some_empty sets.now.present ≡ false }
    ensures { IsTrue result ↔ ((value : ℤ) → MayBe sets.now.present of value → IsElement (value_in sets.now.present index number) (choice_at sets.now.present entries.now (rest_in sets.now.present index number)) value → ⊥) }
{
    let place = value_in(sets, index, number);
    if !is_index(entries.len(), &place) {
        return true;
    }
    let rest = rest_in(sets, index, number);
    !may_be(sets, of, &entry_in(sets, entries, rest, place_of(&place)))
}

/// The place, counted from 0, of an index from 1.
fn place_of(index: &i64) -> usize
    requires { pos 1 ≤ℤ index.now }
    ensures { pos (result + 1) ≡ index.now }
{
    *index as usize - 1
}

fn extremum_fails(sets: &Sets, extreme: Extreme, entries: &[Term], of: Term, number: usize) -> bool
    requires entries { All (IsTerm (length sets.now.present)) entries.now }
    requires some { 0 < length entries.now }
    requires of { IsTerm (length sets.now.present) of }
    requires nonempty { is_some_empty sets.now.present ≡ false }
    ensures { IsTrue result ↔ ((value : ℤ) → MayBe sets.now.present of value → IsExtremum extreme (choice_at sets.now.present entries.now number) value → ⊥) }
{
    !may_be(sets, of, &extreme_in(sets, extreme, entries, number))
}

fn gate_fails(sets: &Sets, gate: Gate, inputs: &[Term], of: Term, number: usize) -> bool
    requires inputs { All (IsTerm (length sets.now.present)) inputs.now }
    requires of { IsTerm (length sets.now.present) of }
    requires nonempty { is_some_empty sets.now.present ≡ false }
    ensures { IsTrue result ↔ NoneOf sets.now.present (Some of) (λ value. IsSwitched value (Passes gate (choice_at sets.now.present inputs.now number))) }
{
    result_fails(sets, of, passes(sets, gate, inputs, number))
}

/// Whether the values of the inputs make the gate give 1.
fn passes(sets: &Sets, gate: Gate, inputs: &[Term], number: usize) -> bool
    requires inputs { All (IsTerm (length sets.now.present)) inputs.now }
    requires nonempty { is_some_empty sets.now.present ≡ false }
    ensures { IsTrue result ↔ Passes gate (choice_at sets.now.present inputs.now number) }
{
    let ones = count_value(sets, inputs, number, &1);
    match gate {
        Gate::And => ones == inputs.len(),
        Gate::Or => ones > 0,
    }
}

/// Whether one of the two values is 1 and the other is not.
fn is_one_of_two(sets: &Sets, left: Term, right: Term, number: usize) -> bool
    requires left { IsTerm (length sets.now.present) left }
    requires right { IsTerm (length sets.now.present) right }
    requires nonempty { is_some_empty sets.now.present ≡ false }
    ensures { IsTrue result ↔ IsOneOfTwo (value_in sets.now.present left number) (value_in sets.now.present right (rest_in sets.now.present left number)) }
{
    let first = value_in(sets, left, number);
    let second = value_in(sets, right, rest_in(sets, left, number));
    (first == 1) != (second == 1)
}

/// Whether no positive value is 1 and no negative one is 0.
fn clause_fails(sets: &Sets, positive: &[Term], negative: &[Term], number: usize) -> bool
    requires positive { All (IsTerm (length sets.now.present)) positive.now }
    requires negative { All (IsTerm (length sets.now.present)) negative.now }
    requires nonempty { is_some_empty sets.now.present ≡ false }
    ensures { IsTrue result ↔ (IsBoolClause (take (length positive.now) (choice_at sets.now.present (positive.now ++ negative.now) number)) (drop (length positive.now) (choice_at sets.now.present (positive.now ++ negative.now) number)) → ⊥) }
{
    let rest = rest_after(sets, positive, number);
    count_value(sets, positive, number, &1) == 0 && count_value(sets, negative, rest, &0) == 0
}
