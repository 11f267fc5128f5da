// Which values of the result make a constraint hold, where its inputs have these values.
ghost use Rattle.std.specs.Prelude.{◌≡◌, ◌↔◌, ◌<◌, ℕ, ℤ, pos, IsTrue, IfSome, Some, None, MatchOption, length, slice_index_or};
ghost use Rattle.std.specs.List.{All, count_by};
ghost use Rattle.std.specs.Ordering.{int_eq};
ghost use Rattle.fzn_domain.specs.Limits.{IsInLimits};
ghost use Rattle.fzn_meaning.specs.Arithmetic.{IsArithmetic, IsIntAbs};
ghost use Rattle.fzn_meaning.specs.Booleans.{IsArrayBoolXor};
ghost use Rattle.fzn_meaning.specs.Elements.{IsElement};
ghost use Rattle.fzn_meaning.specs.Extrema.{Bounds, IsExtremum};
ghost use Rattle.fzn_meaning.specs.Sets.{IsInSet};
ghost use Rattle.fzn_builtin_rules.specs.Numbered.{IsOneOfTwo};
ghost use Rattle.fzn_builtin_rules.specs.Choices.{inputs_of};
ghost use Rattle.fzn_builtin_rules.specs.Form.{form_of};
ghost use Rattle.fzn_fixed.specs.Image.{Admits, IsImage};

use fzn_domain::Domain;
use fzn_meaning::{Constraint, Extreme, Operation};
use fzn_values::Term;

/// The values of the result that make a constraint hold.
#[derive(Clone, Copy, Debug, PartialEq, Eq)]
pub enum Image {
    /// The constraint has no result, and holds.
    Holds,
    /// No value.
    Fails,
    /// This value alone.
    Only(i64),
    /// Each value but this one.
    AllBut(i64),
}

/// The image of the constraint where its inputs have these values, in order.
#[tactic(auto, unfolding(fzn_builtin_rules::specs::Choices::inputs_of, fzn_builtin_rules::specs::Choices::result_of, fzn_builtin_rules::specs::Choices::Relates, fzn_builtin_rules::specs::Form::form_of))]
pub fn image_of(constraint: &Constraint, values: &[i64]) -> Image
    requires inputs { IfSome (inputs_of constraint.now) (λ inputs. length inputs ≡ length values.now) }
    requires values { All IsInLimits values.now }
    requires other { form_of constraint.now ≡ None }
    ensures { IsImage constraint.now values.now result }
{
    match constraint {
        Constraint::Arithmetic { operation, .. } => {
            of_operation(*operation, &values[0], &values[1])
        },
        Constraint::IntAbs { .. } => of_absolute(&values[0]),
        Constraint::Extremum { extreme, .. } => of_entries(*extreme, values),
        Constraint::Element { .. } => of_index(&values[0], &values[1..]),
        Constraint::SetIn { set, switch, .. } => {
            switched_where(*switch, is_member(set, &values[0]))
        }
        Constraint::BoolXor { .. } => { one_where(is_one_of_two(&values[0], &values[1])) },
        Constraint::ArrayBoolXor { .. } => holds_where(is_odd(values)),
        _ => Image::Fails, // Not reached: the others are sums, or the five globals.
    }
}

/// Without a result.
fn holds_where(holds: bool) -> Image
    ensures { IsTrue holds ↔ Admits result None }
{
    if holds { Image::Holds } else { Image::Fails }
}

/// With a result that is 1 exactly there.
fn one_where(holds: bool) -> Image
    ensures { (r : ℤ) → ((r ≡ pos 1) ↔ IsTrue holds) ↔ Admits result (Some r) }
{
    if holds {
        Image::Only(1)
    } else {
        Image::AllBut(1)
    }
}

/// With a switch, or without.
fn switched_where(switch: Option<Term>, holds: bool) -> Image
    ensures { MatchOption switch (IsTrue holds ↔ Admits result None) (λ _. (r : ℤ) → ((r ≡ pos 1) ↔ IsTrue holds) ↔ Admits result (Some r)) }
{
    match switch {
        None => holds_where(holds),
        Some(_) => one_where(holds),
    }
}

/// The result of the operation on two numbers within the limits of a value. `Fails` where the second is 0 and divides.
pub fn of_operation(operation: Operation, left: &i64, right: &i64) -> Image
    requires left { IsInLimits left.now }
    requires right { IsInLimits right.now }
    ensures { (r : ℤ) → IsArithmetic operation left.now right.now r ↔ Admits result (Some r) }
{
    match fzn_builtin_rules::outcome_of(operation, left, right) {
        Some(value) => Image::Only(value),
        None => Image::Fails,
    }
}

fn of_absolute(value: &i64) -> Image
    requires { IsInLimits value.now }
    ensures { (r : ℤ) → IsIntAbs value.now r ↔ Admits result (Some r) }
{
    Image::Only((*value).abs())
}

fn is_member(set: &Domain, value: &i64) -> bool
    ensures { IsTrue result ↔ IsInSet value.now set.now }
{
    set.contains(*value)
}

/// Whether one of the two is 1 and the other is not.
fn is_one_of_two(one: &i64, other: &i64) -> bool
    ensures { IsTrue result ↔ IsOneOfTwo one.now other.now }
{
    (*one == 1) != (*other == 1)
}

/// The least or the greatest entry.
fn of_entries(extreme: Extreme, entries: &[i64]) -> Image
    ensures { (r : ℤ) → IsExtremum extreme entries.now r ↔ Admits result (Some r) }
{
    if entries.is_empty() {
        return Image::Fails;
    }
    Image::Only(entries[place_of(extreme, entries)])
}

/// The place of the least or the greatest entry.
fn place_of(extreme: Extreme, entries: &[i64]) -> usize
    requires { 0 < length entries.now }
    ensures inside { result < length entries.now }
    ensures bounds { (k : ℕ) → k < length entries.now → Bounds extreme (slice_index_or entries.now result (pos 0)) (slice_index_or entries.now k (pos 0)) }
{
    let mut best = 0;
    for i in 0..entries.len() {
        if !bounds(extreme, &entries[best], &entries[i]) {
            best = i;
        }
    }
    best
}

fn bounds(extreme: Extreme, value: &i64, entry: &i64) -> bool
    ensures { IsTrue result ↔ Bounds extreme value.now entry.now }
{
    match extreme {
        Extreme::Least => *value <= *entry,
        Extreme::Greatest => *entry <= *value,
    }
}

/// The entry at the index, from 1.
fn of_index(index: &i64, entries: &[i64]) -> Image
    ensures { (r : ℤ) → IsElement index.now entries.now r ↔ Admits result (Some r) }
{
    if *index < 1 || *index as i128 > entries.len() as i128 {
        return Image::Fails;
    }
    Image::Only(entries[*index as usize - 1])
}

/// Whether an odd number are 1.
fn is_odd(values: &[i64]) -> bool
    ensures { IsTrue result ↔ IsArrayBoolXor values.now }
{
    count_ones(values) % 2 == 1
}

fn count_ones(values: &[i64]) -> usize
    ensures { result ≡ count_by (λ x. int_eq x (pos 1)) values.now }
{
    values.iter().filter(|x| **x == 1).count()
}
