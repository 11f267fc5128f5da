// What the values of a choice give together.
ghost use Rattle.std.specs.Prelude.{◌≡◌, ◌↔◌, ◌*◌, ◌<◌, ◌≤◌, ◌*ℤ◌, ℤ, pos, false, length, map, slice_index_or, unsigned_abs};
ghost use Rattle.std.specs.List.{All, count_by};
ghost use Rattle.std.specs.Ordering.{int_eq};
ghost use Rattle.fzn_domain.specs.Limits.{IsInLimits};
ghost use Rattle.fzn_domain.specs.Narrow.{is_some_empty};
ghost use Rattle.fzn_values.specs.Term.{IsTerm, IsPlace};
ghost use Rattle.fzn_meaning.specs.Extrema.{IsExtremum};
ghost use Rattle.fzn_builtin_rules.specs.Choices.{weighted_sum};
ghost use Rattle.fzn_builtin_rules.specs.Numbered.{value_in, choice_at, rest_after, further};

use crate::numbered::{rest_in, value_in};
use fzn_meaning::{Extreme, Sum};
use fzn_sets::Sets;
use fzn_values::{Place, Term};

/// How many of the terms have this value.
pub(crate) fn count_value(sets: &Sets, terms: &[Term], number: usize, wanted: &i64) -> usize
    requires terms { All (IsTerm (length sets.now.present)) terms.now }
    requires nonempty { is_some_empty sets.now.present ≡ false }
    ensures { result ≡ count_by (λ x. int_eq x wanted.now) (choice_at sets.now.present terms.now number) }
{
    let mut count = 0;
    let mut left = number;
    for term in terms {
        if value_in(sets, *term, left) == *wanted {
            count += 1;
        }
        left = rest_in(sets, *term, left);
    }
    count
}

/// What of the choice's number is left behind the terms.
pub(crate) fn rest_after(sets: &Sets, terms: &[Term], number: usize) -> usize
    requires terms { All (IsTerm (length sets.now.present)) terms.now }
    requires nonempty { is_some_empty sets.now.present ≡ false }
    ensures { result ≡ rest_after sets.now.present terms.now number }
{
    let mut left = number;
    for term in terms {
        left = rest_in(sets, *term, left);
    }
    left
}

/// The sum of the coefficients times the values of their terms.
pub(crate) fn weighted_sum(sets: &Sets, places: &Sum, number: usize) -> i128
    requires places { All (IsPlace (length sets.now.present)) places.now }
    requires short { length places.now ≤ 100000 }
    requires nonempty { is_some_empty sets.now.present ≡ false }
    ensures { result ≡ weighted_sum places.now (choice_at sets.now.present (map (λ place. place.term) places.now) number) }
{
    let mut sum: i128 = 0;
    let mut left = number;
    for i in 0..places.len() {
        let place = places.place(i);
        sum += product_in(sets, place, left);
        left = rest_in(sets, place.term, left);
    }
    sum
}

/// The coefficient times the value of the term.
fn product_in(sets: &Sets, place: Place, number: usize) -> i128
    requires place { IsPlace (length sets.now.present) place }
    requires nonempty { is_some_empty sets.now.present ≡ false }
    ensures value { result ≡ place.coefficient *ℤ value_in sets.now.present place.term number }
    ensures bounded { unsigned_abs result ≤ 1000000000000000000 }
{
    place.coefficient as i128 * value_in(sets, place.term, number) as i128
}

/// The value of the entry at a place, counted from 0.
pub(crate) fn entry_in(sets: &Sets, entries: &[Term], number: usize, place: usize) -> i64
    requires entries { All (IsTerm (length sets.now.present)) entries.now }
    requires place { place < length entries.now }
    requires nonempty { is_some_empty sets.now.present ≡ false }
    ensures value { result ≡ slice_index_or (choice_at sets.now.present entries.now number) place (pos 0) }
    ensures in_limits { IsInLimits result }
{
    let mut left = number;
    for k in 0..place {
        left = rest_in(sets, entries[k], left);
    }
    value_in(sets, entries[place], left)
}

/// The least or the greatest value of the entries.
pub(crate) fn extreme_in(sets: &Sets, extreme: Extreme, entries: &[Term], number: usize) -> i64
    requires entries { All (IsTerm (length sets.now.present)) entries.now }
    requires some { 0 < length entries.now }
    requires nonempty { is_some_empty sets.now.present ≡ false }
    ensures { (x : ℤ) → IsExtremum extreme (choice_at sets.now.present entries.now number) x ↔ (result ≡ x) }
{
    let mut best = value_in(sets, entries[0], number);
    let mut left = rest_in(sets, entries[0], number);
    for k in 1..entries.len() {
        let value = value_in(sets, entries[k], left);
        left = rest_in(sets, entries[k], left);
        best = further(extreme, &best, &value);
    }
    best
}

/// The lesser or the greater of two numbers.
fn further(extreme: Extreme, first: &i64, second: &i64) -> i64
    ensures { result ≡ further extreme first.now second.now }
{
    match extreme {
        Extreme::Least => if *second < *first { *second } else { *first },
        Extreme::Greatest => if *first < *second { *second } else { *first },
    }
}
