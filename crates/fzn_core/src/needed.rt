// The constraints of a file that others are derived from.
ghost use Rattle.std.specs.Prelude.{◌≡◌, ◌+◌, ◌≤◌, ◌<◌, ◌↔◌, ◌∷◌, [], ℕ, length, map, Contains, IfOk};
ghost use Rattle.std.specs.List.{filter, range_with_len};
ghost use Rattle.std.specs.List.Sorted.{IsStrictlyIncreasing};
ghost use Rattle.fzn_meaning.specs.Meaning.{longest};
ghost use Rattle.fzn_row.specs.Derived.{cited_by, all_cited};
ghost use Rattle.fzn_derive.specs.Derived.{cited};
ghost use Rattle.fzn_core.specs.Core.{IsNeeded};
ghost use Rattle.fzn_core.specs.Marks.{mark_at, AreMarksOf, HasMore};

use fzn_cited::Multiple;
use fzn_derive::Derivation;
use fzn_domain::Memory;
use fzn_row::RowItem;
use std::alloc::Global;

/// The numbers from 1 to `own` of the constraints that are needed for those with these numbers, in rising order, where the first of the
/// derivations gives the constraint behind number `own`. It answers `Err` where memory runs out.
pub fn needed_numbers(
    alloc: Global,
    own: usize,
    derivations: &[Derivation],
    numbers: &[u64],
) -> Result<Vec<u64>, Memory>
    requires few { own + length derivations.now ≤ longest }
    ensures needed { IfOk result (λ found. (number : ℕ) → Contains found.items number ↔ ((1 ≤ number) × (number ≤ own) × IsNeeded own derivations.now numbers.now number)) }
    ensures rising { IfOk result (λ found. IsStrictlyIncreasing found.items) }
{
    let marks = needed_marks(alloc, own, derivations, numbers)?;
    marked_numbers(alloc, own, marks.as_slice())
}

/// A mark at the number of each constraint that is needed for those with these numbers, where the first of the derivations gives the
/// constraint behind number `own`: the marks go from number 0 up to that of the last derived constraint. It answers `Err` where memory runs
/// out.
pub fn needed_marks(
    alloc: Global,
    own: usize,
    derivations: &[Derivation],
    numbers: &[u64],
) -> Result<Vec<bool>, Memory>
    requires few { own + length derivations.now ≤ longest }
    ensures len { IfOk result (λ marks. length marks.items ≡ own + length derivations.now + 1) }
    ensures needed { IfOk result (λ marks. AreMarksOf (IsNeeded own derivations.now numbers.now) marks.items) }
{
    let mut marks = Vec::from_elem(alloc, false, own + derivations.len() + 1)?;
    mark_all(&mut marks, numbers);
    let mut place = derivations.len();
    while place > 0 {
        place -= 1;
        if marks[own + place + 1] {
            mark_cited(&mut marks, &derivations[place]);
        }
    }
    Ok(marks)
}

/// The numbers from 1 to `own` that are marked.
fn marked_numbers(alloc: Global, own: usize, marks: &[bool]) -> Result<Vec<u64>, Memory>
    requires { own < length marks.now }
    ensures { IfOk result (λ numbers. numbers.items ≡ filter (mark_at marks.now) (range_with_len 1 own)) }
{
    let mut numbers = Vec::new(alloc);
    for before in 0..own {
        if marks[before + 1] {
            numbers.push(before as u64 + 1)?;
        }
    }
    Ok(numbers)
}

/// Marks the constraints that the derivation cites.
fn mark_cited(marks: &mut Vec<bool>, derivation: &Derivation)
    ensures { HasMore marks.old.items marks.new.items (cited derivation.now) }
{
    match derivation {
        Derivation::Sum(multiples) => mark_multiples(marks, multiples.as_slice()),
        Derivation::Parity(constraints) => mark_all(marks, constraints.as_slice()),
        Derivation::AllDifferent { constraints, .. } => mark_all(marks, constraints.as_slice()),
        Derivation::Row(items) => mark_items(marks, items.as_slice()),
    }
}

fn mark_items(marks: &mut Vec<bool>, items: &[RowItem])
    ensures { HasMore marks.old.items marks.new.items (all_cited items.now) }
{
    for item in items {
        mark_item(marks, item);
    }
}

/// Marks the constraints that the item of a row cites.
fn mark_item(marks: &mut Vec<bool>, item: &RowItem)
    ensures { HasMore marks.old.items marks.new.items (cited_by item.now) }
{
    match item {
        RowItem::Multiples(multiples) => mark_multiples(marks, multiples.as_slice()),
        RowItem::Prices { constraint, .. }
        | RowItem::Move { constraint, .. }
        | RowItem::Columns { constraint, .. }
        | RowItem::Rows { constraint, .. } => mark(marks, *constraint),
    }
}

fn mark_multiples(marks: &mut Vec<bool>, multiples: &[Multiple])
    ensures { HasMore marks.old.items marks.new.items (map (λ multiple. multiple.constraint) multiples.now) }
{
    for multiple in multiples {
        mark(marks, multiple.constraint);
    }
}

/// Marks these numbers, where there are marks for them.
fn mark_all(marks: &mut Vec<bool>, numbers: &[u64])
    ensures { HasMore marks.old.items marks.new.items numbers.now }
{
    for number in numbers {
        mark(marks, *number);
    }
}

fn mark(marks: &mut Vec<bool>, number: u64)
    ensures { HasMore marks.old.items marks.new.items (number ∷ []) }
{
    let place = number as usize;
    if place < marks.len() {
        marks[place] = true;
    }
}
