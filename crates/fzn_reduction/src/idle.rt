// Which steps' numbers are in use, and which are idle.
ghost use Rattle.std.specs.Prelude.{◌≡◌, ◌<◌, ℕ, length, IfOk, IsTrue, IsFalse};
ghost use Rattle.std.specs.List.{All, Contains};
ghost use Rattle.std.specs.List.Sorted.{IsNonDecreasing};
ghost use Rattle.fzn_cert.specs.Spelling.{IdsRise};
ghost use Rattle.fzn_clauses.specs.Watching.{held_by};
ghost use Rattle.fzn_reduction.specs.Deletion.{IsOfHeld, IsOfStacked, IsInUse};

use fzn_clauses::Clauses;
use fzn_domain::Memory;
use fzn_list::Items;
use fzn_propagator::Inferences;
use fzn_trail::ClauseId;
use std::alloc::Global;

/// How many steps are deleted at once at most: their numbers have room on a line.
const MOST: usize = 200_000;

/// The numbers of the steps that are in use, in rising order and perhaps some of them twice. `numbers` has the number of the step of each
/// clause, by the clause's own number. It answers `Err` where memory runs out.
pub fn numbers_in_use(
    alloc: Global,
    clauses: &Clauses,
    numbers: &[u64],
    inferences: &Inferences,
) -> Result<Vec<u64>, Memory>
    requires { length numbers.now ≡ length (held_by clauses.now) }
    ensures all { IfOk result (λ used. (n : ℕ) → IsInUse (held_by clauses.now) numbers.now inferences.now n → Contains used.items n) }
    ensures only { IfOk result (λ used. All (IsInUse (held_by clauses.now) numbers.now inferences.now) used.items) }
    ensures sorted { IfOk result (λ used. IsNonDecreasing used.items) }
{
    let mut used = numbers_of_held(alloc, clauses, numbers)?;
    let stacked = numbers_of_stacked(alloc, inferences)?;
    used.extend_from_slice(stacked.as_slice())?;
    used.sort_unstable();
    Ok(used)
}

/// The numbers of the steps that give the held clauses.
fn numbers_of_held(alloc: Global, clauses: &Clauses, numbers: &[u64]) -> Result<Vec<u64>, Memory>
    requires { length numbers.now ≡ length (held_by clauses.now) }
    ensures all { IfOk result (λ found. (n : ℕ) → IsOfHeld (held_by clauses.now) numbers.now n → Contains found.items n) }
    ensures only { IfOk result (λ found. All (IsOfHeld (held_by clauses.now) numbers.now) found.items) }
{
    let mut found = Vec::new(alloc);
    for i in 0..numbers.len() {
        if clauses.is_held(ClauseId(i as u64)) {
            found.push(numbers[i])?;
        }
    }
    Ok(found)
}

/// The numbers of the steps that give the inferences which stand.
fn numbers_of_stacked(alloc: Global, inferences: &Inferences) -> Result<Vec<u64>, Memory>
    ensures all { IfOk result (λ found. (n : ℕ) → IsOfStacked inferences.now n → Contains found.items n) }
    ensures only { IfOk result (λ found. All (IsOfStacked inferences.now) found.items) }
{
    let mut found = Vec::new(alloc);
    for place in 0..inferences.len() {
        if let Some(number) = inferences.get(place).number {
            found.push(number)?;
        }
    }
    Ok(found)
}

/// Those of the numbers that are not in use, in order, as many as have room on a line: at most 200,000. It answers `Err` where memory runs
/// out.
pub fn idle_among(alloc: Global, alive: &[u64], used: &[u64]) -> Result<Items<u64>, Memory>
    requires sorted { IsNonDecreasing used.now }
    ensures alive { IfOk result (λ ids. All (Contains alive.now) ids) }
    ensures idle { IfOk result (λ ids. All (λ n. Contains used.now n → ⊥) ids) }
    ensures rise { IfOk result (λ ids. IdsRise ids) }
{
    let mut ids = Items::new(alloc);
    let mut last = 0;
    for i in 0..alive.len() {
        let number = alive[i];
        if is_next(used, ids.len(), last, number) {
            ids.push(number)?;
            last = number;
        }
    }
    Ok(ids)
}

/// Whether the number goes behind so many idle ones, the last of which is given: it is above it and not in use, and there is room.
fn is_next(used: &[u64], count: usize, last: u64, number: u64) -> bool
    requires { IsNonDecreasing used.now }
    ensures above { IsTrue result → last < number }
    ensures idle { IsTrue result → Contains used.now number → ⊥ }
{
    count < MOST && last < number && !is_among(used, number)
}

/// Whether the number is among these, which stand in order.
pub fn is_among(numbers: &[u64], number: u64) -> bool
    requires { IsNonDecreasing numbers.now }
    ensures among { IsTrue result → Contains numbers.now number }
    ensures apart { IsFalse result → Contains numbers.now number → ⊥ }
{
    numbers.binary_search(&number).is_ok()
}
