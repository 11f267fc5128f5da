// Rows that have the same number at a place, each with the next of them.
ghost use Rattle.std.specs.Prelude.{◌≡◌, ◌≢◌, ℕ, ◌<◌, ◌≤◌, ℤ, List, length, slice_index_or, pos, IfOk, IfSome, IsTrue};
ghost use Rattle.fzn_values.specs.declared.term.Term.{Term};
ghost use Rattle.fzn_table.specs.Chains.{AreChained, IsChainedAt};
ghost use Rattle.fzn_table.specs.Supports.{number_at, IsWhole};

use fzn_domain::Memory;
use std::alloc::Global;

/// Of the rows of a table at one place: where those are that have the same number there.
#[derive(Debug, Drop)]
pub(crate) struct Chains {
    /// The numbers that some row has there, rising.
    numbers: Vec<i64>,
    /// For each of these the first row that has it.
    firsts: Vec<usize>,
    /// For each row the next that has the same number, or how many rows there are.
    nexts: Vec<usize>,
}

impl Chains {
    /// Of rows that have these numbers at the place. `Err` where memory runs out.
    pub(crate) fn new(alloc: Global, column: &[i64]) -> Result<Chains, Memory>
        ensures { IfOk result (λ chains. AreChained column.now chains) }
    {
        let numbers = distinct(alloc, column)?;
        let firsts = Vec::from_elem(alloc, column.len(), numbers.len())?;
        let nexts = Vec::from_elem(alloc, 0, column.len())?;
        let mut chains = Chains {
            numbers,
            firsts,
            nexts,
        };
        if !chains.link(column) {
            return Ok(Chains::unknown(alloc)); // Not reached: each number is listed once.
        }
        Ok(chains)
    }

    /// Where nothing is known of any row.
    fn unknown(alloc: Global) -> Chains
        ensures { (column : List ℤ) → AreChained column result }
    {
        Chains {
            numbers: Vec::new(alloc),
            firsts: Vec::new(alloc),
            nexts: Vec::new(alloc),
        }
    }

    /// Notes the first row of each number and the next of each row, from the last row back. `false` where a number is not listed, or twice.
    fn link(&mut self, column: &[i64]) -> bool
        requires firsts { length self.old.firsts.items ≡ length self.old.numbers.items }
        requires nexts { length self.old.nexts.items ≡ length column.now }
        requires none { (i : ℕ) → slice_index_or self.old.firsts.items i 0 ≤ length column.now }
        ensures { IsTrue result → AreChained column.now self.new }
    {
        if !are_rising(self.numbers.as_slice()) {
            return false;
        }
        for step in 0..column.len() {
            let row = column.len() - 1 - step;
            let Some(i) = place_of(self.numbers.as_slice(), &column[row]) else {
                return false;
            };
            self.nexts[row] = self.firsts[i];
            self.firsts[i] = row;
        }
        true
    }

    /// The numbers that some row has there, rising.
    pub(crate) fn numbers(&self) -> &[i64] {
        self.numbers.as_slice()
    }

    /// A row before which none has the number: the first that has it, where one does.
    pub(crate) fn first(&self, number: &i64) -> usize
        ensures { (places : List Term) (rows : List ℤ) (p : ℕ) → IsChainedAt places rows p self.now → (r : ℕ) → r < result → IsWhole places rows r → number_at places rows r p ≢ number.now }
    {
        match place_of(self.numbers.as_slice(), number) {
            Some(i) if i < self.firsts.len() => self.firsts[i],
            _ => 0,
        }
    }

    /// The next row that has the same number as this one; where there is none, or none is known, some row behind it.
    pub(crate) fn next(&self, row: usize) -> usize
        requires { row < usize.MAX }
        ensures behind { row < result }
        ensures between { (places : List Term) (rows : List ℤ) (p : ℕ) → IsChainedAt places rows p self.now → (r : ℕ) → row < r → r < result → IsWhole places rows row → IsWhole places rows r → number_at places rows r p ≢ number_at places rows row p }
    {
        if row < self.nexts.len() {
            let next = self.nexts[row];
            if row < next {
                return next;
            }
        }
        row + 1
    }
}

/// These numbers, each once, rising: told by marks where they lie close together, else sorted.
fn distinct(alloc: Global, column: &[i64]) -> Result<Vec<i64>, Memory> {
    let (low, span) = spread(column);
    if span / 4 <= column.len() {
        return marked(alloc, column, low, span);
    }
    let mut numbers = Vec::from_slice(alloc, column)?;
    numbers.sort()?;
    numbers.dedup();
    Ok(numbers)
}

/// The least of these numbers, and how many numbers there are from it to the greatest.
fn spread(column: &[i64]) -> (i64, usize) {
    let mut low = i64::MAX;
    let mut high = i64::MIN;
    for number in column {
        low = low.min(*number);
        high = high.max(*number);
    }
    let span = high.saturating_sub(low).saturating_add(1);
    (low, usize::try_from(span).unwrap_or(0))
}

/// These numbers, each once, rising, where they are among so many from the least on.
fn marked(alloc: Global, column: &[i64], low: i64, span: usize) -> Result<Vec<i64>, Memory> {
    let mut marks = Vec::from_elem(alloc, false, span)?;
    for number in column {
        if let Ok(k) = usize::try_from(number.saturating_sub(low))
            && k < marks.len()
        {
            marks[k] = true;
        }
    }
    let mut numbers = Vec::new(alloc);
    let mut number = low;
    for k in 0..marks.len() {
        if marks[k] {
            numbers.push(number)?;
        }
        number = number.saturating_add(1);
    }
    Ok(numbers)
}

/// Whether each number is greater than the one before it.
fn are_rising(numbers: &[i64]) -> bool
    ensures { IsTrue result → (i j : ℕ) → i < j → j < length numbers.now → slice_index_or numbers.now i (pos 0) ≢ slice_index_or numbers.now j (pos 0) }
{
    for k in 1..numbers.len() {
        if numbers[k] <= numbers[k - 1] {
            return false;
        }
    }
    true
}

/// The place of the number among these, which rise: by its distance from the first, where no number is left out, or else by halves.
#[inline(always)]
fn place_of(numbers: &[i64], number: &i64) -> Option<usize>
    ensures { IfSome result (λ i. (i < length numbers.now) × (slice_index_or numbers.now i (pos 0) ≡ number.now)) }
{
    let first = *numbers.first()?;
    let near = usize::try_from(number.saturating_sub(first)).unwrap_or(0);
    if near < numbers.len() && numbers[near] == *number {
        return Some(near);
    }
    let at = numbers.partition_point(|it| *it < *number);
    if at < numbers.len() && numbers[at] == *number {
        Some(at)
    } else {
        None
    }
}
