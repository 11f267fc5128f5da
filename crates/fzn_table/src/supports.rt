// The rows of a table that have a value at a place. They take memory by the numbers of the table, however many values a place has.
ghost use Rattle.std.specs.Prelude.{◌≡◌, ◌≢◌, ℕ, ◌<◌, ℤ, List, length, IfOk};
ghost use Rattle.std.specs.List.{All};
ghost use Rattle.fzn_values.specs.declared.term.Term.{Term};
ghost use Rattle.fzn_values.specs.Term.{IsTerm, numbers_in};
ghost use Rattle.fzn_table.specs.Chains.{IsColumn, IsChainedAt, AreAllChained};
ghost use Rattle.fzn_table.specs.Supports.{number_at, IsWhole};

use crate::chains::Chains;
use crate::words::first_common;
use fzn_domain::{Memory, Op};
use fzn_terms::{Interval, may_be, next_value};
use fzn_trail::Trail;
use fzn_values::Term;
use std::alloc::Global;

/// A value that some row has at the place.
#[derive(Clone, Copy, Debug)]
struct Entry {
    place: usize,
    value: i64,
    rows: RowSet,
}

/// Where the rows of an entry stand.
#[derive(Clone, Copy, Debug)]
enum RowSet {
    /// One bit a row, from this word on.
    Bits { start: usize },
    /// Their numbers, from one place of the list up to another: there are fewer than a set of bits has words.
    Listed { start: usize, end: usize },
}

/// So many entries are few. Where a place has more, the rows that are possible are told by the other places first; and for its next value
/// so many entries are gone over one by one, before those rows are.
const FEW_ENTRIES: usize = 64;

/// The values of each place, and the rows that have each. Which rows these are is open but for the chains: each is looked at again before it
/// counts.
#[derive(Debug, Drop)]
pub(crate) struct Supports {
    /// How many rows there are.
    count: usize,
    /// How many words a set of bits takes.
    width: usize,
    /// By their places, and those of one place by their values.
    entries: Vec<Entry>,
    /// Where the entries of each place begin.
    starts: Vec<usize>,
    /// The sets of bits, one after the other.
    words: Vec<u64>,
    /// The rows that are listed, those of one entry after those of the other.
    listed: Vec<usize>,
    /// Of each place the rows that have the same number there.
    chains: Vec<Chains>,
}

impl Supports {
    /// Made once: of a table's rows, each as long as there are places. `Err` where memory runs out.
    pub(crate) fn new(alloc: Global, places: &[Term], rows: &[Term]) -> Result<Supports, Memory>
        ensures { IfOk result (λ supports. AreAllChained places.now (numbers_in rows.now) supports.chains.items) }
    {
        let chains = chains_of(alloc, places, rows)?;
        let count = rows.len().checked_div(places.len()).unwrap_or(0);
        let mut supports = Supports::without_chains(alloc, chains.as_slice(), count)?;
        supports.chains = chains;
        Ok(supports)
    }

    /// The same, where the rows of each entry are found by these chains, which are not kept.
    fn without_chains(alloc: Global, chains: &[Chains], count: usize) -> Result<Supports, Memory> {
        let mut supports = Supports {
            count,
            width: count / 64 + 1,
            entries: Vec::new(alloc),
            starts: Vec::with_capacity(alloc, chains.len())?,
            words: Vec::new(alloc),
            listed: Vec::new(alloc),
            chains: Vec::new(alloc),
        };
        for place in 0..chains.len() {
            supports.starts.push(supports.entries.len())?;
            supports.add_entries(place, &chains[place])?;
        }
        Ok(supports)
    }

    /// Adds an entry for each value that some row has at the place.
    fn add_entries(&mut self, place: usize, chains: &Chains) -> Result<(), Memory> {
        for value in chains.numbers() {
            let rows = self.add_rows_of(chains, value)?;
            self.entries.push(Entry {
                place,
                value: *value,
                rows,
            })?;
        }
        Ok(())
    }

    /// Adds the rows that have the value: lists them, and where they are many, makes them a set of bits.
    fn add_rows_of(&mut self, chains: &Chains, value: &i64) -> Result<RowSet, Memory> {
        let start = self.listed.len();
        let mut row = chains.first(value);
        for _ in 1..self.width {
            if row >= self.count {
                break;
            }
            self.listed.push(row)?;
            row = chains.next(row);
        }
        if row < self.count {
            self.listed.truncate(start);
            return self.add_bits(chains, value);
        }
        Ok(RowSet::Listed {
            start,
            end: self.listed.len(),
        })
    }

    fn add_bits(&mut self, chains: &Chains, value: &i64) -> Result<RowSet, Memory> {
        let start = self.words.len();
        self.words.resize(start.saturating_add(self.width), 0)?;
        set_rows(&mut self.words[start..], chains, value, self.count);
        Ok(RowSet::Bits { start })
    }

    /// A row before which none has the value at the place: the first that has it, where one does.
    pub(crate) fn first_with(&self, place: usize, value: &i64) -> usize
        ensures { (places : List Term) (rows : List ℤ) → AreAllChained places rows self.now.chains.items → (r : ℕ) → r < result → IsWhole places rows r → number_at places rows r place ≢ value.now }
    {
        if place < self.chains.len() {
            self.chains[place].first(value)
        } else {
            0
        }
    }

    /// The next row that has the same value at the place as this one; where there is none, or none is known, some row behind it.
    pub(crate) fn next_with(&self, place: usize, row: usize) -> usize
        requires { row < usize.MAX }
        ensures behind { row < result }
        ensures between { (places : List Term) (rows : List ℤ) → AreAllChained places rows self.now.chains.items → (r : ℕ) → row < r → r < result → IsWhole places rows row → IsWhole places rows r → number_at places rows r place ≢ number_at places rows row place }
    {
        if place < self.chains.len() {
            self.chains[place].next(row)
        } else {
            row + 1
        }
    }

    /// How many rows there are.
    pub fn rows(&self) -> usize {
        self.count
    }

    /// How many entries come before that of the value at the place.
    fn before(&self, place: usize, value: i64) -> usize {
        self.entries
            .as_slice()
            .partition_point(|entry| (entry.place, entry.value) < (place, value))
    }

    /// The entry of a value at a place: by its distance from the place's first, where no value is left out between them, or else by halves.
    #[inline(always)]
    fn entry_of(&self, place: usize, value: i64) -> Option<Entry> {
        let start = *self.starts.get(place)?;
        let first = *self.entries.get(start)?;
        let near = usize::try_from(value.saturating_sub(first.value)).ok()?;
        if let Some(entry) = self.entries.get(start.saturating_add(near))
            && entry.place == place
            && entry.value == value
        {
            return Some(*entry);
        }
        let entry = *self.entries.get(self.before(place, value))?;
        if entry.place == place && entry.value == value {
            Some(entry)
        } else {
            None
        }
    }

    /// A set of bits.
    fn bits_from(&self, start: usize) -> Option<&[u64]> {
        self.words.get(start..start.saturating_add(self.width))
    }

    /// The rows whose values are all possible, as a set of bits.
    pub fn possible(
        &self,
        alloc: Global,
        trail: &Trail,
        places: &[Term],
        rows: &[Term],
    ) -> Result<Vec<u64>, Memory>
        requires { All (IsTerm (length trail.now.declared)) places.now }
    {
        let mut possible = vec![in alloc; u64::MAX; self.width]?;
        if let Some(last) = possible.last_mut() {
            *last = (1 << (self.count % 64)) - 1;
        }
        let mut here = vec![in alloc; 0u64; self.width]?;
        for are_few in [true, false] {
            for place in 0..places.len() {
                if self.has_few_entries(place) == are_few {
                    self.keep_possible(trail, places[place], place, rows, &mut possible, &mut here);
                }
            }
        }
        Ok(possible)
    }

    /// Where the entries of the place begin and end.
    fn entries_at(&self, place: usize) -> (usize, usize) {
        let end = self.entries.len();
        let start = *self.starts.get(place).unwrap_or(&end);
        let next = *self.starts.get(place.saturating_add(1)).unwrap_or(&end);
        (start, next)
    }

    fn has_few_entries(&self, place: usize) -> bool {
        let (start, end) = self.entries_at(place);
        end.saturating_sub(start) <= FEW_ENTRIES
    }

    /// Keeps those of the possible rows whose value at the place the term may have. Asked is whichever is least: these rows, the values of
    /// the term, or the entries of the place.
    fn keep_possible(
        &self,
        trail: &Trail,
        term: Term,
        place: usize,
        rows: &[Term],
        possible: &mut [u64],
        here: &mut [u64],
    )
        requires { IsTerm (length trail.now.declared) term }
    {
        let (start, end) = self.entries_at(place);
        let values = value_count(trail, term);
        let entries = end.saturating_sub(start);
        if is_fewer(possible, values.min(entries)) {
            self.keep_rows(trail, term, place, rows, possible);
        } else if values < entries / 2 {
            here.fill(0);
            self.add_values(trail, term, place, values, here);
            keep_common(possible, here);
        } else {
            self.keep_entries(trail, term, start, end, possible);
        }
    }

    /// The same, where each of these rows is asked.
    fn keep_rows(
        &self,
        trail: &Trail,
        term: Term,
        place: usize,
        rows: &[Term],
        possible: &mut [u64],
    )
        requires { IsTerm (length trail.now.declared) term }
    {
        for q in 0..possible.len() {
            let mut bits = possible[q];
            for _ in 0..64 {
                if bits == 0 {
                    break;
                }
                let bit = bits.trailing_zeros();
                bits &= bits - 1;
                let row = q.saturating_mul(64).saturating_add(bit as usize);
                let is_kept = match self.number_of(rows, row, place) {
                    Some(value) => may_be(trail, term, &value),
                    None => false,
                };
                if !is_kept {
                    possible[q] &= !(1 << bit);
                }
            }
        }
    }

    /// Adds the rows that have a value of the term at the place, of which there are so many.
    fn add_values(&self, trail: &Trail, term: Term, place: usize, values: usize, here: &mut [u64])
        requires { IsTerm (length trail.now.declared) term }
    {
        let mut last = i64::MIN;
        for _ in 0..values {
            let Some(value) = next_value(trail, term, &last) else {
                return;
            };
            if let Some(entry) = self.entry_of(place, value) {
                self.add_rows(entry.rows, here);
            }
            last = value;
        }
    }

    /// Takes out the rows of each of these entries whose value the term may not have.
    fn keep_entries(
        &self,
        trail: &Trail,
        term: Term,
        start: usize,
        end: usize,
        possible: &mut [u64],
    )
        requires { IsTerm (length trail.now.declared) term }
    {
        for k in start..end {
            if let Some(entry) = self.entries.get(k)
                && !may_be(trail, term, &entry.value)
            {
                self.remove_rows(entry.rows, possible);
            }
        }
    }

    /// The number of the row at the place.
    fn number_of(&self, rows: &[Term], row: usize, place: usize) -> Option<i64> {
        let at = row.saturating_mul(self.starts.len()).saturating_add(place);
        Some(rows.get(at)?.number())
    }

    /// Adds these rows.
    fn add_rows(&self, rows: RowSet, here: &mut [u64]) {
        match rows {
            RowSet::Bits { start } => {
                if let Some(words) = self.bits_from(start) {
                    add_all(here, words);
                }
            }
            RowSet::Listed { start, end } => {
                if let Some(listed) = self.listed.get(start..end) {
                    for row in listed {
                        set_bit(here, *row);
                    }
                }
            }
        }
    }

    /// Takes these rows out.
    fn remove_rows(&self, rows: RowSet, here: &mut [u64]) {
        match rows {
            RowSet::Bits { start } => {
                if let Some(words) = self.bits_from(start) {
                    remove_all(here, words);
                }
            }
            RowSet::Listed { start, end } => {
                if let Some(listed) = self.listed.get(start..end) {
                    for row in listed {
                        clear_bit(here, *row);
                    }
                }
            }
        }
    }

    /// A row among these that has the value at the place.
    #[inline(always)]
    pub fn row_of(&self, possible: &[u64], place: usize, value: i64) -> Option<usize> {
        self.first_among(self.entry_of(place, value)?.rows, possible)
    }

    /// The first of these rows that is among the possible.
    #[inline(always)]
    fn first_among(&self, rows: RowSet, possible: &[u64]) -> Option<usize> {
        match rows {
            RowSet::Bits { start } => first_common(self.bits_from(start)?, possible),
            RowSet::Listed { start, end } => {
                first_listed(possible, self.listed.get(start..end)?)
            }
        }
    }

    /// The least value of the place from its least on that a row among these has there, or any row behind its greatest.
    pub fn next_from(&self, possible: &[u64], rows: &[Term], place: usize, ends: Interval) -> i64 {
        let from = self.before(place, ends.low);
        for k in from..from.saturating_add(FEW_ENTRIES) {
            let Some(entry) = self.entry_at(k, place) else {
                return ends.high.saturating_add(1);
            };
            if ends.high < entry.value || self.first_among(entry.rows, possible).is_some() {
                return entry.value;
            }
        }
        let behind = match self.entry_at(self.before(place, ends.high.saturating_add(1)), place) {
            Some(entry) => entry.value,
            None => ends.high.saturating_add(1),
        };
        self.nearest_possible(possible, rows, place, ends, Op::AtMost, behind)
    }

    /// The greatest value of the place up to its greatest that a row among these has there, or any row before its least.
    pub fn last_up_to(&self, possible: &[u64], rows: &[Term], place: usize, ends: Interval) -> i64 {
        let from = self.before(place, ends.high.saturating_add(1));
        for k in (from.saturating_sub(FEW_ENTRIES)..from).rev() {
            let Some(entry) = self.entry_at(k, place) else {
                return ends.low.saturating_sub(1);
            };
            if entry.value < ends.low || self.first_among(entry.rows, possible).is_some() {
                return entry.value;
            }
        }
        if from <= FEW_ENTRIES {
            return ends.low.saturating_sub(1);
        }
        let before = match self.entry_at(self.before(place, ends.low).wrapping_sub(1), place) {
            Some(entry) => entry.value,
            None => ends.low.saturating_sub(1),
        };
        self.nearest_possible(possible, rows, place, ends, Op::AtLeast, before)
    }

    /// Of the numbers that some row has at the place, the nearest beyond an end: the greatest that is less, or the least that is greater.
    pub fn nearest_beyond(&self, place: usize, op: Op, end: i64) -> Option<i64> {
        let index = match op {
            Op::AtMost => self.before(place, end).wrapping_sub(1),
            _ => self.before(place, end.saturating_add(1)),
        };
        Some(self.entry_at(index, place)?.value)
    }

    /// The entry at this index, where it is one of the place.
    #[inline(always)]
    fn entry_at(&self, index: usize, place: usize) -> Option<Entry> {
        let entry = *self.entries.get(index)?;
        if entry.place == place {
            Some(entry)
        } else {
            None
        }
    }

    /// Of the values between the ends that some row among these has at the place, the least or the greatest, by how it stands to the others; or
    /// this one, where none has any.
    fn nearest_possible(
        &self,
        possible: &[u64],
        rows: &[Term],
        place: usize,
        ends: Interval,
        op: Op,
        otherwise: i64,
    ) -> i64 {
        let mut nearest = otherwise;
        for q in 0..possible.len() {
            let mut bits = possible[q];
            for _ in 0..64 {
                if bits == 0 {
                    break;
                }
                let row = q
                    .saturating_mul(64)
                    .saturating_add(bits.trailing_zeros() as usize);
                bits &= bits - 1;
                if let Some(value) = self.number_of(rows, row, place) {
                    if ends.low <= value && value <= ends.high && op.compares(value, nearest) {
                        nearest = value;
                    }
                }
            }
        }
        nearest
    }
}

/// Of each place the rows that have the same number there.
fn chains_of(alloc: Global, places: &[Term], rows: &[Term]) -> Result<Vec<Chains>, Memory>
    ensures { IfOk result (λ chains. AreAllChained places.now (numbers_in rows.now) chains.items) }
{
    let mut all = Vec::with_capacity(alloc, places.len())?;
    for p in 0..places.len() {
        let chains = chains_at(alloc, places, rows, p)?;
        all.push(chains)?;
    }
    Ok(all)
}

/// The same of one place.
fn chains_at(alloc: Global, places: &[Term], rows: &[Term], p: usize) -> Result<Chains, Memory>
    requires { p < length places.now }
    ensures { IfOk result (IsChainedAt places.now (numbers_in rows.now) p) }
{
    let column = column(alloc, places, rows, p)?;
    Chains::new(alloc, column.as_slice())
}

/// The numbers that the rows have at the place.
fn column(alloc: Global, places: &[Term], rows: &[Term], p: usize) -> Result<Vec<i64>, Memory>
    requires { p < length places.now }
    ensures { IfOk result (λ column. IsColumn places.now (numbers_in rows.now) p column.items) }
{
    let count = rows.len() / places.len();
    let mut column = Vec::with_capacity(alloc, count)?;
    for r in 0..count {
        column.push(rows[r * places.len() + p].number())?;
    }
    Ok(column)
}

/// The first of the listed rows that is among these.
fn first_listed(words: &[u64], listed: &[usize]) -> Option<usize> {
    for row in listed {
        if has_bit(words, *row) {
            return Some(*row);
        }
    }
    None
}

fn has_bit(words: &[u64], row: usize) -> bool {
    row / 64 < words.len() && (words[row / 64] >> (row % 64)) & 1 == 1
}

/// How many values the term has.
fn value_count(trail: &Trail, term: Term) -> usize
    requires { IsTerm (length trail.now.declared) term }
{
    match term {
        Term::Constant(_) => 1,
        Term::Variable(var) => trail.domain(var).len(),
    }
}

/// Whether fewer bits are set than so many.
fn is_fewer(words: &[u64], count: usize) -> bool {
    let mut set: usize = 0;
    for word in words {
        if set >= count {
            return false;
        }
        set = set.saturating_add(word.count_ones() as usize);
    }
    set < count
}

/// Sets the bits of the rows that have the value, of so many rows.
fn set_rows(words: &mut [u64], chains: &Chains, value: &i64, count: usize) {
    let mut row = chains.first(value);
    for _ in 0..count {
        if row >= count {
            break;
        }
        set_bit(words, row);
        row = chains.next(row);
    }
}

fn set_bit(words: &mut [u64], row: usize) {
    if row / 64 < words.len() {
        words[row / 64] |= 1 << (row % 64);
    }
}

fn clear_bit(words: &mut [u64], row: usize) {
    if row / 64 < words.len() {
        words[row / 64] &= !(1 << (row % 64));
    }
}

/// Adds the others' bits.
fn add_all(words: &mut [u64], others: &[u64]) {
    for i in 0..words.len().min(others.len()) {
        words[i] |= others[i];
    }
}

/// Takes the others' bits out.
fn remove_all(words: &mut [u64], others: &[u64]) {
    for i in 0..words.len().min(others.len()) {
        words[i] &= !others[i];
    }
}

/// Keeps the bits that the others have too.
fn keep_common(words: &mut [u64], others: &[u64]) {
    for i in 0..words.len().min(others.len()) {
        words[i] &= others[i];
    }
}
