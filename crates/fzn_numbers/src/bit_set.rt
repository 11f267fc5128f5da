// A set of numbers that lie close together, kept as bits.
ghost use Rattle.std.specs.Prelude.{◌≡◌, ◌≤◌, ◌*◌, replicate, ℤ, ◌<ℤ◌, ◌≤ℤ◌, ◌+ℤ◌, pos, true, IfOk, IfNone, IfSome};
ghost use Rattle.std.specs.List.{All};
ghost use Rattle.std.specs.FinSet as set;
ghost use Rattle.fzn_numbers.specs.Ascending.{IsNextFrom, IsLastUpTo, NoneFrom, NoneUpTo};
ghost use Rattle.fzn_numbers.specs.IntSet.{contains, size, numbers_from, width, within, IsRunEnd};
ghost use Rattle.fzn_numbers.specs.Bits.{place_from, whole_words, CanBeFirst};

use crate::words::{WORD, clear_bit, count_between, is_set, last_bit, next_bit, next_gap, set_bit};
use std::alloc::{AllocError, Global};
use std::marker::Model;

/// The greatest width of a set that is kept as bits.
pub const WIDEST: i64 = 16384;

/// The number at the first place, and the bits.
#[derive(Drop)]
pub struct BitSet {
    first: i64,
    words: Vec<u64>,
}

impl Model for BitSet {
    ghost use Rattle.std.specs.Coded.{coded_ℤ};
    ghost use Rattle.std.specs.FinSet as set;
    ghost use Rattle.fzn_numbers.specs.Bits.{members, IsPlaced};
    ghost use Rattle.fzn_numbers.specs.IntSet.{IntSet};

    ghost Value = { IntSet };

    ghost coded = { set.code coded_ℤ };

    ghost view = { λ it. members it.first it.words.items };

    ghost invariant = { λ it. IsPlaced it.first it.words.items };
}

impl BitSet {
    /// All numbers from low to high, and those behind that fill the last word.
    pub fn full(alloc: Global, low: i64, high: i64) -> Result<BitSet, AllocError>
        requires low { CanBeFirst low }
        requires ordered { low ≤ℤ high }
        requires narrow { high <ℤ (low +ℤ pos 16384) }
        ensures { IfOk result (λ it. it ≡ numbers_from low (whole_words (width low high))) }
    {
        let words = repeated(alloc, u64::MAX, word_count(low, high))?;
        Ok(BitSet { first: low, words })
    }

    /// The given numbers, each from low to high.
    pub fn from_slice(
        alloc: Global,
        low: i64,
        high: i64,
        values: &[i64],
    ) -> Result<BitSet, AllocError>
        requires low { CanBeFirst low }
        requires ordered { low ≤ℤ high }
        requires narrow { high <ℤ (low +ℤ pos 16384) }
        requires between { All (λ v. (low ≤ℤ v) × (v ≤ℤ high)) values.now }
        ensures { IfOk result (λ it. it ≡ set.from_list values.now) }
    {
        let mut words = repeated(alloc, 0, word_count(low, high))?;
        for value in values {
            let place = offset(low, *value);
            set_bit(&mut words, place);
        }
        Ok(BitSet { first: low, words })
    }

    pub fn has(&self, value: i64) -> bool
        ensures { result ≡ contains self.now value }
    {
        if value < self.first {
            return false;
        }
        let place = place_of(self.first, self.words.len() * WORD, value);
        place < self.words.len() * WORD && is_set(&self.words, place)
    }

    /// The least member from the bound up.
    pub fn next_from(&self, bound: i64) -> Option<i64>
        ensures found { IfSome result (IsNextFrom self.now bound) }
        ensures none { IfNone result (NoneFrom self.now bound) }
    {
        let from = place_of(self.first, self.words.len() * WORD, bound);
        match next_bit(&self.words, from) {
            Some(place) => Some(self.first + place as i64),
            None => None,
        }
    }

    /// The greatest member up to the bound.
    pub fn last_up_to(&self, bound: i64) -> Option<i64>
        requires { bound <ℤ i64.MAX }
        ensures found { IfSome result (IsLastUpTo self.now bound) }
        ensures none { IfNone result (NoneUpTo self.now bound) }
    {
        let end = place_of(self.first, self.words.len() * WORD, bound + 1);
        match last_bit(&self.words, end) {
            Some(place) => Some(self.first + place as i64),
            None => None,
        }
    }

    /// The last of the members that follow one another from this one.
    pub fn run_end(&self, value: i64) -> i64
        requires { contains self.now value ≡ true }
        ensures { IsRunEnd self.now value result }
    {
        let from = offset(self.first, value);
        let gap = next_gap(&self.words, from);
        self.first + gap as i64 - 1
    }

    /// How many members lie from low to high.
    pub fn count_within(&self, low: i64, high: i64) -> usize
        requires ordered { low ≤ℤ high }
        requires below_greatest { high <ℤ i64.MAX }
        ensures { result ≡ size (within self.now low high) }
    {
        let count = self.words.len() * WORD;
        let from = place_of(self.first, count, low);
        let end = place_of(self.first, count, high + 1);
        count_between(&self.words, from, end)
    }

    pub fn remove(&mut self, value: i64)
        requires { contains self.old value ≡ true }
        ensures { self.new ≡ set.remove self.old value }
    {
        let place = offset(self.first, value);
        clear_bit(&mut self.words, place);
    }
}

impl Clone for BitSet {
    ghost is_clone = { λ it copy. copy ≡ it };

    fn clone(&self) -> Result<BitSet, AllocError> {
        let words = self.words.clone()?;
        Ok(BitSet {
            first: self.first,
            words,
        })
    }
}

/// So many words, all the same.
fn repeated(alloc: Global, word: u64, count: usize) -> Result<Vec<u64>, AllocError>
    ensures { IfOk result (λ words. words.items ≡ replicate count word) }
{
    vec![in alloc; word; count]
}

/// How far a number is from the first.
pub fn offset(first: i64, value: i64) -> usize
    requires first { CanBeFirst first }
    requires from_first { first ≤ℤ value }
    requires near { value <ℤ (first +ℤ pos 16384) }
    ensures { value ≡ first +ℤ pos result }
{
    (value - first) as usize
}

/// How many words the numbers from low to high take.
fn word_count(low: i64, high: i64) -> usize
    requires low { CanBeFirst low }
    requires ordered { low ≤ℤ high }
    requires narrow { high <ℤ (low +ℤ pos 16384) }
    ensures some { 1 ≤ result }
    ensures few { result ≤ 256 }
    ensures exact { result * 64 ≡ whole_words (width low high) }
    ensures enough { high <ℤ (low +ℤ pos (result * 64)) }
{
    (high - low) as usize / WORD + 1
}

/// The place of a number: 0 for all before the first, and the number of places for all behind the last.
pub fn place_of(first: i64, count: usize, value: i64) -> usize
    requires first { CanBeFirst first }
    requires few { count ≤ 16384 }
    ensures { result ≡ place_from first count value }
{
    if value <= first {
        0
    } else if value >= first + count as i64 {
        count
    } else {
        (value - first) as usize
    }
}
