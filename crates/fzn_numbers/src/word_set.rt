// A set of numbers that lie within 64 places, kept as the bits of one word.
ghost use Rattle.std.specs.Prelude.{◌≡◌, ℤ, ◌<ℤ◌, ◌≤ℤ◌, ◌+ℤ◌, pos, true, IfNone, IfSome};
ghost use Rattle.std.specs.List.{All};
ghost use Rattle.std.specs.FinSet as set;
ghost use Rattle.fzn_numbers.specs.Ascending.{IsNextFrom, IsLastUpTo, NoneFrom, NoneUpTo};
ghost use Rattle.fzn_numbers.specs.IntSet.{contains, size, numbers_from, within, IsRunEnd};
ghost use Rattle.fzn_numbers.specs.Bits.{CanBeFirst};

use crate::bit_set::{offset, place_of};
use crate::word::{count_between, is_set, last_bit, next_bit, next_gap};
use crate::words::WORD;
use std::marker::Model;

/// The width of a set that one word keeps.
pub const WIDTH: i64 = 64;

/// The number at the lowest bit, and the bits.
#[derive(Drop)]
pub struct WordSet {
    first: i64,
    word: u64,
}

impl Model for WordSet {
    ghost use Rattle.std.specs.Prelude.{[], ◌∷◌};
    ghost use Rattle.std.specs.Coded.{coded_ℤ};
    ghost use Rattle.std.specs.FinSet as set;
    ghost use Rattle.fzn_numbers.specs.Bits.{members, IsPlaced};
    ghost use Rattle.fzn_numbers.specs.IntSet.{IntSet};

    ghost Value = { IntSet };

    ghost coded = { set.code coded_ℤ };

    ghost view = { λ it. members it.first (it.word ∷ []) };

    ghost invariant = { λ it. IsPlaced it.first (it.word ∷ []) };
}

impl WordSet {
    /// All of the 64 numbers from low up, and no other.
    pub fn full(low: i64) -> WordSet
        requires { CanBeFirst low }
        ensures { result ≡ numbers_from low 64 }
    {
        WordSet {
            first: low,
            word: u64::MAX,
        }
    }

    /// The given numbers, each of the 64 from low up.
    pub fn from_slice(low: i64, values: &[i64]) -> WordSet
        requires low { CanBeFirst low }
        requires near { All (λ v. (low ≤ℤ v) × (v <ℤ (low +ℤ pos 64))) values.now }
        ensures { result ≡ set.from_list values.now }
    {
        let mut word = 0;
        for value in values {
            word |= 1 << offset(low, *value);
        }
        WordSet { first: low, word }
    }

    pub fn has(&self, value: i64) -> bool
        ensures { result ≡ contains self.now value }
    {
        self.first <= value
            && value < self.first + WIDTH
            && is_set(self.word, offset(self.first, value))
    }

    /// The least member from the bound up.
    pub fn next_from(&self, bound: i64) -> Option<i64>
        ensures found { IfSome result (IsNextFrom self.now bound) }
        ensures none { IfNone result (NoneFrom self.now bound) }
    {
        let from = place_of(self.first, WORD, bound);
        match next_bit(self.word, from) {
            Some(place) => Some(self.first + place as i64),
            None => None,
        }
    }

    /// The greatest member up to the bound.
    pub fn last_up_to(&self, bound: i64) -> Option<i64>
        requires { bound <ℤ i64.MAX }
        ensures found { IfSome result (IsLastUpTo self.now bound) }
        ensures none { IfNone result (NoneUpTo self.now bound) }
    {
        let end = place_of(self.first, WORD, bound + 1);
        match last_bit(self.word, end) {
            Some(place) => Some(self.first + place as i64),
            None => None,
        }
    }

    /// The last of the members that follow one another from this one.
    pub fn run_end(&self, value: i64) -> i64
        requires { contains self.now value ≡ true }
        ensures { IsRunEnd self.now value result }
    {
        let from = offset(self.first, value);
        let gap = next_gap(self.word, from);
        self.first + gap as i64 - 1
    }

    /// How many members lie from low to high.
    pub fn count_within(&self, low: i64, high: i64) -> usize
        requires ordered { low ≤ℤ high }
        requires below_greatest { high <ℤ i64.MAX }
        ensures { result ≡ size (within self.now low high) }
    {
        let from = place_of(self.first, WORD, low);
        let end = place_of(self.first, WORD, high + 1);
        count_between(self.word, from, end)
    }

    pub fn remove(&mut self, value: i64)
        requires { contains self.old value ≡ true }
        ensures { self.new ≡ set.remove self.old value }
    {
        let place = offset(self.first, value);
        self.word &= !(1 << place);
    }

    /// The same set.
    pub fn copy(&self) -> WordSet
        ensures { result ≡ self.now }
    {
        WordSet {
            first: self.first,
            word: self.word,
        }
    }
}
