// The values of a list of terms, one by one.
ghost use Rattle.std.specs.Prelude.{◌≡◌, ◌↔◌, ◌-◌, ◌<◌, ◌≤◌, pos, IsTrue, length, take, drop, slice_index_or};
ghost use Rattle.std.specs.List.{All, Contains};
ghost use Rattle.fzn_values.specs.Term.{values_of, IsTerm};
ghost use Rattle.fzn_values.specs.Entries.{IsIndex, entry_at};

use crate::term::Term;
use fzn_list::Shared;
use std::marker::Model;

/// The values of some terms where the variables have given values, seen as the list of these values.
#[derive(Drop)]
pub struct Entries<'a> {
    terms: &'a [Term],
    values: &'a [i64],
}

impl<'a> Model for Entries<'a> {
    ghost use Rattle.std.specs.Prelude.{ℤ, List, length};
    ghost use Rattle.std.specs.Coded.{coded_list, coded_ℤ};
    ghost use Rattle.std.specs.List.{All};
    ghost use Rattle.fzn_values.specs.Term.{values_of, IsTerm};

    ghost Value = { List ℤ };

    ghost coded = { coded_list coded_ℤ };

    ghost view = { λ it. values_of it.values.now it.terms.now };

    ghost invariant = { λ it. All (IsTerm (length it.values.now)) it.terms.now };
}

impl<'a> Entries<'a> {
    pub fn new(terms: &'a Shared<Term>, values: &'a [i64]) -> Entries<'a>
        requires { All (IsTerm (length values.now)) terms.now }
        ensures { result ≡ values_of values.now terms.now }
    {
        Entries {
            terms: terms.as_slice(),
            values,
        }
    }

    pub fn len(&self) -> usize
        ensures { result ≡ length self.now }
    {
        self.terms.len()
    }

    /// The entry at a place, counted from 0.
    pub fn get(&self, place: usize) -> i64
        requires { place < length self.now }
        ensures { result ≡ slice_index_or self.now place (pos 0) }
    {
        let terms = self.terms;
        terms[place].value(self.values)
    }

    /// The entry at an index, counted from 1.
    pub fn at(&self, index: i64) -> i64
        requires { IsIndex (length self.now) index }
        ensures { result ≡ entry_at self.now index }
    {
        self.get((index - 1) as usize)
    }

    /// The first entries.
    pub fn before(&self, place: usize) -> Entries<'a>
        requires { place ≤ length self.now }
        ensures { result ≡ take place self.now }
    {
        Entries {
            terms: &self.terms[..place],
            values: self.values,
        }
    }

    /// All but the first entries.
    pub fn from(&self, place: usize) -> Entries<'a>
        requires { place ≤ length self.now }
        ensures { result ≡ drop place self.now }
    {
        Entries {
            terms: &self.terms[place..],
            values: self.values,
        }
    }

    pub fn contains(&self, value: i64) -> bool
        ensures { IsTrue result ↔ Contains self.now value }
    {
        for place in 0..self.len() {
            if self.get(place) == value {
                return true;
            }
        }
        false
    }

    /// Whether each entry is an index of a list of this many.
    pub fn are_indices(&self, count: usize) -> bool
        ensures { IsTrue result ↔ All (IsIndex count) self.now }
    {
        for place in 0..self.len() {
            if !is_index(count, self.get(place)) {
                return false;
            }
        }
        true
    }
}

pub fn is_index(count: usize, index: i64) -> bool
    ensures { IsTrue result ↔ IsIndex count index }
{
    1 <= index && index as u64 <= count as u64
}
