// A set of numbers kept as an ascending list.
ghost use Rattle.std.specs.Prelude.{◌≡◌, ℕ, ◌<◌, ◌≤◌, ℤ, ◌<ℤ◌, ◌≤ℤ◌, ◌↔◌, true, false, length, IsTrue, IfOk, OnOk, OnErr, IfNone, IfSome};
ghost use Rattle.std.specs.FinSet as set;
ghost use Rattle.fzn_numbers.specs.Ascending.{IsAscending, IsPlaceOf, IsNextFrom, IsLastUpTo, NoneFrom, NoneUpTo};
ghost use Rattle.fzn_numbers.specs.IntSet.{contains, size, no_values, within};

use std::alloc::{AllocError, Global};
use std::marker::Model;

#[derive(Drop)]
pub struct ValueList {
    values: Vec<i64>,
}

impl Model for ValueList {
    ghost use Rattle.std.specs.Coded.{coded_ℤ};
    ghost use Rattle.std.specs.FinSet as set;
    ghost use Rattle.fzn_numbers.specs.IntSet.{IntSet};
    ghost use Rattle.fzn_numbers.specs.Ascending.{IsAscending};

    ghost Value = { IntSet };

    ghost coded = { set.code coded_ℤ };

    ghost view = { λ list. set.from_list list.values.items };

    ghost invariant = { λ list. IsAscending list.values.items };
}

impl ValueList {
    pub fn new(alloc: Global) -> ValueList
        ensures { result ≡ no_values }
    {
        ValueList {
            values: Vec::new(alloc),
        }
    }

    /// The set of the given values, which may have any order and repeats.
    pub fn from_slice(alloc: Global, values: &[i64]) -> Result<ValueList, AllocError>
        ensures { IfOk result (λ list. list ≡ set.from_list values.now) }
    {
        let mut sorted = Vec::from_slice(alloc, values)?;
        sorted.sort_unstable();
        let mut list = ValueList::new(alloc);
        for value in &sorted {
            if !list.has(*value) {
                list.insert(*value)?;
            }
        }
        Ok(list)
    }

    pub fn has(&self, value: i64) -> bool
        ensures { result ≡ contains self.now value }
    {
        let place = place_of(&self.values, value);
        place < self.values.len() && self.values[place] == value
    }

    /// The least value from the bound up.
    pub fn next_from(&self, bound: i64) -> Option<i64>
        ensures found { IfSome result (IsNextFrom self.now bound) }
        ensures none { IfNone result (NoneFrom self.now bound) }
    {
        let place = place_of(&self.values, bound);
        if place < self.values.len() {
            Some(self.values[place])
        } else {
            None
        }
    }

    /// The greatest value up to the bound.
    pub fn last_up_to(&self, bound: i64) -> Option<i64>
        requires { bound <ℤ i64.MAX }
        ensures found { IfSome result (IsLastUpTo self.now bound) }
        ensures none { IfNone result (NoneUpTo self.now bound) }
    {
        let place = place_of(&self.values, bound + 1);
        if place > 0 {
            Some(self.values[place - 1])
        } else {
            None
        }
    }

    /// How many values lie from low to high.
    pub fn count_within(&self, low: i64, high: i64) -> usize
        requires ordered { low ≤ℤ high }
        requires below_greatest { high <ℤ i64.MAX }
        ensures { result ≡ size (within self.now low high) }
    {
        place_of(&self.values, high + 1) - place_of(&self.values, low)
    }

    pub fn insert(&mut self, value: i64) -> Result<(), AllocError>
        requires { contains self.old value ≡ false }
        ensures ok { OnOk result (self.new ≡ set.insert self.old value) }
        ensures err { OnErr result (self.new ≡ self.old) }
    {
        let place = place_of(&self.values, value);
        self.values.insert(place, value)?;
        Ok(())
    }

    pub fn remove(&mut self, value: i64)
        requires { contains self.old value ≡ true }
        ensures { self.new ≡ set.remove self.old value }
    {
        let place = place_of(&self.values, value);
        self.values.remove(place);
    }
}

impl Clone for ValueList {
    ghost is_clone = { λ list copy. copy ≡ list };

    fn clone(&self) -> Result<ValueList, AllocError> {
        let values = self.values.clone()?;
        Ok(ValueList { values })
    }
}

/// The place of the first value that is not below the bound, counted from 0; the length of the list where there is none. The values have to
/// stand in rising order.
pub fn place_of(values: &[i64], bound: i64) -> usize
    requires { IsAscending values.now }
    ensures { IsPlaceOf values.now bound result }
{
    values.partition_point(|value| *value < bound)
}
