// A list of numbers with several owners.
ghost use Rattle.std.specs.Prelude.{◌≡◌, ℤ, ◌<ℤ◌, ◌≤ℤ◌, ◌+ℤ◌, pos, true, false, not, IfOk, OnOk, OnErr, IfNone, IfSome};
ghost use Rattle.std.specs.FinSet as set;
ghost use Rattle.fzn_numbers.specs.Ascending.{IsNextFrom, IsLastUpTo, NoneFrom, NoneUpTo};
ghost use Rattle.fzn_numbers.specs.IntSet.{contains, size, no_values, within};
ghost use Rattle.fzn_numbers.specs.Bits.{CanBeFirst};

use crate::shared_bits::SharedBits;
use crate::value_list::ValueList;
use std::alloc::{AllocError, Global};
use std::marker::Model;
use std::rc::Rc;

/// A set with several owners. It is copied only where one of them changes it.
#[derive(Drop)]
pub struct SharedList {
    list: Rc<ValueList>,
    alloc: Global,
}

impl Model for SharedList {
    ghost use Rattle.std.specs.Coded.{coded_ℤ};
    ghost use Rattle.std.specs.FinSet as set;
    ghost use Rattle.fzn_numbers.specs.IntSet.{IntSet};

    ghost Value = { IntSet };

    ghost coded = { set.code coded_ℤ };

    ghost view = { λ it. it.list.value };
}

impl SharedList {
    pub fn new(alloc: Global) -> Result<SharedList, AllocError>
        ensures { IfOk result (λ it. it ≡ no_values) }
    {
        let list = Rc::new(alloc, ValueList::new(alloc))?;
        Ok(SharedList { list, alloc })
    }

    /// The set of the given values, which may have any order and repeats.
    pub fn from_slice(alloc: Global, values: &[i64]) -> Result<SharedList, AllocError>
        ensures { IfOk result (λ it. it ≡ set.from_list values.now) }
    {
        let values = ValueList::from_slice(alloc, values)?;
        let list = Rc::new(alloc, values)?;
        Ok(SharedList { list, alloc })
    }

    pub fn has(&self, value: i64) -> bool
        ensures { result ≡ contains self.now value }
    {
        self.list.has(value)
    }

    /// The least value from the bound up.
    pub fn next_from(&self, bound: i64) -> Option<i64>
        ensures found { IfSome result (IsNextFrom self.now bound) }
        ensures none { IfNone result (NoneFrom self.now bound) }
    {
        self.list.next_from(bound)
    }

    /// The greatest value up to the bound.
    pub fn last_up_to(&self, bound: i64) -> Option<i64>
        requires { bound <ℤ i64.MAX }
        ensures found { IfSome result (IsLastUpTo self.now bound) }
        ensures none { IfNone result (NoneUpTo self.now bound) }
    {
        self.list.last_up_to(bound)
    }

    /// How many values lie from low to high.
    pub fn count_within(&self, low: i64, high: i64) -> usize
        requires ordered { low ≤ℤ high }
        requires below_greatest { high <ℤ i64.MAX }
        ensures { result ≡ size (within self.now low high) }
    {
        self.list.count_within(low, high)
    }

    /// The numbers from low to high that are no members, kept as bits. Which numbers behind high it has does not matter.
    pub fn gaps(&self, low: i64, high: i64) -> Result<SharedBits, AllocError>
        requires low { CanBeFirst low }
        requires ordered { low ≤ℤ high }
        requires narrow { high <ℤ (low +ℤ pos 16384) }
        ensures { IfOk result (λ gaps. (v : ℤ) → low ≤ℤ v → v ≤ℤ high → contains gaps v ≡ not (contains self.now v)) }
    {
        let mut gaps = SharedBits::full(self.alloc, low, high)?;
        let mut from = low;
        while let Some(value) = self.next_from(from) {
            if value > high {
                return Ok(gaps);
            }
            gaps.remove(value)?;
            from = value + 1;
        }
        Ok(gaps)
    }

    /// The same set, for one more owner.
    pub fn share(&self) -> Result<SharedList, AllocError>
        ensures { IfOk result (λ it. it ≡ self.now) }
    {
        let list = self.list.clone()?;
        Ok(SharedList {
            list,
            alloc: self.alloc,
        })
    }

    pub fn insert(&mut self, value: i64) -> Result<(), AllocError>
        requires { contains self.old value ≡ false }
        ensures ok { OnOk result (self.new ≡ set.insert self.old value) }
        ensures err { OnErr result (self.new ≡ self.old) }
    {
        let list = Rc::make_mut(&mut self.list)?;
        list.insert(value)
    }

    pub fn remove(&mut self, value: i64) -> Result<(), AllocError>
        requires { contains self.old value ≡ true }
        ensures ok { OnOk result (self.new ≡ set.remove self.old value) }
        ensures err { OnErr result (self.new ≡ self.old) }
    {
        let list = Rc::make_mut(&mut self.list)?;
        list.remove(value);
        Ok(())
    }
}
