// A set of numbers kept as bits, with several owners.
ghost use Rattle.std.specs.Prelude.{◌≡◌, ℤ, ◌<ℤ◌, ◌≤ℤ◌, ◌+ℤ◌, pos, true, IfOk, OnOk, OnErr, IfNone, IfSome};
ghost use Rattle.std.specs.List.{All};
ghost use Rattle.std.specs.FinSet as set;
ghost use Rattle.fzn_numbers.specs.Ascending.{IsNextFrom, IsLastUpTo, NoneFrom, NoneUpTo};
ghost use Rattle.fzn_numbers.specs.IntSet.{contains, size, numbers_from, width, within, IsRunEnd};
ghost use Rattle.fzn_numbers.specs.Bits.{whole_words, CanBeFirst};

use crate::bit_set::BitSet;
use std::alloc::{AllocError, Global};
use std::marker::Model;
use std::rc::Rc;

/// A set with several owners. It is copied only where one of them changes it.
#[derive(Drop)]
pub struct SharedBits {
    bits: Rc<BitSet>,
}

impl Model for SharedBits {
    ghost use Rattle.std.specs.Coded.{coded_ℤ};
    ghost use Rattle.std.specs.FinSet as set;
    ghost use Rattle.fzn_numbers.specs.IntSet.{IntSet};

    ghost Value = { IntSet };

    ghost coded = { set.code coded_ℤ };

    ghost view = { λ it. it.bits.value };
}

impl SharedBits {
    /// All numbers from low to high, and those behind that fill the last word.
    pub fn full(alloc: Global, low: i64, high: i64) -> Result<SharedBits, AllocError>
        requires low { CanBeFirst low }
        requires ordered { low ≤ℤ high }
        requires narrow { high <ℤ (low +ℤ pos 16384) }
        ensures { IfOk result (λ it. it ≡ numbers_from low (whole_words (width low high))) }
    {
        let set = BitSet::full(alloc, low, high)?;
        let bits = Rc::new(alloc, set)?;
        Ok(SharedBits { bits })
    }

    /// The given numbers, each from low to high.
    pub fn from_slice(
        alloc: Global,
        low: i64,
        high: i64,
        values: &[i64],
    ) -> Result<SharedBits, AllocError>
        requires low { CanBeFirst low }
        requires ordered { low ≤ℤ high }
        requires narrow { high <ℤ (low +ℤ pos 16384) }
        requires between { All (λ v. (low ≤ℤ v) × (v ≤ℤ high)) values.now }
        ensures { IfOk result (λ it. it ≡ set.from_list values.now) }
    {
        let set = BitSet::from_slice(alloc, low, high, values)?;
        let bits = Rc::new(alloc, set)?;
        Ok(SharedBits { bits })
    }

    pub fn has(&self, value: i64) -> bool
        ensures { result ≡ contains self.now value }
    {
        self.bits.has(value)
    }

    /// The least member from the bound up.
    pub fn next_from(&self, bound: i64) -> Option<i64>
        ensures found { IfSome result (IsNextFrom self.now bound) }
        ensures none { IfNone result (NoneFrom self.now bound) }
    {
        self.bits.next_from(bound)
    }

    /// The greatest member up to the bound.
    pub fn last_up_to(&self, bound: i64) -> Option<i64>
        requires { bound <ℤ i64.MAX }
        ensures found { IfSome result (IsLastUpTo self.now bound) }
        ensures none { IfNone result (NoneUpTo self.now bound) }
    {
        self.bits.last_up_to(bound)
    }

    /// The last of the members that follow one another from this one.
    pub fn run_end(&self, value: i64) -> i64
        requires { contains self.now value ≡ true }
        ensures { IsRunEnd self.now value result }
    {
        self.bits.run_end(value)
    }

    /// How many members lie from low to high.
    pub fn count_within(&self, low: i64, high: i64) -> usize
        requires ordered { low ≤ℤ high }
        requires below_greatest { high <ℤ i64.MAX }
        ensures { result ≡ size (within self.now low high) }
    {
        self.bits.count_within(low, high)
    }

    /// The same set, for one more owner.
    pub fn share(&self) -> Result<SharedBits, AllocError>
        ensures { IfOk result (λ it. it ≡ self.now) }
    {
        let bits = self.bits.clone()?;
        Ok(SharedBits { bits })
    }

    pub fn remove(&mut self, value: i64) -> Result<(), AllocError>
        requires { contains self.old value ≡ true }
        ensures ok { OnOk result (self.new ≡ set.remove self.old value) }
        ensures err { OnErr result (self.new ≡ self.old) }
    {
        let bits = Rc::make_mut(&mut self.bits)?;
        bits.remove(value);
        Ok(())
    }
}
