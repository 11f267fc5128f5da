// Which numbers between the bounds of a domain are its values.
ghost use Rattle.std.specs.Prelude.{◌≡◌, ◌<◌, ◌≤◌, ℤ, ◌<ℤ◌, ◌≤ℤ◌, ◌+ℤ◌, pos, true, false, IfOk, OnOk, OnErr, IfNone, IfSome};
ghost use Rattle.std.specs.List.{All};
ghost use Rattle.std.specs.FinSet as set;
ghost use Rattle.fzn_domain.specs.declared.allowed.Values.TheVariants.{AllBut, Bits, Listed, Word};
ghost use Rattle.fzn_domain.specs.IntSet.{contains, size, below, IsRunEnd};
ghost use Rattle.fzn_domain.specs.Limits.{IsInLimits};
ghost use Rattle.fzn_domain.specs.Allowed.{allows, selected, Forbids, IsNextAllowed, IsLastAllowed, NoneAllowed};

use fzn_numbers::{SharedBits, SharedList, WIDEST, WIDTH, WordSet};
use std::alloc::{AllocError as Memory, Global};

/// A set whose numbers lie closer together than this, from the least to the greatest, is kept as bits from the beginning.
const ALWAYS_BITS: i64 = 4096;

/// With up to so many holes the holes are kept, however few words bits would take.
const FEW_HOLES: usize = 32;

/// Which numbers between the bounds are members.
#[derive(Drop)]
pub enum Values {
    Listed(SharedList),
    AllBut(SharedList),
    Bits(SharedBits),
    Word(WordSet),
}

impl Values {
    /// All numbers from low to high, and others that do not matter.
    pub fn between(alloc: Global, low: i64, high: i64) -> Result<Values, Memory>
        requires low_in_limits { IsInLimits low }
        requires high_in_limits { IsInLimits high }
        ensures { IfOk result (λ values. (v : ℤ) → low ≤ℤ v → v ≤ℤ high → allows values v ≡ true) }
    {
        if high - low < WIDTH {
            Ok(Values::Word(WordSet::full(low)))
        } else if high - low < ALWAYS_BITS {
            Ok(Values::Bits(SharedBits::full(alloc, low, high)?))
        } else {
            Ok(Values::AllBut(SharedList::new(alloc)?))
        }
    }

    /// The given numbers, which are those of the list, and each from low to high.
    pub fn listed(
        alloc: Global,
        list: SharedList,
        low: i64,
        high: i64,
        values: &[i64],
    ) -> Result<Values, Memory>
        requires same { list ≡ set.from_list values.now }
        requires low_in_limits { IsInLimits low }
        requires high_in_limits { IsInLimits high }
        requires between { All (λ v. (low ≤ℤ v) × (v ≤ℤ high)) values.now }
        ensures { IfOk result (λ kept. (v : ℤ) → allows kept v ≡ contains (set.from_list values.now) v) }
    {
        if high - low < WIDTH {
            Ok(Values::Word(WordSet::from_slice(low, values)))
        } else if high - low < ALWAYS_BITS {
            Ok(Values::Bits(SharedBits::from_slice(alloc, low, high, values)?))
        } else {
            Ok(Values::Listed(list))
        }
    }

    /// Whether a number is allowed.
    pub fn allows(&self, value: i64) -> bool
        ensures { result ≡ allows self.now value }
    {
        match self {
            Values::Listed(list) => list.has(value),
            Values::AllBut(holes) => !holes.has(value),
            Values::Bits(bits) => bits.has(value),
            Values::Word(set) => set.has(value),
        }
    }

    /// The least allowed number from the bound up to high.
    pub fn next_from(&self, bound: i64, high: i64) -> Option<i64>
        requires { high <ℤ i64.MAX }
        ensures found { IfSome result (IsNextAllowed self.now bound high) }
        ensures none { IfNone result (NoneAllowed self.now bound high) }
    {
        match self {
            Values::Listed(list) => match list.next_from(bound) {
                Some(value) if value <= high => Some(value),
                _ => None,
            },
            Values::AllBut(holes) => first_gap(holes, bound, high),
            Values::Bits(bits) => match bits.next_from(bound) {
                Some(value) if value <= high => Some(value),
                _ => None,
            },
            Values::Word(set) => match set.next_from(bound) {
                Some(value) if value <= high => Some(value),
                _ => None,
            },
        }
    }

    /// The greatest allowed number from low up to the bound.
    pub fn last_up_to(&self, low: i64, bound: i64) -> Option<i64>
        requires above_least { i64.MIN <ℤ low }
        requires below_greatest { bound <ℤ i64.MAX }
        ensures found { IfSome result (IsLastAllowed self.now low bound) }
        ensures none { IfNone result (NoneAllowed self.now low bound) }
    {
        match self {
            Values::Listed(list) => match list.last_up_to(bound) {
                Some(value) if low <= value => Some(value),
                _ => None,
            },
            Values::AllBut(holes) => last_gap(holes, low, bound),
            Values::Bits(bits) => match bits.last_up_to(bound) {
                Some(value) if low <= value => Some(value),
                _ => None,
            },
            Values::Word(set) => match set.last_up_to(bound) {
                Some(value) if low <= value => Some(value),
                _ => None,
            },
        }
    }

    /// How many allowed numbers lie from low to high.
    pub fn count_within(&self, low: i64, high: i64) -> usize
        requires ordered { low ≤ℤ high }
        requires low_in_limits { IsInLimits low }
        requires high_in_limits { IsInLimits high }
        ensures { result ≡ size (selected low high self.now) }
    {
        match self {
            Values::Listed(list) => list.count_within(low, high),
            Values::AllBut(holes) => {
                let width = (high - low + 1) as usize;
                width - holes.count_within(low, high)
            }
            Values::Bits(bits) => bits.count_within(low, high),
            Values::Word(set) => set.count_within(low, high),
        }
    }

    /// The allowed number from low to high that so many of them are below.
    pub fn nth(&self, low: i64, high: i64, place: usize) -> i64
        requires place { place < size (selected low high self.now) }
        requires ordered { low ≤ℤ high }
        requires low_in_limits { IsInLimits low }
        requires high_in_limits { IsInLimits high }
        ensures member { contains (selected low high self.now) result ≡ true }
        ensures place { size (below (selected low high self.now) result) ≡ place }
        ensures in_limits { IsInLimits result }
    {
        let mut from = 0;
        let mut upto = (high - low) as usize;
        while from < upto {
            let middle = (from + upto) / 2;
            if self.count_within(low, plus(low, middle)) > place {
                upto = middle;
            } else {
                from = middle + 1;
            }
        }
        plus(low, from)
    }

    /// The last up to high of the allowed numbers that follow one another from this one.
    pub fn run_end(&self, value: i64, high: i64) -> i64
        requires allowed { allows self.now value ≡ true }
        requires ordered { value ≤ℤ high }
        requires value_in_limits { IsInLimits value }
        requires high_in_limits { IsInLimits high }
        ensures run { IsRunEnd (selected value high self.now) value result }
        ensures up_to_high { result ≤ℤ high }
    {
        match self {
            Values::Listed(list) => run_end_in(list, value, high),
            Values::AllBut(holes) => run_end_before(holes, value, high),
            Values::Bits(bits) => run_end_of(bits, value, high),
            Values::Word(set) => run_end_in_word(set, value, high),
        }
    }

    /// Allows a number no longer.
    pub fn take_out(&mut self, value: i64) -> Result<(), Memory>
        requires { allows self.old value ≡ true }
        ensures ok { OnOk result (Forbids self.old self.new value) }
        ensures err { OnErr result (self.new ≡ self.old) }
    {
        match self {
            Values::Listed(list) => list.remove(value)?,
            Values::AllBut(holes) => holes.insert(value)?,
            Values::Bits(bits) => bits.remove(value)?,
            Values::Word(set) => set.remove(value),
        }
        Ok(())
    }

    /// Keeps the numbers as bits from now on, where holes were kept, and bits of the numbers from low to high take less memory. Each number
    /// from low to high is allowed as before; which others are does not matter.
    pub fn gather(&mut self, low: i64, high: i64) -> Result<(), Memory>
        requires ordered { low ≤ℤ high }
        requires low_in_limits { IsInLimits low }
        requires high_in_limits { IsInLimits high }
        ensures same { (v : ℤ) → low ≤ℤ v → v ≤ℤ high → allows self.new v ≡ allows self.old v }
        ensures err { OnErr result (self.new ≡ self.old) }
    {
        if let Values::AllBut(holes) = self {
            if high - low < WIDEST
                && holes.count_within(low, high) > FEW_HOLES + ((high - low) / WIDTH) as usize
            {
                let gaps = holes.gaps(low, high)?;
                *self = Values::Bits(gaps);
            }
        }
        Ok(())
    }

    /// The same numbers.
    pub fn copy(&self) -> Result<Values, Memory>
        ensures { IfOk result (λ values. values ≡ self.now) }
    {
        match self {
            Values::Listed(list) => Ok(Values::Listed(list.share()?)),
            Values::AllBut(holes) => Ok(Values::AllBut(holes.share()?)),
            Values::Bits(bits) => Ok(Values::Bits(bits.share()?)),
            Values::Word(set) => Ok(Values::Word(set.copy())),
        }
    }
}

/// The least number from the bound up to high that is no hole.
fn first_gap(holes: &SharedList, bound: i64, high: i64) -> Option<i64>
    requires { high <ℤ i64.MAX }
    ensures found { IfSome result (IsNextAllowed (AllBut holes.now) bound high) }
    ensures none { IfNone result (NoneAllowed (AllBut holes.now) bound high) }
{
    let mut value = bound;
    while value <= high && holes.has(value) {
        value += 1;
    }
    if value <= high { Some(value) } else { None }
}

/// The greatest number from low up to the bound that is no hole.
fn last_gap(holes: &SharedList, low: i64, bound: i64) -> Option<i64>
    requires { i64.MIN <ℤ low }
    ensures found { IfSome result (IsLastAllowed (AllBut holes.now) low bound) }
    ensures none { IfNone result (NoneAllowed (AllBut holes.now) low bound) }
{
    let mut value = bound;
    while low <= value && holes.has(value) {
        value -= 1;
    }
    if low <= value { Some(value) } else { None }
}

/// The number so far above the bound.
fn plus(low: i64, offset: usize) -> i64
    requires low { IsInLimits low }
    requires offset { offset ≤ 2000000000 }
    ensures { result ≡ low +ℤ pos offset }
{
    low + offset as i64
}

/// The last up to high of the members that follow one another from this one.
fn run_end_in(list: &SharedList, value: i64, high: i64) -> i64
    requires member { contains list.now value ≡ true }
    requires ordered { value ≤ℤ high }
    requires value_in_limits { IsInLimits value }
    requires high_in_limits { IsInLimits high }
    ensures run { IsRunEnd (selected value high (Listed list.now)) value result }
    ensures up_to_high { result ≤ℤ high }
{
    let mut end = value;
    while end < high && list.has(end + 1) {
        end += 1;
    }
    end
}

/// The same of the members that are kept as bits.
fn run_end_of(bits: &SharedBits, value: i64, high: i64) -> i64
    requires member { contains bits.now value ≡ true }
    requires ordered { value ≤ℤ high }
    requires value_in_limits { IsInLimits value }
    requires high_in_limits { IsInLimits high }
    ensures run { IsRunEnd (selected value high (Bits bits.now)) value result }
    ensures up_to_high { result ≤ℤ high }
{
    let end = bits.run_end(value);
    if end < high { end } else { high }
}

/// The same of the members that are kept in one word.
fn run_end_in_word(set: &WordSet, value: i64, high: i64) -> i64
    requires member { contains set.now value ≡ true }
    requires ordered { value ≤ℤ high }
    requires value_in_limits { IsInLimits value }
    requires high_in_limits { IsInLimits high }
    ensures run { IsRunEnd (selected value high (Word set.now)) value result }
    ensures up_to_high { result ≤ℤ high }
{
    let end = set.run_end(value);
    if end < high { end } else { high }
}

/// The number before the next hole, or high where there is none up to it.
fn run_end_before(holes: &SharedList, value: i64, high: i64) -> i64
    requires member { contains holes.now value ≡ false }
    requires ordered { value ≤ℤ high }
    requires value_in_limits { IsInLimits value }
    requires high_in_limits { IsInLimits high }
    ensures run { IsRunEnd (selected value high (AllBut holes.now)) value result }
    ensures up_to_high { result ≤ℤ high }
{
    match holes.next_from(value) {
        Some(hole) if hole <= high => hole - 1,
        _ => high,
    }
}
