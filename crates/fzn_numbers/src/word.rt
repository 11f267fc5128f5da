// Bits in one word, by their places: as in a list of words that has no other.
ghost use Rattle.std.specs.Prelude.{◌≡◌, ◌+◌, ◌%◌, ◌^◌, ◌<◌, ◌≤◌, [], ◌∷◌, IfNone, IfSome};
ghost use Rattle.fzn_numbers.specs.Bits.{has_bit, IsGap, IsNextBit, NoBitFrom, IsLastBit, NoBitBelow, bits_below};

use crate::words::{WORD, low_bits};

pub fn is_set(word: u64, place: usize) -> bool
    requires { place < 64 }
    ensures { result ≡ has_bit (word ∷ []) place }
{
    (word >> place) & 1 == 1
}

/// The first bit set from the place on.
pub fn next_bit(word: u64, from: usize) -> Option<usize>
    ensures found { IfSome result (IsNextBit (word ∷ []) from) }
    ensures none { IfNone result (NoBitFrom (word ∷ []) from) }
{
    if from >= WORD {
        return None;
    }
    let rest = word >> from;
    if rest == 0 {
        return None;
    }
    Some(from + rest.trailing_zeros() as usize)
}

/// The first bit not set from the place on, or the number of places where each is set.
pub fn next_gap(word: u64, from: usize) -> usize
    requires { from < 64 }
    ensures { IsGap (word ∷ []) from result }
{
    let rest = !word >> from;
    if rest == 0 {
        return WORD;
    }
    from + rest.trailing_zeros() as usize
}

/// The last bit set below the place.
pub fn last_bit(word: u64, end: usize) -> Option<usize>
    requires { end ≤ 64 }
    ensures found { IfSome result (IsLastBit (word ∷ []) end) }
    ensures none { IfNone result (NoBitBelow (word ∷ []) end) }
{
    let low = low_word(word, end);
    if low == 0 {
        return None;
    }
    Some(63 - low.leading_zeros() as usize)
}

/// How many bits are set from one place up to another.
pub fn count_between(word: u64, from: usize, end: usize) -> usize
    requires ordered { from ≤ end }
    requires in_word { end ≤ 64 }
    ensures { result + bits_below (word ∷ []) from ≡ bits_below (word ∷ []) end }
{
    ones_in(word, end) - ones_in(word, from)
}

/// How many bits are set below the place.
fn ones_in(word: u64, place: usize) -> usize
    requires { place ≤ 64 }
    ensures { result ≡ bits_below (word ∷ []) place }
{
    low_word(word, place).count_ones() as usize
}

/// The bits below the place.
fn low_word(word: u64, place: usize) -> u64
    requires { place ≤ 64 }
    ensures { result ≡ word % 2 ^ place }
{
    if place == 0 { 0 } else { low_bits(word, place) }
}
