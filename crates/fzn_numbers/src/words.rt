// Bits in words, by their places.
ghost use Rattle.std.specs.Prelude.{◌≡◌, ◌+◌, ◌*◌, ◌/◌, ◌%◌, ◌^◌, ◌<◌, ◌≤◌, true, false, length, slice_index, IfNone, IfSome};
ghost use Rattle.fzn_numbers.specs.Bits.{places, has_bit, IsGap, IsNextBit, NoBitFrom, IsLastBit, NoBitBelow, bits_below, IsWritten};

/// How many bits a word has.
pub const WORD: usize = 64;

pub fn is_set(words: &[u64], place: usize) -> bool
    requires { place < places words.now }
    ensures { result ≡ has_bit words.now place }
{
    (words[place / WORD] >> (place % WORD)) & 1 == 1
}

pub fn set_bit(words: &mut [u64], place: usize)
    requires { place < places words.old }
    ensures { IsWritten words.old words.new place true }
{
    words[place / WORD] |= 1 << (place % WORD);
}

pub fn clear_bit(words: &mut [u64], place: usize)
    requires { place < places words.old }
    ensures { IsWritten words.old words.new place false }
{
    words[place / WORD] &= !(1 << (place % WORD));
}

/// The first bit set from the place on.
pub fn next_bit(words: &[u64], from: usize) -> Option<usize>
    requires { places words.now ≤ 16384 }
    ensures found { IfSome result (IsNextBit words.now from) }
    ensures none { IfNone result (NoBitFrom words.now from) }
{
    let at = from / WORD;
    if at >= words.len() {
        return None;
    }
    let rest = words[at] >> (from % WORD);
    if rest != 0 {
        return Some(from + rest.trailing_zeros() as usize);
    }
    next_word(words, at + 1)
}

/// The first bit set from the word on.
fn next_word(words: &[u64], first: usize) -> Option<usize>
    requires few { places words.now ≤ 16384 }
    requires in_words { first ≤ length words.now }
    ensures found { IfSome result (IsNextBit words.now (first * 64)) }
    ensures none { IfNone result (NoBitFrom words.now (first * 64)) }
{
    let mut at = first;
    while at < words.len() {
        let word = words[at];
        if word != 0 {
            return Some(at * WORD + word.trailing_zeros() as usize);
        }
        at += 1;
    }
    None
}

/// The first bit not set from the place on, or the number of places where each is set.
pub fn next_gap(words: &[u64], from: usize) -> usize
    requires few { places words.now ≤ 16384 }
    requires in_words { from < places words.now }
    ensures { IsGap words.now from result }
{
    let at = from / WORD;
    let rest = !words[at] >> (from % WORD);
    if rest != 0 {
        return from + rest.trailing_zeros() as usize;
    }
    next_word_with_gap(words, at + 1)
}

/// The first bit not set from the word on.
fn next_word_with_gap(words: &[u64], first: usize) -> usize
    requires few { places words.now ≤ 16384 }
    requires in_words { first ≤ length words.now }
    ensures { IsGap words.now (first * 64) result }
{
    let mut at = first;
    while at < words.len() {
        let rest = !words[at];
        if rest != 0 {
            return at * WORD + rest.trailing_zeros() as usize;
        }
        at += 1;
    }
    at * WORD
}

/// The last bit set below the place.
pub fn last_bit(words: &[u64], end: usize) -> Option<usize>
    requires few { places words.now ≤ 16384 }
    requires in_words { end ≤ places words.now }
    ensures found { IfSome result (IsLastBit words.now end) }
    ensures none { IfNone result (NoBitBelow words.now end) }
{
    let low = low_word(words, end);
    if low != 0 {
        return Some(end / WORD * WORD + 63 - low.leading_zeros() as usize);
    }
    last_word(words, end / WORD)
}

/// The last bit set below the word.
fn last_word(words: &[u64], end: usize) -> Option<usize>
    requires few { places words.now ≤ 16384 }
    requires in_words { end ≤ length words.now }
    ensures found { IfSome result (IsLastBit words.now (end * 64)) }
    ensures none { IfNone result (NoBitBelow words.now (end * 64)) }
{
    let mut at = end;
    while at > 0 {
        let word = words[at - 1];
        if word != 0 {
            return Some(at * WORD - 1 - word.leading_zeros() as usize);
        }
        at -= 1;
    }
    None
}

/// How many bits are set from one place up to another.
pub fn count_between(words: &[u64], from: usize, end: usize) -> usize
    requires few { places words.now ≤ 16384 }
    requires ordered { from ≤ end }
    requires in_words { end ≤ places words.now }
    ensures { result + bits_below words.now from ≡ bits_below words.now end }
{
    let mut count = ones_in(words, end);
    for word in &words[from / WORD..end / WORD] {
        count += word.count_ones() as usize;
    }
    count - ones_in(words, from)
}

/// How many bits of the place's word are set below it.
fn ones_in(words: &[u64], place: usize) -> usize
    requires { place ≤ places words.now }
    ensures count { result + bits_below words.now (place / 64 * 64) ≡ bits_below words.now place }
    ensures few { result ≤ 64 }
{
    low_word(words, place).count_ones() as usize
}

/// The bits of the place's word below it.
fn low_word(words: &[u64], place: usize) -> u64
    requires { place ≤ places words.now }
    ensures { result ≡ slice_index words.now (place / 64) % 2 ^ (place % 64) }
{
    let count = place % WORD;
    if count == 0 {
        0
    } else {
        low_bits(words[place / WORD], count)
    }
}

/// The lowest bits of a word.
pub fn low_bits(word: u64, count: usize) -> u64
    requires some { 1 ≤ count }
    requires few { count ≤ 64 }
    ensures { result ≡ word % 2 ^ count }
{
    word & (u64::MAX >> (64 - count))
}
