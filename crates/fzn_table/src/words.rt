// Bits that two lists of words have in common.
ghost use Rattle.std.specs.Prelude.{◌≡◌, ◌≤◌, ℕ, false, length, min, IfNone, IfSome};
ghost use Rattle.fzn_table.specs.Words.{IsFirstCommon, NoneCommon, HaveNoCommonBit};

use std::simd::prelude::*;

/// The first bit that is set in both lists, counted from 0 at the lowest bit of the first word, or `usize::MAX` where its number is
/// greater. `None` where no bit is set in both, as far as the shorter list goes.
pub fn first_common(words: &[u64], others: &[u64]) -> Option<usize>
    ensures found { IfSome result (λ bit. (place : ℕ) × (IsFirstCommon words.now others.now place × (bit ≡ min place usize.MAX))) }
    ensures none { IfNone result (NoneCommon words.now others.now) }
{
    for i in first_block(words, others)..words.len().min(others.len()) {
        let both = words[i] & others[i];
        if both != 0 {
            let bit = both.trailing_zeros() as usize;
            return Some(i.saturating_mul(64).saturating_add(bit));
        }
    }
    None
}

/// Four words at a time are passed over that have no bit in common: where the first four begin that have one, or fewer than four are left.
fn first_block(words: &[u64], others: &[u64]) -> usize
    ensures in_words { result ≤ min (length words.now) (length others.now) }
    ensures none { HaveNoCommonBit words.now others.now result }
{
    let (blocks, _) = words.as_chunks::<4>();
    let (other_blocks, _) = others.as_chunks::<4>();
    let count = blocks.len().min(other_blocks.len());
    for i in 0..count {
        if has_common(blocks[i], other_blocks[i]) {
            return i * 4;
        }
    }
    count * 4
}

/// Whether a bit is set in both lists of four words.
fn has_common(words: [u64; 4], others: [u64; 4]) -> bool
    ensures { result ≡ false → HaveNoCommonBit words others 4 }
{
    let both = u64x4::from_array(words) & u64x4::from_array(others);
    both.reduce_or() != 0
}
