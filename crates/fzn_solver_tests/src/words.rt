// Bits that two lists of words have in common, against a loop over the words.
use fzn_domain::Memory;
use fzn_table::first_common;
use std::alloc::Global;
use std::test::*;

/// The first bit that is set in both lists, word by word and bit by bit.
fn plainly(words: &[u64], others: &[u64]) -> Option<usize> {
    for i in 0..words.len() {
        for bit in 0..64u32 {
            let one = 1u64 << bit;
            if i < others.len() && words[i] & one != 0 && others[i] & one != 0 {
                return Some(i.saturating_mul(64).saturating_add(bit as usize));
            }
        }
    }
    None
}

/// So many words with every other bit, and one of its own where the place is among them.
fn words_of(
    alloc: Global,
    count: usize,
    word: u64,
    place: usize,
    own: u64,
) -> Result<Vec<u64>, Memory> {
    let mut words = Vec::new(alloc);
    for i in 0..count {
        words.push(if i == place { own } else { word })?;
    }
    Ok(words)
}

const EVEN: u64 = 0x5555_5555_5555_5555;

/// Whether the first bit in common is that of the plain loop, where of so many words the one at the place, if any, is the lists' own.
fn is_plain(alloc: Global, count: usize, place: usize, own: u64) -> Result<bool, Memory> {
    let words = words_of(alloc, count, EVEN, place, own)?;
    let others = words_of(alloc, count, !EVEN, place, own)?;
    Ok(first_common(&words, &others) == plainly(&words, &others))
}

#[test]
fn common_bits_are_those_of_the_plain_loop(rt: HostRuntime) -> Result<(), Fail> {
    for count in 0..34 {
        for place in 0..count + 1 {
            for own in [0, 1, 2, 1 << 31, 1 << 32, 1 << 63, u64::MAX] {
                assert!(rt;
                    is_plain(rt.alloc(), count, place, own)?,
                    "{count} words, {own} at {place}"
                );
            }
        }
    }
    Ok(())
}

#[test]
fn lists_of_other_lengths_count_as_far_as_the_shorter(rt: HostRuntime) {
    let words = [0, 0, 0, 0, 0, 6];
    let longer = [0, 0, 0, 0, 0, 4, 1];
    assert!(rt; first_common(&words, &longer) == Some(322));
    assert!(rt; first_common(&longer, &words) == Some(322));
    assert!(rt; first_common(&words, &[u64::MAX; 5]).is_none());
    assert!(rt; first_common(&words, &[]).is_none());
}
