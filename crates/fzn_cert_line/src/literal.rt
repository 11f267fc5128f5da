ghost use Rattle.std.specs.Prelude.{◌≡◌, ◌≤◌, length};
ghost use Rattle.std.specs.Option.{option_map};
ghost use Rattle.fzn_cert.specs.Words.{op_at, digits_len, literal_of};

use crate::number::{number_of, value_of};
use crate::words::Item;
use fzn_domain::{Lit, Op, VarId};

impl Item for Lit {
    ghost use Rattle.fzn_cert.specs.Words.{literal_of};

    ghost item_of = { literal_of };

    fn of_word(word: &[u8]) -> Option<Lit> {
        literal_of(word)
    }
}

#[tactic(auto, unfolding(fzn_cert::specs::Words::literal_of))]
fn literal_of(word: &[u8]) -> Option<Lit>
    ensures { result ≡ literal_of word.now }
{
    let (digits, rest) = word.split_at(digits_len(word));
    let var = number_of(digits)?;
    let (op, bound) = op_at(rest)?;
    let value = value_of(bound)?;
    Some(Lit {
        var: VarId(var as usize),
        op,
        value,
    })
}

/// How many digits stand at the front.
fn digits_len(word: &[u8]) -> usize
    ensures value { result ≡ digits_len word.now }
    ensures within { result ≤ length word.now }
{
    for (place, byte) in word.iter().enumerate() {
        if !byte.is_ascii_digit() {
            return place;
        }
    }
    word.len()
}

/// The operator at the front, and the bytes after it.
#[tactic(auto, unfolding(fzn_cert::specs::Words::op_at))]
fn op_at(text: &[u8]) -> Option<(Op, &[u8])>
    ensures { option_map (λ found. (found.0, found.1.now)) result ≡ op_at text.now }
{
    if text.starts_with(b"<=") {
        Some((Op::AtMost, &text[2..]))
    } else if text.starts_with(b">=") {
        Some((Op::AtLeast, &text[2..]))
    } else if text.starts_with(b"==") {
        Some((Op::Equal, &text[2..]))
    } else if text.starts_with(b"!=") {
        Some((Op::NotEqual, &text[2..]))
    } else {
        None
    }
}
