ghost use Rattle.std.specs.Prelude.{◌≡◌, ◌==◌, ◌<◌, ◌≤◌, ◌^◌, true, length, slice_index, IfSome, IsTrue};
ghost use Rattle.std.specs.List.{list_all};
ghost use Rattle.std.specs.Char.{is_ascii_digit};
ghost use Rattle.std.specs.Str.Parse.{digits_value};
ghost use Rattle.fzn_cert.specs.Words.{is_sized, natural_of, positive_of, integer_of, is_between, hint_of, value_spelled, is_value};
ghost use Rattle.fzn_cert.specs.Derivations.{multiplier_of, first_priced_of};

use crate::words::Item;
use fzn_domain::{GREATEST_BOUND, LEAST_BOUND};
use fzn_rules::{GREATEST_HINT, LEAST_HINT};

/// A multiplier and a price are no greater, and their opposites no less.
const GREATEST_MULTIPLIER: i64 = 1_000_000_000_000;

/// The number that has the first price is no greater, and its opposite no less.
const GREATEST_FIRST_PRICED: i64 = 1_000_000_000;

/// The number that a word of at most 18 digits spells, below 10^18. It answers `None` where another sign or none stands there, or a 0 in
/// front of other digits.
#[tactic(auto, unfolding(fzn_cert::specs::Words::natural_of))]
pub fn natural_of(word: &[u8]) -> Option<u64>
    ensures value { result ≡ natural_of word.now }
    ensures short { IfSome result (λ number. number < 10 ^ 18) }
{
    if is_sized(word) && has_only_digits(word) {
        Some(digits_value(word))
    } else {
        None
    }
}

/// The number, at least 1, that a word spells.
#[tactic(auto, unfolding(fzn_cert::specs::Words::positive_of))]
pub fn number_of(word: &[u8]) -> Option<u64>
    ensures value { result ≡ positive_of word.now }
    ensures short { IfSome result (λ number. number < 10 ^ 18) }
{
    match natural_of(word) {
        Some(0) | None => None,
        Some(number) => Some(number),
    }
}

/// The whole number that a word spells.
#[tactic(auto, unfolding(fzn_cert::specs::Words::integer_of))]
pub(crate) fn integer_of(word: &[u8]) -> Option<i64>
    ensures { result ≡ integer_of word.now }
{
    if is_negative(word) {
        let amount = number_of(&word[1..])? as i64;
        Some(-amount)
    } else {
        Some(natural_of(word)? as i64)
    }
}

fn is_negative(word: &[u8]) -> bool
    ensures sign { result ≡ (slice_index word.now 0 == 45) }
    ensures some { IsTrue result → 0 < length word.now }
{
    !word.is_empty() && word[0] == b'-'
}

/// Whether a number may be a value or the bound of a literal.
pub fn is_value(number: i64) -> bool
    ensures { result ≡ is_value number }
{
    LEAST_BOUND <= number && number <= GREATEST_BOUND
}

/// The number of a literal or of a solution that a word spells.
#[tactic(auto, unfolding(fzn_cert::specs::Words::integer_within))]
pub fn value_of(word: &[u8]) -> Option<i64>
    ensures { result ≡ value_spelled word.now }
{
    match integer_of(word) {
        Some(number) if is_value(number) => Some(number),
        _ => None,
    }
}

/// The multiplier or the price that a word spells.
#[tactic(auto, unfolding(fzn_cert::specs::Words::integer_within))]
pub(crate) fn multiplier_of(word: &[u8]) -> Option<i64>
    ensures { result ≡ multiplier_of word.now }
{
    match integer_of(word) {
        Some(number) if -GREATEST_MULTIPLIER <= number && number <= GREATEST_MULTIPLIER => {
            Some(number)
        }
        _ => None,
    }
}

/// The number of the first price that a word spells.
#[tactic(auto, unfolding(fzn_cert::specs::Words::integer_within))]
pub(crate) fn first_priced_of(word: &[u8]) -> Option<i64>
    ensures { result ≡ first_priced_of word.now }
{
    match integer_of(word) {
        Some(number) if -GREATEST_FIRST_PRICED <= number && number <= GREATEST_FIRST_PRICED => {
            Some(number)
        }
        _ => None,
    }
}

impl Item for i64 {
    ghost use Rattle.fzn_cert.specs.Words.{hint_of};

    ghost item_of = { hint_of };

    #[tactic(auto, unfolding(fzn_cert::specs::Words::integer_within))]
    fn of_word(word: &[u8]) -> Option<i64> {
        match integer_of(word) {
            Some(number) if LEAST_HINT <= number && number <= GREATEST_HINT => Some(number),
            _ => None,
        }
    }
}

impl Item for u64 {
    ghost use Rattle.fzn_cert.specs.Words.{positive_of};

    ghost item_of = { positive_of };

    fn of_word(word: &[u8]) -> Option<u64> {
        number_of(word)
    }
}

fn is_sized(word: &[u8]) -> bool
    ensures { result ≡ is_sized word.now }
{
    !word.is_empty() && word.len() <= 18 && (word.len() == 1 || word[0] != b'0')
}

fn has_only_digits(word: &[u8]) -> bool
    ensures { result ≡ list_all is_ascii_digit word.now }
{
    word.iter().all(|byte| byte.is_ascii_digit())
}

fn digits_value(digits: &[u8]) -> u64
    requires digits { list_all is_ascii_digit digits.now ≡ true }
    requires length { length digits.now ≤ 18 }
    ensures value { result ≡ digits_value 10 digits.now }
    ensures short { result < 10 ^ 18 }
{
    let mut number = 0u64;
    for digit in digits {
        number = number * 10 + u64::from(*digit - b'0');
    }
    number
}
