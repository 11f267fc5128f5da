// Numbers among the words.
ghost use Rattle.std.specs.Prelude.{◌≡◌, ◌<◌, ◌≤◌, ◌^◌, true, length, nat_le, MatchOption};
ghost use Rattle.std.specs.List.{list_all};
ghost use Rattle.std.specs.Char.{is_ascii_digit};
ghost use Rattle.std.specs.Str.Parse.{digits_value};
ghost use Rattle.fzn_options.specs.Words.{number_between};

/// The number that a word of digits spells, where it lies between these two.
pub fn number_in(word: &str, least: u64, most: u64) -> Option<u64>
    ensures { result ≡ number_between least most word.now }
{
    if !(is_some(word) && has_only_digits(word)) {
        return None;
    }
    let number = value_of(word)?;
    if least <= number && number <= most {
        Some(number)
    } else {
        None
    }
}

fn is_some(word: &str) -> bool
    ensures { result ≡ nat_le 1 (length word.now) }
{
    1 <= word.len()
}

fn has_only_digits(word: &str) -> bool
    ensures { result ≡ list_all is_ascii_digit word.now }
{
    word.as_bytes().iter().all(|byte| byte.is_ascii_digit())
}

/// What the digits spell, where it is below 2^64.
#[tactic(auto, using(crate::proofs::NumberLemmas::digits_read))]
fn value_of(digits: &str) -> Option<u64>
    requires digits { list_all is_ascii_digit digits.now ≡ true }
    requires some { 1 ≤ length digits.now }
    ensures { MatchOption result (2 ^ 64 ≤ digits_value 10 digits.now) (λ number. number ≡ digits_value 10 digits.now) }
{
    match digits.parse::<u64>() {
        Ok(number) => Some(number),
        Err(_) => None,
    }
}
