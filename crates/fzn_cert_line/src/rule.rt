// The rule of a name and hints.
ghost use Rattle.std.specs.Prelude.{◌≡◌, [], ◌∷◌, not, int_le};
ghost use Rattle.std.specs.Option.{option_map};
ghost use Rattle.fzn_cert.specs.Reading.{rises, short_rule_of, rule_spelled};

use fzn_list::Items;
use fzn_rules::Rule;

/// The rule of this name with these hints.
#[tactic(auto, unfolding(fzn_cert::specs::Reading::rule_spelled))]
pub fn rule_of(name: &[u8], hints: Items<i64>) -> Option<Rule>
    ensures { result ≡ rule_spelled name.now hints }
{
    if name == b"cut".as_slice() {
        if rises(hints.as_slice()) {
            Some(Rule::Cut(hints))
        } else {
            None
        }
    } else {
        short_rule_of(name, hints.as_slice())
    }
}

#[tactic(auto, unfolding(fzn_cert::specs::Reading::short_rule_of))]
fn short_rule_of(name: &[u8], hints: &[i64]) -> Option<Rule>
    ensures { result ≡ short_rule_of name.now hints.now }
{
    match hints {
        [] => rule_without_hints(name),
        [time] if name == b"load".as_slice() => Some(Rule::Load(*time)),
        [first, second] => rule_with_two_hints(name, *first, *second),
        _ => None,
    }
}

#[tactic(auto, unfolding(fzn_cert::specs::Reading::short_rule_of))]
fn rule_without_hints(name: &[u8]) -> Option<Rule>
    ensures { result ≡ short_rule_of name.now [] }
{
    if name == b"lin".as_slice() {
        Some(Rule::Lin)
    } else if name == b"rows".as_slice() {
        Some(Rule::Rows)
    } else if name == b"box".as_slice() {
        Some(Rule::Box)
    } else if name == b"fixed".as_slice() {
        Some(Rule::Fixed)
    } else if name == b"enum".as_slice() {
        Some(Rule::Enum)
    } else if name == b"row".as_slice() {
        Some(Rule::Row)
    } else {
        None
    }
}

#[tactic(auto, unfolding(fzn_cert::specs::Reading::short_rule_of))]
fn rule_with_two_hints(name: &[u8], first: i64, second: i64) -> Option<Rule>
    ensures { result ≡ short_rule_of name.now (first ∷ second ∷ []) }
{
    if name == b"hall".as_slice() {
        Some(Rule::Hall(first, second))
    } else if name == b"energy".as_slice() {
        Some(Rule::Energy(first, second))
    } else if name == b"pair".as_slice() {
        Some(Rule::Pair(first, second))
    } else {
        None
    }
}

/// Whether each number is below the next.
pub fn rises(numbers: &[i64]) -> bool
    ensures { result ≡ rises numbers.now }
{
    let mut left = numbers;
    while left.len() > 1 {
        if !is_below(&left[0], &left[1]) {
            return false;
        }
        left = &left[1..];
    }
    true
}

fn is_below(first: &i64, second: &i64) -> bool
    ensures { result ≡ not (int_le second.now first.now) }
{
    *first < *second
}
