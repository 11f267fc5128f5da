// Forms that are multiplied.
ghost use Rattle.std.specs.Prelude.{◌≡◌, ◌≤◌, nat_le, pos, ◌-ℤ◌, ◌*ℤ◌, unsigned_abs};
ghost use Rattle.fzn_domain.specs.Limits.{IsSmall};
ghost use Rattle.fzn_builtin_rules.specs.Borrowed.{form_in};
ghost use Rattle.fzn_weights.specs.Multiples.{may_multiply, is_usable};

use fzn_builtin_rules::Form;
use fzn_meaning::Comparison;

/// How far from 0 a multiplier lies at the most: 10^12.
const GREATEST_MULTIPLIER: i64 = 1_000_000_000_000;

/// A coefficient or a bound, from -10^9 to 10^9, times a multiplier, from -10^12 to 10^12.
pub fn product(number: &i64, multiplier: &i64) -> i128
    requires number { IsSmall number.now }
    requires multiplier { unsigned_abs multiplier.now ≤ 1000000000000 }
    ensures value { result ≡ number.now *ℤ multiplier.now }
    ensures bounded { unsigned_abs result ≤ 1000000000000000000000 }
{
    *number as i128 * *multiplier as i128
}

/// What a constant, from -10^9 to 10^9, times this amount takes from the bound.
pub fn less_product(amount: &i128, value: &i64) -> i128
    requires amount { unsigned_abs amount.now ≤ 1000000000000000000000 }
    requires value { IsSmall value.now }
    ensures value { result ≡ pos 0 -ℤ amount.now *ℤ value.now }
    ensures bounded { unsigned_abs result ≤ 1000000000000000000000000000000 }
{
    -(*amount * *value as i128)
}

/// Whether the form may be multiplied so: a sum that is at most its bound by 1 to 10^12, one that is its bound by any but 0 from -10^12 to
/// 10^12, and no other.
pub fn is_usable(multiplier: &i64, form: &Form<'_>) -> bool
    ensures { result ≡ is_usable multiplier.now (form_in form.now) }
{
    form.switch.is_none() && may_multiply(form.comparison, multiplier) && is_multiplier(multiplier)
}

/// Whether a comparison is kept.
fn may_multiply(comparison: Comparison, multiplier: &i64) -> bool
    ensures { result ≡ may_multiply comparison multiplier.now }
{
    match comparison {
        Comparison::AtMost => 1 <= *multiplier,
        Comparison::Equal => *multiplier != 0,
        Comparison::NotEqual => false,
    }
}

fn is_multiplier(multiplier: &i64) -> bool
    ensures { result ≡ nat_le (unsigned_abs multiplier.now) 1000000000000 }
{
    -GREATEST_MULTIPLIER <= *multiplier && *multiplier <= GREATEST_MULTIPLIER
}
