// Numbers of a row, within their limits.
ghost use Rattle.std.specs.Prelude.{◌≡◌, true, false, ◌≤◌, ◌+ℤ◌, unsigned_abs, IfOk, IfErr, OnOk, IfSome};
ghost use Rattle.std.specs.List.{list_all};
ghost use Rattle.fzn_cited.specs.declared.fault.DeriveFault.TheVariants.{NotDerived};
ghost use Rattle.fzn_weights.specs.Limits.{is_number_within, is_entry_within};
ghost use Rattle.fzn_weights.specs.Weights.{both_weights};

use fzn_cited::DeriveFault;

/// How far from 0 the bound and what is listed lie at the most: 10^18.
pub const LIMIT: u64 = 1_000_000_000_000_000_000;

/// A number and what is added to it, unless that is further from 0 than the limit, which is at most 10^18: then `NotDerived`.
pub fn sum_within(number: i64, amount: i128, limit: u64) -> Result<i64, DeriveFault>
    requires amount { unsigned_abs amount ≤ 10000000000000000000000000000000 }
    requires limit { limit ≤ 1000000000000000000 }
    ensures ok { IfOk result (λ sum. sum ≡ number +ℤ amount) }
    ensures within { OnOk result (is_number_within limit (number +ℤ amount) ≡ true) }
    ensures err { IfErr result (λ fault. (fault ≡ NotDerived) × (is_number_within limit (number +ℤ amount) ≡ false)) }
{
    let sum = number as i128 + amount;
    if is_number_within(sum, limit) {
        Ok(sum as i64)
    } else {
        Err(DeriveFault::NotDerived)
    }
}

/// Whether the number is that far from 0 at the most.
fn is_number_within(number: i128, limit: u64) -> bool
    ensures { result ≡ is_number_within limit number }
{
    let limit = limit as i128;
    -limit <= number && number <= limit
}

/// Both weights together, unless that leaves the limits; none where either is barred.
pub(crate) fn plus(entry: Option<i64>, more: Option<i128>) -> Result<Option<i64>, DeriveFault>
    requires more { IfSome more (λ weight. unsigned_abs weight ≤ 10000000000000000000000000000000) }
    ensures ok { IfOk result (λ both. both ≡ both_weights entry more) }
    ensures within { IfOk result (λ both. is_entry_within both ≡ true) }
    ensures err { IfErr result (λ fault. (fault ≡ NotDerived) × (is_entry_within (both_weights entry more) ≡ false)) }
{
    match (entry, more) {
        (Some(weight), Some(more)) => Ok(Some(sum_within(weight, more, LIMIT)?)),
        _ => Ok(None),
    }
}

/// Whether each entry is none, or from -10^18 to 10^18.
pub fn are_within(entries: &[Option<i64>]) -> bool
    ensures { result ≡ list_all is_entry_within entries.now }
{
    entries.iter().all(|entry| is_entry_within(entry))
}

fn is_entry_within(entry: &Option<i64>) -> bool
    ensures { result ≡ is_entry_within entry.now }
{
    match entry {
        None => true,
        Some(weight) => is_number_within(*weight as i128, LIMIT),
    }
}
