// What is listed for the places of an inverse, and where a variable stands among them.
ghost use Rattle.std.specs.Prelude.{◌≡◌, ◌⊎◌, ◌≤◌, true, false, pos, unsigned_abs, IfOk, IfErr, IfSome};
ghost use Rattle.std.specs.List.{list_all};
ghost use Rattle.fzn_cited.specs.declared.fault.DeriveFault.TheVariants.{Memory, NotDerived};
ghost use Rattle.fzn_meaning.specs.Separable.{IsWeightList, IsWithinLimit};
ghost use Rattle.fzn_weights.specs.Limits.{is_entry_within};
ghost use Rattle.fzn_weights.specs.Inverses.{raised_entry, raised_from, place_in};

use crate::limits::plus;
use fzn_cited::DeriveFault;
use fzn_dependence::is_place_of;
use fzn_domain::VarId;
use fzn_list::Items;
use fzn_meaning::{Listed, listed_at};
use fzn_values::Term;
use std::alloc::Global;

/// What was listed for each of so many values from 1 on, and for one of them so much more, unless that leaves the limits.
pub fn raised(
    alloc: Global,
    old: &Option<Listed>,
    count: usize,
    raised_value: i64,
    more: Option<i128>,
) -> Result<Items<Option<i64>>, DeriveFault>
    requires old { IfSome old.now IsWeightList }
    requires few { count ≤ 65536 }
    requires more { IfSome more (λ weight. unsigned_abs weight ≤ 10000000000000000000000000000000) }
    ensures ok { IfOk result (λ entries. entries ≡ raised_from (pos 1) count raised_value more old.now) }
    ensures within { IfOk result (λ entries. list_all is_entry_within entries ≡ true) }
    ensures err { IfErr result (λ fault. (fault ≡ Memory) ⊎ ((fault ≡ NotDerived) × (list_all is_entry_within (raised_from (pos 1) count raised_value more old.now) ≡ false))) }
{
    let mut entries = Items::new(alloc);
    for i in 0..count {
        let value = 1 + i as i64;
        let entry = raised_entry(value == raised_value, listed_at(old, &value), more)?;
        entries.push(entry)?;
    }
    Ok(entries)
}

/// What was listed, and so much more where the value is raised, unless that leaves the limits.
fn raised_entry(
    is_raised: bool,
    entry: Option<i64>,
    more: Option<i128>,
) -> Result<Option<i64>, DeriveFault>
    requires entry { IfSome entry IsWithinLimit }
    requires more { IfSome more (λ weight. unsigned_abs weight ≤ 10000000000000000000000000000000) }
    ensures ok { IfOk result (λ both. both ≡ raised_entry is_raised entry more) }
    ensures within { IfOk result (λ both. is_entry_within both ≡ true) }
    ensures err { IfErr result (λ fault. (fault ≡ NotDerived) × (is_entry_within (raised_entry is_raised entry more) ≡ false)) }
{
    if is_raised {
        plus(entry, more)
    } else {
        Ok(entry)
    }
}

/// The first place of the variable, counted from 0.
pub fn place_in(places: &[Term], var: VarId) -> Option<usize>
    ensures { result ≡ place_in var places.now }
{
    places.iter().position(|place| is_place_of(*place, var))
}
