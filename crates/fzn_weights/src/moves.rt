// What a variable weighs at the values of another one that decides it.
ghost use Rattle.std.specs.Prelude.{◌≡◌, ◌⊎◌, ◌<◌, ◌≤◌, true, false, length, unsigned_abs, option_and_then, IfOk, IfErr, IfSome};
ghost use Rattle.std.specs.List.{list_all};
ghost use Rattle.fzn_domain.specs.IntSet.{size};
ghost use Rattle.fzn_domain.specs.Narrow.{IsVariable, set_of};
ghost use Rattle.fzn_meaning.specs.Solutions.{declared_sets};
ghost use Rattle.fzn_cited.specs.declared.fault.DeriveFault.TheVariants.{Memory, NotDerived};
ghost use Rattle.fzn_meaning.specs.Separable.{IsWeightList, IsCoefficient};
ghost use Rattle.fzn_dependence.specs.Dependence.{dependent_at};
ghost use Rattle.fzn_weights.specs.Limits.{is_entry_within};
ghost use Rattle.fzn_weights.specs.Moves.{weight_within, weight_where, moved_from, span, is_narrow};

use crate::limits::plus;
use fzn_cited::DeriveFault;
use fzn_dependence::Dependence;
use fzn_domain::{Domain, VarId};
use fzn_list::Items;
use fzn_meaning::{Listed, Var, VariablePart, listed_at, weight_at};
use std::alloc::Global;

/// How many values are listed at the most by one move.
pub const MOST_TARGETS: usize = 65_536;

/// What was listed for each of so many values from low on, and what the part weighs at the value that is decided there, unless one of these
/// leaves the limits.
pub fn moved(
    alloc: Global,
    old: &Option<Listed>,
    low: &i64,
    count: usize,
    set: &Domain,
    part: &VariablePart,
    dependence: &Dependence<'_>,
) -> Result<Items<Option<i64>>, DeriveFault>
    requires old { IfSome old.now IsWeightList }
    requires low { unsigned_abs low.now ≤ 1000000000 }
    requires few { count ≤ 65536 }
    requires part { IfSome part.now.listed IsWeightList × IsCoefficient part.now.coefficient }
    ensures ok { IfOk result (λ entries. entries ≡ moved_from (weight_where set.now part.now (dependent_at dependence.now)) low.now count old.now) }
    ensures within { IfOk result (λ entries. list_all is_entry_within entries ≡ true) }
    ensures err { IfErr result (λ fault. (fault ≡ Memory) ⊎ ((fault ≡ NotDerived) × (list_all is_entry_within (moved_from (weight_where set.now part.now (dependent_at dependence.now)) low.now count old.now) ≡ false))) }
{
    let mut entries = Items::new(alloc);
    for i in 0..count {
        let value = *low + i as i64;
        let more = dependent_weight(set, part, dependence, &value);
        let entry = plus(listed_at(old, &value), more)?;
        entries.push(entry)?;
    }
    Ok(entries)
}

/// What the part, whose variable has this set, weighs where the other variable has this value.
fn dependent_weight(
    set: &Domain,
    part: &VariablePart,
    dependence: &Dependence<'_>,
    value: &i64,
) -> Option<i128>
    requires part { IfSome part.now.listed IsWeightList × IsCoefficient part.now.coefficient }
    requires value { unsigned_abs value.now ≤ 10000000000 }
    ensures value { result ≡ option_and_then (weight_within set.now part.now) (dependent_at dependence.now value.now) }
    ensures bounded { IfSome result (λ weight. unsigned_abs weight ≤ 10000000000000000000000000000000) }
{
    weight_within(set, part, dependence.at(value)?)
}

/// What the part weighs at the number, where that is in the set.
fn weight_within(set: &Domain, part: &VariablePart, number: i128) -> Option<i128>
    requires part { IfSome part.now.listed IsWeightList × IsCoefficient part.now.coefficient }
    ensures value { result ≡ weight_within set.now part.now number }
    ensures bounded { IfSome result (λ weight. unsigned_abs weight ≤ 10000000000000000000000000000000) }
{
    if set.is_empty() {
        return None;
    }
    if number < set.min() as i128 {
        return None;
    }
    if number > set.max() as i128 {
        return None;
    }
    let value = number as i64;
    if set.contains(value) {
        weight_at(part, &value)
    } else {
        None
    }
}

/// The declared set of the variable.
pub fn declared_set(vars: &[Var], var: VarId) -> &Domain
    requires { IsVariable (length vars.now) var }
    ensures { result.now ≡ set_of (declared_sets vars.now) var }
{
    &vars[var.0 - 1].domain
}

/// How many numbers there are from the least to the greatest.
pub fn span(set: &Domain) -> usize
    requires { 0 < size set.now }
    ensures value { result ≡ span set.now }
{
    (set.max() - set.min()) as usize + 1
}

/// Some number, and at most 65,536 from the least to the greatest.
pub fn is_narrow(set: &Domain) -> bool
    ensures { result ≡ is_narrow set.now }
{
    !set.is_empty() && span(set) <= MOST_TARGETS
}
