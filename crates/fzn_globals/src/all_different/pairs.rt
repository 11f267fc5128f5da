// What follows from two places that are different: by the rule `hall` of one value.
ghost use Rattle.std.specs.Prelude.{◌≡◌, ◌≢◌, ◌<◌, [], IfOk, IfSome, IfNone, OnOk, length};
ghost use Rattle.fzn_domain.specs.Limits.{IsInLimits};
ghost use Rattle.fzn_globals.specs.Apart.{IsApartFrom};
ghost use Rattle.fzn_globals.specs.DifferentPasses.{IsJustifiedByHall, AreFoundOfDifferent, DifferWhereFixed, IsNotShared};

use crate::all_different::pass::Pass;
use fzn_domain::{Lit, Memory};
use fzn_list::Items;
use fzn_propagator::Findings;
use fzn_rules::Rule;
use fzn_terms::{Claim, explain, force, has_other, least_of, may_be};

/// The clause that the place at i or the one at j, both counted from 0, has another value. Nothing where it is none of the trail: the first
/// may have another value then, or the second not this one.
fn explain_apart(pass: &Pass, i: usize, j: usize, value: &i64) -> Result<Option<Items<Lit>>, Memory>
    requires first { i < length pass.now.places.now }
    requires second { j < length pass.now.places.now }
    requires apart { j ≢ i }
    requires limits { IsInLimits value.now }
    ensures found { IfOk result (λ found. IfSome found (IsJustifiedByHall pass.now value.now value.now)) }
    ensures none { IfOk result (λ found. IfNone found (IsNotShared pass.now i j value.now)) }
{
    let (place, other) = (pass.places[i], pass.places[j]);
    if has_other(pass.trail, place, value) {
        return Ok(None);
    }
    let mut clause = Items::with_capacity(pass.alloc, 2)?;
    explain(pass.trail, Claim::equal(place, *value), &mut clause)?;
    if force(pass.trail, Claim::equal(other, *value), &mut clause)? {
        Ok(Some(clause))
    } else {
        Ok(None)
    }
}

/// Finds that the place at i or the one at j has another value.
pub(crate) fn bar_pair(
    pass: &Pass,
    i: usize,
    j: usize,
    value: &i64,
    found: &mut Findings,
) -> Result<(), Memory>
    requires first { i < length pass.now.places.now }
    requires second { j < length pass.now.places.now }
    requires apart { j ≢ i }
    requires limits { IsInLimits value.now }
    requires before { AreFoundOfDifferent pass.now found.old }
    ensures found { AreFoundOfDifferent pass.now found.new }
    ensures kept { found.new ≡ [] → found.old ≡ [] }
    ensures none { OnOk result (found.new ≡ [] → IsNotShared pass.now i j value.now) }
{
    if !may_be(pass.trail, pass.places[j], value) {
        return Ok(());
    }
    let Some(clause) = explain_apart(pass, i, j, value)? else {
        return Ok(());
    };
    found.hand_over(pass.number, Rule::Hall(*value, *value), Some(clause))?;
    Ok(())
}

/// Finds of each other place that it has not the one value of the place at i.
pub(crate) fn bar_like(pass: &Pass, i: usize, found: &mut Findings) -> Result<(), Memory>
    requires place { i < length pass.now.places.now }
    requires before { AreFoundOfDifferent pass.now found.old }
    ensures found { AreFoundOfDifferent pass.now found.new }
    ensures kept { found.new ≡ [] → found.old ≡ [] }
    ensures none { OnOk result (found.new ≡ [] → IsApartFrom pass.now.trail.now.sets pass.now.places.now i (length pass.now.places.now)) }
{
    let value = least_of(pass.trail, pass.places[i]);
    if has_other(pass.trail, pass.places[i], &value) {
        return Ok(());
    }
    for j in 0..pass.places.len() {
        if j != i {
            bar_pair(pass, i, j, &value, found)?;
        }
    }
    Ok(())
}

/// Finds of each place that it has not the one value of another, each place compared with all others.
pub(crate) fn bar_compared(pass: &Pass, found: &mut Findings) -> Result<(), Memory>
    requires before { AreFoundOfDifferent pass.now found.old }
    ensures found { AreFoundOfDifferent pass.now found.new }
    ensures none { OnOk result (found.new ≡ [] → DifferWhereFixed pass.now) }
{
    for i in 0..pass.places.len() {
        bar_like(pass, i, found)?;
    }
    Ok(())
}
