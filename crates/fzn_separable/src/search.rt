// What a pass looks for: that the parts weigh too much, and else values that weigh too much beside the others.
ghost use Rattle.std.specs.Prelude.{◌≡◌, ◌≢◌, ◌<◌, ◌<ℤ◌, [], None, length, slice_index_or, OnOk};
ghost use Rattle.fzn_meaning.specs.declared.row.Part.{Part};
ghost use Rattle.fzn_rules.specs.Separable.{IsLeastWeight};
ghost use Rattle.fzn_propagator.specs.Inference.{HoldsWhereFixed};
ghost use Rattle.fzn_levels.specs.Levels.{AreNoLighterBut, sum_of};
ghost use Rattle.fzn_separable.specs.Passes.{constraint_of, AreFoundOfRow, AreLeastsOf};

use crate::values::find_values;
use fzn_domain::Memory;
use fzn_levels::{
    Falls, Pass, are_enough, explain_levels, explain_part, least_at, levels_of, sum_of,
};
use fzn_list::Items;
use fzn_propagator::Findings;
use fzn_rules::Rule;

/// Finds that the row cannot be met, or else the values that cannot be taken.
pub(crate) fn find_all(pass: &Pass, found: &mut Findings) -> Result<(), Memory>
    requires before { AreFoundOfRow pass.now found.old }
    ensures found { AreFoundOfRow pass.now found.new }
    ensures none { OnOk result (found.new ≡ [] → HoldsWhereFixed pass.now.trail.now (constraint_of pass.now)) }
{
    let parts = pass.row.parts.as_slice();
    let mut leasts = Vec::with_capacity(pass.alloc, parts.len())?;
    for k in 0..parts.len() {
        match least_at(pass, k) {
            None => return find_barred(pass, k, found),
            Some(least) => leasts.push(least)?,
        }
    }
    find_by_leasts(pass, leasts.as_slice(), found)
}

/// Finds that each weight of the part at an index is barred.
fn find_barred(pass: &Pass, k: usize, found: &mut Findings) -> Result<(), Memory>
    requires inside { k < length pass.now.row.now.parts }
    requires barred { (default : Part) → IsLeastWeight pass.now.trail.now.sets (slice_index_or pass.now.row.now.parts k default) None }
    requires before { AreFoundOfRow pass.now found.old }
    ensures found { AreFoundOfRow pass.now found.new }
    ensures some { OnOk result (found.new ≢ []) }
{
    let mut clause = Items::new(pass.alloc);
    explain_part(pass, &pass.row.parts.as_slice()[k], None, &mut clause)?;
    found.hand_over(pass.number, Rule::Row, Some(clause))
}

/// Finds by what the parts weigh at least.
fn find_by_leasts(pass: &Pass, leasts: &[i128], found: &mut Findings) -> Result<(), Memory>
    requires leasts { AreLeastsOf pass.now leasts.now }
    requires before { AreFoundOfRow pass.now found.old }
    ensures found { AreFoundOfRow pass.now found.new }
    ensures none { OnOk result (found.new ≡ [] → HoldsWhereFixed pass.now.trail.now (constraint_of pass.now)) }
{
    let total = sum_of(leasts);
    if (pass.row.bound as i128) < total {
        return find_over(pass, leasts, total, found);
    }
    let mut falls = Falls::new();
    for k in 0..leasts.len() {
        find_values(pass, leasts, total, k, &mut falls, found)?;
    }
    Ok(())
}

/// Finds that the parts weigh more than the bound at least.
fn find_over(pass: &Pass, leasts: &[i128], total: i128, found: &mut Findings) -> Result<(), Memory>
    requires leasts { AreLeastsOf pass.now leasts.now }
    requires over { pass.now.row.now.bound <ℤ sum_of leasts.now }
    requires before { AreFoundOfRow pass.now found.old }
    ensures found { AreFoundOfRow pass.now found.new }
    ensures some { OnOk result (found.new ≢ []) }
{
    let slack = total
        .saturating_sub(pass.row.bound as i128)
        .saturating_sub(1);
    let mut falls = Falls::new();
    let levels = levels_of(pass, leasts, &mut falls, leasts.len(), slack)?;
    let levels = levels.as_slice();
    if are_enough(pass, leasts, levels, leasts.len()) {
        find_above(pass, levels, found)
    } else {
        find_above(pass, leasts, found)
    }
}

/// Finds that these levels, below which no part weighs, come to more than the bound.
fn find_above(pass: &Pass, levels: &[i128], found: &mut Findings) -> Result<(), Memory>
    requires one_each { length levels.now ≡ length pass.now.row.now.parts }
    requires present { AreNoLighterBut (length pass.now.row.now.parts) pass.now.row.now.parts levels.now pass.now.trail.now.sets }
    requires over { pass.now.row.now.bound <ℤ sum_of levels.now }
    requires before { AreFoundOfRow pass.now found.old }
    ensures found { AreFoundOfRow pass.now found.new }
    ensures some { OnOk result (found.new ≢ []) }
{
    let mut clause = Items::new(pass.alloc);
    explain_levels(pass, levels, pass.row.parts.len(), &mut clause)?;
    found.hand_over(pass.number, Rule::Row, Some(clause))
}
