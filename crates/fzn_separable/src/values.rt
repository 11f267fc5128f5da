// The values of a part that are barred, or weigh more than what the others leave.
ghost use Rattle.std.specs.Prelude.{◌≡◌, ◌<◌, ℤ, pos, ◌≤ℤ◌, ◌<ℤ◌, length, slice_index_or, Some, None};
ghost use Rattle.fzn_domain.specs.Limits.{IsInLimits};
ghost use Rattle.fzn_values.specs.declared.term.Term.TheVariants.{Variable};
ghost use Rattle.fzn_meaning.specs.declared.row.Part.TheVariants as parts;
ghost use Rattle.fzn_meaning.specs.Separable.{weight_at, IsVariablePart};
ghost use Rattle.fzn_terms.specs.Denied.{IsNear};
ghost use Rattle.fzn_levels.specs.Levels.{AreNoLighterBut, sum_of};
ghost use Rattle.fzn_separable.specs.Passes.{AreFoundOfRow, AreLeastsOf, IsPartAt, WeighsWhere};

use fzn_domain::{GREATEST_VALUE, LEAST_VALUE, Memory};
use fzn_levels::{
    Falls, Pass, are_enough, entry_weight, explain_levels, levels_of, narrowed, suspects_at,
    value_at,
};
use fzn_list::Items;
use fzn_meaning::{Listed, Part, VariablePart, weight_at};
use fzn_propagator::Findings;
use fzn_rules::Rule;
use fzn_terms::{Claim, force, greatest_of, least_of};
use fzn_values::Term;

/// Finds the values of the part at an index that are barred, or weigh more than the least weights of the others leave, which are the least
/// ones without its own. Of a table it finds none. The falls are those of these least weights.
pub(crate) fn find_values(
    pass: &Pass,
    leasts: &[i128],
    total: i128,
    k: usize,
    falls: &mut Falls,
    found: &mut Findings,
) -> Result<(), Memory>
    requires leasts { AreLeastsOf pass.now leasts.now }
    requires inside { k < length leasts.now }
    requires before { AreFoundOfRow pass.now found.old }
    ensures found { AreFoundOfRow pass.now found.new }
{
    let Part::Variable(part) = &pass.row.parts.as_slice()[k] else {
        return Ok(()); // To take values of a table's places out brings nothing, as measured.
    };
    let room = (pass.row.bound as i128)
        .saturating_sub(total)
        .saturating_add(leasts[k]);
    match &part.listed {
        None => find_end(pass, leasts, k, part, room, falls, found),
        Some(listed) => {
            find_before(pass, k, part, listed, found)?;
            find_behind(pass, k, part, listed, found)?;
            find_listed(pass, leasts, k, part, listed, room, falls, found)
        }
    }
}

/// Finds the end past which each value of a part without a list weighs more than the room.
fn find_end(
    pass: &Pass,
    leasts: &[i128],
    k: usize,
    part: &VariablePart,
    room: i128,
    falls: &mut Falls,
    found: &mut Findings,
) -> Result<(), Memory>
    requires leasts { AreLeastsOf pass.now leasts.now }
    requires inside { k < length leasts.now }
    requires part { IsVariablePart (length pass.now.trail.now.declared) part.now }
    requires at { IsPartAt pass.now k (parts.Variable part.now) }
    requires plain { part.now.listed ≡ None }
    requires before { AreFoundOfRow pass.now found.old }
    ensures found { AreFoundOfRow pass.now found.new }
{
    if part.coefficient < 0 {
        find_high_end(pass, leasts, k, part, room, falls, found)
    } else {
        find_low_end(pass, leasts, k, part, room, falls, found)
    }
}

/// Finds it where greater values weigh less.
fn find_high_end(
    pass: &Pass,
    leasts: &[i128],
    k: usize,
    part: &VariablePart,
    room: i128,
    falls: &mut Falls,
    found: &mut Findings,
) -> Result<(), Memory>
    requires leasts { AreLeastsOf pass.now leasts.now }
    requires inside { k < length leasts.now }
    requires part { IsVariablePart (length pass.now.trail.now.declared) part.now }
    requires at { IsPartAt pass.now k (parts.Variable part.now) }
    requires plain { part.now.listed ≡ None }
    requires sign { part.now.coefficient <ℤ pos 0 }
    requires before { AreFoundOfRow pass.now found.old }
    ensures found { AreFoundOfRow pass.now found.new }
{
    let term = Term::Variable(part.var);
    let number = last_heavier(room, part.coefficient);
    if number < least_of(pass.trail, term) || greatest_of(pass.trail, term) <= number {
        return Ok(());
    }
    let claim = Claim::at_most(term, number);
    find_beyond(pass, leasts, k, part, room, claim, falls, found)
}

/// Finds it where lesser values weigh less.
fn find_low_end(
    pass: &Pass,
    leasts: &[i128],
    k: usize,
    part: &VariablePart,
    room: i128,
    falls: &mut Falls,
    found: &mut Findings,
) -> Result<(), Memory>
    requires leasts { AreLeastsOf pass.now leasts.now }
    requires inside { k < length leasts.now }
    requires part { IsVariablePart (length pass.now.trail.now.declared) part.now }
    requires at { IsPartAt pass.now k (parts.Variable part.now) }
    requires plain { part.now.listed ≡ None }
    requires sign { pos 0 ≤ℤ part.now.coefficient }
    requires before { AreFoundOfRow pass.now found.old }
    ensures found { AreFoundOfRow pass.now found.new }
{
    let term = Term::Variable(part.var);
    let number = first_heavier(room, part.coefficient);
    if number <= least_of(pass.trail, term) || greatest_of(pass.trail, term) < number {
        return Ok(());
    }
    let claim = Claim::at_least(term, number);
    find_beyond(pass, leasts, k, part, room, claim, falls, found)
}

/// Finds that the claim is not true of the part's value, where it weighs more than the room at the number of the claim.
fn find_beyond(
    pass: &Pass,
    leasts: &[i128],
    k: usize,
    part: &VariablePart,
    room: i128,
    claim: Claim,
    falls: &mut Falls,
    found: &mut Findings,
) -> Result<(), Memory>
    requires leasts { AreLeastsOf pass.now leasts.now }
    requires inside { k < length leasts.now }
    requires part { IsVariablePart (length pass.now.trail.now.declared) part.now }
    requires at { IsPartAt pass.now k (parts.Variable part.now) }
    requires term { claim.term ≡ Variable part.now.var }
    requires near { IsNear claim.number }
    requires heavy { (weight : ℤ) → weight_at part.now claim.number ≡ Some weight → WeighsWhere part.now claim (Some weight) }
    requires before { AreFoundOfRow pass.now found.old }
    ensures found { AreFoundOfRow pass.now found.new }
{
    match weight_at(part, &claim.number) {
        Some(weight) if room < weight => {
            find_without(pass, leasts, k, part, room, claim, weight, falls, found)
        }
        _ => Ok(()),
    }
}

/// Finds that the claim is not true of the part's value: where it is, the part weighs no less than this weight, which is more than the room.
fn find_without(
    pass: &Pass,
    leasts: &[i128],
    k: usize,
    part: &VariablePart,
    room: i128,
    claim: Claim,
    weight: i128,
    falls: &mut Falls,
    found: &mut Findings,
) -> Result<(), Memory>
    requires leasts { AreLeastsOf pass.now leasts.now }
    requires inside { k < length leasts.now }
    requires part { IsVariablePart (length pass.now.trail.now.declared) part.now }
    requires at { IsPartAt pass.now k (parts.Variable part.now) }
    requires term { claim.term ≡ Variable part.now.var }
    requires near { IsNear claim.number }
    requires heavy { WeighsWhere part.now claim (Some weight) }
    requires before { AreFoundOfRow pass.now found.old }
    ensures found { AreFoundOfRow pass.now found.new }
{
    let slack = weight.saturating_sub(room).saturating_sub(1);
    let mut levels = levels_of(pass, leasts, falls, k, slack)?;
    if levels.len() != leasts.len() {
        return Ok(());
    }
    levels[k] = weight;
    let levels = levels.as_slice();
    if are_enough(pass, leasts, levels, k) {
        find_heavy(pass, levels, k, part, claim, weight, found)?;
    }
    Ok(())
}

/// Finds that the claim is not true of the part's value, since with the levels of the others the weight that it has there exceeds the bound.
fn find_heavy(
    pass: &Pass,
    levels: &[i128],
    k: usize,
    part: &VariablePart,
    claim: Claim,
    weight: i128,
    found: &mut Findings,
) -> Result<(), Memory>
    requires one_each { length levels.now ≡ length pass.now.row.now.parts }
    requires present { AreNoLighterBut k pass.now.row.now.parts levels.now pass.now.trail.now.sets }
    requires over { pass.now.row.now.bound <ℤ sum_of levels.now }
    requires part { IsVariablePart (length pass.now.trail.now.declared) part.now }
    requires at { IsPartAt pass.now k (parts.Variable part.now) }
    requires inside { k < length levels.now }
    requires own { (none : ℤ) → slice_index_or levels.now k none ≡ weight }
    requires term { claim.term ≡ Variable part.now.var }
    requires near { IsNear claim.number }
    requires heavy { WeighsWhere part.now claim (Some weight) }
    requires before { AreFoundOfRow pass.now found.old }
    ensures found { AreFoundOfRow pass.now found.new }
{
    let mut clause = Items::new(pass.alloc);
    explain_levels(pass, levels, k, &mut clause)?;
    if force(pass.trail, claim, &mut clause)? {
        found.hand_over(pass.number, Rule::Row, Some(clause))?;
    }
    Ok(())
}

/// Finds that the values of the part do not lie before those that are listed.
fn find_before(
    pass: &Pass,
    k: usize,
    part: &VariablePart,
    listed: &Listed,
    found: &mut Findings,
) -> Result<(), Memory>
    requires inside { k < length pass.now.row.now.parts }
    requires part { IsVariablePart (length pass.now.trail.now.declared) part.now }
    requires at { IsPartAt pass.now k (parts.Variable part.now) }
    requires of { part.now.listed ≡ Some listed.now }
    requires before { AreFoundOfRow pass.now found.old }
    ensures found { AreFoundOfRow pass.now found.new }
{
    let term = Term::Variable(part.var);
    if least_of(pass.trail, term) >= listed.low {
        return Ok(());
    }
    let claim = Claim::at_most(term, listed.low - 1);
    find_barred(pass, k, part, claim, found)
}

/// Finds that they do not lie behind them.
fn find_behind(
    pass: &Pass,
    k: usize,
    part: &VariablePart,
    listed: &Listed,
    found: &mut Findings,
) -> Result<(), Memory>
    requires inside { k < length pass.now.row.now.parts }
    requires part { IsVariablePart (length pass.now.trail.now.declared) part.now }
    requires at { IsPartAt pass.now k (parts.Variable part.now) }
    requires of { part.now.listed ≡ Some listed.now }
    requires before { AreFoundOfRow pass.now found.old }
    ensures found { AreFoundOfRow pass.now found.new }
{
    let term = Term::Variable(part.var);
    let end = listed.low + listed.weights.len() as i64;
    if greatest_of(pass.trail, term) < end {
        return Ok(());
    }
    let claim = Claim::at_least(term, end);
    find_barred(pass, k, part, claim, found)
}

/// Finds which of the values that are listed are barred, or weigh more than the room. It looks at no others where their order is known.
fn find_listed(
    pass: &Pass,
    leasts: &[i128],
    k: usize,
    part: &VariablePart,
    listed: &Listed,
    room: i128,
    falls: &mut Falls,
    found: &mut Findings,
) -> Result<(), Memory>
    requires leasts { AreLeastsOf pass.now leasts.now }
    requires inside { k < length leasts.now }
    requires part { IsVariablePart (length pass.now.trail.now.declared) part.now }
    requires at { IsPartAt pass.now k (parts.Variable part.now) }
    requires of { part.now.listed ≡ Some listed.now }
    requires before { AreFoundOfRow pass.now found.old }
    ensures found { AreFoundOfRow pass.now found.new }
{
    for i in suspects_at(pass, k, part, listed, room)?.iter() {
        if *i < listed.weights.len() {
            find_entry(pass, leasts, k, part, listed, *i, room, falls, found)?;
        }
    }
    Ok(())
}

/// Finds that the value that is listed at an index is barred, or weighs more than the room.
fn find_entry(
    pass: &Pass,
    leasts: &[i128],
    k: usize,
    part: &VariablePart,
    listed: &Listed,
    i: usize,
    room: i128,
    falls: &mut Falls,
    found: &mut Findings,
) -> Result<(), Memory>
    requires leasts { AreLeastsOf pass.now leasts.now }
    requires inside { k < length leasts.now }
    requires part { IsVariablePart (length pass.now.trail.now.declared) part.now }
    requires at { IsPartAt pass.now k (parts.Variable part.now) }
    requires of { part.now.listed ≡ Some listed.now }
    requires entry { i < length listed.now.weights }
    requires before { AreFoundOfRow pass.now found.old }
    ensures found { AreFoundOfRow pass.now found.new }
{
    let claim = Claim::equal(Term::Variable(part.var), value_at(listed, i));
    match entry_weight(part, listed, i) {
        None => find_barred(pass, k, part, claim, found),
        Some(weight) if room < weight => {
            find_without(pass, leasts, k, part, room, claim, weight, falls, found)
        }
        _ => Ok(()),
    }
}

/// Finds that the claim is not true of the part's value, since each value of which it is true is barred.
fn find_barred(
    pass: &Pass,
    k: usize,
    part: &VariablePart,
    claim: Claim,
    found: &mut Findings,
) -> Result<(), Memory>
    requires inside { k < length pass.now.row.now.parts }
    requires part { IsVariablePart (length pass.now.trail.now.declared) part.now }
    requires at { IsPartAt pass.now k (parts.Variable part.now) }
    requires term { claim.term ≡ Variable part.now.var }
    requires near { IsNear claim.number }
    requires barred { WeighsWhere part.now claim None }
    requires before { AreFoundOfRow pass.now found.old }
    ensures found { AreFoundOfRow pass.now found.new }
{
    let mut clause = Items::new(pass.alloc);
    if force(pass.trail, claim, &mut clause)? {
        found.hand_over(pass.number, Rule::Row, Some(clause))?;
    }
    Ok(())
}

/// The least number at which the coefficient, which is not below 0, makes more than the room, or a number past all.
fn first_heavier(room: i128, coefficient: i64) -> i64
    ensures { IsInLimits result }
{
    let divisor = coefficient as i128;
    if divisor <= 0 {
        return GREATEST_VALUE;
    }
    narrowed(room.div_euclid(divisor).saturating_add(1))
}

/// The greatest number at which the coefficient, which is below 0, makes more than the room, or a number past all.
fn last_heavier(room: i128, coefficient: i64) -> i64
    ensures { IsInLimits result }
{
    let divisor = -(coefficient as i128);
    if divisor <= 0 {
        return LEAST_VALUE;
    }
    narrowed((-1i128).saturating_sub(room.div_euclid(divisor)))
}
