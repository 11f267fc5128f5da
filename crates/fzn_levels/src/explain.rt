// Clauses that say what parts weigh at least.
ghost use Rattle.std.specs.Prelude.{◌≡◌, ℕ, ◌<◌, ◌≤◌, ℤ, pos, ◌≤ℤ◌, ◌<ℤ◌, length, slice_index, IfSome, OnOk, Some, None};
ghost use Rattle.std.specs.Int.{int_min, int_max};
ghost use Rattle.fzn_domain.specs.declared.domain.TheConstants as limits;
ghost use Rattle.fzn_domain.specs.Limits.{IsInLimits};
ghost use Rattle.fzn_values.specs.declared.term.Term.TheVariants.{Variable};
ghost use Rattle.fzn_meaning.specs.declared.row.Part.TheVariants as parts;
ghost use Rattle.fzn_meaning.specs.Separable.{weight_at, IsCoefficient, IsWeightList, IsVariablePart, IsPart};
ghost use Rattle.fzn_sets.specs.Terms.{least_value, greatest_value};
ghost use Rattle.fzn_propagator.specs.Clause.{IsFalseClause, Says};
ghost use Rattle.fzn_terms.specs.Denied.{IsGrown};
ghost use Rattle.fzn_terms.specs.Intervals.{LiesIn, IsLimitedInterval};
ghost use Rattle.fzn_levels.specs.Levels.{IsNoLighter, AreNoLighterBut, IsEntryNoLighter, SaysNoLighter, SaysAllNoLighter};
ghost use Rattle.fzn_levels.specs.ByWeight.{IsByWeight, IsOrderOf, HaveLighter};

use crate::beyond::Beyond;
use crate::by_weight::ByWeight;
use crate::explain_table::explain_table;
use crate::listed::order_at;
use crate::pass::Pass;
use crate::told::Told;
use crate::weights::{entry_weight, value_at};
use fzn_domain::{GREATEST_VALUE, LEAST_VALUE, Lit, Memory};
use fzn_list::Items;
use fzn_meaning::{Listed, Part, VariablePart, weight_at};
use fzn_rules::is_light;
use fzn_terms::{Claim, Interval, explain, greatest_of, least_of};
use fzn_values::Term;

/// Adds to a false clause what it takes to say that each part weighs no less than its level, but for the part at an index. None does on the
/// trail. There is one level for each part, in their order, and an index past all is of none. `Err` where memory runs out.
pub fn explain_levels(
    pass: &Pass,
    levels: &[i128],
    except: usize,
    clause: &mut Items<Lit>,
) -> Result<(), Memory>
    requires one_each { length levels.now ≡ length pass.now.row.now.parts }
    requires present { AreNoLighterBut except pass.now.row.now.parts levels.now pass.now.trail.now.sets }
    requires still { IsFalseClause pass.now.trail.now clause.old }
    ensures { OnOk result (SaysAllNoLighter pass.now.trail.now except pass.now.row.now.parts levels.now clause.old clause.new) }
{
    let parts = pass.row.parts.as_slice();
    let mut told = Told::new(pass.alloc);
    for k in 0..parts.len() {
        if k != except {
            let order = order_at(pass, k);
            explain_noted(pass, &parts[k], Some(levels[k]), order, &mut told, clause)?;
        }
    }
    Ok(())
}

/// Adds to a false clause what it takes to say that the part weighs no less than the level, and where there is none that it is barred. So it
/// is on the trail. `Err` where memory runs out.
pub fn explain_part(
    pass: &Pass,
    part: &Part,
    level: Option<i128>,
    clause: &mut Items<Lit>,
) -> Result<(), Memory>
    requires part { IsPart (length pass.now.trail.now.declared) part.now }
    requires present { IsNoLighter pass.now.trail.now.sets part.now level }
    requires still { IsFalseClause pass.now.trail.now clause.old }
    ensures { OnOk result (SaysNoLighter pass.now.trail.now part.now level clause.old clause.new) }
{
    let mut told = Told::new(pass.alloc);
    explain_noted(pass, part, level, None, &mut told, clause)
}

/// The same beside what is noted of the clause. The order is one of the part, if any.
fn explain_noted(
    pass: &Pass,
    part: &Part,
    level: Option<i128>,
    order: Option<&ByWeight>,
    told: &mut Told,
    clause: &mut Items<Lit>,
) -> Result<(), Memory>
    requires part { IsPart (length pass.now.trail.now.declared) part.now }
    requires present { IsNoLighter pass.now.trail.now.sets part.now level }
    requires order { IfSome order (λ by_weight. IsOrderOf part.now by_weight.now) }
    requires still { IsFalseClause pass.now.trail.now clause.old }
    ensures { OnOk result (SaysNoLighter pass.now.trail.now part.now level clause.old clause.new) }
{
    match part {
        Part::Variable(part) => explain_variable(pass, part, level, order, clause),
        Part::Table(table) => explain_table(pass, table, level, told, clause),
    }
}

/// The same of a variable: no value of it weighs less than the level, or each is barred.
fn explain_variable(
    pass: &Pass,
    part: &VariablePart,
    level: Option<i128>,
    order: Option<&ByWeight>,
    clause: &mut Items<Lit>,
) -> Result<(), Memory>
    requires part { IsVariablePart (length pass.now.trail.now.declared) part.now }
    requires present { IsNoLighter pass.now.trail.now.sets (parts.Variable part.now) level }
    requires order { IfSome order (λ by_weight. IsOrderOf (parts.Variable part.now) by_weight.now) }
    requires still { IsFalseClause pass.now.trail.now clause.old }
    ensures { OnOk result (SaysNoLighter pass.now.trail.now (parts.Variable part.now) level clause.old clause.new) }
{
    match (&part.listed, level) {
        (Some(listed), _) => {
            let light = light_of(part, listed, level, order);
            explain_listed(pass, part, listed, level, light, clause)
        }
        (None, Some(level)) => explain_plain(pass, part, level, clause),
        (None, None) => {
            // Not reached: without a list no value is barred, and this is one.
            let _value = least_of(pass.trail, Term::Variable(part.var));
            Ok(())
        }
    }
}

/// The same of a part without a list: by an end of its set.
fn explain_plain(
    pass: &Pass,
    part: &VariablePart,
    level: i128,
    clause: &mut Items<Lit>,
) -> Result<(), Memory>
    requires part { IsVariablePart (length pass.now.trail.now.declared) part.now }
    requires plain { part.now.listed ≡ None }
    requires present { IsNoLighter pass.now.trail.now.sets (parts.Variable part.now) (Some level) }
    requires still { IsFalseClause pass.now.trail.now clause.old }
    ensures { OnOk result (SaysNoLighter pass.now.trail.now (parts.Variable part.now) (Some level) clause.old clause.new) }
{
    let term = Term::Variable(part.var);
    if part.coefficient < 0 {
        let high = highest(part, level, greatest_of(pass.trail, term));
        explain(pass.trail, Claim::at_most(term, high), clause)
    } else {
        let low = lowest(part, level, least_of(pass.trail, term));
        explain(pass.trail, Claim::at_least(term, low), clause)
    }
}

/// A number from which on no value weighs less than the level, as none does from the given one on: as low as it may be.
fn lowest(part: &VariablePart, level: i128, least: i64) -> i64
    requires coefficient { pos 0 ≤ℤ part.now.coefficient }
    requires number { IsCoefficient part.now.coefficient }
    requires plain { part.now.listed ≡ None }
    requires least { IsInLimits least }
    requires present { (weight : ℤ) → weight_at part.now least ≡ Some weight → level ≤ℤ weight }
    ensures in_limits { IsInLimits result }
    ensures within { result ≤ℤ least }
    ensures heavy { (v weight : ℤ) → result ≤ℤ v → weight_at part.now v ≡ Some weight → level ≤ℤ weight }
{
    let low = first_above(level, part.coefficient).clamp(LEAST_VALUE, least);
    match weight_at(part, &low) {
        Some(weight) if level <= weight => low,
        _ => least,
    }
}

/// A number up to which no value weighs less than the level, as none does up to the given one: as high as it may be.
fn highest(part: &VariablePart, level: i128, greatest: i64) -> i64
    requires coefficient { part.now.coefficient <ℤ pos 0 }
    requires number { IsCoefficient part.now.coefficient }
    requires plain { part.now.listed ≡ None }
    requires greatest { IsInLimits greatest }
    requires present { (weight : ℤ) → weight_at part.now greatest ≡ Some weight → level ≤ℤ weight }
    ensures in_limits { IsInLimits result }
    ensures within { greatest ≤ℤ result }
    ensures heavy { (v weight : ℤ) → v ≤ℤ result → weight_at part.now v ≡ Some weight → level ≤ℤ weight }
{
    let high = last_above(level, part.coefficient).clamp(greatest, GREATEST_VALUE);
    match weight_at(part, &high) {
        Some(weight) if level <= weight => high,
        _ => greatest,
    }
}

/// The indices of the entries that weigh less than the level, where an order of the list and a level tell them.
fn light_of<'a>(
    part: &VariablePart,
    listed: &Listed,
    level: Option<i128>,
    order: Option<&'a ByWeight>,
) -> Option<&'a [usize]>
    requires coefficient { IsCoefficient part.now.coefficient }
    requires of { part.now.listed ≡ Some listed.now }
    requires listed { IsWeightList listed.now }
    requires order { IfSome order (λ by_weight. IsByWeight part.now listed.now by_weight.now) }
    ensures { IfSome result (λ light. HaveLighter part.now listed.now level light.now) }
{
    match (order, level) {
        (Some(order), Some(level)) => Some(order.lighter(part, listed, level)),
        _ => None,
    }
}

/// The same of a part with a list: by the ends of its set where that says of several values at once that they are no longer there, else
/// value by value. Each entry that weighs less than the level is at one of the indices, where these are given.
fn explain_listed(
    pass: &Pass,
    part: &VariablePart,
    listed: &Listed,
    level: Option<i128>,
    light: Option<&[usize]>,
    clause: &mut Items<Lit>,
) -> Result<(), Memory>
    requires part { IsVariablePart (length pass.now.trail.now.declared) part.now }
    requires of { part.now.listed ≡ Some listed.now }
    requires present { IsNoLighter pass.now.trail.now.sets (parts.Variable part.now) level }
    requires light { IfSome light (λ these. HaveLighter part.now listed.now level these.now) }
    requires still { IsFalseClause pass.now.trail.now clause.old }
    ensures { OnOk result (SaysNoLighter pass.now.trail.now (parts.Variable part.now) level clause.old clause.new) }
{
    let term = Term::Variable(part.var);
    let ends = told_ends(pass, part, listed, level, light);
    explain(pass.trail, Claim::at_least(term, ends.low), clause)?;
    explain(pass.trail, Claim::at_most(term, ends.high), clause)?;
    match light {
        Some(light) if are_few(light, listed) => {
            explain_lighter(pass, part, listed, level, ends, light, clause)
        }
        _ => explain_entries(pass, part, listed, level, ends, clause),
    }
}

/// Whether to look for the next of these indices again and again takes less time than to look at each entry.
fn are_few(light: &[usize], listed: &Listed) -> bool {
    light.len().saturating_mul(light.len()) <= listed.weights.len().saturating_mul(8)
}

/// Adds to a false clause what it takes to say of each value that is listed that it weighs no less than the level. It says already that
/// the values lie within these ends, and each entry that weighs less is at one of the indices.
fn explain_lighter(
    pass: &Pass,
    part: &VariablePart,
    listed: &Listed,
    level: Option<i128>,
    ends: Interval,
    light: &[usize],
    clause: &mut Items<Lit>,
) -> Result<(), Memory>
    requires part { IsVariablePart (length pass.now.trail.now.declared) part.now }
    requires of { part.now.listed ≡ Some listed.now }
    requires present { IsNoLighter pass.now.trail.now.sets (parts.Variable part.now) level }
    requires ends { Says pass.now.trail.now.declared clause.old (λ sets. LiesIn sets (Variable part.now.var) ends) }
    requires light { HaveLighter part.now listed.now level light.now }
    requires still { IsFalseClause pass.now.trail.now clause.old }
    ensures { OnOk result (SaysNoLighter pass.now.trail.now (parts.Variable part.now) level clause.old clause.new) }
{
    let end = listed.weights.len();
    let mut i = next_of(light, 0, end);
    while i < end {
        explain_entry(pass, part, listed, i, level, ends, clause)?;
        i = next_of(light, i + 1, end);
    }
    Ok(())
}

/// The least of the numbers that lies from a start on and before an end, which is not before it; the end where there is none.
fn next_of(numbers: &[usize], start: usize, end: usize) -> usize
    requires { start ≤ end }
    ensures low { start ≤ result }
    ensures high { result ≤ end }
    ensures none { (k : ℕ) → k < length numbers.now → start ≤ slice_index numbers.now k → slice_index numbers.now k < end → result ≤ slice_index numbers.now k }
{
    let mut next = end;
    for number in numbers {
        if start <= *number && *number < next {
            next = *number;
        }
    }
    next
}

/// Adds to a false clause what it takes to say of each value that is listed that it weighs no less than the level. It says already that
/// the values lie within these ends.
fn explain_entries(
    pass: &Pass,
    part: &VariablePart,
    listed: &Listed,
    level: Option<i128>,
    ends: Interval,
    clause: &mut Items<Lit>,
) -> Result<(), Memory>
    requires part { IsVariablePart (length pass.now.trail.now.declared) part.now }
    requires of { part.now.listed ≡ Some listed.now }
    requires present { IsNoLighter pass.now.trail.now.sets (parts.Variable part.now) level }
    requires ends { Says pass.now.trail.now.declared clause.old (λ sets. LiesIn sets (Variable part.now.var) ends) }
    requires still { IsFalseClause pass.now.trail.now clause.old }
    ensures { OnOk result (SaysNoLighter pass.now.trail.now (parts.Variable part.now) level clause.old clause.new) }
{
    for i in 0..listed.weights.len() {
        explain_entry(pass, part, listed, i, level, ends, clause)?;
    }
    Ok(())
}

/// Adds to a false clause what it takes to say that the value that is listed at an index is no longer there, where it weighs less than the
/// level.
fn explain_entry(
    pass: &Pass,
    part: &VariablePart,
    listed: &Listed,
    i: usize,
    level: Option<i128>,
    ends: Interval,
    clause: &mut Items<Lit>,
) -> Result<(), Memory>
    requires part { IsVariablePart (length pass.now.trail.now.declared) part.now }
    requires of { part.now.listed ≡ Some listed.now }
    requires inside { i < length listed.now.weights }
    requires present { IsNoLighter pass.now.trail.now.sets (parts.Variable part.now) level }
    requires ends { Says pass.now.trail.now.declared clause.old (λ sets. LiesIn sets (Variable part.now.var) ends) }
    requires still { IsFalseClause pass.now.trail.now clause.old }
    ensures { OnOk result (IsGrown pass.now.trail.now (λ sets. IsEntryNoLighter sets part.now listed.now i level) clause.old clause.new) }
{
    let value = value_at(listed, i);
    if value < ends.low {
        return Ok(());
    }
    if ends.high < value {
        return Ok(());
    }
    if !is_light(entry_weight(part, listed, i), level) {
        return Ok(());
    }
    explain(
        pass.trail,
        Claim::other_than(Term::Variable(part.var), value),
        clause,
    )
}

/// Ends within which the values of the part lie. They are told where two values or more that weigh less than the level lie beyond; else
/// they are those of any value. These values are those at the indices, where these are given.
fn told_ends(
    pass: &Pass,
    part: &VariablePart,
    listed: &Listed,
    level: Option<i128>,
    light: Option<&[usize]>,
) -> Interval
    requires part { IsVariablePart (length pass.now.trail.now.declared) part.now }
    requires of { part.now.listed ≡ Some listed.now }
    ensures low { result.low ≤ℤ least_value pass.now.trail.now.sets (Variable part.now.var) }
    ensures high { greatest_value pass.now.trail.now.sets (Variable part.now.var) ≤ℤ result.high }
    ensures limited { IsLimitedInterval result }
{
    let term = Term::Variable(part.var);
    let low = least_of(pass.trail, term);
    let high = greatest_of(pass.trail, term);
    let mut beyond = Beyond::new(low, high);
    match light {
        Some(light) => beyond.note_each(pass, part, listed, light),
        None => beyond.note_light(pass, part, listed, level),
    }
    Interval {
        low: low_end(beyond.below, beyond.last_below, low),
        high: high_end(beyond.above, beyond.first_above, high),
    }
}

/// Just above the last of so many values, where these are two or more below the low end of a set.
fn low_end(count: u32, last: i64, low: i64) -> i64
    requires { IsInLimits low }
    ensures in_limits { IsInLimits result }
    ensures within { result ≤ℤ low }
{
    if count < 2 {
        LEAST_VALUE
    } else {
        last.saturating_add(1).clamp(LEAST_VALUE, low)
    }
}

/// Just below the first of so many values, where these are two or more above the high end of a set.
fn high_end(count: u32, first: i64, high: i64) -> i64
    requires { IsInLimits high }
    ensures in_limits { IsInLimits result }
    ensures within { high ≤ℤ result }
{
    if count < 2 {
        GREATEST_VALUE
    } else {
        first.saturating_sub(1).clamp(high, GREATEST_VALUE)
    }
}

/// The least number of which the coefficient, which is above 0, makes no less than the level, as far as 64 bits have it.
fn first_above(level: i128, coefficient: i64) -> i64 {
    let divisor = coefficient as i128;
    if divisor <= 0 {
        return LEAST_VALUE;
    }
    let quotient = level.div_euclid(divisor);
    if level.rem_euclid(divisor) == 0 {
        narrowed(quotient)
    } else {
        narrowed(quotient.saturating_add(1))
    }
}

/// The greatest number of which the coefficient, which is below 0, makes no less than the level, as far as 64 bits have it.
fn last_above(level: i128, coefficient: i64) -> i64 {
    let divisor = -(coefficient as i128);
    if divisor <= 0 {
        return GREATEST_VALUE;
    }
    narrowed(0i128.saturating_sub(level).div_euclid(divisor))
}

/// The number, or the nearest that a variable may have, which lies from -10^9 to 10^9.
pub fn narrowed(number: i128) -> i64
    ensures in_limits { IsInLimits result }
    ensures value { result ≡ int_max limits.LEAST_VALUE (int_min number limits.GREATEST_VALUE) }
{
    number.clamp(LEAST_VALUE as i128, GREATEST_VALUE as i128) as i64
}
