// Which levels a clause speaks of: where the least weights exceed the bound by more than they need, as low ones as may be.
ghost use Rattle.std.specs.Prelude.{◌≡◌, ◌≢◌, ℕ, ◌<◌, ◌≤◌, ℤ, ◌≤ℤ◌, length, IsTrue, Some, slice_index_or};
ghost use Rattle.std.specs.List.{All};
ghost use Rattle.fzn_list.specs.Limits.{longest};
ghost use Rattle.fzn_meaning.specs.Separable.{IsVariablePart};
ghost use Rattle.fzn_levels.specs.Levels.{IsWeight, AreEnough};

use crate::by_weight::ByWeight;
use crate::listed::order_at;
use crate::pass::Pass;
use crate::weights::{entry_weight, sum_of, value_at};
use fzn_domain::Memory;
use fzn_meaning::{Listed, Part, TablePart, VariablePart};

/// As far from 0 as a part can weigh at the most.
const GREATEST_WEIGHT: i128 = 9_223_372_036_855_775_808_000_000_000_000;

/// A part whose level may fall.
#[derive(Clone, Copy, Debug)]
struct Fall {
    /// How far it has to fall until nothing has to be said of the part.
    depth: i128,
    /// The part's index.
    part: usize,
}

/// The parts whose levels may fall, those first whose levels have the least way to fall. They are sorted once for all clauses of a pass.
#[derive(Drop)]
pub struct Falls {
    /// None until a clause needs them.
    sorted: Option<Vec<Fall>>,
}

impl Falls {
    /// Those of one pass, which are not sorted yet.
    pub fn new() -> Falls {
        Falls { sorted: None }
    }

    /// Sorts them where that has not been done. `Err` where memory runs out.
    fn sort(&mut self, pass: &Pass, leasts: &[i128]) -> Result<(), Memory> {
        if self.sorted.is_none() {
            self.sorted = Some(falls_of(pass, leasts)?);
        }
        Ok(())
    }
}

/// Levels for the parts, one behind the other like their least weights, which may come to less than these by so much together, which is 0 or
/// more. That of the part at the index `except` stays; an index past all is of none. The falls are those of these least weights. Whether the
/// levels come to so much is for the caller to test: no contract says more than that they are made. `Err` where memory runs out.
pub fn levels_of(
    pass: &Pass,
    leasts: &[i128],
    falls: &mut Falls,
    except: usize,
    slack: i128,
) -> Result<Vec<i128>, Memory> {
    let mut levels = Vec::from_slice(pass.alloc, leasts)?;
    falls.sort(pass, leasts)?;
    if let Some(falls) = &falls.sorted {
        lower(pass, &mut levels, falls.as_slice(), except, slack);
    }
    Ok(levels)
}

/// Lets the levels fall in this order, but for the one at an index, until they have come to so much less together.
fn lower(pass: &Pass, levels: &mut Vec<i128>, falls: &[Fall], except: usize, slack: i128) {
    let mut left = slack;
    for fall in falls {
        if left <= 0 {
            return;
        }
        if fall.part == except {
            continue;
        }
        if let Some(level) = levels.get_mut(fall.part) {
            let fallen = if fall.depth <= left {
                level.saturating_sub(fall.depth)
            } else {
                fallen_level(pass, fall.part, *level, left)
            };
            left = left.saturating_sub(level.saturating_sub(fallen));
            *level = fallen;
        }
    }
}

/// The parts of which something has to be said: those first whose levels have the least way to fall.
fn falls_of(pass: &Pass, leasts: &[i128]) -> Result<Vec<Fall>, Memory> {
    let mut falls = Vec::new(pass.alloc);
    for (part, least) in leasts.iter().enumerate() {
        if let Some(floor) = pass.floors.get(part)
            && floor < least
        {
            falls.push(Fall {
                depth: least.saturating_sub(*floor),
                part,
            })?;
        }
    }
    falls.sort_by_key(|fall| (fall.depth, fall.part))?;
    Ok(falls)
}

/// Where a level may fall so far, how low: no lower than it serves.
fn fallen_level(pass: &Pass, k: usize, level: i128, left: i128) -> i128 {
    let parts = pass.row.parts.as_slice();
    if parts.len() <= k {
        return level;
    }
    match &parts[k] {
        Part::Variable(part) => match &part.listed {
            None => fallen_plain(part.coefficient, level, left),
            Some(listed) => match order_at(pass, k) {
                None => fallen_listed(pass, part, listed, level, left),
                Some(order) => fallen_by_weight(pass, part, listed, order, level, left),
            },
        },
        Part::Table(table) => fallen_table(table, level, left),
    }
}

/// That of a part without a list: a value weighs by its coefficient less than the next.
fn fallen_plain(coefficient: i64, level: i128, left: i128) -> i128 {
    let step = (coefficient as i128).saturating_abs();
    if step <= 0 {
        return level;
    }
    level.saturating_sub(left.saturating_sub(left.rem_euclid(step)))
}

/// That of a part with a list: to the least weight that may be left out with the heavier ones.
fn fallen_listed(pass: &Pass, part: &VariablePart, listed: &Listed, level: i128, left: i128) -> i128
    requires part { IsVariablePart (length pass.now.trail.now.declared) part.now }
    requires of { part.now.listed ≡ Some listed.now }
{
    let declared = pass.trail.declared(part.var);
    let lowest = level.saturating_sub(left);
    let mut fallen = level;
    for i in 0..listed.weights.len() {
        if let Some(weight) = entry_weight(part, listed, i)
            && lowest <= weight
            && weight < fallen
            && declared.contains(value_at(listed, i))
        {
            fallen = weight;
        }
    }
    fallen
}

/// The same where the entries are known by weight.
fn fallen_by_weight(
    pass: &Pass,
    part: &VariablePart,
    listed: &Listed,
    order: &ByWeight,
    level: i128,
    left: i128,
) -> i128
    requires part { IsVariablePart (length pass.now.trail.now.declared) part.now }
    requires of { part.now.listed ≡ Some listed.now }
{
    let declared = pass.trail.declared(part.var);
    for i in order.from(part, listed, level.saturating_sub(left)) {
        if listed.weights.len() <= *i {
            return level;
        }
        if let Some(weight) = entry_weight(part, listed, *i) {
            if level <= weight {
                return level;
            }
            if declared.contains(value_at(listed, *i)) {
                return weight;
            }
        }
    }
    level
}

/// That of a table: to the least weight of a row that may be left out with the heavier ones.
fn fallen_table(table: &TablePart, level: i128, left: i128) -> i128 {
    let lowest = level.saturating_sub(left);
    let mut fallen = level;
    for entry in table.weights.as_slice() {
        if let Some(weight) = entry
            && lowest <= *weight as i128
            && (*weight as i128) < fallen
        {
            fallen = *weight as i128;
        }
    }
    fallen
}

/// Whether there is one level for each part, none above its least weight but for the one at an index, and together they exceed the bound. An
/// index past all is of none. A level that is further from 0 than a part may weigh is none.
pub fn are_enough(pass: &Pass, leasts: &[i128], levels: &[i128], except: usize) -> bool
    requires few { length leasts.now ≤ longest }
    ensures { IsTrue result → AreEnough except leasts.now levels.now pass.now.row.now.bound }
{
    if levels.len() != leasts.len() {
        return false;
    }
    if !are_below(leasts, levels, except) {
        return false;
    }
    if !are_weights(levels) {
        return false;
    }
    (pass.row.bound as i128) < sum_of(levels)
}

/// Whether no level is above its least weight, but for the one at an index.
fn are_below(leasts: &[i128], levels: &[i128], except: usize) -> bool
    requires one_each { length levels.now ≡ length leasts.now }
    ensures { IsTrue result → (k : ℕ) (none : ℤ) → k < length leasts.now → k ≢ except → slice_index_or levels.now k none ≤ℤ slice_index_or leasts.now k none }
{
    for k in 0..leasts.len() {
        if k != except && leasts[k] < levels[k] {
            return false;
        }
    }
    true
}

/// Whether each is as near 0 as a part may weigh.
fn are_weights(levels: &[i128]) -> bool
    ensures { IsTrue result → All IsWeight levels.now }
{
    for level in levels {
        if *level < -GREATEST_WEIGHT || GREATEST_WEIGHT < *level {
            return false;
        }
    }
    true
}
