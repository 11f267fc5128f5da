// What the list of the part at an index says, by the order of its entries.
ghost use Rattle.std.specs.Prelude.{◌≡◌, ◌<◌, length, slice_index_or, IfSome, Some};
ghost use Rattle.fzn_meaning.specs.declared.row.Part.{Part};
ghost use Rattle.fzn_meaning.specs.Separable.{IsVariablePart, IsWeightList};
ghost use Rattle.fzn_rules.specs.Separable.{IsLeastWeight};
ghost use Rattle.fzn_levels.specs.Levels.{IsWeight};
ghost use Rattle.fzn_levels.specs.ByWeight.{IsOrderOf};

use crate::by_weight::ByWeight;
use crate::pass::Pass;
use crate::weights::value_at;
use fzn_domain::{Domain, Memory};
use fzn_meaning::{Listed, Part, VariablePart};
use fzn_rules::least_weight;

/// The entries by weight of the list of the part at an index; `None` where there is none.
pub(crate) fn order_at<'a>(pass: &Pass<'a>, k: usize) -> Option<&'a ByWeight>
    requires { k < length pass.now.row.now.parts }
    ensures { IfSome result (λ by_weight. (default : Part) → IsOrderOf (slice_index_or pass.now.row.now.parts k default) by_weight.now) }
{
    let orders = pass.orders;
    if orders.len() <= k {
        return None;
    }
    orders[k].as_ref()
}

/// What the part at an index weighs at least at the values or rows that are present and not barred; `None` where there is none. It lies at
/// most 10^12 * 2^63 + 10^18 from 0.
pub fn least_at(pass: &Pass, k: usize) -> Option<i128>
    requires { k < length pass.now.row.now.parts }
    ensures least { (default : Part) → IsLeastWeight pass.now.trail.now.sets (slice_index_or pass.now.row.now.parts k default) result }
    ensures bounded { IfSome result IsWeight }
{
    let part = &pass.row.parts.as_slice()[k];
    if let Part::Variable(own) = part
        && let Some(listed) = &own.listed
        && let Some(order) = order_at(pass, k)
    {
        return order.least(own, listed, pass.trail.domain(own.var));
    }
    least_weight(part, pass.trail.sets())
}

/// The indices of the entries of the list of the part at an index, from the first on, whose values are present and either barred or heavier
/// than the room. Where no order is known it is those of all present values. No contract says which they are. `Err` where memory runs out.
pub fn suspects_at(
    pass: &Pass,
    k: usize,
    part: &VariablePart,
    listed: &Listed,
    room: i128,
) -> Result<Vec<usize>, Memory>
    requires inside { k < length pass.now.row.now.parts }
    requires part { IsVariablePart (length pass.now.trail.now.declared) part.now }
    requires of { part.now.listed ≡ Some listed.now }
{
    let set = pass.trail.domain(part.var);
    let mut suspects = Vec::new(pass.alloc);
    match order_at(pass, k) {
        Some(order) => {
            let heavy = order.from(part, listed, room.saturating_add(1));
            add_present(listed, set, order.barred.as_slice(), &mut suspects)?;
            add_present(listed, set, heavy, &mut suspects)?;
            suspects.sort_unstable();
        }
        None => {
            for i in 0..listed.weights.len() {
                if set.contains(value_at(listed, i)) {
                    suspects.push(i)?;
                }
            }
        }
    }
    Ok(suspects)
}

/// Adds those of the indices whose values are in the set.
fn add_present(
    listed: &Listed,
    set: &Domain,
    indices: &[usize],
    present: &mut Vec<usize>,
) -> Result<(), Memory>
    requires { IsWeightList listed.now }
{
    for i in indices {
        if *i < listed.weights.len() && set.contains(value_at(listed, *i)) {
            present.push(*i)?;
        }
    }
    Ok(())
}
