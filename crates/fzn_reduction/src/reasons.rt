// Which held clauses are reasons.
ghost use Rattle.std.specs.Prelude.{IfOk};
ghost use Rattle.fzn_reduction.specs.Forgetting.{IsFlagged, AreFlagged};

use fzn_domain::Memory;
use fzn_trail::{Antecedent, Reason, Trail};
use std::alloc::Global;

/// For each of so many held clauses, by their numbers, whether an entry rests on it. It goes over the trail. It answers `Err` where memory
/// runs out.
pub fn reasons_on(alloc: Global, trail: &Trail, count: usize) -> Result<Vec<bool>, Memory>
    ensures { IfOk result (λ flags. AreFlagged flags.items trail.now) }
{
    let mut flags = vec![in alloc; false; count]?;
    for i in 0..trail.len() {
        flag(&mut flags, trail.entry(i).reason);
    }
    Ok(flags)
}

fn flag(flags: &mut Vec<bool>, reason: Reason)
    ensures flagged { IsFlagged flags.new.items reason }
    ensures kept { (other : Reason) → IsFlagged flags.old.items other → IsFlagged flags.new.items other }
{
    if let Reason::Implied(Antecedent::Clause(id)) = reason {
        let k = id.0 as usize;
        if k < flags.len() {
            flags[k] = true;
        }
    }
}
