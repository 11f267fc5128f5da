// Numbers in rising order.
ghost use Rattle.std.specs.Prelude.{IfOk};
ghost use Rattle.fzn_derive.specs.Room.{IsSortedOnce};

use std::alloc::{AllocError, Global};

/// The numbers in rising order, each once. It answers `Err` where memory runs out.
pub(crate) fn in_order(alloc: Global, numbers: &[usize]) -> Result<Vec<usize>, AllocError>
    ensures { IfOk result (λ order. IsSortedOnce numbers.now order.items) }
{
    let mut order = Vec::from_slice(alloc, numbers)?;
    order.sort_unstable();
    order.dedup();
    Ok(order)
}
