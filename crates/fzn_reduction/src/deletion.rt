// Which steps are deleted.
ghost use Rattle.std.specs.Prelude.{◌≡◌, length, IfOk, IfSome, IfNone};
ghost use Rattle.fzn_clauses.specs.Watching.{held_by};
ghost use Rattle.fzn_reduction.specs.Deletion.{IsDeletion, IsThinned};

use crate::idle::{idle_among, numbers_in_use};
use crate::notes::Notes;
use crate::numbers::Numbers;
use crate::written::Written;
use fzn_clauses::Clauses;
use fzn_domain::Memory;
use fzn_list::Items;
use fzn_propagator::Inferences;
use std::alloc::Global;

/// The numbers of steps that are deleted, and of those that are left.
#[derive(Drop)]
pub struct Deletion {
    /// The numbers of the steps that are deleted, of which there are some; each is below the next.
    pub ids: Items<u64>,
    /// The numbers of the steps that are left, which are all that may still be cited.
    pub left: Items<u64>,
}

/// The steps that are deleted next, where those that are not deleted are many: some of those of no held clause and of no inference that
/// stands, if there is one; then the clauses of `written` are left whose steps are in use. It answers `Err` where memory runs out.
pub fn next_deletion(
    alloc: Global,
    clauses: &Clauses,
    numbers: &Numbers,
    inferences: &Inferences,
    alive: &Items<u64>,
    written: &mut Written,
    notes: &mut Notes,
) -> Result<Option<Deletion>, Memory>
    requires { length numbers.now ≡ length (held_by clauses.now) }
    ensures deletion { IfOk result (λ found. IfSome found (λ it. IsDeletion (held_by clauses.now) numbers.now inferences.now alive.now it.ids it.left)) }
    ensures thinned { IfOk result (λ found. IfSome found (λ _. IsThinned (held_by clauses.now) numbers.now inferences.now written.old written.new)) }
    ensures same { IfOk result (λ found. IfNone found (written.new ≡ written.old)) }
{
    if !notes.deleting.has_many(alive.len()) {
        return Ok(None);
    }
    let used = numbers_in_use(alloc, clauses, numbers.as_slice(), inferences)?;
    notes.deleting.expect(used.len());
    let ids = idle_among(alloc, alive.as_slice(), used.as_slice())?;
    if ids.len() == 0 {
        return Ok(None);
    }
    let left = Items::from_slice(alloc, used.as_slice())?;
    written.keep(used.as_slice())?;
    Ok(Some(Deletion { ids, left }))
}
