// The room in which constraints are derived.
ghost use Rattle.std.specs.Prelude.{IfOk};
ghost use Rattle.fzn_derive.specs.Room.{IsClear};

use crate::adder::Adder;
use fzn_row::RowDeriver;
use std::alloc::{AllocError, Global};

/// The room in which constraints are derived, kept from one to the next so that each costs what it cites: 40 bytes and up to 8 more for
/// each variable, and what the parts of one row take.
#[derive(Drop)]
pub struct Deriver {
    /// Where sums are made.
    pub(crate) sums: Adder,
    /// Where rows are made.
    pub(crate) rows: RowDeriver,
}

impl Deriver {
    /// Room for a model of so many variables, clear. It answers `Err` where memory runs out.
    pub fn new(alloc: Global, variables: usize) -> Result<Deriver, AllocError>
        ensures { IfOk result (IsClear variables) }
    {
        Ok(Deriver {
            sums: Adder::new(alloc, variables)?,
            rows: RowDeriver::new(alloc, variables)?,
        })
    }
}
