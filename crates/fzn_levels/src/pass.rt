// What a pass of the propagator of a row reads.
ghost use Rattle.std.specs.Prelude.{length};
ghost use Rattle.fzn_domain.specs.Narrow.{NoneEmpty};
ghost use Rattle.fzn_meaning.specs.Separable.{IsSeparableRow};
ghost use Rattle.fzn_levels.specs.Levels.{IsSeparableRow-prop};
ghost use Rattle.fzn_levels.specs.ByWeight.{AreOrdersOf, AreOrdersOf-prop};

use crate::by_weight::ByWeight;
use fzn_meaning::Row;
use fzn_trail::Trail;
use std::alloc::Global;

/// One pass over the parts of a row, as they stand on a trail on which each present set has a value.
#[derive(Clone, Copy)]
pub struct Pass<'a> {
    /// Where memory is taken from.
    pub alloc: Global,
    /// The number of the constraint, counted from 1.
    pub number: u64,
    /// What the variables may be.
    pub trail: &'a Trail,
    /// The row: its parts, and the bound on what they weigh together.
    pub row: &'a Row,
    /// What each part weighs at least at its declared values, in the order of the parts. It only chooses which levels are spoken of.
    pub floors: &'a [i128],
    /// The entries of each part's list by weight, in the order of the parts.
    pub orders: &'a [Option<ByWeight>],
    pub ghost ready: { IsSeparableRow (length trail.now.declared) row.now } by { IsSeparableRow-prop _ _ },
    pub ghost filled: { NoneEmpty trail.now.sets },
    pub ghost ordered: { AreOrdersOf row.now.parts orders.now } by { AreOrdersOf-prop _ _ },
}
