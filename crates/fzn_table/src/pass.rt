// What a pass of the propagator reads.
ghost use Rattle.std.specs.Prelude.{◌≡◌, ◌/◌, ◌<◌, length};
ghost use Rattle.std.specs.List.{All};
ghost use Rattle.fzn_domain.specs.Limits.{IsInLimits};
ghost use Rattle.fzn_domain.specs.Narrow.{NoneEmpty};
ghost use Rattle.fzn_values.specs.Term.{IsTerm, numbers_in};
ghost use Rattle.fzn_terms.specs.Values.{AreTerms-prop};
ghost use Rattle.fzn_table.specs.Chains.{AreAllChained};

use crate::supports::Supports;
use fzn_trail::Trail;
use fzn_values::Term;
use std::alloc::Global;

/// One pass over the places and the rows of a table, as they stand on a trail on which each present set has a value.
#[derive(Drop)]
pub(crate) struct Pass<'a> {
    pub alloc: Global,
    /// The number of the constraint, counted from 1.
    pub number: u64,
    pub trail: &'a Trail,
    /// The terms whose values are those of a row.
    pub places: &'a [Term],
    /// The numbers of the rows, one row after another.
    pub rows: &'a [Term],
    /// How many rows there are.
    pub count: usize,
    /// The rows that have each value at each place.
    pub supports: &'a Supports,
    /// The rows whose values are all possible, as a set of bits.
    pub possible: &'a [u64],
    ghost terms: { All (IsTerm (length trail.now.declared)) places.now } by { AreTerms-prop _ _ },
    ghost some: { 0 < length places.now },
    ghost counted: { count ≡ length rows.now / length places.now },
    ghost numbers: { All IsInLimits (numbers_in rows.now) },
    ghost chained: { AreAllChained places.now (numbers_in rows.now) supports.now.chains.items },
    ghost filled: { NoneEmpty trail.now.sets },
}

impl<'a> Pass<'a> {
    ghost use Rattle.fzn_table.specs.Passes.{IsRowOfTable, number_in_row};

    /// How many rows there are.
    pub(crate) fn count(&self) -> usize
        ensures { result ≡ length self.now.rows.now / length self.now.places.now }
    {
        self.count
    }

    /// The number of row r at place k, both counted from 0.
    pub(crate) fn number_at(&self, r: usize, k: usize) -> i64
        requires row { IsRowOfTable self.now r }
        requires in_range { k < length self.now.places.now }
        ensures { result ≡ number_in_row self.now r k }
    {
        self.rows[r * self.places.len() + k].number()
    }
}
