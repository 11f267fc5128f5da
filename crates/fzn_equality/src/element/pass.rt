// What a pass over an element reads.
ghost use Rattle.std.specs.Prelude.{◌≡◌, ◌≤◌, length};
ghost use Rattle.std.specs.List.{All};
ghost use Rattle.std.proofs.Props.{props};
ghost use Rattle.fzn_domain.specs.Narrow.{NoneEmpty};
ghost use Rattle.fzn_values.specs.Term.{IsTerm};
ghost use Rattle.fzn_terms.specs.Intervals.{IsLimitedInterval, ends_of};
ghost use Rattle.fzn_terms.specs.Values.{IsTerm-prop, AreTerms-prop};

use fzn_terms::Interval;
use fzn_trail::Trail;
use fzn_values::Term;
use std::alloc::Global;

/// One pass over an element, as its terms stand on a trail on which each present set has a value.
#[derive(Clone, Copy)]
pub(crate) struct ElementPass<'a> {
    pub alloc: Global,
    /// The number of the constraint, counted from 1.
    pub number: u64,
    pub trail: &'a Trail,
    /// The place of the result among the entries, counted from 1.
    pub index: Term,
    /// From the least to the greatest value of the index.
    pub leads: Interval,
    pub entries: &'a [Term],
    /// The result.
    pub value: Term,
    /// From its least to its greatest value.
    pub ends: Interval,
    ghost index_fits: { IsTerm (length trail.now.declared) index } by { IsTerm-prop _ _ },
    ghost limited_index: { IsLimitedInterval leads },
    ghost entries_fit: { All (IsTerm (length trail.now.declared)) entries.now } by { AreTerms-prop _ _ },
    ghost short: { length entries.now ≤ 100000 },
    ghost value_fits: { IsTerm (length trail.now.declared) value } by { IsTerm-prop _ _ },
    ghost are_ends: { ends ≡ ends_of trail.now.sets value } by { Prim.hlevel props },
    ghost limited: { IsLimitedInterval ends },
    ghost filled: { NoneEmpty trail.now.sets },
}
