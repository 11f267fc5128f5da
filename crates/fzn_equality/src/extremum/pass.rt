// What a pass over an extremum reads.
ghost use Rattle.std.specs.Prelude.{length};
ghost use Rattle.std.specs.List.{All};
ghost use Rattle.fzn_domain.specs.Narrow.{NoneEmpty};
ghost use Rattle.fzn_values.specs.Term.{IsTerm};
ghost use Rattle.fzn_terms.specs.Values.{IsTerm-prop, AreTerms-prop};

use fzn_meaning::Extreme;
use fzn_trail::Trail;
use fzn_values::Term;
use std::alloc::Global;

/// One pass over an extremum, as its terms stand on a trail on which each present set has a value.
#[derive(Clone, Copy)]
pub(crate) struct ExtremumPass<'a> {
    pub alloc: Global,
    /// The number of the constraint, counted from 1.
    pub number: u64,
    pub trail: &'a Trail,
    /// Whether the result is the least entry or the greatest.
    pub extreme: Extreme,
    pub entries: &'a [Term],
    /// The result.
    pub of: Term,
    ghost entries_fit: { All (IsTerm (length trail.now.declared)) entries.now } by { AreTerms-prop _ _ },
    ghost of_fits: { IsTerm (length trail.now.declared) of } by { IsTerm-prop _ _ },
    ghost filled: { NoneEmpty trail.now.sets },
}
