// What a pass over places reads.
ghost use Rattle.std.specs.Prelude.{length};
ghost use Rattle.std.specs.List.{All};
ghost use Rattle.fzn_domain.specs.Narrow.{NoneEmpty};
ghost use Rattle.fzn_values.specs.Term.{IsTerm};
ghost use Rattle.fzn_terms.specs.Values.{AreTerms-prop};

use fzn_trail::Trail;
use fzn_values::Term;
use std::alloc::Global;

/// One pass over the places of an all different, on a trail on which each present set has a value.
#[derive(Clone, Copy)]
pub(crate) struct Pass<'a> {
    pub alloc: Global,
    /// The number of the constraint, counted from 1.
    pub number: u64,
    pub trail: &'a Trail,
    pub places: &'a [Term],
    ghost fit: { All (IsTerm (length trail.now.declared)) places.now } by { AreTerms-prop _ _ },
    ghost filled: { NoneEmpty trail.now.sets },
}
