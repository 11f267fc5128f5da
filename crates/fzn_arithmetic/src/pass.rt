// What a pass over three places reads.
ghost use Rattle.std.specs.Prelude.{length};
ghost use Rattle.fzn_domain.specs.Narrow.{NoneEmpty};
ghost use Rattle.fzn_values.specs.Term.{IsTerm};
ghost use Rattle.fzn_terms.specs.Values.{IsTerm-prop};

use crate::excluded::Shape;
use fzn_trail::Trail;
use fzn_values::Term;
use std::alloc::Global;

/// One pass over three places, on a trail on which each present set has a value.
#[derive(Clone, Copy)]
pub(crate) struct Pass<'a> {
    pub alloc: Global,
    /// The number of the constraint, counted from 1.
    pub number: u64,
    pub trail: &'a Trail,
    /// What the third place is to the first two.
    pub shape: Shape,
    pub left: Term,
    pub right: Term,
    /// The third place.
    pub of: Term,
    ghost left_fits: { IsTerm (length trail.now.declared) left } by { IsTerm-prop _ _ },
    ghost right_fits: { IsTerm (length trail.now.declared) right } by { IsTerm-prop _ _ },
    ghost of_fits: { IsTerm (length trail.now.declared) of } by { IsTerm-prop _ _ },
    ghost filled: { NoneEmpty trail.now.sets },
}
