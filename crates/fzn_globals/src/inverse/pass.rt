// What a pass over two lists reads.
ghost use Rattle.std.specs.Prelude.{◌≡◌, ◌≤◌, length};
ghost use Rattle.std.specs.List.{All};
ghost use Rattle.fzn_domain.specs.Narrow.{NoneEmpty};
ghost use Rattle.fzn_list.specs.Limits.{longest};
ghost use Rattle.fzn_values.specs.Term.{IsTerm};
ghost use Rattle.fzn_terms.specs.Values.{AreTerms-prop};
ghost use Rattle.fzn_globals.specs.Ways.{other_side};

use fzn_trail::Trail;
use fzn_values::Term;
use std::alloc::Global;

/// Which of the two lists is narrowed by the other.
#[derive(Clone, Copy, Debug)]
pub(crate) enum Side {
    Forward,
    Backward,
}

impl Side {
    pub(crate) fn other(self) -> Side
        ensures { result ≡ other_side self }
    {
        match self {
            Side::Forward => Side::Backward,
            Side::Backward => Side::Forward,
        }
    }
}

/// One pass over one of the lists of an inverse, on a trail on which each present set has a value.
#[derive(Clone, Copy)]
pub(crate) struct Pass<'a> {
    pub alloc: Global,
    /// The number of the constraint, counted from 1.
    pub number: u64,
    pub trail: &'a Trail,
    /// Which list it is.
    pub side: Side,
    /// The list, which is narrowed.
    pub there: &'a [Term],
    /// The other one.
    pub back: &'a [Term],
    ghost fit: { All (IsTerm (length trail.now.declared)) there.now } by { AreTerms-prop _ _ },
    ghost back_fit: { All (IsTerm (length trail.now.declared)) back.now } by { AreTerms-prop _ _ },
    ghost short: { length there.now ≤ longest },
    ghost same: { length back.now ≡ length there.now },
    ghost filled: { NoneEmpty trail.now.sets },
}
