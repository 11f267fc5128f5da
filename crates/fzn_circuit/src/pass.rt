// What a pass of the propagator reads.
ghost use Rattle.std.specs.Prelude.{length};
ghost use Rattle.fzn_domain.specs.Narrow.{NoneEmpty};
ghost use Rattle.fzn_meaning.specs.Meaning.{AreTerms};
ghost use Rattle.fzn_circuit.specs.Circuits.{AreSuccessors-prop};

use fzn_trail::Trail;
use fzn_values::Term;
use std::alloc::Global;

/// One pass over the places of a circuit, as their successors stand on a trail on which each present set has a value.
#[derive(Clone, Copy)]
pub(crate) struct Pass<'a> {
    pub alloc: Global,
    /// The number of the constraint, counted from 1.
    pub number: u64,
    pub trail: &'a Trail,
    /// The successor of each place, both counted from 1.
    pub successors: &'a [Term],
    ghost terms: { AreTerms (length trail.now.declared) successors.now } by { AreSuccessors-prop _ _ },
    ghost filled: { NoneEmpty trail.now.sets },
}
