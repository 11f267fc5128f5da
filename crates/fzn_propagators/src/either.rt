// A propagator of one kind or of another, which reasons for what that one does.
use fzn_domain::Memory;
use fzn_propagator::{Bounds, Cost, Counting, Findings, Propagator, Shift, Subscriptions, Tally};
use fzn_trail::Trail;
use std::alloc::Global;

/// A propagator of this kind, or of another.
#[derive(Drop)]
pub enum Either<A, B> {
    /// One of this kind.
    This(A),
    /// One of the other, which may be one of several.
    Other(B),
}

impl<A: Propagator, B: Propagator> Propagator for Either<A, B> {
    ghost use Rattle.fzn_propagators.specs.Either.{told_of_either, HoldsOfEither};

    ghost number = { told_of_either A.number B.number };

    ghost is_for = { HoldsOfEither A.is_for B.is_for };

    ghost fits = { HoldsOfEither A.fits B.fits };

    ghost costs = { told_of_either A.costs B.costs };

    ghost counts = { HoldsOfEither A.counts B.counts };

    fn subscriptions(&self, alloc: Global) -> Result<Subscriptions, Memory> {
        match self {
            Either::This(propagator) => propagator.subscriptions(alloc),
            Either::Other(propagator) => propagator.subscriptions(alloc),
        }
    }

    fn cost(&self) -> Cost {
        match self {
            Either::This(propagator) => propagator.cost(),
            Either::Other(propagator) => propagator.cost(),
        }
    }

    fn counting(&self, alloc: Global) -> Result<Option<Counting>, Memory> {
        match self {
            Either::This(propagator) => propagator.counting(alloc),
            Either::Other(propagator) => propagator.counting(alloc),
        }
    }

    fn count(&self, tally: Tally, weight: i64, shift: Shift) -> Tally {
        match self {
            Either::This(propagator) => propagator.count(tally, weight, shift),
            Either::Other(propagator) => propagator.count(tally, weight, shift),
        }
    }

    fn is_idle(&self, tally: Tally, bounds: &[Option<Bounds>]) -> bool {
        match self {
            Either::This(propagator) => propagator.is_idle(tally, bounds),
            Either::Other(propagator) => propagator.is_idle(tally, bounds),
        }
    }

    fn propagate(&self, alloc: Global, trail: &Trail, found: &mut Findings) -> Result<(), Memory> {
        match self {
            Either::This(propagator) => propagator.propagate(alloc, trail, found),
            Either::Other(propagator) => propagator.propagate(alloc, trail, found),
        }
    }
}
