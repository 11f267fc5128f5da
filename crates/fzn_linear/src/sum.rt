// The propagator of a sum.
ghost use Rattle.std.specs.Prelude.{◌≡◌, List, [], length, IfOk, IfSome, OnOk};
ghost use Rattle.fzn_domain.specs.IntSet.{IntSet};
ghost use Rattle.fzn_domain.specs.Narrow.{NoneEmpty};
ghost use Rattle.fzn_meaning.specs.declared.constraint.Constraint.{Constraint};
ghost use Rattle.fzn_propagator.specs.Inference.{AreExhausted};
ghost use Rattle.fzn_propagator.specs.Subscriptions.{terms_of, AreHeard};
ghost use Rattle.fzn_linear.specs.Costs.{cost_of};
ghost use Rattle.fzn_linear.specs.Counted.{CountsForm};
ghost use Rattle.fzn_linear.specs.Kinds.{IsFormOf, IsSumReady};
ghost use Rattle.fzn_linear.specs.Passes.{AddsInferences};
ghost use Rattle.fzn_linear.specs.Wakes.{sum_subscriptions};

use crate::form::SumForm;
use crate::pair::pair_of;
use crate::pass::Pass;
use crate::room::{Room, moved};
use crate::wake::{Wake, subscriptions_of};
use crate::weights::weights_of;
use fzn_domain::Memory;
use fzn_propagator::{Bounds, Cost, Counting, Findings, Propagator, Shift, Subscriptions, Tally};
use fzn_trail::Trail;
use std::alloc::Global;

/// A sum of more places is wide.
const WIDE: usize = 64;

/// A sum of fewer places is not counted.
const FEWEST: usize = 2;

/// The sum of a constraint's form compares so with its bound, and the opposite form does not.
#[derive(Debug, Drop)]
pub struct SumPropagator {
    /// The number of the constraint, from 1 up.
    pub number: u64,
    /// The form of the constraint, which has to hold where the switch is 1, or where there is none.
    pub form: SumForm,
    /// The form that holds exactly where `form` does not, and so has to hold where the switch is 0.
    pub opposite: SumForm,
    /// Which changes of its terms the propagator waits for.
    pub wake: Wake,
    /// What its places may give, where it may be counted.
    pub room: Option<Room>,
}

impl SumPropagator {
    /// Appends what one pass infers to `found`.
    pub fn infer(&self, alloc: Global, trail: &Trail, found: &mut Findings) -> Result<(), Memory>
        requires ready { IsSumReady (length trail.now.declared) self.now.form self.now.opposite }
        requires filled { NoneEmpty trail.now.sets }
        ensures adds { AddsInferences self.now.number self.now.form trail.now found.old found.new }
        ensures none { OnOk result (found.new ≡ [] → AreExhausted (λ constraint. IsFormOf constraint self.now.form) trail.now) }
    {
        let pass = Pass {
            alloc,
            number: self.number,
            trail,
            form: &self.form,
            opposite: &self.opposite,
        };
        pass.find(found)
    }
}

impl Propagator for SumPropagator {
    ghost number = { λ propagator. propagator.number };

    ghost is_for = { λ propagator constraint. IsFormOf constraint propagator.form };

    ghost fits = { λ propagator declared. IsSumReady (length declared) propagator.form propagator.opposite };

    ghost costs = { λ propagator. cost_of (length propagator.form.places) };

    ghost counts = { λ propagator counting. CountsForm propagator.form counting };

    fn subscriptions(&self, alloc: Global) -> Result<Subscriptions, Memory>
        requires fits { (declared : List IntSet) × IsSumReady (length declared) self.now.form self.now.opposite }
        ensures value { IfOk result (λ subscriptions. subscriptions ≡ sum_subscriptions self.now) }
        ensures heard { IfOk result (λ subscriptions. (constraint : Constraint) → IsFormOf constraint self.now.form → AreHeard subscriptions (terms_of constraint)) }
    {
        subscriptions_of(alloc, self)
    }

    /// A wide sum is asked after all that costs less, so that a bound which many places move is moved once.
    fn cost(&self) -> Cost
        ensures { result ≡ cost_of (length self.now.form.places) }
    {
        if WIDE < self.form.places.len() {
            Cost::Great
        } else {
            Cost::Small
        }
    }

    /// The ends of the sum; of a pair bounds tell enough.
    fn counting(&self, alloc: Global) -> Result<Option<Counting>, Memory>
        ensures counts { IfOk result (λ found. IfSome found (CountsForm self.now.form)) }
    {
        if let Some(pair) = pair_of(&self.form) {
            return Ok(Some(Counting {
                tally: Tally { low: 0, high: 0 },
                weights: Vec::new(alloc),
                pair: Some(pair),
            }));
        }
        if self.form.places.len() < FEWEST {
            return Ok(None);
        }
        let Some(room) = self.room else {
            return Ok(None);
        };
        let weights = weights_of(alloc, &self.form)?;
        Ok(Some(Counting {
            tally: room.ends(),
            weights,
            pair: None,
        }))
    }

    fn count(&self, tally: Tally, weight: i64, shift: Shift) -> Tally {
        moved(tally, weight, shift)
    }

    fn is_idle(&self, tally: Tally, bounds: &[Option<Bounds>]) -> bool {
        match &self.room {
            Some(room) => room.is_left(&self.form, tally, bounds),
            None => false,
        }
    }

    fn propagate(&self, alloc: Global, trail: &Trail, found: &mut Findings) -> Result<(), Memory> {
        self.infer(alloc, trail, found)
    }
}
