// What every propagator promises.
ghost use Rattle.std.specs.Prelude.{◌≡◌, ℕ, List, [], IfOk, IfSome, OnOk};
ghost use Rattle.fzn_domain.specs.IntSet.{IntSet};
ghost use Rattle.fzn_domain.specs.Narrow.{NoneEmpty};
ghost use Rattle.fzn_meaning.specs.declared.constraint.Constraint.{Constraint};
ghost use Rattle.fzn_propagator.specs.declared.cost.Cost.{Cost};
ghost use Rattle.fzn_propagator.specs.declared.counting.Counting.{Counting};
ghost use Rattle.fzn_propagator.specs.Inference.{AreInferencesOf, AreExhausted};
ghost use Rattle.fzn_propagator.specs.Subscriptions.{terms_of, AreHeard};

use crate::bounds::{Bounds, Shift};
use crate::cost::Cost;
use crate::counting::{Counting, Tally};
use crate::findings::Findings;
use crate::subscriptions::Subscriptions;
use fzn_domain::Memory;
use fzn_trail::Trail;
use std::alloc::Global;

/// What reasons for one constraint.
pub trait Propagator {
    /// The number of its constraint.
    ghost number: { Self → ℕ };

    /// The constraints that it may stand for.
    ghost is_for: { Self → Constraint → Type 0 };

    /// Its terms are variables of the declared sets, and its numbers lie within the limits.
    ghost fits: { Self → List IntSet → Type 0 };

    /// What it costs to ask it.
    ghost costs: { Self → Cost };

    /// What it may begin to count with: one that says nothing of it counts nothing.
    ghost counts: { Self → Counting → Type 0 } = { λ _ _. ⊥ };

    /// The changes of variables that can give it something new. It waits for some change of each variable of its constraint, so that
    /// no constraint is forgotten. `Err` where memory runs out.
    fn subscriptions(&self, alloc: Global) -> Result<Subscriptions, Memory>
        requires fits { (declared : List IntSet) × fits self.now declared }
        ensures heard { IfOk result (λ subscriptions. (constraint : Constraint) → (is_for self.now) constraint → AreHeard subscriptions (terms_of constraint)) };

    /// What it costs to ask it. Nothing but the order in which propagators are asked rests on that.
    fn cost(&self) -> Cost
        ensures { result ≡ costs self.now };

    /// What it counts between two calls, so that it need not be asked at each change that it waits for: it begins with this. `None` where it
    /// counts nothing, and is asked at each. `Err` where memory runs out.
    fn counting(&self, _alloc: Global) -> Result<Option<Counting>, Memory>
        ensures counts { IfOk result (λ found. IfSome found (counts self.now)) }
    {
        Ok(None)
    }

    /// What it counts where it has counted this, and the bounds of a variable that counts by this weight have moved so.
    fn count(&self, tally: Tally, _weight: i64, _shift: Shift) -> Tally {
        tally
    }

    /// Whether a pass would find nothing, by what it counts and the bounds of the variables that are known, by their numbers less one. Then it
    /// is not asked. It only chooses: where each variable has one value, all propagators are asked.
    fn is_idle(&self, _tally: Tally, _bounds: &[Option<Bounds>]) -> bool {
        false
    }

    /// Appends what one pass infers to `found`. The clause of each inference is false on the trail as it stands, but for at most one literal,
    /// which it forces, so that one may force what another has forced. It answers `Err` where memory runs out; what was found up to then are inferences all the same.
    fn propagate(&self, alloc: Global, trail: &Trail, found: &mut Findings) -> Result<(), Memory>
        requires fits { fits self.now trail.now.declared }
        requires filled { NoneEmpty trail.now.sets }
        requires before { AreInferencesOf (number self.now) (is_for self.now) trail.now found.old }
        ensures found { AreInferencesOf (number self.now) (is_for self.now) trail.now found.new }
        ensures none { OnOk result (found.new ≡ [] → AreExhausted (is_for self.now) trail.now) };
}
