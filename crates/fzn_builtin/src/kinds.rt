// The propagator of any such constraint, and which constraint gets one.
ghost use Rattle.std.specs.Prelude.{◌≡◌, ◌-◌, ◌≤◌, ◌++◌, List, length, IfOk, IfSome, IfNone, None, slice_index_or};
ghost use Rattle.fzn_domain.specs.IntSet.{IntSet};
ghost use Rattle.fzn_meaning.specs.declared.constraint.Constraint.{Constraint};
ghost use Rattle.fzn_meaning.specs.Solutions.{declared_sets};
ghost use Rattle.fzn_meaning.specs.WellFormed.{IsWellFormed};
ghost use Rattle.fzn_builtin_rules.specs.Choices.{inputs_of};
ghost use Rattle.fzn_builtin_rules.specs.Form.{form_of};
ghost use Rattle.fzn_propagator.specs.declared.cost.Cost.TheVariants as cost;
ghost use Rattle.fzn_propagator.specs.declared.event.Event.TheVariants as event;
ghost use Rattle.fzn_propagator.specs.Subscriptions.{terms_of, waits_each, waits_some, AreHeard};
ghost use Rattle.fzn_builtin.specs.Kinds.{builtin_number, BuiltinIsFor, BuiltinFits};

use crate::narrow::narrow;
use fzn_domain::Memory;
use fzn_fixed::{Parts, parts_of, refute_fixed};
use fzn_meaning::Model;
use fzn_propagator::{Cost, Event, Findings, Propagator, Subscriptions};
use fzn_rules::Rule;
use fzn_trail::Trail;
use std::alloc::Global;

/// What reasons for one constraint that is no sum.
#[derive(Drop)]
pub struct BuiltinPropagator {
    /// The number of the constraint, counted from 1.
    pub number: u64,
    /// The constraint, with its inputs and its result.
    pub parts: Parts,
}

impl Propagator for BuiltinPropagator {
    ghost number = { builtin_number };

    ghost is_for = { BuiltinIsFor };

    ghost fits = { BuiltinFits };

    ghost costs = { λ _. cost.Small };

    /// Each change of an input or of the result.
    fn subscriptions(&self, alloc: Global) -> Result<Subscriptions, Memory>
        requires fits { (declared : List IntSet) × BuiltinFits self.now declared }
        ensures value { IfOk result (λ subscriptions. subscriptions ≡ waits_each event.Any self.now.parts.inputs ++ waits_some event.Any self.now.parts.result) }
        ensures heard { IfOk result (λ subscriptions. (constraint : Constraint) → BuiltinIsFor self.now constraint → AreHeard subscriptions (terms_of constraint)) }
    {
        let mut subscriptions = Subscriptions::new(alloc);
        subscriptions.add_each(self.parts.inputs.as_slice(), Event::Any)?;
        subscriptions.add_some(self.parts.result, Event::Any)?;
        Ok(subscriptions)
    }

    fn cost(&self) -> Cost
        ensures { result ≡ cost.Small }
    {
        Cost::Small
    }

    fn propagate(&self, alloc: Global, trail: &Trail, found: &mut Findings) -> Result<(), Memory> {
        narrow(alloc, trail, self.number, &self.parts, found)?;
        if !found.is_empty() {
            return Ok(());
        }
        let Some(clause) = refute_fixed(alloc, trail, &self.parts)? else {
            return Ok(());
        };
        found.hand_over(self.number, Rule::Fixed, Some(clause))
    }
}

/// The propagator of the constraint of this number, counted from 1, where this crate has one for it: it is no sum, and none of the five
/// globals. It answers `Err` where memory runs out.
pub fn propagator_of(
    alloc: Global,
    model: &Model,
    c: usize,
) -> Result<Option<BuiltinPropagator>, Memory>
    requires model { IsWellFormed model.now }
    requires number { (1 ≤ c) × (c ≤ length model.now.constraints) }
    ensures number { IfOk result (λ found. IfSome found (λ propagator. builtin_number propagator ≡ c)) }
    ensures is_for { IfOk result (λ found. IfSome found (λ propagator. (default : Constraint) → BuiltinIsFor propagator (slice_index_or model.now.constraints (c - 1) default))) }
    ensures fits { IfOk result (λ found. IfSome found (λ propagator. BuiltinFits propagator (declared_sets model.now.vars))) }
    ensures none { IfOk result (λ found. IfNone found ((default : Constraint) → form_of (slice_index_or model.now.constraints (c - 1) default) ≡ None → inputs_of (slice_index_or model.now.constraints (c - 1) default) ≡ None)) }
{
    let constraint = &model.constraints.as_slice()[c - 1];
    let Some(parts) = parts_of(alloc, constraint)? else {
        return Ok(None);
    };
    Ok(Some(BuiltinPropagator {
        number: c as u64,
        parts,
    }))
}
