// The propagator of a circuit: the clauses of the first kind of which there are any; and which constraint gets one.
ghost use Rattle.std.specs.Prelude.{◌≡◌, ◌-◌, ◌<◌, ◌≤◌, pos, List, [], length, IfOk, IfSome, IfNone, OnOk, slice_index_or};
ghost use Rattle.fzn_meaning.specs.declared.constraint.Constraint.{Constraint};
ghost use Rattle.fzn_meaning.specs.declared.constraint.Constraint.TheVariants as constraint;
ghost use Rattle.fzn_values.specs.declared.term.Term.{Term};
ghost use Rattle.fzn_values.specs.Term.{IsTerm};
ghost use Rattle.fzn_domain.specs.IntSet.{IntSet};
ghost use Rattle.fzn_meaning.specs.Solutions.{declared_sets};
ghost use Rattle.fzn_meaning.specs.WellFormed.{IsWellFormed};
ghost use Rattle.fzn_propagator.specs.declared.cost.Cost.TheVariants as cost;
ghost use Rattle.fzn_propagator.specs.declared.event.Event.TheVariants as event;
ghost use Rattle.fzn_propagator.specs.Inference.{AreExhausted};
ghost use Rattle.fzn_propagator.specs.Subscriptions.{terms_of, waits_each, AreHeard};
ghost use Rattle.fzn_terms.specs.Denied.{IsDenied, IsNear};
ghost use Rattle.fzn_circuit.specs.Propagator.{circuit_number, CircuitIsFor, CircuitFits};
ghost use Rattle.fzn_circuit.specs.Circuits.{AreInside, HasNoShortWay};
ghost use Rattle.fzn_circuit.specs.Passes.{RefutesRows, AreFoundOfCircuit};

use crate::circuit::find_cut;
use crate::closed::find_closed;
use crate::pass::Pass;
use crate::same::{find_same, has_open};
use crate::ways::starts_of;
use fzn_domain::Memory;
use fzn_list::{Items, Shared};
use fzn_meaning::{Constraint, Model};
use fzn_propagator::{Cost, Event, Findings, Propagator, Subscriptions};
use fzn_rules::Rule;
use fzn_terms::{Claim, force, is_denied};
use fzn_trail::Trail;
use fzn_values::Term;
use std::alloc::Global;

/// What reasons for one `fzn_circuit`. Places that lead only to one another are found by the walk of R. Tarjan, Depth-first search and
/// linear graph algorithms, 1972.
#[derive(Drop)]
pub struct CircuitPropagator {
    /// The number of the constraint, counted from 1.
    pub number: u64,
    /// The successor of each place, both counted from 1.
    pub successors: Shared<Term>,
}

impl CircuitPropagator {
    /// The propagator of the circuit of these successors, which has this number.
    fn new(number: u64, successors: &Shared<Term>) -> Result<CircuitPropagator, Memory>
        ensures { IfOk result (λ propagator. propagator ≡ record { number = number; successors = successors.now }) }
    {
        Ok(CircuitPropagator {
            number,
            successors: successors.share()?,
        })
    }
}

impl Propagator for CircuitPropagator {
    ghost number = { circuit_number };

    ghost is_for = { CircuitIsFor };

    ghost fits = { CircuitFits };

    ghost costs = { λ _. cost.Great };

    /// Each change of a successor.
    fn subscriptions(&self, alloc: Global) -> Result<Subscriptions, Memory>
        requires fits { (declared : List IntSet) × CircuitFits self.now declared }
        ensures value { IfOk result (λ subscriptions. subscriptions ≡ waits_each event.Any self.now.successors) }
        ensures heard { IfOk result (λ subscriptions. (constraint : Constraint) → CircuitIsFor self.now constraint → AreHeard subscriptions (terms_of constraint)) }
    {
        let mut subscriptions = Subscriptions::new(alloc);
        subscriptions.add_each(self.successors.as_slice(), Event::Any)?;
        Ok(subscriptions)
    }

    fn cost(&self) -> Cost
        ensures { result ≡ cost.Great }
    {
        Cost::Great
    }

    fn propagate(&self, alloc: Global, trail: &Trail, found: &mut Findings) -> Result<(), Memory> {
        let pass = Pass {
            alloc,
            number: self.number,
            trail,
            successors: self.successors.as_slice(),
        };
        find_all(&pass, found)
    }
}

/// The propagator of the constraint of this number, counted from 1, where it is a circuit. It answers `Err` where memory runs out.
pub fn propagator_of(model: &Model, c: usize) -> Result<Option<CircuitPropagator>, Memory>
    requires model { IsWellFormed model.now }
    requires number { (1 ≤ c) × (c ≤ length model.now.constraints) }
    ensures number { IfOk result (λ found. IfSome found (λ propagator. circuit_number propagator ≡ c)) }
    ensures is_for { IfOk result (λ found. IfSome found (λ propagator. (default : Constraint) → CircuitIsFor propagator (slice_index_or model.now.constraints (c - 1) default))) }
    ensures fits { IfOk result (λ found. IfSome found (λ propagator. CircuitFits propagator (declared_sets model.now.vars))) }
    ensures none { IfOk result (λ found. IfNone found ((default : Constraint) (successors : List Term) → slice_index_or model.now.constraints (c - 1) default ≡ constraint.Circuit successors → ⊥)) }
{
    propagator_for(c as u64, &model.constraints.as_slice()[c - 1])
}

/// The propagator of a constraint, with this number.
fn propagator_for(number: u64, given: &Constraint) -> Result<Option<CircuitPropagator>, Memory>
    ensures number { IfOk result (λ found. IfSome found (λ propagator. circuit_number propagator ≡ number)) }
    ensures is_for { IfOk result (λ found. IfSome found (λ propagator. CircuitIsFor propagator given.now)) }
    ensures none { IfOk result (λ found. IfNone found ((successors : List Term) → given.now ≡ constraint.Circuit successors → ⊥)) }
{
    let Constraint::Circuit { successors } = given else {
        return Ok(None);
    };
    Ok(Some(CircuitPropagator::new(number, successors)?))
}

/// Finds all of the first kind of which there is anything to be found.
fn find_all(pass: &Pass, found: &mut Findings) -> Result<(), Memory>
    requires before { AreFoundOfCircuit pass.now found.old }
    ensures found { AreFoundOfCircuit pass.now found.new }
    ensures none { OnOk result (found.new ≡ [] → AreExhausted (λ given. constraint.Circuit pass.now.successors.now ≡ given) pass.now.trail.now) }
{
    find_outside(pass, found)?;
    if !found.is_empty() {
        return Ok(());
    }
    find_same(pass, found)?;
    if !found.is_empty() {
        return Ok(());
    }
    find_cuts(pass, found)?;
    if !found.is_empty() {
        return Ok(());
    }
    find_closed(pass, found)
}

/// Finds for each successor that it is a place.
fn find_outside(pass: &Pass, found: &mut Findings) -> Result<(), Memory>
    requires before { AreFoundOfCircuit pass.now found.old }
    ensures found { AreFoundOfCircuit pass.now found.new }
    ensures none { OnOk result (found.new ≡ [] → AreInside pass.now.trail.now.sets pass.now.successors.now) }
{
    let beyond = pass.successors.len() as i64 + 1;
    for k in 0..pass.successors.len() {
        let below = Claim::at_most(pass.successors[k], 0);
        if !is_denied(pass.trail, below) {
            find_not(pass, below, found)?;
        }
        let above = Claim::at_least(pass.successors[k], beyond);
        if !is_denied(pass.trail, above) {
            find_not(pass, above, found)?;
        }
    }
    Ok(())
}

/// Finds that a claim does not hold by which some successor is no place.
fn find_not(pass: &Pass, claim: Claim, found: &mut Findings) -> Result<(), Memory>
    requires term { IsTerm (length pass.now.trail.now.declared) claim.term }
    requires near { IsNear claim.number }
    requires refuted { RefutesRows pass.now claim }
    requires before { AreFoundOfCircuit pass.now found.old }
    ensures found { AreFoundOfCircuit pass.now found.new }
    ensures kept { OnOk result (found.new ≡ [] → found.old ≡ []) }
    ensures none { OnOk result (found.new ≡ [] → IsDenied pass.now.trail.now.sets claim) }
{
    let mut clause = Items::with_capacity(pass.alloc, 1)?;
    if !force(pass.trail, claim, &mut clause)? {
        return Ok(());
    }
    found.hand_over(pass.number, Rule::Rows, Some(clause))
}

/// Finds for each way through fixed successors that it does not come back too soon.
fn find_cuts(pass: &Pass, found: &mut Findings) -> Result<(), Memory>
    requires before { AreFoundOfCircuit pass.now found.old }
    ensures found { AreFoundOfCircuit pass.now found.new }
    ensures none { OnOk result (found.new ≡ [] → 0 < length pass.now.successors.now → HasNoShortWay pass.now.trail.now.sets pass.now.successors.now (pos 1)) }
{
    let list = starts_of(pass)?;
    let starts = list.as_slice();
    for k in 0..starts.len() {
        find_cut(pass, starts[k], found)?;
    }
    if !found.is_empty() {
        return Ok(());
    }
    if pass.successors.is_empty() || has_open(pass) {
        return Ok(());
    }
    find_cut(pass, 1, found)
}
