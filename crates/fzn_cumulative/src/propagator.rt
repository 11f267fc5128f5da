// The propagator of a cumulative: the clauses of the first kind of which there are any; and which constraint gets one.
ghost use Rattle.std.specs.Prelude.{◌≡◌, ◌-◌, ◌≤◌, ◌++◌, List, [], length, IfOk, IfSome, IfNone, OnOk, slice_index_or};
ghost use Rattle.std.specs.List.{All};
ghost use Rattle.fzn_domain.specs.declared.literal.Lit.{Lit};
ghost use Rattle.fzn_domain.specs.IntSet.{IntSet};
ghost use Rattle.fzn_meaning.specs.declared.constraint.Constraint.{Constraint};
ghost use Rattle.fzn_meaning.specs.declared.constraint.Constraint.TheVariants as constraint;
ghost use Rattle.fzn_values.specs.declared.term.Term.{Term};
ghost use Rattle.fzn_values.specs.Term.{IsTerm};
ghost use Rattle.fzn_meaning.specs.Solutions.{declared_sets};
ghost use Rattle.fzn_meaning.specs.WellFormed.{IsWellFormed};
ghost use Rattle.fzn_rules.specs.declared.rule.Rule.TheVariants as rule;
ghost use Rattle.fzn_propagator.specs.declared.cost.Cost.TheVariants as cost;
ghost use Rattle.fzn_propagator.specs.declared.event.Event.TheVariants as event;
ghost use Rattle.fzn_propagator.specs.Subscriptions.{terms_of, waits, waits_each, AreHeard};
ghost use Rattle.fzn_cumulative.specs.Passes.{tasks_of, IsJustifiedByCumulative, AreFoundOfCumulative};
ghost use Rattle.fzn_cumulative.specs.Propagator.{cumulative_number, CumulativeIsFor, CumulativeFits};
ghost use Rattle.fzn_cumulative.specs.Kept.{AreNotBelow, HasNoneBelow, IsSomeBelow, MeetsWhereFixed};

use crate::energy_pass::find_energy;
use crate::load_pass::{find_by_profile, find_of_fixed};
use crate::pass::Pass;
use crate::tasks::Tasks;
use fzn_domain::{Lit, Memory};
use fzn_list::{Items, Shared};
use fzn_meaning::{Constraint, Model};
use fzn_propagator::{Cost, Event, Findings, Propagator, Subscriptions};
use fzn_rules::Rule;
use fzn_terms::{Claim, force};
use fzn_trail::Trail;
use fzn_values::Term;
use std::alloc::Global;

/// What reasons for one `fzn_cumulative`: at single times by the rule `load`, and between two by `energy`.
#[derive(Drop)]
pub struct CumulativePropagator {
    /// The number of the constraint, counted from 1.
    pub number: u64,
    /// Its tasks and its capacity.
    pub tasks: Tasks,
}

impl CumulativePropagator {
    /// The propagator of the cumulative of these tasks, which has this number.
    fn new(
        number: u64,
        starts: &Shared<Term>,
        durations: &Shared<Term>,
        uses: &Shared<Term>,
        capacity: Term,
    ) -> Result<CumulativePropagator, Memory>
        ensures number { IfOk result (λ propagator. propagator.number ≡ number) }
        ensures tasks { IfOk result (λ propagator. propagator.tasks ≡ record { starts = starts.now; durations = durations.now; uses = uses.now; capacity = capacity }) }
    {
        let tasks = Tasks {
            starts: starts.share()?,
            durations: durations.share()?,
            uses: uses.share()?,
            capacity,
        };
        Ok(CumulativePropagator { number, tasks })
    }
}

impl Propagator for CumulativePropagator {
    ghost number = { cumulative_number };

    ghost is_for = { CumulativeIsFor };

    ghost fits = { CumulativeFits };

    ghost costs = { λ _. cost.Great };

    /// That a bound of a start, a duration, a use or the capacity moves.
    fn subscriptions(&self, alloc: Global) -> Result<Subscriptions, Memory>
        requires fits { (declared : List IntSet) × CumulativeFits self.now declared }
        ensures value { IfOk result (λ subscriptions. subscriptions ≡ waits_each event.Bound self.now.tasks.starts ++ waits_each event.Bound self.now.tasks.durations ++ waits_each event.Bound self.now.tasks.uses ++ waits event.Bound self.now.tasks.capacity) }
        ensures heard { IfOk result (λ subscriptions. (constraint : Constraint) → CumulativeIsFor self.now constraint → AreHeard subscriptions (terms_of constraint)) }
    {
        let mut subscriptions = Subscriptions::new(alloc);
        subscriptions.add_each(self.tasks.starts.as_slice(), Event::Bound)?;
        subscriptions.add_each(self.tasks.durations.as_slice(), Event::Bound)?;
        subscriptions.add_each(self.tasks.uses.as_slice(), Event::Bound)?;
        subscriptions.add(self.tasks.capacity, Event::Bound)?;
        Ok(subscriptions)
    }

    fn cost(&self) -> Cost
        ensures { result ≡ cost.Great }
    {
        Cost::Great
    }

    fn propagate(&self, alloc: Global, trail: &Trail, found: &mut Findings) -> Result<(), Memory> {
        let pass = Pass {
            alloc,
            number: self.number,
            trail,
            starts: self.tasks.starts.as_slice(),
            durations: self.tasks.durations.as_slice(),
            uses: self.tasks.uses.as_slice(),
            capacity: self.tasks.capacity,
        };
        find_all(&pass, found)
    }
}

/// The propagator of the constraint of this number, counted from 1, where it is a cumulative. It answers `Err` where memory runs out.
pub fn propagator_of(model: &Model, c: usize) -> Result<Option<CumulativePropagator>, Memory>
    requires model { IsWellFormed model.now }
    requires number { (1 ≤ c) × (c ≤ length model.now.constraints) }
    ensures number { IfOk result (λ found. IfSome found (λ propagator. cumulative_number propagator ≡ c)) }
    ensures is_for { IfOk result (λ found. IfSome found (λ propagator. (default : Constraint) → CumulativeIsFor propagator (slice_index_or model.now.constraints (c - 1) default))) }
    ensures fits { IfOk result (λ found. IfSome found (λ propagator. CumulativeFits propagator (declared_sets model.now.vars))) }
    ensures none { IfOk result (λ found. IfNone found ((default : Constraint) (starts durations uses : List Term) (capacity : Term) → slice_index_or model.now.constraints (c - 1) default ≡ constraint.Cumulative starts durations uses capacity → ⊥)) }
{
    propagator_for(c as u64, &model.constraints.as_slice()[c - 1])
}

/// The propagator of a constraint, with this number.
fn propagator_for(number: u64, given: &Constraint) -> Result<Option<CumulativePropagator>, Memory>
    ensures number { IfOk result (λ found. IfSome found (λ propagator. cumulative_number propagator ≡ number)) }
    ensures is_for { IfOk result (λ found. IfSome found (λ propagator. CumulativeIsFor propagator given.now)) }
    ensures none { IfOk result (λ found. IfNone found ((starts durations uses : List Term) (capacity : Term) → given.now ≡ constraint.Cumulative starts durations uses capacity → ⊥)) }
{
    let Constraint::Cumulative {
        starts,
        durations,
        uses,
        capacity,
    } = given
    else {
        return Ok(None);
    };
    let propagator = CumulativePropagator::new(number, starts, durations, uses, *capacity)?;
    Ok(Some(propagator))
}

/// Finds by one kind of clauses after the other, until there is any.
fn find_all(pass: &Pass, found: &mut Findings) -> Result<(), Memory>
    requires before { AreFoundOfCumulative pass.now found.old }
    ensures found { AreFoundOfCumulative pass.now found.new }
    ensures none { OnOk result (found.new ≡ [] → MeetsWhereFixed pass.now.trail.now.sets (tasks_of pass.now)) }
{
    find_negative(pass, found)?;
    if !found.is_empty() {
        return Ok(());
    }
    find_by_profile(pass, found)?;
    if !found.is_empty() {
        return Ok(());
    }
    find_energy(pass, found)?;
    if !found.is_empty() {
        return Ok(());
    }
    find_of_fixed(pass, found)
}

/// Finds of each duration, each use and the capacity that it is not below 0.
fn find_negative(pass: &Pass, found: &mut Findings) -> Result<(), Memory>
    requires before { AreFoundOfCumulative pass.now found.old }
    ensures found { AreFoundOfCumulative pass.now found.new }
    ensures none { OnOk result (found.new ≡ [] → HasNoneBelow pass.now.trail.now.sets (tasks_of pass.now)) }
{
    find_below(pass, pass.durations, found)?;
    find_below(pass, pass.uses, found)?;
    find_below(pass, &[pass.capacity], found)
}

/// Finds of each of these terms of the tasks that it is not below 0.
fn find_below(pass: &Pass, terms: &[Term], found: &mut Findings) -> Result<(), Memory>
    requires terms { All (IsTerm (length pass.now.trail.now.declared)) terms.now }
    requires inferred { (clause : List Lit) → IsSomeBelow pass.now.trail.now terms.now clause → IsJustifiedByCumulative pass.now rule.Rows clause }
    requires before { AreFoundOfCumulative pass.now found.old }
    ensures found { AreFoundOfCumulative pass.now found.new }
    ensures kept { OnOk result (found.new ≡ [] → found.old ≡ []) }
    ensures none { OnOk result (found.new ≡ [] → AreNotBelow pass.now.trail.now.sets terms.now) }
{
    for k in 0..terms.len() {
        let mut clause = Items::new(pass.alloc);
        if force(pass.trail, Claim::at_most(terms[k], -1), &mut clause)? {
            found.hand_over(pass.number, Rule::Rows, Some(clause))?;
        }
    }
    Ok(())
}
