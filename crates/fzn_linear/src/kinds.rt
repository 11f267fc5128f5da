// One type for all kinds of propagators of this crate, and which constraint gets which.
ghost use Rattle.std.specs.Prelude.{◌≡◌, ℕ, ◌-◌, ◌≤◌, List, length, IfOk, IfSome, IfNone, None, slice_index_or};
ghost use Rattle.fzn_meaning.specs.declared.constraint.Constraint.{Constraint};
ghost use Rattle.fzn_domain.specs.IntSet.{IntSet};
ghost use Rattle.fzn_meaning.specs.Solutions.{declared_sets};
ghost use Rattle.fzn_meaning.specs.Meaning.{IsWellFormedConstraint};
ghost use Rattle.fzn_meaning.specs.WellFormed.{IsWellFormed};
ghost use Rattle.fzn_builtin_rules.specs.Form.{form_of};
ghost use Rattle.fzn_propagator.specs.Subscriptions.{terms_of, AreHeard};
ghost use Rattle.fzn_linear.specs.Kinds.{form_of_sum, IsFormOf, IsSumReady};
ghost use Rattle.fzn_linear.specs.Costs.{kind_cost};
ghost use Rattle.fzn_linear.specs.AnyKind.{kind_number, KindIsFor, KindFits, KindCounts, sum_in};
ghost use Rattle.fzn_linear.specs.Wakes.{wake_of, sum_subscriptions};

use crate::equality::EqualityPropagator;
use crate::form::{SumForm, form_of};
use crate::opposite::opposite_of;
use crate::room::Room;
use crate::sum::SumPropagator;
use crate::wake::wake_of;
use fzn_domain::Memory;
use fzn_meaning::{Constraint, Model};
use fzn_propagator::{Bounds, Cost, Counting, Findings, Propagator, Shift, Subscriptions, Tally};
use fzn_trail::Trail;
use std::alloc::Global;

/// What reasons for one constraint that has a form as a sum.
#[derive(Debug, Drop)]
pub enum ArithPropagator {
    /// A sum compares with a bound.
    Sum(SumPropagator),
    /// Two terms are compared.
    Equality(EqualityPropagator),
}

impl Propagator for ArithPropagator {
    ghost number = { kind_number };

    ghost is_for = { KindIsFor };

    ghost fits = { KindFits };

    ghost costs = { kind_cost };

    ghost counts = { KindCounts };

    fn subscriptions(&self, alloc: Global) -> Result<Subscriptions, Memory>
        requires fits { (declared : List IntSet) × KindFits self.now declared }
        ensures value { IfOk result (λ subscriptions. subscriptions ≡ sum_subscriptions (sum_in self.now)) }
        ensures heard { IfOk result (λ subscriptions. (constraint : Constraint) → KindIsFor self.now constraint → AreHeard subscriptions (terms_of constraint)) }
    {
        match self {
            ArithPropagator::Sum(propagator) => propagator.subscriptions(alloc),
            ArithPropagator::Equality(propagator) => propagator.subscriptions(alloc),
        }
    }

    fn cost(&self) -> Cost
        ensures { result ≡ kind_cost self.now }
    {
        match self {
            ArithPropagator::Sum(propagator) => propagator.cost(),
            ArithPropagator::Equality(propagator) => propagator.cost(),
        }
    }

    fn counting(&self, alloc: Global) -> Result<Option<Counting>, Memory>
        ensures counts { IfOk result (λ found. IfSome found (KindCounts self.now)) }
    {
        match self {
            ArithPropagator::Sum(propagator) => propagator.counting(alloc),
            ArithPropagator::Equality(_) => Ok(None),
        }
    }

    fn count(&self, tally: Tally, weight: i64, shift: Shift) -> Tally {
        match self {
            ArithPropagator::Sum(propagator) => propagator.count(tally, weight, shift),
            ArithPropagator::Equality(_) => tally,
        }
    }

    fn is_idle(&self, tally: Tally, bounds: &[Option<Bounds>]) -> bool {
        match self {
            ArithPropagator::Sum(propagator) => propagator.is_idle(tally, bounds),
            ArithPropagator::Equality(_) => false,
        }
    }

    fn propagate(&self, alloc: Global, trail: &Trail, found: &mut Findings) -> Result<(), Memory> {
        match self {
            ArithPropagator::Sum(propagator) => propagator.propagate(alloc, trail, found),
            ArithPropagator::Equality(propagator) => propagator.propagate(alloc, trail, found),
        }
    }
}

/// The propagator of the constraint of this number, counted from 1, where this crate has one for it: it has a form as a sum. It answers
/// `Err` where memory runs out.
pub fn propagator_of(
    alloc: Global,
    model: &Model,
    c: usize,
) -> Result<Option<ArithPropagator>, Memory>
    requires model { IsWellFormed model.now }
    requires number { (1 ≤ c) × (c ≤ length model.now.constraints) }
    ensures number { IfOk result (λ found. IfSome found (λ propagator. kind_number propagator ≡ c)) }
    ensures is_for { IfOk result (λ found. IfSome found (λ propagator. (default : Constraint) → KindIsFor propagator (slice_index_or model.now.constraints (c - 1) default))) }
    ensures fits { IfOk result (λ found. IfSome found (λ propagator. KindFits propagator (declared_sets model.now.vars))) }
    ensures none { IfOk result (λ found. IfNone found ((default : Constraint) → form_of (slice_index_or model.now.constraints (c - 1) default) ≡ None)) }
    ensures wake { IfOk result (λ found. IfSome found (λ propagator. (default : Constraint) → (sum_in propagator).wake ≡ wake_of (slice_index_or model.now.constraints (c - 1) default) (form_of_sum (sum_in propagator).form))) }
{
    let constraint = &model.constraints.as_slice()[c - 1];
    let Some(form) = form_of(alloc, constraint)? else {
        return Ok(None);
    };
    let room = Room::new(&form, &model.vars);
    Ok(Some(with_form(alloc, c as u64, constraint, form, room)?))
}

/// The propagator of the constraint of this number and form, whose places may give so much.
fn with_form(
    alloc: Global,
    number: u64,
    constraint: &Constraint,
    form: SumForm,
    room: Option<Room>,
) -> Result<ArithPropagator, Memory>
    requires formed { (count : ℕ) × IsWellFormedConstraint count constraint.now }
    requires form { IsFormOf constraint.now form }
    ensures number { IfOk result (λ propagator. kind_number propagator ≡ number) }
    ensures is_for { IfOk result (λ propagator. KindIsFor propagator constraint.now) }
    ensures fits { IfOk result (λ propagator. (declared : List IntSet) → IsWellFormedConstraint (length declared) constraint.now → KindFits propagator declared) }
    ensures wake { IfOk result (λ propagator. (sum_in propagator).wake ≡ wake_of constraint.now (form_of_sum (sum_in propagator).form)) }
{
    let opposite = opposite_of(alloc, &form)?;
    let wake = wake_of(constraint, &form);
    let sum = SumPropagator {
        number,
        form,
        opposite,
        wake,
        room,
    };
    Ok(kind_of(constraint, sum))
}

/// The propagator of the constraint, from that of its sum.
#[tactic(auto, unfolding(fzn_meaning::specs::Meaning::IsWellFormedConstraint))]
fn kind_of(constraint: &Constraint, sum: SumPropagator) -> ArithPropagator
    ensures number { kind_number result ≡ sum.number }
    ensures sum { sum_in result ≡ sum }
    ensures is_for { IsFormOf constraint.now sum.form → KindIsFor result constraint.now }
    ensures fits { (declared : List IntSet) → IsWellFormedConstraint (length declared) constraint.now → IsSumReady (length declared) sum.form sum.opposite → KindFits result declared }
{
    let Constraint::Compare {
        relation,
        left,
        right,
        switch,
    } = constraint
    else {
        return ArithPropagator::Sum(sum);
    };
    ArithPropagator::Equality(EqualityPropagator {
        sum,
        relation: *relation,
        left: *left,
        right: *right,
        switch: *switch,
    })
}
