// The changes that the propagator of a sum waits for.
ghost use Rattle.std.specs.Prelude.{◌≡◌, IfOk};
ghost use Rattle.fzn_linear.specs.Kinds.{form_of_sum};
ghost use Rattle.fzn_linear.specs.Wakes.{event_at, equal_event, wake_of, sum_subscriptions};

use crate::form::SumForm;
use crate::sum::SumPropagator;
use fzn_domain::Memory;
use fzn_meaning::{Comparison, Constraint};
use fzn_propagator::{Event, Subscriptions};
use std::alloc::Global;

/// Which changes of its terms can make a sum compare otherwise with its bound.
#[derive(Clone, Copy, Debug, PartialEq, Eq)]
pub enum Wake {
    /// Those that make its least value rise.
    Rising,
    /// Such changes of each.
    Each(Event),
}

impl Wake {
    /// The changes of a term with this coefficient.
    fn event(self, coefficient: i64) -> Event
        ensures { result ≡ event_at self coefficient }
    {
        match self {
            Wake::Rising => {
                if coefficient < 0 {
                    Event::High
                } else {
                    Event::Low
                }
            }
            Wake::Each(event) => event,
        }
    }
}

/// What wakes the propagator of the constraint of this form.
pub fn wake_of(constraint: &Constraint, form: &SumForm) -> Wake
    ensures { result ≡ wake_of constraint.now (form_of_sum form.now) }
{
    match (form.comparison, form.switch) {
        (Comparison::AtMost, None) => Wake::Rising,
        (Comparison::AtMost, Some(_)) => Wake::Each(Event::Bound),
        (Comparison::Equal, None) => Wake::Each(equal_event(constraint)),
        (Comparison::NotEqual, None) => Wake::Each(Event::Fixed),
        (Comparison::Equal | Comparison::NotEqual, Some(_)) => Wake::Each(Event::Any),
    }
}

/// The changes that matter where the sum is to be the bound: each one where it is of two terms that are compared.
fn equal_event(constraint: &Constraint) -> Event
    ensures { result ≡ equal_event constraint.now }
{
    match constraint {
        Constraint::Compare { .. } | Constraint::Arithmetic { .. } => Event::Any,
        _ => Event::Bound,
    }
}

/// The changes that the propagator waits for, of its places and of its switch.
pub fn subscriptions_of(alloc: Global, propagator: &SumPropagator) -> Result<Subscriptions, Memory>
    ensures { IfOk result (λ subscriptions. subscriptions ≡ sum_subscriptions propagator.now) }
{
    let mut subscriptions = Subscriptions::new(alloc);
    let places = propagator.form.places.as_slice();
    for place in places {
        subscriptions.add(place.term, propagator.wake.event(place.coefficient))?;
    }
    subscriptions.add_some(propagator.form.switch, Event::Any)?;
    Ok(subscriptions)
}
