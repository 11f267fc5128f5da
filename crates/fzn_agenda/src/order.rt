// In which order propagators are asked. It only chooses: nothing is promised of the order.
ghost use Rattle.std.specs.Prelude.{List};
ghost use Rattle.std.specs.List.{All};
ghost use Rattle.fzn_domain.specs.IntSet.{IntSet};

use crate::watchers::Watchers;
use fzn_domain::Memory;
use fzn_propagator::{Event, Propagator};
use std::alloc::Global;

/// What a walk looks at next.
#[derive(Clone, Copy, Debug)]
enum Visit {
    /// The propagator at this place, and all that it leads to.
    Enter(usize),
    /// The propagator at this place, once all was looked at that it leads to.
    Leave(usize),
    /// The variable of this number, whose least value may be raised.
    Raise(usize),
}

/// A walk over propagators, along the least values that they may raise.
#[derive(Drop)]
struct Walk {
    /// The last of them is the next.
    visits: Vec<Visit>,
    is_entered: Vec<bool>,
    is_raised: Vec<bool>,
    /// The places of those that were left.
    left: Vec<usize>,
}

/// The places of these propagators, each before those that it leads to, where they don't lead back to it. One that waits until the greatest
/// value of a variable falls may raise its least value, and leads to those that wait until that rises: `x < y` to `y < z`. Where none
/// leads to another they stand as they came.
pub fn leading_order<P: Propagator>(
    alloc: Global,
    variables: usize,
    propagators: &[P],
    watchers: &Watchers,
) -> Result<Vec<usize>, Memory>
    requires { All (λ propagator. (declared : List IntSet) × P.fits propagator declared) propagators.now }
{
    let count = propagators.len();
    let mut walk = Walk::new(alloc, count, variables)?;
    let most = count.saturating_add(watchers.len()).saturating_mul(2);
    for _ in 0..most {
        let Some(visit) = walk.visits.pop() else {
            break;
        };
        match visit {
            Visit::Enter(place) => walk.enter(alloc, propagators, place)?,
            Visit::Leave(place) => walk.left.push(place)?,
            Visit::Raise(variable) => walk.follow(variable, watchers)?,
        }
    }
    walk.left.reverse();
    Ok(walk.left)
}

impl Walk {
    /// All propagators are to be looked at, the last of them next.
    fn new(alloc: Global, propagators: usize, variables: usize) -> Result<Walk, Memory> {
        let mut visits = Vec::new(alloc);
        for place in 0..propagators {
            visits.push(Visit::Enter(place))?;
        }
        Ok(Walk {
            visits,
            is_entered: vec![in alloc; false; propagators]?,
            is_raised: vec![in alloc; false; variables]?,
            left: Vec::new(alloc),
        })
    }

    /// The least values that the propagator at this place may raise are next, where it is entered for the first time.
    fn enter<P: Propagator>(
        &mut self,
        alloc: Global,
        propagators: &[P],
        place: usize,
    ) -> Result<(), Memory>
        requires { All (λ propagator. (declared : List IntSet) × P.fits propagator declared) propagators.now }
    {
        if place >= self.is_entered.len() || self.is_entered[place] {
            return Ok(());
        }
        self.is_entered[place] = true;
        self.visits.push(Visit::Leave(place))?;
        if place < propagators.len() {
            self.raise(alloc, &propagators[place])?;
        }
        Ok(())
    }

    fn raise<P: Propagator>(&mut self, alloc: Global, propagator: &P) -> Result<(), Memory>
        requires { (declared : List IntSet) × P.fits propagator.now declared }
    {
        let subscriptions = propagator.subscriptions(alloc)?;
        for subscription in subscriptions.as_slice() {
            match subscription.event {
                Event::High | Event::Bound | Event::Any => {
                    self.visits.push(Visit::Raise(subscription.variable.0))?;
                }
                Event::Low | Event::Fixed => {}
            }
        }
        Ok(())
    }

    /// The propagators are next that wait for the least value of the variable of this number, where it was not looked at before.
    fn follow(&mut self, variable: usize, watchers: &Watchers) -> Result<(), Memory> {
        let index = variable.saturating_sub(1);
        if index >= self.is_raised.len() || self.is_raised[index] {
            return Ok(());
        }
        self.is_raised[index] = true;
        let (start, end) = watchers.span(variable);
        for i in start..end {
            if let Some(watch) = watchers.get(i) {
                match watch.event {
                    Event::Low | Event::Bound | Event::Any => {
                        self.visits.push(Visit::Enter(watch.propagator))?;
                    }
                    Event::High | Event::Fixed => {}
                }
            }
        }
        Ok(())
    }
}
