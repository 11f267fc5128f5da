// Which propagators look at a variable, and which of its changes wakes them.
ghost use Rattle.std.specs.Prelude.{List};
ghost use Rattle.std.specs.List.{All};
ghost use Rattle.fzn_domain.specs.IntSet.{IntSet};

use fzn_domain::Memory;
use fzn_propagator::{Counting, Event, Propagator};
use std::alloc::Global;

/// That the propagator at a place looks at a variable.
#[derive(Clone, Copy, Debug)]
pub struct Watch {
    /// The place of the propagator among those of the model, from 0 up.
    pub propagator: usize,
    /// The changes that wake it.
    pub event: Event,
    /// By what the variable counts in what the propagator counts. `None` where it counts nothing.
    pub weight: Option<i64>,
    /// Whether bounds alone tell whether the propagator has anything to say.
    pub is_pair: bool,
}

/// A watch with its variable.
#[derive(Clone, Copy, Debug)]
struct Listed {
    /// From 1 up.
    variable: usize,
    watch: Watch,
}

/// The watches of each variable.
#[derive(Debug, Drop)]
pub struct Watchers {
    /// Those of one variable after the other.
    watches: Vec<Watch>,
    /// Where those of each variable begin, by its number; before them a 0 for no variable, and behind them the number of all.
    starts: Vec<usize>,
}

impl Watchers {
    /// What these propagators wait for, of so many variables, where they count this.
    pub fn new<P: Propagator>(
        alloc: Global,
        variables: usize,
        propagators: &[P],
        countings: &[Option<Counting>],
    ) -> Result<Watchers, Memory>
        requires { All (λ propagator. (declared : List IntSet) × P.fits propagator declared) propagators.now }
    {
        let mut list = Vec::new(alloc);
        for place in 0..propagators.len() {
            let counting = counting_at(countings, place);
            add_watches(alloc, &mut list, place, &propagators[place], counting)?;
        }
        let starts = starts_of(alloc, variables, list.as_slice())?;
        let watches = by_variable(alloc, starts.as_slice(), list.as_slice())?;
        Ok(Watchers { watches, starts })
    }

    /// How many watches there are.
    pub fn len(&self) -> usize {
        self.watches.len()
    }

    /// Where the watches of the variable of this number begin and end.
    pub fn span(&self, variable: usize) -> (usize, usize) {
        match (
            self.starts.get(variable),
            self.starts.get(variable.saturating_add(1)),
        ) {
            (Some(start), Some(end)) => (*start, *end),
            _ => (0, 0),
        }
    }

    /// The watch at a place of a span.
    pub fn get(&self, place: usize) -> Option<Watch> {
        self.watches.get(place).copied()
    }
}

/// Where the watches of each variable begin.
fn starts_of(alloc: Global, variables: usize, list: &[Listed]) -> Result<Vec<usize>, Memory> {
    let mut counts: Vec<usize> = vec![in alloc; 0; variables]?;
    for listed in list {
        let index = listed.variable.saturating_sub(1);
        if index < counts.len() {
            counts[index] = counts[index].saturating_add(1);
        }
    }
    let mut starts = Vec::new(alloc);
    let mut start: usize = 0;
    starts.push(start)?;
    for count in counts.as_slice() {
        starts.push(start)?;
        start = start.saturating_add(*count);
    }
    starts.push(start)?;
    Ok(starts)
}

/// The watches of one variable after the other.
fn by_variable(alloc: Global, starts: &[usize], list: &[Listed]) -> Result<Vec<Watch>, Memory> {
    let mut watches = Vec::new(alloc);
    for listed in list {
        watches.push(listed.watch)?;
    }
    let mut free = Vec::from_slice(alloc, starts)?;
    for listed in list {
        if listed.variable < free.len() {
            let place = free[listed.variable];
            if place < watches.len() {
                watches[place] = listed.watch;
                free[listed.variable] = place.saturating_add(1);
            }
        }
    }
    Ok(watches)
}

/// What the propagator at this place begins to count with.
fn counting_at(countings: &[Option<Counting>], place: usize) -> Option<&Counting> {
    countings.get(place)?.as_ref()
}

/// The propagator at this place watches what it waits for, and counts this.
fn add_watches<P: Propagator>(
    alloc: Global,
    list: &mut Vec<Listed>,
    place: usize,
    propagator: &P,
    counting: Option<&Counting>,
) -> Result<(), Memory>
    requires { (declared : List IntSet) × P.fits propagator.now declared }
{
    let subscriptions = propagator.subscriptions(alloc)?;
    for (i, subscription) in subscriptions.as_slice().iter().enumerate() {
        let watch = Watch {
            propagator: place,
            event: subscription.event,
            weight: counting.map(|counting| counting.weights.get(i).copied().unwrap_or(0)),
            is_pair: counting.is_some_and(|counting| counting.pair.is_some()),
        };
        list.push(Listed {
            variable: subscription.variable.0,
            watch,
        })?;
    }
    Ok(())
}
