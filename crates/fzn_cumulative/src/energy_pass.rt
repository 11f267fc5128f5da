// The first conflict of `fzn_cumulative` by the rule `energy`, between times that a sweep picks.
ghost use Rattle.fzn_cumulative.specs.Passes.{AreFoundOfCumulative};

use crate::energy::{Span, explain_energy};
use crate::energy_tree::EnergyTree;
use crate::load::least_use;
use crate::load_pass::is_time;
use crate::pass::Pass;
use fzn_domain::Memory;
use fzn_list::Items;
use fzn_propagator::Findings;
use fzn_rules::Rule;
use fzn_terms::{greatest_of, least_of};
use std::alloc::Global;

/// What a task uses at least between its earliest start and the latest end of its shortest run.
#[derive(Debug, Clone, Copy, PartialEq, Eq, PartialOrd, Ord)]
pub(crate) struct Stay {
    pub(crate) from: i64,
    pub(crate) until: i64,
    pub(crate) energy: i64,
}

/// Finds a conflict between two times that the sweep picks.
pub(crate) fn find_energy(pass: &Pass, found: &mut Findings) -> Result<(), Memory>
    requires { AreFoundOfCumulative pass.now found.old }
    ensures { AreFoundOfCumulative pass.now found.new }
{
    let Some(span) = overloaded(pass)? else {
        return Ok(());
    };
    let mut clause = Items::new(pass.alloc);
    if explain_energy(pass, &span, &mut clause)? {
        let rule = Rule::Energy(span.from, span.until);
        found.hand_over(pass.number, rule, Some(clause))?;
    }
    Ok(())
}

/// Two times between which tasks that stay there use more than there is: about n log n, by P. Vilím, Edge finding filtering algorithm for
/// discrete cumulative resources, 2009. No contract rests on which these are.
fn overloaded(pass: &Pass) -> Result<Option<Span>, Memory> {
    let capacity = greatest_of(pass.trail, pass.capacity);
    let mut stays = stays_of(pass)?;
    if has_room(&stays, capacity) {
        return Ok(None);
    }
    stays.sort_unstable();
    let ends = ends_of(pass.alloc, &stays)?;
    let mut tree = EnergyTree::new(pass.alloc, stays.len())?;
    for end in &ends {
        if end.stay < stays.len() {
            tree.put(end.stay, &stays[end.stay], capacity);
        }
        let until = end.until;
        if capacity.saturating_mul(until) < tree.envelope() {
            return Ok(overloaded_until(&stays, until, capacity));
        }
    }
    Ok(None)
}

/// What each task of some use and duration uses at least while it stays.
fn stays_of(pass: &Pass) -> Result<Vec<Stay>, Memory> {
    let mut stays = Vec::with_capacity(pass.alloc, pass.starts.len())?;
    for k in 0..pass.starts.len() {
        let shortest = least_of(pass.trail, pass.duration(k));
        let amount = least_use(pass, k);
        if 0 < shortest && 0 < amount {
            stays.push(Stay {
                from: least_of(pass.trail, pass.start(k)),
                until: greatest_of(pass.trail, pass.start(k)) + shortest,
                energy: amount.saturating_mul(shortest),
            })?;
        }
    }
    Ok(stays)
}

/// Whether all together use no more than there is in the shortest time of one.
fn has_room(stays: &[Stay], capacity: i64) -> bool {
    let mut energy: i64 = 0;
    let mut narrowest = i64::MAX;
    for stay in stays {
        energy = energy.saturating_add(stay.energy);
        narrowest = narrowest.min(stay.until.saturating_sub(stay.from));
    }
    energy <= capacity.saturating_mul(narrowest)
}

/// Where a stay ends, and its place among the stays.
#[derive(Debug, Clone, Copy, PartialEq, Eq, PartialOrd, Ord)]
struct End {
    until: i64,
    stay: usize,
}

/// The ends of the stays, in order.
fn ends_of(alloc: Global, stays: &[Stay]) -> Result<Vec<End>, Memory> {
    let mut ends = Vec::with_capacity(alloc, stays.len())?;
    for stay in 0..stays.len() {
        ends.push(End {
            until: stays[stay].until,
            stay,
        })?;
    }
    ends.sort_unstable();
    Ok(ends)
}

/// A time from which, until before this one, tasks that stay there use more than there is.
fn overloaded_until(stays: &[Stay], until: i64, capacity: i64) -> Option<Span> {
    let mut energy: i64 = 0;
    for back in 0..stays.len() {
        let stay = stays[stays.len() - 1 - back];
        if stay.until <= until {
            energy = energy.saturating_add(stay.energy);
            if capacity.saturating_mul(until.saturating_sub(stay.from)) < energy {
                return span_of(stay.from, until);
            }
        }
    }
    None
}

/// Between the two times, where some task may run at both.
fn span_of(from: i64, until: i64) -> Option<Span> {
    if is_time(&from) && is_time(&until) {
        return Some(Span { from, until });
    }
    None
}
