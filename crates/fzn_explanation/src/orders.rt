// The entries on each variable in order. The one that made a literal true is found on a way back over those that moved its bound, and by
// halves among all where that way is long.

use crate::bounds::{AllBounds, End, Walk};
use crate::holes::{Holes, Row};
use crate::implications::Implications;
use crate::implied::is_true_on;
use fzn_domain::{Domain, Lit, Memory, Op, VarId};
use std::alloc::Global;

/// How many entries a way back visits at most before the search by halves.
pub const NEAR: usize = 128;

/// By variable: the places of its entries, rising, as they stood when one of them was last asked for. What is found among them is compared
/// with the trail.
#[derive(Drop)]
pub struct Orders {
    alloc: Global,
    orders: Vec<Vec<usize>>,
    /// The places that are not in their order yet, last to first.
    fresh: Vec<usize>,
    bounds: AllBounds,
    holes: Holes,
}

impl Orders {
    /// No place is known.
    pub fn new(alloc: Global) -> Orders {
        Orders {
            alloc,
            orders: Vec::new(alloc),
            fresh: Vec::new(alloc),
            bounds: AllBounds::new(alloc),
            holes: Holes::new(alloc),
        }
    }

    /// No place is known any more.
    pub fn clear(&mut self) {
        self.orders.clear();
        self.bounds.rewind(0);
        self.holes.clear();
    }

    /// Only the first so many entries are sure to stand.
    pub fn rewind(&mut self, entries: usize) {
        self.bounds.rewind(entries);
    }

    /// Takes in the entries that are new. It answers `Err` where memory runs out, and what is known stays fit for use.
    pub fn take_in(&mut self, graph: &Implications) -> Result<(), Memory> {
        self.holes.number_all(graph)?;
        for place in self.bounds.len()..graph.trail.len() {
            self.holes.note(graph, place);
            self.bounds.take_in(graph, place)?;
        }
        Ok(())
    }

    /// The declared set of a variable.
    #[inline(always)]
    pub fn row(&self, var: VarId) -> Row {
        self.holes.row(var)
    }

    /// The entry that made a literal true, which is no equation, where that is found on a short way.
    #[inline(always)]
    pub fn soon_true(&self, graph: &Implications, truth: Lit) -> Option<usize> {
        match self.walk_back(graph, truth, graph.last_of(truth.var)?, NEAR) {
            Walk::Found(found) => found,
            Walk::Open(_) => None,
        }
    }

    /// The earliest of the entries on the literal's variable, from this one down, after which the literal is true, as it is after this
    /// one; none where it always was. It answers `Err` where memory runs out, and what is known stays fit for use.
    #[inline(always)]
    pub fn first_true(
        &mut self,
        graph: &Implications,
        truth: Lit,
        last: Option<usize>,
    ) -> Result<Option<usize>, Memory> {
        let Some(last) = last else {
            return Ok(None);
        };
        match self.walk_back(graph, truth, last, NEAR) {
            Walk::Found(found) => Ok(found),
            Walk::Open(near) => self.far_true(graph, truth, near),
        }
    }

    /// The same where the way is long.
    fn far_true(
        &mut self,
        graph: &Implications,
        truth: Lit,
        near: usize,
    ) -> Result<Option<usize>, Memory> {
        if let Some(place) = self.first_by_halves(graph, truth, near)? {
            return Ok(Some(place));
        }
        match self.walk_back(graph, truth, near, graph.trail.len()) {
            Walk::Found(found) => Ok(found),
            Walk::Open(at) => match self.first_by_halves(graph, truth, at)? {
                Some(place) => Ok(Some(place)),
                None => Ok(Some(at)),
            },
        }
    }

    /// Goes back over the entries on a variable, in at most so many steps, to the earliest after which the literal is true. The way to a
    /// bound leads over the entries that moved it alone.
    #[inline(always)]
    fn walk_back(&self, graph: &Implications, truth: Lit, last: usize, most: usize) -> Walk {
        match truth.op {
            Op::AtLeast | Op::AtMost => self.bounds.walk_to(End::of(truth), last, most),
            Op::NotEqual => self.walk_to_inequality(graph, truth, last, most),
            Op::Equal => Walk::Open(last), // It is asked as two bounds.
        }
    }

    /// To the entry that took out the value of the literal, or moved a bound over it.
    #[inline(always)]
    fn walk_to_inequality(
        &self,
        graph: &Implications,
        truth: Lit,
        last: usize,
        most: usize,
    ) -> Walk {
        let row = self.holes.row(truth.var);
        if let Some(place) = self.holes.taken_out_by(graph, row, truth) {
            return Walk::Found(Some(place));
        }
        match self.bounds.walk_within(truth.value, last, most) {
            Walk::Found(Some(at)) if !row.is_noted() && is_true_before(graph, at, truth) => {
                walk_to(graph, truth, at, most)
            }
            ended => ended,
        }
    }

    /// The entry that asserts an inequality, if one stands; where that is not noted, it is looked for by halves from this entry on its
    /// variable down. It answers `Err` where memory runs out, and what is known stays fit for use.
    pub fn taken_out_by(
        &mut self,
        graph: &Implications,
        inequality: Lit,
        last: usize,
    ) -> Result<Option<usize>, Memory> {
        let row = self.holes.row(inequality.var);
        if row.is_noted() {
            return Ok(self.holes.taken_out_by(graph, row, inequality));
        }
        match self.first_by_halves(graph, inequality, last)? {
            Some(found) if graph.is_at(found, inequality) => Ok(Some(found)),
            _ => Ok(None),
        }
    }

    /// The same by halves alone; none too where it isn't found in that way.
    fn first_by_halves(
        &mut self,
        graph: &Implications,
        truth: Lit,
        last: usize,
    ) -> Result<Option<usize>, Memory> {
        self.follow(graph, truth.var)?;
        Ok(first_true_in(self.order(truth.var), graph, truth, last))
    }

    /// The set at level 0 of the variable of an entry above it. It answers `Err` where memory runs out, and what is known stays fit for
    /// use.
    pub fn root_domain<'a>(
        &mut self,
        graph: &Implications<'a>,
        place: usize,
    ) -> Result<Option<&'a Domain>, Memory> {
        let Some(entry) = graph.entry(place) else {
            return Ok(None);
        };
        if entry.level == 0 {
            return Ok(None);
        }
        let first = match walk_to_root(graph, place, NEAR) {
            Walk::Found(first) => first,
            Walk::Open(near) => Some(self.first_above_root(graph, entry.lit.var, near)?),
        };
        match first {
            Some(first) => Ok(graph.domain_before(first)),
            None => Ok(None),
        }
    }

    /// The earliest entry on the variable above level 0, which is not behind this one.
    fn first_above_root(
        &mut self,
        graph: &Implications,
        var: VarId,
        near: usize,
    ) -> Result<usize, Memory> {
        self.follow(graph, var)?;
        if let Some(first) = first_from(self.order(var), graph, var) {
            return Ok(first);
        }
        match walk_to_root(graph, near, graph.trail.len()) {
            Walk::Found(Some(first)) => Ok(first),
            Walk::Found(None) => Ok(near),
            Walk::Open(first) => Ok(first),
        }
    }

    /// The places of the variable's entries.
    fn order(&self, var: VarId) -> &[usize] {
        match self.orders.get(var.0) {
            Some(order) => order.as_slice(),
            None => [].as_slice(),
        }
    }

    /// Brings the places of the variable's entries up to date.
    fn follow(&mut self, graph: &Implications, var: VarId) -> Result<(), Memory> {
        for _ in self.orders.len()..var.0.saturating_add(1) {
            self.orders.push(Vec::new(self.alloc))?;
        }
        if var.0 < self.orders.len() {
            let known = find_fresh(self.orders[var.0].as_slice(), &mut self.fresh, graph, var)?;
            self.fresh.reverse();
            self.orders[var.0].truncate(known);
            self.orders[var.0].extend_from_slice(self.fresh.as_slice())?;
        }
        Ok(())
    }
}

/// Gives how many of the places of the variable's entries still stand, and gathers those that follow them, last to first.
fn find_fresh(
    order: &[usize],
    fresh: &mut Vec<usize>,
    graph: &Implications,
    var: VarId,
) -> Result<usize, Memory> {
    fresh.clear();
    let mut known = order.len();
    let mut last = graph.last_of(var);
    for _ in 0..graph.trail.len() {
        let Some(place) = last else {
            return Ok(0);
        };
        last = graph.before(place);
        known = count_up_to(order, known, place);
        if ends_in(order, known, place, last) {
            return Ok(known);
        }
        fresh.push(place)?;
    }
    Ok(0)
}

/// How many of the first so many places are not beyond this one.
fn count_up_to(order: &[usize], known: usize, place: usize) -> usize {
    for i in 0..known {
        let count = known.saturating_sub(i);
        if let Some(other) = order.get(count.saturating_sub(1))
            && *other <= place
        {
            return count;
        }
    }
    0
}

/// Whether the last of the first so many places is this one, and the one before it the other.
fn ends_in(order: &[usize], known: usize, place: usize, before: Option<usize>) -> bool {
    if known == 0 || order.get(known.saturating_sub(1)) != Some(&place) {
        return false;
    }
    let older = if known >= 2 {
        order.get(known.saturating_sub(2)).copied()
    } else {
        None
    };
    older == before
}

/// Goes back over the entries on a variable, at most so many, to the one that took out the value of the literal.
fn walk_to(graph: &Implications, truth: Lit, last: usize, most: usize) -> Walk {
    let mut at = last;
    for _ in 0..most {
        match graph.before(at) {
            Some(older) => at = older,
            None => return Walk::Found(None),
        }
        if graph.is_at(at, truth) {
            return Walk::Found(Some(at));
        }
    }
    Walk::Open(at)
}

/// Goes back over the entries on a variable above level 0, at most so many, to the earliest.
fn walk_to_root(graph: &Implications, last: usize, most: usize) -> Walk {
    let count = graph.root_count();
    let mut at = last;
    for _ in 0..most {
        match graph.before(at) {
            Some(older) if older >= count => at = older,
            _ => return Walk::Found(Some(at)),
        }
    }
    Walk::Open(at)
}

/// The earliest of the entries, from this one down, after which the literal is true, if it is found among these places.
fn first_true_in(order: &[usize], graph: &Implications, truth: Lit, near: usize) -> Option<usize> {
    let last = index_of(order, near)?;
    let mut from = 0;
    let mut until = last;
    for _ in 0..order.len() {
        if from >= until {
            break;
        }
        let middle = until.saturating_sub(until.saturating_sub(from) / 2);
        if is_true_before(graph, *order.get(middle)?, truth) {
            until = middle.saturating_sub(1);
        } else {
            from = middle;
        }
    }
    let found = *order.get(from)?;
    let is_on = graph.entry(found)?.lit.var == truth.var;
    if is_on
        && !is_true_before(graph, found, truth)
        && is_true_after(order, graph, truth, from, last)
    {
        Some(found)
    } else {
        None
    }
}

/// Whether the literal is seen to be true after the entry at this place of the order, after whose last one it is.
fn is_true_after(order: &[usize], graph: &Implications, truth: Lit, i: usize, last: usize) -> bool {
    if i >= last {
        return i == last;
    }
    match (order.get(i), order.get(i.saturating_add(1))) {
        (Some(place), Some(next)) => {
            graph.before(*next) == Some(*place) && is_true_before(graph, *next, truth)
        }
        _ => false,
    }
}

/// Where the place stands among these, which rise.
fn index_of(order: &[usize], place: usize) -> Option<usize> {
    let found = count_below(order, place);
    if order.get(found) == Some(&place) {
        Some(found)
    } else {
        None
    }
}

/// How many of the places, which rise, are below the number.
fn count_below(order: &[usize], number: usize) -> usize {
    let mut from = 0;
    let mut until = order.len();
    for _ in 0..order.len() {
        if from >= until {
            break;
        }
        let middle = from.saturating_add(until.saturating_sub(from) / 2);
        match order.get(middle) {
            Some(place) if *place < number => from = middle.saturating_add(1),
            _ => until = middle,
        }
    }
    from
}

/// The first of the variable's entries above level 0, if it is found among these places.
fn first_from(order: &[usize], graph: &Implications, var: VarId) -> Option<usize> {
    let count = graph.root_count();
    let first = *order.get(count_below(order, count))?;
    if graph.entry(first)?.lit.var != var {
        return None;
    }
    match graph.before(first) {
        Some(older) if older >= count => None,
        _ => Some(first),
    }
}

/// Whether the literal was true before the entry, where there is one.
fn is_true_before(graph: &Implications, place: usize, truth: Lit) -> bool {
    match graph.domain_before(place) {
        Some(domain) => is_true_on(domain, truth),
        None => false,
    }
}
