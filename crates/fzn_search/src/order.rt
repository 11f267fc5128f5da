// The order of the annotations, and that by weights.
ghost use Rattle.std.specs.Prelude.{◌≡◌, length};

use crate::group::{Group, Ranking};
use crate::ranks::Ranks;
use crate::seating::{Seat, Seating};
use fzn_activity::{Pool, Ties, open_domain};
use fzn_domain::{Lit, Memory, VarId};
use fzn_meaning::Model;
use fzn_strategy::{Annotation, ValueChoice};
use fzn_trail::Trail;
use std::alloc::Global;

/// All variables, those of the groups first and the others in the order of their numbers.
#[derive(Drop)]
pub struct Order {
    /// Those that may have more than one value.
    open: Ranks,
    groups: Vec<Group>,
    /// By variable.
    seats: Vec<Option<Seat>>,
    /// How many entries of the trail were noted in `changed`.
    noted: usize,
    /// The variables whose values may have changed since their groups last looked at them.
    changed: Pool,
}

impl Order {
    /// The order of the annotations, of which this variable is left out, if there is one.
    pub fn new(
        alloc: Global,
        vars: usize,
        annotations: &[Annotation],
        left_out: Option<VarId>,
        ties: &mut Ties,
    ) -> Result<Order, Memory> {
        let mut seating = Seating::new(alloc, vars, left_out)?;
        let mut groups = Vec::new(alloc);
        for annotation in annotations {
            let mut group = Group::new(alloc, Ranking::Chosen(annotation.var_choice));
            seating.add_annotated(&mut group, groups.len(), annotation, ties)?;
            groups.push(group)?;
        }
        Order::of(alloc, seating, groups)
    }

    /// The variables of the annotations by their weights, or where there is none those of the output, whose least values are tried first;
    /// this one is left out, if there is one.
    pub fn by_weight(
        alloc: Global,
        model: &Model,
        annotations: &[Annotation],
        left_out: Option<VarId>,
        ties: &mut Ties,
    ) -> Result<Order, Memory> {
        let mut seating = Seating::new(alloc, model.vars.len(), left_out)?;
        let mut group = Group::new(alloc, Ranking::Weighted);
        for annotation in annotations {
            seating.add_annotated(&mut group, 0, annotation, ties)?;
        }
        if group.is_empty() {
            let outputs = model.outputs.as_slice();
            seating.add_all(&mut group, 0, outputs, ValueChoice::Min, ties)?;
        }
        let mut groups = Vec::new(alloc);
        groups.push(group)?;
        Order::of(alloc, seating, groups)
    }

    fn of(alloc: Global, seating: Seating, groups: Vec<Group>) -> Result<Order, Memory> {
        Ok(Order {
            open: ranked(alloc, &seating.ranks, seating.count)?,
            groups,
            changed: all_in(alloc, seating.seats.len())?,
            seats: seating.seats,
            noted: 0,
        })
    }

    /// Whether some variable stands in a group.
    pub fn has_seats(&self) -> bool {
        for group in self.groups.as_slice() {
            if !group.is_empty() {
                return true;
            }
        }
        false
    }

    /// The first variable with more than one value, counted from 0.
    pub fn first_open(&mut self, trail: &Trail, vars: usize) -> Option<usize>
        requires { vars ≡ length trail.now.declared }
    {
        for _ in 0..self.open.len() {
            let number = self.open.first()?;
            if open_domain(trail, vars, number).is_some() {
                return Some(number);
            }
            self.open.remove(number);
        }
        None
    }

    /// What the first group with a variable to decide wants, if one has such a variable.
    pub fn next(&mut self, trail: &Trail, vars: usize) -> Option<Lit>
        requires { vars ≡ length trail.now.declared }
    {
        let first = self.first_open(trail, vars)?;
        let seat = self.seats.get(first).copied().flatten()?;
        self.look(trail, vars);
        self.groups
            .get_mut(seat.group)?
            .next(trail, vars, seat.place)
    }

    /// Whether the variable of this number, counted from 0, stands in a group.
    pub fn is_seated(&self, number: usize) -> bool {
        self.seats.get(number).copied().flatten().is_some()
    }

    /// Each group looks at its variables whose values may have changed.
    fn look(&mut self, trail: &Trail, vars: usize)
        requires { vars ≡ length trail.now.declared }
    {
        for place in self.noted..trail.len() {
            let number = trail.entry(place).lit.var.0.saturating_sub(1);
            let _ = self.changed.put(number);
        }
        self.noted = trail.len();
        for _ in 0..self.changed.len() {
            if let Some(ranked) = self.changed.at(0) {
                self.changed.take(0);
                self.look_at(trail, vars, ranked.number);
            }
        }
    }

    fn look_at(&mut self, trail: &Trail, vars: usize, number: usize)
        requires { vars ≡ length trail.now.declared }
    {
        if let Some(seat) = self.seats.get(number).copied().flatten() {
            if let Some(group) = self.groups.get_mut(seat.group) {
                group.look(trail, vars, seat.place);
            }
        }
    }

    /// The present conflict rests on the variable of this number, counted from 0.
    pub fn bump(&mut self, number: usize) {
        if let Some(seat) = self.seats.get(number).copied().flatten() {
            if let Some(group) = self.groups.get_mut(seat.group) {
                group.bump(seat.place);
                let _ = self.changed.put(number);
            }
        }
    }

    /// How early the variable of this number, counted from 0, comes.
    pub fn rank(&self, number: usize) -> u64 {
        self.open.rank(number) as u64
    }

    /// The variable of this number, counted from 0, may have more than one value again.
    pub fn set_free(&mut self, number: usize) {
        self.open.insert(number);
        let _ = self.changed.put(number);
    }

    /// The entries from this place on will be dropped, and their variables are set free one by one.
    pub fn undo(&mut self, from: usize) {
        self.noted = self.noted.min(from);
    }
}

/// The numbers from 0 up to this count, all of them in.
fn all_in(alloc: Global, count: usize) -> Result<Pool, Memory> {
    let mut pool = Pool::new(alloc);
    for _ in 0..count {
        let number = pool.grow(0)?;
        let _ = pool.put(number);
    }
    Ok(pool)
}

/// The variables by their ranks, and those without one after this many, by their numbers.
fn ranked(alloc: Global, given: &[Option<usize>], count: usize) -> Result<Ranks, Memory> {
    let mut ranks = Vec::new(alloc);
    for number in 0..given.len() {
        let rank = match given[number] {
            Some(rank) => rank,
            None => count.saturating_add(number),
        };
        ranks.push(rank)?;
    }
    Ranks::new(alloc, ranks, count.saturating_add(given.len()))
}
