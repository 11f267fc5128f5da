// The constraints whose places have different values.
use fzn_domain::Memory;
use fzn_meaning::{Constraint, Model};
use fzn_moves::MOST_VALUES;
use fzn_multipliers::{Bounds, Work};
use fzn_values::Term;
use std::alloc::Global;

/// What is known of the places besides that no two have one value.
#[derive(Clone, Copy, Debug, PartialEq, Eq)]
pub enum Kind {
    /// Nothing.
    AllDifferent,
    /// They are the places of one list, counted from 1, and none is its own.
    Circuit,
    /// They are the places of one list, counted from 1.
    Inverse,
}

/// No two places of a constraint have one value.
#[derive(Clone, Copy, Debug)]
pub struct Apart {
    /// The number of the constraint, counted from 1.
    pub constraint: u64,
    /// What else is known of its places.
    pub kind: Kind,
    /// The first value.
    pub low: i64,
    /// How many values there are from that on.
    pub count: usize,
    /// The place of its first term.
    start: usize,
    /// The place behind its last one.
    end: usize,
}

/// Those of a model.
#[derive(Debug, Drop)]
pub struct Aparts {
    /// In the order of the constraints.
    pub all: Vec<Apart>,
    terms: Vec<Term>,
}

impl Aparts {
    /// Those of which at least two places are variables that are used, as long as there is room for what is listed.
    pub fn of(
        alloc: Global,
        model: &Model,
        bounds: &[Bounds],
        used: &[bool],
        room: &mut Work,
    ) -> Result<Aparts, Memory> {
        let mut aparts = Aparts {
            all: Vec::new(alloc),
            terms: Vec::new(alloc),
        };
        let mut number = 0u64;
        for constraint in model.constraints.as_slice() {
            number = number.saturating_add(1);
            aparts.read(number, constraint, bounds, used, room)?;
        }
        Ok(aparts)
    }

    fn read(
        &mut self,
        number: u64,
        constraint: &Constraint,
        bounds: &[Bounds],
        used: &[bool],
        room: &mut Work,
    ) -> Result<(), Memory> {
        match constraint {
            Constraint::AllDifferent { places } => self.add(
                number,
                Kind::AllDifferent,
                places.as_slice(),
                bounds,
                used,
                room,
            ),
            Constraint::Circuit { successors } => self.add(
                number,
                Kind::Circuit,
                successors.as_slice(),
                bounds,
                used,
                room,
            ),
            Constraint::Inverse { forward, .. } => self.add(
                number,
                Kind::Inverse,
                forward.as_slice(),
                bounds,
                used,
                room,
            ),
            _ => Ok(()),
        }
    }

    fn add(
        &mut self,
        constraint: u64,
        kind: Kind,
        terms: &[Term],
        bounds: &[Bounds],
        used: &[bool],
        room: &mut Work,
    ) -> Result<(), Memory> {
        if !room.take(terms.len()) || !has_two(terms, used) {
            return Ok(());
        }
        let Some((low, count)) = values_of(kind, terms, bounds) else {
            return Ok(());
        };
        let listed = count.saturating_add(widest(terms, bounds));
        if !room.take(listed.saturating_mul(terms.len())) {
            return Ok(());
        }
        let start = self.terms.len();
        for term in terms {
            self.terms.push(*term)?;
        }
        self.all.push(Apart {
            constraint,
            kind,
            low,
            count,
            start,
            end: self.terms.len(),
        })?;
        Ok(())
    }

    /// The places of the constraint.
    pub fn terms_of(&self, apart: Apart) -> &[Term] {
        if apart.start <= apart.end && apart.end <= self.terms.len() {
            &self.terms[apart.start..apart.end]
        } else {
            &[]
        }
    }
}

impl Apart {
    /// Whether there are as many places as values, so that each value stands at a place.
    pub fn is_exact(self) -> bool {
        self.count == self.end.saturating_sub(self.start)
    }

    /// The place of a value among the values.
    pub fn place_of(self, value: i64) -> Option<usize> {
        let place = usize::try_from(value.checked_sub(self.low)?).ok()?;
        if place < self.count {
            Some(place)
        } else {
            None
        }
    }
}

/// Whether at least two of the terms are variables that are used.
fn has_two(terms: &[Term], used: &[bool]) -> bool {
    let mut count = 0usize;
    for term in terms {
        if let Term::Variable(var) = *term
            && used.get(var.0.saturating_sub(1)).copied() == Some(true)
        {
            count = count.saturating_add(1);
            if 1 < count {
                return true;
            }
        }
    }
    false
}

/// The first value and how many there are, where each may be listed.
fn values_of(kind: Kind, terms: &[Term], bounds: &[Bounds]) -> Option<(i64, usize)> {
    if MOST_VALUES < widest(terms, bounds) {
        return None;
    }
    let (low, count) = match kind {
        Kind::AllDifferent => interval_of(terms, bounds)?,
        _ => (1, terms.len()),
    };
    if MOST_VALUES < count {
        return None;
    }
    Some((low, count))
}

/// The bounds of the term.
fn bounds_of(term: Term, bounds: &[Bounds]) -> Option<(i64, i64)> {
    match term {
        Term::Constant(value) => Some((value, value)),
        Term::Variable(var) => {
            let bounds = bounds.get(var.0.saturating_sub(1))?;
            Some((bounds.low, bounds.high))
        }
    }
}

/// The least value of all terms, and how many there are from it to the greatest.
fn interval_of(terms: &[Term], bounds: &[Bounds]) -> Option<(i64, usize)> {
    let mut least = i64::MAX;
    let mut greatest = i64::MIN;
    for term in terms {
        let (low, high) = bounds_of(*term, bounds)?;
        least = least.min(low);
        greatest = greatest.max(high);
    }
    let width = greatest.checked_sub(least)?;
    let count = usize::try_from(width).ok()?.checked_add(1)?;
    Some((least, count))
}

/// The most values that one of the terms has from its least to its greatest.
fn widest(terms: &[Term], bounds: &[Bounds]) -> usize {
    let mut widest = 0;
    for term in terms {
        if let Some((low, high)) = bounds_of(*term, bounds) {
            let width = high.saturating_sub(low).saturating_add(1);
            widest = widest.max(usize::try_from(width).unwrap_or(usize::MAX));
        }
    }
    widest
}
