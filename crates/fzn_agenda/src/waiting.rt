// Who waits for a variable, packed, as it is looked at where the variable changes.
use crate::changes::Changes;
use crate::equals::{KnownEquality, SeenEquality};
use crate::known::Known;
use crate::pairs::{KnownPair, PairEnd};
use crate::watchers::{Watch, Watchers};
use fzn_domain::Memory;
use fzn_meaning::Model;
use fzn_propagator::{Counting, Event};
use fzn_queue::{Queue, Slot};
use std::alloc::Global;

/// That a propagator waits for a variable, and is asked after each change that it waits for.
#[derive(Clone, Copy, Debug)]
pub struct Asked {
    /// Where it is queued.
    pub slot: Slot,
    /// Those that it waits for.
    pub changes: Changes,
}

/// The same of one that counts the variable, and is not asked where it is idle by that.
#[derive(Clone, Copy, Debug)]
pub struct Counted {
    /// Where it is queued.
    pub slot: Slot,
    /// Those that it waits for.
    pub changes: Changes,
    /// Its place among the propagators, from 0 up.
    pub propagator: u32,
    /// By what the variable counts: any number.
    pub weight: i64,
}

/// That a pair waits until a bound of a variable moves, and is asked where that leaves something to find.
#[derive(Clone, Copy, Debug)]
pub struct AskedEnd {
    /// Where it is queued.
    pub slot: Slot,
    /// The end of its sum that the bound moves.
    pub end: PairEnd,
}

/// That a pair waits for changes of a variable, and is asked where anything follows from it then.
#[derive(Clone, Copy, Debug)]
pub struct AskedPair {
    /// Where it is queued.
    pub slot: Slot,
    /// Those that it waits for.
    pub changes: Changes,
    /// What is looked at.
    pub pair: KnownPair,
}

/// That an equality waits for changes of one of its terms, and is asked where one can say anything new.
#[derive(Clone, Copy, Debug)]
pub struct AskedEquality {
    /// Where it is queued.
    pub slot: Slot,
    /// What is looked at.
    pub equality: SeenEquality,
}

/// A part of a list.
#[derive(Clone, Copy, Debug)]
struct Part {
    from: u32,
    upto: u32,
}

impl Part {
    /// That from here to the end of the list.
    fn behind<T>(from: usize, list: &Vec<T>) -> Part {
        Part {
            from: small(from),
            upto: small(list.len()),
        }
    }

    #[inline(always)]
    fn is_empty(self) -> bool {
        self.upto <= self.from
    }

    /// That part of the list. `None` where it is empty.
    #[inline(always)]
    fn of<T>(self, list: &Vec<T>) -> Option<&[T]> {
        if self.is_empty() {
            return None;
        }
        list.get(self.from as usize..self.upto as usize)
    }
}

/// Where those stand that wait for a variable.
#[derive(Clone, Copy, Debug)]
pub struct Span {
    asked: Part,
    counted: Part,
    low_ends: Part,
    high_ends: Part,
    pairs: Part,
    equalities: Part,
}

impl Span {
    /// Whether any wants to know the bounds of the variable.
    #[inline(always)]
    pub fn wants_bounds(&self) -> bool {
        !self.counted.is_empty()
            || !self.low_ends.is_empty()
            || !self.high_ends.is_empty()
            || !self.pairs.is_empty()
            || !self.equalities.is_empty()
    }
}

/// Those that wait for a variable, one variable after the other.
#[derive(Debug, Drop)]
pub struct Waiting {
    asked: Vec<Asked>,
    counted: Vec<Counted>,
    /// Ends of pairs that least values move.
    low_ends: Vec<AskedEnd>,
    /// Ends of pairs that greatest values move.
    high_ends: Vec<AskedEnd>,
    /// Pairs of which the variable is the switch, or stands in several places.
    pairs: Vec<AskedPair>,
    /// Equalities of which the variable is a term.
    equalities: Vec<AskedEquality>,
    /// By the numbers of the variables, less one.
    spans: Vec<Span>,
}

impl Waiting {
    /// What the watches of the model's variables come to, where the propagators of its constraints count this and are queued so. The bounds of
    /// the constants of pairs and equalities come to those that are known.
    pub fn new(
        alloc: Global,
        model: &Model,
        watchers: &Watchers,
        countings: &[Option<Counting>],
        queue: &Queue,
        known: &mut Known,
    ) -> Result<Waiting, Memory> {
        let filters = filters_of(alloc, model, countings, known)?;
        let mut waiting = Waiting {
            asked: Vec::new(alloc),
            counted: Vec::new(alloc),
            low_ends: Vec::new(alloc),
            high_ends: Vec::new(alloc),
            pairs: Vec::new(alloc),
            equalities: Vec::new(alloc),
            spans: Vec::new(alloc),
        };
        for index in 0..model.vars.len() {
            let variable = index.wrapping_add(1);
            waiting.add_variable(variable, watchers, filters.as_slice(), queue)?;
        }
        Ok(waiting)
    }

    /// Those that wait for the variable of this number, which is the next one.
    fn add_variable(
        &mut self,
        variable: usize,
        watchers: &Watchers,
        filters: &[Filter],
        queue: &Queue,
    ) -> Result<(), Memory> {
        let (asked, counted) = (self.asked.len(), self.counted.len());
        let (low_ends, high_ends) = (self.low_ends.len(), self.high_ends.len());
        let (pairs, equalities) = (self.pairs.len(), self.equalities.len());
        let (start, end) = watchers.span(variable);
        for i in start..end {
            if let Some(watch) = watchers.get(i)
                && let Some(slot) = queue.slot(watch.propagator)
            {
                match filters.get(watch.propagator).copied() {
                    Some(Filter::Pair(pair)) => self.add_pair(variable, watch.event, pair, slot)?,
                    Some(Filter::Equality(equality)) => {
                        self.add_equality(variable, watch, equality, slot)?;
                    }
                    _ => self.add(watch, slot)?,
                }
            }
        }
        self.spans.push(Span {
            asked: Part::behind(asked, &self.asked),
            counted: Part::behind(counted, &self.counted),
            low_ends: Part::behind(low_ends, &self.low_ends),
            high_ends: Part::behind(high_ends, &self.high_ends),
            pairs: Part::behind(pairs, &self.pairs),
            equalities: Part::behind(equalities, &self.equalities),
        })?;
        Ok(())
    }

    /// The watch of a propagator that is no pair.
    fn add(&mut self, watch: Watch, slot: Slot) -> Result<(), Memory> {
        let changes = Changes::of_event(watch.event);
        match watch.weight {
            Some(weight) if !watch.is_pair => self.counted.push(Counted {
                slot,
                changes,
                propagator: small(watch.propagator),
                weight,
            })?,
            _ => self.asked.push(Asked { slot, changes })?,
        }
        Ok(())
    }

    fn add_equality(
        &mut self,
        variable: usize,
        watch: Watch,
        equality: KnownEquality,
        slot: Slot,
    ) -> Result<(), Memory> {
        match equality.seen_from(variable) {
            Some(equality) => {
                self.equalities.push(AskedEquality { slot, equality })?;
                Ok(())
            }
            None => self.add(watch, slot),
        }
    }

    fn add_pair(
        &mut self,
        variable: usize,
        event: Event,
        pair: KnownPair,
        slot: Slot,
    ) -> Result<(), Memory> {
        let changes = Changes::of_event(event);
        let is_by_bounds = matches!(event, Event::Low | Event::High | Event::Bound);
        let Some(seen) = pair.seen_from(variable).filter(|_| is_by_bounds) else {
            self.pairs.push(AskedPair {
                slot,
                changes,
                pair,
            })?;
            return Ok(());
        };
        if changes.has_low() {
            let end = seen.low;
            self.low_ends.push(AskedEnd { slot, end })?;
        }
        if changes.has_high() {
            let end = seen.high;
            self.high_ends.push(AskedEnd { slot, end })?;
        }
        Ok(())
    }

    /// Where those stand that wait for the variable of this number.
    #[inline(always)]
    pub fn span(&self, variable: usize) -> Option<&Span> {
        self.spans.get(variable.wrapping_sub(1))
    }

    /// Those of a span that are asked after each change that they wait for. `None` where there is none, here and below.
    #[inline(always)]
    pub fn asked(&self, span: &Span) -> Option<&[Asked]> {
        span.asked.of(&self.asked)
    }

    /// Those that count.
    #[inline(always)]
    pub fn counted(&self, span: &Span) -> Option<&[Counted]> {
        span.counted.of(&self.counted)
    }

    /// Ends of pairs that the least value moves.
    #[inline(always)]
    pub fn low_ends(&self, span: &Span) -> Option<&[AskedEnd]> {
        span.low_ends.of(&self.low_ends)
    }

    /// Ends of pairs that the greatest value moves.
    #[inline(always)]
    pub fn high_ends(&self, span: &Span) -> Option<&[AskedEnd]> {
        span.high_ends.of(&self.high_ends)
    }

    /// The other pairs.
    #[inline(always)]
    pub fn pairs(&self, span: &Span) -> Option<&[AskedPair]> {
        span.pairs.of(&self.pairs)
    }

    /// Equalities.
    #[inline(always)]
    pub fn equalities(&self, span: &Span) -> Option<&[AskedEquality]> {
        span.equalities.of(&self.equalities)
    }
}

/// What tells whether a propagator need not be asked, where anything but what it counts does.
#[derive(Clone, Copy, Debug)]
enum Filter {
    None,
    Pair(KnownPair),
    Equality(KnownEquality),
}

/// What tells so of the propagator of each constraint, in order.
fn filters_of(
    alloc: Global,
    model: &Model,
    countings: &[Option<Counting>],
    known: &mut Known,
) -> Result<Vec<Filter>, Memory> {
    let mut filters = Vec::new(alloc);
    for (place, counting) in countings.iter().enumerate() {
        let pair = counting.as_ref().and_then(|counting| counting.pair);
        if let Some(pair) = pair {
            filters.push(match KnownPair::of(&pair, known)? {
                Some(pair) => Filter::Pair(pair),
                None => Filter::None,
            })?;
        } else {
            filters.push(equality_of(model, place, known)?)?;
        }
    }
    Ok(filters)
}

/// The same of the constraint at a place, where it is an equality.
fn equality_of(model: &Model, place: usize, known: &mut Known) -> Result<Filter, Memory> {
    let equality = match model.constraints.as_slice().get(place) {
        Some(constraint) => KnownEquality::of(constraint, known)?,
        None => None,
    };
    Ok(match equality {
        Some(equality) => Filter::Equality(equality),
        None => Filter::None,
    })
}

/// The number in 32 bits, and the greatest of them for one that has no room there: what stands that far down a list is not woken, and is
/// asked once all variables are fixed.
fn small(number: usize) -> u32 {
    u32::try_from(number).unwrap_or(u32::MAX)
}
