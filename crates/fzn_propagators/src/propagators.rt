// All propagators of a model.
ghost use Rattle.std.specs.Prelude.{◌≡◌, ◌-◌, ◌<◌, ◌≤◌, [], length, slice_index_or, IfOk, IfSome, IfNone};
ghost use Rattle.std.specs.List.{All, HoldsAt};
ghost use Rattle.fzn_meaning.specs.declared.constraint.Constraint.{Constraint};
ghost use Rattle.fzn_meaning.specs.Solutions.{declared_sets};
ghost use Rattle.fzn_meaning.specs.WellFormed.{IsWellFormed};
ghost use Rattle.fzn_trail.specs.Levels.{NoneEmpty};
ghost use Rattle.fzn_propagator.specs.Inference.{AreExhausted};
ghost use Rattle.fzn_propagator.specs.Constraints.{IsInference, IsInferenceJustified, IsQuiet};
ghost use Rattle.fzn_propagators.specs.Propagators.{AreFor, StandFor};

use crate::forcing::take_forcing;
use crate::kinds::AnyPropagator;
use fzn_agenda::Agenda;
use fzn_cert::Inference;
use fzn_domain::Memory;
use fzn_list::Items;
use fzn_meaning::Model;
use fzn_propagator::{Constraints, Findings, Propagator};
use fzn_trail::Trail;
use std::alloc::Global;

/// Propagators of a type of which each constraint has one.
pub trait Complete: Propagator {
    /// The propagator of the constraint of this number, counted from 1. `Err` where memory runs out.
    fn propagator_of(alloc: Global, model: &Model, c: usize) -> Result<Self, Memory>
        requires model { IsWellFormed model.now }
        requires number { (1 ≤ c) × (c ≤ length model.now.constraints) }
        ensures number { IfOk result (λ propagator. Self.number propagator ≡ c) }
        ensures is_for { IfOk result (λ propagator. (default : Constraint) → Self.is_for propagator (slice_index_or model.now.constraints (c - 1) default)) }
        ensures fits { IfOk result (λ propagator. Self.fits propagator (declared_sets model.now.vars)) };
}

/// A propagator for each constraint of a model, in order, and which are to be asked.
#[derive(Drop)]
pub struct Propagators<P = AnyPropagator> {
    items: Items<P>,
    /// What the last pass found, and is not handed over yet.
    found: Findings,
    agenda: Agenda,
}

impl<P: Complete + Drop> Propagators<P> {
    /// Made once, before the search. It answers `Err` where memory runs out.
    pub fn new(alloc: Global, model: &Model) -> Result<Propagators<P>, Memory>
        requires model { IsWellFormed model.now }
        ensures { IfOk result (λ propagators. StandFor P.number P.is_for P.fits propagators model.now) }
    {
        let mut items = Items::new(alloc);
        for i in 0..model.constraints.len() {
            let propagator = P::propagator_of(alloc, model, i + 1)?;
            items.push(propagator)?;
        }
        let found = Findings::new(alloc);
        let agenda = Agenda::new(alloc, model, items.as_slice())?;
        Ok(Propagators {
            items,
            found,
            agenda,
        })
    }
}

impl<P: Propagator> Propagators<P> {
    /// What the first propagator finds that is to be asked and finds anything. It is asked again, in the next sweep if it costs little, so
    /// that one which finds a little at a time holds up no other.
    fn ask_queued(
        &mut self,
        alloc: Global,
        model: &Model,
        trail: &Trail,
    ) -> Result<Option<Inference>, Memory>
        requires is_for { StandFor P.number P.is_for P.fits self.old model.now }
        requires declared { trail.now.declared ≡ declared_sets model.now.vars }
        requires not_empty { NoneEmpty trail.now.sets }
        ensures found { IfOk result (λ found. IfSome found (IsInference model.now trail.now)) }
        ensures same { StandFor P.number P.is_for P.fits self.new model.now }
    {
        self.found.clear();
        for _ in 0..self.agenda.len() {
            let Some(place) = self.agenda.first() else {
                return Ok(None);
            };
            if place < self.items.len()
                && let Some(first) = ask(
                    alloc,
                    model,
                    trail,
                    &self.items,
                    place,
                    &mut self.found,
                )?
            {
                self.agenda.put_off();
                return Ok(Some(first));
            }
            self.agenda.leave();
        }
        Ok(None)
    }
}

impl<P: Propagator> Constraints for Propagators<P> {
    ghost is_for = { StandFor P.number P.is_for P.fits };

    fn infer(
        &mut self,
        alloc: Global,
        model: &Model,
        trail: &Trail,
    ) -> Result<Option<Inference>, Memory> {
        if let Some(next) = take_forcing(model, trail, &mut self.found) {
            return Ok(Some(next));
        }
        let variables = model.vars.len();
        self.agenda.look(self.items.as_slice(), trail, variables)?;
        if let Some(found) = self.ask_queued(alloc, model, trail)? {
            return Ok(Some(found));
        }
        if self.agenda.is_all_fixed(trail, variables)? {
            let found = ask_all(alloc, model, trail, &self.items, &mut self.found)?;
            return Ok(found);
        }
        Ok(None)
    }

    fn renew(&mut self, _model: &Model) {
        self.agenda.renew();
    }

    fn rewind(&mut self, _model: &Model, entries: usize) {
        if self.agenda.rewind(self.items.as_slice(), entries) {
            self.found.clear();
        }
    }
}

/// What the propagator at this place finds first. The rest of it stands in `found`, alone.
fn ask<P: Propagator>(
    alloc: Global,
    model: &Model,
    trail: &Trail,
    items: &Items<P>,
    place: usize,
    found: &mut Findings,
) -> Result<Option<Inference>, Memory>
    requires is_for { AreFor P.number P.is_for P.fits items.now model.now }
    requires declared { trail.now.declared ≡ declared_sets model.now.vars }
    requires not_empty { NoneEmpty trail.now.sets }
    requires place { place < length items.now }
    requires empty { found.old ≡ [] }
    ensures first { IfOk result (λ first. IfSome first (IsInference model.now trail.now)) }
    ensures none { IfOk result (λ first. IfNone first (HoldsAt (λ p. AreExhausted (P.is_for p) trail.now) items.now place)) }
    ensures rest { All (IsInferenceJustified model.now) found.new }
    ensures left { IfOk result (λ first. IfNone first (found.new ≡ [])) }
{
    let propagator = &items.as_slice()[place];
    propagator.propagate(alloc, trail, found)?;
    Ok(found.take_first())
}

/// What the first propagator finds that finds anything.
fn ask_all<P: Propagator>(
    alloc: Global,
    model: &Model,
    trail: &Trail,
    items: &Items<P>,
    found: &mut Findings,
) -> Result<Option<Inference>, Memory>
    requires is_for { AreFor P.number P.is_for P.fits items.now model.now }
    requires declared { trail.now.declared ≡ declared_sets model.now.vars }
    requires not_empty { NoneEmpty trail.now.sets }
    requires before { All (IsInferenceJustified model.now) found.old }
    ensures first { IfOk result (λ first. IfSome first (IsInference model.now trail.now)) }
    ensures none { IfOk result (λ first. IfNone first (IsQuiet model.now trail.now)) }
    ensures rest { All (IsInferenceJustified model.now) found.new }
{
    found.clear();
    let _entries = trail.len(); // Each present set lies within its declared one.
    for place in 0..items.len() {
        if let Some(first) = ask(alloc, model, trail, items, place, found)? {
            return Ok(Some(first));
        }
    }
    Ok(None)
}
