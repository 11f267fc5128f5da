// Which steps of a certificate its answer rests on. Nothing is promised of what is found here: whoever takes it tests the steps of its lines.
ghost use Rattle.std.specs.Prelude.{◌≡◌, ◌⊎◌, ◌==◌, ◌-◌, ℕ, List, [], false, length, map, slice_get, slice_index, slice_index_or, unwrap_or, IfOk, IfSome};
ghost use Rattle.fzn_cert.specs.declared.step.Step.{Step};
ghost use Rattle.fzn_cert.specs.declared.step.Step.TheVariants.{Delete};
ghost use Rattle.fzn_cert.specs.declared.step.Version.TheVariants.{Two};
ghost use Rattle.fzn_cert.specs.Spelling.{step_text, IsSpelled};
ghost use Rattle.fzn_core.specs.Planned.{new_constraint, new_number, renumbered, planned_step, planned, CitesNumbers};

use fzn_cert::{Inference, Step};
use fzn_cert_reader::Script;
use fzn_checker::Held;
use fzn_domain::Memory;
use fzn_list::Items;
use fzn_meaning::{Goal, Model};
use std::alloc::Global;
use std::mem;

/// So many clauses are deleted in one line, which keeps its limit then.
const MOST_DELETED: usize = 200_000;

/// A line of a trimmed certificate.
#[derive(Clone, Copy)]
pub enum Line {
    /// The step at this place of the certificate, with other numbers for the clauses that it cites.
    Keep { place: usize },
    /// The deletion at this place of those that the plan adds.
    Deletion { place: usize },
}

/// The lines of a trimmed certificate, over the steps of the old one: those that stay, and the deletions between them.
#[derive(Drop)]
pub struct Plan {
    /// In order.
    pub lines: Vec<Line>,
    /// The number of each step's line, and 0 where it has none.
    pub numbers: Vec<u64>,
    /// The numbers of the lines whose clauses each deletion gives up.
    pub deletions: Vec<Items<u64>>,
    /// The new number of each constraint from the first on, and 0 of one that has none any more. Constraints behind the last of these keep
    /// their numbers.
    pub constraints: Vec<u64>,
}

impl Plan {
    /// How many steps the lines have.
    pub fn len(&self) -> usize
        ensures { (held : List Step) → result ≡ length (planned self.now held) }
    {
        self.lines.len()
    }

    /// The step of the line at this place, and none behind the last. It answers `Err` where memory runs out.
    pub fn get(&self, alloc: Global, held: &Script, place: usize) -> Result<Option<Step>, Memory>
        ensures { IfOk result (λ found. found ≡ slice_get (planned self.now held.now) place) }
    {
        match self.lines.get(place) {
            None => Ok(None),
            Some(line) => Ok(Some(self.step(alloc, held, *line)?)),
        }
    }

    /// The text of a line that stays as it is, without its line feed; none of one that cites clauses, of one from a constraint where
    /// constraints have new numbers, and of a deletion that the plan adds.
    pub fn unchanged<'a>(&self, held: &'a Script, line: Line) -> Option<&'a [u8]>
        ensures { IfSome result (λ text. text.now ≡ step_text (planned_step self.now held.now line)) }
    {
        match line {
            Line::Keep { place } => line_that_stays(held, place, &self.constraints),
            Line::Deletion { .. } => None,
        }
    }

    /// The step of a line. Where none is held at its place, it is a deletion of nothing, which no version spells. It answers `Err` where
    /// memory runs out.
    pub fn step(&self, alloc: Global, held: &Script, line: Line) -> Result<Step, Memory>
        ensures value { IfOk result (λ step. step ≡ planned_step self.now held.now line) }
        ensures spelled { IfOk result (λ step. CitesNumbers step → IsSpelled Two step) }
    {
        match line {
            Line::Keep { place } => match held.get(alloc, place)? {
                None => Ok(nothing(alloc)),
                Some(step) => renumbered(alloc, step, &self.constraints, &self.numbers),
            },
            Line::Deletion { place } => match self.deletions.get(place) {
                None => Ok(nothing(alloc)),
                Some(ids) => deletion(alloc, ids.as_slice()),
            },
        }
    }
}

/// The lines of a certificate with all solutions of this one, and those of its other steps that its first empty clause rests on; all
/// constraints keep their numbers. It answers `Err` where memory runs out.
pub fn planned_lines(alloc: Global, model: &Model, held: &Held) -> Result<Plan, Memory> {
    let citations = Citations::of(alloc, model, &held.steps)?;
    let needed = needed_steps(alloc, &citations, held.closed)?;
    let mut uses = last_uses(alloc, &citations, &needed)?;
    let mut writing = Writing::new(alloc, needed.len(), count_of(&needed));
    for place in 0..needed.len() {
        if is_marked(&needed, place) {
            writing.keep()?;
            writing.retire(place, citations.of_step(place), &mut uses)?;
        } else {
            writing.leave_out()?;
        }
    }
    Ok(Plan {
        lines: writing.lines,
        numbers: writing.numbers,
        deletions: writing.deletions,
        constraints: Vec::new(alloc),
    })
}

/// The text of the held step at this place, without its line feed, where it cites no clauses, and no constraint that may have a new number.
fn line_that_stays<'a>(held: &'a Script, place: usize, constraints: &[u64]) -> Option<&'a [u8]>
    ensures { IfSome result (λ text. (numbers : List ℕ) → text.now ≡ step_text (renumbered constraints.now numbers (unwrap_or (slice_get held.now place) (Delete [])))) }
{
    let text = held.line(place)?;
    if is_renumbered(text, constraints) {
        None
    } else {
        Some(text)
    }
}

/// Whether a line is one of a step from clauses, or from a constraint where constraints have new numbers.
fn is_renumbered(line: &[u8], constraints: &[u64]) -> bool
    ensures resolution { result ≡ false → (slice_index line.now 0 == 114) ≡ false }
    ensures inference { result ≡ false → ((slice_index line.now 0 == 105) ≡ false) ⊎ (constraints.now ≡ []) }
{
    is_resolution(line) || (is_inference(line) && !constraints.is_empty())
}

/// Whether a line is one of a step from clauses.
fn is_resolution(line: &[u8]) -> bool
    ensures { result ≡ (slice_index line.now 0 == 114) }
{
    !line.is_empty() && line[0] == b'r'
}

/// Whether a line is one of a step from a constraint.
fn is_inference(line: &[u8]) -> bool
    ensures { result ≡ (slice_index line.now 0 == 105) }
{
    !line.is_empty() && line[0] == b'i'
}

/// A deletion of nothing.
fn nothing(alloc: Global) -> Step
    ensures { result ≡ Delete [] }
{
    Step::Delete {
        ids: Items::new(alloc),
    }
}

/// A deletion of these clauses.
fn deletion(alloc: Global, ids: &[u64]) -> Result<Step, Memory>
    ensures { IfOk result (λ step. step ≡ Delete ids.now) }
{
    let ids = Items::from_slice(alloc, ids)?;
    Ok(Step::Delete { ids })
}

/// The step with the new numbers of the constraint and of the clauses that it cites.
fn renumbered(
    alloc: Global,
    step: Step,
    constraints: &[u64],
    numbers: &[u64],
) -> Result<Step, Memory>
    ensures { IfOk result (λ new. new ≡ renumbered constraints.now numbers.now step) }
{
    match step {
        Step::Infer(inference) => Ok(Step::Infer(Inference {
            constraint: new_constraint(constraints, inference.constraint),
            rule: inference.rule,
            clause: inference.clause,
        })),
        Step::Resolve { clause, ids } => {
            let ids = new_numbers(alloc, numbers, ids.as_slice())?;
            Ok(Step::Resolve { clause, ids })
        }
        _ => Ok(step),
    }
}

fn new_numbers(alloc: Global, numbers: &[u64], ids: &[u64]) -> Result<Items<u64>, Memory>
    ensures { IfOk result (λ new. new ≡ map (new_number numbers.now) ids.now) }
{
    let mut new = Items::new(alloc);
    for id in ids {
        new.push(new_number(numbers, *id))?;
    }
    Ok(new)
}

/// The number of the line in which the step with this number stands.
fn new_number(numbers: &[u64], id: u64) -> u64
    ensures { result ≡ new_number numbers.now id }
{
    match numbers.get(place_of(id)) {
        Some(number) => *number,
        None => 0,
    }
}

/// The new number of the constraint with this one, counted from 1. A constraint behind the last of these keeps its number.
pub fn new_constraint(constraints: &[u64], number: u64) -> u64
    ensures { result ≡ new_constraint constraints.now number }
{
    match constraints.get(place_of(number)) {
        Some(new) => *new,
        None => number,
    }
}

/// What a plan asks of the steps of a certificate.
#[derive(Drop)]
struct Citations {
    /// The ids that the steps cite, step after step.
    ids: Vec<u64>,
    /// Where those of each step end.
    ends: Vec<usize>,
    /// For each step whether it is a solution.
    solutions: Vec<bool>,
    /// The place of the first step that gives the empty clause.
    first_empty: Option<usize>,
}

impl Citations {
    /// Reads each step once.
    fn of(alloc: Global, model: &Model, steps: &Script) -> Result<Citations, Memory> {
        let mut citations = Citations {
            ids: Vec::new(alloc),
            ends: Vec::new(alloc),
            solutions: Vec::new(alloc),
            first_empty: None,
        };
        for place in 0..steps.len() {
            if let Some(step) = steps.get(alloc, place)? {
                citations.add(model, place, &step)?;
            }
        }
        Ok(citations)
    }

    /// Adds the step of the next place.
    fn add(&mut self, model: &Model, place: usize, step: &Step) -> Result<(), Memory> {
        if let Step::Resolve { ids, .. } = step {
            self.ids.extend_from_slice(ids.as_slice())?;
        }
        self.ends.push(self.ids.len())?;
        self.solutions.push(is_solution(step))?;
        if self.first_empty.is_none() && gives_empty(model, step) {
            self.first_empty = Some(place);
        }
        Ok(())
    }

    /// The ids that the step at this place cites.
    fn of_step(&self, place: usize) -> &[u64] {
        let start = match place.checked_sub(1) {
            Some(before) => self.end_at(before),
            None => 0,
        };
        match self.ids.get(start..self.end_at(place)) {
            Some(ids) => ids,
            None => &[],
        }
    }

    fn end_at(&self, place: usize) -> usize {
        match self.ends.get(place) {
            Some(end) => *end,
            None => 0,
        }
    }
}

fn is_solution(step: &Step) -> bool {
    match step {
        Step::Solution(_) => true,
        _ => false,
    }
}

/// Whether the step gives the empty clause.
fn gives_empty(model: &Model, step: &Step) -> bool {
    match step {
        Step::Infer(inference) => inference.clause.len() == 0,
        Step::Resolve { clause, .. } => clause.len() == 0,
        Step::Solution(_) => has_empty_cuts(model),
        Step::Delete { .. } => false,
    }
}

/// Whether the cut of a solution is the empty clause.
fn has_empty_cuts(model: &Model) -> bool {
    match model.goal {
        Goal::Satisfy => model.outputs.len() == 0,
        _ => false,
    }
}

/// For each step whether it stays: each solution, and what the first empty clause of a closed answer rests on.
fn needed_steps(alloc: Global, citations: &Citations, closed: bool) -> Result<Vec<bool>, Memory> {
    let mut needed = Vec::from_slice(alloc, citations.solutions.as_slice())?;
    if closed {
        if let Some(place) = citations.first_empty {
            mark(&mut needed, place);
        }
        for place in (0..needed.len()).rev() {
            if is_marked(&needed, place) {
                mark_cited(&mut needed, citations.of_step(place));
            }
        }
    }
    Ok(needed)
}

fn mark(needed: &mut [bool], place: usize) {
    if let Some(is_needed) = needed.get_mut(place) {
        *is_needed = true;
    }
}

/// Whether there is a mark at this place, counted from 0; behind the last there is none.
pub fn is_marked(needed: &[bool], place: usize) -> bool
    ensures { result ≡ slice_index_or needed.now place false }
{
    match needed.get(place) {
        Some(is_needed) => *is_needed,
        None => false,
    }
}

fn count_of(needed: &[bool]) -> usize {
    needed.iter().filter(|is_needed| **is_needed).count()
}

fn mark_cited(needed: &mut [bool], ids: &[u64]) {
    for id in ids {
        mark(needed, place_of(*id));
    }
}

/// The place of the step with this number.
fn place_of(id: u64) -> usize
    ensures { result ≡ id - 1 }
{
    id.saturating_sub(1) as usize
}

/// For each step the place of the last one that stays and cites it, and its own place where none does.
fn last_uses(alloc: Global, citations: &Citations, needed: &[bool]) -> Result<Vec<usize>, Memory> {
    let mut uses = Vec::new(alloc);
    for place in 0..needed.len() {
        uses.push(place)?;
    }
    for place in 0..needed.len() {
        if is_marked(needed, place) {
            note_uses(&mut uses, place, citations.of_step(place));
        }
    }
    Ok(uses)
}

fn note_uses(uses: &mut [usize], place: usize, ids: &[u64]) {
    for id in ids {
        if let Some(last) = uses.get_mut(place_of(*id)) {
            *last = place;
        }
    }
}

/// The lines so far.
#[derive(Drop)]
struct Writing {
    alloc: Global,
    lines: Vec<Line>,
    /// The number of each step's line so far, and 0 where it has none.
    numbers: Vec<u64>,
    deletions: Vec<Items<u64>>,
    /// The clauses that no later step cites and that are not deleted yet.
    waiting: Vec<u64>,
    /// They wait until they are as many.
    fewest: usize,
    /// So many deletions may be written before there are more lines than the certificate has.
    left: usize,
}

impl Writing {
    /// None yet, of a certificate with so many steps of which so many stay.
    fn new(alloc: Global, steps: usize, kept: usize) -> Writing {
        let left = steps.saturating_sub(kept);
        Writing {
            alloc,
            lines: Vec::new(alloc),
            numbers: Vec::new(alloc),
            deletions: Vec::new(alloc),
            waiting: Vec::new(alloc),
            fewest: fewest_deleted(kept, left),
            left,
        }
    }

    /// Writes the step of the next place.
    fn keep(&mut self) -> Result<(), Memory> {
        let place = self.numbers.len();
        self.lines.push(Line::Keep { place })?;
        self.numbers.push(self.lines.len() as u64)?;
        Ok(())
    }

    /// Writes nothing for the step of the next place.
    fn leave_out(&mut self) -> Result<(), Memory> {
        self.numbers.push(0)?;
        Ok(())
    }

    /// Has the clauses wait that the step at this place is the last to cite, and deletes those that wait where they are enough.
    fn retire(&mut self, place: usize, ids: &[u64], uses: &mut [usize]) -> Result<(), Memory> {
        for id in ids {
            if takes_last_use(uses, place_of(*id), place) {
                self.waiting.push(new_number(&self.numbers, *id))?;
            }
        }
        if self.waiting.len() >= self.fewest {
            self.delete()?;
        }
        Ok(())
    }

    /// Deletes the clauses that wait.
    fn delete(&mut self) -> Result<(), Memory> {
        self.waiting.sort()?;
        let waiting = mem::replace(&mut self.waiting, Vec::new(self.alloc));
        for ids in waiting.chunks(MOST_DELETED) {
            if self.left > 0 {
                self.left -= 1;
                let place = self.deletions.len();
                self.lines.push(Line::Deletion { place })?;
                self.deletions.push(Items::from_slice(self.alloc, ids)?)?;
            }
        }
        Ok(())
    }
}

/// How many clauses wait for one deletion, so that this many deletions are enough for so many steps.
fn fewest_deleted(kept: usize, deletions: usize) -> usize {
    if deletions == 0 {
        usize::MAX
    } else {
        (kept.saturating_sub(1) / deletions).saturating_add(1)
    }
}

/// Whether the step at the place is the last to cite that of another. It says so once.
fn takes_last_use(uses: &mut [usize], cited: usize, place: usize) -> bool {
    if let Some(last) = uses.get_mut(cited) {
        if *last == place {
            *last = usize::MAX;
            return true;
        }
    }
    false
}
