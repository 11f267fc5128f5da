// The clauses of the inferences that were written, so that none is written twice.
ghost use Rattle.std.specs.Prelude.{◌≡◌, ◌<◌, [], ◌∷◌, ◌++◌, length, IfSome, IsTrue, OnOk};
ghost use Rattle.std.specs.List.{All, Contains};
ghost use Rattle.std.specs.List.Sorted.{IsNonDecreasing};
ghost use Rattle.fzn_reduction.specs.Written.{IsGivenAt, given_at};

use crate::idle::is_among;
use fzn_domain::{Lit, Memory, Op};
use fzn_list::Items;
use std::alloc::Global;
use std::collections::HashMap;
use std::hash::{FoldHasher, Hash, Hasher};
use std::marker::Model;

/// The clause of an inference that was written.
#[derive(Drop)]
pub struct Given {
    /// The literals, in the order in which they were written.
    pub clause: Items<Lit>,
    /// The number of its step, counted from 1.
    pub number: u64,
}

/// The clauses of the inferences whose steps are not deleted, in the order in which they were written.
#[derive(Drop)]
pub struct Written {
    steps: Vec<Given>,
    /// Where the newest clause of a hash stands.
    places: HashMap<u64, usize>,
}

impl Model for Written {
    ghost use Rattle.std.specs.Prelude.{List};
    ghost use Rattle.fzn_reduction.specs.declared.written.Given.{Given};

    ghost Value = { List Given };

    ghost view = { λ it. it.steps.items };
}

impl Written {
    /// No inference was written.
    pub fn new(alloc: Global) -> Written
        ensures { result ≡ [] }
    {
        Written {
            steps: Vec::new(alloc),
            places: HashMap::new(alloc),
        }
    }

    /// The place of this clause, where it was written.
    pub fn find(&self, clause: &[Lit]) -> Option<usize>
        ensures { IfSome result (λ place. IsGivenAt self.now place clause.now) }
    {
        let place = self.places.get(&hash_of(clause)).copied()?;
        if place < self.steps.len() && is_same(self.steps[place].clause.as_slice(), clause) {
            Some(place)
        } else {
            None
        }
    }

    /// How many there are.
    pub fn len(&self) -> usize
        ensures { result ≡ length self.now }
    {
        self.steps.len()
    }

    /// The clause at this place, with the number of its step.
    pub fn get(&self, place: usize) -> &Given
        requires { place < length self.now }
        ensures { result.now ≡ given_at self.now place }
    {
        &self.steps[place]
    }

    /// One more inference was written, and this is its clause and the number of its step; gives its place. It answers `Err` where memory
    /// runs out, and nothing is said then of what was written.
    pub fn push(&mut self, clause: Items<Lit>, number: u64) -> Result<usize, Memory>
        ensures { OnOk result (self.new ≡ self.old ++ record { clause = clause; number = number } ∷ []) }
    {
        let place = self.steps.len();
        self.places.insert(hash_of(clause.as_slice()), place)?;
        self.steps.push(Given { clause, number })?;
        Ok(place)
    }

    /// Keeps the steps of these numbers alone. It answers `Err` where memory runs out, and one that is kept may then be found no more.
    pub(crate) fn keep(&mut self, numbers: &[u64]) -> Result<(), Memory>
        requires sorted { IsNonDecreasing numbers.now }
        ensures only { All (λ step. Contains numbers.now step.number) self.new }
        ensures among { All (Contains self.old) self.new }
    {
        thin(&mut self.steps, numbers);
        place_all(self.steps.as_slice(), &mut self.places)
    }
}

/// Whether both have the same literals in the same order.
fn is_same(one: &[Lit], other: &[Lit]) -> bool
    ensures { IsTrue result → one.now ≡ other.now }
{
    if one.len() != other.len() {
        return false;
    }
    for i in 0..one.len() {
        if !is_literal(one[i], other[i]) {
            return false;
        }
    }
    true
}

fn is_literal(one: Lit, other: Lit) -> bool
    ensures { IsTrue result → one ≡ other }
{
    one == other
}

/// Keeps the steps of these numbers alone.
fn thin(steps: &mut Vec<Given>, numbers: &[u64])
    requires { IsNonDecreasing numbers.now }
    ensures only { All (λ step. Contains numbers.now step.number) steps.new.items }
    ensures among { All (Contains steps.old.items) steps.new.items }
{
    steps.retain(|step| is_among(numbers, step.number));
}

/// Notes where each clause stands.
fn place_all(steps: &[Given], places: &mut HashMap<u64, usize>) -> Result<(), Memory> {
    places.clear();
    for place in 0..steps.len() {
        places.insert(hash_of(steps[place].clause.as_slice()), place)?;
    }
    Ok(())
}

/// Clauses of one hash are the same as a rule.
fn hash_of(clause: &[Lit]) -> u64 {
    let mut hasher = FoldHasher::default();
    for lit in clause {
        let op: u64 = match lit.op {
            Op::AtMost => 0,
            Op::AtLeast => 1,
            Op::Equal => 2,
            Op::NotEqual => 3,
        };
        (lit.var.0, op, lit.value).hash(&mut hasher);
    }
    hasher.finish()
}
