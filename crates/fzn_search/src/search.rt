// Decisions, each tested before it is given.
ghost use Rattle.std.specs.Prelude.{◌≡◌, ◌+◌, ◌<◌, length, IsFalse, IsTrue, IfOk, IfNone, IfSome, OnSome};
ghost use Rattle.fzn_domain.specs.IntSet.{size};
ghost use Rattle.fzn_domain.specs.Narrow.{IsVariable, IsWithin, set_of};
ghost use Rattle.fzn_trail.specs.Levels.{NoneEmpty, returned};
ghost use Rattle.fzn_search.specs.Fixed.{AllFixed, HasMany, IsOnlyWithin, Splits, counted};

use crate::choice::Choice;
use crate::guide::Guide;
use fzn_activity::splits;
use fzn_domain::{Lit, Memory, Op, VarId};
use fzn_list::Items;
use fzn_meaning::Model;
use fzn_strategy::Annotation;
use fzn_trail::Trail;
use std::alloc::Global;
use std::marker;

/// What decides, over a number of variables, and counts its decisions. It is told of conflicts and of what is undone, which steers
/// later decisions and nothing else. Activity is that of Moskewicz, Madigan, Zhao, Zhang and Malik, Chaff, 2001.
#[derive(Drop)]
pub struct Search {
    vars: usize,
    nodes: u64,
    guide: Guide,
}

impl marker::Model for Search {
    ghost use Rattle.fzn_search.specs.Fixed.{Searching};

    ghost Value = { Searching };

    ghost view = { λ search. record { vars = search.vars; nodes = search.nodes } };
}

impl Search {
    /// No decision yet. Of the values of the variable that is maximised the greatest are tried first. It answers `Err` where memory runs
    /// out.
    pub fn new(
        alloc: Global,
        model: &Model,
        annotations: &[Annotation],
        choice: Choice,
    ) -> Result<Search, Memory>
        ensures { IfOk result (λ search. search ≡ record { vars = length model.now.vars; nodes = 0 }) }
    {
        let guide = Guide::new(alloc, model, annotations, choice)?;
        Ok(Search {
            vars: model.vars.len(),
            nodes: 0,
            guide,
        })
    }

    /// A literal to assume, which counts as a node. `None` where each variable has one value, and nothing is counted then.
    pub fn decide(&mut self, trail: &Trail) -> Option<Lit>
        requires variables { self.old.vars ≡ length trail.now.declared }
        requires filled { NoneEmpty trail.now.sets }
        requires countable { self.old.nodes + 1 < 18446744073709551616 }
        ensures found { IfSome result (Splits trail.now.sets) }
        ensures counted { OnSome result (self.new ≡ counted self.old) }
        ensures none { IfNone result (AllFixed trail.now.sets) }
        ensures same { IfNone result (self.new ≡ self.old) }
    {
        let lit = self.next(trail)?;
        self.nodes += 1;
        Some(lit)
    }

    /// What the guide wants where it passes the test, and else the first open variable's least value.
    fn next(&mut self, trail: &Trail) -> Option<Lit>
        requires variables { self.old.vars ≡ length trail.now.declared }
        requires filled { NoneEmpty trail.now.sets }
        ensures found { IfSome result (Splits trail.now.sets) }
        ensures none { IfNone result (AllFixed trail.now.sets) }
        ensures same { self.new ≡ self.old }
    {
        if let Some(lit) = self.guide.next(trail, self.vars) {
            if splits(trail, self.vars, lit) {
                return Some(lit);
            }
        }
        let var = self.open_variable(trail)?;
        Some(Lit {
            var,
            op: Op::AtMost,
            value: trail.domain(var).min(),
        })
    }

    /// Whether each variable has one value, which counts as a solution. This goes over all variables only where it is so.
    pub fn is_fixed(&mut self, trail: &Trail) -> bool
        requires variables { self.old.vars ≡ length trail.now.declared }
        requires filled { NoneEmpty trail.now.sets }
        ensures fixed { IsTrue result → AllFixed trail.now.sets }
        ensures many { IsFalse result → HasMany trail.now.sets }
        ensures same { self.new ≡ self.old }
    {
        let _entries = trail.len(); // A trail has a set for each variable.
        match self.open_variable(trail) {
            Some(_) => false,
            None => {
                self.guide.found(trail, self.vars);
                true
            }
        }
    }

    /// A variable with more than one value.
    fn open_variable(&mut self, trail: &Trail) -> Option<VarId>
        requires variables { self.old.vars ≡ length trail.now.declared }
        requires filled { NoneEmpty trail.now.sets }
        ensures variable { IfSome result (λ var. IsVariable (length trail.now.declared) var) }
        ensures many { IfSome result (λ var. 1 < size (set_of trail.now.sets var)) }
        ensures none { IfNone result (AllFixed trail.now.sets) }
        ensures same { self.new ≡ self.old }
    {
        let _entries = trail.len(); // A trail has a set for each variable.
        if let Some(number) = self.guide.first_open(trail, self.vars) {
            if number < self.vars && trail.domain(VarId(number + 1)).len() != 1 {
                return Some(VarId(number + 1));
            }
        }
        first_open(trail, self.vars)
    }

    /// The entries from this place on are about to be dropped.
    pub fn undo(&mut self, trail: &Trail, from: usize)
        ensures same { self.new ≡ self.old }
    {
        self.guide.undo(trail, from);
    }

    /// The present conflict rests on these literals. Memory grows with the number of comparisons that conflicts ever named. It answers
    /// `Err` where memory runs out; the decisions that were counted stay.
    pub fn bump(&mut self, lits: &[Lit]) -> Result<(), Memory>
        ensures same { self.new ≡ self.old }
    {
        self.guide.bump(lits)
    }

    /// The present conflict is over. Answers whether the search is to restart now; never where no restart was asked for.
    pub fn conflict(&mut self) -> bool
        ensures same { self.new ≡ self.old }
    {
        self.guide.conflict()
    }

    /// Goes back to level 0.
    pub fn restart(&mut self, trail: &mut Trail)
        ensures trail { trail.new ≡ returned 0 trail.old }
        ensures same { self.new ≡ self.old }
    {
        self.guide.undo(trail, trail.count_at(0));
        trail.back_to(0);
    }

    /// How many decisions were made.
    pub fn nodes(&self) -> u64
        ensures { result ≡ self.now.nodes }
    {
        self.nodes
    }
}

/// The first variable with more than one value.
fn first_open(trail: &Trail, vars: usize) -> Option<VarId>
    requires variables { vars ≡ length trail.now.declared }
    requires filled { NoneEmpty trail.now.sets }
    ensures variable { IfSome result (λ var. IsVariable (length trail.now.declared) var) }
    ensures many { IfSome result (λ var. 1 < size (set_of trail.now.sets var)) }
    ensures none { IfNone result (AllFixed trail.now.sets) }
{
    let _entries = trail.len(); // A trail has a set for each variable.
    for i in 0..vars {
        let var = VarId(i + 1);
        if trail.domain(var).len() != 1 {
            return Some(var);
        }
    }
    None
}

/// The values of the variables where each has one. It answers `Err` where memory runs out.
pub fn values_of(alloc: Global, trail: &Trail, vars: usize) -> Result<Items<i64>, Memory>
    requires variables { vars ≡ length trail.now.declared }
    requires fixed { AllFixed trail.now.sets }
    ensures within { IfOk result (IsWithin trail.now.sets) }
    ensures only { IfOk result (IsOnlyWithin trail.now.sets) }
{
    let _entries = trail.len(); // A trail has a set for each variable.
    let mut values = Items::new(alloc);
    for i in 0..vars {
        values.push(trail.domain(VarId(i + 1)).min())?;
    }
    Ok(values)
}
