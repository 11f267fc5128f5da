// One set for each variable, and beside each assertion what stood before it.
ghost use Rattle.std.specs.Prelude.{◌≡◌, ◌-◌, ◌<◌, ◌≤◌, ◌↔◌, ◌++◌, [], ◌∷◌, length, take, IsTrue, IfOk, OnOk, OnErr, IfNone, IfSome, slice_get};
ghost use Rattle.fzn_domain.specs.IntSet.{size};
ghost use Rattle.fzn_domain.specs.Narrow.{IsVariable, set_of};
ghost use Rattle.fzn_trail.specs.Replay.{replayed, set_before, variable_at, IsLastOn, NoneOn};

use crate::trail::Entry;
use fzn_domain::{Domain, Memory, VarId};
use fzn_sets::Sets;
use std::alloc::Global;
use std::marker::Model;

/// An assertion, and what it takes to drop it.
#[derive(Drop)]
struct Assertion {
    entry: Entry,
    /// The last assertion before it on the same variable.
    before: Option<usize>,
}

/// The declared sets, narrowed by assertions, the last of which can be dropped.
#[derive(Drop)]
pub struct Assertions {
    sets: Sets,
    /// The last assertion on each variable.
    last: Vec<Option<usize>>,
    assertions: Vec<Assertion>,
}

impl Model for Assertions {
    ghost use Rattle.std.specs.Coded.{codes, coded_ℤ};
    ghost use Rattle.std.specs.Ordering.{int_cmp};
    ghost use Rattle.std.specs.FinSet as set;
    ghost use Rattle.fzn_trail.specs.Replay.{Past};

    ghost Value = { Past };

    ghost coded = { Prim.hlevel (codes, set.code {R = int_cmp} coded_ℤ) };

    ghost use Rattle.fzn_trail.specs.Inside.{past_of, AreAssertions};

    ghost view = { past_of };

    ghost invariant = { λ it. AreAssertions it.sets it.last.items it.assertions.items };
}

impl Assertions {
    pub fn new(alloc: Global, declared: Vec<Domain>) -> Result<Assertions, Memory>
        ensures { IfOk result (λ it. it ≡ record { declared = declared.items; entries = [] }) }
    {
        let last = vec![in alloc; None; declared.len()]?;
        let sets = Sets::new(alloc, declared)?;
        Ok(Assertions {
            sets,
            last,
            assertions: Vec::new(alloc),
        })
    }

    /// Narrows the set of the entry's variable, and says whether any value is left.
    pub fn assert(&mut self, entry: Entry) -> Result<bool, Memory>
        requires { IsVariable (length self.old.declared) entry.lit.var }
        ensures ok { OnOk result (self.new ≡ record self.old { entries = self.old.entries ++ entry ∷ [] }) }
        ensures left { IfOk result (λ any. IsTrue any ↔ (0 < size (set_of (replayed self.new.declared self.new.entries) entry.lit.var))) }
        ensures err { OnErr result (self.new ≡ self.old) }
    {
        let k = entry.lit.var.0 - 1;
        let place = self.assertions.len();
        self.assertions.push(Assertion {
            entry,
            before: self.last[k],
        })?;
        match self.sets.narrow(entry.lit) {
            Ok(left) => {
                self.last[k] = Some(place);
                Ok(left)
            }
            Err(memory) => {
                self.assertions.pop();
                Err(memory)
            }
        }
    }

    /// Drops the last assertion.
    pub fn drop_last(&mut self)
        ensures { self.new ≡ record self.old { entries = take (length self.old.entries - 1) self.old.entries } }
    {
        if let Some(assertion) = self.assertions.pop() {
            self.last[assertion.entry.lit.var.0 - 1] = assertion.before;
            self.sets.undo();
        }
    }

    /// Drops all assertions but so many.
    pub fn truncate(&mut self, count: usize)
        ensures { self.new ≡ record self.old { entries = take count self.old.entries } }
    {
        while self.len() > count {
            self.drop_last();
        }
    }

    pub fn len(&self) -> usize
        ensures { result ≡ length self.now.entries }
    {
        self.assertions.len()
    }

    /// The declared and the present sets.
    pub fn sets(&self) -> &Sets
        ensures declared { result.now.declared ≡ self.now.declared }
        ensures present { result.now.present ≡ replayed self.now.declared self.now.entries }
    {
        &self.sets
    }

    pub fn entry(&self, i: usize) -> Entry
        requires { i < length self.now.entries }
        ensures { slice_get self.now.entries i ≡ Some result }
    {
        self.assertions[i].entry
    }

    pub fn last_of(&self, var: VarId) -> Option<usize>
        requires { IsVariable (length self.now.declared) var }
        ensures found { IfSome result (IsLastOn self.now.entries var.0) }
        ensures none { IfNone result (NoneOn self.now.entries var.0) }
    {
        self.last[var.0 - 1]
    }

    pub fn before(&self, i: usize) -> Option<usize>
        requires { i < length self.now.entries }
        ensures found { IfSome result (IsLastOn (take i self.now.entries) (variable_at self.now.entries i)) }
        ensures none { IfNone result (NoneOn (take i self.now.entries) (variable_at self.now.entries i)) }
    {
        self.assertions[i].before
    }

    pub fn domain_before(&self, i: usize) -> &Domain
        requires { i < length self.now.entries }
        ensures { result.now ≡ set_before self.now.declared self.now.entries i }
    {
        self.sets.before(i)
    }
}
