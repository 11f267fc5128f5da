// A set for each variable, narrowed literal by literal, with the way back.
ghost use Rattle.std.specs.Prelude.{◌≡◌, ◌-◌, ◌<◌, ◌↔◌, IsTrue, IfOk, OnOk, OnErr, Some, length, slice_get, slice_set};
ghost use Rattle.fzn_domain.specs.declared.literal.Lit.{Lit};
ghost use Rattle.fzn_domain.specs.IntSet.{size};
ghost use Rattle.fzn_domain.specs.Narrow.{IsVariable, IsClauseOver, set_of, is_some_empty, possible_in};
ghost use Rattle.fzn_sets.specs.Sets.{start, narrowed_by, undone, stood_before, IsPossibleIn};

use fzn_domain::{Domain, Lit, Memory, VarId};
use std::alloc::Global;
use std::marker::Model;

/// A narrowing, and what it takes to undo it.
#[derive(Drop)]
struct Narrowing {
    lit: Lit,
    /// The set of its variable before it.
    before: Domain,
}

/// The declared set of each variable and the present one, narrowed by literals, the last of which can be undone.
#[derive(Drop)]
pub struct Sets {
    declared: Vec<Domain>,
    present: Vec<Domain>,
    narrowings: Vec<Narrowing>,
}

/// How many literals of a clause some value of their variables' sets makes true.
#[derive(Clone, Copy, Debug, PartialEq, Eq)]
pub enum Possible {
    /// No literal is possible.
    Nothing,
    /// This one alone.
    One(Lit),
    /// Two or more.
    Several,
}

impl Model for Sets {
    ghost use Rattle.std.specs.Coded.{codes, coded_ℤ};
    ghost use Rattle.std.specs.Ordering.{int_cmp};
    ghost use Rattle.std.specs.FinSet as set;
    ghost use Rattle.fzn_sets.specs.Sets.{Narrowed};
    ghost use Rattle.fzn_sets.specs.Inside.{narrowed_of, IsSets};

    ghost Value = { Narrowed };

    ghost coded = { Prim.hlevel (codes, set.code {R = int_cmp} coded_ℤ) };

    ghost view = { narrowed_of };

    ghost invariant = { λ it. IsSets it.declared.items it.present.items it.narrowings.items };
}

impl Sets {
    /// The declared sets, one for each variable in order, none of them narrowed. It answers `Err` where memory runs out.
    pub fn new(alloc: Global, declared: Vec<Domain>) -> Result<Sets, Memory>
        ensures { IfOk result (λ sets. sets ≡ start declared.items) }
    {
        let present = copies(alloc, &declared)?;
        Ok(Sets {
            declared,
            present,
            narrowings: Vec::new(alloc),
        })
    }

    /// How many variables there are.
    pub fn len(&self) -> usize
        ensures present { result ≡ length self.now.present }
        ensures declared { result ≡ length self.now.declared }
    {
        self.present.len()
    }

    /// The present set of a variable.
    pub fn domain(&self, var: VarId) -> &Domain
        requires { IsVariable (length self.now.present) var }
        ensures { result.now ≡ set_of self.now.present var }
    {
        &self.present[var.0 - 1]
    }

    /// The declared set of a variable.
    pub fn declared(&self, var: VarId) -> &Domain
        requires { IsVariable (length self.now.declared) var }
        ensures { result.now ≡ set_of self.now.declared var }
    {
        &self.declared[var.0 - 1]
    }

    /// Whether some present set is empty. It looks at every variable.
    pub fn has_empty(&self) -> bool
        ensures { result ≡ is_some_empty self.now.present }
    {
        self.present.iter().any(|domain| domain.is_empty())
    }

    /// Keeps the values at which the literal is true, and says whether any is left. It answers `Err` where memory runs out, and nothing is
    /// narrowed.
    pub fn narrow(&mut self, lit: Lit) -> Result<bool, Memory>
        requires { IsVariable (length self.old.present) lit.var }
        ensures ok { OnOk result (self.new ≡ narrowed_by lit self.old) }
        ensures left { IfOk result (λ left. IsTrue left ↔ (0 < size (set_of self.new.present lit.var))) }
        ensures err { OnErr result (self.new ≡ self.old) }
    {
        let k = lit.var.0 - 1;
        let before = self.present[k].copy()?;
        self.narrowings.push(Narrowing { lit, before })?;
        match self.present[k].restrict(lit) {
            Ok(left) => Ok(left),
            Err(memory) => {
                self.narrowings.pop();
                Err(memory)
            }
        }
    }

    /// Undoes the last narrowing. Where nothing was narrowed, nothing happens.
    pub fn undo(&mut self)
        ensures { self.new ≡ undone self.old }
    {
        if let Some(narrowing) = self.narrowings.pop() {
            put(&mut self.present, narrowing.lit.var.0 - 1, narrowing.before);
        }
    }

    /// Undoes all narrowings. It costs what these touched.
    pub fn restore(&mut self)
        ensures { self.new ≡ start self.old.declared }
    {
        while !self.narrowings.is_empty() {
            self.undo();
        }
    }

    /// The set that the literal at this place, counted from 0, narrowed, just before it.
    pub fn before(&self, i: usize) -> &Domain
        requires { i < length self.now.lits }
        ensures { (lit : Lit) → slice_get self.now.lits i ≡ Some lit → result.now ≡ stood_before self.now i lit.var }
    {
        &self.narrowings[i].before
    }

    /// Which literals of the clause are possible.
    pub fn possible(&self, clause: &[Lit]) -> Possible
        requires { IsClauseOver (length self.now.present) clause.now }
        ensures { IsPossibleIn (possible_in self.now.present clause.now) result }
    {
        let mut found = Possible::Nothing;
        for lit in clause {
            if !self.domain(lit.var).is_false(*lit) {
                match found {
                    Possible::Nothing => found = Possible::One(*lit),
                    _ => return Possible::Several,
                }
            }
        }
        found
    }
}

fn put(domains: &mut Vec<Domain>, k: usize, domain: Domain)
    requires { k < length domains.old.items }
    ensures { domains.new.items ≡ slice_set domains.old.items k domain }
{
    domains[k] = domain;
}

/// The same sets.
fn copies(alloc: Global, domains: &Vec<Domain>) -> Result<Vec<Domain>, Memory>
    ensures { IfOk result (λ all. all.items ≡ domains.now.items) }
{
    let mut all = Vec::new(alloc);
    for domain in domains {
        all.push(domain.copy()?)?;
    }
    Ok(all)
}
