// What the steps of a certificate leave for later ones.
ghost use Rattle.std.specs.Prelude.{◌≡◌, ◌≤◌, ◌↔◌, IsTrue, OnOk, length};
ghost use Rattle.std.specs.List.{All};
ghost use Rattle.std.specs.Option.{option_copied};
ghost use Rattle.fzn_cert.specs.Past.{StepsPast, no_past, clause_held, IsClauseHeld, without, after_clause, after_solution, after_deletion};

use fzn_domain::{Lit, Memory};
use fzn_list::Items;
use std::alloc::Global;
use std::marker::Model;

/// The clauses of the steps so far by their numbers, the solutions, and whether a step gave the empty clause.
#[derive(Drop)]
pub struct History {
    clauses: Vec<Option<Items<Lit>>>,
    solutions: Vec<Items<i64>>,
    refuted: bool,
}

impl Model for History {
    ghost Value = { StepsPast };

    ghost view = { λ h. record { clauses = h.clauses.items; solutions = h.solutions.items; refuted = h.refuted } };
}

impl History {
    /// Before the first step.
    pub fn new(alloc: Global) -> History
        ensures { result ≡ no_past }
    {
        History {
            clauses: Vec::new(alloc),
            solutions: Vec::new(alloc),
            refuted: false,
        }
    }

    /// The clause of the step with this number, where one is held.
    pub fn clause(&self, id: u64) -> Option<&Items<Lit>>
        ensures { option_copied result ≡ clause_held self.now id }
    {
        if id == 0 || id > self.clauses.len() as u64 {
            return None;
        }
        self.clauses[(id - 1) as usize].as_ref()
    }

    pub fn is_held(&self, id: u64) -> bool
        ensures { IsTrue result ↔ IsClauseHeld self.now id }
    {
        self.clause(id).is_some()
    }

    pub fn solutions(&self) -> &[Items<i64>]
        ensures { result.now ≡ self.now.solutions }
    {
        &self.solutions
    }

    pub fn into_solutions(self) -> Vec<Items<i64>>
        ensures { result.items ≡ self.solutions }
    {
        self.solutions
    }

    /// Whether a step gave the empty clause.
    pub fn is_refuted(&self) -> bool
        ensures { result ≡ self.now.refuted }
    {
        self.refuted
    }

    /// Adds the clause of a step.
    pub fn add_clause(&mut self, clause: Items<Lit>) -> Result<(), Memory>
        ensures { OnOk result (self.new ≡ after_clause self.old clause) }
    {
        let is_empty = clause.len() == 0;
        self.clauses.push(Some(clause))?;
        self.refuted = self.refuted || is_empty;
        Ok(())
    }

    /// Adds a solution with its cut.
    pub fn add_solution(&mut self, cut: Items<Lit>, values: Items<i64>) -> Result<(), Memory>
        ensures { OnOk result (self.new ≡ after_solution self.old cut values) }
    {
        let is_empty = cut.len() == 0;
        self.clauses.push(Some(cut))?;
        self.solutions.push(values)?;
        self.refuted = self.refuted || is_empty;
        Ok(())
    }

    /// Gives up the clauses with these numbers.
    pub fn delete(&mut self, ids: &[u64]) -> Result<(), Memory>
        requires { All (IsClauseHeld self.old) ids.now }
        ensures { OnOk result (self.new ≡ after_deletion self.old ids.now) }
    {
        forget(&mut self.clauses, ids);
        self.clauses.push(None)?;
        Ok(())
    }
}

fn forget(clauses: &mut [Option<Items<Lit>>], ids: &[u64])
    requires { All (λ id. (1 ≤ id) × (id ≤ length clauses.old)) ids.now }
    ensures { clauses.new ≡ without clauses.old ids.now }
{
    for id in ids {
        clauses[(*id - 1) as usize] = None;
    }
}
