// The trail with the clauses that its reasons are, as the graph of what follows from what.
ghost use Rattle.std.specs.Prelude.{◌≡◌, length};

use crate::causes::Causes;
use fzn_clauses::Clauses;
use fzn_domain::{Domain, Lit, Memory, VarId};
use fzn_learned::{clause_of, is_known};
use fzn_propagator::Inferences;
use fzn_trail::{Antecedent, Entry, Reason, Trail};

/// The entries of a trail, and the clauses of their reasons.
#[derive(Clone, Copy)]
pub struct Implications<'a> {
    /// The entries.
    pub trail: &'a Trail,
    /// The held clauses, which may be reasons.
    pub clauses: &'a Clauses,
    /// The inferences that stand, which may be reasons.
    pub inferences: &'a Inferences,
    /// How many variables there are.
    pub vars: usize,
    ghost variables: { vars ≡ length trail.now.declared },
}

impl<'a> Implications<'a> {
    /// The entry at this place, counted from 0, where there is one.
    pub fn entry(&self, place: usize) -> Option<Entry> {
        if place < self.trail.len() {
            Some(self.trail.entry(place))
        } else {
            None
        }
    }

    /// Whether the entry at this place asserts the literal.
    pub fn is_at(&self, place: usize, lit: Lit) -> bool {
        match self.entry(place) {
            Some(entry) => entry.lit == lit,
            None => false,
        }
    }

    /// How many entries stand at level 0.
    pub fn root_count(&self) -> usize {
        self.trail.count_at(0)
    }

    /// The place of the first entry of this level or a higher one, or that of the next entry where there is none.
    pub fn first_at(&self, level: usize) -> usize {
        match level.checked_sub(1) {
            Some(below) if below <= self.trail.level() => self.trail.count_at(below),
            Some(_) => self.trail.len(),
            None => 0,
        }
    }

    /// The set of the entry's variable just before it, where there is such an entry.
    pub(crate) fn domain_before(&self, place: usize) -> Option<&'a Domain> {
        if place < self.trail.len() {
            Some(self.trail.domain_before(place))
        } else {
            None
        }
    }

    /// The declared set of a variable.
    pub fn declared(&self, var: VarId) -> Option<&'a Domain> {
        if 1 <= var.0 && var.0 <= self.vars {
            Some(self.trail.declared(var))
        } else {
            None
        }
    }

    /// The last entry before this one on the same variable.
    pub fn before(&self, place: usize) -> Option<usize> {
        if place < self.trail.len() {
            self.trail.before(place)
        } else {
            None
        }
    }

    /// The last entry on a variable.
    pub fn last_of(&self, var: VarId) -> Option<usize> {
        if 1 <= var.0 && var.0 <= self.vars {
            self.trail.last_of(var)
        } else {
            None
        }
    }

    /// Finds what made the literals of the clause that forced the entry false, but for its own. It answers `Err` where memory runs out, and
    /// some may be found then.
    pub fn find_causes(&self, causes: &mut Causes, entry: Entry) -> Result<(), Memory> {
        causes.clear();
        for lit in self.clause_behind(entry) {
            if *lit != entry.lit {
                causes.add(self, *lit)?;
            }
        }
        Ok(())
    }

    /// The clause that forced the entry, without literals where there is none.
    pub fn clause_behind(&self, entry: Entry) -> &'a [Lit] {
        match entry.reason {
            Reason::Decision => [].as_slice(),
            Reason::Implied(antecedent) => self.clause(antecedent),
        }
    }

    /// The clause of an antecedent, without literals where there is none.
    pub fn clause(&self, antecedent: Antecedent) -> &'a [Lit] {
        if is_known(self.clauses, self.inferences, antecedent) {
            clause_of(self.clauses, self.inferences, antecedent)
        } else {
            [].as_slice()
        }
    }
}
