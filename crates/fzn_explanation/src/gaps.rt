// Clauses of two literals that stand for the values between two others that a variable lost at level 0.
ghost use Rattle.std.specs.Prelude.{◌≡◌, ◌↔◌, ◌⊎◌, ◌≤ℤ◌, ℤ, true};
ghost use Rattle.fzn_domain.specs.Literal.{is_true_at};

use fzn_domain::{Lit, Memory, Op, VarId};
use fzn_trail::ClauseId;
use std::alloc::Global;
use std::collections::HashMap;

/// The values of a variable between two others.
#[derive(Clone, Copy, Debug, PartialEq, Eq, Hash, Drop)]
pub struct Gap {
    /// The number of the variable, counted from 1.
    pub var: usize,
    /// The value below the gap.
    pub below: i64,
    /// The value above it.
    pub above: i64,
}

impl Gap {
    /// The variable is at most the one, or at least the other.
    pub fn literals(self) -> (Lit, Lit)
        ensures one_variable { result.0.var ≡ result.1.var }
        ensures outside { (value : ℤ) → ((is_true_at result.0 value ≡ true) ⊎ (is_true_at result.1 value ≡ true)) ↔ ((value ≤ℤ self.below) ⊎ (self.above ≤ℤ value)) }
    {
        let var = VarId(self.var);
        let low = Lit {
            var,
            op: Op::AtMost,
            value: self.below,
        };
        let high = Lit {
            var,
            op: Op::AtLeast,
            value: self.above,
        };
        (low, high)
    }
}

/// The gaps that bounds moved over, each numbered as it came, and the clauses that stand for them.
#[derive(Drop)]
pub struct Gaps {
    gaps: Vec<Gap>,
    numbers: HashMap<Gap, usize>,
    /// By number: the clause, where there is one.
    clauses: Vec<Option<ClauseId>>,
    /// The numbers of those for which a clause is wanted.
    wanted: Vec<usize>,
}

impl Gaps {
    /// No gap.
    pub fn new(alloc: Global) -> Gaps {
        Gaps {
            gaps: Vec::new(alloc),
            numbers: HashMap::new(alloc),
            clauses: Vec::new(alloc),
            wanted: Vec::new(alloc),
        }
    }

    /// The clause that stands for the gap, where there is one.
    pub fn clause(&self, gap: Gap) -> Option<ClauseId> {
        let number = self.numbers.get(&gap).copied()?;
        self.clauses.get(number).copied().flatten()
    }

    /// Notes that a clause is wanted for the gap, if it is the first time. It answers `Err` where memory runs out, and nothing is said of
    /// the gaps then.
    pub fn want(&mut self, gap: Gap) -> Result<(), Memory> {
        if self.numbers.get(&gap).is_none() {
            let number = self.gaps.len();
            self.gaps.push(gap)?;
            self.clauses.push(None)?;
            self.wanted.push(number)?;
            self.numbers.insert(gap, number)?;
        }
        Ok(())
    }

    /// Whether a clause is wanted for some gap.
    pub fn is_wanting(&self) -> bool {
        !self.wanted.is_empty()
    }

    /// The number of a gap for which a clause is wanted, which is no longer noted.
    pub fn next_wanted(&mut self) -> Option<usize> {
        self.wanted.pop()
    }

    /// The gap of this number, counted from 0.
    pub fn gap(&self, number: usize) -> Option<Gap> {
        self.gaps.get(number).copied()
    }

    /// The clause stands for the gap of this number.
    pub fn stand_for(&mut self, number: usize, id: ClauseId) {
        if number < self.clauses.len() {
            self.clauses[number] = Some(id);
        }
    }
}
