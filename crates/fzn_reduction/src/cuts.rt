// Which held clauses are the cuts of solutions.
ghost use Rattle.std.specs.Prelude.{◌≡◌, ◌≢◌, [], true, OnOk};
ghost use Rattle.fzn_trail.specs.declared.trail.ClauseId.{ClauseId};
ghost use Rattle.fzn_reduction.specs.Forgetting.{is_cut};

use fzn_domain::Memory;
use fzn_trail::ClauseId;
use std::alloc::Global;
use std::marker::Model;

/// Which of the held clauses are the cuts of solutions that were found. Whoever reads a contract sees a flag for each number of a clause;
/// a number behind the last flag is none of a cut.
#[derive(Drop)]
pub struct Cuts {
    flags: Vec<bool>,
}

impl Model for Cuts {
    ghost use Rattle.std.specs.Prelude.{Bool, List};

    ghost Value = { List Bool };

    ghost view = { λ it. it.flags.items };
}

impl Cuts {
    /// No clause is a cut.
    pub fn new(alloc: Global) -> Cuts
        ensures { result ≡ [] }
    {
        Cuts {
            flags: Vec::new(alloc),
        }
    }

    /// The clause of this number is a cut. `Memory` where there is no room for its flag; then no flag is changed.
    pub fn add(&mut self, id: ClauseId) -> Result<(), Memory>
        ensures added { OnOk result (is_cut self.new id ≡ true) }
        ensures others { (other : ClauseId) → other.0 ≢ id.0 → is_cut self.new other ≡ is_cut self.old other }
    {
        let k = id.0 as usize;
        if k < self.flags.len() {
            self.flags[k] = true;
            return Ok(());
        }
        self.flags.resize(k, false)?;
        self.flags.push(true)?;
        Ok(())
    }

    /// Whether the clause of this number is a cut.
    pub fn has(&self, id: ClauseId) -> bool
        ensures { result ≡ is_cut self.now id }
    {
        let k = id.0 as usize;
        k < self.flags.len() && self.flags[k]
    }
}
