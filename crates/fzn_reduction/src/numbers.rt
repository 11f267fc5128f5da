// The numbers of the steps that give the held clauses.
ghost use Rattle.std.specs.Prelude.{◌≡◌, ◌<◌, [], ◌∷◌, ◌++◌, length, slice_set, OnOk, OnErr};

use fzn_domain::Memory;
use std::alloc::Global;
use std::marker::Model;

/// For each clause that was added, the number of the step that gives what is held under its number.
#[derive(Drop)]
pub struct Numbers {
    items: Vec<u64>,
}

impl Model for Numbers {
    ghost use Rattle.std.specs.Prelude.{ℕ, List};

    ghost Value = { List ℕ };

    ghost view = { λ it. it.items.items };
}

impl Numbers {
    /// No clause was added.
    pub fn new(alloc: Global) -> Numbers
        ensures { result ≡ [] }
    {
        Numbers {
            items: Vec::new(alloc),
        }
    }

    /// The numbers of the steps, from 1, by the numbers of the clauses, from 0.
    pub fn as_slice(&self) -> &[u64]
        ensures { result.now ≡ self.now }
    {
        self.items.as_slice()
    }

    /// One more clause was added, and this is the number of its step. It answers `Err` where memory runs out, and the numbers are as
    /// before.
    pub fn push(&mut self, number: u64) -> Result<(), Memory>
        ensures ok { OnOk result (self.new ≡ self.old ++ number ∷ []) }
        ensures err { OnErr result (self.new ≡ self.old) }
    {
        self.items.push(number)?;
        Ok(())
    }

    /// Another clause is held under the number of one that was added, and this is the number of its step.
    pub fn set(&mut self, k: usize, number: u64)
        requires { k < length self.old }
        ensures { self.new ≡ slice_set self.old k number }
    {
        self.items[k] = number;
    }
}
