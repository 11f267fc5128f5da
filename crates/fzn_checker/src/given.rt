// Lists of numbers that came before.
ghost use Rattle.std.specs.Prelude.{◌≡◌, [], ◌∷◌, ◌++◌, false, length, IfOk, OnOk, OnErr};
ghost use Rattle.std.specs.List.{All};
ghost use Rattle.fzn_domain.specs.Narrow.{IsVariable};
ghost use Rattle.fzn_checker.specs.Given.{given_by, is_given};

use fzn_domain::{Memory, VarId};
use indexmap::IndexSet;
use std::alloc::Global;
use std::marker::Model;

/// Lists of numbers, each once, in the order in which they came.
#[derive(Drop)]
pub struct Given {
    lists: IndexSet<Vec<i64>>,
}

impl Model for Given {
    ghost use Rattle.std.specs.Prelude.{ℤ, List, map};
    ghost use Rattle.std.specs.Coded.{codes, coded_ℤ};

    ghost Value = { List (List ℤ) };

    ghost view = { λ given. map (λ list. list.items) given.lists.keys };
}

impl Given {
    pub fn new(alloc: Global) -> Given
        ensures { result ≡ [] }
    {
        Given {
            lists: IndexSet::new(alloc),
        }
    }

    /// Whether this list is one of them.
    pub fn has(&self, values: &[i64]) -> bool
        ensures { result ≡ is_given self.now values.now }
    {
        self.lists.contains(values)
    }

    /// Adds a list that is none of them.
    pub fn insert(&mut self, values: Vec<i64>) -> Result<(), Memory>
        requires { is_given self.old values.items ≡ false }
        ensures ok { OnOk result (self.new ≡ self.old ++ values.items ∷ []) }
        ensures err { OnErr result (self.new ≡ self.old) }
    {
        self.lists.insert(values)?;
        Ok(())
    }
}

/// What the values give the variables, in order.
pub fn given_by(alloc: Global, vars: &[VarId], values: &[i64]) -> Result<Vec<i64>, Memory>
    requires { All (IsVariable (length values.now)) vars.now }
    ensures { IfOk result (λ given. given.items ≡ given_by vars.now values.now) }
{
    let mut given = Vec::new(alloc);
    for var in vars {
        given.push(values[var.0 - 1])?;
    }
    Ok(given)
}
