// The names that are declared, and what each stands for.
ghost use Rattle.std.specs.Prelude.{◌≡◌, [], ◌∷◌, ◌++◌, None, OnOk, option_copied};
ghost use Rattle.fzn_names.specs.Known.{known};
ghost use Rattle.fzn_names.specs.Values.{meaning_of};

use crate::named_list::NamedList;
use fzn_domain::{Domain, VarId};
use fzn_list::Text;
use fzn_meaning::Kind;
use indexmap::IndexMap;
use std::alloc::{AllocError, Global};

/// What a name stands for.
#[derive(Drop)]
pub enum Declared {
    /// A number, or a Boolean as 0 or 1.
    Constant(Kind, i64),
    /// A set of numbers.
    Set(Domain),
    /// An array of constants.
    Constants(Kind, NamedList),
    /// An array of variables and constants.
    Array(Kind, NamedList),
    /// A variable, by its number.
    Variable(Kind, VarId),
}

/// Names, each declared once, in order of declaration.
#[derive(Drop)]
pub struct Names {
    map: IndexMap<Vec<u8>, Declared>,
}

impl Names {
    /// No name at all.
    pub fn new(alloc: Global) -> Names
        ensures { known result ≡ [] }
    {
        Names {
            map: IndexMap::new(alloc),
        }
    }

    /// What the name stands for, if it is declared.
    pub fn meaning(&self, name: &Text) -> Option<&Declared>
        ensures { option_copied result ≡ meaning_of (known self.now) name.now }
    {
        self.map.get(name.as_slice())
    }

    /// Puts a new name at the end. It answers `Err` where memory runs out, and nothing is said of the names then.
    pub fn insert(
        &mut self,
        alloc: Global,
        name: &Text,
        declared: Declared,
    ) -> Result<(), AllocError>
        requires { meaning_of (known self.old) name.now ≡ None }
        ensures { OnOk result (known self.new ≡ known self.old ++ (name.now, declared) ∷ []) }
    {
        let key = Vec::from_slice(alloc, name.as_slice())?;
        self.map.insert(key, declared)?;
        Ok(())
    }
}
