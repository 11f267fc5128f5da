//! The values that a set lists.

ghost use Rattle.std.specs.Prelude.{◌≡◌, IfOk};

use fzn_list::Items;
use std::alloc::{AllocError, Global};
use std::marker::Model;

/// Numbers that contracts see as their list. They lie behind one pointer, so that a literal is no larger for the sets among them.
#[derive(Debug, Drop)]
pub struct Listed {
    values: Box<Items<i64>>,
}

impl Model for Listed {
    ghost use Rattle.std.specs.Prelude.{List, ℤ};

    ghost Value = { List ℤ };

    ghost view = { λ l. l.values.value };
}

impl Listed {
    /// These values, in this order. An error where memory runs out.
    pub fn new(alloc: Global, values: Items<i64>) -> Result<Listed, AllocError>
        ensures { IfOk result (λ listed. listed ≡ values) }
    {
        Ok(Listed {
            values: Box::new(alloc, values)?,
        })
    }

    /// The values in order.
    pub fn as_slice(&self) -> &[i64]
        ensures { result.now ≡ self.now }
    {
        self.values.as_slice()
    }
}
