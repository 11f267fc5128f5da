// Lists with several owners.
ghost use Rattle.std.specs.Prelude.{◌≡◌, length, IfOk};

use crate::items::Items;
use std::alloc::{AllocError, Global};
use std::marker::Model;
use std::rc::Rc;

/// A list that several owners hold, which contracts see as the list of its elements.
#[derive(Debug, Drop)]
pub struct Shared<T> {
    items: Rc<Items<T>>,
}

impl<T> Model for Shared<T> {
    ghost use Rattle.std.specs.Prelude.{List};
    ghost use Rattle.std.specs.Coded.{coded_list};

    ghost Value = { List T };

    ghost coded = { coded_list T.code };

    ghost view = { λ it. it.items.value };
}

impl<T: Drop> Shared<T> {
    /// The list, for one owner. It answers `Err` where memory runs out.
    pub fn new(alloc: Global, items: Items<T>) -> Result<Shared<T>, AllocError>
        ensures { IfOk result (λ list. list ≡ items) }
    {
        let items = Rc::new(alloc, items)?;
        Ok(Shared { items })
    }

    /// The same list for one more owner. Nothing of it is copied. It answers `Err` only where no further owner can be counted.
    pub fn share(&self) -> Result<Shared<T>, AllocError>
        ensures { IfOk result (λ list. list ≡ self.now) }
    {
        let items = self.items.clone()?;
        Ok(Shared { items })
    }
}

impl<T> Shared<T> {
    /// How many elements there are.
    pub fn len(&self) -> usize
        ensures { result ≡ length self.now }
    {
        self.items.len()
    }

    /// The elements in order.
    pub fn as_slice(&self) -> &[T]
        ensures { result.now ≡ self.now }
    {
        self.items.as_slice()
    }
}
