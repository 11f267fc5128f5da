//! What only proofs read: a list that grows, and a value as it was.

ghost use Rattle.std.specs.Prelude.{◌≡◌, List, [], ◌∷◌, ◌++◌};
ghost use Rattle.std.specs.Borrow.{ftrue};

use std::marker::{Model, PhantomData};

/// What was added so far, in order, which a clause reads as `items`. It takes no memory, and its methods do nothing at run time.
#[derive(Drop)]
pub struct GhostList<T> {
    of: PhantomData<T>,
    pub ghost items: { List T },
}

impl<T> Model for GhostList<T> {
    ghost also_owns = { λ _. ftrue };
}

impl<T> GhostList<T> {
    /// Nothing so far.
    pub fn new() -> GhostList<T>
        ensures { result.items ≡ [] }
    {
        GhostList { of: PhantomData }
    }

    /// One more item.
    pub fn and(&self, item: &T) -> GhostList<T>
        ensures { result.items ≡ self.now.items ++ item.now ∷ [] }
    {
        GhostList { of: PhantomData }
    }
}

/// A value as it was, which a clause reads as `value`. It takes no memory either.
#[derive(Drop)]
pub struct Initial<T> {
    of: PhantomData<T>,
    pub ghost value: { T },
}

impl<T> Model for Initial<T> {
    ghost also_owns = { λ _. ftrue };
}

impl<T> Initial<T> {
    /// What the reference shows now.
    pub fn of(value: &T) -> Initial<T>
        ensures { result.value ≡ value.now }
    {
        Initial { of: PhantomData }
    }
}
