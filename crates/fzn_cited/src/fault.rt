// Why no constraint is derived.
ghost use Rattle.std.specs.Prelude.{◌≡◌};
ghost use Rattle.fzn_cited.specs.declared.fault.DeriveFault.TheVariants.{Memory};

use std::alloc::{AllocError, AllocFailed};
use thiserror::Error;

/// What is wrong with a derivation: the first that is met where it is read from left to right.
#[derive(Clone, Copy, Debug, PartialEq, Eq, Error)]
pub enum DeriveFault {
    /// No memory was left.
    #[error("no memory")]
    Memory,
    /// The model has no variable of this number.
    #[error("no such variable")]
    NoSuchVariable,
    /// There is no constraint of this number before the derived one.
    #[error("no such constraint")]
    NoSuchConstraint,
    /// The constraints that are cited do not give a constraint so.
    #[error("not derived")]
    NotDerived,
}

impl From<AllocError> for DeriveFault {
    ghost from_gives = { λ _ e. e ≡ Memory };

    fn from(_e: AllocError) -> DeriveFault {
        DeriveFault::Memory
    }
}

impl<T: Drop> From<AllocFailed<T>> for DeriveFault {
    ghost from_gives = { λ _ e. e ≡ Memory };

    fn from(_e: AllocFailed<T>) -> DeriveFault {
        DeriveFault::Memory
    }
}
