//! Why a call that takes memory stopped.

ghost use Rattle.std.specs.Prelude.{◌≡◌};
ghost use Rattle.fzn_lexer.specs.declared.halt.Halt.TheVariants.{Memory};

use std::alloc::{AllocError, AllocFailed};

/// Why there is no answer.
#[derive(Debug, Drop)]
pub enum Halt<F> {
    /// Memory was wanted and not there.
    Memory,
    /// There is this fault.
    Fault(F),
}

impl<F> From<AllocError> for Halt<F> {
    ghost from_gives = { λ _ e. e ≡ Memory };

    fn from(_e: AllocError) -> Halt<F> {
        Halt::Memory
    }
}

impl<F, T: Drop> From<AllocFailed<T>> for Halt<F> {
    ghost from_gives = { λ _ e. e ≡ Memory };

    fn from(_e: AllocFailed<T>) -> Halt<F> {
        Halt::Memory
    }
}
