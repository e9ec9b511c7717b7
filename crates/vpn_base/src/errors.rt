//! Want of memory, alone or beside the other ways in which a call can be refused.

ghost use Rattle.std.specs.Prelude.{◌≡◌};
ghost use Rattle.vpn_base.specs.declared.errors.Or.TheVariants.{Memory};

use std::alloc::{AllocError, AllocFailed};

/// There was not enough memory. What was lent to the call is as it was before it.
#[derive(Clone, Copy, Debug, PartialEq, Eq)]
pub struct NoMemory;

impl From<AllocError> for NoMemory {
    fn from(_: AllocError) -> NoMemory {
        NoMemory
    }
}

impl<T: Drop> From<AllocFailed<T>> for NoMemory {
    fn from(_: AllocFailed<T>) -> NoMemory {
        NoMemory
    }
}

/// Why a call was refused: want of memory, or a reason of its own.
#[derive(Clone, Copy, Debug, PartialEq, Eq)]
pub enum Or<E> {
    /// There was not enough memory.
    Memory,
    /// The call's own reason.
    Why(E),
}

impl<E> From<AllocError> for Or<E> {
    ghost from_gives = { λ _ e. e ≡ Memory };

    fn from(_: AllocError) -> Or<E> {
        Or::Memory
    }
}

impl<T: Drop, E> From<AllocFailed<T>> for Or<E> {
    ghost from_gives = { λ _ e. e ≡ Memory };

    fn from(_: AllocFailed<T>) -> Or<E> {
        Or::Memory
    }
}

impl<E> From<NoMemory> for Or<E> {
    ghost from_gives = { λ _ e. e ≡ Memory };

    fn from(_: NoMemory) -> Or<E> {
        Or::Memory
    }
}
