//! How a table of types refuses.

ghost use Rattle.std.specs.Prelude.{◌≡◌};
ghost use Rattle.clr_types.specs.declared.fault.DefineFault.TheVariants.{NoMemory as OutOfMemory};

use std::alloc::{AllocError, AllocFailed};

/// There was no memory for the program's own use.
#[derive(Clone, Copy, Debug, PartialEq, Eq)]
pub struct NoMemory;

impl From<AllocError> for NoMemory {
    fn from(_error: AllocError) -> NoMemory {
        NoMemory
    }
}

impl<T: Drop> From<AllocFailed<T>> for NoMemory {
    fn from(_error: AllocFailed<T>) -> NoMemory {
        NoMemory
    }
}

/// Why a type wasn't defined.
#[derive(Clone, Copy, Debug, PartialEq, Eq)]
pub enum DefineFault {
    /// A type has this name already, or it is `Free`.
    Duplicate,
    /// The shape isn't one that a type may have, or an array was to have a finaliser.
    BadShape,
    /// There are 1,000 types.
    TooManyTypes,
    /// There was no memory for the type.
    NoMemory,
}

impl From<AllocError> for DefineFault {
    ghost from_gives = { λ _ fault. fault ≡ OutOfMemory };

    fn from(_error: AllocError) -> DefineFault {
        DefineFault::NoMemory
    }
}

impl From<NoMemory> for DefineFault {
    ghost from_gives = { λ _ fault. fault ≡ OutOfMemory };

    fn from(_error: NoMemory) -> DefineFault {
        DefineFault::NoMemory
    }
}
