//! Why bytes aren't read.
ghost use Rattle.std.specs.Prelude.{◌≡◌};
ghost use Rattle.clr_fields.specs.declared.fault.LoadFault.TheVariants.{NoMemory as OutOfMemory};

use std::alloc::{AllocError, AllocFailed};

/// Why an image isn't loaded.
#[derive(Clone, Copy, Debug, PartialEq, Eq)]
pub enum LoadFault {
    /// The bytes aren't an image, and this is the offset of the first fault.
    At(u64),
    /// There was no memory for it.
    NoMemory,
}

impl From<AllocError> for LoadFault {
    ghost from_gives = { λ _ fault. fault ≡ OutOfMemory };

    fn from(_error: AllocError) -> LoadFault {
        LoadFault::NoMemory
    }
}

impl From<clr_types::NoMemory> for LoadFault {
    ghost from_gives = { λ _ fault. fault ≡ OutOfMemory };

    fn from(_error: clr_types::NoMemory) -> LoadFault {
        LoadFault::NoMemory
    }
}

impl<T: Drop> From<AllocFailed<T>> for LoadFault {
    ghost from_gives = { λ _ fault. fault ≡ OutOfMemory };

    fn from(_error: AllocFailed<T>) -> LoadFault {
        LoadFault::NoMemory
    }
}
