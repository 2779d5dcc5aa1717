// How the table of handles refuses.
ghost use Rattle.std.specs.Prelude.{◌≡◌};

use clr_mem::NoMemory;

/// The number isn't in use.
#[derive(Clone, Copy, Debug, PartialEq, Eq)]
pub struct NoHandle;

/// Why no handle was made.
#[derive(Clone, Copy, Debug, PartialEq, Eq)]
pub enum CreateFault {
    /// 65,536 handles are in use.
    TooManyHandles,
    /// There was no memory for the handle.
    NoMemory,
}

impl From<NoMemory> for CreateFault {
    ghost use Rattle.clr_handles.specs.declared.fault.CreateFault.TheVariants.{NoMemory};

    ghost from_gives = { λ _ fault. fault ≡ NoMemory };

    fn from(_: NoMemory) -> CreateFault {
        CreateFault::NoMemory
    }
}
