//! Why a command shows nothing.
ghost use Rattle.std.specs.Prelude.{◌≡◌};

use std::alloc::AllocError;

/// Why a command shows nothing.
#[derive(Clone, Copy, Debug, PartialEq, Eq)]
pub enum SosFault {
    /// No type has this name, or this method table word.
    UnknownType,
    /// No object has this place.
    NoObject,
    /// There was no memory for the text.
    NoMemory,
}

impl From<AllocError> for SosFault {
    ghost use Rattle.clr_sos.specs.declared.fault.SosFault.TheVariants.{NoMemory};

    ghost from_gives = { λ _ fault. fault ≡ NoMemory };

    fn from(_: AllocError) -> SosFault {
        SosFault::NoMemory
    }
}
