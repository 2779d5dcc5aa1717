//! What a thread has begun.
ghost use Rattle.std.specs.Prelude.{◌≡◌};
ghost use Rattle.clr_model.specs.Lookups.{is_step};
ghost use Rattle.clr_safe.specs.Threads.{step_by};

use clr_types::TypeId;

/// What a thread has begun and not finished.
#[derive(Clone, Copy, Debug, PartialEq, Eq)]
pub enum Begun {
    /// Nothing: the thread is at a safe point.
    Nothing,
    /// Slot `slot` of the object with the place `object` has a new reference, and its card isn't set yet.
    Store {
        object: u64,
        slot: u64,
    },
    /// There is room in the thread's context for an object of this type, with `len` elements where it is an array,
    /// which the local is to take. With `finalizer` there is room for its finalisation entry, too.
    Birth {
        type_id: TypeId,
        len: u64,
        local: u64,
        finalizer: bool,
    },
}

impl Begun {
    /// Whether this is half a step: a thread that has begun it is in mid-step.
    #[inline]
    pub fn is_step(&self) -> bool
        ensures { result ≡ is_step (step_by self.now) }
    {
        match self {
            Begun::Nothing => false,
            Begun::Store { .. } | Begun::Birth { .. } => true,
        }
    }
}
