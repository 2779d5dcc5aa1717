//! What threads have begun and not finished.
use clr_types::TypeId;

/// What a thread has begun and not finished.
#[derive(Clone, Copy, Debug, PartialEq, Eq)]
pub enum Step {
    /// Nothing.
    Idle,
    /// A store into slot `slot` of the object with the place `object`.
    Store {
        object: u64,
        slot: u64,
    },
    /// An object of this type with `len` elements, 0 where it is no array. `local` is the number of the thread's local
    /// that is to take it, and `front` the place at which it is to stand.
    Begun {
        type_id: TypeId,
        len: u64,
        local: u64,
        front: u64,
    },
}
