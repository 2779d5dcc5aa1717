//! What an image is made of.
use clr_final::Finals;
use clr_format::Step;
use clr_handles::Handles;
use clr_heap::Heap;
use clr_types::Types;

/// The state of a heap that is saved: the types, the heap, all that names objects from outside of it, what threads have
/// begun, and the options that an image tells.
#[derive(Clone, Copy)]
pub struct Snapshot<'a> {
    pub types: &'a Types,
    pub heap: &'a Heap,
    pub handles: &'a Handles,
    pub finals: &'a Finals,
    /// 64 for each of 16 threads, by thread. Null is 0.
    pub locals: &'a [u64],
    /// How many bytes the segments may reserve together.
    pub limit: u64,
    /// The least size of a large object, in bytes.
    pub large: u64,
    /// Whether the next collection of all generations compacts large segments.
    pub compact_large: bool,
    /// The thread that holds all others.
    pub holder: Option<u64>,
    /// What each of 16 threads has begun, by thread.
    pub steps: &'a [Step],
}
