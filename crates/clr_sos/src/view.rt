//! What the commands look at.
use clr_bricks::Bricks;
use clr_final::Finals;
use clr_handles::Handles;
use clr_heap::Heap;
use clr_types::Types;

/// What the commands look at: the types, the heap with its bricks, all that names objects from outside of it, and two
/// of its options.
#[derive(Clone, Copy)]
pub struct View<'a> {
    pub types: &'a Types,
    pub heap: &'a Heap,
    pub bricks: &'a Bricks,
    pub handles: &'a Handles,
    pub finals: &'a Finals,
    /// 64 for each of 16 threads, by thread. Null is 0.
    pub locals: &'a [u64],
    /// How many bytes the segments may reserve together.
    pub limit: u64,
    /// The bytes of an object from which on it stands in a large segment.
    pub large: u64,
}
