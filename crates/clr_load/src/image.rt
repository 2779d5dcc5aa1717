//! What an image says.
use clr_final::Finals;
use clr_format::Step;
use clr_handles::Handles;
use clr_heap::Heap;
use clr_types::Types;

/// What an image says.
#[derive(Drop)]
pub struct Image {
    /// The types, numbered from 1 in the order in which they stand in the image.
    pub types: Types,
    /// The segments with their words, and the boundaries of the generations. No thread has a context.
    pub heap: Heap,
    /// 64 words for each of 16 threads, by thread: the places of objects, and 0 for null.
    pub locals: Vec<u64>,
    /// How many bytes the segments may reserve together.
    pub limit: u64,
    /// The least size of a large object, in bytes.
    pub large: u64,
    /// Whether the next collection of all generations compacts large segments.
    pub compact_large: bool,
    /// The thread that holds all others, a number from 1 to 16, where one does.
    pub holder: Option<u64>,
    /// What each of the 16 threads has begun, by thread.
    pub steps: Vec<Step>,
    /// The handles in use.
    pub handles: Handles,
    /// The places of the objects that are to be finalised, and of those that wait for their finaliser.
    pub finals: Finals,
    /// Whether the image is of the first version.
    pub first: bool,
}
