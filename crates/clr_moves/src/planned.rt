// What a plan answers.
ghost use Rattle.std.specs.Prelude.{◌≡◌};

use clr_heap::Heap;

/// The boundaries of the generations after a compaction, and the entries of bricks
/// that a plan has overwritten.
#[derive(Clone, Copy, Debug, PartialEq, Eq)]
pub struct Planned {
    /// The place where generation 1 begins.
    pub start1: u64,
    /// The place where generation 0 begins.
    pub start0: u64,
    /// The entry that the brick below the first one of the ephemeral segment's part had.
    pub below: i16,
    /// The entry that the first brick of that part had.
    pub first: i16,
}

impl Planned {
    /// The answer of a plan after which the generations begin where they do now, and which has overwritten no entry.
    pub fn unmoved(heap: &Heap) -> Planned
        ensures start1 { result.start1 ≡ heap.now.start1 }
        ensures start0 { result.start0 ≡ heap.now.start0 }
    {
        let (start1, start0) = heap.boundaries();
        Planned {
            start1,
            start0,
            below: 0,
            first: 0,
        }
    }
}
