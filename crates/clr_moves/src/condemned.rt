// The parts of segments that are compacted.
ghost use Rattle.std.specs.Prelude.{◌≡◌, ℕ, ◌+◌, ◌<◌, ◌≤◌, ◌^◌, true, false, length};
ghost use Rattle.clr_heap.specs.View.{segment_at};
ghost use Rattle.clr_moves.specs.Moves.{part_of, takes};
ghost use Rattle.clr_moves.specs.declared.condemned.Condemned.TheVariants.{Generations};

use clr_heap::Heap;
use clr_types::{FIRST_OFFSET, SegInfo, SegKind};

/// The parts of segments that a compaction goes over.
#[derive(Clone, Copy, Debug, PartialEq, Eq)]
pub enum Condemned {
    /// Those of the generations up to this one, in the ephemeral segment and, for generation 2, in small ones.
    Generations(u8),
    /// Whole large segments.
    LargeSegments,
}

/// The number of the first segment from `start` on that has a part, or the number of segments where none has.
pub fn next_part(heap: &Heap, g: Condemned, start: usize) -> usize
    requires { start ≤ length heap.now.segments }
    ensures above { start ≤ result }
    ensures within { result ≤ length heap.now.segments }
    ensures takes { result < length heap.now.segments → takes g (segment_at heap.now result) ≡ true }
    ensures none { (t : ℕ) → start ≤ t → t < result → takes g (segment_at heap.now t) ≡ false }
{
    let mut found = start;
    while found < heap.segments() && !takes_part(g, heap.info(found)) {
        found += 1;
    }
    found
}

/// Whether a segment has a part.
pub fn takes_part(g: Condemned, segment: SegInfo) -> bool
    ensures { result ≡ takes g segment }
{
    match g {
        Condemned::Generations(oldest) => takes_generations(oldest, segment),
        Condemned::LargeSegments => segment.kind == SegKind::Large,
    }
}

// Whether a segment has a part in a collection of the generations up to `g`.
fn takes_generations(g: u8, segment: SegInfo) -> bool
    ensures { result ≡ takes (Generations g) segment }
{
    match segment.kind {
        SegKind::Small => g == 2,
        SegKind::Ephemeral => true,
        SegKind::Large | SegKind::Pinned => false,
    }
}

/// The place where the part of segment `k` starts.
pub fn part_start(heap: &Heap, g: Condemned, k: usize) -> u64
    requires { k < length heap.now.segments }
    ensures { result ≡ part_of heap.now g k }
{
    match g {
        Condemned::Generations(oldest) => generations_start(heap, oldest, k),
        Condemned::LargeSegments => heap.info(k).base + FIRST_OFFSET,
    }
}

// The place where the part of segment `k` starts in a collection of the generations up to `g`.
fn generations_start(heap: &Heap, g: u8, k: usize) -> u64
    requires { k < length heap.now.segments }
    ensures { result ≡ part_of heap.now (Generations g) k }
{
    let segment = heap.info(k);
    let (start1, start0) = heap.boundaries();
    if segment.kind == SegKind::Ephemeral && g == 0 {
        start0
    } else if segment.kind == SegKind::Ephemeral && g == 1 {
        start1
    } else {
        segment.base + FIRST_OFFSET
    }
}
