// Whether a place is in a part.
ghost use Rattle.std.specs.Prelude.{◌≡◌, ◌⊎◌, ℕ, ◌+◌, ◌<◌, ◌≤◌, true, false, length};
ghost use Rattle.clr_types.specs.Segments.{ephemeral, stands_in};
ghost use Rattle.clr_heap.specs.View.{first_of, frame, IsHeap, segment_at};
ghost use Rattle.clr_moves.specs.Moves.{age_of, IsInPart, part_of, takes};
ghost use Rattle.clr_moves.specs.declared.condemned.Condemned.TheVariants.{Generations, LargeSegments};

use crate::condemned::Condemned;
use clr_heap::Heap;
use clr_types::{FIRST_OFFSET, SegKind};

// Whether a place is in a part.
#[inline]
pub(crate) fn is_in_part(heap: &Heap, g: Condemned, place: u64) -> bool
    requires heap { IsHeap heap.now }
    requires least { age_of g ≤ 2 }
    requires starts { (t : ℕ) → t < length heap.now.segments → takes g (segment_at heap.now t) ≡ true
        → first_of heap.now t ≤ part_of heap.now g t }
    ensures inside { result ≡ true → (t : ℕ) × IsInPart heap.now g t place }
    ensures outside { result ≡ false → (t : ℕ) → IsInPart heap.now g t place → ⊥ }
{
    match g {
        Condemned::Generations(oldest) => is_in_generations(heap, oldest, place),
        Condemned::LargeSegments => is_in_large(heap, place),
    }
}

// Whether a place is in a part of the generations up to `g`. For less than 2 generations no search is needed.
#[inline]
fn is_in_generations(heap: &Heap, g: u8, place: u64) -> bool
    requires heap { IsHeap heap.now }
    requires least { g ≤ 2 }
    requires starts { (t : ℕ) → t < length heap.now.segments → takes (Generations g) (segment_at heap.now t) ≡ true
        → first_of heap.now t ≤ part_of heap.now (Generations g) t }
    ensures inside { result ≡ true → (t : ℕ) × IsInPart heap.now (Generations g) t place }
    ensures outside { result ≡ false → (t : ℕ) → IsInPart heap.now (Generations g) t place → ⊥ }
{
    if !heap.is_ephemeral(place) {
        return g == 2 && is_in_small(heap, place);
    }
    let (start1, start0) = heap.boundaries();
    match g {
        0 => start0 <= place,
        1 => start1 <= place,
        _ => true,
    }
}

// Whether a place outside the ephemeral segment is in a small one. It stands apart, since it searches.
#[inline(never)]
fn is_in_small(heap: &Heap, place: u64) -> bool
    requires heap { IsHeap heap.now }
    requires away { stands_in (ephemeral (frame heap.now)) place ≡ false }
    ensures inside { result ≡ true → (t : ℕ) × IsInPart heap.now (Generations 2) t place }
    ensures outside { result ≡ false → (t : ℕ) → IsInPart heap.now (Generations 2) t place → ⊥ }
{
    let segment = heap.info(segment_below(heap, place));
    match segment.kind {
        SegKind::Small => segment.base + FIRST_OFFSET <= place
            && place < segment.base + segment.reserved,
        SegKind::Ephemeral => false,
        SegKind::Large => false,
        SegKind::Pinned => false,
    }
}

// Whether a place is in a large segment. It stands apart, since it searches.
#[inline(never)]
fn is_in_large(heap: &Heap, place: u64) -> bool
    requires { IsHeap heap.now }
    ensures inside { result ≡ true → (t : ℕ) × IsInPart heap.now LargeSegments t place }
    ensures outside { result ≡ false → (t : ℕ) → IsInPart heap.now LargeSegments t place → ⊥ }
{
    let segment = heap.info(segment_below(heap, place));
    match segment.kind {
        SegKind::Small => false,
        SegKind::Ephemeral => false,
        SegKind::Large => segment.base + FIRST_OFFSET <= place
            && place < segment.base + segment.reserved,
        SegKind::Pinned => false,
    }
}

// The number of the last segment that begins at a place or below it, and 0 where none does.
pub(crate) fn segment_below(heap: &Heap, place: u64) -> usize
    requires { IsHeap heap.now }
    ensures in_range { result < length heap.now.segments }
    ensures below { (result ≡ 0) ⊎ ((segment_at heap.now result).base ≤ place) }
    ensures above { (t : ℕ) → result < t → t < length heap.now.segments → place < (segment_at heap.now t).base }
{
    let mut low = 0;
    let mut high = heap.segments();
    while low + 1 < high {
        let middle = low + (high - low) / 2;
        if heap.info(middle).base <= place {
            low = middle;
        } else {
            high = middle;
        }
    }
    low
}
