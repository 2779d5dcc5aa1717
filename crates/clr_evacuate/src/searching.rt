// The lowest older free item in which a size fits.
ghost use Rattle.std.specs.Prelude.{◌≡◌, ℕ, ◌+◌, ◌<◌, ◌≤◌, ◌^◌, length};
ghost use Rattle.clr_heap.specs.View.{IsHeap, last_of, listing, no_rests};
ghost use Rattle.clr_model.specs.Fitting.{lowest_item, older_items};
ghost use Rattle.clr_view.specs.View.{IsHeld, layout_in};
ghost use Rattle.clr_generations.specs.Renewing.{CanBegin};
ghost use Rattle.clr_evacuate.specs.Searching.{CanSearchFrom, free_between, HasNoRoomBelow, older_end, older_from};
ghost use Rattle.clr_evacuate.specs.Searching.{older_in};

use clr_heap::{Heap, SegKind};
use clr_items::fits_in;
use clr_types::{Span, Types};

// The lowest free item of generation 2 of the small heap at `from` or above it in which a size fits: `None` where it
// fits in none. Where it fits in none below `from`, that is the lowest of all.
//
// It reads no item below `from`, and none of a generation below 2. Where `from` is the place of one of generation 2
// in a segment, an item begins there.
pub(crate) fn find_item(heap: &Heap, types: &Types, size: u64, from: u64) -> Option<Span>
    requires held { IsHeld types.now heap.now }
    requires no_contexts { heap.now.rests ≡ no_rests }
    requires begins { CanSearchFrom types.now heap.now from }
    requires small { size < 2 ^ 62 }
    ensures heap { IsHeap heap.now }
    ensures from_there { result ≡ lowest_item size (older_from from (layout_in types.now heap.now)) }
    ensures lowest { HasNoRoomBelow size from (layout_in types.now heap.now)
        → result ≡ lowest_item size (older_items (layout_in types.now heap.now)) }
{
    let count = heap.segments();
    for k in 0..count {
        let found = find_in(heap, types, k, size, from);
        if found.is_some() {
            return found;
        }
    }
    None
}

// The lowest of those that segment `k` has.
fn find_in(heap: &Heap, types: &Types, k: usize, size: u64, from: u64) -> Option<Span>
    requires heap { IsHeap heap.now }
    requires held { IsHeld types.now heap.now }
    requires no_contexts { heap.now.rests ≡ no_rests }
    requires begins { CanSearchFrom types.now heap.now from }
    requires in_range { k < length heap.now.segments }
    requires small { size < 2 ^ 62 }
    ensures { result ≡ lowest_item size (older_in types.now heap.now k from) }
{
    let segment = heap.info(k);
    // no item stands above the segment's end, wherever the boundary is
    let end = older_end(heap, k).min(segment.end);
    let start = from.max(segment.first_place());
    if from < end {
        first_between(heap, types, k, start, end, size)
    } else {
        None
    }
}

// Where the places of generation 2 end in segment `k`: 0 where that isn't one of the small heap.
fn older_end(heap: &Heap, k: usize) -> u64
    requires { k < length heap.now.segments }
    ensures { result ≡ older_end heap.now k }
{
    let segment = heap.info(k);
    match segment.kind {
        SegKind::Small => segment.end,
        SegKind::Ephemeral => heap.boundaries().0,
        SegKind::Large | SegKind::Pinned => 0,
    }
}

// The first free item of segment `k` in which a size fits, from a place on where a walk can begin, and below another.
fn first_between(
    heap: &Heap,
    types: &Types,
    k: usize,
    start: u64,
    end: u64,
    size: u64,
) -> Option<Span>
    requires heap { IsHeap heap.now }
    requires held { IsHeld types.now heap.now }
    requires no_contexts { heap.now.rests ≡ no_rests }
    requires in_range { k < length heap.now.segments }
    requires begins { start < last_of heap.now k → CanBegin types.now heap.now k start }
    requires within { end ≤ last_of heap.now k }
    requires small { size < 2 ^ 62 }
    ensures { result ≡ lowest_item size (free_between start end (listing types.now heap.now k)) }
{
    let mut place = start;
    while place < end {
        let found = heap.item_of_word(types, k, place, heap.word_at(k, place));
        if found.type_id.0 == 0 && fits_in(size, found.size) {
            return Some(Span::between(place, place + found.size));
        }
        place += found.size;
    }
    None
}
