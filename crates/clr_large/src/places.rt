// Where a size fits in a segment of a kind: first fit.
ghost use Rattle.std.specs.Prelude.{◌≡◌, ◌^◌, ◌+◌, ◌<◌, ◌≤◌, length, IfSome, None, Some};
ghost use Rattle.clr_view.specs.View.{IsHeld, layout_in};
ghost use Rattle.clr_heap.specs.View.{IsHeap, segment_at};
ghost use Rattle.clr_items.specs.Items.{first_fitting};
ghost use Rattle.clr_large.specs.Places.{address_of};
ghost use Rattle.clr_large.specs.Searches.{first_of_kind, has_tail_of, IsFirstTail, IsLower, items_of_kind};

use clr_heap::{Heap, SegKind};
use clr_items::first_free;
use clr_types::{Span, Types};

/// A place for an object in the segments of a kind.
#[derive(Clone, Copy)]
pub enum Birthplace {
    /// The front of a free item of such a segment.
    Item(Span),
    /// The bytes behind the end of such a segment, by its number.
    Tail(usize),
}

/// The lower of the front of a free item and the bytes behind the end of segment `k`.
pub fn lower(heap: &Heap, item: Span, k: usize) -> Birthplace
    requires { k < length heap.now.segments }
    ensures { IsLower heap.now item k result }
{
    if item.place() < heap.info(k).end {
        Birthplace::Item(item)
    } else {
        Birthplace::Tail(k)
    }
}

/// The first free item of a segment of the kind in which a size fits, found by walks over these segments.
pub fn first_walked(heap: &Heap, types: &Types, kind: SegKind, size: u64) -> Option<Span>
    requires held { IsHeld types.now heap.now }
    requires small { size < 2 ^ 62 }
    ensures { result ≡ first_of_kind kind (layout_in types.now heap.now) size }
{
    let count = heap.segments();
    for k in 0..count {
        let found = first_if_of(heap, types, kind, k, size);
        if found.is_some() {
            return found;
        }
    }
    None
}

// The first free item of segment `k` in which a size fits, if it is of the kind.
fn first_if_of(heap: &Heap, types: &Types, kind: SegKind, k: usize, size: u64) -> Option<Span>
    requires held { IsHeld types.now heap.now }
    requires in_range { k < length heap.now.segments }
    requires small { size < 2 ^ 62 }
    ensures { result ≡ first_fitting size (items_of_kind kind types.now heap.now k) }
{
    let segment = heap.info(k);
    if segment.kind == kind {
        first_free(heap, types, k, segment.base, size)
    } else {
        None
    }
}

/// The first segment of the kind behind whose end a size fits, by its number: `None` where it fits behind the end of
/// none.
pub fn first_tail(heap: &Heap, kind: SegKind, size: u64) -> Option<usize>
    requires { size < 2 ^ 62 }
    ensures first { IsFirstTail kind heap.now size result }
    ensures heap { IsHeap heap.now }
{
    let count = heap.segments();
    for k in 0..count {
        if has_tail(heap, kind, k, size) {
            return Some(k);
        }
    }
    None
}

// Whether segment `k` is of the kind, and a size fits behind its end.
fn has_tail(heap: &Heap, kind: SegKind, k: usize, size: u64) -> bool
    requires in_range { k < length heap.now.segments }
    requires small { size < 2 ^ 62 }
    ensures { result ≡ has_tail_of kind (segment_at heap.now k) size }
{
    let segment = heap.info(k);
    segment.kind == kind && segment.end + size <= segment.base + segment.reserved
}
