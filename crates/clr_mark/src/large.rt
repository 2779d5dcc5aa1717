// Marking all objects of large segments.
ghost use Rattle.std.specs.Prelude.{◌≡◌, ◌||◌, ℕ, ◌<◌, length};
ghost use Rattle.clr_types.specs.Rising.{IsIn};
ghost use Rattle.clr_types.specs.Segments.{same_kind};
ghost use Rattle.clr_heap.specs.Parts.{item_at};
ghost use Rattle.clr_heap.specs.View.{HasItem, IsHeap, listing, word_of};
ghost use Rattle.clr_model.specs.Machine.{Object};
ghost use Rattle.clr_view.specs.Memory.{is_marked};
ghost use Rattle.clr_view.specs.View.{IsHeld, objects_in};
ghost use Rattle.clr_mark.specs.LargeMarks.{HasItemMark, is_large_place, IsKeptOutside, KeepsMarks, with_item_mark};
ghost use Rattle.clr_mark.specs.Marks.{IsRemarked};

use clr_heap::Heap;
use clr_types::{FIRST_OFFSET, SegKind, Types, mark};

/// Marks all objects of large segments, for a slide that takes all of them along. All else stays, marks of other
/// objects included.
pub fn mark_large(heap: &mut Heap, types: &Types)
    requires { IsHeld types.now heap.old }
    ensures words { IsRemarked types.now heap.old heap.new }
    ensures marked { (o : Object) → IsIn o (objects_in types.now heap.old)
        → is_marked heap.new o ≡ (is_large_place heap.old o.place || is_marked heap.old o) }
{
    let count = heap.segments();
    for k in 0..count {
        if is_large(heap.info(k).kind) {
            mark_segment(heap, types, k);
        }
    }
}

// Whether a segment of this kind holds large objects.
fn is_large(kind: SegKind) -> bool
    ensures { result ≡ same_kind SegKind.Large kind }
{
    kind == SegKind::Large
}

// Marks the objects of segment `k`.
fn mark_segment(heap: &mut Heap, types: &Types, k: usize)
    requires heap { IsHeap heap.old }
    requires held { IsHeld types.now heap.old }
    requires in_range { k < length heap.old.segments }
    ensures words { IsRemarked types.now heap.old heap.new }
    ensures kept { KeepsMarks heap.old heap.new }
    ensures outside { IsKeptOutside heap.old heap.new k }
    ensures marked { (i : _) → IsIn i (listing types.now heap.old k) → HasItemMark heap.new i }
{
    let segment = heap.info(k);
    let mut place = segment.base + FIRST_OFFSET;
    while place < segment.end {
        match heap.hole_end(k, place) {
            Some(hole_end) => place = hole_end,
            None => place += mark_item(heap, types, place),
        }
    }
}

// Marks the item at `place`, where that isn't free, and answers its size.
fn mark_item(heap: &mut Heap, types: &Types, place: u64) -> u64
    requires { HasItem types.now heap.old place }
    ensures size { result ≡ (item_at types.now (word_of heap.old) place).size }
    ensures heap { heap.new ≡ with_item_mark heap.old (item_at types.now (word_of heap.old) place) }
{
    let found = heap.item(types, place);
    if found.type_id.0 != 0 {
        let word = heap.word(found.place);
        heap.set_word(found.place, mark::unmarked(word) + 1);
    }
    found.size
}
