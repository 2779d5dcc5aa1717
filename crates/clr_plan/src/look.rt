// A look at one item: its size, and the plug that it is alone where it stays.
ghost use Rattle.std.specs.Prelude.{◌≡◌, ℕ, ◌+◌, ◌-◌, ◌<◌, ◌≤◌, ◌^◌, ◌&&◌, Option};
ghost use Rattle.clr_heap.specs.Memories.{HasWord, memory_index};
ghost use Rattle.clr_heap.specs.ObjectKinds.{IsObjectKind};
ghost use Rattle.clr_heap.specs.Parts.{item_at};
ghost use Rattle.clr_heap.specs.View.{HasItem, segment_at, word_of};
ghost use Rattle.clr_view.specs.Marks.{has_mark};
ghost use Rattle.clr_view.specs.View.{is_object};
ghost use Rattle.clr_plan.specs.Scans.{CanLook, kept_plug, plug_alone};

use crate::plug::Plug;
use clr_heap::{Heap, ObjectKind};
use clr_types::{Types, header, mark};

/// An item's size, the plug that it is alone, where it is a marked object, and whether it is an object at all.
#[derive(Clone, Copy)]
pub struct Seen {
    pub size: u64,
    pub kept: Option<Plug>,
    pub is_object: bool,
}

// An item's size, and whether it is an object.
#[derive(Clone, Copy)]
struct Told {
    size: u64,
    is_object: bool,
}

/// The item at a place of segment `k`, which begins at `base`.
#[inline(always)]
pub fn look(
    heap: &Heap,
    types: &Types,
    k: usize,
    base: u64,
    place: u64,
    known: &mut ObjectKind,
) -> Seen
    requires base { base ≡ (segment_at heap.now k).base }
    requires can { CanLook types.now heap.now k place }
    requires known { IsObjectKind types.now known.old }
    ensures size { result.size ≡ (item_at types.now (word_of heap.now) place).size }
    ensures kept { result.kept ≡ kept_plug heap.now k (item_at types.now (word_of heap.now) place) }
    ensures object { result.is_object ≡ is_object (item_at types.now (word_of heap.now) place) }
    ensures known { IsObjectKind types.now known.new }
{
    let mt = heap.word_at(k, place);
    let told = tell(heap, types, k, place, mt, known);
    let kept = if is_kept(told, mt) {
        Some(plug_at(heap, k, base, place, told.size))
    } else {
        None
    };
    Seen {
        size: told.size,
        kept,
        is_object: told.is_object,
    }
}

// What the method table word `mt` of the item at a place tells. Where it is that of the kind that is known, marked or
// not, no table is waited for. Its kind becomes known where it is an object without a length; else what is known stays.
#[inline(always)]
fn tell(heap: &Heap, types: &Types, k: usize, place: u64, mt: u64, known: &mut ObjectKind) -> Told
    requires item { HasItem types.now heap.now place }
    requires mt { mt ≡ word_of heap.now place }
    requires segment { k ≡ memory_index heap.now.memories (place + 8) }
    requires room { place + 8 < 2 ^ 64 }
    requires known { IsObjectKind types.now known.old }
    ensures size { result.size ≡ (item_at types.now (word_of heap.now) place).size }
    ensures object { result.is_object ≡ is_object (item_at types.now (word_of heap.now) place) }
    ensures known { IsObjectKind types.now known.new }
{
    if let Some(size) = known.size_with(mt) {
        return Told {
            size,
            is_object: true,
        };
    }
    let found = heap.item_of_word(types, k, place, mt);
    let is_object = found.type_id.0 != 0;
    if is_object && !types.has_length(found.type_id) {
        *known = ObjectKind {
            mt: mark::unmarked(mt),
            size: found.size,
        };
    }
    Told {
        size: found.size,
        is_object,
    }
}

// The plug that the marked object of this size at a place is, where it is alone.
#[inline(always)]
fn plug_at(heap: &Heap, k: usize, base: u64, place: u64, size: u64) -> Plug
    requires base { base ≡ (segment_at heap.now k).base }
    requires header { HasWord heap.now.memories (place - 8) }
    requires header_in { k ≡ memory_index heap.now.memories (place - 8) }
    requires above { 8 ≤ place }
    requires room { place + size < 2 ^ 64 }
    ensures { result ≡ plug_alone heap.now k place size }
{
    let pinned = header::is_pinned(heap.word_at(k, place - 8));
    Plug::of_object(place, size, base, heap.gen_of(place), pinned)
}

// Whether an item with this method table word stays: it is an object, and marked.
#[inline(always)]
fn is_kept(told: Told, mt: u64) -> bool
    ensures { result ≡ (told.is_object && has_mark mt) }
{
    told.is_object && mark::is_marked(mt)
}
