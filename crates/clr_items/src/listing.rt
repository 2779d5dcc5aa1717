// Free items, listed by a walk.
ghost use Rattle.std.specs.Prelude.{◌≡◌, ℕ, ◌+◌, ◌<◌, ◌^◌, ◌++◌, [], ◌∷◌, length, true};
ghost use Rattle.clr_heap.specs.Memories.{memory_index};
ghost use Rattle.clr_heap.specs.ObjectKinds.{IsObjectKind};
ghost use Rattle.clr_heap.specs.Parts.{item_at};
ghost use Rattle.clr_heap.specs.View.{HasItem, word_of};
ghost use Rattle.clr_view.specs.View.{free_among};
ghost use Rattle.clr_sweep.specs.SweptItems.{items_from};
ghost use Rattle.clr_sweep.specs.SweptSegments.{IsParted};
ghost use Rattle.clr_items.specs.Items.{HasNoRests};

use crate::items::FreeItems;
use clr_heap::{Heap, Item, ObjectKind};
use clr_types::{FREE_MT, Span, TypeId, Types};

/// Adds the free items of segment `k` from `from` on to a list: `false` where there is no memory for all of them.
pub fn list_free(heap: &Heap, types: &Types, k: usize, from: u64, items: &mut FreeItems) -> bool
    requires in_range { k < length heap.now.segments }
    requires parted { IsParted types.now heap.now k from }
    requires no_contexts { HasNoRests heap.now k }
    ensures { result ≡ true → items.new.items ≡ items.old.items ++ free_among (items_from types.now heap.now k from) }
{
    let end = heap.info(k).end;
    let mut known = ObjectKind::none();
    let mut place = from;
    while place < end {
        let found = item_like_in(heap, types, k, place, &mut known);
        if !add_free(items, found) {
            return false;
        }
        place += found.size;
    }
    true
}

// The item at `place` in segment `k`, as `Heap::item_like_in` tells it. The size of a free item is read off its length.
#[inline(always)]
fn item_like_in(heap: &Heap, types: &Types, k: usize, place: u64, known: &mut ObjectKind) -> Item
    requires item { HasItem types.now heap.now place }
    requires first { k ≡ memory_index heap.now.memories place }
    requires second { k ≡ memory_index heap.now.memories (place + 8) }
    requires room { place + 8 < 2 ^ 64 }
    requires known { IsObjectKind types.now known.old }
    ensures item { result ≡ item_at types.now (word_of heap.now) place }
    ensures known { IsObjectKind types.now known.new }
{
    let mt = heap.word_at(k, place);
    if mt == FREE_MT {
        return free_item(place, heap.word_at(k, place + 8));
    }
    heap.item_like_word(types, k, place, mt, known)
}

// The free item at `place` that gives this length.
#[inline(always)]
fn free_item(place: u64, len: u64) -> Item
    requires { 24 + len < 2 ^ 64 }
    ensures { result ≡ record { place = place; size = 24 + len; type_id = record { 0 = 0 }; len = len } }
{
    Item {
        place,
        size: 24 + len,
        type_id: TypeId(0),
        len,
    }
}

// Adds an item to a list where it is free: `false` where there is no memory for it.
#[inline]
fn add_free(items: &mut FreeItems, found: Item) -> bool
    requires { found.place + found.size < 2 ^ 64 }
    ensures { result ≡ true → items.new.items ≡ items.old.items ++ free_among (found ∷ []) }
{
    if found.type_id.0 == 0 {
        let item = Span::between(found.place, found.place + found.size);
        items.push_back(item)
    } else {
        true
    }
}
