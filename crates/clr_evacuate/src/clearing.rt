// Forwards are taken away.
ghost use Rattle.std.specs.Prelude.{◌≡◌, ℕ, ◌+◌, ◌<◌, ◌≤◌, ◌^◌, length};
ghost use Rattle.clr_heap.specs.Memories.{memory_index};
ghost use Rattle.clr_heap.specs.Parts.{item_at};
ghost use Rattle.clr_heap.specs.View.{frame, HasItem, heap_items, IsHeap, last_of, no_rests, SameShape, word_of};
ghost use Rattle.clr_types.specs.Rising.{IsIn};
ghost use Rattle.clr_view.specs.Clean.{AreClean};
ghost use Rattle.clr_view.specs.View.{AreFreeHeads, IsHeld, KeepsObjects, layout_in, objects_in};
ghost use Rattle.clr_evacuate.specs.Forwards.{HasForwards};
ghost use Rattle.clr_evacuate.specs.Forwarding.{AreCleared, HasOlderBorder, IsBetween, IsBorderAt, IsUnmovedOutside};

use clr_heap::Heap;
use clr_types::Types;

// Takes the forwards away from the free items of generation 1, where nothing else went: the heads of all free items
// are those of free space again. All else stays. It reads no item of another generation.
pub(crate) fn clear_forwards(heap: &mut Heap, types: &Types)
    requires held { IsHeld types.now heap.old }
    requires no_contexts { heap.old.rests ≡ no_rests }
    requires border { HasOlderBorder (frame heap.old) (heap_items types.now heap.old) }
    ensures free_heads { (go : ℕ → ℕ) → HasForwards types.now heap.old go
        → IsUnmovedOutside go heap.old.start1 heap.old.start0 → AreFreeHeads types.now heap.new }
    ensures objects { objects_in types.now heap.new ≡ objects_in types.now heap.old }
    ensures items { heap_items types.now heap.new ≡ heap_items types.now heap.old }
    ensures layout { layout_in types.now heap.new ≡ layout_in types.now heap.old }
    ensures cells { KeepsObjects types.now heap.old heap.new }
    ensures clean { AreClean types.now heap.old → AreClean types.now heap.new }
    ensures shape { SameShape heap.old heap.new }
    ensures held { IsHeld types.now heap.new }
{
    let k = heap.ephemeral();
    let (start1, start0) = heap.boundaries();
    clear_between(heap, types, k, start1, start0);
}

// Takes the forwards away from the free items of segment `k` from `from` to `end`, and from no others but the last item
// that begins below that.
fn clear_between(heap: &mut Heap, types: &Types, k: usize, from: u64, end: u64)
    requires heap { IsHeap heap.old }
    requires held { IsHeld types.now heap.old }
    requires no_contexts { heap.old.rests ≡ no_rests }
    requires in_range { k < length heap.old.segments }
    requires border { IsBorderAt types.now heap.old k from }
    requires within { end ≤ last_of heap.old k }
    ensures { (to : ℕ) × (end ≤ to) × AreCleared types.now heap.old heap.new (λ a. IsBetween from to a) }
{
    let mut place = from;
    while place < end {
        place += clear_item(heap, types, k, place);
    }
}

// Takes the forward away from the item at `place` of segment `k`, where that is free. Answers the item's size.
fn clear_item(heap: &mut Heap, types: &Types, k: usize, place: u64) -> u64
    requires heap { IsHeap heap.old }
    requires held { IsHeld types.now heap.old }
    requires head { HasItem types.now heap.old place }
    requires listed { IsIn (item_at types.now (word_of heap.old) place) (heap_items types.now heap.old) }
    requires mt_in { k ≡ memory_index heap.old.memories place }
    requires len_in { k ≡ memory_index heap.old.memories (place + 8) }
    requires room { place + 8 < 2 ^ 64 }
    ensures size { result ≡ (item_at types.now (word_of heap.old) place).size }
    ensures cleared { AreCleared types.now heap.old heap.new
        (λ a. IsBetween place (place + (item_at types.now (word_of heap.old) place).size) a) }
{
    let found = heap.item_of_word(types, k, place, heap.word_at(k, place));
    if found.type_id.0 == 0 {
        heap.set_word(place - 8, 0);
    }
    found.size
}
