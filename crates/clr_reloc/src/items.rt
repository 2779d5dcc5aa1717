// Items, as the heap's words and the saved ones tell them together.
ghost use Rattle.std.specs.Prelude.{◌≡◌, ℕ, ◌+◌, ◌<◌, ◌≤◌, ◌^◌, length};
ghost use Rattle.clr_heap.specs.Memories.{HasWord, memory_index};
ghost use Rattle.clr_heap.specs.Parts.{item_at, length_at, NamesItem, type_number};
ghost use Rattle.clr_heap.specs.View.{word_of};
ghost use Rattle.clr_pinq.specs.Queue.{logical};

use clr_heap::{Heap, Item};
use clr_pinq::PinQueue;
use clr_types::{TypeId, Types, mark};

// The item that starts at `place` in segment `k`, where `mt` is its method table word.
#[tactic(auto, unfolding(clr_heap::specs::Parts::item_at))]
pub(crate) fn logical_item(
    heap: &Heap,
    types: &Types,
    pins: &PinQueue,
    k: usize,
    near: usize,
    place: u64,
    mt: u64,
) -> Item
    requires names { NamesItem types.now (logical pins.now.entries (word_of heap.now)) place }
    requires word { mt ≡ logical pins.now.entries (word_of heap.now) place }
    requires len { HasWord heap.now.memories (place + 8) }
    requires segment { k ≡ memory_index heap.now.memories (place + 8) }
    requires room { place + 8 < 2 ^ 64 }
    ensures { result ≡ item_at types.now (logical pins.now.entries (word_of heap.now)) place }
{
    let type_id = types.of_mt(mark::unmarked(mt));
    let len = logical_length(heap, types, pins, k, near, place, type_id);
    let size = types.item_size(type_id, len);
    Item {
        place,
        size,
        type_id,
        len,
    }
}

// The length of the item at `place` in segment `k`, 0 where its type has none.
#[tactic(auto, unfolding(clr_heap::specs::Parts::length_at))]
fn logical_length(
    heap: &Heap,
    types: &Types,
    pins: &PinQueue,
    k: usize,
    near: usize,
    place: u64,
    type_id: TypeId,
) -> u64
    requires room { place + 8 < 2 ^ 64 }
    requires known { type_id.0 ≤ length types.now }
    requires number { type_id.0 ≡ type_number (logical pins.now.entries (word_of heap.now) place) }
    requires len { HasWord heap.now.memories (place + 8) }
    requires segment { k ≡ memory_index heap.now.memories (place + 8) }
    ensures { result ≡ length_at types.now (logical pins.now.entries (word_of heap.now)) place }
{
    if types.has_length(type_id) {
        pins.logical_word_at(heap, k, near, place + 8)
    } else {
        0
    }
}
