// Objects and free items in the words of the heap.
ghost use Rattle.std.specs.Prelude.{◌≡◌, ℕ, ◌+◌, ◌-◌, ◌<◌, ◌≤◌, ◌^◌, length};
ghost use Rattle.clr_heap.specs.Memories.{HasWord, memory_index};
ghost use Rattle.clr_heap.specs.Parts.{item_at, length_at, type_number};
ghost use Rattle.clr_heap.specs.View.{freed, HasHead, HasItem, placed, SameShape, word_of};

use crate::Item;
use crate::heap::Heap;
use clr_types::mark::unmarked;
use clr_types::{FREE_MT, TypeId, Types};

impl Heap {
    /// The item that starts at `a`, an object or a free item, whether it is marked or not.
    #[inline(always)]
    #[tactic(auto, unfolding(crate::specs::Parts::item_at))]
    pub fn item(&self, types: &Types, a: u64) -> Item
        requires { HasItem types.now self.now a }
        ensures { result ≡ item_at types.now (word_of self.now) a }
    {
        let type_id = types.of_mt(unmarked(self.word(a)));
        let len = length_of(self, types, a, type_id);
        let size = types.item_size(type_id, len);
        Item {
            place: a,
            size,
            type_id,
            len,
        }
    }

    /// The item that starts at `a` in segment `k`, where `mt` is its method table word: the same as `item`, faster.
    #[inline]
    #[tactic(auto, unfolding(crate::specs::Parts::item_at))]
    pub fn item_of_word(&self, types: &Types, k: usize, a: u64, mt: u64) -> Item
        requires item { HasItem types.now self.now a }
        requires mt { mt ≡ word_of self.now a }
        requires segment { k ≡ memory_index self.now.memories (a + 8) }
        requires room { a + 8 < 2 ^ 64 }
        ensures { result ≡ item_at types.now (word_of self.now) a }
    {
        let type_id = types.of_mt(unmarked(mt));
        let len = length_in_segment(self, types, k, a, type_id);
        let size = types.item_size(type_id, len);
        Item {
            place: a,
            size,
            type_id,
            len,
        }
    }

    /// Writes the head of an object of type `t` at `a`: a header of 0, the method table word, and the length where the
    /// type has one. All other words stay.
    #[inline(always)]
    #[tactic(auto, using(crate::proofs::Rules::writes), unfolding(crate::specs::View::placed))]
    pub fn make_object(&mut self, types: &Types, a: u64, t: TypeId, len: u64)
        requires known { t.0 ≤ length types.now }
        requires head { HasHead self.old a }
        ensures words { self.new ≡ placed types.now self.old a t.0 len }
        ensures shape { SameShape self.old self.new }
    {
        self.set_word(a - 8, 0);
        self.set_word(a, types.mt(t));
        if types.has_length(t) {
            self.set_word(a + 8, len);
        }
    }

    /// Writes the head of a free item of `size` bytes at `a`: a header of 0, the method table word, and the length.
    /// All other words stay.
    #[tactic(auto, using(crate::proofs::Rules::writes), unfolding(crate::specs::View::placed))]
    pub fn make_free(&mut self, a: u64, size: u64)
        requires least { 24 ≤ size }
        requires head { HasHead self.old a }
        ensures words { self.new ≡ freed self.old a size }
        ensures shape { SameShape self.old self.new }
    {
        self.set_word(a - 8, 0);
        self.set_word(a, FREE_MT);
        self.set_word(a + 8, size - 24);
    }
}

// The length of the item at `a`, 0 where its type has none.
#[inline(always)]
#[tactic(auto, unfolding(crate::specs::Parts::length_at))]
fn length_of(heap: &Heap, types: &Types, a: u64, type_id: TypeId) -> u64
    requires room { a + 8 < 2 ^ 64 }
    requires known { type_id.0 ≤ length types.now }
    requires number { type_id.0 ≡ type_number (word_of heap.now a) }
    requires len_word { HasWord heap.now.memories (a + 8) }
    ensures { result ≡ length_at types.now (word_of heap.now) a }
{
    if types.has_length(type_id) {
        heap.word(a + 8)
    } else {
        0
    }
}

// The length of the item at `a` in segment `k`, 0 where its type has none.
#[inline]
#[tactic(auto, unfolding(crate::specs::Parts::length_at))]
fn length_in_segment(heap: &Heap, types: &Types, k: usize, a: u64, type_id: TypeId) -> u64
    requires room { a + 8 < 2 ^ 64 }
    requires known { type_id.0 ≤ length types.now }
    requires number { type_id.0 ≡ type_number (word_of heap.now a) }
    requires len_word { HasWord heap.now.memories (a + 8) }
    requires segment { k ≡ memory_index heap.now.memories (a + 8) }
    ensures { result ≡ length_at types.now (word_of heap.now) a }
{
    if types.has_length(type_id) {
        heap.word_at(k, a + 8)
    } else {
        0
    }
}
