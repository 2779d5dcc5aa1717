// Objects that are like one before: most objects that a walk meets in a row are of few types.
ghost use Rattle.std.specs.Prelude.{◌≡◌, ◌+◌, ◌<◌, ◌≤◌, ◌^◌, ℕ, List, length};
ghost use Rattle.clr_types.specs.Types.{TypeRow};
ghost use Rattle.clr_heap.specs.Memories.{memory_index};
ghost use Rattle.clr_heap.specs.ObjectKinds.{IsObjectKind, known_size};
ghost use Rattle.clr_heap.specs.Parts.{item_at};
ghost use Rattle.clr_heap.specs.View.{HasItem, word_of};

use crate::Item;
use crate::heap::Heap;
use clr_types::Types;
use clr_types::mark::unmarked;

/// What is known of the objects of one type without a length, marked or not.
#[derive(Clone, Copy)]
pub struct ObjectKind {
    /// The method table word without a mark. An odd one is no object's: then nothing is known.
    pub mt: u64,
    /// How many bytes each of these objects takes.
    pub size: u64,
}

impl ObjectKind {
    /// Nothing is known.
    #[inline(always)]
    pub fn none() -> ObjectKind
        ensures { (rows : List TypeRow) → IsObjectKind rows result }
    {
        ObjectKind { mt: 1, size: 0 }
    }

    /// How many bytes an object takes whose method table word is `mt`, where it is of this kind.
    #[inline(always)]
    pub fn size_with(self, mt: u64) -> Option<u64>
        ensures { result ≡ known_size self mt }
    {
        if unmarked(mt) == self.mt {
            Some(self.size)
        } else {
            None
        }
    }
}

// What is known behind an item whose method table word is `mt`: its kind, where it is an object without a length, else
// what was known.
#[inline(always)]
fn kind_behind(types: &Types, found: Item, mt: u64, known: ObjectKind) -> ObjectKind
    requires number { found.type_id.0 ≤ length types.now }
    requires known { IsObjectKind types.now known }
    requires told { (word : ℕ → ℕ) × (a : ℕ) × (found ≡ item_at types.now word a) × (mt ≡ word a) }
    ensures { IsObjectKind types.now result }
{
    if found.type_id.0 == 0 || types.has_length(found.type_id) {
        return known;
    }
    ObjectKind {
        mt: unmarked(mt),
        size: found.size,
    }
}

impl Heap {
    /// The item that starts at `a` in segment `k`, as `item` tells it; `mt` is its method table word. Where it is of
    /// the kind that is known, no table is waited for. Its kind becomes known where it is an object without a length;
    /// else what is known stays. That is for speed alone, so the clauses say only that what is known is so.
    #[inline(always)]
    pub fn item_like_word(
        &self,
        types: &Types,
        k: usize,
        a: u64,
        mt: u64,
        known: &mut ObjectKind,
    ) -> Item
        requires item { HasItem types.now self.now a }
        requires mt { mt ≡ word_of self.now a }
        requires segment { k ≡ memory_index self.now.memories (a + 8) }
        requires room { a + 8 < 2 ^ 64 }
        requires known { IsObjectKind types.now known.old }
        ensures item { result ≡ item_at types.now (word_of self.now) a }
        ensures known { IsObjectKind types.now known.new }
    {
        if let Some(size) = known.size_with(mt) {
            return Item {
                place: a,
                size,
                type_id: types.of_mt(unmarked(mt)),
                len: 0,
            };
        }
        let found = self.item_of_word(types, k, a, mt);
        *known = kind_behind(types, found, mt, *known);
        found
    }

    /// The item that starts at `a` in segment `k`, as `item_like_word` tells it, where its method table word isn't read
    /// yet.
    #[inline(always)]
    pub fn item_like_in(&self, types: &Types, k: usize, a: u64, known: &mut ObjectKind) -> Item
        requires item { HasItem types.now self.now a }
        requires segment { k ≡ memory_index self.now.memories a }
        requires behind { k ≡ memory_index self.now.memories (a + 8) }
        requires room { a + 8 < 2 ^ 64 }
        requires known { IsObjectKind types.now known.old }
        ensures item { result ≡ item_at types.now (word_of self.now) a }
        ensures known { IsObjectKind types.now known.new }
    {
        let mt = self.word_at(k, a);
        self.item_like_word(types, k, a, mt, known)
    }
}
