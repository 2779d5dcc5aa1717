// Dead objects that are like one before: most objects that a walk meets in a row are of few types.
ghost use Rattle.std.specs.Prelude.{◌≡◌, ℕ, ◌+◌, ◌<◌, ◌^◌, IfSome};
ghost use Rattle.clr_heap.specs.Memories.{memory_index};
ghost use Rattle.clr_heap.specs.Parts.{item_at};
ghost use Rattle.clr_heap.specs.View.{HasItem, word_of};
ghost use Rattle.clr_sweep.specs.Dead.{IsDeadKind, known_size};

use clr_heap::{Heap, Item};
use clr_types::{Types, mark};

/// What is known of the unmarked objects of one type without a length.
#[derive(Clone, Copy)]
pub struct DeadKind {
    /// The method table word, which has no mark.
    pub mt: u64,
    /// How many bytes each of these objects takes.
    pub size: u64,
}

/// How many bytes an item takes whose method table word is `mt`, where that is the word of the kind that is known. A
/// walk that knows it waits for no table.
#[inline(always)]
pub fn dead_size(known: Option<DeadKind>, mt: u64) -> Option<u64>
    ensures { result ≡ known_size known mt }
{
    match known {
        Some(kind) if kind.mt == mt => Some(kind.size),
        _ => None,
    }
}

/// The item at `place` in segment `k`, where `mt` is its method table word, as `Heap::item_of_word` tells it. Its kind
/// becomes known where it is an unmarked object without a length; else what is known stays. That is for speed alone, so
/// the clauses say only that what is known is so.
#[inline(always)]
pub fn item_and_kind(
    heap: &Heap,
    types: &Types,
    k: usize,
    place: u64,
    mt: u64,
    known: &mut Option<DeadKind>,
) -> Item
    requires item { HasItem types.now heap.now place }
    requires mt { mt ≡ word_of heap.now place }
    requires segment { k ≡ memory_index heap.now.memories (place + 8) }
    requires room { place + 8 < 2 ^ 64 }
    requires known { IfSome known.old (IsDeadKind types.now) }
    ensures item { result ≡ item_at types.now (word_of heap.now) place }
    ensures known { IfSome known.new (IsDeadKind types.now) }
{
    let found = heap.item_of_word(types, k, place, mt);
    if !mark::is_marked(mt) && found.type_id.0 != 0 && !types.has_length(found.type_id) {
        *known = Some(DeadKind {
            mt,
            size: found.size,
        });
    }
    found
}
