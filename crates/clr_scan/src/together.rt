// Marking what many words of an older object name. The condemned objects among it are gathered first, and then marked
// together, so that the loads of their method table words overlap: marked one by one, each would be a wait.
ghost use Rattle.std.specs.Prelude.{◌≡◌, ◌≢◌, ℕ, ◌+◌, ◌*◌, ◌<◌, ◌≤◌, ◌⊎◌, not, ◌&&◌, ◌==◌, nat_lt, true, false, []};
ghost use Rattle.std.specs.Prelude.{length};
ghost use Rattle.clr_types.specs.Rising.{IsIn};
ghost use Rattle.clr_types.specs.Segments.{generation};
ghost use Rattle.clr_heap.specs.Memories.{memory_index};
ghost use Rattle.clr_heap.specs.View.{frame, heap_items, word_of};
ghost use Rattle.clr_view.specs.Marks.{Marked};
ghost use Rattle.clr_mark.specs.Marks.{is_condemned_place, IsClosed};
ghost use Rattle.clr_mark.specs.Waiting.{IsGray};
ghost use Rattle.clr_scan.specs.References.{IsNamedByOlder, IsQuiet, IsReferenceOf};
ghost use Rattle.clr_scan.specs.Scans.{AreGathered, HasScanned, IsTraced};

use crate::slots::{Older, looked_for, pass_words};
use clr_heap::Heap;
use clr_mark::{Marker, Targets};
use clr_types::Types;

// What at least as many words in a row name is marked together. A card has 256.
pub(crate) const MANY: u64 = 32;

// Marks what references of an older object name, in the words from number `from` up to `to`, of which number 0 stands
// at `first`. It answers whether one of them names an object of a lower generation.
#[inline(never)]
pub(crate) fn scan_together(
    marker: &mut Marker,
    heap: &mut Heap,
    types: &Types,
    older: Older,
    first: u64,
    from: u64,
    to: u64,
) -> bool
    requires gray { IsGray types.now heap.old marker.old }
    requires listed { IsIn older.item (heap_items types.now heap.old) }
    requires references { (j : ℕ) → j < to → IsReferenceOf types.now older.item (first + 8 * j) }
    requires order { from ≤ to }
    requires segment { older.segment ≡ memory_index heap.old.memories older.item.place }
    requires age { older.age ≡ generation (frame heap.old) older.item.place }
    requires older { is_condemned_place heap.old marker.old.oldest older.item.place ≡ false }
    ensures gray { IsGray types.now heap.new marker.new }
    ensures scanned { HasScanned types.now heap.old heap.new marker.old marker.new }
    ensures traced { (j : ℕ) → from ≤ j → j < to
        → IsTraced heap.old types.now heap.new marker.old.oldest (first + 8 * j) }
    ensures silent { ((j : ℕ) → from ≤ j → j < to → IsQuiet heap.old older.age (first + 8 * j)) → result ≡ false }
    ensures clear { result ≡ false → (j : ℕ) → from ≤ j → j < to → IsQuiet heap.old older.age (first + 8 * j) }
{
    let mut targets = Targets::new();
    let mut younger = false;
    let mut at = from;
    while at < to {
        let oldest = marker.oldest();
        let (met, below) = gather_named(heap, types, older, first, at, to, oldest, &mut targets);
        mark_gathered(marker, heap, types, &mut targets);
        younger |= below;
        at = met;
    }
    younger
}

// Gathers the condemned objects that references of an older object name, in the words from number `from` up to `to`, as
// long as there is room. It answers the number of the first word that it didn't look at, and whether one before it
// names an object of a lower generation.
#[inline(always)]
fn gather_named(
    heap: &Heap,
    types: &Types,
    older: Older,
    first: u64,
    from: u64,
    to: u64,
    oldest: u8,
    targets: &mut Targets,
) -> (u64, bool)
    requires closed { IsClosed types.now heap.now }
    requires listed { IsIn older.item (heap_items types.now heap.now) }
    requires references { (j : ℕ) → j < to → IsReferenceOf types.now older.item (first + 8 * j) }
    requires order { from ≤ to }
    requires segment { older.segment ≡ memory_index heap.now.memories older.item.place }
    requires age { older.age ≡ generation (frame heap.now) older.item.place }
    requires older { is_condemned_place heap.now oldest older.item.place ≡ false }
    requires empty { targets.old ≡ [] }
    ensures gathered { AreGathered types.now heap.now oldest older.age first from result.0 targets.new result.1 }
    ensures from { from ≤ result.0 }
    ensures within { result.0 ≤ to }
    ensures some { from < to → from < result.0 }
{
    let mut younger = false;
    let mut at = from;
    while targets.room() > 0 {
        let bound = looked_for(younger, older.age, oldest);
        let met = pass_words(heap, older.segment, first, at, to, bound);
        if met == to {
            return (to, younger);
        }
        let below = gather_slot(heap, types, older, first + 8 * met, oldest, targets);
        younger |= below;
        at = met + 1;
    }
    (at, younger)
}

// Gathers what the reference at `a` of an older object names, where that is condemned. It answers whether that is of a
// lower generation.
#[inline(always)]
fn gather_slot(
    heap: &Heap,
    types: &Types,
    older: Older,
    a: u64,
    oldest: u8,
    targets: &mut Targets,
) -> bool
    requires closed { IsClosed types.now heap.now }
    requires listed { IsIn older.item (heap_items types.now heap.now) }
    requires reference { IsReferenceOf types.now older.item a }
    requires segment { older.segment ≡ memory_index heap.now.memories older.item.place }
    requires age { older.age ≡ generation (frame heap.now) older.item.place }
    requires older { is_condemned_place heap.now oldest older.item.place ≡ false }
    requires room { length targets.old < 64 }
    ensures kept { (y : ℕ) → IsIn y targets.old → IsIn y targets.new }
    ensures only { (y : ℕ) → IsIn y targets.new → IsIn y targets.old ⊎ IsNamedByOlder types.now heap.now oldest y }
    ensures gathered { word_of heap.now a ≢ 0 → is_condemned_place heap.now oldest (word_of heap.now a) ≡ true
        → IsIn (word_of heap.now a) targets.new }
    ensures younger { result ≡ (not (word_of heap.now a == 0) && nat_lt
        (generation (frame heap.now) (word_of heap.now a)) older.age) }
{
    let _ = types;
    let target = heap.word_at(older.segment, a);
    let generation = heap.gen_of(target);
    if generation >= older.age {
        return false;
    }
    if target == 0 {
        return false;
    }
    if generation > oldest {
        return true;
    }
    targets.add(target);
    true
}

// Marks the gathered objects, which older ones name, and follows what waits where the stack is half full. No objects
// are gathered then.
#[inline(never)]
fn mark_gathered(marker: &mut Marker, heap: &mut Heap, types: &Types, targets: &mut Targets)
    requires gray { IsGray types.now heap.old marker.old }
    requires named { (y : ℕ) → IsIn y targets.old → IsNamedByOlder types.now heap.old marker.old.oldest y }
    ensures gray { IsGray types.now heap.new marker.new }
    ensures scanned { HasScanned types.now heap.old heap.new marker.old marker.new }
    ensures marked { (y : ℕ) → IsIn y targets.old → Marked types.now heap.new y }
    ensures empty { targets.new ≡ [] }
{
    marker.mark_targets(heap, types, targets.as_slice());
    marker.drain_if_full(heap, types);
    targets.clear();
}
