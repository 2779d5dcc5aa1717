// Looking ahead in a run of references, for the stretches of the targets of several at once.
ghost use Rattle.std.specs.Prelude.{◌≡◌, ◌+◌, ◌*◌, ◌<◌, ◌^◌, length, List, ℕ};
ghost use Rattle.std.specs.List.{All};
ghost use Rattle.clr_types.specs.Types.{TypeRow};
ghost use Rattle.clr_heap.specs.Memories.{HasWord, memory_index};
ghost use Rattle.clr_heap.specs.View.{HeapView};
ghost use Rattle.clr_model.specs.Compaction.{Move};
ghost use Rattle.clr_pinq.specs.declared.entry.PinEntry.{PinEntry};
ghost use Rattle.clr_moves.specs.Going.{IsStretchOf};
ghost use Rattle.clr_moves.specs.Overlaid.{HoldsPlan};

use crate::relocation::{LeftObject, Relocation};
use clr_heap::Heap;
use clr_moves::{Stretch, TOGETHER, stretches_near};
use clr_types::ReferenceRun;

// So many bytes beyond the stretch that was met last a target is far: its tree isn't in the processor's caches then.
const FAR: u64 = 65_536;

// Makes the stretch of the target of reference number `at` of a run the one that was met last, where it is found.
// `ahead` has the stretches that were found for the references below number `until`, each at its number modulo the
// length. Answers the number up to which they have been looked for then.
#[inline(always)]
pub(crate) fn come_near(
    heap: &Heap,
    work: &Relocation<'_>,
    object: &LeftObject,
    run: ReferenceRun,
    at: u64,
    until: u64,
    ahead: &mut [Stretch],
    last: &mut Stretch,
) -> u64
    requires below { at < run.count }
    requires fits { (j : ℕ) → j < run.count → object.now.found.place + (run.offset + 8 * j) < 2 ^ 64 }
    requires words { (j : ℕ) → j < run.count
        → HasWord heap.now.memories (object.now.found.place + (run.offset + 8 * j)) }
    requires segment { (j : ℕ) → j < run.count
        → object.now.segment ≡ memory_index heap.now.memories (object.now.found.place + (run.offset + 8 * j)) }
    requires told { (rows : List TypeRow) × (view : HeapView) × (entries : List PinEntry) × (vs : List Move)
        × (start1 : ℕ) × (start0 : ℕ)
        × HoldsPlan rows view heap.now work.now.bricks.now entries work.now.g vs start1 start0 }
    requires room { length ahead.old ≡ 8 }
    ensures { (rows : List TypeRow) (view : HeapView) (entries : List PinEntry) (vs : List Move)
        (start1 start0 : ℕ) → HoldsPlan rows view heap.now work.now.bricks.now entries work.now.g vs start1 start0
        → All (IsStretchOf view work.now.g vs) ahead.old → IsStretchOf view work.now.g vs last.old
        → All (IsStretchOf view work.now.g vs) ahead.new × IsStretchOf view work.now.g vs last.new }
{
    let named = heap.word_at(object.segment, object.found.place + (run.offset + 8 * at));
    if named == 0 || last.low <= named && named < last.stop {
        return until;
    }
    if named.abs_diff(last.low) < FAR {
        return until;
    }
    let next = look_ahead(heap, work, object, run, at, until, ahead);
    let met = ahead[(at % 8) as usize];
    if met.low <= named && named < met.stop {
        *last = met;
    }
    next
}

// Looks for the stretches of the targets of the references from number `at` on, where it isn't below `until`.
#[inline(never)]
fn look_ahead(
    heap: &Heap,
    work: &Relocation<'_>,
    object: &LeftObject,
    run: ReferenceRun,
    at: u64,
    until: u64,
    ahead: &mut [Stretch],
) -> u64
    requires below { at < run.count }
    requires fits { (j : ℕ) → j < run.count → object.now.found.place + (run.offset + 8 * j) < 2 ^ 64 }
    requires words { (j : ℕ) → j < run.count
        → HasWord heap.now.memories (object.now.found.place + (run.offset + 8 * j)) }
    requires segment { (j : ℕ) → j < run.count
        → object.now.segment ≡ memory_index heap.now.memories (object.now.found.place + (run.offset + 8 * j)) }
    requires told { (rows : List TypeRow) × (view : HeapView) × (entries : List PinEntry) × (vs : List Move)
        × (start1 : ℕ) × (start0 : ℕ)
        × HoldsPlan rows view heap.now work.now.bricks.now entries work.now.g vs start1 start0 }
    requires room { length ahead.old ≡ 8 }
    ensures { (rows : List TypeRow) (view : HeapView) (entries : List PinEntry) (vs : List Move)
        (start1 start0 : ℕ) → HoldsPlan rows view heap.now work.now.bricks.now entries work.now.g vs start1 start0
        → All (IsStretchOf view work.now.g vs) ahead.old → All (IsStretchOf view work.now.g vs) ahead.new }
{
    if at < until {
        return until;
    }
    let mut places = [0; TOGETHER];
    put_places(heap, object, run, at, &mut places);
    stretches_near(heap, work.bricks, work.g, &places, ahead);
    at + TOGETHER as u64
}

// Puts the places that the references of a run from number `at` on name, each at its number modulo the length.
#[inline(always)]
fn put_places(heap: &Heap, object: &LeftObject, run: ReferenceRun, at: u64, places: &mut [u64])
    requires below { at < run.count }
    requires fits { (j : ℕ) → j < run.count → object.now.found.place + (run.offset + 8 * j) < 2 ^ 64 }
    requires words { (j : ℕ) → j < run.count
        → HasWord heap.now.memories (object.now.found.place + (run.offset + 8 * j)) }
    requires segment { (j : ℕ) → j < run.count
        → object.now.segment ≡ memory_index heap.now.memories (object.now.found.place + (run.offset + 8 * j)) }
    requires room { length places.old ≡ 8 }
{
    let past = run.count.min(at + TOGETHER as u64);
    for i in at..past {
        places[(i % 8) as usize] = heap.word_at(
            object.segment,
            object.found.place + (run.offset + 8 * i),
        );
    }
}
