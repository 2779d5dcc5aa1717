// Relocating the references of one object, none of whose words is saved in the queue.
ghost use Rattle.std.specs.Prelude.{◌≡◌, ℕ, ◌+◌, ◌/◌, ◌<◌, ◌≤◌, ◌^◌, true, List, None};
ghost use Rattle.clr_types.specs.ReferenceRuns.{SpellsReferences};
ghost use Rattle.clr_types.specs.Segments.{generation, Layout};
ghost use Rattle.clr_types.specs.Types.{form_at};
ghost use Rattle.clr_covers.specs.Covers.{is_covered};
ghost use Rattle.clr_heap.specs.Memories.{memory_index};
ghost use Rattle.clr_heap.specs.View.{HeapView, stored, word_of};
ghost use Rattle.clr_model.specs.Compaction.{Move, moved_by};
ghost use Rattle.clr_pinq.specs.Queue.{IsPlain, queue_word};
ghost use Rattle.clr_moves.specs.Moves.{age_of};
ghost use Rattle.clr_reloc.specs.Relocated.{rebounded};
ghost use Rattle.clr_reloc.specs.Relocations.{AreRelocated, IsObjectAhead, IsPlaced, IsRelocatingBy, IsSlotRelocated};
ghost use Rattle.clr_reloc.specs.Relocations.{KeepsBeside};
ghost use Rattle.clr_reloc.specs.Relocating.{IsSlotAhead, KeepsTelling};

use crate::ahead::come_near;
use crate::relocation::{LeftObject, Relocation};
use crate::resting::lowest_young;
use clr_cards::Cards;
use clr_heap::Heap;
use clr_moves::{Stretch, TOGETHER, destination_near};
use clr_pinq::PinQueue;
use clr_types::ReferenceRun;

// Relocates the references of an object that is left, where they are one run and none of its words is saved: they are
// read and written as they stand in the heap, and where younger targets begin is looked up once. `last` is the stretch
// that was met last; where a target isn't in it, the stretches of several targets are searched for side by side. It
// stands apart, since most objects have few references.
#[inline(never)]
pub(crate) fn relocate_plain(
    heap: &mut Heap,
    work: &Relocation<'_>,
    cards: &mut Cards,
    pins: &PinQueue,
    last: &mut Stretch,
    object: &LeftObject,
    run: ReferenceRun,
)
    requires least { age_of work.now.g ≤ 2 }
    requires can { (view : HeapView) × (now : HeapView) × (vs : List Move)
        × IsRelocatingBy work.now view now heap.old pins.now.entries vs last.old
        × IsObjectAhead work.now view now vs cards.old object.now }
    requires placed { IsPlaced work.now heap.old cards.old object.now }
    requires run { SpellsReferences (form_at work.now.types.now object.now.found.type_id.0) object.now.found.len run }
    requires plain { IsPlain pins.now.entries object.now.found.place (object.now.found.place + object.now.found.size) }
    ensures gone { (view now : HeapView) (vs : List Move)
        → IsRelocatingBy work.now view now heap.old pins.now.entries vs last.old
        → IsObjectAhead work.now view now vs cards.old object.now
        → AreRelocated work.now view now vs heap.old heap.new pins.now pins.now cards.new last.new
        object.now.found.place (object.now.found.place + object.now.found.size) }
    ensures beside { KeepsBeside cards.old cards.new pins.now pins.now }
{
    let young = lowest_young(&work.planned, object.age);
    let mut ahead = [Stretch::NONE; TOGETHER];
    let mut until = 0;
    for i in 0..run.count {
        until = come_near(heap, work, object, run, i, until, &mut ahead, last);
        relocate_plain_slot(
            heap,
            work,
            cards,
            pins,
            last,
            object,
            run.offset + 8 * i,
            young,
        );
    }
}

// Relocates the reference of an object that is left at this offset, for which no word is saved. Null stays. What will
// be of a lower generation than the object stands at `young` or above.
#[inline(always)]
fn relocate_plain_slot(
    heap: &mut Heap,
    work: &Relocation<'_>,
    cards: &mut Cards,
    pins: &PinQueue,
    last: &mut Stretch,
    object: &LeftObject,
    offset: u64,
    young: u64,
)
    requires least { age_of work.now.g ≤ 2 }
    requires fits { object.now.found.place + offset < 2 ^ 64 }
    requires goes { object.now.to + offset < 2 ^ 64 }
    requires age { object.now.age ≤ 2 }
    requires can { (view : HeapView) × (now : HeapView) × (vs : List Move)
        × IsRelocatingBy work.now view now heap.old pins.now.entries vs last.old
        × IsSlotAhead work.now.types.now view now work.now.g vs (object.now.found.place + offset) }
    requires segment { object.now.segment ≡ memory_index heap.old.memories (object.now.found.place + offset) }
    requires card { is_covered cards.old ((object.now.to + offset) / 2048) ≡ true }
    requires plain { queue_word pins.now.entries (object.now.found.place + offset) ≡ None }
    requires young { (layout : Layout) (x : ℕ) → generation (rebounded layout work.now.planned) x < object.now.age
        → young ≤ x }
    ensures gone { (view now : HeapView) (vs : List Move)
        → IsRelocatingBy work.now view now heap.old pins.now.entries vs last.old
        → IsSlotAhead work.now.types.now view now work.now.g vs (object.now.found.place + offset)
        → IsSlotRelocated work.now view now vs heap.old heap.new pins.now pins.now cards.new last.new object.now
        offset }
    ensures beside { KeepsBeside cards.old cards.new pins.now pins.now }
{
    let a = object.found.place + offset;
    let named = heap.word_at(object.segment, a);
    if named == 0 {
        return;
    }
    let to = object.to + offset;
    let target = move_plain(heap, work, pins, last, object.segment, a, named);
    if young <= target && heap.is_ephemeral(target) {
        cards.set(to);
    }
}

// Makes the reference at `a` in segment `k`, for which no word is saved and which names the place `named`, the place
// where its target goes, and answers that place. Where the target stays, nothing is written.
#[inline(always)]
fn move_plain(
    heap: &mut Heap,
    work: &Relocation<'_>,
    pins: &PinQueue,
    last: &mut Stretch,
    k: usize,
    a: u64,
    named: u64,
) -> u64
    requires least { age_of work.now.g ≤ 2 }
    requires can { (view : HeapView) × (now : HeapView) × (vs : List Move)
        × IsRelocatingBy work.now view now heap.old pins.now.entries vs last.old
        × IsSlotAhead work.now.types.now view now work.now.g vs a }
    requires segment { k ≡ memory_index heap.old.memories a }
    requires named { named ≡ word_of heap.old a }
    requires plain { queue_word pins.now.entries a ≡ None }
    ensures gone { (view now : HeapView) (vs : List Move)
        → IsRelocatingBy work.now view now heap.old pins.now.entries vs last.old
        → IsSlotAhead work.now.types.now view now work.now.g vs a
        → (result ≡ moved_by vs (word_of view a))
        × IsRelocatingBy work.now view (stored now a (moved_by vs (word_of view a))) heap.new pins.now.entries vs
        last.new
        × KeepsTelling work.now.types.now view work.now.g vs pins.now.entries heap.old heap.new }
{
    let target = destination_near(heap, work.bricks, work.g, named, last);
    if target == named {
        return target;
    }
    heap.set_word_at(k, a, target);
    target
}
