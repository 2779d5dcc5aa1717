// Relocating many references side by side, of which few name what goes.
ghost use Rattle.std.specs.Prelude.{◌≡◌, ℕ, ◌+◌, ◌*◌, ◌<◌, ◌≤◌, ◌^◌, List};
ghost use Rattle.clr_types.specs.ReferenceRuns.{SpellsReferences};
ghost use Rattle.clr_types.specs.Types.{form_at};
ghost use Rattle.clr_heap.specs.Memories.{HasWord, memory_index};
ghost use Rattle.clr_heap.specs.View.{HeapView};
ghost use Rattle.clr_model.specs.Compaction.{Move};
ghost use Rattle.clr_moves.specs.Moves.{age_of};
ghost use Rattle.clr_reloc.specs.Partial.{IsPartial};
ghost use Rattle.clr_reloc.specs.Relocations.{AreRelocated, IsObjectAhead, IsPlaced, IsRelocatingBy, KeepsBeside};
ghost use Rattle.clr_reloc.specs.Resting.{NamesNothing};

use crate::objects::relocate_slot;
use crate::relocation::{LeftObject, Relocation};
use crate::resting::{empty_words, still_words};
use clr_cards::Cards;
use clr_heap::Heap;
use clr_moves::Stretch;
use clr_pinq::PinQueue;
use clr_types::ReferenceRun;

// From this many references on it pays to pass over those that stay.
pub(crate) const MANY: u64 = 16;

// Relocates the references of an object that is left, where they are one run, in a collection of less than all
// generations. In an old table most of them stay, so a loop passes over those, and over clear cards. `last` is the
// stretch that was met last.
#[inline(never)]
pub(crate) fn relocate_words(
    heap: &mut Heap,
    work: &Relocation<'_>,
    cards: &mut Cards,
    pins: &mut PinQueue,
    last: &mut Stretch,
    object: &LeftObject,
    run: ReferenceRun,
)
    requires few { IsPartial work.now.g }
    requires can { (view : HeapView) × (now : HeapView) × (vs : List Move)
        × IsRelocatingBy work.now view now heap.old pins.old.entries vs last.old
        × IsObjectAhead work.now view now vs cards.old object.now }
    requires placed { IsPlaced work.now heap.old cards.old object.now }
    requires run { SpellsReferences (form_at work.now.types.now object.now.found.type_id.0) object.now.found.len run }
    ensures gone { (view now : HeapView) (vs : List Move)
        → IsRelocatingBy work.now view now heap.old pins.old.entries vs last.old
        → IsObjectAhead work.now view now vs cards.old object.now
        → AreRelocated work.now view now vs heap.old heap.new pins.old pins.new cards.new last.new
        object.now.found.place (object.now.found.place + object.now.found.size) }
    ensures beside { KeepsBeside cards.old cards.new pins.old pins.new }
{
    let mut at = 0;
    while at < run.count {
        at += still_words(
            heap,
            work,
            cards,
            pins,
            object,
            run.offset + 8 * at,
            run.count - at,
        );
        if at == run.count {
            return;
        }
        relocate_slot(heap, work, cards, pins, last, object, run.offset + 8 * at);
        at += 1;
    }
}

// Relocates the references of an object that is left, where they are one run, in a compaction of any parts, where many
// of them are null: the loop passes over nulls in a row.
#[inline(never)]
pub(crate) fn relocate_sparse(
    heap: &mut Heap,
    work: &Relocation<'_>,
    cards: &mut Cards,
    pins: &mut PinQueue,
    last: &mut Stretch,
    object: &LeftObject,
    run: ReferenceRun,
)
    requires least { age_of work.now.g ≤ 2 }
    requires can { (view : HeapView) × (now : HeapView) × (vs : List Move)
        × IsRelocatingBy work.now view now heap.old pins.old.entries vs last.old
        × IsObjectAhead work.now view now vs cards.old object.now }
    requires placed { IsPlaced work.now heap.old cards.old object.now }
    requires run { SpellsReferences (form_at work.now.types.now object.now.found.type_id.0) object.now.found.len run }
    ensures gone { (view now : HeapView) (vs : List Move)
        → IsRelocatingBy work.now view now heap.old pins.old.entries vs last.old
        → IsObjectAhead work.now view now vs cards.old object.now
        → AreRelocated work.now view now vs heap.old heap.new pins.old pins.new cards.new last.new
        object.now.found.place (object.now.found.place + object.now.found.size) }
    ensures beside { KeepsBeside cards.old cards.new pins.old pins.new }
{
    let mut at = 0;
    while at < run.count {
        relocate_slot(heap, work, cards, pins, last, object, run.offset + 8 * at);
        at = next_number(heap, pins, object, run, at);
    }
}

// The number of a reference of a run that comes after number `at`, where those between name nothing. It looks for nulls
// at every `LOOK`th number alone, so that references side by side cost no more.
#[inline(always)]
fn next_number(heap: &Heap, pins: &PinQueue, object: &LeftObject, run: ReferenceRun, at: u64) -> u64
    requires below { at < run.count }
    requires fits { (j : ℕ) → j < run.count → object.now.found.place + (run.offset + 8 * j) < 2 ^ 64 }
    requires words { (j : ℕ) → j < run.count
        → HasWord heap.now.memories (object.now.found.place + (run.offset + 8 * j)) }
    requires segment { (j : ℕ) → j < run.count
        → object.now.segment ≡ memory_index heap.now.memories (object.now.found.place + (run.offset + 8 * j)) }
    ensures after { at < result }
    ensures within { result ≤ run.count }
    ensures empty { (j : ℕ) → at < j → j < result
        → NamesNothing heap.now pins.now.entries (object.now.found.place + (run.offset + 8 * j)) }
{
    let next = at + 1;
    if next % LOOK != 0 || next == run.count {
        return next;
    }
    next + empty_words(heap, pins, object, run.offset + 8 * next, run.count - next)
}

// Whether a long run of references seems to be mostly null, by its last ones: a list that is kept in an array fills it
// from the front. It is a guess.
#[inline(never)]
pub(crate) fn is_sparse(heap: &Heap, pins: &PinQueue, object: LeftObject, run: ReferenceRun) -> bool
    requires long { 256 ≤ run.count }
    requires fits { (j : ℕ) → j < run.count → object.found.place + (run.offset + 8 * j) < 2 ^ 64 }
    requires words { (j : ℕ) → j < run.count
        → HasWord heap.now.memories (object.found.place + (run.offset + 8 * j)) }
    requires segment { (j : ℕ) → j < run.count
        → object.segment ≡ memory_index heap.now.memories (object.found.place + (run.offset + 8 * j)) }
{
    let from = run.count - LOOK;
    empty_words(heap, pins, &object, run.offset + 8 * from, LOOK) == LOOK
}

// From this many references on it pays to look whether most are null.
pub(crate) const LONG: u64 = 256;

// How often a loop over references looks for nulls in a row.
const LOOK: u64 = 32;
