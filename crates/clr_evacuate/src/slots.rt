// References of objects become the places where what they name went.
ghost use Rattle.std.specs.Prelude.{◌≡◌, ℕ, ◌+◌, ◌<◌, ◌^◌, true, length, map, ℤ};
ghost use Rattle.clr_cards.specs.Cards.{is_card_set};
ghost use Rattle.clr_generations.specs.Laws.{BrickLaw, CardLaw};
ghost use Rattle.clr_generations.specs.Tables.{AreCardsOf};
ghost use Rattle.clr_heap.specs.Memories.{memory_index};
ghost use Rattle.clr_heap.specs.Parts.{item_at};
ghost use Rattle.clr_heap.specs.View.{first_of, frame, HasItem, heap_items, IsHeap, last_of, no_rests, word_of};
ghost use Rattle.clr_model.specs.Reach.{SlotNames};
ghost use Rattle.clr_types.specs.ReferenceRuns.{SpellsReferences};
ghost use Rattle.clr_types.specs.Rising.{IsIn};
ghost use Rattle.clr_types.specs.Types.{form_at};
ghost use Rattle.clr_view.specs.View.{is_object, IsHeld, objects_in};
ghost use Rattle.clr_evacuate.specs.Forwards.{HasForwards};
ghost use Rattle.clr_evacuate.specs.Forwarding.{AreForwardable, CanForward, forwarded_object, HaveStayed, IsBetween};
ghost use Rattle.clr_evacuate.specs.Forwarding.{IsForwarded, IsOffsetOf, LeadsBy};
ghost use Rattle.clr_mark.specs.Markings.{item_references};

use crate::forwarding::forward;
use clr_cards::Cards;
use clr_generations::set_reference;
use clr_heap::{Heap, Item};
use clr_types::{FIRST_OFFSET, ReferenceRun, Slot, Types};

// Lets each reference of each object, dead ones too, go where what it names went. Afterwards each slot that names an
// object of a lower generation has its card set, whatever was set before.
//
// Free items keep their forwards, and all else stays.
pub(crate) fn forward_slots(heap: &mut Heap, types: &Types, cards: &mut Cards)
    requires held { IsHeld types.now heap.old }
    requires no_contexts { heap.old.rests ≡ no_rests }
    requires named { (x y : ℕ) → SlotNames (objects_in types.now heap.old) x y → CanForward types.now heap.old y }
    requires cards { AreCardsOf (frame heap.old) cards.old }
    ensures objects { (go : ℕ → ℕ) → LeadsBy types.now heap.old go
        → objects_in types.now heap.new ≡ map (forwarded_object go) (objects_in types.now heap.old) }
    ensures stayed { HaveStayed types.now heap.old heap.new }
    ensures forwards { (go : ℕ → ℕ) → HasForwards types.now heap.old go → HasForwards types.now heap.new go }
    ensures cards { AreCardsOf (frame heap.new) cards.new }
    ensures card_law { CardLaw types.now (frame heap.new) (objects_in types.now heap.new) (is_card_set cards.new) }
    ensures brick_law { (entry : ℕ → ℤ) → BrickLaw types.now (frame heap.old) (objects_in types.now heap.old) entry
        → BrickLaw types.now (frame heap.new) (objects_in types.now heap.new) entry }
{
    let count = heap.segments();
    for k in 0..count {
        forward_segment(heap, types, cards, k);
    }
}

// Forwards the references of the objects of segment `k`, dead ones too, and sets the cards of slots that name an object
// of a lower generation then.
fn forward_segment(heap: &mut Heap, types: &Types, cards: &mut Cards, k: usize)
    requires heap { IsHeap heap.old }
    requires held { IsHeld types.now heap.old }
    requires no_contexts { heap.old.rests ≡ no_rests }
    requires in_range { k < length heap.old.segments }
    requires named { AreForwardable types.now heap.old (λ a. IsBetween (first_of heap.old k) (last_of heap.old k) a) }
    requires cards { AreCardsOf (frame heap.old) cards.old }
    ensures { IsForwarded types.now heap.old heap.new cards.old cards.new
        (λ a. IsBetween (first_of heap.old k) (last_of heap.old k) a) }
{
    let segment = heap.info(k);
    let mut place = segment.base + FIRST_OFFSET;
    while place < segment.end {
        place += forward_item(heap, types, cards, k, place);
    }
}

// Forwards the references of the item at `place` of segment `k`. Answers the item's size.
fn forward_item(heap: &mut Heap, types: &Types, cards: &mut Cards, k: usize, place: u64) -> u64
    requires heap { IsHeap heap.old }
    requires held { IsHeld types.now heap.old }
    requires head { HasItem types.now heap.old place }
    requires listed { IsIn (item_at types.now (word_of heap.old) place) (heap_items types.now heap.old) }
    requires mt_in { k ≡ memory_index heap.old.memories place }
    requires len_in { k ≡ memory_index heap.old.memories (place + 8) }
    requires room { place + 8 < 2 ^ 64 }
    requires named { AreForwardable types.now heap.old
        (λ a. IsBetween place (place + (item_at types.now (word_of heap.old) place).size) a) }
    requires cards { AreCardsOf (frame heap.old) cards.old }
    ensures size { result ≡ (item_at types.now (word_of heap.old) place).size }
    ensures forwarded { IsForwarded types.now heap.old heap.new cards.old cards.new
        (λ a. IsBetween place (place + (item_at types.now (word_of heap.old) place).size) a) }
{
    let found = heap.item_of_word(types, k, place, heap.word_at(k, place));
    if found.type_id.0 != 0 {
        forward_object(heap, types, cards, &found);
    }
    found.size
}

// Forwards the references of an object.
fn forward_object(heap: &mut Heap, types: &Types, cards: &mut Cards, found: &Item)
    requires heap { IsHeap heap.old }
    requires held { IsHeld types.now heap.old }
    requires listed { IsIn found.now (heap_items types.now heap.old) }
    requires object { is_object found.now ≡ true }
    requires named { AreForwardable types.now heap.old
        (λ a. IsOffsetOf found.now.place (item_references types.now found.now) a) }
    requires cards { AreCardsOf (frame heap.old) cards.old }
    ensures { IsForwarded types.now heap.old heap.new cards.old cards.new
        (λ a. IsOffsetOf found.now.place (item_references types.now found.now) a) }
{
    match types.reference_run(found.type_id, found.len) {
        Some(run) => forward_run(heap, types, cards, found, run),
        None => forward_references(heap, types, cards, found),
    }
}

// Forwards the references of an object, where they are one run of words.
fn forward_run(heap: &mut Heap, types: &Types, cards: &mut Cards, found: &Item, run: ReferenceRun)
    requires heap { IsHeap heap.old }
    requires held { IsHeld types.now heap.old }
    requires listed { IsIn found.now (heap_items types.now heap.old) }
    requires object { is_object found.now ≡ true }
    requires named { AreForwardable types.now heap.old
        (λ a. IsOffsetOf found.now.place (item_references types.now found.now) a) }
    requires cards { AreCardsOf (frame heap.old) cards.old }
    requires run { SpellsReferences (form_at types.now found.now.type_id.0) found.now.len run }
    ensures { IsForwarded types.now heap.old heap.new cards.old cards.new
        (λ a. IsOffsetOf found.now.place (item_references types.now found.now) a) }
{
    for i in 0..run.count {
        forward_slot(heap, types, cards, found, run.offset + 8 * i);
    }
}

// Forwards the references of an object, whatever they are. It stands apart, since most objects have one run.
#[inline(never)]
fn forward_references(heap: &mut Heap, types: &Types, cards: &mut Cards, found: &Item)
    requires heap { IsHeap heap.old }
    requires held { IsHeld types.now heap.old }
    requires listed { IsIn found.now (heap_items types.now heap.old) }
    requires object { is_object found.now ≡ true }
    requires named { AreForwardable types.now heap.old
        (λ a. IsOffsetOf found.now.place (item_references types.now found.now) a) }
    requires cards { AreCardsOf (frame heap.old) cards.old }
    ensures { IsForwarded types.now heap.old heap.new cards.old cards.new
        (λ a. IsOffsetOf found.now.place (item_references types.now found.now) a) }
{
    for offset in types.slots(found.type_id, found.len) {
        forward_slot(heap, types, cards, found, offset);
    }
}

// Forwards the reference of an object at an offset. It writes nothing where no word and no card changes.
fn forward_slot(heap: &mut Heap, types: &Types, cards: &mut Cards, found: &Item, offset: u64)
    requires heap { IsHeap heap.old }
    requires held { IsHeld types.now heap.old }
    requires listed { IsIn found.now (heap_items types.now heap.old) }
    requires object { is_object found.now ≡ true }
    requires reference { IsIn offset (item_references types.now found.now) }
    requires named { CanForward types.now heap.old (word_of heap.old (found.now.place + offset)) }
    requires cards { AreCardsOf (frame heap.old) cards.old }
    ensures { IsForwarded types.now heap.old heap.new cards.old cards.new (λ a. a ≡ found.now.place + offset) }
{
    let named = heap.word(found.place + offset);
    if named == 0 {
        return;
    }
    let target = forward(heap, types, named);
    if target == named && !heap.is_ephemeral(target) {
        return;
    }
    let slot = Slot {
        offset,
        reference: true,
    };
    set_reference(heap, types, cards, found, slot, target);
}
