// The write barrier.
ghost use Rattle.std.specs.Prelude.{◌≡◌, ◌⊎◌, ℕ, ◌+◌, ◌/◌, true};
ghost use Rattle.clr_types.specs.Rising.{IsIn};
ghost use Rattle.clr_cards.specs.Cards.{is_card_set};
ghost use Rattle.clr_covers.specs.Covers.{spans};
ghost use Rattle.clr_heap.specs.View.{frame, heap_items};
ghost use Rattle.clr_view.specs.View.{AreFreeHeads, IsHeld, objects_in};
ghost use Rattle.clr_view.specs.Clean.{AreClean};
ghost use Rattle.clr_view.specs.Marks.{IsUnmarked};
ghost use Rattle.clr_view.specs.SlotValues.{HasSlot, HasStoredSlot, with_value};
ghost use Rattle.clr_generations.specs.Barrier.{carded};
ghost use Rattle.clr_generations.specs.Laws.{NamesYounger};
ghost use Rattle.clr_generations.specs.Tables.{AreCardsOf};

use clr_cards::Cards;
use clr_heap::{Heap, Item};
use clr_types::{Slot, Types};
use clr_view::set_slot_value;

/// Lets a reference slot of an object name another place, 0 for null; where the named place is in the ephemeral
/// segment, the card of the slot's address is set.
///
/// `slot` is what the table of types says of the slot. All other slots, objects and cards stay, and so do the free
/// items and the layout. It marks nothing, changes no head of a free item, and leaves headers and padding clean.
#[inline(always)]
pub fn set_reference(
    heap: &mut Heap,
    types: &Types,
    cards: &mut Cards,
    item: &Item,
    slot: Slot,
    value: u64,
)
    requires held { IsHeld types.now heap.old }
    requires listed { IsIn item.now (heap_items types.now heap.old) }
    requires slot { HasSlot types.now item.now slot }
    requires reference { slot.reference ≡ true }
    requires cards { AreCardsOf (frame heap.old) cards.old }
    ensures stored { HasStoredSlot types.now heap.old heap.new item.now slot value }
    ensures words { heap.new ≡ with_value types.now heap.old item.now slot value }
    ensures unmarked { IsUnmarked types.now heap.old → IsUnmarked types.now heap.new }
    ensures free_heads { AreFreeHeads types.now heap.old → AreFreeHeads types.now heap.new }
    ensures clean { AreClean types.now heap.old → AreClean types.now heap.new }
    ensures card { (i : ℕ) → is_card_set cards.new i
        ≡ carded (frame heap.old) (item.now.place + slot.offset) value (is_card_set cards.old) i }
    ensures spans { spans cards.new ≡ spans cards.old }
    ensures law { (a : ℕ) → NamesYounger types.now (frame heap.new) (objects_in types.now heap.new) a
        → NamesYounger types.now (frame heap.old) (objects_in types.now heap.old) a
        ⊎ (is_card_set cards.new (a / 2048) ≡ true) }
{
    heap.lawful();
    set_slot_value(heap, types, item, slot, value);
    if heap.is_ephemeral(value) {
        cards.set(item.place + slot.offset);
    }
}
