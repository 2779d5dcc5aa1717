// Objects by their places, and the values of their slots.
ghost use Rattle.std.specs.Prelude.{◌≡◌, ◌<◌, true};
ghost use Rattle.clr_types.specs.Rising.{IsIn};
ghost use Rattle.clr_types.specs.Types.{form_at, is_bytes};
ghost use Rattle.clr_heap.specs.View.{heap_items, IsHeap, word_of};
ghost use Rattle.clr_view.specs.View.{AreFreeHeads, IsHeld};
ghost use Rattle.clr_view.specs.Clean.{AreClean};
ghost use Rattle.clr_view.specs.Marks.{IsUnmarked};
ghost use Rattle.clr_view.specs.SlotValues.{HasSlot, HasSlotValue, HasStoredSlot, IsObjectAt, StandsAt, with_value};

use clr_heap::{Heap, Item};
use clr_types::{Shape, Slot, Types};

/// The object that stands at a place. Its type is one of the table's, and it has at most 2^30 bytes.
#[inline(always)]
pub fn object_item(heap: &Heap, types: &Types, place: u64) -> Item
    requires held { IsHeld types.now heap.now }
    requires stands { StandsAt types.now heap.now place }
    ensures { IsObjectAt types.now heap.now place result }
{
    heap.lawful();
    heap.item(types, place)
}

/// The value of a slot of an object: the place that it refers to, 0 for null, or a number, in an array of bytes a byte.
///
/// `slot` is what the table of types says of the slot.
#[inline(always)]
pub fn slot_value(heap: &Heap, types: &Types, item: &Item, slot: Slot) -> u64
    requires held { IsHeld types.now heap.now }
    requires listed { IsIn item.now (heap_items types.now heap.now) }
    requires slot { HasSlot types.now item.now slot }
    ensures { HasSlotValue types.now (word_of heap.now) item.now slot result }
{
    let byte = is_byte(heap, types, item, slot);
    let address = item.place + slot.offset;
    if byte {
        u64::from(heap.byte(address))
    } else {
        heap.word(address)
    }
}

/// Gives a slot of an object another value: the place that it is to refer to, 0 for null, or a number, which in an
/// array of bytes is below 256.
///
/// `slot` is what the table of types says of the slot. All other slots and objects stay, and so do the free items and
/// the layout. It marks nothing, changes no head of a free item, and leaves headers and padding clean.
#[inline(always)]
pub fn set_slot_value(heap: &mut Heap, types: &Types, item: &Item, slot: Slot, value: u64)
    requires held { IsHeld types.now heap.old }
    requires listed { IsIn item.now (heap_items types.now heap.old) }
    requires slot { HasSlot types.now item.now slot }
    requires byte { is_bytes (form_at types.now item.now.type_id.0) ≡ true → value < 256 }
    ensures stored { HasStoredSlot types.now heap.old heap.new item.now slot value }
    ensures words { heap.new ≡ with_value types.now heap.old item.now slot value }
    ensures unmarked { IsUnmarked types.now heap.old → IsUnmarked types.now heap.new }
    ensures free_heads { AreFreeHeads types.now heap.old → AreFreeHeads types.now heap.new }
    ensures clean { AreClean types.now heap.old → AreClean types.now heap.new }
{
    let byte = is_byte(heap, types, item, slot);
    let target = item.place + slot.offset;
    if byte {
        heap.set_byte(target, value as u8);
    } else {
        heap.set_word(target, value);
    }
}

// Whether a slot of an item of the heap is a byte.
#[inline(always)]
fn is_byte(heap: &Heap, types: &Types, item: &Item, slot: Slot) -> bool
    requires held { IsHeld types.now heap.now }
    requires listed { IsIn item.now (heap_items types.now heap.now) }
    requires slot { HasSlot types.now item.now slot }
    ensures value { result ≡ is_bytes (form_at types.now item.now.type_id.0) }
    ensures heap { IsHeap heap.now }
{
    heap.lawful();
    if slot.reference {
        return false;
    }
    match types.shape(item.type_id) {
        Shape::ByteArray => true,
        Shape::Class(_) | Shape::RefArray | Shape::StructArray(_) => false,
    }
}
