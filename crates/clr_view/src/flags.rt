// Whether objects have finalisers, and whether these are suppressed.
ghost use Rattle.std.specs.Prelude.{◌≡◌, ◌-◌, true};
ghost use Rattle.clr_heap.specs.View.{IsHeap, word_of};
ghost use Rattle.clr_view.specs.Clean.{AreClean};
ghost use Rattle.clr_view.specs.Flags.{HasFlagged, is_final_at, is_suppressed_at, with_flag_at};
ghost use Rattle.clr_view.specs.Marks.{IsUnmarked};
ghost use Rattle.clr_view.specs.SlotValues.{StandsAt};
ghost use Rattle.clr_view.specs.View.{AreFreeHeads, IsHeld};

use crate::object_item;
use clr_heap::Heap;
use clr_types::{Types, header};

/// Whether the object at a place is of a type that has a finaliser.
pub fn is_final(heap: &Heap, types: &Types, place: u64) -> bool
    requires held { IsHeld types.now heap.now }
    requires stands { StandsAt types.now heap.now place }
    ensures { result ≡ is_final_at types.now heap.now place }
{
    let item = object_item(heap, types, place);
    types.finalizer(item.type_id)
}

/// Whether the finaliser of the object at a place is suppressed.
pub fn is_suppressed(heap: &Heap, types: &Types, place: u64) -> bool
    requires held { IsHeld types.now heap.now }
    requires stands { StandsAt types.now heap.now place }
    ensures { result ≡ is_suppressed_at types.now heap.now place }
{
    header::is_suppressed(header_of(heap, types, place))
}

/// Says in the header of the object at a place whether its finaliser is suppressed.
///
/// All else stays: the other bits of the header, all slots and marks, the free items and the layout. It changes no head
/// of a free item, and leaves headers and padding clean where the type of an object that is to be suppressed has a
/// finaliser.
pub fn set_suppressed(heap: &mut Heap, types: &Types, place: u64, flag: bool)
    requires held { IsHeld types.now heap.old }
    requires stands { StandsAt types.now heap.old place }
    ensures flagged { HasFlagged types.now heap.old heap.new place flag }
    ensures words { heap.new ≡ with_flag_at heap.old place flag }
    ensures unmarked { IsUnmarked types.now heap.old → IsUnmarked types.now heap.new }
    ensures free_heads { AreFreeHeads types.now heap.old → AreFreeHeads types.now heap.new }
    ensures clean { (flag ≡ true → is_final_at types.now heap.old place ≡ true) →
        AreClean types.now heap.old → AreClean types.now heap.new }
{
    let word = header_of(heap, types, place);
    heap.set_word(place - 8, header::with_suppressed(word, flag));
}

// The header of the object at a place.
#[inline]
fn header_of(heap: &Heap, types: &Types, place: u64) -> u64
    requires held { IsHeld types.now heap.now }
    requires stands { StandsAt types.now heap.now place }
    ensures value { result ≡ word_of heap.now (place - 8) }
    ensures heap { IsHeap heap.now }
{
    heap.lawful();
    heap.word(place - 8)
}
