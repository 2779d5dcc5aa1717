// Carries one object into a free item.
ghost use Rattle.std.specs.Prelude.{◌≡◌, ◌+◌, ◌<◌, ◌≤◌};
ghost use Rattle.clr_heap.specs.View.{HasHead, IsHeap, no_rests};
ghost use Rattle.clr_view.specs.View.{IsHeld};
ghost use Rattle.clr_view.proofs.Carving.{Carves};
ghost use Rattle.clr_evacuate.specs.Carried.{CanCarry, HasCarried, HasCopied, HasVacated};

use clr_heap::{Heap, Item};
use clr_types::mark::unmarked;
use clr_types::{Span, Types};

// Carries an object to the front of a free item below it, in which its size fits. Its mark stays behind. What is left
// of the item stays free, and so is the range where the object stood: a free item, whose header says where the object
// went. References to it still name its old place.
pub(crate) fn carry_object(heap: &mut Heap, types: &Types, object: Item, item: Span)
    requires heap { IsHeap heap.old }
    requires held { IsHeld types.now heap.old }
    requires no_contexts { heap.old.rests ≡ no_rests }
    requires can { CanCarry types.now heap.old object item }
    ensures carried { HasCarried types.now heap.old heap.new object item }
    ensures heap { IsHeap heap.new }
{
    copy_object(heap, types, object, item);
    vacate(heap, object, item.place());
}

// Copies an object to the front of a free item, without its mark, and makes a free item of what is left.
fn copy_object(heap: &mut Heap, types: &Types, object: Item, item: Span)
    requires heap { IsHeap heap.old }
    requires held { IsHeld types.now heap.old }
    requires can { CanCarry types.now heap.old object item }
    ensures { HasCopied heap.old heap.new object item }
{
    let to = item.place();
    free_rest(heap, item, object.size);
    heap.move_cells(object.place - 8, to - 8, object.size);
    let mt = heap.word(to);
    heap.set_word(to, unmarked(mt));
}

// Makes a free item of what is left of an item behind its front, where something is.
fn free_rest(heap: &mut Heap, item: Span, taken: u64)
    requires within { taken ≤ item.size }
    requires head { taken < item.size → HasHead heap.old (item.place + taken) }
    requires least { taken < item.size → taken + 24 ≤ item.size }
    ensures { Carves heap.old item taken heap.new }
{
    if taken < item.size() {
        heap.make_free(item.place() + taken, item.size() - taken);
    }
}

// Makes a free item where an object stood, which says that the object went to this place.
fn vacate(heap: &mut Heap, object: Item, to: u64)
    requires least { 24 ≤ object.size }
    requires head { HasHead heap.old object.place }
    ensures { HasVacated heap.old heap.new object to }
{
    heap.make_free(object.place, object.size);
    heap.set_word(object.place - 8, to);
}
