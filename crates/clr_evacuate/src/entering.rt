// Carries one object into a free item, and lets the bricks tell of it.
ghost use Rattle.std.specs.Prelude.{◌≡◌, ◌<◌, ◌≤◌, true};
ghost use Rattle.clr_types.specs.Segments.{ephemeral, stands_in};
ghost use Rattle.clr_bricks.specs.Bricks.{entry_at};
ghost use Rattle.clr_covers.specs.Covers.{spans};
ghost use Rattle.clr_heap.specs.View.{frame, IsHeap, no_rests};
ghost use Rattle.clr_view.specs.View.{IsHeld, objects_in};
ghost use Rattle.clr_generations.specs.Laws.{BrickLaw};
ghost use Rattle.clr_generations.specs.Tables.{AreBricksOf};
ghost use Rattle.clr_evacuate.specs.Carried.{CanCarry, HasCarried};
ghost use Rattle.clr_evacuate.specs.Left.{IsOldHome};

use crate::carrying::carry_object;
use crate::leaving::leave_brick;
use clr_bricks::Bricks;
use clr_generations::enter_old_newborn;
use clr_heap::{Heap, Item};
use clr_types::{Span, Types};

// Carries an object of the ephemeral segment, below generation 0, to the front of a free item below it, as
// `carry_object` does, where the item's segment is of generation 1 or 2 up to the item. The bricks tell of it at its
// new place, and no longer at its old one.
pub(crate) fn carry_entered(
    heap: &mut Heap,
    types: &Types,
    bricks: &mut Bricks,
    object: Item,
    item: Span,
)
    requires heap { IsHeap heap.old }
    requires held { IsHeld types.now heap.old }
    requires no_contexts { heap.old.rests ≡ no_rests }
    requires order { heap.old.start1 ≤ heap.old.start0 }
    requires can { CanCarry types.now heap.old object item }
    requires inside { stands_in (ephemeral (frame heap.old)) object.place ≡ true }
    requires old { object.place < heap.old.start0 }
    requires home { IsOldHome (frame heap.old) item.place }
    requires bricks { AreBricksOf (frame heap.old) bricks.old }
    ensures carried { HasCarried types.now heap.old heap.new object item }
    ensures heap { IsHeap heap.new }
    ensures bricks { BrickLaw types.now (frame heap.old) (objects_in types.now heap.old) (entry_at bricks.old)
        → BrickLaw types.now (frame heap.new) (objects_in types.now heap.new) (entry_at bricks.new) }
    ensures spans { spans bricks.new ≡ spans bricks.old }
{
    carry_object(heap, types, object, item);
    enter_old_newborn(bricks, item.place(), object.size);
    leave_brick(heap, types, bricks, object.place);
}
