// Carries runs of objects into free items.
ghost use Rattle.std.specs.Prelude.{◌≡◌, ℕ, ◌<◌, ◌≤◌, List, true};
ghost use Rattle.clr_types.specs.Ranges.{piece_end};
ghost use Rattle.clr_types.specs.Segments.{ephemeral, stands_in};
ghost use Rattle.clr_bricks.specs.Bricks.{entry_at};
ghost use Rattle.clr_covers.specs.Covers.{spans};
ghost use Rattle.clr_generations.specs.Laws.{BrickLaw};
ghost use Rattle.clr_generations.specs.Tables.{AreBricksOf};
ghost use Rattle.clr_types.specs.declared.item.Item.{Item};
ghost use Rattle.clr_heap.specs.Parts.{item_at};
ghost use Rattle.clr_heap.specs.View.{frame, HasItem, IsHeap, no_rests, word_of};
ghost use Rattle.clr_model.specs.Fitting.{lowest_item, older_items};
ghost use Rattle.clr_view.specs.View.{IsHeld, layout_in, objects_in};
ghost use Rattle.clr_evacuate.specs.Carried.{CanCarry, HasCarried};
ghost use Rattle.clr_evacuate.specs.CarriedRun.{CanCarryRun, HasCarriedRun};
ghost use Rattle.clr_evacuate.specs.FittedRun.{AreOlder, HasFitted, IsYoungRun};
ghost use Rattle.clr_evacuate.specs.Hints.{AreHints};
ghost use Rattle.clr_evacuate.specs.Left.{IsOldHome};

use crate::entering::carry_entered;
use crate::hints::{Hints, find_lowest};
use clr_bricks::Bricks;
use clr_heap::Heap;
use clr_types::{Span, Types};

// Carries the objects of a run, low to high, one behind the other to the front of a free item below it, in which the
// run fits. Their marks stay behind. What is left of the item stays free, and so is where each object stood: a free
// item, whose header says where the object went. References to them still name their old places. Bricks keep their
// law.
//
// The run stands in generation 1 of the ephemeral segment, and the item in generation 2.
fn carry_plug(heap: &mut Heap, types: &Types, bricks: &mut Bricks, plug: Span, item: Span)
    requires heap { IsHeap heap.old }
    requires held { IsHeld types.now heap.old }
    requires no_contexts { heap.old.rests ≡ no_rests }
    requires order { heap.old.start1 ≤ heap.old.start0 }
    requires can { (run : List Item) × CanCarryRun types.now heap.old run plug item }
    requires inside { (place : ℕ) → plug.place ≤ place → place < piece_end plug
        → stands_in (ephemeral (frame heap.old)) place ≡ true }
    requires below { piece_end plug ≤ heap.old.start0 }
    requires home { (place : ℕ) → item.place ≤ place → place < piece_end item
        → IsOldHome (frame heap.old) place }
    requires bricks { AreBricksOf (frame heap.old) bricks.old }
    ensures carried { (run : List Item) → CanCarryRun types.now heap.old run plug item
        → HasCarriedRun types.now heap.old heap.new run plug item }
    ensures bricks { BrickLaw types.now (frame heap.old) (objects_in types.now heap.old) (entry_at bricks.old)
        → BrickLaw types.now (frame heap.new) (objects_in types.now heap.new) (entry_at bricks.new) }
    ensures spans { spans bricks.new ≡ spans bricks.old }
{
    let mut place = plug.place();
    while place < plug.end() {
        let to = place - (plug.place() - item.place());
        place += carry_next(heap, types, bricks, place, Span::between(to, item.end()));
    }
}

// Carries the object at a place, and answers its size.
fn carry_next(heap: &mut Heap, types: &Types, bricks: &mut Bricks, place: u64, item: Span) -> u64
    requires heap { IsHeap heap.old }
    requires held { IsHeld types.now heap.old }
    requires no_contexts { heap.old.rests ≡ no_rests }
    requires order { heap.old.start1 ≤ heap.old.start0 }
    requires head { HasItem types.now heap.old place }
    requires can { CanCarry types.now heap.old (item_at types.now (word_of heap.old) place) item }
    requires inside { stands_in (ephemeral (frame heap.old)) place ≡ true }
    requires old { place < heap.old.start0 }
    requires home { IsOldHome (frame heap.old) item.place }
    requires bricks { AreBricksOf (frame heap.old) bricks.old }
    ensures size { result ≡ (item_at types.now (word_of heap.old) place).size }
    ensures carried { HasCarried types.now heap.old heap.new (item_at types.now (word_of heap.old) place) item }
    ensures heap { IsHeap heap.new }
    ensures bricks { BrickLaw types.now (frame heap.old) (objects_in types.now heap.old) (entry_at bricks.old)
        → BrickLaw types.now (frame heap.new) (objects_in types.now heap.new) (entry_at bricks.new) }
    ensures spans { spans bricks.new ≡ spans bricks.old }
{
    let object = heap.item(types, place);
    carry_entered(heap, types, bricks, object, item);
    object.size
}

// Carries the objects of a run to the lowest older free item in which the run fits, as `carry_plug` does, where there
// is one. Answers how many bytes went.
pub(crate) fn carry_fitting(
    heap: &mut Heap,
    types: &Types,
    bricks: &mut Bricks,
    hints: &mut Hints,
    plug: Span,
) -> u64
    requires held { IsHeld types.now heap.old }
    requires no_contexts { heap.old.rests ≡ no_rests }
    requires order { heap.old.start1 ≤ heap.old.start0 }
    requires bricks { AreBricksOf (frame heap.old) bricks.old }
    requires run { (run : List Item) × IsYoungRun types.now heap.old run plug }
    requires older { AreOlder (layout_in types.now heap.old) }
    requires hints { AreHints types.now heap.old hints.old.hints }
    ensures fitted { (run : List Item) → IsYoungRun types.now heap.old run plug
        → HasFitted types.now heap.old heap.new run plug result
        (lowest_item plug.size (older_items (layout_in types.now heap.old))) }
    ensures heap { IsHeap heap.new }
    ensures older { AreOlder (layout_in types.now heap.new) }
    ensures hints { AreHints types.now heap.new hints.new.hints }
    ensures bricks { BrickLaw types.now (frame heap.old) (objects_in types.now heap.old) (entry_at bricks.old)
        → BrickLaw types.now (frame heap.new) (objects_in types.now heap.new) (entry_at bricks.new) }
    ensures spans { spans bricks.new ≡ spans bricks.old }
{
    let found = find_lowest(heap, types, hints, plug.size());
    match found {
        Some(item) => {
            carry_plug(heap, types, bricks, plug, item);
            plug.size()
        }
        None => 0,
    }
}
