// A whole compaction of the small heap by its plan.
ghost use Rattle.std.specs.Prelude.{◌≡◌, ℕ, ◌+◌, ◌-◌, ◌≤◌, ◌^◌, List, [], length, min};
ghost use Rattle.clr_covers.specs.Covers.{spans};
ghost use Rattle.clr_bricks.specs.Bricks.{entry_at};
ghost use Rattle.clr_heap.specs.View.{frame, HeapView, IsHeap};
ghost use Rattle.clr_model.specs.Compaction.{Move};
ghost use Rattle.clr_view.specs.View.{objects_in};
ghost use Rattle.clr_generations.specs.Laws.{BrickLaw};
ghost use Rattle.clr_moves.specs.Moves.{moved_bytes};
ghost use Rattle.clr_moves.specs.Overlaid.{HoldsPlan};
ghost use Rattle.clr_moves.specs.Promoted.{bytes_between};
ghost use Rattle.clr_compact.specs.Compacted.{CanCompact, HasCompacted};
ghost use Rattle.clr_moves.specs.declared.condemned.Condemned.TheVariants.{Generations};

use crate::part_bricks::{enter_parts, young_part};
use crate::slide_plan::slide_plan;
use crate::slides::Slides;
use clr_bricks::Bricks;
use clr_heap::Heap;
use clr_moves::{Condemned, Planned, Promoted};
use clr_pinq::PinQueue;
use clr_types::Types;

/// Compacts the small heap by the plan of the generations up to `g` that stands before its plugs: each plug goes where
/// its information says, and what is left before one is one free item. Each marked object of the compacted parts stands
/// at its new place afterwards, with all its words but the mark, those that the queue saved included. What is older and
/// the large segments stay as they were before the plan was written.
///
/// The generations 1 and 0 begin where `planned` says then, the queue is empty, with at least as much room as it took,
/// and the bricks obey their law again. `slides` counts one more, and each byte of a plug that went. The bytes of the
/// plugs that became older are answered.
pub fn compact(
    heap: &mut Heap,
    types: &Types,
    bricks: &mut Bricks,
    pins: &mut PinQueue,
    g: u8,
    planned: &Planned,
    slides: &mut Slides,
) -> Promoted
    requires least { g ≤ 2 }
    requires plan { CanCompact types.now heap.old bricks.old pins.old.entries g planned.now }
    ensures compacted { (view : HeapView) (vs : List Move)
        → HoldsPlan types.now view heap.old bricks.old pins.old.entries (Generations g) vs planned.now.start1
        planned.now.start0
        → HasCompacted types.now view heap.new (Generations g) vs }
    ensures lawful { IsHeap heap.new }
    ensures start1 { heap.new.start1 ≡ planned.now.start1 }
    ensures start0 { heap.new.start0 ≡ planned.now.start0 }
    ensures empty { pins.new.entries ≡ [] }
    ensures spare { pins.new.spare ≡ pins.old.spare + length pins.old.entries }
    ensures slides { (view : HeapView) (vs : List Move)
        → HoldsPlan types.now view heap.old bricks.old pins.old.entries (Generations g) vs planned.now.start1
        planned.now.start0
        → slides.new ≡ min (2 ^ 64 - 1) (slides.old + (1 + moved_bytes vs)) }
    ensures to1 { (view : HeapView) (vs : List Move)
        → HoldsPlan types.now view heap.old bricks.old pins.old.entries (Generations g) vs planned.now.start1
        planned.now.start0
        → result.to1 ≡ bytes_between (frame heap.old) planned.now vs 0 }
    ensures to2 { (view : HeapView) (vs : List Move)
        → HoldsPlan types.now view heap.old bricks.old pins.old.entries (Generations g) vs planned.now.start1
        planned.now.start0
        → result.to2 ≡ bytes_between (frame heap.old) planned.now vs 1 }
    ensures brick_law { BrickLaw types.now (frame heap.new) (objects_in types.now heap.new) (entry_at bricks.new) }
    ensures spans { spans bricks.new ≡ spans bricks.old }
{
    let part = young_part(heap, g);
    let promoted = slide_plan(
        heap,
        types,
        bricks,
        pins,
        Condemned::Generations(g),
        planned,
        slides,
    );
    pins.clear();
    heap.set_boundaries(planned.start1, planned.start0);
    enter_parts(heap, types, bricks, g, planned, part);
    promoted
}
