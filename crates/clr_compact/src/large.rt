// The slide of large segments by their plan.
ghost use Rattle.std.specs.Prelude.{◌≡◌, ℕ, ◌+◌, List, [], length};
ghost use Rattle.clr_covers.specs.Covers.{spans};
ghost use Rattle.clr_bricks.specs.Bricks.{entry_at};
ghost use Rattle.clr_heap.specs.View.{frame, HeapView, IsHeap};
ghost use Rattle.clr_model.specs.Compaction.{Move};
ghost use Rattle.clr_view.specs.View.{objects_in};
ghost use Rattle.clr_generations.specs.Laws.{BrickLaw};
ghost use Rattle.clr_moves.specs.Overlaid.{HoldsPlan};
ghost use Rattle.clr_moves.specs.declared.condemned.Condemned.TheVariants.{LargeSegments};
ghost use Rattle.clr_compact.specs.Compacted.{HasCompacted};
ghost use Rattle.clr_compact.specs.Large.{CanSlideLarge};

use crate::part_bricks::enter_whole_parts;
use crate::slide_plan::slide_plan;
use crate::slides::Slides;
use clr_bricks::Bricks;
use clr_heap::Heap;
use clr_moves::{Condemned, Planned};
use clr_pinq::PinQueue;
use clr_types::Types;

/// Slides the objects of large segments by the plan that stands before their plugs: each plug goes where its
/// information says, and what is left before one is one free item. Each marked object of the large segments stands at
/// its new place afterwards, with all its words but the mark, those that the queue saved included. All other segments
/// stay as they were, and the generations begin where they did.
///
/// The queue is empty then, with as much room as it took, and the bricks obey their law again. No count of compactions
/// is raised.
pub fn slide_large(heap: &mut Heap, types: &Types, bricks: &mut Bricks, pins: &mut PinQueue)
    requires { CanSlideLarge types.now heap.old bricks.old pins.old.entries }
    ensures compacted { (view : HeapView) (vs : List Move)
        → HoldsPlan types.now view heap.old bricks.old pins.old.entries LargeSegments vs heap.old.start1 heap.old.start0
        → HasCompacted types.now view heap.new LargeSegments vs }
    ensures lawful { IsHeap heap.new }
    ensures start1 { heap.new.start1 ≡ heap.old.start1 }
    ensures start0 { heap.new.start0 ≡ heap.old.start0 }
    ensures empty { pins.new.entries ≡ [] }
    ensures spare { pins.new.spare ≡ pins.old.spare + length pins.old.entries }
    ensures brick_law { BrickLaw types.now (frame heap.new) (objects_in types.now heap.new) (entry_at bricks.new) }
    ensures spans { spans bricks.new ≡ spans bricks.old }
{
    let planned = Planned::unmoved(heap);
    let mut uncounted = Slides::new();
    slide_plan(
        heap,
        types,
        bricks,
        pins,
        Condemned::LargeSegments,
        &planned,
        &mut uncounted,
    );
    pins.clear();
    enter_whole_parts(heap, types, bricks, Condemned::LargeSegments);
}
