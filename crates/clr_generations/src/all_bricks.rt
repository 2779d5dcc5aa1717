// The bricks of all segments, renewed before a sweep.
ghost use Rattle.std.specs.Prelude.{◌≡◌, ℕ, ◌<◌, Bool, length};
ghost use Rattle.clr_bricks.specs.Bricks.{entry_at};
ghost use Rattle.clr_covers.specs.Covers.{spans};
ghost use Rattle.clr_heap.specs.View.{first_of, frame, no_rests, segment_at};
ghost use Rattle.clr_model.specs.Machine.{Object};
ghost use Rattle.clr_types.specs.Segments.{Layout};
ghost use Rattle.clr_view.specs.View.{IsHeld, objects_in};
ghost use Rattle.clr_generations.specs.Laws.{AreEntered, BrickLaw};
ghost use Rattle.clr_generations.specs.Renewing.{AreLeft, HasYoungBorder, left_in};
ghost use Rattle.clr_generations.specs.Tables.{AreBricksOf};

use crate::renewing::renew_bricks;
use clr_bricks::Bricks;
use clr_heap::Heap;
use clr_types::{FIRST_OFFSET, Types};

/// Renews the bricks of every segment before a sweep of all generations, while the marks stand.
pub fn renew_all_bricks(heap: &Heap, types: &Types, bricks: &mut Bricks)
    requires held { IsHeld types.now heap.now }
    requires no_contexts { heap.now.rests ≡ no_rests }
    requires young { (k : ℕ) → k < length heap.now.segments → HasYoungBorder types.now heap.now k }
    requires bricks { AreBricksOf (frame heap.now) bricks.old }
    requires law { BrickLaw types.now (frame heap.now) (objects_in types.now heap.now) (entry_at bricks.old) }
    ensures entered { (k : ℕ) (after : Layout) (keep : Object → Bool) → k < length heap.now.segments
        → AreLeft types.now heap.now k (first_of heap.now k) after keep
        → AreEntered types.now after (left_in types.now heap.now keep) (entry_at bricks.new) (segment_at heap.now k) }
    ensures spans { spans bricks.new ≡ spans bricks.old }
{
    let count = heap.segments();
    for k in 0..count {
        let from = heap.info(k).base + FIRST_OFFSET;
        renew_bricks(heap, types, bricks, k, from);
    }
}
