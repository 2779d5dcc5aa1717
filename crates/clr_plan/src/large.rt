// The plan of a slide of the large segments.
ghost use Rattle.std.specs.Prelude.{◌≡◌, ◌⊎◌, ℕ, ◌+◌, ◌*◌, ◌/◌, ◌<◌, ◌≤◌, Bool, true, [], length};
ghost use Rattle.clr_covers.specs.Covers.{spans};
ghost use Rattle.clr_bricks.specs.Bricks.{entry_at};
ghost use Rattle.clr_heap.specs.View.{frame, last_of, no_rests, segment_at};
ghost use Rattle.clr_model.specs.Lawful.{IsLaid};
ghost use Rattle.clr_model.specs.Machine.{Machine};
ghost use Rattle.clr_view.specs.Memory.{IsMemoryOf, TestsMarks};
ghost use Rattle.clr_view.specs.View.{AreFreeHeads, IsHeld};
ghost use Rattle.clr_generations.specs.Tables.{AreBricksOf};
ghost use Rattle.clr_moves.specs.Moves.{part_of, takes};
ghost use Rattle.clr_moves.specs.declared.condemned.Condemned.TheVariants.{LargeSegments};
ghost use Rattle.clr_plan.specs.Pinned.{TellsPins};
ghost use Rattle.clr_plan.specs.Planned.{HasPlanned, pinned_marked};

use crate::whole_parts::plan_whole;
use clr_bricks::Bricks;
use clr_heap::Heap;
use clr_moves::{Condemned, next_part};
use clr_pinq::PinQueue;
use clr_types::Types;

/// Plans a slide of the marked objects of the large segments, where nothing else of these segments stays. Before each
/// of their plugs stands afterwards how far it goes and how many bytes below it are unused, the bricks lead to the
/// plugs, and words of live neighbours that this overwrites are saved in the queue, which was empty.
///
/// A plug is a run of marked objects side by side of one pinned state, and one of pinned objects stays, as in `plan`.
/// Each other one goes to the lowest candidate at or above the pointer at which it fits, between the pinned plugs of
/// all large segments, and the pointer begins at the first place of the lowest one. The boundaries of the generations
/// stay. Of the bricks only those of the large segments change, with the one below each. The queue needs an entry for
/// each pinned object, and four more.
pub fn plan_large(heap: &mut Heap, types: &Types, bricks: &mut Bricks, pins: &mut PinQueue)
    requires held { IsHeld types.now heap.old }
    requires no_contexts { heap.old.rests ≡ no_rests }
    requires laid { (m : Machine) × IsMemoryOf types.now heap.old m × IsLaid m × TellsPins types.now heap.old m }
    requires bricks { AreBricksOf (frame heap.old) bricks.old }
    requires free_heads { AreFreeHeads types.now heap.old }
    requires empty { pins.old.entries ≡ [] }
    requires spare { pinned_marked types.now heap.old + 4 ≤ pins.old.spare }
    ensures planned { (m : Machine) (kept : ℕ → Bool) → IsMemoryOf types.now heap.old m
        → TestsMarks types.now heap.old 2 kept → TellsPins types.now heap.old m
        → HasPlanned types.now heap.old heap.new bricks.new pins.new.entries LargeSegments m kept heap.old.start1
        heap.old.start0 }
    ensures spare { pins.old.spare ≡ pins.new.spare + length pins.new.entries }
    ensures entries { (i : ℕ)
        → ((t : ℕ) → t < length heap.old.segments → takes LargeSegments (segment_at heap.old t) ≡ true
        → (i + 1 < part_of heap.old LargeSegments t / 4096) ⊎ (last_of heap.old t ≤ i * 4096))
        → entry_at bricks.new i ≡ entry_at bricks.old i }
    ensures spans { spans bricks.new ≡ spans bricks.old }
{
    let count = heap.segments();
    if next_part(heap, Condemned::LargeSegments, 0) < count {
        let _ = plan_whole(heap, types, bricks, pins, Condemned::LargeSegments, count);
    }
}
