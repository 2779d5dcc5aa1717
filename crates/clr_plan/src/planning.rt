// The plan of a compaction.
ghost use Rattle.std.specs.Prelude.{◌≡◌, ◌≢◌, ◌⊎◌, ℕ, ◌+◌, ◌-◌, ◌*◌, ◌/◌, ◌<◌, ◌≤◌, ◌^◌, Bool, true, [], length};
ghost use Rattle.clr_types.specs.Segments.{ephemeral, is_small_or_ephemeral};
ghost use Rattle.clr_covers.specs.Covers.{spans};
ghost use Rattle.clr_bricks.specs.Bricks.{entry_at};
ghost use Rattle.clr_heap.specs.View.{frame, last_of, no_rests, segment_at};
ghost use Rattle.clr_model.specs.Lawful.{IsLaid};
ghost use Rattle.clr_model.specs.Machine.{Machine};
ghost use Rattle.clr_view.specs.Memory.{IsMemoryOf, TestsMarks};
ghost use Rattle.clr_view.specs.View.{AreFreeHeads, IsHeld};
ghost use Rattle.clr_generations.specs.Tables.{AreBricksOf};
ghost use Rattle.clr_moves.specs.Moves.{part_of, takes};
ghost use Rattle.clr_plan.specs.Counts.{counts_in, counts_of, IsAtMost};
ghost use Rattle.clr_sweep.specs.Swept.{tally_of};
ghost use Rattle.clr_plan.specs.Pinned.{TellsPins};
ghost use Rattle.clr_plan.specs.Planned.{HasPlanned, pinned_marked};
ghost use Rattle.clr_moves.specs.declared.condemned.Condemned.TheVariants.{Generations};

use crate::counts::Counts;
use crate::heaps::{entries_at, plan_ephemeral, plan_lower};
use clr_bricks::Bricks;
use clr_heap::Heap;
use clr_moves::{Condemned, Planned, part_start};
use clr_pinq::PinQueue;
use clr_types::Types;

/// Plans a compaction of the generations up to `g`. Before each plug of marked objects of the small heap stands
/// afterwards how far it goes and how many bytes below it are unused, the bricks lead to the plugs, and words of live
/// neighbours that this overwrites are saved in the queue, which was empty.
///
/// A plug is a run of marked objects side by side of one generation and one pinned state. An object is pinned where its
/// header says so (`clr_types::header::is_pinned`); a plug of pinned objects stays. Of the bricks only those of the
/// parts that are compacted change, with the one below each. The answer tells where generations 1 and 0 begin after
/// the compaction, and the two entries that the plan has overwritten at the start of the ephemeral segment's part:
/// that of the brick below the part's first one and that of its first one. Beside that it tells how many objects stand
/// in the parts: those that the collection goes over, but for large ones. The queue needs an entry for each pinned
/// object, and four more.
pub fn plan(
    heap: &mut Heap,
    types: &Types,
    bricks: &mut Bricks,
    pins: &mut PinQueue,
    g: u8,
) -> (Planned, Counts)
    requires least { g ≤ 2 }
    requires held { IsHeld types.now heap.old }
    requires no_contexts { heap.old.rests ≡ no_rests }
    requires laid { (m : Machine) × IsMemoryOf types.now heap.old m × IsLaid m × TellsPins types.now heap.old m }
    requires bricks { AreBricksOf (frame heap.old) bricks.old }
    requires free_heads { AreFreeHeads types.now heap.old }
    requires empty { pins.old.entries ≡ [] }
    requires spare { pinned_marked types.now heap.old + 4 ≤ pins.old.spare }
    ensures planned { (m : Machine) (kept : ℕ → Bool) → IsMemoryOf types.now heap.old m
        → TestsMarks types.now heap.old g kept → TellsPins types.now heap.old m
        → HasPlanned types.now heap.old heap.new bricks.new pins.new.entries (Generations g) m kept result.0.start1
        result.0.start0 }
    ensures spare { pins.old.spare ≡ pins.new.spare + length pins.new.entries }
    ensures entries { (i : ℕ)
        → ((t : ℕ) → t < length heap.old.segments → takes (Generations g) (segment_at heap.old t) ≡ true
        → (i + 1 < part_of heap.old (Generations g) t / 4096) ⊎ (last_of heap.old t ≤ i * 4096))
        → entry_at bricks.new i ≡ entry_at bricks.old i }
    ensures below { (e : ℕ) → segment_at heap.old e ≡ ephemeral (frame heap.old)
        → result.0.below ≡ entry_at bricks.old (part_of heap.old (Generations g) e / 4096 - 1) }
    ensures first { (e : ℕ) → segment_at heap.old e ≡ ephemeral (frame heap.old)
        → result.0.first ≡ entry_at bricks.old (part_of heap.old (Generations g) e / 4096) }
    ensures spans { spans bricks.new ≡ spans bricks.old }
    ensures young { g ≢ 2 → result.1 ≡ counts_of (tally_of types.now heap.old g) }
    ensures whole { g ≡ 2 → result.1 ≡ counts_in types.now heap.old (Generations 2) (length heap.old.segments) }
    ensures few { IsAtMost result.1 (2 ^ 63) }
{
    let e = heap.ephemeral();
    let low = part_start(heap, Condemned::Generations(g), e);
    let (below, first) = entries_at(heap, bricks, e, low);
    let lower = plan_lower(heap, types, bricks, pins, e, low, g);
    let (start1, start0, counts) = plan_ephemeral(heap, types, bricks, pins, lower.at, e, low, g);
    let planned = Planned {
        start1,
        start0,
        below,
        first,
    };
    (planned, lower.counts.plus(counts))
}
