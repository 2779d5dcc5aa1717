// A sweep of a generation and of all younger ones.
ghost use Rattle.std.specs.Prelude.{◌≡◌, ℕ, ◌<◌, ◌≤◌, length};
ghost use Rattle.clr_bricks.specs.Bricks.{entry_at};
ghost use Rattle.clr_covers.specs.Covers.{spans};
ghost use Rattle.clr_generations.specs.Laws.{BrickLaw};
ghost use Rattle.clr_generations.specs.Tables.{AreBricksOf};
ghost use Rattle.clr_heap.specs.View.{frame, heap_items, IsHeap, no_rests, segment_at};
ghost use Rattle.clr_model.specs.Lawful.{IsLaid};
ghost use Rattle.clr_model.specs.Machine.{Machine};
ghost use Rattle.clr_types.specs.Segments.{ephemeral};
ghost use Rattle.clr_view.specs.View.{IsHeld, objects_in};
ghost use Rattle.clr_view.specs.Memory.{IsMemoryOf};
ghost use Rattle.clr_sweep.specs.Swept.{HasSwept, tally_of};
ghost use Rattle.clr_sweep.specs.SweptItems.{aged, HasSweptItems, tally_among, young_start};
ghost use Rattle.clr_sweep.specs.SweptSegments.{HasSweptYoung, IsParted};

use crate::pass::sweep_segment;
use crate::tally::Tally;
use clr_bricks::Bricks;
use clr_generations::{renew_all_bricks, renew_bricks};
use clr_heap::Heap;
use clr_types::{FIRST_OFFSET, Types};

/// Sweeps the objects of generation `g` and of all younger ones, and counts them. Those that aren't marked become free:
/// in the part of the heap where such objects stand, each longest run of what doesn't stay inside one old generation is
/// one free item, and behind the last marked object the segment ends. Marked objects stay where they are, without their
/// marks. The head of each new free item is written anew, so that none carries a mark. Each of these generations
/// becomes the next older one. Nothing else changes: a sweep of generation 0 or 1 goes over the young part of the
/// ephemeral segment alone. The bricks of these parts are renewed before, while the marks stand, and obey their law
/// again.
///
/// The heap is that of a lawful machine whose contexts are given up.
pub fn sweep(heap: &mut Heap, types: &Types, bricks: &mut Bricks, g: u8) -> Tally
    requires held { IsHeld types.now heap.old }
    requires no_contexts { heap.old.rests ≡ no_rests }
    requires laid { (m : Machine) × IsMemoryOf types.now heap.old m × IsLaid m }
    requires generation { g ≤ 2 }
    requires bricks { AreBricksOf (frame heap.old) bricks.old }
    requires brick_law { BrickLaw types.now (frame heap.old) (objects_in types.now heap.old) (entry_at bricks.old) }
    ensures swept { HasSwept types.now heap.old heap.new g }
    ensures tally { result ≡ tally_of types.now heap.old g }
    ensures brick_law { BrickLaw types.now (frame heap.new) (objects_in types.now heap.new) (entry_at bricks.new) }
    ensures spans { spans bricks.new ≡ spans bricks.old }
{
    if g == 2 {
        sweep_whole(heap, types, bricks)
    } else {
        sweep_part(heap, types, bricks, g)
    }
}

// Sweeps the objects of all generations, and counts them.
fn sweep_whole(heap: &mut Heap, types: &Types, bricks: &mut Bricks) -> Tally
    requires held { IsHeld types.now heap.old }
    requires no_contexts { heap.old.rests ≡ no_rests }
    requires laid { (m : Machine) × IsMemoryOf types.now heap.old m × IsLaid m }
    requires bricks { AreBricksOf (frame heap.old) bricks.old }
    requires brick_law { BrickLaw types.now (frame heap.old) (objects_in types.now heap.old) (entry_at bricks.old) }
    ensures swept { HasSwept types.now heap.old heap.new 2 }
    ensures tally { result ≡ tally_of types.now heap.old 2 }
    ensures brick_law { BrickLaw types.now (frame heap.new) (objects_in types.now heap.new) (entry_at bricks.new) }
    ensures spans { spans bricks.new ≡ spans bricks.old }
{
    let count = heap.segments();
    renew_all_bricks(heap, types, bricks);
    sweep_segments(heap, types, count)
}

// Sweeps the objects of generation 0 or of the generations 0 and 1, and counts them.
fn sweep_part(heap: &mut Heap, types: &Types, bricks: &mut Bricks, g: u8) -> Tally
    requires held { IsHeld types.now heap.old }
    requires no_contexts { heap.old.rests ≡ no_rests }
    requires laid { (m : Machine) × IsMemoryOf types.now heap.old m × IsLaid m }
    requires generation { g ≤ 1 }
    requires bricks { AreBricksOf (frame heap.old) bricks.old }
    requires brick_law { BrickLaw types.now (frame heap.old) (objects_in types.now heap.old) (entry_at bricks.old) }
    ensures swept { HasSwept types.now heap.old heap.new g }
    ensures tally { result ≡ tally_of types.now heap.old g }
    ensures brick_law { BrickLaw types.now (frame heap.new) (objects_in types.now heap.new) (entry_at bricks.new) }
    ensures spans { spans bricks.new ≡ spans bricks.old }
{
    let k = heap.ephemeral();
    let start = start_of(heap, g);
    renew_bricks(heap, types, bricks, k, start);
    sweep_young(heap, types, g)
}

// Sweeps each of the `count` segments, whatever the bricks say. The clauses speak of the items of each.
fn sweep_segments(heap: &mut Heap, types: &Types, count: usize) -> Tally
    requires heap { IsHeap heap.old }
    requires count { count ≡ length heap.old.segments }
    requires held { IsHeld types.now heap.old }
    requires no_contexts { heap.old.rests ≡ no_rests }
    ensures swept { HasSweptItems types.now heap.old heap.new }
    ensures tally { result ≡ tally_among heap.old (heap_items types.now heap.old) }
    ensures lawful { IsHeap heap.new }
{
    let mut tally = Tally::NONE;
    for k in 0..count {
        let from = heap.info(k).base + FIRST_OFFSET;
        tally = sweep_segment(heap, types, k, from, tally);
    }
    age(heap, 2);
    tally
}

// Sweeps the young part of the ephemeral segment, whatever the bricks say. The clauses speak of the items there.
fn sweep_young(heap: &mut Heap, types: &Types, g: u8) -> Tally
    requires no_contexts { heap.old.rests ≡ no_rests }
    requires parted { (k : ℕ) → k < length heap.old.segments → segment_at heap.old k ≡ ephemeral (frame heap.old)
        → IsParted types.now heap.old k (young_start heap.old g) }
    ensures swept { HasSweptYoung types.now heap.old heap.new g result }
    ensures lawful { IsHeap heap.new }
{
    let k = heap.ephemeral();
    let from = start_of(heap, g);
    let tally = sweep_segment(heap, types, k, from, Tally::NONE);
    age(heap, g);
    tally
}

// Where the part of the ephemeral segment begins that a sweep of generation 0 or 1 goes over.
pub(crate) fn start_of(heap: &Heap, g: u8) -> u64
    ensures { result ≡ young_start heap.now g }
{
    let (start1, start0) = heap.boundaries();
    if g == 0 { start0 } else { start1 }
}

// What was generation 0 begins where generation 1 ends, what was generation 1 is older now, and generation 0 begins at
// the end of the ephemeral segment.
pub(crate) fn age(heap: &mut Heap, g: u8)
    ensures aged { heap.new ≡ aged heap.old g }
    ensures lawful { IsHeap heap.new }
{
    let tail = heap.info(heap.ephemeral()).end;
    let (start1, start0) = heap.boundaries();
    let old = if g == 0 { start1 } else { start0.min(tail) };
    heap.set_boundaries(old, tail);
}
