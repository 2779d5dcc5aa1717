// A sweep that passes over what is known to stay.
ghost use Rattle.std.specs.Prelude.{◌≡◌, ℕ, ◌<◌, Bool, length};
ghost use Rattle.clr_bricks.specs.Bricks.{entry_at};
ghost use Rattle.clr_covers.specs.Covers.{spans};
ghost use Rattle.clr_generations.specs.Laws.{AreEntered, BrickLaw};
ghost use Rattle.clr_generations.specs.Renewing.{AreLeft, left_in};
ghost use Rattle.clr_generations.specs.Tables.{AreBricksOf};
ghost use Rattle.clr_heap.specs.View.{frame, heap_items, HeapView, IsHeap, no_rests, segment_at};
ghost use Rattle.clr_model.specs.Lawful.{IsLaid};
ghost use Rattle.clr_model.specs.Machine.{Machine, Object};
ghost use Rattle.clr_types.specs.Segments.{Layout};
ghost use Rattle.clr_view.specs.View.{IsHeld, objects_in};
ghost use Rattle.clr_view.specs.Memory.{IsMemoryOf};
ghost use Rattle.clr_sweep.specs.Fronts.{front_at, HasFronts};
ghost use Rattle.clr_sweep.specs.Swept.{HasSwept, tally_of};
ghost use Rattle.clr_sweep.specs.SweptItems.{HasSweptItems, tally_among};

use crate::pass::sweep_segment;
use crate::sweeping::age;
use crate::tally::Tally;
use clr_bricks::Bricks;
use clr_generations::renew_bricks;
use clr_heap::Heap;
use clr_types::Types;

/// The front of a segment: a sweep would leave its items as they are, since all of its objects stay, and no two of its
/// free items stand side by side.
#[derive(Clone, Copy, Debug, PartialEq, Eq)]
pub struct Front {
    /// Where it ends.
    pub place: u64,
    /// How many objects stand in it.
    pub count: u64,
}

/// Sweeps all generations, as `sweep` does, and counts them, but passes over the front of each segment, which such a
/// sweep would leave as it is. No object of a front carries a mark: it is known to stay all the same. So this is the
/// sweep of each heap in which these objects are marked, too. The bricks obey their law again.
pub fn sweep_behind(heap: &mut Heap, types: &Types, bricks: &mut Bricks, fronts: &[Front]) -> Tally
    requires held { IsHeld types.now heap.old }
    requires no_contexts { heap.old.rests ≡ no_rests }
    requires laid { (m : Machine) × IsMemoryOf types.now heap.old m × IsLaid m }
    requires bricks { AreBricksOf (frame heap.old) bricks.old }
    requires brick_law { BrickLaw types.now (frame heap.old) (objects_in types.now heap.old) (entry_at bricks.old) }
    requires count { length fronts.now ≡ length heap.old.segments }
    requires fronts { (v : HeapView) × HasFronts types.now heap.old v fronts.now }
    ensures swept { (v : HeapView) → HasFronts types.now heap.old v fronts.now → HasSwept types.now v heap.new 2 }
    ensures tally { (v : HeapView) → HasFronts types.now heap.old v fronts.now → result ≡ tally_of types.now v 2 }
    ensures brick_law { BrickLaw types.now (frame heap.new) (objects_in types.now heap.new) (entry_at bricks.new) }
    ensures spans { spans bricks.new ≡ spans bricks.old }
{
    let count = heap.segments();
    renew_behind(heap, types, bricks, fronts);
    sweep_parts(heap, types, fronts, count)
}

// Renews the bricks of the part of each segment behind its front, while the marks stand there. The bricks of the front
// go on naming its objects.
fn renew_behind(heap: &Heap, types: &Types, bricks: &mut Bricks, fronts: &[Front])
    requires held { IsHeld types.now heap.now }
    requires no_contexts { heap.now.rests ≡ no_rests }
    requires laid { (m : Machine) × IsMemoryOf types.now heap.now m × IsLaid m }
    requires bricks { AreBricksOf (frame heap.now) bricks.old }
    requires brick_law { BrickLaw types.now (frame heap.now) (objects_in types.now heap.now) (entry_at bricks.old) }
    requires count { length fronts.now ≡ length heap.now.segments }
    requires fronts { (v : HeapView) × HasFronts types.now heap.now v fronts.now }
    ensures entered { (k : ℕ) (after : Layout) (keep : Object → Bool) → k < length heap.now.segments
        → AreLeft types.now heap.now k (front_at fronts.now k).place after keep
        → AreEntered types.now after (left_in types.now heap.now keep) (entry_at bricks.new) (segment_at heap.now k) }
    ensures spans { spans bricks.new ≡ spans bricks.old }
{
    let count = heap.segments();
    for k in 0..count {
        renew_bricks(heap, types, bricks, k, fronts[k].place);
    }
}

// Sweeps the part of each of the `count` segments behind its front, whatever the bricks say. The clauses speak of the
// items of each.
fn sweep_parts(heap: &mut Heap, types: &Types, fronts: &[Front], count: usize) -> Tally
    requires heap { IsHeap heap.old }
    requires held { IsHeld types.now heap.old }
    requires no_contexts { heap.old.rests ≡ no_rests }
    requires count { count ≡ length heap.old.segments }
    requires enough { length fronts.now ≡ length heap.old.segments }
    requires fronts { (v : HeapView) × HasFronts types.now heap.old v fronts.now }
    ensures swept { (v : HeapView) → HasFronts types.now heap.old v fronts.now
        → HasSweptItems types.now v heap.new }
    ensures tally { (v : HeapView) → HasFronts types.now heap.old v fronts.now
        → result ≡ tally_among v (heap_items types.now v) }
    ensures lawful { IsHeap heap.new }
{
    let mut tally = Tally::NONE;
    for k in 0..count {
        let front = fronts[k];
        let counted = Tally {
            kept: tally.kept + front.count,
            ..tally
        };
        tally = sweep_segment(heap, types, k, front.place, counted);
    }
    age(heap, 2);
    tally
}
