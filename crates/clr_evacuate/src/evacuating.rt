// Carries all runs of survivors of generation 1 that may go into older free items.
ghost use Rattle.std.specs.Prelude.{◌≡◌, ℕ, ◌<◌, ◌≤◌, Bool, length};
ghost use Rattle.clr_bricks.specs.Bricks.{entry_at};
ghost use Rattle.clr_covers.specs.Covers.{spans};
ghost use Rattle.clr_heap.specs.View.{frame, IsHeap, no_rests};
ghost use Rattle.clr_model.specs.Fitting.{fit, older_items};
ghost use Rattle.clr_model.specs.Lawful.{IsLaid};
ghost use Rattle.clr_model.specs.Machine.{Machine};
ghost use Rattle.clr_view.specs.Memory.{IsMemoryOf, TestsMarks};
ghost use Rattle.clr_view.specs.View.{AreFreeHeads, IsHeld, layout_in, objects_in};
ghost use Rattle.clr_generations.specs.Laws.{BrickLaw};
ghost use Rattle.clr_generations.specs.Tables.{AreBricksOf};
ghost use Rattle.clr_plan.specs.Pinned.{TellsPins};
ghost use Rattle.clr_evacuate.specs.Evacuated.{HasMadeFit};
ghost use Rattle.clr_evacuate.specs.FittedAll.{CanCarryBetween, HasMade};
ghost use Rattle.clr_evacuate.specs.Fittings.{fitting_between};

use crate::fittings::next_fitting;
use crate::hints::Hints;
use crate::plugs::carry_fitting;
use clr_bricks::Bricks;
use clr_heap::Heap;
use clr_types::Types;

// Carries the marked objects of generation 1 that aren't pinned, run by run and low to high, each run to the front of
// the lowest free item of generation 2 of the small heap in which it then fits, where there is one. Answers how many
// bytes went.
//
// It makes the fit of every lawful machine that has this memory, and whose pinned handles headers tell. Where each
// object stood that went, a free item says where, and references still name its old place. Bricks keep their law.
pub(crate) fn carry_all(heap: &mut Heap, types: &Types, bricks: &mut Bricks) -> u64
    requires held { IsHeld types.now heap.old }
    requires no_contexts { heap.old.rests ≡ no_rests }
    requires free_heads { AreFreeHeads types.now heap.old }
    requires laid { (n : Machine) × IsMemoryOf types.now heap.old n × IsLaid n }
    requires bricks { AreBricksOf (frame heap.old) bricks.old }
    ensures made { (n : Machine) (kept : ℕ → Bool) → IsMemoryOf types.now heap.old n → IsLaid n
        → TellsPins types.now heap.old n → TestsMarks types.now heap.old 1 kept
        → HasMadeFit types.now heap.old heap.new n kept result }
    ensures bricks { BrickLaw types.now (frame heap.old) (objects_in types.now heap.old) (entry_at bricks.old)
        → BrickLaw types.now (frame heap.new) (objects_in types.now heap.new) (entry_at bricks.new) }
    ensures spans { spans bricks.new ≡ spans bricks.old }
{
    let k = heap.ephemeral();
    let (start1, start0) = heap.boundaries();
    carry_between(heap, types, bricks, k, start1, start0)
}

// Carries each run of segment `k` from `from` to `end` that may go into an older item to the lowest one in which it
// then fits, where there is one. Answers how many bytes went. Bricks keep their law.
fn carry_between(
    heap: &mut Heap,
    types: &Types,
    bricks: &mut Bricks,
    k: usize,
    from: u64,
    end: u64,
) -> u64
    requires heap { IsHeap heap.old }
    requires held { IsHeld types.now heap.old }
    requires no_contexts { heap.old.rests ≡ no_rests }
    requires order { heap.old.start1 ≤ heap.old.start0 }
    requires in_range { k < length heap.old.segments }
    requires can { CanCarryBetween types.now heap.old k from end }
    requires bricks { AreBricksOf (frame heap.old) bricks.old }
    ensures made { HasMade types.now heap.old heap.new from
        (fit (fitting_between types.now heap.old k from end) (older_items (layout_in types.now heap.old))) result }
    ensures bricks { BrickLaw types.now (frame heap.old) (objects_in types.now heap.old) (entry_at bricks.old)
        → BrickLaw types.now (frame heap.new) (objects_in types.now heap.new) (entry_at bricks.new) }
    ensures spans { spans bricks.new ≡ spans bricks.old }
{
    let mut hints = Hints::new();
    let mut place = from;
    let mut bytes = 0;
    while let Some(plug) = next_fitting(heap, types, k, place, end) {
        bytes += carry_fitting(heap, types, bricks, &mut hints, plug);
        place = plug.end();
    }
    bytes
}
