// The slide of large segments.
ghost use Rattle.std.specs.Prelude.{◌≡◌, ℕ, ◌+◌, List, ℤ, [], length};
ghost use Rattle.clr_bricks.specs.Bricks.{entry_at};
ghost use Rattle.clr_covers.specs.Covers.{spans};
ghost use Rattle.clr_generations.specs.Laws.{BrickLaw};
ghost use Rattle.clr_generations.specs.Tidy.{IsTidy};
ghost use Rattle.clr_heap.specs.View.{frame, HeapView, no_rests};
ghost use Rattle.clr_model.specs.Compaction.{Move};
ghost use Rattle.clr_model.specs.Lawful.{IsLaid, IsPlaceNamed};
ghost use Rattle.clr_model.specs.Machine.{Machine};
ghost use Rattle.clr_view.specs.Marks.{IsUnmarked};
ghost use Rattle.clr_view.specs.Memory.{IsMemoryOf};
ghost use Rattle.clr_view.specs.View.{objects_in};
ghost use Rattle.clr_view.specs.World.{IsWorldOf};
ghost use Rattle.clr_survivors.specs.Large.{CanSlide, HasPlannedSlide, HasSlidBy, HaveSlid};
ghost use Rattle.clr_survivors.specs.Moving.{IsReadyFor, KeepsNumbers};
ghost use Rattle.clr_survivors.specs.Phases.{plan_of};
ghost use Rattle.clr_survivors.specs.Survivors.{HasObjects, world_of};

use crate::pins::set_pins;
use crate::roots::{Roots, move_roots};
use clr_compact::slide_large;
use clr_generations::Space;
use clr_heap::Heap;
use clr_mark::mark_large;
use clr_moves::{Condemned, Planned};
use clr_pinq::PinQueue;
use clr_plan::plan_large;
use clr_reloc::relocate;
use clr_types::Types;

/// Slides the large heap: each run of objects of large segments goes down to where it fits, but for what pinned
/// handles name, which stays. Locals, handles, entries, the f-reachable queue and all references name the new places
/// then. All other objects stay where they are, and every object keeps its generation.
///
/// What is left before a pinned object is one free item, and a large segment ends behind its last object. Nothing is
/// marked, headers and padding are clean, and cards and bricks obey their laws, before and after. As many handles are
/// pinned, and finalisation has as many entries. No count of compactions is raised. `pins`, the queue of saved words,
/// is empty before and after, with room for four entries more than there are pinned handles.
///
/// The heap is that of a lawful machine without contexts, its objects named by their places.
pub fn slide_large_heap(types: &Types, space: &mut Space, roots: &mut Roots, pins: &mut PinQueue)
    requires tidy { IsTidy types.now space.old }
    requires no_contexts { space.old.heap.rests ≡ no_rests }
    requires unmarked { IsUnmarked types.now space.old.heap }
    requires world { (n : Machine) × IsWorldOf (world_of types.now space.old.heap roots.old) n × IsPlaceNamed n }
    requires ready { IsReadyFor roots.old.handles pins.old }
    ensures slid { (n : Machine) → IsMemoryOf types.now space.old.heap n → IsLaid n → n.handles ≡ roots.old.handles
        → HaveSlid (world_of types.now space.old.heap roots.old) (world_of types.now space.new.heap roots.new) n }
    ensures tidy { IsTidy types.now space.new }
    ensures unmarked { IsUnmarked types.now space.new.heap }
    ensures no_contexts { space.new.heap.rests ≡ no_rests }
    ensures occupied { HasObjects types.now space.old.heap → HasObjects types.now space.new.heap }
    ensures limit { space.new.heap.limit ≡ space.old.heap.limit }
    ensures ready { IsReadyFor roots.new.handles pins.new }
    ensures room { pins.new.spare ≡ pins.old.spare }
    ensures numbers { KeepsNumbers roots.old roots.new }
{
    plan_slide(types, space, roots, pins);
    let planned = Planned::unmoved(&space.heap);
    slide_by_plan(types, space, roots, pins, &planned);
    set_pins(&mut space.heap, types, &roots.handles, 1, false);
}

// Marks all objects of large segments, says in the headers what pinned handles name, and plans the slide.
fn plan_slide(types: &Types, space: &mut Space, roots: &Roots, pins: &mut PinQueue)
    requires tidy { IsTidy types.now space.old }
    requires no_contexts { space.old.heap.rests ≡ no_rests }
    requires unmarked { IsUnmarked types.now space.old.heap }
    requires world { (n : Machine) × IsWorldOf (world_of types.now space.old.heap roots.now) n × IsPlaceNamed n }
    requires ready { IsReadyFor roots.now.handles pins.old }
    ensures planned { (m : Machine) → IsMemoryOf types.now space.old.heap m → m.handles ≡ roots.now.handles
        → HasPlannedSlide types.now space.old space.new pins.new.entries roots.now.handles m }
    ensures spare { pins.old.spare ≡ pins.new.spare + length pins.new.entries }
{
    mark_large(&mut space.heap, types);
    set_pins(&mut space.heap, types, &roots.handles, 1, true);
    plan_large(&mut space.heap, types, &mut space.bricks, pins);
}

// Slides large objects by the plan, and all names with them.
fn slide_by_plan(
    types: &Types,
    space: &mut Space,
    roots: &mut Roots,
    pins: &mut PinQueue,
    planned: &Planned,
)
    requires can { (view : HeapView) × (vs : List Move) × (entry : ℕ → ℤ)
        × CanSlide (plan_of types.now view pins.old.entries vs planned.now) space.old entry planned.now roots.old }
    ensures slid { (view : HeapView) (vs : List Move) (entry : ℕ → ℤ)
        → CanSlide (plan_of types.now view pins.old.entries vs planned.now) space.old entry planned.now roots.old
        → HasSlidBy (plan_of types.now view pins.old.entries vs planned.now) space.new planned.now roots.old
        roots.new }
    ensures brick_law { BrickLaw types.now (frame space.new.heap) (objects_in types.now space.new.heap)
        (entry_at space.new.bricks) }
    ensures start1 { space.new.heap.start1 ≡ planned.now.start1 }
    ensures start0 { space.new.heap.start0 ≡ planned.now.start0 }
    ensures empty { pins.new.entries ≡ [] }
    ensures spare { pins.new.spare ≡ pins.old.spare + length pins.old.entries }
    ensures cards { spans space.new.cards ≡ spans space.old.cards }
    ensures bricks { spans space.new.bricks ≡ spans space.old.bricks }
{
    relocate(
        &mut space.heap,
        types,
        &mut space.cards,
        &space.bricks,
        pins,
        Condemned::LargeSegments,
        planned,
    );
    move_roots(&space.heap, &space.bricks, Condemned::LargeSegments, roots);
    slide_large(&mut space.heap, types, &mut space.bricks, pins);
}
