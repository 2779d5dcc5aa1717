// What survives a compacting collection goes where its plan takes it.
ghost use Rattle.std.specs.Prelude.{◌≡◌, ℕ, ◌+◌, ◌≤◌, ◌^◌, Bool, List, [], false, length, ℤ};
ghost use Rattle.clr_bricks.specs.Bricks.{entry_at};
ghost use Rattle.clr_covers.specs.Covers.{spans};
ghost use Rattle.clr_generations.specs.Laws.{BrickLaw};
ghost use Rattle.clr_generations.specs.Tables.{AreBricksOf};
ghost use Rattle.clr_generations.specs.Tidy.{IsTidy};
ghost use Rattle.clr_heap.specs.View.{frame, HeapView, no_rests};
ghost use Rattle.clr_model.specs.Compaction.{Move};
ghost use Rattle.clr_model.specs.Lawful.{IsLaid};
ghost use Rattle.clr_model.specs.Machine.{Machine};
ghost use Rattle.clr_view.specs.Marks.{IsUnmarked};
ghost use Rattle.clr_view.specs.Memory.{IsMemoryOf, TestsMarks};
ghost use Rattle.clr_view.specs.View.{IsHeld, objects_in};
ghost use Rattle.clr_plan.specs.Counts.{counts_of, IsAtMost};
ghost use Rattle.clr_sweep.specs.Swept.{tally_of};
ghost use Rattle.clr_survivors.specs.Condemned.{condemned_from};
ghost use Rattle.clr_survivors.specs.Moving.{IsMarkedFor, IsReadyFor, KeepsNumbers};
ghost use Rattle.clr_survivors.specs.Phases.{CanMove, HasMovedBy, HasPlannedPinned, HasSettled, plan_of, rest_counts};
ghost use Rattle.clr_survivors.specs.Pins.{PinsStand};
ghost use Rattle.clr_survivors.specs.Survivors.{HasObjects, HaveMoved, world_of};

use crate::condemned::first_condemned;
use crate::pins::set_pins;
use crate::roots::{Roots, move_roots};
use clr_compact::{Slides, compact};
use clr_generations::Space;
use clr_handles::Handles;
use clr_heap::Heap;
use clr_moves::{Condemned, Planned, Promoted};
use clr_pinq::PinQueue;
use clr_plan::{Counts, plan};
use clr_reloc::relocate;
use clr_sweep::{Tally, count_large, sweep_large};
use clr_types::Types;

/// Moves what is marked in the small heap, in a collection of the generations up to `g` that compacts, to where a
/// compaction takes it, and sweeps the large segments where `g` is 2. Locals, handles, entries, the f-reachable queue
/// and all references of what is left name the new places then. It answers how many objects stay and how many go, and
/// the bytes that went to generations 1 and 2.
///
/// What pinned handles name stays. What is left before such an object is one free item. Nothing is marked afterwards,
/// and headers and padding are clean, and cards and bricks obey their laws, before and after. As many handles are
/// pinned, and finalisation has as many entries. `slides` counts one, and each byte of a plug that went. `pins`, the
/// queue of saved words, is empty before and after, with room for four entries more than there are pinned handles.
///
/// The heap is that of a lawful machine whose contexts are given up, no object above generation `g` is marked, and what
/// is left and `roots` name nothing that goes.
pub fn move_survivors(
    types: &Types,
    space: &mut Space,
    roots: &mut Roots,
    pins: &mut PinQueue,
    slides: &mut Slides,
    g: u8,
) -> Tally
    requires generation { g ≤ 2 }
    requires tidy { IsTidy types.now space.old }
    requires marked { IsMarkedFor (world_of types.now space.old.heap roots.old) g }
    requires ready { IsReadyFor roots.old.handles pins.old }
    ensures moved { (n : Machine) (kept : ℕ → Bool) → IsMemoryOf types.now space.old.heap n → IsLaid n
        → n.handles ≡ roots.old.handles → TestsMarks types.now space.old.heap g kept
        → HaveMoved false (world_of types.now space.old.heap roots.old)
        (world_of types.now space.new.heap roots.new) g n kept result.promoted1 result.promoted2 slides.old slides.new }
    ensures kept { result.kept ≡ (tally_of types.now space.old.heap g).kept }
    ensures freed { result.freed ≡ (tally_of types.now space.old.heap g).freed }
    ensures tidy { IsTidy types.now space.new }
    ensures unmarked { IsUnmarked types.now space.new.heap }
    ensures no_contexts { space.new.heap.rests ≡ no_rests }
    ensures occupied { g ≡ 2 → HasObjects types.now space.new.heap }
    ensures limit { space.new.heap.limit ≡ space.old.heap.limit }
    ensures ready { IsReadyFor roots.new.handles pins.new }
    ensures room { pins.new.spare ≡ pins.old.spare }
    ensures numbers { KeepsNumbers roots.old roots.new }
{
    let low = first_condemned(&space.heap, g);
    let (planned, counts) = plan_pinned(types, space, roots, pins, g, low);
    let promoted = move_by_plan(types, space, roots, pins, slides, g, &planned);
    settle(types, space, &roots.handles, g, low);
    Tally {
        kept: counts.kept,
        freed: counts.freed,
        promoted1: promoted.to1,
        promoted2: promoted.to2,
    }
}

// Marks in the headers what pinned handles name from `low` on, below which no part has a place, and plans. It answers
// the plan, and how many objects the collection keeps and frees.
fn plan_pinned(
    types: &Types,
    space: &mut Space,
    roots: &Roots,
    pins: &mut PinQueue,
    g: u8,
    low: u64,
) -> (Planned, Counts)
    requires generation { g ≤ 2 }
    requires low { low ≡ condemned_from space.old.heap g }
    requires tidy { IsTidy types.now space.old }
    requires marked { IsMarkedFor (world_of types.now space.old.heap roots.now) g }
    requires ready { IsReadyFor roots.now.handles pins.old }
    ensures planned { (m : Machine) (kept : ℕ → Bool) → IsMemoryOf types.now space.old.heap m
        → m.handles ≡ roots.now.handles → TestsMarks types.now space.old.heap g kept
        → HasPlannedPinned types.now space.old space.new pins.new.entries roots.now.handles g m kept result.0 }
    ensures counted { result.1 ≡ counts_of (tally_of types.now space.old.heap g) }
    ensures spare { pins.old.spare ≡ pins.new.spare + length pins.new.entries }
{
    set_pins(&mut space.heap, types, &roots.handles, low, true);
    let rest = count_rest(&space.heap, types, g);
    let (planned, counts) = plan(&mut space.heap, types, &mut space.bricks, pins, g);
    (planned, counts.plus(rest))
}

// What a collection of generation `g` counts outside of the parts that it compacts: in large segments, where `g` is 2.
fn count_rest(heap: &Heap, types: &Types, g: u8) -> Counts
    requires held { IsHeld types.now heap.now }
    requires no_contexts { heap.now.rests ≡ no_rests }
    ensures counted { result ≡ rest_counts types.now heap.now g }
    ensures few { IsAtMost result (2 ^ 62) }
{
    if g != 2 {
        return Counts::none();
    }
    let large = count_large(heap, types);
    Counts {
        kept: large.kept,
        freed: large.freed,
    }
}

// Moves what survives by the plan, and all names with it.
fn move_by_plan(
    types: &Types,
    space: &mut Space,
    roots: &mut Roots,
    pins: &mut PinQueue,
    slides: &mut Slides,
    g: u8,
    planned: &Planned,
) -> Promoted
    requires generation { g ≤ 2 }
    requires can { (view : HeapView) × (vs : List Move) × (entry : ℕ → ℤ)
        × CanMove (plan_of types.now view pins.old.entries vs planned.now) space.old g entry planned.now roots.old }
    ensures moved { (view : HeapView) (vs : List Move) (entry : ℕ → ℤ)
        → CanMove (plan_of types.now view pins.old.entries vs planned.now) space.old g entry planned.now roots.old
        → HasMovedBy (plan_of types.now view pins.old.entries vs planned.now) space.new g planned.now roots.old
        roots.new result slides.old slides.new }
    ensures brick_law { BrickLaw types.now (frame space.new.heap) (objects_in types.now space.new.heap)
        (entry_at space.new.bricks) }
    ensures start1 { space.new.heap.start1 ≡ planned.now.start1 }
    ensures start0 { space.new.heap.start0 ≡ planned.now.start0 }
    ensures empty { pins.new.entries ≡ [] }
    ensures spare { pins.new.spare ≡ pins.old.spare + length pins.old.entries }
    ensures cards { spans space.new.cards ≡ spans space.old.cards }
    ensures bricks { spans space.new.bricks ≡ spans space.old.bricks }
{
    let condemned = Condemned::Generations(g);
    relocate(
        &mut space.heap,
        types,
        &mut space.cards,
        &space.bricks,
        pins,
        condemned,
        planned,
    );
    move_roots(&space.heap, &space.bricks, condemned, roots);
    compact(
        &mut space.heap,
        types,
        &mut space.bricks,
        pins,
        g,
        planned,
        slides,
    )
}

// Takes the marks of what pinned handles name from `low` on from the headers, and sweeps large segments where `g` is 2.
// Cards stay.
fn settle(types: &Types, space: &mut Space, handles: &Handles, g: u8, low: u64)
    requires held { IsHeld types.now space.old.heap }
    requires no_contexts { space.old.heap.rests ≡ no_rests }
    requires stand { PinsStand types.now space.old.heap handles.now }
    requires bricks { AreBricksOf (frame space.old.heap) space.old.bricks }
    requires brick_law { BrickLaw types.now (frame space.old.heap) (objects_in types.now space.old.heap)
        (entry_at space.old.bricks) }
    ensures settled { HasSettled types.now space.old.heap space.new.heap handles.now low g }
    ensures brick_law { BrickLaw types.now (frame space.new.heap) (objects_in types.now space.new.heap)
        (entry_at space.new.bricks) }
    ensures cards { space.new.cards ≡ space.old.cards }
    ensures bricks { spans space.new.bricks ≡ spans space.old.bricks }
{
    set_pins(&mut space.heap, types, handles, low, false);
    if g == 2 {
        sweep_large(&mut space.heap, types, &mut space.bricks);
    }
}
