// The last pause of a background collection.
ghost use Rattle.std.specs.Prelude.{◌≡◌, ℕ, ◌+◌, ◌<◌, ◌≤◌, ◌⊎◌, [], length, None, Some, true, false};
ghost use Rattle.clr_types.specs.Rising.{IsIn};
ghost use Rattle.clr_model.specs.Collection.{EndsBackground};
ghost use Rattle.clr_model.specs.Lawful.{IsPlaceNamed};
ghost use Rattle.clr_model.specs.Lookups.{lowest_in_step};
ghost use Rattle.clr_model.specs.Machine.{Machine};
ghost use Rattle.clr_model.specs.Picture.{picture};
ghost use Rattle.clr_view.specs.Marks.{IsUnmarked};
ghost use Rattle.clr_view.specs.View.{objects_in};
ghost use Rattle.clr_view.specs.World.{IsWorldOf};
ghost use Rattle.clr_ctx.specs.Contexts.{IsIndex};
ghost use Rattle.clr_generations.specs.Tables.{AreTablesOf};
ghost use Rattle.clr_generations.specs.Tidy.{IsTidy};
ghost use Rattle.clr_survivors.specs.Survivors.{world_of};
ghost use Rattle.clr_mark.specs.Waiting.{IsGray};
ghost use Rattle.clr_bgmark.specs.LastPause.{LogHolds};
ghost use Rattle.clr_bgmark.specs.Closing.{HaveFoundTargets};
ghost use Rattle.clr_bgmark.specs.Pauses.{IsFound};
ghost use Rattle.clr_bgmark.specs.Scanning.{AreObjects, HaveWholeObjects, IsCounted, marking_in};
ghost use Rattle.clr_bgmark.specs.Tiles.{AreParts, AreTiled, HaveEdges, HaveSameBases};
ghost use Rattle.clr_mark.specs.Ties.{IsStart, Joins};
ghost use Rattle.clr_model.specs.Reach.{Reach};
ghost use Rattle.clr_handles.specs.Tops.{pinned_in};
ghost use Rattle.clr_collect.specs.Collecting.{HasMarkedAlive, HasMarkedKept, LastPauseStart};
ghost use Rattle.clr_collect.specs.Ending.{HasSweptRest};

use crate::collecting::{answer, give_up_contexts, release_after};
use crate::collector::CollectorState;
use crate::judging::process_references;
use clr_bgmark::Background;
use clr_ctx::YoungItems;
use clr_generations::Space;
use clr_mark::Marker;
use clr_model::Collected;
use clr_survivors::Roots;
use clr_sweep::{Tally, sweep, sweep_behind};
use clr_types::Types;

/// Ends a background collection: the contexts are given up, and of all objects exactly those stay that locals, strong
/// and pinned handles, the f-reachable queue, woken finalisation entries and what is gray or black reach. So what was
/// marked since the first pause stays, reached or not. A dependent handle's second is reached where its primary is.
///
/// It sweeps: what stays is where it was, all else becomes free, and each object becomes one generation older, up to 2.
/// Handles and finalisation entries become what they become in a `collect` of all generations. Segments in which
/// nothing stands any more are given back with their cards and bricks, but for the ephemeral one and the first large
/// one. No background collection runs afterwards.
///
/// It is the end, in every lawful machine, its objects named by their places, that has this memory, these locals and
/// handles, this finalisation queue, and no thread between the halves of a step, of a background collection that has
/// marked what is gray and black here. What a slot of a black object names is gray or black, or the slot is logged.
/// Sums and options are that machine's own, and whether large segments are to be compacted stays as it says.
///
/// The answer counts the objects that stay and those that go, and the bytes that went from generation 0 to 1 and from
/// 1 to 2. Heap, cards and bricks are tidy before and after, nothing is marked, and as many handles are pinned. Of the
/// workshop, nothing waits in the marker, and the index of young free items is that of none; the rest of it stays. It
/// takes no memory: the finalisation queue has room for as many entries as before, and for no more than it had room
/// for.
pub fn end_background(
    types: &Types,
    space: &mut Space,
    roots: &mut Roots,
    collector: &mut CollectorState,
    background: &mut Background,
) -> Collected
    requires tidy { IsTidy types.now space.old }
    requires unmarked { IsUnmarked types.now space.old.heap }
    requires world { (m : Machine) × IsWorldOf (world_of types.now space.old.heap roots.old) m × IsPlaceNamed m
        × (lowest_in_step m ≡ None) }
    requires objects { AreObjects types.now space.old.heap background.old.shades }
    requires whole { HaveWholeObjects types.now space.old.heap background.old.shades }
    requires counted { IsCounted (objects_in types.now space.old.heap) background.old }
    requires parts { AreParts background.old.shades background.old.parts }
    requires tiled { AreTiled types.now space.old.heap background.old.shades background.old.parts }
    requires room { length background.old.fronts ≡ length background.old.shades }
    requires log { LogHolds types.now (objects_in types.now space.old.heap) background.old.shades }
    ensures collected { (m : Machine) → IsWorldOf (world_of types.now space.old.heap roots.old) m → IsPlaceNamed m
        → lowest_in_step m ≡ None → (after : Machine)
        × EndsBackground m (marking_in (objects_in types.now space.old.heap) background.old.shades) result after
        × IsWorldOf (world_of types.now space.new.heap roots.new) (picture after) }
    ensures background { background.new ≡ record { running = false; shades = []; gray = 0; parts = []; fronts = [] } }
    ensures tidy { IsTidy types.now space.new }
    ensures unmarked { IsUnmarked types.now space.new.heap }
    ensures index { IsIndex types.now space.new.heap collector.new.young }
    ensures limit { space.new.heap.limit ≡ space.old.heap.limit }
    ensures collector { collector.new ≡ record collector.old {
      marker = record collector.old.marker { stack = []; ranges = []; oldest = 2 };
      young = Some [];
    } }
    ensures locals { roots.new.locals ≡ roots.old.locals }
    ensures spare { roots.old.finals.spare ≤ roots.new.finals.spare }
    ensures none_added { roots.new.finals.spare + length roots.new.finals.entries
        ≤ roots.old.finals.spare + length roots.old.finals.entries }
    ensures pinned { pinned_in roots.new.handles ≡ pinned_in roots.old.handles }
{
    let swept = sweep_rest(types, space, roots, collector, background);
    release_after(types, space, 2);
    collector.young.forget();
    Collected {
        background: true,
        ..answer(2, false, false, swept)
    }
}

// Sweeps what the last pause doesn't keep: by bits, where all that it keeps is found so, and what handles and entries
// name, too, and else by marks in the heap. No background collection runs then.
fn sweep_rest(
    types: &Types,
    space: &mut Space,
    roots: &mut Roots,
    collector: &mut CollectorState,
    background: &mut Background,
) -> Tally
    requires tidy { IsTidy types.now space.old }
    requires unmarked { IsUnmarked types.now space.old.heap }
    requires world { (m : Machine) × IsWorldOf (world_of types.now space.old.heap roots.old) m × IsPlaceNamed m
        × (lowest_in_step m ≡ None) }
    requires objects { AreObjects types.now space.old.heap background.old.shades }
    requires whole { HaveWholeObjects types.now space.old.heap background.old.shades }
    requires counted { IsCounted (objects_in types.now space.old.heap) background.old }
    requires parts { AreParts background.old.shades background.old.parts }
    requires tiled { AreTiled types.now space.old.heap background.old.shades background.old.parts }
    requires room { length background.old.fronts ≡ length background.old.shades }
    requires log { LogHolds types.now (objects_in types.now space.old.heap) background.old.shades }
    ensures ended { HasSweptRest (world_of types.now space.old.heap roots.old)
        (marking_in (objects_in types.now space.old.heap) background.old.shades) space.old space.new roots.new.handles
        roots.new.finals result }
    ensures background { background.new ≡ record {
      running = false;
      shades = [];
      gray = 0;
      parts = [];
      fronts = [];
    } }
    ensures collector { collector.new ≡ record collector.old {
      marker = record collector.old.marker { stack = []; ranges = []; oldest = 2 };
      young = collector.new.young;
    } }
    ensures locals { roots.new.locals ≡ roots.old.locals }
    ensures spare { roots.old.finals.spare ≤ roots.new.finals.spare }
    ensures none_added { roots.new.finals.spare + length roots.new.finals.entries
        ≤ roots.old.finals.spare + length roots.old.finals.entries }
{
    let found = background.close(
        &space.heap,
        types,
        &roots.handles,
        &roots.locals,
        roots.finals.ready(),
        roots.finals.entries(),
    );
    if found && background.has_same_segments(&space.heap) {
        sweep_behind_fronts(types, space, roots, collector, background)
    } else {
        sweep_unmarked(types, space, roots, collector, background)
    }
}

// Sweeps by bits what the last pause doesn't keep, where all that it keeps is found so, and what handles and entries
// refer to, too: neither they nor the queue change.
fn sweep_behind_fronts(
    types: &Types,
    space: &mut Space,
    roots: &Roots,
    collector: &mut CollectorState,
    background: &mut Background,
) -> Tally
    requires tidy { IsTidy types.now space.old }
    requires unmarked { IsUnmarked types.now space.old.heap }
    requires world { (m : Machine) × IsWorldOf (world_of types.now space.old.heap roots.now) m × IsPlaceNamed m
        × (lowest_in_step m ≡ None) }
    requires objects { AreObjects types.now space.old.heap background.old.shades }
    requires parts { AreParts background.old.shades background.old.parts }
    requires edges { HaveEdges types.now space.old.heap background.old.shades background.old.parts }
    requires room { length background.old.fronts ≡ length background.old.shades }
    requires bases { HaveSameBases space.old.heap background.old.shades }
    requires all { (x : ℕ) → Reach (Joins types.now space.old.heap roots.now.handles)
        (λ y. IsStart roots.now.handles roots.now.locals.items roots.now.finals.ready y
        ⊎ IsFound background.old.shades y) x → IsFound background.old.shades x }
    requires targets { HaveFoundTargets roots.now.handles background.old.shades }
    requires entries { (x : ℕ) → IsIn x roots.now.finals.entries → 0 < x → IsFound background.old.shades x }
    ensures ended { HasSweptRest (world_of types.now space.old.heap roots.now)
        (marking_in (objects_in types.now space.old.heap) background.old.shades) space.old space.new
        roots.now.handles roots.now.finals result }
    ensures background { background.new ≡ record {
      running = false;
      shades = [];
      gray = 0;
      parts = [];
      fronts = [];
    } }
    ensures collector { collector.new ≡ record collector.old {
      marker = record collector.old.marker { stack = []; ranges = []; oldest = 2 };
      young = collector.new.young;
    } }
{
    let _ = roots;
    give_up_contexts(types, space, &mut collector.young);
    collector.marker.begin(2);
    background.settle(&space.heap, types);
    background.mark_behind(&mut space.heap, types);
    let swept = sweep_behind(
        &mut space.heap,
        types,
        &mut space.bricks,
        background.fronts(),
    );
    background.stop();
    swept
}

// Sweeps by marks in the heap what the last pause doesn't keep, whatever is found.
fn sweep_unmarked(
    types: &Types,
    space: &mut Space,
    roots: &mut Roots,
    collector: &mut CollectorState,
    background: &mut Background,
) -> Tally
    requires tidy { IsTidy types.now space.old }
    requires unmarked { IsUnmarked types.now space.old.heap }
    requires world { (m : Machine) × IsWorldOf (world_of types.now space.old.heap roots.old) m × IsPlaceNamed m
        × (lowest_in_step m ≡ None) }
    requires objects { AreObjects types.now space.old.heap background.old.shades }
    requires log { LogHolds types.now (objects_in types.now space.old.heap) background.old.shades }
    ensures ended { HasSweptRest (world_of types.now space.old.heap roots.old)
        (marking_in (objects_in types.now space.old.heap) background.old.shades) space.old space.new roots.new.handles
        roots.new.finals result }
    ensures background { background.new ≡ record {
      running = false;
      shades = [];
      gray = 0;
      parts = [];
      fronts = [];
    } }
    ensures collector { collector.new ≡ record collector.old {
      marker = record collector.old.marker { stack = []; ranges = []; oldest = 2 };
      young = collector.new.young;
    } }
    ensures locals { roots.new.locals ≡ roots.old.locals }
    ensures spare { roots.old.finals.spare ≤ roots.new.finals.spare }
    ensures none_added { roots.new.finals.spare + length roots.new.finals.entries
        ≤ roots.old.finals.spare + length roots.old.finals.entries }
{
    mark_found_kept(
        types,
        space,
        roots,
        &mut collector.marker,
        &mut collector.young,
        background,
    );
    sweep(&mut space.heap, types, &mut space.bricks, 2)
}

// Gives up the contexts, marks exactly what the last pause keeps, and leaves handles and entries as it does. No
// background collection runs then.
fn mark_found_kept(
    types: &Types,
    space: &mut Space,
    roots: &mut Roots,
    marker: &mut Marker,
    young: &mut YoungItems,
    background: &mut Background,
)
    requires tidy { IsTidy types.now space.old }
    requires unmarked { IsUnmarked types.now space.old.heap }
    requires world { (m : Machine) × IsWorldOf (world_of types.now space.old.heap roots.old) m × IsPlaceNamed m }
    requires objects { AreObjects types.now space.old.heap background.old.shades }
    requires log { LogHolds types.now (objects_in types.now space.old.heap) background.old.shades }
    ensures kept { HasMarkedKept (world_of types.now space.old.heap roots.old)
        (LastPauseStart (marking_in (objects_in types.now space.old.heap) background.old.shades)) space.new.heap
        roots.new.handles roots.new.finals 2 }
    ensures tidy { IsTidy types.now space.new }
    ensures background { background.new ≡ record { running = false; shades = []; gray = 0; parts = []; fronts = [] } }
    ensures marker { marker.new ≡ record marker.old { stack = []; ranges = []; oldest = 2 } }
    ensures locals { roots.new.locals ≡ roots.old.locals }
    ensures spare { roots.old.finals.spare ≤ roots.new.finals.spare }
    ensures none_added { roots.new.finals.spare + length roots.new.finals.entries
        ≤ roots.old.finals.spare + length roots.old.finals.entries }
{
    mark_found_alive(types, space, roots, marker, young, background);
    process_references(
        types,
        &mut space.heap,
        marker,
        &mut roots.handles,
        &mut roots.finals,
    );
}

// Gives up the contexts, and marks exactly what the last pause finds alive before finalisation.
fn mark_found_alive(
    types: &Types,
    space: &mut Space,
    roots: &Roots,
    marker: &mut Marker,
    young: &mut YoungItems,
    background: &mut Background,
)
    requires tidy { IsTidy types.now space.old }
    requires unmarked { IsUnmarked types.now space.old.heap }
    requires world { (m : Machine) × IsWorldOf (world_of types.now space.old.heap roots.now) m × IsPlaceNamed m }
    requires objects { AreObjects types.now space.old.heap background.old.shades }
    requires log { LogHolds types.now (objects_in types.now space.old.heap) background.old.shades }
    ensures alive { HasMarkedAlive (world_of types.now space.old.heap roots.now)
        (LastPauseStart (marking_in (objects_in types.now space.old.heap) background.old.shades)) space.new.heap 2 }
    ensures gray { IsGray types.now space.new.heap marker.new }
    ensures background { background.new ≡ record { running = false; shades = []; gray = 0; parts = []; fronts = [] } }
    ensures marker { marker.new ≡ record marker.old { stack = []; ranges = []; oldest = 2 } }
    ensures tables { AreTablesOf types.now space.new.heap space.new.cards space.new.bricks }
{
    give_up_contexts(types, space, young);
    background.finish(
        &mut space.heap,
        types,
        marker,
        &roots.handles,
        &roots.locals,
        roots.finals.ready(),
    );
}
