// A collection of a generation and of all younger ones.
ghost use Rattle.std.specs.Prelude.{◌≡◌, ℕ, ◌+◌, ◌≤◌, ◌==◌, ◌&&◌, not, [], length, None, Some, Bool, MatchBool, false};
ghost use Rattle.clr_model.specs.Collection.{Collects};
ghost use Rattle.clr_model.specs.Collection as collection;
ghost use Rattle.clr_model.specs.Laws.{IsUsual};
ghost use Rattle.clr_model.specs.Lawful.{IsLaid, IsPlaceNamed};
ghost use Rattle.clr_model.specs.Lookups.{lowest_in_step};
ghost use Rattle.clr_model.specs.Machine.{Machine};
ghost use Rattle.clr_model.specs.Picture.{picture};
ghost use Rattle.clr_heap.specs.View.{no_rests};
ghost use Rattle.clr_view.specs.Marks.{IsUnmarked};
ghost use Rattle.clr_view.specs.Memory.{IsMemoryOf, TestsMarks};
ghost use Rattle.clr_view.specs.View.{HasGivenUp};
ghost use Rattle.clr_view.specs.World.{IsWorldOf};
ghost use Rattle.clr_ctx.specs.Contexts.{IsIndex};
ghost use Rattle.clr_generations.specs.Tables.{AreTablesOf};
ghost use Rattle.clr_generations.specs.Tidy.{IsTidy};
ghost use Rattle.clr_survivors.specs.Moving.{IsMarkedFor, IsReadyFor, KeepsNumbers};
ghost use Rattle.clr_sweep.specs.Swept.{tally_of};
ghost use Rattle.clr_mark.specs.Waiting.{IsGray};
ghost use Rattle.clr_survivors.specs.Survivors.{HasObjects, HaveMoved, world_of};
ghost use Rattle.clr_collect.specs.Collecting.{BlockingStart, CountsSlides, HasMarkedAlive, HasMarkedKept};
ghost use Rattle.clr_collect.specs.Released.{HasReleased};

use crate::collector::CollectorState;
use crate::deciding::compacts;
use crate::judging::process_references;
use crate::releasing::release_empty;
use crate::sliding::slide_and_release;
use clr_compact::Slides;
use clr_ctx::YoungItems;
use clr_evacuate::fit_and_move;
use clr_generations::Space;
use clr_mark::Marker;
use clr_model::{Collected, How};
use clr_pinq::PinQueue;
use clr_scan::mark_from;
use clr_survivors::{Roots, move_survivors};
use clr_sweep::{Tally, count, sweep};
use clr_types::Types;

/// A collection of generation `g` and of all younger ones: the contexts are given up, and of the objects of these
/// generations exactly those stay that locals, strong and pinned handles, the f-reachable queue, woken finalisation
/// entries and older objects reach. A dependent handle's second is reached where its primary is.
///
/// Where it sweeps, they stay where they are, all else becomes free, and each becomes one generation older, up to 2.
/// Where it compacts, those of the small heap go down to where they fit, and what pinned handles name stays; large
/// objects are swept. It does what `how` says. `How::Decide` compacts where more than `threshold` hundredths of the
/// bytes of these generations in the small heap would be free. After a collection of all generations, segments in
/// which nothing stands any more are given back with their cards and bricks, but for the ephemeral one and the first
/// large one.
///
/// `How::Fit` is of generation 1 alone, and compacts. Before that, what survives generation 1 goes, plug by plug and
/// low to high, to the front of the lowest free item of generation 2 of the small heap in which the plug then fits.
/// What finds no room there goes where the compaction of the rest takes it. `slides` counts both as one compaction.
///
/// An entry whose object nothing but entries reaches is woken, and goes behind the f-reachable queue, or is dropped,
/// where the object's finaliser is suppressed, which its header then says no more. A short weak handle loses a target
/// that isn't reached without the woken entries, a long weak one a target that doesn't stay, and a dependent one both
/// parts where its primary doesn't stay. Older objects all stay.
///
/// It is the collection of every lawful machine, its objects named by their places, that has this memory, these locals
/// and handles, this finalisation queue, this threshold and this flag, and no thread between the halves of a step. Sums
/// and the other options are that machine's own. Locals, handles and queues name the new places afterwards.
///
/// The answer counts the objects that stay and those that go, and the bytes that went from generation 0 to 1 and from 1
/// to 2. Heap, cards and bricks are tidy before and after, and nothing is marked. The finalisation queue has room for
/// as many entries as before. Of the workshop, the queue of saved words is empty before and after, with room for four
/// entries more than there are pinned handles, and `slides` counts one for a compaction, and each byte that it moved; a
/// fit in front of it and a slide of the large heap count neither way. It takes no memory: the finalisation queue and
/// the queue of saved words have room for no more than they had room for, nor has the marker's stack. The index of
/// young free items is that of none after a sweep, which leaves none, and after a compaction it is dropped: it is made
/// anew where room is next wanted.
pub fn collect(
    types: &Types,
    space: &mut Space,
    roots: &mut Roots,
    collector: &mut CollectorState,
    threshold: u64,
    g: u8,
    how: How,
) -> Collected
    requires generation { g ≤ 2 }
    requires threshold { threshold ≤ 100 }
    requires usual { IsUsual g how }
    requires tidy { IsTidy types.now space.old }
    requires unmarked { IsUnmarked types.now space.old.heap }
    requires world { (m : Machine) × IsWorldOf (world_of types.now space.old.heap roots.old) m × IsPlaceNamed m
        × (lowest_in_step m ≡ None) }
    requires ready { IsReadyFor roots.old.handles collector.old.pins }
    ensures collected { (m : Machine) → IsWorldOf (world_of types.now space.old.heap roots.old) m → IsPlaceNamed m
        → lowest_in_step m ≡ None → m.compacts_large ≡ collector.old.compacts_large → m.options.compact ≡ threshold
        → (after : Machine) × (c : Collects m g how result after)
        × IsWorldOf (world_of types.now space.new.heap roots.new) (picture after)
        × CountsSlides how (collection.begun m).layout c.collects.survive c.collects.moves result collector.old.slides
        collector.new.slides }
    ensures flag { collector.new.compacts_large ≡ collector.old.compacts_large && not (g == 2) }
    ensures tidy { IsTidy types.now space.new }
    ensures unmarked { IsUnmarked types.now space.new.heap }
    ensures index { IsIndex types.now space.new.heap collector.new.young }
    ensures limit { space.new.heap.limit ≡ space.old.heap.limit }
    ensures marker { collector.new.marker ≡ record collector.old.marker { stack = []; ranges = []; oldest = g } }
    ensures index_after { MatchBool result.compacted (collector.new.young ≡ None) (collector.new.young ≡ Some []) }
    ensures spare { roots.old.finals.spare ≤ roots.new.finals.spare }
    ensures none_added { roots.new.finals.spare + length roots.new.finals.entries
        ≤ roots.old.finals.spare + length roots.old.finals.entries }
    ensures ready { IsReadyFor roots.new.handles collector.new.pins }
    ensures room { collector.new.pins.spare ≡ collector.old.pins.spare }
{
    mark_kept(
        types,
        space,
        roots,
        &mut collector.marker,
        &mut collector.young,
        g,
    );
    if !compacts(&space.heap, types, g, how, threshold) {
        let swept = sweep(&mut space.heap, types, &mut space.bricks, g);
        slide_and_release(types, space, roots, collector, g);
        collector.young.forget();
        return answer(g, false, false, swept);
    }
    let tally = move_kept(
        types,
        space,
        roots,
        &mut collector.pins,
        &mut collector.slides,
        g,
        how,
    );
    slide_and_release(types, space, roots, collector, g);
    collector.young.lose();
    answer(g, true, is_fit(how), tally)
}

// Moves what is marked in a collection of generation `g`: by a compaction, which a fit precedes where `how` says so. It
// answers how many objects stay and how many go, and the bytes that went to generations 1 and 2.
fn move_kept(
    types: &Types,
    space: &mut Space,
    roots: &mut Roots,
    pins: &mut PinQueue,
    slides: &mut Slides,
    g: u8,
    how: How,
) -> Tally
    requires generation { g ≤ 2 }
    requires usual { IsUsual g how }
    requires tidy { IsTidy types.now space.old }
    requires marked { IsMarkedFor (world_of types.now space.old.heap roots.old) g }
    requires ready { IsReadyFor roots.old.handles pins.old }
    ensures moved { (n : Machine) (kept : ℕ → Bool) → IsMemoryOf types.now space.old.heap n → IsLaid n
        → n.handles ≡ roots.old.handles → TestsMarks types.now space.old.heap g kept
        → HaveMoved (collection.is_fit how) (world_of types.now space.old.heap roots.old)
        (world_of types.now space.new.heap roots.new) g n kept result.promoted1 result.promoted2 slides.old
        slides.new }
    ensures kept { result.kept ≡ (tally_of types.now space.old.heap g).kept }
    ensures freed { result.freed ≡ (tally_of types.now space.old.heap g).freed }
    ensures tidy { IsTidy types.now space.new }
    ensures unmarked { IsUnmarked types.now space.new.heap }
    ensures no_contexts { space.new.heap.rests ≡ no_rests }
    ensures occupied { g ≡ 2 → HasObjects types.now space.new.heap }
    ensures limit { space.new.heap.limit ≡ space.old.heap.limit }
    ensures ready { IsReadyFor roots.new.handles pins.new }
    ensures room { pins.new.spare ≡ pins.old.spare }
    ensures numbers { KeepsNumbers roots.old roots.new }
{
    if is_fit(how) {
        let counted = count(&space.heap, types, g);
        let promoted = fit_and_move(types, space, roots, pins, slides);
        return Tally {
            promoted1: promoted.to1,
            promoted2: promoted.to2,
            ..counted
        };
    }
    move_survivors(types, space, roots, pins, slides, g)
}

// Whether survivors are to go into older free items first.
fn is_fit(how: How) -> bool
    ensures { result ≡ collection.is_fit how }
{
    match how {
        How::Fit => true,
        How::Decide | How::Compact | How::Sweep => false,
    }
}

// What a collection of generation `g` answers that counted so.
pub(crate) fn answer(g: u8, compacted: bool, fitted: bool, tally: Tally) -> Collected
    ensures { result ≡ record {
      generation = g;
      compacted = compacted;
      fitted = fitted;
      background = false;
      kept = tally.kept;
      freed = tally.freed;
      promoted1 = tally.promoted1;
      promoted2 = tally.promoted2;
    } }
{
    Collected {
        generation: g,
        compacted,
        fitted,
        background: false,
        kept: tally.kept,
        freed: tally.freed,
        promoted1: tally.promoted1,
        promoted2: tally.promoted2,
    }
}

// Gives back the segments in which nothing stands, after a collection of all generations.
pub(crate) fn release_after(types: &Types, space: &mut Space, g: u8)
    requires tidy { IsTidy types.now space.old }
    requires no_contexts { space.old.heap.rests ≡ no_rests }
    ensures released { MatchBool (g == 2) (HasReleased types.now space.old.heap space.new.heap)
        (space.new.heap ≡ space.old.heap) }
    ensures tidy { IsTidy types.now space.new }
{
    if g == 2 {
        release_empty(&mut space.heap, types, &mut space.cards, &mut space.bricks);
    }
}

// Gives up the contexts, marks exactly what a collection of generation `g` keeps, and leaves handles and entries as it
// does.
fn mark_kept(
    types: &Types,
    space: &mut Space,
    roots: &mut Roots,
    marker: &mut Marker,
    young: &mut YoungItems,
    g: u8,
)
    requires generation { g ≤ 2 }
    requires tidy { IsTidy types.now space.old }
    requires unmarked { IsUnmarked types.now space.old.heap }
    requires world { (m : Machine) × IsWorldOf (world_of types.now space.old.heap roots.old) m × IsPlaceNamed m }
    ensures kept { HasMarkedKept (world_of types.now space.old.heap roots.old) (BlockingStart g) space.new.heap
        roots.new.handles roots.new.finals g }
    ensures tidy { IsTidy types.now space.new }
    ensures marker { marker.new ≡ record marker.old { stack = []; ranges = []; oldest = g } }
    ensures locals { roots.new.locals ≡ roots.old.locals }
    ensures spare { roots.old.finals.spare ≤ roots.new.finals.spare }
    ensures none_added { roots.new.finals.spare + length roots.new.finals.entries
        ≤ roots.old.finals.spare + length roots.old.finals.entries }
{
    mark_alive(types, space, roots, marker, young, g);
    process_references(
        types,
        &mut space.heap,
        marker,
        &mut roots.handles,
        &mut roots.finals,
    );
}

// Gives up the contexts, and marks exactly what is alive before finalisation.
fn mark_alive(
    types: &Types,
    space: &mut Space,
    roots: &Roots,
    marker: &mut Marker,
    young: &mut YoungItems,
    g: u8,
)
    requires generation { g ≤ 2 }
    requires tidy { IsTidy types.now space.old }
    requires unmarked { IsUnmarked types.now space.old.heap }
    requires world { (m : Machine) × IsWorldOf (world_of types.now space.old.heap roots.now) m × IsPlaceNamed m }
    ensures alive { HasMarkedAlive (world_of types.now space.old.heap roots.now) (BlockingStart g) space.new.heap g }
    ensures gray { IsGray types.now space.new.heap marker.new }
    ensures marker { marker.new ≡ record marker.old { stack = []; ranges = []; oldest = g } }
    ensures tables { AreTablesOf types.now space.new.heap space.new.cards space.new.bricks }
{
    give_up_contexts(types, space, young);
    marker.begin(g);
    let ready = roots
        .finals
        .ready_from(marker.lowest_condemned(&space.heap));
    mark_from(
        marker,
        space,
        types,
        g,
        &roots.handles,
        &roots.locals,
        ready,
    );
}

// Drops the index of young free items, so that none has to go into it, and gives up all contexts.
pub(crate) fn give_up_contexts(types: &Types, space: &mut Space, young: &mut YoungItems)
    requires tidy { IsTidy types.now space.old }
    ensures given { HasGivenUp types.now space.old.heap space.new.heap }
    ensures tidy { IsTidy types.now space.new }
{
    young.lose();
    young.give_up_all(&mut space.heap, types);
}
