// The stretches of places side by side, for which searches wait together.
ghost use Rattle.std.specs.Prelude.{◌≡◌, ℕ, ◌<◌, List, true, length};
ghost use Rattle.std.specs.List.{All};
ghost use Rattle.clr_types.specs.Types.{TypeRow};
ghost use Rattle.clr_heap.specs.View.{HeapView, IsHeap};
ghost use Rattle.clr_model.specs.Compaction.{Move};
ghost use Rattle.clr_pinq.specs.declared.entry.PinEntry.{PinEntry};
ghost use Rattle.clr_plugs.specs.BrickEntries.{BricksView};
ghost use Rattle.clr_plugs.specs.SideBySide.{IsSearching};
ghost use Rattle.clr_moves.specs.Going.{IsStretchOf};
ghost use Rattle.clr_moves.specs.Overlaid.{HoldsPlan};
ghost use Rattle.clr_moves.specs.Together.{IsSearchIn, IsUsedPlace};
ghost use Rattle.clr_moves.specs.declared.condemned.Condemned.{Condemned};

use crate::condemned::{Condemned, part_start, takes_part};
use crate::stretch::Stretch;
use crate::within::segment_below;
use clr_bricks::Bricks;
use clr_heap::Heap;
use clr_plugs::PlugSearch;

/// How many places are searched for side by side.
pub const TOGETHER: usize = 8;

/// The bytes of a brick.
const BRICK: u64 = 4096;

/// A brick's tree has at most as many levels.
const MOST_LEVELS: u64 = 8;

/// Puts the stretches of the places at hand that are in parts, by searches that go on side by side, so that what misses
/// the caches is waited for together. It is a guess what the places are, and which stretches it finds: none for a place
/// in the brick of the one before it, and none where no plug of the place's brick starts at the place or below it.
#[inline(never)]
pub fn stretches_near(
    heap: &Heap,
    bricks: &Bricks,
    g: Condemned,
    places: &[u64],
    stretches: &mut [Stretch],
)
    requires told { (rows : List TypeRow) × (view : HeapView) × (entries : List PinEntry) × (vs : List Move)
        × (start1 : ℕ) × (start0 : ℕ) × HoldsPlan rows view heap.now bricks.now entries g vs start1 start0 }
    requires places { length places.now ≡ 8 }
    requires stretches { length stretches.old ≡ 8 }
    ensures { (rows : List TypeRow) (view : HeapView) (entries : List PinEntry) (vs : List Move)
        (start1 start0 : ℕ) → HoldsPlan rows view heap.now bricks.now entries g vs start1 start0
        → All (IsStretchOf view g vs) stretches.old → All (IsStretchOf view g vs) stretches.new }
{
    let mut searches = [PlugSearch::NONE; TOGETHER];
    begin_all(heap, bricks, g, places, &mut searches);
    advance_all(heap, &mut searches);
    put_all(heap, &searches, stretches);
}

// Begins the searches for these places.
#[inline(always)]
fn begin_all(
    heap: &Heap,
    bricks: &Bricks,
    g: Condemned,
    places: &[u64],
    searches: &mut [PlugSearch],
)
    requires told { (rows : List TypeRow) × (view : HeapView) × (entries : List PinEntry) × (vs : List Move)
        × (start1 : ℕ) × (start0 : ℕ) × HoldsPlan rows view heap.now bricks.now entries g vs start1 start0 }
    requires places { length places.now ≡ 8 }
    requires searches { length searches.old ≡ 8 }
    ensures { All (IsSearchIn heap.now bricks.now g) searches.old
        → All (IsSearchIn heap.now bricks.now g) searches.new }
{
    let mut near = 0;
    let mut before = 0;
    for i in 0..TOGETHER {
        let search = search_for(heap, bricks, g, near, before, places[i]);
        near = search.segment;
        before = places[i];
        searches[i] = search;
    }
}

// The search for a place, and none where it is in no part or in the brick of the place before it. `near` guesses its
// segment.
#[inline(always)]
fn search_for(
    heap: &Heap,
    bricks: &Bricks,
    g: Condemned,
    near: usize,
    before: u64,
    place: u64,
) -> PlugSearch
    requires { (rows : List TypeRow) × (view : HeapView) × (entries : List PinEntry) × (vs : List Move)
        × (start1 : ℕ) × (start0 : ℕ) × HoldsPlan rows view heap.now bricks.now entries g vs start1 start0 }
    ensures { IsSearchIn heap.now bricks.now g result }
{
    heap.lawful();
    if place == 0 || place / BRICK == before / BRICK {
        return nothing(near);
    }
    let k = segment_around(heap, near, place);
    if !is_used(heap, g, k, place) {
        return nothing(k);
    }
    PlugSearch::begin(heap, bricks, k, place)
}

// A search that finds nothing, with a guess of the next place's segment.
#[inline(always)]
fn nothing(near: usize) -> PlugSearch
    ensures { (h : HeapView) (bricks : BricksView) (g : Condemned) → IsSearchIn h bricks g result }
{
    PlugSearch {
        segment: near,
        ..PlugSearch::NONE
    }
}

// The number of a segment: the one in which a place lies, if it lies in any. `near` guesses it.
#[inline(always)]
fn segment_around(heap: &Heap, near: usize, place: u64) -> usize
    requires { IsHeap heap.now }
    ensures { result < length heap.now.segments }
{
    if near < heap.segments() {
        let segment = heap.info(near);
        if segment.base <= place && place - segment.base < segment.reserved {
            return near;
        }
    }
    segment_below(heap, place)
}

// Whether a place is in the part of segment `k`, below the segment's end.
#[inline(always)]
fn is_used(heap: &Heap, g: Condemned, k: usize, place: u64) -> bool
    requires { k < length heap.now.segments }
    ensures { result ≡ true → IsUsedPlace heap.now g k place }
{
    let segment = heap.info(k);
    takes_part(g, segment) && part_start(heap, g, k) <= place && place < segment.end
}

// Goes on with each search until all are at their ends.
#[inline(always)]
fn advance_all(heap: &Heap, searches: &mut [PlugSearch])
    requires { (bricks : BricksView) × (g : Condemned) × All (IsSearchIn heap.now bricks g) searches.old }
    ensures { (bricks : BricksView) (g : Condemned) → All (IsSearchIn heap.now bricks g) searches.old
        → All (IsSearchIn heap.now bricks g) searches.new }
{
    for _ in 0..MOST_LEVELS {
        if !advance_each(heap, searches) {
            return;
        }
    }
}

// Goes one level down with each search. Whether any isn't at its end.
#[inline(always)]
fn advance_each(heap: &Heap, searches: &mut [PlugSearch]) -> bool
    requires { (bricks : BricksView) × (g : Condemned) × All (IsSearchIn heap.now bricks g) searches.old }
    ensures { (bricks : BricksView) (g : Condemned) → All (IsSearchIn heap.now bricks g) searches.old
        → All (IsSearchIn heap.now bricks g) searches.new }
{
    let mut going = false;
    for search in searches.iter_mut() {
        let next = search.advanced(heap);
        going |= next.node != 0;
        *search = next;
    }
    going
}

// Puts the stretches of what the searches have found.
#[inline(always)]
fn put_all(heap: &Heap, searches: &[PlugSearch], stretches: &mut [Stretch])
    requires searches { (bricks : BricksView) × (g : Condemned) × All (IsSearchIn heap.now bricks g) searches.now }
    requires found { length searches.now ≡ 8 }
    requires stretches { length stretches.old ≡ 8 }
    ensures { (rows : List TypeRow) (view : HeapView) (bricks : BricksView) (entries : List PinEntry) (g : Condemned)
        (vs : List Move) (start1 start0 : ℕ) → HoldsPlan rows view heap.now bricks entries g vs start1 start0
        → All (IsSearchIn heap.now bricks g) searches.now
        → All (IsStretchOf view g vs) stretches.old → All (IsStretchOf view g vs) stretches.new }
{
    for i in 0..TOGETHER {
        stretches[i] = stretch_of(heap, searches[i]);
    }
}

// The stretch of the plug that a search has found, and none where it has found none.
#[inline(always)]
fn stretch_of(heap: &Heap, search: PlugSearch) -> Stretch
    requires { (bricks : BricksView) × IsSearching heap.now bricks search }
    ensures { (rows : List TypeRow) (view : HeapView) (bricks : BricksView) (entries : List PinEntry) (g : Condemned)
        (vs : List Move) (start1 start0 : ℕ) → HoldsPlan rows view heap.now bricks entries g vs start1 start0
        → IsSearchIn heap.now bricks g search → IsStretchOf view g vs result }
{
    heap.lawful();
    match search.plug(heap) {
        Some(plug) => Stretch {
            low: plug.start,
            stop: plug.stop,
            down: plug.distance.unsigned_abs(),
        },
        None => Stretch::NONE,
    }
}
