// What bricks tell where an object is gone.
ghost use Rattle.std.specs.Prelude.{◌≡◌, ◌≢◌, ◌+◌, ◌*◌, ◌/◌, ◌%◌, ◌<◌, ◌≤◌, List, MatchOption, ℕ, false, length, min};
ghost use Rattle.std.specs.Prelude.{true};
ghost use Rattle.clr_types.specs.Segments.{ephemeral};
ghost use Rattle.clr_bricks.specs.Bricks.{entry_at, root_entry};
ghost use Rattle.clr_covers.specs.Covers.{is_covered, spans};
ghost use Rattle.clr_heap.specs.View.{frame, IsHeap, last_of, no_rests, segment_at};
ghost use Rattle.clr_model.specs.Machine.{Object};
ghost use Rattle.clr_view.specs.View.{IsHeld, objects_in};
ghost use Rattle.clr_generations.specs.Laws.{BrickLaw};
ghost use Rattle.clr_generations.specs.Renewing.{CanBegin, IsFirstFrom, NoneCounted};
ghost use Rattle.clr_generations.specs.Tables.{AreBricksOf};
ghost use Rattle.clr_evacuate.specs.Left.{HasLeft, is_any, IsOldItemAt};

use clr_bricks::Bricks;
use clr_heap::Heap;
use clr_types::Types;

// Lets the bricks forget an object that stood at a place of the ephemeral segment, below generation 0, where another
// item begins now: where its brick named it, that names the next object that starts in it, or leads one brick back
// where it may name none. All other entries stay. Only items of that brick are looked at, up to the next object.
pub(crate) fn leave_brick(heap: &Heap, types: &Types, bricks: &mut Bricks, place: u64)
    requires held { IsHeld types.now heap.now }
    requires no_contexts { heap.now.rests ≡ no_rests }
    requires order { heap.now.start1 ≤ heap.now.start0 }
    requires item { IsOldItemAt types.now heap.now place }
    requires bricks { AreBricksOf (frame heap.now) bricks.old }
    ensures bricks { (objects : List Object)
        → HasLeft types.now (frame heap.now) objects (objects_in types.now heap.now) place
        → BrickLaw types.now (frame heap.now) objects (entry_at bricks.old)
        → BrickLaw types.now (frame heap.now) (objects_in types.now heap.now) (entry_at bricks.new) }
    ensures others { (i : ℕ) → i ≢ place / 4096 → entry_at bricks.new i ≡ entry_at bricks.old i }
    ensures spans { spans bricks.new ≡ spans bricks.old }
{
    let k = heap.ephemeral();
    if !is_named(bricks, place) {
        return;
    }
    let brick = place / 4096;
    match next_leader(heap, types, k, place) {
        Some(next) => bricks.set_root(brick, (next % 4096) as u16),
        None => bricks.set_back(brick, 1),
    }
}

// Whether the brick of a place names it.
fn is_named(bricks: &Bricks, place: u64) -> bool
    requires { is_covered bricks.now (place / 4096) ≡ true }
    ensures yes { result ≡ true → entry_at bricks.now (place / 4096) ≡ root_entry (place % 4096) }
    ensures no { result ≡ false → entry_at bricks.now (place / 4096) ≢ root_entry (place % 4096) }
{
    bricks.entry(place / 4096) == (place % 4096) as i16 + 1
}

// The place of the first object that starts in the brick of a place of segment `k`, the ephemeral one, from there on
// and below generation 0.
fn next_leader(heap: &Heap, types: &Types, k: usize, place: u64) -> Option<u64>
    requires heap { IsHeap heap.now }
    requires in_range { k < length heap.now.segments }
    requires segment { segment_at heap.now k ≡ ephemeral (frame heap.now) }
    requires held { IsHeld types.now heap.now }
    requires no_contexts { heap.now.rests ≡ no_rests }
    requires item { IsOldItemAt types.now heap.now place }
    ensures { MatchOption result
        (NoneCounted types.now heap.now is_any place (min heap.now.start0 (4096 * (place / 4096) + 4096)))
        (IsFirstFrom types.now heap.now is_any place (min heap.now.start0 (4096 * (place / 4096) + 4096))) }
{
    let (_, start0) = heap.boundaries();
    first_object(
        heap,
        types,
        k,
        place,
        start0.min(4096 * (place / 4096) + 4096),
    )
}

// The place of the first object of segment `k` from `start` on, below `past`.
fn first_object(heap: &Heap, types: &Types, k: usize, start: u64, past: u64) -> Option<u64>
    requires heap { IsHeap heap.now }
    requires held { IsHeld types.now heap.now }
    requires in_range { k < length heap.now.segments }
    requires no_contexts { heap.now.rests ≡ no_rests }
    requires begins { start < last_of heap.now k → CanBegin types.now heap.now k start }
    requires end { past ≤ last_of heap.now k }
    ensures { MatchOption result (NoneCounted types.now heap.now is_any start past)
        (IsFirstFrom types.now heap.now is_any start past) }
{
    let mut place = start;
    while place < past {
        let found = heap.item(types, place);
        if found.type_id.0 != 0 {
            return Some(place);
        }
        place += found.size;
    }
    None
}
