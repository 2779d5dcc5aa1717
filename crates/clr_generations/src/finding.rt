// Objects by their places, found from bricks.
ghost use Rattle.std.specs.Prelude.{◌≡◌, ℕ, ◌^◌, ◌<◌, ◌≤◌, ◌⊎◌, ◌<ℤ◌, pos, IfSome, IsNone, length};
ghost use Rattle.clr_bricks.specs.Bricks.{entry_at, root_entry};
ghost use Rattle.clr_heap.specs.View.{CanWalk, first_of, frame, heap_items, item_with_place, items_between, last_of};
ghost use Rattle.clr_heap.specs.View.{IsHeap, only_object, sight};
ghost use Rattle.clr_view.specs.View.{IsHeld, objects_in};
ghost use Rattle.clr_generations.specs.Finding.{IsStart};
ghost use Rattle.clr_generations.specs.Laws.{BrickLaw};
ghost use Rattle.clr_generations.specs.Tables.{AreBricksOf};

use clr_bricks::Bricks;
use clr_heap::{Heap, Item, ObjectKind};
use clr_types::Types;

/// The object with the place `a`: `None` where no object has it. It is found from the nearest object that a brick
/// names, and so without a walk of its segment.
pub fn object_at(heap: &Heap, types: &Types, bricks: &Bricks, a: u64) -> Option<Item>
    requires held { IsHeld types.now heap.now }
    requires bricks { AreBricksOf (frame heap.now) bricks.now }
    requires law { BrickLaw types.now (frame heap.now) (objects_in types.now heap.now) (entry_at bricks.now) }
    ensures { result ≡ only_object (item_with_place (heap_items types.now heap.now) a) }
{
    let k = segment_with(heap, a)?;
    let start = walk_start(heap, types, bricks, k, a);
    let found = item_from(heap, types, k, start, a)?;
    if found.type_id.0 == 0 {
        None
    } else {
        Some(found)
    }
}

/// The number of the segment in which an item may have the place `a`.
pub fn segment_with(heap: &Heap, a: u64) -> Option<usize>
    ensures heap { IsHeap heap.now }
    ensures in_range { IfSome result (λ k. k < length heap.now.segments) }
    ensures low { IfSome result (λ k. first_of heap.now k ≤ a) }
    ensures high { IfSome result (λ k. a < last_of heap.now k) }
    ensures none { IsNone result → (k : ℕ) → k < length heap.now.segments
        → (a < first_of heap.now k) ⊎ (last_of heap.now k ≤ a) }
{
    for k in 0..heap.segments() {
        let segment = heap.info(k);
        if segment.first_place() <= a && a < segment.end {
            return Some(k);
        }
    }
    None
}

/// Where a walk to the place `a` of segment `k` may start: at the nearest object that bricks name, else at the segment's
/// first place.
pub fn walk_start(heap: &Heap, types: &Types, bricks: &Bricks, k: usize, a: u64) -> u64
    requires held { IsHeld types.now heap.now }
    requires in_range { k < length heap.now.segments }
    requires low { first_of heap.now k ≤ a }
    requires high { a < last_of heap.now k }
    requires bricks { AreBricksOf (frame heap.now) bricks.now }
    requires law { BrickLaw types.now (frame heap.now) (objects_in types.now heap.now) (entry_at bricks.now) }
    ensures { IsStart types.now heap.now k a result }
{
    let first = heap.info(k).first_place();
    let lowest = first / 4096;
    let mut brick = a / 4096;
    while brick >= lowest {
        let entry = bricks.entry_near(k, brick);
        if entry > 0 {
            let place = 4096 * brick + offset_of(entry);
            if place <= a {
                return place;
            }
        }
        brick = brick.saturating_sub(bricks_down(entry));
    }
    first
}

// The offset that an entry names.
pub(crate) fn offset_of(entry: i16) -> u64
    requires { pos 0 <ℤ entry }
    ensures named { entry ≡ root_entry result }
    ensures small { result < 2 ^ 15 }
{
    (entry - 1) as u64
}

// How many bricks down the next entry is that tells of places below.
fn bricks_down(entry: i16) -> u64
    ensures { 0 < result }
{
    if entry < 0 {
        u64::from(entry.unsigned_abs())
    } else {
        1
    }
}

// The item of segment `k` with the place `a`, free or not, on a walk from `start` on.
fn item_from(heap: &Heap, types: &Types, k: usize, start: u64, a: u64) -> Option<Item>
    requires in_range { k < length heap.now.segments }
    requires walk { CanWalk (sight types.now heap.now k) heap.now.memories start (last_of heap.now k) }
    requires low { first_of heap.now k ≤ start }
    ensures { result ≡ item_with_place (items_between (sight types.now heap.now k) start (last_of heap.now k)) a }
{
    let end = heap.info(k).end;
    let mut place = start;
    let mut next_hole = start;
    let mut known = ObjectKind::none();
    while place < end && place <= a {
        match heap.hole_here(k, place, &mut next_hole) {
            Some(high) => place = high,
            None => {
                let found = heap.item_like_in(types, k, place, &mut known);
                if place == a {
                    return Some(found);
                }
                place += found.size;
            }
        }
    }
    None
}
