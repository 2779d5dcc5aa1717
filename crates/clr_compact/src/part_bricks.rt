// The parts after a compaction: their bricks are entered anew, and the marks of their items cleared.
ghost use Rattle.std.specs.Prelude.{◌≡◌, ℕ, ◌+◌, ◌-◌, ◌*◌, ◌/◌, ◌<◌, ◌≤◌, ◌^◌, ◌==◌, if◌then◌else◌, true, false};
ghost use Rattle.std.specs.Prelude.{length, pos};
ghost use Rattle.clr_types.specs.Segments.{ephemeral, reserved_end};
ghost use Rattle.clr_covers.specs.Covers.{is_covered, spans};
ghost use Rattle.clr_bricks.specs.Bricks.{entry_at};
ghost use Rattle.clr_heap.specs.View.{CanWalk, first_of, frame, HeapView, IsHeap, items_between, last_of, listing};
ghost use Rattle.clr_heap.specs.View.{no_rests};
ghost use Rattle.clr_heap.specs.View.{SameShape, segment_at, sight, word_of};
ghost use Rattle.clr_view.specs.View.{objects_in};
ghost use Rattle.clr_generations.specs.Laws.{AreEntered, IsBrickOf};
ghost use Rattle.clr_generations.specs.Tables.{AreBricksOf};
ghost use Rattle.clr_moves.specs.Moves.{part_of, takes};
ghost use Rattle.clr_compact.specs.Compacted.{ArePartsWalkable, part_items};
ghost use Rattle.clr_compact.specs.Entered.{CanEnterFrom};
ghost use Rattle.clr_compact.specs.PartBricks.{AreWhole, both_restored, CanEnterParts, CanEnterYoung, HasMovedBounds};
ghost use Rattle.clr_compact.specs.PartBricks.{IsEntry};
ghost use Rattle.clr_compact.specs.PartBricks.{IsYoungPart, restored_at};
ghost use Rattle.clr_compact.specs.Rewrites.{cleared, Rewrites};
ghost use Rattle.clr_moves.specs.declared.condemned.Condemned.TheVariants.{Generations};

use crate::entering::{enter_bricks, forget_bricks};
use clr_bricks::Bricks;
use clr_heap::Heap;
use clr_moves::{Condemned, Planned, part_start, takes_part};
use clr_types::{FIRST_OFFSET, Types};

// Where the part of the ephemeral segment starts, and where the segment ends.
#[derive(Clone, Copy)]
pub(crate) struct YoungPart {
    pub(crate) start: u64,
    pub(crate) end: u64,
}

// The part of generations up to `g` in the ephemeral segment.
pub(crate) fn young_part(heap: &Heap, g: u8) -> YoungPart
    ensures start { (e : ℕ) → segment_at heap.now e ≡ ephemeral (frame heap.now)
        → result.start ≡ part_of heap.now (Generations g) e }
    ensures end { (e : ℕ) → segment_at heap.now e ≡ ephemeral (frame heap.now) → result.end ≡ last_of heap.now e }
{
    let young = heap.ephemeral();
    YoungPart {
        start: part_start(heap, Condemned::Generations(g), young),
        end: heap.info(young).end,
    }
}

// Clears the marks of the items of all parts of generations up to `g`, and enters the bricks of the parts anew. The
// boundaries have moved: `part` is the part of the ephemeral segment before that, where the segment ended before the
// compaction, and `planned` has the entries that two of its bricks had before the plan.
pub(crate) fn enter_parts(
    heap: &mut Heap,
    types: &Types,
    bricks: &mut Bricks,
    g: u8,
    planned: &Planned,
    part: YoungPart,
)
    requires least { g ≤ 2 }
    requires heap { IsHeap heap.old }
    requires no_contexts { heap.old.rests ≡ no_rests }
    requires parts { (was : HeapView) × HasMovedBounds g part.start was heap.old
        × ArePartsWalkable types.now was (Generations g) }
    requires bricks { AreBricksOf (frame heap.old) bricks.old }
    requires young { (e : ℕ) → g < 2 → e < length heap.old.segments
        → segment_at heap.old e ≡ ephemeral (frame heap.old)
        → IsYoungPart heap.old e part.start part.end planned.now }
    ensures shape { SameShape heap.old heap.new }
    ensures words { (was : HeapView) → HasMovedBounds g part.start was heap.old
        → Rewrites (cleared (part_items types.now was (Generations g) (length was.segments))) (word_of was)
        (word_of heap.new) }
    ensures parts { (final : HeapView)
        → CanEnterParts types.now heap.old final bricks.old g part.start part.end planned.now → (t : ℕ)
        → t < length heap.old.segments → takes (Generations g) (segment_at heap.old t) ≡ true
        → AreEntered types.now (frame final) (objects_in types.now final) (entry_at bricks.new) (segment_at final t) }
    ensures others { (t brick : ℕ) → t < length heap.old.segments
        → takes (Generations g) (segment_at heap.old t) ≡ false
        → IsBrickOf (segment_at heap.old t) brick → entry_at bricks.new brick ≡ entry_at bricks.old brick }
    ensures spans { spans bricks.new ≡ spans bricks.old }
{
    if g == 2 {
        enter_whole_parts(heap, types, bricks, Condemned::Generations(2));
    } else {
        enter_young_part(heap, types, bricks, planned, part);
    }
}

// Clears the marks of the items of the ephemeral segment's part, and enters its bricks anew.
fn enter_young_part(
    heap: &mut Heap,
    types: &Types,
    bricks: &mut Bricks,
    planned: &Planned,
    part: YoungPart,
)
    requires heap { IsHeap heap.old }
    requires no_contexts { heap.old.rests ≡ no_rests }
    requires walk { (e : ℕ) → e < length heap.old.segments → segment_at heap.old e ≡ ephemeral (frame heap.old)
        → CanWalk (sight types.now heap.old e) heap.old.memories part.start (last_of heap.old e) }
    requires bricks { AreBricksOf (frame heap.old) bricks.old }
    requires young { (e : ℕ) → e < length heap.old.segments
        → segment_at heap.old e ≡ ephemeral (frame heap.old)
        → IsYoungPart heap.old e part.start part.end planned.now }
    ensures shape { SameShape heap.old heap.new }
    ensures words { (e : ℕ) → e < length heap.old.segments → segment_at heap.old e ≡ ephemeral (frame heap.old)
        → Rewrites (cleared (items_between (sight types.now heap.old e) part.start (last_of heap.old e)))
        (word_of heap.old) (word_of heap.new) }
    ensures entered { (final : HeapView) → ((e : ℕ) → e < length heap.old.segments
        → segment_at heap.old e ≡ ephemeral (frame heap.old)
        → CanEnterYoung types.now heap.old final bricks.old e part.start part.end planned.now)
        → AreEntered types.now (frame final) (objects_in types.now final) (entry_at bricks.new)
        (ephemeral (frame final)) }
    ensures others { (brick : ℕ) → (IsBrickOf (ephemeral (frame heap.old)) brick → ⊥)
        → entry_at bricks.new brick ≡ entry_at bricks.old brick }
    ensures spans { spans bricks.new ≡ spans bricks.old }
{
    let k = heap.ephemeral();
    restore_both(heap, bricks, k, part.start, planned);
    forget_bricks(heap, bricks, k, part.start, part.end);
    enter_bricks(heap, types, bricks, k, part.start);
}

// Gives the brick of the place `from` and the one below it the entries that they had before a plan.
fn restore_both(heap: &Heap, bricks: &mut Bricks, k: usize, from: u64, planned: &Planned)
    requires heap { IsHeap heap.now }
    requires in_range { k < length heap.now.segments }
    requires bricks { AreBricksOf (frame heap.now) bricks.old }
    requires low { first_of heap.now k ≤ from }
    requires high { from ≤ reserved_end (segment_at heap.now k) }
    requires below { IsEntry planned.now.below }
    requires first { 4096 * (from / 4096) < reserved_end (segment_at heap.now k) → IsEntry planned.now.first }
    ensures entries { (i : ℕ) → entry_at bricks.new i ≡ both_restored (entry_at bricks.old) from
        (reserved_end (segment_at heap.now k)) planned.now.below planned.now.first i }
    ensures spans { spans bricks.new ≡ spans bricks.old }
{
    let segment = heap.info(k);
    let brick = from / 4096;
    restore(bricks, brick - 1, planned.below);
    if 4096 * brick < segment.base + segment.reserved {
        restore(bricks, brick, planned.first);
    }
}

// Gives a brick an entry that it had; one that led back leads to the brick below.
fn restore(bricks: &mut Bricks, brick: u64, entry: i16)
    requires covered { is_covered bricks.old brick ≡ true }
    requires entry { IsEntry entry }
    ensures entries { (i : ℕ) → entry_at bricks.new i ≡ restored_at (entry_at bricks.old) brick entry i }
    ensures spans { spans bricks.new ≡ spans bricks.old }
{
    if entry > 0 {
        bricks.set_root(brick, entry as u16 - 1);
    } else if entry < 0 {
        bricks.set_back(brick, 1);
    } else {
        bricks.set_none(brick);
    }
}

// Clears the marks of the items of all parts, which are whole segments, and enters their bricks anew.
pub(crate) fn enter_whole_parts(heap: &mut Heap, types: &Types, bricks: &mut Bricks, g: Condemned)
    requires whole { AreWhole g }
    requires parts { ArePartsWalkable types.now heap.old g }
    requires no_contexts { heap.old.rests ≡ no_rests }
    requires bricks { AreBricksOf (frame heap.old) bricks.old }
    ensures shape { SameShape heap.old heap.new }
    ensures words { Rewrites (cleared (part_items types.now heap.old g (length heap.old.segments))) (word_of heap.old)
        (word_of heap.new) }
    ensures parts { (final : HeapView) → ((t : ℕ) → t < length heap.old.segments
        → takes g (segment_at heap.old t) ≡ true → CanEnterFrom types.now heap.old final t (first_of heap.old t))
        → (t : ℕ) → t < length heap.old.segments → takes g (segment_at heap.old t) ≡ true
        → AreEntered types.now (frame final) (objects_in types.now final) (entry_at bricks.new) (segment_at final t) }
    ensures others { (t brick : ℕ) → t < length heap.old.segments → takes g (segment_at heap.old t) ≡ false
        → IsBrickOf (segment_at heap.old t) brick → entry_at bricks.new brick ≡ entry_at bricks.old brick }
    ensures spans { spans bricks.new ≡ spans bricks.old }
{
    let count = heap.segments();
    for k in 0..count {
        if takes_part(g, heap.info(k)) {
            enter_whole_part(heap, types, bricks, k);
        }
    }
}

// Clears the marks of the items of segment `k`, and enters its bricks anew.
fn enter_whole_part(heap: &mut Heap, types: &Types, bricks: &mut Bricks, k: usize)
    requires heap { IsHeap heap.old }
    requires in_range { k < length heap.old.segments }
    requires no_contexts { heap.old.rests ≡ no_rests }
    requires walk { CanWalk (sight types.now heap.old k) heap.old.memories (first_of heap.old k) (last_of heap.old k) }
    requires bricks { AreBricksOf (frame heap.old) bricks.old }
    ensures shape { SameShape heap.old heap.new }
    ensures words { Rewrites (cleared (listing types.now heap.old k)) (word_of heap.old) (word_of heap.new) }
    ensures entered { (final : HeapView) → CanEnterFrom types.now heap.old final k (first_of heap.old k)
        → AreEntered types.now (frame final) (objects_in types.now final) (entry_at bricks.new) (segment_at final k) }
    ensures others { (brick : ℕ) → (IsBrickOf (segment_at heap.old k) brick → ⊥)
        → entry_at bricks.new brick ≡ entry_at bricks.old brick }
    ensures spans { spans bricks.new ≡ spans bricks.old }
{
    clear_bricks(heap, bricks, k);
    let from = heap.info(k).base + FIRST_OFFSET;
    enter_bricks(heap, types, bricks, k, from);
}

// Takes away the entries of all bricks of segment `k`.
fn clear_bricks(heap: &Heap, bricks: &mut Bricks, k: usize)
    requires heap { IsHeap heap.now }
    requires in_range { k < length heap.now.segments }
    requires bricks { AreBricksOf (frame heap.now) bricks.old }
    ensures none { (brick : ℕ) → IsBrickOf (segment_at heap.now k) brick → entry_at bricks.new brick ≡ pos 0 }
    ensures others { (brick : ℕ) → (IsBrickOf (segment_at heap.now k) brick → ⊥)
        → entry_at bricks.new brick ≡ entry_at bricks.old brick }
    ensures spans { spans bricks.new ≡ spans bricks.old }
{
    let segment = heap.info(k);
    bricks.clear(
        segment.base / 4096,
        (segment.base + segment.reserved) / 4096,
    );
}
