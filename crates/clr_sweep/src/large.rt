// A sweep of the large segments alone.
ghost use Rattle.std.specs.Prelude.{◌≡◌, ℕ, ◌<◌, Bool, true, false, length};
ghost use Rattle.clr_bricks.specs.Bricks.{entry_at};
ghost use Rattle.clr_covers.specs.Covers.{spans};
ghost use Rattle.clr_generations.specs.Laws.{AreEntered, BrickLaw, IsBrickOf};
ghost use Rattle.clr_generations.specs.Renewing.{AreLeft, HasYoungBorder, left_in};
ghost use Rattle.clr_generations.specs.Tables.{AreBricksOf};
ghost use Rattle.clr_heap.specs.View.{first_of, frame, IsHeap, no_rests, segment_at};
ghost use Rattle.clr_model.specs.Machine.{Object};
ghost use Rattle.clr_types.specs.Segments as segments;
ghost use Rattle.clr_types.specs.Segments.{Layout};
ghost use Rattle.clr_view.specs.View.{IsHeld, objects_in};
ghost use Rattle.clr_sweep.specs.SweptLarge.{AreLargeRenewed, HasSweptLarge, HaveLargeBricks, is_large};
ghost use Rattle.clr_sweep.specs.SweptSegments.{AreSwept, HasSweptSegment, IsParted};

use crate::pass::sweep_segment;
use crate::tally::Tally;
use clr_bricks::Bricks;
use clr_generations::renew_bricks;
use clr_heap::Heap;
use clr_types::{FIRST_OFFSET, SegKind, Types};

/// Sweeps the large segments: of the objects there those that aren't marked become free, and the marked ones stay where
/// they are, without their marks. Each longest run of what doesn't stay is one free item, and behind the last marked
/// object the segment ends. The bricks of these segments obey their law again. The small heap stays as it is, with its
/// boundaries.
///
/// The heap is one whose contexts are given up.
pub fn sweep_large(heap: &mut Heap, types: &Types, bricks: &mut Bricks)
    requires held { IsHeld types.now heap.old }
    requires no_contexts { heap.old.rests ≡ no_rests }
    requires bricks { AreBricksOf (frame heap.old) bricks.old }
    requires brick_law { BrickLaw types.now (frame heap.old) (objects_in types.now heap.old) (entry_at bricks.old) }
    ensures swept { HasSweptLarge types.now heap.old heap.new }
    ensures brick_law { BrickLaw types.now (frame heap.new) (objects_in types.now heap.new) (entry_at bricks.new) }
    ensures spans { spans bricks.new ≡ spans bricks.old }
{
    let count = heap.segments();
    let (start1, start0) = heap.boundaries();
    // No generation begins in a large segment. Below all segments, the boundaries cut no free item in two.
    heap.set_boundaries(0, 0);
    renew_large_bricks(heap, types, bricks, count);
    sweep_large_segments(heap, types, count);
    heap.set_boundaries(start1, start0);
}

// Renews the bricks of the large ones of the `count` segments while the marks stand, where no generation begins in any
// segment.
fn renew_large_bricks(heap: &Heap, types: &Types, bricks: &mut Bricks, count: usize)
    requires heap { IsHeap heap.now }
    requires count { count ≡ length heap.now.segments }
    requires held { IsHeld types.now heap.now }
    requires no_contexts { heap.now.rests ≡ no_rests }
    requires below { heap.now.start0 ≡ 0 }
    requires bricks { AreBricksOf (frame heap.now) bricks.old }
    requires law { HaveLargeBricks types.now heap.now bricks.old }
    ensures { AreLargeRenewed types.now heap.now bricks.old bricks.new }
{
    for k in 0..count {
        renew_if_large(heap, types, bricks, k);
    }
}

// Whether segments of this kind aren't of the small heap.
pub(crate) fn is_large_or_pinned(kind: SegKind) -> bool
    ensures { result ≡ segments.is_large_or_pinned kind }
{
    match kind {
        SegKind::Small | SegKind::Ephemeral => false,
        SegKind::Large | SegKind::Pinned => true,
    }
}

// Renews the bricks of segment `k` if it is a large one.
fn renew_if_large(heap: &Heap, types: &Types, bricks: &mut Bricks, k: usize)
    requires in_range { k < length heap.now.segments }
    requires held { IsHeld types.now heap.now }
    requires no_contexts { heap.now.rests ≡ no_rests }
    requires young { HasYoungBorder types.now heap.now k }
    requires bricks { AreBricksOf (frame heap.now) bricks.old }
    requires law { is_large heap.now k ≡ true
        → AreEntered types.now (frame heap.now) (objects_in types.now heap.now) (entry_at bricks.old)
        (segment_at heap.now k) }
    ensures entered { is_large heap.now k ≡ true → (after : Layout) (keep : Object → Bool)
        → AreLeft types.now heap.now k (first_of heap.now k) after keep
        → AreEntered types.now after (left_in types.now heap.now keep) (entry_at bricks.new) (segment_at heap.now k) }
    ensures others { (brick : ℕ) → (IsBrickOf (segment_at heap.now k) brick → ⊥)
        → entry_at bricks.new brick ≡ entry_at bricks.old brick }
    ensures small { is_large heap.now k ≡ false → (brick : ℕ)
        → entry_at bricks.new brick ≡ entry_at bricks.old brick }
    ensures spans { spans bricks.new ≡ spans bricks.old }
{
    let segment = heap.info(k);
    if is_large_or_pinned(segment.kind) {
        renew_bricks(heap, types, bricks, k, segment.base + FIRST_OFFSET);
    }
}

// Sweeps each large one of the `count` segments, where no generation begins in any segment.
fn sweep_large_segments(heap: &mut Heap, types: &Types, count: usize)
    requires heap { IsHeap heap.old }
    requires count { count ≡ length heap.old.segments }
    requires held { IsHeld types.now heap.old }
    requires no_contexts { heap.old.rests ≡ no_rests }
    ensures swept { AreSwept types.now heap.old heap.new (is_large heap.old) }
    ensures lawful { IsHeap heap.new }
{
    for k in 0..count {
        sweep_if_large(heap, types, k);
    }
}

// Sweeps segment `k` if it is a large one.
fn sweep_if_large(heap: &mut Heap, types: &Types, k: usize)
    requires in_range { k < length heap.old.segments }
    requires parted { IsParted types.now heap.old k (first_of heap.old k) }
    requires no_contexts { heap.old.rests ≡ no_rests }
    ensures large { is_large heap.old k ≡ true
        → HasSweptSegment types.now heap.old heap.new k (first_of heap.old k) }
    ensures small { is_large heap.old k ≡ false → heap.new ≡ heap.old }
    ensures lawful { IsHeap heap.new }
{
    let segment = heap.info(k);
    if is_large_or_pinned(segment.kind) {
        sweep_segment(heap, types, k, segment.base + FIRST_OFFSET, Tally::NONE);
    }
}
