// Parts that are whole segments are laid, from the lowest on.
ghost use Rattle.std.specs.Prelude.{◌≡◌, ℕ, ◌<◌, true, length};
ghost use Rattle.clr_types.specs.Segments.{reserved_end};
ghost use Rattle.clr_heap.specs.View.{first_of, segment_at};
ghost use Rattle.clr_moves.specs.Moves.{takes};
ghost use Rattle.clr_plan.specs.Counts.{HaveCounted};
ghost use Rattle.clr_plan.specs.Firsts.{IsLowest};
ghost use Rattle.clr_plan.specs.States.{state};
ghost use Rattle.clr_plan.specs.WholeParts.{AreLaidWhole, CanLayWhole, Wholes};

use crate::counts::Counts;
use crate::parts::{Laid, plan_segment};
use crate::pointer::Pointer;
use clr_bricks::Bricks;
use clr_heap::Heap;
use clr_moves::{Condemned, next_part, takes_part};
use clr_pinq::PinQueue;
use clr_types::{FIRST_OFFSET, Types};

/// Lays the parts of the `count` lowest segments, each of which is a whole segment. It answers the pointer behind them,
/// and how many objects stand in them.
pub fn plan_whole(
    heap: &mut Heap,
    types: &Types,
    bricks: &mut Bricks,
    queue: &mut PinQueue,
    parts: Condemned,
    count: usize,
) -> Laid
    requires can { (w : Wholes) × CanLayWhole w types.now heap.old bricks.old queue.old parts count }
    ensures laid { (w : Wholes) → CanLayWhole w types.now heap.old bricks.old queue.old parts count → AreLaidWhole w
        (state heap.old bricks.old queue.old) (state heap.new bricks.new queue.new) parts count count result.at }
    ensures counted { (w : Wholes) → CanLayWhole w types.now heap.old bricks.old queue.old parts count
        → HaveCounted types.now heap.old parts count result.counts }
{
    let mut at = lowest_place(heap, parts);
    let mut counts = Counts::none();
    for k in 0..count {
        if takes_part(parts, heap.info(k)) {
            let laid = plan_segment(heap, types, bricks, queue, at, k);
            at = laid.at;
            counts = counts.plus(laid.counts);
        }
    }
    Laid { at, counts }
}

// The first place of the lowest segment that has a part.
fn lowest_place(heap: &Heap, parts: Condemned) -> Pointer
    requires some { (t : ℕ) × (t < length heap.now.segments) × (takes parts (segment_at heap.now t) ≡ true) }
    ensures lowest { IsLowest heap.now parts result.segment }
    ensures place { result.place ≡ first_of heap.now result.segment }
    ensures high { result.high ≡ reserved_end (segment_at heap.now result.segment) }
    ensures passed { result.passed ≡ 0 }
{
    let lowest = next_part(heap, parts, 0);
    let segment = heap.info(lowest);
    Pointer {
        place: segment.base + FIRST_OFFSET,
        segment: lowest,
        high: segment.base + segment.reserved,
        passed: 0,
    }
}
