// A plug gets its destination, and it is written before it.
ghost use Rattle.std.specs.Prelude.{◌≡◌, ℕ, ◌+◌, ◌<◌, ◌≤◌, ◌++◌, ◌∷◌, [], ◌-◌, ◌/◌, ◌%◌, ◌^◌, ◌⊎◌, List, length};
ghost use Rattle.clr_covers.specs.Covers.{spans};
ghost use Rattle.clr_bricks.specs.Bricks.{entry_at};
ghost use Rattle.clr_heap.specs.View.{first_of, HeapView, last_of, SameShape, word_of};
ghost use Rattle.clr_model.specs.Compaction.{plug_end};
ghost use Rattle.clr_plugs.specs.Builders.{IsNoChildren};
ghost use Rattle.clr_plugs.specs.Planning.{IsAbovePlugs, IsWriting, with_plug};
ghost use Rattle.clr_plugs.specs.Plans.{IsPlaceIn, PlannedPart};
ghost use Rattle.clr_plan.specs.Counts.{HasCounted, no_counts};
ghost use Rattle.clr_plan.specs.Stages.{CanGo, HasGone, Stage};
ghost use Rattle.clr_plan.specs.LaidParts.{CanLay, CanLaySegment, HasLaid, HasLaidSegment};
ghost use Rattle.clr_plan.specs.Parts.{Around};
ghost use Rattle.clr_plan.specs.States.{progress, state, stretch, written};
ghost use Rattle.clr_plan.specs.Writes.{CanWrite, distance_of, entries_for, HasWritten, IsWritingAmong, opened};

use crate::counts::Counts;
use crate::plug::Plug;
use crate::pointer::Pointer;
use crate::scan::{Walk, next_plug};
use crate::way::way_of;
use crate::write::{Home, write_plug};
use clr_bricks::Bricks;
use clr_heap::Heap;
use clr_pinq::PinQueue;
use clr_plugs::PlanWriter;
use clr_types::{FIRST_OFFSET, Types};

/// How far the plan of a part has come: where the pointer stands, what writes the plan, and the place where what is
/// live below the next plug ends.
#[derive(Drop)]
pub struct Laying {
    pub at: Pointer,
    pub writer: PlanWriter,
    pub below: u64,
}

/// Places the next plug, which stands in segment `home`, and writes how far it goes before it. This is the one place
/// where anything is told of a plug that is placed.
pub fn place_plug(
    heap: &mut Heap,
    bricks: &mut Bricks,
    queue: &mut PinQueue,
    laying: &mut Laying,
    home: Home,
    plug: Plug,
)
    requires stage { (w : Stage) × CanGo w heap.old queue.old.entries laying.old.at home.segment plug }
    requires can { (to : ℕ) → to < 2 ^ 63 → CanWrite heap.old bricks.old queue.old laying.old.writer plug to home.first
        laying.old.below }
    ensures settled { (w : Stage) → CanGo w heap.old queue.old.entries laying.old.at home.segment plug → (to : ℕ)
        × HasGone w heap.old queue.old.entries laying.old.at home.segment plug to laying.new.at
        × ((part : PlannedPart) → IsWriting heap.old bricks.old part laying.old.writer → IsPlaceIn part plug.start
        → IsAbovePlugs part plug.start → IsWriting heap.new bricks.new
        (with_plug part plug.start (plug.start - laying.old.below) (distance_of plug.start to)) laying.new.writer) }
    ensures written { (old : HeapView) (starts free : List ℕ) → HasWritten old heap.old queue.old.entries starts free
        laying.old.below → IsWritingAmong heap.old bricks.old laying.old.writer starts
        → HasWritten old heap.new queue.new.entries (starts ++ plug.start ∷ [])
        (opened free home.first laying.old.below plug.start) (plug_end plug) }
    ensures words { (b : ℕ) → b % 8 ≡ 0 → (b + 32 < plug.start) ⊎ (plug.start ≤ b + 8)
        → IsNoChildren laying.old.writer.builder.plugs b → word_of heap.new b ≡ word_of heap.old b }
    ensures below { laying.new.below ≡ plug_end plug }
    ensures brick { laying.new.writer.builder.brick ≡ plug.start / 4096 }
    ensures shape { SameShape heap.old heap.new }
    ensures pushed { queue.new.entries ≡ queue.old.entries ++ entries_for queue.old.entries
        (word_of heap.old) home.first laying.old.below plug }
    ensures spare { queue.old.spare ≡ queue.new.spare + length (entries_for queue.old.entries
        (word_of heap.old) home.first laying.old.below plug) }
    ensures entries { (i : ℕ) → (i < laying.old.writer.builder.brick) ⊎ (plug.start / 4096 ≤ i) → entry_at bricks.new i
        ≡ entry_at bricks.old i }
    ensures spans { spans bricks.new ≡ spans bricks.old }
{
    let way = way_of(heap, queue, laying.at, home.segment, plug);
    write_plug(
        heap,
        bricks,
        queue,
        &mut laying.writer,
        home,
        plug,
        way.to,
        laying.below,
    );
    laying.at = way.after;
    laying.below = plug.end();
}

/// Places the plugs of segment `k` from `low` to `end`, one after the other, and writes them before themselves. It
/// answers how many objects stand there.
pub fn plan_part(
    heap: &mut Heap,
    types: &Types,
    bricks: &mut Bricks,
    queue: &mut PinQueue,
    laying: &mut Laying,
    k: usize,
    low: u64,
    end: u64,
) -> Counts
    requires part { (old : HeapView) × (w : Around) × (starts free : List ℕ) × (part : PlannedPart)
        × CanLay w types.now old (progress (written heap.old bricks.old queue.old laying.old.writer) laying.old.at
        laying.old.below) starts free part (stretch k low end) }
    ensures laid { (old : HeapView) (w : Around) (starts free : List ℕ) (part : PlannedPart)
        → CanLay w types.now old (progress (written heap.old bricks.old queue.old laying.old.writer) laying.old.at
        laying.old.below) starts free part (stretch k low end)
        → HasLaid w types.now old (progress (written heap.old bricks.old queue.old laying.old.writer) laying.old.at
        laying.old.below) (progress (written heap.new bricks.new queue.new laying.new.writer) laying.new.at
        laying.new.below) starts free part (stretch k low end) }
    ensures counted { (old : HeapView) (w : Around) (starts free : List ℕ) (part : PlannedPart)
        → CanLay w types.now old (progress (written heap.old bricks.old queue.old laying.old.writer) laying.old.at
        laying.old.below) starts free part (stretch k low end)
        → HasCounted types.now old k end low no_counts end result }
    ensures shape { SameShape heap.old heap.new }
    ensures spans { spans bricks.new ≡ spans bricks.old }
{
    let home = Home {
        segment: k,
        first: heap.info(k).base + FIRST_OFFSET,
    };
    let mut place = low;
    let mut walk = Walk::new();
    while let Some(found) = next_plug(heap, types, k, place, end, &mut walk) {
        place_plug(heap, bricks, queue, laying, home, found.plug);
        place = found.next;
    }
    walk.counts
}

/// Where the pointer stands behind parts that are laid, and how many objects stand in them.
#[derive(Clone, Copy)]
pub struct Laid {
    pub at: Pointer,
    pub counts: Counts,
}

/// Places the plugs of segment `k`, all of it, and writes its plan into the heap and the bricks. It answers the pointer
/// behind them, and how many objects stand there.
pub fn plan_segment(
    heap: &mut Heap,
    types: &Types,
    bricks: &mut Bricks,
    queue: &mut PinQueue,
    from: Pointer,
    k: usize,
) -> Laid
    requires segment { (old : HeapView) × (w : Around) × (starts free : List ℕ) × (below : ℕ)
        × CanLaySegment w types.now old (state heap.old bricks.old queue.old) from starts free k below }
    ensures laid { (old : HeapView) (w : Around) (starts free : List ℕ) (below : ℕ) → CanLaySegment w types.now old
        (state heap.old bricks.old queue.old) from starts free k below → HasLaidSegment w types.now old
        (state heap.old bricks.old queue.old) (state heap.new bricks.new queue.new) from starts free k result.at }
    ensures counted { (old : HeapView) (w : Around) (starts free : List ℕ) (below : ℕ) → CanLaySegment w types.now old
        (state heap.old bricks.old queue.old) from starts free k below
        → HasCounted types.now old k (last_of old k) (first_of old k) no_counts (last_of old k) result.counts }
    ensures shape { SameShape heap.old heap.new }
    ensures spans { spans bricks.new ≡ spans bricks.old }
{
    let segment = heap.info(k);
    let first = segment.base + FIRST_OFFSET;
    let writer = PlanWriter::new(bricks, first);
    let mut laying = Laying {
        at: from,
        writer,
        below: first,
    };
    let counts = plan_part(
        heap,
        types,
        bricks,
        queue,
        &mut laying,
        k,
        first,
        segment.end,
    );
    laying.writer.finish(heap, bricks, segment.end);
    Laid {
        at: laying.at,
        counts,
    }
}
