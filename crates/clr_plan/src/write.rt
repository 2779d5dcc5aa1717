// The words before a plug are written, and those of live neighbours are saved first.
ghost use Rattle.std.specs.Prelude.{◌≡◌, ℕ, ◌+◌, ◌-◌, ◌%◌, ◌/◌, ◌<◌, ◌≤◌, ◌^◌, ◌⊎◌, ◌∷◌, ◌++◌, [], List, length};
ghost use Rattle.clr_types.specs.Rising.{IsIn};
ghost use Rattle.clr_covers.specs.Covers.{spans};
ghost use Rattle.clr_bricks.specs.Bricks.{entry_at};
ghost use Rattle.clr_heap.specs.View.{HeapView, IsHeap, SameShape, word_of};
ghost use Rattle.clr_model.specs.Compaction.{plug_end};
ghost use Rattle.clr_pinq.specs.Queue.{last_end};
ghost use Rattle.clr_plugs.specs.Info.{HasInfo};
ghost use Rattle.clr_plugs.specs.Builders.{IsNoChildren};
ghost use Rattle.clr_plugs.specs.Planning.{IsAbovePlugs, IsWriting, with_plug};
ghost use Rattle.clr_plugs.specs.Plans.{IsPlaceIn, PlannedPart};
ghost use Rattle.clr_plan.specs.Writes.{CanWrite, distance_of, entries_for, HasWritten, is_to_save, IsWritingAmong};
ghost use Rattle.clr_plan.specs.Writes.{opened, saved_before, words_before};

use crate::plug::Plug;
use clr_bricks::Bricks;
use clr_heap::Heap;
use clr_pinq::{PinEntry, PinQueue, Saved};
use clr_plugs::PlanWriter;

/// The segment in which plugs stand: its number, and its first place, before which no cell stands.
#[derive(Clone, Copy)]
pub struct Home {
    pub segment: usize,
    pub first: u64,
}

/// Writes the information of the next plug: it goes to `to`, and what is live below it ends at `below`, which is the
/// start of its part where nothing is. What this overwrites of a live neighbour is saved first.
pub fn write_plug(
    heap: &mut Heap,
    bricks: &mut Bricks,
    queue: &mut PinQueue,
    writer: &mut PlanWriter,
    home: Home,
    plug: Plug,
    to: u64,
    below: u64,
)
    requires can { CanWrite heap.old bricks.old queue.old writer.old plug to home.first below }
    ensures writing { (part : PlannedPart) → IsWriting heap.old bricks.old part writer.old → IsPlaceIn part plug.start
        → IsAbovePlugs part plug.start → IsWriting heap.new bricks.new (with_plug part plug.start (plug.start - below)
        (distance_of plug.start to)) writer.new }
    ensures written { (old : HeapView) (starts free : List ℕ) → HasWritten old heap.old queue.old.entries starts free
        below → IsWritingAmong heap.old bricks.old writer.old starts → HasWritten old heap.new queue.new.entries
        (starts ++ plug.start ∷ []) (opened free home.first below plug.start) (plug_end plug) }
    ensures words { (b : ℕ) → b % 8 ≡ 0 → (b + 32 < plug.start) ⊎ (plug.start ≤ b + 8)
        → IsNoChildren writer.old.builder.plugs b → word_of heap.new b ≡ word_of heap.old b }
    ensures brick { writer.new.builder.brick ≡ plug.start / 4096 }
    ensures shape { SameShape heap.old heap.new }
    ensures pushed { queue.new.entries ≡ queue.old.entries ++ entries_for queue.old.entries
        (word_of heap.old) home.first below plug }
    ensures spare { queue.old.spare ≡ queue.new.spare + length (entries_for queue.old.entries
        (word_of heap.old) home.first below plug) }
    ensures entries { (i : ℕ) → (i < writer.old.builder.brick) ⊎ (plug.start / 4096 ≤ i) → entry_at bricks.new i
        ≡ entry_at bricks.old i }
    ensures spans { spans bricks.new ≡ spans bricks.old }
{
    let start = plug.start();
    save_words(heap, queue, home, plug, below);
    writer.add(
        heap,
        bricks,
        home.segment,
        start,
        start - below,
        distance(start, to),
    );
}

// Saves what the information of a plug overwrites of a live neighbour, and what that of a neighbour would overwrite of
// a pinned plug.
fn save_words(heap: &Heap, queue: &mut PinQueue, home: Home, plug: Plug, below: u64)
    requires heap { IsHeap heap.now }
    requires info { HasInfo heap.now plug.start }
    requires ending { HasInfo heap.now (plug_end plug) }
    requires least { 24 ≤ plug.size }
    requires room { 1 ≤ queue.old.spare }
    requires end { last_end 0 queue.old.entries ≤ below }
    requires below { below ≤ plug.start }
    requires apart { plug.start ≡ below → (last_end 0 queue.old.entries ≡ below)
        ⊎ (last_end 0 queue.old.entries + 24 ≤ below) }
    ensures pushed { queue.new.entries ≡ queue.old.entries ++ entries_for queue.old.entries
        (word_of heap.now) home.first below plug }
    ensures spare { queue.old.spare ≡ queue.new.spare + length (entries_for queue.old.entries
        (word_of heap.now) home.first below plug) }
{
    let start = plug.start();
    let pre = if start == below && start != home.first && start != end_of_queue(queue) {
        Some(saved_at(heap, home.segment, start))
    } else {
        None
    };
    if plug.pinned() {
        let end = plug.end();
        let post = Some(saved_at(heap, home.segment, end));
        queue.push(PinEntry {
            start,
            end,
            pre,
            post,
        });
    } else if pre.is_some() {
        queue.push(PinEntry {
            start,
            end: start,
            pre: None,
            post: pre,
        });
    }
}

// Where the last entry of the queue ends, and 0 where there is none.
fn end_of_queue(queue: &PinQueue) -> u64
    ensures { result ≡ last_end 0 queue.now.entries }
{
    let count = queue.len();
    if count == 0 {
        return 0;
    }
    queue.get(count - 1).end
}

// The three words that the information of a plug at `plug` overwrites. `near` guesses their segment.
#[inline(always)]
fn saved_at(heap: &Heap, near: usize, plug: u64) -> Saved
    requires heap { IsHeap heap.now }
    requires info { HasInfo heap.now plug }
    ensures { result ≡ words_before (word_of heap.now) plug }
{
    let at = plug - 32;
    let k = heap.segment_near(near, at);
    Saved {
        at,
        w0: heap.word_at(k, at),
        w1: heap.word_at(k, plug - 24),
        w2: heap.word_at(k, plug - 16),
    }
}

// How far a plug goes up from its place; negative where it goes down.
fn distance(start: u64, to: u64) -> i64
    requires start { start < 2 ^ 63 }
    requires goes { to < 2 ^ 63 }
    ensures { result ≡ distance_of start to }
{
    if start <= to {
        (to - start).cast_signed()
    } else {
        -(start - to).cast_signed()
    }
}
