// References of an object that are followed with the bits of one segment lent.
ghost use Rattle.std.specs.Prelude.{◌≡◌, ◌≢◌, ℕ, ◌+◌, ◌^◌, ◌<◌, ◌≤◌, get_or, length, min};
ghost use Rattle.clr_types.specs.Descriptors.{offsets_from};
ghost use Rattle.clr_heap.specs.Memories.{memory_index};
ghost use Rattle.clr_heap.specs.View.{IsHeap, word_of};
ghost use Rattle.clr_view.specs.SlotValues.{StandsAt};
ghost use Rattle.clr_view.specs.View.{IsHeld};
ghost use Rattle.clr_mark.specs.Markings.{references_at};
ghost use Rattle.clr_bgmark.specs.Lending.{HasMetNear, StaysLawful};
ghost use Rattle.clr_bgmark.specs.Shades.{BackgroundView, IsBackground, met_all, ShadeView};

use crate::shade::Shade;
use clr_heap::Heap;
use clr_types::{ReferenceRun, Types};

/// The references of an object's run are followed from number `from` on, while their targets were taken in segment
/// `near`, a guess. It answers at which one it stopped, and how many objects became gray.
#[inline(always)]
pub(crate) fn meet_near(
    shades: &mut Vec<Shade>,
    near: usize,
    heap: &Heap,
    types: &Types,
    k: usize,
    obj: u64,
    run: ReferenceRun,
    from: u64,
) -> (u64, u64)
    requires heap { IsHeap heap.now }
    requires held { IsHeld types.now heap.now }
    requires stands { StandsAt types.now heap.now obj }
    requires segment { k ≡ memory_index heap.now.memories obj }
    requires run { references_at types.now heap.now obj ≡ offsets_from run.offset run.count }
    requires from { from ≤ run.count }
    ensures length { length shades.new.items ≡ length shades.old.items }
    ensures others { (k : ℕ) (d : ShadeView) → k ≢ near → get_or shades.new.items k d ≡ get_or shades.old.items k d }
    ensures low { from ≤ result.0 }
    ensures high { result.0 ≤ run.count }
    ensures background { IsBackground shades.old.items → IsBackground shades.new.items }
    ensures met { (first v : BackgroundView) → v.shades ≡ shades.old.items → IsBackground v.shades → v.gray < 2 ^ 64
        → v ≡ met_all (word_of heap.now) first obj (offsets_from run.offset from)
        → (record v { shades = shades.new.items; gray = min (v.gray + result.1) 18446744073709551615 })
        ≡ met_all (word_of heap.now) first obj (offsets_from run.offset result.0) }
{
    if near < shades.len() {
        let shade = &mut shades[near];
        meet_lent(shade, heap, types, k, obj, run, from)
    } else {
        (from, 0)
    }
}

// The references of a run are followed with the bits of the segment lent, so that the loop keeps what it needs in
// registers.
#[inline(always)]
fn meet_lent(
    shade: &mut Shade,
    heap: &Heap,
    types: &Types,
    k: usize,
    obj: u64,
    run: ReferenceRun,
    from: u64,
) -> (u64, u64)
    requires heap { IsHeap heap.now }
    requires held { IsHeld types.now heap.now }
    requires stands { StandsAt types.now heap.now obj }
    requires segment { k ≡ memory_index heap.now.memories obj }
    requires run { references_at types.now heap.now obj ≡ offsets_from run.offset run.count }
    requires from { from ≤ run.count }
    ensures low { from ≤ result.0 }
    ensures high { result.0 ≤ run.count }
    ensures lawful { StaysLawful shade.old shade.new }
    ensures met { HasMetNear (word_of heap.now) obj run.offset from result.0 shade.old shade.new result.1 }
{
    let _ = types;
    let mut i = from;
    let mut found = 0;
    while i < run.count {
        let slot = obj + run.offset + 8 * i;
        match shade.meet(heap.word_at(k, slot)) {
            Some(more) => found += more,
            None => return (i, found),
        }
        i += 1;
    }
    (i, found)
}
