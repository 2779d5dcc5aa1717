// Counting what a collection would keep and free.
ghost use Rattle.std.specs.Prelude.{◌≡◌, ◌<◌, ◌≤◌, ◌^◌, true, false, length};
ghost use Rattle.clr_heap.specs.View.{first_of, last_of, listing, no_rests};
ghost use Rattle.clr_model.specs.Lawful.{IsLaid};
ghost use Rattle.clr_model.specs.Machine.{Machine};
ghost use Rattle.clr_view.specs.Memory.{IsMemoryOf};
ghost use Rattle.clr_view.specs.View.{IsHeld};
ghost use Rattle.clr_sweep.specs.Passes.{IsAtMost, plus};
ghost use Rattle.clr_sweep.specs.Swept.{tally_of};
ghost use Rattle.clr_sweep.specs.SweptItems.{items_from, tally_among};
ghost use Rattle.clr_sweep.specs.SweptLarge.{is_large, large_tally};
ghost use Rattle.clr_sweep.specs.SweptSegments.{IsParted};

use crate::dead::{dead_size, item_and_kind};
use crate::large::is_large_or_pinned;
use crate::pass::with_item;
use crate::sweeping::start_of;
use crate::tally::Tally;
use clr_heap::Heap;
use clr_types::{FIRST_OFFSET, Types};

/// Counts what a sweep of generation `g` and of all younger ones would count now: the objects that are marked and those
/// that aren't, and the bytes of the marked ones of generations 0 and 1. Nothing changes.
///
/// The heap is that of a lawful machine whose contexts are given up.
pub fn count(heap: &Heap, types: &Types, g: u8) -> Tally
    requires held { IsHeld types.now heap.now }
    requires no_contexts { heap.now.rests ≡ no_rests }
    requires laid { (m : Machine) × IsMemoryOf types.now heap.now m × IsLaid m }
    requires generation { g ≤ 2 }
    ensures { result ≡ tally_of types.now heap.now g }
{
    if g == 2 {
        return count_whole(heap, types);
    }
    let k = heap.ephemeral();
    let from = start_of(heap, g);
    count_part(heap, types, k, from, Tally::NONE)
}

// Counts what a sweep of all generations would count now.
fn count_whole(heap: &Heap, types: &Types) -> Tally
    requires held { IsHeld types.now heap.now }
    requires no_contexts { heap.now.rests ≡ no_rests }
    ensures { result ≡ tally_of types.now heap.now 2 }
{
    let count = heap.segments();
    let mut tally = Tally::NONE;
    for k in 0..count {
        let from = heap.info(k).base + FIRST_OFFSET;
        tally = count_part(heap, types, k, from, tally);
    }
    tally
}

/// Counts what a sweep of all generations would count now in the segments that aren't of the small heap. Nothing
/// changes.
pub fn count_large(heap: &Heap, types: &Types) -> Tally
    requires held { IsHeld types.now heap.now }
    requires no_contexts { heap.now.rests ≡ no_rests }
    ensures tally { result ≡ large_tally types.now heap.now (length heap.now.segments) }
    ensures few { IsAtMost result (2 ^ 62) }
{
    let count = heap.segments();
    let mut tally = Tally::NONE;
    for k in 0..count {
        tally = count_if_large(heap, types, k, tally);
    }
    tally
}

// Adds the counts of segment `k` if it isn't of the small heap.
fn count_if_large(heap: &Heap, types: &Types, k: usize, before: Tally) -> Tally
    requires in_range { k < length heap.now.segments }
    requires held { IsHeld types.now heap.now }
    requires no_contexts { heap.now.rests ≡ no_rests }
    requires counted { IsAtMost before (first_of heap.now k) }
    ensures large { is_large heap.now k ≡ true
        → result ≡ plus before (tally_among heap.now (listing types.now heap.now k)) }
    ensures small { is_large heap.now k ≡ false → result ≡ before }
    ensures counted { IsAtMost result (last_of heap.now k) }
{
    let segment = heap.info(k);
    if is_large_or_pinned(segment.kind) {
        return count_part(heap, types, k, segment.base + FIRST_OFFSET, before);
    }
    before
}

// Adds the counts of the part of segment `k` from `from` on.
fn count_part(heap: &Heap, types: &Types, k: usize, from: u64, before: Tally) -> Tally
    requires in_range { k < length heap.now.segments }
    requires parted { IsParted types.now heap.now k from }
    requires no_contexts { heap.now.rests ≡ no_rests }
    requires counted { IsAtMost before from }
    ensures tally { result ≡ plus before (tally_among heap.now (items_from types.now heap.now k from)) }
    ensures counted { IsAtMost result (last_of heap.now k) }
{
    let end = heap.info(k).end;
    let mut place = from;
    let mut tally = before;
    let mut known = None;
    while place < end {
        let mt = heap.word_at(k, place);
        if let Some(size) = dead_size(known, mt) {
            tally.freed += 1;
            place += size;
        } else {
            let found = item_and_kind(heap, types, k, place, mt, &mut known);
            tally = with_item(heap, tally, found, mt);
            place += found.size;
        }
    }
    tally
}
