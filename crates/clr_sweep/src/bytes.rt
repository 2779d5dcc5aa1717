// Whether a collection would free enough to compact: the bytes that it would keep, and those of the parts of the small
// heap that it would go over.
ghost use Rattle.std.specs.Prelude.{◌≡◌, ℕ, ◌+◌, ◌<◌, ◌≤◌, ◌^◌, ◌⊎◌, ◌&&◌, Bool, if◌then◌else◌, length, nat_lt};
ghost use Rattle.clr_heap.specs.View.{frame, heap_items, IsHeap, last_of, no_rests};
ghost use Rattle.clr_model.specs.Collection as collection;
ghost use Rattle.clr_model.specs.Lawful.{IsLaid};
ghost use Rattle.clr_model.specs.Machine.{Machine};
ghost use Rattle.clr_model.specs.Sweep.{survivors};
ghost use Rattle.clr_types.specs.Segments.{ephemeral, first_place, is_small_or_ephemeral};
ghost use Rattle.clr_view.specs.Marks.{has_mark};
ghost use Rattle.clr_view.specs.Memory.{IsMemoryOf, TestsMarks};
ghost use Rattle.clr_view.specs.View.{IsHeld, is_object, tail_of};
ghost use Rattle.clr_sweep.specs.KeptBytes.{IsWeighed, kept_size, kept_small};
ghost use Rattle.clr_sweep.specs.SweptItems.{items_from};
ghost use Rattle.clr_sweep.specs.SweptSegments.{IsParted};

use crate::dead::{dead_size, item_and_kind};
use crate::pass::is_kept;
use crate::sweeping::start_of;
use clr_heap::{Heap, Item};
use clr_types::{FIRST_OFFSET, SegKind, Types};

/// Whether a collection of generation `g` and of all younger ones compacts where it decides by itself: whether more
/// than `threshold` hundredths of the bytes of the parts of the small heap that it goes over are free, where it keeps
/// what is marked. Nothing changes, and the walk ends where that is settled.
///
/// The heap is that of a lawful machine whose contexts are given up.
pub fn frees_enough(heap: &Heap, types: &Types, g: u8, threshold: u64) -> bool
    requires held { IsHeld types.now heap.now }
    requires no_contexts { heap.now.rests ≡ no_rests }
    requires laid { (m : Machine) × IsMemoryOf types.now heap.now m × IsLaid m }
    requires generation { g ≤ 2 }
    requires threshold { threshold ≤ 100 }
    ensures { (m : Machine) (kept : ℕ → Bool) → IsMemoryOf types.now heap.now m → TestsMarks types.now heap.now g kept
        → m.options.compact ≡ threshold → result ≡ collection.decides_to_compact m g (survivors m g kept) }
{
    let all = extent(heap, g);
    let need = all - threshold * all / 100;
    kept_bytes(heap, types, g, all, need) < need
}

// The bytes of the marked objects of generation `g` and of all younger ones in the small heap, or others that are below
// `need` just where these are. A collection of these generations goes over `all` bytes there.
fn kept_bytes(heap: &Heap, types: &Types, g: u8, all: u64, need: u64) -> u64
    requires held { IsHeld types.now heap.now }
    requires no_contexts { heap.now.rests ≡ no_rests }
    requires laid { (m : Machine) × IsMemoryOf types.now heap.now m × IsLaid m }
    requires generation { g ≤ 2 }
    requires all { all ≡ collection.extent (frame heap.now) g }
    requires small { all ≤ 1073741824 }
    requires need { need ≤ all }
    ensures { (m : Machine) (kept : ℕ → Bool) → IsMemoryOf types.now heap.now m → TestsMarks types.now heap.now g kept
        → nat_lt result need ≡ nat_lt (collection.kept_bytes m.layout (survivors m g kept)) need }
{
    if g == 2 {
        return small_bytes(heap, types, all, need);
    }
    let k = heap.ephemeral();
    let from = start_of(heap, g);
    part_bytes(heap, types, k, from, 0, need, 0)
}

// The bytes of the marked objects of the small heap, of all generations, or others that are below `need` just where
// these are.
fn small_bytes(heap: &Heap, types: &Types, all: u64, need: u64) -> u64
    requires held { IsHeld types.now heap.now }
    requires no_contexts { heap.now.rests ≡ no_rests }
    requires all { all ≡ collection.extent (frame heap.now) 2 }
    requires small { all ≤ 1073741824 }
    requires need { need ≤ all }
    ensures bytes { nat_lt result need ≡ nat_lt (kept_small heap.now (heap_items types.now heap.now)) need }
    ensures heap { IsHeap heap.now }
{
    let count = heap.segments();
    let mut ahead = all;
    let mut bytes = 0;
    for k in 0..count {
        let segment = heap.info(k);
        if is_small(segment.kind) {
            let from = segment.base + FIRST_OFFSET;
            ahead -= segment.end - from;
            bytes = part_bytes(heap, types, k, from, bytes, need, ahead);
        }
    }
    bytes
}

// Whether segments of this kind belong to the small heap.
fn is_small(kind: SegKind) -> bool
    ensures { result ≡ is_small_or_ephemeral kind }
{
    match kind {
        SegKind::Small | SegKind::Ephemeral => true,
        SegKind::Large | SegKind::Pinned => false,
    }
}

// Adds the bytes of the marked objects of the part of segment `k` from `from` on. Where other parts have at most
// `ahead` bytes, it stops as soon as it is settled whether all marked objects together have fewer than `need`.
fn part_bytes(
    heap: &Heap,
    types: &Types,
    k: usize,
    from: u64,
    before: u64,
    need: u64,
    ahead: u64,
) -> u64
    requires in_range { k < length heap.now.segments }
    requires parted { IsParted types.now heap.now k from }
    requires no_contexts { heap.now.rests ≡ no_rests }
    requires fits { before ≤ from }
    requires need { need ≤ 1073741824 }
    requires ahead { ahead ≤ 1073741824 }
    ensures least { before ≤ result }
    ensures weighed { IsWeighed (before + kept_size heap.now (items_from types.now heap.now k from)) need ahead
        result }
    ensures fits { result ≤ last_of heap.now k }
{
    let end = heap.info(k).end;
    let mut place = from;
    let mut bytes = before;
    let mut stop = stop_of(end, bytes, need, ahead);
    let mut known = None;
    while place < stop {
        let mt = heap.word_at(k, place);
        if let Some(size) = dead_size(known, mt) {
            place += size;
        } else {
            let found = item_and_kind(heap, types, k, place, mt, &mut known);
            bytes = with_item(bytes, found, mt);
            stop = stop_of(end, bytes, need, ahead);
            place += found.size;
        }
    }
    bytes
}

// The place from which on a walk to `end` tells no more, where nothing else is kept than the `bytes` that it has met:
// these are enough, or with all that is ahead too few.
#[inline(always)]
fn stop_of(end: u64, bytes: u64, need: u64, ahead: u64) -> u64
    requires { end + ahead + bytes + 1 < 2 ^ 64 }
    ensures within { result ≤ end }
    ensures settled { (place : ℕ) → result ≤ place
        → (end ≤ place) ⊎ ((need ≤ bytes) ⊎ (end + ahead + bytes < place + need)) }
{
    if need <= bytes {
        0
    } else {
        (end + ahead + bytes + 1).saturating_sub(need).min(end)
    }
}

// The bytes with those of an item more, if it is a marked object.
#[inline]
fn with_item(bytes: u64, found: Item, mt: u64) -> u64
    requires room { bytes + found.size < 2 ^ 64 }
    ensures { result ≡ bytes + (if is_object found && has_mark mt then found.size else 0) }
{
    if is_kept(found, mt) {
        bytes + found.size
    } else {
        bytes
    }
}

// The bytes of the parts of the small heap that a collection of generation `g` and of all younger ones goes over. They
// are no more than a GiB, as no heap reserves more.
fn extent(heap: &Heap, g: u8) -> u64
    requires generation { g ≤ 2 }
    requires low { first_place (ephemeral (frame heap.now)) ≤ heap.now.start1 }
    requires order { heap.now.start1 ≤ heap.now.start0 }
    requires young { heap.now.start0 ≤ tail_of heap.now }
    ensures bytes { result ≡ collection.extent (frame heap.now) g }
    ensures small { result ≤ 1073741824 }
{
    if g == 2 {
        return small_extent(heap);
    }
    heap.info(heap.ephemeral()).end - start_of(heap, g)
}

// The bytes of all segments of the small heap.
fn small_extent(heap: &Heap) -> u64
    ensures bytes { result ≡ collection.extent (frame heap.now) 2 }
    ensures small { result ≤ 1073741824 }
{
    let count = heap.segments();
    let mut total = 0;
    for k in 0..count {
        let segment = heap.info(k);
        if is_small(segment.kind) {
            total += segment.end - (segment.base + FIRST_OFFSET);
        }
    }
    total
}
