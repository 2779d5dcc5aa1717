// What a background collection takes at its first pause.
ghost use Rattle.std.specs.Prelude.{◌≡◌, ℕ, ◌+◌, ◌*◌, ◌<◌, ◌≤◌, ◌^◌, length, get_or, true, IfOk};
ghost use Rattle.std.specs.List.{AllByRecursion};
ghost use Rattle.clr_heap.specs.ObjectKinds.{IsObjectKind};
ghost use Rattle.clr_heap.specs.Parts.{item_at};
ghost use Rattle.clr_heap.specs.Memories.{memory_index};
ghost use Rattle.clr_types.specs.Segments.{generation};
ghost use Rattle.clr_heap.specs.View.{AreWalkable, first_of, frame, HasItem, heap_items, IsHeap};
ghost use Rattle.clr_heap.specs.View.{last_of, listing, segment_at, word_of};
ghost use Rattle.clr_view.specs.View.{IsHeld};
ghost use Rattle.clr_bgmark.specs.Pauses.{all_taken, AreShadesOf, IsBare, IsOldBelow, taken_in, taken_one, used_of};
ghost use Rattle.clr_bgmark.specs.Pauses.{used_size};
ghost use Rattle.clr_bgmark.specs.FirstParts.{AreUntold, gapped_one, HasTold, IsFresh, IsTold, no_part, no_shade};
ghost use Rattle.clr_bgmark.specs.Shades.{AreApart, AreRising, covers, IsShade};
ghost use Rattle.clr_bgmark.specs.Tiles.{AreParts, HaveEdges};

use crate::NoMemory;
use crate::part::Part;
use crate::shade::{Bit, Shade};
use clr_heap::{Heap, ObjectKind};
use clr_sweep::Front;
use clr_types::{SegInfo, Types};
use std::alloc::Global;

/// Bits for the used part of each segment of the heap, of which none is set.
pub(crate) fn shades_of(alloc: Global, heap: &Heap) -> Result<Vec<Shade>, NoMemory>
    ensures shades { IfOk result (λ v. AreShadesOf heap.now v.items) }
    ensures lawful { IfOk result (λ v. AllByRecursion IsShade v.items) }
    ensures apart { IfOk result (λ v. AreApart v.items) }
    ensures rising { IfOk result (λ v. AreRising v.items) }
    ensures none { IfOk result (λ v. AllByRecursion IsBare v.items) }
{
    let mut shades = Vec::new(alloc);
    for k in 0..heap.segments() {
        let segment = heap.info(k);
        let shade = Shade::new(alloc, segment.base, used_size(segment))?;
        shades.push(shade)?;
    }
    Ok(shades)
}

// How many bytes of a segment are in use up to its end, in whole pages of 4,096 bytes.
fn used_size(segment: SegInfo) -> u64
    requires low { segment.base ≤ segment.end }
    requires high { segment.end < 2 ^ 63 }
    ensures { result ≡ used_size segment }
{
    (segment.end - segment.base + 4095) / 4096 * 4096
}

/// The old part of each segment of the heap, of which nothing is known yet.
pub(crate) fn parts_of(alloc: Global, heap: &Heap) -> Result<Vec<Part>, NoMemory>
    ensures { IfOk result (λ v. AreUntold heap.now v.items) }
{
    let mut parts = Vec::new(alloc);
    for k in 0..heap.segments() {
        let segment = heap.info(k);
        let part = Part::new(alloc, used_size(segment))?;
        parts.push(part)?;
    }
    Ok(parts)
}

/// Room for the front of each segment of the heap.
pub(crate) fn fronts_of(alloc: Global, heap: &Heap) -> Result<Vec<Front>, NoMemory>
    ensures { IfOk result (λ v. length v.items ≡ length heap.now.segments) }
{
    let mut fronts = Vec::new(alloc);
    for _ in 0..heap.segments() {
        fronts.push(Front { place: 0, count: 0 })?;
    }
    Ok(fronts)
}

/// Takes the objects of generation 2, and learns where the gaps between them are.
pub(crate) fn take_oldest(
    shades: &mut Vec<Shade>,
    parts: &mut Vec<Part>,
    heap: &Heap,
    types: &Types,
)
    requires held { IsHeld types.now heap.now }
    requires shapes { AreShadesOf heap.now shades.old.items }
    requires apart { AreApart shades.old.items }
    requires lawful { AllByRecursion IsShade shades.old.items }
    requires bare { AllByRecursion IsBare shades.old.items }
    requires untold { AreUntold heap.now parts.old.items }
    ensures taken { shades.new.items ≡ all_taken heap.now shades.old.items (heap_items types.now heap.now) }
    ensures parts { AreParts shades.new.items parts.new.items }
    ensures edges { HaveEdges types.now heap.now shades.new.items parts.new.items }
{
    for k in 0..heap.segments() {
        take_segment(shades, parts, heap, types, k);
    }
}

// Takes those of segment `k`.
fn take_segment(
    shades: &mut Vec<Shade>,
    parts: &mut Vec<Part>,
    heap: &Heap,
    types: &Types,
    k: usize,
)
    requires heap { IsHeap heap.now }
    requires in_range { k < length heap.now.segments }
    requires walkable { AreWalkable types.now heap.now }
    requires shapes { AreShadesOf heap.now shades.old.items }
    requires apart { AreApart shades.old.items }
    requires count { length parts.old.items ≡ length heap.now.segments }
    requires fresh { IsFresh (get_or shades.old.items k no_shade) (get_or parts.old.items k no_part) }
    ensures taken { shades.new.items ≡ all_taken heap.now shades.old.items (listing types.now heap.now k) }
    ensures told { HasTold types.now heap.now k shades.old.items shades.new.items parts.old.items parts.new.items }
{
    let shade = &mut shades[k];
    let part = &mut parts[k];
    take_items(shade, part, heap, types, k);
}

// Takes those of segment `k` on a walk, with its bits lent. The walk ends where generation 2 does. It stands apart, so
// that its loop keeps what it needs in registers.
#[inline(never)]
fn take_items(shade: &mut Shade, part: &mut Part, heap: &Heap, types: &Types, k: usize)
    requires in_range { k < length heap.now.segments }
    requires walkable { AreWalkable types.now heap.now }
    requires shape { (shade.old.base, shade.old.size) ≡ used_of (segment_at heap.now k) }
    requires fresh { IsFresh shade.old part.old }
    ensures taken { shade.new ≡ taken_in heap.now shade.old (listing types.now heap.now k) }
    ensures told { IsTold types.now heap.now shade.new part.new }
{
    let segment = heap.info(k);
    let mut place = segment.first_place();
    let mut next_hole = place;
    let mut known = ObjectKind::none();
    let stop = end_of_old(heap, k).min(segment.end);
    while place < stop {
        match heap.hole_here(k, place, &mut next_hole) {
            Some(high) => {
                part.add_gap((place - segment.base) / 8);
                place = high;
            }
            None => place += take_item(shade, part, heap, types, k, place, &mut known),
        }
    }
    part.end_at(place);
}

// Where the places of generation 2 end in segment `k`.
pub(crate) fn end_of_old(heap: &Heap, k: usize) -> u64
    requires { k < length heap.now.segments }
    ensures { (a : ℕ) → first_of heap.now k ≤ a → a < last_of heap.now k → IsOldBelow heap.now a result }
{
    if k == heap.ephemeral() {
        let (start1, _) = heap.boundaries();
        start1
    } else {
        u64::MAX
    }
}

// Takes the item at `place` of generation 2 in segment `k`, where it is an object, and answers its size. Where it is of
// the kind that is known, no table is waited for.
#[inline(always)]
fn take_item(
    shade: &mut Shade,
    part: &mut Part,
    heap: &Heap,
    types: &Types,
    k: usize,
    place: u64,
    known: &mut ObjectKind,
) -> u64
    requires item { HasItem types.now heap.now place }
    requires segment { k ≡ memory_index heap.now.memories place }
    requires behind { k ≡ memory_index heap.now.memories (place + 8) }
    requires room { place + 8 < 2 ^ 64 }
    requires inside { covers shade.old place ≡ true }
    requires old { generation (frame heap.now) place ≡ 2 }
    requires known { IsObjectKind types.now known.old }
    requires gaps { shade.old.size ≤ 512 * length part.old.gaps }
    ensures taken { shade.new ≡ taken_one heap.now shade.old (item_at types.now (word_of heap.now) place) }
    ensures gaps { part.new ≡ gapped_one shade.old part.old (item_at types.now (word_of heap.now) place) }
    ensures size { result ≡ (item_at types.now (word_of heap.now) place).size }
    ensures known { IsObjectKind types.now known.new }
{
    let mt = heap.word_at(k, place);
    match known.size_with(mt) {
        Some(size) => {
            shade.set_bit(Bit::Taken, place);
            size
        }
        None => take_other(shade, part, heap, types, k, place, known),
    }
}

// Takes an item of any kind in segment `k`. Its kind becomes known where it is an object without a length.
#[inline(never)]
fn take_other(
    shade: &mut Shade,
    part: &mut Part,
    heap: &Heap,
    types: &Types,
    k: usize,
    place: u64,
    known: &mut ObjectKind,
) -> u64
    requires item { HasItem types.now heap.now place }
    requires segment { k ≡ memory_index heap.now.memories place }
    requires behind { k ≡ memory_index heap.now.memories (place + 8) }
    requires room { place + 8 < 2 ^ 64 }
    requires inside { covers shade.old place ≡ true }
    requires old { generation (frame heap.now) place ≡ 2 }
    requires known { IsObjectKind types.now known.old }
    requires gaps { shade.old.size ≤ 512 * length part.old.gaps }
    ensures taken { shade.new ≡ taken_one heap.now shade.old (item_at types.now (word_of heap.now) place) }
    ensures gaps { part.new ≡ gapped_one shade.old part.old (item_at types.now (word_of heap.now) place) }
    ensures size { result ≡ (item_at types.now (word_of heap.now) place).size }
    ensures known { IsObjectKind types.now known.new }
{
    let found = heap.item_like_in(types, k, place, known);
    if found.type_id.0 != 0 {
        shade.set_bit(Bit::Taken, place);
    } else {
        part.add_gap(shade.cell(place));
    }
    found.size
}
