// Where the front of a segment ends, over which the last pause passes.
ghost use Rattle.std.specs.Prelude.{◌≡◌, ℕ, ◌+◌, ◌*◌, ◌/◌, ◌%◌, ◌<◌, ◌≤◌, ◌^◌, ◌↔◌, true, length, IfNone, IfSome};
ghost use Rattle.std.specs.Int.{bit_at};
ghost use Rattle.std.specs.List.{AllByRecursion};
ghost use Rattle.clr_types.specs.Types.{mt_of};
ghost use Rattle.clr_heap.specs.Memories.{memory_index};
ghost use Rattle.clr_heap.specs.Parts.{item_at};
ghost use Rattle.clr_heap.specs.View.{HasItem, IsHeap, no_rests, segment_at, word_of};
ghost use Rattle.clr_model.specs.Lawful.{IsLaid};
ghost use Rattle.clr_model.specs.Machine.{Machine};
ghost use Rattle.clr_view.specs.Memory.{IsMemoryOf};
ghost use Rattle.clr_view.specs.View.{IsHeld};
ghost use Rattle.clr_bgmark.specs.Bits.{count_below};
ghost use Rattle.clr_bgmark.specs.Settling.{AreFurthest, AreGood, AreOldBelow, ArePut, AreTakenBelow, IsFoundFront};
ghost use Rattle.clr_bgmark.specs.Settling.{IsFreeGap, IsFurthestFront, IsOldGroup, IsTiledIn};
ghost use Rattle.clr_bgmark.specs.Scanning.{AreObjects};
ghost use Rattle.clr_bgmark.specs.Shades.{AreApart, IsShade};
ghost use Rattle.clr_bgmark.specs.Tiles.{AreParts, HaveEdges, HaveSameBases, IsPart};

use crate::first_pause::end_of_old;
use crate::part::Part;
use crate::shade::Shade;
use clr_heap::Heap;
use clr_sweep::Front;
use clr_types::{FREE_MT, Types};

// How far a search came: so many words of bits are as they should be, in which so many objects were taken.
#[derive(Clone, Copy)]
struct Reached {
    words: u64,
    count: u64,
}

/// Whether there are bits for each segment and for no others.
pub(crate) fn have_same_bases(shades: &Vec<Shade>, heap: &Heap) -> bool
    requires { IsHeap heap.now }
    ensures { result ≡ true ↔ HaveSameBases heap.now shades.now.items }
{
    if heap.segments() != shades.len() {
        return false;
    }
    for k in 0..shades.len() {
        if heap.info(k).base != shades[k].base() {
            return false;
        }
    }
    true
}

/// Looks for the front of each segment.
pub(crate) fn put_fronts(
    shades: &Vec<Shade>,
    parts: &Vec<Part>,
    fronts: &mut Vec<Front>,
    heap: &Heap,
    types: &Types,
)
    requires heap { IsHeap heap.now }
    requires held { IsHeld types.now heap.now }
    requires no_contexts { heap.now.rests ≡ no_rests }
    requires laid { (m : Machine) × IsMemoryOf types.now heap.now m × IsLaid m }
    requires shades { AllByRecursion IsShade shades.now.items }
    requires apart { AreApart shades.now.items }
    requires objects { AreObjects types.now heap.now shades.now.items }
    requires parts { AreParts shades.now.items parts.now.items }
    requires edges { HaveEdges types.now heap.now shades.now.items parts.now.items }
    requires room { length fronts.old.items ≡ length shades.now.items }
    requires bases { HaveSameBases heap.now shades.now.items }
    ensures room { length fronts.new.items ≡ length shades.now.items }
    ensures fronts { ArePut types.now heap.now shades.now.items fronts.new.items (length shades.now.items) }
    ensures furthest { AreFurthest types.now heap.now shades.now.items parts.now.items fronts.new.items
        (length shades.now.items) }
{
    for k in 0..shades.len() {
        fronts[k] = front_of(&shades[k], &parts[k], heap, types, k);
    }
}

// The front of segment `k`: the items of its old part, up to the last object before the first 512 bytes where an
// object began that isn't found, or a gap that isn't one free item before an object any more. Words of bits are
// compared, and of the heap the heads of free items and of that last object alone are read.
#[inline(never)]
fn front_of(shade: &Shade, part: &Part, heap: &Heap, types: &Types, k: usize) -> Front
    requires heap { IsHeap heap.now }
    requires held { IsHeld types.now heap.now }
    requires no_contexts { heap.now.rests ≡ no_rests }
    requires laid { (m : Machine) × IsMemoryOf types.now heap.now m × IsLaid m }
    requires in_range { k < length heap.now.segments }
    requires shade { IsShade shade.now }
    requires base { shade.now.base ≡ (segment_at heap.now k).base }
    requires part { IsPart shade.now part.now }
    requires tiled { IsTiledIn types.now heap.now k shade.now part.now }
    ensures front { IsFoundFront types.now heap.now shade.now k result }
    ensures furthest { IsFurthestFront types.now heap.now k shade.now part.now result }
{
    let reached = search(shade, part, heap, k);
    match shade.last_taken(reached.words) {
        Some(obj) => Front {
            place: end_of(heap, types, k, obj),
            count: reached.count,
        },
        None => Front {
            place: shade.base() + 4096,
            count: 0,
        },
    }
}

// How far all is as it was. Only words of bits of the places of generation 2 are looked at.
#[inline(always)]
fn search(shade: &Shade, part: &Part, heap: &Heap, k: usize) -> Reached
    requires in_range { k < length heap.now.segments }
    requires shade { IsShade shade.now }
    requires base { shade.now.base ≡ (segment_at heap.now k).base }
    requires part { IsPart shade.now part.now }
    requires taken { AreTakenBelow shade.now (segment_at heap.now k).end }
    ensures within { result.words ≤ shade.now.size / 512 }
    ensures good { AreGood (word_of heap.now) shade.now part.now 0 (64 * result.words) }
    ensures stopped { IsOldGroup heap.now k shade.now part.now result.words
        → AreGood (word_of heap.now) shade.now part.now (64 * result.words) (64 * result.words + 64) → ⊥ }
    ensures count { result.count ≡ count_below shade.now.taken (64 * result.words) }
    ensures old { AreOldBelow heap.now k (shade.now.base + 512 * result.words) }
{
    let past = old_words(shade, part, heap, k);
    let mut words = 0;
    let mut count = 0;
    while words < past && is_as_it_was(shade, part, heap, k, words) {
        count += shade.taken_count(words);
        words += 1;
    }
    Reached { words, count }
}

// How many words of bits are those of places of generation 2 in the old part. Nothing stands in the first page of a
// segment, so its words are always among them.
fn old_words(shade: &Shade, part: &Part, heap: &Heap, k: usize) -> u64
    requires in_range { k < length heap.now.segments }
    requires base { shade.now.base ≡ (segment_at heap.now k).base }
    requires part { IsPart shade.now part.now }
    ensures within { result ≤ shade.now.size / 512 }
    ensures old { AreOldBelow heap.now k (shade.now.base + 512 * result) }
    ensures all { (n : ℕ) → result ≤ n → IsOldGroup heap.now k shade.now part.now n → ⊥ }
{
    let segment = heap.info(k);
    let stop = part.stop().min(end_of_old(heap, k)).min(segment.end);
    stop.max(segment.first_place()).saturating_sub(shade.base()) / 512
}

// Whether all that was taken in the 512 bytes of this number is found, and each gap is one free item before an object.
#[inline(always)]
fn is_as_it_was(shade: &Shade, part: &Part, heap: &Heap, k: usize, n: u64) -> bool
    requires in_range { k < length heap.now.segments }
    requires shade { IsShade shade.now }
    requires base { shade.now.base ≡ (segment_at heap.now k).base }
    requires within { n < shade.now.size / 512 }
    requires taken { AreTakenBelow shade.now (segment_at heap.now k).end }
    ensures { result ≡ true ↔ AreGood (word_of heap.now) shade.now part.now (64 * n) (64 * n + 64) }
{
    shade.is_found(n) && are_free(shade, heap, k, shade.base() + 512 * n, part.word(n))
}

// Whether each of these gaps is one free item before an object that was taken. The lowest bit is that of `place`.
#[inline(always)]
fn are_free(shade: &Shade, heap: &Heap, k: usize, place: u64, gaps: u64) -> bool
    requires in_range { k < length heap.now.segments }
    requires shade { IsShade shade.now }
    requires aligned { place % 8 ≡ 0 }
    requires low { (segment_at heap.now k).base ≤ place }
    requires fits { place + 512 ≤ 2 ^ 63 }
    requires taken { AreTakenBelow shade.now (segment_at heap.now k).end }
    ensures { result ≡ true ↔ ((i : ℕ) → i < 64 → bit_at gaps i ≡ 1
        → IsFreeGap (word_of heap.now) shade.now (place + 8 * i)) }
{
    let mut rest = gaps;
    while rest != 0 {
        if !is_free(shade, heap, k, place + 8 * rest.trailing_zeros() as u64) {
            return false;
        }
        rest &= rest - 1;
    }
    true
}

// Whether a free item stands at a place, and behind it an object that was taken.
fn is_free(shade: &Shade, heap: &Heap, k: usize, place: u64) -> bool
    requires in_range { k < length heap.now.segments }
    requires shade { IsShade shade.now }
    requires aligned { place % 8 ≡ 0 }
    requires low { (segment_at heap.now k).base ≤ place }
    requires fits { place < 2 ^ 63 }
    requires taken { AreTakenBelow shade.now (segment_at heap.now k).end }
    ensures { result ≡ true ↔ IsFreeGap (word_of heap.now) shade.now place }
{
    match free_end(heap, k, place) {
        Some(next) => shade.has_taken(next),
        None => false,
    }
}

// Where the free item at a place ends, if one stands there that ends in segment `k`.
fn free_end(heap: &Heap, k: usize, place: u64) -> Option<u64>
    requires in_range { k < length heap.now.segments }
    requires aligned { place % 8 ≡ 0 }
    requires low { (segment_at heap.now k).base ≤ place }
    requires fits { place < 2 ^ 63 }
    ensures free { IfSome result (λ e. (word_of heap.now place ≡ mt_of 0)
        × (e ≡ place + 24 + word_of heap.now (place + 8))) }
    ensures none { IfNone result (word_of heap.now place ≡ mt_of 0
        → (segment_at heap.now k).end < place + 24 + word_of heap.now (place + 8)) }
{
    let end = heap.info(k).end;
    let past = place + 24;
    if past > end || heap.word_at(k, place) != FREE_MT {
        return None;
    }
    let length = heap.word_at(k, place + 8);
    if length > end - past {
        return None;
    }
    Some(past + length)
}

// Where the object at a place ends.
fn end_of(heap: &Heap, types: &Types, k: usize, obj: u64) -> u64
    requires item { HasItem types.now heap.now obj }
    requires segment { k ≡ memory_index heap.now.memories obj }
    requires behind { k ≡ memory_index heap.now.memories (obj + 8) }
    requires fits { obj + (item_at types.now (word_of heap.now) obj).size < 2 ^ 64 }
    requires room { obj + 8 < 2 ^ 64 }
    ensures { result ≡ obj + (item_at types.now (word_of heap.now) obj).size }
{
    let item = heap.item_of_word(types, k, obj, heap.word_at(k, obj));
    obj + item.size
}
