// What is gray or black is marked in the heap.
ghost use Rattle.std.specs.Prelude.{◌≡◌, ℕ, ◌^◌, ◌/◌, ◌%◌, ◌<◌, ◌≤◌, [], length, true, IfSome, IfNone};
ghost use Rattle.std.specs.Prelude.{◌↔◌, ◌⊎◌, ◌+◌, ◌*◌};
ghost use Rattle.std.specs.Int.{bit_at};
ghost use Rattle.std.specs.List.{AllByRecursion};
ghost use Rattle.clr_heap.specs.Memories.{HasWord, memory_index};
ghost use Rattle.clr_heap.specs.View.{IsHeap};
ghost use Rattle.clr_model.specs.Reach.{Reach};
ghost use Rattle.clr_view.specs.Marks.{Marked};
ghost use Rattle.clr_view.specs.SlotValues.{StandsAt};
ghost use Rattle.clr_view.specs.View.{IsHeld, objects_in};
ghost use Rattle.clr_mark.specs.Marks.{is_condemned_place, IsRemarked, LeadsTo, with_mark};
ghost use Rattle.clr_mark.specs.Waiting.{IsGray};
ghost use Rattle.clr_bgmark.specs.LastPause.{HasMarked, HasRooted, IsDue, IsFoundBehind, IsInWord, IsMarkedBehind};
ghost use Rattle.clr_bgmark.specs.LastPause.{IsMarkedIn, IsSought, LogHolds};
ghost use Rattle.clr_sweep.specs.Fronts.{front_at};
ghost use Rattle.clr_bgmark.specs.Pauses.{IsBehind, IsFound, IsNextFound, Passes};
ghost use Rattle.clr_bgmark.specs.Scanning.{AreObjects};
ghost use Rattle.clr_bgmark.specs.Shades.{AreApart, IsShade};

use crate::shade::{Search, Shade};
use clr_heap::Heap;
use clr_mark::Marker;
use clr_sweep::Front;
use clr_types::{Types, mark};

/// Marks in the heap what is gray or black, and what that reaches by slots. Of the black objects those are followed
/// that stand on a logged card, and few others: what the rest names is gray or black.
pub(crate) fn mark_found(shades: &Vec<Shade>, heap: &mut Heap, types: &Types, marker: &mut Marker)
    requires apart { AreApart shades.now.items }
    requires shades { AllByRecursion IsShade shades.now.items }
    requires gray { IsGray types.now heap.old marker.old }
    requires oldest { marker.old.oldest ≡ 2 }
    requires objects { AreObjects types.now heap.old shades.now.items }
    requires log { LogHolds types.now (objects_in types.now heap.old) shades.now.items }
    ensures marker { marker.new ≡ record marker.old { stack = []; ranges = [] } }
    ensures gray { IsGray types.now heap.new marker.new }
    ensures words { IsRemarked types.now heap.old heap.new }
    ensures marked { (x : ℕ) → Marked types.now heap.new x ↔ Reach (LeadsTo types.now heap.old marker.old.oldest)
        (λ y. Marked types.now heap.old y ⊎ IsFound shades.now.items y) x }
{
    root_due(shades, heap, types, marker);
    mark_each(shades, heap, types);
    marker.drain_slots(heap, types);
}

// Marks what is gray, and what is black and may stand on a logged card, and lets it wait. Each search looks at words of
// bits alone where there is nothing to be found: no object over which both pass is read. One search for both would look
// for the next gray place once for each place by a card.
fn root_due(shades: &Vec<Shade>, heap: &mut Heap, types: &Types, marker: &mut Marker)
    requires apart { AreApart shades.now.items }
    requires shades { AllByRecursion IsShade shades.now.items }
    requires gray { IsGray types.now heap.old marker.old }
    requires oldest { marker.old.oldest ≡ 2 }
    requires objects { AreObjects types.now heap.old shades.now.items }
    ensures { HasRooted types.now shades.now.items (IsDue types.now (objects_in types.now heap.old) shades.now.items)
        heap.old heap.new marker.old marker.new }
{
    root_found(shades, Search::Gray, heap, types, marker);
    root_found(shades, Search::Logged, heap, types, marker);
}

// Marks what a search finds, and lets it wait.
fn root_found(
    shades: &Vec<Shade>,
    search: Search,
    heap: &mut Heap,
    types: &Types,
    marker: &mut Marker,
)
    requires apart { AreApart shades.now.items }
    requires shades { AllByRecursion IsShade shades.now.items }
    requires gray { IsGray types.now heap.old marker.old }
    requires oldest { marker.old.oldest ≡ 2 }
    requires objects { AreObjects types.now heap.old shades.now.items }
    ensures { HasRooted types.now shades.now.items (IsSought search shades.now.items) heap.old heap.new
        marker.old marker.new }
{
    let mut spot = Spot { k: 0, from: 0 };
    while let Some((k, obj)) = next_found(shades, search, spot) {
        spot = Spot { k, from: obj + 8 };
        marker.root(heap, types, obj);
        marker.drain_if_full(heap, types);
    }
}

// Marks what is gray or black, and nothing else.
fn mark_each(shades: &Vec<Shade>, heap: &mut Heap, types: &Types)
    requires apart { AreApart shades.now.items }
    requires shades { AllByRecursion IsShade shades.now.items }
    requires heap { IsHeap heap.old }
    requires held { IsHeld types.now heap.old }
    requires objects { AreObjects types.now heap.old shades.now.items }
    ensures words { IsRemarked types.now heap.old heap.new }
    ensures kept { (x : ℕ) → Marked types.now heap.old x → Marked types.now heap.new x }
    ensures only { (x : ℕ) → Marked types.now heap.new x → Marked types.now heap.old x ⊎ IsFound shades.now.items x }
    ensures found { (x : ℕ) → IsFound shades.now.items x → Marked types.now heap.new x }
{
    for k in 0..shades.len() {
        mark_segment(&shades[k], k, heap, types);
    }
}

// Marks those of one segment. It is looked for in the heap at `near` first. It stands apart, so that its loops keep
// what they need in registers.
#[inline(never)]
fn mark_segment(shade: &Shade, near: usize, heap: &mut Heap, types: &Types)
    requires shade { IsShade shade.now }
    requires heap { IsHeap heap.old }
    requires held { IsHeld types.now heap.old }
    requires stands { (x : ℕ) → IsMarkedIn shade.now x → StandsAt types.now heap.old x }
    ensures { HasMarked types.now (IsMarkedIn shade.now) heap.old heap.new }
{
    let mut near = near;
    for n in 0..shade.marked_words() {
        let (place, bits) = shade.marked_word(n);
        if bits != 0 {
            near = mark_word(heap, types, near, place, bits);
        }
    }
}

/// Marks what is gray or black behind the front of each segment.
pub(crate) fn mark_behind(shades: &Vec<Shade>, fronts: &Vec<Front>, heap: &mut Heap, types: &Types)
    requires apart { AreApart shades.now.items }
    requires shades { AllByRecursion IsShade shades.now.items }
    requires heap { IsHeap heap.old }
    requires held { IsHeld types.now heap.old }
    requires objects { AreObjects types.now heap.old shades.now.items }
    requires room { length fronts.now.items ≡ length shades.now.items }
    requires aligned { (k : ℕ) → k < length shades.now.items → (front_at fronts.now.items k).place % 8 ≡ 0 }
    ensures { HasMarked types.now (IsFoundBehind shades.now.items fronts.now.items) heap.old heap.new }
{
    for k in 0..fronts.len() {
        mark_from(&shades[k], k, fronts[k].place, heap, types);
    }
}

// Marks those of one segment from an address on. It is looked for in the heap at `near` first.
#[inline(never)]
fn mark_from(shade: &Shade, near: usize, from: u64, heap: &mut Heap, types: &Types)
    requires shade { IsShade shade.now }
    requires aligned { from % 8 ≡ 0 }
    requires heap { IsHeap heap.old }
    requires held { IsHeld types.now heap.old }
    requires stands { (x : ℕ) → IsMarkedBehind shade.now from x → StandsAt types.now heap.old x }
    ensures { HasMarked types.now (IsMarkedBehind shade.now from) heap.old heap.new }
{
    let mut near = near;
    for n in (from.saturating_sub(shade.base()) / 512)..shade.marked_words() {
        let (place, word) = shade.marked_word(n);
        let bits = bits_from(word, place, from);
        if bits != 0 {
            near = mark_word(heap, types, near, place, bits);
        }
    }
}

// Of a word of bits, whose lowest one is that of `place`, those of places from `from` on, which lies below its end.
fn bits_from(word: u64, place: u64, from: u64) -> u64
    requires aligned { from % 8 ≡ 0 }
    requires place { place % 8 ≡ 0 }
    requires below { from < place + 512 }
    ensures only { (i : ℕ) → bit_at result i ≡ 1 → (bit_at word i ≡ 1) × (from ≤ place + 8 * i) }
    ensures all { (i : ℕ) → bit_at word i ≡ 1 → from ≤ place + 8 * i → bit_at result i ≡ 1 }
{
    if from <= place {
        return word;
    }
    let low = (from - place) / 8;
    word >> low << low
}

// Marks those of one word of bits, whose lowest one is that of `place`. Their segment is looked for at `near` first. It
// answers which one it is, a guess for the next word.
#[inline]
fn mark_word(heap: &mut Heap, types: &Types, near: usize, place: u64, bits: u64) -> usize
    requires heap { IsHeap heap.old }
    requires held { IsHeld types.now heap.old }
    requires aligned { place % 512 ≡ 0 }
    requires fits { place < 2 ^ 63 }
    requires some { 0 < bits }
    requires stands { (x : ℕ) → IsInWord place bits x → StandsAt types.now heap.old x }
    ensures { HasMarked types.now (IsInWord place bits) heap.old heap.new }
{
    let _ = types;
    let k = heap.segment_near(near, place + 8 * bits.trailing_zeros() as u64);
    let mut rest = bits;
    while rest != 0 {
        mark_at(heap, k, place + 8 * rest.trailing_zeros() as u64);
        rest &= rest - 1;
    }
    k
}

// Marks the object at `obj`, in segment `k`. It decides nothing: often whether an object is marked already can't be
// foreseen.
#[inline]
fn mark_at(heap: &mut Heap, k: usize, obj: u64)
    requires word { HasWord heap.old.memories obj }
    requires segment { k ≡ memory_index heap.old.memories obj }
    requires condemned { is_condemned_place heap.old 2 obj ≡ true }
    ensures { heap.new ≡ with_mark heap.old 2 obj }
{
    let word = heap.word_at(k, obj);
    let new = 1 - mark::mark_of(word);
    heap.set_word_at(k, obj, word + new);
}

// Where the search for marked places stands: at a segment, and at an address from which on they are still to be looked
// for there.
#[derive(Clone, Copy)]
pub(crate) struct Spot {
    pub(crate) k: usize,
    pub(crate) from: u64,
}

// The next marked place from a spot on by a search, with the number of its segment.
pub(crate) fn next_found(shades: &Vec<Shade>, search: Search, spot: Spot) -> Option<(usize, u64)>
    requires apart { AreApart shades.now.items }
    requires shades { AllByRecursion IsShade shades.now.items }
    ensures found { IfSome result (λ f. IsNextFound search shades.now.items spot.k spot.from f.0 f.1) }
    ensures within { IfSome result (λ f. f.0 < length shades.now.items) }
    ensures low { IfSome result (λ f. f.1 < 2 ^ 63) }
    ensures further { IfSome result (λ f. (spot.k < f.0) ⊎ ((spot.k ≡ f.0) × (spot.from / 8 ≤ f.1 / 8))) }
    ensures none { IfNone result ((a : ℕ) → IsFound shades.now.items a
        → IsBehind shades.now.items spot.k spot.from a ⊎ Passes search shades.now.items a) }
{
    let mut from = spot.from;
    for k in spot.k..shades.len() {
        if let Some(a) = shades[k].first_marked(search, from) {
            return Some((k, a));
        }
        from = 0;
    }
    None
}
