// Passing over references that stay as they are.
ghost use Rattle.std.specs.Prelude.{◌≡◌, ◌&&◌, ℕ, ◌+◌, ◌*◌, ◌/◌, ◌<◌, ◌≤◌, ◌⊎◌, ◌^◌, false, true, nat_le};
ghost use Rattle.clr_types.specs.Segments.{ephemeral, generation, Layout, stands_in};
ghost use Rattle.clr_cards.specs.Cards.{is_card_set};
ghost use Rattle.clr_covers.specs.Covers.{is_covered};
ghost use Rattle.clr_heap.specs.Memories.{HasWord, memory_index};
ghost use Rattle.clr_heap.specs.View.{frame};
ghost use Rattle.clr_moves.specs.Moves.{start_of};
ghost use Rattle.clr_moves.specs.declared.condemned.Condemned.TheVariants.{Generations};
ghost use Rattle.clr_reloc.specs.Partial.{IsPartial};
ghost use Rattle.clr_reloc.specs.Relocated.{rebounded};
ghost use Rattle.clr_reloc.specs.Resting.{IsPassed, MayRest, NamesNothing};
ghost use Rattle.clr_reloc.specs.Scanning.{AreInRow};

use crate::cards::next_run;
use crate::relocation::{LeftObject, Relocation};
use clr_cards::{CARD, Cards};
use clr_heap::Heap;
use clr_moves::{Condemned, Planned};
use clr_pinq::PinQueue;

// Of `count` references of an object side by side, how many of the first ones may stay as they are: those before the
// first one that names what goes, or for which a word is saved, or whose card isn't set though it names an object of a
// lower generation. The first one stands at this offset. It looks at one card of the new addresses at most.
#[inline]
pub(crate) fn resting_words(
    heap: &Heap,
    work: &Relocation<'_>,
    cards: &Cards,
    pins: &PinQueue,
    object: &LeftObject,
    offset: u64,
    count: u64,
) -> u64
    requires few { IsPartial work.now.g }
    requires age { object.now.age ≤ 2 }
    requires some { 0 < count }
    requires fits { (j : ℕ) → j < count → object.now.found.place + offset + 8 * j < 2 ^ 64 }
    requires goes { object.now.to + offset < 2 ^ 64 }
    requires words { (j : ℕ) → j < count → HasWord heap.now.memories (object.now.found.place + offset + 8 * j) }
    requires segment { (j : ℕ) → j < count
        → object.now.segment ≡ memory_index heap.now.memories (object.now.found.place + offset + 8 * j) }
    requires card { is_covered cards.now ((object.now.to + offset) / 2048) ≡ true }
    ensures within { result ≤ count }
    ensures rest { (j : ℕ) → j < result → MayRest heap.now pins.now.entries work.now.g
        (rebounded (frame heap.now) work.now.planned) (is_card_set cards.now) object.now.age
        (object.now.found.place + offset + 8 * j) (object.now.to + offset + 8 * j) }
{
    let a = object.found.place + offset;
    let to = object.to + offset;
    let low = lowest_met(heap, work, object.age, cards.is_set(to));
    let plain = pins.next_saved(object.near, a).saturating_sub(a) / 8;
    let most = count.min(plain).min((CARD - to % CARD) / 8);
    heap.first_naming(object.segment, a, most, low)
}

// Of `count` references of an object side by side, how many of the first ones may stay as they are, by clear cards or
// by what they name. The first one stands at this offset. What it passes over by clear cards, it doesn't read.
#[inline(always)]
pub(crate) fn still_words(
    heap: &Heap,
    work: &Relocation<'_>,
    cards: &Cards,
    pins: &PinQueue,
    object: &LeftObject,
    offset: u64,
    count: u64,
) -> u64
    requires few { IsPartial work.now.g }
    requires age { object.now.age ≤ 2 }
    requires some { 0 < count }
    requires fits { (j : ℕ) → j < count → object.now.found.place + offset + 8 * j < 2 ^ 64 }
    requires goes { object.now.to + offset < 2 ^ 64 }
    requires words { (j : ℕ) → j < count → HasWord heap.now.memories (object.now.found.place + offset + 8 * j) }
    requires segment { (j : ℕ) → j < count
        → object.now.segment ≡ memory_index heap.now.memories (object.now.found.place + offset + 8 * j) }
    requires card { is_covered cards.now ((object.now.to + offset) / 2048) ≡ true }
    requires row { object.now.carded ≡ true
        → AreInRow cards.now (object.now.found.place + offset) (object.now.found.place + offset + 8 * count) }
    requires ends { object.now.carded ≡ true → object.now.found.place + offset + 8 * count < 2 ^ 64 }
    ensures within { result ≤ count }
    ensures rest { (j : ℕ) → j < result → MayRest heap.now pins.now.entries work.now.g
        (rebounded (frame heap.now) work.now.planned) (is_card_set cards.now) object.now.age
        (object.now.found.place + offset + 8 * j) (object.now.to + offset + 8 * j)
        ⊎ IsPassed object.now.carded (is_card_set cards.now) (object.now.found.place + offset + 8 * j) }
{
    if object.carded {
        let clear = clear_words(cards, object.found.place + offset, count);
        if clear > 0 {
            return clear;
        }
    }
    resting_words(heap, work, cards, pins, object, offset, count)
}

// How many of the first of `count` words from `a` on stand on clear cards.
#[inline]
pub(crate) fn clear_words(cards: &Cards, a: u64, count: u64) -> u64
    requires some { 0 < count }
    requires fits { a + 8 * count < 2 ^ 64 }
    requires row { AreInRow cards.now a (a + 8 * count) }
    ensures within { result ≤ count }
    ensures clear { (j : ℕ) → j < result → is_card_set cards.now ((a + 8 * j) / 2048) ≡ false }
{
    if cards.is_set(a) {
        return 0;
    }
    match next_run(cards, a, a + 8 * count) {
        Some((lo, _)) => (lo - a) / 8,
        None => count,
    }
}

// Of `count` references of an object side by side, how many of the first ones name nothing: those before the first one
// that isn't null, or for which a word is saved. The first one stands at this offset.
#[inline(never)]
pub(crate) fn empty_words(
    heap: &Heap,
    pins: &PinQueue,
    object: &LeftObject,
    offset: u64,
    count: u64,
) -> u64
    requires fits { object.now.found.place + offset < 2 ^ 64 }
    requires words { (j : ℕ) → j < count → HasWord heap.now.memories (object.now.found.place + offset + 8 * j) }
    requires segment { (j : ℕ) → j < count
        → object.now.segment ≡ memory_index heap.now.memories (object.now.found.place + offset + 8 * j) }
    ensures within { result ≤ count }
    ensures empty { (j : ℕ) → j < result
        → NamesNothing heap.now pins.now.entries (object.now.found.place + offset + 8 * j) }
{
    let a = object.found.place + offset;
    let plain = pins.next_saved(object.near, a).saturating_sub(a) / 8;
    heap.first_reference(object.segment, a, count.min(plain))
}

// The place from which on references to places of the ephemeral segment matter: where its part begins, and, unless the
// card is set, where what is of a lower generation than `age` begins once the plan is carried out.
#[inline]
fn lowest_met(heap: &Heap, work: &Relocation<'_>, age: u8, carded: bool) -> u64
    requires few { IsPartial work.now.g }
    requires age { age ≤ 2 }
    ensures part { result ≤ start_of (frame heap.now) work.now.g (ephemeral (frame heap.now)) }
    ensures young { carded ≡ false → (layout : Layout) (x : ℕ)
        → generation (rebounded layout work.now.planned) x < age → result ≤ x }
{
    let part = young_part(heap, work.g);
    if carded {
        return part;
    }
    part.min(lowest_young(&work.planned, age))
}

// Where the part of the ephemeral segment begins in a compaction of generation 0, or of generations 1 and 0.
#[inline]
fn young_part(heap: &Heap, g: Condemned) -> u64
    requires { IsPartial g }
    ensures { result ≡ start_of (frame heap.now) g (ephemeral (frame heap.now)) }
{
    match g {
        Condemned::Generations(oldest) => young_generations(heap, oldest),
        Condemned::LargeSegments => unreachable!(),
    }
}

// Where the part of the ephemeral segment begins in a compaction of the generations up to `g`, which is 0 or 1.
#[inline]
fn young_generations(heap: &Heap, g: u8) -> u64
    requires { g < 2 }
    ensures { result ≡ start_of (frame heap.now) (Generations g) (ephemeral (frame heap.now)) }
{
    let (start1, start0) = heap.boundaries();
    if g == 0 { start0 } else { start1 }
}

// No place below the answer is of a lower generation than `age` once the plan is carried out.
#[inline]
pub(crate) fn lowest_young(planned: &Planned, age: u8) -> u64
    requires { age ≤ 2 }
    ensures { (layout : Layout) (x : ℕ) → generation (rebounded layout planned.now) x < age → result ≤ x }
{
    match age {
        0 => u64::MAX,
        1 => planned.start0,
        _ => planned.start1,
    }
}
