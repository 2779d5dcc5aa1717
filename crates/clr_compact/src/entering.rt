// The bricks of a part of a segment, entered anew by a walk that clears the marks of its items.
ghost use Rattle.std.specs.Prelude.{◌≡◌, ℕ, ◌+◌, ◌*◌, ◌/◌, ◌-◌, ◌<◌, ◌≤◌, ◌^◌, ◌==◌, ◌⊎◌, if◌then◌else◌, length, true};
ghost use Rattle.std.specs.Prelude.{int_lt, pos};
ghost use Rattle.clr_bricks.specs.Bricks.{entry_at, IsRoot};
ghost use Rattle.clr_covers.specs.Covers.{is_covered, spans};
ghost use Rattle.clr_types.specs.Segments.{reserved_end};
ghost use Rattle.clr_heap.specs.Memories.{memory_index};
ghost use Rattle.clr_heap.specs.ObjectKinds.{IsObjectKind};
ghost use Rattle.clr_heap.specs.Parts.{item_at, unmarked};
ghost use Rattle.clr_heap.specs.View.{CanWalk, first_of, frame, HasItem, HeapView, IsHeap, items_between, last_of};
ghost use Rattle.clr_heap.specs.View.{no_rests, SameShape, segment_at, sight, stored, word_of};
ghost use Rattle.clr_view.specs.View.{objects_in};
ghost use Rattle.clr_compact.specs.Entered.{AreEnteredBelow, CanEnterFrom, forgotten, kept_below};
ghost use Rattle.clr_compact.specs.Entering.{entered_after, led_back, next_after};
ghost use Rattle.clr_compact.specs.Entering as entering;
ghost use Rattle.clr_compact.specs.Rewrites.{cleared, Rewrites};
ghost use Rattle.clr_generations.specs.Laws.{AreEntered, IsBrickOf};
ghost use Rattle.clr_generations.specs.Laws as laws;
ghost use Rattle.clr_generations.specs.Tables.{AreBricksOf};

use clr_bricks::Bricks;
use clr_heap::{Heap, Item, ObjectKind};
use clr_types::{Types, mark};

// Takes away the entries of the bricks of segment `k` that have a place of [from, end); only an entry that names a
// place below `from` stays. All others stay.
#[tactic(auto, using(crate::proofs::Forgetting::forgotten_all, crate::proofs::Forgetting::forgotten_none))]
pub(crate) fn forget_bricks(heap: &Heap, bricks: &mut Bricks, k: usize, from: u64, end: u64)
    requires heap { IsHeap heap.now }
    requires in_range { k < length heap.now.segments }
    requires low { first_of heap.now k ≤ from }
    requires order { from ≤ end }
    requires high { end ≤ reserved_end (segment_at heap.now k) }
    requires bricks { AreBricksOf (frame heap.now) bricks.old }
    ensures entries { (i : ℕ) → entry_at bricks.new i ≡ forgotten (entry_at bricks.old) from end i }
    ensures spans { spans bricks.new ≡ spans bricks.old }
{
    let brick = from / 4096;
    if 4096 * brick < end {
        forget(bricks, brick, from);
        bricks.clear(brick + 1, (end + 4095) / 4096);
    }
}

// Takes a brick's entry away, unless it names a place below `from`.
fn forget(bricks: &mut Bricks, brick: u64, from: u64)
    requires covered { is_covered bricks.old brick ≡ true }
    requires fits { brick < 2 ^ 50 }
    ensures entries { (i : ℕ) → entry_at bricks.new i
        ≡ (if i == brick then kept_below from brick (entry_at bricks.old brick) else entry_at bricks.old i) }
    ensures spans { spans bricks.new ≡ spans bricks.old }
{
    let entry = bricks.entry(brick);
    if names_offset(entry) && 4096 * brick + u64::from(entry.unsigned_abs()) <= from {
        return;
    }
    bricks.set_none(brick);
}

// Whether an entry names an offset.
fn names_offset(entry: i16) -> bool
    ensures { result ≡ int_lt (pos 0) entry }
{
    entry > 0
}

// Clears the marks of the items of segment `k` from the place `from` on, where one of them begins, and enters its
// bricks anew from that of `from` on: each names the first object that starts in it, where it may, and each other one
// up to the segment's end leads back to the nearest one below in which an object starts, where there is one. So it is
// in each heap `final` that this one is to become, where no item reaches over `from`, and where the entries told the
// objects below it before, and no others.
pub(crate) fn enter_bricks(heap: &mut Heap, types: &Types, bricks: &mut Bricks, k: usize, from: u64)
    requires heap { IsHeap heap.old }
    requires in_range { k < length heap.old.segments }
    requires no_contexts { heap.old.rests ≡ no_rests }
    requires low { first_of heap.old k ≤ from }
    requires walk { CanWalk (sight types.now heap.old k) heap.old.memories from (last_of heap.old k) }
    requires bricks { AreBricksOf (frame heap.old) bricks.old }
    ensures shape { SameShape heap.old heap.new }
    ensures words { Rewrites (cleared (items_between (sight types.now heap.old k) from (last_of heap.old k)))
        (word_of heap.old) (word_of heap.new) }
    ensures entered { (final : HeapView) → CanEnterFrom types.now heap.old final k from
        → AreEnteredBelow types.now (frame final) (objects_in types.now final) (entry_at bricks.old)
        (segment_at final k) from
        → AreEntered types.now (frame final) (objects_in types.now final) (entry_at bricks.new) (segment_at final k) }
    ensures others { (brick : ℕ) → (IsBrickOf (segment_at heap.old k) brick → ⊥)
        → entry_at bricks.new brick ≡ entry_at bricks.old brick }
    ensures spans { spans bricks.new ≡ spans bricks.old }
{
    let segment = heap.info(k);
    let mut next = first_open(bricks, from, segment.end);
    let mut place = from;
    let mut known = ObjectKind::none();
    while place < segment.end {
        let found = clear_mark(heap, types, k, place, &mut known);
        next = enter_item(heap, bricks, found, next);
        place += found.size;
    }
    let past = (segment.end + 4095) / 4096;
    lead_back(bricks, next, past.max(next));
}

// Clears the mark of the item at `place` in segment `k`, and answers the item. `known` is the kind of object that the
// walk met last.
#[inline(always)]
fn clear_mark(heap: &mut Heap, types: &Types, k: usize, place: u64, known: &mut ObjectKind) -> Item
    requires item { HasItem types.now heap.old place }
    requires mt_in { k ≡ memory_index heap.old.memories place }
    requires len_in { k ≡ memory_index heap.old.memories (place + 8) }
    requires room { place + 8 < 2 ^ 64 }
    requires known { IsObjectKind types.now known.old }
    ensures item { result ≡ item_at types.now (word_of heap.old) place }
    ensures heap { heap.new ≡ stored heap.old place (unmarked (word_of heap.old place)) }
    ensures known { IsObjectKind types.now known.new }
{
    let mt = heap.word_at(k, place);
    let found = heap.item_like_word(types, k, place, mt, known);
    if mark::is_marked(mt) {
        heap.set_word_at(k, place, mark::unmarked(mt));
    }
    found
}

// The first brick from that of the place `from` on that names no offset, where the segment ends at `end`.
fn first_open(bricks: &Bricks, from: u64, end: u64) -> u64
    requires covered { 4096 * (from / 4096) < end → is_covered bricks.now (from / 4096) ≡ true }
    ensures { (IsRoot (entry_at bricks.now (from / 4096)) × (result ≡ from / 4096 + 1))
        ⊎ (((end ≤ 4096 * (from / 4096)) ⊎ (IsRoot (entry_at bricks.now (from / 4096)) → ⊥))
        × (result ≡ from / 4096)) }
{
    let brick = from / 4096;
    if 4096 * brick >= end {
        return brick;
    }
    if names_offset(bricks.entry(brick)) {
        brick + 1
    } else {
        brick
    }
}

// Goes over an item, where `next` is the first brick that isn't settled, and answers which one is then.
fn enter_item(heap: &Heap, bricks: &mut Bricks, found: Item, next: u64) -> u64
    requires above { 1 ≤ next }
    requires covered { (i : ℕ) → next ≤ i → i ≤ found.place / 4096 → is_covered bricks.old i ≡ true }
    ensures next { result ≡ next_after (frame heap.now) found next }
    ensures entries { (i : ℕ) → entry_at bricks.new i
        ≡ entered_after (frame heap.now) found (entry_at bricks.old) next i }
    ensures spans { spans bricks.new ≡ spans bricks.old }
{
    if !is_entered(heap, found, next) {
        return next;
    }
    let brick = found.place / 4096;
    lead_back(bricks, next, brick);
    bricks.set_root(brick, (found.place % 4096) as u16);
    brick + 1
}

// Whether a brick from `next` on is to name the item.
fn is_entered(heap: &Heap, found: Item, next: u64) -> bool
    ensures { result ≡ entering.is_entered (frame heap.now) found next }
{
    next <= found.place / 4096 && found.type_id.0 != 0 && may_lead(heap, found.place)
}

// Whether a brick may name what stands at a place in it.
fn may_lead(heap: &Heap, place: u64) -> bool
    ensures { result ≡ laws.may_lead (frame heap.now) place }
{
    let (_, start0) = heap.boundaries();
    heap.gen_of(place) > 0 || start0 <= 4096 * (place / 4096)
}

// Lets the bricks of [next, to) lead back to the one below `next`.
fn lead_back(bricks: &mut Bricks, next: u64, to: u64)
    requires order { next ≤ to }
    requires covered { (i : ℕ) → next ≤ i → i < to → is_covered bricks.old i ≡ true }
    ensures entries { (i : ℕ) → entry_at bricks.new i ≡ led_back (entry_at bricks.old) next to i }
    ensures spans { spans bricks.new ≡ spans bricks.old }
{
    for brick in next..to {
        bricks.set_back(brick, hop(brick - next + 1));
    }
}

// How many bricks one back entry goes back of so many.
fn hop(far: u64) -> u16
    ensures { result ≡ entering.hop far }
{
    if far < 32_767 { far as u16 } else { 32_767 }
}
