// Marking what the slots of an older object name.
ghost use Rattle.std.specs.Prelude.{◌≡◌, ℕ, ◌+◌, ◌*◌, ◌<◌, ◌≤◌, ◌^◌, not, ◌&&◌, ◌==◌, nat_le, nat_lt, true, false};
ghost use Rattle.std.specs.Prelude.{length, if◌then◌else◌};
ghost use Rattle.clr_types.specs.Descriptors.{offsets_from};
ghost use Rattle.clr_types.specs.Rising.{IsIn};
ghost use Rattle.clr_types.specs.Segments.{ephemeral, generation, stands_in};
ghost use Rattle.clr_types.specs.Types.{form_at, is_bytes, size_of, slot_kinds, slot_offset};
ghost use Rattle.clr_heap.specs.Memories.{HasWord, memory_index};
ghost use Rattle.clr_heap.specs.View.{frame, heap_items, word_of};
ghost use Rattle.clr_view.specs.Marks.{Marked};
ghost use Rattle.clr_view.specs.SlotValues.{StandsAt};
ghost use Rattle.clr_view.specs.View.{is_object};
ghost use Rattle.clr_mark.specs.Marks.{is_condemned_place};
ghost use Rattle.clr_mark.specs.Markings.{item_references};
ghost use Rattle.clr_mark.specs.Waiting.{IsGray};
ghost use Rattle.clr_scan.specs.References.{IsNamedByOlder, IsQuiet, IsReferenceOf};
ghost use Rattle.clr_scan.specs.Scans.{HasScanned, IsTraced};

use crate::together::{MANY, scan_together};
use clr_heap::{Heap, Item};
use clr_mark::Marker;
use clr_types::{ReferenceRun, Types};

// An older object: its item, the number of the segment in which it stands, and its generation.
#[derive(Clone, Copy)]
pub(crate) struct Older {
    pub(crate) item: Item,
    pub(crate) segment: usize,
    pub(crate) age: u8,
}

// Marks what the slots of an older object name that stand on `[lo, hi)`. It answers whether one of them names an object
// of a lower generation.
pub(crate) fn scan_slots(
    marker: &mut Marker,
    heap: &mut Heap,
    types: &Types,
    older: Older,
    lo: u64,
    hi: u64,
) -> bool
    requires gray { IsGray types.now heap.old marker.old }
    requires listed { IsIn older.item (heap_items types.now heap.old) }
    requires object { is_object older.item ≡ true }
    requires order { lo ≤ hi }
    requires high { hi ≤ 2 ^ 62 }
    requires segment { older.segment ≡ memory_index heap.old.memories older.item.place }
    requires age { older.age ≡ generation (frame heap.old) older.item.place }
    requires older { is_condemned_place heap.old marker.old.oldest older.item.place ≡ false }
    ensures gray { IsGray types.now heap.new marker.new }
    ensures scanned { HasScanned types.now heap.old heap.new marker.old marker.new }
    ensures traced { (a : ℕ) → IsReferenceOf types.now older.item a → lo ≤ a → a < hi
        → IsTraced heap.old types.now heap.new marker.old.oldest a }
    ensures silent { ((a : ℕ) → IsReferenceOf types.now older.item a → lo ≤ a → a < hi → IsQuiet heap.old older.age a)
        → result ≡ false }
    ensures clear { result ≡ false → (a : ℕ) → IsReferenceOf types.now older.item a → lo ≤ a → a < hi
        → IsQuiet heap.old older.age a }
{
    let found = older.item;
    if types.series(found.type_id).is_empty() {
        return false;
    }
    if let Some(run) = types.reference_run(found.type_id, found.len) {
        return scan_words(marker, heap, types, older, lo, hi, run);
    }
    scan_mixed(marker, heap, types, older, lo, hi)
}

// Marks what the slots of an older object name, as `scan_slots` does, where they are one run of words. It stands apart,
// so that its loops have the registers to themselves.
#[inline(never)]
fn scan_words(
    marker: &mut Marker,
    heap: &mut Heap,
    types: &Types,
    older: Older,
    lo: u64,
    hi: u64,
    run: ReferenceRun,
) -> bool
    requires run { item_references types.now older.item ≡ offsets_from run.offset run.count }
    requires gray { IsGray types.now heap.old marker.old }
    requires listed { IsIn older.item (heap_items types.now heap.old) }
    requires object { is_object older.item ≡ true }
    requires order { lo ≤ hi }
    requires high { hi ≤ 2 ^ 62 }
    requires segment { older.segment ≡ memory_index heap.old.memories older.item.place }
    requires age { older.age ≡ generation (frame heap.old) older.item.place }
    requires older { is_condemned_place heap.old marker.old.oldest older.item.place ≡ false }
    ensures gray { IsGray types.now heap.new marker.new }
    ensures scanned { HasScanned types.now heap.old heap.new marker.old marker.new }
    ensures traced { (a : ℕ) → IsReferenceOf types.now older.item a → lo ≤ a → a < hi
        → IsTraced heap.old types.now heap.new marker.old.oldest a }
    ensures silent { ((a : ℕ) → IsReferenceOf types.now older.item a → lo ≤ a → a < hi → IsQuiet heap.old older.age a)
        → result ≡ false }
    ensures clear { result ≡ false → (a : ℕ) → IsReferenceOf types.now older.item a → lo ≤ a → a < hi
        → IsQuiet heap.old older.age a }
{
    if run.count == 0 {
        return false;
    }
    let first = older.item.place + run.offset;
    let to = words_to(first, hi).min(run.count);
    let from = words_to(first, lo).min(to);
    if to - from >= MANY {
        return scan_together(marker, heap, types, older, first, from, to);
    }
    let mut younger = false;
    let mut at = from;
    while at < to {
        let bound = looked_for(younger, older.age, marker.oldest());
        let met = pass_words(heap, older.segment, first, at, to, bound);
        if met == to {
            return younger;
        }
        let below = scan_slot(marker, heap, types, older, first + 8 * met);
        younger |= below;
        at = met + 1;
    }
    younger
}

// Marks what the slots of an older object name, as `scan_slots` does, where some of them are no references. Words that
// name nothing of a lower generation are passed, whatever they are. Only of others the slot is asked, as a number may
// look like a reference.
#[inline(never)]
fn scan_mixed(
    marker: &mut Marker,
    heap: &mut Heap,
    types: &Types,
    older: Older,
    lo: u64,
    hi: u64,
) -> bool
    requires words { is_bytes (form_at types.now older.item.type_id.0) ≡ false }
    requires gray { IsGray types.now heap.old marker.old }
    requires listed { IsIn older.item (heap_items types.now heap.old) }
    requires object { is_object older.item ≡ true }
    requires order { lo ≤ hi }
    requires high { hi ≤ 2 ^ 62 }
    requires segment { older.segment ≡ memory_index heap.old.memories older.item.place }
    requires age { older.age ≡ generation (frame heap.old) older.item.place }
    requires older { is_condemned_place heap.old marker.old.oldest older.item.place ≡ false }
    ensures gray { IsGray types.now heap.new marker.new }
    ensures scanned { HasScanned types.now heap.old heap.new marker.old marker.new }
    ensures traced { (a : ℕ) → IsReferenceOf types.now older.item a → lo ≤ a → a < hi
        → IsTraced heap.old types.now heap.new marker.old.oldest a }
    ensures silent { ((a : ℕ) → IsReferenceOf types.now older.item a → lo ≤ a → a < hi → IsQuiet heap.old older.age a)
        → result ≡ false }
    ensures clear { result ≡ false → (a : ℕ) → IsReferenceOf types.now older.item a → lo ≤ a → a < hi
        → IsQuiet heap.old older.age a }
{
    let found = older.item;
    let slots = slots_on(types, found, lo, hi);
    let mut younger = false;
    let mut at = slots.from;
    while at < slots.to {
        let bound = looked_for(younger, older.age, marker.oldest());
        let met = pass_words(heap, older.segment, slots.first, at, slots.to, bound);
        if met == slots.to {
            return younger;
        }
        let slot = types.slot(found.type_id, found.len, met);
        if slot.reference {
            let below = scan_slot(marker, heap, types, older, slots.first + 8 * met);
            younger |= below;
        }
        at = met + 1;
    }
    younger
}

// Below which generation a target must be that the scan still looks for: below that of the object, until one is found,
// and then condemned.
#[inline(always)]
pub(crate) fn looked_for(younger: bool, age: u8, oldest: u8) -> u8
    requires { oldest < age }
    ensures bound { result ≡ (if younger then oldest + 1 else age) }
    ensures above { oldest < result }
    ensures most { result ≤ age }
{
    if younger { oldest + 1 } else { age }
}

// Passes over words that name no object of a generation below `age`, from number `from` on, of the words up to `to` of
// which the first stands at `first`. It answers the number of the next word.
#[inline(always)]
pub(crate) fn pass_words(heap: &Heap, k: usize, first: u64, from: u64, to: u64, age: u8) -> u64
    requires order { from ≤ to }
    requires some { 1 ≤ age }
    requires most { age ≤ 2 }
    requires fits { (j : ℕ) → j < to → first + 8 * j < 2 ^ 64 }
    requires words { (j : ℕ) → j < to → HasWord heap.now.memories (first + 8 * j) }
    requires segment { (j : ℕ) → j < to → k ≡ memory_index heap.now.memories (first + 8 * j) }
    ensures from { from ≤ result }
    ensures within { result ≤ to }
    ensures quiet { (j : ℕ) → from ≤ j → j < result → IsQuiet heap.now age (first + 8 * j) }
{
    if from == to {
        return to;
    }
    let low = lowest_below(heap, age);
    from + heap.first_naming(k, first + 8 * from, to - from, low)
}

// The place from which on all places of the ephemeral segment are of a generation below `age`, which is 1 or 2. No
// other place is.
#[inline]
fn lowest_below(heap: &Heap, age: u8) -> u64
    requires some { 1 ≤ age }
    requires most { age ≤ 2 }
    ensures { (x : ℕ) → nat_lt (generation (frame heap.now) x) age
        ≡ (stands_in (ephemeral (frame heap.now)) x && nat_le result x) }
{
    let (start1, start0) = heap.boundaries();
    if age == 2 {
        return start1;
    }
    start1.max(start0)
}

// Marks what the reference at `a` of an older object names, where that is condemned. It answers whether that is of a
// lower generation.
#[inline]
fn scan_slot(marker: &mut Marker, heap: &mut Heap, types: &Types, older: Older, a: u64) -> bool
    requires gray { IsGray types.now heap.old marker.old }
    requires listed { IsIn older.item (heap_items types.now heap.old) }
    requires reference { IsReferenceOf types.now older.item a }
    requires segment { older.segment ≡ memory_index heap.old.memories older.item.place }
    requires age { older.age ≡ generation (frame heap.old) older.item.place }
    requires older { is_condemned_place heap.old marker.old.oldest older.item.place ≡ false }
    ensures gray { IsGray types.now heap.new marker.new }
    ensures scanned { HasScanned types.now heap.old heap.new marker.old marker.new }
    ensures traced { IsTraced heap.old types.now heap.new marker.old.oldest a }
    ensures younger { result ≡ (not (word_of heap.old a == 0) && nat_lt
        (generation (frame heap.old) (word_of heap.old a)) older.age) }
{
    let target = heap.word_at(older.segment, a);
    let generation = heap.gen_of(target);
    if generation >= older.age {
        return false;
    }
    if target == 0 {
        return false;
    }
    if generation > marker.oldest() {
        return true;
    }
    mark_target(marker, heap, types, target);
    true
}

// Marks the object at `target`, which an older one names, where it is condemned, and follows what waits where the stack
// is half full. It stands apart, so that the loops over references stay small.
#[inline(never)]
fn mark_target(marker: &mut Marker, heap: &mut Heap, types: &Types, target: u64)
    requires gray { IsGray types.now heap.old marker.old }
    requires object { StandsAt types.now heap.old target }
    requires named { is_condemned_place heap.old marker.old.oldest target ≡ true
        → IsNamedByOlder types.now heap.old marker.old.oldest target }
    ensures gray { IsGray types.now heap.new marker.new }
    ensures scanned { HasScanned types.now heap.old heap.new marker.old marker.new }
    ensures marked { is_condemned_place heap.old marker.old.oldest target ≡ true → Marked types.now heap.new target }
{
    marker.root(heap, types, target);
    marker.drain_if_full(heap, types);
}

// Slots of an item, which are words: where number 0 stands, and which are meant, from number `from` up to `to`.
#[derive(Clone, Copy)]
struct SlotWords {
    first: u64,
    from: u64,
    to: u64,
}

// The slots of an item that stand on `[lo, hi)`. It is no array of bytes, so they are words.
fn slots_on(types: &Types, found: Item, lo: u64, hi: u64) -> SlotWords
    requires known { found.type_id.0 ≤ length types.now }
    requires small { size_of (form_at types.now found.type_id.0) found.len ≤ 1073741824 }
    requires words { is_bytes (form_at types.now found.type_id.0) ≡ false }
    requires low { found.place + 1073741824 < 2 ^ 63 }
    requires high { hi < 2 ^ 63 }
    requires from { lo < 2 ^ 63 }
    ensures slots { (j : ℕ) → j < length (slot_kinds (form_at types.now found.type_id.0) found.len)
        → result.first + 8 * j ≡ found.place + slot_offset (form_at types.now found.type_id.0) j }
    ensures order { result.from ≤ result.to }
    ensures within { result.to ≤ length (slot_kinds (form_at types.now found.type_id.0) found.len) }
    ensures below { (j : ℕ) → j < result.from → result.first + 8 * j < lo }
    ensures above { (j : ℕ) → result.to ≤ j → j < length (slot_kinds (form_at types.now found.type_id.0) found.len)
        → hi ≤ result.first + 8 * j }
    ensures inside { (j : ℕ) → result.from ≤ j → j < result.to
        → (lo ≤ result.first + 8 * j) × (result.first + 8 * j < hi) }
{
    let count = types.slot_count(found.type_id, found.len);
    if count == 0 {
        return SlotWords {
            first: 0,
            from: 0,
            to: 0,
        };
    }
    let first = found.place + types.slot(found.type_id, found.len, 0).offset;
    let to = words_to(first, hi).min(count);
    let from = words_to(first, lo).min(to);
    SlotWords { first, from, to }
}

// How many words from `first` on begin below `past`.
#[inline]
fn words_to(first: u64, past: u64) -> u64
    requires { past < 2 ^ 63 }
    ensures below { (j : ℕ) → j < result → first + 8 * j < past }
    ensures above { (j : ℕ) → result ≤ j → past ≤ first + 8 * j }
{
    if past <= first {
        0
    } else {
        (past - first + 7) / 8
    }
}
