// A pass over the items of one segment.
ghost use Rattle.std.specs.Prelude.{◌≡◌, ℕ, ◌+◌, ◌-◌, ◌<◌, ◌≤◌, ◌^◌, ◌⊎◌, ◌&&◌, true, length};
ghost use Rattle.std.specs.Prelude.{if◌then◌else◌};
ghost use Rattle.clr_types.specs.Segments.{generation};
ghost use Rattle.clr_heap.specs.Memories.{HasWord, memory_index};
ghost use Rattle.clr_heap.specs.Parts.{item_at, unmarked};
ghost use Rattle.clr_heap.specs.ObjectKinds.{IsObjectKind};
ghost use Rattle.clr_heap.specs.View.{frame, freed, IsHeap, last_of, no_rests, stored, word_of};
ghost use Rattle.clr_view.specs.Marks.{has_mark};
ghost use Rattle.clr_view.specs.View.{is_object};
ghost use Rattle.clr_sweep.specs.Passes.{CanFill, CanStep, filled, IsAtMost, item_tally, plus, settled, stepped};
ghost use Rattle.clr_sweep.specs.Passes.{stepped_heap};
ghost use Rattle.clr_sweep.specs.SweptItems.{is_cut, items_from, tally_among};
ghost use Rattle.clr_sweep.specs.SweptSegments.{HasSweptSegment, IsParted};

use crate::tally::Tally;
use clr_heap::{Heap, Item, ObjectKind};
use clr_types::{FREE_MT, Types, mark};

// Where a pass stands, where the run begins of what doesn't stay, where the last item that stays ended, and the counts
// so far.
#[derive(Clone, Copy)]
struct Pass {
    place: u64,
    run: u64,
    last: u64,
    tally: Tally,
}

// Sweeps the part of segment `k` from `from` on: makes one free item of each run of what doesn't stay, clears the marks
// of what does, moves the segment's end down to the last item that stays, and adds to the counts.
pub(crate) fn sweep_segment(
    heap: &mut Heap,
    types: &Types,
    k: usize,
    from: u64,
    tally: Tally,
) -> Tally
    requires in_range { k < length heap.old.segments }
    requires parted { IsParted types.now heap.old k from }
    requires no_contexts { heap.old.rests ≡ no_rests }
    requires counted { IsAtMost tally from }
    ensures swept { HasSweptSegment types.now heap.old heap.new k from }
    ensures tally { result ≡ plus tally (tally_among heap.old (items_from types.now heap.old k from)) }
    ensures counted { IsAtMost result (last_of heap.old k) }
    ensures lawful { IsHeap heap.new }
{
    let segment = heap.info(k);
    let mut pass = Pass {
        place: from,
        run: from,
        last: from,
        tally,
    };
    let mut known = ObjectKind::none();
    while pass.place < segment.end {
        pass = step(heap, types, k, pass, &mut known);
    }
    heap.set_end(k, pass.last);
    pass.tally
}

// Goes over the next item. `known` is the kind of an object before it, and becomes that of this one.
#[inline]
fn step(heap: &mut Heap, types: &Types, k: usize, pass: Pass, known: &mut ObjectKind) -> Pass
    requires can { CanStep types.now heap.old k pass }
    requires known { IsObjectKind types.now known.old }
    ensures heap { heap.new ≡ stepped_heap heap.old (item_at types.now (word_of heap.old) pass.place) pass }
    ensures pass { result ≡ stepped heap.old (item_at types.now (word_of heap.old) pass.place) pass }
    ensures known { IsObjectKind types.now known.new }
{
    let mt = heap.word_at(k, pass.place);
    let kind = *known;
    if is_settled(heap, pass, kind, mt) {
        return stay(heap, k, pass, kind);
    }
    let found = heap.item_like_word(types, k, pass.place, mt, known);
    let next = pass.place + found.size;
    let tally = with_item(heap, pass.tally, found, mt);
    if is_kept(found, mt) {
        keep(heap, k, pass.run, pass.place, mt);
        return Pass {
            place: next,
            run: next,
            last: next,
            tally,
        };
    }
    Pass {
        place: next,
        run: end_run(heap, k, pass.run, next),
        last: pass.last,
        tally,
    }
}

// Whether the next item, whose method table word is `mt`, is an old marked object of the known kind, and nothing before
// it waits to become free. Most objects in an old segment are so.
#[inline(always)]
fn is_settled(heap: &Heap, pass: Pass, known: ObjectKind, mt: u64) -> bool
    ensures word { result ≡ true → unmarked mt ≡ known.mt }
    ensures mark { result ≡ true → has_mark mt ≡ true }
    ensures run { result ≡ true → pass.run ≡ pass.place }
    ensures old { result ≡ true → generation (frame heap.now) pass.place ≡ 2 }
{
    mark::unmarked(mt) == known.mt
        && mark::is_marked(mt)
        && pass.run == pass.place
        && heap.gen_of(pass.place) == 2
}

// Goes over such an object: only its mark is cleared, and it is counted.
#[inline(always)]
fn stay(heap: &mut Heap, k: usize, pass: Pass, known: ObjectKind) -> Pass
    requires word { HasWord heap.old.memories pass.place }
    requires segment { k ≡ memory_index heap.old.memories pass.place }
    requires room { pass.place + known.size < 2 ^ 64 }
    requires counted { pass.tally.kept + 1 < 2 ^ 64 }
    ensures heap { heap.new ≡ stored heap.old pass.place known.mt }
    ensures pass { result ≡ settled pass known.size }
{
    heap.set_word_at(k, pass.place, known.mt);
    let next = pass.place + known.size;
    Pass {
        place: next,
        run: next,
        last: next,
        tally: Tally {
            kept: pass.tally.kept + 1,
            ..pass.tally
        },
    }
}

// Whether an item with this method table word stays: it is an object, and marked.
#[inline]
pub(crate) fn is_kept(found: Item, mt: u64) -> bool
    ensures { result ≡ (is_object found && has_mark mt) }
{
    found.type_id.0 != 0 && mark::is_marked(mt)
}

// The counts with an item more.
#[inline]
pub(crate) fn with_item(heap: &Heap, tally: Tally, found: Item, mt: u64) -> Tally
    requires mt { mt ≡ word_of heap.now found.place }
    requires room { found.place + found.size < 2 ^ 64 }
    requires least { 24 ≤ found.size }
    requires counted { IsAtMost tally found.place }
    ensures { result ≡ plus tally (item_tally heap.now found) }
{
    if found.type_id.0 == 0 {
        return tally;
    }
    if !mark::is_marked(mt) {
        return Tally {
            freed: tally.freed + 1,
            ..tally
        };
    }
    let generation = heap.gen_of(found.place);
    let of_0 = if generation == 0 { found.size } else { 0 };
    let of_1 = if generation == 1 { found.size } else { 0 };
    Tally {
        kept: tally.kept + 1,
        freed: tally.freed,
        promoted1: tally.promoted1 + of_0,
        promoted2: tally.promoted2 + of_1,
    }
}

// Frees the run before the item at `place`, and clears that item's mark.
#[inline]
fn keep(heap: &mut Heap, k: usize, run: u64, place: u64, mt: u64)
    requires word { HasWord heap.old.memories place }
    requires segment { k ≡ memory_index heap.old.memories place }
    requires gap { (run ≡ place) ⊎ (run + 24 ≤ place) }
    requires head { run < place → CanFill heap.old k run }
    ensures { heap.new ≡ stored (filled heap.old run place) place (unmarked mt) }
{
    fill(heap, k, run, place);
    heap.set_word_at(k, place, mark::unmarked(mt));
}

// Ends the run at `next` where a generation begins there, and answers where the run begins that the next item belongs
// to.
#[inline]
fn end_run(heap: &mut Heap, k: usize, run: u64, next: u64) -> u64
    requires gap { run + 24 ≤ next }
    requires head { CanFill heap.old k run }
    ensures heap { heap.new ≡ (if is_cut heap.old next then filled heap.old run next else heap.old) }
    ensures run { result ≡ (if is_cut heap.old next then next else run) }
{
    if ends_generation(heap, next) {
        fill(heap, k, run, next);
        next
    } else {
        run
    }
}

// Whether a generation begins at `p`.
#[inline]
fn ends_generation(heap: &Heap, p: u64) -> bool
    ensures { result ≡ is_cut heap.now p }
{
    let (start1, start0) = heap.boundaries();
    p == start1 || p == start0
}

// Makes a free item from `a` to `p`, where there is room between them.
#[inline]
fn fill(heap: &mut Heap, k: usize, a: u64, p: u64)
    requires least { a < p → a + 24 ≤ p }
    requires head { a < p → CanFill heap.old k a }
    ensures { heap.new ≡ filled heap.old a p }
{
    if a < p {
        make_free(heap, k, a, p - a);
    }
}

// Writes the head of a free item of `size` bytes at `a`, in segment `k`.
#[inline]
#[tactic(auto, using(crate::proofs::Rules::writes), unfolding(clr_heap::specs::View::placed))]
fn make_free(heap: &mut Heap, k: usize, a: u64, size: u64)
    requires least { 24 ≤ size }
    requires can { CanFill heap.old k a }
    ensures { heap.new ≡ freed heap.old a size }
{
    heap.set_word_at(k, a - 8, 0);
    heap.set_word_at(k, a, FREE_MT);
    heap.set_word_at(k, a + 8, size - 24);
}
