// The bricks of a part of a segment, renewed: before a sweep of it, or where its objects have become older.
ghost use Rattle.std.specs.Prelude.{◌≡◌, ℕ, ◌+◌, ◌*◌, ◌/◌, ◌-◌, ◌<◌, ◌≤◌, ◌^◌, ◌==◌, ◌⊎◌, if◌then◌else◌, length};
ghost use Rattle.std.specs.Prelude.{◌≢◌, Bool, ◌&&◌, MatchOption, true};
ghost use Rattle.clr_bricks.specs.Bricks.{AreLedBack, entry_at};
ghost use Rattle.clr_covers.specs.Covers.{is_covered, share_cover, spans};
ghost use Rattle.clr_heap.specs.View.{first_of, frame, IsHeap, last_of, no_rests, segment_at};
ghost use Rattle.clr_model.specs.Machine.{Object};
ghost use Rattle.clr_types.specs.Segments.{generation, Layout, stands_in};
ghost use Rattle.clr_view.specs.View.{IsHeld, is_object, objects_in};
ghost use Rattle.clr_generations.specs.Laws.{AreEntered, IsBrickOf};
ghost use Rattle.clr_generations.specs.Renewing.{AreKept, AreLeft, CanBegin, HasBorder, HasNoStart, HasTold, HaveTold};
ghost use Rattle.clr_generations.specs.Renewing.{HasYoungBorder, IsFirstFrom, IsFirstIn, IsSearchStart};
ghost use Rattle.clr_generations.specs.Renewing.{left_in, named_after, NamesBelow, next_after, NoneCounted};
ghost use Rattle.clr_generations.specs.Renewing.{NoneCountedIn};
ghost use Rattle.clr_generations.specs.Renewing as renewing;
ghost use Rattle.clr_generations.specs.Tables.{AreBricksOf};

use crate::finding::offset_of;
use clr_bricks::Bricks;
use clr_heap::{Heap, Item};
use clr_types::{Types, mark};

// Which objects a brick may be renewed for.
#[derive(Clone, Copy)]
enum Counted {
    // Those that are marked.
    Marked,
    // Each of them.
    All,
}

impl Counted {
    // Whether an object with this method table word counts.
    fn passes(self, mt: u64) -> bool
        ensures { result ≡ renewing.passes self mt }
    {
        match self {
            Counted::Marked => mark::is_marked(mt),
            Counted::All => true,
        }
    }
}

/// Renews the bricks of segment `k` before a sweep of its part from `from` on, while the marks stand: each of them
/// names the first marked object that starts in it, and leads back to the nearest one below that names one where none
/// does. A brick that names an object below `from` goes on naming it. So the bricks tell of what the sweep leaves,
/// whatever layout it leaves it in. Where the object that a brick names is marked, its entry stays, and no other
/// object is looked at.
pub fn renew_bricks(heap: &Heap, types: &Types, bricks: &mut Bricks, k: usize, from: u64)
    requires held { IsHeld types.now heap.now }
    requires in_range { k < length heap.now.segments }
    requires no_contexts { heap.now.rests ≡ no_rests }
    requires low { first_of heap.now k ≤ from }
    requires high { from ≤ last_of heap.now k }
    requires old { (place : ℕ) → stands_in (segment_at heap.now k) place ≡ true → place < from
        → 0 < generation (frame heap.now) place }
    requires young { HasYoungBorder types.now heap.now k }
    requires bricks { AreBricksOf (frame heap.now) bricks.old }
    requires law { AreEntered types.now (frame heap.now) (objects_in types.now heap.now) (entry_at bricks.old)
        (segment_at heap.now k) }
    ensures entered { (after : Layout) (keep : Object → Bool) → AreLeft types.now heap.now k from after keep
        → AreEntered types.now after (left_in types.now heap.now keep) (entry_at bricks.new) (segment_at heap.now k) }
    ensures others { (brick : ℕ) → (IsBrickOf (segment_at heap.now k) brick → ⊥)
        → entry_at bricks.new brick ≡ entry_at bricks.old brick }
    ensures spans { spans bricks.new ≡ spans bricks.old }
{
    let (_, start0) = heap.boundaries();
    renew_part(heap, types, bricks, k, from, start0, Counted::Marked);
}

/// Renews the bricks of segment `k`, all of which is of generation 1 or 2 now, where generation 0 began at `young`
/// before: each brick names the first object that starts in it, and one in which none starts leads back to the nearest
/// one below that names one. No item reaches over `young`.
pub fn renew_aged_bricks(heap: &Heap, types: &Types, bricks: &mut Bricks, k: usize, young: u64)
    requires held { IsHeld types.now heap.now }
    requires in_range { k < length heap.now.segments }
    requires no_contexts { heap.now.rests ≡ no_rests }
    requires low { first_of heap.now k ≤ young }
    requires high { young ≤ last_of heap.now k }
    requires aged { (place : ℕ) → stands_in (segment_at heap.now k) place ≡ true
        → 0 < generation (frame heap.now) place }
    requires border { HasBorder types.now heap.now k young }
    requires bricks { AreBricksOf (frame heap.now) bricks.old }
    requires told { HaveTold types.now heap.now k young young (entry_at bricks.old) }
    ensures entered { AreEntered types.now (frame heap.now) (objects_in types.now heap.now) (entry_at bricks.new)
        (segment_at heap.now k) }
    ensures others { (brick : ℕ) → (IsBrickOf (segment_at heap.now k) brick → ⊥)
        → entry_at bricks.new brick ≡ entry_at bricks.old brick }
    ensures spans { spans bricks.new ≡ spans bricks.old }
{
    renew_part(heap, types, bricks, k, young, young, Counted::All);
}

// Renews the bricks of the part of segment `k` from `from` on for the objects that count, where the entries told of a
// layout in which generation 0 began at `young`.
fn renew_part(
    heap: &Heap,
    types: &Types,
    bricks: &mut Bricks,
    k: usize,
    from: u64,
    young: u64,
    counted: Counted,
)
    requires held { IsHeld types.now heap.now }
    requires in_range { k < length heap.now.segments }
    requires no_contexts { heap.now.rests ≡ no_rests }
    requires low { first_of heap.now k ≤ from }
    requires high { from ≤ last_of heap.now k }
    requires border { HasBorder types.now heap.now k young }
    requires bricks { AreBricksOf (frame heap.now) bricks.old }
    requires told { HaveTold types.now heap.now k from young (entry_at bricks.old) }
    ensures entered { (after : Layout) (keep : Object → Bool)
        → AreKept types.now heap.now (renewing.passes counted) k from after keep
        → AreEntered types.now after (left_in types.now heap.now keep) (entry_at bricks.new) (segment_at heap.now k) }
    ensures others { (brick : ℕ) → (IsBrickOf (segment_at heap.now k) brick → ⊥)
        → entry_at bricks.new brick ≡ entry_at bricks.old brick }
    ensures spans { spans bricks.new ≡ spans bricks.old }
{
    let end = heap.info(k).end;
    let mut next = first_open(bricks, from, end);
    let mut brick = next;
    let mut led = next;
    while 4096 * brick < end {
        let first = first_in(heap, types, bricks, k, brick, young, counted);
        next = name_first(bricks, first, brick, next, led);
        let passed = next_start(bricks, next, led, brick + 1, end, young);
        led = passed.0;
        brick = passed.1;
    }
    bricks.lead_on(next, led, brick);
}

// Up to which brick those from `next` on lead back to the one below it, as they are known to do up to `led`, and the
// first brick from `from` on in which a search may begin: its entry names an offset, or generation 0 begins in it at
// `young`. The brick behind the end of the segment, `end`, where there is none. So the bricks of large objects are
// passed, in which no object starts: behind an object that counts, where `next` is `from`, by one compare each.
fn next_start(bricks: &Bricks, next: u64, led: u64, from: u64, end: u64, young: u64) -> (u64, u64)
    requires fits { end < 2 ^ 62 }
    requires near { 4096 * from < end + 4096 }
    requires shared { (j i : ℕ) → from ≤ j → j ≤ i → 4096 * i < end → share_cover bricks.now j i ≡ true }
    requires order { next ≤ from }
    requires behind { led ≤ from }
    requires known { next < from → next ≤ led }
    requires led { AreLedBack (entry_at bricks.now) next led }
    ensures low { from ≤ result.1 }
    ensures near { 4096 * result.1 < end + 4096 }
    ensures none { (i : ℕ) → from ≤ i → i < result.1 → HasNoStart (entry_at bricks.now i) i young }
    ensures led_low { next ≤ result.0 }
    ensures led_high { result.0 ≤ result.1 }
    ensures led { AreLedBack (entry_at bricks.now) next result.0 }
{
    let stop = stop_from(from, end, young);
    let to = led_on(bricks, next, led, from, stop);
    (to, bricks.next_root(to.max(from), stop))
}

// The first brick from `from` on in which generation 0 begins at `young`, and where it doesn't, the one behind the end
// of the segment, `end`.
fn stop_from(from: u64, end: u64, young: u64) -> u64
    requires fits { end < 2 ^ 62 }
    requires near { 4096 * from < end + 4096 }
    ensures low { from ≤ result }
    ensures near { 4096 * result < end + 4096 }
    ensures none { (i : ℕ) → from ≤ i → i < result → young / 4096 ≢ i }
{
    let past = (end + 4095) / 4096;
    let border = young / 4096;
    if from <= border && border < past {
        border
    } else {
        past
    }
}

// Up to which brick, and no further than `stop`, those from `next` on lead back to the one below it, as they are known
// to do up to `led`. Only where `next` is `from` are bricks looked at.
fn led_on(bricks: &Bricks, next: u64, led: u64, from: u64, stop: u64) -> u64
    requires stop { from ≤ stop }
    requires shared { from < stop → share_cover bricks.now from (stop - 1) ≡ true }
    requires order { next ≤ from }
    requires behind { led ≤ from }
    requires known { next < from → next ≤ led }
    requires led { AreLedBack (entry_at bricks.now) next led }
    ensures low { next ≤ result }
    ensures high { result ≤ stop }
    ensures later { from < result → next ≡ from }
    ensures led { AreLedBack (entry_at bricks.now) next result }
{
    if next == from {
        bricks.led_up_to(from, stop)
    } else {
        led
    }
}

// The first brick from that of the place `from` on that names no place below it, where the segment ends at `end`. The
// bricks of the segment are expected from then on.
fn first_open(bricks: &mut Bricks, from: u64, end: u64) -> u64
    requires fits { end < 2 ^ 62 }
    requires covered { 4096 * (from / 4096) < end → is_covered bricks.old (from / 4096) ≡ true }
    ensures opens { ((4096 * (from / 4096) < end) × NamesBelow (entry_at bricks.old (from / 4096)) (from / 4096) from
        × (result ≡ from / 4096 + 1))
        ⊎ (((end ≤ 4096 * (from / 4096)) ⊎ (NamesBelow (entry_at bricks.old (from / 4096)) (from / 4096) from → ⊥))
        × (result ≡ from / 4096)) }
    ensures same { bricks.new ≡ bricks.old }
{
    let brick = from / 4096;
    if 4096 * brick >= end {
        return brick;
    }
    bricks.expect(brick);
    let entry = bricks.entry(brick);
    if entry <= 0 {
        return brick;
    }
    if 4096 * brick + offset_of(entry) < from {
        brick + 1
    } else {
        brick
    }
}

// The place of the first object that counts and starts in a brick of segment `k`, where the brick's entry told of a
// layout in which generation 0 began at `young`.
fn first_in(
    heap: &Heap,
    types: &Types,
    bricks: &Bricks,
    k: usize,
    brick: u64,
    young: u64,
    counted: Counted,
) -> Option<u64>
    requires held { IsHeld types.now heap.now }
    requires in_range { k < length heap.now.segments }
    requires no_contexts { heap.now.rests ≡ no_rests }
    requires low { first_of heap.now k ≤ 4096 * brick }
    requires high { 4096 * brick < last_of heap.now k }
    requires border { HasBorder types.now heap.now k young }
    requires covered { is_covered bricks.now brick ≡ true }
    requires told { HasTold (objects_in types.now heap.now) young brick (entry_at bricks.now brick) }
    ensures { MatchOption result (NoneCountedIn types.now heap.now (renewing.passes counted) brick)
        (IsFirstIn types.now heap.now (renewing.passes counted) brick) }
{
    let end = heap.info(k).end;
    let entry = bricks.entry(brick);
    if entry > 0 {
        let place = 4096 * brick + offset_of(entry);
        if counted.passes(heap.word_at(k, place)) {
            return Some(place);
        }
    }
    match search_start(bricks, brick, young) {
        Some(start) => first_counted(heap, types, k, start, end.min(4096 * brick + 4096), counted),
        None => None,
    }
}

// Where a search for the first object in a brick begins, where generation 0 begins at `young`: `None` where no object
// starts in the brick.
fn search_start(bricks: &Bricks, brick: u64, young: u64) -> Option<u64>
    requires fits { brick < 2 ^ 50 }
    requires covered { is_covered bricks.now brick ≡ true }
    ensures { MatchOption result (HasNoStart (entry_at bricks.now brick) brick young)
        (IsSearchStart (entry_at bricks.now brick) brick young) }
{
    let entry = bricks.entry(brick);
    if entry > 0 {
        return Some(4096 * brick + offset_of(entry));
    }
    if young / 4096 == brick {
        Some(young)
    } else {
        None
    }
}

// The place of the first object of segment `k` that counts from `start` on, below `past`.
fn first_counted(
    heap: &Heap,
    types: &Types,
    k: usize,
    start: u64,
    past: u64,
    counted: Counted,
) -> Option<u64>
    requires heap { IsHeap heap.now }
    requires held { IsHeld types.now heap.now }
    requires in_range { k < length heap.now.segments }
    requires no_contexts { heap.now.rests ≡ no_rests }
    requires begins { start < last_of heap.now k → CanBegin types.now heap.now k start }
    requires end { past ≤ last_of heap.now k }
    ensures { MatchOption result (NoneCounted types.now heap.now (renewing.passes counted) start past)
        (IsFirstFrom types.now heap.now (renewing.passes counted) start past) }
{
    let mut place = start;
    while place < past {
        let mt = heap.word_at(k, place);
        let found = heap.item_of_word(types, k, place, mt);
        if is_counted(found, mt, counted) {
            return Some(place);
        }
        place += found.size;
    }
    None
}

// Whether an item with this method table word is an object that counts.
fn is_counted(found: Item, mt: u64, counted: Counted) -> bool
    ensures { result ≡ (is_object found && renewing.passes counted mt) }
{
    found.type_id.0 != 0 && counted.passes(mt)
}

// Lets the brick name the object at the place `first`, and those of [next, brick) lead back to the one below `next`, as
// those below `led` do already; changes nothing where there is no such object. Answers which brick is the first that
// isn't settled then.
fn name_first(bricks: &mut Bricks, first: Option<u64>, brick: u64, next: u64, led: u64) -> u64
    requires fits { brick < 2 ^ 50 }
    requires low { next ≤ led }
    requires high { led ≤ brick }
    requires shared { (i : ℕ) → next ≤ i → i ≤ brick → share_cover bricks.old next i ≡ true }
    requires led { AreLedBack (entry_at bricks.old) next led }
    ensures next { result ≡ next_after first brick next }
    ensures entries { (i : ℕ) → entry_at bricks.new i ≡ named_after first (entry_at bricks.old) brick next i }
    ensures spans { spans bricks.new ≡ spans bricks.old }
{
    match first {
        Some(place) => {
            bricks.lead_on(next, led, brick);
            bricks.set_root(brick, (place % 4096) as u16);
            brick + 1
        }
        None => next,
    }
}
