// The runs of objects that may go into older free items, one after the other.
ghost use Rattle.std.specs.Prelude.{◌≡◌, ◌≢◌, ℕ, ◌+◌, ◌<◌, ◌≤◌, ◌^◌, ◌&&◌, ◌==◌, not, [], length};
ghost use Rattle.std.specs.Prelude.{MatchOption};
ghost use Rattle.clr_heap.specs.Parts.{item_at};
ghost use Rattle.clr_heap.specs.View.{word_of};
ghost use Rattle.clr_view.specs.Marks.{has_mark};
ghost use Rattle.clr_view.specs.View.{is_object};
ghost use Rattle.clr_plan.specs.Scans.{CanLook, CanScan};
ghost use Rattle.clr_evacuate.specs.Fittings.{ArePassed, fitting_between, HasFitting, may_fit};

use clr_heap::{Heap, Item};
use clr_types::{Span, Types, header, mark};

// An item's size, and whether it may go into an older item.
#[derive(Clone, Copy)]
struct Seen {
    size: u64,
    may_fit: bool,
}

// The first plug of segment `k` from `from` to `end` that may go into an older item: the longest run side by side,
// from the first one on, of marked objects of generation 1 that aren't pinned. The next one is to be looked for where
// it ends.
//
// It reads nothing below `from` but that item's header.
pub(crate) fn next_fitting(
    heap: &Heap,
    types: &Types,
    k: usize,
    from: u64,
    end: u64,
) -> Option<Span>
    requires in_range { k < length heap.now.segments }
    requires scan { CanScan types.now heap.now k from end }
    ensures { MatchOption result (fitting_between types.now heap.now k from end ≡ [])
        (HasFitting types.now heap.now k from end) }
{
    let start = past_alike(heap, types, k, from, end, false);
    if start >= end {
        return None;
    }
    let stop = past_alike(heap, types, k, start, end, true);
    Some(Span::between(start, stop))
}

// The place of the first item from `from` to `end` that may go into an older item or may not, other than `may`: `end`
// where there is none.
fn past_alike(heap: &Heap, types: &Types, k: usize, from: u64, end: u64, may: bool) -> u64
    requires in_range { k < length heap.now.segments }
    requires scan { CanScan types.now heap.now k from end }
    ensures passed { ArePassed types.now heap.now k from end may result }
    ensures stops { result < end → may_fit heap.now (item_at types.now (word_of heap.now) result) ≢ may }
{
    let mut place = from;
    while place < end {
        let seen = look(heap, types, k, place);
        if seen.may_fit != may {
            return place;
        }
        place += seen.size;
    }
    place
}

// The item at a place.
fn look(heap: &Heap, types: &Types, k: usize, place: u64) -> Seen
    requires { CanLook types.now heap.now k place }
    ensures size { result.size ≡ (item_at types.now (word_of heap.now) place).size }
    ensures may_fit { result.may_fit ≡ may_fit heap.now (item_at types.now (word_of heap.now) place) }
{
    let mt = heap.word_at(k, place);
    let found = heap.item_of_word(types, k, place, mt);
    let pinned = header::is_pinned(heap.word_at(k, place - 8));
    Seen {
        size: found.size,
        may_fit: may_go(is_kept(found, mt), heap.gen_of(place), pinned),
    }
}

// Whether an item with this method table word stays: it is an object, and marked.
fn is_kept(found: Item, mt: u64) -> bool
    ensures { result ≡ (is_object found && has_mark mt) }
{
    found.type_id.0 != 0 && mark::is_marked(mt)
}

// Whether what stays may go into an older item.
fn may_go(kept: bool, generation: u8, pinned: bool) -> bool
    ensures { result ≡ ((kept && (generation == 1)) && not pinned) }
{
    kept && generation == 1 && !pinned
}
