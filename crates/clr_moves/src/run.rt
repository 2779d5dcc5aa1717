// Where the marked items from a place on end.
ghost use Rattle.std.specs.Prelude.{◌≡◌, ℕ, ◌+◌, ◌<◌, ◌≤◌, length};
ghost use Rattle.clr_heap.specs.View.{segment_at};
ghost use Rattle.clr_moves.specs.Told.{IsMarkedRun};

use clr_heap::{Heap, ObjectKind};
use clr_types::{Types, mark};

/// Where the marked items of segment `k` from the place `from` on end.
pub fn run_end(heap: &Heap, types: &Types, k: usize, from: u64) -> u64
    requires in_range { k < length heap.now.segments }
    requires run { (last : ℕ) × IsMarkedRun types.now heap.now k from last }
    ensures end { (last : ℕ) → IsMarkedRun types.now heap.now k from last → result ≡ last }
{
    let end = heap.info(k).end;
    let mut place = from;
    let mut known = ObjectKind::none();
    while place < end {
        let mt = heap.word_at(k, place);
        if !mark::is_marked(mt) {
            return place;
        }
        place += heap.item_like_word(types, k, place, mt, &mut known).size;
    }
    place
}
