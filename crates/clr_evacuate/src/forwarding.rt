// Where what stood at a place went.
ghost use Rattle.std.specs.Prelude.{◌≡◌, ℕ};
ghost use Rattle.clr_heap.specs.View.{IsHeap};
ghost use Rattle.clr_view.specs.View.{IsHeld};
ghost use Rattle.clr_evacuate.specs.Forwarding.{CanForward, LeadsBy};

use clr_heap::Heap;
use clr_types::{FREE_MT, Types};

// Where what stood at a place went: the place itself where that is null, where an object stands there, or where the
// free item that begins there has no forward.
pub(crate) fn forward(heap: &Heap, types: &Types, place: u64) -> u64
    requires heap { IsHeap heap.now }
    requires held { IsHeld types.now heap.now }
    requires can { CanForward types.now heap.now place }
    ensures { (go : ℕ → ℕ) → LeadsBy types.now heap.now go → result ≡ go place }
{
    let _ = types;
    if place == 0 {
        return 0;
    }
    let k = heap.segment_of(place);
    if heap.word_at(k, place) != FREE_MT {
        return place;
    }
    let to = heap.word_at(k, place - 8);
    if to == 0 { place } else { to }
}
