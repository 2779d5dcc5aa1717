// A free item that a size fits in, found by a walk.
ghost use Rattle.std.specs.Prelude.{◌≡◌, ◌+◌, ◌<◌, ◌≤◌, ◌^◌, length};
ghost use Rattle.clr_heap.specs.View.{listing};
ghost use Rattle.clr_view.specs.View.{IsHeld};
ghost use Rattle.clr_items.specs.Items.{first_fitting, free_from};

use crate::items::fits_in;
use clr_heap::Heap;
use clr_types::{Span, Types};

/// The first free item of segment `k` from a place on in which a size fits, found by a walk over the segment: `None`
/// where it fits in none.
pub fn first_free(heap: &Heap, types: &Types, k: usize, from: u64, size: u64) -> Option<Span>
    requires held { IsHeld types.now heap.now }
    requires in_range { k < length heap.now.segments }
    requires small { size < 2 ^ 62 }
    ensures { result ≡ first_fitting size (free_from from (listing types.now heap.now k)) }
{
    for found in heap.walk(types, k) {
        if found.type_id.0 == 0 && found.place >= from && fits_in(size, found.size) {
            return Some(Span::between(found.place, found.place + found.size));
        }
    }
    None
}
