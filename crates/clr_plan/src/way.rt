// A plug gets its destination.
ghost use Rattle.std.specs.Prelude.{◌≡◌};
ghost use Rattle.clr_plan.specs.Stages.{CanGo, HasGone, Stage};

use crate::plug::Plug;
use crate::pointer::{Pointer, find_place};
use clr_heap::Heap;
use clr_pinq::PinQueue;

/// Where a plug goes, and the pointer behind it.
#[derive(Clone, Copy)]
pub struct Way {
    pub to: u64,
    pub after: Pointer,
}

/// Finds the destination of the next plug, which stands in segment `home`: a pinned one stays. The queue has the
/// entries of the plugs before it.
pub fn way_of(heap: &Heap, queue: &PinQueue, at: Pointer, home: usize, plug: Plug) -> Way
    requires stage { (w : Stage) × CanGo w heap.now queue.now.entries at home plug }
    ensures gone { (w : Stage) → CanGo w heap.now queue.now.entries at home plug → HasGone w heap.now queue.now.entries
        at home plug result.to result.after }
{
    if plug.pinned() {
        return Way {
            to: plug.start(),
            after: at,
        };
    }
    let found = find_place(heap, queue, at, home, plug.size());
    Way {
        to: found.place,
        after: Pointer {
            place: found.place + plug.size(),
            ..found
        },
    }
}
