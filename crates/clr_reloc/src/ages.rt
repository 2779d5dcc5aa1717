// Generations once a plan is carried out.
ghost use Rattle.std.specs.Prelude.{◌≡◌};
ghost use Rattle.clr_types.specs.Segments.{generation};
ghost use Rattle.clr_heap.specs.View.{frame};
ghost use Rattle.clr_reloc.specs.Relocated.{rebounded};

use clr_heap::Heap;
use clr_moves::Planned;

// The generation of a place once the plan is carried out.
#[inline]
pub(crate) fn planned_gen(heap: &Heap, planned: &Planned, place: u64) -> u8
    ensures { result ≡ generation (rebounded (frame heap.now) planned.now) place }
{
    if !heap.is_ephemeral(place) || place < planned.start1 {
        2
    } else if place < planned.start0 {
        1
    } else {
        0
    }
}
