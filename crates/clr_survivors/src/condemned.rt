// Where the parts begin that a compaction goes over.
ghost use Rattle.std.specs.Prelude.{◌≡◌, ◌≤◌};
ghost use Rattle.clr_survivors.specs.Condemned.{condemned_from, parts_from};

use clr_heap::Heap;
use clr_moves::Condemned;

// No part that a compaction of the generations up to `g` goes over has a place below the answer, and null is in none.
pub(crate) fn first_condemned(heap: &Heap, g: u8) -> u64
    ensures { result ≡ condemned_from heap.now g }
{
    let (start1, start0) = heap.boundaries();
    match g {
        0 => start0,
        1 => start1,
        _ => 1,
    }
}

// No part of these has a place below the answer, and null is in none.
pub(crate) fn first_in_parts(heap: &Heap, g: Condemned) -> u64
    ensures { result ≡ parts_from heap.now g }
{
    match g {
        Condemned::Generations(oldest) => first_condemned(heap, oldest),
        Condemned::LargeSegments => 1,
    }
}
