// Which addresses are asked for.
ghost use Rattle.std.specs.Prelude.{◌≡◌, ◌&&◌, ℕ, find, is_none, nat_eq};
ghost use Rattle.clr_types.specs.Segments.{generation};
ghost use Rattle.clr_heap.specs.View.{frame};
ghost use Rattle.clr_model.specs.Sos.{passes_generation, passes_segment, stands_in_some};
ghost use Rattle.clr_sos.specs.Wants.{has_place, is_in_region};

use clr_heap::Heap;

/// The addresses of a stretch, or those outside of it.
#[derive(Clone, Copy)]
pub(crate) struct Places {
    pub(crate) low: u64,
    pub(crate) high: u64,
    pub(crate) outside: bool,
}

/// All addresses.
const ALL: Places = Places {
    low: 0,
    high: 0,
    outside: true,
};

/// No address.
const NONE: Places = Places {
    low: 0,
    high: 0,
    outside: false,
};

impl Places {
    /// Whether an address is one of them.
    #[inline(always)]
    pub(crate) fn has(self, place: u64) -> bool
        ensures { result ≡ has_place self place }
    {
        let inside = self.low <= place && place < self.high;
        if self.outside { !inside } else { inside }
    }
}

/// Where an item has to stand: anywhere, or at an address that is among those of a generation and of a segment.
#[derive(Clone, Copy)]
pub(crate) struct Region {
    pub(crate) anywhere: bool,
    pub(crate) in_generation: Places,
    pub(crate) in_segment: Places,
}

impl Region {
    /// Whether an address is in it.
    #[inline(always)]
    pub(crate) fn has(self, place: u64) -> bool
        ensures { result ≡ is_in_region self place }
    {
        self.anywhere || (self.in_generation.has(place) && self.in_segment.has(place))
    }
}

/// The addresses of a generation and of the segment with a base, where these are asked for.
pub(crate) fn region_of(heap: &Heap, g: Option<u8>, base: Option<u64>) -> Region
    ensures { (p : ℕ) → is_in_region result p
        ≡ (passes_generation (frame heap.now) g p && passes_segment (frame heap.now) base p) }
{
    Region {
        anywhere: is_anywhere(g, base),
        in_generation: places_of_generation(heap, g),
        in_segment: places_of_segment(heap, base),
    }
}

// Whether any address will do.
fn is_anywhere(g: Option<u8>, base: Option<u64>) -> bool
    ensures { result ≡ (is_none g && is_none base) }
{
    match g {
        None => base.is_none(),
        Some(_) => false,
    }
}

// Those of a generation, or all.
fn places_of_generation(heap: &Heap, g: Option<u8>) -> Places
    ensures { (p : ℕ) → has_place result p ≡ passes_generation (frame heap.now) g p }
{
    match g {
        None => ALL,
        Some(g) => places_of(heap, g),
    }
}

// Those of a generation.
fn places_of(heap: &Heap, g: u8) -> Places
    ensures { (p : ℕ) → has_place result p ≡ nat_eq (generation (frame heap.now) p) g }
{
    let segment = heap.info(heap.ephemeral());
    let end = segment.base + segment.reserved;
    let (start1, start0) = heap.boundaries();
    let first = segment.first_place().max(start1);
    if g == 0 {
        Places {
            low: first.max(start0),
            high: end,
            outside: false,
        }
    } else if g == 1 {
        Places {
            low: first,
            high: start0.min(end),
            outside: false,
        }
    } else if g == 2 {
        Places {
            low: first,
            high: end,
            outside: true,
        }
    } else {
        NONE
    }
}

// Those of the segment with a base, of which there may be none, or all.
fn places_of_segment(heap: &Heap, base: Option<u64>) -> Places
    ensures { (p : ℕ) → has_place result p ≡ passes_segment (frame heap.now) base p }
{
    match base {
        None => ALL,
        Some(base) => places_from(heap, base),
    }
}

// Those of the segment with a base.
fn places_from(heap: &Heap, base: u64) -> Places
    ensures { (p : ℕ) → has_place result p
        ≡ stands_in_some (find (λ s. nat_eq s.base base) heap.now.segments) p }
{
    for k in 0..heap.segments() {
        let segment = heap.info(k);
        if segment.base == base {
            return Places {
                low: segment.first_place(),
                high: segment.base + segment.reserved,
                outside: false,
            };
        }
    }
    NONE
}
