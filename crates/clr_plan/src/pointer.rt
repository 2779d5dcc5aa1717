// The pointer of a plan, and how a plug finds its destination.
ghost use Rattle.std.specs.Prelude.{◌≡◌, ℕ, ◌+◌, ◌<◌, ◌≤◌, ◌^◌, ◌∷◌, length, IfSome, MatchOption};
ghost use Rattle.clr_heap.specs.View.{first_of, segment_at};
ghost use Rattle.clr_types.specs.Segments.{reserved_end};
ghost use Rattle.clr_plan.specs.Stages.{CanPlace, Stage, HasFound, is_gapped, IsNextAlike, PinsBehind};
ghost use Rattle.clr_plan.specs.Pins.{IsPinFrom};
ghost use Rattle.clr_plan.specs.Waiting.{ranges_from};

use crate::kinds::hold_alike;
use crate::pin::{Pin, next_pin};
use clr_heap::Heap;
use clr_pinq::PinQueue;
use clr_types::FIRST_OFFSET;

/// Where the next plug goes at the lowest: a place, the segment in which it stands, where this segment's reservation
/// ends, and how many of the entries that the walk has met lie behind.
#[derive(Clone, Copy)]
pub struct Pointer {
    pub place: u64,
    pub segment: usize,
    pub high: u64,
    pub passed: usize,
}

/// The pointer where a plug of `size` bytes that isn't pinned goes, which stands in segment `home`. The entries of the
/// queue are those that the walk has met before the plug; what lies behind the plug doesn't matter.
pub fn find_place(heap: &Heap, queue: &PinQueue, from: Pointer, home: usize, size: u64) -> Pointer
    requires stage { (w : Stage) × CanPlace w heap.now queue.now.entries from home size }
    ensures found { (w : Stage) → CanPlace w heap.now queue.now.entries from home size
        → HasFound w heap.now queue.now.entries from home result }
{
    let mut at = from;
    loop {
        match pin_here(queue, at) {
            Some(pin) => {
                if is_room(at.place, size, pin.place) {
                    return at;
                }
                at = Pointer {
                    place: pin.end,
                    passed: pin.behind,
                    ..at
                };
            }
            None => {
                if at.segment == home || at.place + size <= at.high {
                    return at;
                }
                at = in_next_segment(heap, at, home);
            }
        }
    }
}

// The next of the pins, where it begins in the pointer's segment.
#[inline]
fn pin_here(queue: &PinQueue, at: Pointer) -> Option<Pin>
    requires within { at.passed ≤ length queue.now.entries }
    ensures some { IfSome result (λ x. IsPinFrom queue.now.entries at.passed x × (x.place < at.high)) }
    ensures none { MatchOption result (PinsBehind at.high (ranges_from at.passed queue.now.entries)) (λ x. Unit {0}) }
{
    let pin = next_pin(queue, at.passed)?;
    if pin.place < at.high { Some(pin) } else { None }
}

// Whether a size fits from the place on before what begins at `start`: exactly, or with room for a free item behind it.
#[inline]
fn is_room(place: u64, size: u64, start: u64) -> bool
    requires { place + size + 24 < 2 ^ 64 }
    ensures { result ≡ is_gapped (place + size) start }
{
    let end = place + size;
    end == start || end + 24 <= start
}

// The first place of the next segment that holds what segment `home` holds.
fn in_next_segment(heap: &Heap, at: Pointer, home: usize) -> Pointer
    requires below { at.segment < home }
    requires in_range { home < length heap.now.segments }
    ensures next { IsNextAlike heap.now at.segment home result.segment }
    ensures place { result.place ≡ first_of heap.now result.segment }
    ensures high { result.high ≡ reserved_end (segment_at heap.now result.segment) }
    ensures passed { result.passed ≡ at.passed }
{
    let kind = heap.info(home).kind;
    let mut k = at.segment + 1;
    while k < home && !hold_alike(kind, heap.info(k).kind) {
        k += 1;
    }
    let segment = heap.info(k);
    Pointer {
        place: segment.base + FIRST_OFFSET,
        segment: k,
        high: segment.base + segment.reserved,
        passed: at.passed,
    }
}
