// The pointer is raised where generations begin.
ghost use Rattle.std.specs.Prelude.{◌≡◌, ℕ, ◌<◌, ◌≤◌, List, filter, length, nat_le};
ghost use Rattle.clr_types.specs.Rising.{IsRisingBy};
ghost use Rattle.clr_types.specs.Segments.{reserved_end};
ghost use Rattle.clr_types.specs.Types.{TypeRow};
ghost use Rattle.clr_heap.specs.View.{HeapView, segment_at};
ghost use Rattle.clr_plan.specs.Heaps.{IsBetweenIn};
ghost use Rattle.clr_plan.specs.Parts.{Around};
ghost use Rattle.clr_plan.specs.Plans.{IsRaisedTo};
ghost use Rattle.clr_plan.specs.Raises.{CanRaise, HasRaised};
ghost use Rattle.clr_plan.specs.Waiting.{ranges_from};

use crate::pin::next_pin;
use crate::pointer::Pointer;
use clr_heap::Heap;
use clr_pinq::PinQueue;
use clr_types::FIRST_OFFSET;

/// A place of the ephemeral segment, which is segment `e`, as the pointer.
pub fn young_pointer(heap: &Heap, e: usize, place: u64) -> Pointer
    requires { e < length heap.now.segments }
    ensures { result ≡ record { place = place; segment = e; high = reserved_end (segment_at heap.now e); passed = 0 } }
{
    let segment = heap.info(e);
    Pointer {
        place,
        segment: e,
        high: segment.base + segment.reserved,
        passed: 0,
    }
}

/// Raises the pointer into the ephemeral segment, which is segment `e`, and past the pins of older generations that
/// begin at it.
pub fn raised_to(heap: &Heap, queue: &PinQueue, from: Pointer, e: usize) -> Pointer
    requires between { (rows : List TypeRow) × (old : HeapView) × (g : ℕ) × IsBetweenIn rows old heap.now g e
        queue.now.entries from }
    ensures raised { (rows : List TypeRow) (old : HeapView) (g : ℕ) → IsBetweenIn rows old heap.now g e
        queue.now.entries from → IsRaisedTo rows old g e queue.now.entries from result }
{
    let mut at = from;
    if from.segment != e {
        let first = heap.info(e).base + FIRST_OFFSET;
        at = Pointer {
            passed: passed_below(queue, from.passed, first),
            ..young_pointer(heap, e, first)
        };
    }
    past_pins(queue, at)
}

/// The pointer past the pins that begin at it, one after another.
pub fn past_pins(queue: &PinQueue, from: Pointer) -> Pointer
    requires behind { from.passed ≤ length queue.now.entries }
    ensures raised { (w : Around) (h : HeapView) → CanRaise w h queue.now.entries from → HasRaised w h queue.now.entries
        from result }
{
    let mut at = from;
    while let Some(pin) = next_pin(queue, at.passed) {
        if pin.place != at.place {
            break;
        }
        at = Pointer {
            place: pin.end,
            passed: pin.behind,
            ..at
        };
    }
    at
}

/// How many entries lie behind when the pointer goes up to a place: with the pins that begin below it.
pub fn passed_below(queue: &PinQueue, passed: usize, place: u64) -> usize
    requires behind { passed ≤ length queue.now.entries }
    requires rise { IsRisingBy (λ x. x.place) (ranges_from passed queue.now.entries) }
    ensures behind { result ≤ length queue.now.entries }
    ensures left { ranges_from result queue.now.entries ≡ filter (λ x. nat_le place x.place)
        (ranges_from passed queue.now.entries) }
{
    let mut i = passed;
    while let Some(pin) = next_pin(queue, i) {
        if pin.place >= place {
            break;
        }
        i = pin.behind;
    }
    i
}
