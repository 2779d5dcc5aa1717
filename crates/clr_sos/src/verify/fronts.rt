// Room for objects that threads have begun.
ghost use Rattle.std.specs.Prelude.{◌≡◌, ◌∷◌, ◌<◌, ◌==◌, ◌&&◌, [], not, slice_get};
ghost use Rattle.std.specs.List.{list_any};
ghost use Rattle.clr_types.specs.Ranges as ranges;
ghost use Rattle.clr_types.specs.Ranges.{Piece};
ghost use Rattle.clr_types.specs.Segments.{flat_option, generation, rest_pieces};
ghost use Rattle.clr_heap.specs.View.{AreWalkable, frame, heap_items, IsHeap};
ghost use Rattle.clr_view.specs.View.{free_among};
ghost use Rattle.clr_sos.specs.Steps as steps;
ghost use Rattle.clr_sos.specs.Steps.{fronts_among};
ghost use Rattle.clr_sos.specs.declared.step.Step.{Step as Begins};

use crate::step::Step;
use crate::view::View;
use clr_heap::Heap;
use clr_types::Types;

// Whether so many bytes fit in room of generation 0 that begins at a place, which none of the earlier threads has.
pub fn is_own_front(view: &View<'_>, earlier: &[Step], size: u64, place: u64) -> bool
    requires heap { IsHeap view.now.heap.now }
    requires walkable { AreWalkable view.now.types.now view.now.heap.now }
    ensures { result ≡ (steps.is_front (heap_items view.now.types.now view.now.heap.now) view.now.heap.now size place
        && not (steps.is_among (fronts_among earlier.now) place)) }
{
    let free = is_front(view.heap, view.types, size, place);
    let taken = have_front(earlier, place);
    free && !taken
}

/// Whether an object of so many bytes fits in room of generation 0 that begins at a place: a free item, or what is left
/// of a context.
pub fn is_front(heap: &Heap, types: &Types, size: u64, place: u64) -> bool
    requires heap { IsHeap heap.now }
    requires walkable { AreWalkable types.now heap.now }
    ensures { result ≡ steps.is_front (heap_items types.now heap.now) heap.now size place }
{
    if heap.gen_of(place) != 0 {
        return false;
    }
    let free = is_free(heap, types, size, place);
    let unused = is_unused(heap, size, place);
    free || unused
}

// Whether so many bytes fit in a free item that stands at a place of generation 0.
fn is_free(heap: &Heap, types: &Types, size: u64, place: u64) -> bool
    requires heap { IsHeap heap.now }
    requires walkable { AreWalkable types.now heap.now }
    requires young { generation (frame heap.now) place ≡ 0 }
    ensures { result ≡ list_any (λ (p : Piece). (p.place == place) && ranges.fits size p.size)
        (free_among (heap_items types.now heap.now)) }
{
    let young = heap.ephemeral();
    match heap.item_in(types, young, place) {
        Some(room) => room.type_id.0 == 0 && fits(size, room.size),
        None => false,
    }
}

// Whether so many bytes fit in the unused part of a context that begins at a place.
fn is_unused(heap: &Heap, size: u64, place: u64) -> bool
    requires heap { IsHeap heap.now }
    ensures { result ≡ list_any (λ (p : Piece). (p.place == place) && ranges.fits size p.size)
        (rest_pieces heap.now.rests) }
{
    for k in 0..16 {
        if is_context_front(heap, k, size, place) {
            return true;
        }
    }
    false
}

// Whether so many bytes fit in the unused part of the context of thread `k + 1`, and that begins at a place.
fn is_context_front(heap: &Heap, k: usize, size: u64, place: u64) -> bool
    requires { k < 16 }
    ensures { result ≡ list_any (λ (p : Piece). (p.place == place) && ranges.fits size p.size)
        (rest_pieces (flat_option (slice_get heap.now.rests k) ∷ [])) }
{
    match heap.hole(k + 1) {
        Some((low, high)) => low == place && fits(size, high - low),
        None => false,
    }
}

// Whether a size fits in a range of so many bytes: it fills it, or leaves room for a free item.
fn fits(size: u64, bytes: u64) -> bool
    ensures { result ≡ ranges.fits size bytes }
{
    size == bytes || (bytes >= 24 && size <= bytes - 24)
}

/// Whether one of these threads has begun an object that is to stand at this place.
pub fn have_front(earlier: &[Step], place: u64) -> bool
    ensures { result ≡ steps.is_among (fronts_among earlier.now) place }
{
    any_front(earlier, place)
}

// Whether the front of one of these threads is this one.
fn any_front(earlier: &[Step], place: u64) -> bool
    ensures { result ≡ list_any (λ (step : Begins). steps.is_among (steps.fronts_of step) place) earlier.now }
{
    earlier.iter().any(|step| has_front(step, place))
}

// Whether a thread has begun an object with this front.
fn has_front(step: &Step, place: u64) -> bool
    ensures { result ≡ steps.is_among (steps.fronts_of step.now) place }
{
    match step {
        Step::Idle | Step::Store { .. } => false,
        Step::Begun { front, .. } => *front == place,
    }
}
