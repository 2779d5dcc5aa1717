// The command that verifies a heap, and all that refers to its objects.
ghost use Rattle.std.specs.Prelude.{◌≡◌, ◌<◌, ◌↔◌, ◌^◌, ◌&&◌, length, IfErr, IfOk, None, Ok};
ghost use Rattle.clr_heap.specs.View.{AreWalkable, IsHeap};
ghost use Rattle.clr_sos.specs.CheckedCells.{or_else};
ghost use Rattle.clr_sos.specs.Faults.{AreInside, first_fault, locals_fault, references_fault};
ghost use Rattle.clr_sos.specs.JudgedTables.{AreJudged};
ghost use Rattle.clr_sos.specs.LawfulStates.{AreLawfulTables, fault_or_zero, IsLawfulState};

mod cells;
mod fronts;
mod laws;
mod names;
mod others;
mod references;
mod segments;
mod starts;
mod tables;
mod windows;

use crate::state::State;
pub use crate::verify::fronts::{have_front, is_front};
pub use crate::verify::laws::{clean_states_are_lawful, faultless_heaps_are_held};
use crate::verify::names::{Names, judge_names};
use crate::verify::others::are_lawful_others;
pub use crate::verify::others::is_reference_slot;
use crate::verify::segments::segments_fault;
use clr_heap::Heap;
use std::alloc::{AllocError, Global};

/// How many words `verifyheap` has to work in: their bits tell of 16 MiB of a heap at once.
const ROOM: usize = 32768;

/// `verifyheap`: checks all of a state, and answers the address of the first fault.
///
/// Ok, which the line shows as `clean`, is answered exactly where nothing is wrong. The faults come in this order:
///
/// - the segments by rising base: boundaries that don't stand in order are named by the segment's base. Of its items,
///   by rising place, a wrong header, method table word or length is named by that word, an item that crosses a
///   boundary, a hole or the segment's end or has the wrong size for the segment by its header, and the first byte of
///   padding that isn't zero by its own address. The rests of contexts are passed over. An object of the view's `large`
///   bytes or more suits a large segment, and a smaller one a small or the ephemeral segment. A pinned segment holds
///   free items and arrays without references, of any size: the method table word of another type is wrong there.
/// - the reference with the lowest address that is neither null nor the place of an object.
/// - what refers to objects from outside of the heap. Its fault is the address 0: a local that is neither null nor the
///   place of an object; a handle whose target or second is neither, or which has a second and isn't a dependent one
///   whose target is an object; an entry of the finalization queue or an f-reachable place at which no object stands
///   whose type has a finalizer; a store that a thread has begun, into what isn't a reference slot of an object; an
///   object that a thread has begun, of an unknown type, with a length where its type has none, of `large` bytes or
///   more, for a local above 63, at a front that an earlier thread has, or where in generation 0 no free item and no
///   unused part of a context begins in which it fits; a holder that is none of the threads 1 to 16.
///
/// The types, the limit and `large` aren't checked. The state may be any: its heap needn't spell items. It takes no
/// memory. References, locals, handles and queues are judged by a bit for each word of 16 MiB of places at a time, and
/// the heap is walked once for each such range that has places: where a caller has more room, `verifyheap_with_room` is
/// faster. Each begun store takes one more walk, and each begun object one of the ephemeral segment.
#[inline(never)]
pub fn verifyheap(state: &State<'_>) -> Result<(), u64>
    requires holes { AreInside state.now.view.heap.now }
    ensures fault { IfErr result (λ a. a ≡ fault_or_zero (first_fault state.now.view.types.now state.now.view.large
        state.now.view.heap.now state.now.view.locals.now)) }
    ensures lawful { (result ≡ Ok tt) ↔ IsLawfulState state.now }
{
    let mut room = [0; ROOM];
    verifyheap_with_room(state, &mut room)
}

/// `verifyheap` with room to work in, whose words may be any and are lost. The heap is walked once for each range of
/// 512 bytes a word of the room that has places: with a word for each 512 bytes of the reservations one walk is enough.
#[inline(always)]
pub fn verifyheap_with_room(state: &State<'_>, room: &mut [u64]) -> Result<(), u64>
    requires holes { AreInside state.now.view.heap.now }
    requires some { 0 < length room.old }
    ensures fault { IfErr result (λ a. a ≡ fault_or_zero (first_fault state.now.view.types.now state.now.view.large
        state.now.view.heap.now state.now.view.locals.now)) }
    ensures lawful { (result ≡ Ok tt) ↔ IsLawfulState state.now }
{
    match segments_fault(state.view.heap, state.view.types, state.view.large) {
        Some(address) => Err(address),
        None => named_verdict(state, room),
    }
}

/// `verifyheap` with room for all places at once wherever the allocator has it: then the heap is walked once. The room
/// is a bit for each word between the heap's first place and its last, or as many words as the used ranges have bytes /
/// 128 where these lie far apart. Where it is refused the room is that of `verifyheap`, so the answer doesn't depend on
/// it.
pub fn verifyheap_at_once(alloc: Global, state: &State<'_>) -> Result<(), u64>
    requires holes { AreInside state.now.view.heap.now }
    ensures fault { IfErr result (λ a. a ≡ fault_or_zero (first_fault state.now.view.types.now state.now.view.large
        state.now.view.heap.now state.now.view.locals.now)) }
    ensures lawful { (result ≡ Ok tt) ↔ IsLawfulState state.now }
{
    match room_for(alloc, state.view.heap) {
        Ok(room) => verifyheap_in(state, room),
        Err(_) => verifyheap(state),
    }
}

// Checks a state in room that was taken, and is given back.
#[inline(always)]
fn verifyheap_in(state: &State<'_>, room: Vec<u64>) -> Result<(), u64>
    requires holes { AreInside state.now.view.heap.now }
    requires some { 0 < length room.items }
    ensures fault { IfErr result (λ a. a ≡ fault_or_zero (first_fault state.now.view.types.now state.now.view.large
        state.now.view.heap.now state.now.view.locals.now)) }
    ensures lawful { (result ≡ Ok tt) ↔ IsLawfulState state.now }
{
    let mut room = room;
    verifyheap_with_room(state, &mut room)
}

// Room for a window over all places, or over four times as many bytes as are used where places lie far apart.
fn room_for(alloc: Global, heap: &Heap) -> Result<Vec<u64>, AllocError>
    ensures { IfOk result (λ room. 0 < length room.items) }
{
    let count = window_words(heap);
    vec![in alloc; 0; count + 1]
}

// How many words less one such a window has.
fn window_words(heap: &Heap) -> usize
    ensures { result < 2 ^ 60 }
{
    let mut start = u64::MAX;
    let mut top = 0;
    let mut used = 0_u64;
    for k in 0..heap.segments() {
        let segment = heap.info(k);
        if segment.base < segment.end {
            start = start.min(segment.base);
            top = top.max(segment.end);
            used = used.saturating_add(segment.end - segment.base);
        }
    }
    (top.saturating_sub(start) / 512).min(used / 128) as usize
}

// What is answered where the segments have no fault.
fn named_verdict(state: &State<'_>, room: &mut [u64]) -> Result<(), u64>
    requires heap { IsHeap state.now.view.heap.now }
    requires walkable { AreWalkable state.now.view.types.now state.now.view.heap.now }
    requires holes { AreInside state.now.view.heap.now }
    requires some { 0 < length room.old }
    ensures fault { IfErr result (λ a. a ≡ fault_or_zero (or_else
        (references_fault state.now.view.types.now state.now.view.heap.now)
        (locals_fault state.now.view.types.now state.now.view.heap.now state.now.view.locals.now))) }
    ensures lawful { (result ≡ Ok tt)
        ↔ ((or_else (references_fault state.now.view.types.now state.now.view.heap.now)
        (locals_fault state.now.view.types.now state.now.view.heap.now state.now.view.locals.now) ≡ None)
        × AreLawfulTables state.now) }
{
    let names = judge_names(&state.view, room);
    verdict(state, names)
}

// What is answered where names were judged so.
fn verdict(state: &State<'_>, names: Names) -> Result<(), u64>
    requires heap { IsHeap state.now.view.heap.now }
    requires walkable { AreWalkable state.now.view.types.now state.now.view.heap.now }
    requires holes { AreInside state.now.view.heap.now }
    requires judged { AreJudged state.now.view names }
    ensures fault { IfErr result (λ a. a ≡ fault_or_zero (or_else
        (references_fault state.now.view.types.now state.now.view.heap.now)
        (locals_fault state.now.view.types.now state.now.view.heap.now state.now.view.locals.now))) }
    ensures lawful { (result ≡ Ok tt)
        ↔ ((or_else (references_fault state.now.view.types.now state.now.view.heap.now)
        (locals_fault state.now.view.types.now state.now.view.heap.now state.now.view.locals.now) ≡ None)
        × AreLawfulTables state.now) }
{
    if let Some(address) = names.low {
        return Err(address);
    }
    let others = are_lawful_others(state);
    if are_all_good(names, others) {
        Ok(())
    } else {
        Err(0)
    }
}

// Whether locals and tables were judged good, and all else is lawful.
fn are_all_good(names: Names, others: bool) -> bool
    ensures { result ≡ (names.locals && (names.handles && (names.finals && others))) }
{
    names.locals && names.handles && names.finals && others
}
