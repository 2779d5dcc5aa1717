//! The second pass over what threads have begun.
ghost use Rattle.std.specs.Prelude.{◌≡◌, ℕ, ◌+◌, ◌*◌, ◌<◌, ◌≤◌, ◌^◌, ◌&&◌, not, [], IfSome, length, List, map};
ghost use Rattle.std.specs.Prelude.{option_map};
ghost use Rattle.std.specs.List.{AllByRecursion};
ghost use Rattle.clr_types.specs.Types.{form_at, size_of};
ghost use Rattle.clr_format.specs.NameTests as tests;
ghost use Rattle.clr_format.specs.NameTests.{first_failed, step_tests, test_from, tests_of, with_earlier};
ghost use Rattle.clr_load.specs.SeenItems.{IsSeen, items_seen};
ghost use Rattle.clr_load.specs.StepTests.{fronts_among, IsKnownStep};

use crate::seen::Seen;
use clr_format::Step;
use clr_sos::{have_front, is_front as has_room, is_reference_slot};
use clr_types::TypeId;

// How far the first word of a store that is begun which names what it may not stands from its front.
fn bad_store(seen: &Seen<'_>, object: u64, slot: u64) -> Option<usize>
    requires { IsSeen seen.now }
    ensures near { IfSome result (λ d. d ≤ 16) }
    ensures word { (q : ℕ) → (earlier : List ℕ) → option_map (λ d. q + d) result
        ≡ first_failed (map (test_from q) (step_tests seen.now.types.now (items_seen seen.now) seen.now.heap.now
        (earlier, Step.Store object slot))) }
{
    let Some(item) = seen.object_at(object) else {
        return Some(8);
    };
    if is_reference_slot(seen.types, &item, slot) {
        None
    } else {
        Some(16)
    }
}

// Whether an object of this type and length fits in room of generation 0 that begins at a place.
fn is_front(seen: &Seen<'_>, type_id: TypeId, len: u64, place: u64) -> bool
    requires seen { IsSeen seen.now }
    requires known { type_id.0 ≤ length seen.now.types.now }
    ensures { result ≡ tests.is_front (items_seen seen.now) seen.now.heap.now
        (size_of (form_at seen.now.types.now type_id.0) len) place }
{
    let Some(size) = seen.types.size_of(type_id, len) else {
        return false;
    };
    has_room(seen.heap, seen.types, size, place)
}

// Whether an object of this type and length fits in room of generation 0 that begins at a place, which none of the
// earlier threads has.
fn is_own_front(seen: &Seen<'_>, earlier: &[Step], type_id: TypeId, len: u64, place: u64) -> bool
    requires seen { IsSeen seen.now }
    requires known { type_id.0 ≤ length seen.now.types.now }
    ensures { result ≡ (tests.is_front (items_seen seen.now) seen.now.heap.now
        (size_of (form_at seen.now.types.now type_id.0) len) place
        && not (tests.is_among (fronts_among earlier.now) place)) }
{
    is_front(seen, type_id, len, place) && !have_front(earlier, place)
}

// How far the first word of what a thread has begun which names what it may not stands from its front. `earlier` is
// what the threads before it have begun.
fn bad_word(seen: &Seen<'_>, earlier: &[Step], step: &Step) -> Option<usize>
    requires seen { IsSeen seen.now }
    requires known { IsKnownStep seen.now.types.now step.now }
    ensures near { IfSome result (λ d. d ≤ 32) }
    ensures word { (q : ℕ) → option_map (λ d. q + d) result
        ≡ first_failed (map (test_from q) (step_tests seen.now.types.now (items_seen seen.now) seen.now.heap.now
        (fronts_among earlier.now, step.now))) }
{
    match *step {
        Step::Idle => None,
        Step::Store { object, slot } => bad_store(seen, object, slot),
        Step::Begun {
            type_id,
            len,
            front,
            ..
        } => {
            if is_own_front(seen, earlier, type_id, len, front) {
                None
            } else {
                Some(32)
            }
        }
    }
}

/// The offset of the first word, of what threads have begun from an offset on, that names what it may not: an object
/// that is stored into stands there, and the slot is one of its references. Where an object is to stand is free, of
/// generation 0 and large enough, and no earlier thread has it.
pub fn steps_fault(seen: &Seen<'_>, steps: &[Step], o: usize) -> Option<usize>
    requires seen { IsSeen seen.now }
    requires known { AllByRecursion (IsKnownStep seen.now.types.now) steps.now }
    requires room { o + 40 * length steps.now < 2 ^ 64 }
    ensures { result ≡ first_failed (tests_of 40
        (step_tests seen.now.types.now (items_seen seen.now) seen.now.heap.now) o (with_earlier [] steps.now)) }
{
    for i in 0..steps.len() {
        if let Some(d) = bad_word(seen, &steps[..i], &steps[i]) {
            return Some(o + 40 * i + d);
        }
    }
    None
}
