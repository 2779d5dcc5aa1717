// What is checked of a state beside its names: seconds of handles, what threads have begun, and who holds all others.
ghost use Rattle.std.specs.Prelude.{◌≡◌, ℕ, ◌≤◌, ◌↔◌, ◌||◌, ◌&&◌, ◌==◌, List, not, true, nat_lt, IfSome, length, Some};
ghost use Rattle.clr_types.specs.Types.{form_at, is_array, size_of};
ghost use Rattle.clr_types.specs.declared.item.Item.{Item as Found};
ghost use Rattle.clr_heap.specs.View.{AreWalkable, heap_items, IsHeap};
ghost use Rattle.clr_model.specs.Lawful.{HasItsSecond};
ghost use Rattle.clr_model.specs.Lookups.{is_thread};
ghost use Rattle.clr_sos.specs.Faults.{AreInside};
ghost use Rattle.clr_sos.specs.JudgedTables.{AreLawfulOthers, AreLawfulSteps, AreOwned};
ghost use Rattle.clr_sos.specs.LawfulStates.{IsLawfulStep};
ghost use Rattle.clr_sos.specs.Steps as steps;
ghost use Rattle.clr_sos.specs.Steps.{fronts_among, StepStands};
ghost use Rattle.clr_sos.specs.declared.step.Step.{Step as Begins};

use crate::state::State;
use crate::step::Step;
use crate::verify::fronts::is_own_front;
use crate::view::View;
use clr_handles::Handles;
use clr_types::{Handle, Item, TypeId, Types};

// Whether all is lawful that is checked beside names.
pub fn are_lawful_others(state: &State<'_>) -> bool
    requires heap { IsHeap state.now.view.heap.now }
    requires walkable { AreWalkable state.now.view.types.now state.now.view.heap.now }
    requires holes { AreInside state.now.view.heap.now }
    ensures { (result ≡ true) ↔ AreLawfulOthers state.now }
{
    state.view.handles.lawful();
    let owned = are_owned(state.view.handles);
    let begun = are_lawful_steps(state);
    let held = is_holder(state.holder);
    owned && begun && held
}

// Whether the holder of a suspension is a thread, where there is one.
fn is_holder(holder: Option<u64>) -> bool
    ensures { (result ≡ true) ↔ IfSome holder (λ t. is_thread t ≡ true) }
{
    match holder {
        None => true,
        Some(t) => 1 <= t && t <= 16,
    }
}

// Whether only dependent handles whose target is an object have a second.
fn are_owned(handles: &Handles) -> bool
    ensures { (result ≡ true) ↔ AreOwned handles.now }
{
    let mut from = 0;
    while let Some((number, handle)) = handles.next_from(from, 0) {
        if !is_owned(&handle) {
            return false;
        }
        from = number + 1;
    }
    true
}

// Whether a handle has no second, or is a dependent one whose target isn't null.
fn is_owned(handle: &Handle) -> bool
    ensures { (result ≡ true) ↔ HasItsSecond handle.now }
{
    handle.second == 0 || (handle.kind.is_dependent() && handle.target != 0)
}

// Whether all that threads have begun is lawful.
fn are_lawful_steps(state: &State<'_>) -> bool
    requires heap { IsHeap state.now.view.heap.now }
    requires walkable { AreWalkable state.now.view.types.now state.now.view.heap.now }
    requires holes { AreInside state.now.view.heap.now }
    ensures { (result ≡ true) ↔ AreLawfulSteps state.now }
{
    for i in 0..state.steps.len() {
        if !is_lawful_step(state, &state.steps[..i], &state.steps[i]) {
            return false;
        }
    }
    true
}

// Whether what a thread has begun is lawful. `earlier` is what the threads before it have begun.
fn is_lawful_step(state: &State<'_>, earlier: &[Step], step: &Step) -> bool
    requires heap { IsHeap state.now.view.heap.now }
    requires walkable { AreWalkable state.now.view.types.now state.now.view.heap.now }
    requires holes { AreInside state.now.view.heap.now }
    ensures { (result ≡ true) ↔ IsLawfulStep state.now.view.types.now state.now.view.large state.now.view.heap.now
        (fronts_among earlier.now, step.now) }
{
    match *step {
        Step::Idle => true,
        Step::Store { object, slot } => is_lawful_store(state, object, slot),
        Step::Begun {
            type_id,
            len,
            local,
            front,
        } => {
            let fits = is_lawful_birth(&state.view, earlier, type_id, len, front);
            local <= 63 && fits
        }
    }
}

// Whether a store that is begun is into a reference slot of an object.
fn is_lawful_store(state: &State<'_>, object: u64, slot: u64) -> bool
    requires heap { IsHeap state.now.view.heap.now }
    requires walkable { AreWalkable state.now.view.types.now state.now.view.heap.now }
    ensures { (earlier : List ℕ) → (result ≡ true)
        ↔ StepStands state.now.view.types.now state.now.view.heap.now (earlier, Begins.Store object slot) }
{
    match state.view.heap.object_at(state.view.types, object) {
        Some(item) => is_reference_slot(state.view.types, &item, slot),
        None => false,
    }
}

/// Whether slot `slot` of an object holds a reference: `false` where it has none of this number.
pub fn is_reference_slot(types: &Types, item: &Item, slot: u64) -> bool
    requires known { item.now.type_id.0 ≤ length types.now }
    requires small { size_of (form_at types.now item.now.type_id.0) item.now.len ≤ 1073741824 }
    ensures { (o : Found) → item.now ≡ o → result ≡ steps.is_reference_slot types.now (Some o) slot }
{
    slot < types.slot_count(item.type_id, item.len)
        && types.slot(item.type_id, item.len, slot).reference
}

// Whether an object that is begun is of a known type, no large one, has a length only where its type has one, and room
// at its front.
fn is_lawful_birth(view: &View<'_>, earlier: &[Step], type_id: TypeId, len: u64, front: u64) -> bool
    requires heap { IsHeap view.now.heap.now }
    requires walkable { AreWalkable view.now.types.now view.now.heap.now }
    requires holes { AreInside view.now.heap.now }
    ensures { (local : ℕ) → local ≤ 63 → (result ≡ true) ↔ IsLawfulStep view.now.types.now view.now.large
        view.now.heap.now (fronts_among earlier.now, Begins.Begun type_id len local front) }
{
    if !may_have(view.types, type_id, len) {
        return false;
    }
    match view.types.size_of(type_id, len) {
        Some(size) => has_room(view, earlier, size, front),
        None => false,
    }
}

// Whether so many bytes are those of no large object, and there is room for them at a front that no earlier thread has.
fn has_room(view: &View<'_>, earlier: &[Step], size: u64, front: u64) -> bool
    requires heap { IsHeap view.now.heap.now }
    requires walkable { AreWalkable view.now.types.now view.now.heap.now }
    ensures { result ≡ (nat_lt size view.now.large
        && (steps.is_front (heap_items view.now.types.now view.now.heap.now) view.now.heap.now size front
        && not (steps.is_among (fronts_among earlier.now) front))) }
{
    let own = is_own_front(view, earlier, size, front);
    size < view.large && own
}

// Whether a type is one of the table's that objects may have, and has a length where it is to have one.
fn may_have(types: &Types, type_id: TypeId, len: u64) -> bool
    ensures { (result ≡ true) ↔ ((1 ≤ type_id.0) × (type_id.0 ≤ length types.now)
        × ((is_array (form_at types.now type_id.0) || (len == 0)) ≡ true)) }
{
    1 <= type_id.0 && type_id.0 < types.count() && (types.has_length(type_id) || len == 0)
}
