//! What threads have begun goes on.
ghost use Rattle.std.specs.Prelude.{◌≡◌, ℕ, ◌<◌, ◌≤◌, [], length, List, map, replicate};
ghost use Rattle.std.specs.List.{AllByRecursion};
ghost use Rattle.clr_types.specs.Rising.{IsIn};
ghost use Rattle.clr_heap.specs.View.{no_rests};
ghost use Rattle.clr_ctx.specs.Contexts.{IsRelaid};
ghost use Rattle.clr_format.specs.NameTests.{with_earlier};
ghost use Rattle.clr_sos.specs.declared.step.Step.{Step as Begins};
ghost use Rattle.clr_load.specs.Sound.{StepStands};
ghost use Rattle.clr_load.specs.StepTests.{IsKnownStep};
ghost use Rattle.clr_open.specs.Begun as goes;
ghost use Rattle.clr_open.specs.Begun.{HasFront, layout_with};
ghost use Rattle.clr_opened.specs.Opened.{opened_layout};
ghost use Rattle.clr_safe.specs.declared.begun.Begun.TheVariants.{Nothing};
ghost use Rattle.clr_view.specs.View.{IsHeld, layout_in};

use clr_ctx::open_whole;
use clr_format::Step;
use clr_heap::Heap;
use clr_safe::{Begun, Safe};
use clr_types::Types;

// The free item at whose front the thread's object is to stand, all of it, becomes the thread's context.
fn open_front(heap: &mut Heap, types: &Types, t: usize, step: Step)
    requires held { IsHeld types.now heap.old }
    requires positive { 0 < t }
    requires few { t ≤ 16 }
    requires front { HasFront (layout_in types.now heap.old) t step }
    ensures { IsRelaid types.now heap.old heap.new (layout_with (layout_in types.now heap.old) t step) }
{
    heap.lawful();
    match step {
        Step::Begun { front, .. } => open_whole(heap, types, t, front),
        Step::Idle | Step::Store { .. } => {}
    }
}

/// Each of the 16 threads that has begun an object gets the free item at its front as its context, all of it. No thread
/// has a context before.
pub fn open_fronts(heap: &mut Heap, types: &Types, steps: &[Step])
    requires held { IsHeld types.now heap.old }
    requires alone { heap.old.rests ≡ no_rests }
    requires count { length steps.now ≡ 16 }
    requires stand { (e : List ℕ × Begins) → IsIn e (with_earlier [] steps.now) → StepStands types.now heap.old e }
    ensures { IsRelaid types.now heap.old heap.new (opened_layout types.now heap.old steps.now) }
{
    heap.lawful();
    for i in 0..steps.len() {
        open_front(heap, types, i + 1, steps[i]);
    }
}

// What a thread has begun, as a runtime keeps it.
fn begun_of(types: &Types, step: Step) -> Begun
    requires { IsKnownStep types.now step }
    ensures { result ≡ goes.begun_of types.now step }
{
    match step {
        Step::Idle => Begun::Nothing,
        Step::Store { object, slot } => Begun::Store { object, slot },
        Step::Begun {
            type_id,
            len,
            local,
            ..
        } => Begun::Birth {
            type_id,
            len,
            local,
            finalizer: types.finalizer(type_id),
        },
    }
}

// Nothing is begun, and this thread holds all others, if one does.
fn held_by(holder: Option<u64>) -> Safe
    ensures { result ≡ record { begun = replicate 16 Nothing; holder = holder } }
{
    let mut safe = Safe::new();
    if let Some(t) = holder {
        safe.suspend(t);
    }
    safe
}

/// What the 16 threads have begun, and the one that holds all others.
pub fn begun_again(types: &Types, holder: Option<u64>, steps: &[Step]) -> Safe
    requires count { length steps.now ≡ 16 }
    requires known { AllByRecursion (IsKnownStep types.now) steps.now }
    ensures { result ≡ record { begun = map (goes.begun_of types.now) steps.now; holder = holder } }
{
    let mut safe = held_by(holder);
    for i in 0..steps.len() {
        safe.begin(i as u64 + 1, begun_of(types, steps[i]));
    }
    safe
}
