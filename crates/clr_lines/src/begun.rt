//! What the threads of a runtime have begun.
ghost use Rattle.std.specs.Prelude.{◌≡◌, true};
ghost use Rattle.clr_model.specs.Lookups as model;
ghost use Rattle.clr_sos.specs.Steps as steps;
ghost use Rattle.clr_sos.specs.Steps.{front_or_zero, steps_of};
ghost use Rattle.clr_types.specs.Segments.{rest_of};

use clr_runtime::Runtime;
use clr_safe::Begun;
use clr_sos::Step;

/// What each of 16 threads has begun and not finished, by thread. An object that is begun is to stand at the front of
/// its thread's context. The runtime stays as it is.
pub fn begun_steps(runtime: &Runtime) -> [Step; 16]
    ensures { steps_of runtime.now.machine.layout 1 runtime.now.machine.steps ≡ result }
{
    // (what it shows is lawful, and so has 16 threads)
    let _ = runtime.heap();
    let mut steps = [Step::Idle; 16];
    for k in 0..16 {
        steps[k] = begun_step(runtime, k as u64 + 1);
    }
    steps
}

// What a thread has begun, with the front of its context where that is an object.
fn begun_step(runtime: &Runtime, t: u64) -> Step
    requires { model.is_thread t ≡ true }
    ensures { result ≡ steps.step_of runtime.now.machine.layout t (model.step_of runtime.now.machine t) }
{
    match runtime.threads().begun(t) {
        Begun::Nothing => Step::Idle,
        Begun::Store { object, slot } => Step::Store { object, slot },
        Begun::Birth {
            type_id,
            len,
            local,
            finalizer: _,
        } => Step::Begun {
            type_id,
            len,
            local,
            front: front_of(runtime, t),
        },
    }
}

// Where what is left of a thread's context begins, and 0 where nothing is.
fn front_of(runtime: &Runtime, t: u64) -> u64
    requires { model.is_thread t ≡ true }
    ensures { result ≡ front_or_zero (rest_of runtime.now.machine.layout t) }
{
    match runtime.heap().hole(t as usize) {
        Some((low, _)) => low,
        None => 0,
    }
}
