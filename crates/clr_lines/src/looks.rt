//! What a line that shows the heap does: one command over what the runtime shows.
ghost use Rattle.std.specs.Prelude.{◌≡◌, true};
ghost use Rattle.clr_model.specs.Instructions.{instruction_of, look_at, verify_heap};
ghost use Rattle.clr_model.specs.Machine.{Machine};
ghost use Rattle.clr_model.specs.Run.{Follows};
ghost use Rattle.clr_heap.specs.View.{IsHeap};
ghost use Rattle.clr_sos.specs.CleanStates.{HasSteps, IsCleanState};
ghost use Rattle.clr_sos.specs.Steps.{steps_of};
ghost use Rattle.clr_sos.specs.Views.{IsLawfulView, IsViewOf};
ghost use Rattle.clr_lines.specs.CommandKinds.{is_look};
ghost use Rattle.clr_lines.specs.Outcomes.{outcome_of, CanShow};

use crate::begun::begun_steps;
use crate::outcome::{Outcome, told_found, told_size, told_text, told_where};
use clr_model::{Command, Look, Reply};
use clr_objsize::objsize;
use clr_paths::{gcroots, pathto, retained};
use clr_runtime::Runtime;
use clr_shows::{dumpmt, ephrefs, gcheapstat, handle_counts, handles_of_kind, listnearobj};
use clr_sos::{
    State, Step, View, clean_states_are_lawful, dumparray, dumpheap, dumpobj, eeheap,
    finalizequeue, gchandles, gcroot, gcwhere, verifyheap_at_once,
};
use std::alloc::Global;

/// Does what such a command says, and tells its outcome. The state stays as it is.
#[inline(never)]
pub fn obey_look(runtime: &Runtime, alloc: Global, command: Command<'_>) -> Outcome
    requires looks { is_look command ≡ true }
    ensures follows { Follows runtime.now.machine (instruction_of command.entry)
        (outcome_of result) runtime.now.machine }
    ensures shows { CanShow result }
{
    let view = view_of(runtime);
    match command {
        Command::DumpHeap { filter } => told_found(dumpheap(alloc, &view, &filter)),
        Command::DumpObj { a } => told_found(dumpobj(alloc, &view, a)),
        Command::GcRoot { a } => told_found(gcroot(alloc, &view, a)),
        Command::EeHeap => told_text(eeheap(alloc, &view)),
        Command::VerifyHeap => verify(runtime, alloc),
        Command::GcHandles => told_text(gchandles(alloc, &view)),
        Command::FinalizeQueue => told_text(finalizequeue(alloc, &view)),
        Command::GcWhere { a } => told_where(gcwhere(&view, a)),
        Command::ObjSize { a } => told_size(a, objsize(alloc, &view, a)),
        Command::Look { look } => obey_more(&view, alloc, look),
        _ => unreachable!(),
    }
}

// What such a line tells that has no command of its own.
fn obey_more(view: &View<'_>, alloc: Global, look: Look) -> Outcome
    requires lawful { IsLawfulView view.now }
    ensures follows { (m : Machine) → IsViewOf view.now m → Follows m (look_at look) (outcome_of result) m }
    ensures shows { CanShow result }
{
    match look {
        Look::DumpArray { start, length, a } => {
            told_found(dumparray(alloc, view, start, length, a))
        }
        Look::DumpMt { mt } => told_found(dumpmt(alloc, view, mt)),
        Look::GcRoots { a } => told_found(gcroots(alloc, view, a)),
        Look::PathTo { a, b } => told_found(pathto(alloc, view, a, b)),
        Look::Retained { a } => told_found(retained(alloc, view, a)),
        Look::GcHeapStat { unrooted } => told_text(gcheapstat(alloc, view, unrooted)),
        Look::ListNearObj { a } => told_text(listnearobj(alloc, view, a)),
        Look::EphRefs => told_text(ephrefs(alloc, view)),
        Look::HandleStat => told_text(handle_counts(alloc, view)),
        Look::HandlesOf { kind } => told_text(handles_of_kind(alloc, view, kind)),
    }
}

// Checks the heap and all that refers to it, and finds no fault.
#[inline(never)]
fn verify(runtime: &Runtime, alloc: Global) -> Outcome
    ensures follows { Follows runtime.now.machine verify_heap (outcome_of result) runtime.now.machine }
    ensures shows { CanShow result }
{
    clean_states_are_lawful();
    let steps = begun_steps(runtime);
    let state = state_of(runtime, &steps);
    match verifyheap_at_once(alloc, &state) {
        Ok(()) => Outcome::Reply(Reply::Clean),
        Err(_) => unreachable!(),
    }
}

// All that is verified, of a runtime whose threads have begun these steps.
fn state_of<'a>(runtime: &'a Runtime, steps: &'a [Step]) -> State<'a>
    requires { steps_of runtime.now.machine.layout 1 runtime.now.machine.steps ≡ steps.now }
    ensures heap { IsHeap result.view.heap.now }
    ensures clean { IsCleanState result.view runtime.now.machine }
    ensures steps { HasSteps result runtime.now.machine }
{
    State {
        view: view_of(runtime),
        steps,
        holder: runtime.threads().holder(),
    }
}

// What the commands look at.
fn view_of(runtime: &Runtime) -> View<'_>
    ensures seen { IsViewOf result runtime.now.machine }
    ensures lawful { IsLawfulView result }
    ensures clean { IsCleanState result runtime.now.machine }
{
    let heap = runtime.heap();
    heap.lawful();
    View {
        types: runtime.types(),
        heap,
        bricks: runtime.bricks(),
        handles: runtime.handles(),
        finals: runtime.finals(),
        locals: runtime.locals(),
        limit: runtime.limit(),
        large: runtime.large(),
    }
}
