//! What a line of bytes does: it is read, and its command is obeyed.
ghost use Rattle.std.specs.Prelude.{◌≡◌, ◌+◌, ◌^◌, ◌≤◌, length};
ghost use Rattle.clr_lines.specs.Lines.{FollowsLine};
ghost use Rattle.clr_script.specs.Readings.{IsReadAs};
ghost use Rattle.clr_lines.specs.Outcomes.{outcome_of, CanShow};

use crate::background::obey_background;
use crate::handles::obey_handle;
use crate::heap::obey_heap;
use crate::looks::obey_look;
use crate::outcome::Outcome;
use crate::slots::obey_slot;
use crate::threads::obey_thread;
use clr_model::Command;
use clr_runtime::Runtime;
use clr_script::{read_line, read_quick};
use std::alloc::Global;

/// Does what a line says, and tells its outcome. A line that is refused leaves the state as it was, but for one that
/// finds no room for an object after it collected: its collections stand. The segments reserve at most 2^30 bytes of
/// addresses more.
#[inline]
pub fn execute(runtime: &mut Runtime, alloc: Global, line: &[u8]) -> Outcome
    requires { runtime.old.machine.layout.top ≤ 2 ^ 61 }
    ensures follows { FollowsLine runtime.old.machine line.now (outcome_of result) runtime.new.machine }
    ensures shows { CanShow result }
    ensures grows { runtime.new.machine.layout.top ≤ runtime.old.machine.layout.top + 2 ^ 30 }
{
    // what is seen is sound: it stands for a lawful machine, and a step of that reserves little
    let _ = runtime.heap();
    match read_quick(line) {
        Some(command) => obey(runtime, alloc, line, command),
        None => execute_rarely(runtime, alloc, line),
    }
}

// Does what a line says that isn't one of those that scripts are mostly made of.
#[inline(never)]
fn execute_rarely(runtime: &mut Runtime, alloc: Global, line: &[u8]) -> Outcome
    ensures follows { FollowsLine runtime.old.machine line.now (outcome_of result) runtime.new.machine }
    ensures shows { CanShow result }
{
    match read_line(line) {
        Ok(command) => obey(runtime, alloc, line, command),
        Err(refusal) => Outcome::Refused(refusal),
    }
}

// Does what the command of a line says.
#[inline]
fn obey(runtime: &mut Runtime, alloc: Global, line: &[u8], command: Command<'_>) -> Outcome
    requires short { length line.now ≤ 4096 }
    requires read { IsReadAs line.now command }
    ensures follows { FollowsLine runtime.old.machine line.now (outcome_of result) runtime.new.machine }
    ensures shows { CanShow result }
{
    let _ = line;
    match command {
        Command::Define { .. }
        | Command::New { .. }
        | Command::NewPinned { .. }
        | Command::Collect { .. }
        | Command::CompactLarge { .. } => obey_heap(runtime, command),
        Command::Get { .. }
        | Command::Set { .. }
        | Command::Put { .. }
        | Command::Read { .. }
        | Command::Copy { .. }
        | Command::Clear { .. } => obey_slot(runtime, command),
        Command::Handle { .. }
        | Command::Fetch { .. }
        | Command::Second { .. }
        | Command::Free { .. }
        | Command::Suppress { .. }
        | Command::Reregister { .. }
        | Command::Finalizer { .. } => obey_handle(runtime, command),
        Command::DumpHeap { .. }
        | Command::DumpObj { .. }
        | Command::GcRoot { .. }
        | Command::EeHeap
        | Command::VerifyHeap
        | Command::GcHandles
        | Command::FinalizeQueue
        | Command::GcWhere { .. }
        | Command::ObjSize { .. }
        | Command::Look { .. } => obey_look(runtime, alloc, command),
        Command::Suspend { .. }
        | Command::Resume { .. }
        | Command::BeginSet { .. }
        | Command::BeginNew { .. }
        | Command::Step { .. } => obey_thread(runtime, command),
        Command::BackgroundBegin { .. }
        | Command::BackgroundStep { .. }
        | Command::BackgroundEnd { .. } => obey_background(runtime, command),
    }
}
