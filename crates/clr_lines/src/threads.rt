//! What a line on steps of threads does, and one by which a thread holds all others: one call of the runtime.
ghost use Rattle.std.specs.Prelude.{◌≡◌, true};
ghost use Rattle.clr_model.specs.Instructions.{instruction_of};
ghost use Rattle.clr_model.specs.Run.{Follows};
ghost use Rattle.clr_lines.specs.CommandKinds.{is_on_threads};
ghost use Rattle.clr_lines.specs.Outcomes.{outcome_of, CanShow};

use crate::outcome::{Outcome, told_done, told_step};
use clr_model::Command;
use clr_runtime::Runtime;

/// Does what such a command says, and tells its outcome. A line that is refused leaves the state as it was, but for a
/// begun birth that finds no room after it collected: its collections stand.
#[inline(never)]
pub fn obey_thread(runtime: &mut Runtime, command: Command<'_>) -> Outcome
    requires threads { is_on_threads command ≡ true }
    ensures follows { Follows runtime.old.machine (instruction_of command.entry)
        (outcome_of result) runtime.new.machine }
    ensures shows { CanShow result }
{
    match command {
        Command::Suspend { t } => told_done(runtime.suspend(t)),
        Command::Resume { t } => told_done(runtime.resume(t)),
        Command::BeginSet {
            t,
            into,
            index,
            from,
        } => told_done(runtime.begin_set(t, into, index, from)),
        Command::BeginNew {
            t,
            local,
            name,
            len,
        } => told_done(runtime.begin_new(t, local, name, len)),
        Command::Step { t } => told_step(runtime.step(t)),
        _ => unreachable!(),
    }
}
