//! What a line on handles or finalisers does: one call of the runtime.
ghost use Rattle.std.specs.Prelude.{◌≡◌, true};
ghost use Rattle.clr_model.specs.Instructions.{instruction_of};
ghost use Rattle.clr_model.specs.LineGrammar.{IsWellFormed};
ghost use Rattle.clr_model.specs.Run.{Follows};
ghost use Rattle.clr_lines.specs.CommandKinds.{is_on_handles};
ghost use Rattle.clr_lines.specs.Outcomes.{outcome_of, CanShow};

use crate::outcome::{Outcome, told_done, told_handle, told_place};
use clr_model::Command;
use clr_runtime::Runtime;

/// Does what such a command says, and tells its outcome. A line that is refused leaves the state as it was.
pub fn obey_handle(runtime: &mut Runtime, command: Command<'_>) -> Outcome
    requires handles { is_on_handles command ≡ true }
    requires formed { IsWellFormed (instruction_of command) }
    ensures follows { Follows runtime.old.machine (instruction_of command.entry)
        (outcome_of result) runtime.new.machine }
    ensures shows { CanShow result }
{
    match command {
        Command::Handle {
            t,
            kind,
            local,
            second,
        } => told_handle(runtime.handle(t, kind, local, second)),
        Command::Fetch { t, to, h } => told_place(runtime.fetch(t, to, h)),
        Command::Second { t, to, h } => told_place(runtime.second(t, to, h)),
        Command::Free { t, h } => told_done(runtime.free(t, h)),
        Command::Suppress { t, local } => told_done(runtime.suppress(t, local)),
        Command::Reregister { t, local } => told_done(runtime.reregister(t, local)),
        Command::Finalizer { t, to } => told_place(runtime.finalizer(t, to)),
        _ => unreachable!(),
    }
}
