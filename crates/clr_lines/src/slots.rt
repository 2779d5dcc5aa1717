//! What a line on slots or locals does: one call of the runtime.
ghost use Rattle.std.specs.Prelude.{◌≡◌, true};
ghost use Rattle.clr_model.specs.Instructions.{instruction_of};
ghost use Rattle.clr_model.specs.Run.{Follows};
ghost use Rattle.clr_lines.specs.CommandKinds.{is_on_slots};
ghost use Rattle.clr_lines.specs.Outcomes.{outcome_of, CanShow};

use crate::outcome::{Outcome, told_done, told_number, told_place};
use clr_model::Command;
use clr_runtime::Runtime;

/// Does what such a command says, and tells its outcome. A line that is refused leaves the state as it was.
pub fn obey_slot(runtime: &mut Runtime, command: Command<'_>) -> Outcome
    requires slots { is_on_slots command ≡ true }
    ensures follows { Follows runtime.old.machine (instruction_of command.entry)
        (outcome_of result) runtime.new.machine }
    ensures shows { CanShow result }
{
    match command {
        Command::Get { t, to, from, index } => told_place(runtime.get(t, to, from, index)),
        Command::Set {
            t,
            into,
            index,
            from,
        } => told_done(runtime.set(t, into, index, from)),
        Command::Put {
            t,
            into,
            index,
            value,
        } => told_done(runtime.put(t, into, index, value)),
        Command::Read { t, from, index } => told_number(runtime.read(t, from, index)),
        Command::Copy { t, to, from } => told_place(runtime.copy(t, to, from)),
        Command::Clear { t, local } => told_done(runtime.clear(t, local)),
        _ => unreachable!(),
    }
}
