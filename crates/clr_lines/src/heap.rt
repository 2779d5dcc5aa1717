//! What a line does that defines a type, makes an object or collects: one call of the runtime.
ghost use Rattle.std.specs.Prelude.{◌≡◌, true};
ghost use Rattle.clr_model.specs.Instructions.{instruction_of};
ghost use Rattle.clr_model.specs.LineGrammar.{IsWellFormed};
ghost use Rattle.clr_model.specs.Run.{Follows};
ghost use Rattle.clr_lines.specs.CommandKinds.{is_on_heap};
ghost use Rattle.clr_lines.specs.Outcomes.{outcome_of, CanShow};

use crate::outcome::{Outcome, told_collected, told_done, told_mt, told_place};
use clr_model::Command;
use clr_runtime::Runtime;

/// Does what such a command says, and tells its outcome. A line that is refused leaves the state as it was, but for a
/// birth that finds no room after it collected: its collection stands.
#[inline(never)]
pub fn obey_heap(runtime: &mut Runtime, command: Command<'_>) -> Outcome
    requires heap { is_on_heap command ≡ true }
    requires formed { IsWellFormed (instruction_of command) }
    ensures follows { Follows runtime.old.machine (instruction_of command.entry)
        (outcome_of result) runtime.new.machine }
    ensures shows { CanShow result }
{
    match command {
        Command::Define {
            name,
            shape,
            finalizer,
        } => told_mt(runtime.define(name, shape, finalizer)),
        Command::New {
            t,
            local,
            name,
            len,
        } => told_place(runtime.new_object(t, local, name, len)),
        Command::NewPinned {
            t,
            local,
            name,
            len,
        } => told_place(runtime.new_pinned(t, local, name, len)),
        Command::Collect { t, g, how } => told_collected(runtime.collect(t, g, how)),
        Command::CompactLarge { t } => told_done(runtime.compact_large_once(t)),
        _ => unreachable!(),
    }
}
