//! What a line on a background collection does: one call of the runtime.
ghost use Rattle.std.specs.Prelude.{◌≡◌, true};
ghost use Rattle.clr_model.specs.Instructions.{instruction_of};
ghost use Rattle.clr_model.specs.Run.{Follows};
ghost use Rattle.clr_lines.specs.CommandKinds.{is_in_background};
ghost use Rattle.clr_lines.specs.Outcomes.{outcome_of, CanShow};

use crate::outcome::{Outcome, told_collected, told_done, told_scanned};
use clr_model::Command;
use clr_runtime::Runtime;

/// Does what such a command says, and tells its outcome. A line that is refused leaves the state as it was.
#[inline(never)]
pub fn obey_background(runtime: &mut Runtime, command: Command<'_>) -> Outcome
    requires background { is_in_background command ≡ true }
    ensures follows { Follows runtime.old.machine (instruction_of command.entry)
        (outcome_of result) runtime.new.machine }
    ensures shows { CanShow result }
{
    match command {
        Command::BackgroundBegin { t } => told_done(runtime.begin_background(t)),
        Command::BackgroundStep { n } => told_scanned(runtime.step_background(n)),
        Command::BackgroundEnd { t } => told_collected(runtime.end_background(t)),
        _ => unreachable!(),
    }
}
