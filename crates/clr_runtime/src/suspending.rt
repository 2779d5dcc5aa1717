//! The lines by which a thread holds all others, and lets them go.
ghost use Rattle.std.specs.Prelude.{◌≡◌};

use crate::runtime::Runtime;
use clr_model::Refusal;

impl Runtime {
    ghost use Rattle.clr_model.specs.Instructions.{resume_others, suspend_others};
    ghost use Rattle.clr_model.specs.Run.{Follows};
    ghost use Rattle.clr_runtime.specs.Outcomes.{done_outcome};

    /// Thread `t` holds all others from now on: each of their lines is refused, but for the `step` of one that is in
    /// mid-step. Where it holds them already, nothing changes.
    ///
    /// It is refused for an unknown thread, with `Blocked` where another thread holds all others and this one isn't in
    /// mid-step, and with `MidStep` where the thread is in mid-step, in this order.
    pub fn suspend(&mut self, t: u64) -> Result<(), Refusal>
        ensures follows { Follows self.old.machine (suspend_others t) (done_outcome result) self.new.machine }
        ensures others { self.new ≡ record self.old { machine = self.new.machine } }
    {
        if let Some(refusal) = self.refused_thread(t) {
            return Err(refusal);
        }
        self.parts.safe.suspend(t);
        Ok(())
    }

    /// Thread `t` lets all others go. Where no thread holds them, nothing changes.
    ///
    /// It is refused as `suspend` is.
    pub fn resume(&mut self, t: u64) -> Result<(), Refusal>
        ensures follows { Follows self.old.machine (resume_others t) (done_outcome result) self.new.machine }
        ensures others { self.new ≡ record self.old { machine = self.new.machine } }
    {
        if let Some(refusal) = self.refused_thread(t) {
            return Err(refusal);
        }
        self.parts.safe.resume();
        Ok(())
    }
}
