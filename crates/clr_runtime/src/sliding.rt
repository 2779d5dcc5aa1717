//! The line that asks for a slide of the large heap.
ghost use Rattle.std.specs.Prelude.{◌≡◌};
ghost use Rattle.clr_model.specs.Instructions.{compact_large_once};
ghost use Rattle.clr_model.specs.Run.{Follows};
ghost use Rattle.clr_runtime.specs.Outcomes.{done_outcome};

use crate::runtime::Runtime;
use clr_model::Refusal;

impl Runtime {
    /// The next collection of all generations compacts large segments, whether it compacts the small heap or sweeps
    /// it: what isn't pinned there goes down to where it fits. That collection alone does, whatever asks for it; until
    /// then this line changes nothing where it was obeyed before.
    ///
    /// It is refused for an unknown thread, with `Blocked` where another thread holds all others and this one isn't in
    /// mid-step, and with `MidStep` where the thread is in mid-step, in this order. It takes no memory.
    pub fn compact_large_once(&mut self, t: u64) -> Result<(), Refusal>
        ensures follows { Follows self.old.machine (compact_large_once t) (done_outcome result) self.new.machine }
        ensures others { self.new ≡ record self.old { machine = self.new.machine } }
    {
        if let Some(refusal) = self.refused_thread(t) {
            return Err(refusal);
        }
        self.parts.collector.compacts_large = true;
        Ok(())
    }
}
