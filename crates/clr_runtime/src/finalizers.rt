//! The lines on finalisers: suppressed, asked for again, and waiting objects taken.
ghost use Rattle.std.specs.Prelude.{◌≡◌};

use crate::checks::index_of;
use crate::runtime::Runtime;
use clr_model::Refusal;
use clr_view::{is_final, is_suppressed, set_suppressed};

impl Runtime {
    ghost use Rattle.clr_model.specs.Instructions.{reregister_object, suppress_object, take_ready};
    ghost use Rattle.clr_model.specs.Run.{Follows};
    ghost use Rattle.clr_runtime.specs.Outcomes.{done_outcome, place_outcome};

    /// A collection that finds the object of the local of thread `t` dead drops its entries in place of waking them,
    /// and the suppression with them. What waits for its finaliser already still waits. Nothing changes where its
    /// type has no finaliser.
    ///
    /// It is refused for a thread that may not go on, a local from 64 on, and a null local, in this order.
    pub fn suppress(&mut self, t: u64, local: u64) -> Result<(), Refusal>
        ensures follows { Follows self.old.machine (suppress_object t local) (done_outcome result) self.new.machine }
        ensures others { self.new ≡ record self.old { machine = self.new.machine } }
    {
        if let Some(refusal) = self.refused_names(t, local, local) {
            return Err(refusal);
        }
        let place = self.parts.roots.locals[index_of(t, local)];
        if place == 0 {
            return Err(Refusal::Null);
        }
        if !is_final(&self.parts.space.heap, &self.parts.types, place) {
            return Ok(());
        }
        set_suppressed(&mut self.parts.space.heap, &self.parts.types, place, true);
        Ok(())
    }

    /// Takes a suppression of the finaliser of the object of the local of thread `t` back, where one stands. Where none
    /// does, the object gets one more entry, behind the others. Nothing changes where its type has no finaliser.
    ///
    /// It is refused as `suppress` is; then with `NoMemory` where it would get an entry, and there is no memory for it.
    pub fn reregister(&mut self, t: u64, local: u64) -> Result<(), Refusal>
        ensures follows { Follows self.old.machine (reregister_object t local) (done_outcome result) self.new.machine }
        ensures others { self.new ≡ record self.old { machine = self.new.machine } }
    {
        if let Some(refusal) = self.refused_names(t, local, local) {
            return Err(refusal);
        }
        let place = self.parts.roots.locals[index_of(t, local)];
        if place == 0 {
            return Err(Refusal::Null);
        }
        if !is_final(&self.parts.space.heap, &self.parts.types, place) {
            return Ok(());
        }
        if is_suppressed(&self.parts.space.heap, &self.parts.types, place) {
            set_suppressed(&mut self.parts.space.heap, &self.parts.types, place, false);
            return Ok(());
        }
        let owed = self.parts.safe.births_owed();
        let Ok(()) = self.parts.roots.finals.reserve(owed + 1) else {
            return Err(Refusal::NoMemory);
        };
        self.parts.roots.finals.register(place);
        Ok(())
    }

    /// Local `to` of thread `t` takes the first object of the f-reachable queue, which the queue loses, and the call
    /// gives its place.
    ///
    /// It is refused for a thread that may not go on, a local from 64 on, and an empty queue, in this order.
    pub fn finalizer(&mut self, t: u64, to: u64) -> Result<u64, Refusal>
        ensures follows { Follows self.old.machine (take_ready t to) (place_outcome result) self.new.machine }
        ensures others { self.new ≡ record self.old { machine = self.new.machine } }
    {
        if let Some(refusal) = self.refused_names(t, to, to) {
            return Err(refusal);
        }
        let Some(place) = self.parts.roots.finals.next() else {
            return Err(Refusal::Empty);
        };
        self.parts.roots.locals[index_of(t, to)] = place;
        Ok(place)
    }
}
