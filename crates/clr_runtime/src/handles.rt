//! The lines that make, follow and free handles.
ghost use Rattle.std.specs.Prelude.{◌≡◌, ◌+◌, ◌<◌, ◌≤◌, ◌↔◌, Err, IfOk, IfSome, length, None, OnErr, true};
ghost use Rattle.std.specs.FinMap as finmap;
ghost use Rattle.clr_handles.specs.Tops.{pinned_in};
ghost use Rattle.clr_handles.specs.declared.fault.CreateFault.TheVariants as CreateFault;
ghost use Rattle.clr_model.specs.Lookups.{is_thread};
ghost use Rattle.clr_types.specs.Kinds.{is_dependent};
ghost use Rattle.clr_runtime.specs.Handles.{held_in};
ghost use Rattle.clr_runtime.specs.Outcomes.{refusal_of_create};

use crate::checks::index_of;
use crate::opening::SPARE_SAVES;
use crate::runtime::Runtime;
use clr_handles::{CreateFault, Handles, Kind};
use clr_mark::Marker;
use clr_model::Refusal;
use clr_pinq::PinQueue;

impl Runtime {
    ghost use Rattle.clr_model.specs.Instructions.{create_handle, fetch_second, fetch_target, free_handle};
    ghost use Rattle.clr_model.specs.LineGrammar.{IsHandleForm};
    ghost use Rattle.clr_model.specs.Run.{Follows};
    ghost use Rattle.clr_runtime.specs.Outcomes.{done_outcome, handle_outcome, place_outcome};

    /// Makes a handle whose target is what the local of thread `t` holds, and gives its number, one below 65,536 that
    /// wasn't in use. A dependent one also takes what local `second` holds; the other kinds have no second local.
    ///
    /// It is refused for a thread that may not go on, a local from 64 on, a null `local` where the kind is dependent
    /// (what `second` holds may be null), and where 65,536 handles are in use, in this order; then with `NoMemory`
    /// where there is no memory for it.
    pub fn handle(
        &mut self,
        t: u64,
        kind: Kind,
        local: u64,
        second: Option<u64>,
    ) -> Result<u64, Refusal>
        requires form { IsHandleForm kind second }
        ensures follows { Follows self.old.machine (create_handle t kind local second)
            (handle_outcome result) self.new.machine }
        ensures others { self.new ≡ record self.old { machine = self.new.machine } }
    {
        if let Some(refusal) = self.refused_names(t, local, second.unwrap_or(local)) {
            return Err(refusal);
        }
        let target = self.parts.roots.locals[index_of(t, local)];
        if kind.is_dependent() && target == 0 {
            return Err(Refusal::Null);
        }
        let other = held_by(&self.parts.roots.locals, t, second);
        match create_with_room(
            &mut self.parts.roots.handles,
            &mut self.parts.collector.pins,
            &mut self.parts.collector.marker,
            kind,
            target,
            other,
        ) {
            Ok(h) => Ok(h),
            Err(fault) => Err(refusal_of(fault)),
        }
    }

    /// Local `to` of thread `t` takes the target of handle `h`, and the call gives its place, 0 for null.
    ///
    /// It is refused for a thread that may not go on, a local from 64 on, and a number that isn't in use, in this
    /// order.
    pub fn fetch(&mut self, t: u64, to: u64, h: u64) -> Result<u64, Refusal>
        ensures follows { Follows self.old.machine (fetch_target t to h) (place_outcome result) self.new.machine }
        ensures others { self.new ≡ record self.old { machine = self.new.machine } }
    {
        if let Some(refusal) = self.refused_names(t, to, to) {
            return Err(refusal);
        }
        let Some(handle) = self.parts.roots.handles.get(h) else {
            return Err(Refusal::NoHandle);
        };
        self.parts.roots.locals[index_of(t, to)] = handle.target;
        Ok(handle.target)
    }

    /// Local `to` of thread `t` takes the second object of dependent handle `h`, and the call gives its place, 0 for
    /// null.
    ///
    /// It is refused as `fetch` is, and last for a handle of another kind.
    pub fn second(&mut self, t: u64, to: u64, h: u64) -> Result<u64, Refusal>
        ensures follows { Follows self.old.machine (fetch_second t to h) (place_outcome result) self.new.machine }
        ensures others { self.new ≡ record self.old { machine = self.new.machine } }
    {
        if let Some(refusal) = self.refused_names(t, to, to) {
            return Err(refusal);
        }
        let Some(handle) = self.parts.roots.handles.get(h) else {
            return Err(Refusal::NoHandle);
        };
        if !handle.kind.is_dependent() {
            return Err(Refusal::HandleKind);
        }
        self.parts.roots.locals[index_of(t, to)] = handle.second;
        Ok(handle.second)
    }

    /// Takes handle `h` out of use.
    ///
    /// It is refused for a thread that may not go on, and a number that isn't in use, in this order.
    pub fn free(&mut self, t: u64, h: u64) -> Result<(), Refusal>
        ensures follows { Follows self.old.machine (free_handle t h) (done_outcome result) self.new.machine }
        ensures others { self.new ≡ record self.old { machine = self.new.machine } }
    {
        if let Some(refusal) = self.refused_thread(t) {
            return Err(refusal);
        }
        let Ok(_) = self.parts.roots.handles.free(h) else {
            return Err(Refusal::NoHandle);
        };
        Ok(())
    }
}

// Makes a handle, as `create` does, and takes memory, so that a compaction can save words for each pinned one. Where
// there is none, the handle isn't made. It also takes memory, so that a marking can list each dependent one; where
// there is none, markings do without the list.
fn create_with_room(
    handles: &mut Handles,
    pins: &mut PinQueue,
    marker: &mut Marker,
    kind: Kind,
    target: u64,
    second: u64,
) -> Result<u64, CreateFault>
    requires { pinned_in handles.old + 4 ≤ pins.old.spare }
    ensures free { IfOk result (λ h. finmap.get handles.old h ≡ None) }
    ensures below { IfOk result (λ h. h < 65536) }
    ensures created { IfOk result (λ h. handles.new
        ≡ finmap.insert handles.old h (record { kind = kind; target = target; second = second })) }
    ensures too_many { (result ≡ Err CreateFault.TooManyHandles) ↔ (65536 ≤ finmap.len handles.old) }
    ensures err { OnErr result (handles.new ≡ handles.old) }
    ensures entries { pins.new.entries ≡ pins.old.entries }
    ensures room { pinned_in handles.new + 4 ≤ pins.new.spare }
    ensures marker { marker.new ≡ marker.old }
{
    let h = handles.create(kind, target, second)?;
    reserve_ties(marker, kind, h);
    match pins.reserve(handles.pinned_count() + SPARE_SAVES) {
        Ok(()) => Ok(h),
        Err(_) => {
            let _ = handles.free(h);
            Err(CreateFault::NoMemory)
        }
    }
}

// Takes memory, so that a marking can list the dependent handles up to number `h`, where that is one and there is any.
pub(crate) fn reserve_ties(marker: &mut Marker, kind: Kind, h: u64)
    requires { h < 65536 }
    ensures { marker.new ≡ marker.old }
{
    if kind.is_dependent() {
        let _ = marker.reserve_ties(h as usize + 1);
    }
}

// How a refusal of the table of handles is told.
fn refusal_of(fault: CreateFault) -> Refusal
    ensures { result ≡ refusal_of_create fault }
{
    match fault {
        CreateFault::TooManyHandles => Refusal::TooManyHandles,
        CreateFault::NoMemory => Refusal::NoMemory,
    }
}

// What a local of a thread holds, and null where none is named.
fn held_by(locals: &[u64], t: u64, local: Option<u64>) -> u64
    requires count { length locals.now ≡ 1024 }
    requires thread { is_thread t ≡ true }
    requires local { IfSome local (λ k. k < 64) }
    ensures { result ≡ held_in locals.now t local }
{
    match local {
        Some(k) => locals[index_of(t, k)],
        None => 0,
    }
}
