//! The lines that begin a step and finish it: a store whose card is set later, and an object that is born later.
ghost use Rattle.std.specs.Prelude.{◌≡◌, ◌+◌, ◌<◌, ◌≤◌, None, Some, true, false};
ghost use Rattle.clr_model.specs.Instructions.{finish_step};
ghost use Rattle.clr_model.specs.Lookups.{is_step, is_thread, step_of};
ghost use Rattle.clr_model.specs.Outcomes.{answered};
ghost use Rattle.clr_model.specs.Run.{Follows};
ghost use Rattle.clr_model.specs.declared.Reply.TheVariants.{Done, Place};
ghost use Rattle.clr_safe.specs.Threads.{begun_by, births_owed};
ghost use Rattle.clr_safe.specs.declared.begun.Begun.TheVariants.{Birth, Store};
ghost use Rattle.clr_runtime.specs.Births.{IsAsked};
ghost use Rattle.clr_runtime.specs.Checks.{thread_refusal};
ghost use Rattle.clr_runtime.specs.RuntimeView.{IsRuntime, seen};
ghost use Rattle.clr_runtime.specs.Slides.{Grew};
ghost use Rattle.clr_runtime.specs.Steps.{finish_refusal, FollowsBegun};

use crate::births::{Request, measure, refusal_of, register_entry, reserve_entry};
use crate::checks::{index_of, is_known};
use crate::parts::Parts;
use crate::rooms::make_room;
use crate::runtime::Runtime;
use crate::slots::find_slot;
use clr_generations::allocate;
use clr_model::Refusal;
use clr_safe::Begun;
use clr_types::TypeId;
use clr_view::{object_item, set_slot_value};

impl Runtime {
    ghost use Rattle.clr_model.specs.Instructions.{begin_new, begin_set};
    ghost use Rattle.clr_runtime.specs.Outcomes.{done_outcome};
    ghost use Rattle.clr_runtime.specs.Steps.{step_outcome};

    /// Slot `index` of the object of local `into` of thread `t` takes what local `from` holds, and the card of the slot
    /// is set by the `step` of this thread. Until then the thread is in mid-step: each other line of it is refused, and
    /// no line collects.
    ///
    /// It is refused as `set` is.
    pub fn begin_set(&mut self, t: u64, into: u64, index: u64, from: u64) -> Result<(), Refusal>
        ensures follows { Follows self.old.machine (begin_set t into index from)
            (done_outcome result) self.new.machine }
        ensures others { self.new ≡ record self.old { machine = self.new.machine } }
    {
        if let Some(refusal) = self.refused_names(t, into, from) {
            return Err(refusal);
        }
        let place = self.parts.roots.locals[index_of(t, into)];
        let found = match find_slot(
            &self.parts.space.heap,
            &self.parts.types,
            place,
            index,
            true,
        ) {
            Ok(found) => found,
            Err(refusal) => return Err(refusal),
        };
        let name = self.parts.roots.locals[index_of(t, from)];
        set_slot_value(
            &mut self.parts.space.heap,
            &self.parts.types,
            &found.item,
            found.slot,
            name,
        );
        self.parts.safe.begin(
            t,
            Begun::Store {
                object: place,
                slot: index,
            },
        );
        Ok(())
    }

    /// Makes room for an object of the type of this name, with `len` elements where it is an array, in the context of
    /// thread `t`. The object is born by the `step` of this thread, and the local takes it then. Until then the thread
    /// is in mid-step: each other line of it is refused, and no line collects.
    ///
    /// It is refused as `new_object` is, but with `TooBig` already from the bytes of the option `large` on. So it finds
    /// room in the steps in which `new_object` finds it for such an object.
    pub fn begin_new(
        &mut self,
        t: u64,
        local: u64,
        name: &[u8],
        len: Option<u64>,
    ) -> Result<(), Refusal>
        ensures follows { Follows self.old.machine (begin_new t local name.now len)
            (done_outcome result) self.new.machine }
        ensures grew { result ≡ Err Refusal.Oom → Grew self.old.slides self.new.slides }
        ensures stack { self.new.stack ≡ self.old.stack }
    {
        if let Some(refusal) = self.refused_thread(t) {
            return Err(refusal);
        }
        let request = match measure(&self.parts.types, local, name, None, len) {
            Ok(request) => request,
            Err(refusal) => return Err(refusal),
        };
        let large = self.parts.options.large;
        if request.size >= large {
            return Err(Refusal::TooBig);
        }
        let owed = self.parts.safe.births_owed();
        let Ok(()) = reserve_entry(&mut self.parts.roots.finals, owed, request.finalizer) else {
            return Err(Refusal::NoMemory);
        };
        begin_small(&mut self.parts, t, local, request)
    }

    /// Finishes what thread `t` has begun, whoever holds it. Of a store that is the card of its slot, and the answer is
    /// `None`. Of an object it is the birth, and the answer is its place, which the local takes. It takes no memory:
    /// room for the object and for its entry was made before.
    ///
    /// It is refused for an unknown thread, with `Blocked` where another thread holds all others and this one isn't in
    /// mid-step, and with `NotMidStep` where it isn't, in this order.
    pub fn step(&mut self, t: u64) -> Result<Option<u64>, Refusal>
        ensures follows { Follows self.old.machine (finish_step t) (step_outcome result) self.new.machine }
        ensures others { self.new ≡ record self.old { machine = self.new.machine } }
    {
        if !is_known(t) {
            return Err(Refusal::UnknownThread);
        }
        match self.parts.safe.begun(t) {
            Begun::Nothing => Err(self.refused_idle(t)),
            Begun::Store { object, slot } => {
                finish_store(&mut self.parts, t, object, slot);
                Ok(None)
            }
            Begun::Birth {
                type_id,
                len,
                local,
                finalizer,
            } => {
                let place = finish_birth(&mut self.parts, t, type_id, len, local, finalizer);
                Ok(Some(place))
            }
        }
    }

    // Why a thread that isn't in mid-step has no step to finish.
    fn refused_idle(&self, t: u64) -> Refusal
        requires thread { is_thread t ≡ true }
        requires idle { is_step (step_of self.now.machine t) ≡ false }
        ensures { finish_refusal self.now.machine t ≡ Some result }
    {
        match self.parts.safe.holder() {
            Some(h) if h != t => Refusal::Blocked(h as u32),
            _ => Refusal::NotMidStep,
        }
    }
}

// Makes room for a small object in the context of thread `t`, which has begun the object then. There is room for its
// entry. It is refused as `begin_new` is, once room was sought.
fn begin_small(parts: &mut Parts, t: u64, local: u64, request: Request) -> Result<(), Refusal>
    requires runtime { IsRuntime parts.old }
    requires passed { thread_refusal (seen parts.old) t ≡ None }
    requires asked { IsAsked parts.old.types local request }
    requires entry { request.finalizer ≡ true → births_owed parts.old.safe + 1 ≤ parts.old.roots.finals.spare }
    requires small { request.size < parts.old.options.large }
    ensures begun { FollowsBegun parts.old parts.new t local request result }
    ensures grew { result ≡ Err Refusal.Oom → Grew parts.old.collector.slides parts.new.collector.slides }
    ensures stack { parts.new.collector.marker.capacity ≡ parts.old.collector.marker.capacity }
    ensures runtime { IsRuntime parts.new }
{
    if let Err(why) = make_room(parts, t as usize, request.size) {
        return Err(refusal_of(why));
    }
    parts.safe.begin(
        t,
        Begun::Birth {
            type_id: request.type_id,
            len: request.len,
            local,
            finalizer: request.finalizer,
        },
    );
    Ok(())
}

// Sets the card of the slot into which thread `t` has stored, whatever the slot holds by now, and tells a background
// collection of the store.
fn finish_store(parts: &mut Parts, t: u64, object: u64, index: u64)
    requires runtime { IsRuntime parts.old }
    requires thread { is_thread t ≡ true }
    requires begun { begun_by parts.old.safe t ≡ Store object index }
    ensures finished { Follows (seen parts.old) (finish_step t) (answered Done) (seen parts.new) }
    ensures runtime { IsRuntime parts.new }
    ensures collector { parts.new.collector ≡ parts.old.collector }
{
    let item = object_item(&parts.space.heap, &parts.types, object);
    let slot = parts.types.slot(item.type_id, item.len, index);
    let address = item.place + slot.offset;
    parts.space.cards.set(address);
    parts.background.wrote(address);
    parts.safe.end(t);
}

// Makes the object that thread `t` has begun, which its local takes, at the front of the thread's context.
fn finish_birth(
    parts: &mut Parts,
    t: u64,
    type_id: TypeId,
    len: u64,
    local: u64,
    finalizer: bool,
) -> u64
    requires runtime { IsRuntime parts.old }
    requires thread { is_thread t ≡ true }
    requires begun { begun_by parts.old.safe t ≡ Birth type_id len local finalizer }
    ensures finished { Follows (seen parts.old) (finish_step t) (answered (Place result)) (seen parts.new) }
    ensures runtime { IsRuntime parts.new }
    ensures collector { parts.new.collector ≡ parts.old.collector }
{
    let size = parts.types.item_size(type_id, len);
    let place = allocate(
        &mut parts.space.heap,
        &parts.types,
        &mut parts.space.bricks,
        t as usize,
        type_id,
        len,
        size,
    );
    register_entry(&mut parts.roots.finals, finalizer, place);
    parts.roots.locals[index_of(t, local)] = place;
    parts.sums.spent0 += size;
    parts.safe.end(t);
    place
}
