//! The lines that read and write slots and locals.
ghost use Rattle.std.specs.Prelude.{◌≡◌, ◌≢◌, ◌≤◌, length};
ghost use Rattle.clr_types.specs.Types.{form_at};
ghost use Rattle.clr_model.specs.Step.{stored_number};
ghost use Rattle.clr_view.specs.View.{IsHeld};
ghost use Rattle.clr_view.specs.SlotValues.{StandsAt};
ghost use Rattle.clr_runtime.specs.Slots.{IsFound};

use crate::checks::index_of;
use crate::runtime::Runtime;
use clr_generations::set_reference;
use clr_heap::{Heap, Item};
use clr_model::Refusal;
use clr_types::{Shape, Slot, TypeId, Types};
use clr_view::{object_item, set_slot_value, slot_value};

/// A slot of an object, and what its type says of it.
#[derive(Clone, Copy)]
pub struct FoundSlot {
    pub(crate) item: Item,
    pub(crate) slot: Slot,
}

impl Runtime {
    ghost use Rattle.clr_model.specs.Instructions.{clear_local, copy_local, get_slot, put_number, read_number};
    ghost use Rattle.clr_model.specs.Instructions.{set_slot};
    ghost use Rattle.clr_model.specs.Run.{Follows};
    ghost use Rattle.clr_runtime.specs.Outcomes.{done_outcome, number_outcome, place_outcome};

    /// Local `to` of thread `t` takes what slot `index` of the object of local `from` names, and the call gives its
    /// place, 0 for null.
    ///
    /// It is refused for a thread that may not go on, a local from 64 on, a null local, an index that no slot of the
    /// object has, and a slot that holds a number, in this order.
    #[inline(always)]
    pub fn get(&mut self, t: u64, to: u64, from: u64, index: u64) -> Result<u64, Refusal>
        ensures follows { Follows self.old.machine (get_slot t to from index) (place_outcome result) self.new.machine }
        ensures others { self.new ≡ record self.old { machine = self.new.machine } }
    {
        if let Some(refusal) = self.refused_names(t, to, from) {
            return Err(refusal);
        }
        let place = self.parts.roots.locals[index_of(t, from)];
        let found = match find_slot(
            &self.parts.space.heap,
            &self.parts.types,
            place,
            index,
            true,
        ) {
            Ok(found) => found,
            Err(refusal) => return Err(refusal),
        };
        let name = slot_value(
            &self.parts.space.heap,
            &self.parts.types,
            &found.item,
            found.slot,
        );
        self.parts.roots.locals[index_of(t, to)] = name;
        Ok(name)
    }

    /// Slot `index` of the object of local `into` of thread `t` takes what local `from` holds.
    ///
    /// It is refused as `get` is.
    #[inline(always)]
    pub fn set(&mut self, t: u64, into: u64, index: u64, from: u64) -> Result<(), Refusal>
        ensures follows { Follows self.old.machine (set_slot t into index from) (done_outcome result) self.new.machine }
        ensures others { self.new ≡ record self.old { machine = self.new.machine } }
    {
        if let Some(refusal) = self.refused_names(t, into, from) {
            return Err(refusal);
        }
        let place = self.parts.roots.locals[index_of(t, into)];
        let found = match find_slot(
            &self.parts.space.heap,
            &self.parts.types,
            place,
            index,
            true,
        ) {
            Ok(found) => found,
            Err(refusal) => return Err(refusal),
        };
        let name = self.parts.roots.locals[index_of(t, from)];
        set_reference(
            &mut self.parts.space.heap,
            &self.parts.types,
            &mut self.parts.space.cards,
            &found.item,
            found.slot,
            name,
        );
        self.parts
            .background
            .wrote(found.item.place + found.slot.offset);
        Ok(())
    }

    /// Number slot `index` of the object of local `into` of thread `t` takes a number, a byte the number modulo 256.
    ///
    /// It is refused as `get` is, but for a slot that holds a reference.
    #[inline(always)]
    pub fn put(&mut self, t: u64, into: u64, index: u64, value: u64) -> Result<(), Refusal>
        ensures follows { Follows self.old.machine (put_number t into index value)
            (done_outcome result) self.new.machine }
        ensures others { self.new ≡ record self.old { machine = self.new.machine } }
    {
        if let Some(refusal) = self.refused_names(t, into, into) {
            return Err(refusal);
        }
        let place = self.parts.roots.locals[index_of(t, into)];
        let found = match find_slot(
            &self.parts.space.heap,
            &self.parts.types,
            place,
            index,
            false,
        ) {
            Ok(found) => found,
            Err(refusal) => return Err(refusal),
        };
        let number = narrowed(&self.parts.types, found.item.type_id, value);
        set_slot_value(
            &mut self.parts.space.heap,
            &self.parts.types,
            &found.item,
            found.slot,
            number,
        );
        Ok(())
    }

    /// The number in slot `index` of the object of local `from` of thread `t`. Nothing changes.
    ///
    /// It is refused as `put` is.
    #[inline(always)]
    pub fn read(&self, t: u64, from: u64, index: u64) -> Result<u64, Refusal>
        ensures { Follows self.now.machine (read_number t from index) (number_outcome result) self.now.machine }
    {
        if let Some(refusal) = self.refused_names(t, from, from) {
            return Err(refusal);
        }
        let place = self.parts.roots.locals[index_of(t, from)];
        match find_slot(
            &self.parts.space.heap,
            &self.parts.types,
            place,
            index,
            false,
        ) {
            Ok(found) => Ok(slot_value(
                &self.parts.space.heap,
                &self.parts.types,
                &found.item,
                found.slot,
            )),
            Err(refusal) => Err(refusal),
        }
    }

    /// Local `to` of thread `t` takes what local `from` holds, and the call gives its place, 0 for null.
    ///
    /// It is refused for a thread that may not go on and a local from 64 on, in this order.
    #[inline(always)]
    pub fn copy(&mut self, t: u64, to: u64, from: u64) -> Result<u64, Refusal>
        ensures follows { Follows self.old.machine (copy_local t to from) (place_outcome result) self.new.machine }
        ensures others { self.new ≡ record self.old { machine = self.new.machine } }
    {
        if let Some(refusal) = self.refused_names(t, to, from) {
            return Err(refusal);
        }
        let held = self.parts.roots.locals[index_of(t, from)];
        self.parts.roots.locals[index_of(t, to)] = held;
        Ok(held)
    }

    /// The local of thread `t` becomes null. This is the line `null`.
    ///
    /// It is refused as `copy` is.
    #[inline(always)]
    pub fn clear(&mut self, t: u64, local: u64) -> Result<(), Refusal>
        ensures follows { Follows self.old.machine (clear_local t local) (done_outcome result) self.new.machine }
        ensures others { self.new ≡ record self.old { machine = self.new.machine } }
    {
        if let Some(refusal) = self.refused_names(t, local, local) {
            return Err(refusal);
        }
        self.parts.roots.locals[index_of(t, local)] = 0;
        Ok(())
    }
}

// Slot `index` of the object at a place, where it holds a reference or a number, as is wanted; else the first of the
// checks that fails.
#[inline(always)]
pub(crate) fn find_slot(
    heap: &Heap,
    types: &Types,
    place: u64,
    index: u64,
    reference: bool,
) -> Result<FoundSlot, Refusal>
    requires held { IsHeld types.now heap.now }
    requires object { place ≢ 0 → StandsAt types.now heap.now place }
    ensures { IsFound types.now heap.now place index reference result }
{
    if place == 0 {
        return Err(Refusal::Null);
    }
    let item = object_item(heap, types, place);
    if index >= types.slot_count(item.type_id, item.len) {
        return Err(Refusal::Index);
    }
    let slot = types.slot(item.type_id, item.len, index);
    if slot.reference == reference {
        Ok(FoundSlot { item, slot })
    } else if reference {
        Err(Refusal::NotReference)
    } else {
        Err(Refusal::IsReference)
    }
}

// What a number slot of an object of this type keeps of a number: all of it, but a byte its lowest eight bits.
#[inline(always)]
fn narrowed(types: &Types, t: TypeId, value: u64) -> u64
    requires { t.0 ≤ length types.now }
    ensures { result ≡ stored_number (form_at types.now t.0) value }
{
    match types.shape(t) {
        Shape::ByteArray => value % 256,
        Shape::Class(_) | Shape::RefArray | Shape::StructArray(_) => value,
    }
}
