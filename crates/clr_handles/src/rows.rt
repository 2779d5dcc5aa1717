// The handles in use, each in a slot of a slab.
ghost use Rattle.std.specs.Prelude.{◌≡◌, ◌<◌, IsSome, IfOk, IfSome, None, OnOk, OnErr};
ghost use Rattle.std.specs.FinMap as finmap;

use crate::numbering::{MOST_HANDLES, Numbering};
use crate::{Handle, NoMemory};
use slab::Slab;
use std::alloc::Global;
use std::marker::Model;

/// The handles by their numbers. Each stands in a slot of the slab, under the key of its number.
#[derive(Drop)]
pub(crate) struct Rows {
    slots: Slab<Handle>,
    numbering: Numbering,
    alloc: Global,
}

impl Model for Rows {
    ghost use Rattle.clr_types.specs.HandleCode.{handles_code};
    ghost use Rattle.clr_handles.specs.Tables.{Table, table_of, AreRows};

    ghost Value = { Table };

    ghost coded = { handles_code };

    ghost view = { λ r. table_of r.slots r.numbering };

    ghost invariant = { λ r. AreRows r.slots r.numbering };
}

impl Rows {
    /// No handle. Takes no memory.
    pub(crate) fn new(alloc: Global) -> Rows
        ensures { result ≡ finmap.empty }
    {
        Rows {
            slots: Slab::new(alloc),
            numbering: Numbering::new(alloc),
            alloc,
        }
    }

    /// How many numbers are in use.
    pub(crate) fn count(&self) -> usize
        ensures { result ≡ finmap.len self.now }
    {
        self.slots.len()
    }

    /// The handle of a number.
    pub(crate) fn get(&self, h: u64) -> Option<Handle>
        ensures value { result ≡ finmap.get self.now h }
        ensures below { IfSome result (λ _. h < 65536) }
    {
        self.slots.get(self.numbering.key_of(h as usize)).copied()
    }

    /// A number that isn't in use: the one that was given back last, where any is. `NoMemory` where the slab has no
    /// slot for it.
    pub(crate) fn vacant(&self) -> Result<u64, NoMemory>
        ensures free { IfOk result (λ h. finmap.get self.now h ≡ None) }
        ensures below { IfOk result (λ h. h < 65536) }
    {
        let number = self.numbering.number_of(self.slots.vacant_key());
        if number >= MOST_HANDLES {
            return Err(NoMemory);
        }
        Ok(number as u64)
    }

    /// Gives the handle this number. Where there is no memory for it, nothing changes.
    pub(crate) fn add_at(&mut self, h: u64, row: Handle) -> Result<(), NoMemory>
        requires free { finmap.get self.old h ≡ None }
        requires below { h < 65536 }
        ensures ok { OnOk result (self.new ≡ finmap.insert self.old h row) }
        ensures err { OnErr result (self.new ≡ self.old) }
    {
        self.slots.reserve(1)?;
        let key = self.slots.vacant_key();
        let _ = self.numbering.key_of(h as usize);
        self.numbering.assign(self.alloc, h as usize, key)?;
        let _ = self.numbering.key_of(h as usize);
        self.slots.insert_reserved(row);
        Ok(())
    }

    /// Takes a handle out, where the number is in use.
    pub(crate) fn remove(&mut self, h: u64) -> Option<Handle>
        ensures value { result ≡ finmap.get self.old h }
        ensures removed { self.new ≡ finmap.remove self.old h }
    {
        self.slots.try_remove(self.numbering.key_of(h as usize))
    }

    /// Changes the handle of a number in use.
    pub(crate) fn set(&mut self, h: u64, row: Handle)
        requires { IsSome (finmap.get self.old h) }
        ensures { self.new ≡ finmap.insert self.old h row }
    {
        let key = self.numbering.key_of(h as usize);
        self.slots[key] = row;
    }
}
