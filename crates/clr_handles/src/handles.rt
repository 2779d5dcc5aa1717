// The table of handles.
ghost use Rattle.std.specs.Prelude.{◌≡◌, ℕ, ◌<◌, ◌↔◌, ◌≤◌, IfOk, IfSome, None, Some, Err, OnOk, OnErr};
ghost use Rattle.std.specs.Prelude.{false};
ghost use Rattle.std.specs.FinMap as finmap;
ghost use Rattle.clr_types.specs.declared.handle.Handle.{Handle as Row};
ghost use Rattle.clr_handles.specs.Tops.{HasNone, pinned_in};

use crate::kinds::number_of;
use crate::numbering::MOST_HANDLES;
use crate::rows::Rows;
use crate::tops::{CHUNK, grow, raise, reach_of};
use crate::{CreateFault, Handle, Kind, NoHandle, NoMemory};
use std::alloc::Global;
use std::marker::Model;

/// The handles in use, by their numbers. Contracts see it as that map.
///
/// Of each chunk of 64 numbers it keeps a bound on how high the places are that its handles name, so that a
/// collection of young objects needn't look at handles that name old ones.
#[derive(Drop)]
pub struct Handles {
    pub(crate) rows: Rows,
    pub(crate) tops: Vec<u64>,
    // How many there are of each kind.
    pub(crate) counts: [usize; 5],
}

impl Model for Handles {
    ghost use Rattle.std.specs.Prelude.{◌≡◌};
    ghost use Rattle.clr_types.specs.HandleCode.{handles_code};
    ghost use Rattle.clr_handles.specs.Tables.{Table};
    ghost use Rattle.clr_handles.specs.Tops.{AreCounts, AreTops};

    ghost Value = { Table };

    ghost coded = { handles_code };

    ghost view = { λ t. t.rows };

    ghost invariant = { λ t. AreTops t.rows t.tops.items × AreCounts t.rows t.counts };
}

impl Handles {
    /// No handles. Takes no memory.
    pub fn new(alloc: Global) -> Handles
        ensures { result ≡ finmap.empty }
    {
        Handles {
            rows: Rows::new(alloc),
            tops: Vec::new(alloc),
            counts: [0; 5],
        }
    }

    /// Makes a handle that names these places, 0 for null, and answers its number, one below 65,536 that wasn't in use.
    ///
    /// `TooManyHandles` comes exactly where 65,536 handles are in use, and `NoMemory` where there was no memory for
    /// another one. After a fault the table is as it was.
    pub fn create(&mut self, kind: Kind, target: u64, second: u64) -> Result<u64, CreateFault>
        ensures free { IfOk result (λ h. finmap.get self.old h ≡ None) }
        ensures below { IfOk result (λ h. h < 65536) }
        ensures created { IfOk result (λ h. self.new
            ≡ finmap.insert self.old h (record { kind = kind; target = target; second = second })) }
        ensures too_many { (result ≡ Err CreateFault.TooManyHandles) ↔ (65536 ≤ finmap.len self.old) }
        ensures err { OnErr result (self.new ≡ self.old) }
    {
        if self.rows.count() >= MOST_HANDLES {
            return Err(CreateFault::TooManyHandles);
        }
        let h = self.rows.vacant()?;
        let handle = Handle {
            kind,
            target,
            second,
        };
        self.restore(h, handle)?;
        Ok(h)
    }

    /// Makes the handle of this number, which isn't in use. Where there is no memory for it, the table is as it was.
    pub fn restore(&mut self, h: u64, handle: Handle) -> Result<(), NoMemory>
        requires free { finmap.get self.old h ≡ None }
        requires below { h < 65536 }
        ensures ok { OnOk result (self.new ≡ finmap.insert self.old h handle) }
        ensures err { OnErr result (self.new ≡ self.old) }
    {
        let chunk = (h / CHUNK) as usize;
        grow(&mut self.tops, chunk)?;
        self.rows.add_at(h, handle)?;
        let _ = self.rows.count();
        raise(&mut self.tops, chunk, reach_of(&handle));
        self.counts[number_of(handle.kind)] += 1;
        Ok(())
    }

    /// Nothing: a call for the evidence alone that each number in use is below 65,536.
    #[inline]
    pub fn lawful(&self)
        ensures { (h : ℕ) (row : Row) → finmap.get self.now h ≡ Some row → h < 65536 }
    {
        let _ = &self.rows;
    }

    /// The handle of a number. `None` where that isn't in use, as no number from 65,536 on is.
    pub fn get(&self, h: u64) -> Option<Handle>
        ensures value { result ≡ finmap.get self.now h }
        ensures below { IfSome result (λ _. h < 65536) }
    {
        self.rows.get(h)
    }

    /// Takes a handle out of use, and answers it. `NoHandle` comes exactly where the number isn't in use; then the
    /// table stays as it is.
    pub fn free(&mut self, h: u64) -> Result<Handle, NoHandle>
        ensures freed { IfOk result (λ row. finmap.get self.old h ≡ Some row) }
        ensures err { OnErr result (finmap.get self.old h ≡ None) }
        ensures table { self.new ≡ finmap.remove self.old h }
    {
        let Some(handle) = self.rows.remove(h) else {
            return Err(NoHandle);
        };
        self.counts[number_of(handle.kind)] -= 1;
        Ok(handle)
    }

    /// How many pinned handles are in use.
    pub fn pinned_count(&self) -> usize
        ensures { result ≡ pinned_in self.now }
    {
        self.counts[1]
    }

    /// Whether any handle of a kind is in use. A pass that looks for handles of a kind needn't be made where none is.
    pub fn has_kind(&self, kind: Kind) -> bool
        ensures { result ≡ false → HasNone kind self.now }
    {
        self.counts[number_of(kind)] > 0
    }
}
