// The finalisation queue.
ghost use Rattle.std.specs.Prelude.{◌≡◌, ℕ, ◌+◌, ◌<◌, ◌≤◌, ◌++◌, [], ◌∷◌, length, IfNone, OnErr, OnOk, true};
ghost use Rattle.std.specs.Prelude.{option_to_list, slice_index};
ghost use Rattle.clr_final.specs.Queues.{HasAllFrom};

use crate::NoMemory;
use crate::moving::later;
use crate::places::Places;
use std::alloc::Global;
use std::marker::Model;

/// The objects that are to be finalised once they die (the entries), and those that wait for their finaliser (the
/// f-reachable ones). Both are places in order, and a place may stand in either list more than once.
///
/// `spare` tells how many more entries there is room for. There always is room to move each entry to the f-reachable
/// ones, so that a collection takes no memory.
#[derive(Drop)]
pub struct Finals {
    pub(crate) entries: Places,
    pub(crate) ready: Places,
    // How many of `ready` are taken already.
    pub(crate) taken: usize,
}

impl Model for Finals {
    ghost use Rattle.clr_final.specs.Queues.{Queues, queues, AreQueues};

    ghost Value = { Queues };

    ghost view = { λ f. queues f.entries f.ready f.taken };

    ghost invariant = { λ f. AreQueues f.entries f.ready f.taken };
}

impl Finals {
    /// An empty queue. Takes no memory.
    pub fn new(alloc: Global) -> Finals
        ensures { result ≡ record { entries = []; ready = []; spare = 0 } }
    {
        Finals {
            entries: Places::new(alloc),
            ready: Places::new(alloc),
            taken: 0,
        }
    }

    /// Makes room for `n` more entries, at once where there is room. `NoMemory` comes where there was none for them;
    /// some room may have been made then. Both lists stay in any case, and there never is less room.
    #[inline]
    pub fn reserve(&mut self, n: usize) -> Result<(), NoMemory>
        ensures ok { OnOk result (n ≤ self.new.spare) }
        ensures entries { self.new.entries ≡ self.old.entries }
        ensures ready { self.new.ready ≡ self.old.ready }
        ensures spare { self.old.spare ≤ self.new.spare }
    {
        if self.has_room(n) {
            return Ok(());
        }
        self.grow(n)
    }

    // Whether there is room for `n` more entries, and among the f-reachable places for all that there may be.
    #[inline]
    fn has_room(&self, n: usize) -> bool
        ensures { result ≡ true → n ≤ self.now.spare }
    {
        n <= self.entries.room() && self.entries.capacity() <= self.ready.room()
    }

    // Makes room for `n` more entries.
    #[inline(never)]
    fn grow(&mut self, n: usize) -> Result<(), NoMemory>
        ensures ok { OnOk result (n ≤ self.new.spare) }
        ensures entries { self.new.entries ≡ self.old.entries }
        ensures ready { self.new.ready ≡ self.old.ready }
        ensures spare { self.old.spare ≤ self.new.spare }
    {
        self.entries.reserve(n)?;
        let needed = self.entries.capacity();
        if self.ready.room() < needed {
            // what is taken is given back where that is at least half
            if self.taken >= self.ready.len() - self.taken {
                self.ready.remove_front(self.taken);
                self.taken = 0;
            }
            self.ready.reserve(needed)?;
        }
        Ok(())
    }

    /// Adds an entry for the object at this place, for which there is room.
    #[inline(never)]
    pub fn register(&mut self, obj: u64)
        requires { 1 ≤ self.old.spare }
        ensures entries { self.new.entries ≡ self.old.entries ++ obj ∷ [] }
        ensures ready { self.new.ready ≡ self.old.ready }
        ensures spare { self.new.spare + 1 ≡ self.old.spare }
    {
        self.entries.push(obj);
    }

    /// The entries, in order.
    pub fn entries(&self) -> &[u64]
        ensures { result.now ≡ self.now.entries }
    {
        self.entries.as_slice()
    }

    /// The f-reachable places, in order.
    pub fn ready(&self) -> &[u64]
        ensures { result.now ≡ self.now.ready }
    {
        &self.ready.as_slice()[self.taken..]
    }

    /// The f-reachable places, in order, but for some at the front that are known to lie below `low`.
    pub fn ready_from(&self, low: u64) -> &[u64]
        ensures { HasAllFrom low self.now.ready result.now }
    {
        let first = later(self.ready.settled(low), self.taken);
        &self.ready.as_slice()[first..]
    }

    /// How many entries at the front are known to lie below `low`. It may be fewer than there are.
    pub fn settled(&self, low: u64) -> usize
        ensures within { result ≤ length self.now.entries }
        ensures below { (i : ℕ) → i < result → slice_index self.now.entries i < low }
    {
        self.entries.settled(low)
    }

    /// Takes the first f-reachable place. `None` comes exactly where there is none. The entries stay, and there isn't
    /// less room.
    pub fn next(&mut self) -> Option<u64>
        ensures taken { self.old.ready ≡ option_to_list result ++ self.new.ready }
        ensures none { IfNone result (self.old.ready ≡ []) }
        ensures entries { self.new.entries ≡ self.old.entries }
        ensures spare { self.old.spare ≤ self.new.spare }
    {
        if self.taken == self.ready.len() {
            return None;
        }
        let place = self.ready.get(self.taken);
        self.taken += 1;
        if self.taken == self.ready.len() {
            self.ready.truncate(0);
            self.taken = 0;
        }
        Some(place)
    }

    /// Puts in both lists, of a queue that has none. `NoMemory` comes where there was none for them; the queue still
    /// has none then.
    pub fn restore(&mut self, entries: &[u64], ready: &[u64]) -> Result<(), NoMemory>
        requires entries { self.old.entries ≡ [] }
        requires ready { self.old.ready ≡ [] }
        ensures ok { OnOk result (self.new.entries ≡ entries.now) }
        ensures ok_ready { OnOk result (self.new.ready ≡ ready.now) }
        ensures err { OnErr result (self.new.entries ≡ []) }
        ensures err_ready { OnErr result (self.new.ready ≡ []) }
    {
        self.ready.truncate(0);
        self.taken = 0;
        let Some(total) = entries.len().checked_add(ready.len()) else {
            return Err(NoMemory);
        };
        self.entries.reserve(entries.len())?;
        self.ready.reserve(total)?;
        self.entries.fill(entries);
        self.ready.fill(ready);
        Ok(())
    }
}
