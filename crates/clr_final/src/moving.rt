// Entries and f-reachable places follow their objects.
ghost use Rattle.std.specs.Prelude.{◌≡◌, ◌⊎◌, ℕ, ◌<◌, ◌≤◌, length, slice_index};
ghost use Rattle.clr_final.specs.Queues.{HaveMoved, IsMoved, IsMovedBetween, MayAsk};

use crate::Finals;
use crate::places::Places;

impl Finals {
    /// Gives both lists the new places of their objects.
    pub fn relocate<F: Fn(u64) -> u64>(&mut self, to: F)
        requires entries { MayAsk 0 self.old.entries (λ place. F.pre to place) }
        requires ready { MayAsk 0 self.old.ready (λ place. F.pre to place) }
        ensures { HaveMoved (λ place moved. F.post to place moved) 0 self.old self.new }
    {
        self.follow(0, &to);
    }

    /// Gives both lists the new places of their objects, where all objects below `low` are known to stay, and aren't
    /// asked of.
    pub fn relocate_from<F: Fn(u64) -> u64>(&mut self, low: u64, to: F)
        requires entries { MayAsk low self.old.entries (λ place. F.pre to place) }
        requires ready { MayAsk low self.old.ready (λ place. F.pre to place) }
        ensures { HaveMoved (λ place moved. F.post to place moved) low self.old self.new }
    {
        self.follow(low, &to);
    }

    // Moves what isn't settled.
    fn follow<F: Fn(u64) -> u64>(&mut self, low: u64, to: &F)
        requires entries { MayAsk low self.old.entries (λ place. F.pre to.now place) }
        requires ready { MayAsk low self.old.ready (λ place. F.pre to.now place) }
        ensures { HaveMoved (λ place moved. F.post to.now place moved) low self.old self.new }
    {
        let start = self.entries.settled(low);
        move_from(&mut self.entries, start, low, to);
        self.entries.settle();
        let first = later(self.ready.settled(low), self.taken);
        move_from(&mut self.ready, first, low, to);
        self.ready.settle();
    }
}

// Moves the places from an index on.
fn move_from<F: Fn(u64) -> u64>(places: &mut Places, start: usize, low: u64, to: &F)
    requires start { start ≤ length places.old.items }
    requires ask { (i : ℕ) → start ≤ i → i < length places.old.items → low ≤ slice_index places.old.items i
        → F.pre to.now (slice_index places.old.items i) }
    ensures moved { IsMovedBetween (λ place moved. F.post to.now place moved) low
        places.old.items places.new.items start (length places.old.items) }
    ensures capacity { places.new.capacity ≡ places.old.capacity }
{
    for i in start..places.len() {
        let place = places.get(i);
        places.set(i, moved_place(place, low, to));
    }
}

// Where a place has moved.
fn moved_place<F: Fn(u64) -> u64>(place: u64, low: u64, to: &F) -> u64
    requires { low ≤ place → F.pre to.now place }
    ensures { IsMoved (λ place moved. F.post to.now place moved) low place result }
{
    if place < low { place } else { to(place) }
}

// The greater of two indexes.
pub(crate) fn later(a: usize, b: usize) -> usize
    ensures first { a ≤ result }
    ensures second { b ≤ result }
    ensures one { (result ≡ a) ⊎ (result ≡ b) }
{
    if a < b { b } else { a }
}
