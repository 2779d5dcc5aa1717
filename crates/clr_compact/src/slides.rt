// How much was moved.
ghost use Rattle.std.specs.Prelude.{◌≡◌, ◌+◌, ◌-◌, ◌^◌, min};
ghost use Rattle.clr_compact.specs.NextPlugs.{bytes_of};

use clr_moves::PlugMove;
use std::marker::Model;

/// A count of compactions and of the bytes that they moved. It stays at the last value of a `u64` where it would pass
/// it.
#[derive(Drop)]
pub struct Slides {
    count: u64,
}

impl Model for Slides {
    ghost use Rattle.std.specs.Prelude.{ℕ};

    ghost Value = { ℕ };

    ghost view = { λ s. s.count };
}

impl Slides {
    /// Nothing was moved yet.
    pub fn new() -> Slides
        ensures { result ≡ 0 }
    {
        Slides { count: 0 }
    }

    /// The count.
    pub fn count(&self) -> u64
        ensures { result ≡ self.now }
    {
        self.count
    }

    // Counts `n` more: so many bytes went elsewhere. It stays at the last value of a `u64` where it would pass it. No
    // other crate raises the count, so whatever it says was moved by a compaction of this crate.
    pub(crate) fn add(&mut self, n: u64)
        ensures { self.new ≡ min (2 ^ 64 - 1) (self.old + n) }
    {
        self.count = self.count.saturating_add(n);
    }

    // Counts the bytes of a plug that goes down. One that stays adds nothing.
    #[inline]
    pub(crate) fn add_plug(&mut self, plug: PlugMove)
        ensures { self.new ≡ min (2 ^ 64 - 1) (self.old + bytes_of plug) }
    {
        let bytes = if plug.to() < plug.start() {
            plug.size()
        } else {
            0
        };
        self.add(bytes);
    }
}
