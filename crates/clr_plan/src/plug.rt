// A plug.
ghost use Rattle.std.specs.Prelude.{◌≡◌, ℕ, ◌+◌, ◌<◌, ◌≤◌, ◌^◌};
ghost use Rattle.clr_model.specs.Compaction as compaction;
ghost use Rattle.clr_plan.specs.Scans.{is_alike};

use std::marker::Model;

/// Objects side by side that are kept, of one segment, one generation and one pinned state.
#[derive(Clone, Copy)]
pub struct Plug {
    start: u64,
    size: u64,
    segment: u64,
    generation: u8,
    pinned: bool,
}

impl Model for Plug {
    ghost use Rattle.std.specs.Prelude.{◌+◌, ◌<◌, ◌^◌};
    ghost use Rattle.clr_model.specs.Compaction as compaction;

    ghost Value = { compaction.Plug };

    ghost view = { λ p. record {
      start = p.start;
      size = p.size;
      segment = p.segment;
      generation = p.generation;
      pinned = p.pinned;
    } };

    ghost inverse = { λ p. record {
      start = p.start;
      size = p.size;
      segment = p.segment;
      generation = p.generation;
      pinned = p.pinned;
    } };

    ghost invariant = { λ p. p.start + p.size < 2 ^ 64 };
}

impl Plug {
    /// The plug of one object: its place, its bytes, its segment's base, its generation and whether it is pinned.
    pub fn of_object(place: u64, size: u64, segment: u64, generation: u8, pinned: bool) -> Plug
        requires { place + size < 2 ^ 64 }
        ensures { result ≡ record {
          start = place;
          size = size;
          segment = segment;
          generation = generation;
          pinned =
              pinned;
        } }
    {
        Plug {
            start: place,
            size,
            segment,
            generation,
            pinned,
        }
    }

    /// Where it begins.
    pub fn start(&self) -> u64
        ensures { result ≡ self.now.start }
    {
        self.start
    }

    /// How many bytes it has.
    pub fn size(&self) -> u64
        ensures { result ≡ self.now.size }
    {
        self.size
    }

    /// One past its last byte, as a place.
    pub fn end(&self) -> u64
        ensures value { result ≡ compaction.plug_end self.now }
        ensures fits { compaction.plug_end self.now < 2 ^ 64 }
    {
        self.start + self.size
    }

    /// Whether it stays where it is.
    pub fn pinned(&self) -> bool
        ensures { result ≡ self.now.pinned }
    {
        self.pinned
    }

    /// The plug with the objects of another behind it.
    pub fn joined(&self, other: Plug) -> Plug
        requires { self.now.start + (self.now.size + other.size) < 2 ^ 64 }
        ensures { result ≡ record self.now { size = self.now.size + other.size } }
    {
        Plug {
            size: self.size + other.size,
            ..*self
        }
    }

    /// Whether another has the same generation and pinned state.
    pub fn is_alike(&self, other: Plug) -> bool
        ensures { result ≡ is_alike self.now other }
    {
        self.generation == other.generation && self.pinned == other.pinned
    }
}
