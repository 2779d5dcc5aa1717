//! Ranges of memory.
ghost use Rattle.std.specs.Prelude.{◌≡◌, ◌-◌, ◌<◌, ◌≤◌, ◌^◌};
ghost use Rattle.clr_types.specs.Ranges.{piece_end};

use std::marker::Model;

/// A range of memory: what is left of a context, or what a free item fills. Clauses see it as its piece.
#[derive(Clone, Copy)]
pub struct Span {
    place: u64,
    size: u64,
}

impl Model for Span {
    ghost use Rattle.std.specs.Prelude.{◌+◌, ◌<◌, ◌^◌};
    ghost use Rattle.clr_types.specs.Ranges.{Piece};

    ghost Value = { Piece };

    ghost view = { λ s. record { place = s.place; size = s.size } };

    ghost inverse = { λ p. record { place = p.place; size = p.size } };

    ghost invariant = { λ s. s.place + s.size < 2 ^ 64 };
}

impl Span {
    /// The range from `low` to `high`.
    pub fn between(low: u64, high: u64) -> Span
        requires { low ≤ high }
        ensures { result ≡ record { place = low; size = high - low } }
    {
        Span {
            place: low,
            size: high - low,
        }
    }

    /// The first address.
    pub fn place(&self) -> u64
        ensures { result ≡ self.now.place }
    {
        self.place
    }

    /// The number of bytes.
    pub fn size(&self) -> u64
        ensures value { result ≡ self.now.size }
        ensures within { piece_end self.now < 2 ^ 64 }
    {
        self.size
    }

    /// One past the last address.
    pub fn end(&self) -> u64
        ensures { result ≡ piece_end self.now }
    {
        self.place + self.size
    }
}
