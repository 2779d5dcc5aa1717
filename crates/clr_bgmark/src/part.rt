// What the first pause knows of a segment beside what it took.
ghost use Rattle.std.specs.Prelude.{◌≡◌, ℕ, ◌+◌, ◌*◌, ◌^◌, ◌<◌, ◌≤◌, ◌%◌, false, length, get_or, IfOk};
ghost use Rattle.clr_bgmark.specs.Bits.{has_bit, with_bit};

use crate::bits::Bits;
use std::alloc::{AllocError, Global};
use std::marker::Model;

/// The old part of a segment as it was at the first pause: of each eight bytes whether a free item or the rest of a
/// context began there, and where the part ended. With the bits of what was taken these are the places where anything
/// began.
#[derive(Drop)]
pub(crate) struct Part {
    gaps: Bits,
    stop: u64,
}

impl Model for Part {
    ghost use Rattle.clr_bgmark.specs.Shades.{PartView, part_code};

    ghost Value = { PartView };

    ghost coded = { part_code };

    ghost view = { λ p. record { gaps = p.gaps; stop = p.stop } };
}

impl Part {
    /// With room for a segment of `size` bytes, of which nothing is known.
    pub(crate) fn new(alloc: Global, size: u64) -> Result<Part, AllocError>
        requires { size % 8 ≡ 0 }
        ensures room { IfOk result (λ p. size ≤ 512 * length p.gaps) }
        ensures none { IfOk result (λ p. (n : ℕ) → has_bit p.gaps n ≡ false) }
    {
        let gaps = Bits::new(alloc, size / 8)?;
        Ok(Part { gaps, stop: 0 })
    }

    /// Where the part ended.
    #[inline]
    pub(crate) fn stop(&self) -> u64
        ensures { result ≡ self.now.stop }
    {
        self.stop
    }

    /// Something that isn't an object began in the cell of this number.
    #[inline]
    pub(crate) fn add_gap(&mut self, cell: u64)
        requires { cell < 64 * length self.old.gaps }
        ensures { self.new ≡ record self.old { gaps = with_bit self.old.gaps cell } }
    {
        self.gaps.add(cell);
    }

    /// The part ended there.
    #[inline]
    pub(crate) fn end_at(&mut self, stop: u64)
        ensures { self.new ≡ record self.old { stop = stop } }
    {
        self.stop = stop;
    }

    /// The word of this number of the bits of the gaps.
    #[inline]
    pub(crate) fn word(&self, n: u64) -> u64
        ensures { result ≡ get_or self.now.gaps n 0 }
    {
        self.gaps.word(n)
    }
}
