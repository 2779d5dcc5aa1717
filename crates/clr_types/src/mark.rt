//! The mark in an object's method table word: its bit 0.

ghost use Rattle.std.specs.Prelude.{◌≡◌};
ghost use Rattle.clr_types.specs.Bits as bits;

/// Whether a method table word is marked.
#[inline(always)]
pub fn is_marked(mt: u64) -> bool
    ensures { result ≡ bits.has_mark mt }
{
    mark_of(mt) == 1
}

/// The mark as a number: 1 where a method table word is marked, and else 0. For lines that decide nothing.
#[inline(always)]
pub fn mark_of(mt: u64) -> u64
    ensures { result ≡ bits.mark_of mt }
{
    mt % 2
}

/// A method table word without its mark.
#[inline(always)]
pub fn unmarked(mt: u64) -> u64
    ensures { result ≡ bits.unmarked mt }
{
    mt / 2 * 2
}
