//! The bits of an object's header, the word before its method table word.

ghost use Rattle.std.specs.Prelude.{◌≡◌};
ghost use Rattle.clr_types.specs.Bits.{flagged, has_pin, has_suppressed_bit, pinned_header};

// The bit of a pinned object, which a plan leaves where it is.
const PINNED: u64 = 0x2000_0000;

/// The bit of an object whose finaliser is suppressed.
pub const SUPPRESSED: u64 = 0x4000_0000;

/// Whether a header says that its object is pinned.
#[inline(always)]
pub fn is_pinned(header: u64) -> bool
    ensures { result ≡ has_pin header }
{
    header / PINNED % 2 == 1
}

/// The header with this in that bit. All other bits stay.
#[inline(always)]
pub fn with_pinned(header: u64, pinned: bool) -> u64
    ensures { result ≡ pinned_header pinned header }
{
    match (pinned, is_pinned(header)) {
        (true, false) => header + PINNED,
        (false, true) => header - PINNED,
        (true, true) | (false, false) => header,
    }
}

/// Whether a header says that the finaliser of its object is suppressed.
#[inline(always)]
pub fn is_suppressed(header: u64) -> bool
    ensures { result ≡ has_suppressed_bit header }
{
    header / SUPPRESSED % 2 == 1
}

/// The header with this in that bit. All other bits stay.
#[inline(always)]
pub fn with_suppressed(header: u64, suppressed: bool) -> u64
    ensures { result ≡ flagged suppressed header }
{
    match (suppressed, is_suppressed(header)) {
        (true, false) => header + SUPPRESSED,
        (false, true) => header - SUPPRESSED,
        (true, true) | (false, false) => header,
    }
}
