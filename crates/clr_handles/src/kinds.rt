// How many handles there are of each kind.
ghost use Rattle.std.specs.Prelude.{◌≡◌};
ghost use Rattle.clr_types.specs.HandleCode.{number_of_kind};

use crate::Kind;

/// The number of a kind.
#[inline(always)]
pub(crate) fn number_of(kind: Kind) -> usize
    ensures { result ≡ number_of_kind kind }
{
    match kind {
        Kind::Strong => 0,
        Kind::Pinned => 1,
        Kind::Weak => 2,
        Kind::WeakLong => 3,
        Kind::Dependent => 4,
    }
}
