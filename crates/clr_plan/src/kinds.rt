// What segments hold.
ghost use Rattle.std.specs.Prelude.{◌≡◌};
ghost use Rattle.clr_types.specs.Segments.{is_small_or_ephemeral};
ghost use Rattle.clr_plan.specs.Stages.{hold_alike};

use clr_types::SegKind;

/// Whether segments of these kinds hold objects of one kind: small, large or pinned ones.
pub fn hold_alike(home: SegKind, other: SegKind) -> bool
    ensures { result ≡ hold_alike home other }
{
    match home {
        SegKind::Small | SegKind::Ephemeral => holds_small(other),
        SegKind::Large => other == SegKind::Large,
        SegKind::Pinned => other == SegKind::Pinned,
    }
}

// Whether a segment of this kind holds small objects.
fn holds_small(kind: SegKind) -> bool
    ensures { result ≡ is_small_or_ephemeral kind }
{
    match kind {
        SegKind::Small | SegKind::Ephemeral => true,
        SegKind::Large | SegKind::Pinned => false,
    }
}
