//! New segments beside the small heap.
ghost use Rattle.std.specs.Prelude.{◌≡◌, ◌≤◌};
ghost use Rattle.clr_large.specs.Places.{IsOldKind};
ghost use Rattle.clr_runtime.specs.RuntimeView.{IsRuntime, seen};
ghost use Rattle.clr_runtime.specs.Segments.{IsAcquired};

use crate::parts::Parts;
use clr_heap::{AcquireFault, SegKind};
use clr_large::acquire_of_kind;

/// Segments are reserved in whole pages of so many bytes, and objects start so far behind a segment's base.
const PAGE: u64 = 4096;

// Acquires a segment of the kind in which the size fits, where the limit allows one and there is memory for it. It
// reserves as many bytes as the options say, or as many whole pages as the object takes behind the first, where these
// are more. Threads may be in mid-step.
//
// `OverLimit` comes exactly where the limit allows no such segment, and `NoMemory` where there is no memory for it, its
// cards or its bricks. Nothing that is seen changes then.
pub(crate) fn acquire_for(parts: &mut Parts, kind: SegKind, size: u64) -> Result<(), AcquireFault>
    requires old { IsOldKind kind }
    requires runtime { IsRuntime parts.old }
    requires most { size ≤ 1073741824 }
    ensures acquired { IsAcquired kind (seen parts.old) (seen parts.new) size result }
    ensures runtime { IsRuntime parts.new }
    ensures slides { parts.new.collector.slides ≡ parts.old.collector.slides }
    ensures stack { parts.new.collector.marker.capacity ≡ parts.old.collector.marker.capacity }
    ensures finals { parts.new.roots.finals ≡ parts.old.roots.finals }
    ensures types { parts.new.types ≡ parts.old.types }
    ensures safe { parts.new.safe ≡ parts.old.safe }
{
    let pages = (size + PAGE - 1) / PAGE;
    let reserved = parts.options.segment.max(PAGE + pages * PAGE);
    acquire_of_kind(
        &mut parts.space.heap,
        &parts.types,
        &mut parts.space.cards,
        &mut parts.space.bricks,
        kind,
        reserved,
    )
}
