//! A place for a pinned object, by a new segment and a collection where it takes them.
ghost use Rattle.std.specs.Prelude.{◌≡◌, ◌≤◌, OnErr, OnOk, true};
ghost use Rattle.clr_types.specs.declared.segment.SegKind.TheVariants.{Pinned};
ghost use Rattle.clr_model.specs.Allocation.{has_room_in};
ghost use Rattle.clr_model.specs.PinnedFollows.{FollowsPinnedFails, FollowsToPinned};
ghost use Rattle.clr_runtime.specs.PinnedRooms.{IsPinnedRoom};
ghost use Rattle.clr_runtime.specs.Rooms.{attempt_of};
ghost use Rattle.clr_runtime.specs.RuntimeView.{IsRuntime, seen};
ghost use Rattle.clr_runtime.specs.Slides.{Grew};

use crate::collections::collect_parts;
use crate::parts::Parts;
use crate::rooms::NoRoom;
use crate::segments::acquire_for;
use clr_heap::{AcquireFault, SegKind};
use clr_model::How;

// Makes room of this size in a pinned segment. It is the first of these steps that serves: a place that is there, one
// in a new segment, and after a full compacting collection the first two again.
//
// `Wait` comes exactly where there is no place, the limit allows no segment, and a thread is in mid-step, `OverLimit`
// where there is none after the collection, either, and the limit still allows no segment, and `NoMemory` where it
// allows one and there is no memory for it. What the collection left stays.
#[inline(never)]
pub(crate) fn make_pinned_room(parts: &mut Parts, size: u64) -> Result<(), NoRoom>
    requires runtime { IsRuntime parts.old }
    requires most { size ≤ 1073741824 }
    ensures place { OnOk result (FollowsToPinned (seen parts.old) size (seen parts.new)) }
    ensures fits { OnOk result (has_room_in Pinned (seen parts.new).layout size ≡ true) }
    ensures err { OnErr result (FollowsPinnedFails (seen parts.old) size (attempt_of result) (seen parts.new)) }
    ensures grew { result ≡ Err (NoRoom.Acquire AcquireFault.OverLimit)
        → Grew parts.old.collector.slides parts.new.collector.slides }
    ensures stack { parts.new.collector.marker.capacity ≡ parts.old.collector.marker.capacity }
    ensures runtime { IsRuntime parts.new }
    ensures types { parts.new.types ≡ parts.old.types }
    ensures safe { parts.new.safe ≡ parts.old.safe }
{
    match find_or_acquire(parts, size) {
        Ok(()) => return Ok(()),
        Err(AcquireFault::NoMemory) => return Err(NoRoom::Acquire(AcquireFault::NoMemory)),
        Err(AcquireFault::OverLimit) => {}
    }
    if let Err(k) = parts.safe.all_safe() {
        return Err(NoRoom::Wait(k as u32));
    }
    let _ = collect_parts(parts, 2, How::Compact);
    match find_or_acquire(parts, size) {
        Ok(()) => Ok(()),
        Err(fault) => Err(NoRoom::Acquire(fault)),
    }
}

// A place in a pinned segment, or a new pinned segment in which the size fits. Threads may be in mid-step.
//
// `OverLimit` comes exactly where there is no place and the limit allows no such segment, and `NoMemory` where there is
// none, the limit allows one, and there is no memory for the segment, its cards or its bricks. Nothing that is seen
// changes then.
fn find_or_acquire(parts: &mut Parts, size: u64) -> Result<(), AcquireFault>
    requires runtime { IsRuntime parts.old }
    requires most { size ≤ 1073741824 }
    ensures room { IsPinnedRoom (seen parts.old) (seen parts.new) size result }
    ensures runtime { IsRuntime parts.new }
    ensures slides { parts.new.collector.slides ≡ parts.old.collector.slides }
    ensures stack { parts.new.collector.marker.capacity ≡ parts.old.collector.marker.capacity }
    ensures types { parts.new.types ≡ parts.old.types }
    ensures safe { parts.new.safe ≡ parts.old.safe }
{
    if has_pinned_room(parts, size) {
        return Ok(());
    }
    acquire_for(parts, SegKind::Pinned, size)
}

// Whether the size fits in a free item of a pinned segment, or behind the end of one.
fn has_pinned_room(parts: &mut Parts, size: u64) -> bool
    requires runtime { IsRuntime parts.old }
    requires most { size ≤ 1073741824 }
    ensures place { result ≡ has_room_in Pinned (seen parts.old).layout size }
    ensures seen { seen parts.new ≡ seen parts.old }
    ensures runtime { IsRuntime parts.new }
    ensures slides { parts.new.collector.slides ≡ parts.old.collector.slides }
    ensures stack { parts.new.collector.marker.capacity ≡ parts.old.collector.marker.capacity }
    ensures types { parts.new.types ≡ parts.old.types }
    ensures safe { parts.new.safe ≡ parts.old.safe }
{
    parts
        .pinned
        .room(&parts.space.heap, &parts.types, SegKind::Pinned, size)
}
