//! A place for a large object, by collections and a new segment where it takes them.
ghost use Rattle.std.specs.Prelude.{◌≡◌, ◌%◌, ◌≤◌, None, OnErr, OnOk, true};
ghost use Rattle.clr_types.specs.declared.segment.SegKind.TheVariants.{Large};
ghost use Rattle.clr_model.specs.Allocation.{has_room_in};
ghost use Rattle.clr_model.specs.LargeFollows.{FollowsLargeFails, FollowsToPlace};
ghost use Rattle.clr_model.specs.Lookups.{lowest_in_step};
ghost use Rattle.clr_runtime.specs.LargeRooms.{has_place_in_budget};
ghost use Rattle.clr_runtime.specs.Rooms.{attempt_of};
ghost use Rattle.clr_runtime.specs.RuntimeView.{IsRuntime, seen};
ghost use Rattle.clr_runtime.specs.Slides.{Grew};

use crate::collections::collect_parts;
use crate::parts::Parts;
use crate::rooms::NoRoom;
use crate::segments::acquire_for;
use clr_heap::{AcquireFault, SegKind};
use clr_model::How;

// Makes room of this size in a large segment. It is the first of these steps that serves: a place within the budget,
// one after a full collection, one after a full compacting one, one in a new segment.
//
// `Wait` comes exactly where there is no place within the budget and a thread is in mid-step, `OverLimit` where all but
// the last of these steps find no place and the limit allows no segment more, and `NoMemory` where it allows one and
// there is no memory for it. What the collections left stays.
#[inline(never)]
pub(crate) fn make_large_room(parts: &mut Parts, size: u64) -> Result<(), NoRoom>
    requires runtime { IsRuntime parts.old }
    requires least { parts.old.options.large ≤ size }
    requires whole { size % 8 ≡ 0 }
    requires most { size ≤ 1073741824 }
    ensures place { OnOk result (FollowsToPlace (seen parts.old) size (seen parts.new)) }
    ensures fits { OnOk result (has_room_in Large (seen parts.new).layout size ≡ true) }
    ensures err { OnErr result (FollowsLargeFails (seen parts.old) size (attempt_of result) (seen parts.new)) }
    ensures grew { result ≡ Err (NoRoom.Acquire AcquireFault.OverLimit)
        → Grew parts.old.collector.slides parts.new.collector.slides }
    ensures stack { parts.new.collector.marker.capacity ≡ parts.old.collector.marker.capacity }
    ensures runtime { IsRuntime parts.new }
    ensures spare { parts.old.roots.finals.spare ≤ parts.new.roots.finals.spare }
    ensures types { parts.new.types ≡ parts.old.types }
    ensures safe { parts.new.safe ≡ parts.old.safe }
{
    if has_room_in_budget(parts, size) {
        return Ok(());
    }
    if let Err(k) = parts.safe.all_safe() {
        return Err(NoRoom::Wait(k as u32));
    }
    let _ = collect_parts(parts, 2, How::Decide);
    if has_large_room(parts, size) {
        return Ok(());
    }
    let _ = collect_parts(parts, 2, How::Compact);
    if has_large_room(parts, size) {
        return Ok(());
    }
    match acquire_for(parts, SegKind::Large, size) {
        Ok(()) => Ok(()),
        Err(fault) => Err(NoRoom::Acquire(fault)),
    }
}

// Whether there is a place for that many bytes more, and these are within the budget.
fn has_room_in_budget(parts: &mut Parts, size: u64) -> bool
    requires runtime { IsRuntime parts.old }
    requires most { size ≤ 1073741824 }
    ensures place { result ≡ has_place_in_budget (seen parts.old) size }
    ensures seen { seen parts.new ≡ seen parts.old }
    ensures runtime { IsRuntime parts.new }
    ensures slides { parts.new.collector.slides ≡ parts.old.collector.slides }
    ensures stack { parts.new.collector.marker.capacity ≡ parts.old.collector.marker.capacity }
    ensures finals { parts.new.roots.finals ≡ parts.old.roots.finals }
    ensures types { parts.new.types ≡ parts.old.types }
    ensures safe { parts.new.safe ≡ parts.old.safe }
{
    if parts.sums.spent_large + size > parts.options.bl {
        return false;
    }
    has_large_room(parts, size)
}

// Whether the size fits in a free item of a large segment, or behind the end of one.
fn has_large_room(parts: &mut Parts, size: u64) -> bool
    requires runtime { IsRuntime parts.old }
    requires most { size ≤ 1073741824 }
    ensures place { result ≡ has_room_in Large (seen parts.old).layout size }
    ensures seen { seen parts.new ≡ seen parts.old }
    ensures runtime { IsRuntime parts.new }
    ensures slides { parts.new.collector.slides ≡ parts.old.collector.slides }
    ensures stack { parts.new.collector.marker.capacity ≡ parts.old.collector.marker.capacity }
    ensures finals { parts.new.roots.finals ≡ parts.old.roots.finals }
    ensures types { parts.new.types ≡ parts.old.types }
    ensures safe { parts.new.safe ≡ parts.old.safe }
{
    parts
        .large
        .room(&parts.space.heap, &parts.types, SegKind::Large, size)
}
