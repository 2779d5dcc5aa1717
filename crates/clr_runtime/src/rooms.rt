//! Room for a new object, by collections and a new segment where it takes them.
ghost use Rattle.std.specs.Prelude.{◌≡◌, ◌%◌, ◌<◌, ◌≤◌, None, OnOk, false, true};
ghost use Rattle.clr_heap.specs.View.{no_rests};
ghost use Rattle.clr_model.specs.Allocation.{own_fits};
ghost use Rattle.clr_model.specs.Collection.{Collects, generation_to_collect};
ghost use Rattle.clr_model.specs.Laws.{IsUsual};
ghost use Rattle.clr_model.specs.Lookups.{is_step, lowest_in_step, step_of};
ghost use Rattle.clr_model.specs.Machine.{Machine};
ghost use Rattle.clr_model.specs.Picture.{picture};
ghost use Rattle.clr_model.specs.RoomFollows.{FollowsRoom};
ghost use Rattle.clr_runtime.specs.Rooms.{attempt_of, IsRefill, IsRefillInBudget, IsSealedRefill};
ghost use Rattle.clr_runtime.specs.RuntimeView.{IsRuntime, seen};
ghost use Rattle.clr_runtime.specs.Slides.{CountsCollection, Grew};

use crate::collections::collect_parts;
use crate::parts::Parts;
use crate::sealing::seal_parts;
use clr_heap::AcquireFault;
use clr_model::{Collected, How};

/// Why there is no room for an object.
#[derive(Clone, Copy)]
pub(crate) enum NoRoom {
    /// The ladder comes to a collection, and this thread is the lowest in mid-step. Nothing has changed.
    Wait(u32),
    /// No collection found room, and no segment was acquired.
    Acquire(AcquireFault),
}

// Makes room of this size at the front of the context of a thread, which isn't in mid-step. It is the first of these
// steps that serves: the context as it is, a new one within the budget, one after a collection of the generation that
// the sums choose, one after a full compacting collection, one in a new segment.
//
// `Wait` comes exactly where the first two find no room and a thread is in mid-step, `OverLimit` where all but the last
// find none and the limit allows no segment more, and `NoMemory` where it allows one and there is no memory for it.
// What the collections left stays.
#[inline(always)]
pub(crate) fn make_room(parts: &mut Parts, thread: usize, size: u64) -> Result<(), NoRoom>
    requires runtime { IsRuntime parts.old }
    requires positive { 0 < thread }
    requires few { thread ≤ 16 }
    requires idle { is_step (step_of (seen parts.old) thread) ≡ false }
    requires least { 24 ≤ size }
    requires whole { size % 8 ≡ 0 }
    requires small { size < parts.old.options.large }
    ensures room { FollowsRoom (seen parts.old) thread size (attempt_of result) (seen parts.new) }
    ensures fits { OnOk result (own_fits (seen parts.new).layout thread size ≡ true) }
    ensures grew { result ≡ Err (NoRoom.Acquire AcquireFault.OverLimit)
        → Grew parts.old.collector.slides parts.new.collector.slides }
    ensures stack { parts.new.collector.marker.capacity ≡ parts.old.collector.marker.capacity }
    ensures runtime { IsRuntime parts.new }
    ensures spare { parts.old.roots.finals.spare ≤ parts.new.roots.finals.spare }
    ensures types { parts.new.types ≡ parts.old.types }
    ensures safe { parts.new.safe ≡ parts.old.safe }
{
    if fits_in_context(parts, thread, size) {
        return Ok(());
    }
    renew_index(parts);
    find_room(parts, thread, size)
}

// Makes room of this size for a thread, as `make_room` does, where the size doesn't fit at the front of its context.
#[cold]
#[inline(never)]
fn find_room(parts: &mut Parts, thread: usize, size: u64) -> Result<(), NoRoom>
    requires runtime { IsRuntime parts.old }
    requires positive { 0 < thread }
    requires few { thread ≤ 16 }
    requires idle { is_step (step_of (seen parts.old) thread) ≡ false }
    requires least { 24 ≤ size }
    requires whole { size % 8 ≡ 0 }
    requires small { size < parts.old.options.large }
    requires full { own_fits (seen parts.old).layout thread size ≡ false }
    ensures room { FollowsRoom (seen parts.old) thread size (attempt_of result) (seen parts.new) }
    ensures fits { OnOk result (own_fits (seen parts.new).layout thread size ≡ true) }
    ensures grew { result ≡ Err (NoRoom.Acquire AcquireFault.OverLimit)
        → Grew parts.old.collector.slides parts.new.collector.slides }
    ensures stack { parts.new.collector.marker.capacity ≡ parts.old.collector.marker.capacity }
    ensures runtime { IsRuntime parts.new }
    ensures spare { parts.old.roots.finals.spare ≤ parts.new.roots.finals.spare }
    ensures types { parts.new.types ≡ parts.old.types }
    ensures safe { parts.new.safe ≡ parts.old.safe }
{
    if refill_in_budget(parts, thread, size) {
        return Ok(());
    }
    if let Err(k) = parts.safe.all_safe() {
        return Err(NoRoom::Wait(k as u32));
    }
    let g = generation_due(parts);
    let _ = collect_for_room(parts, g, How::Decide);
    if refill(parts, thread, size) {
        return Ok(());
    }
    let _ = collect_for_room(parts, 2, How::Compact);
    if refill(parts, thread, size) {
        return Ok(());
    }
    match refill_by_sealing(parts, thread, size) {
        Ok(()) => Ok(()),
        Err(fault) => Err(NoRoom::Acquire(fault)),
    }
}

// Makes the index of young items anew, where a compaction has dropped it and no thread has a context yet. Nothing else
// changes.
#[cold]
#[inline(never)]
fn renew_index(parts: &mut Parts)
    requires { IsRuntime parts.old }
    ensures others { parts.new
        ≡ record parts.old { collector = record parts.old.collector { young = parts.new.collector.young } } }
    ensures runtime { IsRuntime parts.new }
{
    parts
        .collector
        .young
        .renew_lost(&parts.space.heap, &parts.types);
}

// Collects as `collect_parts` does, and makes the index of young items anew.
fn collect_for_room(parts: &mut Parts, g: u8, how: How) -> Collected
    requires generation { g ≤ 2 }
    requires usual { IsUsual g how }
    requires runtime { IsRuntime parts.old }
    requires idle { lowest_in_step (seen parts.old) ≡ None }
    ensures collected { (after : Machine) × Collects (seen parts.old) g how result after
        × (seen parts.new ≡ picture after) }
    ensures no_contexts { parts.new.space.heap.rests ≡ no_rests }
    ensures runtime { IsRuntime parts.new }
    ensures slides { CountsCollection result.compacted parts.old.collector.slides parts.new.collector.slides }
    ensures stack { parts.new.collector.marker.capacity ≡ parts.old.collector.marker.capacity }
    ensures spare { parts.old.roots.finals.spare ≤ parts.new.roots.finals.spare }
    ensures options { parts.new.options ≡ parts.old.options }
    ensures types { parts.new.types ≡ parts.old.types }
    ensures safe { parts.new.safe ≡ parts.old.safe }
{
    let collected = collect_parts(parts, g, how);
    renew_index(parts);
    collected
}

// Whether the size fits at the front of the thread's context as it is.
#[inline(always)]
fn fits_in_context(parts: &Parts, thread: usize, size: u64) -> bool
    requires positive { 0 < thread }
    requires few { thread ≤ 16 }
    requires most { size ≤ 1073741824 }
    ensures { result ≡ own_fits (seen parts.now).layout thread size }
{
    parts.collector.young.fits(&parts.space.heap, thread, size)
}

// The generation that an allocation collects: 0, or 1 where more bytes went to it than its budget has, or 2 where more
// went to that, too.
fn generation_due(parts: &Parts) -> u8
    ensures due { result ≡ generation_to_collect (seen parts.now) }
    ensures within { result ≤ 2 }
{
    if parts.sums.promoted1 <= parts.options.b1 {
        0
    } else if parts.sums.promoted2 <= parts.options.b2 {
        1
    } else {
        2
    }
}

// Gives the thread, which isn't in mid-step, a new context in which the size fits, where that many bytes more are
// within the budget and there is room without a collection, and tells whether it did. Else nothing changes.
fn refill_in_budget(parts: &mut Parts, thread: usize, size: u64) -> bool
    requires runtime { IsRuntime parts.old }
    requires positive { 0 < thread }
    requires few { thread ≤ 16 }
    requires idle { is_step (step_of (seen parts.old) thread) ≡ false }
    requires least { 24 ≤ size }
    requires whole { size % 8 ≡ 0 }
    requires most { size ≤ 1073741824 }
    ensures refilled { IsRefillInBudget parts.old parts.new thread size result }
    ensures runtime { IsRuntime parts.new }
    ensures slides { parts.new.collector.slides ≡ parts.old.collector.slides }
    ensures stack { parts.new.collector.marker.capacity ≡ parts.old.collector.marker.capacity }
    ensures finals { parts.new.roots.finals ≡ parts.old.roots.finals }
    ensures types { parts.new.types ≡ parts.old.types }
    ensures safe { parts.new.safe ≡ parts.old.safe }
{
    if parts.sums.spent0 + size > parts.options.b0 {
        return false;
    }
    refill(parts, thread, size)
}

// Gives the thread, which isn't in mid-step, a new context in which the size fits, where there is room without a
// collection, and tells whether it did. Else nothing changes.
fn refill(parts: &mut Parts, thread: usize, size: u64) -> bool
    requires runtime { IsRuntime parts.old }
    requires positive { 0 < thread }
    requires few { thread ≤ 16 }
    requires idle { is_step (step_of (seen parts.old) thread) ≡ false }
    requires least { 24 ≤ size }
    requires whole { size % 8 ≡ 0 }
    requires most { size ≤ 1073741824 }
    ensures refilled { IsRefill parts.old parts.new thread size result }
    ensures runtime { IsRuntime parts.new }
    ensures slides { parts.new.collector.slides ≡ parts.old.collector.slides }
    ensures stack { parts.new.collector.marker.capacity ≡ parts.old.collector.marker.capacity }
    ensures finals { parts.new.roots.finals ≡ parts.old.roots.finals }
    ensures types { parts.new.types ≡ parts.old.types }
    ensures safe { parts.new.safe ≡ parts.old.safe }
{
    parts
        .collector
        .young
        .refill(&mut parts.space.heap, &parts.types, thread, size)
        .is_some()
}

// Gives the thread a context in a new segment, where the limit allows one and there is memory for it. No thread has a
// context, and none is in mid-step.
fn refill_by_sealing(parts: &mut Parts, thread: usize, size: u64) -> Result<(), AcquireFault>
    requires runtime { IsRuntime parts.old }
    requires idle { lowest_in_step (seen parts.old) ≡ None }
    requires no_contexts { parts.old.space.heap.rests ≡ no_rests }
    requires positive { 0 < thread }
    requires few { thread ≤ 16 }
    requires least { 24 ≤ size }
    requires whole { size % 8 ≡ 0 }
    requires small { size < parts.old.options.large }
    ensures refilled { IsSealedRefill (seen parts.old) (seen parts.new) thread size result }
    ensures runtime { IsRuntime parts.new }
    ensures slides { parts.new.collector.slides ≡ parts.old.collector.slides }
    ensures stack { parts.new.collector.marker.capacity ≡ parts.old.collector.marker.capacity }
    ensures finals { parts.new.roots.finals ≡ parts.old.roots.finals }
    ensures types { parts.new.types ≡ parts.old.types }
    ensures safe { parts.new.safe ≡ parts.old.safe }
{
    seal_parts(parts)?;
    let _ = refill(parts, thread, size);
    Ok(())
}
