//! The line that makes an object that never moves.
ghost use Rattle.std.specs.Prelude.{◌≡◌, ◌≤◌, None};
ghost use Rattle.std.specs.List.{AllByRecursion};
ghost use Rattle.clr_types.specs.Table.{IsLawfulRow};
ghost use Rattle.clr_runtime.specs.Checks.{thread_refusal};
ghost use Rattle.clr_runtime.specs.PinnedBirths.{FollowsAskedPinned, IsAskedPinned, MeasuredPinned};
ghost use Rattle.clr_runtime.specs.RuntimeView.{IsRuntime, seen};
ghost use Rattle.clr_runtime.specs.Slides.{Grew};

use crate::births::{Request, defined, refusal_of};
use crate::checks::index_of;
use crate::parts::Parts;
use crate::pinned::make_pinned_room;
use crate::runtime::{LOCALS_OF_A_THREAD, Runtime};
use clr_heap::SegKind;
use clr_model::Refusal;
use clr_types::Types;

impl Runtime {
    ghost use Rattle.clr_model.specs.Instructions.{new_pinned};
    ghost use Rattle.clr_model.specs.Run.{Follows};
    ghost use Rattle.clr_runtime.specs.Outcomes.{place_outcome};

    /// Makes an array without references that never moves, of the type of this name, with `len` elements, and gives its
    /// place, which the local of thread `t` takes.
    ///
    /// It is refused for an unknown thread, with `Blocked` where another thread holds all others and this one isn't in
    /// mid-step, with `MidStep` where the thread is in mid-step, for an unknown type, with `BadShape` for a class, with
    /// `HasReferences` for an array whose elements have references, for a local from 64 on, and for more than 2^30
    /// bytes, in this order. Such a line changes nothing.
    ///
    /// The object stands in a pinned segment, at the lowest place at which it fits: the front of a free item, or the
    /// bytes behind a segment's end. Where there is none, the line acquires a pinned segment, of the size that the
    /// options say, or of as many whole pages as the object takes behind the first, where these are more. Where the
    /// limit allows none, the line makes a full compacting collection, and tries both again. No budget counts the
    /// object's bytes.
    ///
    /// Where the line would collect and another thread is in mid-step, it is refused with `Wait` for the lowest of
    /// these, and changes nothing. It is refused with `Oom` exactly where there is no place after the collection and
    /// the limit allows no segment then, either, and with `NoMemory` where the limit allows a segment that is wanted
    /// and there is no memory for it. What the collection left stays. Where it is refused with `Oom`, `slides` has
    /// counted a compaction. It takes memory for a new segment alone, with its cards and bricks, and for an index of
    /// free items that it does without where there is none.
    pub fn new_pinned(&mut self, t: u64, local: u64, name: &[u8], len: u64) -> Result<u64, Refusal>
        ensures follows { Follows self.old.machine (new_pinned t local name.now len)
            (place_outcome result) self.new.machine }
        ensures grew { result ≡ Err Refusal.Oom → Grew self.old.slides self.new.slides }
        ensures stack { self.new.stack ≡ self.old.stack }
    {
        if let Some(refusal) = self.refused_thread(t) {
            return Err(refusal);
        }
        let request = match measure_pinned(&self.parts.types, local, name, len) {
            Ok(request) => request,
            Err(refusal) => return Err(refusal),
        };
        make_pinned(&mut self.parts, t, local, request)
    }
}

// What a line that makes a pinned object asks for, or the first of the checks on it that fails.
fn measure_pinned(types: &Types, local: u64, name: &[u8], len: u64) -> Result<Request, Refusal>
    requires { AllByRecursion IsLawfulRow types.now }
    ensures { MeasuredPinned types.now local name.now len result }
{
    let Some(type_id) = defined(types, name) else {
        return Err(Refusal::UnknownType);
    };
    if !types.has_length(type_id) {
        return Err(Refusal::BadShape);
    }
    if !types.series(type_id).is_empty() {
        return Err(Refusal::HasReferences);
    }
    if local >= LOCALS_OF_A_THREAD {
        return Err(Refusal::NoSlot);
    }
    match types.size_of(type_id, len) {
        Some(size) => Ok(Request {
            type_id,
            len,
            size,
            finalizer: false,
        }),
        None => Err(Refusal::TooBig),
    }
}

// Makes a pinned object, which the local of thread `t` takes, in a pinned segment. It is refused as `new_pinned` is,
// once a place was sought.
fn make_pinned(parts: &mut Parts, t: u64, local: u64, request: Request) -> Result<u64, Refusal>
    requires runtime { IsRuntime parts.old }
    requires passed { thread_refusal (seen parts.old) t ≡ None }
    requires asked { IsAskedPinned parts.old.types local request }
    ensures made { FollowsAskedPinned parts.old parts.new t local request result }
    ensures grew { result ≡ Err Refusal.Oom → Grew parts.old.collector.slides parts.new.collector.slides }
    ensures stack { parts.new.collector.marker.capacity ≡ parts.old.collector.marker.capacity }
    ensures runtime { IsRuntime parts.new }
{
    if let Err(why) = make_pinned_room(parts, request.size) {
        return Err(refusal_of(why));
    }
    let Some(place) = parts.pinned.allocate(
        &mut parts.space.heap,
        &parts.types,
        &mut parts.space.bricks,
        SegKind::Pinned,
        request.type_id,
        request.len,
    )
    else {
        unreachable!()
    };
    parts.roots.locals[index_of(t, local)] = place;
    Ok(place)
}
