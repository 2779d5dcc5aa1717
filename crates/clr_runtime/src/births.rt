//! The line that makes an object.
ghost use Rattle.std.specs.Prelude.{◌≡◌, ◌+◌, ◌<◌, ◌≤◌, ◌++◌, [], ◌∷◌, None, OnErr, OnOk, true, if◌then◌else◌};
ghost use Rattle.std.specs.List.{AllByRecursion};
ghost use Rattle.clr_types.specs.Table.{IsLawfulRow};
ghost use Rattle.clr_safe.specs.Threads.{births_owed};
ghost use Rattle.clr_runtime.specs.Births.{FollowsAsked, IsAsked, IsDefined, IsKnown, Measured};
ghost use Rattle.clr_runtime.specs.Checks.{thread_refusal};
ghost use Rattle.clr_runtime.specs.Outcomes.{refusal_of_room};
ghost use Rattle.clr_runtime.specs.RuntimeView.{IsRuntime, seen};
ghost use Rattle.clr_runtime.specs.Slides.{Grew};

use crate::NoMemory;
use crate::checks::index_of;
use crate::large::make_large_room;
use crate::parts::Parts;
use crate::rooms::{NoRoom, make_room};
use crate::runtime::{LOCALS_OF_A_THREAD, Runtime};
use clr_final::Finals;
use clr_generations::allocate;
use clr_heap::{AcquireFault, SegKind};
use clr_model::Refusal;
use clr_types::{TypeId, Types};

/// What a line that makes an object asks for: its type and, where that is an array, how many elements; its bytes, and
/// whether it is to be finalised.
#[derive(Clone, Copy)]
pub struct Request {
    pub(crate) type_id: TypeId,
    pub(crate) len: u64,
    pub(crate) size: u64,
    pub(crate) finalizer: bool,
}

impl Runtime {
    ghost use Rattle.clr_model.specs.Instructions.{new_object};
    ghost use Rattle.clr_model.specs.Run.{Follows};
    ghost use Rattle.clr_runtime.specs.Outcomes.{place_outcome};

    /// Makes an object of the type of this name, with `len` elements where it is an array, and gives its place, which
    /// the local of thread `t` takes. Where the type has a finaliser, the object is put among those that are to be
    /// finalised.
    ///
    /// It is refused for an unknown thread, with `Blocked` where another thread holds all others and this one isn't in
    /// mid-step, with `MidStep` where the thread is in mid-step, for an unknown type, a length that doesn't suit the
    /// type, a local from 64 on, and more than 2^30 bytes, in this order; then with `NoMemory` where a finalisation
    /// entry is wanted and there is no memory for it. Such a line changes nothing.
    ///
    /// An object of fewer bytes than the option `large` stands at the front of the context of its thread. Where that
    /// has no room, the thread gets a new one: from the first free item of generation 0 in which the object fits, or
    /// from the tail of its segment. Where the bytes of such objects that were born since the last collection would
    /// pass the budget `b0` with it, or where no new context has room, the line collects first, as the option
    /// `compact` decides: generation 0, and generation 1 too where the bytes promoted to it passed `b1`, and then all
    /// where also those promoted to generation 2 passed `b2`. Where there is no room then, either, it makes a full
    /// compacting collection. Where there is none after that, the ephemeral segment is sealed: all in it is old from
    /// then on, and the new context is in a new segment.
    ///
    /// Any other stands in a large segment, at a place at which it fits: the front of a free item, or the bytes
    /// behind a segment's end. Where the bytes of large objects that were born since the last full collection would
    /// pass the budget `bl` with it, or where there is no such place, the line makes a full collection, as the option
    /// `compact` decides. Where there is none then, either, it makes a full compacting one. Where there is none after
    /// that, the object stands in a new large segment, of the size that the options say, or of as many whole pages as
    /// it takes behind the first, where these are more.
    ///
    /// Where the line would collect and another thread is in mid-step, it is refused with `Wait` for the lowest of
    /// these, and changes nothing. It is refused with `Oom` exactly where there is no room after the full compacting
    /// collection and the limit allows no segment more, and with `NoMemory` also where it allows one and there is no
    /// memory for it. What the collections left stays. Where it is refused with `Oom`, `slides` has counted a
    /// compaction.
    #[inline(always)]
    pub fn new_object(
        &mut self,
        t: u64,
        local: u64,
        name: &[u8],
        len: Option<u64>,
    ) -> Result<u64, Refusal>
        ensures follows { Follows self.old.machine (new_object t local name.now len)
            (place_outcome result) self.new.machine }
        ensures grew { result ≡ Err Refusal.Oom → Grew self.old.slides self.new.slides }
        ensures stack { self.new.stack ≡ self.old.stack }
    {
        self.new_known(t, local, name, None, len)
    }

    /// Makes an object, as `new_object` does, where the type of this name may be known.
    #[inline(always)]
    pub fn new_known(
        &mut self,
        t: u64,
        local: u64,
        name: &[u8],
        known: Option<TypeId>,
        len: Option<u64>,
    ) -> Result<u64, Refusal>
        requires { IsKnown self.old.machine.types name.now known }
        ensures follows { Follows self.old.machine (new_object t local name.now len)
            (place_outcome result) self.new.machine }
        ensures grew { result ≡ Err Refusal.Oom → Grew self.old.slides self.new.slides }
        ensures stack { self.new.stack ≡ self.old.stack }
    {
        if let Some(refusal) = self.refused_thread(t) {
            return Err(refusal);
        }
        let request = match measure(&self.parts.types, local, name, known, len) {
            Ok(request) => request,
            Err(refusal) => return Err(refusal),
        };
        remember(&mut self.recent, &mut self.earlier, request.type_id);
        let owed = self.parts.safe.births_owed();
        let Ok(()) = reserve_entry(&mut self.parts.roots.finals, owed, request.finalizer) else {
            return Err(Refusal::NoMemory);
        };
        let large = self.parts.options.large;
        if request.size < large {
            return make_small(&mut self.parts, t, local, request);
        }
        make_large(&mut self.parts, t, local, request)
    }
}

// Keeps the type as the one that was asked for last, and that before it, where it is another.
#[inline(always)]
fn remember(recent: &mut TypeId, earlier: &mut TypeId, t: TypeId) {
    if t.0 != recent.0 {
        *earlier = *recent;
        *recent = t;
    }
}

// Makes a small object, which the local takes, at the front of the context of thread `t`. There is room for its entry.
// It is refused as `new_object` is, once room was sought.
#[inline(always)]
fn make_small(parts: &mut Parts, t: u64, local: u64, request: Request) -> Result<u64, Refusal>
    requires runtime { IsRuntime parts.old }
    requires passed { thread_refusal (seen parts.old) t ≡ None }
    requires asked { IsAsked parts.old.types local request }
    requires entry { request.finalizer ≡ true → births_owed parts.old.safe + 1 ≤ parts.old.roots.finals.spare }
    requires small { request.size < parts.old.options.large }
    ensures made { FollowsAsked parts.old parts.new t local request result }
    ensures grew { result ≡ Err Refusal.Oom → Grew parts.old.collector.slides parts.new.collector.slides }
    ensures stack { parts.new.collector.marker.capacity ≡ parts.old.collector.marker.capacity }
    ensures runtime { IsRuntime parts.new }
{
    let thread = t as usize;
    if let Err(why) = make_room(parts, thread, request.size) {
        return Err(refusal_of(why));
    }
    let place = allocate(
        &mut parts.space.heap,
        &parts.types,
        &mut parts.space.bricks,
        thread,
        request.type_id,
        request.len,
        request.size,
    );
    register_entry(&mut parts.roots.finals, request.finalizer, place);
    parts.roots.locals[index_of(t, local)] = place;
    parts.sums.spent0 += request.size;
    Ok(place)
}

// Makes a large object, which the local of thread `t` takes, in a large segment. There is room for its entry. It is
// refused as `new_object` is, once a place was sought.
#[inline(always)]
fn make_large(parts: &mut Parts, t: u64, local: u64, request: Request) -> Result<u64, Refusal>
    requires runtime { IsRuntime parts.old }
    requires passed { thread_refusal (seen parts.old) t ≡ None }
    requires asked { IsAsked parts.old.types local request }
    requires entry { request.finalizer ≡ true → births_owed parts.old.safe + 1 ≤ parts.old.roots.finals.spare }
    requires large { parts.old.options.large ≤ request.size }
    ensures made { FollowsAsked parts.old parts.new t local request result }
    ensures grew { result ≡ Err Refusal.Oom → Grew parts.old.collector.slides parts.new.collector.slides }
    ensures stack { parts.new.collector.marker.capacity ≡ parts.old.collector.marker.capacity }
    ensures runtime { IsRuntime parts.new }
{
    if let Err(why) = make_large_room(parts, request.size) {
        return Err(refusal_of(why));
    }
    let Some(place) = parts.large.allocate(
        &mut parts.space.heap,
        &parts.types,
        &mut parts.space.bricks,
        SegKind::Large,
        request.type_id,
        request.len,
    )
    else {
        unreachable!()
    };
    register_entry(&mut parts.roots.finals, request.finalizer, place);
    parts.roots.locals[index_of(t, local)] = place;
    parts.sums.spent_large += request.size;
    Ok(place)
}

// The type that a script defined under this name.
#[inline(always)]
pub(crate) fn defined(types: &Types, name: &[u8]) -> Option<TypeId>
    requires { AllByRecursion IsLawfulRow types.now }
    ensures { IsDefined types.now name.now result }
{
    match types.by_name(name) {
        Some(t) if t.0 != 0 => Some(t),
        _ => None,
    }
}

// The type that a script defined under this name, where it may be known.
#[inline(always)]
fn defined_or_known(types: &Types, name: &[u8], known: Option<TypeId>) -> Option<TypeId>
    requires lawful { AllByRecursion IsLawfulRow types.now }
    requires known { IsKnown types.now name.now known }
    ensures { IsDefined types.now name.now result }
{
    if known.is_some() {
        return known;
    }
    defined(types, name)
}

// What a line that makes an object asks for, or the first of the checks on it that fails.
#[inline(always)]
pub(crate) fn measure(
    types: &Types,
    local: u64,
    name: &[u8],
    known: Option<TypeId>,
    len: Option<u64>,
) -> Result<Request, Refusal>
    requires lawful { AllByRecursion IsLawfulRow types.now }
    requires known { IsKnown types.now name.now known }
    ensures { Measured types.now local name.now len result }
{
    let Some(type_id) = defined_or_known(types, name, known) else {
        return Err(Refusal::UnknownType);
    };
    if types.has_length(type_id) != len.is_some() {
        return Err(Refusal::BadShape);
    }
    if local >= LOCALS_OF_A_THREAD {
        return Err(Refusal::NoSlot);
    }
    let len = len.unwrap_or(0);
    match types.size_of(type_id, len) {
        Some(size) => Ok(Request {
            type_id,
            len,
            size,
            finalizer: types.finalizer(type_id),
        }),
        None => Err(Refusal::TooBig),
    }
}

// Makes room for an entry beside those that are owed to objects that threads have begun, where one is wanted.
#[inline(always)]
pub(crate) fn reserve_entry(finals: &mut Finals, owed: usize, wanted: bool) -> Result<(), NoMemory>
    requires few { owed ≤ 16 }
    ensures ok { OnOk result (wanted ≡ true → owed + 1 ≤ finals.new.spare) }
    ensures err { OnErr result (wanted ≡ true) }
    ensures entries { finals.new.entries ≡ finals.old.entries }
    ensures ready { finals.new.ready ≡ finals.old.ready }
    ensures spare { finals.old.spare ≤ finals.new.spare }
{
    if wanted {
        finals.reserve(owed + 1)
    } else {
        Ok(())
    }
}

// Adds an entry for the object at a place, where one is wanted.
pub(crate) fn register_entry(finals: &mut Finals, wanted: bool, place: u64)
    requires { wanted ≡ true → 1 ≤ finals.old.spare }
    ensures entries { finals.new.entries
        ≡ (if wanted then finals.old.entries ++ place ∷ [] else finals.old.entries) }
    ensures ready { finals.new.ready ≡ finals.old.ready }
    ensures spare { finals.new.spare + (if wanted then 1 else 0) ≡ finals.old.spare }
{
    if wanted {
        finals.register(place);
    }
}

// How it is told that there is no room for an object.
pub(crate) fn refusal_of(why: NoRoom) -> Refusal
    ensures { result ≡ refusal_of_room why }
{
    match why {
        NoRoom::Wait(k) => Refusal::Wait(k),
        NoRoom::Acquire(AcquireFault::OverLimit) => Refusal::Oom,
        NoRoom::Acquire(AcquireFault::NoMemory) => Refusal::NoMemory,
    }
}
