// Segments that are acquired and released.
ghost use Rattle.std.specs.Prelude.{◌≡◌, ◌≢◌, ◌↔◌, ℕ, ◌+◌, ◌%◌, ◌<◌, ◌≤◌, ◌^◌, [], ◌∷◌, ◌++◌, length, map, nat_le};
ghost use Rattle.std.specs.Prelude.{sum_by, vec_len, vec_capacity, IfOk, OnOk, OnErr, drop, take};
ghost use Rattle.std.specs.List.{remove};
ghost use Rattle.clr_types.specs.Segments.{reserved_sum, sealed_segment};

use super::Heap;
use crate::memory::memory_of;
use clr_mem::{Mem, NoMemory};
use clr_types::{SegInfo, SegKind};

/// No segment is acquired above this.
const HIGHEST_BASE: u64 = 1 << 61;

/// Why no segment was acquired.
#[derive(Clone, Copy, Debug, PartialEq, Eq)]
pub enum AcquireFault {
    /// With this segment more would be reserved than the limit.
    OverLimit,
    /// No memory was to be had.
    NoMemory,
}

impl From<NoMemory> for AcquireFault {
    ghost use Rattle.clr_heap.specs.declared.heap.segments.AcquireFault.TheVariants.{NoMemory};

    ghost from_gives = { λ _ fault. fault ≡ NoMemory };

    fn from(_: NoMemory) -> AcquireFault {
        AcquireFault::NoMemory
    }
}

impl Heap {
    ghost use Rattle.clr_heap.specs.View.{acquired, frame, no_rests, segment_at};

    /// Whether the limit allows that so many more bytes are reserved.
    pub fn allows(&self, size: u64) -> bool
        ensures { result ≡ nat_le (reserved_sum (frame self.now) + size) self.now.limit }
    {
        size <= self.limit - reserved_by(&self.segments)
    }

    /// Acquires an empty segment of `size` bytes above all others, and answers its number. An ephemeral one has 64 MiB
    /// at most. It seals the old one, which becomes small, and no place of the new one is old. No thread may have a
    /// context then, since its rest would stand in a small segment.
    ///
    /// `OverLimit` comes exactly where all segments together would reserve more than the limit, and `NoMemory` where
    /// there is no memory, or no address left, for the segment. After both nothing has changed.
    pub fn acquire(&mut self, kind: SegKind, size: u64) -> Result<usize, AcquireFault>
        requires kind { kind ≢ SegKind.Small }
        requires no_contexts { kind ≡ SegKind.Ephemeral → self.old.rests ≡ no_rests }
        requires aligned { size % 4096 ≡ 0 }
        requires least { 262144 ≤ size }
        requires most { kind ≡ SegKind.Ephemeral → size ≤ 67108864 }
        ensures number { IfOk result (λ k. k ≡ length self.old.segments) }
        ensures acquired { OnOk result (self.new ≡ acquired self.old kind size) }
        ensures over_limit { (result ≡ Err AcquireFault.OverLimit)
            ↔ (self.old.limit < reserved_sum (frame self.old) + size) }
        ensures err { OnErr result (self.new ≡ self.old) }
    {
        if !self.allows(size) {
            return Err(AcquireFault::OverLimit);
        }
        let base = self.top;
        // This never happens: no address is used twice, so it takes more than 2^40 segments.
        if base > HIGHEST_BASE {
            return Err(AcquireFault::NoMemory);
        }
        let memory = memory_of(self.alloc, kind, base, size)?;
        reserve_both(&mut self.memories, &mut self.segments)?;
        let k = self.segments.len();
        let segment = SegInfo::empty(kind, base, size);
        self.map.enter(segment, k);
        if kind == SegKind::Ephemeral {
            seal(&mut self.segments);
            push_both(&mut self.memories, &mut self.segments, memory, segment);
            let first = segment.first_place();
            self.start1 = first;
            self.start0 = first;
            self.ephemeral_first = first;
            self.ephemeral_end = base + size;
            self.near = k;
            self.top = base + size;
            return Ok(k);
        }
        push_both(&mut self.memories, &mut self.segments, memory, segment);
        self.top = base + size;
        Ok(k)
    }

    /// Gives segment `k` back. The segments after it have lower numbers from then on.
    pub fn release(&mut self, k: usize)
        requires in_range { k < length self.old.segments }
        requires not_ephemeral { (segment_at self.old k).kind ≢ SegKind.Ephemeral }
        ensures { self.new
            ≡ record self.old { memories = remove self.old.memories k; segments = remove self.old.segments k } }
    {
        let _ = self.memories.remove(k);
        let _ = self.segments.remove(k);
        self.near = near_without(self.near, k);
        self.map.enter_all(&self.segments);
    }
}

// The guess of a segment's number where segment `k` has gone.
fn near_without(near: usize, k: usize) -> usize {
    if k < near { near - 1 } else { near }
}

// How many bytes the segments reserve.
fn reserved_by(segments: &Vec<SegInfo>) -> u64
    requires { sum_by (λ s. s.reserved) segments.now.items < 2 ^ 64 }
    ensures { result ≡ sum_by (λ s. s.reserved) segments.now.items }
{
    segments.iter().map(|s| s.reserved).sum()
}

/// Makes room for one more of each.
///
/// `NoMemory` comes where there is no memory for it. Both keep their items always.
pub fn reserve_both(memories: &mut Vec<Mem>, segments: &mut Vec<SegInfo>) -> Result<(), NoMemory>
    ensures memories { memories.new.items ≡ memories.old.items }
    ensures segments { segments.new.items ≡ segments.old.items }
    ensures room { OnOk result ((vec_len memories.new < vec_capacity memories.new)
        × (vec_len segments.new < vec_capacity segments.new)) }
{
    memories.reserve(1)?;
    segments.reserve(1)?;
    Ok(())
}

/// Adds one of each, where there is room.
pub fn push_both(
    memories: &mut Vec<Mem>,
    segments: &mut Vec<SegInfo>,
    memory: Mem,
    segment: SegInfo,
)
    requires memories_room { vec_len memories.old < vec_capacity memories.old }
    requires segments_room { vec_len segments.old < vec_capacity segments.old }
    ensures memories { memories.new.items ≡ memories.old.items ++ memory ∷ [] }
    ensures segments { segments.new.items ≡ segments.old.items ++ segment ∷ [] }
{
    push_within(memories, memory);
    push_within(segments, segment);
}

fn push_within<T: Drop>(items: &mut Vec<T>, item: T)
    requires { vec_len items.old < vec_capacity items.old }
    ensures { items.new.items ≡ items.old.items ++ item ∷ [] }
{
    match items.push(item) {
        Ok(()) => {}
        Err(_) => unreachable!(),
    }
}

// Makes every ephemeral segment small.
fn seal(segments: &mut Vec<SegInfo>)
    ensures items { segments.new.items ≡ map sealed_segment segments.old.items }
    ensures room { vec_len segments.old < vec_capacity segments.old → vec_len segments.new < vec_capacity segments.new }
{
    for i in 0..segments.len() {
        segments[i] = segments[i].sealed();
    }
}
