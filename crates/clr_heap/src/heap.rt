// The heap: its segments, their words, the boundaries of the generations and the rests of contexts.
ghost use Rattle.std.specs.Prelude.{◌≡◌, ℕ, ◌+◌, ◌*◌, ◌%◌, ◌<◌, ◌≤◌, ◌^◌, [], ◌∷◌, length, set, IfOk};
ghost use Rattle.clr_types.specs.Segments.{ended_at, ephemeral, first_place, generation, opening_segment, reserved_end};
ghost use Rattle.clr_types.specs.Segments.{stands_in};
ghost use Rattle.clr_types.specs.LawfulLayout.{IsLawfulSegment};
ghost use Rattle.clr_heap.specs.Memories.{first_memory};
ghost use Rattle.clr_heap.specs.View.{no_rests};

pub use crate::heap::draft::{HeapDraft, SegmentHead};
use crate::heap::segment_map::SegmentMap;
pub use crate::heap::segments::AcquireFault;
use clr_mem::{Mem, NoMemory};
use clr_types::{FIRST_OFFSET, SegInfo, SegKind, Span};
use std::alloc::{AllocError, Global};
use std::marker::Model;

mod contexts;
mod draft;
mod rest;
mod segment_map;
mod segments;
mod words;

/// The base of the first segment.
pub const FIRST_BASE: u64 = 0x1000_0000;

/// The segments, with the rests of the threads' contexts and the boundaries of the generations.
///
/// There is always exactly one ephemeral segment.
#[derive(Drop)]
pub struct Heap {
    alloc: Global,
    memories: Vec<Mem>,
    segments: Vec<SegInfo>,
    rests: Vec<Option<Span>>,
    start1: u64,
    start0: u64,
    top: u64,
    limit: u64,
    ephemeral_first: u64,
    ephemeral_end: u64,
    // A guess of the number of the ephemeral segment, where most words are.
    near: usize,
    map: SegmentMap,
}

impl Model for Heap {
    ghost use Rattle.clr_heap.specs.View.{HeapView, IsKept};

    ghost Value = { HeapView };

    ghost view = { λ h. record {
      memories = h.memories.items;
      segments = h.segments.items;
      rests = h.rests.items;
      start1 = h.start1;
      start0 = h.start0;
      top = h.top;
      limit = h.limit;
    } };

    ghost invariant = { λ h. IsKept (record {
      memories = h.memories.items;
      segments = h.segments.items;
      rests = h.rests.items;
      start1 = h.start1;
      start0 = h.start0;
      top = h.top;
      limit = h.limit;
    }) h.ephemeral_first h.ephemeral_end };
}

impl Heap {
    ghost use Rattle.clr_heap.specs.View.{first_of, frame, IsHeap, last_of, opening_heap, segment_at};

    /// One empty ephemeral segment, and above it one empty large one, each of `segment` bytes.
    /// Later segments are refused where all together would reserve more than `limit` bytes.
    pub fn new(alloc: Global, segment: u64, limit: u64) -> Result<Heap, NoMemory>
        requires aligned { segment % 4096 ≡ 0 }
        requires least { 262144 ≤ segment }
        requires most { segment ≤ 67108864 }
        requires room { 2 * segment ≤ limit }
        requires limit_small { limit ≤ 1073741824 }
        ensures { IfOk result (λ h. h ≡ opening_heap segment limit) }
    {
        let memories = first_memories(alloc, segment)?;
        let segments = first_segments(alloc, segment)?;
        let rests = no_contexts(alloc)?;
        let mut map = SegmentMap::new(alloc)?;
        map.enter_all(&segments);
        let first = FIRST_BASE + FIRST_OFFSET;
        Ok(Heap {
            alloc,
            memories,
            segments,
            rests,
            start1: first,
            start0: first,
            top: FIRST_BASE + segment + segment,
            limit,
            ephemeral_first: first,
            ephemeral_end: FIRST_BASE + segment,
            near: 0,
            map,
        })
    }

    /// Nothing: a call for the evidence alone that the heap is lawful, as every heap is.
    #[inline]
    pub fn lawful(&self)
        ensures { IsHeap self.now }
    {
        let _ = &self.segments;
    }

    /// The number of segments.
    pub fn segments(&self) -> usize
        ensures count { result ≡ length self.now.segments }
        ensures heap { IsHeap self.now }
    {
        self.segments.len()
    }

    /// Segment `k`, by rising base.
    pub fn info(&self, k: usize) -> SegInfo
        requires { k < length self.now.segments }
        ensures value { result ≡ segment_at self.now k }
        ensures lawful { IsLawfulSegment (segment_at self.now k) }
        ensures below_top { reserved_end (segment_at self.now k) ≤ self.now.top }
        ensures fits { self.now.top ≤ 2 ^ 61 + 2 ^ 30 }
        ensures heap { IsHeap self.now }
    {
        self.segments[k]
    }

    /// The highest end of a reservation that ever was.
    pub fn top(&self) -> u64
        ensures { result ≡ self.now.top }
    {
        self.top
    }

    /// The start of generation 1 and that of generation 0, in the ephemeral segment.
    pub fn boundaries(&self) -> (u64, u64)
        ensures { result ≡ (self.now.start1, self.now.start0) }
    {
        (self.start1, self.start0)
    }

    /// Moves the boundaries of the generations.
    pub fn set_boundaries(&mut self, start1: u64, start0: u64)
        ensures { self.new ≡ record self.old { start1 = start1; start0 = start0 } }
    {
        self.start1 = start1;
        self.start0 = start0;
    }

    /// The generation of a place: 2 outside the ephemeral segment.
    pub fn gen_of(&self, a: u64) -> u8
        ensures { result ≡ generation (frame self.now) a }
    {
        if a < self.ephemeral_first || a >= self.ephemeral_end || a < self.start1 {
            2
        } else if a < self.start0 {
            1
        } else {
            0
        }
    }

    /// Whether a place stands in the ephemeral segment.
    #[inline]
    pub fn is_ephemeral(&self, a: u64) -> bool
        ensures { result ≡ stands_in (ephemeral (frame self.now)) a }
    {
        self.ephemeral_first <= a && a < self.ephemeral_end
    }

    /// The number of the ephemeral segment.
    pub fn ephemeral(&self) -> usize
        ensures in_range { result < length self.now.segments }
        ensures segment { segment_at self.now result ≡ ephemeral (frame self.now) }
        ensures heap { IsHeap self.now }
    {
        self.segment_of(self.ephemeral_first)
    }

    /// Moves the end of segment `k`. No word changes.
    pub fn set_end(&mut self, k: usize, end: u64)
        requires in_range { k < length self.old.segments }
        requires above { first_of self.old k ≤ end }
        requires below { end ≤ reserved_end (segment_at self.old k) }
        requires aligned { end % 8 ≡ 0 }
        ensures { self.new
            ≡ record self.old { segments = set self.old.segments k (ended_at end (segment_at self.old k)) } }
    {
        self.segments[k].end = end;
    }
}

fn first_memories(alloc: Global, segment: u64) -> Result<Vec<Mem>, NoMemory>
    requires aligned { segment % 4096 ≡ 0 }
    requires most { segment ≤ 67108864 }
    ensures { IfOk result (λ v. v.items
        ≡ first_memory FIRST_BASE segment ∷ first_memory (FIRST_BASE + segment) segment ∷ []) }
{
    let low = Mem::new(alloc, FIRST_BASE, segment)?;
    let high = Mem::sparse(alloc, FIRST_BASE + segment, segment)?;
    let mut memories = Vec::new(alloc);
    memories.push(low)?;
    memories.push(high)?;
    Ok(memories)
}

fn first_segments(alloc: Global, segment: u64) -> Result<Vec<SegInfo>, NoMemory>
    requires { segment ≤ 67108864 }
    ensures { IfOk result (λ v. v.items
        ≡ opening_segment FIRST_BASE SegKind.Ephemeral segment
        ∷ opening_segment (FIRST_BASE + segment) SegKind.Large segment
        ∷ []) }
{
    let low = SegInfo::empty(SegKind::Ephemeral, FIRST_BASE, segment);
    let high = SegInfo::empty(SegKind::Large, FIRST_BASE + segment, segment);
    Ok(vec![in alloc; low, high]?)
}

fn no_contexts(alloc: Global) -> Result<Vec<Option<Span>>, AllocError>
    ensures { IfOk result (λ v. v.items ≡ no_rests) }
{
    vec![in alloc; None; 16]
}
