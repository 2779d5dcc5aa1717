// A heap that is built segment by segment.
ghost use Rattle.std.specs.Prelude.{◌≡◌, ℕ, ◌+◌, ◌<◌, ◌≤◌, ◌^◌, length, find, if◌then◌else◌, IfOk, OnErr, OnOk};
ghost use Rattle.std.specs.List.{AllByRecursion};
ghost use Rattle.clr_types.specs.Segments.{empty_segment, ephemeral, first_place, reserved_end, reserved_sum};
ghost use Rattle.clr_types.specs.Segments.{same_kind, segments_of};
ghost use Rattle.clr_types.specs.declared.segment.SegInfo.{SegInfo as Segment};
ghost use Rattle.clr_heap.specs.Drafts.{drafted, empty_heap, has_kind, is_young, IsNextHead};
ghost use Rattle.clr_heap.specs.Memories.{shape_of};

use super::segment_map::SegmentMap;
use super::segments::{push_both, reserve_both};
use super::{Heap, no_contexts};
use clr_mem::{Mem, NoMemory};
use clr_types::{FIRST_OFFSET, SegInfo, SegKind, Span};
use std::alloc::Global;
use std::marker::Model;

/// A segment, and the boundaries of the generations where it is the ephemeral one.
///
/// The boundaries are places of it: those from `start0` on are generation 0, and those from `start1` up to it
/// generation 1. They tell nothing where the segment isn't ephemeral.
#[derive(Clone, Copy, Debug, PartialEq, Eq)]
pub struct SegmentHead {
    pub info: SegInfo,
    pub start1: u64,
    pub start0: u64,
}

/// A heap that is built segment by segment, by rising base, as one that is read from an image is.
///
/// Its segments may be of any size up to the limit, also small and ephemeral ones of more than 64 MiB, which no heap
/// acquires. No thread has a context. It becomes a [`Heap`] once its one ephemeral segment is there.
#[derive(Drop)]
pub struct HeapDraft {
    alloc: Global,
    memories: Vec<Mem>,
    segments: Vec<SegInfo>,
    rests: Vec<Option<Span>>,
    start1: u64,
    start0: u64,
    top: u64,
    limit: u64,
    map: SegmentMap,
}

impl Model for HeapDraft {
    ghost use Rattle.clr_heap.specs.Drafts.{IsDraft};
    ghost use Rattle.clr_heap.specs.View.{HeapView};

    ghost Value = { HeapView };

    ghost view = { λ h. record {
      memories = h.memories.items;
      segments = h.segments.items;
      rests = h.rests.items;
      start1 = h.start1;
      start0 = h.start0;
      top = h.top;
      limit = h.limit;
    } };

    ghost invariant = { λ h. IsDraft (record {
      memories = h.memories.items;
      segments = h.segments.items;
      rests = h.rests.items;
      start1 = h.start1;
      start0 = h.start0;
      top = h.top;
      limit = h.limit;
    }) };
}

impl HeapDraft {
    ghost use Rattle.clr_heap.specs.Drafts.{IsDraft};
    ghost use Rattle.clr_heap.specs.View.{frame, segment_at};

    /// No segments, no contexts, and both boundaries 0. All segments together may reserve `limit` bytes, which are at
    /// most 1 GiB.
    ///
    /// `NoMemory` comes where there is no memory for the table of contexts.
    pub fn empty(alloc: Global, limit: u64) -> Result<HeapDraft, NoMemory>
        requires { limit ≤ 1073741824 }
        ensures { IfOk result (λ draft. draft ≡ empty_heap limit) }
    {
        let rests = no_contexts(alloc)?;
        let map = SegmentMap::new(alloc)?;
        Ok(HeapDraft {
            alloc,
            map,
            memories: Vec::new(alloc),
            segments: Vec::new(alloc),
            rests,
            start1: 0,
            start0: 0,
            top: 0,
            limit,
        })
    }

    /// Nothing: a call for the evidence alone of what holds of every draft.
    #[inline]
    pub fn lawful(&self)
        ensures { IsDraft self.now }
    {
        let _ = &self.segments;
    }

    /// The end of the last reservation, as an address, and 0 where there is none.
    pub fn top(&self) -> u64
        ensures { result ≡ self.now.top }
    {
        self.top
    }

    /// How many bytes the segments reserve together.
    pub fn reserved(&self) -> u64
        ensures value { result ≡ reserved_sum (frame self.now) }
        ensures within { result ≤ self.now.limit }
        ensures small { self.now.limit ≤ 1073741824 }
    {
        self.segments.iter().map(|s| s.reserved).sum()
    }

    /// Whether a segment has this kind.
    pub fn has(&self, kind: SegKind) -> bool
        ensures { result ≡ has_kind kind self.now.segments }
    {
        self.segments.iter().any(|s| s.kind == kind)
    }

    /// The number of segments.
    pub fn segments(&self) -> usize
        ensures { result ≡ length self.now.segments }
    {
        self.segments.len()
    }

    /// Segment `k`, by rising base.
    pub fn info(&self, k: usize) -> SegInfo
        requires { k < length self.now.segments }
        ensures { result ≡ segment_at self.now k }
    {
        self.segments[k]
    }

    /// Appends a segment with its words, which stands above all others, and takes its boundaries where it is the
    /// ephemeral one. Its words are those of `memory`, at the same addresses.
    ///
    /// `NoMemory` comes where there is no memory for the tables of segments. Then nothing has changed.
    pub fn add_segment(&mut self, head: SegmentHead, memory: Mem) -> Result<(), NoMemory>
        requires next { IsNextHead self.old head }
        requires memory { shape_of memory ≡ (head.info.base, head.info.reserved) }
        ensures added { OnOk result (self.new ≡ drafted self.old head memory) }
        ensures err { OnErr result (self.new ≡ self.old) }
    {
        reserve_both(&mut self.memories, &mut self.segments)?;
        self.map.enter(head.info, self.segments.len());
        push_both(&mut self.memories, &mut self.segments, memory, head.info);
        (self.start1, self.start0) = boundaries_with(&head, self.start1, self.start0);
        self.top = head.info.base + head.info.reserved;
        Ok(())
    }

    /// The heap with these segments, words and boundaries. Takes no memory.
    ///
    /// It has to have one ephemeral segment, which stands above all small ones.
    pub fn finish(self) -> Heap
        requires one_ephemeral { length (segments_of SegKind.Ephemeral (frame self)) ≡ 1 }
        requires ephemeral_last { AllByRecursion (λ (s : Segment). s.base ≤ (ephemeral (frame self)).base)
            (segments_of SegKind.Small (frame self)) }
        ensures { result ≡ self }
    {
        let Some(young) = ephemeral_of(&self.segments) else {
            unreachable!()
        };
        Heap {
            alloc: self.alloc,
            memories: self.memories,
            segments: self.segments,
            rests: self.rests,
            start1: self.start1,
            start0: self.start0,
            top: self.top,
            limit: self.limit,
            ephemeral_first: young.base + FIRST_OFFSET,
            ephemeral_end: young.base + young.reserved,
            near: 0,
            map: self.map,
        }
    }
}

// The boundaries with this segment, where they were these.
fn boundaries_with(head: &SegmentHead, start1: u64, start0: u64) -> (u64, u64)
    ensures start1 { result.0 ≡ (if is_young head.now.info then head.now.start1 else start1) }
    ensures start0 { result.1 ≡ (if is_young head.now.info then head.now.start0 else start0) }
{
    if head.info.kind == SegKind::Ephemeral {
        (head.start1, head.start0)
    } else {
        (start1, start0)
    }
}

// The first ephemeral segment.
fn ephemeral_of(segments: &Vec<SegInfo>) -> Option<SegInfo>
    ensures { result ≡ find (λ s. same_kind SegKind.Ephemeral s.kind) segments.now.items }
{
    for s in segments {
        if s.kind == SegKind::Ephemeral {
            return Some(*s);
        }
    }
    None
}
