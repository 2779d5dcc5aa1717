//! The segments of a heap, at the end of other bytes.
ghost use Rattle.std.specs.Prelude.{◌≡◌, ℕ, ◌<◌, ◌++◌, length, OnOk};
ghost use Rattle.clr_heap.specs.View.{AreWalkable, IsWalkable};
ghost use Rattle.clr_format.specs.HeapFields.{kind_number};
ghost use Rattle.clr_format.specs.Saved.{word_bytes, words_bytes};
ghost use Rattle.clr_save.specs.SavedWords.{bytes_of_segment, bytes_of_segments, head_of};
ghost use Rattle.clr_save.specs.Written.{words_of_head};

use crate::put::put_word;
use crate::put_memory::put_memory;
use clr_heap::{Heap, SegmentHead};
use clr_types::{SegKind, Types};
use std::alloc::AllocError;

// The number of a kind of segments.
fn number_of(kind: SegKind) -> u64
    ensures { result ≡ kind_number kind }
{
    match kind {
        SegKind::Small => 0,
        SegKind::Ephemeral => 1,
        SegKind::Large => 2,
        SegKind::Pinned => 3,
    }
}

// Segment `k`, and the boundaries of the generations where they are its own.
fn head_at(heap: &Heap, k: usize) -> SegmentHead
    requires { k < length heap.now.segments }
    ensures { result ≡ head_of heap.now k }
{
    let info = heap.info(k);
    let (start1, start0) = if info.kind == SegKind::Ephemeral {
        heap.boundaries()
    } else {
        (0, 0)
    };
    SegmentHead {
        info,
        start1,
        start0,
    }
}

// Puts the fields before a segment's memory at the end.
fn put_head(out: &mut Vec<u8>, head: &SegmentHead) -> Result<(), AllocError>
    ensures { OnOk result (out.new.items ≡ out.old.items ++ words_bytes (words_of_head head.now)) }
{
    put_word(out, head.info.base)?;
    put_word(out, head.info.reserved)?;
    put_word(out, number_of(head.info.kind))?;
    put_word(out, head.info.end)?;
    put_word(out, head.start1)?;
    put_word(out, head.start0)
}

// Puts segment `k` at the end.
fn put_segment(out: &mut Vec<u8>, heap: &Heap, types: &Types, k: usize) -> Result<(), AllocError>
    requires in_range { k < length heap.now.segments }
    requires walkable { IsWalkable types.now heap.now k }
    ensures { OnOk result (out.new.items ≡ out.old.items ++ bytes_of_segment types.now heap.now k) }
{
    put_head(out, &head_at(heap, k))?;
    put_memory(out, heap, types, k)
}

/// Puts the number of segments and each segment at the end.
pub fn put_segments(out: &mut Vec<u8>, heap: &Heap, types: &Types) -> Result<(), AllocError>
    requires { AreWalkable types.now heap.now }
    ensures { OnOk result (out.new.items ≡ out.old.items
        ++ (word_bytes (length heap.now.segments)
        ++ bytes_of_segments types.now heap.now 0 (length heap.now.segments))) }
{
    let count = heap.segments();
    put_word(out, count as u64)?;
    for k in 0..count {
        put_segment(out, heap, types, k)?;
    }
    Ok(())
}
