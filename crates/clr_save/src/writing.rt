//! Images are written.
ghost use Rattle.std.specs.Prelude.{◌≡◌, ℕ, ◌<◌, ◌^◌, ◌++◌, length, IfOk, OnOk};
ghost use Rattle.clr_heap.specs.View.{AreWalkable, IsHeap};
ghost use Rattle.clr_model.specs.Lawful.{IsPlaceNamed};
ghost use Rattle.clr_model.specs.Machine.{Machine};
ghost use Rattle.clr_format.specs.Saved.{image_bytes};
ghost use Rattle.clr_save.specs.Contents.{bytes_of, saved};
ghost use Rattle.clr_save.specs.SavedImages.{IsImageOf};
ghost use Rattle.clr_save.specs.Snapshots.{Shows};
ghost use Rattle.clr_save.specs.Written.{head_bytes};

use crate::put::{put_word, put_words};
use crate::put_segments::put_segments;
use crate::put_tables::{count_handles, put_tables};
use crate::put_types::put_types;
use crate::snapshot::Snapshot;
use clr_format::Head;
use clr_handles::Handles;
use clr_heap::Heap;
use clr_mem::NoMemory;
use clr_types::{Shape, TypeId, Types};
use std::alloc::{AllocError, Global};

// Puts what stands before the types at the end.
fn put_head(out: &mut Vec<u8>, head: &Head) -> Result<(), AllocError>
    ensures { OnOk result (out.new.items ≡ out.old.items ++ head_bytes head.now) }
{
    out.extend_from_slice(b"CLRHEAP2")?;
    put_word(out, head.limit)?;
    put_word(out, head.large)?;
    put_word(out, u64::from(head.compact_large))
}

// Puts a whole image at the end.
#[tactic(auto, unfolding(crate::specs::Contents::bytes_of))]
fn put_image(out: &mut Vec<u8>, snapshot: &Snapshot<'_>) -> Result<(), AllocError>
    requires { AreWalkable snapshot.now.types.now snapshot.now.heap.now }
    ensures { OnOk result (out.new.items ≡ out.old.items ++ bytes_of (saved snapshot.now)) }
{
    put_head(
        out,
        &Head {
            limit: snapshot.limit,
            large: snapshot.large,
            compact_large: snapshot.compact_large,
            first: false,
        },
    )?;
    put_types(out, snapshot.types)?;
    put_segments(out, snapshot.heap, snapshot.types)?;
    put_words(out, snapshot.locals)?;
    put_tables(
        out,
        snapshot.holder,
        snapshot.steps,
        snapshot.handles,
        snapshot.finals,
    )
}

/// The image of what a snapshot shows, in the second version. `NoMemory` comes only where there was no memory for its
/// bytes.
pub fn save(alloc: Global, snapshot: &Snapshot<'_>) -> Result<Vec<u8>, NoMemory>
    requires { AreWalkable snapshot.now.types.now snapshot.now.heap.now }
    ensures bytes { IfOk result (λ image. image.items ≡ bytes_of (saved snapshot.now)) }
    ensures image { IfOk result (λ image. (m : Machine) → Shows snapshot.now m → image.items ≡ image_bytes m) }
    ensures lawful { IfOk result (λ image. (m : Machine) → Shows snapshot.now m → IsPlaceNamed m
        → IsImageOf m image.items) }
{
    let mut out = Vec::with_capacity(alloc, image_len(snapshot))?;
    put_image(&mut out, snapshot)?;
    Ok(out)
}

// How many bytes the image has, so that memory for it is taken once. The heap is lawful, and a word holds the lengths
// of both queues.
fn image_len(snapshot: &Snapshot<'_>) -> usize
    ensures heap { IsHeap snapshot.now.heap.now }
    ensures entries { length snapshot.now.finals.now.entries < 2 ^ 64 }
    ensures ready { length snapshot.now.finals.now.ready < 2 ^ 64 }
{
    let fixed: usize = 24 + 8 + 8 + 8 + 8 + 8 + 8;
    fixed
        .saturating_add(types_len(snapshot.types))
        .saturating_add(segments_len(snapshot.heap))
        .saturating_add(snapshot.locals.len().saturating_mul(8))
        .saturating_add(snapshot.steps.len().saturating_mul(40))
        .saturating_add(handles_len(snapshot.handles))
        .saturating_add(snapshot.finals.entries().len().saturating_mul(8))
        .saturating_add(snapshot.finals.ready().len().saturating_mul(8))
}

// How many bytes all types have.
fn types_len(types: &Types) -> usize {
    let count = types.count();
    let mut len: usize = 0;
    for t in 1..count {
        let t = TypeId(t);
        let pattern = match types.shape(t) {
            Shape::Class(pattern) => pattern.len(),
            Shape::StructArray(pattern) => pattern.len(),
            Shape::RefArray | Shape::ByteArray => 0,
        };
        len = len
            .saturating_add(32)
            .saturating_add(types.name(t).len())
            .saturating_add(pattern);
    }
    len
}

// How many bytes all segments have. The heap is lawful.
fn segments_len(heap: &Heap) -> usize
    ensures { IsHeap heap.now }
{
    let mut len: usize = 0;
    for k in 0..heap.segments() {
        let segment = heap.info(k);
        let memory = segment.end - segment.first_place();
        len = len.saturating_add(48).saturating_add(memory as usize);
    }
    len
}

// How many bytes all handles have.
fn handles_len(handles: &Handles) -> usize {
    let count = count_handles(handles) as usize;
    count.saturating_mul(32)
}
