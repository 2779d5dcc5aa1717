//! The heap of an image: segment by segment its memory is checked and taken.
ghost use Rattle.std.specs.Prelude.{◌≡◌, ℕ, ◌+◌, ◌-◌, ◌<◌, ◌≤◌, ◌^◌, ◌∷◌, ◌++◌, ◌&&◌, length, List, OnOk, Ok};
ghost use Rattle.std.specs.Prelude.{IfErr, IfOk, if◌then◌else◌};
ghost use Rattle.clr_types.specs.Segments.{first_place, reserved_end};
ghost use Rattle.clr_types.specs.Types.{TypeRow};
ghost use Rattle.clr_types.specs.declared.item.Item.{Item as Found};
ghost use Rattle.clr_fields.specs.Fields.{times};
ghost use Rattle.clr_load.specs.Bodies.{IsBody, LeavesRoom, Loads};
ghost use Rattle.clr_heap.specs.Drafts.{has_kind, IsNextHead};
ghost use Rattle.clr_sos.specs.Faults.{stands};
ghost use Rattle.clr_format.specs.HeapFields as fields;
ghost use Rattle.clr_format.specs.HeapFields.{empty_body, heap_fields, memory_field, offset_in, segment_fields};
ghost use Rattle.clr_load.specs.ItemScans.{items_of};
ghost use Rattle.clr_load.specs.RangeScans.{ScansItems};
ghost use Rattle.clr_load.specs.Scans.{IsScan};

use crate::cells::Scan;
use crate::items::items_fault;
use crate::segments::read_segment_head;
use crate::starts::{Range, Starts};
use clr_fields::{LoadFault, Reader};
use clr_format::Head;
use clr_heap::{HeapDraft, SegmentHead, load_memory};
use clr_types::{SegKind, Types};
use std::alloc::Global;

/// The segments that were read, where the memory of each stands in the bytes, and where objects start.
#[derive(Drop)]
pub struct Body {
    pub draft: HeapDraft,
    pub offsets: Vec<usize>,
    pub starts: Starts,
}

// The address behind the last byte of a segment that is there.
fn end_there(scan: &Scan<'_>) -> u64
    requires { IsScan scan.now }
    ensures low { first_place scan.now.info ≤ result }
    ensures high { result ≤ scan.now.info.end }
    ensures there { (x : ℕ) → x < scan.now.info.end
        → scan.now.at + (x - first_place scan.now.info) < length scan.now.bytes.now → x < result }
{
    let first = scan.info.first_place();
    let there = (scan.bytes.len() - scan.at) as u64;
    first + there.min(scan.info.end - first)
}

// Where the objects of a segment start, if it has no fault. The memory for it is for bytes that are there alone.
fn scan_items(alloc: Global, scan: &Scan<'_>) -> Result<Range, LoadFault>
    requires { IsScan scan.now }
    ensures { ScansItems scan.now result }
{
    let mut range = Range::new(alloc, scan.info.first_place(), end_there(scan))?;
    match items_fault(scan, &mut range) {
        Some(a) => Err(LoadFault::At(offset_of(scan, a))),
        None => Ok(range),
    }
}

// The offset of an address.
fn offset_of(scan: &Scan<'_>, a: u64) -> u64
    requires scan { IsScan scan.now }
    requires near { a < 2 ^ 62 }
    ensures { result ≡ offset_in scan.now.info scan.now.at a }
{
    scan.at as u64 + a.saturating_sub(scan.info.base + 4088)
}

// Takes the memory of a segment that stands where the reader is.
fn read_memory(
    alloc: Global,
    reader: &mut Reader<'_>,
    head: &Head,
    types: &Types,
    body: &mut Body,
    segment: SegmentHead,
) -> Result<(), LoadFault>
    requires lawful { IsNextHead body.old.draft segment }
    requires limit { head.now.limit ≡ body.old.draft.limit }
    requires small { body.old.draft.limit ≤ 1073741824 }
    requires room { LeavesRoom body.old }
    ensures loads { (b : fields.Body) → IsBody reader.old.bytes types.now body.old b
        → Loads (IsBody reader.old.bytes types.now body.new)
        (memory_field head.now types.now b segment.info segment.start1 segment.start0)
        reader.old reader.new result }
    ensures limit { OnOk result (body.new.draft.limit ≡ body.old.draft.limit) }
    ensures room { OnOk result (LeavesRoom body.new) }
{
    let at = reader.at();
    let bytes = reader.bytes();
    let scan = Scan {
        bytes,
        types,
        info: segment.info,
        start1: segment.start1,
        start0: segment.start0,
        large: head.large,
        at,
    };
    let range = scan_items(alloc, &scan)?;
    let Ok(memory) = load_memory(alloc, &segment.info, bytes, at) else {
        return Err(LoadFault::NoMemory);
    };
    let Ok(()) = body.draft.add_segment(segment, memory) else {
        return Err(LoadFault::NoMemory);
    };
    body.offsets.push(at)?;
    body.starts.add(range)?;
    reader.skip((segment.info.end - segment.info.first_place()) as usize);
    Ok(())
}

/// One segment more.
fn read_segment(
    alloc: Global,
    reader: &mut Reader<'_>,
    head: &Head,
    types: &Types,
    body: &mut Body,
) -> Result<(), LoadFault>
    requires limit { head.now.limit ≡ body.old.draft.limit }
    requires room { LeavesRoom body.old }
    ensures loads { (b : fields.Body) → IsBody reader.old.bytes types.now body.old b
        → Loads (IsBody reader.old.bytes types.now body.new) (segment_fields head.now types.now b)
        reader.old reader.new result }
    ensures limit { OnOk result (body.new.draft.limit ≡ body.old.draft.limit) }
    ensures room { OnOk result (LeavesRoom body.new) }
{
    let segment = read_segment_head(reader, &body.draft, head)?;
    read_memory(alloc, reader, head, types, body, segment)
}

// So many segments.
fn read_segments(
    alloc: Global,
    reader: &mut Reader<'_>,
    head: &Head,
    types: &Types,
    body: &mut Body,
    n: u64,
) -> Result<(), LoadFault>
    requires limit { head.now.limit ≡ body.old.draft.limit }
    requires room { LeavesRoom body.old }
    ensures { (b : fields.Body) → IsBody reader.old.bytes types.now body.old b
        → Loads (IsBody reader.old.bytes types.now body.new) (times n (segment_fields head.now types.now) b)
        reader.old reader.new result }
{
    for _turn in 0..n {
        read_segment(alloc, reader, head, types, body)?;
    }
    Ok(())
}

/// The heap of an image, which is kept where nothing is kept yet.
pub fn read_heap(
    alloc: Global,
    reader: &mut Reader<'_>,
    head: &Head,
    types: &Types,
    body: &mut Body,
) -> Result<(), LoadFault>
    requires limit { head.now.limit ≡ body.old.draft.limit }
    requires room { LeavesRoom body.old }
    requires empty { IsBody reader.old.bytes types.now body.old (empty_body head.now.limit) }
    ensures { Loads (IsBody reader.old.bytes types.now body.new) (heap_fields head.now types.now)
        reader.old reader.new result }
{
    let at = reader.at();
    let n = reader.from_to(2, 4096)?;
    read_segments(alloc, reader, head, types, body, n)?;
    if has_needed(&body.draft) {
        Ok(())
    } else {
        Err(LoadFault::At(at as u64))
    }
}

// Whether there is an ephemeral segment and a large one.
fn has_needed(draft: &HeapDraft) -> bool
    ensures { result ≡ (has_kind SegKind.Ephemeral draft.now.segments && has_kind SegKind.Large draft.now.segments) }
{
    draft.has(SegKind::Ephemeral) && draft.has(SegKind::Large)
}

impl Body {
    /// No segments, which may reserve `limit` bytes together.
    ///
    /// `NoMemory` comes where there is no memory for the heap's table of contexts.
    pub fn empty(alloc: Global, limit: u64) -> Result<Body, LoadFault>
        requires { limit ≤ 1073741824 }
        ensures limit { IfOk result (λ body. body.draft.limit ≡ limit) }
        ensures room { IfOk result (λ body. LeavesRoom body) }
        ensures empty { IfOk result (λ body. (bytes : List ℕ) (rows : List TypeRow)
            → IsBody bytes rows body (empty_body limit)) }
        ensures only { IfErr result (λ e. e ≡ LoadFault.NoMemory) }
    {
        let Ok(draft) = HeapDraft::empty(alloc, limit) else {
            return Err(LoadFault::NoMemory);
        };
        Ok(Body {
            draft,
            offsets: Vec::new(alloc),
            starts: Starts::new(alloc),
        })
    }
}
