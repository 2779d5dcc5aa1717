// The first pass: ends, boundaries and items.
ghost use Rattle.std.specs.Prelude.{◌≡◌, ℕ, ◌+◌, ◌*◌, ◌-◌, ◌<◌, ◌≤◌, ◌^◌, length};
ghost use Rattle.clr_heap.specs.Parts.{hole_from};
ghost use Rattle.clr_heap.specs.View.{holes_of, IsHeap};
ghost use Rattle.clr_sos.specs.Faults as verify;
ghost use Rattle.clr_sos.specs.Faults.{AreInside, items_fault_of};
ghost use Rattle.clr_sos.specs.CellScans.{are_ordered, IsNext, limits_of};

use crate::verify::cells::{Limits, Scan, checked_item};
use clr_heap::{Heap, SegInfo, SegKind};
use clr_types::Types;

// The first fault of the segments, where objects of `large` bytes and more are large.
pub fn segments_fault(heap: &Heap, types: &Types, large: u64) -> Option<u64>
    requires { AreInside heap.now }
    ensures fault { result ≡ verify.segments_fault types.now large heap.now 0 (length heap.now.segments) }
    ensures heap { IsHeap heap.now }
{
    for k in 0..heap.segments() {
        match segment_fault(heap, types, large, k) {
            Some(a) => return Some(a),
            None => {}
        }
    }
    None
}

// The first fault of segment `k`.
fn segment_fault(heap: &Heap, types: &Types, large: u64, k: usize) -> Option<u64>
    requires in_range { k < length heap.now.segments }
    requires rests { AreInside heap.now }
    ensures { result ≡ verify.segment_fault types.now large heap.now k }
{
    let limits = limits(heap, large, k);
    let segment = heap.info(k);
    if is_ordered(segment, limits) {
        items_fault(&Scan {
            heap,
            types,
            k,
            limits,
        })
    } else {
        Some(segment.base)
    }
}

// The kind, the end and the boundaries of segment `k`, where objects of `large` bytes and more are large.
fn limits(heap: &Heap, large: u64, k: usize) -> Limits
    requires { k < length heap.now.segments }
    ensures { result ≡ limits_of large heap.now k }
{
    let segment = heap.info(k);
    let (start1, start0) = if segment.kind == SegKind::Ephemeral {
        heap.boundaries()
    } else {
        (0, 0)
    };
    Limits {
        kind: segment.kind,
        end: segment.end,
        start1,
        start0,
        large,
    }
}

// Whether the boundaries stand in order where they are the segment's.
fn is_ordered(segment: SegInfo, limits: Limits) -> bool
    requires { segment.base + 4096 < 2 ^ 64 }
    ensures { result ≡ are_ordered segment limits }
{
    let first = segment.first_place();
    segment.kind != SegKind::Ephemeral
        || (limits.start1 % 8 == 0
            && first <= limits.start1
            && limits.start1 <= segment.end
            && limits.start0 % 8 == 0
            && limits.start1 <= limits.start0
            && limits.start0 <= segment.end)
}

// The first fault of the items of a segment.
fn items_fault(scan: &Scan<'_>) -> Option<u64>
    requires in_range { scan.now.k < length scan.now.heap.now.segments }
    requires limits { scan.now.limits ≡ limits_of scan.now.limits.large scan.now.heap.now scan.now.k }
    requires rests { AreInside scan.now.heap.now }
    ensures { result ≡ items_fault_of scan.now.types.now scan.now.limits.large scan.now.heap.now scan.now.k }
{
    let mut place = scan.heap.info(scan.k).first_place();
    let mut next = first_hole(scan.heap, scan.k, place);
    while place < scan.limits.end {
        match hole_at(scan.heap, scan.k, place, next) {
            Some(high) => {
                place = high;
                next = first_hole(scan.heap, scan.k, place);
            }
            None => match checked_item(scan, next, place) {
                Ok(item) => place += item.size,
                Err(a) => return Some(a),
            },
        }
    }
    None
}

// The end of the hole at a place, up to which `next` says that there is none.
#[inline]
fn hole_at(heap: &Heap, k: usize, place: u64, next: u64) -> Option<u64>
    requires in_range { k < length heap.now.segments }
    requires small { place < 2 ^ 62 }
    requires next { IsNext (holes_of heap.now k) place next }
    ensures { result ≡ hole_from (holes_of heap.now k) place }
{
    if place < next {
        None
    } else {
        heap.hole_end(k, place)
    }
}

// Where the first hole of segment `k` begins from a place on: the highest address where none does.
fn first_hole(heap: &Heap, k: usize, place: u64) -> u64
    requires in_range { k < length heap.now.segments }
    requires small { place < 2 ^ 62 }
    ensures { IsNext (holes_of heap.now k) place result }
{
    match heap.hole_end(k, place) {
        Some(_) => place,
        None => heap.next_hole(k, place),
    }
}
