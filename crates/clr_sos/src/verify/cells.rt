// The checks of one cell.
ghost use Rattle.std.specs.Prelude.{◌≡◌, ◌≢◌, ℕ, ◌+◌, ◌*◌, ◌-◌, ◌<◌, ◌≤◌, ◌^◌, nat_le, ◌&&◌, ◌||◌, length, IfSome};
ghost use Rattle.std.specs.Prelude.{option_map};
ghost use Rattle.clr_types.specs.declared.TypeId.{TypeId};
ghost use Rattle.clr_types.specs.Types.{form_at, size_of};
ghost use Rattle.clr_heap.specs.View.{holes_of, last_of};
ghost use Rattle.clr_view.specs.Clean.{slots_end};
ghost use Rattle.clr_sos.specs.CheckedCells as cells;
ghost use Rattle.clr_sos.specs.Faults.{words_in};
ghost use Rattle.clr_sos.specs.CellScans.{IsNext, IsPlace, limits_of, rules_in, size_with, suits_object};

use clr_heap::{Heap, Item, SegKind};
use clr_types::header::SUPPRESSED;
use clr_types::{Shape, TypeId, Types};

// The kind of a segment, its end, the boundaries of the generations, which are 0 outside the ephemeral segment, and the
// least size of a large object.
#[derive(Clone, Copy)]
pub struct Limits {
    pub kind: SegKind,
    pub end: u64,
    pub start1: u64,
    pub start0: u64,
    pub large: u64,
}

// A segment that is checked: the heap and its types, the number of the segment, and its limits.
#[derive(Clone, Copy)]
pub struct Scan<'a> {
    pub heap: &'a Heap,
    pub types: &'a Types,
    pub k: usize,
    pub limits: Limits,
}

// The item at `place` of a segment, or the first address of its cell that isn't lawful. No hole begins between the
// place and `next`.
#[tactic(auto, unfolding(crate::specs::CheckedCells::checked_item))]
pub fn checked_item(scan: &Scan<'_>, next: u64, place: u64) -> Result<Item, u64>
    requires place { IsPlace scan.now.heap.now scan.now.k place }
    requires limits { scan.now.limits ≡ limits_of scan.now.limits.large scan.now.heap.now scan.now.k }
    requires next { IsNext (holes_of scan.now.heap.now scan.now.k) place next }
    ensures { result ≡ cells.checked_item (rules_in scan.now) (words_in scan.now.heap.now) place }
{
    let header = scan.heap.word_at(scan.k, place - 8);
    if !is_inside(scan.limits.end, next, place, 24) {
        return Err(place - 8);
    }
    if !is_header(header) {
        return Err(place - 8);
    }
    let found = scan.types.by_mt(scan.heap.word_at(scan.k, place));
    typed_item(scan, next, place, header, found)
}

// The item at `place` with this header and, where its method table word is known, this type.
fn typed_item(
    scan: &Scan<'_>,
    next: u64,
    place: u64,
    header: u64,
    found: Option<TypeId>,
) -> Result<Item, u64>
    requires place { IsPlace scan.now.heap.now scan.now.k place }
    requires room { place + 24 ≤ last_of scan.now.heap.now scan.now.k }
    requires limits { scan.now.limits ≡ limits_of scan.now.limits.large scan.now.heap.now scan.now.k }
    requires next { IsNext (holes_of scan.now.heap.now scan.now.k) place next }
    requires known { IfSome found (λ t. t.0 ≤ length scan.now.types.now) }
    ensures { result ≡ cells.typed_item (rules_in scan.now) (words_in scan.now.heap.now) place header
        (option_map (λ (t : TypeId). t.0) found) }
{
    let Some(type_id) = found else {
        return Err(if header == 0 { place } else { place - 8 });
    };
    if header != 0 && !scan.types.finalizer(type_id) {
        return Err(place - 8);
    }
    if !may_hold(scan.types, scan.limits.kind, type_id) {
        return Err(place);
    }
    let len = if scan.types.has_length(type_id) {
        scan.heap.word_at(scan.k, place + 8)
    } else {
        0
    };
    sized_item(scan, next, place, type_id, len)
}

// Whether a segment of this kind holds items of this type. A pinned one holds free items and arrays without references.
fn may_hold(types: &Types, kind: SegKind, type_id: TypeId) -> bool
    requires { type_id.0 ≤ length types.now }
    ensures { result ≡ cells.may_hold kind (form_at types.now type_id.0) }
{
    if kind != SegKind::Pinned {
        return true;
    }
    match types.shape(type_id) {
        Shape::ByteArray => true,
        Shape::StructArray(pattern) => !pattern.contains(&b'r'),
        Shape::Class(_) | Shape::RefArray => false,
    }
}

// The item of this type and length at `place`.
fn sized_item(
    scan: &Scan<'_>,
    next: u64,
    place: u64,
    type_id: TypeId,
    len: u64,
) -> Result<Item, u64>
    requires place { IsPlace scan.now.heap.now scan.now.k place }
    requires limits { scan.now.limits ≡ limits_of scan.now.limits.large scan.now.heap.now scan.now.k }
    requires next { IsNext (holes_of scan.now.heap.now scan.now.k) place next }
    requires known { type_id.0 ≤ length scan.now.types.now }
    ensures { result ≡ cells.sized_item (rules_in scan.now) (words_in scan.now.heap.now) place type_id.0 len
        (cells.checked_size (rules_in scan.now) place type_id.0 len) }
{
    let size = checked_size(scan.types, scan.limits, next, place, type_id, len)?;
    match contents_fault(scan, place, type_id, len, size) {
        Some(a) => Err(a),
        None => Ok(Item {
            place,
            size,
            type_id,
            len,
        }),
    }
}

// Whether a header says nothing, or that the object's finaliser is suppressed.
fn is_header(header: u64) -> bool
    ensures { result ≡ cells.is_header header }
{
    header == 0 || header == SUPPRESSED
}

// Whether so many bytes from a place on end within the segment, before the next hole.
fn is_inside(end: u64, next: u64, place: u64, size: u64) -> bool
    requires { place + size < 2 ^ 64 }
    ensures { result ≡ (nat_le (place + size) end && nat_le (place + size) next) }
{
    place + size <= end && place + size <= next
}

// The size of an item of this type and length, or the fault that it doesn't suit its segment.
fn checked_size(
    types: &Types,
    limits: Limits,
    next: u64,
    place: u64,
    type_id: TypeId,
    len: u64,
) -> Result<u64, u64>
    requires known { type_id.0 ≤ length types.now }
    requires low { 8 ≤ place }
    requires high { place < 2 ^ 62 }
    requires end { limits.end < 2 ^ 62 }
    ensures { result ≡ size_with types.now limits next place type_id.0 len }
{
    if type_id.0 == 0 {
        if len % 8 != 0 {
            return Err(place + 8);
        }
        if len > limits.end
            || !is_inside(limits.end, next, place, 24 + len)
            || crosses(limits, place, 24 + len)
        {
            return Err(place - 8);
        }
        return Ok(24 + len);
    }
    let Some(size) = types.size_of(type_id, len) else {
        return Err(place + 8);
    };
    if !is_inside(limits.end, next, place, size)
        || crosses(limits, place, size)
        || !suits(limits.large, limits.kind, size)
    {
        return Err(place - 8);
    }
    Ok(size)
}

// Whether so many bytes from a place on begin below a boundary and end above it.
fn crosses(limits: Limits, place: u64, size: u64) -> bool
    requires { place + size < 2 ^ 64 }
    ensures { result ≡ (cells.crosses limits.start1 place size || cells.crosses limits.start0 place size) }
{
    let end = place + size;
    (place < limits.start1 && limits.start1 < end) || (place < limits.start0 && limits.start0 < end)
}

// Whether an object of this size stands in a segment of this kind, where those of `large` bytes and more are large.
fn suits(large: u64, kind: SegKind, size: u64) -> bool
    ensures { result ≡ suits_object large kind size }
{
    match kind {
        SegKind::Large => size >= large,
        SegKind::Pinned => true,
        SegKind::Small | SegKind::Ephemeral => size < large,
    }
}

// The first byte of padding of an object that isn't zero.
fn contents_fault(scan: &Scan<'_>, place: u64, type_id: TypeId, len: u64, size: u64) -> Option<u64>
    requires place { IsPlace scan.now.heap.now scan.now.k place }
    requires known { type_id.0 ≤ length scan.now.types.now }
    requires size { size ≡ size_of (form_at scan.now.types.now type_id.0) len }
    requires below { place + size ≤ last_of scan.now.heap.now scan.now.k }
    ensures { result ≡ cells.contents_fault (rules_in scan.now) (words_in scan.now.heap.now) place type_id.0 len }
{
    if type_id.0 == 0 {
        return None;
    }
    let padding = padding_bytes(scan.types, type_id, len);
    if padding == 0 {
        return None;
    }
    let last = place + size - 16;
    first_byte(
        place + size - 8 - padding,
        last,
        scan.heap.word_at(scan.k, last),
    )
}

// How many bytes follow the slots of an object before its cell ends.
#[inline]
fn padding_bytes(types: &Types, type_id: TypeId, len: u64) -> u64
    requires { type_id.0 ≤ length types.now }
    ensures { result + slots_end (form_at types.now type_id.0) len + 8 ≡ size_of (form_at types.now type_id.0) len }
{
    match types.shape(type_id) {
        Shape::Class(pattern) if pattern.is_empty() => 8,
        Shape::ByteArray => (8 - len % 8) % 8,
        Shape::Class(_) | Shape::RefArray | Shape::StructArray(_) => 0,
    }
}

// The address of the lowest byte of a word that isn't zero and stands at `from` or above. The word's lowest byte stands
// at `a`.
fn first_byte(from: u64, a: u64, word: u64) -> Option<u64>
    requires { a < 2 ^ 62 }
    ensures { result ≡ cells.first_byte 8 from a word }
{
    let mut rest = word;
    for i in 0..8 {
        if a + i >= from && rest % 256 != 0 {
            return Some(a + i);
        }
        rest = rest / 256;
    }
    None
}
