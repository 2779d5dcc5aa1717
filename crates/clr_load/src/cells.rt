//! The items in the memory of a segment.
ghost use Rattle.std.specs.Prelude.{◌≡◌, ℕ, ◌+◌, ◌*◌, ◌-◌, ◌/◌, ◌%◌, ◌<◌, ◌≤◌, ◌^◌, ◌&&◌, ◌||◌, ◌==◌, length, nat_le};
ghost use Rattle.std.specs.Prelude.{IfErr, IfOk, IfSome, is_some, None, option_map, Some, true};
ghost use Rattle.clr_types.specs.declared.TypeId.{TypeId};
ghost use Rattle.clr_types.specs.Segments.{first_place, reserved_end};
ghost use Rattle.clr_types.specs.Types.{form_at, size_of};
ghost use Rattle.clr_view.specs.Clean.{slots_end};
ghost use Rattle.clr_types.specs.declared.item.Item.{Item as Found};
ghost use Rattle.clr_sos.specs.CheckedCells as cells;
ghost use Rattle.clr_load.specs.FoundItems.{IsThere};
ghost use Rattle.clr_load.specs.Scans.{AreThere, HasRoom, IsIn, IsScan, rules_in, words_in};

use byteorder::{ByteOrder, LittleEndian};
use clr_types::{Item, SegInfo, SegKind, Shape, TypeId, Types};

/// The header of an object whose finaliser is suppressed.
const SUPPRESSED: u64 = 0x4000_0000;

// A segment whose memory is in bytes: the types, the segment, its boundaries, the least size of a large object, and
// where its memory begins.
#[derive(Clone, Copy)]
pub struct Scan<'a> {
    pub bytes: &'a [u8],
    pub types: &'a Types,
    pub info: SegInfo,
    pub start1: u64,
    pub start0: u64,
    pub large: u64,
    pub at: usize,
}

// The offset of the word at an address.
#[inline]
pub fn offset_of(scan: &Scan<'_>, a: u64) -> u64
    requires scan { IsScan scan.now }
    requires low { scan.now.info.base + 4088 ≤ a }
    requires high { a < 2 ^ 62 }
    ensures { result ≡ scan.now.at + (a - (scan.now.info.base + 4088)) }
{
    scan.at as u64 + (a - (scan.info.base + 4088))
}

// The word at an address, where its bytes are there.
#[inline]
#[tactic(auto, unfolding(clr_fields::specs::Fields::word_at))]
fn word(scan: &Scan<'_>, a: u64) -> Option<u64>
    requires scan { IsScan scan.now }
    requires low { scan.now.info.base + 4088 ≤ a }
    requires high { a < 2 ^ 62 }
    ensures { result ≡ words_in scan.now a }
{
    let o = offset_of(scan, a) as usize;
    let end = scan.bytes.len();
    if o + 8 <= end {
        Some(LittleEndian::read_u64(&scan.bytes[o..o + 8]))
    } else {
        None
    }
}

// The item at a place, or the first address of its cell that isn't lawful.
#[tactic(auto, unfolding(clr_sos::specs::CheckedCells::checked_item))]
pub fn checked_item(scan: &Scan<'_>, place: u64) -> Result<Item, u64>
    requires scan { IsScan scan.now }
    requires place { IsIn scan.now place }
    ensures is { result ≡ cells.checked_item (rules_in scan.now) (words_in scan.now) place }
    ensures room { IfOk result (λ i. HasRoom scan.now place i) }
    ensures near { IfErr result (λ a. a < 2 ^ 62) }
{
    let Some(header) = word(scan, place - 8) else {
        return Err(place - 8);
    };
    if !is_inside(scan, place, 24) {
        return Err(place - 8);
    }
    if !is_header(header) {
        return Err(place - 8);
    }
    let Some(mt) = word(scan, place) else {
        return Err(place);
    };
    typed_item(scan, place, header, scan.types.by_mt(mt))
}

// The item at a place with this header and, where its method table word is known, this type.
fn typed_item(scan: &Scan<'_>, place: u64, header: u64, found: Option<TypeId>) -> Result<Item, u64>
    requires scan { IsScan scan.now }
    requires place { IsIn scan.now place }
    requires known { IfSome found (λ t. t.0 ≤ length scan.now.types.now) }
    ensures is { result ≡ cells.typed_item (rules_in scan.now) (words_in scan.now) place header
        (option_map (λ (t : TypeId). t.0) found) }
    ensures room { IfOk result (λ i. HasRoom scan.now place i) }
    ensures near { IfErr result (λ a. a < 2 ^ 62) }
{
    let Some(type_id) = found else {
        return Err(if header == 0 { place } else { place - 8 });
    };
    if header != 0 && !scan.types.finalizer(type_id) {
        return Err(place - 8);
    }
    if !may_hold(scan.types, scan.info.kind, type_id) {
        return Err(place);
    }
    if !scan.types.has_length(type_id) {
        return sized_item(scan, place, type_id, 0);
    }
    match word(scan, place + 8) {
        None => Err(place + 8),
        Some(len) => sized_item(scan, place, type_id, len),
    }
}

// Whether a segment of this kind holds items of this type. A pinned one holds free items and arrays without references.
fn may_hold(types: &Types, kind: SegKind, type_id: TypeId) -> bool
    requires { type_id.0 ≤ length types.now }
    ensures { result ≡ cells.may_hold kind (form_at types.now type_id.0) }
{
    if kind != SegKind::Pinned {
        return true;
    }
    match types.shape(type_id) {
        Shape::ByteArray => true,
        Shape::StructArray(pattern) => !pattern.contains(&b'r'),
        Shape::Class(_) | Shape::RefArray => false,
    }
}

// The item of this type and length at a place.
#[tactic(auto, using(clr_sos::proofs::PaddingBytes::has_size))]
fn sized_item(scan: &Scan<'_>, place: u64, type_id: TypeId, len: u64) -> Result<Item, u64>
    requires scan { IsScan scan.now }
    requires place { IsIn scan.now place }
    requires known { type_id.0 ≤ length scan.now.types.now }
    ensures is { result ≡ cells.sized_item (rules_in scan.now) (words_in scan.now) place type_id.0 len
        (cells.checked_size (rules_in scan.now) place type_id.0 len) }
    ensures room { IfOk result (λ i. HasRoom scan.now place i) }
    ensures near { IfErr result (λ a. a < 2 ^ 62) }
{
    let size = checked_size(scan, place, type_id, len)?;
    match contents_fault(scan, place, type_id, len, size) {
        Some(a) => Err(a),
        None => Ok(Item {
            place,
            size,
            type_id,
            len,
        }),
    }
}

// Whether a header says nothing, or that the object's finaliser is suppressed.
fn is_header(header: u64) -> bool
    ensures { result ≡ cells.is_header header }
{
    header == 0 || header == SUPPRESSED
}

// Whether so many bytes from a place on end within the segment.
fn is_inside(scan: &Scan<'_>, place: u64, size: u64) -> bool
    requires { place + size < 2 ^ 64 }
    ensures { result ≡ cells.is_inside (rules_in scan.now) place size }
{
    place + size <= scan.info.end
}

// The size of an item of this type and length, or the fault that it doesn't suit its segment.
fn checked_size(scan: &Scan<'_>, place: u64, type_id: TypeId, len: u64) -> Result<u64, u64>
    requires scan { IsScan scan.now }
    requires place { IsIn scan.now place }
    requires known { type_id.0 ≤ length scan.now.types.now }
    ensures is { result ≡ cells.checked_size (rules_in scan.now) place type_id.0 len }
    ensures size { IfOk result (λ size. size ≡ size_of (form_at scan.now.types.now type_id.0) len) }
    ensures inside { IfOk result (λ size. place + size ≤ scan.now.info.end) }
    ensures near { IfErr result (λ a. a < 2 ^ 62) }
{
    if type_id.0 == 0 {
        if len % 8 != 0 {
            return Err(place + 8);
        }
        if len > scan.info.end || !is_whole(scan, place, 0, 24 + len) {
            return Err(place - 8);
        }
        return Ok(24 + len);
    }
    let Some(size) = scan.types.size_of(type_id, len) else {
        return Err(place + 8);
    };
    if is_whole(scan, place, type_id.0, size) {
        Ok(size)
    } else {
        Err(place - 8)
    }
}

// Whether an item of this type and size may stand at a place.
fn is_whole(scan: &Scan<'_>, place: u64, t: u32, size: u64) -> bool
    requires { place + size < 2 ^ 64 }
    ensures is { result ≡ cells.is_whole (rules_in scan.now) place t size }
    ensures inside { result ≡ true → place + size ≤ scan.now.info.end }
{
    is_inside(scan, place, size)
        && !crosses(scan.start1, place, size)
        && !crosses(scan.start0, place, size)
        && suits(scan.info.kind, scan.large, t, size)
}

// Whether so many bytes from a place on begin below a boundary and end above it.
fn crosses(boundary: u64, place: u64, size: u64) -> bool
    requires { place + size < 2 ^ 64 }
    ensures { result ≡ cells.crosses boundary place size }
{
    place < boundary && boundary < place + size
}

// Whether an item of this type and size stands in a segment of this kind.
fn suits(kind: SegKind, large: u64, t: u32, size: u64) -> bool
    ensures { result ≡ cells.suits kind large t size }
{
    match kind {
        SegKind::Large => t == 0 || size >= large,
        SegKind::Small | SegKind::Ephemeral => t == 0 || size < large,
        SegKind::Pinned => true,
    }
}

// The first fault behind an item's method table word: a word that isn't there, or a byte that isn't zero behind the
// slots of an object, or behind the length of a free item.
fn contents_fault(scan: &Scan<'_>, place: u64, type_id: TypeId, len: u64, size: u64) -> Option<u64>
    requires scan { IsScan scan.now }
    requires place { IsIn scan.now place }
    requires known { type_id.0 ≤ length scan.now.types.now }
    requires size { size ≡ size_of (form_at scan.now.types.now type_id.0) len }
    requires below { place + size ≤ scan.now.info.end }
    ensures is { result ≡ cells.contents_fault (rules_in scan.now) (words_in scan.now) place type_id.0 len }
    ensures near { IfSome result (λ a. a < place + size) }
    ensures end { result ≡ None → scan.now.at + (place + size - 8 - (scan.now.info.base + 4088))
        ≤ length scan.now.bytes.now }
{
    let from = padding_from(scan, place, type_id, len, size);
    let count = (size - 16) / 8;
    let there = words_there(scan, place + 8, count);
    match dirty_byte(scan, place + 8, there, from) {
        Some(a) => Some(a),
        None if there < count => Some(place + 8 + 8 * there),
        None => None,
    }
}

// Where the bytes of an item begin that have to be zero.
fn padding_from(scan: &Scan<'_>, place: u64, type_id: TypeId, len: u64, size: u64) -> u64
    requires known { type_id.0 ≤ length scan.now.types.now }
    requires size { size ≡ size_of (form_at scan.now.types.now type_id.0) len }
    requires fits { place + size < 2 ^ 63 }
    ensures { result ≡ cells.padding_from (rules_in scan.now) place type_id.0 len }
{
    if type_id.0 == 0 {
        place + 16
    } else {
        place + size - 8 - padding_bytes(scan.types, type_id, len)
    }
}

// How many bytes follow the slots of an object before its cell ends.
#[inline]
fn padding_bytes(types: &Types, type_id: TypeId, len: u64) -> u64
    requires { type_id.0 ≤ length types.now }
    ensures { result + slots_end (form_at types.now type_id.0) len + 8 ≡ size_of (form_at types.now type_id.0) len }
{
    match types.shape(type_id) {
        Shape::Class(pattern) if pattern.is_empty() => 8,
        Shape::ByteArray => (8 - len % 8) % 8,
        Shape::Class(_) | Shape::RefArray | Shape::StructArray(_) => 0,
    }
}

// How many of the `count` words from an address on are there.
fn words_there(scan: &Scan<'_>, a: u64, count: u64) -> u64
    requires scan { IsScan scan.now }
    requires low { scan.now.info.base + 4088 ≤ a }
    requires high { a < 2 ^ 62 }
    ensures few { result ≤ count }
    ensures there { AreThere scan.now a result }
    ensures not_there { result < count → words_in scan.now (a + 8 * result) ≡ None }
    ensures end { 0 < result
        → scan.now.at + (a + 8 * result - (scan.now.info.base + 4088)) ≤ length scan.now.bytes.now }
{
    let o = offset_of(scan, a);
    let end = scan.bytes.len() as u64;
    (end.saturating_sub(o) / 8).min(count)
}

// Of `n` words from an address on, which are there, the lowest byte at `from` or above that isn't zero.
fn dirty_byte(scan: &Scan<'_>, a: u64, n: u64, from: u64) -> Option<u64>
    requires scan { IsScan scan.now }
    requires low { scan.now.info.base + 4088 ≤ a }
    requires high { a + 8 * n < 2 ^ 62 }
    requires there { AreThere scan.now a n }
    ensures is { result ≡ cells.first_in_words n from (words_in scan.now) a }
    ensures near { IfSome result (λ found. found < a + 8 * n) }
{
    let skipped = (from.saturating_sub(a) / 8).min(n);
    for i in skipped..n {
        let place = a + 8 * i;
        if let Some(found) = dirty_in(from, place, present(scan, place)) {
            return Some(found);
        }
    }
    None
}

// The word at an address, which is there.
#[inline]
pub fn present(scan: &Scan<'_>, a: u64) -> u64
    requires scan { IsScan scan.now }
    requires low { scan.now.info.base + 4088 ≤ a }
    requires high { a < 2 ^ 62 }
    requires there { is_some (words_in scan.now a) ≡ true }
    ensures { words_in scan.now a ≡ Some result }
{
    match word(scan, a) {
        Some(word) => word,
        None => 0,
    }
}

// The address of the lowest byte of a word that isn't zero and stands at `from` or above, as `first_byte` finds it, at
// once where the word is zero.
#[inline]
#[tactic(auto, using(crate::proofs::MemoryWords::zero_word))]
fn dirty_in(from: u64, a: u64, word: u64) -> Option<u64>
    requires { a < 2 ^ 62 }
    ensures is { result ≡ cells.first_byte 8 from a word }
    ensures near { IfSome result (λ found. found < a + 8) }
{
    if word == 0 {
        None
    } else {
        first_byte(from, a, word)
    }
}

// The address of the lowest byte of a word that isn't zero and stands at `from` or above. The word's lowest byte stands
// at `a`.
fn first_byte(from: u64, a: u64, word: u64) -> Option<u64>
    requires { a < 2 ^ 62 }
    ensures is { result ≡ cells.first_byte 8 from a word }
    ensures near { IfSome result (λ found. found < a + 8) }
{
    let mut rest = word;
    for i in 0..8 {
        if a + i >= from && rest % 256 != 0 {
            return Some(a + i);
        }
        rest = rest / 256;
    }
    None
}

// The item at a place, which the checks found.
pub fn item_there(scan: &Scan<'_>, place: u64) -> Item
    requires scan { IsScan scan.now }
    requires place { IsIn scan.now place }
    requires found { (i : Found) × IsThere scan.now place i }
    ensures { (i : Found) → IsThere scan.now place i → result ≡ i }
{
    let type_id = scan.types.of_mt(present(scan, place));
    let len = if scan.types.has_length(type_id) {
        present(scan, place + 8)
    } else {
        0
    };
    let size = scan.types.item_size(type_id, len);
    Item {
        place,
        size,
        type_id,
        len,
    }
}
