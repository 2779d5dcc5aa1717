//! From which images a run goes on.
ghost use Rattle.std.specs.Prelude.{◌≡◌, ℕ, ◌<◌, ◌≤◌, ◌^◌, IfSome, List, length, true};
ghost use Rattle.std.specs.List.{AllByRecursion};
ghost use Rattle.clr_fields.specs.TypeFields.{form_pattern};
ghost use Rattle.clr_types.specs.Segments.{ephemeral, is_small_or_ephemeral};
ghost use Rattle.clr_types.specs.Table.{IsLawfulRow};
ghost use Rattle.clr_types.specs.Types.{form_of, TypeRow, type_row};
ghost use Rattle.clr_heap.specs.View.{frame};
ghost use Rattle.clr_model.specs.LineGrammar.{is_name};
ghost use Rattle.clr_format.specs.Images.{IsImage, Parts};
ghost use Rattle.clr_load.specs.Shown.{ShowsParts};
ghost use Rattle.clr_open.specs.Fit as fits;
ghost use Rattle.clr_open.specs.Fit.{unfit, unfit_segments};
ghost use Rattle.clr_open.specs.Offsets.{AreHeadsAt, row_size, segments_from, types_size};

use clr_heap::{Heap, SegInfo, SegKind};
use clr_load::Image;
use clr_types::{Shape, TypeId, Types};

/// Segments begin at most here, so that addresses last for each script.
const HIGHEST_BASE: u64 = 1_152_921_504_606_846_976;

/// A small or ephemeral segment reserves at most so many bytes.
const MOST_RESERVED: u64 = 67_108_864;

/// How many bytes each new small segment is to reserve: as many as the ephemeral one does.
pub fn segment_size(heap: &Heap) -> u64
    ensures is { result ≡ (ephemeral (frame heap.now)).reserved }
    ensures small { result ≤ 1073741824 }
{
    heap.info(heap.ephemeral()).reserved
}

/// The offset of the first field of an image that no run has: a limit below two segments, a least size of large objects
/// that doesn't fit in one, a segment too high, or a small one too long. `None` where there is none.
pub fn unfit_field(image: &Image) -> Option<u64>
    requires { (bytes : List ℕ) × (p : Parts) × IsImage bytes p × ShowsParts image.now p }
    ensures { (bytes : List ℕ) → (p : Parts) → IsImage bytes p → ShowsParts image.now p → result ≡ unfit p }
{
    let segment = segment_size(&image.heap);
    if image.limit < 2 * segment {
        return Some(8);
    }
    if segment < image.large + 4096 {
        return Some(16);
    }
    unfit_segment(&image.heap, segments_at(image))
}

// The first such field of the segments, the first of which stands at an offset.
fn unfit_segment(heap: &Heap, at: u64) -> Option<u64>
    requires { at ≤ 2 ^ 32 }
    ensures { (memories : List ℕ) → AreHeadsAt at heap.now.segments memories
        → result ≡ unfit_segments heap.now.segments memories }
{
    let mut front = at;
    for k in 0..heap.segments() {
        let segment = heap.info(k);
        if let Some(field) = bad_field(segment) {
            return Some(front + field);
        }
        front += 48 + (segment.end - segment.first_place());
    }
    None
}

// How far the first such field of a segment stands from the segment's front.
fn bad_field(segment: SegInfo) -> Option<u64>
    ensures is { result ≡ fits.bad_field segment }
    ensures near { IfSome result (λ d. d ≤ 8) }
{
    if segment.base > HIGHEST_BASE {
        return Some(0);
    }
    if is_small(segment.kind) && segment.reserved > MOST_RESERVED {
        return Some(8);
    }
    None
}

// Whether a segment of this kind holds small objects.
fn is_small(kind: SegKind) -> bool
    ensures { result ≡ is_small_or_ephemeral kind }
{
    match kind {
        SegKind::Small | SegKind::Ephemeral => true,
        SegKind::Large | SegKind::Pinned => false,
    }
}

// The offset of the first segment.
fn segments_at(image: &Image) -> u64
    requires { AllByRecursion (λ (row : TypeRow). is_name row.name ≡ true) image.now.types }
    ensures is { result ≡ segments_from image.now.first image.now.types }
    ensures low { result ≤ 2 ^ 32 }
{
    let front = if image.first { 24 } else { 40 };
    front + types_bytes(&image.types) + 8
}

// How many bytes all types take.
fn types_bytes(types: &Types) -> u64
    requires { AllByRecursion (λ (row : TypeRow). is_name row.name ≡ true) types.now }
    ensures is { result ≡ types_size types.now }
    ensures low { result ≤ 2 ^ 30 }
{
    let mut bytes = 0;
    for t in 1..types.count() {
        bytes += type_bytes(types, TypeId(t));
    }
    bytes
}

// How many bytes a type takes.
fn type_bytes(types: &Types, t: TypeId) -> u64
    requires positive { 0 < t.0 }
    requires known { t.0 ≤ length types.now }
    requires named { AllByRecursion (λ (row : TypeRow). is_name row.name ≡ true) types.now }
    requires lawful { AllByRecursion IsLawfulRow types.now }
    ensures is { result ≡ row_size (type_row types.now t.0) }
    ensures low { result ≤ 1000 }
{
    (32 + types.name(t).len() + pattern_len(types.shape(t))) as u64
}

// How many bytes its pattern takes.
fn pattern_len(shape: Shape<'_>) -> usize
    ensures { result ≡ length (form_pattern (form_of shape.entry)) }
{
    match shape {
        Shape::Class(pattern) => pattern.len(),
        Shape::StructArray(pattern) => pattern.len(),
        Shape::RefArray | Shape::ByteArray => 0,
    }
}
