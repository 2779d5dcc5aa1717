//! The fields before the memory of a segment.
ghost use Rattle.std.specs.Prelude.{◌≡◌, ◌+◌, ◌<◌, ◌≤◌, ◌^◌, ◌%◌, IfOk, OnOk, slice_get};
ghost use Rattle.clr_fields.specs.Fields.{field};
ghost use Rattle.clr_fields.specs.Finds.{Finds};
ghost use Rattle.clr_types.specs.Segments.{reserved_sum};
ghost use Rattle.clr_heap.specs.Drafts.{IsNextHead};
ghost use Rattle.clr_heap.specs.View.{frame};
ghost use Rattle.clr_sos.specs.Faults as faults;
ghost use Rattle.clr_format.specs.HeapFields as fields;
ghost use Rattle.clr_format.specs.HeapFields.{is_base, is_boundary, is_end, is_reserved, kind_field, kinds_of};
ghost use Rattle.clr_format.specs.HeapFields.{segment_head_fields};

use clr_fields::{LoadFault, Reader};
use clr_format::Head;
use clr_heap::{HeapDraft, SegmentHead};
use clr_types::{SegInfo, SegKind};

// The base of the next segment: a multiple of 4,096 above all segments so far.
fn read_base(reader: &mut Reader<'_>, draft: &HeapDraft) -> Result<u64, LoadFault>
    ensures finds { Finds (field (is_base draft.now)) reader.old reader.new result }
    ensures high { IfOk result (λ base. base ≤ 2 ^ 61) }
    ensures above { IfOk result (λ base. draft.now.top ≤ base) }
    ensures least { IfOk result (λ base. 0x10000000 ≤ base) }
    ensures aligned { IfOk result (λ base. base % 4096 ≡ 0) }
{
    let at = reader.at();
    let base = reader.word()?;
    if base % 4096 == 0 && base >= 0x1000_0000 && base >= draft.top() && base <= 1 << 61 {
        Ok(base)
    } else {
        Err(LoadFault::At(at as u64))
    }
}

// How many bytes it reserves: with them all are within the limit.
fn read_reserved(reader: &mut Reader<'_>, draft: &HeapDraft, head: &Head) -> Result<u64, LoadFault>
    requires { head.now.limit ≡ draft.now.limit }
    ensures finds { Finds (field (is_reserved head.now draft.now)) reader.old reader.new result }
    ensures high { IfOk result (λ n. reserved_sum (frame draft.now) + n ≤ draft.now.limit) }
    ensures small { OnOk result (draft.now.limit ≤ 1073741824) }
    ensures least { IfOk result (λ n. 262144 ≤ n) }
    ensures aligned { IfOk result (λ n. n % 4096 ≡ 0) }
{
    let at = reader.at();
    let n = reader.word()?;
    if n % 4096 == 0 && n >= 262_144 && n <= head.limit - draft.reserved() {
        Ok(n)
    } else {
        Err(LoadFault::At(at as u64))
    }
}

// The kind of this number, in the first version or in the second.
fn kind_with(first: bool, number: u64) -> Option<SegKind>
    ensures { result ≡ slice_get (kinds_of first) number }
{
    match number {
        0 => Some(SegKind::Small),
        1 => Some(SegKind::Ephemeral),
        2 => Some(SegKind::Large),
        3 if !first => Some(SegKind::Pinned),
        _ => None,
    }
}

// Whether a segment of this kind may follow: no second ephemeral one, and no small one behind it.
fn may_follow(draft: &HeapDraft, kind: SegKind) -> bool
    ensures { result ≡ fields.may_follow draft.now.segments kind }
{
    match kind {
        SegKind::Small | SegKind::Ephemeral => !draft.has(SegKind::Ephemeral),
        SegKind::Large | SegKind::Pinned => true,
    }
}

// The kind of the next segment.
fn read_kind(reader: &mut Reader<'_>, draft: &HeapDraft, first: bool) -> Result<SegKind, LoadFault>
    ensures { Finds (kind_field first draft.now.segments) reader.old reader.new result }
{
    let at = reader.at();
    let number = reader.word()?;
    match kind_with(first, number) {
        Some(kind) if may_follow(draft, kind) => Ok(kind),
        _ => Err(LoadFault::At(at as u64)),
    }
}

// Whether a number is a multiple of 8 from low to high.
fn is_between(low: u64, n: u64, high: u64) -> bool
    ensures { result ≡ faults.is_between low n high }
{
    n % 8 == 0 && low <= n && n <= high
}

// The end of a segment.
fn read_end(reader: &mut Reader<'_>, base: u64, reserved: u64) -> Result<u64, LoadFault>
    requires { base + reserved + 4096 < 2 ^ 64 }
    ensures finds { Finds (field (is_end base reserved)) reader.old reader.new result }
    ensures aligned { IfOk result (λ e. e % 8 ≡ 0) }
    ensures low { IfOk result (λ e. base + 4096 ≤ e) }
    ensures high { IfOk result (λ e. e ≤ base + reserved) }
{
    let at = reader.at();
    let end = reader.word()?;
    if is_between(base + 4096, end, base + reserved) {
        Ok(end)
    } else {
        Err(LoadFault::At(at as u64))
    }
}

// A boundary of a segment, from a place on.
fn read_boundary(reader: &mut Reader<'_>, info: &SegInfo, low: u64) -> Result<u64, LoadFault>
    ensures { Finds (field (is_boundary info.now low)) reader.old reader.new result }
{
    let at = reader.at();
    let boundary = reader.word()?;
    let lawful = if info.kind == SegKind::Ephemeral {
        is_between(low, boundary, info.end)
    } else {
        boundary == 0
    };
    if lawful {
        Ok(boundary)
    } else {
        Err(LoadFault::At(at as u64))
    }
}

/// The fields before the memory of the next segment.
#[tactic(auto, unfolding(clr_format::specs::HeapFields::segment_head_fields))]
pub fn read_segment_head(
    reader: &mut Reader<'_>,
    draft: &HeapDraft,
    head: &Head,
) -> Result<SegmentHead, LoadFault>
    requires { head.now.limit ≡ draft.now.limit }
    ensures finds { Finds (segment_head_fields head.now draft.now) reader.old reader.new result }
    ensures lawful { IfOk result (λ s. IsNextHead draft.now s) }
    ensures small { OnOk result (draft.now.limit ≤ 1073741824) }
{
    let base = read_base(reader, draft)?;
    let reserved = read_reserved(reader, draft, head)?;
    let kind = read_kind(reader, draft, head.first)?;
    let end = read_end(reader, base, reserved)?;
    let info = SegInfo {
        base,
        reserved,
        kind,
        end,
    };
    let start1 = read_boundary(reader, &info, base + 4096)?;
    let start0 = read_boundary(reader, &info, start1)?;
    Ok(SegmentHead {
        info,
        start1,
        start0,
    })
}
