// Heaps that are built part by part, and what is read back from them.
ghost use Rattle.std.specs.Prelude.{◌≡◌, ◌≢◌, ◌^◌, ℕ, ◌+◌, ◌%◌, ◌<◌, ◌≤◌, [], ◌∷◌, ◌++◌};
ghost use Rattle.std.specs.Prelude.{false, length, None, OnOk};
ghost use Rattle.clr_types.specs.Segments.{opening_segment, reserved_sum};
ghost use Rattle.clr_types.specs.Types.{form_at, size_of};
ghost use Rattle.clr_heap.specs.Parts.{IsMakeable, item_part, made_item, rest_part};
ghost use Rattle.clr_heap.specs.View.{AreWalkable, frame, IsWalkable, last_of, no_rests, parts_of, PartsAre};
ghost use Rattle.clr_heap.specs.View.{segment_at};

use clr_heap::{AcquireFault, Heap, HeapDraft, SegInfo, SegKind, SegmentHead};
use clr_mem::{Mem, NoMemory};
use clr_types::{Shape, TypeId, Types};
use std::alloc::Global;
use std::process::Abort;
use std::test::Fail;

const FREE: TypeId = TypeId(0);

const PAIR: TypeId = TypeId(1);

const REFERENCES: TypeId = TypeId(2);

const BYTES: TypeId = TypeId(3);

// Defines a type that is new. It promises nothing, so that what `define` ensures doesn't stand in the goals above.
pub fn define(rt: &impl Abort, types: &mut Types, name: &[u8], shape: Shape, finalizer: bool) {
    assert!(rt; types.define(name, shape, finalizer).is_ok());
}

// A class of a reference and a number, arrays of references, and arrays of bytes.
fn sample_types(alloc: Global) -> Result<Types, Fail> {
    let mut types = Types::new(alloc)?;
    let _ = types.define(b"Pair", Shape::Class(b"rn"), false)?;
    let _ = types.define(b"Refs", Shape::RefArray, false)?;
    let _ = types.define(b"Bytes", Shape::ByteArray, false)?;
    Ok(types)
}

// The size of an item of this type and length, which can be made.
pub fn size_to_make(rt: &impl Abort, types: &Types, t: TypeId, len: u64) -> u64
    ensures size { result ≡ size_of (form_at types.now t.0) len }
    ensures item { IsMakeable types.now t.0 len }
{
    assert!(rt; t.0 < types.count());
    assert!(rt; types.has_length(t) || len == 0);
    assert!(rt; t.0 != 0 || len % 8 == 0);
    let size = types.size_of(t, len).expect(rt, "at most 2^30 bytes");
    assert!(rt; size >= 24);
    assert!(rt; size % 8 == 0);
    size
}

// Makes an item at the end of segment `k`, and answers its place.
fn append(rt: &impl Abort, heap: &mut Heap, types: &Types, k: usize, t: TypeId, len: u64) -> u64
    requires in_range { k < length heap.old.segments }
    requires walkable { IsWalkable types.now heap.old k }
    ensures place { result ≡ last_of heap.old k }
    ensures parts { PartsAre types.now heap.new k (parts_of types.now heap.old k
        ++ item_part (made_item types.now (last_of heap.old k) t.0 len) ∷ []) }
    ensures count { length heap.new.segments ≡ length heap.old.segments }
    ensures kind { (segment_at heap.new k).kind ≡ (segment_at heap.old k).kind }
    ensures rests { heap.new.rests ≡ heap.old.rests }
    ensures others { (j : ℕ) → j ≢ k → segment_at heap.new j ≡ segment_at heap.old j }
{
    let segment = heap.info(k);
    let size = size_to_make(rt, types, t, len);
    heap.lawful();
    assert!(rt; segment.end + size <= segment.base + segment.reserved);
    assert!(rt; heap.hole_end(k, segment.end).is_none());
    heap.make_object(types, segment.end, t, len);
    heap.set_end(k, segment.end + size);
    segment.end
}

// Makes a hole of `size` bytes at the end of the ephemeral segment `k`, as what is left of a thread's context.
fn open_context(rt: &impl Abort, heap: &mut Heap, types: &Types, k: usize, thread: usize, size: u64)
    requires in_range { k < length heap.old.segments }
    requires walkable { IsWalkable types.now heap.old k }
    requires young { (segment_at heap.old k).kind ≡ SegKind.Ephemeral }
    requires none { heap.old.rests ≡ no_rests }
    requires positive { 0 < thread }
    requires few { thread ≤ 16 }
    requires least { 24 ≤ size }
    requires whole { size % 8 ≡ 0 }
    requires small { size < 1000 }
    ensures parts { PartsAre types.now heap.new k (parts_of types.now heap.old k
        ++ rest_part (last_of heap.old k) (last_of heap.old k + size) ∷ []) }
    ensures count { length heap.new.segments ≡ length heap.old.segments }
{
    let segment = heap.info(k);
    heap.lawful();
    assert!(rt; segment.end + size <= segment.base + segment.reserved);
    heap.set_end(k, segment.end + size);
    heap.set_hole(thread, segment.end, segment.end + size);
}

// Writes a byte of segment `k`, and answers the word that it belongs to.
fn poke(rt: &impl Abort, heap: &mut Heap, k: usize, a: u64, v: u8) -> u64
    requires in_range { k < length heap.old.segments }
    ensures count { length heap.new.segments ≡ length heap.old.segments }
{
    heap.lawful();
    let segment = heap.info(k);
    assert!(rt; segment.base <= a);
    assert!(rt; a < segment.base + segment.reserved);
    heap.set_byte(a, v);
    assert_eq!(rt; heap.byte(a), v);
    heap.word(a / 8 * 8)
}

// Writes a word of segment `k`, moves it down, and answers what stands at its new place.
fn shift(rt: &impl Abort, heap: &mut Heap, k: usize, from: u64, to: u64, v: u64) -> u64
    requires in_range { k < length heap.old.segments }
    requires from_aligned { from % 8 ≡ 0 }
    requires to_aligned { to % 8 ≡ 0 }
    requires down { to ≤ from }
    requires low { from < 2 ^ 60 }
    ensures count { length heap.new.segments ≡ length heap.old.segments }
{
    heap.lawful();
    let segment = heap.info(k);
    assert!(rt; segment.base <= to);
    assert!(rt; from + 8 <= segment.base + segment.reserved);
    assert_eq!(rt; heap.segment_of(from), k);
    heap.set_word(from, v);
    heap.move_cells(from, to, 8);
    heap.word(to)
}

// The items of the first segment are to be these, each by its place, size, type and length.
pub fn expect_items(rt: &impl Abort, heap: &Heap, types: &Types, want: &[(u64, u64, u32, u64)])
    requires in_range { 0 < length heap.now.segments }
    requires walkable { IsWalkable types.now heap.now 0 }
{
    let mut number = 0;
    for found in heap.walk(types, 0) {
        assert!(rt; number < want.len());
        assert_eq!(rt;
            (found.place, found.size, found.type_id.0, found.len),
            want[number]
        );
        number += 1;
    }
    assert_eq!(rt; number, want.len());
}

// What is left of contexts is to be that of thread 3 alone.
fn expect_rest(rt: &impl Abort, heap: &Heap)
    requires { 0 < length heap.now.segments }
{
    assert_eq!(rt; heap.hole(3), Some((0x1000_10b0, 0x1000_1110)));
    assert_eq!(rt; heap.hole(4), None);
    assert_eq!(rt; heap.next_hole(0, 0x1000_1000), 0x1000_10b0);
    assert_eq!(rt; heap.next_hole(0, 0x1000_10b0), u64::MAX);
}

#[test]
fn a_heap_is_read_back(rt: HostRuntime) -> Result<(), Fail> {
    let types = sample_types(rt.alloc())?;
    let mut heap = Heap::new(rt.alloc(), 262_144, 1_048_576)?;
    let _ = append(&rt, &mut heap, &types, 0, PAIR, 0);
    let _ = append(&rt, &mut heap, &types, 0, BYTES, 5);
    let _ = append(&rt, &mut heap, &types, 0, FREE, 40);
    let _ = append(&rt, &mut heap, &types, 0, REFERENCES, 3);
    open_context(&rt, &mut heap, &types, 0, 3, 96);
    let want = [
        (0x1000_1000, 32, 1, 0),
        (0x1000_1020, 32, 3, 5),
        (0x1000_1040, 64, 0, 40),
        (0x1000_1080, 48, 2, 3),
    ];
    expect_items(&rt, &heap, &types, &want);
    expect_rest(&rt, &heap);
    Ok(())
}

// The places of the objects that stand at these addresses.
fn expect_objects(rt: &impl Abort, heap: &Heap, types: &Types, cases: &[(u64, Option<u64>)])
    requires { AreWalkable types.now heap.now }
{
    for &(a, want) in cases {
        let found = heap.object_at(types, a);
        assert_eq!(rt; found.map(|item| item.place), want, "at {a}");
    }
}

#[test]
fn objects_are_found(rt: HostRuntime) -> Result<(), Fail> {
    let types = sample_types(rt.alloc())?;
    let mut heap = Heap::new(rt.alloc(), 262_144, 1_048_576)?;
    let pair = append(&rt, &mut heap, &types, 0, PAIR, 0);
    let free = append(&rt, &mut heap, &types, 0, FREE, 40);
    let item = heap.item_in(&types, 0, free);
    assert_eq!(rt; item.map(|i| (i.place, i.size)), Some((0x1000_1020, 64)));
    let cases = [
        (pair, Some(0x1000_1000)),
        (free, None),
        (0x1000_1008, None),
        (0x0fff_0000, None),
        (0x1004_1000, None),
        (0x7000_0000, None),
    ];
    expect_objects(&rt, &heap, &types, &cases);
    Ok(())
}

fn expect_generations(rt: &impl Abort, heap: &Heap, cases: &[(u64, u8)]) {
    for &(place, want) in cases {
        assert_eq!(rt; heap.gen_of(place), want, "at {place}");
    }
}

#[test]
fn places_have_generations(rt: HostRuntime) -> Result<(), Fail> {
    let mut heap = Heap::new(rt.alloc(), 262_144, 1_048_576)?;
    assert_eq!(rt; heap.boundaries(), (0x1000_1000, 0x1000_1000));
    heap.set_boundaries(0x1000_2000, 0x1000_3000);
    let cases = [
        (0x1000_0fff, 2),
        (0x1000_1000, 2),
        (0x1000_2000, 1),
        (0x1000_2ff8, 1),
        (0x1000_3000, 0),
        (0x1003_fff8, 0),
        (0x1004_0000, 2),
        (0x1004_1000, 2),
    ];
    expect_generations(&rt, &heap, &cases);
    Ok(())
}

#[test]
fn words_and_bytes_are_one(rt: HostRuntime) -> Result<(), Fail> {
    let mut heap = Heap::new(rt.alloc(), 262_144, 1_048_576)?;
    assert!(rt; heap.segments() == 2);
    assert_eq!(rt; poke(&rt, &mut heap, 1, 0x1004_1003, 0xab), 0xab00_0000);
    assert_eq!(rt;
        shift(&rt, &mut heap, 1, 0x1004_1100, 0x1004_1008, 0x4d00),
        0x4d00
    );
    assert_eq!(rt; poke(&rt, &mut heap, 1, 0x1004_1008, 1), 0x4d01);
    Ok(())
}

// Acquires a segment of 262,144 bytes, and answers its number and base.
fn acquire_more(
    rt: &impl Abort,
    heap: &mut Heap,
    kind: SegKind,
) -> Result<(usize, u64), AcquireFault>
    requires kind { kind ≢ SegKind.Small }
    requires no_contexts { heap.old.rests ≡ no_rests }
    ensures { heap.new.rests ≡ no_rests }
{
    let k = heap.acquire(kind, 262_144)?;
    assert!(rt; k < heap.segments());
    Ok((k, heap.info(k).base))
}

#[test]
fn segments_come(rt: HostRuntime) -> Result<(), Fail> {
    let mut heap = Heap::new(rt.alloc(), 262_144, 1_048_576)?;
    assert_eq!(rt; (heap.segments(), heap.top()), (2, 0x1008_0000));
    assert_eq!(rt;
        acquire_more(&rt, &mut heap, SegKind::Large),
        Ok((2, 0x1008_0000))
    );
    assert_eq!(rt;
        acquire_more(&rt, &mut heap, SegKind::Ephemeral),
        Ok((3, 0x100c_0000))
    );
    assert_eq!(rt;
        acquire_more(&rt, &mut heap, SegKind::Large),
        Err(AcquireFault::OverLimit)
    );
    assert_eq!(rt; heap.boundaries(), (0x100c_1000, 0x100c_1000));
    assert_eq!(rt;
        (heap.gen_of(0x1000_3000), heap.gen_of(0x100c_1000)),
        (2, 0)
    );
    assert!(rt; heap.segments() == 4);
    assert!(rt; heap.info(0).kind == SegKind::Small);
    Ok(())
}

#[test]
fn segments_go(rt: HostRuntime) -> Result<(), Fail> {
    let mut heap = Heap::new(rt.alloc(), 262_144, 1_048_576)?;
    assert!(rt; acquire_more(&rt, &mut heap, SegKind::Large).is_ok());
    assert!(rt; acquire_more(&rt, &mut heap, SegKind::Ephemeral).is_ok());
    assert!(rt; heap.segments() == 4);
    assert!(rt; heap.info(2).kind != SegKind::Ephemeral);
    heap.release(2);
    assert!(rt; heap.segments() == 3);
    assert_eq!(rt; heap.info(2).base, 0x100c_0000);
    assert_eq!(rt;
        acquire_more(&rt, &mut heap, SegKind::Large),
        Ok((3, 0x1010_0000))
    );
    assert_eq!(rt; heap.top(), 0x1014_0000);
    Ok(())
}

// Adds an empty segment to a draft.
fn add_empty(
    draft: &mut HeapDraft,
    alloc: Global,
    kind: SegKind,
    base: u64,
    size: u64,
) -> Result<(), NoMemory>
    requires aligned { base % 4096 ≡ 0 }
    requires lowest { 0x10000000 ≤ base }
    requires above { draft.old.top ≤ base }
    requires highest { base ≤ 2 ^ 61 }
    requires whole { size % 4096 ≡ 0 }
    requires least { 262144 ≤ size }
    requires within_limit { reserved_sum (frame draft.old) + size ≤ draft.old.limit }
    ensures segments { OnOk result (draft.new.segments
        ≡ draft.old.segments ++ opening_segment base kind size ∷ []) }
    ensures top { OnOk result (draft.new.top ≡ base + size) }
    ensures limit { OnOk result (draft.new.limit ≡ draft.old.limit) }
{
    draft.lawful();
    let info = SegInfo::empty(kind, base, size);
    let start = info.end;
    let head = SegmentHead {
        info,
        start1: start,
        start0: start,
    };
    let memory = Mem::new(alloc, base, size)?;
    draft.add_segment(head, memory)
}

#[test]
fn a_draft_with_a_long_segment_becomes_a_heap(rt: HostRuntime) -> Result<(), Fail> {
    let mut draft = HeapDraft::empty(rt.alloc(), 0x4000_0000)?;
    add_empty(
        &mut draft,
        rt.alloc(),
        SegKind::Small,
        0x1000_0000,
        134_217_728,
    )?;
    add_empty(
        &mut draft,
        rt.alloc(),
        SegKind::Ephemeral,
        0x1800_0000,
        262_144,
    )?;
    assert_eq!(rt; draft.reserved(), 134_479_872);
    assert!(rt; draft.has(SegKind::Small) && !draft.has(SegKind::Large));
    let heap = draft.finish();
    assert!(rt; heap.segments() == 2);
    assert_eq!(rt; heap.info(0).reserved, 134_217_728);
    assert_eq!(rt; heap.boundaries(), (0x1800_1000, 0x1800_1000));
    assert_eq!(rt;
        (heap.gen_of(0x1000_1000), heap.gen_of(0x1800_1000)),
        (2, 0)
    );
    assert_eq!(rt; heap.top(), 0x1804_0000);
    Ok(())
}
