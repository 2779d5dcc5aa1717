// A small heap, and the fault of it where one of its words is another.
ghost use Rattle.std.specs.Prelude.{◌≡◌};
ghost use Rattle.clr_heap.specs.View.{no_rests};

use clr_bricks::Bricks;
use clr_final::Finals;
use clr_handles::Handles;
use clr_heap::{Heap, SegKind};
use clr_sos::{State, View, verifyheap, verifyheap_with_room};
use clr_types::header::SUPPRESSED;
use clr_types::{Shape, Types};
use std::alloc::Global;
use std::process::Abort;
use std::test::Fail;

// The bytes that all segments may reserve together.
pub const LIMIT: u64 = 1_048_576;

// The method table word of free space. Those of the types follow, 64 apart.
const FREE: u64 = 0x7ff0_0000_0000;

// A class of a reference and a number, arrays of bytes, and a class without slots that has a finaliser.
pub fn sample_types(alloc: Global) -> Result<Types, Fail> {
    let mut types = Types::new(alloc)?;
    let _ = types.define(b"Pair", Shape::Class(b"rn"), false)?;
    let _ = types.define(b"Bytes", Shape::ByteArray, false)?;
    let _ = types.define(b"Gone", Shape::Class(b""), true)?;
    Ok(types)
}

// Writes a word of segment `k`.
fn put_in(rt: &impl Abort, heap: &mut Heap, k: usize, a: u64, v: u64)
    requires { heap.old.rests ≡ no_rests }
    ensures { heap.new.rests ≡ no_rests }
{
    assert!(rt; k < heap.segments());
    let segment = heap.info(k);
    assert!(rt; a % 8 == 0);
    assert!(rt; segment.base <= a);
    assert!(rt; a < segment.base + segment.reserved);
    heap.set_word(a, v);
}

// Writes a word of the first segment.
fn put(rt: &impl Abort, heap: &mut Heap, a: u64, v: u64)
    requires { heap.old.rests ≡ no_rests }
    ensures { heap.new.rests ≡ no_rests }
{
    put_in(rt, heap, 0, a, v);
}

// Moves the end of segment `k`.
fn end_at(rt: &impl Abort, heap: &mut Heap, k: usize, end: u64)
    requires { heap.old.rests ≡ no_rests }
    ensures { heap.new.rests ≡ no_rests }
{
    assert!(rt; k < heap.segments());
    let segment = heap.info(k);
    assert!(rt; end % 8 == 0);
    assert!(rt; segment.base + 0x1000 <= end);
    assert!(rt; end <= segment.base + segment.reserved);
    heap.set_end(k, end);
}

// Ends the first segment. Generation 0 starts at `start0`, and generation 1 at the second item.
fn finish(rt: &impl Abort, heap: &mut Heap, start0: u64, end: u64)
    requires { heap.old.rests ≡ no_rests }
    ensures { heap.new.rests ≡ no_rests }
{
    end_at(rt, heap, 0, end);
    heap.set_boundaries(0x1000_1020, start0);
}

// Two pairs, of which the first names the second.
fn put_pairs(rt: &impl Abort, heap: &mut Heap)
    requires { heap.old.rests ≡ no_rests }
    ensures { heap.new.rests ≡ no_rests }
{
    put(rt, heap, 0x1000_1000, FREE + 64);
    put(rt, heap, 0x1000_1008, 0x1000_1020);
    put(rt, heap, 0x1000_1010, 5);
    put(rt, heap, 0x1000_1020, FREE + 64);
    put(rt, heap, 0x1000_1030, 6);
    finish(rt, heap, 0x1000_1040, 0x1000_1040);
}

// A pair that names the bytes behind it, a free item, and an object without slots whose finaliser is suppressed.
pub fn put_items(rt: &impl Abort, heap: &mut Heap)
    requires { heap.old.rests ≡ no_rests }
    ensures { heap.new.rests ≡ no_rests }
{
    put(rt, heap, 0x1000_1000, FREE + 64);
    put(rt, heap, 0x1000_1008, 0x1000_1020);
    put(rt, heap, 0x1000_1010, 5);
    put(rt, heap, 0x1000_1020, FREE + 128);
    put(rt, heap, 0x1000_1028, 5);
    put(rt, heap, 0x1000_1030, 0xff_ffff_ffff);
    put(rt, heap, 0x1000_1040, FREE);
    put(rt, heap, 0x1000_1048, 8);
    put(rt, heap, 0x1000_1058, SUPPRESSED);
    put(rt, heap, 0x1000_1060, FREE + 192);
    finish(rt, heap, 0x1000_1060, 0x1000_1078);
}

// What `verifyheap` answers where the locals are null and this one. With room of one word the answer is to be the same.
fn verified(
    rt: &impl Abort,
    alloc: Global,
    types: &Types,
    heap: &Heap,
    local: u64,
) -> Result<Result<(), u64>, Fail>
    requires { heap.now.rests ≡ no_rests }
{
    let bricks = Bricks::new(alloc);
    let handles = Handles::new(alloc);
    let finals = Finals::new(alloc);
    let locals = [0, local];
    let view = View {
        types,
        heap,
        bricks: &bricks,
        handles: &handles,
        finals: &finals,
        locals: &locals,
        limit: LIMIT,
        large: 85_000,
    };
    let state = State {
        view,
        steps: &[],
        holder: None,
    };
    let answer = verifyheap(&state);
    let mut room = [7];
    assert!(rt; verifyheap_with_room(&state, &mut room) == answer);
    Ok(answer)
}

// What is answered for the heap of items with another word at an address, and a local.
fn answer(
    rt: &impl Abort,
    alloc: Global,
    types: &Types,
    a: u64,
    v: u64,
    local: u64,
) -> Result<Result<(), u64>, Fail> {
    let mut heap = Heap::new(alloc, 262_144, LIMIT)?;
    put_items(rt, &mut heap);
    put(rt, &mut heap, a, v);
    verified(rt, alloc, types, &heap, local)
}

// Each row is an address, the word that stands there, a local, and the answer.
fn answers_each(
    rt: &impl Abort,
    alloc: Global,
    rows: &[(u64, u64, u64, Result<(), u64>)],
) -> Result<(), Fail> {
    let types = sample_types(alloc)?;
    for &(a, v, local, want) in rows {
        assert_eq!(rt; answer(rt, alloc, &types, a, v, local)?, want, "{v} at {a}");
    }
    Ok(())
}

// What is answered for a heap whose pinned segment has one item of 32 bytes, with this method table word and length.
fn pinned_answer(
    rt: &impl Abort,
    alloc: Global,
    types: &Types,
    mt: u64,
    len: u64,
) -> Result<Result<(), u64>, Fail> {
    let mut heap = Heap::new(alloc, 262_144, LIMIT)?;
    let k = heap.acquire(SegKind::Pinned, 262_144)?;
    put_in(rt, &mut heap, k, 0x1008_1000, mt);
    put_in(rt, &mut heap, k, 0x1008_1008, len);
    end_at(rt, &mut heap, k, 0x1008_1020);
    verified(rt, alloc, types, &heap, 0)
}

#[test]
fn a_reference_into_a_middle_is_found(rt: HostRuntime) -> Result<(), Fail> {
    let alloc = rt.alloc();
    let types = sample_types(alloc)?;
    let mut heap = Heap::new(alloc, 262_144, LIMIT)?;
    put_pairs(&rt, &mut heap);
    assert_eq!(rt; verified(&rt, alloc, &types, &heap, 0)?, Ok(()));
    put(&rt, &mut heap, 0x1000_1008, 0x1000_1028);
    assert_eq!(rt; verified(&rt, alloc, &types, &heap, 0)?, Err(0x1000_1008));
    put(&rt, &mut heap, 0x1000_1008, 0x1000_1000);
    assert_eq!(rt; verified(&rt, alloc, &types, &heap, 0)?, Ok(()));
    Ok(())
}

#[test]
fn faults_of_words_are_found(rt: HostRuntime) -> Result<(), Fail> {
    answers_each(
        &rt,
        rt.alloc(),
        &[
            // the heap as it is, with null in place of the reference, and with a header that isn't suppressed
            (0x1000_1010, 6, 0, Ok(())),
            (0x1000_1008, 0, 0, Ok(())),
            (0x1000_1058, 0, 0, Ok(())),
            // headers
            (0x1000_0ff8, SUPPRESSED, 0, Err(0x1000_0ff8)),
            (0x1000_1038, 1, 0, Err(0x1000_1038)),
            // method table words
            (0x1000_1000, FREE + 65, 0, Err(0x1000_1000)),
            (0x1000_1020, FREE + 256, 0, Err(0x1000_1020)),
            // lengths
            (0x1000_1028, 0x100_0000_0000, 0, Err(0x1000_1028)),
            (0x1000_1048, 9, 0, Err(0x1000_1048)),
            // items that cross a boundary
            (0x1000_1048, 16, 0, Err(0x1000_1038)),
            (0x1000_1028, 100, 0, Err(0x1000_1018)),
            // padding
            (0x1000_1030, 0x0100_00ff_ffff_ffff, 0, Err(0x1000_1037)),
            (0x1000_1068, 0x100, 0, Err(0x1000_1069)),
        ],
    )
}

#[test]
fn faults_of_names_are_found(rt: HostRuntime) -> Result<(), Fail> {
    answers_each(
        &rt,
        rt.alloc(),
        &[
            // references to a free item, past all, and to an odd address
            (0x1000_1008, 0x1000_1040, 0, Err(0x1000_1008)),
            (0x1000_1008, u64::MAX, 0, Err(0x1000_1008)),
            (0x1000_1008, 0x1000_1001, 0, Err(0x1000_1008)),
            // a local that is an object's place, and locals that name a free item and an object's middle
            (0x1000_1010, 7, 0x1000_1060, Ok(())),
            (0x1000_1010, 7, 0x1000_1040, Err(0)),
            (0x1000_1010, 7, 0x1000_1028, Err(0)),
            // a wrong reference comes before a wrong local
            (0x1000_1008, 0x1000_1028, 0x1000_1028, Err(0x1000_1008)),
        ],
    )
}

#[test]
fn types_of_pinned_segments_are_checked(rt: HostRuntime) -> Result<(), Fail> {
    let alloc = rt.alloc();
    let mut types = Types::new(alloc)?;
    let _ = types.define(b"Bytes", Shape::ByteArray, false)?;
    let _ = types.define(b"Numbers", Shape::StructArray(b"n"), false)?;
    let _ = types.define(b"Table", Shape::RefArray, false)?;
    let _ = types.define(b"Names", Shape::StructArray(b"r"), false)?;
    let _ = types.define(b"Pair", Shape::Class(b"nn"), false)?;
    for (number, len, want) in [
        (0, 8, Ok(())),
        (1, 8, Ok(())),
        (2, 1, Ok(())),
        (3, 1, Err(0x1008_1000)),
        (4, 1, Err(0x1008_1000)),
        (5, 1, Err(0x1008_1000)),
        (6, 1, Err(0x1008_1000)),
        (1, 9, Err(0x1008_0ff8)),
    ] {
        let found = pinned_answer(&rt, alloc, &types, FREE + 64 * number, len)?;
        assert_eq!(rt; found, want, "type {number}");
    }
    Ok(())
}
