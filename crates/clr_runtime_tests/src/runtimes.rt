// Types that are defined or refused, contexts that are used up, and want of room.

ghost use Rattle.std.specs.Prelude.{◌≡◌, ◌≤◌, true};
ghost use Rattle.clr_model.specs.LineGrammar.{is_name};

mod collections;
mod options;

use clr_model::Refusal;
use clr_runtime::{Options, Runtime};
use clr_types::Shape;
use std::alloc::Global;
use std::process::Abort;
use std::test::Fail;

// Defines a type without a finaliser.
fn define(runtime: &mut Runtime, name: &[u8], shape: Shape<'_>) -> Result<u64, Refusal>
    requires { is_name name.now ≡ true }
{
    runtime.define(name, shape, false)
}

// Each object that is made for local 0 of a thread stands where it is wanted, or the line is refused.
fn expect_births(
    rt: &impl Abort,
    runtime: &mut Runtime,
    births: &[(u64, &[u8], Option<u64>, Result<u64, Refusal>)],
) {
    for (t, name, len, want) in births {
        assert_eq!(rt; runtime.new_object(*t, 0, name, *len), *want);
    }
}

// A runtime of two segments, with a class of a reference and a number, arrays of references, and arrays of bytes.
fn small_runtime(alloc: Global) -> Result<Runtime, Fail> {
    runtime_of_segments(alloc, 2)
}

// A runtime with room for so many segments, with a class of a reference and a number, arrays of references, and arrays
// of bytes.
fn runtime_of_segments(alloc: Global, count: u64) -> Result<Runtime, Fail>
    requires least { 2 ≤ count }
    requires most { count ≤ 4096 }
{
    let options = Options {
        limit: 262_144 * count,
        segment: 262_144,
        b0: 262_144,
        b1: 1_048_576,
        b2: 4_194_304,
        bl: 4_194_304,
        compact: 50,
        large: 85_000,
    };
    let mut runtime = Runtime::new(alloc, options)?;
    let told = define_types(&mut runtime);
    runtime_where(told, runtime)
}

// Defines a class of a reference and a number, arrays of references, and arrays of bytes.
fn define_types(runtime: &mut Runtime) -> Result<(), Refusal> {
    let _ = define(runtime, b"Pair", Shape::Class(b"rn"))?;
    let _ = define(runtime, b"Refs", Shape::RefArray)?;
    let _ = define(runtime, b"Bytes", Shape::ByteArray)?;
    Ok(())
}

// The runtime, where it was told what it was to be told.
fn runtime_where(told: Result<(), Refusal>, runtime: Runtime) -> Result<Runtime, Fail> {
    match told {
        Ok(()) => Ok(runtime),
        Err(refusal) => {
            drop(runtime);
            Err(Fail::from(refusal))
        }
    }
}

#[test]
fn types_are_defined_or_refused(rt: HostRuntime) -> Result<(), Fail> {
    let mut runtime = small_runtime(rt.alloc())?;
    let duplicate = define(&mut runtime, b"Free", Shape::Class(b"x"));
    assert_eq!(rt; duplicate, Err(Refusal::DuplicateType));
    let bad = define(&mut runtime, b"Text", Shape::Class(b"x"));
    assert_eq!(rt; bad, Err(Refusal::BadShape));
    let text = define(&mut runtime, b"Text", Shape::StructArray(b"nr"));
    assert_eq!(rt; text, Ok(0x7ff0_0000_0100));
    drop(runtime);
    Ok(())
}

#[test]
fn contexts_are_used_up_and_refilled(rt: HostRuntime) -> Result<(), Fail> {
    let mut runtime = small_runtime(rt.alloc())?;
    let births = [
        // four arrays of 2,048 bytes fill a context of 8,192, and the next thread's context lies behind it
        (1, b"Bytes".as_slice(), Some(2024), Ok(0x1000_1000)),
        (1, b"Bytes".as_slice(), Some(2024), Ok(0x1000_1800)),
        (2, b"Pair".as_slice(), None, Ok(0x1000_3000)),
        (1, b"Bytes".as_slice(), Some(2024), Ok(0x1000_2000)),
        (1, b"Bytes".as_slice(), Some(2024), Ok(0x1000_2800)),
        (1, b"Pair".as_slice(), None, Ok(0x1000_5000)),
        // 8,160 bytes are left of it, of which 8,144 would leave 16: it is given up, and another thread finds it
        (1, b"Bytes".as_slice(), Some(8120), Ok(0x1000_7000)),
        (3, b"Refs".as_slice(), Some(1), Ok(0x1000_5020)),
    ];
    expect_births(&rt, &mut runtime, &births);
    drop(runtime);
    Ok(())
}

#[test]
fn a_smaller_object_fits_where_a_greater_one_does_not(rt: HostRuntime) -> Result<(), Fail> {
    let mut runtime = small_runtime(rt.alloc())?;
    let births = [
        // three arrays of 84,992 bytes that stay, each in a context of its own, leave 3,072 bytes of the segment
        (1, b"Bytes".as_slice(), Some(84_968), Ok(0x1000_1000)),
        (2, b"Bytes".as_slice(), Some(84_968), Ok(0x1001_5c00)),
        (3, b"Bytes".as_slice(), Some(84_968), Ok(0x1002_a800)),
        (4, b"Bytes".as_slice(), Some(84_968), Err(Refusal::Oom)),
        (4, b"Bytes".as_slice(), Some(3049), Err(Refusal::Oom)),
        (4, b"Bytes".as_slice(), Some(3048), Ok(0x1003_f400)),
        (5, b"Bytes".as_slice(), Some(0), Err(Refusal::Oom)),
    ];
    expect_births(&rt, &mut runtime, &births);
    assert_eq!(rt; runtime.copy(4, 1, 0), Ok(0x1003_f400));
    drop(runtime);
    Ok(())
}

#[test]
fn a_full_compaction_makes_room(rt: HostRuntime) -> Result<(), Fail> {
    let mut runtime = small_runtime(rt.alloc())?;
    let births = [
        // the second array takes the place of the first one in its local
        (1, b"Bytes".as_slice(), Some(84_968), Ok(0x1000_1000)),
        (1, b"Bytes".as_slice(), Some(84_968), Ok(0x1001_5c00)),
        (2, b"Bytes".as_slice(), Some(84_968), Ok(0x1002_a800)),
        // a sweep leaves the first one's bytes to generation 1, so what stays goes down
        (3, b"Bytes".as_slice(), Some(84_968), Ok(0x1002_a800)),
        (4, b"Bytes".as_slice(), Some(84_968), Err(Refusal::Oom)),
    ];
    expect_births(&rt, &mut runtime, &births);
    assert_eq!(rt; runtime.copy(1, 1, 0), Ok(0x1000_1000));
    assert_eq!(rt; runtime.copy(2, 1, 0), Ok(0x1001_5c00));
    drop(runtime);
    Ok(())
}

#[test]
fn a_full_segment_is_sealed(rt: HostRuntime) -> Result<(), Fail> {
    let mut runtime = runtime_of_segments(rt.alloc(), 3)?;
    let births = [
        // four arrays that stay fill the segment, but for 4,096 bytes in front, and the limit allows one more
        (1, b"Bytes".as_slice(), Some(64_488), Ok(0x1000_1000)),
        (2, b"Bytes".as_slice(), Some(64_488), Ok(0x1001_0c00)),
        (3, b"Bytes".as_slice(), Some(64_488), Ok(0x1002_0800)),
        (4, b"Bytes".as_slice(), Some(64_488), Ok(0x1003_0400)),
        (5, b"Bytes".as_slice(), Some(64_488), Ok(0x1008_1000)),
        (6, b"Bytes".as_slice(), Some(64_488), Ok(0x1009_0c00)),
        (7, b"Bytes".as_slice(), Some(64_488), Ok(0x100a_0800)),
        (8, b"Bytes".as_slice(), Some(64_488), Ok(0x100b_0400)),
        (9, b"Bytes".as_slice(), Some(64_488), Err(Refusal::Oom)),
    ];
    expect_births(&rt, &mut runtime, &births);
    assert_eq!(rt; runtime.copy(4, 1, 0), Ok(0x1003_0400));
    drop(runtime);
    Ok(())
}

#[test]
fn large_objects_get_segments_of_their_own(rt: HostRuntime) -> Result<(), Fail> {
    let mut runtime = runtime_of_segments(rt.alloc(), 3)?;
    let births = [
        // three arrays of some 85,000 bytes leave 3,040 bytes of a large segment, and one of 84,992 bytes is small
        (1, b"Bytes".as_slice(), Some(84_976), Ok(0x1004_1000)),
        (2, b"Bytes".as_slice(), Some(84_984), Ok(0x1005_5c08)),
        (3, b"Refs".as_slice(), Some(10_622), Ok(0x1006_a818)),
        (4, b"Bytes".as_slice(), Some(84_976), Ok(0x1008_1000)),
        (5, b"Bytes".as_slice(), Some(84_968), Ok(0x1000_1000)),
        (6, b"Bytes".as_slice(), Some(84_976), Ok(0x1009_5c08)),
        (7, b"Bytes".as_slice(), Some(84_976), Ok(0x100a_a810)),
        (8, b"Bytes".as_slice(), Some(84_976), Err(Refusal::Oom)),
        (
            8,
            b"Bytes".as_slice(),
            Some(1_073_741_800),
            Err(Refusal::Oom),
        ),
        (
            8,
            b"Bytes".as_slice(),
            Some(1_073_741_801),
            Err(Refusal::TooBig),
        ),
    ];
    expect_births(&rt, &mut runtime, &births);
    assert_eq!(rt; runtime.clear(2, 0), Ok(()));
    assert_eq!(rt; runtime.clear(4, 0), Ok(()));
    let again = [
        // the lowest place comes first, but no free item of which 8 bytes would be left
        (8, b"Bytes".as_slice(), Some(84_976), Ok(0x1008_1000)),
        (9, b"Bytes".as_slice(), Some(84_984), Ok(0x1005_5c08)),
    ];
    expect_births(&rt, &mut runtime, &again);
    drop(runtime);
    Ok(())
}
