// Collections of many objects, whatever room the mark stack has, and one that fits.
ghost use Rattle.std.specs.Prelude.{◌≤◌};
ghost use Rattle.clr_model.specs.Laws.{IsUsual};

use super::{define, runtime_where};
use clr_model::{Collected, How, Refusal};
use clr_runtime::{Options, Runtime};
use clr_types::Shape;
use std::alloc::Global;
use std::process::Abort;
use std::test::Fail;

// A runtime whose mark stack has room for so many objects, with a class of one reference and arrays of references. No
// budget is ever used up.
fn runtime_with_stack(alloc: Global, capacity: usize) -> Result<Runtime, Fail>
    requires { 1 ≤ capacity }
{
    let options = Options {
        limit: 33_554_432,
        segment: 16_777_216,
        b0: 1_073_741_824,
        b1: 1_073_741_824,
        b2: 1_073_741_824,
        bl: 1_073_741_824,
        compact: 50,
        large: 85_000,
    };
    let mut runtime = Runtime::with_mark_stack(alloc, options, capacity)?;
    let told = define_types(&mut runtime);
    runtime_where(told, runtime)
}

// Defines a class of one reference, and arrays of references.
fn define_types(runtime: &mut Runtime) -> Result<(), Refusal> {
    let _ = define(runtime, b"Link", Shape::Class(b"r"))?;
    let _ = define(runtime, b"Table", Shape::RefArray)?;
    Ok(())
}

// Makes two objects, of which the first refers to the second, and puts the first into slot `i` of the table of local 0.
fn put_pair(runtime: &mut Runtime, i: u64) -> Result<(), Refusal> {
    let _ = runtime.new_object(1, 1, b"Link", None)?;
    let _ = runtime.new_object(1, 2, b"Link", None)?;
    runtime.set(1, 1, 0, 2)?;
    runtime.set(1, 0, i, 1)
}

// Makes a table of such pairs, which local 0 alone reaches.
fn make_table(runtime: &mut Runtime, pairs: u64) -> Result<(), Refusal> {
    let _ = runtime.new_object(1, 0, b"Table", Some(pairs))?;
    for i in 0..pairs {
        put_pair(runtime, i)?;
    }
    runtime.clear(1, 1)?;
    runtime.clear(1, 2)
}

// Puts one more object before the list of local 0.
fn put_before(runtime: &mut Runtime) -> Result<(), Refusal> {
    let _ = runtime.new_object(1, 1, b"Link", None)?;
    runtime.set(1, 1, 0, 0)?;
    let _ = runtime.copy(1, 0, 1)?;
    Ok(())
}

// Makes a list that locals 0 and 1 reach.
fn make_list(runtime: &mut Runtime, links: u64) -> Result<(), Refusal> {
    for _ in 0..links {
        put_before(runtime)?;
    }
    Ok(())
}

// Takes every second pair out of the table of local 0. Local 3 holds null.
fn halve_table(runtime: &mut Runtime, pairs: u64) -> Result<(), Refusal> {
    for i in 0..pairs / 2 {
        runtime.set(1, 0, 2 * i, 3)?;
    }
    Ok(())
}

// A full collection answers these numbers of objects that are kept and freed, and of bytes that went to generation 1
// and 2.
fn expect_collected(rt: &impl Abort, runtime: &mut Runtime, how: How, want: [u64; 4])
    requires { IsUsual 2 how }
{
    let told = runtime.collect(16, 2, how);
    let want = Collected {
        generation: 2,
        compacted: how == How::Compact,
        fitted: false,
        background: false,
        kept: want[0],
        freed: want[1],
        promoted1: want[2],
        promoted2: want[3],
    };
    assert_eq!(rt; told, Ok(want));
}

// Collects a table of 10,000 pairs with all of them, with half of them, and without it.
fn collect_table(rt: &impl Abort, runtime: &mut Runtime, how: How)
    requires { IsUsual 2 how }
{
    assert_eq!(rt; make_table(runtime, 10_000), Ok(()));
    expect_collected(rt, runtime, how, [20_001, 0, 560_024, 0]);
    assert_eq!(rt; halve_table(runtime, 10_000), Ok(()));
    expect_collected(rt, runtime, how, [10_001, 10_000, 0, 320_024]);
    assert_eq!(rt; runtime.clear(1, 0), Ok(()));
    expect_collected(rt, runtime, how, [0, 10_001, 0, 0]);
}

#[test]
fn a_stack_for_one_object_serves(rt: HostRuntime) -> Result<(), Fail> {
    let mut runtime = runtime_with_stack(rt.alloc(), 1)?;
    collect_table(&rt, &mut runtime, How::Sweep);
    collect_table(&rt, &mut runtime, How::Compact);
    drop(runtime);
    Ok(())
}

#[test]
fn a_table_is_wider_than_the_stack(rt: HostRuntime) -> Result<(), Fail> {
    let mut runtime = runtime_with_stack(rt.alloc(), 1024)?;
    collect_table(&rt, &mut runtime, How::Sweep);
    collect_table(&rt, &mut runtime, How::Compact);
    drop(runtime);
    Ok(())
}

#[test]
fn a_long_list_is_kept(rt: HostRuntime) -> Result<(), Fail> {
    let mut runtime = runtime_with_stack(rt.alloc(), 1024)?;
    assert_eq!(rt; make_list(&mut runtime, 200_000), Ok(()));
    expect_collected(&rt, &mut runtime, How::Sweep, [200_000, 0, 4_800_000, 0]);
    expect_collected(&rt, &mut runtime, How::Compact, [200_000, 0, 0, 4_800_000]);
    drop(runtime);
    Ok(())
}

// Makes two objects of generation 2, which locals 0 and 2 hold, with a free item of 24 bytes between them, and two of
// generation 1 above, of which local 4 holds the higher one, and nothing the other.
fn make_gap(runtime: &mut Runtime) -> Result<(), Refusal> {
    for local in 0..3 {
        let _ = runtime.new_object(1, local, b"Link", None)?;
    }
    sweep_twice(runtime)?;
    runtime.clear(1, 1)?;
    let _ = runtime.collect(1, 2, How::Sweep)?;
    let _ = runtime.new_object(1, 3, b"Link", None)?;
    let _ = runtime.new_object(1, 4, b"Link", None)?;
    let _ = runtime.collect(1, 0, How::Sweep)?;
    runtime.clear(1, 3)
}

// All objects are of generation 2 afterwards.
fn sweep_twice(runtime: &mut Runtime) -> Result<(), Refusal> {
    let _ = runtime.collect(1, 1, How::Sweep)?;
    let _ = runtime.collect(1, 1, How::Sweep)?;
    Ok(())
}

// Of these a collection that fits keeps one, which goes between those of generation 2.
fn expect_fitted(rt: &impl Abort, runtime: &mut Runtime) {
    let told = runtime.collect(1, 1, How::Fit);
    let want = Collected {
        generation: 1,
        compacted: true,
        fitted: true,
        background: false,
        kept: 1,
        freed: 1,
        promoted1: 0,
        promoted2: 24,
    };
    assert_eq!(rt; told, Ok(want));
    assert_eq!(rt; runtime.copy(1, 5, 4), Ok(0x1000_1018));
}

#[test]
fn a_survivor_goes_between_older_objects(rt: HostRuntime) -> Result<(), Fail> {
    let mut runtime = runtime_with_stack(rt.alloc(), 1)?;
    assert_eq!(rt; make_gap(&mut runtime), Ok(()));
    expect_fitted(&rt, &mut runtime);
    drop(runtime);
    Ok(())
}
