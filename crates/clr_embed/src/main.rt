//! Uses the heap as a library: a list is made, held by a local, and collected as soon as nothing holds it.
#![tactic(auto)]

ghost use Rattle.std.specs.Prelude.{IfOk};
ghost use Rattle.clr_embed.specs.Live.{IsAllLive};

mod fault;

use clr_model::{Collected, How, Refusal};
use clr_runtime::{Options, Runtime};
use clr_types::{Kind, Shape};
use fault::Fault;

/// Makes a list of so many nodes, which local 0 of thread 1 holds. Each refers to the one before, and has its number.
fn make_list(runtime: &mut Runtime, count: u64) -> Result<(), Refusal> {
    for number in 0..count {
        let _ = runtime.new_object(1, 1, b"Node", None)?;
        runtime.set(1, 1, 0, 0)?;
        runtime.put(1, 1, 1, number)?;
        let _ = runtime.copy(1, 0, 1)?;
    }
    runtime.clear(1, 1)
}

/// Collects all generations. Each object that is left is reached from the roots: what nothing reaches is freed.
#[tactic(auto, using(crate::proofs::FullCollection::live_if_ok))]
fn collect_all(runtime: &mut Runtime) -> Result<Collected, Refusal>
    ensures { IfOk result (λ _. IsAllLive runtime.new.machine) }
{
    // Its clause `sound` says that what is seen is a lawful state, from which a collection starts.
    let _ = runtime.heap();
    runtime.collect(1, 2, How::Compact)
}

/// Collects, and tells what was kept, and whether a weak handle still has its object.
fn tell_collection(rt: &HostRuntime, runtime: &mut Runtime, weak: u64) -> Result<(), Fault> {
    let collected = collect_all(runtime)?;
    let named = runtime.fetch(1, 1, weak)?;
    runtime.clear(1, 1)?;
    println!(rt;
        "kept {} freed {}, the weak handle is {}",
        collected.kept,
        collected.freed,
        if named == 0 { "null" } else { "an object's" }
    )?;
    Ok(())
}

/// Makes a list, and collects while a local holds it, and after.
fn run(rt: &HostRuntime, runtime: &mut Runtime) -> Result<(), Fault> {
    let _ = runtime.define(b"Node", Shape::Class(b"rn"), false)?;
    make_list(runtime, 1000)?;
    let weak = runtime.handle(1, Kind::Weak, 0, None)?;
    tell_collection(rt, runtime, weak)?;
    runtime.clear(1, 0)?;
    tell_collection(rt, runtime, weak)
}

#[tactic(auto, using(crate::proofs::DefaultOptions::lawful_defaults))]
fn main(rt: HostRuntime) -> Result<(), Fault> {
    let mut runtime = Runtime::new(rt.alloc(), Options::defaults())?;
    let told = run(&rt, &mut runtime);
    drop(runtime);
    told
}
