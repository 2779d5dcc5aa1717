//! Commands with their scripts and streams: how they end, and what they write.
ghost use Rattle.std.specs.Prelude.{◌<◌};

mod adapters;
mod arguments;
mod faults;
mod images;
mod lines;
mod looks;
mod opens;
mod scripts;

use clr_run::{Arguments, MemorySink, MemorySource, PlainSource, Sink, Source, Status, run};
use std::alloc::Global;
use std::process::Abort;
use std::test::Fail;

/// The reply to `dumpheap` where the heap is empty.
const EMPTY_HEAP: &str = "total 0 bytes 0 free 0\n";

/// A `Vec` of these bytes.
fn bytes_of(alloc: Global, bytes: &[u8]) -> Result<Vec<u8>, Fail> {
    Ok(Vec::from_slice(alloc, bytes)?)
}

/// The arguments of a command line.
fn arguments_of(alloc: Global, texts: &[&str]) -> Result<Arguments, Fail> {
    let mut arguments = Arguments::new(alloc)?;
    for text in texts {
        arguments.push(text)?;
    }
    Ok(arguments)
}

/// How the command of these arguments ends, where no image is read from a source of its own.
fn status_of<S: Source, K: Sink>(
    alloc: Global,
    texts: &[&str],
    source: &mut S,
    sink: &mut K,
) -> Result<Status, Fail> {
    let mut image = PlainSource::new(Vec::new(alloc));
    status_with(alloc, texts, &mut image, source, sink)
}

/// How the command of these arguments ends, with this source of an image. It promises nothing, so that what `run`
/// ensures doesn't stand in the goals of each test.
fn status_with<I: Source, S: Source, K: Sink>(
    alloc: Global,
    texts: &[&str],
    image: &mut I,
    source: &mut S,
    sink: &mut K,
) -> Result<Status, Fail> {
    let arguments = arguments_of(alloc, texts)?;
    let mut end_state = None;
    let status = run(alloc, &arguments, image, source, sink, &mut end_state);
    drop(end_state);
    Ok(status)
}

/// A command over bytes in memory: how many a read and a write move at most, which read and which write fail, counted
/// from 1, and for how many bytes there is room.
#[derive(Clone, Copy)]
struct Trial<'a> {
    command: &'a str,
    input: &'a [u8],
    read_piece: usize,
    failing_read: u64,
    write_piece: usize,
    failing_write: u64,
    room: usize,
}

/// How the command ends, and what it wrote.
fn outcome_of(alloc: Global, trial: Trial<'_>) -> Result<(Status, Vec<u8>), Fail>
    requires read { 0 < trial.read_piece }
    requires write { 0 < trial.write_piece }
{
    let input = bytes_of(alloc, trial.input)?;
    let reads = Vec::from_slice(alloc, &[trial.failing_read])?;
    let writes = Vec::from_slice(alloc, &[trial.failing_write])?;
    let mut source = MemorySource::new(input, trial.read_piece, reads);
    let mut sink = MemorySink::new(alloc, trial.room, trial.write_piece, writes)?;
    let status = status_of(alloc, &[trial.command], &mut source, &mut sink)?;
    let text = bytes_of(alloc, sink.bytes())?;
    Ok((status, text))
}

/// How a command ends of which no call fails, and what it wrote.
fn whole_outcome(alloc: Global, command: &str, input: &[u8]) -> Result<(Status, Vec<u8>), Fail> {
    let trial = Trial {
        command,
        input,
        read_piece: 1_000,
        failing_read: 0,
        write_piece: 700,
        failing_write: 0,
        room: 1_000_000,
    };
    outcome_of(alloc, trial)
}

/// Runs a script, and wants these replies.
fn expect_replies(
    rt: &impl Abort,
    alloc: Global,
    script: &[u8],
    replies: &[u8],
) -> Result<(), Fail> {
    let (status, text) = whole_outcome(alloc, "run", script)?;
    assert_eq!(rt; status, Status::Done);
    assert!(rt; text.as_slice() == replies);
    Ok(())
}
