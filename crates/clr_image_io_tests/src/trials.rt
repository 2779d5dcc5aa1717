//! Commands over bytes in memory: how they end, and what they write.
ghost use Rattle.std.specs.Prelude.{◌<◌};

use clr_image_io::{inspect_source, migrate_source};
use clr_streams::{MemorySink, MemorySource, Sink, Source, Status};
use std::alloc::Global;
use std::test::Fail;

/// A `Vec` of these bytes.
pub fn bytes_of(alloc: Global, bytes: &[u8]) -> Result<Vec<u8>, Fail> {
    Ok(Vec::from_slice(alloc, bytes)?)
}

/// A command that looks at an image.
#[derive(Clone, Copy, Debug)]
pub enum Command {
    Inspect,
    Migrate,
}

/// How a command ends. It promises nothing, so that what the commands ensure doesn't stand in each test's goals.
fn status_of<S: Source, K: Sink>(
    alloc: Global,
    command: Command,
    source: &mut S,
    sink: &mut K,
) -> Status {
    match command {
        Command::Inspect => inspect_source(alloc, source, sink),
        Command::Migrate => migrate_source(alloc, source, sink),
    }
}

/// A command over bytes in memory: how many a read and a write move at most, which read and which write fail, counted
/// from 1, and for how many bytes there is room.
#[derive(Clone, Copy)]
pub struct Trial<'a> {
    pub command: Command,
    pub input: &'a [u8],
    pub read_piece: usize,
    pub failing_read: u64,
    pub write_piece: usize,
    pub failing_write: u64,
    pub room: usize,
}

/// How the command ends, and what it wrote.
pub fn outcome_of(alloc: Global, trial: Trial<'_>) -> Result<(Status, Vec<u8>), Fail>
    requires read { 0 < trial.read_piece }
    requires write { 0 < trial.write_piece }
{
    let input = bytes_of(alloc, trial.input)?;
    let reads = Vec::from_slice(alloc, &[trial.failing_read])?;
    let writes = Vec::from_slice(alloc, &[trial.failing_write])?;
    let mut source = MemorySource::new(input, trial.read_piece, reads);
    let mut sink = MemorySink::new(alloc, trial.room, trial.write_piece, writes)?;
    let status = status_of(alloc, trial.command, &mut source, &mut sink);
    let text = bytes_of(alloc, sink.bytes())?;
    Ok((status, text))
}

/// How a command ends of which no call fails, and what it wrote.
pub fn whole_outcome(
    alloc: Global,
    command: Command,
    input: &[u8],
) -> Result<(Status, Vec<u8>), Fail> {
    let trial = Trial {
        command,
        input,
        read_piece: 1_000,
        failing_read: 0,
        write_piece: 700,
        failing_write: 0,
        room: 1_000_000,
    };
    outcome_of(alloc, trial)
}
